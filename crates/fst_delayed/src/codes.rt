//! The codes of names.

ghost use Rattle.std.specs.Prelude.{◌≡◌, ◌<◌};
ghost use Rattle.fst_delayed.specs.Coding.{code_of};

use fst_compose::ComposeKey;

/// The code by which workers claim a name: never 0, and different for different names of states of machines.
pub fn code(key: ComposeKey) -> u64
    ensures code { result ≡ code_of key }
    ensures some { 0 < result }
{
    1 + 2 * (u64::from(key.first) * 4_194_304 + u64::from(key.second)) + u64::from(key.filter)
}
