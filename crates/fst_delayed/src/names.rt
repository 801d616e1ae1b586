//! Names in a set.

ghost use Rattle.std.specs.Prelude.{◌≡◌, ◌≤◌, ◌++◌, ℕ, OnErr, OnOk, length, take};
ghost use Rattle.fst_machine.specs.BreadthFirst.{Apart, Has};
ghost use Rattle.fst_delayed.specs.Handed.{Name};

use fst_compose::ComposeKey;
use fst_keys::KeySet;
use std::alloc::{AllocError, Global};

/// Puts the first of other names after these, so many of them. Where there is no memory, some of them may stand after
/// these.
pub(crate) fn put_names(
    names: &mut KeySet<ComposeKey>,
    more: &KeySet<ComposeKey>,
    count: usize,
) -> Result<(), AllocError>
    requires count { count ≤ length more.now }
    requires apart { Apart names.old }
    requires once { Apart more.now }
    requires far { (n : Name ℕ ℕ) → Has names.old n → Has (take count more.now) n → ⊥ }
    ensures added { OnOk result (names.new ≡ names.old ++ take count more.now) }
    ensures front { (k : ℕ) × (names.new ≡ names.old ++ take k more.now) }
    ensures apart { Apart names.new }
{
    for place in 0..count {
        names.put(*more.item(place))?;
    }
    Ok(())
}

/// Drops all but the first names, of which so many are kept. Where there is no memory, the names are as before.
pub(crate) fn keep_first(
    alloc: Global,
    names: &mut KeySet<ComposeKey>,
    count: usize,
) -> Result<(), AllocError>
    requires count { count ≤ length names.old }
    requires apart { Apart names.old }
    ensures kept { OnOk result (names.new ≡ take count names.old) }
    ensures err { OnErr result (names.new ≡ names.old) }
{
    if names.len() == count {
        return Ok(());
    }
    let mut first = KeySet::new(alloc);
    put_names(&mut first, names, count)?;
    *names = first;
    Ok(())
}
