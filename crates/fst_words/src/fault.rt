//! Why words are not read.

use std::alloc::AllocError;

/// Why words are not read.
#[derive(Clone, Copy, Debug, PartialEq, Eq)]
pub enum WordsFault {
    /// They are not the words of a command.
    Usage,
    /// There is no memory.
    Memory,
}

impl From<AllocError> for WordsFault {
    ghost use Rattle.std.specs.Prelude.{◌≡◌};
    ghost use Rattle.fst_words.specs.declared.fault.WordsFault.TheVariants as faults;

    ghost from_gives = { λ _ e. e ≡ faults.Memory };

    fn from(_e: AllocError) -> WordsFault {
        WordsFault::Memory
    }
}
