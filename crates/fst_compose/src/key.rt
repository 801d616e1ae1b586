//! The names of the states of a composition, and their arcs.

ghost use Rattle.std.specs.Prelude.{◌≡◌};
ghost use Rattle.fst_compose.specs.Good.{same_decides};
ghost use Rattle.fst_compose.specs.Names.{name_at, name_number};

use fst_keys::{Code, Coded};
use fst_walk::{NameArc, NameTable};
use std::alloc::{AllocError, Global};
use std::marker::Model;

/// For how many states of a machine there is room in the number of a name.
const ROOM: u32 = 2_147_483_648;

/// For how many states of both machines.
const FILTERS: u64 = 4_611_686_018_427_387_904;

/// The name of a state of a composition: a state of the first machine, one of the second, and the state of the
/// filter, which is 1 where an arc of the second machine alone led here, and else 0. (Mohri 2009, section 4.1.)
#[derive(Clone, Copy, Debug, PartialEq, Eq, PartialOrd, Ord)]
pub struct ComposeKey {
    /// The state of the first machine.
    pub first: u32,
    /// The state of the second machine.
    pub second: u32,
    /// The state of the filter, 0 or 1.
    pub filter: u8,
}

impl Model for ComposeKey {
    ghost use Rattle.std.specs.Prelude.{ℕ};
    ghost use Rattle.fst_compose.specs.Names.{Name};

    ghost Value = { Name ℕ ℕ };

    ghost view = { λ k. record { first = k.first; second = k.second; filter = k.filter } };

    ghost inverse = { λ k. record { first = k.first; second = k.second; filter = k.filter } };
}

/// A name is found by its parts side by side in one number, where they have room. They have in each composition, since a
/// machine has at most 4,194,304 states.
impl Coded for ComposeKey {
    type Whole = ComposeKey;

    ghost code = { name_number };

    ghost whole = { λ n. n };

    fn code(&self) -> Code {
        if self.first < ROOM && self.second < ROOM && self.filter < 2 {
            let first = u64::from(self.first);
            let second = u64::from(self.second) * u64::from(ROOM);
            let filter = u64::from(self.filter) * FILTERS;
            return Code {
                number: 1 + first + second + filter,
                is_alone: true,
            };
        }
        Code {
            number: 0,
            is_alone: false,
        }
    }

    fn whole(&self, _alloc: Global) -> Result<ComposeKey, AllocError> {
        Ok(*self)
    }

    ghost same = { same_decides };

    ghost apart = { λ a b e. e };

    ghost compared = { same_decides };
}

/// The name with these parts.
pub(crate) fn key_at(first: u32, second: u32, filter: u8) -> ComposeKey
    ensures { result ≡ name_at first second filter }
{
    ComposeKey {
        first,
        second,
        filter,
    }
}

/// An arc of a composition, to a name. Its weight is in the wide form.
pub type KeyArc<W> = NameArc<ComposeKey, W>;

/// The names of the states of a composition, in the order of their numbers.
pub type KeyList = NameTable<ComposeKey>;
