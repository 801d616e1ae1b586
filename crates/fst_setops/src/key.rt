//! The names of the states of a difference.

ghost use Rattle.std.specs.Prelude.{◌≡◌};
ghost use Rattle.fst_setops.specs.Difference.{rest_number, second_number};
ghost use Rattle.fst_setops.specs.Good.{same_decides};

use fst_keys::{Code, Coded};
use std::alloc::{AllocError, Global};
use std::marker::Model;

/// For how many states of a machine there is room in the number of a name.
const ROOM: u64 = 2_147_483_648;

/// The name of a state of a difference: a state of the first machine, and the state of the second to which what was read
/// leads there, if there is one.
#[derive(Clone, Copy, Debug, PartialEq, Eq, PartialOrd, Ord)]
pub(crate) struct RestKey {
    /// The state of the first machine.
    pub(crate) first: u32,
    /// The state of the second machine.
    pub(crate) second: Option<u32>,
}

impl Model for RestKey {
    ghost use Rattle.std.specs.Prelude.{ℕ};
    ghost use Rattle.fst_setops.specs.Difference.{Rest};

    ghost Value = { Rest ℕ ℕ };

    ghost view = { λ k. record { first = k.first; second = k.second } };

    ghost inverse = { λ k. record { first = k.first; second = k.second } };
}

/// The number of a second part: 0 where there is none.
fn number_of(second: Option<u32>) -> u64
    ensures { result ≡ second_number second }
{
    match second {
        Some(state) => u64::from(state) + 1,
        None => 0,
    }
}

/// A name is found by its parts side by side in one number, where they have room. They have in each difference, since a
/// machine has at most 4,194,304 states.
impl Coded for RestKey {
    type Whole = RestKey;

    ghost code = { rest_number };

    ghost whole = { λ n. n };

    fn code(&self) -> Code {
        let first = u64::from(self.first);
        let second = number_of(self.second);
        if first < ROOM && second < ROOM {
            return Code {
                number: 1 + first + second * ROOM,
                is_alone: true,
            };
        }
        Code {
            number: 0,
            is_alone: false,
        }
    }

    fn whole(&self, _alloc: Global) -> Result<RestKey, AllocError> {
        Ok(*self)
    }

    ghost same = { same_decides };

    ghost apart = { λ a b e. e };

    ghost compared = { same_decides };
}
