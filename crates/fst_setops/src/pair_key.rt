//! Pairs of states of two machines.

ghost use Rattle.std.specs.Prelude.{◌≡◌};
ghost use Rattle.fst_setops.specs.PairNumbers.{pair_decides, pair_number, part_of};

use fst_keys::{Code, Coded};
use std::alloc::{AllocError, Global};
use std::marker::Model;

/// For how many states of a machine there is room in the number of a pair.
const ROOM: u32 = 2_147_483_648;

/// A state of each of two machines, or none.
#[derive(Clone, Copy, PartialEq, Eq, PartialOrd, Ord)]
pub(crate) struct PairKey {
    pub(crate) first: Option<u32>,
    pub(crate) second: Option<u32>,
}

impl Model for PairKey {
    ghost use Rattle.std.specs.Prelude.{ℕ};
    ghost use Rattle.fst_setops.specs.Separating.{Pair};

    ghost Value = { Pair ℕ ℕ };

    ghost view = { λ k. record { first = k.first; second = k.second } };

    ghost inverse = { λ k. record { first = k.first; second = k.second } };
}

/// A state as a part of a number: 0 where there is none, and else the state after it. A state that has no room has none.
fn part_of(state: Option<u32>) -> Option<u64>
    ensures { result ≡ part_of state }
{
    match state {
        None => Some(0),
        Some(state) => {
            if state < ROOM {
                Some(u64::from(state) + 1)
            } else {
                None
            }
        }
    }
}

/// A pair is found by its parts side by side in one number, where they have room. They have for all machines, since a machine
/// has at most 4,194,304 states.
impl Coded for PairKey {
    type Whole = PairKey;

    ghost code = { pair_number };

    ghost whole = { λ k. k };

    fn code(&self) -> Code {
        if let (Some(first), Some(second)) = (part_of(self.first), part_of(self.second)) {
            return Code {
                number: 1 + first + second * 4_294_967_296,
                is_alone: true,
            };
        }
        Code {
            number: 0,
            is_alone: false,
        }
    }

    fn whole(&self, _alloc: Global) -> Result<PairKey, AllocError> {
        Ok(*self)
    }

    ghost same = { pair_decides };

    ghost apart = { λ a b e. e };

    ghost compared = { pair_decides };
}
