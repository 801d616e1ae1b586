//! The boolean weights: false and true with or and and.

ghost use Rattle.std.specs.Prelude.{true, refl};
ghost use Rattle.fst_semiring.specs.Cost.{Cost};

use crate::arc_type::ArcType;
use crate::key::Key;
use crate::weight::{BadWeight, Weight};
use std::alloc::AllocError;
use std::cmp::Ordering;
use std::marker::Model;

/// True or false. True is One, and the better of the two. It has no numbers, so that it is its own wide
/// form.
#[derive(Clone, Copy, Debug, PartialEq, Eq)]
pub struct Boolean {
    truth: bool,
}

impl Model for Boolean {
    ghost use Rattle.fst_semiring.specs.Cost.{Cost};
    ghost use Rattle.fst_semiring.specs.Packed.{cost_of_truth, truth_of_cost};

    ghost Value = { Cost };

    ghost view = { λ b. cost_of_truth b.truth };

    ghost inverse = { λ v. record { truth = truth_of_cost v } };
}

impl Weight for Boolean {
    type Wide = Boolean;

    ghost use Rattle.fst_semiring.specs.declared.arc_type.ArcType.TheVariants as kinds;

    ghost KIND = { kinds.Boolean };

    const KIND: ArcType = ArcType::Boolean;

    ghost CANCELS = { true };

    const CANCELS: bool = true;

    ghost value = { λ t. t };

    ghost wide_value = { λ t. t };

    fn zero() -> Boolean {
        Boolean { truth: false }
    }

    fn one() -> Boolean {
        Boolean { truth: true }
    }

    fn widen(self) -> Boolean {
        self
    }

    fn narrow(wide: Boolean) -> Option<Boolean> {
        Some(wide)
    }

    fn single_number(self) -> Option<i64> {
        None
    }

    fn wide_compare(a: Boolean, b: Boolean) -> Ordering {
        b.truth.cmp(&a.truth)
    }

    fn wide_times(a: Boolean, b: Boolean) -> Boolean {
        Boolean {
            truth: a.truth && b.truth,
        }
    }

    fn wide_divide(a: Boolean, _by: Boolean) -> Boolean {
        a
    }

    fn key(wide: Boolean) -> Key {
        Key {
            class: if wide.truth { 1 } else { 2 },
            first: 0,
            second: 0,
        }
    }

    fn read_weight(field: &[u8]) -> Result<Boolean, BadWeight> {
        if field == b"0".as_slice() {
            Ok(Boolean::zero())
        } else if field == b"1".as_slice() {
            Ok(Boolean::one())
        } else {
            Err(BadWeight)
        }
    }

    fn from_key(key: Key) -> Option<Boolean> {
        match key {
            Key {
                class: 1,
                first: 0,
                second: 0,
            } => Some(Boolean::one()),
            Key {
                class: 2,
                first: 0,
                second: 0,
            } => Some(Boolean::zero()),
            _ => None,
        }
    }

    fn push_text(self, out: &mut Vec<u8>) -> Result<(), AllocError> {
        if self.truth {
            out.extend_from_slice(b"1")
        } else {
            out.extend_from_slice(b"0")
        }
    }

    ghost cancels_by_kind = { refl };

    ghost value_apart = { λ a b e. e };
}
