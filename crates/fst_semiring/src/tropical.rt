//! The tropical weights: whole numbers with minimum and sum.

ghost use Rattle.std.specs.Prelude.{◌≡◌, true, refl};
ghost use Rattle.fst_semiring.specs.Cost.{Cost};

use crate::arc_type::ArcType;
use crate::extended::{Extended, WideExtended};
use crate::key::Key;
use crate::number::{add_wide, subtract_wide};
use crate::weight::{BadWeight, Weight};
use std::alloc::AllocError;
use std::cmp::Ordering;
use std::marker::Model;

/// A whole number of absolute value at most 10 to the 18, or infinity. It takes 8 bytes.
#[derive(Clone, Copy, Debug, PartialEq, Eq)]
pub struct Tropical {
    number: Extended,
}

impl Model for Tropical {
    ghost use Rattle.fst_semiring.specs.Cost.{Cost};
    ghost use Rattle.fst_semiring.specs.Semiring.{IsCost};
    ghost use Rattle.fst_semiring.specs.declared.arc_type.ArcType.TheVariants as kinds;

    ghost Value = { Cost };

    ghost view = { λ t. t.number };

    ghost invariant = { λ t. IsCost kinds.Tropical t.number };

    ghost inverse = { λ v. record { number = v } };
}

/// A tropical weight with a number of 128 bits.
#[derive(Clone, Copy, Debug, PartialEq, Eq)]
pub struct WideTropical {
    number: WideExtended,
}

impl Model for WideTropical {
    ghost use Rattle.fst_semiring.specs.Cost.{Cost};
    ghost use Rattle.fst_semiring.specs.Semiring.{IsCost};
    ghost use Rattle.fst_semiring.specs.declared.arc_type.ArcType.TheVariants as kinds;

    ghost Value = { Cost };

    ghost view = { λ t. t.number };

    ghost invariant = { λ t. IsCost kinds.Tropical t.number };

    ghost inverse = { λ v. record { number = v } };
}

impl Weight for Tropical {
    type Wide = WideTropical;

    ghost use Rattle.fst_semiring.specs.declared.arc_type.ArcType.TheVariants as kinds;

    ghost KIND = { kinds.Tropical };

    const KIND: ArcType = ArcType::Tropical;

    ghost CANCELS = { true };

    const CANCELS: bool = true;

    ghost value = { λ t. t };

    ghost wide_value = { λ t. t };

    fn zero() -> Tropical {
        let number = Extended::infinity();
        Tropical { number }
    }

    fn one() -> Tropical {
        let number = Extended::number(0);
        Tropical { number }
    }

    fn widen(self) -> WideTropical {
        let number = self.number.widen();
        WideTropical { number }
    }

    fn narrow(wide: WideTropical) -> Option<Tropical> {
        let number = Extended::narrow(wide.number)?;
        Some(Tropical { number })
    }

    fn single_number(self) -> Option<i64> {
        self.number.value()
    }

    fn times(self, other: Tropical) -> WideTropical {
        match (self.number.value(), other.number.value()) {
            // The sum of two numbers of absolute value at most 10 to the 18 has 64 bits.
            (Some(first), Some(second)) => {
                let number = WideExtended::number(i128::from(first + second));
                WideTropical { number }
            }
            _ => Self::wide_times(self.widen(), other.widen()),
        }
    }

    fn wide_compare(a: WideTropical, b: WideTropical) -> Ordering {
        a.number.compare(b.number)
    }

    fn wide_times(a: WideTropical, b: WideTropical) -> WideTropical {
        match (a.number.value(), b.number.value()) {
            (None, _) => a,
            (_, None) => b,
            (Some(first), Some(second)) => {
                let number = WideExtended::number(add_wide(first, second));
                WideTropical { number }
            }
        }
    }

    fn wide_divide(a: WideTropical, by: WideTropical) -> WideTropical {
        match (a.number.value(), by.number.value()) {
            (Some(first), Some(second)) => {
                let number = WideExtended::number(subtract_wide(first, second));
                WideTropical { number }
            }
            _ => a,
        }
    }

    fn key(wide: WideTropical) -> Key {
        wide.number.key()
    }

    fn read_weight(field: &[u8]) -> Result<Tropical, BadWeight> {
        let number = Extended::read(field)?;
        Ok(Tropical { number })
    }

    fn from_key(key: Key) -> Option<Tropical> {
        if key.class == 0 {
            return None;
        }
        let number = Extended::from_key(key)?;
        Some(Tropical { number })
    }

    fn push_text(self, out: &mut Vec<u8>) -> Result<(), AllocError> {
        self.number.push_text(out)
    }

    ghost cancels_by_kind = { refl };

    ghost value_apart = { λ a b e. e };
}
