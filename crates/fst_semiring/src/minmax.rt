//! The min-max weights: whole numbers and both infinities with minimum and maximum.

ghost use Rattle.std.specs.Prelude.{false, refl};
ghost use Rattle.fst_semiring.specs.Cost.{Cost};

use crate::arc_type::ArcType;
use crate::extended::{Extended, WideExtended};
use crate::key::Key;
use crate::weight::{BadWeight, Weight};
use std::alloc::AllocError;
use std::cmp::Ordering;
use std::marker::Model;

/// A whole number of absolute value at most 10 to the 18, infinity or minus infinity. It takes 8 bytes.
#[derive(Clone, Copy, Debug, PartialEq, Eq)]
pub struct MinMax {
    number: Extended,
}

impl Model for MinMax {
    ghost use Rattle.fst_semiring.specs.Cost.{Cost};

    ghost Value = { Cost };

    ghost view = { λ t. t.number };

    ghost inverse = { λ v. record { number = v } };
}

/// A min-max weight with a number of 128 bits.
#[derive(Clone, Copy, Debug, PartialEq, Eq)]
pub struct WideMinMax {
    number: WideExtended,
}

impl Model for WideMinMax {
    ghost use Rattle.fst_semiring.specs.Cost.{Cost};

    ghost Value = { Cost };

    ghost view = { λ t. t.number };

    ghost inverse = { λ v. record { number = v } };
}

impl Weight for MinMax {
    type Wide = WideMinMax;

    ghost use Rattle.fst_semiring.specs.declared.arc_type.ArcType.TheVariants as kinds;

    ghost KIND = { kinds.MinMax };

    const KIND: ArcType = ArcType::MinMax;

    ghost CANCELS = { false };

    const CANCELS: bool = false;

    ghost value = { λ t. t };

    ghost wide_value = { λ t. t };

    fn zero() -> MinMax {
        let number = Extended::infinity();
        MinMax { number }
    }

    fn one() -> MinMax {
        let number = Extended::minus_infinity();
        MinMax { number }
    }

    fn widen(self) -> WideMinMax {
        let number = self.number.widen();
        WideMinMax { number }
    }

    fn narrow(wide: WideMinMax) -> Option<MinMax> {
        let number = Extended::narrow(wide.number)?;
        Some(MinMax { number })
    }

    fn single_number(self) -> Option<i64> {
        self.number.value()
    }

    fn wide_compare(a: WideMinMax, b: WideMinMax) -> Ordering {
        a.number.compare(b.number)
    }

    fn wide_times(a: WideMinMax, b: WideMinMax) -> WideMinMax {
        match MinMax::wide_compare(a, b) {
            Ordering::Greater => a,
            _ => b,
        }
    }

    fn wide_divide(a: WideMinMax, _by: WideMinMax) -> WideMinMax {
        a
    }

    fn key(wide: WideMinMax) -> Key {
        wide.number.key()
    }

    fn read_weight(field: &[u8]) -> Result<MinMax, BadWeight> {
        if field == b"-Infinity".as_slice() {
            return Ok(MinMax::one());
        }
        let number = Extended::read(field)?;
        Ok(MinMax { number })
    }

    fn from_key(key: Key) -> Option<MinMax> {
        let number = Extended::from_key(key)?;
        Some(MinMax { number })
    }

    fn push_text(self, out: &mut Vec<u8>) -> Result<(), AllocError> {
        self.number.push_text(out)
    }

    ghost cancels_by_kind = { refl };

    ghost value_apart = { λ a b e. e };
}
