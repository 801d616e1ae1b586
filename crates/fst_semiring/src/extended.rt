//! Whole numbers and both infinities, which the tropical and the min-max weights are made of.

ghost use Rattle.std.specs.Prelude.{◌≡◌, ◌⊎◌, ◌++◌, pos, IfSome, IfNone, MatchOption, OnOk, OnErr};
ghost use Rattle.fst_semiring.specs.Cost.{Cost, best, finite, infinite, cost_cmp};
ghost use Rattle.fst_semiring.specs.Keys.{key_of};
ghost use Rattle.fst_semiring.specs.Semiring.{InRange, IsCost, IsSmall, IsWithin};
ghost use Rattle.fst_semiring.specs.WeightText.{cost_of_text, text_of_cost, ReadsAs};
ghost use Rattle.fst_semiring.specs.declared.arc_type.ArcType.TheVariants.{MinMax, Tropical};

use crate::key::Key;
use crate::number::{LIMIT, narrow_number, push_number, read_number};
use crate::weight::BadWeight;
use std::alloc::AllocError;
use std::cmp::Ordering;
use std::marker::Model;

/// A whole number of absolute value at most 10 to the 18, infinity or minus infinity. It takes 8 bytes:
/// the numbers past the limit on either side stand for the infinities.
#[derive(Clone, Copy, Debug, PartialEq, Eq)]
pub struct Extended {
    number: i64,
}

impl Model for Extended {
    ghost use Rattle.std.specs.Prelude.{pos, neg_ℤ, ◌≤ℤ◌};
    ghost use Rattle.fst_semiring.specs.Cost.{Cost};
    ghost use Rattle.fst_semiring.specs.Packed.{cost_between, number_between};

    ghost Value = { Cost };

    ghost view = { λ t. cost_between (neg_ℤ (pos 1000000000000000000)) (pos 1000000000000000000) t.number };

    ghost invariant = { λ t. (neg_ℤ (pos 1000000000000000001) ≤ℤ t.number) × (t.number ≤ℤ pos 1000000000000000001) };

    ghost inverse = { λ v. record { number = number_between (neg_ℤ (pos 1000000000000000001)) (pos 1000000000000000001) v } };
}

/// The same with a number of 128 bits. The greatest of these stands for infinity, and the least for minus
/// infinity.
#[derive(Clone, Copy, Debug, PartialEq, Eq)]
pub struct WideExtended {
    number: i128,
}

impl Model for WideExtended {
    ghost use Rattle.std.specs.Prelude.{pos, neg_ℤ, ◌≤ℤ◌};
    ghost use Rattle.fst_semiring.specs.Cost.{Cost};
    ghost use Rattle.fst_semiring.specs.Packed.{cost_between, number_between};

    ghost Value = { Cost };

    ghost view = { λ t. cost_between (neg_ℤ (pos 170141183460469231731687303715884105727)) (pos 170141183460469231731687303715884105726) t.number };

    ghost invariant = { λ t. (neg_ℤ (pos 170141183460469231731687303715884105728) ≤ℤ t.number) × (t.number ≤ℤ pos 170141183460469231731687303715884105727) };

    ghost inverse = { λ v. record { number = number_between (neg_ℤ (pos 170141183460469231731687303715884105728)) (pos 170141183460469231731687303715884105727) v } };
}

impl Extended {
    /// Infinity.
    pub fn infinity() -> Extended
        ensures { result ≡ infinite }
    {
        Extended { number: LIMIT + 1 }
    }

    /// Minus infinity.
    pub fn minus_infinity() -> Extended
        ensures { result ≡ best }
    {
        Extended { number: -LIMIT - 1 }
    }

    /// A number of absolute value at most 10 to the 18.
    pub fn number(number: i64) -> Extended
        requires { IsSmall number }
        ensures { result ≡ finite number (pos 0) }
    {
        Extended { number }
    }

    /// The number; `None` for both infinities.
    pub fn value(self) -> Option<i64>
        ensures { MatchOption result ((self ≡ infinite) ⊎ (self ≡ best)) (λ n. (self ≡ finite n (pos 0)) × IsSmall n) }
    {
        if self.number > LIMIT || self.number < -LIMIT {
            None
        } else {
            Some(self.number)
        }
    }

    /// The same in the wide form.
    pub fn widen(self) -> WideExtended
        ensures same { result ≡ self }
        ensures range { InRange self }
        ensures kind { IsCost MinMax self }
    {
        if self.number > LIMIT {
            WideExtended { number: i128::MAX }
        } else if self.number < -LIMIT {
            WideExtended { number: i128::MIN }
        } else {
            WideExtended {
                number: i128::from(self.number),
            }
        }
    }

    /// The same in the narrow form. `None` exactly where the absolute value of its number is above 10 to the 18.
    pub fn narrow(wide: WideExtended) -> Option<Extended>
        ensures found { IfSome result (λ w. w ≡ wide) }
        ensures range { IfSome result InRange }
        ensures none { IfNone result (InRange wide → ⊥) }
    {
        if wide.number == i128::MAX {
            return Some(Extended::infinity());
        }
        if wide.number == i128::MIN {
            return Some(Extended::minus_infinity());
        }
        let number = narrow_number(wide.number)?;
        Some(Extended { number })
    }

    /// What `Infinity` or a number of a weight text stands for.
    pub fn read(field: &[u8]) -> Result<Extended, BadWeight>
        ensures value { ReadsAs (λ w. w) result (cost_of_text Tropical field.now) }
    {
        if field == b"Infinity".as_slice() {
            return Ok(Extended::infinity());
        }
        match read_number(field) {
            Some(number) => Ok(Extended { number }),
            None => Err(BadWeight),
        }
    }

    /// The value with a key. `None` exactly where there is none with this key and a number of absolute value at
    /// most 10 to the 18.
    pub fn from_key(key: Key) -> Option<Extended>
        ensures found { IfSome result (λ w. key_of w ≡ key) }
        ensures none { IfNone result ((v : Cost) → IsCost MinMax v → InRange v → key_of v ≡ key → ⊥) }
    {
        match key {
            Key {
                class: 0,
                first: 0,
                second: 0,
            } => Some(Extended::minus_infinity()),
            Key {
                class: 2,
                first: 0,
                second: 0,
            } => Some(Extended::infinity()),
            Key {
                class: 1,
                first,
                second: 0,
            } => {
                let number = narrow_number(first)?;
                Some(Extended { number })
            }
            _ => None,
        }
    }

    /// Appends the printed form. An `Err` changes nothing.
    pub fn push_text(self, out: &mut Vec<u8>) -> Result<(), AllocError>
        ensures ok { OnOk result (out.new.items ≡ out.old.items ++ text_of_cost MinMax self) }
        ensures err { OnErr result (out.new.items ≡ out.old.items) }
    {
        if self.number > LIMIT {
            return out.extend_from_slice(b"Infinity");
        }
        if self.number < -LIMIT {
            return out.extend_from_slice(b"-Infinity");
        }
        push_number(out, self.number)
    }
}

impl WideExtended {
    /// A number of absolute value below 2 to the 121.
    pub fn number(number: i128) -> WideExtended
        requires { IsWithin 2658455991569831745807614120560689150 number }
        ensures { result ≡ finite number (pos 0) }
    {
        WideExtended { number }
    }

    /// The number; `None` for both infinities.
    pub fn value(self) -> Option<i128>
        ensures { MatchOption result ((self ≡ infinite) ⊎ (self ≡ best)) (λ n. self ≡ finite n (pos 0)) }
    {
        if self.number == i128::MAX || self.number == i128::MIN {
            None
        } else {
            Some(self.number)
        }
    }

    /// How two compare: minus infinity, then the numbers, then infinity.
    pub fn compare(self, other: WideExtended) -> Ordering
        ensures order { result ≡ cost_cmp self other }
        ensures kinds { IsCost MinMax self × IsCost MinMax other }
    {
        self.number.cmp(&other.number)
    }

    /// The key. Keys compare as the values do.
    pub fn key(self) -> Key
        ensures { result ≡ key_of self }
    {
        if self.number == i128::MAX {
            Key {
                class: 2,
                first: 0,
                second: 0,
            }
        } else if self.number == i128::MIN {
            Key {
                class: 0,
                first: 0,
                second: 0,
            }
        } else {
            Key {
                class: 1,
                first: self.number,
                second: 0,
            }
        }
    }
}
