//! The lexicographic weights: pairs of whole numbers with the lesser pair and the sum of each part.

ghost use Rattle.std.specs.Prelude.{◌≡◌, true, refl, MatchOption};
ghost use Rattle.fst_semiring.specs.Cost.{Cost, finite, infinite};
ghost use Rattle.fst_semiring.specs.Semiring.{IsWithin};

use crate::arc_type::ArcType;
use crate::key::Key;
use crate::number::{LIMIT, add_wide, narrow_number, push_pair, read_pair, subtract_wide};
use crate::weight::{BadWeight, Weight};
use std::alloc::AllocError;
use std::cmp::Ordering;
use std::marker::Model;

/// A pair of whole numbers of absolute value at most 10 to the 18, or the infinite pair. It takes 16 bytes:
/// the number past the limit as the first part, with 0 behind it, stands for the infinite pair.
#[derive(Clone, Copy, Debug, PartialEq, Eq)]
pub struct Lexicographic {
    first: i64,
    second: i64,
}

impl Model for Lexicographic {
    ghost use Rattle.std.specs.Prelude.{◌≡◌, pos, neg_ℤ, ◌≤ℤ◌, ◌<ℤ◌};
    ghost use Rattle.fst_semiring.specs.Cost.{Cost, second_of};
    ghost use Rattle.fst_semiring.specs.Semiring.{IsSmall};
    ghost use Rattle.fst_semiring.specs.Packed.{pair_below, number_of};

    ghost Value = { Cost };

    ghost view = { λ t. pair_below (pos 1000000000000000000) t.first t.second };

    ghost invariant = { λ t. (neg_ℤ (pos 1000000000000000000) ≤ℤ t.first) × (t.first ≤ℤ pos 1000000000000000001) × IsSmall t.second × (pos 1000000000000000000 <ℤ t.first → t.second ≡ pos 0) };

    ghost inverse = { λ v. record { first = number_of (pos 1000000000000000001) v; second = second_of v } };
}

/// A lexicographic weight with numbers of 128 bits. The greatest of these as the first part, with 0 behind
/// it, stands for the infinite pair.
#[derive(Clone, Copy, Debug, PartialEq, Eq)]
pub struct WideLexicographic {
    first: i128,
    second: i128,
}

impl Model for WideLexicographic {
    ghost use Rattle.std.specs.Prelude.{◌≡◌, pos, ◌≤ℤ◌, ◌<ℤ◌};
    ghost use Rattle.fst_semiring.specs.Cost.{Cost, second_of};
    ghost use Rattle.fst_semiring.specs.Packed.{pair_below, number_of};

    ghost Value = { Cost };

    ghost view = { λ t. pair_below (pos 170141183460469231731687303715884105726) t.first t.second };

    ghost invariant = { λ t. (t.first ≤ℤ pos 170141183460469231731687303715884105727) × (pos 170141183460469231731687303715884105726 <ℤ t.first → t.second ≡ pos 0) };

    ghost inverse = { λ v. record { first = number_of (pos 170141183460469231731687303715884105727) v; second = second_of v } };
}

impl WideLexicographic {
    /// The pair of two numbers, the first of absolute value below 2 to the 121.
    fn pair(first: i128, second: i128) -> WideLexicographic
        requires { IsWithin 2658455991569831745807614120560689150 first }
        ensures { result ≡ finite first second }
    {
        WideLexicographic { first, second }
    }

    /// The two numbers; `None` for the infinite pair.
    fn numbers(self) -> Option<(i128, i128)>
        ensures { MatchOption result (self ≡ infinite) (λ p. self ≡ finite p.0 p.1) }
    {
        if self.first == i128::MAX {
            None
        } else {
            Some((self.first, self.second))
        }
    }
}

impl Weight for Lexicographic {
    type Wide = WideLexicographic;

    ghost use Rattle.fst_semiring.specs.declared.arc_type.ArcType.TheVariants as kinds;

    ghost KIND = { kinds.Lexicographic };

    const KIND: ArcType = ArcType::Lexicographic;

    ghost CANCELS = { true };

    const CANCELS: bool = true;

    ghost value = { λ t. t };

    ghost wide_value = { λ t. t };

    fn zero() -> Lexicographic {
        Lexicographic {
            first: LIMIT + 1,
            second: 0,
        }
    }

    fn one() -> Lexicographic {
        Lexicographic {
            first: 0,
            second: 0,
        }
    }

    fn widen(self) -> WideLexicographic {
        if self.first > LIMIT {
            WideLexicographic {
                first: i128::MAX,
                second: 0,
            }
        } else {
            WideLexicographic {
                first: i128::from(self.first),
                second: i128::from(self.second),
            }
        }
    }

    fn narrow(wide: WideLexicographic) -> Option<Lexicographic> {
        if wide.first == i128::MAX {
            return Some(Lexicographic::zero());
        }
        let first = narrow_number(wide.first)?;
        let second = narrow_number(wide.second)?;
        Some(Lexicographic { first, second })
    }

    fn single_number(self) -> Option<i64> {
        None
    }

    fn wide_compare(a: WideLexicographic, b: WideLexicographic) -> Ordering {
        match a.first.cmp(&b.first) {
            Ordering::Equal => a.second.cmp(&b.second),
            order => order,
        }
    }

    fn wide_times(a: WideLexicographic, b: WideLexicographic) -> WideLexicographic {
        match (a.numbers(), b.numbers()) {
            (None, _) => a,
            (_, None) => b,
            (Some((first, second)), Some((third, fourth))) => WideLexicographic::pair(
                add_wide(first, third),
                add_wide(second, fourth),
            ),
        }
    }

    fn wide_divide(a: WideLexicographic, by: WideLexicographic) -> WideLexicographic {
        match (a.numbers(), by.numbers()) {
            (Some((first, second)), Some((third, fourth))) => WideLexicographic::pair(
                subtract_wide(first, third),
                subtract_wide(second, fourth),
            ),
            _ => a,
        }
    }

    fn key(wide: WideLexicographic) -> Key {
        if wide.first == i128::MAX {
            Key {
                class: 2,
                first: 0,
                second: 0,
            }
        } else {
            Key {
                class: 1,
                first: wide.first,
                second: wide.second,
            }
        }
    }

    fn read_weight(field: &[u8]) -> Result<Lexicographic, BadWeight> {
        if field == b"Infinity,Infinity".as_slice() {
            return Ok(Lexicographic::zero());
        }
        match read_pair(field) {
            Some((first, second)) => Ok(Lexicographic { first, second }),
            None => Err(BadWeight),
        }
    }

    fn from_key(key: Key) -> Option<Lexicographic> {
        match key {
            Key {
                class: 2,
                first: 0,
                second: 0,
            } => Some(Lexicographic::zero()),
            Key {
                class: 1,
                first,
                second,
            } => {
                let first = narrow_number(first)?;
                let second = narrow_number(second)?;
                Some(Lexicographic { first, second })
            }
            _ => None,
        }
    }

    fn push_text(self, out: &mut Vec<u8>) -> Result<(), AllocError> {
        if self.first > LIMIT {
            out.extend_from_slice(b"Infinity,Infinity")
        } else {
            push_pair(out, self.first, self.second)
        }
    }

    ghost cancels_by_kind = { refl };

    ghost value_apart = { λ a b e. e };
}
