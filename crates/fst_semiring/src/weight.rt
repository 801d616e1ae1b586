//! What generic code knows of a weight.

ghost use Rattle.std.specs.Prelude.{◌≡◌, ◌≢◌, ◌++◌, Bool, OnOk, OnErr, IfOk, IfSome, IfNone};
ghost use Rattle.fst_semiring.specs.Cost.{Cost, infinite, cost_cmp, is_infinite, plus};
ghost use Rattle.fst_semiring.specs.Semiring.{cancels, one_of, single_number, times, InRange, IsCost, IsWide, Within};
ghost use Rattle.fst_semiring.specs.Division.{quotient};
ghost use Rattle.fst_semiring.specs.Keys.{key_of};
ghost use Rattle.fst_semiring.specs.WeightText.{cost_of_text, text_of_cost, ReadsAs};

use crate::arc_type::ArcType;
use crate::key::Key;
use std::alloc::{AllocError, Global};
use std::cmp::Ordering;

/// The bytes are no weight text of the arc type.
#[derive(Clone, Copy, Debug, PartialEq, Eq)]
pub struct BadWeight;

/// A weight of one of the path semirings, over whole numbers of absolute value at most 10 to the 18.
/// (Mohri 2009, section 2; OpenFst Quick Tour, "FST Weights".)
pub trait Weight: Copy + Eq {
    ghost use Rattle.fst_semiring.specs.declared.arc_type.ArcType.{ArcType};

    /// The same kind of weight with numbers of 128 bits.
    type Wide: Copy + Eq;

    ghost KIND: { ArcType };

    /// The arc type.
    const KIND: ArcType;

    ghost CANCELS: { Bool };

    /// Whether a factor that is not Zero can be cancelled. False for min-max alone.
    const CANCELS: bool;

    /// The value of a weight.
    ghost value: { Self → Cost };

    /// The value of a wide weight.
    ghost wide_value: { Self.Wide → Cost };

    /// Zero, which annihilates: no path has it. Takes no memory.
    fn zero() -> Self
        ensures { value result ≡ infinite };

    /// One, the weight of the path without arcs. Takes no memory.
    fn one() -> Self
        ensures { value result ≡ one_of KIND };

    /// The same weight in the wide form; its numbers have absolute value at most 10 to the 18.
    fn widen(self) -> Self::Wide
        ensures same { wide_value result ≡ value self }
        ensures range { InRange (value self) }
        ensures kind { IsCost KIND (value self) };

    /// The weight with the same value. `None` exactly where a number of `wide` has absolute value above 10 to the
    /// 18. Takes no memory.
    fn narrow(wide: Self::Wide) -> Option<Self>
        ensures found { IfSome result (λ w. value w ≡ wide_value wide) }
        ensures range { IfSome result (λ w. InRange (value w)) }
        ensures none { IfNone result (InRange (wide_value wide) → ⊥) };

    /// The number of a weight that is a single number, which has absolute value at most 10 to the 18. `None` for both
    /// infinities, for the weights of the boolean semiring and for pairs. Takes no memory.
    fn single_number(self) -> Option<i64>
        ensures { result ≡ single_number KIND (value self) };

    /// How two weights compare in the natural order: Less is better.
    fn compare(self, other: Self) -> Ordering
        ensures { result ≡ cost_cmp (value self) (value other) }
    {
        Self::wide_compare(self.widen(), other.widen())
    }

    /// Plus: the better of two weights.
    fn plus(self, other: Self) -> Self
        ensures { value result ≡ plus (value self) (value other) }
    {
        match self.compare(other) {
            Ordering::Greater => other,
            _ => self,
        }
    }

    /// Times, in the wide form; its numbers have absolute value at most 2 times 10 to the 18.
    fn times(self, other: Self) -> Self::Wide
        ensures product { wide_value result ≡ times KIND (value self) (value other) }
        ensures range { Within 2000000000000000000 (wide_value result) }
        ensures kind { IsCost KIND (wide_value result) }
    {
        Self::wide_times(self.widen(), other.widen())
    }

    /// How two wide weights compare in the natural order: Less is better.
    fn wide_compare(a: Self::Wide, b: Self::Wide) -> Ordering
        ensures order { result ≡ cost_cmp (wide_value a) (wide_value b) }
        ensures kinds { IsCost KIND (wide_value a) × IsCost KIND (wide_value b) };

    /// Plus: the better of two wide weights.
    fn wide_plus(a: Self::Wide, b: Self::Wide) -> Self::Wide
        ensures sum { wide_value result ≡ plus (wide_value a) (wide_value b) }
        ensures kind { IsCost KIND (wide_value result) }
    {
        match Self::wide_compare(a, b) {
            Ordering::Greater => b,
            _ => a,
        }
    }

    /// Times of two wide weights, whose numbers have absolute value below 2 to the 120.
    fn wide_times(a: Self::Wide, b: Self::Wide) -> Self::Wide
        requires a_wide { IsWide (wide_value a) }
        requires b_wide { IsWide (wide_value b) }
        ensures product { wide_value result ≡ times KIND (wide_value a) (wide_value b) }
        ensures kind { IsCost KIND (wide_value result) };

    /// Subset division of a wide weight by a better or equal one that is not Zero. The numbers of both have
    /// absolute value below 2 to the 120.
    fn wide_divide(a: Self::Wide, by: Self::Wide) -> Self::Wide
        requires by_not_zero { wide_value by ≢ infinite }
        requires by_no_worse { plus (wide_value by) (wide_value a) ≡ wide_value by }
        requires a_wide { IsWide (wide_value a) }
        requires by_wide { IsWide (wide_value by) }
        ensures quotient { wide_value result ≡ quotient KIND (wide_value a) (wide_value by) }
        ensures kind { IsCost KIND (wide_value result) };

    /// The key of a wide weight. Keys compare as the weights do.
    fn key(wide: Self::Wide) -> Key
        ensures { result ≡ key_of (wide_value wide) };

    /// The weight that a weight text of the arc type stands for. `BadWeight` exactly where the field is no
    /// such text. Takes no memory.
    fn read_weight(field: &[u8]) -> Result<Self, BadWeight>
        ensures { ReadsAs value result (cost_of_text KIND field.now) };

    /// The weight with a key. `None` exactly where no weight of the type has this key with numbers of
    /// absolute value at most 10 to the 18. Takes no memory.
    fn from_key(key: Key) -> Option<Self>
        ensures found { IfSome result (λ w. key_of (value w) ≡ key) }
        ensures none { IfNone result ((v : Cost) → IsCost KIND v → InRange v → key_of v ≡ key → ⊥) };

    /// Appends the printed form: no leading zeros, a sign on negative numbers alone, `Infinity`. An `Err`
    /// changes nothing.
    fn push_text(self, out: &mut Vec<u8>) -> Result<(), AllocError>
        ensures ok { OnOk result (out.new.items ≡ out.old.items ++ text_of_cost KIND (value self)) }
        ensures err { OnErr result (out.new.items ≡ out.old.items) };

    /// The printed form by itself.
    fn weight_text(self, alloc: Global) -> Result<Vec<u8>, AllocError>
        ensures { IfOk result (λ text. text.items ≡ text_of_cost KIND (value self)) }
    {
        let mut text = Vec::new(alloc);
        self.push_text(&mut text)?;
        Ok(text)
    }

    // The arc type says whether factors cancel.
    ghost cancels_by_kind: { CANCELS ≡ cancels KIND };

    // Weights with one value are one weight.
    ghost value_apart: { (a b : Self) → value a ≡ value b → a ≡ b };
}

/// Whether a weight is Zero.
pub fn is_zero<W: Weight>(weight: W) -> bool
    ensures { result ≡ is_infinite (W.value weight) }
{
    W::key(weight.widen()).class == 2
}
