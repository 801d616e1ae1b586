//! Values as plain numbers.

ghost use Rattle.std.specs.Prelude.{◌≡◌, ◌+ℤ◌, IfNone, IfSome, pos};
ghost use Rattle.std.specs.Ordering.{int_cmp};
ghost use Rattle.fst_semiring.specs.Cost.{cost_cmp, finite, plus, worse};
ghost use Rattle.fst_semiring.specs.Semiring.{IsSmall, IsWithin, one_of, sum_of, times};
ghost use Rattle.fst_plain.specs.Plain.{cost_of, Fits, SumFits};

use fst_semiring::{ArcType, Key, Tropical, Weight};
use std::cmp::Ordering;

/// The value of a weight of any arc type.
#[derive(Clone, Copy, Debug, PartialEq, Eq)]
pub enum PlainCost {
    /// The One of min-max, better than each other value.
    Best,
    /// A number and 0, or a pair of numbers.
    Finite(i128, i128),
    /// Zero, worse than each other value.
    Infinite,
}

/// The value of a wide weight.
pub fn wide_cost<W: Weight>(wide: W::Wide) -> PlainCost
    ensures { cost_of result ≡ W.wide_value wide }
{
    let key = W::key(wide);
    match key.class {
        0 => PlainCost::Best,
        1 => PlainCost::Finite(key.first, key.second),
        _ => PlainCost::Infinite,
    }
}

/// The value of a weight.
pub fn plain_cost<W: Weight>(weight: W) -> PlainCost
    ensures value { cost_of result ≡ W.value weight }
    ensures fits { Fits 1 (cost_of result) }
{
    wide_cost::<W>(weight.widen())
}

/// One of an arc type.
pub fn one(kind: ArcType) -> PlainCost
    ensures value { cost_of result ≡ one_of kind }
    ensures fits { Fits 0 (cost_of result) }
{
    match kind {
        ArcType::MinMax => PlainCost::Best,
        _ => PlainCost::Finite(0, 0),
    }
}

/// How two numbers compare.
fn compare_numbers(a: i128, b: i128) -> Ordering
    ensures { result ≡ int_cmp a b }
{
    a.cmp(&b)
}

/// How two values compare: the better is the less.
pub fn compare_costs(a: PlainCost, b: PlainCost) -> Ordering
    ensures { result ≡ cost_cmp (cost_of a) (cost_of b) }
{
    match (a, b) {
        (PlainCost::Best, PlainCost::Best) => Ordering::Equal,
        (PlainCost::Best, _) => Ordering::Less,
        (PlainCost::Finite(_, _), PlainCost::Best) => Ordering::Greater,
        (PlainCost::Finite(first, second), PlainCost::Finite(third, fourth)) =>
            match compare_numbers(first, third) {
                Ordering::Equal => compare_numbers(second, fourth),
                other => other,
            },
        (PlainCost::Finite(_, _), PlainCost::Infinite) => Ordering::Less,
        (PlainCost::Infinite, PlainCost::Infinite) => Ordering::Equal,
        (PlainCost::Infinite, _) => Ordering::Greater,
    }
}

/// Plus: the better of two values.
pub fn plus_costs(a: PlainCost, b: PlainCost) -> PlainCost
    ensures { cost_of result ≡ plus (cost_of a) (cost_of b) }
{
    match compare_costs(a, b) {
        Ordering::Greater => b,
        _ => a,
    }
}

/// The sum of two numbers.
fn add_numbers(a: i128, b: i128) -> i128
    requires { IsWithin 100000000000000000000000000000000000000 (a +ℤ b) }
    ensures { result ≡ a +ℤ b }
{
    a + b
}

/// The sum of each part, where infinity takes all and the best value is minus infinity.
fn add_costs(a: PlainCost, b: PlainCost) -> PlainCost
    requires { SumFits (cost_of a) (cost_of b) }
    ensures { cost_of result ≡ sum_of (cost_of a) (cost_of b) }
{
    match (a, b) {
        (PlainCost::Infinite, _) => PlainCost::Infinite,
        (_, PlainCost::Infinite) => PlainCost::Infinite,
        (PlainCost::Best, _) => PlainCost::Best,
        (_, PlainCost::Best) => PlainCost::Best,
        (PlainCost::Finite(first, second), PlainCost::Finite(third, fourth)) => PlainCost::Finite(
            add_numbers(first, third),
            add_numbers(second, fourth),
        ),
    }
}

/// The worse of two values.
fn worse_cost(a: PlainCost, b: PlainCost) -> PlainCost
    ensures { cost_of result ≡ worse (cost_of a) (cost_of b) }
{
    match compare_costs(a, b) {
        Ordering::Greater => a,
        _ => b,
    }
}

/// Times of an arc type.
pub fn times_costs(kind: ArcType, a: PlainCost, b: PlainCost) -> PlainCost
    requires { SumFits (cost_of a) (cost_of b) }
    ensures { cost_of result ≡ times kind (cost_of a) (cost_of b) }
{
    match kind {
        ArcType::MinMax => worse_cost(a, b),
        _ => add_costs(a, b),
    }
}

/// The tropical weight of a number. `None` exactly where its absolute value is greater than 10 to the 18.
pub fn tropical_number(number: i64) -> Option<Tropical>
    ensures some { IfSome result (λ w. w ≡ finite number (pos 0)) }
    ensures none { IfNone result (IsSmall number → ⊥) }
{
    Tropical::from_key(Key {
        class: 1,
        first: i128::from(number),
        second: 0,
    })
}
