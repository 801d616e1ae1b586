//! Machines whose weights a search can widen.

ghost use Rattle.std.specs.Prelude.{◌≡◌, IfSome};
ghost use Rattle.fst_semiring.specs.Semiring.{times, IsCost, IsWide, Within};
ghost use Rattle.fst_search.specs.Searching.{most_number};

use fst_machine::{Fst, WideFst};
use fst_semiring::Weight;
use fst_trim::AsMachine;

/// A machine whose weights have numbers that are few enough for a search: `Fst`, whose numbers have absolute value at
/// most 10 to the 18, and `WideFst`, of whose weights it has to be known that they are at most 2 to the 70.
pub trait Widens<W: Weight, V: Copy>: AsMachine<V> {
    ghost use Rattle.std.specs.Prelude.{◌≡◌, ◌≤◌, ℕ, IfSome};
    ghost use Rattle.fst_semiring.specs.Semiring.{times, IsCost, IsWide, Within};
    ghost use Rattle.fst_search.specs.Searching.{most_number};

    /// What has to be known of a weight beforehand.
    ghost known: { V → Type 0 };

    /// The greatest absolute value of a number.
    ghost bound: { ℕ };

    /// The weight in the wide form. Takes no memory.
    fn widened(weight: V) -> W::Wide
        requires { known weight }
        ensures same { W.wide_value result ≡ Self.value weight }
        ensures range { Within bound (W.wide_value result) };

    /// The product of the weight and a distance. The distance comes in the narrow form as well, where it has one: so a
    /// product mostly takes no number of 128 bits. Takes no memory.
    fn product(weight: V, distance: W::Wide, short: Option<W>) -> W::Wide
        requires known { known weight }
        requires short { IfSome short (λ s. W.value s ≡ W.wide_value distance) }
        requires wide { IsWide (W.wide_value distance) }
        ensures product { W.wide_value result ≡ times W.KIND (Self.value weight) (W.wide_value distance) }
        ensures range { Within bound (Self.value weight) }
        ensures kind { IsCost W.KIND (W.wide_value result) };

    // The numbers are few enough.
    ghost few: { bound ≤ most_number };
}

impl<W: Weight> Widens<W, W> for Fst<W> {
    ghost use Rattle.std.proofs.Common.{lit≤};

    ghost known = { λ w. Unit {0} };

    ghost bound = { 1000000000000000000 };

    ghost few = { lit≤ tt };

    fn widened(weight: W) -> W::Wide {
        weight.widen()
    }

    fn product(weight: W, distance: W::Wide, short: Option<W>) -> W::Wide
        requires short { IfSome short (λ s. W.value s ≡ W.wide_value distance) }
        requires wide { IsWide (W.wide_value distance) }
        ensures product { W.wide_value result ≡ times W.KIND (W.value weight) (W.wide_value distance) }
        ensures range { Within 1000000000000000000 (W.value weight) }
        ensures kind { IsCost W.KIND (W.wide_value result) }
    {
        let wide = weight.widen();
        match short {
            Some(short) => weight.times(short),
            None => W::wide_times(wide, distance),
        }
    }
}

impl<W: Weight> Widens<W, W::Wide> for WideFst<W> {
    ghost use Rattle.fst_semiring.specs.Semiring.{Within};
    ghost use Rattle.fst_search.specs.Searching.{most_number};
    ghost use Rattle.std.proofs.Common.{lit≤};

    ghost known = { λ w. Within most_number (W.wide_value w) };

    ghost bound = { most_number };

    ghost few = { lit≤ tt };

    fn widened(weight: W::Wide) -> W::Wide {
        weight
    }

    fn product(weight: W::Wide, distance: W::Wide, _short: Option<W>) -> W::Wide
        requires known { Within most_number (W.wide_value weight) }
        requires wide { IsWide (W.wide_value distance) }
        ensures product { W.wide_value result ≡ times W.KIND (W.wide_value weight) (W.wide_value distance) }
        ensures range { Within most_number (W.wide_value weight) }
        ensures kind { IsCost W.KIND (W.wide_value result) }
    {
        W::wide_times(weight, distance)
    }
}
