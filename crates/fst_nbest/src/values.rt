//! Tests of wide weights.

ghost use Rattle.std.specs.Prelude.{◌≡◌};
ghost use Rattle.std.specs.Bool.{Decides};
ghost use Rattle.fst_semiring.specs.Cost.{is_infinite};

use fst_semiring::Weight;
use std::cmp::Ordering;

/// Whether a weight is Zero.
pub(crate) fn is_zero_wide<W: Weight>(wide: W::Wide) -> bool
    ensures { result ≡ is_infinite (W.wide_value wide) }
{
    W::key(wide).class == 2
}

/// Whether two weights are the same.
pub(crate) fn is_same<W: Weight>(a: W::Wide, b: W::Wide) -> bool
    ensures { Decides result (W.wide_value a ≡ W.wide_value b) }
{
    match W::wide_compare(a, b) {
        Ordering::Equal => true,
        _ => false,
    }
}
