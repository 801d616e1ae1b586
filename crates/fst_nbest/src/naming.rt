//! States with whether the total of a path has been reached on the way, as the names of words.

ghost use Rattle.std.specs.Prelude.{◌≡◌, ◌<◌, ◌≤◌, ◌+◌};
ghost use Rattle.std.specs.Ordering.{is_le};
ghost use Rattle.fst_semiring.specs.Cost.{cost_cmp};
ghost use Rattle.fst_nbest.specs.Classes.{fits, is_reached, name_at, reached_by, state_at};

use fst_semiring::Weight;
use std::cmp::Ordering;

/// The state of a name, and whether the total has been reached there.
pub(crate) fn parted(states: u32, name: u32) -> (u32, bool)
    requires { name < states + states }
    ensures state { result.0 ≡ state_at states name }
    ensures reached { result.1 ≡ is_reached states name }
    ensures low { result.0 < states }
{
    if name < states {
        (name, true)
    } else {
        (name - states, false)
    }
}

/// The name of a state with whether the total has been reached there.
pub(crate) fn named(states: u32, state: u32, reached: bool) -> u32
    requires few { states ≤ 4194304 }
    requires state { state < states }
    ensures name { result ≡ name_at states state reached }
    ensures low { result < states + states }
{
    if reached { state } else { states + state }
}

/// Whether a path may have a rest with this weight.
pub(crate) fn is_fitting<W: Weight>(total: W::Wide, reached: bool, weight: W::Wide) -> bool
    ensures { result ≡ fits (W.wide_value total) reached (W.wide_value weight) }
{
    match W::wide_compare(weight, total) {
        Ordering::Less => reached,
        Ordering::Equal => true,
        Ordering::Greater => false,
    }
}

/// Whether the total has been reached behind an arc with this weight.
pub(crate) fn is_reached_by<W: Weight>(total: W::Wide, reached: bool, weight: W::Wide) -> bool
    ensures { result ≡ reached_by (W.wide_value total) reached (W.wide_value weight) }
{
    match W::wide_compare(weight, total) {
        Ordering::Equal => true,
        _ => reached,
    }
}

/// Whether a weight is no worse than the total.
pub(crate) fn is_under<W: Weight>(total: W::Wide, weight: W::Wide) -> bool
    ensures { result ≡ is_le (cost_cmp (W.wide_value weight) (W.wide_value total)) }
{
    match W::wide_compare(weight, total) {
        Ordering::Greater => false,
        _ => true,
    }
}
