//! Where the total weight of a pushed machine is put.

ghost use Rattle.std.specs.Prelude.{◌≡◌, length};
ghost use Rattle.fst_semiring.specs.Cost.{Cost};
ghost use Rattle.fst_machine.specs.Machine.{arc_total};
ghost use Rattle.fst_distance.specs.Totals.{IsAmong, IsPlaceFor, put_on};

use crate::pushing::Pushing;
use fst_semiring::Weight;
use std::cmp::Ordering;

/// Where the total weight of a pushed machine is put.
#[derive(Clone, Copy)]
pub(crate) enum Place {
    /// Nowhere.
    Nowhere,
    /// On the final weight and the arcs of the start.
    OnStart { state: u32 },
    /// On those of a copy of the start, which is the new start.
    OnCopy { state: u32 },
}

/// Where the total is put, unless it is removed.
pub(crate) fn place_of<W: Weight>(pushed: &Pushing<'_, W>, total: W::Wide, removed: bool) -> Place
    ensures place { IsPlaceFor removed W.KIND (W.wide_value total) pushed.now result }
    ensures among { IsAmong (length pushed.now.states) result }
{
    let _states = pushed.states();
    if removed {
        return Place::Nowhere;
    }
    let Some(state) = pushed.start() else {
        return Place::Nowhere;
    };
    match W::wide_compare(total, W::one().widen()) {
        Ordering::Equal => return Place::Nowhere,
        _ => {}
    }
    if pushed.is_entered(state) {
        return Place::OnCopy { state };
    }
    Place::OnStart { state }
}

/// How many states there are with the total put there.
pub(crate) fn state_count<W: Weight>(pushed: &Pushing<'_, W>, place: Place) -> usize
    ensures { (total : Cost) → result ≡ length (put_on W.KIND total pushed.now place).states }
{
    let states = pushed.states() as usize;
    match place {
        Place::Nowhere => states,
        Place::OnStart { state: _ } => states,
        Place::OnCopy { state: _ } => states + 1,
    }
}

/// How many arcs there are with the total put there.
pub(crate) fn arc_count<W: Weight>(pushed: &Pushing<'_, W>, place: Place) -> usize
    requires { IsAmong (length pushed.now.states) place }
    ensures { (total : Cost) → result ≡ arc_total (put_on W.KIND total pushed.now place).states }
{
    let arcs = pushed.arc_count() as usize;
    match place {
        Place::Nowhere => arcs,
        Place::OnStart { state: _ } => arcs,
        Place::OnCopy { state } => arcs + pushed.arcs_of(state),
    }
}
