//! The first arc that keeps a machine from being an acceptor or deterministic.

ghost use Rattle.std.specs.Prelude.{◌≡◌, ◌<◌, ◌≤◌, length};
ghost use Rattle.std.specs.Bool.{Decides};
ghost use Rattle.fst_machine.specs.Machine.{most_arcs};
ghost use Rattle.fst_trim.specs.FirstArcs.{HasTwoLabels, IsAcceptor, IsDeterministic, IsFirstArc, IsFirstPlace, Repeats};

use crate::repeat::repeat_at;
use fst_machine::{Fst, FstArc, Step};
use fst_semiring::Weight;
use std::alloc::Global;

/// The first of the arcs of a state with two different labels.
fn split_at<W>(arcs: &[FstArc<W>]) -> Option<u32>
    requires few { length arcs.now ≤ most_arcs }
    ensures { IsFirstPlace HasTwoLabels arcs.now result }
{
    for (place, arc) in arcs.iter().enumerate() {
        if arc.ilabel != arc.olabel {
            return Some(place as u32);
        }
    }
    None
}

/// The first arc, by state then place, with two different labels. `None` exactly where there is none. Takes
/// no memory.
pub fn not_acceptor_at<W: Weight>(a: &Fst<W>) -> Option<Step>
    ensures { IsFirstArc HasTwoLabels a.now result }
{
    for state in 0..a.states() {
        if let Some(place) = split_at(a.arcs(state)) {
            return Some(Step { state, place });
        }
    }
    None
}

/// Whether both labels of each arc are the same. (OpenFst manual, "Properties": acceptor.) Takes no memory.
pub fn is_acceptor<W: Weight>(a: &Fst<W>) -> bool
    ensures { Decides result (IsAcceptor a.now) }
{
    not_acceptor_at(a).is_none()
}

/// The first arc, by state then place, whose input label an earlier arc of its state has. `None` exactly where
/// there is none.
///
/// Takes no memory and linear time for a state whose arcs stand by their input labels. For another it keeps a
/// table of the labels; where there is no memory for it, it looks through the earlier arcs of each.
pub fn not_deterministic_at<W: Weight>(alloc: Global, a: &Fst<W>) -> Option<Step>
    ensures { IsFirstArc Repeats a.now result }
{
    for state in 0..a.states() {
        if let Some(place) = repeat_at(alloc, a.arcs(state)) {
            return Some(Step { state, place });
        }
    }
    None
}

/// Whether no two arcs of a state have one input label. (Mohri 2009, section 3.1: deterministic.) Takes time and
/// memory as `not_deterministic_at`.
pub fn is_deterministic<W: Weight>(alloc: Global, a: &Fst<W>) -> bool
    ensures { Decides result (IsDeterministic a.now) }
{
    not_deterministic_at(alloc, a).is_none()
}
