//! Whether the arcs of a machine stand by their labels.

ghost use Rattle.std.specs.Prelude.{◌≡◌, ◌<◌, ◌≤◌, length};
ghost use Rattle.std.specs.Bool.{Decides};
ghost use Rattle.fst_trim.specs.Sides.{IsSortedOn, StandsBy};

use crate::side::{Side, label};
use fst_machine::{Fst, FstArc};
use fst_semiring::Weight;

/// Whether these arcs stand by their labels on a side. Takes no memory.
pub fn stands_by<W>(arcs: &[FstArc<W>], side: Side) -> bool
    ensures { Decides result (StandsBy side arcs.now) }
{
    let mut last = 0;
    for arc in arcs {
        let label = label(arc, side);
        if label < last {
            return false;
        }
        last = label;
    }
    true
}

/// Whether the arcs of each state stand by their labels on a side, so that no label is below one before it.
/// (OpenFst manual, "ArcSort".) Takes no memory.
pub fn is_sorted<W: Weight>(a: &Fst<W>, side: Side) -> bool
    ensures { Decides result (IsSortedOn side a.now) }
{
    for state in 0..a.states() {
        if !stands_by(a.arcs(state), side) {
            return false;
        }
    }
    true
}
