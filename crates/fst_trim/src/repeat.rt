//! The first arc of a state whose input label an earlier one has.

ghost use Rattle.std.specs.Prelude.{◌≡◌, ◌<◌, ◌≤◌, length, IfOk};
ghost use Rattle.std.specs.Bool.{Decides};
ghost use Rattle.fst_machine.specs.Machine.{most_arcs};
ghost use Rattle.fst_trim.specs.declared.side.Side.TheVariants as sides;
ghost use Rattle.fst_trim.specs.Sides.{StandsBy};
ghost use Rattle.fst_trim.specs.FirstArcs.{HasEarlier, IsFirstPlace, Repeats};

use crate::side::Side;
use crate::sorted::stands_by;
use fst_machine::FstArc;
use fst_table::FlatTable;
use std::alloc::{AllocError, Global};

/// Among arcs that stand by their input labels an arc with an earlier label stands right behind one with it.
fn repeat_in_sorted<W>(arcs: &[FstArc<W>]) -> Option<u32>
    requires few { length arcs.now ≤ most_arcs }
    requires sorted { StandsBy sides.Input arcs.now }
    ensures { IsFirstPlace Repeats arcs.now result }
{
    for place in 1..arcs.len() {
        let before = &arcs[place - 1];
        let arc = &arcs[place];
        if before.ilabel == arc.ilabel {
            return Some(place as u32);
        }
    }
    None
}

/// Keeps the labels that were seen, in a table that no chosen labels make slow.
fn repeat_by_table<W>(alloc: Global, arcs: &[FstArc<W>]) -> Result<Option<u32>, AllocError>
    requires few { length arcs.now ≤ most_arcs }
    ensures { IfOk result (IsFirstPlace Repeats arcs.now) }
{
    let mut seen = FlatTable::new(alloc);
    for (place, arc) in arcs.iter().enumerate() {
        let label = u64::from(arc.ilabel);
        let known = seen.find_or_add(label, place as u32)?;
        if known.is_some() {
            return Ok(Some(place as u32));
        }
    }
    Ok(None)
}

/// Whether an arc before this place has the input label.
fn has_earlier<W>(arcs: &[FstArc<W>], place: usize, label: u32) -> bool
    requires { place ≤ length arcs.now }
    ensures { Decides result (HasEarlier arcs.now place label) }
{
    for earlier in 0..place {
        let arc = &arcs[earlier];
        if arc.ilabel == label {
            return true;
        }
    }
    false
}

/// Looks through the earlier arcs, so that it takes no memory.
fn repeat_by_scan<W>(arcs: &[FstArc<W>]) -> Option<u32>
    requires few { length arcs.now ≤ most_arcs }
    ensures { IsFirstPlace Repeats arcs.now result }
{
    for (place, arc) in arcs.iter().enumerate() {
        if has_earlier(arcs, place, arc.ilabel) {
            return Some(place as u32);
        }
    }
    None
}

/// The first of the arcs of a state whose input label an earlier one has.
pub(crate) fn repeat_at<W>(alloc: Global, arcs: &[FstArc<W>]) -> Option<u32>
    requires few { length arcs.now ≤ most_arcs }
    ensures { IsFirstPlace Repeats arcs.now result }
{
    if stands_by(arcs, Side::Input) {
        return repeat_in_sorted(arcs);
    }
    match repeat_by_table(alloc, arcs) {
        Ok(found) => found,
        Err(_) => repeat_by_scan(arcs),
    }
}
