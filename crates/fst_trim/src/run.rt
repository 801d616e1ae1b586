//! The arcs with one label, found by a search.

ghost use Rattle.std.specs.Prelude.{◌≡◌, ◌≢◌, ◌+◌, ◌-◌, ◌<◌, ◌≤◌, ℕ, false, length, get_or};
ghost use Rattle.std.specs.Ordering.{MatchOrdering};
ghost use Rattle.fst_machine.specs.Machine.{Arc};
ghost use Rattle.fst_trim.specs.Runs.{IsRun, LeavesToSearch, TakesSteps};
ghost use Rattle.fst_trim.specs.Sides.{StandsBy, label_of};

use crate::side::{Side, label};
use fst_machine::{FstArc, Steps};
use fst_semiring::Weight;
use std::cmp::Ordering;
use std::sync::ledger::Ledger;

/// How the label of an arc on a side stands to a number. Takes one step.
fn compare<W: Weight, L: Ledger>(
    arc: &FstArc<W>,
    side: Side,
    other: u64,
    steps: &mut Steps<L>,
) -> Ordering
    ensures order { MatchOrdering result (label_of side arc.now < other) (label_of side arc.now ≡ other) (other < label_of side arc.now) }
    ensures step { steps.new ≡ steps.old + 1 }
{
    steps.tick();
    (label(arc, side) as u64).cmp(&other)
}

/// The first place of those from `start` up to before `stop` whose label is not below a number, or `stop`; and whether
/// a label that is the number was met on the way, without which none of them has it.
fn first_place<W: Weight, L: Ledger>(
    arcs: &[FstArc<W>],
    side: Side,
    other: u64,
    start: usize,
    stop: usize,
    steps: &mut Steps<L>,
) -> (usize, bool)
    requires sorted { StandsBy side arcs.now }
    requires order { start ≤ stop }
    requires within { stop ≤ length arcs.now }
    ensures after { start ≤ result.0 }
    ensures until { result.0 ≤ stop }
    ensures before { (k : ℕ) (d : Arc W ℕ) → start ≤ k → k < result.0 → label_of side (get_or arcs.now k d) < other }
    ensures from { (k : ℕ) (d : Arc W ℕ) → result.0 ≤ k → k < stop → other ≤ label_of side (get_or arcs.now k d) }
    ensures unmet { result.1 ≡ false → (k : ℕ) (d : Arc W ℕ) → result.0 ≤ k → k < stop → other < label_of side (get_or arcs.now k d) }
    ensures cost { TakesSteps 1 (stop - start) steps.old steps.new }
{
    let mut low = start;
    let mut high = stop;
    let mut met = false;
    while low < high {
        let middle = low + (high - low) / 2;
        match compare(&arcs[middle], side, other, steps) {
            Ordering::Less => low = middle + 1,
            Ordering::Equal => {
                high = middle;
                met = true;
            }
            Ordering::Greater => high = middle,
        }
    }
    (low, met)
}

/// Where the arcs with a label on a side stand, among arcs that stand by their labels on it: in the places from the
/// first number up to before the second. Where there is none, both numbers are the place at which such an arc would stand.
/// (OpenFst manual, "Matchers".) Takes no memory.
///
/// A step is one comparison with the label of an arc. There are two searches, each with at most as many steps as the
/// number of arcs has binary digits; where no arc has the label, the second is left out.
pub fn find_run<W: Weight, L: Ledger>(
    arcs: &[FstArc<W>],
    side: Side,
    label: u32,
    steps: &mut Steps<L>,
) -> (usize, usize)
    requires sorted { StandsBy side arcs.now }
    ensures run { IsRun side label arcs.now result.0 result.1 }
    ensures cost { TakesSteps 2 (length arcs.now) steps.old steps.new }
{
    let (first, met) = first_place(arcs, side, label as u64, 0, arcs.len(), steps);
    if !met {
        return (first, first);
    }
    let (last, _) = first_place(arcs, side, label as u64 + 1, first, arcs.len(), steps);
    (first, last)
}

/// Looks at places after this one whose label is below a number, by steps that double, for one whose label is not.
/// Gives a place up to before which all labels are below the number, and one from which on none is, or the number of
/// arcs; what is between them is to be searched.
fn reach<W: Weight, L: Ledger>(
    arcs: &[FstArc<W>],
    side: Side,
    other: u64,
    start: usize,
    steps: &mut Steps<L>,
) -> (usize, usize)
    requires sorted { StandsBy side arcs.now }
    requires start { start < length arcs.now }
    requires below { (d : Arc W ℕ) → label_of side (get_or arcs.now start d) < other }
    ensures after { start < result.0 }
    ensures order { result.0 ≤ result.1 }
    ensures within { result.1 ≤ length arcs.now }
    ensures before { (k : ℕ) (d : Arc W ℕ) → k < result.0 → label_of side (get_or arcs.now k d) < other }
    ensures from { (k : ℕ) (d : Arc W ℕ) → result.1 ≤ k → k < length arcs.now → other ≤ label_of side (get_or arcs.now k d) }
    ensures cost { LeavesToSearch (length arcs.now) (result.1 - result.0) steps.old steps.new }
{
    let mut low = start + 1;
    while low - start <= arcs.len() - low {
        let probe = low + (low - start) - 1;
        match compare(&arcs[probe], side, other, steps) {
            Ordering::Less => low = probe + 1,
            Ordering::Equal => return (low, probe),
            Ordering::Greater => return (low, probe),
        }
    }
    (low, arcs.len())
}

/// The first place, from this one on, whose arc has another label, or the number of arcs. Takes no memory.
pub fn run_end<W: Weight>(arcs: &[FstArc<W>], side: Side, other: u32, start: usize) -> usize
    requires { start ≤ length arcs.now }
    ensures order { start ≤ result }
    ensures within { result ≤ length arcs.now }
    ensures here { (k : ℕ) (d : Arc W ℕ) → start ≤ k → k < result → label_of side (get_or arcs.now k d) ≡ other }
    ensures next { (d : Arc W ℕ) → result < length arcs.now → label_of side (get_or arcs.now result d) ≢ other }
{
    let mut end = start;
    while end < arcs.len() {
        if label(&arcs[end], side) != other {
            return end;
        }
        end += 1;
    }
    end
}

/// The same as `find_run`, begun at a place before which all labels are lower, so that a near label is found soon. Takes
/// no memory.
///
/// A step is one comparison with the label of an arc, in the search of the first arc with the label. The search looks
/// at places by steps that double, and then between the last two; it takes at most twice as many steps as the number of
/// arcs has binary digits. The arcs with the label are then gone along, and not counted.
pub fn run_from<W: Weight, L: Ledger>(
    arcs: &[FstArc<W>],
    side: Side,
    label: u32,
    start: usize,
    steps: &mut Steps<L>,
) -> (usize, usize)
    requires sorted { StandsBy side arcs.now }
    requires start { start ≤ length arcs.now }
    requires before { (k : ℕ) (d : Arc W ℕ) → k < start → label_of side (get_or arcs.now k d) < label }
    ensures run { IsRun side label arcs.now result.0 result.1 }
    ensures after { start ≤ result.0 }
    ensures cost { TakesSteps 2 (length arcs.now) steps.old steps.new }
{
    if start == arcs.len() {
        return (start, start);
    }
    match compare(&arcs[start], side, label as u64, steps) {
        Ordering::Less => {
            let (low, high) = reach(arcs, side, label as u64, start, steps);
            let (first, _) = first_place(arcs, side, label as u64, low, high, steps);
            (first, run_end(arcs, side, label, first))
        }
        Ordering::Equal => (start, run_end(arcs, side, label, start)),
        Ordering::Greater => (start, start),
    }
}
