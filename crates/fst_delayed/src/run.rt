//! The arcs of a name that read one label, where the arcs ascend by their input labels.

ghost use Rattle.std.specs.Prelude.{◌≡◌, ◌≢◌, ◌<◌, ◌≤◌, ℕ, length, get_or};
ghost use Rattle.std.specs.Bool.{Decides};
ghost use Rattle.fst_machine.specs.Machine.{Arc};
ghost use Rattle.fst_compose.specs.Names.{Name};
ghost use Rattle.fst_delayed.specs.Ascending.{Ascends, those_reading};

use fst_compose::KeyArc;
use fst_semiring::Weight;

/// Whether these arcs ascend by their input labels.
pub(crate) fn ascends<W: Weight>(arcs: &[KeyArc<W>]) -> bool
    ensures { Decides result (Ascends arcs.now) }
{
    let mut last = 0;
    for arc in arcs {
        if arc.ilabel < last {
            return false;
        }
        last = arc.ilabel;
    }
    true
}

/// The first place whose arc reads no lower label than this, or the number of arcs.
fn first_place<W: Weight>(arcs: &[KeyArc<W>], label: u32) -> usize
    requires { Ascends arcs.now }
    ensures within { result ≤ length arcs.now }
    ensures before { (k : ℕ) (d : Arc W.Wide (Name ℕ ℕ)) → k < result → (get_or arcs.now k d).ilabel < label }
    ensures from { (k : ℕ) (d : Arc W.Wide (Name ℕ ℕ)) → result ≤ k → k < length arcs.now → label ≤ (get_or arcs.now k d).ilabel }
{
    // Epsilon is the lowest label, and mostly none reads it: no search is made for it.
    if label == 0 {
        return 0;
    }
    let mut low = 0;
    let mut high = arcs.len();
    while low < high {
        let middle = low + (high - low) / 2;
        let arc = &arcs[middle];
        if arc.ilabel < label {
            low = middle + 1;
        } else {
            high = middle;
        }
    }
    low
}

/// The first place, from this one on, whose arc reads another label, or the number of arcs.
fn end_place<W: Weight>(arcs: &[KeyArc<W>], label: u32, first: usize) -> usize
    requires { first ≤ length arcs.now }
    ensures order { first ≤ result }
    ensures within { result ≤ length arcs.now }
    ensures here { (k : ℕ) (d : Arc W.Wide (Name ℕ ℕ)) → first ≤ k → k < result → (get_or arcs.now k d).ilabel ≡ label }
    ensures next { (d : Arc W.Wide (Name ℕ ℕ)) → result < length arcs.now → (get_or arcs.now result d).ilabel ≢ label }
{
    let mut end = first;
    while end < arcs.len() {
        let arc = &arcs[end];
        if arc.ilabel != label {
            return end;
        }
        end += 1;
    }
    end
}

/// Those of the arcs that read a label, where the arcs ascend by their input labels: they stand beside each other, and are
/// found by a search. Takes no memory.
pub fn run_of<W: Weight>(arcs: &[KeyArc<W>], label: u32) -> &[KeyArc<W>]
    requires { Ascends arcs.now }
    ensures { result.now ≡ those_reading label arcs.now }
{
    let first = first_place(arcs, label);
    let end = end_place(arcs, label, first);
    &arcs[first..end]
}
