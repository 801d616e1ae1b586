//! Which arcs of the given machine the arcs of a connected one are.

ghost use Rattle.std.specs.Prelude.{◌≡◌, ◌<◌, ◌≤◌, ℕ, Some, length, get_or, map, slice_get};
ghost use Rattle.std.specs.Bool.{Decides};
ghost use Rattle.fst_semiring.specs.Cost.{Cost};
ghost use Rattle.fst_machine.specs.BreadthFirst.{Has};
ghost use Rattle.fst_machine.specs.Connected.{IsKeptAt};
ghost use Rattle.fst_machine.specs.Graph.{graph_of};
ghost use Rattle.fst_machine.specs.Machine.{Arc, most_arcs, valued, valued_arc};
ghost use Rattle.fst_trim.specs.KeptPaths.{IsConnectedOn};
ghost use Rattle.fst_trim.specs.Handed.{machine_of};

use crate::connected::Connected;
use fst_machine::{Fst, FstArc, Step};
use fst_semiring::Weight;

/// Whether a state is one of these, which ascend.
fn is_kept(kept: &[u32], state: u32) -> bool
    requires { (i j : ℕ) → i ≤ j → j < length kept.now → get_or kept.now i 0 ≤ get_or kept.now j 0 }
    ensures { Decides result (Has kept.now state) }
{
    kept.binary_search(&state).is_ok()
}

/// The place, among these arcs, of the one that has this place among those of them that lead to kept states.
fn old_place<W: Weight>(arcs: &[FstArc<W>], kept: &[u32], place: u32) -> u32
    requires few { length arcs.now ≤ most_arcs }
    requires ascends { (i j : ℕ) → i ≤ j → j < length kept.now → get_or kept.now i 0 ≤ get_or kept.now j 0 }
    requires there { (k : ℕ) × IsKeptAt kept.now (map (valued_arc W.value) arcs.now) k place }
    ensures { IsKeptAt kept.now (map (valued_arc W.value) arcs.now) result place }
{
    let mut left = place;
    for (at, arc) in arcs.iter().enumerate() {
        if !is_kept(kept, arc.next) {
            continue;
        }
        if left == 0 {
            return at as u32;
        }
        left -= 1;
    }
    unreachable!()
}

impl<W: Weight> Connected<'_, W> {
    /// The state and the place, in the given machine, of an arc of this one. Takes no memory.
    ///
    /// Time: linear in the arcs of that state.
    pub fn step_before(&self, a: &Fst<W>, step: Step) -> Step
        requires connected { IsConnectedOn (valued W.value a.now) (valued W.value (machine_of self.now.machine)) self.now.kept.items }
        requires arc { (b : Arc Cost ℕ) × (slice_get ((graph_of (valued W.value (machine_of self.now.machine))).arcs step.state) step.place ≡ Some b) }
        ensures state { slice_get self.now.kept.items step.state ≡ Some result.state }
        ensures place { IsKeptAt self.now.kept.items ((graph_of (valued W.value a.now)).arcs result.state) result.place step.place }
    {
        let _states = a.states();
        let kept = self.kept.as_slice();
        let state = kept[step.state as usize];
        let place = old_place(a.arcs(state), kept, step.place);
        Step { state, place }
    }
}
