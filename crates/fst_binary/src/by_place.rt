//! States that are read by their place, in a machine or in a list.

use fst_machine::{Fst, FstArc, Leaving};
use fst_semiring::Weight;

/// States with their final weights and their arcs, each in its place from 0: those of a machine, and those of a list that is
/// given away.
pub(crate) trait States<W: Weight> {
    ghost use Rattle.std.specs.Prelude.{◌≡◌, ◌<◌, List, Some, length, slice_get};
    ghost use Rattle.std.specs.Option.{option_map};
    ghost use Rattle.fst_machine.specs.Machine.{State};

    /// The states, in order.
    ghost states: { Self → List (State W) };

    /// The arcs of the state in a place, in order. Takes no memory.
    fn arcs_at(&self, place: usize) -> &[FstArc<W>]
        requires { place < length (states self.now) }
        ensures { option_map (λ s. s.arcs) (slice_get (states self.now) place) ≡ Some result.now };

    /// The final weight of the state in a place; Zero where it is not final. Takes no memory.
    fn final_at(&self, place: usize) -> W
        requires { place < length (states self.now) }
        ensures { option_map (λ s. s.final) (slice_get (states self.now) place) ≡ Some result };
}

impl<W: Weight> States<W> for Fst<W> {
    ghost states = { λ m. m.states };

    fn arcs_at(&self, place: usize) -> &[FstArc<W>] {
        // What holds of every machine: each place is a number of a state.
        let _states = self.states();
        self.arcs(place as u32)
    }

    fn final_at(&self, place: usize) -> W {
        let _states = self.states();
        self.final_weight(place as u32)
    }
}

impl<W: Weight> States<W> for Leaving<W> {
    ghost states = { λ l. l };

    fn arcs_at(&self, place: usize) -> &[FstArc<W>] {
        self.arcs(place)
    }

    fn final_at(&self, place: usize) -> W {
        self.final_weight(place)
    }
}
