//! What can be read as a machine, whatever the weights on its arcs are.

use fst_machine::{Fst, FstArc, WideFst};
use fst_semiring::Weight;

/// A machine that can be read: `Fst`, whose arcs have weights, and `WideFst`, whose arcs have weights of the wide
/// form. Contracts see it as plain data, by `machine`, and its weights by their values.
pub trait AsMachine<V: Copy> {
    ghost use Rattle.std.specs.Prelude.{◌≡◌, ◌<◌, ◌≤◌, Some, IfSome, length, slice_get};
    ghost use Rattle.std.specs.Option.{option_map};
    ghost use Rattle.fst_semiring.specs.Cost.{Cost};
    ghost use Rattle.fst_machine.specs.Machine.{Machine, IsMachine, arc_total};

    ghost value: { V → Cost };

    ghost machine: { Self → Machine V };

    /// The number of states, and with it what holds of every machine. Takes no memory.
    fn state_count(&self) -> u32
        ensures count { result ≡ length (machine self.now).states }
        ensures good { IsMachine value (machine self.now) };

    /// The start; `None` exactly where there is none. Takes no memory.
    fn start_state(&self) -> Option<u32>
        ensures value { result ≡ (machine self.now).start }
        ensures state { IfSome result (λ s. s < length (machine self.now).states) };

    /// The number of arcs of all states together. Takes no memory.
    fn all_arcs(&self) -> u32
        ensures { result ≡ arc_total (machine self.now).states };

    /// The arcs of a state, in order. Takes no memory.
    fn arcs_at(&self, state: u32) -> &[FstArc<V>]
        requires { state < length (machine self.now).states }
        ensures { option_map (λ s. s.arcs) (slice_get (machine self.now).states state) ≡ Some result.now };

    /// The final weight of a state; Zero where it is not final. Takes no memory.
    fn final_at(&self, state: u32) -> V
        requires { state < length (machine self.now).states }
        ensures { option_map (λ s. s.final) (slice_get (machine self.now).states state) ≡ Some result };
}

impl<W: Weight> AsMachine<W> for Fst<W> {
    ghost value = { W.value };

    ghost machine = { λ m. m };

    fn state_count(&self) -> u32 {
        self.states()
    }

    fn start_state(&self) -> Option<u32> {
        self.start()
    }

    fn all_arcs(&self) -> u32 {
        self.arc_count()
    }

    fn arcs_at(&self, state: u32) -> &[FstArc<W>] {
        self.arcs(state)
    }

    fn final_at(&self, state: u32) -> W {
        self.final_weight(state)
    }
}

impl<W: Weight> AsMachine<W::Wide> for WideFst<W> {
    ghost value = { W.wide_value };

    ghost machine = { λ m. m };

    fn state_count(&self) -> u32 {
        self.states()
    }

    fn start_state(&self) -> Option<u32> {
        self.start()
    }

    fn all_arcs(&self) -> u32 {
        self.arc_count()
    }

    fn arcs_at(&self, state: u32) -> &[FstArc<W::Wide>] {
        self.arcs(state)
    }

    fn final_at(&self, state: u32) -> W::Wide {
        self.final_weight(state)
    }
}
