//! A machine that grows by its calls.

ghost use Rattle.std.specs.Prelude.{◌≡◌, ◌≢◌, ◌<◌, ◌≤◌, ◌↔◌, ◌∷◌, ◌++◌, [], Some, OnOk, OnErr, IfOk, IfSome, IsErrOf, length, slice_get};
ghost use Rattle.std.specs.Option.{option_map};
ghost use Rattle.fst_semiring.specs.Cost.{infinite};
ghost use Rattle.fst_machine.specs.Machine.{Machine, IsMachine, arc_total, bare_state, changed, greatest_label, most_arcs, most_states, no_states, with_arc, with_final};

use crate::arc::FstArc;
use crate::kept::Kept;

mod change;
mod extending;
mod joined;
mod leaving;
mod open_list;
mod placing;
mod retain;
mod rewriting;
mod spreading;
mod state_list;

pub use change::ArcsChange;
use fst_semiring::Weight;
pub use joined::Joined;
pub use leaving::Leaving;
pub use open_list::OpenList;
pub use placing::Placing;
pub use rewriting::Rewriting;
pub use spreading::Spreading;
pub use state_list::StateList;
use std::alloc::{AllocError, Global};
use std::marker::Model;

/// The greatest number of states of a machine.
pub const MOST_STATES: usize = 4_194_304;

/// The greatest number of arcs of a machine.
pub const MOST_ARCS: u32 = 33_554_432;

/// Why a machine does not grow. It is then as before.
#[derive(Clone, Copy, Debug, PartialEq, Eq)]
pub enum GrowFault {
    /// It has 4,194,304 states.
    TooManyStates,
    /// It has 33,554,432 arcs.
    TooManyArcs,
    /// There is no memory.
    Memory,
}

impl From<AllocError> for GrowFault {
    ghost use Rattle.std.specs.Prelude.{◌≡◌};
    ghost use Rattle.fst_machine.specs.declared.fst.GrowFault.TheVariants as faults;

    ghost from_gives = { λ _ e. e ≡ faults.Memory };

    fn from(_e: AllocError) -> GrowFault {
        GrowFault::Memory
    }
}

/// A weighted machine: a start or none, and states, each with a final weight and its arcs in order. A state
/// is final where its final weight is not Zero. (OpenFst manual, "VectorFst".)
///
/// A machine whose arcs are added state by state keeps them side by side, 24 bytes each for a weight of 8
/// bytes, and 16 bytes a state.
#[derive(Drop)]
pub struct Fst<W: Weight> {
    kept: Kept<W>,
}

impl<W: Weight> Model for Fst<W> {
    ghost use Rattle.fst_machine.specs.Machine.{Machine, IsMachine};

    ghost Value = { Machine W };

    ghost view = { λ m. m.kept };

    ghost invariant = { λ m. IsMachine W.value m.kept };
}

impl<W: Weight> Fst<W> {
    /// The machine with no states and no start. Takes no memory.
    pub fn new(alloc: Global) -> Fst<W>
        ensures { result ≡ no_states }
    {
        Fst {
            kept: Kept::new(alloc),
        }
    }

    /// Adds a state with final weight Zero and no arcs behind the others, and gives its number.
    /// `TooManyStates` exactly where there are 4,194,304 states. Any refusal leaves the machine as it was.
    pub fn add_state(&mut self) -> Result<u32, GrowFault>
        ensures number { IfOk result (λ n. n ≡ length self.old.states) }
        ensures zero { IfOk result (λ n. (zero : W) × (W.value zero ≡ infinite) × (self.new ≡ record self.old { states = self.old.states ++ bare_state zero ∷ [] })) }
        ensures full { IsErrOf result GrowFault.TooManyStates ↔ (most_states ≤ length self.old.states) }
        ensures few_arcs { IsErrOf result GrowFault.TooManyArcs → ⊥ }
        ensures err { OnErr result (self.new ≡ self.old) }
    {
        let number = self.kept.add_state(W::zero())?;
        Ok(number)
    }

    /// Adds an arc behind the others of a state. `TooManyArcs` exactly where there are 33,554,432 arcs. Any
    /// refusal leaves the machine as it was.
    pub fn add_arc(&mut self, state: u32, arc: FstArc<W>) -> Result<(), GrowFault>
        requires state { state < length self.old.states }
        requires next { arc.next < length self.old.states }
        requires ilabel { arc.ilabel ≤ greatest_label }
        requires olabel { arc.olabel ≤ greatest_label }
        requires weight { W.value arc.weight ≢ infinite }
        ensures ok { OnOk result (self.new ≡ record self.old { states = changed (with_arc arc) self.old.states state }) }
        ensures full { IsErrOf result GrowFault.TooManyArcs ↔ (most_arcs ≤ arc_total self.old.states) }
        ensures few_states { IsErrOf result GrowFault.TooManyStates → ⊥ }
        ensures err { OnErr result (self.new ≡ self.old) }
    {
        self.kept.add_arc(state, arc)?;
        Ok(())
    }

    /// Makes a state the start.
    pub fn set_start(&mut self, state: u32)
        requires { state < length self.old.states }
        ensures { self.new ≡ record self.old { start = Some state } }
    {
        self.kept.set_start(state);
    }

    /// Sets the final weight of a state.
    pub fn set_final(&mut self, state: u32, weight: W)
        requires { state < length self.old.states }
        ensures { self.new ≡ record self.old { states = changed (with_final weight) self.old.states state } }
    {
        self.kept.set_final(state, weight);
    }

    /// The start; `None` exactly where there is none. Takes no memory.
    pub fn start(&self) -> Option<u32>
        ensures value { result ≡ self.now.start }
        ensures state { IfSome result (λ s. s < length self.now.states) }
    {
        self.kept.start()
    }

    /// The number of states, and with it what holds of every machine. Takes no memory.
    pub fn states(&self) -> u32
        ensures value { result ≡ length self.now.states }
        ensures machine { IsMachine W.value self.now }
    {
        self.kept.states()
    }

    /// The number of arcs of all states together. Takes no memory.
    pub fn arc_count(&self) -> u32
        ensures { result ≡ arc_total self.now.states }
    {
        self.kept.arc_count()
    }

    /// The arcs of a state, in order. Takes no memory.
    pub fn arcs(&self, state: u32) -> &[FstArc<W>]
        requires { state < length self.now.states }
        ensures { option_map (λ s. s.arcs) (slice_get self.now.states state) ≡ Some result.now }
    {
        self.kept.arcs(state)
    }

    /// The final weight of a state; Zero where it is not final. Takes no memory.
    pub fn final_weight(&self, state: u32) -> W
        requires { state < length self.now.states }
        ensures { option_map (λ s. s.final) (slice_get self.now.states state) ≡ Some result }
    {
        self.kept.final_weight(state)
    }
}
