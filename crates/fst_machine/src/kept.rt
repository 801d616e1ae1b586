//! The states and the arcs of a machine, whatever its weights are. Both kinds of machine stand on it.

ghost use Rattle.std.specs.Prelude.{◌≡◌, ◌<◌, ◌≤◌, ◌↔◌, ◌∷◌, ◌++◌, [], Some, OnOk, OnErr, IfOk, IsErrOf, length, slice_get};
ghost use Rattle.std.specs.Option.{option_map};
ghost use Rattle.fst_machine.specs.Machine.{Machine, arc_total, bare_state, changed, most_arcs, most_states, no_states, with_arc, with_final};

use crate::arc::FstArc;
use crate::fst::{GrowFault, MOST_ARCS, MOST_STATES};
use crate::slot::{Apart, Slot};
use std::alloc::Global;
use std::marker::Model;

/// A start or none, and states with their arcs, within the limits of a machine.
#[derive(Drop)]
pub(crate) struct Kept<V> {
    /// The start.
    pub(crate) start: Option<u32>,
    /// What is kept of each state.
    pub(crate) slots: Vec<Slot<V>>,
    /// The arcs that the states have in common.
    pub(crate) store: Vec<FstArc<V>>,
    /// The arcs of the states whose part of the store could not grow.
    pub(crate) apart: Vec<Apart<V>>,
    /// The number of arcs of all states together.
    pub(crate) total: u32,
}

impl<V> Model for Kept<V> {
    ghost use Rattle.fst_machine.specs.Machine.{Machine};
    ghost use Rattle.fst_machine.specs.Store.{kept_states};
    ghost use Rattle.fst_machine.specs.KeptMachine.{IsKept};

    ghost Value = { Machine V };

    ghost view = { λ m. record { start = m.start; states = kept_states m.store.items m.apart.items m.slots.items } };

    ghost invariant = { λ m. IsKept m.slots.items m.store.items m.apart.items m.total };
}

impl<V: Copy> Kept<V> {
    /// No states and no start.
    pub(crate) fn new(alloc: Global) -> Kept<V>
        ensures { result ≡ no_states }
    {
        Kept {
            start: None,
            slots: Vec::new(alloc),
            store: Vec::new(alloc),
            apart: Vec::new(alloc),
            total: 0,
        }
    }

    /// Adds a state with this final weight and no arcs behind the others, and gives its number.
    #[tactic(auto, using(crate::proofs::Keeping::kept_length))]
    pub(crate) fn add_state(&mut self, last: V) -> Result<u32, GrowFault>
        ensures number { IfOk result (λ n. n ≡ length self.old.states) }
        ensures ok { OnOk result (self.new ≡ record self.old { states = self.old.states ++ bare_state last ∷ [] }) }
        ensures full { IsErrOf result GrowFault.TooManyStates ↔ (most_states ≤ length self.old.states) }
        ensures few_arcs { IsErrOf result GrowFault.TooManyArcs → ⊥ }
        ensures err { OnErr result (self.new ≡ self.old) }
    {
        let number = self.slots.len();
        if number >= MOST_STATES {
            return Err(GrowFault::TooManyStates);
        }
        let Ok(()) = self.slots.push(Slot::new(last)) else {
            return Err(GrowFault::Memory);
        };
        Ok(number as u32)
    }

    /// Adds an arc behind the others of a state.
    #[tactic(auto, using(crate::proofs::Keeping::kept_length))]
    pub(crate) fn add_arc(&mut self, state: u32, arc: FstArc<V>) -> Result<(), GrowFault>
        requires { state < length self.old.states }
        ensures ok { OnOk result (self.new ≡ record self.old { states = changed (with_arc arc) self.old.states state }) }
        ensures full { IsErrOf result GrowFault.TooManyArcs ↔ (most_arcs ≤ arc_total self.old.states) }
        ensures few_states { IsErrOf result GrowFault.TooManyStates → ⊥ }
        ensures err { OnErr result (self.new ≡ self.old) }
    {
        if self.total >= MOST_ARCS {
            return Err(GrowFault::TooManyArcs);
        }
        let slot = &mut self.slots[state as usize];
        slot.put(state, &mut self.store, &mut self.apart, arc)?;
        self.total += 1;
        Ok(())
    }

    /// Makes a state the start.
    pub(crate) fn set_start(&mut self, state: u32)
        ensures { self.new ≡ record self.old { start = Some state } }
    {
        self.start = Some(state);
    }

    /// Sets the final weight of a state.
    #[tactic(auto, using(crate::proofs::Keeping::kept_length))]
    pub(crate) fn set_final(&mut self, state: u32, weight: V)
        requires { state < length self.old.states }
        ensures { self.new ≡ record self.old { states = changed (with_final weight) self.old.states state } }
    {
        let slot = &mut self.slots[state as usize];
        slot.last = weight;
    }

    /// The start.
    pub(crate) fn start(&self) -> Option<u32>
        ensures { result ≡ self.now.start }
    {
        self.start
    }

    /// The number of states.
    #[tactic(auto, using(crate::proofs::Keeping::kept_length))]
    pub(crate) fn states(&self) -> u32
        ensures { result ≡ length self.now.states }
    {
        self.slots.len() as u32
    }

    /// The number of arcs of all states together.
    pub(crate) fn arc_count(&self) -> u32
        ensures { result ≡ arc_total self.now.states }
    {
        self.total
    }

    /// The arcs of a state, in order.
    #[tactic(auto, using(crate::proofs::Keeping::kept_length))]
    pub(crate) fn arcs(&self, state: u32) -> &[FstArc<V>]
        requires { state < length self.now.states }
        ensures { option_map (λ s. s.arcs) (slice_get self.now.states state) ≡ Some result.now }
    {
        let slot = &self.slots[state as usize];
        slot.arcs(state, self.store.as_slice(), self.apart.as_slice())
    }

    /// The final weight of a state.
    #[tactic(auto, using(crate::proofs::Keeping::kept_length))]
    pub(crate) fn final_weight(&self, state: u32) -> V
        requires { state < length self.now.states }
        ensures { option_map (λ s. s.final) (slice_get self.now.states state) ≡ Some result }
    {
        let slot = &self.slots[state as usize];
        slot.last
    }
}
