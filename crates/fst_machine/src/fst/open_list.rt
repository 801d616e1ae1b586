//! The states of a machine, one behind the other, of which the last gets its arcs one at a time.

ghost use Rattle.std.specs.Prelude.{◌≡◌, ◌<◌, ◌+◌, ◌∷◌, ◌++◌, [], OnOk, OnErr, IfOk, length};
ghost use Rattle.fst_machine.specs.Machine.{arc_total, most_arcs};
ghost use Rattle.fst_machine.specs.OpenStates.{none_open};

use super::state_list::StateList;
use crate::arc::FstArc;
use crate::slot::Slot;
use fst_semiring::Weight;
use std::alloc::{AllocError, Global};
use std::marker::Model;

/// States with their arcs, and a state behind them that is still open. Its arcs are put where they stay, so that
/// no list of them is made beside.
#[derive(Drop)]
pub struct OpenList<W: Weight> {
    slots: Vec<Slot<W>>,
    store: Vec<FstArc<W>>,
    /// Where the arcs of the open state begin in the store.
    first: u32,
}

impl<W: Weight> Model for OpenList<W> {
    ghost use Rattle.fst_machine.specs.OpenStates.{IsOpen, OpenStates, opened};

    ghost Value = { OpenStates W };

    ghost view = { λ l. opened l.slots.items l.store.items l.first };

    ghost invariant = { λ l. IsOpen l.slots.items l.store.items l.first };
}

impl<W: Weight> OpenList<W> {
    /// No states and no arcs, and room for so many of both.
    pub fn with_capacity(
        alloc: Global,
        states: usize,
        arcs: usize,
    ) -> Result<OpenList<W>, AllocError>
        ensures { IfOk result (λ l. l ≡ none_open) }
    {
        Ok(OpenList {
            slots: Vec::with_capacity(alloc, states)?,
            store: Vec::with_capacity(alloc, arcs)?,
            first: 0,
        })
    }

    /// Puts an arc behind the others of the open state. After an `Err` the list is as before.
    pub fn put_arc(&mut self, arc: FstArc<W>) -> Result<(), AllocError>
        requires { arc_total self.old.states + length self.old.arcs < most_arcs }
        ensures ok { OnOk result (self.new ≡ record self.old { arcs = self.old.arcs ++ arc ∷ [] }) }
        ensures err { OnErr result (self.new ≡ self.old) }
    {
        if self.store.len() < self.store.capacity() {
            self.store.push_reserved(arc);
            return Ok(());
        }
        self.store.push(arc)?;
        Ok(())
    }

    /// Puts the open state behind the others, with this final weight. The next is open then, and has no arcs. After
    /// an `Err` the list is as before.
    pub fn close(&mut self, last: W) -> Result<(), AllocError>
        ensures ok { OnOk result (self.new ≡ record { states = self.old.states ++ record { final = last; arcs = self.old.arcs } ∷ []; arcs = [] }) }
        ensures err { OnErr result (self.new ≡ self.old) }
    {
        let first = self.first;
        let behind = self.store.len() as u32;
        let count = behind - first;
        self.slots.push(Slot { last, first, count })?;
        self.first = behind;
        Ok(())
    }

    /// The number of arcs of all states together, those of the open one among them. Takes no memory.
    pub fn arc_count(&self) -> usize
        ensures { result ≡ arc_total self.now.states + length self.now.arcs }
    {
        self.store.len()
    }

    /// The states, where the open one has no arcs. Takes no memory.
    pub fn into_list(self) -> StateList<W>
        requires { self.arcs ≡ [] }
        ensures { result ≡ self.states }
    {
        StateList {
            slots: self.slots,
            store: self.store,
        }
    }
}
