//! The states of a machine, one behind the other, before all states to which their arcs lead stand.

ghost use Rattle.std.specs.Prelude.{◌≡◌, ◌≤◌, ◌+◌, ◌∷◌, ◌++◌, [], OnOk, OnErr, IfOk, length};
ghost use Rattle.fst_machine.specs.Machine.{IsMachine, arc_total, most_arcs};

use super::Fst;
use crate::arc::FstArc;
use crate::kept::Kept;
use crate::slot::Slot;
use fst_semiring::Weight;
use std::alloc::{AllocError, Global};
use std::marker::Model;

/// States with their arcs, which become a machine once all of them stand.
#[derive(Drop)]
pub struct StateList<W: Weight> {
    pub(super) slots: Vec<Slot<W>>,
    pub(super) store: Vec<FstArc<W>>,
}

impl<W: Weight> Model for StateList<W> {
    ghost use Rattle.std.specs.Prelude.{List, [], ◌≡◌, length, All};
    ghost use Rattle.fst_machine.specs.Machine.{State, arc_total};
    ghost use Rattle.fst_machine.specs.Store.{kept_states, LiesIn};

    ghost Value = { List (State W) };

    ghost view = { λ l. kept_states l.store.items [] l.slots.items };

    ghost invariant = { λ l. (length l.store.items ≡ arc_total (kept_states l.store.items [] l.slots.items)) × All (LiesIn (length l.store.items)) l.slots.items };
}

impl<W: Weight> StateList<W> {
    /// No states, and room for so many states and arcs.
    pub fn with_capacity(
        alloc: Global,
        states: usize,
        arcs: usize,
    ) -> Result<StateList<W>, AllocError>
        ensures { IfOk result (λ l. l ≡ []) }
    {
        Ok(StateList {
            slots: Vec::with_capacity(alloc, states)?,
            store: Vec::with_capacity(alloc, arcs)?,
        })
    }

    /// Puts a state with these arcs behind the others. After an `Err` the list is as before.
    pub fn push(&mut self, last: W, arcs: &[FstArc<W>]) -> Result<(), AllocError>
        requires { arc_total self.old + length arcs.now ≤ most_arcs }
        ensures ok { OnOk result (self.new ≡ self.old ++ record { final = last; arcs = arcs.now } ∷ []) }
        ensures err { OnErr result (self.new ≡ self.old) }
    {
        let first = self.store.len() as u32;
        let count = arcs.len() as u32;
        self.slots.reserve(1)?;
        self.store.extend_from_slice(arcs)?;
        self.slots.push_reserved(Slot { last, first, count });
        Ok(())
    }

    /// The number of arcs of all states together. Takes no memory.
    pub fn arc_count(&self) -> usize
        ensures { result ≡ arc_total self.now }
    {
        self.store.len()
    }

    /// The machine with these states and this start. Takes no memory.
    pub fn into_machine(self, start: Option<u32>) -> Fst<W>
        requires { IsMachine W.value (record { start = start; states = self }) }
        ensures { result ≡ record { start = start; states = self } }
    {
        let alloc = *self.slots.allocator();
        let total = self.store.len() as u32;
        Fst {
            kept: Kept {
                start,
                slots: self.slots,
                store: self.store,
                apart: Vec::new(alloc),
                total,
            },
        }
    }
}
