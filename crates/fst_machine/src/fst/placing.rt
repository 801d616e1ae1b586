//! States of which it is known how many arcs each gets, before the arcs come in any order.

ghost use Rattle.std.specs.Prelude.{◌≡◌, ◌<◌, ◌≤◌, ◌-◌, ◌∷◌, ◌++◌, [], IfOk, OnErr, OnOk, get_or};
ghost use Rattle.fst_machine.specs.Machine.{IsMachine, bare_state, changed, most_arcs, with_arc};
ghost use Rattle.fst_machine.specs.Placing.{arc_counts};

use super::Fst;
use crate::arc::FstArc;
use crate::kept::Kept;
use crate::slot::Slot;
use fst_semiring::Weight;
use std::alloc::{AllocError, Global};
use std::marker::Model;

/// States with room for so many arcs each, side by side in one store. Arcs are put in any order, and each goes to
/// its place at once, so that no state has a list of its own.
///
/// Space: 24 bytes for each arc for which there is room, with a weight of 8 bytes, and 16 bytes a state.
#[derive(Drop)]
pub struct Placing<W: Weight> {
    slots: Vec<Slot<W>>,
    store: Vec<FstArc<W>>,
    /// Where the room of the last state ends.
    end: usize,
}

impl<W: Weight> Model for Placing<W> {
    ghost use Rattle.std.specs.Prelude.{[], ◌-◌, length};
    ghost use Rattle.fst_machine.specs.Placing.{ArePlaced, Placed, rooms_of};
    ghost use Rattle.fst_machine.specs.Store.{kept_states};

    ghost Value = { Placed W };

    ghost view = { λ p. record { states = kept_states p.store.items [] p.slots.items; rooms = rooms_of p.slots.items p.end; left = length p.store.items - p.end } };

    ghost invariant = { λ p. ArePlaced p.slots.items p.end (length p.store.items) };
}

impl<W: Weight> Placing<W> {
    /// No states, and room for so many arcs, and for so many states.
    pub fn with_capacity(
        alloc: Global,
        states: usize,
        arcs: usize,
    ) -> Result<Placing<W>, AllocError>
        requires { arcs ≤ most_arcs }
        ensures { IfOk result (λ p. p ≡ record { states = []; rooms = []; left = arcs }) }
    {
        // It stands in each place to which no arc was put yet.
        let none = FstArc {
            ilabel: 0,
            olabel: 0,
            weight: W::zero(),
            next: 0,
        };
        Ok(Placing {
            slots: Vec::with_capacity(alloc, states)?,
            store: vec![in alloc; none; arcs]?,
            end: 0,
        })
    }

    /// Puts a state without arcs, and with room for so many, behind the others. After an `Err` all is as before.
    pub fn push(&mut self, last: W, room: usize) -> Result<(), AllocError>
        requires { room ≤ self.old.left }
        ensures ok { OnOk result (self.new ≡ record { states = self.old.states ++ bare_state last ∷ []; rooms = self.old.rooms ++ room ∷ []; left = self.old.left - room }) }
        ensures err { OnErr result (self.new ≡ self.old) }
    {
        let first = self.end as u32;
        self.slots.push(Slot {
            last,
            first,
            count: 0,
        })?;
        self.end += room;
        Ok(())
    }

    /// Puts an arc behind the others of a state that has room for it. Takes no memory.
    pub fn put(&mut self, state: u32, arc: FstArc<W>)
        requires { get_or (arc_counts self.old.states) state 0 < get_or self.old.rooms state 0 }
        ensures { self.new ≡ record self.old { states = changed (with_arc arc) self.old.states state } }
    {
        let slot = &mut self.slots[state as usize];
        let place = slot.first as usize + slot.count as usize;
        slot.count += 1;
        self.store[place] = arc;
    }

    /// The machine with these states and this start, where all rooms are full. Takes no memory.
    pub fn into_machine(self, start: Option<u32>) -> Fst<W>
        requires machine { IsMachine W.value (record { start = start; states = self.states }) }
        requires full { arc_counts self.states ≡ self.rooms }
        requires given { self.left ≡ 0 }
        ensures { result ≡ record { start = start; states = self.states } }
    {
        let alloc = *self.slots.allocator();
        let total = self.store.len() as u32;
        Fst {
            kept: Kept {
                start,
                slots: self.slots,
                store: self.store,
                apart: Vec::new(alloc),
                total,
            },
        }
    }
}
