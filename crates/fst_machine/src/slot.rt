//! How the arcs of a state are kept.
//!
//! The arcs of most states are added one after the other. They stand in one store that all states share, so
//! that a machine needs no memory of its own for each state. A state whose part of the store is not at the
//! end when an arc is added gets a list apart from the store, once.

ghost use Rattle.std.specs.Prelude.{◌≡◌, ◌≤◌, ◌<◌, ◌+◌, ◌∷◌, ◌++◌, [], Some, OnOk, OnErr, IfOk, MatchOption, length, take, drop, slice_get};
ghost use Rattle.std.specs.Option.{option_map};
ghost use Rattle.fst_machine.specs.Store.{LiesIn, arcs_apart, slot_arcs};
ghost use Rattle.fst_machine.specs.Putting.{Puts};

use crate::arc::FstArc;
use std::alloc::AllocError;
use std::marker::Model;

/// What is kept of a state.
#[derive(Drop)]
pub(crate) struct Slot<W> {
    /// The final weight.
    pub(crate) last: W,
    /// Where its part of the store begins. Of a state with no part of it, one more than the place of its list among
    /// those apart; where there is no such list, or another state has it, the state has no arcs.
    pub(crate) first: u32,
    /// How many arcs its part of the store has.
    pub(crate) count: u32,
}

impl<W> Model for Slot<W> {
    ghost use Rattle.fst_machine.specs.Store.{Slot};

    ghost Value = { Slot W };

    ghost view = { λ s. record { final = s.last; first = s.first; count = s.count } };
}

/// A list of arcs apart from the store. It tells the state that has it, so that no two states have one list.
#[derive(Drop)]
pub(crate) struct Apart<W> {
    /// The number of the state.
    state: u32,
    /// Its arcs.
    arcs: Vec<FstArc<W>>,
}

impl<W> Model for Apart<W> {
    ghost use Rattle.fst_machine.specs.Store.{Apart};

    ghost Value = { Apart W };

    ghost view = { λ x. record { state = x.state; arcs = x.arcs.items } };
}

impl<W: Copy> Slot<W> {
    /// A state with this final weight and no arcs. Takes no memory.
    pub(crate) fn new(last: W) -> Slot<W>
        ensures { result ≡ record { final = last; first = 0; count = 0 } }
    {
        Slot {
            last,
            first: 0,
            count: 0,
        }
    }

    /// The arcs of the state, which has this number.
    pub(crate) fn arcs<'s>(
        &self,
        state: u32,
        store: &'s [FstArc<W>],
        apart: &'s [Apart<W>],
    ) -> &'s [FstArc<W>]
        requires { LiesIn (length store.now) self.now }
        ensures { result.now ≡ slot_arcs store.now apart.now state self.now }
    {
        if self.count > 0 {
            let first = self.first as usize;
            let behind = first + self.count as usize;
            return &store[first..behind];
        }
        match place_apart(apart, self.first, state) {
            Some(place) => {
                let own = &apart[place];
                own.arcs.as_slice()
            }
            None => &store[..0],
        }
    }

    /// Adds an arc behind the others of the state, which has this number.
    pub(crate) fn put(
        &mut self,
        state: u32,
        store: &mut Vec<FstArc<W>>,
        apart: &mut Vec<Apart<W>>,
        arc: FstArc<W>,
    ) -> Result<(), AllocError>
        requires inside { LiesIn (length store.old.items) self.old }
        requires small { length store.old.items + length apart.old.items < 4294967295 }
        ensures ok { OnOk result (Puts arc state store.old.items apart.old.items self.old store.new.items apart.new.items self.new) }
        ensures err { OnErr result ((store.new.items ≡ store.old.items) × (apart.new.items ≡ apart.old.items) × (self.new ≡ self.old)) }
    {
        if self.count == 0 {
            if let Some(place) = place_apart(apart.as_slice(), self.first, state) {
                let own = &mut apart[place];
                own.arcs.push(arc)?;
                return Ok(());
            }
            let behind = store.len() as u32;
            store.push(arc)?;
            self.first = behind;
            self.count = 1;
            return Ok(());
        }
        if self.first + self.count == store.len() as u32 {
            store.push(arc)?;
            self.count += 1;
            return Ok(());
        }
        let own = moved(store, self.first as usize, self.count as usize, arc)?;
        apart.push(Apart { state, arcs: own })?;
        self.first = apart.len() as u32;
        self.count = 0;
        Ok(())
    }
}

/// The place of the list of a state, by one more than it.
fn place_apart<W>(apart: &[Apart<W>], first: u32, state: u32) -> Option<usize>
    ensures { MatchOption result (arcs_apart apart.now first state ≡ []) (λ p. (first ≡ p + 1) × (option_map (λ x. x.state) (slice_get apart.now p) ≡ Some state)) }
{
    let place = (first as usize).checked_sub(1)?;
    let own = apart.get(place)?;
    if own.state == state {
        Some(place)
    } else {
        None
    }
}

/// A copy of a part of the store, with one more arc.
fn moved<W: Copy>(
    store: &Vec<FstArc<W>>,
    first: usize,
    count: usize,
    arc: FstArc<W>,
) -> Result<Vec<FstArc<W>>, AllocError>
    requires { first + count ≤ length store.now.items }
    ensures { IfOk result (λ own. own.items ≡ take count (drop first store.now.items) ++ arc ∷ []) }
{
    let mut own = Vec::with_capacity(*store.allocator(), count + 1)?;
    own.extend_from_slice(&store[first..first + count])?;
    own.push(arc)?;
    Ok(own)
}
