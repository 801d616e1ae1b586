//! The states of a machine that is given away, of which those that were seen are forgotten.

ghost use Rattle.std.specs.Prelude.{◌≡◌, ◌≤◌, ◌<◌, IfErr, IfOk, OnErr, OnOk, All, Some, drop, length, map, slice_get};
ghost use Rattle.std.specs.Option.{option_map};
ghost use Rattle.fst_machine.specs.Forgetting.{BeginsFrom, moved_back};

use super::{Fst, StateList};
use crate::arc::FstArc;
use crate::kept::Kept;
use crate::slot::Slot;
use fst_semiring::Weight;
use std::alloc::{AllocError, Global};
use std::marker::Model;

/// The states of a machine that was given away, in order. Where the first of them are no longer needed, they are
/// forgotten, and the room of their arcs is given back.
#[derive(Drop)]
pub struct Leaving<W: Weight> {
    slots: Vec<Slot<W>>,
    store: Vec<FstArc<W>>,
}

impl<W: Weight> Model for Leaving<W> {
    ghost use Rattle.std.specs.Prelude.{List, [], length, All};
    ghost use Rattle.fst_machine.specs.Machine.{State};
    ghost use Rattle.fst_machine.specs.Store.{kept_states, LiesIn};

    ghost Value = { List (State W) };

    ghost view = { λ l. kept_states l.store.items [] l.slots.items };

    ghost invariant = { λ l. All (LiesIn (length l.store.items)) l.slots.items };
}

/// Where the first part of a store begins that one of the slots has; the number of arcs where none has one.
fn first_part<V>(slots: &[Slot<V>], arcs: usize) -> usize
    ensures low { All (BeginsFrom result) slots.now }
    ensures few { result ≤ arcs }
{
    let mut first = arcs;
    for slot in slots {
        if slot.count > 0 {
            first = first.min(slot.first as usize);
        }
    }
    first
}

/// Moves the parts of slots so many places back.
fn move_back<V: Copy>(slots: &mut Vec<Slot<V>>, by: usize)
    requires { All (BeginsFrom by) slots.old.items }
    ensures { slots.new.items ≡ map (moved_back by) slots.old.items }
{
    for place in 0..slots.len() {
        let slot = &slots[place];
        let first = if slot.count > 0 {
            slot.first - by as u32
        } else {
            0
        };
        slots[place] = Slot {
            last: slot.last,
            first,
            count: slot.count,
        };
    }
}

/// Takes the first slots away, and gives back their room.
fn remove_slots<V: Drop>(slots: &mut Vec<Slot<V>>, count: usize)
    requires { count ≤ length slots.old.items }
    ensures { slots.new.items ≡ drop count slots.old.items }
{
    slots.drain(..count);
    slots.shrink_to_fit();
}

/// Takes the first items away, and gives back their room.
fn remove_front<X: Copy>(items: &mut Vec<X>, count: usize)
    requires { count ≤ length items.old.items }
    ensures { items.new.items ≡ drop count items.old.items }
{
    let len = items.len();
    items.copy_within(count..len, 0);
    items.truncate(len - count);
    items.shrink_to_fit();
}

impl<W: Weight> Fst<W> {
    /// The states of a machine that is given away; the machine as it was where arcs of some of its states stand apart from
    /// those of the others. Takes no memory.
    pub fn leave(self) -> Result<Leaving<W>, Fst<W>>
        ensures states { IfOk result (λ states. states ≡ self.states) }
        ensures given { IfErr result (λ fst. fst ≡ self) }
    {
        if !self.kept.apart.is_empty() {
            return Err(self);
        }
        let Kept { slots, store, .. } = self.kept;
        Ok(Leaving { slots, store })
    }
}

impl<W: Weight> StateList<W> {
    /// The states of a list that is given away. Takes no memory.
    pub(super) fn leave(self) -> Leaving<W>
        ensures { result ≡ self }
    {
        Leaving {
            slots: self.slots,
            store: self.store,
        }
    }
}

impl<W: Weight> Leaving<W> {
    /// The number of states. Takes no memory.
    #[tactic(auto, using(crate::proofs::Keeping::kept_length))]
    pub fn len(&self) -> usize
        ensures { result ≡ length self.now }
    {
        self.slots.len()
    }

    /// The arcs of the state in a place, from 0. Takes no memory.
    #[tactic(auto, using(crate::proofs::Keeping::kept_length))]
    pub fn arcs(&self, place: usize) -> &[FstArc<W>]
        requires { place < length self.now }
        ensures { option_map (λ s. s.arcs) (slice_get self.now place) ≡ Some result.now }
    {
        let slot = &self.slots[place];
        slot.arcs(0, self.store.as_slice(), &[])
    }

    /// The final weight of the state in a place, from 0; Zero where it is not final. Takes no memory.
    #[tactic(auto, using(crate::proofs::Keeping::kept_length))]
    pub fn final_weight(&self, place: usize) -> W
        requires { place < length self.now }
        ensures { option_map (λ s. s.final) (slice_get self.now place) ≡ Some result }
    {
        let slot = &self.slots[place];
        slot.last
    }

    /// Forgets the first states. The others and their arcs move to where the first stood, and the room behind them is given
    /// back. Takes no memory.
    ///
    /// Time: linear in what is left.
    #[tactic(auto, using(crate::proofs::Keeping::kept_length))]
    pub fn forget(&mut self, count: usize)
        requires { count ≤ length self.old }
        ensures { self.new ≡ drop count self.old }
    {
        remove_slots(&mut self.slots, count);
        let by = first_part(self.slots.as_slice(), self.store.len());
        move_back(&mut self.slots, by);
        remove_front(&mut self.store, by);
    }
}
