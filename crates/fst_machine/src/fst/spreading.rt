//! The states of a machine that is given away, which get arcs more where they stand.

ghost use Rattle.std.specs.Prelude.{◌≡◌, ◌≤◌, ◌<◌, ◌+◌, ◌∷◌, ◌++◌, ℕ, [], All, IfErr, IfOk, OnOk, Some, drop, length, map, slice_get, take};
ghost use Rattle.std.specs.Option.{option_map};
ghost use Rattle.fst_machine.specs.Extending.{shifted, wrapped};
ghost use Rattle.fst_machine.specs.Machine.{State, arc_total, most_arcs};
ghost use Rattle.fst_machine.specs.SideBySide.{end_of};

use super::extending::further_on;
use super::rewriting::{Rewriting, write_arcs};
use super::{Fst, StateList};
use crate::arc::FstArc;
use crate::slot::Slot;
use fst_semiring::Weight;
use std::alloc::AllocError;
use std::marker::Model;

/// The states of a machine that was given away, in order, which one after the other get their final weight and arcs more
/// behind their own. The states that are done stand in front of those that are left, and there is room for some arcs
/// more, so that no second machine is made.
#[derive(Drop)]
pub struct Spreading<W: Weight> {
    slots: Vec<Slot<W>>,
    store: Vec<FstArc<W>>,
    /// How many states are done.
    state: usize,
    /// Where the arcs of the states that are done end.
    end: usize,
    /// How many places further back the arcs of the others stand than their slots tell.
    back: usize,
    /// Where the arcs of the states that are done ended, as the slots told.
    place: usize,
}

impl<W: Weight> Model for Spreading<W> {
    ghost use Rattle.std.specs.Prelude.{◌+◌, ◌-◌, [], drop, take};
    ghost use Rattle.fst_machine.specs.Spreading.{IsSpreading, Spread};
    ghost use Rattle.fst_machine.specs.Store.{kept_states};

    ghost Value = { Spread W };

    ghost view = { λ l. record { done = kept_states (take l.end l.store.items) [] (take l.state l.slots.items); left = kept_states (drop l.back l.store.items) [] (drop l.state l.slots.items); room = l.back + l.place - l.end } };

    ghost invariant = { λ l. IsSpreading l.slots.items l.store.items l.state l.end l.back l.place };
}

/// Moves the arcs of a store so many places back, for which just the room is taken.
fn make_room<W: Weight>(store: &mut Vec<FstArc<W>>, by: usize) -> Result<(), AllocError>
    requires { length store.old.items + by ≤ most_arcs }
    ensures size { OnOk result (length store.new.items ≡ length store.old.items + by) }
    ensures moved { OnOk result (drop by store.new.items ≡ store.old.items) }
{
    if by == 0 {
        return Ok(());
    }
    let count = store.len();
    let any = FstArc {
        ilabel: 0,
        olabel: 0,
        weight: W::zero(),
        next: 0,
    };
    store.reserve_exact(by)?;
    store.resize(count + by, any)?;
    store.copy_within(0..count, by);
    Ok(())
}

/// Copies so many arcs of a store to a place before theirs, each to lead so many places further on.
fn copy_shifted<V: Copy>(store: &mut [FstArc<V>], first: usize, count: usize, to: usize, by: u32)
    requires inside { 0 < count → first + count ≤ length store.old }
    requires small { first + count < 17179869184 }
    requires place { 0 < count → to ≤ first }
    ensures front { take (to + count) store.new ≡ take to store.old ++ map (wrapped by) (take count (drop first store.old)) }
    ensures behind { (n : ℕ) → (0 < count → first + count ≤ n) → drop n store.new ≡ drop n store.old }
    ensures size { length store.new ≡ length store.old }
{
    let mut end = to;
    for place in first..first + count {
        let arc = store[place];
        store[end] = further_on(arc, by);
        end += 1;
    }
}

/// Puts so many arcs of a store, each to lead so many places further on, and more arcs behind them, in a place before
/// theirs.
fn put_arcs<V: Copy>(
    store: &mut [FstArc<V>],
    first: usize,
    count: usize,
    to: usize,
    by: u32,
    more: &[FstArc<V>],
)
    requires inside { 0 < count → first + count ≤ length store.old }
    requires small { first + count < 17179869184 }
    requires place { 0 < count → to ≤ first }
    requires room { to + count + length more.now ≤ length store.old }
    ensures front { take (to + count + length more.now) store.new ≡ take to store.old ++ (map (wrapped by) (take count (drop first store.old)) ++ more.now) }
    ensures behind { (n : ℕ) → (0 < count → first + count ≤ n) → to + count + length more.now ≤ n → drop n store.new ≡ drop n store.old }
    ensures size { length store.new ≡ length store.old }
{
    copy_shifted(store, first, count, to, by);
    write_arcs(store, to + count, more);
}

/// Where so many arcs end; where there are none, the place is as before.
fn place_behind(behind: usize, first: usize, count: usize) -> usize
    requires { first + count < 17179869184 }
    ensures { result ≡ end_of behind first count }
{
    if count == 0 { behind } else { first + count }
}

impl<W: Weight> Fst<W> {
    /// The states of a machine that is given away, none of which has its new arcs yet, with room for so many arcs more;
    /// the machine as it was where the arcs of its states do not stand side by side. An `Err` is of memory.
    ///
    /// Time: linear in the states and the arcs. Space: the arcs, with so many more.
    pub fn spread(self, more: usize) -> Result<Result<Spreading<W>, Fst<W>>, AllocError>
        requires { arc_total self.states + more ≤ most_arcs }
        ensures spread { IfOk result (λ r. IfOk r (λ s. (s.done ≡ []) × (s.left ≡ self.states) × (more ≤ s.room))) }
        ensures given { IfOk result (λ r. IfErr r (λ fst. fst ≡ self)) }
    {
        match self.rewrite() {
            Err(fst) => Ok(Err(fst)),
            Ok(machine) => Ok(Ok(machine.spread(more)?)),
        }
    }
}

impl<W: Weight> Rewriting<W> {
    /// The same of a machine whose arcs stand side by side.
    fn spread(self, more: usize) -> Result<Spreading<W>, AllocError>
        requires { arc_total self.states + more ≤ most_arcs }
        ensures { IfOk result (λ s. (s.done ≡ []) × (s.left ≡ self.states) × (more ≤ s.room)) }
    {
        let Rewriting {
            slots,
            mut store,
            ..
        } = self;
        make_room(&mut store, more)?;
        Ok(Spreading {
            slots,
            store,
            state: 0,
            end: 0,
            back: more,
            place: 0,
        })
    }
}

impl<W: Weight> Spreading<W> {
    /// How many states are left. Takes no memory.
    #[tactic(auto, using(crate::proofs::Keeping::kept_length))]
    pub fn left(&self) -> usize
        ensures { result ≡ length self.now.left }
    {
        self.slots.len() - self.state
    }

    /// The final weight of the first state that is left. Takes no memory.
    #[tactic(auto, using(crate::proofs::Keeping::kept_length))]
    pub fn final_weight(&self) -> W
        requires { 0 < length self.now.left }
        ensures { option_map (λ s. s.final) (slice_get self.now.left 0) ≡ Some result }
    {
        let slot = &self.slots[self.state];
        slot.last
    }

    /// Puts the first state that is left behind those that are done: with this final weight, its arcs so many places
    /// further on, and these arcs behind them. Takes no memory.
    ///
    /// Time: linear in the arcs of the state and these.
    #[tactic(auto, using(crate::proofs::Keeping::kept_length))]
    pub fn put_next(&mut self, last: W, by: u32, more: &[FstArc<W>])
        requires some { 0 < length self.old.left }
        requires room { length more.now ≤ self.old.room }
        requires places { (s : State W) → slice_get self.old.left 0 ≡ Some s → All (λ a. by + a.next < 4294967296) s.arcs }
        ensures done { (s : State W) → slice_get self.old.left 0 ≡ Some s → self.new.done ≡ self.old.done ++ record { final = last; arcs = map (shifted by) s.arcs ++ more.now } ∷ [] }
        ensures left { self.new.left ≡ drop 1 self.old.left }
        ensures room { self.old.room ≤ self.new.room + length more.now }
    {
        let slot = &self.slots[self.state];
        let first = slot.first as usize;
        let count = slot.count as usize;
        put_arcs(
            self.store.as_mut_slice(),
            self.back + first,
            count,
            self.end,
            by,
            more,
        );
        let all = count + more.len();
        self.slots[self.state] = Slot {
            last,
            first: self.end as u32,
            count: all as u32,
        };
        self.place = place_behind(self.place, first, count);
        self.end += all;
        self.state += 1;
    }

    /// The states, where none is left. Takes no memory.
    pub fn into_list(self) -> StateList<W>
        requires { self.left ≡ [] }
        ensures { result ≡ self.done }
    {
        let Spreading {
            slots,
            mut store,
            end,
            ..
        } = self;
        store.truncate(end);
        StateList { slots, store }
    }
}
