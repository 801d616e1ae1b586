//! The states of a machine that is given away, to which more are put.

ghost use Rattle.std.specs.Prelude.{◌≡◌, ◌≤◌, ◌<◌, ◌+◌, ◌∷◌, ◌++◌, [], All, IfErr, IfOk, OnErr, OnOk, drop, length, map, take};
ghost use Rattle.fst_machine.specs.Extending.{HasRoom, shifted, shifted_state, wrapped};
ghost use Rattle.fst_machine.specs.Machine.{arc_total, most_arcs};

use super::{Fst, StateList};
use crate::arc::FstArc;
use crate::kept::Kept;
use crate::slot::Slot;
use fst_semiring::Weight;
use std::alloc::AllocError;

impl<W: Weight> Fst<W> {
    /// The states of a machine that is given away, to which more may be put; the machine as it was where arcs of some of
    /// its states stand apart from those of the others, or some of the arcs that are kept are not in the place of one
    /// state alone. Takes no memory.
    pub fn extend(self) -> Result<StateList<W>, Fst<W>>
        ensures states { IfOk result (λ states. states ≡ self.states) }
        ensures given { IfErr result (λ fst. fst ≡ self) }
    {
        if !self.kept.apart.is_empty() || self.kept.store.len() != self.kept.total as usize {
            return Err(self);
        }
        let Kept { slots, store, .. } = self.kept;
        Ok(StateList { slots, store })
    }
}

/// The arc that leads so many places further on.
pub(super) fn further_on<V: Copy>(arc: FstArc<V>, by: u32) -> FstArc<V>
    ensures { result ≡ wrapped by arc }
{
    FstArc {
        ilabel: arc.ilabel,
        olabel: arc.olabel,
        weight: arc.weight,
        next: by.wrapping_add(arc.next),
    }
}

/// Changes each arc of a store to lead so many places further on.
fn shift_arcs<V: Copy>(store: &mut [FstArc<V>], by: u32)
    ensures { store.new ≡ map (wrapped by) store.old }
{
    for place in 0..store.len() {
        let arc = store[place];
        store[place] = further_on(arc, by);
    }
}

/// The same from a place on.
fn shift_behind<V: Copy>(store: &mut [FstArc<V>], first: usize, by: u32)
    requires { first ≤ length store.old }
    ensures { store.new ≡ take first store.old ++ map (wrapped by) (drop first store.old) }
{
    shift_arcs(&mut store[first..], by);
}

impl<W: Weight> StateList<W> {
    /// The number of states. Takes no memory.
    #[tactic(auto, using(crate::proofs::Keeping::kept_length))]
    pub fn len(&self) -> usize
        ensures { result ≡ length self.now }
    {
        self.slots.len()
    }

    /// Takes room for so many states and arcs in all.
    pub fn reserve(&mut self, states: usize, arcs: usize) -> Result<(), AllocError>
        ensures { self.new ≡ self.old }
    {
        let more = states.saturating_sub(self.slots.len());
        self.slots.reserve_exact(more)?;
        let more = arcs.saturating_sub(self.store.len());
        self.store.reserve_exact(more)
    }

    /// Each arc leads so many places further on. Takes no memory.
    ///
    /// Time: linear in the arcs.
    pub fn shift(&mut self, by: u32)
        requires { All (HasRoom by) self.old }
        ensures { self.new ≡ map (shifted_state by) self.old }
    {
        shift_arcs(self.store.as_mut_slice(), by);
    }

    /// Puts a state with these arcs in front of the others. After an `Err` the list is as before.
    ///
    /// Time: linear in the states.
    pub fn push_front(&mut self, last: W, arcs: &[FstArc<W>]) -> Result<(), AllocError>
        requires { arc_total self.old + length arcs.now ≤ most_arcs }
        ensures ok { OnOk result (self.new ≡ record { final = last; arcs = arcs.now } ∷ self.old) }
        ensures err { OnErr result (self.new ≡ self.old) }
    {
        let first = self.store.len() as u32;
        let count = arcs.len() as u32;
        self.store.reserve_exact(arcs.len())?;
        self.slots.reserve_exact(1)?;
        self.slots.insert(0, Slot { last, first, count })?;
        self.store.extend_from_slice(arcs)?;
        Ok(())
    }

    /// Puts a state behind the others whose arcs are these, so many places further on. After an `Err` the list is as
    /// before.
    pub fn push_shifted(&mut self, last: W, arcs: &[FstArc<W>], by: u32) -> Result<(), AllocError>
        requires room { arc_total self.old + length arcs.now ≤ most_arcs }
        requires places { All (λ a. by + a.next < 4294967296) arcs.now }
        ensures ok { OnOk result (self.new ≡ self.old ++ record { final = last; arcs = map (shifted by) arcs.now } ∷ []) }
        ensures err { OnErr result (self.new ≡ self.old) }
    {
        let first = self.store.len();
        let count = arcs.len() as u32;
        self.slots.reserve(1)?;
        self.store.extend_from_slice(arcs)?;
        shift_behind(self.store.as_mut_slice(), first, by);
        self.slots.push_reserved(Slot {
            last,
            first: first as u32,
            count,
        });
        Ok(())
    }
}
