//! A machine that is given away, whose states get other arcs where theirs stand.

ghost use Rattle.std.specs.Prelude.{◌≡◌, ◌<◌, ◌≤◌, ◌+◌, ◌++◌, All, IfErr, IfOk, Some, drop, length, slice_get, take};
ghost use Rattle.std.specs.Option.{option_map};
ghost use Rattle.fst_machine.specs.ArcsChanged.{with_new_arcs};
ghost use Rattle.fst_machine.specs.Machine.{IsArc, IsMachine, changed};

use super::Fst;
use super::retain::are_side_by_side;
use crate::arc::FstArc;
use crate::kept::Kept;
use crate::slot::Slot;
use fst_semiring::Weight;
use std::marker::Model;

/// A machine that was given away, whose arcs stand side by side, so that a state may get other arcs where its own
/// stand. They stay as many.
#[derive(Drop)]
pub struct Rewriting<W: Weight> {
    pub(super) start: Option<u32>,
    pub(super) slots: Vec<Slot<W>>,
    pub(super) store: Vec<FstArc<W>>,
    pub(super) total: u32,
}

impl<W: Weight> Model for Rewriting<W> {
    ghost use Rattle.std.specs.Prelude.{[]};
    ghost use Rattle.fst_machine.specs.KeptMachine.{IsKept};
    ghost use Rattle.fst_machine.specs.Machine.{IsMachine, Machine};
    ghost use Rattle.fst_machine.specs.SideBySide.{Follow};
    ghost use Rattle.fst_machine.specs.Store.{kept_states};

    ghost Value = { Machine W };

    ghost view = { λ m. record { start = m.start; states = kept_states m.store.items [] m.slots.items } };

    ghost invariant = { λ m. Follow 0 m.slots.items × IsKept m.slots.items m.store.items [] m.total × IsMachine W.value (record { start = m.start; states = kept_states m.store.items [] m.slots.items }) };
}

impl<W: Weight> Fst<W> {
    /// A machine that is given away, whose states may get other arcs; the machine as it was where the arcs of its
    /// states do not stand side by side. Takes no memory.
    pub fn rewrite(self) -> Result<Rewriting<W>, Fst<W>>
        ensures machine { IfOk result (λ m. m ≡ self) }
        ensures given { IfErr result (λ fst. fst ≡ self) }
    {
        let Kept {
            start,
            slots,
            store,
            apart,
            total,
        } = self.kept;
        if !apart.is_empty() || !are_side_by_side(slots.as_slice()) {
            let kept = Kept {
                start,
                slots,
                store,
                apart,
                total,
            };
            return Err(Fst { kept });
        }
        Ok(Rewriting {
            start,
            slots,
            store,
            total,
        })
    }
}

/// Puts arcs in place of those of a store from a place on.
pub(super) fn write_arcs<V: Copy>(store: &mut [FstArc<V>], first: usize, arcs: &[FstArc<V>])
    requires { first + length arcs.now ≤ length store.old }
    ensures { store.new ≡ take first store.old ++ (arcs.now ++ drop (length arcs.now) (drop first store.old)) }
{
    store[first..first + arcs.len()].copy_from_slice(arcs);
}

impl<W: Weight> Rewriting<W> {
    /// The number of states, and with it what holds of every machine. Takes no memory.
    #[tactic(auto, using(crate::proofs::Keeping::kept_length))]
    pub fn states(&self) -> u32
        ensures value { result ≡ length self.now.states }
        ensures machine { IsMachine W.value self.now }
    {
        self.slots.len() as u32
    }

    /// The arcs of a state, in order. Takes no memory.
    #[tactic(auto, using(crate::proofs::Keeping::kept_length))]
    pub fn arcs(&self, state: u32) -> &[FstArc<W>]
        requires { state < length self.now.states }
        ensures { option_map (λ s. s.arcs) (slice_get self.now.states state) ≡ Some result.now }
    {
        let slot = &self.slots[state as usize];
        slot.arcs(0, self.store.as_slice(), &[])
    }

    /// Puts arcs in place of those of a state, as many. Takes no memory.
    #[tactic(auto, using(crate::proofs::Keeping::kept_length))]
    pub fn replace_arcs(&mut self, state: u32, arcs: &[FstArc<W>])
        requires size { option_map (λ s. length s.arcs) (slice_get self.old.states state) ≡ Some (length arcs.now) }
        requires arcs { All (IsArc W.value (length self.old.states)) arcs.now }
        ensures { self.new ≡ record self.old { states = changed (with_new_arcs arcs.now) self.old.states state } }
    {
        if arcs.is_empty() {
            return;
        }
        let slot = &self.slots[state as usize];
        let first = slot.first as usize;
        write_arcs(self.store.as_mut_slice(), first, arcs);
    }

    /// The machine. Takes no memory.
    pub fn into_machine(self) -> Fst<W>
        ensures { result ≡ self }
    {
        let alloc = *self.slots.allocator();
        Fst {
            kept: Kept {
                start: self.start,
                slots: self.slots,
                store: self.store,
                apart: Vec::new(alloc),
                total: self.total,
            },
        }
    }
}
