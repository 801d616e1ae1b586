//! The arcs of a machine that is given away, changed where they stand.

ghost use Rattle.std.specs.Prelude.{◌≡◌, ℕ, List, IfErr, IfOk, OnOk, length};
ghost use Rattle.std.specs.List.{All};
ghost use Rattle.fst_machine.specs.ArcsChanged.{ArePartsChanged, IsArcsChanged};
ghost use Rattle.fst_machine.specs.Machine.{Arc, IsArc};
ghost use Rattle.fst_machine.specs.SideBySide.{Follow};
ghost use Rattle.fst_machine.specs.Store.{LiesIn};

use super::Fst;
use super::rewriting::Rewriting;
use crate::arc::FstArc;
use crate::slot::Slot;
use fst_semiring::Weight;
use std::alloc::AllocError;

/// A change of the arcs of a state, where they stand: they stay as many.
pub trait ArcsChange<W: Weight> {
    ghost use Rattle.std.specs.Prelude.{◌≡◌, ℕ, List, OnOk, length};
    ghost use Rattle.fst_machine.specs.Machine.{Arc};

    /// What arcs become.
    ghost changes: { Self → List (Arc W ℕ) → List (Arc W ℕ) → Type 0 };

    /// Changes the arcs of a state. After an `Err` they are some arcs, as many.
    fn change(&self, arcs: &mut [FstArc<W>]) -> Result<(), AllocError>
        ensures size { length arcs.new ≡ length arcs.old }
        ensures changed { OnOk result (changes self.now arcs.old arcs.new) };
}

/// Changes the part of a store that each state has. No two of them have an arc in common.
fn change_parts<W: Weight, C: ArcsChange<W>>(
    slots: &[Slot<W>],
    store: &mut [FstArc<W>],
    change: &C,
) -> Result<(), AllocError>
    requires parts { All (LiesIn (length store.old)) slots.now }
    requires follow { Follow 0 slots.now }
    ensures size { length store.new ≡ length store.old }
    ensures changed { OnOk result (ArePartsChanged (C.changes change.now) slots.now store.old store.new) }
{
    for slot in slots {
        let count = slot.count as usize;
        let first = if count == 0 { 0 } else { slot.first as usize };
        change.change(&mut store[first..first + count])?;
    }
    Ok(())
}

impl<W: Weight> Rewriting<W> {
    /// The machine with the arcs of each state changed. An `Err` is of the change.
    fn changed<C: ArcsChange<W>>(self, change: &C) -> Result<Fst<W>, AllocError>
        requires { (n : ℕ) (arcs new : List (Arc W ℕ)) → C.changes change.now arcs new → All (IsArc W.value n) arcs → All (IsArc W.value n) new }
        ensures changed { IfOk result (λ fst. IsArcsChanged (C.changes change.now) self fst) }
    {
        let Rewriting {
            start,
            slots,
            mut store,
            total,
        } = self;
        change_parts(slots.as_slice(), store.as_mut_slice(), change)?;
        let changed = Rewriting {
            start,
            slots,
            store,
            total,
        };
        Ok(changed.into_machine())
    }
}

impl<W: Weight> Fst<W> {
    /// A machine that is given away with the arcs of each state changed, where they stand, by a change that makes arcs of
    /// a machine of such arcs. Where the arcs of the states do not stand side by side, the machine is given back as it was.
    ///
    /// Takes no memory but what the change takes. An `Err` is of the change.
    pub fn with_arcs<C: ArcsChange<W>>(
        self,
        change: &C,
    ) -> Result<Result<Fst<W>, Fst<W>>, AllocError>
        requires { (n : ℕ) (arcs new : List (Arc W ℕ)) → C.changes change.now arcs new → All (IsArc W.value n) arcs → All (IsArc W.value n) new }
        ensures changed { IfOk result (λ r. IfOk r (λ fst. IsArcsChanged (C.changes change.now) self fst)) }
        ensures given { IfOk result (λ r. IfErr r (λ fst. fst ≡ self)) }
    {
        match self.rewrite() {
            Err(fst) => Ok(Err(fst)),
            Ok(machine) => Ok(Ok(machine.changed(change)?)),
        }
    }
}
