//! Machines with their arcs in order.

ghost use Rattle.std.specs.Prelude.{◌≡◌, ◌↔◌, ℕ, List, IfOk, OnOk, length};
ghost use Rattle.fst_semiring.specs.Cost.{Cost};
ghost use Rattle.fst_machine.specs.Graph.{graph_of};
ghost use Rattle.fst_machine.specs.Machine.{valued};
ghost use Rattle.fst_machine.specs.Relation.{Rel};
ghost use Rattle.fst_trim.specs.Sorting.{IsArcSorted, IsStableSort, SortsPaths};

use crate::side::Side;
use fst_machine::{ArcsChange, Fst, FstArc, StateList};
use fst_semiring::Weight;
use std::alloc::{AllocError, Global};

/// Puts arcs by their labels on a side, where they stand; equal labels keep their order.
fn order_arcs<W: Copy>(alloc: Global, arcs: &mut [FstArc<W>], side: Side) -> Result<(), AllocError>
    ensures size { length arcs.new ≡ length arcs.old }
    ensures sorted { OnOk result (IsStableSort side arcs.old arcs.new) }
{
    match side {
        Side::Input => {
            arcs.sort_by_key(alloc, |arc| arc.ilabel)?;
            Ok(())
        }
        Side::Output => {
            arcs.sort_by_key(alloc, |arc| arc.olabel)?;
            Ok(())
        }
    }
}

/// Fills a list with these arcs by their labels on a side; equal labels keep their order. What the list had is dropped.
pub fn sort_arcs<W: Copy>(
    sorted: &mut Vec<FstArc<W>>,
    arcs: &[FstArc<W>],
    side: Side,
) -> Result<(), AllocError>
    ensures { OnOk result (IsStableSort side arcs.now sorted.new.items) }
{
    sorted.clear();
    sorted.extend_from_slice(arcs)?;
    order_arcs(*sorted.allocator(), sorted.as_mut_slice(), side)
}

/// The change of arcs to those that stand by their labels on a side.
#[derive(Clone, Copy)]
struct ArcOrder {
    alloc: Global,
    side: Side,
}

impl<W: Weight> ArcsChange<W> for ArcOrder {
    ghost use Rattle.fst_trim.specs.Sorting.{IsStableSort};

    ghost changes = { λ s. IsStableSort s.side };

    fn change(&self, arcs: &mut [FstArc<W>]) -> Result<(), AllocError> {
        order_arcs(self.alloc, arcs, self.side)
    }
}

/// The machine with the arcs of each state by their labels on a side; equal labels keep their order. (OpenFst
/// manual, "ArcSort".)
///
/// The successful paths are those of `a`, one to one, up to the places of the arcs, so both relate the same.
///
/// Time: n log n in the arcs of each state. Space: linear.
pub fn arcsort<W: Weight>(alloc: Global, a: &Fst<W>, side: Side) -> Result<Fst<W>, AllocError>
    ensures machine { IfOk result (λ c. IsArcSorted side a.now c) }
    ensures paths { IfOk result (λ c. SortsPaths W.KIND side (valued W.value a.now) (valued W.value c)) }
    ensures relation { IfOk result (λ c. (x y : List ℕ) (w : Cost) → Rel W.KIND (graph_of (valued W.value a.now)) x y w ↔ Rel W.KIND (graph_of (valued W.value c)) x y w) }
{
    let mut states = StateList::with_capacity(alloc, a.states() as usize, a.arc_count() as usize)?;
    let mut sorted = Vec::new(alloc);
    for state in 0..a.states() {
        sort_arcs(&mut sorted, a.arcs(state), side)?;
        states.push(a.final_weight(state), sorted.as_slice())?;
    }
    Ok(states.into_machine(a.start()))
}

/// A machine that is given away with the arcs of each state in order, as `arcsort` makes it. They are sorted where they stand,
/// where those of the states stand side by side.
///
/// Time: n log n in the arcs of each state. Space: linear in the arcs of one state, or as `arcsort`.
pub fn into_arcsorted<W: Weight>(alloc: Global, a: Fst<W>, side: Side) -> Result<Fst<W>, AllocError>
    ensures machine { IfOk result (λ c. IsArcSorted side a c) }
    ensures paths { IfOk result (λ c. SortsPaths W.KIND side (valued W.value a) (valued W.value c)) }
    ensures relation { IfOk result (λ c. (x y : List ℕ) (w : Cost) → Rel W.KIND (graph_of (valued W.value a)) x y w ↔ Rel W.KIND (graph_of (valued W.value c)) x y w) }
{
    let order = ArcOrder { alloc, side };
    match a.with_arcs(&order)? {
        Ok(machine) => Ok(machine),
        Err(a) => arcsort(alloc, &a, side),
    }
}
