//! The total weights that paths may have, where the product is the worse of two weights.

ghost use Rattle.std.specs.Prelude.{◌≡◌, ◌<◌, ℕ, Some, All, IfOk, OnOk, length, map, slice_get};
ghost use Rattle.fst_semiring.specs.Cost.{infinite, plus};
ghost use Rattle.fst_machine.specs.BreadthFirst.{Has};
ghost use Rattle.fst_machine.specs.Graph.{graph_of};
ghost use Rattle.fst_machine.specs.Machine.{Arc, valued};
ghost use Rattle.fst_nbest.specs.Heap.{IsHeap};
ghost use Rattle.fst_nbest.specs.Ready.{HasDistances, dist_in};
ghost use Rattle.fst_nbest.specs.Totals.{HasTotals, Keeps, MayTotal, wide_cmp};

use crate::heap::{Earlier, put};
use crate::naming::is_under;
use crate::values::is_zero_wide;
use fst_machine::FstArc;
use fst_search::Widens;
use fst_semiring::Weight;
use std::alloc::{AllocError, Global};
use std::cmp::Ordering;
use std::marker::PhantomData;

/// Weights in their order.
#[derive(Clone, Copy)]
pub(crate) struct ByWeight<W: Weight> {
    pub(crate) weight: PhantomData<W>,
}

impl<W: Weight> Earlier<W::Wide> for ByWeight<W> {
    ghost use Rattle.fst_nbest.specs.Totals.{wide_cmp, wide_total};

    ghost order = { λ b. wide_cmp W.wide_value };

    ghost fits = { λ b t. Unit {0} };

    ghost total = { λ b. wide_total W.wide_value };

    fn is_before(&self, a: &W::Wide, b: &W::Wide) -> bool {
        match W::wide_compare(*a, *b) {
            Ordering::Less => true,
            _ => false,
        }
    }
}

/// Puts a weight, if it may be a total.
fn put_total<W: Weight>(
    totals: &mut Vec<W::Wide>,
    least: W::Wide,
    ahead: W::Wide,
    weight: W::Wide,
) -> Result<(), AllocError>
    requires heap { IsHeap (wide_cmp W.wide_value) totals.old.items }
    requires solid { W.wide_value weight ≡ infinite → ⊥ }
    requires solids { All (λ w. W.wide_value w ≡ infinite → ⊥) totals.old.items }
    ensures heap { OnOk result (IsHeap (wide_cmp W.wide_value) totals.new.items) }
    ensures solids { OnOk result (All (λ w. W.wide_value w ≡ infinite → ⊥) totals.new.items) }
    ensures keeps { OnOk result (Keeps (map W.wide_value totals.old.items) (map W.wide_value totals.new.items)) }
    ensures here { OnOk result (MayTotal (W.wide_value least) (W.wide_value ahead) (W.wide_value weight) → Has (map W.wide_value totals.new.items) (W.wide_value weight)) }
{
    if !is_under::<W>(weight, ahead) || !is_under::<W>(weight, least) {
        return Ok(());
    }
    let by = ByWeight::<W> {
        weight: PhantomData,
    };
    put(totals, &by, weight)?;
    Ok(())
}

/// Puts a final weight, if it may be a total.
fn put_final_total<W: Weight>(
    totals: &mut Vec<W::Wide>,
    least: W::Wide,
    last: W::Wide,
) -> Result<(), AllocError>
    requires heap { IsHeap (wide_cmp W.wide_value) totals.old.items }
    requires solids { All (λ w. W.wide_value w ≡ infinite → ⊥) totals.old.items }
    ensures heap { OnOk result (IsHeap (wide_cmp W.wide_value) totals.new.items) }
    ensures solids { OnOk result (All (λ w. W.wide_value w ≡ infinite → ⊥) totals.new.items) }
    ensures keeps { OnOk result (Keeps (map W.wide_value totals.old.items) (map W.wide_value totals.new.items)) }
    ensures here { OnOk result ((W.wide_value last ≡ infinite → ⊥) → plus (W.wide_value least) (W.wide_value last) ≡ W.wide_value least → Has (map W.wide_value totals.new.items) (W.wide_value last)) }
{
    if is_zero_wide::<W>(last) {
        return Ok(());
    }
    put_total::<W>(totals, least, least, last)?;
    Ok(())
}

/// Puts the weights of these arcs that may be totals.
fn put_arc_totals<W: Weight, V: Copy, M: Widens<W, V>>(
    totals: &mut Vec<W::Wide>,
    dist: &Vec<W::Wide>,
    least: W::Wide,
    arcs: &[FstArc<V>],
) -> Result<(), AllocError>
    requires heap { IsHeap (wide_cmp W.wide_value) totals.old.items }
    requires solids { All (λ w. W.wide_value w ≡ infinite → ⊥) totals.old.items }
    requires known { All (λ a. M.known a.weight) arcs.now }
    requires solid { All (λ a. M.value a.weight ≡ infinite → ⊥) arcs.now }
    requires next { All (λ a. a.next < length dist.now.items) arcs.now }
    ensures heap { OnOk result (IsHeap (wide_cmp W.wide_value) totals.new.items) }
    ensures solids { OnOk result (All (λ w. W.wide_value w ≡ infinite → ⊥) totals.new.items) }
    ensures keeps { OnOk result (Keeps (map W.wide_value totals.old.items) (map W.wide_value totals.new.items)) }
    ensures here { OnOk result ((k : ℕ) (a : Arc V ℕ) → slice_get arcs.now k ≡ Some a → MayTotal (W.wide_value least) (dist_in W.wide_value dist.now.items a.next) (M.value a.weight) → Has (map W.wide_value totals.new.items) (M.value a.weight)) }
{
    for arc in arcs {
        let ahead = dist[arc.next as usize];
        put_total::<W>(totals, least, ahead, M::widened(arc.weight))?;
    }
    Ok(())
}

/// Puts the totals by the arcs of a state, and by stopping there.
fn put_state_totals<W: Weight, V: Copy, M: Widens<W, V>>(
    totals: &mut Vec<W::Wide>,
    fst: &M,
    dist: &Vec<W::Wide>,
    least: W::Wide,
    state: u32,
) -> Result<(), AllocError>
    requires measured { HasDistances W.KIND M.value W.wide_value M.known (M.machine fst.now) dist.now.items }
    requires state { state < length (M.machine fst.now).states }
    requires heap { IsHeap (wide_cmp W.wide_value) totals.old.items }
    requires solids { All (λ w. W.wide_value w ≡ infinite → ⊥) totals.old.items }
    ensures heap { OnOk result (IsHeap (wide_cmp W.wide_value) totals.new.items) }
    ensures solids { OnOk result (All (λ w. W.wide_value w ≡ infinite → ⊥) totals.new.items) }
    ensures keeps { OnOk result (Keeps (map W.wide_value totals.old.items) (map W.wide_value totals.new.items)) }
    ensures here { OnOk result (HasTotals (graph_of (valued M.value (M.machine fst.now))) (dist_in W.wide_value dist.now.items) (W.wide_value least) state (map W.wide_value totals.new.items)) }
{
    // What holds of the machine.
    let _states = fst.state_count();
    if is_zero_wide::<W>(dist[state as usize]) {
        return Ok(());
    }
    put_final_total::<W>(totals, least, M::widened(fst.final_at(state)))?;
    put_arc_totals::<W, V, M>(totals, dist, least, fst.arcs_at(state))?;
    Ok(())
}

/// The totals that paths from the start may have, as a heap; some of them may be no totals.
pub(crate) fn totals_of<W: Weight, V: Copy, M: Widens<W, V>>(
    alloc: Global,
    fst: &M,
    dist: &Vec<W::Wide>,
    start: u32,
) -> Result<Vec<W::Wide>, AllocError>
    requires measured { HasDistances W.KIND M.value W.wide_value M.known (M.machine fst.now) dist.now.items }
    requires start { start < length (M.machine fst.now).states }
    ensures heap { IfOk result (λ totals. IsHeap (wide_cmp W.wide_value) totals.items) }
    ensures solids { IfOk result (λ totals. All (λ w. W.wide_value w ≡ infinite → ⊥) totals.items) }
    ensures all { IfOk result (λ totals. (p : ℕ) → p < length (M.machine fst.now).states → HasTotals (graph_of (valued M.value (M.machine fst.now))) (dist_in W.wide_value dist.now.items) (dist_in W.wide_value dist.now.items start) p (map W.wide_value totals.items)) }
{
    let least = dist[start as usize];
    let mut totals = Vec::new(alloc);
    for state in 0..fst.state_count() {
        put_state_totals::<W, V, M>(&mut totals, fst, dist, least, state)?;
    }
    Ok(totals)
}
