//! The distances on which the n best paths stand.

ghost use Rattle.std.specs.Prelude.{◌≡◌, ◌<◌, ℕ, Some, All, IfErr, IfOk, OnOk, length, slice_get};
ghost use Rattle.fst_semiring.specs.Cost.{Cost};
ghost use Rattle.fst_semiring.specs.Semiring.{IsCost};
ghost use Rattle.fst_machine.specs.Cycles.{IsUseful};
ghost use Rattle.fst_machine.specs.Graph.{graph_of};
ghost use Rattle.fst_machine.specs.Machine.{Arc, valued};
ghost use Rattle.fst_search.specs.Distances.{IfImproving, IsListed, NoneImproves};
ghost use Rattle.fst_nbest.specs.Ready.{HasDistances};

use fst_machine::FstArc;
use fst_queue::{BestFirst, Fifo};
use fst_search::{DistanceFault, Widens, useful_distances};
use fst_semiring::Weight;
use fst_trim::accessible;
use std::alloc::Global;
use std::cmp::Ordering;

/// Whether one of these arcs is better than One. All of them are looked at, and each has a weight of the arc type.
fn is_any_better<W: Weight, V: Copy, M: Widens<W, V>>(arcs: &[FstArc<V>]) -> bool
    requires { All (λ a. M.known a.weight) arcs.now }
    ensures { (k : ℕ) (a : Arc V ℕ) → slice_get arcs.now k ≡ Some a → IsCost W.KIND (M.value a.weight) }
{
    let one = W::one().widen();
    let mut better = false;
    for arc in arcs {
        let order = W::wide_compare(M::widened(arc.weight), one);
        better = better || order == Ordering::Less;
    }
    better
}

/// Whether an arc of the machine is better than One.
pub(crate) fn has_better<W: Weight, V: Copy, M: Widens<W, V>>(fst: &M) -> bool
    requires { All (λ s. All (λ a. M.known a.weight) s.arcs) (M.machine fst.now).states }
    ensures { (q k : ℕ) (a : Arc Cost ℕ) → slice_get ((graph_of (valued M.value (M.machine fst.now))).arcs q) k ≡ Some a → IsCost W.KIND a.weight }
{
    let mut better = false;
    for state in 0..fst.state_count() {
        let here = is_any_better::<W, V, M>(fst.arcs_at(state));
        better = better || here;
    }
    better
}

/// The distances to the final states of the states that the start reaches; Zero for all others. The search takes the
/// best state first where no arc is better than One, so that it takes each state once, and else the one that waited
/// longest.
pub(crate) fn measured<W: Weight, V: Copy, M: Widens<W, V>>(
    alloc: Global,
    fst: &M,
) -> Result<Vec<W::Wide>, DistanceFault>
    requires known { All (λ s. All (λ a. M.known a.weight) s.arcs) (M.machine fst.now).states }
    requires finals { All (λ s. M.known s.final) (M.machine fst.now).states }
    ensures distances { IfOk result (λ v. HasDistances W.KIND M.value W.wide_value M.known (M.machine fst.now) v.items) }
    ensures none { OnOk result (NoneImproves W.KIND (graph_of (valued M.value (M.machine fst.now))) (IsUseful (graph_of (valued M.value (M.machine fst.now))))) }
    ensures cycle { IfErr result (λ f. IfImproving f (IsListed W.KIND (graph_of (valued M.value (M.machine fst.now))) (IsUseful (graph_of (valued M.value (M.machine fst.now)))))) }
{
    let _states = fst.state_count();
    let better = has_better::<W, V, M>(fst);
    let Ok(_marks) = accessible::<V, M>(alloc, fst) else {
        return Err(DistanceFault::Memory);
    };
    if better {
        let mut queue = Fifo::new(alloc);
        let dist = useful_distances::<W, V, M, Fifo>(alloc, fst, &mut queue)?;
        return Ok(dist);
    }
    let mut queue = BestFirst::new(alloc);
    let dist = useful_distances::<W, V, M, BestFirst>(alloc, fst, &mut queue)?;
    Ok(dist)
}
