//! What the distances of a machine say of its successful paths.

ghost use Rattle.std.specs.Prelude.{◌≡◌, ◌≢◌, ◌<◌, ◌≤◌, ℕ, List, [], Some, true, IfErr, IfNone, IfOk, IfSome, OnOk, get_or, length, slice_get};
ghost use Rattle.std.specs.Bool.{Decides};
ghost use Rattle.fst_semiring.specs.Cost.{Cost, infinite};
ghost use Rattle.fst_semiring.specs.Semiring.{times, Within};
ghost use Rattle.fst_machine.specs.Cycles.{IsUseful};
ghost use Rattle.fst_machine.specs.Graph.{graph_of};
ghost use Rattle.fst_machine.specs.Machine.{valued};
ghost use Rattle.fst_machine.specs.Paths.{Transition};
ghost use Rattle.fst_machine.specs.Relation.{IsSuccessful};
ghost use Rattle.fst_search.specs.Distances.{IfImproving, IsListed, NoneImproves};
ghost use Rattle.fst_distance.specs.Values.{value_in};
ghost use Rattle.fst_select.specs.Surveyed.{IsSurveyed, best_of_start};
ghost use Rattle.fst_select.specs.Thinned.{most_sum};

use fst_distance::DistanceFault;
use fst_machine::Fst;
use fst_queue::StateQueue;
use fst_search::{distance_over, is_zero_wide, useful_distances};
use fst_semiring::Weight;
use std::alloc::{AllocError, Global};

/// The distances of the states of a machine, and the bound of its good paths.
#[derive(Drop)]
pub(crate) struct Survey<W: Weight> {
    /// For each state the best product from the start over states that successful paths meet.
    pub(crate) from_start: Vec<W::Wide>,
    /// For each state the distance to the final states.
    pub(crate) to_finals: Vec<W::Wide>,
    /// The best weight of a successful path Times the threshold.
    pub(crate) bound: W::Wide,
}

/// Marks the states whose distance is not Zero.
fn mark_some<W: Weight>(alloc: Global, distances: &[W::Wide]) -> Result<Vec<bool>, AllocError>
    ensures { IfOk result (λ marks. (q : ℕ) (d : W.Wide) → slice_get distances.now q ≡ Some d → Decides (get_or marks.items q true) (W.wide_value d ≢ infinite)) }
{
    let mut marks = Vec::with_capacity(alloc, distances.len())?;
    for distance in distances {
        marks.push(!is_zero_wide::<W>(*distance))?;
    }
    Ok(marks)
}

/// The distance of the start; `None` where there is no start, or its distance is Zero.
fn best_of<W: Weight>(start: Option<u32>, distances: &[W::Wide]) -> Option<W::Wide>
    requires { IfSome start (λ s. s < length distances.now) }
    ensures some { IfSome result (λ best. (W.wide_value best ≢ infinite) × (W.wide_value best ≡ best_of_start (value_in W.wide_value distances.now) start)) }
    ensures none { IfNone result (best_of_start (value_in W.wide_value distances.now) start ≡ infinite) }
    ensures one { IfSome result (λ best. (q : ℕ) × (slice_get distances.now q ≡ Some best)) }
{
    let Some(start) = start else {
        return None;
    };
    let best = distances[start as usize];
    if is_zero_wide::<W>(best) {
        return None;
    }
    Some(best)
}

/// The survey of a machine; `None` where no path is successful.
///
/// A fault lists a cycle on states that successful paths meet. After an `Ok` the queue is empty.
pub(crate) fn surveyed<W: Weight, Q: StateQueue>(
    alloc: Global,
    fst: &Fst<W>,
    threshold: W,
    queue: &mut Q,
) -> Result<Option<Survey<W>>, DistanceFault>
    requires { Q.members queue.old ≡ [] }
    ensures survey { IfOk result (λ o. IfSome o (λ v. IsSurveyed W.KIND (graph_of (valued W.value fst.now)) (value_in W.wide_value v.from_start.items) (value_in W.wide_value v.to_finals.items))) }
    ensures bound { IfOk result (λ o. IfSome o (λ v. W.wide_value v.bound ≡ times W.KIND (best_of_start (value_in W.wide_value v.to_finals.items) fst.now.start) (W.value threshold))) }
    ensures start_size { IfOk result (λ o. IfSome o (λ v. length v.from_start.items ≡ length fst.now.states)) }
    ensures final_size { IfOk result (λ o. IfSome o (λ v. length v.to_finals.items ≡ length fst.now.states)) }
    ensures start_range { IfOk result (λ o. IfSome o (λ v. (q : ℕ) (d : W.Wide) → slice_get v.from_start.items q ≡ Some d → Within most_sum (W.wide_value d))) }
    ensures final_range { IfOk result (λ o. IfSome o (λ v. (q : ℕ) (d : W.Wide) → slice_get v.to_finals.items q ≡ Some d → Within most_sum (W.wide_value d))) }
    ensures nothing { IfOk result (λ o. IfNone o ((path : List (Transition ℕ)) (w : Cost) → IsSuccessful W.KIND (graph_of (valued W.value fst.now)) path w → ⊥)) }
    ensures none { OnOk result (NoneImproves W.KIND (graph_of (valued W.value fst.now)) (IsUseful (graph_of (valued W.value fst.now)))) }
    ensures cycle { IfErr result (λ f. IfImproving f (IsListed W.KIND (graph_of (valued W.value fst.now)) (IsUseful (graph_of (valued W.value fst.now))))) }
    ensures empty { OnOk result (Q.members queue.new ≡ []) }
{
    let _states = fst.states();
    let to_finals = useful_distances::<W, W, Fst<W>, Q>(alloc, fst, queue)?;
    let Some(best) = best_of::<W>(fst.start(), &to_finals) else {
        return Ok(None);
    };
    let Ok(marks) = mark_some::<W>(alloc, &to_finals) else {
        return Err(DistanceFault::Memory);
    };
    let from_start = match distance_over::<W, W, Fst<W>, Q>(alloc, fst, &marks, queue) {
        Ok(from_start) => from_start,
        Err(fault) => return Err(fault),
    };
    let bound = W::wide_times(best, threshold.widen());
    Ok(Some(Survey {
        from_start,
        to_finals,
        bound,
    }))
}
