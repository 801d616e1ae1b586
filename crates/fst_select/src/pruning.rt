//! Pruning.

ghost use Rattle.std.specs.Prelude.{◌≡◌, ℕ, [], Some, IfErr, IfOk, OnOk, length, slice_get};
ghost use Rattle.fst_semiring.specs.Cost.{infinite};
ghost use Rattle.fst_semiring.specs.Semiring.{times, Within};
ghost use Rattle.fst_machine.specs.Cycles.{IsUseful};
ghost use Rattle.fst_machine.specs.Graph.{graph_of};
ghost use Rattle.fst_machine.specs.Machine.{valued};
ghost use Rattle.fst_search.specs.Distances.{IsListed, NoneImproves};
ghost use Rattle.fst_distance.specs.Values.{value_in};
ghost use Rattle.fst_select.specs.Pruned.{IsPruned, PrunedLaws};
ghost use Rattle.fst_select.specs.Refusals.{IfImproves};
ghost use Rattle.fst_select.specs.Surveyed.{IsSurveyed, best_of_start};
ghost use Rattle.fst_select.specs.Thinned.{most_sum};

use crate::fault::PruneFault;
use crate::surveying::{Survey, surveyed};
use crate::thinning::thin;
use fst_distance::DistanceFault;
use fst_machine::Fst;
use fst_queue::StateQueue;
use fst_semiring::Weight;
use fst_trim::into_connected;
use std::alloc::{AllocError, Global};

/// What good paths meet, by a survey. The distances are freed before the machine is connected.
fn cut<W: Weight>(
    alloc: Global,
    fst: &Fst<W>,
    threshold: W,
    survey: Survey<W>,
) -> Result<Fst<W>, AllocError>
    requires survey { IsSurveyed W.KIND (graph_of (valued W.value fst.now)) (value_in W.wide_value survey.from_start.items) (value_in W.wide_value survey.to_finals.items) }
    requires bound { W.wide_value survey.bound ≡ times W.KIND (best_of_start (value_in W.wide_value survey.to_finals.items) fst.now.start) (W.value threshold) }
    requires start_size { length survey.from_start.items ≡ length fst.now.states }
    requires final_size { length survey.to_finals.items ≡ length fst.now.states }
    requires start_range { (q : ℕ) (d : W.Wide) → slice_get survey.from_start.items q ≡ Some d → Within most_sum (W.wide_value d) }
    requires final_range { (q : ℕ) (d : W.Wide) → slice_get survey.to_finals.items q ≡ Some d → Within most_sum (W.wide_value d) }
    ensures { IfOk result (λ c. IsPruned W.KIND (W.value threshold) (valued W.value fst.now) (valued W.value c)) }
{
    let left = thin(
        alloc,
        fst,
        &survey.from_start,
        &survey.to_finals,
        survey.bound,
    )?;
    drop(survey);
    into_connected(alloc, left)
}

/// The machine of the good paths: the successful ones whose weight is no worse than the best Times the threshold.
/// (OpenFst manual, "Prune".) It has the states that good paths meet, in their order, and the arcs on good paths, in order; a
/// final weight stays where a good path ends. Threshold Zero keeps all successful paths, and one better than One keeps
/// nothing. So each good path stays, with its labels and its weight, and each arc that stays is on a good path.
///
/// The states are looked at in the order in which the queue gives them, which changes the time alone.
///
/// `ImprovingCycle` exactly where a cycle with a product better than One has states that successful paths meet; the fault
/// lists such a cycle, in the states and places of the given machine. `Memory` may come in place of any answer. Products
/// are wide, so that none is too large. After an `Ok` the queue is empty.
///
/// Time: that of the distances in both directions, and linear in the states and the arcs. Space: linear.
pub fn prune<W: Weight>(
    alloc: Global,
    fst: &Fst<W>,
    threshold: W,
    queue: &mut Box<dyn StateQueue>,
) -> Result<Fst<W>, PruneFault>
    requires { members queue.old ≡ [] }
    ensures pruned { IfOk result (λ c. IsPruned W.KIND (W.value threshold) (valued W.value fst.now) (valued W.value c)) }
    ensures keeps { IfOk result (λ c. (is : IsPruned W.KIND (W.value threshold) (valued W.value fst.now) (valued W.value c)) → PrunedLaws W.KIND (W.value threshold) (valued W.value fst.now) (valued W.value c) is) }
    ensures none { OnOk result (NoneImproves W.KIND (graph_of (valued W.value fst.now)) (IsUseful (graph_of (valued W.value fst.now)))) }
    ensures cycle { IfErr result (λ f. IfImproves f (IsListed W.KIND (graph_of (valued W.value fst.now)) (IsUseful (graph_of (valued W.value fst.now))))) }
    ensures empty { OnOk result (members queue.new ≡ []) }
{
    match surveyed::<W, Box<dyn StateQueue>>(alloc, fst, threshold, queue) {
        Ok(Some(survey)) => match cut(alloc, fst, threshold, survey) {
            Ok(pruned) => Ok(pruned),
            Err(_) => Err(PruneFault::Memory),
        },
        Ok(None) => Ok(Fst::new(alloc)),
        Err(DistanceFault::ImprovingCycle { cycle }) => Err(PruneFault::ImprovingCycle { cycle }),
        Err(DistanceFault::Memory) => Err(PruneFault::Memory),
    }
}
