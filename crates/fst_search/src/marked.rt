//! Distances from the start over arcs to marked states.

ghost use Rattle.std.specs.Prelude.{◌≡◌, ◌*◌, ℕ, [], Some, All, IfErr, IfOk, OnOk, length, map, slice_get};
ghost use Rattle.fst_semiring.specs.Semiring.{IsCost, Within};
ghost use Rattle.fst_machine.specs.Graph.{graph_of};
ghost use Rattle.fst_machine.specs.Machine.{valued};
ghost use Rattle.fst_search.specs.Distances.{IfImproving, IsListed, IsOpenDistance, IsOpenReached, NoneImprovesOpen};
ghost use Rattle.fst_search.specs.Trying.{AreBelow};

use crate::fault::DistanceFault;
use crate::measuring::from_start_over;
use crate::widens::Widens;
use fst_queue::StateQueue;
use fst_semiring::Weight;
use std::alloc::Global;

/// The distances from the start over arcs to marked states; Zero where no such path leads. A state past the end of the
/// marks counts as marked. With the useful states marked these are the best products on successful paths: so `prune`
/// takes them, in the states and places of the given machine.
///
/// `ImprovingCycle` exactly where a cycle of such arcs, on a state that the start reaches over them, has a product
/// better than One; the fault lists such a cycle. `Memory` may come in place of any answer. After an `Ok` the queue is
/// empty; after a refusal it may hold states of the machine.
///
/// Time and space: as `distance`.
pub fn distance_over<W: Weight, V: Copy, M: Widens<W, V>, Q: StateQueue>(
    alloc: Global,
    fst: &M,
    marks: &[bool],
    queue: &mut Q,
) -> Result<Vec<W::Wide>, DistanceFault>
    requires empty { Q.members queue.old ≡ [] }
    requires known { All (λ s. All (λ a. M.known a.weight) s.arcs) (M.machine fst.now).states }
    ensures size { IfOk result (λ v. length v.items ≡ length (M.machine fst.now).states) }
    ensures distances { IfOk result (λ v. (q : ℕ) (d : W.Wide) → slice_get v.items q ≡ Some d → IsOpenDistance marks.now W.KIND (graph_of (valued M.value (M.machine fst.now))) (M.machine fst.now).start q (W.wide_value d)) }
    ensures none { OnOk result (NoneImprovesOpen marks.now W.KIND (graph_of (valued M.value (M.machine fst.now)))) }
    ensures numbers { IfOk result (λ v. (q : ℕ) (d : W.Wide) → slice_get v.items q ≡ Some d → Within (length (M.machine fst.now).states * M.bound) (W.wide_value d)) }
    ensures kinds { IfOk result (λ v. (q : ℕ) (d : W.Wide) → slice_get v.items q ≡ Some d → IsCost W.KIND (W.wide_value d)) }
    ensures cycle { IfErr result (λ f. IfImproving f (IsListed W.KIND (graph_of (valued M.value (M.machine fst.now))) (IsOpenReached marks.now (graph_of (valued M.value (M.machine fst.now)))))) }
    ensures empty { OnOk result (Q.members queue.new ≡ []) }
    ensures below { AreBelow (length (M.machine fst.now).states) (Q.members queue.new) }
{
    match from_start_over::<W, V, M, Q>(alloc, fst, marks, queue) {
        Ok(Ok(distances)) => Ok(distances),
        Ok(Err(cycle)) => Err(DistanceFault::ImprovingCycle { cycle }),
        // A lack of memory becomes a fault here alone.
        Err(_) => Err(DistanceFault::Memory),
    }
}
