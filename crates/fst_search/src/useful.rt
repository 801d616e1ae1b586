//! Distances to the final states on the states that successful paths meet.

ghost use Rattle.std.specs.Prelude.{◌≡◌, ◌*◌, ℕ, [], Some, All, IfErr, IfOk, OnOk, length, map, slice_get};
ghost use Rattle.fst_semiring.specs.Semiring.{IsCost, Within};
ghost use Rattle.fst_machine.specs.Cycles.{IsUseful};
ghost use Rattle.fst_machine.specs.Graph.{graph_of};
ghost use Rattle.fst_machine.specs.Machine.{valued};
ghost use Rattle.fst_search.specs.Distances.{IfImproving, IsListed, IsMeasured, IsUsefulDistance, NoneImproves};
ghost use Rattle.fst_search.specs.Trying.{AreBelow};

use crate::fault::DistanceFault;
use crate::measuring::to_finals;
use crate::widens::Widens;
use fst_machine::Path;
use fst_queue::StateQueue;
use fst_semiring::Weight;
use fst_trim::accessible;
use std::alloc::{AllocError, Global};

/// The distances, or a cycle that is better than One, with memory apart.
fn useful_measured<W: Weight, V: Copy, M: Widens<W, V>, Q: StateQueue>(
    alloc: Global,
    fst: &M,
    queue: &mut Q,
) -> Result<Result<Vec<W::Wide>, Path>, AllocError>
    requires empty { Q.members queue.old ≡ [] }
    requires known { All (λ s. All (λ a. M.known a.weight) s.arcs) (M.machine fst.now).states }
    requires finals { All (λ s. M.known s.final) (M.machine fst.now).states }
    ensures made { IfOk result (λ r. IfOk r (λ v. IsMeasured W.KIND (graph_of (valued M.value (M.machine fst.now))) (IsUsefulDistance W.KIND (graph_of (valued M.value (M.machine fst.now)))) (IsUseful (graph_of (valued M.value (M.machine fst.now)))) (length (M.machine fst.now).states) M.bound (map W.wide_value v.items))) }
    ensures cycle { IfOk result (λ r. IfErr r (IsListed W.KIND (graph_of (valued M.value (M.machine fst.now))) (IsUseful (graph_of (valued M.value (M.machine fst.now)))))) }
    ensures empty { IfOk result (λ r. OnOk r (Q.members queue.new ≡ [])) }
    ensures below { AreBelow (length (M.machine fst.now).states) (Q.members queue.new) }
{
    let _states = fst.state_count();
    let marks = accessible::<V, M>(alloc, fst)?;
    to_finals::<W, V, M, Q>(alloc, fst, marks.as_slice(), queue)
}

/// The distances to the final states of the states that the start reaches; Zero for all others. Only cycles on states
/// that successful paths meet count, so that this gives what the n best paths and pushing need, in the states and
/// places of the given machine: `Fst`, or `WideFst` where no number has an absolute value above 2 to the 70.
///
/// `ImprovingCycle` exactly where a cycle with a product better than One has states that successful paths meet; the
/// fault lists such a cycle. `Memory` may come in place of any answer. After an `Ok` the queue is empty; after a
/// refusal it may hold states of the machine.
///
/// Time and space: as `distance`, and one byte for each state.
pub fn useful_distances<W: Weight, V: Copy, M: Widens<W, V>, Q: StateQueue>(
    alloc: Global,
    fst: &M,
    queue: &mut Q,
) -> Result<Vec<W::Wide>, DistanceFault>
    requires empty { Q.members queue.old ≡ [] }
    requires known { All (λ s. All (λ a. M.known a.weight) s.arcs) (M.machine fst.now).states }
    requires finals { All (λ s. M.known s.final) (M.machine fst.now).states }
    ensures size { IfOk result (λ v. length v.items ≡ length (M.machine fst.now).states) }
    ensures distances { IfOk result (λ v. (q : ℕ) (d : W.Wide) → slice_get v.items q ≡ Some d → IsUsefulDistance W.KIND (graph_of (valued M.value (M.machine fst.now))) q (W.wide_value d)) }
    ensures none { OnOk result (NoneImproves W.KIND (graph_of (valued M.value (M.machine fst.now))) (IsUseful (graph_of (valued M.value (M.machine fst.now))))) }
    ensures numbers { IfOk result (λ v. (q : ℕ) (d : W.Wide) → slice_get v.items q ≡ Some d → Within (length (M.machine fst.now).states * M.bound) (W.wide_value d)) }
    ensures kinds { IfOk result (λ v. (q : ℕ) (d : W.Wide) → slice_get v.items q ≡ Some d → IsCost W.KIND (W.wide_value d)) }
    ensures cycle { IfErr result (λ f. IfImproving f (IsListed W.KIND (graph_of (valued M.value (M.machine fst.now))) (IsUseful (graph_of (valued M.value (M.machine fst.now)))))) }
    ensures empty { OnOk result (Q.members queue.new ≡ []) }
    ensures below { AreBelow (length (M.machine fst.now).states) (Q.members queue.new) }
{
    match useful_measured::<W, V, M, Q>(alloc, fst, queue) {
        Ok(Ok(distances)) => Ok(distances),
        Ok(Err(cycle)) => Err(DistanceFault::ImprovingCycle { cycle }),
        // A lack of memory becomes a fault here alone.
        Err(_) => Err(DistanceFault::Memory),
    }
}
