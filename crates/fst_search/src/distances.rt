//! Shortest distances, from the start and to the final states.

ghost use Rattle.std.specs.Prelude.{◌≡◌, ◌*◌, ℕ, [], Some, IfErr, IfOk, OnOk, length, map, slice_get};
ghost use Rattle.fst_semiring.specs.Semiring.{IsCost, Within};
ghost use Rattle.fst_machine.specs.Graph.{graph_of};
ghost use Rattle.fst_machine.specs.Machine.{valued};
ghost use Rattle.fst_search.specs.Distances.{Counts, IfImproving, IsDistanceTo, IsListed, IsMeasured, NoneImproves};
ghost use Rattle.fst_search.specs.Trying.{AreBelow};

use crate::direction::Direction;
use crate::fault::DistanceFault;
use crate::measuring::{from_start, to_finals};
use fst_machine::{Fst, Path};
use fst_queue::StateQueue;
use fst_semiring::Weight;
use std::alloc::{AllocError, Global};

/// The distances in a direction, or a cycle that is better than One, with memory apart.
fn measured<W: Weight, Q: StateQueue>(
    alloc: Global,
    fst: &Fst<W>,
    direction: Direction,
    queue: &mut Q,
) -> Result<Result<Vec<W::Wide>, Path>, AllocError>
    requires { Q.members queue.old ≡ [] }
    ensures made { IfOk result (λ r. IfOk r (λ v. IsMeasured W.KIND (graph_of (valued W.value fst.now)) (IsDistanceTo direction W.KIND (graph_of (valued W.value fst.now))) (Counts direction (graph_of (valued W.value fst.now))) (length fst.now.states) 1000000000000000000 (map W.wide_value v.items))) }
    ensures cycle { IfOk result (λ r. IfErr r (IsListed W.KIND (graph_of (valued W.value fst.now)) (Counts direction (graph_of (valued W.value fst.now))))) }
    ensures empty { IfOk result (λ r. OnOk r (Q.members queue.new ≡ [])) }
    ensures below { AreBelow (length fst.now.states) (Q.members queue.new) }
{
    match direction {
        Direction::FromStart => from_start::<W, W, Fst<W>, Q>(alloc, fst, queue),
        Direction::ToFinals => {
            let marks = Vec::new(alloc);
            to_finals::<W, W, Fst<W>, Q>(alloc, fst, marks.as_slice(), queue)
        }
    }
}

/// The shortest distances of the states of a machine. (Mohri 2009, section 3.3; OpenFst manual, "ShortestDistance".)
///
/// From the start: for each state the best product over the paths from the start to it. To the final states: for each
/// state the best product over the paths from it to a final state, with that state's final weight multiplied on. Where
/// there is no such path, the distance is Zero. The states are looked at in the order in which the queue gives them,
/// which changes the time alone.
///
/// `ImprovingCycle` exactly where a cycle with a product better than One has states that the start reaches, or for the
/// final states ones that reach a final state; the fault lists such a cycle. `Memory` may come in place of any answer.
/// After an `Ok` the queue is empty; after a refusal it may hold states of the machine.
///
/// Time: each round looks at each state at most once and along each arc, and there is at most one round more than
/// states; with few rounds, as is common, linear. Space: for weights of 8 bytes 52 for each state, 4 for each that
/// something comes to and for each that is put off, with room for as many more, 16 for each arc, and the queue.
pub fn distance<W: Weight, Q: StateQueue>(
    alloc: Global,
    fst: &Fst<W>,
    direction: Direction,
    queue: &mut Q,
) -> Result<Vec<W::Wide>, DistanceFault>
    requires { Q.members queue.old ≡ [] }
    ensures size { IfOk result (λ v. length v.items ≡ length fst.now.states) }
    ensures distances { IfOk result (λ v. (q : ℕ) (d : W.Wide) → slice_get v.items q ≡ Some d → IsDistanceTo direction W.KIND (graph_of (valued W.value fst.now)) q (W.wide_value d)) }
    ensures none { OnOk result (NoneImproves W.KIND (graph_of (valued W.value fst.now)) (Counts direction (graph_of (valued W.value fst.now)))) }
    ensures numbers { IfOk result (λ v. (q : ℕ) (d : W.Wide) → slice_get v.items q ≡ Some d → Within (length fst.now.states * 1000000000000000000) (W.wide_value d)) }
    ensures kinds { IfOk result (λ v. (q : ℕ) (d : W.Wide) → slice_get v.items q ≡ Some d → IsCost W.KIND (W.wide_value d)) }
    ensures cycle { IfErr result (λ f. IfImproving f (IsListed W.KIND (graph_of (valued W.value fst.now)) (Counts direction (graph_of (valued W.value fst.now))))) }
    ensures empty { OnOk result (Q.members queue.new ≡ []) }
    ensures below { AreBelow (length fst.now.states) (Q.members queue.new) }
{
    match measured(alloc, fst, direction, queue) {
        Ok(Ok(distances)) => Ok(distances),
        Ok(Err(cycle)) => Err(DistanceFault::ImprovingCycle { cycle }),
        // A lack of memory becomes a fault here alone.
        Err(_) => Err(DistanceFault::Memory),
    }
}

/// The same with a queue in a box.
pub fn distance_boxed<W: Weight>(
    alloc: Global,
    fst: &Fst<W>,
    direction: Direction,
    queue: &mut Box<dyn StateQueue>,
) -> Result<Vec<W::Wide>, DistanceFault>
    requires { members queue.old ≡ [] }
    ensures size { IfOk result (λ v. length v.items ≡ length fst.now.states) }
    ensures distances { IfOk result (λ v. (q : ℕ) (d : W.Wide) → slice_get v.items q ≡ Some d → IsDistanceTo direction W.KIND (graph_of (valued W.value fst.now)) q (W.wide_value d)) }
    ensures none { OnOk result (NoneImproves W.KIND (graph_of (valued W.value fst.now)) (Counts direction (graph_of (valued W.value fst.now)))) }
    ensures numbers { IfOk result (λ v. (q : ℕ) (d : W.Wide) → slice_get v.items q ≡ Some d → Within (length fst.now.states * 1000000000000000000) (W.wide_value d)) }
    ensures kinds { IfOk result (λ v. (q : ℕ) (d : W.Wide) → slice_get v.items q ≡ Some d → IsCost W.KIND (W.wide_value d)) }
    ensures cycle { IfErr result (λ f. IfImproving f (IsListed W.KIND (graph_of (valued W.value fst.now)) (Counts direction (graph_of (valued W.value fst.now))))) }
    ensures empty { OnOk result (members queue.new ≡ []) }
    ensures below { AreBelow (length fst.now.states) (members queue.new) }
{
    distance(alloc, fst, direction, queue)
}
