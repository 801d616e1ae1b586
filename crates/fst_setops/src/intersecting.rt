//! The strings that two machines have.

ghost use Rattle.std.specs.Prelude.{◌≡◌, ◌↔◌, ◌<◌, ◌≤◌, ℕ, List, IfOk, length};
ghost use Rattle.std.specs.Bool.{Decides};
ghost use Rattle.fst_semiring.specs.Cost.{Cost};
ghost use Rattle.fst_machine.specs.Cycles.{IsAccessible};
ghost use Rattle.fst_machine.specs.Graph.{graph_of};
ghost use Rattle.fst_machine.specs.Machine.{most_states, valued};
ghost use Rattle.fst_machine.specs.Relation.{Rel};
ghost use Rattle.fst_compose.specs.Answers.{IsSorted};
ghost use Rattle.fst_compose.specs.Composition.{composition};
ghost use Rattle.fst_compose.specs.Theorem.{IsComposition};
ghost use Rattle.fst_setops.specs.Answers.{IsExactly, RefusesIntersection, cause_of};
ghost use Rattle.fst_setops.specs.Intersecting.{Intersects};
ghost use Rattle.fst_setops.specs.Named.{HasNames};

use crate::acceptors::split_at;
use crate::fault::IntersectFault;
use fst_compose::{ComposeFault, compose};
use fst_machine::Fst;
use fst_semiring::Weight;
use fst_trim::{Side, is_sorted};
use std::alloc::Global;

/// Why there is no intersection, where there is no composition.
fn uncomposed(fault: ComposeFault) -> IntersectFault
    ensures { result ≡ cause_of fault }
{
    match fault {
        ComposeFault::NotSorted => IntersectFault::NotSorted,
        ComposeFault::StateLimit { limit } => IntersectFault::StateLimit { limit },
        ComposeFault::TooManyArcs => IntersectFault::TooManyArcs,
        ComposeFault::Overflow { state } => IntersectFault::Overflow { state },
        ComposeFault::Memory => IntersectFault::Memory,
    }
}

/// Whether the arcs of the first machine stand by their output labels, or those of the second by their input labels.
fn may_be_composed<W: Weight>(a: &Fst<W>, b: &Fst<W>) -> bool
    ensures { Decides result (IsSorted (valued W.value a.now) (valued W.value b.now)) }
{
    is_sorted(a, Side::Output) || is_sorted(b, Side::Input)
}

/// The intersection of two acceptors, of which the first has its arcs by their labels or the second has: the machine of
/// `compose`. Where a machine has no start, the result has no states. (Mohri 2009, section 4.1; OpenFst manual,
/// "Intersect".)
///
/// The result has just the strings that both machines have, each with the products of their weights. Its successful paths
/// are the matching pairs of paths, one to one. The start of the result reaches all its states.
///
/// `NotSorted` exactly where neither machine has its arcs in this order; else `NotAcceptor` exactly where an arc has two
/// different labels, the first machine asked first, with the first such arc by state and then place; else as `compose`:
/// `StateLimit` exactly where the start reaches more than `max_states` names, `TooManyArcs` exactly where these have more
/// than 33,554,432 arcs, and `Overflow` exactly where a weight has a number of absolute value above 10 to the 18, with
/// the first state that has such a weight. `Memory` may come in place of any answer.
///
/// Time and space: linear in both machines, and those of `compose`.
pub fn intersect<W: Weight>(
    alloc: Global,
    a: &Fst<W>,
    b: &Fst<W>,
    max_states: u32,
) -> Result<Fst<W>, IntersectFault>
    requires some { 0 < max_states }
    requires few { max_states ≤ most_states }
    ensures made { IfOk result (λ m. HasNames (composition W.KIND W.value a.now b.now) (valued W.value m)) }
    ensures composes { IfOk result (λ m. (h : HasNames (composition W.KIND W.value a.now b.now) (valued W.value m)) → IsComposition W.KIND (graph_of (valued W.value a.now)) (graph_of (valued W.value b.now)) h.names (valued W.value m)) }
    ensures intersects { IfOk result (λ m. (x z : List ℕ) (w : Cost) → Rel W.KIND (graph_of (valued W.value m)) x z w ↔ Intersects W.KIND (graph_of (valued W.value a.now)) (graph_of (valued W.value b.now)) x z w) }
    ensures accessible { IfOk result (λ m. (p : ℕ) → p < length m.states → IsAccessible (graph_of (valued W.value m)) p) }
    ensures exact { IsExactly (RefusesIntersection W.KIND (valued W.value a.now) (valued W.value b.now) max_states) IntersectFault.Memory result }
{
    if !may_be_composed(a, b) {
        return Err(IntersectFault::NotSorted);
    }
    if let Some(split) = split_at(a, b) {
        return Err(IntersectFault::NotAcceptor {
            second: split.second,
            state: split.state,
            place: split.place,
        });
    }
    match compose(alloc, a, b, max_states) {
        Ok(made) => Ok(made.fst),
        Err(fault) => Err(uncomposed(fault)),
    }
}
