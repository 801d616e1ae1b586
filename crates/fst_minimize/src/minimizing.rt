//! Minimization.

ghost use Rattle.std.specs.Prelude.{◌≡◌, [], true, All, IfErr, IfOk, OnOk};
ghost use Rattle.fst_machine.specs.Cycles.{IsUseful};
ghost use Rattle.fst_machine.specs.Graph.{graph_of};
ghost use Rattle.fst_machine.specs.Machine.{valued};
ghost use Rattle.fst_machine.specs.Narrowing.{IsInRange};
ghost use Rattle.fst_trim.specs.FirstArcs.{IsAcceptor, IsDeterministic};
ghost use Rattle.fst_search.specs.Distances.{NoneImproves};
ghost use Rattle.fst_minimize.specs.Minimized.{IsMinimizeFault, IsMinimized};
ghost use Rattle.fst_trim.specs.WordWeights.{SameWords};
ghost use Rattle.fst_minimize.specs.Fewest.{IsMinimal};

use crate::fault::MinimizeFault;
use crate::making::{make, number_classes};
use fst_distance::push_lazily;
use fst_machine::{Fst, NarrowFault, Step};
use fst_queue::StateQueue;
use fst_search::DistanceFault;
use fst_semiring::Weight;
use fst_trim::{Handed, not_acceptor_at, not_deterministic_at};
use std::alloc::Global;

/// The minimal machine of a deterministic acceptor: the states of the connected machine, with its weights pushed toward
/// the start, that behave the same are made one. Epsilon counts as a label. (Mohri 2009, section 3.4, minimization;
/// OpenFst manual, "Minimize".)
///
/// Its states are the classes, numbered by their least members, with the arcs of these in their order; each final weight
/// is multiplied by the total weight. Where factors cancel, no deterministic acceptor that gives each word the same
/// weight has fewer states. The states are looked at in the order in which the queue gives them, which changes the time
/// alone.
///
/// `NotAcceptor`, `NotDeterministic`, `ImprovingCycle` and `Overflow` exactly where they hold, in this order; `Memory`
/// may come in place of any answer. After an `Ok` the queue is empty.
///
/// Time: that of the distances, and linear in the states and the arcs where no path comes back to a state, else at worst n
/// times the square of log n in them. Space: linear.
pub fn minimize<W: Weight>(
    alloc: Global,
    fst: &Fst<W>,
    queue: &mut Box<dyn StateQueue>,
) -> Result<Fst<W>, MinimizeFault>
    requires { members queue.old ≡ [] }
    ensures machine { IfOk result (λ r. IsMinimized W.KIND (valued W.value fst.now) (valued W.value r)) }
    ensures words { IfOk result (λ r. SameWords W.KIND (graph_of (valued W.value fst.now)) (graph_of (valued W.value r))) }
    ensures minimal { IfOk result (λ r. W.CANCELS ≡ true → IsMinimal W.KIND (valued W.value r)) }
    ensures acceptor { OnOk result (IsAcceptor fst.now) }
    ensures deterministic { OnOk result (IsDeterministic fst.now) }
    ensures none { OnOk result (NoneImproves W.KIND (graph_of (valued W.value fst.now)) (IsUseful (graph_of (valued W.value fst.now)))) }
    ensures range { IfOk result (λ r. All IsInRange (valued W.value r).states) }
    ensures fault { IfErr result (IsMinimizeFault W.KIND fst.now (valued W.value fst.now)) }
    ensures empty { OnOk result (members queue.new ≡ []) }
{
    let _states = fst.states();
    match not_acceptor_at(fst) {
        Some(Step { state, place }) => return Err(MinimizeFault::NotAcceptor { state, place }),
        None => {}
    }
    match not_deterministic_at(alloc, fst) {
        Some(Step { state, place }) => {
            return Err(MinimizeFault::NotDeterministic { state, place });
        }
        None => {}
    }
    let totalled = match push_lazily(alloc, Handed::Lent(fst), queue) {
        Ok(totalled) => totalled,
        Err(DistanceFault::ImprovingCycle { cycle }) => {
            return Err(MinimizeFault::ImprovingCycle { cycle });
        }
        Err(DistanceFault::Memory) => return Err(MinimizeFault::Memory),
    };
    let Ok(classes) = number_classes(alloc, &totalled.pushed) else {
        return Err(MinimizeFault::Memory);
    };
    match make(alloc, &totalled.pushed, &classes, totalled.total) {
        Ok(made) => Ok(made),
        Err(NarrowFault::Overflow { state }) => Err(MinimizeFault::Overflow { state }),
        Err(NarrowFault::Memory) => Err(MinimizeFault::Memory),
    }
}
