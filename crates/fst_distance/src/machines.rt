//! The pushed machine as a machine: with wide weights, or with its total put on its start or removed.

ghost use Rattle.std.specs.Prelude.{◌≡◌, ◌⊎◌, ◌↔◌, ◌<◌, ◌≤◌, ℕ, List, [], false, true, IfErr, IfNone, IfOk, IfSome, OnOk, length};
ghost use Rattle.fst_semiring.specs.Cost.{Cost};
ghost use Rattle.fst_semiring.specs.Semiring.{one_of};
ghost use Rattle.fst_machine.specs.Cycles.{IsUseful};
ghost use Rattle.fst_machine.specs.Distance.{IsFinalDistance};
ghost use Rattle.fst_machine.specs.Graph.{graph_of};
ghost use Rattle.fst_machine.specs.Machine.{arc_total, most_arcs, most_states, valued};
ghost use Rattle.fst_machine.specs.Relation.{Rel};
ghost use Rattle.fst_search.specs.Distances.{NoneImproves};
ghost use Rattle.fst_distance.specs.Pushing.{IsPushed};
ghost use Rattle.fst_trim.specs.Handed.{machine_of};
ghost use Rattle.fst_distance.specs.Totals.{IsAmong, IsPushFault, IsTotalled, IsWithin, Passes, RelatesBy, put_on};

use crate::by_distance::push_lazily;
use crate::fault::PushFault;
use crate::placing::{Place, arc_count, place_of, state_count};
use crate::pushing::Pushing;
use crate::totalling::with_total;
use fst_machine::{Fst, MOST_ARCS, MOST_STATES, NarrowFault};
use fst_queue::StateQueue;
use fst_search::DistanceFault;
use fst_semiring::Weight;
use fst_trim::Handed;
use std::alloc::Global;

/// The limit that the result passes, if it passes one.
fn past_limit<W: Weight>(pushed: &Pushing<'_, W>, place: Place) -> Option<PushFault>
    requires { IsAmong (length pushed.now.states) place }
    ensures some { IfSome result (λ fault. (total : Cost) → Passes (put_on W.KIND total pushed.now place) fault) }
    ensures states { IfNone result ((total : Cost) → length (put_on W.KIND total pushed.now place).states ≤ most_states) }
    ensures arcs { IfNone result ((total : Cost) → arc_total (put_on W.KIND total pushed.now place).states ≤ most_arcs) }
{
    if MOST_STATES < state_count(pushed, place) {
        return Some(PushFault::TooManyStates);
    }
    if (MOST_ARCS as usize) < arc_count(pushed, place) {
        return Some(PushFault::TooManyArcs);
    }
    None
}

/// The connected machine with its weights pushed toward the start by the distances of its states to the final states.
/// The total weight, which is the distance of the start, is removed; or it is put on the final weight and the arcs of the
/// start, or of a copy of it where an arc leads to it. (Mohri 2009, section 3.4, weight pushing; OpenFst manual, "Push".)
///
/// From each state of the pushed machine the distance to the final states is One, for every arc type. With its total put
/// on it relates what the machine relates; with it removed, the total Times what it relates is what the machine relates.
/// The states are looked at in the order in which the queue gives them, which changes the time alone.
///
/// `ImprovingCycle`, `TooManyStates`, `TooManyArcs` and `Overflow` exactly where they hold, in this order; `Memory` may
/// come in place of any answer. After an `Ok` the queue is empty.
///
/// Time: that of the distances, and linear in the states and the arcs. Space: linear; the pushed weights are kept in the
/// result alone.
pub fn push<W: Weight, Q: StateQueue>(
    alloc: Global,
    fst: &Fst<W>,
    remove_total: bool,
    queue: &mut Q,
) -> Result<Fst<W>, PushFault>
    requires { Q.members queue.old ≡ [] }
    ensures machine { IfOk result (λ r. IsTotalled W.KIND remove_total (valued W.value fst.now) (valued W.value r)) }
    ensures keeps { remove_total ≡ false → IfOk result (λ r. (x y : List ℕ) (w : Cost) → Rel W.KIND (graph_of (valued W.value fst.now)) x y w ↔ Rel W.KIND (graph_of (valued W.value r)) x y w) }
    ensures removes { remove_total ≡ true → IfOk result (λ r. (total : Cost) × IsPushed W.KIND (valued W.value fst.now) (valued W.value r) total × RelatesBy W.KIND total (valued W.value fst.now) (valued W.value r)) }
    ensures one { remove_total ≡ true → IfOk result (λ r. (p : ℕ) → p < length (valued W.value r).states → IsFinalDistance W.KIND (graph_of (valued W.value r)) p (one_of W.KIND)) }
    ensures within { IfOk result (λ r. IsWithin (valued W.value r)) }
    ensures none { OnOk result (NoneImproves W.KIND (graph_of (valued W.value fst.now)) (IsUseful (graph_of (valued W.value fst.now)))) }
    ensures fault { IfErr result (λ f. IsPushFault W.KIND remove_total (valued W.value fst.now) f ⊎ (f ≡ PushFault.Memory)) }
    ensures empty { OnOk result (Q.members queue.new ≡ []) }
{
    push_handed(alloc, Handed::Lent(fst), remove_total, queue)
}

/// The same of a machine that is given away. It is given up as soon as its connected machine stands, so that no more than
/// two machines are kept at once.
pub fn into_pushed<'a, W: Weight + 'a, Q: StateQueue>(
    alloc: Global,
    fst: Fst<W>,
    remove_total: bool,
    queue: &'a mut Q,
) -> Result<Fst<W>, PushFault>
    requires { Q.members queue.old ≡ [] }
    ensures machine { IfOk result (λ r. IsTotalled W.KIND remove_total (valued W.value fst) (valued W.value r)) }
    ensures keeps { remove_total ≡ false → IfOk result (λ r. (x y : List ℕ) (w : Cost) → Rel W.KIND (graph_of (valued W.value fst)) x y w ↔ Rel W.KIND (graph_of (valued W.value r)) x y w) }
    ensures removes { remove_total ≡ true → IfOk result (λ r. (total : Cost) × IsPushed W.KIND (valued W.value fst) (valued W.value r) total × RelatesBy W.KIND total (valued W.value fst) (valued W.value r)) }
    ensures one { remove_total ≡ true → IfOk result (λ r. (p : ℕ) → p < length (valued W.value r).states → IsFinalDistance W.KIND (graph_of (valued W.value r)) p (one_of W.KIND)) }
    ensures within { IfOk result (λ r. IsWithin (valued W.value r)) }
    ensures none { OnOk result (NoneImproves W.KIND (graph_of (valued W.value fst)) (IsUseful (graph_of (valued W.value fst)))) }
    ensures fault { IfErr result (λ f. IsPushFault W.KIND remove_total (valued W.value fst) f ⊎ (f ≡ PushFault.Memory)) }
    ensures empty { OnOk result (Q.members queue.new ≡ []) }
{
    let handed: Handed<'a, W> = Handed::Own(fst);
    push_handed(alloc, handed, remove_total, queue)
}

/// The same of a machine that is lent or given away.
fn push_handed<W: Weight, Q: StateQueue>(
    alloc: Global,
    fst: Handed<'_, W>,
    remove_total: bool,
    queue: &mut Q,
) -> Result<Fst<W>, PushFault>
    requires { Q.members queue.old ≡ [] }
    ensures machine { IfOk result (λ r. IsTotalled W.KIND remove_total (valued W.value (machine_of fst.entry)) (valued W.value r)) }
    ensures keeps { remove_total ≡ false → IfOk result (λ r. (x y : List ℕ) (w : Cost) → Rel W.KIND (graph_of (valued W.value (machine_of fst.entry))) x y w ↔ Rel W.KIND (graph_of (valued W.value r)) x y w) }
    ensures removes { remove_total ≡ true → IfOk result (λ r. (total : Cost) × IsPushed W.KIND (valued W.value (machine_of fst.entry)) (valued W.value r) total × RelatesBy W.KIND total (valued W.value (machine_of fst.entry)) (valued W.value r)) }
    ensures one { remove_total ≡ true → IfOk result (λ r. (p : ℕ) → p < length (valued W.value r).states → IsFinalDistance W.KIND (graph_of (valued W.value r)) p (one_of W.KIND)) }
    ensures within { IfOk result (λ r. IsWithin (valued W.value r)) }
    ensures none { OnOk result (NoneImproves W.KIND (graph_of (valued W.value (machine_of fst.entry))) (IsUseful (graph_of (valued W.value (machine_of fst.entry))))) }
    ensures fault { IfErr result (λ f. IsPushFault W.KIND remove_total (valued W.value (machine_of fst.entry)) f ⊎ (f ≡ PushFault.Memory)) }
    ensures empty { OnOk result (Q.members queue.new ≡ []) }
{
    let _states = fst.fst().states();
    let totalled = match push_lazily(alloc, fst, queue) {
        Ok(totalled) => totalled,
        Err(DistanceFault::ImprovingCycle { cycle }) => {
            return Err(PushFault::ImprovingCycle { cycle });
        }
        Err(DistanceFault::Memory) => return Err(PushFault::Memory),
    };
    let place = place_of(&totalled.pushed, totalled.total, remove_total);
    match past_limit(&totalled.pushed, place) {
        Some(fault) => return Err(fault),
        None => {}
    }
    match with_total(alloc, &totalled.pushed, totalled.total, place) {
        Ok(made) => Ok(made),
        Err(NarrowFault::Overflow { state }) => Err(PushFault::Overflow { state }),
        Err(NarrowFault::Memory) => Err(PushFault::Memory),
    }
}
