//! Machines without epsilon arcs.

ghost use Rattle.std.specs.Prelude.{◌≡◌, ◌⊎◌, ◌<◌, ◌+◌, ◌++◌, ◌∷◌, [], ℕ, List, false, All, IfErr, IfOk, OnOk, get_or, length, map};
ghost use Rattle.std.specs.Bool.{Decides};
ghost use Rattle.fst_semiring.specs.Cost.{Cost};
ghost use Rattle.fst_semiring.specs.Semiring.{IsWide};
ghost use Rattle.fst_machine.specs.Cycles.{IsAccessible};
ghost use Rattle.fst_machine.specs.Graph.{graph_of};
ghost use Rattle.fst_machine.specs.Machine.{State, valued, valued_state};
ghost use Rattle.fst_trim.specs.Links.{epsilon_links};
ghost use Rattle.fst_search.specs.Closure.{Reached as ReachedValue};
ghost use Rattle.fst_search.specs.Trying.{AreBelow};
ghost use Rattle.fst_epsilon.specs.Answers.{IsFine, IsImprovingSilently, IsRemovedMachine, KeepsWeights, Stops};
ghost use Rattle.fst_epsilon.specs.Construction.{IsRemoved};
ghost use Rattle.fst_epsilon.specs.Gathering.{pairs_of};
ghost use Rattle.fst_epsilon.specs.Making.{IsMade, IsRemoving, gathered};

use crate::closing::sort_closure;
use crate::fault::EpsilonFault;
use crate::few::Few;
use crate::gathering::{gather, gather_few, widened};
use crate::making::{Output, put_near, put_state};
use crate::merged::Merged;
use fst_machine::{Fst, MOST_ARCS, Path};
use fst_queue::StateQueue;
use fst_search::{Closures, Reached};
use fst_semiring::Weight;
use fst_trim::accessible;
use std::alloc::{AllocError, Global};

/// Room for one state while its closure and its arcs are gathered.
#[derive(Drop)]
struct Room<W: Weight> {
    /// The closure, where it is soon found.
    near: Vec<Reached<W>>,
    /// The arcs, where they are few and in range.
    few: Few<W>,
    /// The arcs, where they are not.
    many: Merged<W>,
}

/// Puts the state that its closure makes after the others.
fn put_gathered<W: Weight>(
    fst: &Fst<W>,
    many: &mut Merged<W>,
    output: &mut Output<W>,
    state: u32,
    closure: &[Reached<W::Wide>],
) -> Result<(), AllocError>
    requires states { All (λ (r : ReachedValue W.Wide). r.state < length fst.now.states) closure.now }
    requires wide { All (λ (r : ReachedValue W.Wide). IsWide (W.wide_value r.distance)) closure.now }
    requires made { (all : List (State Cost)) × (length all ≡ state) × IsMade all (map (valued_state W.value) output.old.states) output.old.total output.old.overflow }
    ensures { OnOk result ((all : List (State Cost)) → length all ≡ state → IsMade all (map (valued_state W.value) output.old.states) output.old.total output.old.overflow → IsMade (all ++ gathered W.KIND (graph_of (valued W.value fst.now)) (pairs_of W.wide_value closure.now) ∷ []) (map (valued_state W.value) output.new.states) output.new.total output.new.overflow) }
{
    let last = gather(many, fst, closure)?;
    put_state(output, state, last, many.arcs.as_slice())?;
    Ok(())
}

/// The same where the distances are in range: mostly the arcs are few, and their weights in range too.
fn put_soon<W: Weight>(
    alloc: Global,
    fst: &Fst<W>,
    few: &mut Few<W>,
    many: &mut Merged<W>,
    output: &mut Output<W>,
    state: u32,
    closure: &[Reached<W>],
) -> Result<(), AllocError>
    requires states { All (λ (r : ReachedValue W). r.state < length fst.now.states) closure.now }
    requires made { (all : List (State Cost)) × (length all ≡ state) × IsMade all (map (valued_state W.value) output.old.states) output.old.total output.old.overflow }
    ensures { OnOk result ((all : List (State Cost)) → length all ≡ state → IsMade all (map (valued_state W.value) output.old.states) output.old.total output.old.overflow → IsMade (all ++ gathered W.KIND (graph_of (valued W.value fst.now)) (pairs_of W.value closure.now) ∷ []) (map (valued_state W.value) output.new.states) output.new.total output.new.overflow) }
{
    if let Some(last) = gather_few(few, fst, closure)? {
        put_near(output, last, few.arcs.as_slice())?;
        return Ok(());
    }
    let wide = widened::<W>(alloc, closure)?;
    put_gathered(fst, many, output, state, wide.as_slice())
}

/// Makes the state of the result that stands for a state which the start reaches, and gives back the search; or a cycle
/// of epsilon arcs on what such arcs reach from it that is better than One.
fn put_closure<W: Weight, Q: StateQueue>(
    alloc: Global,
    fst: &Fst<W>,
    mut closures: Closures<W>,
    queue: &mut Q,
    room: &mut Room<W>,
    output: &mut Output<W>,
    state: u32,
) -> Result<Result<Closures<W>, Path>, AllocError>
    requires closures { closures ≡ epsilon_links fst.now.states }
    requires state { state < length fst.now.states }
    requires near { IsAccessible (graph_of (valued W.value fst.now)) state }
    requires empty { Q.members queue.old ≡ [] }
    requires removing { IsRemoving W.KIND (graph_of (valued W.value fst.now)) state (map (valued_state W.value) output.old.states) output.old.total output.old.overflow }
    ensures closures { IfOk result (λ r. IfOk r (λ c. c ≡ epsilon_links fst.now.states)) }
    ensures removing { IfOk result (λ r. OnOk r (IsRemoving W.KIND (graph_of (valued W.value fst.now)) (state + 1) (map (valued_state W.value) output.new.states) output.new.total output.new.overflow)) }
    ensures cycle { IfOk result (λ r. IfErr r (IsImprovingSilently W.KIND (graph_of (valued W.value fst.now)))) }
    ensures empty { IfOk result (λ r. OnOk r (Q.members queue.new ≡ [])) }
    ensures below { AreBelow (length fst.now.states) (Q.members queue.new) }
{
    let _states = fst.states();
    if closures.near(fst, state, &mut room.near)? {
        sort_closure(&mut room.near, state);
        put_soon(
            alloc,
            fst,
            &mut room.few,
            &mut room.many,
            output,
            state,
            room.near.as_slice(),
        )?;
        return Ok(Ok(closures));
    }
    let mut closed = match closures.closure(alloc, fst, queue, state)? {
        Ok(closed) => closed,
        Err(cycle) => return Ok(Err(cycle)),
    };
    sort_closure(&mut closed.reached, state);
    put_gathered(
        fst,
        &mut room.many,
        output,
        state,
        closed.reached.as_slice(),
    )?;
    Ok(Ok(closed.closures))
}

/// Makes all states, or finds a cycle of epsilon arcs on states that the start reaches that is better than One.
fn put_all<W: Weight, Q: StateQueue>(
    alloc: Global,
    fst: &Fst<W>,
    marks: &[bool],
    queue: &mut Q,
    output: &mut Output<W>,
) -> Result<Result<(), Path>, AllocError>
    requires size { length marks.now ≡ length fst.now.states }
    requires marks { (p : ℕ) → Decides (get_or marks.now p false) (IsAccessible (graph_of (valued W.value fst.now)) p) }
    requires empty { Q.members queue.old ≡ [] }
    requires removing { IsRemoving W.KIND (graph_of (valued W.value fst.now)) 0 (map (valued_state W.value) output.old.states) output.old.total output.old.overflow }
    ensures removing { IfOk result (λ r. OnOk r (IsRemoving W.KIND (graph_of (valued W.value fst.now)) (length fst.now.states) (map (valued_state W.value) output.new.states) output.new.total output.new.overflow)) }
    ensures cycle { IfOk result (λ r. IfErr r (IsImprovingSilently W.KIND (graph_of (valued W.value fst.now)))) }
    ensures empty { IfOk result (λ r. OnOk r (Q.members queue.new ≡ [])) }
    ensures below { AreBelow (length fst.now.states) (Q.members queue.new) }
{
    let mut room = Room {
        near: Vec::new(alloc),
        few: Few::new(alloc),
        many: Merged::new(alloc),
    };
    let none = Vec::new(alloc);
    let mut closures = Closures::new(alloc, fst)?;
    for state in 0..fst.states() {
        if !marks[state as usize] {
            put_near(output, W::zero(), none.as_slice())?;
            continue;
        }
        match put_closure(alloc, fst, closures, queue, &mut room, output, state)? {
            Ok(kept) => closures = kept,
            Err(cycle) => return Ok(Err(cycle)),
        }
    }
    Ok(Ok(()))
}

/// The machine of all states that were made, or why it is none.
fn finished<W: Weight>(fst: &Fst<W>, output: Output<W>) -> Result<Fst<W>, EpsilonFault>
    requires { IsRemoving W.KIND (graph_of (valued W.value fst.now)) (length fst.now.states) (map (valued_state W.value) output.states) output.total output.overflow }
    ensures fine { IfOk result (λ h. IsFine W.KIND (valued W.value fst.now) (valued W.value h)) }
    ensures keeps { IfOk result (λ h. KeepsWeights W.KIND (valued W.value fst.now) (valued W.value h)) }
    ensures graph { IfOk result (λ h. IsRemoved W.KIND (graph_of (valued W.value fst.now)) (graph_of (valued W.value h))) }
    ensures cause { IfErr result (Stops W.KIND (valued W.value fst.now)) }
{
    let _states = fst.states();
    if output.total > MOST_ARCS as usize {
        return Err(EpsilonFault::TooManyArcs);
    }
    match output.overflow {
        Some(state) => Err(EpsilonFault::Overflow { state }),
        None => Ok(output.states.into_machine(fst.start())),
    }
}

/// The machine without epsilon arcs or why there is none, with memory apart.
fn removed<W: Weight, Q: StateQueue>(
    alloc: Global,
    fst: &Fst<W>,
    queue: &mut Q,
) -> Result<Result<Fst<W>, EpsilonFault>, AllocError>
    requires { Q.members queue.old ≡ [] }
    ensures fine { IfOk result (λ r. IfOk r (λ h. IsFine W.KIND (valued W.value fst.now) (valued W.value h))) }
    ensures keeps { IfOk result (λ r. IfOk r (λ h. KeepsWeights W.KIND (valued W.value fst.now) (valued W.value h))) }
    ensures graph { IfOk result (λ r. IfOk r (λ h. IsRemoved W.KIND (graph_of (valued W.value fst.now)) (graph_of (valued W.value h)))) }
    ensures cause { IfOk result (λ r. IfErr r (Stops W.KIND (valued W.value fst.now))) }
    ensures empty { IfOk result (λ r. OnOk r (Q.members queue.new ≡ [])) }
    ensures below { AreBelow (length fst.now.states) (Q.members queue.new) }
{
    let marks = accessible::<W, Fst<W>>(alloc, fst)?;
    // Mostly there are more arcs than before. Room that is not written takes no pages; a list that outgrows a small one is
    // copied, and what it leaves is not given back.
    let room = (2 * fst.arc_count() as usize).min(MOST_ARCS as usize);
    let mut output = Output::new(alloc, fst.states() as usize, room)?;
    match put_all(alloc, fst, marks.as_slice(), queue, &mut output)? {
        Ok(()) => Ok(finished(fst, output)),
        Err(cycle) => Ok(Err(EpsilonFault::ImprovingCycle { cycle })),
    }
}

/// The machine without epsilon arcs. Each state that the start reaches gets the arcs that are not epsilon of the states
/// that epsilon arcs reach from it, each with the best product of such a path before its weight: its own arcs first, then
/// those of the others by number. Where several have the same labels and next state, one stands for them, with the best of
/// their weights, in the place of the first. The final weights are made likewise. A state that the start does not reach
/// has no arcs and is not final. So each pair of strings keeps its weight. (Mohri 2002, "Generic epsilon-removal";
/// OpenFst manual, "RmEpsilon".)
///
/// `ImprovingCycle` exactly where a cycle of epsilon arcs on states that the start reaches is better than One; the fault
/// lists such a cycle. Else `TooManyArcs` exactly where the result has more than 33,554,432 arcs; else `Overflow` exactly
/// where a weight has a number of absolute value above 10 to the 18, with the first state that has such a weight. `Memory`
/// may come in place of any answer. After an `Ok` the queue is empty; after a refusal it may hold states of the machine.
/// Where a short search does not find what epsilon arcs reach from a state, the queue gives the order in which states are
/// looked at; it changes the time alone.
///
/// Time: for each state that of a search along its epsilon arcs, and of what is so collected. Space: the result, the
/// arcs of one state, and for weights of 8 bytes 40 for each state and 16 for each epsilon arc. A chain of epsilon arcs is
/// gone through from each of its states.
pub fn rmepsilon<W: Weight>(
    alloc: Global,
    fst: &Fst<W>,
    queue: &mut Box<dyn StateQueue>,
) -> Result<Fst<W>, EpsilonFault>
    requires { members queue.old ≡ [] }
    ensures removed { IfOk result (λ h. IsRemovedMachine W.KIND (valued W.value fst.now) (valued W.value h)) }
    ensures graph { IfOk result (λ h. IsRemoved W.KIND (graph_of (valued W.value fst.now)) (graph_of (valued W.value h))) }
    ensures keeps { IfOk result (λ h. KeepsWeights W.KIND (valued W.value fst.now) (valued W.value h)) }
    ensures passes { OnOk result ((fault : EpsilonFault) → Stops W.KIND (valued W.value fst.now) fault → ⊥) }
    ensures cause { IfErr result (λ fault. Stops W.KIND (valued W.value fst.now) fault ⊎ (fault ≡ EpsilonFault.Memory)) }
    ensures empty { OnOk result (members queue.new ≡ []) }
    ensures below { AreBelow (length fst.now.states) (members queue.new) }
{
    match removed(alloc, fst, queue) {
        Ok(made) => made,
        // A lack of memory becomes a fault here alone.
        Err(_) => Err(EpsilonFault::Memory),
    }
}
