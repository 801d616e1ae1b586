//! The pushed machine with wide weights.

ghost use Rattle.std.specs.Prelude.{◌≡◌, ◌<◌, ◌≤◌, ◌+◌, ◌++◌, ◌∷◌, ℕ, [], None, All, IfErr, IfOk, OnOk, get_or, length, map};
ghost use Rattle.fst_semiring.specs.Semiring.{Within, one_of};
ghost use Rattle.fst_machine.specs.Cycles.{IsUseful};
ghost use Rattle.fst_machine.specs.Distance.{IsFinalDistance};
ghost use Rattle.fst_machine.specs.Graph.{graph_of, no_state};
ghost use Rattle.fst_machine.specs.Machine.{IsArc, arc_total, changed, most_arcs, most_states, valued, valued_arc, valued_state, with_arc};
ghost use Rattle.fst_search.specs.Distances.{IfImproving, IsListed, NoneImproves};
ghost use Rattle.fst_distance.specs.Filling.{bare, filled, with_arcs};
ghost use Rattle.fst_distance.specs.Pushing.{IsPushed};
ghost use Rattle.fst_distance.specs.PushLaws.{PushesPaths};
ghost use Rattle.fst_distance.specs.Totals.{RelatesBy};
ghost use Rattle.fst_distance.specs.Values.{most_distance};

use crate::by_distance::push_lazily;
use crate::pushing::Pushing;
use fst_machine::{Fst, GrowFault, WideArc, WideFst};
use fst_queue::StateQueue;
use fst_search::DistanceFault;
use fst_semiring::Weight;
use fst_trim::Handed;
use std::alloc::{AllocError, Global};

/// A pushed machine with wide weights, and its total weight.
#[derive(Drop)]
pub struct Pushed<W: Weight> {
    /// The machine.
    pub fst: WideFst<W>,
    /// The distance of its start to the final states; Zero where there is no start.
    pub total: W::Wide,
}

/// Adds a state where there is room for one.
fn add_state<W: Weight>(machine: &mut WideFst<W>) -> Result<(), AllocError>
    requires { length machine.old.states < most_states }
    ensures states { OnOk result (map (valued_state W.wide_value) machine.new.states ≡ map (valued_state W.wide_value) machine.old.states ++ no_state ∷ []) }
    ensures start { OnOk result (machine.new.start ≡ machine.old.start) }
{
    match machine.add_state() {
        Ok(_) => Ok(()),
        Err(GrowFault::Memory) => Err(AllocError),
        Err(_) => unreachable!(),
    }
}

/// As many states as the pushed machine has, bare.
fn bare_states<W: Weight>(alloc: Global, pushed: &Pushing<'_, W>) -> Result<WideFst<W>, AllocError>
    ensures states { IfOk result (λ m. map (valued_state W.wide_value) m.states ≡ bare pushed.now.states) }
    ensures start { IfOk result (λ m. m.start ≡ None) }
{
    let states = pushed.states();
    let mut machine = WideFst::new(alloc);
    for _ in 0..states {
        add_state(&mut machine)?;
    }
    Ok(machine)
}

/// Adds an arc behind those of a state, where there is room for one.
fn add_arc<W: Weight>(
    machine: &mut WideFst<W>,
    state: u32,
    arc: WideArc<W>,
) -> Result<(), AllocError>
    requires state { state < length machine.old.states }
    requires arc { IsArc W.wide_value (length machine.old.states) arc }
    requires room { arc_total machine.old.states < most_arcs }
    ensures { OnOk result (machine.new ≡ record machine.old { states = changed (with_arc arc) machine.old.states state }) }
{
    match machine.add_arc(state, arc) {
        Ok(()) => Ok(()),
        Err(GrowFault::Memory) => Err(AllocError),
        Err(_) => unreachable!(),
    }
}

/// Adds arcs behind those of a state.
fn add_arcs<W: Weight>(
    machine: &mut WideFst<W>,
    state: u32,
    arcs: &[WideArc<W>],
) -> Result<(), AllocError>
    requires state { state < length machine.old.states }
    requires arcs { All (IsArc W.wide_value (length machine.old.states)) arcs.now }
    requires room { arc_total machine.old.states + length arcs.now ≤ most_arcs }
    ensures states { OnOk result (map (valued_state W.wide_value) machine.new.states ≡ changed (with_arcs (map (valued_arc W.wide_value) arcs.now)) (map (valued_state W.wide_value) machine.old.states) state) }
    ensures start { OnOk result (machine.new.start ≡ machine.old.start) }
{
    for arc in arcs {
        add_arc(machine, state, *arc)?;
    }
    Ok(())
}

/// Gives a state the final weight and the arcs that it has in the pushed machine.
fn fill_state<W: Weight>(
    machine: &mut WideFst<W>,
    buffer: &mut Vec<WideArc<W>>,
    pushed: &Pushing<'_, W>,
    state: u32,
) -> Result<(), AllocError>
    requires size { length machine.old.states ≡ length pushed.now.states }
    requires state { state < length pushed.now.states }
    requires room { arc_total machine.old.states + length (get_or pushed.now.states state no_state).arcs ≤ most_arcs }
    ensures states { OnOk result (map (valued_state W.wide_value) machine.new.states ≡ changed (filled (get_or pushed.now.states state no_state)) (map (valued_state W.wide_value) machine.old.states) state) }
    ensures start { OnOk result (machine.new.start ≡ machine.old.start) }
{
    let _states = pushed.states();
    pushed.put_arcs(buffer, state)?;
    machine.set_final(state, pushed.final_weight(state));
    add_arcs(machine, state, buffer)?;
    Ok(())
}

/// The pushed machine, its start apart.
fn filled_states<W: Weight>(
    alloc: Global,
    pushed: &Pushing<'_, W>,
) -> Result<WideFst<W>, AllocError>
    ensures states { IfOk result (λ m. map (valued_state W.wide_value) m.states ≡ pushed.now.states) }
    ensures start { IfOk result (λ m. m.start ≡ None) }
{
    let states = pushed.states();
    let mut machine = bare_states(alloc, pushed)?;
    let mut buffer = Vec::new(alloc);
    for state in 0..states {
        fill_state(&mut machine, &mut buffer, pushed, state)?;
    }
    Ok(machine)
}

/// The pushed machine.
fn widened<W: Weight>(alloc: Global, pushed: &Pushing<'_, W>) -> Result<WideFst<W>, AllocError>
    ensures { IfOk result (λ m. valued W.wide_value m ≡ pushed.now) }
{
    let _states = pushed.states();
    let mut machine = filled_states(alloc, pushed)?;
    if let Some(start) = pushed.start() {
        machine.set_start(start);
    }
    Ok(machine)
}

/// The connected machine with its weights pushed toward the start by the distances of its states to the final states,
/// and its total weight, which is the distance of the start. (Mohri 2009, section 3.4, weight pushing.)
///
/// From each state of the machine the distance to the final states is One, and the total Times the new weight of a path
/// is its old weight, for every successful path, one to one, and every arc type.
///
/// `ImprovingCycle` exactly where a cycle with a product better than One has states that successful paths meet; the
/// fault lists such a cycle, in the states and places of the given machine. `Memory` may come in place of any answer.
/// After an `Ok` the queue is empty.
///
/// Time: that of the distances, and linear in the states and the arcs. Space: linear.
pub fn push_wide<W: Weight, Q: StateQueue>(
    alloc: Global,
    fst: &Fst<W>,
    queue: &mut Q,
) -> Result<Pushed<W>, DistanceFault>
    requires { Q.members queue.old ≡ [] }
    ensures pushed { IfOk result (λ p. IsPushed W.KIND (valued W.value fst.now) (valued W.wide_value p.fst) (W.wide_value p.total)) }
    ensures one { IfOk result (λ p. (state : ℕ) → state < length (valued W.wide_value p.fst).states → IsFinalDistance W.KIND (graph_of (valued W.wide_value p.fst)) state (one_of W.KIND)) }
    ensures paths { IfOk result (λ p. PushesPaths W.KIND (W.wide_value p.total) (valued W.value fst.now) (valued W.wide_value p.fst)) }
    ensures relation { IfOk result (λ p. RelatesBy W.KIND (W.wide_value p.total) (valued W.value fst.now) (valued W.wide_value p.fst)) }
    ensures range { IfOk result (λ p. Within most_distance (W.wide_value p.total)) }
    ensures none { OnOk result (NoneImproves W.KIND (graph_of (valued W.value fst.now)) (IsUseful (graph_of (valued W.value fst.now)))) }
    ensures cycle { IfErr result (λ f. IfImproving f (IsListed W.KIND (graph_of (valued W.value fst.now)) (IsUseful (graph_of (valued W.value fst.now))))) }
    ensures empty { OnOk result (Q.members queue.new ≡ []) }
{
    let _states = fst.states();
    let totalled = push_lazily(alloc, Handed::Lent(fst), queue)?;
    match widened(alloc, &totalled.pushed) {
        Ok(machine) => Ok(Pushed {
            fst: machine,
            total: totalled.total,
        }),
        Err(_) => Err(DistanceFault::Memory),
    }
}
