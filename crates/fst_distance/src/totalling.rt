//! The machine of a pushed one, with its total weight put on its start or removed.

ghost use Rattle.std.specs.Prelude.{◌≡◌, ◌≢◌, ◌<◌, ◌≤◌, ◌+◌, ◌∷◌, ◌++◌, [], true, All, IfErr, IfOk, OnOk, get_or, length, map};
ghost use Rattle.std.specs.Bool.{Decides};
ghost use Rattle.fst_semiring.specs.Cost.{Cost, infinite};
ghost use Rattle.fst_semiring.specs.Semiring.{Within};
ghost use Rattle.fst_semiring.specs.declared.arc_type.ArcType.{ArcType};
ghost use Rattle.fst_machine.specs.Graph.{no_state};
ghost use Rattle.fst_machine.specs.Machine.{Machine, arc_total, most_arcs, most_states, valued, valued_arc, valued_state};
ghost use Rattle.fst_machine.specs.Narrowing.{IsCause, IsInRange};
ghost use Rattle.fst_distance.specs.Totals.{IsAmong, IsPlaced, IsSource, put_on, scaled, scaled_arc};
ghost use Rattle.fst_distance.specs.Values.{most_distance, most_pushed};

use crate::placing::{Place, arc_count, state_count};
use crate::pushing::Pushing;
use fst_machine::{Fst, FstArc, NarrowFault, StateList, WideArc, narrow_state};
use fst_semiring::Weight;
use std::alloc::{AllocError, Global};

/// Fills a list with these arcs, their weights multiplied by a factor.
fn put_scaled<W: Weight>(
    out: &mut Vec<WideArc<W>>,
    arcs: &[WideArc<W>],
    factor: W::Wide,
) -> Result<(), AllocError>
    requires factor { Within most_distance (W.wide_value factor) }
    requires arcs { All (λ a. Within most_pushed (W.wide_value a.weight)) arcs.now }
    ensures { OnOk result (map (valued_arc W.wide_value) out.new.items ≡ map (λ a. scaled_arc W.KIND (W.wide_value factor) (valued_arc W.wide_value a)) arcs.now) }
{
    out.clear();
    for arc in arcs {
        out.push(FstArc {
            ilabel: arc.ilabel,
            olabel: arc.olabel,
            weight: W::wide_times(factor, arc.weight),
            next: arc.next,
        })?;
    }
    Ok(())
}

/// Buffers of arcs.
#[derive(Drop)]
struct Buffers<W: Weight> {
    arcs: Vec<WideArc<W>>,
    scaled: Vec<WideArc<W>>,
    row: Vec<FstArc<W>>,
}

/// Puts a state behind the others, and tells whether its weights are in range; where they are not, it is not put.
fn put_state<W: Weight>(
    list: &mut StateList<W>,
    buffers: &mut Buffers<W>,
    pushed: &Pushing<'_, W>,
    state: u32,
) -> Result<bool, AllocError>
    requires state { state < length pushed.now.states }
    requires room { arc_total list.old + length (get_or pushed.now.states state no_state).arcs ≤ most_arcs }
    ensures fits { IfOk result (λ fits. Decides fits (IsInRange (get_or pushed.now.states state no_state))) }
    ensures list { IfOk result (λ fits. fits ≡ true → map (valued_state W.value) list.new ≡ map (valued_state W.value) list.old ++ get_or pushed.now.states state no_state ∷ []) }
{
    pushed.put_arcs(&mut buffers.arcs, state)?;
    let last = pushed.final_weight(state);
    let fits = narrow_state::<W>(list, &mut buffers.row, last, &buffers.arcs)?;
    Ok(fits)
}

/// Puts a state with its weights multiplied by a factor behind the others, and tells whether its weights are in range;
/// where they are not, it is not put.
fn put_scaled_state<W: Weight>(
    list: &mut StateList<W>,
    buffers: &mut Buffers<W>,
    pushed: &Pushing<'_, W>,
    factor: W::Wide,
    state: u32,
) -> Result<bool, AllocError>
    requires state { state < length pushed.now.states }
    requires factor { Within most_distance (W.wide_value factor) }
    requires room { arc_total list.old + length (get_or pushed.now.states state no_state).arcs ≤ most_arcs }
    ensures fits { IfOk result (λ fits. Decides fits (IsInRange (scaled W.KIND (W.wide_value factor) (get_or pushed.now.states state no_state)))) }
    ensures list { IfOk result (λ fits. fits ≡ true → map (valued_state W.value) list.new ≡ map (valued_state W.value) list.old ++ scaled W.KIND (W.wide_value factor) (get_or pushed.now.states state no_state) ∷ []) }
{
    pushed.put_arcs(&mut buffers.arcs, state)?;
    put_scaled::<W>(&mut buffers.scaled, &buffers.arcs, factor)?;
    let last = W::wide_times(factor, pushed.final_weight(state));
    let fits = narrow_state::<W>(list, &mut buffers.row, last, &buffers.scaled)?;
    Ok(fits)
}

/// The state of the pushed machine that becomes this state of the result with the total as a factor; `None` where it is
/// the same state without a factor.
fn source_of(place: Place, states: u32, state: u32) -> Option<u32>
    ensures { (kind : ArcType) (total : Cost) (m : Machine Cost) → states ≡ length m.states → IsAmong states place → state < length (put_on kind total m place).states → IsSource kind total m place state result }
{
    match place {
        Place::Nowhere => None,
        Place::OnStart { state: start } => { if start == state { Some(start) } else { None } }
        Place::OnCopy { state: start } => { if states == state { Some(start) } else { None } }
    }
}

/// Puts a state of the result behind the others, and tells whether its weights are in range; where they are not, it is
/// not put.
fn put_placed<W: Weight>(
    list: &mut StateList<W>,
    buffers: &mut Buffers<W>,
    pushed: &Pushing<'_, W>,
    total: W::Wide,
    place: Place,
    state: u32,
) -> Result<bool, AllocError>
    requires among { IsAmong (length pushed.now.states) place }
    requires total { Within most_distance (W.wide_value total) }
    requires state { state < length (put_on W.KIND (W.wide_value total) pushed.now place).states }
    requires room { arc_total list.old + length (get_or (put_on W.KIND (W.wide_value total) pushed.now place).states state no_state).arcs ≤ most_arcs }
    ensures fits { IfOk result (λ fits. Decides fits (IsInRange (get_or (put_on W.KIND (W.wide_value total) pushed.now place).states state no_state))) }
    ensures list { IfOk result (λ fits. fits ≡ true → map (valued_state W.value) list.new ≡ map (valued_state W.value) list.old ++ get_or (put_on W.KIND (W.wide_value total) pushed.now place).states state no_state ∷ []) }
{
    match source_of(place, pushed.states(), state) {
        Some(start) => put_scaled_state(list, buffers, pushed, total, start),
        None => put_state(list, buffers, pushed, state),
    }
}

/// The states of the result.
fn placed_states<W: Weight>(
    alloc: Global,
    pushed: &Pushing<'_, W>,
    total: W::Wide,
    place: Place,
) -> Result<StateList<W>, NarrowFault>
    requires among { IsAmong (length pushed.now.states) place }
    requires total { Within most_distance (W.wide_value total) }
    requires few_states { length (put_on W.KIND (W.wide_value total) pushed.now place).states ≤ most_states }
    requires few_arcs { arc_total (put_on W.KIND (W.wide_value total) pushed.now place).states ≤ most_arcs }
    ensures states { IfOk result (λ list. map (valued_state W.value) list ≡ (put_on W.KIND (W.wide_value total) pushed.now place).states) }
    ensures fits { OnOk result (All IsInRange (put_on W.KIND (W.wide_value total) pushed.now place).states) }
    ensures fault { IfErr result (IsCause (put_on W.KIND (W.wide_value total) pushed.now place)) }
{
    let count = state_count(pushed, place) as u32;
    let arcs = arc_count(pushed, place);
    let mut list = StateList::with_capacity(alloc, count as usize, arcs)?;
    let mut buffers = Buffers {
        arcs: Vec::new(alloc),
        scaled: Vec::new(alloc),
        row: Vec::new(alloc),
    };
    for state in 0..count {
        if !put_placed(&mut list, &mut buffers, pushed, total, place, state)? {
            return Err(NarrowFault::Overflow { state });
        }
    }
    Ok(list)
}

/// The start of the result.
fn placed_start<W: Weight>(pushed: &Pushing<'_, W>, place: Place) -> Option<u32>
    ensures { (total : Cost) → result ≡ (put_on W.KIND total pushed.now place).start }
{
    match place {
        Place::Nowhere => pushed.start(),
        Place::OnStart { state: _ } => pushed.start(),
        Place::OnCopy { state: _ } => Some(pushed.states()),
    }
}

/// The machine with the total there.
pub(crate) fn with_total<W: Weight>(
    alloc: Global,
    pushed: &Pushing<'_, W>,
    total: W::Wide,
    place: Place,
) -> Result<Fst<W>, NarrowFault>
    requires among { IsAmong (length pushed.now.states) place }
    requires total { Within most_distance (W.wide_value total) }
    requires some { IsPlaced place → W.wide_value total ≢ infinite }
    requires few_states { length (put_on W.KIND (W.wide_value total) pushed.now place).states ≤ most_states }
    requires few_arcs { arc_total (put_on W.KIND (W.wide_value total) pushed.now place).states ≤ most_arcs }
    ensures machine { IfOk result (λ m. valued W.value m ≡ put_on W.KIND (W.wide_value total) pushed.now place) }
    ensures fits { OnOk result (All IsInRange (put_on W.KIND (W.wide_value total) pushed.now place).states) }
    ensures fault { IfErr result (IsCause (put_on W.KIND (W.wide_value total) pushed.now place)) }
{
    let _states = pushed.states();
    match placed_states(alloc, pushed, total, place) {
        Ok(list) => Ok(list.into_machine(placed_start(pushed, place))),
        Err(fault) => Err(fault),
    }
}
