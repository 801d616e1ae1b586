//! Decoding.

ghost use Rattle.std.specs.Prelude.{◌≡◌, ◌≤◌, All, Err, None, MatchOption, OnOk, length, map};
ghost use Rattle.std.specs.Result.{result_map_both};
ghost use Rattle.fst_semiring.specs.Semiring.{InRange};
ghost use Rattle.fst_machine.specs.Machine.{IsMachine, most_arcs, valued, valued_arc};
ghost use Rattle.fst_trim.specs.FirstArcs.{HasTwoLabels, IsFirstArc, IsFirstPlace, Meets};
ghost use Rattle.fst_codex.specs.Decoded.{Decodes, HasLabel, IsOutside, decoded_arc, joined_weight};
ghost use Rattle.fst_codex.specs.Parts.{DecodesArcs, DecodesStates};
ghost use Rattle.fst_codex.specs.Table.{IsTable, valued_table};

use crate::codex::Codex;
use fst_machine::{Fst, FstArc, Rewriting, StateList, Step};
use fst_semiring::Weight;
use fst_trim::not_acceptor_at;
use std::alloc::{AllocError, Global};
use std::fmt;

/// Why a machine is not decoded. The first of these that holds is given, and of each the first arc by state, then
/// place.
#[derive(Clone, Copy, Debug, PartialEq, Eq)]
pub enum DecodeFault {
    /// An arc has two different labels.
    NotAcceptor {
        /// The state that it leaves.
        state: u32,
        /// Its place among the arcs of the state, from 0.
        place: u32,
    },
    /// A label passes the number of entries.
    NotInCodex {
        /// The label.
        label: u32,
    },
    /// A number of a decoded weight has absolute value above 10 to the 18.
    Overflow {
        /// The state that the arc leaves.
        state: u32,
    },
    /// There is no memory.
    Memory,
}

/// Says why, as `label 5 is not in the codex`.
impl fmt::Display for DecodeFault {
    ghost use Rattle.std.specs.Prelude.{Some};
    ghost use Rattle.fst_codex.specs.Faults.{decode_text};

    ghost output = { λ fault. Some (decode_text fault) };

    fn fmt<W: fmt::Write>(&self, f: &mut fmt::Formatter<W>) -> fmt::Result {
        match *self {
            DecodeFault::NotAcceptor { state, place } => {
                write!(f, "not an acceptor at state {state} arc {place}")
            }
            DecodeFault::NotInCodex { label } => write!(f, "label {label} is not in the codex"),
            DecodeFault::Overflow { state } => write!(f, "number too large at state {state}"),
            DecodeFault::Memory => f.write_str("out of memory"),
        }
    }
}

impl From<AllocError> for DecodeFault {
    ghost use Rattle.std.specs.Prelude.{◌≡◌};
    ghost use Rattle.fst_codex.specs.declared.decoding.DecodeFault.TheVariants as faults;

    ghost from_gives = { λ _ e. e ≡ faults.Memory };

    fn from(_e: AllocError) -> DecodeFault {
        DecodeFault::Memory
    }
}

/// The first of the arcs of a state with a label past the numbers that there are.
fn outside_in<W>(arcs: &[FstArc<W>], numbers: u32) -> Option<u32>
    requires few { length arcs.now ≤ most_arcs }
    ensures { IsFirstPlace (IsOutside numbers) arcs.now result }
{
    for (place, arc) in arcs.iter().enumerate() {
        if numbers < arc.ilabel {
            return Some(place as u32);
        }
    }
    None
}

/// The first arc with a label past the numbers that there are.
fn outside_at<W: Weight>(fst: &Fst<W>, numbers: u32) -> Option<Step>
    ensures { IsFirstArc (IsOutside numbers) fst.now result }
{
    for state in 0..fst.states() {
        if let Some(place) = outside_in(fst.arcs(state), numbers) {
            return Some(Step { state, place });
        }
    }
    None
}

/// The label of an arc that is there.
fn label_at<W: Weight>(fst: &Fst<W>, step: Step, numbers: u32) -> u32
    requires { Meets (IsOutside numbers) fst.now step.state step.place }
    ensures { Meets (HasLabel result) fst.now step.state step.place }
{
    let arcs = fst.arcs(step.state);
    let arc = &arcs[step.place as usize];
    arc.ilabel
}

/// The weight of an arc with that of its entry, where numbers stand for weights too, unless a number of it is out
/// of range.
fn joined<W: Weight>(weights: bool, own: W, weight: W) -> Option<W>
    ensures { MatchOption result (InRange (joined_weight W.KIND weights (W.value own) (W.value weight)) → ⊥) (λ w. (W.value w ≡ joined_weight W.KIND weights (W.value own) (W.value weight)) × InRange (W.value w)) }
{
    if !weights {
        // The wide form says that the weight of an arc is in range.
        let _ = own.widen();
        return Some(own);
    }
    W::narrow(own.times(weight))
}

/// What an arc stands for, unless a number of its weight is out of range.
fn decode_arc<W: Weight>(codex: &Codex<W>, arc: FstArc<W>) -> Option<FstArc<W>>
    requires { arc.ilabel ≤ length codex.now.entries }
    ensures { MatchOption result (InRange (decoded_arc W.KIND (valued_table W.value codex.now) (valued_arc W.value arc)).weight → ⊥) (λ d. (valued_arc W.value d ≡ decoded_arc W.KIND (valued_table W.value codex.now) (valued_arc W.value arc)) × InRange (W.value d.weight)) }
{
    if arc.ilabel == 0 {
        // The wide form says that the weight of an arc is in range.
        let _ = arc.weight.widen();
        return Some(arc);
    }
    let entry = codex.entries()[arc.ilabel as usize - 1];
    let Some(weight) = joined(codex.weights(), arc.weight, entry.weight) else {
        return None;
    };
    Some(FstArc {
        ilabel: entry.ilabel,
        olabel: entry.olabel,
        weight,
        next: arc.next,
    })
}

/// Puts what the arcs of a state stand for in place of the arcs of a list.
fn decode_arcs<W: Weight>(
    out: &mut Vec<FstArc<W>>,
    codex: &Codex<W>,
    state: u32,
    arcs: &[FstArc<W>],
) -> Result<(), DecodeFault>
    requires { All (λ a. a.ilabel ≤ length codex.now.entries) arcs.now }
    ensures { DecodesArcs W.KIND W.value (valued_table W.value codex.now) state arcs.now out.new.items result }
{
    out.clear();
    for arc in arcs {
        let Some(decoded) = decode_arc(codex, *arc) else {
            return Err(DecodeFault::Overflow { state });
        };
        let Ok(()) = out.push(decoded) else {
            return Err(DecodeFault::Memory);
        };
    }
    Ok(())
}

/// What the states of a machine stand for, and with it what holds of the machine.
fn decode_states<W: Weight>(
    alloc: Global,
    fst: &Fst<W>,
    codex: &Codex<W>,
) -> Result<StateList<W>, DecodeFault>
    requires { IsFirstArc (IsOutside (length codex.now.entries)) fst.now None }
    ensures decoded { DecodesStates W.KIND W.value (valued_table W.value codex.now) fst.now result }
    ensures operand { OnOk result (IsMachine W.value fst.now) }
{
    let mut states = StateList::with_capacity(
        alloc,
        fst.states() as usize,
        fst.arc_count() as usize,
    )?;
    let mut own = Vec::new(alloc);
    for state in 0..fst.states() {
        let last = fst.final_weight(state);
        match decode_arcs(&mut own, codex, state, fst.arcs(state)) {
            Ok(()) => {}
            Err(fault) => return Err(fault),
        }
        states.push(last, own.as_slice())?;
    }
    Ok(states)
}

/// Puts what the states of a machine stand for where they stand.
fn decode_in_place<W: Weight>(
    alloc: Global,
    machine: &mut Rewriting<W>,
    codex: &Codex<W>,
) -> Result<(), DecodeFault>
    requires inside { IsFirstArc (IsOutside (length codex.now.entries)) machine.old None }
    requires table { IsTable W.KIND W.value codex.now }
    ensures decoded { DecodesStates W.KIND W.value (valued_table W.value codex.now) machine.old (result_map_both (λ done. machine.new.states) (λ e. e) result) }
    ensures start { machine.new.start ≡ machine.old.start }
{
    let mut own = Vec::new(alloc);
    for state in 0..machine.states() {
        match decode_arcs(&mut own, codex, state, machine.arcs(state)) {
            Ok(()) => {}
            Err(fault) => return Err(fault),
        }
        machine.replace_arcs(state, own.as_slice());
    }
    Ok(())
}

/// Why a machine is not decoded, before the weights of its arcs are looked at.
fn label_fault<W: Weight>(fst: &Fst<W>, codex: &Codex<W>) -> Option<DecodeFault>
    ensures fault { MatchOption result (IsFirstArc HasTwoLabels fst.now None × IsFirstArc (IsOutside (length codex.now.entries)) fst.now None) (λ fault. (fault ≡ DecodeFault.Memory → ⊥) × Decodes W.KIND W.value fst.now (valued_table W.value codex.now) (Err fault)) }
    ensures table { IsTable W.KIND W.value codex.now }
{
    let numbers = codex.entries().len() as u32;
    if let Some(step) = not_acceptor_at(fst) {
        return Some(DecodeFault::NotAcceptor {
            state: step.state,
            place: step.place,
        });
    }
    if let Some(step) = outside_at(fst, numbers) {
        let label = label_at(fst, step, numbers);
        return Some(DecodeFault::NotInCodex { label });
    }
    None
}

/// The machine that a machine and a codex stand for. (OpenFst manual, "Encode": decoding.) An arc with label 0
/// stays. Any other gets the labels of the entry of its number, counted from 1; where numbers stand for weights
/// too, it gets its own weight times that of the entry. Final weights stay.
///
/// Time: linear in the states and the arcs. Space: the result.
pub fn decode_labels<W: Weight>(
    alloc: Global,
    fst: &Fst<W>,
    codex: &Codex<W>,
) -> Result<Fst<W>, DecodeFault>
    ensures { Decodes W.KIND W.value fst.now (valued_table W.value codex.now) (result_map_both (λ d. valued W.value d) (λ e. e) result) }
{
    if let Some(fault) = label_fault(fst, codex) {
        return Err(fault);
    }
    match decode_states(alloc, fst, codex) {
        Ok(states) => Ok(states.into_machine(fst.start())),
        Err(fault) => Err(fault),
    }
}

/// What a machine of which no label is wrong stands for, where it stands.
fn decode_given<W: Weight>(
    alloc: Global,
    machine: Rewriting<W>,
    codex: &Codex<W>,
) -> Result<Fst<W>, DecodeFault>
    requires two { IsFirstArc HasTwoLabels machine None }
    requires inside { IsFirstArc (IsOutside (length codex.now.entries)) machine None }
    requires table { IsTable W.KIND W.value codex.now }
    ensures { Decodes W.KIND W.value machine (valued_table W.value codex.now) (result_map_both (λ d. valued W.value d) (λ e. e) result) }
{
    let mut machine = machine;
    match decode_in_place(alloc, &mut machine, codex) {
        Ok(()) => Ok(machine.into_machine()),
        Err(fault) => Err(fault),
    }
}

/// What a machine that is given away stands for, as `decode_labels` makes it. Its arcs are changed where they stand,
/// where those of its states stand side by side.
///
/// Time: linear in the states and the arcs. Space: linear in the arcs of one state, or as `decode_labels`.
pub fn into_decoded<W: Weight>(
    alloc: Global,
    fst: Fst<W>,
    codex: &Codex<W>,
) -> Result<Fst<W>, DecodeFault>
    ensures { Decodes W.KIND W.value fst (valued_table W.value codex.now) (result_map_both (λ d. valued W.value d) (λ e. e) result) }
{
    if let Some(fault) = label_fault(&fst, codex) {
        return Err(fault);
    }
    match fst.rewrite() {
        Ok(machine) => decode_given(alloc, machine, codex),
        Err(fst) => decode_labels(alloc, &fst, codex),
    }
}
