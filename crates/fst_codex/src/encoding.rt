//! Encoding.

ghost use Rattle.std.specs.Prelude.{◌≡◌, ◌≤◌, ◌+◌, [], All, IfOk, OnOk, Result, length, map};
ghost use Rattle.fst_semiring.specs.Cost.{Cost};
ghost use Rattle.fst_machine.specs.Machine.{IsArc, Machine, most_states, valued, valued_arc, valued_state};
ghost use Rattle.fst_codex.specs.Coding.{PutsArcs, PutsStates};
ghost use Rattle.fst_codex.specs.declared.decoding.DecodeFault.{DecodeFault};
ghost use Rattle.fst_codex.specs.Decoded.{Decodes, GivesBack};
ghost use Rattle.fst_codex.specs.Encoded.{IsEncoded};
ghost use Rattle.fst_codex.specs.Table.{most_entries, valued_table};

use crate::coder::Coder;
use crate::codex::Codex;
use fst_machine::{Fst, FstArc, Rewriting, StateList};
use fst_semiring::Weight;
use std::alloc::{AllocError, Global};

/// Puts the arcs with the numbers of their entries in place of those of a list.
fn put_arcs<W: Weight>(
    out: &mut Vec<FstArc<W>>,
    coder: &mut Coder<W>,
    arcs: &[FstArc<W>],
) -> Result<(), AllocError>
    requires good { All (IsArc W.value most_states) arcs.now }
    requires room { length coder.old.entries + length arcs.now ≤ most_entries }
    ensures put { OnOk result (PutsArcs W.KIND coder.old.weights (map (valued_arc W.value) arcs.now) (valued_table W.value coder.old) (valued_table W.value coder.new) (map (valued_arc W.value) out.new.items)) }
    ensures few { OnOk result (length coder.new.entries ≤ length coder.old.entries + length arcs.now) }
{
    out.clear();
    for arc in arcs {
        out.push(coder.encode(*arc)?)?;
    }
    Ok(())
}

/// Puts the states of a machine with the numbers of their entries after the others.
fn put_states<W: Weight>(
    alloc: Global,
    states: &mut StateList<W>,
    coder: &mut Coder<W>,
    fst: &Fst<W>,
) -> Result<(), AllocError>
    requires none { states.old ≡ [] }
    requires room { coder.old.entries ≡ [] }
    ensures put { OnOk result (PutsStates W.KIND coder.old.weights (map (valued_state W.value) fst.now.states) (valued_table W.value coder.old) (valued_table W.value coder.new) (map (valued_state W.value) states.new)) }
    ensures few { OnOk result (length coder.new.entries ≤ most_entries) }
{
    let mut own = Vec::new(alloc);
    for state in 0..fst.states() {
        let last = fst.final_weight(state);
        put_arcs(&mut own, coder, fst.arcs(state))?;
        states.push(last, own.as_slice())?;
    }
    Ok(())
}

/// The machine whose arcs have the numbers of their entries, counted from 1, on both sides, and the codex of
/// these. (OpenFst manual, "Encode".) The entries are the different labels of the arcs, with `weights` the
/// different labels and weights, in the order in which they first appear by state and place. With `weights` each
/// arc has the weight One, and else it keeps its own; final weights stay.
///
/// Decoding what this gives is the machine that went in.
///
/// Time: linear in the states and the arcs; an entry is found by a hash, and where another has it, by a search.
/// Space: the result.
pub fn encode_labels<W: Weight>(
    alloc: Global,
    fst: &Fst<W>,
    weights: bool,
) -> Result<(Fst<W>, Codex<W>), AllocError>
    ensures encoded { IfOk result (λ r. IsEncoded W.KIND weights (valued W.value fst.now) (valued W.value r.0) (valued_table W.value r.1)) }
    // Whatever decoding gives of it, it is the machine again, or memory ran out.
    ensures again { IfOk result (λ r. (back : Result (Machine Cost) DecodeFault) → Decodes W.KIND W.value r.0 (valued_table W.value r.1) back → GivesBack (valued W.value fst.now) back) }
{
    let arcs = fst.arc_count() as usize;
    let mut coder = Coder::for_arcs(alloc, arcs, weights)?;
    let mut states = StateList::with_capacity(alloc, fst.states() as usize, arcs)?;
    put_states(alloc, &mut states, &mut coder, fst)?;
    Ok((states.into_machine(fst.start()), coder.into_codex()))
}

/// Puts the arcs with the numbers of their entries where those of the machine stand.
fn put_in_place<W: Weight>(
    alloc: Global,
    machine: &mut Rewriting<W>,
    coder: &mut Coder<W>,
) -> Result<(), AllocError>
    requires room { coder.old.entries ≡ [] }
    ensures put { OnOk result (PutsStates W.KIND coder.old.weights (map (valued_state W.value) machine.old.states) (valued_table W.value coder.old) (valued_table W.value coder.new) (map (valued_state W.value) machine.new.states)) }
    ensures few { OnOk result (length coder.new.entries ≤ most_entries) }
    ensures start { OnOk result (machine.new.start ≡ machine.old.start) }
{
    let mut own = Vec::new(alloc);
    for state in 0..machine.states() {
        put_arcs(&mut own, coder, machine.arcs(state))?;
        machine.replace_arcs(state, own.as_slice());
    }
    Ok(())
}

/// Encoding of a machine of so many arcs, which are changed where they stand.
fn encode_in_place<W: Weight>(
    alloc: Global,
    machine: Rewriting<W>,
    arcs: usize,
    weights: bool,
) -> Result<(Fst<W>, Codex<W>), AllocError>
    ensures encoded { IfOk result (λ r. IsEncoded W.KIND weights (valued W.value machine) (valued W.value r.0) (valued_table W.value r.1)) }
    ensures again { IfOk result (λ r. (back : Result (Machine Cost) DecodeFault) → Decodes W.KIND W.value r.0 (valued_table W.value r.1) back → GivesBack (valued W.value machine) back) }
{
    let mut machine = machine;
    let mut coder = Coder::for_arcs(alloc, arcs, weights)?;
    put_in_place(alloc, &mut machine, &mut coder)?;
    Ok((machine.into_machine(), coder.into_codex()))
}

/// The encoding of a machine that is given away, as `encode_labels` makes it. Its arcs are changed where they stand,
/// where those of its states stand side by side.
///
/// Time: as `encode_labels`. Space: the entries and the arcs of one state, or as `encode_labels`.
pub fn into_encoded<W: Weight>(
    alloc: Global,
    fst: Fst<W>,
    weights: bool,
) -> Result<(Fst<W>, Codex<W>), AllocError>
    ensures encoded { IfOk result (λ r. IsEncoded W.KIND weights (valued W.value fst) (valued W.value r.0) (valued_table W.value r.1)) }
    // Whatever decoding gives of it, it is the machine again, or memory ran out.
    ensures again { IfOk result (λ r. (back : Result (Machine Cost) DecodeFault) → Decodes W.KIND W.value r.0 (valued_table W.value r.1) back → GivesBack (valued W.value fst) back) }
{
    let arcs = fst.arc_count() as usize;
    match fst.rewrite() {
        Ok(machine) => encode_in_place(alloc, machine, arcs, weights),
        Err(fst) => encode_labels(alloc, &fst, weights),
    }
}
