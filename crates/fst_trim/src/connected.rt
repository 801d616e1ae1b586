//! The machine with its useful states alone.

ghost use Rattle.std.specs.Prelude.{◌≡◌, ◌<◌, ◌≤◌, ◌↔◌, ◌++◌, ℕ, All, [], true, false, length, get_or, List, IfSome, IfOk, OnOk};
ghost use Rattle.std.specs.Bool.{Decides};
ghost use Rattle.fst_semiring.specs.Cost.{Cost};
ghost use Rattle.fst_machine.specs.Connected.{IsConnected, IsTrim};
ghost use Rattle.fst_machine.specs.Cycles.{IsAccessible, IsUseful};
ghost use Rattle.fst_machine.specs.Graph.{graph_of};
ghost use Rattle.fst_machine.specs.Machine.{IsMachine, valued};
ghost use Rattle.fst_machine.specs.Relation.{Rel};
ghost use Rattle.fst_trim.specs.KeptPaths.{IsConnectedOn, KeepsPaths};
ghost use Rattle.fst_trim.specs.Handed.{machine_of};
ghost use Rattle.fst_machine.specs.Renumbered.{IsNumbering, marked_arcs, marked_machine, marked_states, marked, new_start};

use crate::useful::{coaccessible, useful};
use fst_machine::{Fst, FstArc, StateList};
use fst_semiring::Weight;
use std::alloc::{AllocError, Global};

/// For each place how many places before it are marked.
fn numbers_of(alloc: Global, marks: &[bool]) -> Result<Vec<u32>, AllocError>
    requires { length marks.now ≤ 4294967295 }
    ensures { IfOk result (λ numbers. IsNumbering marks.now numbers.items) }
{
    let mut numbers = Vec::with_capacity(alloc, marks.len())?;
    let mut count = 0u32;
    for mark in marks {
        numbers.push(count)?;
        count += u32::from(*mark);
    }
    Ok(numbers)
}

/// Puts after the others those arcs that lead to marked states, by the numbers of these.
fn keep_arcs<W: Copy>(
    kept: &mut Vec<FstArc<W>>,
    arcs: &[FstArc<W>],
    marks: &[bool],
    numbers: &[u32],
) -> Result<(), AllocError>
    requires marks { All (λ a. a.next < length marks.now) arcs.now }
    requires numbers { length numbers.now ≡ length marks.now }
    ensures { OnOk result (kept.new.items ≡ kept.old.items ++ marked_arcs marks.now numbers.now arcs.now) }
{
    for arc in arcs {
        let next = arc.next as usize;
        if !marks[next] {
            continue;
        }
        kept.push(FstArc {
            ilabel: arc.ilabel,
            olabel: arc.olabel,
            weight: arc.weight,
            next: numbers[next],
        })?;
    }
    Ok(())
}

/// The marked states with the arcs between them.
fn keep_states<W: Weight>(
    alloc: Global,
    fst: &Fst<W>,
    marks: &[bool],
    numbers: &[u32],
) -> Result<StateList<W>, AllocError>
    requires marks { length marks.now ≡ length fst.now.states }
    requires numbers { length numbers.now ≡ length marks.now }
    ensures { IfOk result (λ states. states ≡ marked_states marks.now numbers.now 0 fst.now.states) }
{
    let mut states = StateList::with_capacity(alloc, marks.len(), fst.arc_count() as usize)?;
    let mut kept = Vec::new(alloc);
    for state in 0..fst.states() {
        if !marks[state as usize] {
            continue;
        }
        kept.clear();
        keep_arcs(&mut kept, fst.arcs(state), marks, numbers)?;
        states.push(fst.final_weight(state), kept.as_slice())?;
    }
    Ok(states)
}

/// The number of the start, if it is marked.
fn number_of_start(start: Option<u32>, marks: &[bool], numbers: &[u32]) -> Option<u32>
    requires start { IfSome start (λ s. s < length marks.now) }
    requires numbers { length numbers.now ≡ length marks.now }
    ensures { result ≡ new_start marks.now numbers.now start }
{
    let Some(start) = start else {
        return None;
    };
    if !marks[start as usize] {
        return None;
    }
    Some(numbers[start as usize])
}

/// The places of the marks, in order.
fn list_marked(alloc: Global, marks: &[bool]) -> Result<Vec<u32>, AllocError>
    requires { length marks.now ≤ 4294967295 }
    ensures { IfOk result (λ kept. kept.items ≡ marked 0 marks.now) }
{
    let mut kept = Vec::new(alloc);
    for (place, mark) in marks.iter().enumerate() {
        if *mark {
            kept.push(place as u32)?;
        }
    }
    Ok(kept)
}

/// A machine that was handed over: lent, or given away.
#[derive(Drop)]
pub enum Handed<'a, W: Weight> {
    /// One that is lent.
    Lent(&'a Fst<W>),
    /// One that was given away.
    Own(Fst<W>),
}

impl<'a, W: Weight> Handed<'a, W> {
    /// The machine. Takes no memory.
    pub fn fst(&self) -> &Fst<W>
        ensures { result.now ≡ machine_of self.now }
    {
        match self {
            Handed::Lent(fst) => fst,
            Handed::Own(fst) => fst,
        }
    }
}

/// A connected machine, and which states of the given one it has.
#[derive(Drop)]
pub struct Connected<'a, W: Weight> {
    /// The machine.
    pub machine: Handed<'a, W>,
    /// The states of the given machine that were kept, in order: state i of the machine is the i-th of these.
    pub kept: Vec<u32>,
}

/// Whether all of these are marked.
fn all_marked(marks: &[bool]) -> bool
    ensures { Decides result (All (λ mark. mark ≡ true) marks.now) }
{
    for mark in marks {
        if !*mark {
            return false;
        }
    }
    true
}

/// The machine of the marked states, where just the useful ones are marked.
fn connect_marked<W: Weight>(
    alloc: Global,
    a: &Fst<W>,
    marks: &[bool],
) -> Result<Fst<W>, AllocError>
    requires size { length marks.now ≡ length a.now.states }
    requires useful { (p : ℕ) → Decides (get_or marks.now p false) (IsUseful (graph_of (valued W.value a.now)) p) }
    ensures { IfOk result (λ c. IsConnectedOn (valued W.value a.now) (valued W.value c) (marked 0 marks.now)) }
{
    let _states = a.states();
    let numbers = numbers_of(alloc, marks)?;
    let states = keep_states(alloc, a, marks, numbers.as_slice())?;
    let start = number_of_start(a.start(), marks, numbers.as_slice());
    Ok(states.into_machine(start))
}

/// The marked states of a machine that is given away, with the arcs between them: in place where they stand side by side.
fn retain_states<W: Weight>(
    alloc: Global,
    a: Fst<W>,
    marks: &[bool],
    numbers: &[u32],
) -> Result<StateList<W>, AllocError>
    requires marks { length marks.now ≡ length a.states }
    requires numbers { length numbers.now ≡ length marks.now }
    ensures { IfOk result (λ states. states ≡ marked_states marks.now numbers.now 0 a.states) }
{
    match a.retain(marks, numbers)? {
        Ok(states) => Ok(states),
        Err(a) => keep_states(alloc, &a, marks, numbers),
    }
}

/// The machine of the marked states, as `connect_marked` makes it, of a machine that is given away.
fn retain_marked<W: Weight>(alloc: Global, a: Fst<W>, marks: &[bool]) -> Result<Fst<W>, AllocError>
    requires size { length marks.now ≡ length a.states }
    requires useful { (p : ℕ) → Decides (get_or marks.now p false) (IsUseful (graph_of (valued W.value a)) p) }
    ensures { IfOk result (λ c. IsConnectedOn (valued W.value a) (valued W.value c) (marked 0 marks.now)) }
{
    let _states = a.states();
    let numbers = numbers_of(alloc, marks)?;
    let start = number_of_start(a.start(), marks, numbers.as_slice());
    let states = retain_states(alloc, a, marks, numbers.as_slice())?;
    Ok(states.into_machine(start))
}

/// The connected machine of one that is given away, whose useful states just are marked: that machine itself where all are.
fn retain_useful<W: Weight>(alloc: Global, a: Fst<W>, marks: &[bool]) -> Result<Fst<W>, AllocError>
    requires size { length marks.now ≡ length a.states }
    requires useful { (p : ℕ) → Decides (get_or marks.now p false) (IsUseful (graph_of (valued W.value a)) p) }
    ensures machine { IfOk result (λ c. IsConnected (valued W.value a) (valued W.value c)) }
    ensures paths { IfOk result (λ c. (h : IsConnected (valued W.value a) (valued W.value c)) → KeepsPaths W.KIND (valued W.value a) (valued W.value c) h.kept) }
    ensures relation { IfOk result (λ c. (x y : List ℕ) (w : Cost) → Rel W.KIND (graph_of (valued W.value a)) x y w ↔ Rel W.KIND (graph_of (valued W.value c)) x y w) }
{
    let _states = a.states();
    if all_marked(marks) {
        return Ok(a);
    }
    let connected = retain_marked(alloc, a, marks)?;
    Ok(connected)
}

/// The machine of the marked states, as `connect_marked` makes it; the given machine itself where all are marked. One that
/// was given away is changed in place.
fn trim_marked<'a, W: Weight>(
    alloc: Global,
    a: Handed<'a, W>,
    marks: &[bool],
) -> Result<Handed<'a, W>, AllocError>
    requires size { length marks.now ≡ length (machine_of a).states }
    requires useful { (p : ℕ) → Decides (get_or marks.now p false) (IsUseful (graph_of (valued W.value (machine_of a))) p) }
    ensures { IfOk result (λ c. IsConnectedOn (valued W.value (machine_of a.entry)) (valued W.value (machine_of c)) (marked 0 marks.now)) }
{
    let _states = a.fst().states();
    if all_marked(marks) {
        return Ok(a);
    }
    match a {
        Handed::Lent(fst) => {
            let own = connect_marked(alloc, fst, marks)?;
            Ok(Handed::Own(own))
        }
        Handed::Own(fst) => {
            let own = retain_marked(alloc, fst, marks)?;
            Ok(Handed::Own(own))
        }
    }
}

/// The connected machine, as `connect` gives it, with the list of the states that were kept. So a path of the
/// connected machine can be told in the states and places of the given one: state i is the i-th kept state, and its
/// arcs are the arcs between kept states, in their order (`IsKeptAt` says of each which it is). Where all states are
/// useful it is the given machine itself, and nothing is copied; where not, a machine that was given away is changed in place.
///
/// Time and space: as `connect`.
pub fn connect_kept<'a, W: Weight>(
    alloc: Global,
    a: Handed<'a, W>,
) -> Result<Connected<'a, W>, AllocError>
    ensures machine { IfOk result (λ c. IsConnectedOn (valued W.value (machine_of a.entry)) (valued W.value (machine_of c.machine)) c.kept.items) }
    ensures paths { IfOk result (λ c. KeepsPaths W.KIND (valued W.value (machine_of a.entry)) (valued W.value (machine_of c.machine)) c.kept.items) }
    ensures relation { IfOk result (λ c. (x y : List ℕ) (w : Cost) → Rel W.KIND (graph_of (valued W.value (machine_of a.entry))) x y w ↔ Rel W.KIND (graph_of (valued W.value (machine_of c.machine))) x y w) }
{
    let _states = a.fst().states();
    let marks = useful(alloc, a.fst())?;
    let machine = trim_marked(alloc, a, marks.as_slice())?;
    let kept = list_marked(alloc, marks.as_slice())?;
    Ok(Connected { machine, kept })
}

/// The machine with just the states of `a` that some successful path meets, in their order, and the arcs between
/// them in order. The start stays where it is one of them; where no state stays, there is no start. (OpenFst
/// manual, "Connect".)
///
/// The successful paths are those of `a`, one to one, up to the numbers of the states and the places of the arcs, so
/// both relate the same.
///
/// Time and space: linear in the states and the arcs, on any depth of the machine.
pub fn connect<W: Weight>(alloc: Global, a: &Fst<W>) -> Result<Fst<W>, AllocError>
    ensures machine { IfOk result (λ c. IsConnected (valued W.value a.now) (valued W.value c)) }
    ensures paths { IfOk result (λ c. (h : IsConnected (valued W.value a.now) (valued W.value c)) → KeepsPaths W.KIND (valued W.value a.now) (valued W.value c) h.kept) }
    ensures relation { IfOk result (λ c. (x y : List ℕ) (w : Cost) → Rel W.KIND (graph_of (valued W.value a.now)) x y w ↔ Rel W.KIND (graph_of (valued W.value c)) x y w) }
{
    let marks = useful(alloc, a)?;
    let connected = connect_marked(alloc, a, marks.as_slice())?;
    Ok(connected)
}

/// The connected machine, as `connect` gives it, of a machine that is given away: a machine all of whose states are useful
/// is given back as it is, and one whose states stand side by side is changed in place.
///
/// Time and space: as `connect`.
pub fn into_connected<W: Weight>(alloc: Global, a: Fst<W>) -> Result<Fst<W>, AllocError>
    ensures machine { IfOk result (λ c. IsConnected (valued W.value a) (valued W.value c)) }
    ensures paths { IfOk result (λ c. (h : IsConnected (valued W.value a) (valued W.value c)) → KeepsPaths W.KIND (valued W.value a) (valued W.value c) h.kept) }
    ensures relation { IfOk result (λ c. (x y : List ℕ) (w : Cost) → Rel W.KIND (graph_of (valued W.value a)) x y w ↔ Rel W.KIND (graph_of (valued W.value c)) x y w) }
{
    let marks = useful(alloc, &a)?;
    retain_useful(alloc, a, marks.as_slice())
}

/// The connected machine, as `connect` gives it, of a machine that is given away and all of whose states the start reaches, as
/// those of a machine that a walk has made: what the start reaches is not looked for.
///
/// Time and space: as `connect`.
pub fn connect_walked<W: Weight>(alloc: Global, a: Fst<W>) -> Result<Fst<W>, AllocError>
    requires accessible { (p : ℕ) → p < length a.states → IsAccessible (graph_of (valued W.value a)) p }
    ensures machine { IfOk result (λ c. IsConnected (valued W.value a) (valued W.value c)) }
    ensures paths { IfOk result (λ c. (h : IsConnected (valued W.value a) (valued W.value c)) → KeepsPaths W.KIND (valued W.value a) (valued W.value c) h.kept) }
    ensures relation { IfOk result (λ c. (x y : List ℕ) (w : Cost) → Rel W.KIND (graph_of (valued W.value a)) x y w ↔ Rel W.KIND (graph_of (valued W.value c)) x y w) }
{
    // A state that the start reaches is useful where a path leads from it to a final one.
    let marks = coaccessible(alloc, &a)?;
    retain_useful(alloc, a, marks.as_slice())
}
