//! Which states lie on paths from the start, and on paths to final states.

ghost use Rattle.std.specs.Prelude.{◌≡◌, ◌≢◌, ◌<◌, ◌≤◌, ◌&&◌, ℕ, List, [], All, true, false, length, get_or, IfOk, OnOk};
ghost use Rattle.std.specs.Bool.{Decides};
ghost use Rattle.fst_semiring.specs.Cost.{infinite};
ghost use Rattle.fst_machine.specs.BreadthFirst.{Apart, Grows, Has, IsWalked};
ghost use Rattle.fst_machine.specs.Cycles.{IsAccessible, IsCoaccessible, IsUseful};
ghost use Rattle.fst_machine.specs.Graph.{graph_of};
ghost use Rattle.fst_machine.specs.Machine.{valued};
ghost use Rattle.fst_machine.specs.Marks.{Marks};
ghost use Rattle.fst_trim.specs.Back.{IsClosedBack, IsWalkingBack, LeadsTo};
ghost use Rattle.fst_trim.specs.Finals.{FoundFinals};

use crate::as_machine::AsMachine;
use crate::sources::sources_of;
use crate::targets::targets_of;
use fst_machine::{Fst, FstArc, find};
use fst_semiring::Weight;
use std::alloc::{AllocError, Global};

/// How many times all states are looked at before the sources of arcs are listed, which takes memory for each arc.
const SWEEPS: u32 = 4;

/// Whether a state with this weight is final.
pub(crate) fn is_final<W: Weight>(weight: W) -> bool
    ensures { Decides result (W.value weight ≢ infinite) }
{
    W::key(weight.widen()).class != 2
}

/// Adds each of these states, if it is not among those that were found.
fn find_each(names: &mut Vec<u32>, seen: &mut Vec<bool>, states: &[u32]) -> Result<(), AllocError>
    requires marks { Marks seen.old.items names.old.items }
    requires within { All (λ state. state < length seen.old.items) states.now }
    ensures grows { OnOk result (Grows names.old.items states.now names.new.items) }
    ensures marks { OnOk result (Marks seen.new.items names.new.items) }
    ensures size { length seen.new.items ≡ length seen.old.items }
{
    for state in states {
        find(names, seen, *state)?;
    }
    Ok(())
}

/// Marks the states that a state reaches, by a walk.
fn reach<V: Copy, M: AsMachine<V>>(
    alloc: Global,
    fst: &M,
    start: u32,
) -> Result<Vec<bool>, AllocError>
    requires { start < length (M.machine fst.now).states }
    ensures size { IfOk result (λ marks. length marks.items ≡ length (M.machine fst.now).states) }
    ensures marks { IfOk result (λ marks. (names : List ℕ) × IsWalked (graph_of (valued M.value (M.machine fst.now))) start names × Marks marks.items names) }
{
    let targets = targets_of::<V, M>(alloc, fst)?;
    let mut seen = vec![in alloc; false; fst.state_count() as usize]?;
    let mut names = Vec::new(alloc);
    find(&mut names, &mut seen, start)?;
    let mut taken = 0;
    while taken < names.len() {
        let states = targets.of(names[taken]);
        find_each(&mut names, &mut seen, states)?;
        taken += 1;
    }
    Ok(seen)
}

/// Marks the states that the start reaches.
///
/// Time and space: linear in the states and the arcs, on any depth of the machine.
pub fn accessible<V: Copy, M: AsMachine<V>>(alloc: Global, fst: &M) -> Result<Vec<bool>, AllocError>
    ensures size { IfOk result (λ marks. length marks.items ≡ length (M.machine fst.now).states) }
    ensures marks { IfOk result (λ marks. (p : ℕ) → Decides (get_or marks.items p false) (IsAccessible (graph_of (valued M.value (M.machine fst.now))) p)) }
{
    match fst.start_state() {
        Some(start) => {
            let marks = reach::<V, M>(alloc, fst, start)?;
            Ok(marks)
        }
        None => Ok(vec![in alloc; false; fst.state_count() as usize]?),
    }
}

/// Adds the final states, by number.
pub(crate) fn find_finals<W: Weight>(
    fst: &Fst<W>,
    names: &mut Vec<u32>,
    seen: &mut Vec<bool>,
) -> Result<(), AllocError>
    requires none { names.old.items ≡ [] }
    requires marks { Marks seen.old.items names.old.items }
    requires size { length seen.old.items ≡ length fst.now.states }
    ensures found { OnOk result (FoundFinals (graph_of (valued W.value fst.now)) (length fst.now.states) names.new.items) }
    ensures marks { OnOk result (Marks seen.new.items names.new.items) }
    ensures size { OnOk result (length seen.new.items ≡ length fst.now.states) }
{
    for state in 0..fst.states() {
        if !is_final(fst.final_weight(state)) {
            continue;
        }
        find(names, seen, state)?;
    }
    Ok(())
}

/// Whether some of these arcs leads to a marked state. Takes no memory.
fn leads_to<V>(arcs: &[FstArc<V>], marks: &[bool]) -> bool
    requires { All (λ a. a.next < length marks.now) arcs.now }
    ensures { Decides result (LeadsTo marks.now arcs.now) }
{
    for arc in arcs {
        if marks[arc.next as usize] {
            return true;
        }
    }
    false
}

/// Looks once at each state, the last first, and adds it where an arc leads from it to one that was found. Where nothing
/// is added, nothing is left to find.
fn sweep<W: Weight>(
    fst: &Fst<W>,
    names: &mut Vec<u32>,
    seen: &mut Vec<bool>,
) -> Result<(), AllocError>
    requires walking { IsWalkingBack (graph_of (valued W.value fst.now)) names.old.items 0 }
    requires marks { Marks seen.old.items names.old.items }
    requires size { length seen.old.items ≡ length fst.now.states }
    ensures walking { OnOk result (IsWalkingBack (graph_of (valued W.value fst.now)) names.new.items 0) }
    ensures marks { OnOk result (Marks seen.new.items names.new.items) }
    ensures size { length seen.new.items ≡ length seen.old.items }
    ensures still { OnOk result (length names.new.items ≤ length names.old.items → IsClosedBack (graph_of (valued W.value fst.now)) names.new.items) }
{
    let mut left = fst.states();
    while left > 0 {
        left -= 1;
        if leads_to(fst.arcs(left), seen.as_slice()) {
            find(names, seen, left)?;
        }
    }
    Ok(())
}

/// Sweeps until nothing is left to find, at most so many times, and tells whether nothing is left.
fn sweep_often<W: Weight>(
    fst: &Fst<W>,
    names: &mut Vec<u32>,
    seen: &mut Vec<bool>,
) -> Result<bool, AllocError>
    requires walking { IsWalkingBack (graph_of (valued W.value fst.now)) names.old.items 0 }
    requires marks { Marks seen.old.items names.old.items }
    requires size { length seen.old.items ≡ length fst.now.states }
    ensures walking { OnOk result (IsWalkingBack (graph_of (valued W.value fst.now)) names.new.items 0) }
    ensures marks { OnOk result (Marks seen.new.items names.new.items) }
    ensures size { length seen.new.items ≡ length seen.old.items }
    ensures all { IfOk result (λ all. all ≡ true → IsClosedBack (graph_of (valued W.value fst.now)) names.new.items) }
{
    for _ in 0..SWEEPS {
        let found = names.len();
        sweep(fst, names, seen)?;
        if names.len() <= found {
            return Ok(true);
        }
    }
    Ok(false)
}

/// Finds the states that are left, by a walk back along the arcs.
fn walk_back<W: Weight>(
    alloc: Global,
    fst: &Fst<W>,
    names: &mut Vec<u32>,
    seen: &mut Vec<bool>,
) -> Result<(), AllocError>
    requires walking { IsWalkingBack (graph_of (valued W.value fst.now)) names.old.items 0 }
    requires marks { Marks seen.old.items names.old.items }
    requires size { length seen.old.items ≡ length fst.now.states }
    ensures size { length seen.new.items ≡ length seen.old.items }
    ensures marks { OnOk result ((p : ℕ) → Decides (get_or seen.new.items p false) (IsCoaccessible (graph_of (valued W.value fst.now)) p)) }
{
    let sources = sources_of(alloc, fst)?;
    let mut taken = 0;
    while taken < names.len() {
        let states = sources.of(names[taken]);
        find_each(names, seen, states)?;
        taken += 1;
    }
    Ok(())
}

/// Marks the states from which a path leads to a final state: by sweeps over the states, and by a walk back along the
/// arcs where these do not find all. Sweeps take no memory for the arcs, and two find all where arcs lead to later states.
pub(crate) fn coaccessible<W: Weight>(alloc: Global, fst: &Fst<W>) -> Result<Vec<bool>, AllocError>
    ensures size { IfOk result (λ marks. length marks.items ≡ length fst.now.states) }
    ensures marks { IfOk result (λ marks. (p : ℕ) → Decides (get_or marks.items p false) (IsCoaccessible (graph_of (valued W.value fst.now)) p)) }
{
    let mut seen = vec![in alloc; false; fst.states() as usize]?;
    let mut names = Vec::new(alloc);
    find_finals(fst, &mut names, &mut seen)?;
    if sweep_often(fst, &mut names, &mut seen)? {
        return Ok(seen);
    }
    walk_back(alloc, fst, &mut names, &mut seen)?;
    Ok(seen)
}

/// Takes away the marks that others do not have.
pub(crate) fn keep_both(marks: &mut Vec<bool>, others: &[bool])
    requires { length others.now ≡ length marks.old.items }
    ensures size { length marks.new.items ≡ length marks.old.items }
    ensures marks { (p : ℕ) → get_or marks.new.items p false ≡ (get_or marks.old.items p false && get_or others.now p false) }
{
    for place in 0..marks.len() {
        let both = marks[place] && others[place];
        marks[place] = both;
    }
}

/// Marks the states that some successful path meets.
pub(crate) fn useful<W: Weight>(alloc: Global, fst: &Fst<W>) -> Result<Vec<bool>, AllocError>
    ensures size { IfOk result (λ marks. length marks.items ≡ length fst.now.states) }
    ensures marks { IfOk result (λ marks. (p : ℕ) → Decides (get_or marks.items p false) (IsUseful (graph_of (valued W.value fst.now)) p)) }
{
    let mut marks = accessible::<W, Fst<W>>(alloc, fst)?;
    let others = coaccessible(alloc, fst)?;
    keep_both(&mut marks, others.as_slice());
    Ok(marks)
}
