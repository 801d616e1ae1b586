//! Walks in breadth-first order.

ghost use Rattle.std.specs.Prelude.{◌≡◌, ◌<◌, ◌∷◌, [], All, IfOk, OnOk, length, map};
ghost use Rattle.fst_machine.specs.Machine.{valued};
ghost use Rattle.fst_machine.specs.Graph.{graph_of};
ghost use Rattle.fst_machine.specs.BreadthFirst.{Grows, IsWalked};
ghost use Rattle.fst_machine.specs.Marks.{Marks};

use crate::arc::FstArc;
use crate::fst::Fst;
use fst_semiring::Weight;
use std::alloc::{AllocError, Global};

/// Adds a state behind those that were found, if it is not among them. The marks say which those are.
pub fn find(names: &mut Vec<u32>, seen: &mut Vec<bool>, next: u32) -> Result<(), AllocError>
    requires marks { Marks seen.old.items names.old.items }
    requires within { next < length seen.old.items }
    ensures grows { OnOk result (Grows names.old.items (next ∷ []) names.new.items) }
    ensures marks { OnOk result (Marks seen.new.items names.new.items) }
    ensures size { length seen.new.items ≡ length seen.old.items }
{
    if seen[next as usize] {
        return Ok(());
    }
    names.push(next)?;
    seen[next as usize] = true;
    Ok(())
}

/// Adds each state to which these arcs lead, if it is not among those that were found.
fn find_all<W: Weight>(
    names: &mut Vec<u32>,
    seen: &mut Vec<bool>,
    arcs: &[FstArc<W>],
) -> Result<(), AllocError>
    requires marks { Marks seen.old.items names.old.items }
    requires within { All (λ a. a.next < length seen.old.items) arcs.now }
    ensures grows { OnOk result (Grows names.old.items (map (λ a. a.next) arcs.now) names.new.items) }
    ensures marks { OnOk result (Marks seen.new.items names.new.items) }
    ensures size { length seen.new.items ≡ length seen.old.items }
{
    for arc in arcs {
        find(names, seen, arc.next)?;
    }
    Ok(())
}

/// The states that the start reaches, each once, in breadth-first order: the start, then the states to which
/// its arcs lead, in the order of the arcs, then those to which the arcs of these lead, and so on.
///
/// Time and space: linear in the states and the arcs of the machine.
pub fn walk<W: Weight>(alloc: Global, fst: &Fst<W>, start: u32) -> Result<Vec<u32>, AllocError>
    requires { start < length fst.now.states }
    ensures { IfOk result (λ names. IsWalked (graph_of (valued W.value fst.now)) start names.items) }
{
    let states = fst.states() as usize;
    let mut seen = vec![in alloc; false; states]?;
    let mut names = Vec::new(alloc);
    find(&mut names, &mut seen, start)?;
    let mut taken = 0;
    while taken < names.len() {
        let arcs = fst.arcs(names[taken]);
        find_all(&mut names, &mut seen, arcs)?;
        taken += 1;
    }
    Ok(names)
}
