//! The states to which the arcs of each state lead.

ghost use Rattle.std.specs.Prelude.{◌≡◌, ◌<◌, ◌++◌, ℕ, List, [], map, length, get_or, IfOk, OnOk};
ghost use Rattle.fst_trim.specs.Targets.{IsJoined, targets_from};

use crate::as_machine::AsMachine;
use crate::sources::part;
use fst_machine::FstArc;
use std::alloc::{AllocError, Global};

/// For each state the states to which its arcs lead, one for each arc and in order: those of a state stand side
/// by side, and where they begin is kept by state. A walk goes through 4 bytes for each arc in place of 24.
#[derive(Drop)]
pub(crate) struct Targets {
    firsts: Vec<usize>,
    targets: Vec<u32>,
}

/// Puts the states to which these arcs lead behind the others.
fn put_targets<W>(targets: &mut Vec<u32>, arcs: &[FstArc<W>]) -> Result<(), AllocError>
    ensures { OnOk result (targets.new.items ≡ targets.old.items ++ map (λ a. a.next) arcs.now) }
{
    for arc in arcs {
        targets.push(arc.next)?;
    }
    Ok(())
}

/// Puts the states to which the arcs of each state lead side by side.
///
/// Time and space: linear in the states and the arcs.
pub(crate) fn targets_of<V: Copy, M: AsMachine<V>>(
    alloc: Global,
    fst: &M,
) -> Result<Targets, AllocError>
    ensures { IfOk result (λ t. IsJoined (targets_from (M.machine fst.now).states) t.firsts.items t.targets.items) }
{
    let mut firsts = Vec::with_capacity(alloc, fst.state_count() as usize + 1)?;
    let mut targets = Vec::with_capacity(alloc, fst.all_arcs() as usize)?;
    for state in 0..fst.state_count() {
        firsts.push(targets.len())?;
        put_targets(&mut targets, fst.arcs_at(state))?;
    }
    firsts.push(targets.len())?;
    Ok(Targets { firsts, targets })
}

impl Targets {
    /// The states to which the arcs of a state lead.
    pub(crate) fn of(&self, state: u32) -> &[u32]
        requires { (lists : List (List ℕ)) × IsJoined lists self.now.firsts.items self.now.targets.items × (state < length lists) }
        ensures { (lists : List (List ℕ)) → IsJoined lists self.now.firsts.items self.now.targets.items → state < length lists → result.now ≡ get_or lists state [] }
    {
        let first = self.firsts[state as usize];
        let behind = self.firsts[state as usize + 1];
        part(self.targets.as_slice(), first, behind)
    }
}
