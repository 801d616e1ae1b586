//! Words written down as paths.

ghost use Rattle.std.specs.Prelude.{◌≡◌, ◌<◌, ◌++◌, ℕ, Some, IfOk, OnOk, All, length, map, slice_get};
ghost use Rattle.fst_semiring.specs.Cost.{Cost};
ghost use Rattle.fst_machine.specs.Machine.{Arc, valued};
ghost use Rattle.fst_machine.specs.Graph.{graph_of};
ghost use Rattle.fst_machine.specs.Steps.{written};
ghost use Rattle.fst_nbest.specs.FirstPaths.{IsTraceable, traced};

use crate::walking::{Word, Words};
use fst_machine::{Path, Paths, Step};
use fst_trim::AsMachine;
use std::alloc::{AllocError, Global};

/// Where the arc in a place of a state leads.
fn next_state<V: Copy, M: AsMachine<V>>(fst: &M, state: u32, place: u32) -> u32
    requires { place < length ((graph_of (valued M.value (M.machine fst.now))).arcs state) }
    ensures low { result < length (M.machine fst.now).states }
    ensures next { (a : Arc Cost ℕ) → slice_get ((graph_of (valued M.value (M.machine fst.now))).arcs state) place ≡ Some a → result ≡ a.next }
{
    let _states = fst.state_count();
    let arc = fst.arcs_at(state)[place as usize];
    arc.next
}

/// The path whose arcs have these places, from a state.
fn traced_path<V: Copy, M: AsMachine<V>>(
    alloc: Global,
    fst: &M,
    start: u32,
    word: &Word,
) -> Result<Path, AllocError>
    requires start { start < length (M.machine fst.now).states }
    requires word { IsTraceable (graph_of (valued M.value (M.machine fst.now))) start word.now }
    ensures { IfOk result (λ path. written path ≡ traced (graph_of (valued M.value (M.machine fst.now))) start word.now) }
{
    let mut path = Path::new(alloc);
    let mut state = start;
    for k in 0..word.len() {
        let place = *word.item(k);
        path.push(Step { state, place })?;
        state = next_state::<V, M>(fst, state, place);
    }
    Ok(path)
}

/// Puts the paths whose arcs have these places, from a state.
pub(crate) fn put_traced<V: Copy, M: AsMachine<V>>(
    alloc: Global,
    paths: &mut Paths,
    fst: &M,
    start: u32,
    words: &Words,
) -> Result<(), AllocError>
    requires start { start < length (M.machine fst.now).states }
    requires words { All (IsTraceable (graph_of (valued M.value (M.machine fst.now))) start) words.now }
    ensures { OnOk result (map written paths.new ≡ map written paths.old ++ map (traced (graph_of (valued M.value (M.machine fst.now))) start) words.now) }
{
    for i in 0..words.len() {
        let path = traced_path::<V, M>(alloc, fst, start, words.item(i))?;
        paths.push(path)?;
    }
    Ok(())
}
