//! The n best paths of a machine.

ghost use Rattle.std.specs.Prelude.{◌≡◌, ◌≤◌, ◌<◌, ◌+◌, ℕ, [], true, false, Some, All, IfErr, IfNone, IfOk, IfSome, OnOk, length, map};
ghost use Rattle.fst_semiring.specs.Cost.{infinite};
ghost use Rattle.fst_semiring.specs.Semiring.{Within, cancels};
ghost use Rattle.fst_machine.specs.Cycles.{IsUseful};
ghost use Rattle.fst_machine.specs.Graph.{graph_of};
ghost use Rattle.fst_machine.specs.Machine.{valued};
ghost use Rattle.fst_machine.specs.Steps.{written};
ghost use Rattle.fst_search.specs.Distances.{IsListed, NoneImproves};
ghost use Rattle.fst_search.specs.Searching.{most_number};
ghost use Rattle.fst_nbest.specs.Chains.{arcs_written};
ghost use Rattle.fst_nbest.specs.FirstPaths.{AreFirstPaths, IfImproving};
ghost use Rattle.fst_nbest.specs.Ready.{HasDistances, IsReady, dist_in};

use crate::by_class::by_classes;
use crate::distances::Ahead;
use crate::enumerating::first_words;
use crate::fault::NbestFault;
use crate::looking::looked_ahead;
use crate::path_system::PathSystem;
use crate::traced::put_traced;
use crate::values::is_zero_wide;
use fst_machine::{Fst, Paths, Steps, WideFst};
use fst_search::Widens;
use fst_semiring::Weight;
use std::alloc::{AllocError, Global};
use std::marker::PhantomData;
use std::sync::ledger::Ledger;

/// The first paths where factors cancel, so that the order of what is ahead of a state is the same behind each path.
fn by_counts<W: Weight, V: Copy, M: Widens<W, V>, L: Ledger>(
    alloc: Global,
    fst: &M,
    dist: &Vec<W::Wide>,
    count: &Vec<u32>,
    start: u32,
    n: u32,
    steps: &mut Steps<L>,
) -> Result<Paths, AllocError>
    requires cancels { cancels W.KIND ≡ true }
    requires ready { IsReady W.KIND M.value W.wide_value M.known (M.machine fst.now) dist.now.items count.now.items }
    requires start { (M.machine fst.now).start ≡ Some start }
    requires low { start < length (M.machine fst.now).states }
    requires live { dist_in W.wide_value dist.now.items start ≡ infinite → ⊥ }
    ensures first { IfOk result (λ paths. AreFirstPaths W.KIND (graph_of (valued M.value (M.machine fst.now))) n (map written paths)) }
    ensures steps { IfOk result (λ paths. steps.new ≡ steps.old + length paths) }
{
    // What holds of the machine.
    let _states = fst.state_count();
    let system = PathSystem {
        fst,
        dist,
        count,
        weight: PhantomData,
    };
    let words = first_words(alloc, &system, start, n as usize, steps)?;
    let mut paths = Paths::new(alloc);
    put_traced::<V, M>(alloc, &mut paths, fst, start, &words)?;
    Ok(paths)
}

/// The start, if a successful path leaves it.
fn live_start<W: Weight, V: Copy, M: Widens<W, V>>(fst: &M, dist: &Vec<W::Wide>) -> Option<u32>
    requires measured { HasDistances W.KIND M.value W.wide_value M.known (M.machine fst.now) dist.now.items }
    ensures some { IfSome result (λ start. ((M.machine fst.now).start ≡ Some start) × (start < length (M.machine fst.now).states) × (dist_in W.wide_value dist.now.items start ≡ infinite → ⊥)) }
    ensures none { IfNone result ((n : ℕ) → AreFirstPaths W.KIND (graph_of (valued M.value (M.machine fst.now))) n []) }
{
    let Some(start) = fst.start_state() else {
        return None;
    };
    if is_zero_wide::<W>(dist[start as usize]) {
        return None;
    }
    Some(start)
}

/// The first paths of a machine with what is ahead of its states.
fn paths_ahead<W: Weight, V: Copy, M: Widens<W, V>, L: Ledger>(
    alloc: Global,
    fst: &M,
    ahead: &Ahead<W>,
    n: u32,
    steps: &mut Steps<L>,
) -> Result<Paths, AllocError>
    requires measured { HasDistances W.KIND M.value W.wide_value M.known (M.machine fst.now) ahead.now.dist.items }
    requires ready { cancels W.KIND ≡ true → IsReady W.KIND M.value W.wide_value M.known (M.machine fst.now) ahead.now.dist.items ahead.now.count.items }
    ensures first { IfOk result (λ paths. AreFirstPaths W.KIND (graph_of (valued M.value (M.machine fst.now))) n (map written paths)) }
    ensures steps { IfOk result (λ paths. steps.new ≡ steps.old + length paths) }
{
    let Some(start) = live_start::<W, V, M>(fst, &ahead.dist) else {
        return Ok(Paths::new(alloc));
    };
    if W::CANCELS {
        return by_counts::<W, V, M, L>(alloc, fst, &ahead.dist, &ahead.count, start, n, steps);
    }
    by_classes::<W, V, M, L>(alloc, fst, &ahead.dist, start, n, steps)
}

/// The first paths of any machine.
fn best_paths<W: Weight, V: Copy, M: Widens<W, V>, L: Ledger>(
    alloc: Global,
    fst: &M,
    n: u32,
    steps: &mut Steps<L>,
) -> Result<Paths, NbestFault>
    requires known { All (λ s. All (λ a. M.known a.weight) s.arcs) (M.machine fst.now).states }
    requires finals { All (λ s. M.known s.final) (M.machine fst.now).states }
    ensures first { IfOk result (λ paths. AreFirstPaths W.KIND (graph_of (valued M.value (M.machine fst.now))) n (map written paths)) }
    ensures none { OnOk result (NoneImproves W.KIND (graph_of (valued M.value (M.machine fst.now))) (IsUseful (graph_of (valued M.value (M.machine fst.now))))) }
    ensures cycle { IfErr result (λ f. IfImproving f (IsListed W.KIND (graph_of (valued M.value (M.machine fst.now))) (IsUseful (graph_of (valued M.value (M.machine fst.now)))))) }
    ensures steps { IfOk result (λ paths. steps.new ≡ steps.old + length paths) }
{
    let ahead = looked_ahead::<W, V, M>(alloc, fst)?;
    match paths_ahead::<W, V, M, L>(alloc, fst, &ahead, n, steps) {
        Ok(paths) => Ok(paths),
        // A lack of memory becomes a fault here alone.
        Err(_) => Err(NbestFault::Memory),
    }
}

/// The first `n` successful paths of a machine: by weight, the better first, then by the number of their arcs, the
/// fewer first, then by the places of their arcs; all of them where there are fewer. (Mohri 2009, section 3.3, n shortest
/// paths; OpenFst manual, "ShortestPath".)
///
/// `ImprovingCycle` exactly where a cycle with a product better than One has states that successful paths meet; the
/// fault lists such a cycle. `Memory` may come in place of any answer. A step is one family of paths taken from the
/// table of those that wait, and one is taken for each path that is listed.
///
/// Time: that of the distances, which is linear where there is no cycle and factors cancel; linear in the states and the arcs; the arcs that are listed; and for each of these a
/// comparison of families, of which there are logarithmically many. The arcs of each state on a listed path are sorted
/// once. In min-max all this but the distances is done for each weight of the listed paths. Space: linear in the states,
/// the arcs and the arcs that are listed.
pub fn nbest<W: Weight, L: Ledger>(
    alloc: Global,
    fst: &Fst<W>,
    n: u32,
    steps: &mut Steps<L>,
) -> Result<Paths, NbestFault>
    requires some { 1 ≤ n }
    requires few { n ≤ 100000 }
    ensures first { IfOk result (λ paths. AreFirstPaths W.KIND (graph_of (valued W.value fst.now)) n (map written paths)) }
    ensures none { OnOk result (NoneImproves W.KIND (graph_of (valued W.value fst.now)) (IsUseful (graph_of (valued W.value fst.now)))) }
    ensures cycle { IfErr result (λ f. IfImproving f (IsListed W.KIND (graph_of (valued W.value fst.now)) (IsUseful (graph_of (valued W.value fst.now))))) }
    ensures steps { IfOk result (λ paths. steps.new ≤ steps.old + (arcs_written paths + length paths + 1)) }
    ensures each_step { IfOk result (λ paths. steps.new ≡ steps.old + length paths) }
{
    best_paths::<W, W, Fst<W>, L>(alloc, fst, n, steps)
}

/// The same over wide weights, of which no number has an absolute value above 2 to the 70.
pub fn nbest_wide<W: Weight, L: Ledger>(
    alloc: Global,
    fst: &WideFst<W>,
    n: u32,
    steps: &mut Steps<L>,
) -> Result<Paths, NbestFault>
    requires some { 1 ≤ n }
    requires few { n ≤ 100000 }
    requires arcs { All (λ s. All (λ a. Within most_number (W.wide_value a.weight)) s.arcs) fst.now.states }
    requires finals { All (λ s. Within most_number (W.wide_value s.final)) fst.now.states }
    ensures first { IfOk result (λ paths. AreFirstPaths W.KIND (graph_of (valued W.wide_value fst.now)) n (map written paths)) }
    ensures none { OnOk result (NoneImproves W.KIND (graph_of (valued W.wide_value fst.now)) (IsUseful (graph_of (valued W.wide_value fst.now)))) }
    ensures cycle { IfErr result (λ f. IfImproving f (IsListed W.KIND (graph_of (valued W.wide_value fst.now)) (IsUseful (graph_of (valued W.wide_value fst.now))))) }
    ensures steps { IfOk result (λ paths. steps.new ≤ steps.old + (arcs_written paths + length paths + 1)) }
    ensures each_step { IfOk result (λ paths. steps.new ≡ steps.old + length paths) }
{
    best_paths::<W, W::Wide, WideFst<W>, L>(alloc, fst, n, steps)
}
