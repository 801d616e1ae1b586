//! What is ahead of the states of a machine: distances, and counts of arcs.

ghost use Rattle.std.specs.Prelude.{◌≡◌, true, All, IfErr, IfOk, OnOk};
ghost use Rattle.fst_semiring.specs.Semiring.{cancels};
ghost use Rattle.fst_machine.specs.Cycles.{IsUseful};
ghost use Rattle.fst_machine.specs.Graph.{graph_of};
ghost use Rattle.fst_machine.specs.Machine.{valued};
ghost use Rattle.fst_search.specs.Distances.{IsListed, NoneImproves};
ghost use Rattle.fst_trim.specs.Links.{turned_links};
ghost use Rattle.fst_nbest.specs.Classes.{IsClass, IsClassReady};
ghost use Rattle.fst_nbest.specs.FirstPaths.{IfImproving};
ghost use Rattle.fst_nbest.specs.Ready.{HasDistances, IsReady};

use crate::by_class::counts_in_class;
use crate::counting::counts_back;
use crate::distances::Ahead;
use crate::fault::NbestFault;
use crate::measured::measured;
use crate::sweeping::prepared;
use crate::tight::TightBack;
use fst_machine::Fst;
use fst_search::{DistanceFault, Widens};
use fst_semiring::Weight;
use fst_trim::Links;
use std::alloc::{AllocError, Global};

/// The counts of arcs ahead on best paths.
fn counts_ahead<W: Weight, V: Copy, M: Widens<W, V>>(
    alloc: Global,
    fst: &M,
    dist: &Vec<W::Wide>,
) -> Result<Vec<u32>, AllocError>
    requires cancels { cancels W.KIND ≡ true }
    requires measured { HasDistances W.KIND M.value W.wide_value M.known (M.machine fst.now) dist.now.items }
    ensures { IfOk result (λ v. IsReady W.KIND M.value W.wide_value M.known (M.machine fst.now) dist.now.items v.items) }
{
    // What holds of the machine.
    let _states = fst.state_count();
    let links = Links::turned(alloc, fst)?;
    let back = TightBack {
        fst,
        links: &links,
        dist,
    };
    let counts = counts_back::<V, TightBack<W, V, M>>(alloc, &back)?;
    Ok(counts)
}

/// What is ahead of the states of any machine, by a search, and by a walk back where factors cancel.
fn searched<W: Weight, V: Copy, M: Widens<W, V>>(
    alloc: Global,
    fst: &M,
) -> Result<Ahead<W>, NbestFault>
    requires known { All (λ s. All (λ a. M.known a.weight) s.arcs) (M.machine fst.now).states }
    requires finals { All (λ s. M.known s.final) (M.machine fst.now).states }
    ensures measured { IfOk result (λ a. HasDistances W.KIND M.value W.wide_value M.known (M.machine fst.now) a.dist.items) }
    ensures ready { IfOk result (λ a. cancels W.KIND ≡ true → IsReady W.KIND M.value W.wide_value M.known (M.machine fst.now) a.dist.items a.count.items) }
    ensures none { OnOk result (NoneImproves W.KIND (graph_of (valued M.value (M.machine fst.now))) (IsUseful (graph_of (valued M.value (M.machine fst.now))))) }
    ensures cycle { IfErr result (λ f. IfImproving f (IsListed W.KIND (graph_of (valued M.value (M.machine fst.now))) (IsUseful (graph_of (valued M.value (M.machine fst.now)))))) }
{
    let dist = match measured::<W, V, M>(alloc, fst) {
        Ok(dist) => dist,
        Err(DistanceFault::ImprovingCycle { cycle }) => {
            return Err(NbestFault::ImprovingCycle { cycle });
        }
        Err(DistanceFault::Memory) => return Err(NbestFault::Memory),
    };
    if !W::CANCELS {
        let count = Vec::new(alloc);
        return Ok(Ahead { dist, count });
    }
    match counts_ahead::<W, V, M>(alloc, fst, &dist) {
        Ok(count) => Ok(Ahead { dist, count }),
        // A lack of memory becomes a fault here alone.
        Err(_) => Err(NbestFault::Memory),
    }
}

/// What is ahead of the states of any machine: by one sweep where no cycle can be reached and factors cancel, else by a
/// search.
pub(crate) fn looked_ahead<W: Weight, V: Copy, M: Widens<W, V>>(
    alloc: Global,
    fst: &M,
) -> Result<Ahead<W>, NbestFault>
    requires known { All (λ s. All (λ a. M.known a.weight) s.arcs) (M.machine fst.now).states }
    requires finals { All (λ s. M.known s.final) (M.machine fst.now).states }
    ensures measured { IfOk result (λ a. HasDistances W.KIND M.value W.wide_value M.known (M.machine fst.now) a.dist.items) }
    ensures ready { IfOk result (λ a. cancels W.KIND ≡ true → IsReady W.KIND M.value W.wide_value M.known (M.machine fst.now) a.dist.items a.count.items) }
    ensures none { OnOk result (NoneImproves W.KIND (graph_of (valued M.value (M.machine fst.now))) (IsUseful (graph_of (valued M.value (M.machine fst.now))))) }
    ensures cycle { IfErr result (λ f. IfImproving f (IsListed W.KIND (graph_of (valued M.value (M.machine fst.now))) (IsUseful (graph_of (valued M.value (M.machine fst.now)))))) }
{
    if !W::CANCELS {
        return searched::<W, V, M>(alloc, fst);
    }
    let Ok(found) = prepared::<W, V, M>(alloc, fst) else {
        return Err(NbestFault::Memory);
    };
    match found {
        Some(swept) => Ok(swept),
        None => searched::<W, V, M>(alloc, fst),
    }
}

/// What is ahead of each state of a machine: its distance to the final states, and where factors cancel also the fewest
/// arcs of a path with that weight. (Mohri 2009, section 3.3, shortest distance.)
///
/// `ImprovingCycle` exactly where a cycle with a product better than One has states that successful paths meet; the
/// fault lists such a cycle. `Memory` may come in place of any answer.
///
/// Time: that of the distances, which is linear where there is no cycle and factors cancel; and linear in the states and
/// the arcs. Space: linear in the states and the arcs.
pub fn ahead<W: Weight>(alloc: Global, fst: &Fst<W>) -> Result<Ahead<W>, NbestFault>
    ensures measured { IfOk result (λ a. HasDistances W.KIND W.value W.wide_value (λ w. Unit {0}) fst.now a.dist.items) }
    ensures ready { IfOk result (λ a. cancels W.KIND ≡ true → IsReady W.KIND W.value W.wide_value (λ w. Unit {0}) fst.now a.dist.items a.count.items) }
    ensures none { OnOk result (NoneImproves W.KIND (graph_of (valued W.value fst.now)) (IsUseful (graph_of (valued W.value fst.now)))) }
    ensures cycle { IfErr result (λ f. IfImproving f (IsListed W.KIND (graph_of (valued W.value fst.now)) (IsUseful (graph_of (valued W.value fst.now))))) }
{
    looked_ahead::<W, W, Fst<W>>(alloc, fst)
}

/// The fewest arcs ahead on paths of one total weight, where a product is the worse of two weights. The first half is for
/// the states where the total has been reached on the way: the fewest arcs of a path to a final state whose arcs and
/// final weight are no worse than the total. The second half is for those where it has not: the fewest arcs of such a
/// path that has the total itself. 4,294,967,295 stands where there is no such path. The links are those back along all
/// arcs, as `Links::turned` gives them.
///
/// Time and space: linear in the states and the arcs.
pub fn class_counts<W: Weight>(
    alloc: Global,
    fst: &Fst<W>,
    links: &Links<W>,
    total: W::Wide,
) -> Result<Vec<u32>, AllocError>
    requires class { IsClass W.value (λ w. Unit {0}) fst.now (W.wide_value total) }
    requires links { links.now ≡ turned_links fst.now.states }
    ensures { IfOk result (λ v. IsClassReady W.value (λ w. Unit {0}) fst.now (W.wide_value total) v.items) }
{
    counts_in_class::<W, W, Fst<W>>(alloc, fst, links, total)
}
