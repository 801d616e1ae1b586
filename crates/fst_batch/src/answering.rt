//! The answer of a line whose walk is over.

ghost use Rattle.std.specs.Prelude.{◌≡◌, ◌<◌, ◌≤◌, IfErr, IfOk, OnOk, length, map};
ghost use Rattle.fst_machine.specs.Cycles.{IsUseful};
ghost use Rattle.fst_machine.specs.Graph.{graph_of};
ghost use Rattle.fst_machine.specs.Machine.{most_states, valued};
ghost use Rattle.fst_machine.specs.Steps.{written};
ghost use Rattle.fst_search.specs.Distances.{IsListed, NoneImproves};
ghost use Rattle.fst_nbest.specs.FirstPaths.{AreFirstPaths, IfImproving};
ghost use Rattle.fst_delayed.specs.Caches.{IsTrueOf, keys};
ghost use Rattle.fst_delayed.specs.Graphs.{delayed_graph};
ghost use Rattle.fst_lattice.specs.Walks.{IsJob, IsOver};
ghost use Rattle.fst_batch.specs.Answers.{IsAnswer};
ghost use Rattle.fst_batch.specs.Building.{AnswersWhole, IsWhole};
ghost use Rattle.fst_batch.specs.Filling.{AreSmall};

use crate::answer::LineAnswer;
use crate::building::lattice_machine;
use crate::fault::LineFault;
use crate::listing::list_paths;
use fst_delayed::{Cache, Composed};
use fst_fields::List;
use fst_lattice::{Job, Points, Stage};
use fst_machine::{Paths, Steps, WideFst};
use fst_nbest::{NbestFault, nbest_wide};
use fst_semiring::Weight;
use std::alloc::{AllocError, Global};
use std::marker::Brand;
use std::sync::ledger::{Blank, Ledger};

/// The best paths of a machine. Its steps are not counted.
fn best_paths<W: Weight, L: Ledger>(
    alloc: Global,
    fst: &WideFst<W>,
    n: u32,
    blank: Blank,
) -> Result<Paths, NbestFault>
    requires some { 1 ≤ n }
    requires few { n ≤ 100000 }
    requires small { AreSmall (valued W.wide_value fst.now) }
    requires name { blank.name ≡ L.name }
    requires parts { blank.parts ≡ L.parts }
    requires blank { 0 < blank.parts }
    ensures first { IfOk result (λ paths. AreFirstPaths W.KIND (graph_of (valued W.wide_value fst.now)) n (map written paths)) }
    ensures none { OnOk result (NoneImproves W.KIND (graph_of (valued W.wide_value fst.now)) (IsUseful (graph_of (valued W.wide_value fst.now)))) }
    ensures cycle { IfErr result (λ f. IfImproving f (IsListed W.KIND (graph_of (valued W.wide_value fst.now)) (IsUseful (graph_of (valued W.wide_value fst.now))))) }
{
    let mut steps = Steps::<L>::new(blank);
    nbest_wide(alloc, fst, n, &mut steps)
}

/// The answer of a line without a byte 0 whose lattice has these names, where they are not too many.
fn answer_lattice<W: Weight, D: Composed<W>>(
    alloc: Global,
    delayed: &D,
    line: &[u8],
    cache: &Cache<W>,
    points: &Points,
    n: u32,
) -> Result<LineAnswer<W>, AllocError>
    requires some { 1 ≤ n }
    requires few { n ≤ 100000 }
    requires entries { IsTrueOf W.wide_value (delayed_graph W.KIND W.value (D.machines delayed.now)) cache.now }
    requires whole { IsWhole W.KIND W.value (D.machines delayed.now) line.now (keys cache.now) points.now }
    requires found { 0 < length points.now }
    ensures { IfOk result (λ answer. AnswersWhole W.KIND W.value (D.machines delayed.now) n line.now points.now answer) }
{
    let Some(fst) = lattice_machine(alloc, delayed, line, cache, points)? else {
        return Ok(LineAnswer::Refused(LineFault::TooManyArcs));
    };
    match best_paths::<W, Brand>(alloc, &fst, n, Blank::new(1)) {
        Ok(paths) => list_paths(alloc, &fst, 0, &paths),
        Err(NbestFault::ImprovingCycle { cycle: _ }) => {
            Ok(LineAnswer::Refused(LineFault::ImprovingCycle))
        }
        Err(NbestFault::Memory) => Err(AllocError),
    }
}

/// The answer of a line whose walk is over: the first fault that stands against it, or its `n` best paths with their weights and
/// texts. The cache has the arcs of all names that the walk has taken.
pub fn answer_line<W: Weight, D: Composed<W>>(
    alloc: Global,
    delayed: &D,
    line: &[u8],
    cache: &Cache<W>,
    job: &Job,
    n: u32,
) -> Result<LineAnswer<W>, AllocError>
    requires some { 1 ≤ n }
    requires few { n ≤ 100000 }
    requires entries { IsTrueOf W.wide_value (delayed_graph W.KIND W.value (D.machines delayed.now)) cache.now }
    requires job { IsJob W.KIND W.value (D.machines delayed.now) line.now (keys cache.now) job.now }
    requires limit { job.now.limit ≤ most_states }
    requires over { IsOver job.now }
    ensures { IfOk result (IsAnswer W.KIND (delayed_graph W.KIND W.value (D.machines delayed.now)) n job.now.limit line.now W.value) }
{
    match job.stage() {
        Stage::Bad => return Ok(LineAnswer::Refused(LineFault::BadByte)),
        Stage::Stopped => {
            let limit = job.limit();
            return Ok(LineAnswer::Refused(LineFault::StateLimit { limit }));
        }
        Stage::Going => {}
    }
    let points = job.points();
    if points.len() == 0 {
        return Ok(LineAnswer::Listed(List::new(alloc)));
    }
    answer_lattice(alloc, delayed, line, cache, points, n)
}
