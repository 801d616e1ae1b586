//! A batch: lines are walked by workers in phases, and answered.

ghost use Rattle.std.specs.Prelude.{◌≡◌, ◌+◌, ◌-◌, ◌<◌, ◌≤◌, ◌++◌, ◌^◌, [], ℕ, List, false, IfOk, OnOk, Some, length, slice_get};
ghost use Rattle.std.specs.List.{AllZip};
ghost use Rattle.fst_delayed.specs.Caches.{Entries, IsTrueOf, keys};
ghost use Rattle.fst_delayed.specs.Graphs.{delayed_graph};
ghost use Rattle.fst_delayed.specs.Handed.{Name};
ghost use Rattle.fst_machine.specs.BreadthFirst.{Has};
ghost use Rattle.fst_machine.specs.Machine.{most_states};
ghost use Rattle.fst_lattice.specs.Expansions.{AreNeeded, IsExpansions};
ghost use Rattle.fst_lattice.specs.Needed.{IsNeeded};
ghost use Rattle.fst_lattice.specs.Runs.{AreDone, IsAnswerAt, IsBetween, all_lines, run};

use crate::answering::{Answering, answer_all};
use crate::dealing::deal;
use crate::ending::are_done;
use crate::gate::Gate;
use crate::hiring::{dismiss, hire};
use crate::lines::Lines;
use crate::phasing::phase;
use crate::worker::Worker;
use fst_delayed::{Cache, Delayed, Meter};
use fst_semiring::Weight;
use std::alloc::{AllocError, Global};
use std::thread::Threads;

/// Phases, one after the other, until all walks are over.
fn walk_all<R: Threads + Sync, W: Weight + Send + Sync, G: Gate, M: Meter>(
    rt: &R,
    alloc: Global,
    delayed: &Delayed<'_, W, M>,
    lines: &Lines,
    limit: u32,
    cache: &mut Cache<W>,
    workers: &mut [Worker<W, M>],
    gate: &G,
) -> Result<(), AllocError>
where
    W::Wide: Send + Sync,
    requires some { 0 < length workers.old }
    requires few { length workers.old ≤ 64 }
    requires between { IsBetween W.KIND W.value W.wide_value M.count M.is_part delayed.now lines.now limit cache.old workers.old }
    ensures between { OnOk result (IsBetween W.KIND W.value W.wide_value M.count M.is_part delayed.now lines.now limit cache.new workers.new) }
    ensures done { OnOk result (AreDone workers.new) }
    ensures size { OnOk result (length workers.new ≡ length workers.old) }
    ensures lines { OnOk result (all_lines workers.new ≡ all_lines workers.old) }
    ensures front { OnOk result ((more : Entries W.Wide (Name ℕ ℕ)) × (cache.new ≡ cache.old ++ more)) }
{
    // Of the limit the contract alone speaks. With the start it is known that both are machines.
    let (_limit, _start) = (limit, delayed.start_key());
    loop {
        let _expanded = cache.len();
        let _report = phase(rt, alloc, delayed, lines, cache, workers, gate)?;
        if are_done(workers) {
            return Ok(());
        }
    }
}

/// Walks the lines from one number up to another, and answers them.
fn run_some<R: Threads + Sync, W: Weight + Send + Sync, G: Gate, M: Meter, A: Answering<W, M>>(
    rt: &R,
    alloc: Global,
    delayed: &Delayed<'_, W, M>,
    lines: &Lines,
    from: u64,
    to: u64,
    answering: &A,
    limit: u32,
    cache: &mut Cache<W>,
    workers: &mut [Worker<W, M>],
    gate: &G,
    answers: &mut Vec<A::Answer>,
) -> Result<(), AllocError>
where
    W::Wide: Send + Sync,
    requires some { 0 < length workers.old }
    requires few { length workers.old ≤ 64 }
    requires order { from ≤ to }
    requires within { to ≤ length lines.now }
    requires limit { (limit ≡ A.limit answering.now) × (0 < limit) × (limit ≤ most_states) }
    requires between { IsBetween W.KIND W.value W.wide_value M.count M.is_part delayed.now lines.now limit cache.old workers.old }
    ensures between { OnOk result (IsBetween W.KIND W.value W.wide_value M.count M.is_part delayed.now lines.now limit cache.new workers.new) }
    ensures size { OnOk result (length workers.new ≡ length workers.old) }
    ensures front { OnOk result ((more : Entries W.Wide (Name ℕ ℕ)) × (cache.new ≡ cache.old ++ more)) }
    ensures known { OnOk result ((number : ℕ) (line : List ℕ) (n : Name ℕ ℕ) → from ≤ number → number < to → slice_get lines.now number ≡ Some line → IsNeeded line (delayed_graph W.KIND W.value delayed.now) limit n → Has (keys cache.new) n) }
    ensures answers { OnOk result ((more : List A.Answer) × (answers.new.items ≡ answers.old.items ++ more) × AllZip (IsAnswerAt (A.answers answering.now delayed.now) lines.now) (run from (to - from)) more) }
{
    deal(alloc, delayed, lines, from, to, limit, workers)?;
    walk_all(rt, alloc, delayed, lines, limit, cache, workers, gate)?;
    answer_all(
        rt, alloc, delayed, lines, cache, answering, workers, answers,
    )?;
    Ok(())
}

/// Walks all lines, at most 256 at once and 16 at first, and answers them.
fn run_all_lines<R: Threads + Sync, W: Weight + Send + Sync, G: Gate, M: Meter, A: Answering<W, M>>(
    rt: &R,
    alloc: Global,
    delayed: &Delayed<'_, W, M>,
    lines: &Lines,
    answering: &A,
    limit: u32,
    cache: &mut Cache<W>,
    workers: &mut [Worker<W, M>],
    gate: &G,
    answers: &mut Vec<A::Answer>,
) -> Result<(), AllocError>
where
    W::Wide: Send + Sync,
    requires some { 0 < length workers.old }
    requires few { length workers.old ≤ 64 }
    requires limit { (limit ≡ A.limit answering.now) × (0 < limit) × (limit ≤ most_states) }
    requires between { IsBetween W.KIND W.value W.wide_value M.count M.is_part delayed.now lines.now limit cache.old workers.old }
    requires lines { length lines.now < 2 ^ 31 }
    requires none { answers.old.items ≡ [] }
    ensures between { OnOk result (IsBetween W.KIND W.value W.wide_value M.count M.is_part delayed.now lines.now limit cache.new workers.new) }
    ensures size { OnOk result (length workers.new ≡ length workers.old) }
    ensures known { OnOk result ((number : ℕ) (line : List ℕ) (n : Name ℕ ℕ) → number < length lines.now → slice_get lines.now number ≡ Some line → IsNeeded line (delayed_graph W.KIND W.value delayed.now) limit n → Has (keys cache.new) n) }
    ensures answers { OnOk result (AllZip (A.answers answering.now delayed.now) lines.now answers.new.items) }
{
    // What the walks of open lines have found is held in memory until they are answered. The first lines are few, since one
    // worker expands the name with which all begin, and the jobs of the others wait for the end of that phase. Then they
    // are 256, since a phase makes its threads anew, and more jobs a worker wait less often.
    let count = lines.count();
    let mut from = 0;
    while from < count {
        let most = (16 * (from + 1)).min(256);
        let to = from + (count - from).min(most);
        run_some(
            rt, alloc, delayed, lines, from, to, answering, limit, cache, workers, gate, answers,
        )?;
        from = to;
    }
    Ok(())
}

/// What a batch reports.
#[derive(Drop)]
pub struct BatchReport<X: Drop, W: Weight> {
    /// The answers of the lines, in order.
    pub answers: Vec<X>,
    /// How many names were expanded: as many as the lines need, each once.
    pub expansions: u64,
    /// Those names with their arcs.
    pub cache: Cache<W>,
}

/// Answers lines by 1 to 64 workers. At most 256 lines are open at once, and 16 at first: these are dealt to the workers, walked
/// in phases until all walks are over, and answered, by the workers beside each other too. Each name of the composition that
/// the lines need is expanded once, whatever the number of workers.
pub fn run_lines<R: Threads + Sync, W: Weight + Send + Sync, G: Gate, M: Meter, A: Answering<W, M>>(
    rt: &R,
    alloc: Global,
    delayed: &Delayed<'_, W, M>,
    lines: &Lines,
    answering: &A,
    workers: u32,
    limit: u32,
    gate: &G,
    meter: &mut M,
) -> Result<BatchReport<A::Answer, W>, AllocError>
where
    W::Wide: Send + Sync,
    requires workers { (0 < workers) × (workers ≤ 64) }
    requires limit { (limit ≡ A.limit answering.now) × (0 < limit) × (limit ≤ most_states) }
    requires whole { M.is_part meter.old ≡ false }
    requires count { M.count meter.old < 2 ^ 62 }
    requires out { M.parts_out meter.old < 900 }
    requires lines { length lines.now < 2 ^ 31 }
    ensures answers { IfOk result (λ r. AllZip (A.answers answering.now delayed.now) lines.now r.answers.items) }
    ensures expansions { IfOk result (λ r. IsExpansions lines.now (delayed_graph W.KIND W.value delayed.now) limit r.expansions) }
    ensures cache { IfOk result (λ r. AreNeeded lines.now (delayed_graph W.KIND W.value delayed.now) limit (keys r.cache)) }
    ensures arcs { IfOk result (λ r. IsTrueOf W.wide_value (delayed_graph W.KIND W.value delayed.now) r.cache) }
    ensures count { IfOk result (λ r. M.count meter.new ≡ M.count meter.old + r.expansions) }
    ensures out { OnOk result (M.parts_out meter.new ≡ M.parts_out meter.old) }
    ensures whole { OnOk result (M.is_part meter.new ≡ false) }
{
    let mut hired = hire(alloc, meter, workers)?;
    let mut cache = Cache::new(alloc);
    let mut answers = Vec::new(alloc);
    run_all_lines(
        rt,
        alloc,
        delayed,
        lines,
        answering,
        limit,
        &mut cache,
        hired.as_mut_slice(),
        gate,
        &mut answers,
    )?;
    // With the start it is known that both are machines, and so that their names are no large number.
    let _start = delayed.start_key();
    let expansions = cache.len() as u64;
    dismiss(hired, meter);
    Ok(BatchReport {
        answers,
        expansions,
        cache,
    })
}
