//! A phase of a batch: workers serve their jobs beside each other.

ghost use Rattle.std.specs.Prelude.{◌≡◌, [], true, ◌+◌, ◌-◌, ◌<◌, ◌≤◌, ℕ, IfOk, OnOk, Some, length, slice_get};
ghost use Rattle.fst_claims.specs.Passes.{IsPassOf, found, parts, won};
ghost use Rattle.fst_delayed.specs.Caches.{IsTrueOf, keys};
ghost use Rattle.fst_delayed.specs.Coding.{code_of};
ghost use Rattle.fst_delayed.specs.Handed.{Name};
ghost use Rattle.fst_machine.specs.BreadthFirst.{Has};
ghost use Rattle.std.specs.List.{Contains};
ghost use Rattle.fst_claims.specs.declared.table.Pass.{Pass};
ghost use Rattle.fst_lattice.specs.Serving.{codes};
ghost use Rattle.fst_delayed.specs.Graphs.{delayed_graph};
ghost use Rattle.fst_lattice.specs.Phases.{AllRun, AreEach, AreGathered, HasRun, IsDue, IsHanded, IsIdle, IsPhase, IsReady, IsTakenIn, Laborer};

use crate::gate::Gate;
use crate::lines::Lines;
use crate::threads::threads_for;
use crate::worker::Worker;
use fst_claims::{Claims, Pass};
use fst_delayed::{Cache, Delayed, Meter};
use fst_semiring::Weight;
use std::alloc::{AllocError, Global};
use std::thread::{Threads, for_each_mut};

/// Runs the workers, each with its pass, beside each other, in at most as many threads as there are processors, or two.
fn run_all<R: Threads + Sync, W: Weight + Send + Sync, G: Gate, M: Meter>(
    rt: &R,
    alloc: Global,
    delayed: &Delayed<'_, W, M>,
    gate: &G,
    claims: &Claims,
    lines: &Lines,
    cache: &Cache<W>,
    workers: &mut [Worker<W, M>],
)
where
    W::Wide: Send + Sync,
    requires some { 0 < length workers.old }
    requires few { length workers.old ≤ 64 }
    requires entries { IsTrueOf W.wide_value (delayed_graph W.KIND W.value delayed.now) cache.now }
    requires ready { (k : ℕ) (w : Laborer W.Wide M) → slice_get workers.old k ≡ Some w → IsReady W.KIND W.value W.wide_value M.count M.parts_out M.is_part delayed.now lines.now cache.now claims.now w }
    ensures run { AllRun W.KIND W.value W.wide_value M.count M.parts_out M.is_part delayed.now lines.now cache.now claims.now workers.old workers.new }
{
    let threads = threads_for(rt, workers.len());
    for_each_mut(
        rt,
        workers,
        threads,
        &|number: usize, worker: &mut Worker<W, M>|
            requires entries { IsTrueOf W.wide_value (delayed_graph W.KIND W.value delayed.now) cache.now }
            requires number { number < 64 }
            requires ready { IsReady W.KIND W.value W.wide_value M.count M.parts_out M.is_part delayed.now lines.now cache.now claims.now worker.now }
            ensures run { HasRun W.KIND W.value W.wide_value M.count M.parts_out M.is_part delayed.entry.now lines.entry.now cache.entry.now claims.entry.now worker.entry.now worker.exit.now }
        { worker.run(alloc, delayed, gate, number as u32, claims, lines, cache) },
    );
}

/// Gives each worker a pass with one part.
fn hand_out<W: Weight, M: Meter>(claims: &Claims, pass: &mut Pass, workers: &mut [Worker<W, M>])
    requires pass { IsPassOf claims.now pass.old }
    requires parts { length workers.old < parts pass.old }
    ensures pass { IsPassOf claims.now pass.new × (won pass.new ≡ won pass.old) × (found pass.new ≡ found pass.old) × (parts pass.new + length workers.old ≡ parts pass.old) }
    ensures handed { AreEach (IsHanded claims.now) workers.old workers.new }
{
    for worker in workers.iter_mut() {
        worker.hand(claims.split(pass));
    }
}

/// Joins the pass of a worker to another, and moves what it has expanded behind the entries of a cache.
fn take_in<W: Weight, M: Meter>(
    claims: &Claims,
    pass: &mut Pass,
    worker: &mut Worker<W, M>,
    cache: &mut Cache<W>,
) -> Result<(), AllocError>
    requires pass { IsPassOf claims.now pass.old }
    requires seat { (seat : Pass) × (worker.old.pass ≡ Some seat) × IsPassOf claims.now seat × (won seat ≡ codes worker.old.own) }
    requires known { (n : Name ℕ ℕ) → Has (keys cache.old) n → Has (keys worker.old.own) n → Contains (won pass.old) (code_of n) }
    ensures taken { OnOk result (IsTakenIn claims.now pass.old pass.new cache.old cache.new worker.old worker.new) }
{
    let Some(seat) = worker.give_back() else {
        return Err(AllocError);
    };
    claims.join(pass, seat);
    worker.hand_over(cache)?;
    Ok(())
}

/// Joins the passes of all workers to another, in order, and moves what they have expanded behind the entries of a cache.
fn gather<W: Weight, M: Meter>(
    claims: &Claims,
    pass: &mut Pass,
    workers: &mut [Worker<W, M>],
    cache: &mut Cache<W>,
) -> Result<(), AllocError>
    requires pass { IsPassOf claims.now pass.old × (won pass.old ≡ []) }
    requires due { (k : ℕ) (v : Laborer W.Wide M) → slice_get workers.old k ≡ Some v → v.served ≡ true → IsDue claims.now cache.old v }
    ensures served { OnOk result ((k : ℕ) (v : Laborer W.Wide M) → slice_get workers.old k ≡ Some v → v.served ≡ true) }
    ensures gathered { OnOk result (AreGathered claims.now pass.old pass.new cache.old cache.new workers.old workers.new) }
{
    for worker in workers.iter_mut() {
        if !worker.has_served() {
            return Err(AllocError);
        }
        take_in(claims, pass, worker, cache)?;
    }
    Ok(())
}

/// What a phase reports: its claim table, and the pass that has all parts of it.
#[derive(Drop)]
pub struct PhaseReport {
    /// The table.
    pub claims: Claims,
    /// The pass: it has won the codes of the names that were added to the cache, in order.
    pub pass: Pass,
}

/// A phase of a batch over a claim table of 65,353 places: 1 to 64 workers serve their jobs beside each other. A job whose
/// next name's arcs are not there makes its worker claim that name; the worker that wins it expands it into a cache of its
/// own and goes on, and where it is taken or the table is full, the job waits and the worker takes up the next. Then what
/// the workers have expanded stands behind the entries of the shared cache, worker by worker. After `Memory` the batch is
/// over.
pub fn phase<R: Threads + Sync, W: Weight + Send + Sync, G: Gate, M: Meter>(
    rt: &R,
    alloc: Global,
    delayed: &Delayed<'_, W, M>,
    lines: &Lines,
    cache: &mut Cache<W>,
    workers: &mut [Worker<W, M>],
    gate: &G,
) -> Result<PhaseReport, AllocError>
where
    W::Wide: Send + Sync,
    requires some { 0 < length workers.old }
    requires few { length workers.old ≤ 64 }
    requires entries { IsTrueOf W.wide_value (delayed_graph W.KIND W.value delayed.now) cache.old }
    requires idle { (k : ℕ) (w : Laborer W.Wide M) → slice_get workers.old k ≡ Some w → IsIdle W.KIND W.value W.wide_value M.count M.parts_out M.is_part delayed.now lines.now cache.old w }
    ensures places { IfOk result (λ r. r.claims.places ≡ 65353) }
    ensures phase { IfOk result (λ r. IsPhase W.KIND W.value W.wide_value M.count M.parts_out M.is_part delayed.now lines.now r.claims r.pass cache.old cache.new workers.old workers.new) }
{
    let (claims, mut pass) = Claims::new(alloc, 65_353)?;
    hand_out(&claims, &mut pass, workers);
    run_all(rt, alloc, delayed, gate, &claims, lines, cache, workers);
    gather(&claims, &mut pass, workers, cache)?;
    Ok(PhaseReport { claims, pass })
}
