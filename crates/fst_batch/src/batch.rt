//! Batches whose lines are answered by their best paths.

ghost use Rattle.std.specs.Prelude.{◌≡◌, ◌+◌, ◌<◌, ◌≤◌, ◌^◌, IfOk, OnOk, false, length};
ghost use Rattle.std.specs.List.{AllZip};
ghost use Rattle.fst_machine.specs.Machine.{most_states};
ghost use Rattle.fst_delayed.specs.Caches.{IsTrueOf, keys};
ghost use Rattle.fst_delayed.specs.Graphs.{delayed_graph};
ghost use Rattle.fst_lattice.specs.Expansions.{AreNeeded, IsExpansions};
ghost use Rattle.fst_lattice.specs.Walks.{IsJob, IsOver};
ghost use Rattle.fst_batch.specs.Answers.{IsAnswer};

use crate::answer::LineAnswer;
use crate::answering::answer_line;
use fst_delayed::{Cache, Delayed, Meter};
use fst_lattice::{Answering, BatchReport, Gate, Job, Lines, run_lines};
use fst_semiring::Weight;
use std::alloc::{AllocError, Global};
use std::marker::Model;
use std::thread::Threads;

/// What is asked of a batch.
#[derive(Clone, Copy, Debug)]
pub struct BatchOptions {
    /// How many paths of a line are listed at most, 1 to 100,000.
    pub nshortest: u32,
    /// How many workers walk lines beside each other, 1 to 64.
    pub workers: u32,
    /// How many names the lattice of a line may have, 1 to 4,194,304.
    pub max_states: u32,
}

/// Answers a line by its best paths.
#[derive(Drop)]
struct BestPaths {
    n: u32,
    limit: u32,
}

impl Model for BestPaths {
    ghost use Rattle.std.specs.Prelude.{◌≤◌, ℕ};
    ghost use Rattle.fst_machine.specs.Machine.{most_states};

    ghost Value = { ℕ × ℕ };

    ghost view = { λ b. (b.n, b.limit) };

    ghost invariant = { λ b. (1 ≤ b.n) × (b.n ≤ 100000) × (b.limit ≤ most_states) };
}

impl<W: Weight + Send, M: Meter> Answering<W, M> for BestPaths {
    type Answer = LineAnswer<W>;

    ghost limit = { λ b. b.1 };

    ghost answers = { λ b d line. IsAnswer W.KIND (delayed_graph W.KIND W.value d) b.0 b.1 line W.value };

    fn answer(
        &self,
        alloc: Global,
        delayed: &Delayed<'_, W, M>,
        line: &[u8],
        cache: &Cache<W>,
        job: &Job,
    ) -> Result<LineAnswer<W>, AllocError> {
        answer_line(alloc, delayed, line, cache, job, self.n)
    }
}

/// Answers lines by the best paths of their lattices, in the order of the lines, by 1 to 64 workers. Each name of the
/// composition that the lines need is expanded once, and the meter rises by as many; how many workers there are changes
/// nothing of that. After `Memory` nothing is said of the meter.
pub fn run_batch<R: Threads + Sync, W: Weight + Send + Sync, G: Gate, M: Meter>(
    rt: &R,
    alloc: Global,
    delayed: &Delayed<'_, W, M>,
    lines: &Lines,
    options: BatchOptions,
    gate: &G,
    meter: &mut M,
) -> Result<BatchReport<LineAnswer<W>, W>, AllocError>
where
    W::Wide: Send + Sync,
    requires paths { (1 ≤ options.nshortest) × (options.nshortest ≤ 100000) }
    requires workers { (0 < options.workers) × (options.workers ≤ 64) }
    requires limit { (0 < options.max_states) × (options.max_states ≤ most_states) }
    requires whole { M.is_part meter.old ≡ false }
    requires count { M.count meter.old < 2 ^ 62 }
    requires out { M.parts_out meter.old < 900 }
    requires lines { length lines.now < 2 ^ 31 }
    ensures answers { IfOk result (λ r. AllZip (λ line answer. IsAnswer W.KIND (delayed_graph W.KIND W.value delayed.now) options.nshortest options.max_states line W.value answer) lines.now r.answers.items) }
    ensures expansions { IfOk result (λ r. IsExpansions lines.now (delayed_graph W.KIND W.value delayed.now) options.max_states r.expansions) }
    ensures cache { IfOk result (λ r. AreNeeded lines.now (delayed_graph W.KIND W.value delayed.now) options.max_states (keys r.cache)) }
    ensures arcs { IfOk result (λ r. IsTrueOf W.wide_value (delayed_graph W.KIND W.value delayed.now) r.cache) }
    ensures count { IfOk result (λ r. M.count meter.new ≡ M.count meter.old + r.expansions) }
    ensures out { OnOk result (M.parts_out meter.new ≡ M.parts_out meter.old) }
    ensures whole { OnOk result (M.is_part meter.new ≡ false) }
{
    let answering = BestPaths {
        n: options.nshortest,
        limit: options.max_states,
    };
    run_lines(
        rt,
        alloc,
        delayed,
        lines,
        &answering,
        options.workers,
        options.max_states,
        gate,
        meter,
    )
}
