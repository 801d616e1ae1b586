//! Lines are dealt to workers.

ghost use Rattle.std.specs.Prelude.{◌≡◌, ◌-◌, ◌<◌, ◌≤◌, ◌^◌, ℕ, List, OnOk, Some, length, slice_get};
ghost use Rattle.fst_delayed.specs.Caches.{Entries, keys};
ghost use Rattle.fst_delayed.specs.Handed.{Name};
ghost use Rattle.fst_machine.specs.Machine.{most_states};
ghost use Rattle.fst_lattice.specs.Phases.{AreEach, Laborer};
ghost use Rattle.fst_lattice.specs.Runs.{IsDealt, all_lines, job_lines, run};

use crate::job::Job;
use crate::lines::Lines;
use crate::worker::Worker;
use fst_delayed::{Delayed, Meter};
use fst_semiring::Weight;
use std::alloc::{AllocError, Global};

/// Gives a worker jobs of the lines from one number up to another, in place of those that it has.
fn fill<W: Weight, M: Meter>(
    alloc: Global,
    delayed: &Delayed<'_, W, M>,
    lines: &Lines,
    from: u64,
    to: u64,
    limit: u32,
    worker: &mut Worker<W, M>,
) -> Result<(), AllocError>
    requires some { 0 < limit }
    requires few { limit ≤ most_states }
    requires order { from ≤ to }
    requires within { to ≤ length lines.now }
    ensures dealt { OnOk result (IsDealt W.KIND W.value W.wide_value delayed.now lines.now limit worker.old worker.new) }
    ensures lines { OnOk result (job_lines worker.new.jobs ≡ run from (to - from)) }
{
    worker.clear();
    for index in from..to {
        let job = Job::new(alloc, index, lines.line(index), delayed, limit)?;
        worker.add(job)?;
    }
    Ok(())
}

/// Deals the lines from one number up to another to workers, in place of the jobs that they have: to each about as many as
/// to the others, in order.
pub(crate) fn deal<W: Weight, M: Meter>(
    alloc: Global,
    delayed: &Delayed<'_, W, M>,
    lines: &Lines,
    from: u64,
    to: u64,
    limit: u32,
    workers: &mut [Worker<W, M>],
) -> Result<(), AllocError>
    requires some { 0 < limit }
    requires few { limit ≤ most_states }
    requires order { from ≤ to }
    requires within { to ≤ length lines.now }
    requires workers { 0 < length workers.old }
    ensures dealt { OnOk result (AreEach (IsDealt W.KIND W.value W.wide_value delayed.now lines.now limit) workers.old workers.new) }
    ensures lines { OnOk result (all_lines workers.new ≡ run from (to - from)) }
{
    let share = (to - from).div_ceil(workers.len() as u64);
    let mut next = from;
    for worker in workers.iter_mut() {
        let last = next + share.min(to - next);
        fill(alloc, delayed, lines, next, last, limit, worker)?;
        next = last;
    }
    Ok(())
}
