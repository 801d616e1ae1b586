//! Workers are hired for a batch, and dismissed after it.

ghost use Rattle.std.specs.Prelude.{◌≡◌, ◌+◌, ◌<◌, ◌≤◌, ◌^◌, [], ℕ, true, false, IfOk, OnOk, None, Some, length, slice_get, sum_by};
ghost use Rattle.fst_lattice.specs.Phases.{Laborer};
ghost use Rattle.fst_lattice.specs.Runs.{IsNew};

use crate::worker::Worker;
use fst_delayed::Meter;
use fst_semiring::Weight;
use std::alloc::{AllocError, Global};

/// Workers without jobs, each with a part of a meter.
pub(crate) fn hire<W: Weight, M: Meter>(
    alloc: Global,
    meter: &mut M,
    count: u32,
) -> Result<Vec<Worker<W, M>>, AllocError>
    requires whole { M.is_part meter.old ≡ false }
    requires few { M.parts_out meter.old + count ≤ 1000 }
    ensures size { IfOk result (λ workers. length workers.items ≡ count) }
    ensures new { IfOk result (λ workers. (k : ℕ) (w : Laborer W.Wide M) → slice_get workers.items k ≡ Some w → IsNew M.count M.is_part w) }
    ensures count { OnOk result (M.count meter.new ≡ M.count meter.old) }
    ensures parts { OnOk result (M.parts_out meter.new ≡ M.parts_out meter.old + count) }
    ensures part { OnOk result (M.is_part meter.new ≡ false) }
{
    let mut workers = Vec::new(alloc);
    for _worker in 0..count {
        workers.push(Worker::new(alloc, meter.split()))?;
    }
    Ok(workers)
}

/// Joins the meters of workers to the meter of which they are parts.
pub(crate) fn dismiss<W: Weight, M: Meter>(workers: Vec<Worker<W, M>>, meter: &mut M)
    requires whole { M.is_part meter.old ≡ false }
    requires out { length workers.items ≤ M.parts_out meter.old }
    requires parts { (k : ℕ) (w : Laborer W.Wide M) → slice_get workers.items k ≡ Some w → M.is_part w.meter ≡ true }
    requires few { M.count meter.old + sum_by (λ w. M.count w.meter) workers.items < 2 ^ 63 }
    ensures count { M.count meter.new ≡ M.count meter.old + sum_by (λ w. M.count w.meter) workers.items }
    ensures parts { M.parts_out meter.new + length workers.items ≡ M.parts_out meter.old }
    ensures part { M.is_part meter.new ≡ false }
{
    let mut left = workers;
    while let Some(worker) = left.pop() {
        meter.join(worker.into_meter());
    }
}
