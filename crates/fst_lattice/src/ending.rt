//! Whether walks are over.

ghost use Rattle.std.specs.Prelude.{◌≡◌, ◌<◌, ℕ, true, false, Some, length, slice_get};
ghost use Rattle.fst_lattice.specs.Phases.{Laborer};
ghost use Rattle.fst_lattice.specs.Runs.{AreDone, IsDone};
ghost use Rattle.fst_lattice.specs.Walks.{LineWalk};

use crate::stage::Stage;
use crate::worker::Worker;
use fst_delayed::Meter;
use fst_semiring::Weight;

/// Whether all jobs of a worker are over.
fn is_done<W: Weight, M: Meter>(worker: &Worker<W, M>) -> bool
    ensures done { result ≡ true → IsDone worker.now }
    ensures left { result ≡ false → (k : ℕ) × (j : LineWalk) × (slice_get worker.now.jobs k ≡ Some j) × (j.stage ≡ Stage.Going) × (j.taken < length j.points) }
{
    for place in 0..worker.len() {
        if !worker.job(place).is_over() {
            return false;
        }
    }
    true
}

/// Whether all jobs of all workers are over.
pub(crate) fn are_done<W: Weight, M: Meter>(workers: &[Worker<W, M>]) -> bool
    ensures done { result ≡ true → AreDone workers.now }
    ensures left { result ≡ false → (k : ℕ) × (w : Laborer W.Wide M) × (slice_get workers.now k ≡ Some w) × (i : ℕ) × (j : LineWalk) × (slice_get w.jobs i ≡ Some j) × (j.stage ≡ Stage.Going) × (j.taken < length j.points) }
{
    for worker in workers {
        if !is_done(worker) {
            return false;
        }
    }
    true
}
