//! In how many threads workers run.

ghost use Rattle.std.specs.Prelude.{◌<◌, ◌≤◌};

use std::thread::{Threads, available_parallelism};

/// In how many threads so many workers run: each in one of its own, but in no more than there are processors, where more would
/// only wait for each other. Two workers have two in any case, so that none has to wait for the end of the other.
pub(crate) fn threads_for<R: Threads>(rt: &R, workers: usize) -> usize
    requires { 0 < workers }
    ensures some { 0 < result }
    ensures few { result ≤ workers }
    ensures two { 2 ≤ workers → 2 ≤ result }
{
    if workers <= 2 {
        return workers;
    }
    let processors = match available_parallelism(rt) {
        Ok(count) => count.get(),
        Err(_) => 2,
    };
    workers.min(processors.max(2))
}
