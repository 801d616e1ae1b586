//! A queue of the tests' own.

ghost use Rattle.std.specs.Prelude.{◌≡◌, []};
ghost use Rattle.fst_queue.specs.Heap.{states_of};

use fst_queue::{BestFirst, StateQueue};
use fst_semiring::Key;
use std::alloc::{AllocError, Global};

/// A queue that gives a state with the worst key first, which is a bad order: a search comes back to states again and
/// again.
#[derive(Drop)]
pub(crate) struct WorstFirst {
    inner: BestFirst,
}

impl WorstFirst {
    /// The queue without members.
    pub(crate) fn new(alloc: Global) -> WorstFirst
        ensures { states_of result.inner ≡ [] }
    {
        WorstFirst {
            inner: BestFirst::new(alloc),
        }
    }
}

impl StateQueue for WorstFirst {
    ghost use Rattle.fst_queue.specs.Heap.{states_of};

    ghost members = { λ q. states_of q.inner };

    fn put(&mut self, state: u32, key: Key) -> Result<(), AllocError> {
        let turned = Key {
            class: key.class,
            first: 0i128.wrapping_sub(key.first),
            second: 0i128.wrapping_sub(key.second),
        };
        self.inner.put(state, turned)
    }

    fn take(&mut self) -> Option<u32> {
        self.inner.take()
    }

    fn is_empty(&self) -> bool {
        self.inner.is_empty()
    }
}
