//! The queue that takes a state of least key.

ghost use Rattle.std.specs.Prelude.{◌≡◌, [], OnOk, OnErr};
ghost use Rattle.std.specs.Bool.{Decides};
ghost use Rattle.fst_queue.specs.Heap.{states_of, Rekeys, TakesBest};
ghost use Rattle.fst_machine.specs.BreadthFirst.{Apart};
ghost use Rattle.fst_queue.specs.Members.{Adds, Takes};

use crate::heap::{insert, leave};
use crate::queue::StateQueue;
use fst_semiring::Key;
use std::alloc::{AllocError, Global};
use std::marker::Model;

/// The best first. Contracts see the members with the keys of their last puts, in an order that says nothing.
///
/// It takes 4 bytes a member and 56 bytes for each state up to the greatest that was ever put.
#[derive(Drop)]
pub struct BestFirst {
    heap: Vec<u32>,
    places: Vec<usize>,
    keys: Vec<Key>,
}

impl Model for BestFirst {
    ghost use Rattle.std.specs.Prelude.{ℕ, List};
    ghost use Rattle.fst_semiring.specs.declared.key.Key.{Key};
    ghost use Rattle.fst_queue.specs.Heap.{entries_of, Heaped};

    ghost Value = { List (ℕ × Key) };

    ghost view = { λ q. entries_of q.keys.items q.heap.items };

    ghost invariant = { λ q. Heaped q.heap.items q.places.items q.keys.items };
}

impl BestFirst {
    /// The queue without members. Takes constant time and no memory.
    pub fn new(alloc: Global) -> BestFirst
        ensures { result ≡ [] }
    {
        BestFirst {
            heap: Vec::new(alloc),
            places: Vec::new(alloc),
            keys: Vec::new(alloc),
        }
    }
}

impl StateQueue for BestFirst {
    ghost members = { states_of };

    /// Adds a state with its key. A state that is present gets the new key.
    ///
    /// Takes time logarithmic in the members, apart from growth; memory only to grow.
    fn put(&mut self, state: u32, key: Key) -> Result<(), AllocError>
        ensures ok { OnOk result (Adds (states_of self.old) state (states_of self.new)) }
        ensures err { OnErr result (self.new ≡ self.old) }
        ensures apart { Apart (states_of self.new) }
        ensures keys { OnOk result (Rekeys self.old state key self.new) }
    {
        insert(&mut self.heap, &mut self.places, &mut self.keys, state, key)
    }

    /// Takes a state whose key no other betters. Takes time logarithmic in the members, and no memory.
    fn take(&mut self) -> Option<u32>
        ensures takes { Takes (states_of self.old) result (states_of self.new) }
        ensures apart { Apart (states_of self.new) }
        ensures best { TakesBest self.old result self.new }
    {
        leave(&mut self.heap, &mut self.places, &self.keys)
    }

    /// Whether there is no member. Takes constant time and no memory.
    fn is_empty(&self) -> bool {
        self.heap.is_empty()
    }
}
