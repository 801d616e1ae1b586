//! The queues that take states by the order in which they were put.

ghost use Rattle.std.specs.Prelude.{◌≡◌, [], OnOk, OnErr};
ghost use Rattle.std.specs.Bool.{Decides};
ghost use Rattle.fst_machine.specs.BreadthFirst.{Apart};
ghost use Rattle.fst_queue.specs.Members.{Adds, Takes};
ghost use Rattle.fst_queue.specs.Orders.{Joins};

use crate::ends::{End, First, Last};
use crate::marks::{grow, is_marked};
use crate::queue::StateQueue;
use fst_semiring::Key;
use std::alloc::{AllocError, Global};
use std::collections::VecDeque;
use std::marker::{Model, PhantomData};

/// States in the order in which they were put, which leave at one end. Contracts see the members in this order.
///
/// It takes 4 bytes a member and one byte for each state up to the greatest that was ever put.
#[derive(Drop)]
pub struct InOrder<E: End> {
    states: VecDeque<u32>,
    marks: Vec<bool>,
    end: PhantomData<E>,
}

/// First in, first out.
pub type Fifo = InOrder<First>;

/// Last in, first out.
pub type Lifo = InOrder<Last>;

impl<E: End> Model for InOrder<E> {
    ghost use Rattle.std.specs.Prelude.{ℕ, List};
    ghost use Rattle.fst_machine.specs.BreadthFirst.{Apart};
    ghost use Rattle.fst_machine.specs.Marks.{Marks};

    ghost Value = { List ℕ };

    ghost view = { λ q. q.states.items };

    ghost invariant = { λ q. Apart q.states.items × Marks q.marks.items q.states.items };
}

impl<E: End> InOrder<E> {
    /// The queue without members. Takes constant time and no memory.
    pub fn new(alloc: Global) -> InOrder<E>
        ensures { result ≡ [] }
    {
        InOrder {
            states: VecDeque::new(alloc),
            marks: Vec::new(alloc),
            end: PhantomData,
        }
    }
}

impl<E: End> StateQueue for InOrder<E> {
    ghost members = { λ q. q };

    /// Adds a state after the others. A state that is present keeps its place. The key says nothing.
    ///
    /// Takes constant time, apart from growth; memory only to grow.
    fn put(&mut self, state: u32, _key: Key) -> Result<(), AllocError>
        ensures ok { OnOk result (Adds self.old state self.new) }
        ensures err { OnErr result (self.new ≡ self.old) }
        ensures apart { Apart self.new }
        ensures last { OnOk result (Joins self.old state self.new) }
    {
        if is_marked(&self.marks, state) {
            return Ok(());
        }
        grow(&mut self.marks, state)?;
        self.states.push_back(state)?;
        self.marks[state as usize] = true;
        Ok(())
    }

    /// Takes the state at the end at which states leave. Takes constant time and no memory.
    fn take(&mut self) -> Option<u32>
        ensures takes { Takes self.old result self.new }
        ensures apart { Apart self.new }
        ensures leaves { E.leaves self.old result self.new }
    {
        let state = E::pop(&mut self.states)?;
        self.marks[state as usize] = false;
        Some(state)
    }

    /// Whether there is no member. Takes constant time and no memory.
    fn is_empty(&self) -> bool {
        self.states.is_empty()
    }

    /// The state at the end at which states leave, where it is told. Takes constant time and no memory.
    fn peek(&self) -> Option<u32> {
        E::peek(&self.states)
    }
}
