//! What a search knows of a queue of states.

ghost use Rattle.std.specs.Prelude.{◌≡◌, [], IfSome, OnOk, OnErr};
ghost use Rattle.std.specs.Bool.{Decides};
ghost use Rattle.fst_machine.specs.BreadthFirst.{Apart, Has};
ghost use Rattle.fst_queue.specs.Members.{Adds, Takes};

use fst_semiring::Key;
use std::alloc::AllocError;

/// States that wait for their turn, each once. Contracts see the list of them, the members, whose order says nothing.
pub trait StateQueue: Drop {
    ghost use Rattle.std.specs.Prelude.{ℕ, List};

    /// The states that wait.
    ghost members: { Self → List ℕ };

    /// Adds a state with its key. The members stay as they are where it is one of them already, and where memory runs
    /// out.
    ///
    /// The queues of this crate take constant time, `BestFirst` logarithmic time, apart from growth; a queue has room
    /// for each state up to the greatest that was ever put.
    fn put(&mut self, state: u32, key: Key) -> Result<(), AllocError>
        ensures ok { OnOk result (Adds (members self.old) state (members self.new)) }
        ensures err { OnErr result (members self.new ≡ members self.old) }
        ensures apart { Apart (members self.new) };

    /// Takes a member out; `None` exactly where there is none. Takes no memory, and constant time in the queues of this
    /// crate, logarithmic time in `BestFirst`.
    fn take(&mut self) -> Option<u32>
        ensures takes { Takes (members self.old) result (members self.new) }
        ensures apart { Apart (members self.new) };

    /// Whether there is no member. Takes constant time and no memory.
    fn is_empty(&self) -> bool
        ensures { Decides result (members self.now ≡ []) };

    /// A member that may be the next to leave, so that what is kept of it can be fetched early. `None` says nothing.
    /// Takes constant time and no memory.
    fn peek(&self) -> Option<u32>
        ensures { IfSome result (Has (members self.now)) }
    {
        None
    }
}

/// A queue in a box: the queue itself.
impl StateQueue for Box<dyn StateQueue> {
    ghost members = { λ b. (StateQueue-box b).members b.value };

    fn put(&mut self, state: u32, key: Key) -> Result<(), AllocError> {
        (**self).put(state, key)
    }

    fn take(&mut self) -> Option<u32> {
        (**self).take()
    }

    fn is_empty(&self) -> bool {
        (**self).is_empty()
    }

    fn peek(&self) -> Option<u32> {
        (**self).peek()
    }
}
