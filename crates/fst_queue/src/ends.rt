//! The ends of a list at which states leave it.

ghost use Rattle.std.specs.Prelude.{◌≡◌, ℕ, List, [], Option, None, Some, IfSome};
ghost use Rattle.fst_machine.specs.BreadthFirst.{Apart, Has};
ghost use Rattle.fst_queue.specs.Members.{Takes};
ghost use Rattle.fst_queue.specs.Orders.{TakesFirst, TakesLast};

use std::collections::VecDeque;

/// An end of a list, at which states leave it.
pub trait End {
    /// The list before, the state that leaves and the list after; without a state where the list is empty.
    ghost leaves: { List ℕ → Option ℕ → List ℕ → Type 0 };

    /// Takes out the state at this end; `None` exactly where there is none. Takes constant time and no memory.
    fn pop(states: &mut VecDeque<u32>) -> Option<u32>
        ensures { leaves states.old.items result states.new.items };

    /// The state at this end, where it is told; `None` says nothing. Takes constant time and no memory.
    fn peek(_states: &VecDeque<u32>) -> Option<u32>
        ensures { IfSome result (Has _states.now.items) }
    {
        None
    }

    // No state leaves an empty list alone.
    ghost empty: { (old new : List ℕ) → leaves old None new → (old ≡ []) × (new ≡ []) };

    // Just the state that leaves is no member any more.
    ghost takes: { (old new : List ℕ) (state : ℕ) → leaves old (Some state) new → Apart old → Apart new × Takes old (Some state) new };
}

/// The end at which the list begins.
pub struct First;

impl End for First {
    ghost use Rattle.fst_queue.specs.Orders.{TakesFirst};
    ghost use Rattle.fst_queue.specs.Leaving.{first_takes};

    ghost leaves = { TakesFirst };

    ghost empty = { λ old new none. none };

    ghost takes = { λ old new state is apart. first_takes old new state is apart };

    fn pop(states: &mut VecDeque<u32>) -> Option<u32> {
        states.pop_front()
    }

    fn peek(states: &VecDeque<u32>) -> Option<u32> {
        states.front().copied()
    }
}

/// The end after the last.
pub struct Last;

impl End for Last {
    ghost use Rattle.fst_queue.specs.Orders.{TakesLast};
    ghost use Rattle.fst_queue.specs.Leaving.{popped_takes};

    ghost leaves = { TakesLast };

    ghost empty = { λ old new none. none };

    ghost takes = { λ old new state is apart. popped_takes old new state is apart };

    fn pop(states: &mut VecDeque<u32>) -> Option<u32> {
        states.pop_back()
    }
}
