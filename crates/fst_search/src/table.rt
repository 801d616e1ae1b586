//! The table of a search.

ghost use Rattle.std.specs.Prelude.{◌≡◌, ◌≢◌, ◌+◌, ◌<◌, ℕ, IfOk, OnOk, length, map};
ghost use Rattle.std.specs.Bool.{Decides};
ghost use Rattle.fst_semiring.specs.Cost.{infinite};
ghost use Rattle.fst_semiring.specs.Semiring.{IsCost};
ghost use Rattle.fst_machine.specs.BreadthFirst.{Has};
ghost use Rattle.fst_search.specs.Hops.{Better};
ghost use Rattle.fst_search.specs.Searching.{distance_at, valued_node};
ghost use Rattle.fst_search.specs.Trying.{AreBelow, Betters, Met, Placed, Tried};

use crate::node::Node;
use fst_machine::Step;
use fst_queue::StateQueue;
use fst_semiring::{Key, Weight};
use std::alloc::AllocError;
use std::cmp::Ordering;

/// The table of a search: what is kept of each state, the states that are put off to the next round, and the states
/// that something came to. A search leaves the table so that it may be used again, once the states that were met are
/// made blank.
#[derive(Drop)]
pub(crate) struct Table<W: Weight> {
    pub(crate) nodes: Vec<Node<W::Wide>>,
    pub(crate) later: Vec<u32>,
    pub(crate) met: Vec<u32>,
    /// What was read of the links of the state that is likely taken next. It says nothing.
    pub(crate) ahead: u32,
}

/// Whether the first value is better than the second.
fn is_better<W: Weight>(a: W::Wide, b: W::Wide) -> bool
    ensures better { Decides result (Better (W.wide_value a) (W.wide_value b)) }
    ensures kind { IsCost W.KIND (W.wide_value a) }
{
    match W::wide_compare(a, b) {
        Ordering::Less => true,
        _ => false,
    }
}

/// Whether a value is Zero. Takes constant time and no memory.
pub fn is_zero_wide<W: Weight>(value: W::Wide) -> bool
    ensures zero { Decides result (W.wide_value value ≡ infinite) }
    ensures kind { IsCost W.KIND (W.wide_value value) }
{
    let _kind = W::wide_compare(value, value);
    W::key(value).class == 2
}

/// Adds a state to those that something came to, where nothing did before.
fn meet<W: Weight>(met: &mut Vec<u32>, state: u32, before: W::Wide) -> Result<(), AllocError>
    ensures { OnOk result (Met state (W.wide_value before) met.old.items met.new.items) }
{
    if is_zero_wide::<W>(before) {
        met.push(state)?;
    }
    Ok(())
}

/// Puts a state that became better into the queue where its turn is to come, and puts it off where it was taken in this
/// round; gives its turn.
fn place<Q: StateQueue>(
    queue: &mut Q,
    later: &mut Vec<u32>,
    mark: u32,
    state: u32,
    turn: u32,
    key: Key,
) -> Result<u32, AllocError>
    requires { mark < 4294967295 }
    ensures placed { IfOk result (λ after. Placed mark state turn after (Q.members queue.old) (Q.members queue.new) later.old.items later.new.items) }
    ensures below { (n : ℕ) → state < n → AreBelow n (Q.members queue.old) → AreBelow n (Q.members queue.new) }
{
    if turn < mark {
        queue.put(state, key)?;
        return Ok(turn);
    }
    if turn == mark {
        later.push(state)?;
        return Ok(mark + 1);
    }
    Ok(turn)
}

/// Gives a state a better value, with the step from which it came. It stands apart from the loop over the links, most
/// of which bring nothing better: that loop is so short that the processor fetches several nodes at once.
#[inline(never)]
fn improve<W: Weight, Q: StateQueue>(
    table: &mut Table<W>,
    queue: &mut Q,
    mark: u32,
    state: u32,
    value: W::Wide,
    step: Step,
) -> Result<(), AllocError>
    requires mark { mark < 4294967295 }
    requires state { state < length table.old.nodes.items }
    requires better { Better (W.wide_value value) (distance_at (map (valued_node W.wide_value) table.old.nodes.items) state) }
    ensures betters { OnOk result (Betters mark state (W.wide_value value) step (map (valued_node W.wide_value) table.old.nodes.items) (map (valued_node W.wide_value) table.new.nodes.items) (Q.members queue.old) (Q.members queue.new) table.old.later.items table.new.later.items table.old.met.items table.new.met.items) }
    ensures size { length table.new.nodes.items ≡ length table.old.nodes.items }
    ensures below { (n : ℕ) → state < n → AreBelow n (Q.members queue.old) → AreBelow n (Q.members queue.new) }
{
    let before = table.nodes[state as usize];
    meet::<W>(&mut table.met, state, before.distance)?;
    let turn = place(
        queue,
        &mut table.later,
        mark,
        state,
        before.turn,
        W::key(value),
    )?;
    table.nodes[state as usize] = Node {
        distance: value,
        link: Some(step),
        turn,
    };
    Ok(())
}

/// Gives a state a value, with the step from which it came, where it is better than its distance so far.
pub(crate) fn try_value<W: Weight, Q: StateQueue>(
    table: &mut Table<W>,
    queue: &mut Q,
    mark: u32,
    state: u32,
    value: W::Wide,
    step: Step,
) -> Result<(), AllocError>
    requires mark { mark < 4294967295 }
    requires state { state < length table.old.nodes.items }
    ensures tried { OnOk result (Tried mark state (W.wide_value value) step (map (valued_node W.wide_value) table.old.nodes.items) (map (valued_node W.wide_value) table.new.nodes.items) (Q.members queue.old) (Q.members queue.new) table.old.later.items table.new.later.items table.old.met.items table.new.met.items) }
    ensures kind { IsCost W.KIND (W.wide_value value) }
    ensures size { length table.new.nodes.items ≡ length table.old.nodes.items }
    ensures below { (n : ℕ) → state < n → AreBelow n (Q.members queue.old) → AreBelow n (Q.members queue.new) }
{
    if !is_better::<W>(value, table.nodes[state as usize].distance) {
        return Ok(());
    }
    improve(table, queue, mark, state, value, step)?;
    Ok(())
}
