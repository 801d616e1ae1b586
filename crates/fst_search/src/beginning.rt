//! A search before its first round, and what is left of it.

ghost use Rattle.std.specs.Prelude.{◌≡◌, ◌≢◌, ◌<◌, ◌⊎◌, ℕ, [], IfOk, OnOk, length, map};
ghost use Rattle.fst_semiring.specs.Cost.{infinite};
ghost use Rattle.fst_semiring.specs.Semiring.{IsCost, Within};
ghost use Rattle.fst_machine.specs.BreadthFirst.{Has};
ghost use Rattle.fst_search.specs.Beginning.{IsBegun, IsBlank, Sets};
ghost use Rattle.fst_search.specs.Searching.{distance_at, valued_node};
ghost use Rattle.fst_search.specs.Trying.{AreBelow};

use crate::node::Node;
use crate::table::Table;
use fst_queue::StateQueue;
use fst_semiring::Weight;
use std::alloc::{AllocError, Global};

/// The table of so many states to none of which anything has come.
pub(crate) fn blank_table<W: Weight>(alloc: Global, states: usize) -> Result<Table<W>, AllocError>
    ensures nodes { IfOk result (λ t. IsBlank states (map (valued_node W.wide_value) t.nodes.items)) }
    ensures later { IfOk result (λ t. t.later.items ≡ []) }
    ensures met { IfOk result (λ t. t.met.items ≡ []) }
{
    let mut nodes = Vec::with_capacity(alloc, states)?;
    for _ in 0..states {
        nodes.push(Node {
            distance: W::zero().widen(),
            link: None,
            turn: 0,
        })?;
    }
    Ok(Table {
        nodes,
        later: Vec::new(alloc),
        met: Vec::new(alloc),
        ahead: 0,
    })
}

/// Gives a state to which nothing has come the value with which hops begin there, and puts it.
pub(crate) fn begin_at<W: Weight, Q: StateQueue>(
    table: &mut Table<W>,
    queue: &mut Q,
    state: u32,
    value: W::Wide,
) -> Result<(), AllocError>
    requires state { state < length table.old.nodes.items }
    requires new { distance_at (map (valued_node W.wide_value) table.old.nodes.items) state ≡ infinite }
    requires some { W.wide_value value ≢ infinite }
    requires kind { IsCost W.KIND (W.wide_value value) }
    ensures begun { OnOk result ((n bound : ℕ) → Within bound (W.wide_value value) → IsBegun W.KIND n bound (map (valued_node W.wide_value) table.old.nodes.items) (Q.members queue.old) table.old.met.items → IsBegun W.KIND n bound (map (valued_node W.wide_value) table.new.nodes.items) (Q.members queue.new) table.new.met.items) }
    ensures sets { OnOk result (Sets state (W.wide_value value) (map (valued_node W.wide_value) table.old.nodes.items) (map (valued_node W.wide_value) table.new.nodes.items)) }
    ensures size { length table.new.nodes.items ≡ length table.old.nodes.items }
    ensures later { table.new.later.items ≡ table.old.later.items }
    ensures below { (n : ℕ) → state < n → AreBelow n (Q.members queue.old) → AreBelow n (Q.members queue.new) }
{
    queue.put(state, W::key(value))?;
    table.met.push(state)?;
    table.nodes[state as usize].distance = value;
    Ok(())
}

/// The distances of a table.
pub(crate) fn distances_of<W: Weight>(
    alloc: Global,
    nodes: &Vec<Node<W::Wide>>,
) -> Result<Vec<W::Wide>, AllocError>
    ensures { IfOk result (λ v. v.items ≡ map (λ node. node.distance) nodes.now.items) }
{
    let mut values = Vec::with_capacity(alloc, nodes.len())?;
    for node in nodes {
        values.push(node.distance)?;
    }
    Ok(values)
}
