//! What a search has met, and its table made blank again.

ghost use Rattle.std.specs.Prelude.{◌≡◌, ◌<◌, ℕ, [], IfOk, length, map};
ghost use Rattle.fst_machine.specs.BreadthFirst.{Apart, Has};
ghost use Rattle.fst_search.specs.Closure.{Unmeeting, valued_reached};
ghost use Rattle.fst_search.specs.Searching.{valued_node};

use crate::node::Node;
use crate::table::Table;
use fst_semiring::Weight;
use std::alloc::{AllocError, Global};
use std::marker::Model;

/// A state that a search has met, and its distance.
#[derive(Clone, Copy)]
pub struct Reached<D> {
    /// The number of the state.
    pub state: u32,
    /// Its distance.
    pub distance: D,
}

impl<D> Model for Reached<D> {
    ghost use Rattle.fst_search.specs.Closure.{Reached};

    ghost Value = { Reached D };

    ghost view = { λ r. record { state = r.state; distance = r.distance } };

    ghost inverse = { λ r. record { state = r.state; distance = r.distance } };
}

/// Takes out the states that were met, each with its distance, and makes them blank.
pub(crate) fn take_met<W: Weight>(
    alloc: Global,
    table: &mut Table<W>,
) -> Result<Vec<Reached<W::Wide>>, AllocError>
    requires apart { Apart table.old.met.items }
    requires low { (q : ℕ) → Has table.old.met.items q → q < length table.old.nodes.items }
    ensures list { IfOk result (λ list. Unmeeting (map (valued_node W.wide_value) table.old.nodes.items) (map (valued_node W.wide_value) table.new.nodes.items) table.old.met.items table.new.met.items (map (valued_reached W.wide_value) list.items)) }
    ensures none { IfOk result (λ list. table.new.met.items ≡ []) }
    ensures later { table.new.later.items ≡ table.old.later.items }
{
    let mut list = Vec::with_capacity(alloc, table.met.len())?;
    while let Some(state) = table.met.pop() {
        let distance = table.nodes[state as usize].distance;
        list.push(Reached { state, distance })?;
        table.nodes[state as usize] = Node {
            distance: W::zero().widen(),
            link: None,
            turn: 0,
        };
    }
    Ok(list)
}
