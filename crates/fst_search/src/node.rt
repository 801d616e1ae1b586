//! What a search keeps of a state.

use fst_machine::Step;
use std::marker::Model;

/// What a search keeps of a state.
#[derive(Clone, Copy)]
pub(crate) struct Node<D> {
    /// Its distance so far; Zero where nothing has come to it.
    pub(crate) distance: D,
    /// The state from which its distance came, and the place of the arc.
    pub(crate) link: Option<Step>,
    /// 0, or 2r + 1 where it was taken in round r, or 2r + 2 where it was put off in that round behind its turn.
    pub(crate) turn: u32,
}

impl<D> Model for Node<D> {
    ghost use Rattle.fst_search.specs.Searching.{Node};

    ghost Value = { Node D };

    ghost view = { λ n. record { distance = n.distance; link = n.link; turn = n.turn } };

    ghost inverse = { λ n. record { distance = n.distance; link = n.link; turn = n.turn } };
}
