//! Paths with their arcs.

use crate::cost::PlainCost;

/// An arc of a path: the state that it leaves, its place there, from 0, and the arc.
#[derive(Clone, Copy, Debug, PartialEq, Eq)]
pub struct PlainTransition {
    /// The number of the state.
    pub state: u32,
    /// The place of the arc among the arcs of the state, from 0.
    pub place: usize,
    /// The input label.
    pub ilabel: u32,
    /// The output label.
    pub olabel: u32,
    /// The weight.
    pub weight: PlainCost,
    /// The number of the next state.
    pub next: u32,
}

/// A successful path with its weight.
#[derive(Drop)]
pub struct PlainPath {
    /// Its arcs in order.
    pub transitions: Vec<PlainTransition>,
    /// Its product Times the final weight of its end.
    pub weight: PlainCost,
}

/// A path from the start, with its end and its product.
#[derive(Drop)]
pub struct PlainPart {
    /// Its arcs in order.
    pub transitions: Vec<PlainTransition>,
    /// The number of the state where it ends.
    pub end: u32,
    /// The product of its weights.
    pub product: PlainCost,
}
