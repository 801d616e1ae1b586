//! What is kept of the states of a machine before paths are listed.

use fst_semiring::Weight;

/// What is ahead of each state of a machine.
#[derive(Drop)]
pub struct Ahead<W: Weight> {
    /// For each state its distance to the final states: the weight of a best path to one of them, Zero where there is
    /// none. Of a state that the start does not reach it may be Zero all the same.
    pub dist: Vec<W::Wide>,
    /// Where factors cancel, for each state whose distance is not Zero the fewest arcs of a path with that weight. Where
    /// they do not, this is empty: there the fewest arcs hang on the whole path.
    pub count: Vec<u32>,
}
