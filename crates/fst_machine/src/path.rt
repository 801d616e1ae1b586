//! Paths as they are written down.

use fst_fields::List;

/// One arc of a path: the state that it leaves, and its place among the arcs of that state, from 0.
#[derive(Clone, Copy, Debug, PartialEq, Eq)]
pub struct Step {
    /// The number of the state.
    pub state: u32,
    /// The place of the arc among the arcs of the state, from 0.
    pub place: u32,
}

/// A path: its steps in order. (Mohri 2009, section 3.1.)
pub type Path = List<Step>;

/// Paths in order.
pub type Paths = List<Path>;
