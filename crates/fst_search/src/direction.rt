//! From where distances are measured.

/// Whether distances are those from the start to each state, or those from each state to the final states.
#[derive(Clone, Copy, Debug, PartialEq, Eq)]
pub enum Direction {
    /// From the start to each state.
    FromStart,
    /// From each state to the final states, with their final weights.
    ToFinals,
}
