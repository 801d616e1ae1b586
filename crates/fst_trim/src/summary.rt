//! What is said of a machine.

use fst_semiring::ArcType;

/// Counts and properties of a machine. (OpenFst manual, "Info".)
#[derive(Clone, Copy, Debug, PartialEq, Eq)]
pub struct Info {
    /// The arc type.
    pub arc_type: ArcType,
    /// The number of states.
    pub states: u32,
    /// The number of arcs.
    pub arcs: u32,
    /// The start, if there is one.
    pub start: Option<u32>,
    /// The number of final states.
    pub final_states: u32,
    /// The number of arcs with input label 0.
    pub input_epsilons: u32,
    /// The number of arcs with output label 0.
    pub output_epsilons: u32,
    /// The number of arcs with both labels 0.
    pub both_epsilons: u32,
    /// The number of states that the start reaches.
    pub accessible: u32,
    /// The number of states that reach a final state.
    pub coaccessible: u32,
    /// The number of states on successful paths.
    pub connected: u32,
    /// Whether both labels of each arc are the same.
    pub acceptor: bool,
    /// Whether the arcs of each state stand by their input labels.
    pub input_sorted: bool,
    /// Whether the arcs of each state stand by their output labels.
    pub output_sorted: bool,
    /// Whether no two arcs of a state have one input label.
    pub deterministic: bool,
}
