//! Why the strings of a machine are not listed.

use fst_machine::Path;

/// Why the strings of a machine are not listed. The first that holds, in this order, is the answer; only `Memory` may come in
/// place of another.
#[derive(Drop)]
pub enum UniqueFault {
    /// This arc of this state, the first such by state and then place, has two different labels.
    NotAcceptor {
        /// The number of its state.
        state: u32,
        /// Its place among the arcs of the state.
        place: u32,
    },
    /// This arc of this state, the first such by state and then place, has label 0.
    HasEpsilon {
        /// The number of its state.
        state: u32,
        /// Its place among the arcs of the state.
        place: u32,
    },
    /// A cycle on states that successful paths meet is better than One, so that there is no best string. It is listed from one
    /// of its states back to that state.
    ImprovingCycle {
        /// The cycle.
        cycle: Path,
    },
    /// There is no memory.
    Memory,
}
