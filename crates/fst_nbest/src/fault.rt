//! Why there are no best paths.

use fst_machine::Path;

/// Why there are no best paths.
#[derive(Drop)]
pub enum NbestFault {
    /// A cycle on states that successful paths meet is better than One, so that there is no best path. It is listed
    /// from one of its states back to that state, in the states and places of the given machine.
    ImprovingCycle { cycle: Path },
    /// There is no memory.
    Memory,
}
