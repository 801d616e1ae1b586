//! Why there are no distances.

use fst_machine::Path;

/// Why there are no distances.
#[derive(Drop)]
pub enum DistanceFault {
    /// A cycle on states that count is better than One, so that there is no best path. It is listed from one of its
    /// states back to that state.
    ImprovingCycle { cycle: Path },
    /// There is no memory.
    Memory,
}
