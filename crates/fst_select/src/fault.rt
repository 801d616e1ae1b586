//! Why a machine is not pruned.

use fst_machine::Path;

/// Why a machine is not pruned. `Memory` may come in place of any answer.
#[derive(Drop)]
pub enum PruneFault {
    /// A cycle on states that successful paths meet is better than One, so that there is no best path. It is listed from
    /// one of its states back to that state.
    ImprovingCycle {
        /// The cycle.
        cycle: Path,
    },
    /// There is no memory.
    Memory,
}
