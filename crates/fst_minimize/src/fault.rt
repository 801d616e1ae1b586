//! Why a machine is not minimized.

use fst_machine::Path;
use std::fmt;

/// Why a machine is not minimized. The first that holds, in this order, is the answer; `Memory` may come in place of
/// any answer.
#[derive(Drop)]
pub enum MinimizeFault {
    /// This arc, the first such by state and place, has two different labels.
    NotAcceptor {
        /// The number of the state.
        state: u32,
        /// The place of the arc among those of the state.
        place: u32,
    },
    /// This arc, the first such by state and place, has the label of an earlier arc of its state.
    NotDeterministic {
        /// The number of the state.
        state: u32,
        /// The place of the arc among those of the state.
        place: u32,
    },
    /// A cycle on states that successful paths meet is better than One, so that there are no distances. It is listed from
    /// one of its states back to that state.
    ImprovingCycle {
        /// The cycle.
        cycle: Path,
    },
    /// A weight of this state of the result, the first such, has a number of absolute value above 10 to the 18.
    Overflow {
        /// The number of the state.
        state: u32,
    },
    /// There is no memory.
    Memory,
}

/// Says why, as `not deterministic at state 0 arc 1`. The cycle is not told, since it may be another with another queue.
impl fmt::Display for MinimizeFault {
    ghost use Rattle.std.specs.Prelude.{Some};
    ghost use Rattle.fst_minimize.specs.Faults.{minimize_text};

    ghost output = { λ fault. Some (minimize_text fault) };

    fn fmt<W: fmt::Write>(&self, f: &mut fmt::Formatter<W>) -> fmt::Result {
        match self {
            MinimizeFault::NotAcceptor { state, place } => {
                write!(f, "not an acceptor at state {state} arc {place}")
            }
            MinimizeFault::NotDeterministic { state, place } => {
                write!(f, "not deterministic at state {state} arc {place}")
            }
            MinimizeFault::ImprovingCycle { cycle: _ } => f.write_str("improving cycle"),
            MinimizeFault::Overflow { state } => write!(f, "number too large at state {state}"),
            MinimizeFault::Memory => f.write_str("out of memory"),
        }
    }
}
