//! Why epsilon arcs are not removed.

use fst_machine::Path;
use std::fmt;

/// Why epsilon arcs are not removed. The first that holds, in this order, is the answer; `Memory` may come in place of
/// any answer.
#[derive(Drop)]
pub enum EpsilonFault {
    /// A cycle of epsilon arcs on states that the start reaches is better than One, so that there are no distances over
    /// such arcs. It is listed from one of its states back to that state.
    ImprovingCycle {
        /// The cycle.
        cycle: Path,
    },
    /// The result would have more than 33,554,432 arcs.
    TooManyArcs,
    /// A weight of this state of the result, the first such, has a number of absolute value above 10 to the 18.
    Overflow {
        /// The number of the state.
        state: u32,
    },
    /// There is no memory.
    Memory,
}

/// Says why, as `number too large at state 2`.
impl fmt::Display for EpsilonFault {
    ghost use Rattle.std.specs.Prelude.{Some};
    ghost use Rattle.fst_epsilon.specs.Faults.{epsilon_text};

    ghost output = { λ fault. Some (epsilon_text fault) };

    fn fmt<W: fmt::Write>(&self, f: &mut fmt::Formatter<W>) -> fmt::Result {
        match self {
            EpsilonFault::ImprovingCycle { cycle: _ } => f.write_str("improving cycle"),
            EpsilonFault::TooManyArcs => f.write_str("too many arcs"),
            EpsilonFault::Overflow { state } => write!(f, "number too large at state {state}"),
            EpsilonFault::Memory => f.write_str("out of memory"),
        }
    }
}
