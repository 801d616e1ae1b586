//! Why a machine is not pushed.

use fst_machine::Path;
use std::fmt;

/// Why a machine is not pushed. The first that holds, in this order, is the answer; `Memory` may come in place of any
/// answer.
#[derive(Drop)]
pub enum PushFault {
    /// A cycle on states that successful paths meet is better than One, so that there are no distances. It is listed from
    /// one of its states back to that state.
    ImprovingCycle {
        /// The cycle.
        cycle: Path,
    },
    /// The copied start would be state 4,194,304.
    TooManyStates,
    /// With the arcs of the copied start there would be more than 33,554,432.
    TooManyArcs,
    /// A weight of this state of the result, the first such, has a number of absolute value above 10 to the 18.
    Overflow {
        /// The number of the state.
        state: u32,
    },
    /// There is no memory.
    Memory,
}

/// Says why, as `number too large at state 10`; the cycle is not told.
impl fmt::Display for PushFault {
    ghost use Rattle.std.specs.Prelude.{Some};
    ghost use Rattle.fst_distance.specs.Totals.{push_text};

    ghost output = { λ fault. Some (push_text fault) };

    fn fmt<W: fmt::Write>(&self, f: &mut fmt::Formatter<W>) -> fmt::Result {
        match self {
            PushFault::ImprovingCycle { cycle: _ } => f.write_str("improving cycle"),
            PushFault::TooManyStates => f.write_str("too many states"),
            PushFault::TooManyArcs => f.write_str("too many arcs"),
            PushFault::Overflow { state } => write!(f, "number too large at state {state}"),
            PushFault::Memory => f.write_str("out of memory"),
        }
    }
}
