//! Why there is no composition.

use std::fmt;

/// Why there is no composition. The first that holds, in this order, is the answer; only `Memory` may come
/// in place of another.
#[derive(Clone, Copy, Debug, PartialEq, Eq)]
pub enum ComposeFault {
    /// The arcs of some state of the first machine do not stand by their output labels, and those of some state
    /// of the second do not stand by their input labels.
    NotSorted,
    /// The result would have more states than the limit.
    StateLimit { limit: u32 },
    /// The result would have more than 33,554,432 arcs.
    TooManyArcs,
    /// A weight of this state of the result, the first such, has a number of absolute value above 10 to the 18.
    Overflow { state: u32 },
    /// There is no memory.
    Memory,
}

/// Says why, as `state limit 10 passed`.
impl fmt::Display for ComposeFault {
    ghost use Rattle.std.specs.Prelude.{Some};
    ghost use Rattle.fst_compose.specs.Faults.{compose_text};

    ghost output = { λ fault. Some (compose_text fault) };

    fn fmt<W: fmt::Write>(&self, f: &mut fmt::Formatter<W>) -> fmt::Result {
        match *self {
            ComposeFault::NotSorted => f.write_str("neither machine is sorted for composition"),
            ComposeFault::StateLimit { limit } => write!(f, "state limit {limit} passed"),
            ComposeFault::TooManyArcs => f.write_str("too many arcs"),
            ComposeFault::Overflow { state } => write!(f, "number too large at state {state}"),
            ComposeFault::Memory => f.write_str("out of memory"),
        }
    }
}
