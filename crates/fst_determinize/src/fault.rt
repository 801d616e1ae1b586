//! Why there is no deterministic machine.

use std::alloc::AllocError;
use std::fmt;

/// Why there is no deterministic machine. The first that holds, in this order, is the answer; only `Memory` may come in
/// place of another.
#[derive(Clone, Copy, Debug, PartialEq, Eq)]
pub enum DeterminizeFault {
    /// This arc of this state, the first such by state and then place, has two different labels.
    NotAcceptor { state: u32, place: u32 },
    /// Words of the machine give more different subsets than the limit that are not empty.
    StateLimit { limit: u32 },
    /// The result would have more than 33,554,432 arcs.
    TooManyArcs,
    /// A weight of this state of the result, the first such, has a number of absolute value above 10 to the 18.
    Overflow { state: u32 },
    /// There is no memory.
    Memory,
}

/// Says why, as `state limit 10 passed`.
impl fmt::Display for DeterminizeFault {
    ghost use Rattle.std.specs.Prelude.{Some};
    ghost use Rattle.fst_determinize.specs.Faults.{determinize_text};

    ghost output = { λ fault. Some (determinize_text fault) };

    fn fmt<W: fmt::Write>(&self, f: &mut fmt::Formatter<W>) -> fmt::Result {
        match *self {
            DeterminizeFault::NotAcceptor { state, place } => {
                write!(f, "not an acceptor at state {state} arc {place}")
            }
            DeterminizeFault::StateLimit { limit } => write!(f, "state limit {limit} passed"),
            DeterminizeFault::TooManyArcs => f.write_str("too many arcs"),
            DeterminizeFault::Overflow { state } => write!(f, "number too large at state {state}"),
            DeterminizeFault::Memory => f.write_str("out of memory"),
        }
    }
}

/// Why the arcs of a subset are not made.
#[derive(Clone, Copy, Debug, PartialEq, Eq)]
pub(crate) enum ArcFault {
    /// The form in which residuals are kept has none for one of them.
    NotKept,
    /// There is no memory.
    Memory,
}

impl From<AllocError> for ArcFault {
    ghost use Rattle.std.specs.Prelude.{◌≡◌};
    ghost use Rattle.fst_determinize.specs.declared.fault.ArcFault.TheVariants as faults;

    ghost from_gives = { λ _ e. e ≡ faults.Memory };

    fn from(_e: AllocError) -> ArcFault {
        ArcFault::Memory
    }
}
