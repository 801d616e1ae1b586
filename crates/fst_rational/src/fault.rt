//! Why an operation has no result.

use std::fmt;

/// Why an operation has no result.
#[derive(Clone, Copy, Debug, PartialEq, Eq)]
pub enum RationalFault {
    /// The result would have more than 4,194,304 states.
    TooManyStates,
    /// The result would have more than 33,554,432 arcs, and no more states than there may be.
    TooManyArcs,
    /// There is no memory.
    Memory,
}

/// Says why, as `too many states`.
impl fmt::Display for RationalFault {
    ghost use Rattle.std.specs.Prelude.{Some};
    ghost use Rattle.fst_rational.specs.Faults.{size_text};

    ghost output = { λ fault. Some (size_text fault) };

    fn fmt<W: fmt::Write>(&self, f: &mut fmt::Formatter<W>) -> fmt::Result {
        match self {
            RationalFault::TooManyStates => f.write_str("too many states"),
            RationalFault::TooManyArcs => f.write_str("too many arcs"),
            RationalFault::Memory => f.write_str("out of memory"),
        }
    }
}
