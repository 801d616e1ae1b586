//! Why a rule is not added, and why there is no replacement.

use std::fmt;

/// Why a rule is not added. The rules are then as before.
#[derive(Clone, Copy, Debug, PartialEq, Eq)]
pub enum AddFault {
    /// A rule has the label.
    LabelTaken,
    /// There is no memory.
    Memory,
}

/// Why there is no replacement.
#[derive(Clone, Copy, Debug, PartialEq, Eq)]
pub enum ReplaceFault {
    /// A rule that the root reaches can call itself. The label is that of the first such rule.
    Recursive { label: u32 },
    /// The result would have more than 4,194,304 states.
    TooManyStates,
    /// The result would have more than 33,554,432 arcs, and no more states than there may be.
    TooManyArcs,
    /// There is no memory.
    Memory,
}

/// Says why, as `label 5 is recursive`.
impl fmt::Display for ReplaceFault {
    ghost use Rattle.std.specs.Prelude.{Some};
    ghost use Rattle.fst_replace.specs.Faults.{replace_text};

    ghost output = { λ fault. Some (replace_text fault) };

    fn fmt<W: fmt::Write>(&self, f: &mut fmt::Formatter<W>) -> fmt::Result {
        match *self {
            ReplaceFault::Recursive { label } => write!(f, "label {label} is recursive"),
            ReplaceFault::TooManyStates => f.write_str("too many states"),
            ReplaceFault::TooManyArcs => f.write_str("too many arcs"),
            ReplaceFault::Memory => f.write_str("out of memory"),
        }
    }
}
