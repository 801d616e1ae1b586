//! Why a text is not read, or a machine not printed.

ghost use Rattle.std.specs.Prelude.{◌≡◌};
ghost use Rattle.fst_text.specs.Faults.{line_of, reason_of};

use std::fmt;

/// Why a text is no machine: the first fault of the first faulty line. Lines count from 1, blank ones
/// included. In a line the number of fields comes first, then the fields from left to right, then the
/// number of arcs.
#[derive(Clone, Copy, Debug, PartialEq, Eq)]
pub enum TextFault {
    /// A transducer's line has not 1, 2, 4 or 5 fields, or an acceptor's not 1 to 4.
    BadColumns { line: u64 },
    /// A state is not one to eighteen decimal digits.
    BadState { line: u64 },
    /// A label of a side without symbol table is not one to eighteen decimal digits, or is above 2,147,483,647.
    BadLabel { line: u64 },
    /// A label is no name of the symbol table of its side.
    UnknownSymbol { line: u64 },
    /// A weight is no weight text of the arc type, or an arc has weight Zero.
    BadWeight { line: u64 },
    /// A state would make more than 4,194,304 states.
    TooManyStates { line: u64 },
    /// The line is arc number 33,554,433.
    TooManyArcs { line: u64 },
    /// There is no memory.
    Memory,
}

impl TextFault {
    /// The line, from 1; 0 where there is no memory. Takes no memory.
    pub fn line(self) -> u64
        ensures { result ≡ line_of self }
    {
        match self {
            TextFault::BadColumns { line }
            | TextFault::BadState { line }
            | TextFault::BadLabel { line }
            | TextFault::UnknownSymbol { line }
            | TextFault::BadWeight { line }
            | TextFault::TooManyStates { line }
            | TextFault::TooManyArcs { line } => line,
            TextFault::Memory => 0,
        }
    }

    /// What is wrong with the line. Takes no memory.
    pub fn reason(self) -> &'static str
        ensures { result.now ≡ reason_of self }
    {
        match self {
            TextFault::BadColumns { line: _ } => "wrong number of columns",
            TextFault::BadState { line: _ } => "bad state",
            TextFault::BadLabel { line: _ } => "bad label",
            TextFault::UnknownSymbol { line: _ } => "unknown symbol",
            TextFault::BadWeight { line: _ } => "bad weight",
            TextFault::TooManyStates { line: _ } => "too many states",
            TextFault::TooManyArcs { line: _ } => "too many arcs",
            TextFault::Memory => "out of memory",
        }
    }
}

/// Why a machine is not printed.
#[derive(Clone, Copy, Debug, PartialEq, Eq)]
pub enum PrintFault {
    /// It is to be printed as an acceptor, and this arc is the first, by state and then by place, with two
    /// different labels. Both numbers count from 0.
    NotAcceptor { state: u32, place: u32 },
    /// This label, the first in the order of printing, has no name in the symbol table of its side.
    UnknownSymbol { label: u32 },
    /// There is no memory.
    Memory,
}

/// Says why, as `no symbol for label 5`.
impl fmt::Display for PrintFault {
    ghost use Rattle.std.specs.Prelude.{Some};
    ghost use Rattle.fst_text.specs.Faults.{print_text};

    ghost output = { λ fault. Some (print_text fault) };

    fn fmt<W: fmt::Write>(&self, f: &mut fmt::Formatter<W>) -> fmt::Result {
        match *self {
            PrintFault::NotAcceptor { state, place } => {
                write!(f, "not an acceptor at state {state} arc {place}")
            }
            PrintFault::UnknownSymbol { label } => write!(f, "no symbol for label {label}"),
            PrintFault::Memory => f.write_str("out of memory"),
        }
    }
}
