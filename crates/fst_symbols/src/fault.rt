//! Why a text is no symbol table.

ghost use Rattle.std.specs.Prelude.{◌≡◌};
ghost use Rattle.fst_symbols.specs.Faults.{line_of, reason_of};

/// Why a text is no symbol table: the first fault of the first faulty line. Lines count from 1, blank ones
/// included. In a line the faults come in the order below.
#[derive(Clone, Copy, Debug, PartialEq, Eq)]
pub enum SymbolsFault {
    /// A line that is not blank has not two fields.
    BadColumns { line: u64 },
    /// A number is not one to eighteen decimal digits, or is above 2,147,483,647.
    BadNumber { line: u64 },
    /// An earlier line has the symbol.
    DuplicateSymbol { line: u64 },
    /// An earlier line has the number.
    DuplicateNumber { line: u64 },
    /// There is no memory.
    Memory,
}

impl SymbolsFault {
    /// The line, from 1; 0 where there is no memory. Takes no memory.
    pub fn line(self) -> u64
        ensures { result ≡ line_of self }
    {
        match self {
            SymbolsFault::BadColumns { line }
            | SymbolsFault::BadNumber { line }
            | SymbolsFault::DuplicateSymbol { line }
            | SymbolsFault::DuplicateNumber { line } => line,
            SymbolsFault::Memory => 0,
        }
    }

    /// What is wrong with the line. Takes no memory.
    pub fn reason(self) -> &'static str
        ensures { result.now ≡ reason_of self }
    {
        match self {
            SymbolsFault::BadColumns { line: _ } => "wrong number of columns",
            SymbolsFault::BadNumber { line: _ } => "bad number",
            SymbolsFault::DuplicateSymbol { line: _ } => "symbol given twice",
            SymbolsFault::DuplicateNumber { line: _ } => "number given twice",
            SymbolsFault::Memory => "out of memory",
        }
    }
}

/// Why a symbol is not added to a table.
#[derive(Clone, Copy, Debug, PartialEq, Eq)]
pub enum AddSymbolFault {
    /// A symbol has the name.
    SymbolTaken,
    /// A symbol has the number, and none the name.
    NumberTaken,
    /// There is no memory, or the names would have more than 4,294,967,295 bytes together.
    Memory,
}
