//! Why bytes are no machine.

ghost use Rattle.std.specs.Prelude.{◌≡◌};
ghost use Rattle.fst_binary.specs.Faults.{reason_of};

use fst_bytes::{FileFault, Stopped};

/// What is wrong.
#[derive(Clone, Copy, Debug, PartialEq, Eq)]
pub enum BinaryKind {
    /// A field is not whole.
    Short,
    /// The magic number is not 2,125,659,606.
    BadMagic,
    /// The fst type is not `vector`.
    UnknownFstType,
    /// The arc type is none that is known.
    UnknownArcType,
    /// The version is neither 2 nor 3.
    BadVersion,
    /// A flag is set in version 2, or in version 3 none is, or one that is not known.
    BadFlags,
    /// The start is neither -1 nor the number of a state.
    BadStart,
    /// A number of states, arcs or symbols is negative or too large, or the arcs of the states are not as many as
    /// the header says.
    BadCount,
    /// A name of a symbol table has no byte or a byte that no name has, or stands in the table before, or a number is
    /// past 2,147,483,647, or stands in the table before.
    BadSymbols,
    /// A label is past 2,147,483,647.
    BadLabel,
    /// A weight has a tag that its arc type lacks or a number past 10 to the 18, or is the Zero of an arc.
    BadWeight,
    /// An arc leads to no state.
    BadNext,
    /// Bytes follow the last state.
    Extra,
    /// There is no memory.
    Memory,
}

impl BinaryKind {
    /// What is wrong with the field. Takes no memory.
    pub fn reason(self) -> &'static str
        ensures { result.now ≡ reason_of self }
    {
        match self {
            BinaryKind::Short => "too short",
            BinaryKind::BadMagic => "bad magic number",
            BinaryKind::UnknownFstType => "unknown machine type",
            BinaryKind::UnknownArcType => "unknown arc type",
            BinaryKind::BadVersion => "bad version",
            BinaryKind::BadFlags => "bad flags",
            BinaryKind::BadStart => "bad start",
            BinaryKind::BadCount => "bad count",
            BinaryKind::BadSymbols => "bad symbols",
            BinaryKind::BadLabel => "bad label",
            BinaryKind::BadWeight => "bad weight",
            BinaryKind::BadNext => "bad next state",
            BinaryKind::Extra => "extra bytes",
            BinaryKind::Memory => "out of memory",
        }
    }
}

/// The first fault of bytes that are no machine, and where it is.
pub type BinaryFault = FileFault<BinaryKind>;

/// Why reading a machine stopped.
pub(crate) type BinaryStop = Stopped<BinaryKind>;
