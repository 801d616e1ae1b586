//! Why bytes are no codex.

ghost use Rattle.std.specs.Prelude.{◌≡◌};
ghost use Rattle.fst_codex.specs.Faults.{reason_of};

use fst_bytes::FileFault;

/// What is wrong.
#[derive(Clone, Copy, Debug, PartialEq, Eq)]
pub enum CodexKind {
    /// A field is not whole.
    Short,
    /// The first eight bytes are not `FSTCODEX`.
    BadMagic,
    /// The arc type is none that is known.
    UnknownArcType,
    /// The byte that says whether weights stand in the entries is neither 0 nor 1.
    BadFlags,
    /// The number of entries is negative or above 33,554,432.
    BadCount,
    /// A label is past 2,147,483,647.
    BadLabel,
    /// A weight has a tag that its arc type lacks or a number past 10 to the 18, or is Zero.
    BadWeight,
    /// Bytes follow the last entry.
    Extra,
    /// There is no memory.
    Memory,
}

impl CodexKind {
    /// What is wrong with the field. Takes no memory.
    pub fn reason(self) -> &'static str
        ensures { result.now ≡ reason_of self }
    {
        match self {
            CodexKind::Short => "too short",
            CodexKind::BadMagic => "bad magic number",
            CodexKind::UnknownArcType => "unknown arc type",
            CodexKind::BadFlags => "bad flags",
            CodexKind::BadCount => "bad count",
            CodexKind::BadLabel => "bad label",
            CodexKind::BadWeight => "bad weight",
            CodexKind::Extra => "extra bytes",
            CodexKind::Memory => "out of memory",
        }
    }
}

/// The first fault of bytes that are no codex, and where it is.
pub type CodexFault = FileFault<CodexKind>;
