//! Machines and codices whose arc type is known when the program runs.

ghost use Rattle.std.specs.Prelude.{◌≡◌};
ghost use Rattle.fst_any.specs.Typed.{typed, typed_codex};

use fst_codex::Codex;
use fst_machine::Fst;
use fst_semiring::{ArcType, Boolean, Lexicographic, MinMax, Tropical};
use fst_symbols::SymbolTable;

/// A machine of any arc type.
#[derive(Drop)]
pub enum AnyFst {
    /// Boolean.
    Boolean(Fst<Boolean>),
    /// Tropical.
    Tropical(Fst<Tropical>),
    /// Min-max.
    MinMax(Fst<MinMax>),
    /// Lexicographic.
    Lexicographic(Fst<Lexicographic>),
}

impl AnyFst {
    /// The arc type. Takes no memory.
    pub fn kind(&self) -> ArcType
        ensures { result ≡ (typed self.now).kind }
    {
        match self {
            AnyFst::Boolean(_) => ArcType::Boolean,
            AnyFst::Tropical(_) => ArcType::Tropical,
            AnyFst::MinMax(_) => ArcType::MinMax,
            AnyFst::Lexicographic(_) => ArcType::Lexicographic,
        }
    }
}

/// A machine of any arc type and the symbol tables that it carries.
#[derive(Drop)]
pub struct AnyTabled {
    /// The machine.
    pub fst: AnyFst,
    /// The names of its input labels; `None` where it carries none.
    pub isymbols: Option<SymbolTable>,
    /// The names of its output labels; `None` where it carries none.
    pub osymbols: Option<SymbolTable>,
}

/// A codex of any arc type.
#[derive(Drop)]
pub enum AnyCodex {
    /// Boolean.
    Boolean(Codex<Boolean>),
    /// Tropical.
    Tropical(Codex<Tropical>),
    /// Min-max.
    MinMax(Codex<MinMax>),
    /// Lexicographic.
    Lexicographic(Codex<Lexicographic>),
}

impl AnyCodex {
    /// The arc type. Takes no memory.
    pub fn kind(&self) -> ArcType
        ensures { result ≡ (typed_codex self.now).kind }
    {
        match self {
            AnyCodex::Boolean(_) => ArcType::Boolean,
            AnyCodex::Tropical(_) => ArcType::Tropical,
            AnyCodex::MinMax(_) => ArcType::MinMax,
            AnyCodex::Lexicographic(_) => ArcType::Lexicographic,
        }
    }
}
