//! A machine and its symbol tables.

use crate::sides::LentTables;
use fst_machine::Fst;
use fst_semiring::Weight;
use fst_symbols::SymbolTable;

/// A machine and the symbol tables of its sides, as one file holds them. (OpenFst, `fst.h`: a machine may carry its input and
/// its output symbols.)
#[derive(Drop)]
pub struct Tabled<W: Weight> {
    /// The machine.
    pub fst: Fst<W>,
    /// The names of its input labels; `None` where it carries none.
    pub isymbols: Option<SymbolTable>,
    /// The names of its output labels; `None` where it carries none.
    pub osymbols: Option<SymbolTable>,
}
