//! Choices between the forms of a text.

use fst_symbols::SymbolTable;
use std::marker::Model;

/// Which text form is read or printed. (OpenFst manual, `fstcompile` and `fstprint`.)
#[derive(Drop)]
pub struct TextOptions<'t> {
    /// An arc has one label, which is both its labels.
    pub acceptor: bool,
    /// `compile`: the written numbers of the states stand, and there are as many states as the greatest
    /// plus 1. Else states are numbered in the order of first appearance.
    pub keep_state_numbering: bool,
    /// `print`: a weight One is printed too.
    pub show_weight_one: bool,
    /// Input labels are names of this table; with `acceptor` all labels are. Without it labels are numbers.
    pub isymbols: Option<&'t SymbolTable>,
    /// Output labels are names of this table; with `acceptor` it is not used.
    pub osymbols: Option<&'t SymbolTable>,
}

impl<'t> Model for TextOptions<'t> {
    ghost use Rattle.std.specs.Option.{option_map};
    ghost use Rattle.fst_text.specs.Options.{Options};

    ghost Value = { Options };

    ghost view = { λ o. record { acceptor = o.acceptor; keep_state_numbering = o.keep_state_numbering; show_weight_one = o.show_weight_one; isymbols = option_map (λ t. t.now) o.isymbols; osymbols = option_map (λ t. t.now) o.osymbols } };
}
