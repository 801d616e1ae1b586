//! The two sides of a machine.

ghost use Rattle.std.specs.Prelude.{◌≡◌};
ghost use Rattle.fst_trim.specs.Sides.{label_of};

use fst_machine::FstArc;

/// A side of a machine. (OpenFst manual, "ArcSort": input labels and output labels.)
#[derive(Clone, Copy, Debug, PartialEq, Eq)]
pub enum Side {
    /// The input labels.
    Input,
    /// The output labels.
    Output,
}

/// The label of an arc on a side.
pub(crate) fn label<W>(arc: &FstArc<W>, side: Side) -> u32
    ensures { result ≡ label_of side arc.now }
{
    match side {
        Side::Input => arc.ilabel,
        Side::Output => arc.olabel,
    }
}
