//! What is answered of a line.

use crate::fault::LineFault;
use fst_fields::List;
use std::marker::Model;

/// What is told of a path.
#[derive(Drop)]
pub struct Answer<W> {
    /// Its weight.
    pub weight: W,
    /// Its text: its output labels without epsilon, as bytes.
    pub text: Vec<u8>,
}

impl<W> Model for Answer<W> {
    ghost use Rattle.fst_batch.specs.BestPaths.{Told};

    ghost Value = { Told W };

    ghost view = { λ a. record { weight = a.weight; text = a.text.items } };
}

/// What is told of paths, in their order.
pub type Answers<W> = List<Answer<W>>;

/// What is answered of a line.
#[derive(Drop)]
pub enum LineAnswer<W> {
    /// This is told of its best paths, the best first.
    Listed(Answers<W>),
    /// It has no paths to list.
    Refused(LineFault),
}
