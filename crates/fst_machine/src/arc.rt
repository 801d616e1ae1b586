//! Arcs.

use std::marker::Model;

/// An arc of a machine: its labels, of which 0 is epsilon, its weight, and the state to which it leads.
#[derive(Clone, Copy, Debug, PartialEq, Eq)]
pub struct FstArc<W> {
    /// The input label, at most 2,147,483,647.
    pub ilabel: u32,
    /// The output label, at most 2,147,483,647.
    pub olabel: u32,
    /// The weight.
    pub weight: W,
    /// The number of the next state.
    pub next: u32,
}

impl<W> Model for FstArc<W> {
    ghost use Rattle.std.specs.Prelude.{ℕ};
    ghost use Rattle.fst_machine.specs.Machine.{Arc};

    ghost Value = { Arc W ℕ };

    ghost view = { λ a. record { ilabel = a.ilabel; olabel = a.olabel; weight = a.weight; next = a.next } };

    ghost inverse = { λ a. record { ilabel = a.ilabel; olabel = a.olabel; weight = a.weight; next = a.next } };
}
