//! A codex.

ghost use Rattle.std.specs.Prelude.{◌≡◌};
ghost use Rattle.fst_codex.specs.Table.{IsTable};

use fst_semiring::Weight;
use std::marker::Model;

/// The greatest number of entries of a codex.
pub const MOST_ENTRIES: u32 = 33_554_432;

/// What a number stands for.
#[derive(Clone, Copy, Debug)]
pub struct CodexEntry<W> {
    /// The input label, at most 2,147,483,647.
    pub ilabel: u32,
    /// The output label, at most 2,147,483,647.
    pub olabel: u32,
    /// The weight.
    pub weight: W,
}

impl<W> Model for CodexEntry<W> {
    ghost use Rattle.fst_codex.specs.Table.{Entry};

    ghost Value = { Entry W };

    ghost view = { λ e. record { ilabel = e.ilabel; olabel = e.olabel; weight = e.weight } };

    ghost inverse = { λ e. record { ilabel = e.ilabel; olabel = e.olabel; weight = e.weight } };
}

/// Whether numbers stand for weights too, and at most 33,554,432 entries. Their labels are at most 2,147,483,647,
/// their weights are not Zero, and One where numbers stand for labels alone. (OpenFst manual, "Encode".)
#[derive(Drop)]
pub struct Codex<W: Weight> {
    weights: bool,
    list: Vec<CodexEntry<W>>,
}

impl<W: Weight> Model for Codex<W> {
    ghost use Rattle.fst_codex.specs.Table.{Table, IsTable};

    ghost Value = { Table W };

    ghost view = { λ c. record { weights = c.weights; entries = c.list.items } };

    ghost invariant = { λ c. IsTable W.KIND W.value (record { weights = c.weights; entries = c.list.items }) };
}

impl<W: Weight> Codex<W> {
    /// The codex of these entries.
    pub(crate) fn new(weights: bool, list: Vec<CodexEntry<W>>) -> Codex<W>
        requires { IsTable W.KIND W.value (record { weights = weights; entries = list.items }) }
        ensures { result ≡ record { weights = weights; entries = list.items } }
    {
        Codex { weights, list }
    }

    /// Whether numbers stand for weights too. Takes no memory.
    pub fn weights(&self) -> bool
        ensures { result ≡ self.now.weights }
    {
        self.weights
    }

    /// The entries in order, and with them what holds of every codex. Takes no memory.
    pub fn entries(&self) -> &[CodexEntry<W>]
        ensures value { result.now ≡ self.now.entries }
        ensures table { IsTable W.KIND W.value self.now }
    {
        self.list.as_slice()
    }
}
