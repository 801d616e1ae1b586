//! What a command makes.

use fst_codex::Codex;
use fst_machine::{Fst, Joined};
use fst_semiring::Weight;

/// What a command makes.
#[derive(Drop)]
pub enum Made<W: Weight> {
    /// A machine.
    Machine(Fst<W>),
    /// A machine whose states stand in two lists, as those of the machines that it is made of did.
    Joined(Joined<W>),
    /// A text.
    Text(Vec<u8>),
    /// A codex and a machine.
    Coded(Codex<W>, Fst<W>),
    /// The text of the answers to lines, and how many states of the cascade were expanded for them.
    Answered(Vec<u8>, u64),
    /// The text that tells two machines apart.
    Separation(Vec<u8>),
}
