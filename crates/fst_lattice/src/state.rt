//! What a job answers.

use fst_delayed::ComposeKey;

/// What a job answers when it can take no further name.
#[derive(Clone, Copy, Debug, PartialEq, Eq)]
pub enum JobState {
    /// It has to take a name of the lattice next whose name in the composition is this one, of which no arcs are there.
    Needs(ComposeKey),
    /// Its walk is over.
    Walked,
}
