//! The commands, and the verb of a first word.

ghost use Rattle.std.specs.Prelude.{◌≡◌};
ghost use Rattle.fst_words.specs.Forms.{carries_of};
ghost use Rattle.fst_words.specs.Verbs.{name_of, verb_named, verb_of, without_prefix};

use crate::form::{Carries, ROWS, Room, form_of};

/// A command. (OpenFst manual: `compile` is the program `fstcompile`.)
#[derive(Clone, Copy, Debug, PartialEq, Eq)]
pub enum Verb {
    /// A text to a machine.
    Compile,
    /// A machine to a text.
    Print,
    /// What is told of a machine.
    Info,
    /// Input and output labels change places.
    Invert,
    /// The arcs the other way round.
    Reverse,
    /// The states on successful paths alone.
    Connect,
    /// The paths of two machines.
    Union,
    /// A path of the first machine, then one of the second.
    Concat,
    /// Paths repeated.
    Closure,
    /// One side's label on both sides.
    Project,
    /// Calls of machines by label.
    Replace,
    /// Labels changed by pairs.
    Relabel,
    /// Arcs sorted by a label.
    Arcsort,
    /// The composition of two machines.
    Compose,
    /// Epsilon arcs removed.
    Rmepsilon,
    /// The distance of each state.
    Shortestdistance,
    /// The best paths.
    Shortestpath,
    /// Weights moved toward the start.
    Push,
    /// Labels, and weights, to the numbers of a codex and back.
    Encode,
    /// One arc a label in each state.
    Determinize,
    /// The fewest states.
    Minimize,
    /// What good paths meet.
    Prune,
    /// The words of both acceptors.
    Intersect,
    /// The paths of a machine whose input string an acceptor does not have.
    Difference,
    /// Whether two deterministic acceptors give every word one weight.
    Equivalent,
    /// The best paths of two composed machines, line by line.
    Batch,
    /// Two machines and lines drawn from a seed, run as a batch.
    Make,
}

impl Verb {
    /// The name of the command, without `fst` in front. Takes no memory.
    pub fn name(self) -> &'static str
        ensures { result.now ≡ name_of self }
    {
        form_of(self).name
    }

    /// What becomes of the content of a machine that the command has read. Takes no memory.
    pub fn room(self) -> Room {
        form_of(self).room
    }

    /// The symbol tables that the machine of the output carries. Takes no memory.
    pub fn carries(self) -> Carries
        ensures { result ≡ carries_of self }
    {
        form_of(self).carries
    }
}

/// The command that has this name.
#[tactic(auto, unfolding(crate::specs::Verbs::verb_named))]
fn verb_named(name: &[u8]) -> Option<Verb>
    ensures { result ≡ verb_named name.now }
{
    for row in ROWS.iter() {
        let verb = row.0;
        if verb.name().as_bytes() == name {
            return Some(verb);
        }
    }
    None
}

/// The word without one `fst` in front, where it has one.
fn without_prefix(word: &[u8]) -> &[u8]
    ensures { result.now ≡ without_prefix word.now }
{
    if word.starts_with(b"fst".as_slice()) {
        &word[3..]
    } else {
        word
    }
}

/// The command that a first word names, with or without `fst` in front.
pub(crate) fn verb_of(word: &str) -> Option<Verb>
    ensures { result ≡ verb_of word.now }
{
    verb_named(without_prefix(word.as_bytes()))
}
