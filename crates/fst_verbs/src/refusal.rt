//! Why a command ended without its outputs: the status and the line that follow.

ghost use Rattle.std.specs.Prelude.{◌≡◌, ◌↔◌, IsTrue, List, Some, ℕ, string_bytes};
ghost use Rattle.fst_verbs.specs.Causes.{faulty, kinds_differ, misread, refused, too_long, unmade, unread, unwritten};
ghost use Rattle.fst_verbs.specs.Told.{IsMade, MakesLine, told_line, told_status};

use fst_semiring::ArcType;
use std::alloc::{AllocError, AllocFailed, Global};
use std::fmt::Display;

/// Why a command ended without its outputs.
#[derive(Drop)]
pub enum Refusal {
    /// The words are not of the stated form.
    Usage,
    /// There was no memory.
    Memory,
    /// Any other answer, by its status and its line.
    Told { status: u8, line: String },
}

impl From<AllocError> for Refusal {
    ghost use Rattle.fst_verbs.specs.declared.refusal.Refusal.TheVariants as refusals;

    ghost from_gives = { λ _ refusal. refusal ≡ refusals.Memory };

    fn from(_e: AllocError) -> Refusal {
        Refusal::Memory
    }
}

impl<T: Drop> From<AllocFailed<T>> for Refusal {
    ghost use Rattle.fst_verbs.specs.declared.refusal.Refusal.TheVariants as refusals;

    ghost from_gives = { λ _ refusal. refusal ≡ refusals.Memory };

    fn from(_e: AllocFailed<T>) -> Refusal {
        Refusal::Memory
    }
}

impl Refusal {
    /// Whether it is out of memory.
    pub fn is_memory(&self) -> bool
        ensures { IsTrue result ↔ (self.now ≡ Refusal.Memory) }
    {
        matches!(self, Refusal::Memory)
    }

    /// The status that the run ends with.
    pub fn status(&self) -> u8
        ensures { result ≡ told_status self.now }
    {
        match self {
            Refusal::Usage => 1,
            Refusal::Memory => 3,
            Refusal::Told { status, line: _ } => *status,
        }
    }

    /// The line that the run shows.
    pub fn line(&self) -> &[u8]
        ensures { result.now ≡ told_line self.now }
    {
        match self {
            Refusal::Usage => b"fst: bad command line\n",
            Refusal::Memory => b"fst: out of memory\n",
            Refusal::Told { status: _, line } => line.as_bytes(),
        }
    }
}

/// The refusal with a line, or out of memory where there was none for the line.
fn made(status: u8, line: Result<String, AllocError>) -> Refusal
    ensures { MakesLine status line result }
{
    match line {
        Ok(line) => Refusal::Told { status, line },
        Err(_) => Refusal::Memory,
    }
}

/// The content under the name is longer than what is read.
pub fn longer(alloc: Global, name: &str) -> Refusal
    ensures { IsMade (refused (too_long name.now)) result }
{
    made(
        1,
        format!(in alloc; "fst: {name} is longer than 1342177280 bytes\n"),
    )
}

/// The content under the name could not be read.
pub fn not_read(alloc: Global, name: &str) -> Refusal
    ensures { IsMade (unread name.now) result }
{
    made(4, format!(in alloc; "fst: cannot read {name}\n"))
}

/// The output under the name could not be written.
pub fn not_written(alloc: Global, name: &str) -> Refusal
    ensures { IsMade (unwritten name.now) result }
{
    made(5, format!(in alloc; "fst: cannot write {name}\n"))
}

/// The content under the name is not of its form, at a place that is counted in this unit.
pub fn misread(alloc: Global, name: &str, unit: &str, place: u64, reason: &str) -> Refusal
    ensures { IsMade (refused (faulty (misread name.now unit.now place reason.now))) result }
{
    made(
        1,
        format!(in alloc; "fst: {name}: {unit} {place}: {reason}\n"),
    )
}

/// A machine or a codex has another arc type than the first machine.
pub fn kinds_apart(alloc: Global, kind: ArcType, other: ArcType) -> Refusal
    ensures { IsMade (refused (faulty (kinds_differ kind other))) result }
{
    let first = kind.name();
    let second = other.name();
    made(
        1,
        format!(in alloc; "fst: arc types differ: {first} and {second}\n"),
    )
}

/// A command has no result, for the reason that a fault tells.
pub(crate) fn unmade<F: Display + Drop>(alloc: Global, fault: F) -> Refusal
    ensures { (reason : List ℕ) → F.output fault ≡ Some reason → IsMade (refused (faulty (unmade reason))) result }
{
    made(1, format!(in alloc; "fst: {fault}\n"))
}
