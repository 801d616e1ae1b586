//! The words of a command line: the command, the names of its files, and its options.
//!
//! [`read_words`] reads the words of every command. A word that begins with `--` is read with `clap`, by a command
//! that has just the options and flags of the verb that the first word names; the count of the names, the values,
//! and the rules on names that stand twice are this crate's own. `specs/Plans.antt` says what words ask for.
#![tactic(auto)]

mod fault;
mod files;
mod form;
mod found;
mod given;
mod inputs;
pub mod laws;
mod name;
mod options;
mod plan;
mod read;
mod rules;
mod values;
mod verb;

pub use fault::WordsFault;
pub use form::{Carries, Role, Room};
pub use inputs::Input;
pub use name::{Name, Names};
pub use options::Options;
pub use plan::Plan;
pub use read::read_words;
pub use verb::Verb;
