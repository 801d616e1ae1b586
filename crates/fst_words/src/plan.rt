//! What the words of a command line ask for.

use crate::name::Names;
use crate::options::Options;
use crate::verb::Verb;

/// What the words ask for.
#[derive(Drop)]
pub struct Plan {
    /// The command.
    pub command: Verb,
    /// The names in the order of the words, with `-` for each that is missing. The labels of `replace` stand
    /// among them.
    pub names: Names,
    /// The options.
    pub options: Options,
}
