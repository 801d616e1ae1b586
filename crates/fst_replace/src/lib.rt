//! The machine of a list of rules: the root's machine with each call of a rule replaced by that rule's machine.
//!
//! `replace` gives the expansion state by state and arc by arc, and its contract says which cause it is refused
//! for. (OpenFst manual, "Replace".)
#![tactic(auto)]

mod calls;
mod expand;
mod fault;
mod order;
mod recursion;
mod replacing;
mod rule;
mod totals;

pub use fault::{AddFault, ReplaceFault};
pub use replacing::replace;
pub use rule::{Rule, Rules};
