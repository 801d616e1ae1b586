//! Removal of epsilon arcs.
//!
//! `rmepsilon` gives each state that the start reaches the arcs that are not epsilon of the states that epsilon arcs
//! reach from it, each with the best product of such a path before its weight. So every pair of strings keeps its weight.
//!
//! The definitions stand in `specs`: what a removal is over any graph, the exact machine, and what is answered.
#![tactic(auto)]

mod closing;
mod fault;
mod few;
mod gathering;
pub mod laws;
mod making;
mod merged;
mod removing;

pub use fault::EpsilonFault;
pub use removing::rmepsilon;
