//! The n best paths of a weighted machine.
//!
//! `nbest` lists the first n successful paths: by weight, then by the number of arcs, then by the places of the arcs.
//! `chains` makes a machine of listed paths, in which each path is a chain of states of its own. `chain_machine` makes it of
//! chains from any source. `ahead` gives the distance of each state to the final states, and the fewest arcs of a path with
//! that weight; `class_counts` the fewest arcs where a product is the worse of two weights. `heap` has heaps whose order is
//! handed in with each call.
//!
//! Inside, a machine is seen as a graph of names whose words are its paths, by the trait `System`: where factors cancel
//! as a whole, with the distances of its states (`path_system`), and in min-max one total weight after the other
//! (`class_system`). One search finds the first words of either (`enumerating`).
#![tactic(auto)]

mod by_class;
mod chain_source;
mod chaining;
mod class_back;
mod class_system;
mod comparing;
mod counting;
mod distances;
mod entry;
mod enumerating;
mod fault;
mod first_paths;
pub mod heap;
mod laws;
mod looking;
mod measured;
mod naming;
mod orders;
mod path_chains;
mod path_system;
mod sweeping;
mod system;
mod tight;
mod totals;
mod traced;
mod turns;
mod values;
mod walking;

pub use chain_source::ChainSource;
pub use chaining::{ChainsFault, chain_machine};
pub use distances::Ahead;
pub use fault::NbestFault;
pub use first_paths::{nbest, nbest_wide};
pub use laws::one_answer;
pub use looking::{ahead, class_counts};
pub use path_chains::chains;
