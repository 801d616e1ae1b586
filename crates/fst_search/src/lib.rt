//! Shortest distances, by one search for every queue.
//!
//! `distance` gives the distances from the start or to the final states of a machine, `useful_distances` those to the
//! final states where only cycles on successful paths count, and `distance_over` those from the start over arcs to marked
//! states. The search goes in rounds, in each of which a state is
//! taken at most once, so that it ends with every queue that keeps the clauses of `StateQueue`, and its answer does not
//! depend on the queue. Where a cycle is better than One, so that there is no best path, it is listed.
//!
//! The definitions stand in `specs`: hops between states, along arcs or back along them, which a search follows; what
//! holds of a search on its way; and what is promised in the words of machines.
#![tactic(auto)]

mod beginning;
mod closing;
mod closures;
mod cycle;
mod direction;
mod distances;
mod fault;
pub mod laws;
mod marked;
mod measuring;
mod node;
mod searching;
mod short_search;
mod table;
mod unmeeting;
mod useful;
mod widens;

pub use closures::{Closed, Closures};
pub use direction::Direction;
pub use distances::{distance, distance_boxed};
pub use fault::DistanceFault;
pub use marked::distance_over;
pub use table::is_zero_wide;
pub use unmeeting::Reached;
pub use useful::useful_distances;
pub use widens::Widens;
