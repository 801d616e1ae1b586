//! Slow programs that compute the definitions of paths on small machines, for the tests of the crates above.
//!
//! The contract of each is the definition itself, over paths of at most so many arcs: the weight of a pair of
//! strings, distances, all successful paths in their order; and the breadth-first list. The paths of a difference, the
//! least word that tells two machines apart and the strings of an acceptor are found among all successful paths, and have no
//! contract.
//!
//! No wrong body is tried in this crate, since tests alone stand on it.
#![tactic(auto)]

mod cost;
mod distance;
mod listing;
mod pair;
mod path;
mod remaining;
mod scan;
mod separating;
mod strings;

pub use cost::{PlainCost, tropical_number, wide_cost};
pub use distance::{distances_to, distances_to_final};
pub use listing::successful_paths;
pub use pair::pair_weight;
pub use path::{PlainPath, PlainTransition};
pub use remaining::remaining_paths;
pub use scan::breadth_first;
pub use separating::{PlainSeparation, separating_word};
pub use strings::weighted_strings;
