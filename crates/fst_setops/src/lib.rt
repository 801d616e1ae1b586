//! Operations on sets of strings with weights: the intersection and the difference of acceptors, and whether two are
//! equivalent.
//!
//! `intersect` gives the strings that both machines have, with the product of their weights, and `difference` those of the
//! first that the second does not have. `equivalent` says whether two deterministic acceptors give each word the same weight,
//! and else the least word whose weights differ. `epsilon_at` gives the first arc with label 0. (Mohri 2009, sections 3.5 and
//! 4.1; OpenFst manual, "Intersect", "Difference" and "Equivalent".)
//!
//! The definitions stand in `specs`, over graphs of plain values with any kind of name: the names and the arcs of a
//! difference, how its paths are read off to paths of the first machine, the word that separates two acceptors and the lists
//! of words in which it is found, and when an operation is refused. `laws` asks for the theorems in this form.
#![tactic(auto)]

mod acceptors;
mod comparing;
mod equivalent_fault;
mod fault;
mod following;
mod intersecting;
mod key;
pub mod laws;
mod pair_key;
mod ready;
mod search;
mod seeking;
mod spelling;
mod subtracting;
mod unweighted;
mod verdict;
mod way;

pub use comparing::equivalent;
pub use equivalent_fault::EquivalentFault;
pub use fault::{DifferenceFault, IntersectFault};
pub use intersecting::intersect;
pub use subtracting::difference;
pub use unweighted::epsilon_at;
pub use verdict::{Labels, Verdict};
