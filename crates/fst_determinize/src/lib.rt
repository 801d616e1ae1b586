//! Determinization: the machine of the weighted subsets of words, which has at most one successful path for each word.
//! (Mohri 2009, weighted determinization; OpenFst manual, "Determinize".)
//!
//! `determinize` makes the machine of an acceptor; `start_subset`, `subset_arcs` and `subset_final` take subsets on
//! demand, of a machine that `fst_trim::weigh` has gone over. Residuals are kept in the form of weights, and in the wide form
//! where one does not fit.
//!
//! The definitions stand in `specs`, over graphs of plain values: the weighted subset of a word, the graph of subsets
//! as it is made subset by subset, and what its machine gives. `laws` asks for their laws.
#![tactic(auto)]

mod determined;
mod determinizing;
mod fault;
pub mod laws;
mod listing;
mod lists;
mod making;
mod on_demand;
mod residual;
mod single;
mod subset;
mod way;

pub use determined::{Determined, Subsets, determinize};
pub use fault::DeterminizeFault;
pub use lists::{MemberList, SubsetWeight};
pub use on_demand::{Subset, SubsetArc, start_subset, subset_arcs, subset_final};
pub use residual::{Broad, Kept, Narrow, Residual};
pub use subset::{Held, SubsetOf};
