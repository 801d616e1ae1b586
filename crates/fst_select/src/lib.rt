//! Parts of a machine chosen by the weights of its paths, and its best strings.
//!
//! `prune` keeps what good paths meet: those whose weight is no worse than the best Times a threshold. What a good path
//! is, and what is kept, stands in `specs/Good.antt` and `specs/Pruned.antt`; that two distances of each state say which
//! arcs lie on good paths is a law over graphs of any kind of name, which `laws` asks for.
//!
//! `unique_nbest` lists the n best different strings of an acceptor. (Mohri and Riley 2002, an efficient algorithm for the
//! n-best-strings problem.) What they are stands in `specs/Strings.antt`. Inside, a table has the prefixes that are still
//! open, each with the weight and the length of its best string (`specs/Frontier.antt`); these come from the subset of the
//! prefix and from what is ahead of each state (`specs/Keys.antt`, `specs/Counting.antt`). The best prefix is walked to the
//! end of its best string, and at each label the other ways on are put into the table (`specs/Searching.antt`).
//!
//! `string_chains` makes a machine of listed strings, in which each string is a chain of states of its own, as `chains` of
//! `fst_nbest` does of listed paths (`specs/StringChains.antt`).
#![tactic(auto)]

mod chaining;
mod class_beginning;
mod comparing;
mod entry;
mod fault;
pub mod laws;
mod listing;
mod outlook;
mod parting;
mod prefixes;
mod pruning;
mod putting;
mod refusing;
mod siblings;
mod strings;
mod surveying;
mod thinning;
mod unique;
mod unique_fault;
mod walking;

pub use chaining::{StringChainsFault, string_chains};
pub use fault::PruneFault;
pub use pruning::prune;
pub use strings::{StringWeight, Strings};
pub use unique::unique_nbest;
pub use unique_fault::UniqueFault;
