//! Sets of keys that no chosen keys make slow: each key is found by a number, and where another key has that number,
//! by all that it is, in a sorted map. So a look-up costs a bounded number of slots and at most two searches in sorted
//! maps, one among numbers and one among keys, whatever the keys are.
//!
//! No wrong body is tried in this crate, since it promises nothing to a user. With weaker contracts here these could not be
//! proved: the numbers of `walk` in `fst_walk` (each name once, in breadth-first order), `Cache::find` of `fst_delayed`
//! (the arcs of a key are its own), and `encode_labels` of `fst_codex` (equal entries have one number).
#![tactic(auto)]

mod coded;
mod finding;
mod hashing;
mod keys;

pub use coded::{Code, Coded};
pub use hashing::hash_of;
pub use keys::KeySet;
