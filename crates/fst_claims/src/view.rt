//! What a pass knows.

use std::collections::LinkedList;

/// What a pass knows. It is there for the proofs alone: no value of it is made.
pub struct View {
    /// How many places the table has.
    pub places: usize,
    /// How many parts the pass has.
    pub parts: u64,
    /// The codes that it won.
    pub won: LinkedList<u64>,
    /// The places at which it looked and found a code, with the codes.
    pub found: LinkedList<(usize, u64)>,
}
