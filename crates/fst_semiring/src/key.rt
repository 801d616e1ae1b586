//! Keys of weights.

/// A weight of any arc type as plain numbers. Keys compare by class, then first, then second, as the
/// weights do: the lesser is the better.
#[derive(Clone, Copy, Debug, PartialEq, Eq, PartialOrd, Ord)]
pub struct Key {
    /// 0 for the One of min-max, 1 for a number, a pair or true, 2 for Zero.
    pub class: u8,
    /// The number, or the first of a pair; 0 where the weight has none.
    pub first: i128,
    /// The second of a pair; 0 where the weight has none.
    pub second: i128,
}
