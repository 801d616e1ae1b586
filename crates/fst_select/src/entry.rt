//! Strings and prefixes, as the table of a listing keeps them.

/// A string, or all strings that begin with a prefix.
#[derive(Clone, Copy)]
pub(crate) struct Entry<D> {
    /// The weight of its best string.
    pub(crate) total: D,
    /// How many labels the shortest of these has; known where this weight is due.
    pub(crate) long: usize,
    /// The best weight of the prefix, of all paths from the start that spell it.
    pub(crate) by: D,
    /// The number of the listed string with which the prefix begins.
    pub(crate) owner: usize,
    /// With how many of its labels.
    pub(crate) depth: usize,
    /// The label behind these; 0 where there is none.
    pub(crate) tail: u32,
    /// Whether it is the prefix alone, and no string that goes on.
    pub(crate) closed: bool,
    /// The number of the subset of the prefix, where it is not.
    pub(crate) slot: usize,
}
