//! Why a line has no paths to list.

/// Why a line has no paths to list. The first that holds, in this order, is the answer.
#[derive(Clone, Copy, Debug, PartialEq, Eq)]
pub enum LineFault {
    /// The line holds a byte 0, which is the label of epsilon.
    BadByte,
    /// The lattice of the line has more names than the limit.
    StateLimit { limit: u32 },
    /// The lattice has more than 33,554,432 arcs.
    TooManyArcs,
    /// A cycle on its successful paths is better than One.
    ImprovingCycle,
    /// The weight of one of the best paths has a number of absolute value above 10 to the 18.
    Overflow,
    /// This output label of the best paths, the first such, path by path, is no epsilon and no byte that stands in a line.
    NotText { label: u32 },
}
