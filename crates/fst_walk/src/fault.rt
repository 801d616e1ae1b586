//! Why a walk makes no machine.

/// Why a walk makes no machine. The first that holds, in this order, is the answer. The faults of the
/// names, of which one is that memory has run out, are told apart.
#[derive(Clone, Copy, Debug, PartialEq, Eq)]
pub enum WalkFault {
    /// The start reaches more names than the limit.
    StateLimit { limit: u32 },
    /// The names have more than 33,554,432 arcs.
    TooManyArcs,
    /// A weight of the name with this number, the first such, has a number of absolute value above 10 to the 18.
    Overflow { state: u32 },
}
