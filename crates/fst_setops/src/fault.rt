//! Why there is no intersection and no difference.

use std::fmt;

/// Why there is no intersection. The first that holds, in this order, is the answer; only `Memory` may come in place of
/// another.
#[derive(Clone, Copy, Debug, PartialEq, Eq)]
pub enum IntersectFault {
    /// The arcs of some state of the first machine do not stand by their output labels, and those of some state of the
    /// second do not stand by their input labels.
    NotSorted,
    /// This arc of this state of the first or of the second machine, the first such by state and then place, has two
    /// different labels. The second machine is asked where the first has none.
    NotAcceptor {
        second: bool,
        state: u32,
        place: u32,
    },
    /// The result would have more states than the limit.
    StateLimit {
        limit: u32,
    },
    /// The result would have more than 33,554,432 arcs.
    TooManyArcs,
    /// A weight of this state of the result, the first such, has a number of absolute value above 10 to the 18.
    Overflow {
        state: u32,
    },
    /// There is no memory.
    Memory,
}

/// Says why, as `second machine: not an acceptor at state 0 arc 1`.
impl fmt::Display for IntersectFault {
    ghost use Rattle.std.specs.Prelude.{Some};
    ghost use Rattle.fst_setops.specs.Faults.{intersect_text};

    ghost output = { λ fault. Some (intersect_text fault) };

    fn fmt<W: fmt::Write>(&self, f: &mut fmt::Formatter<W>) -> fmt::Result {
        match *self {
            IntersectFault::NotSorted => f.write_str("neither machine is sorted for composition"),
            IntersectFault::NotAcceptor {
                second: false,
                state,
                place,
            } => { write!(f, "not an acceptor at state {state} arc {place}") }
            IntersectFault::NotAcceptor {
                second: true,
                state,
                place,
            } => {
                write!(
                    f,
                    "second machine: not an acceptor at state {state} arc {place}"
                )
            }
            IntersectFault::StateLimit { limit } => write!(f, "state limit {limit} passed"),
            IntersectFault::TooManyArcs => f.write_str("too many arcs"),
            IntersectFault::Overflow { state } => write!(f, "number too large at state {state}"),
            IntersectFault::Memory => f.write_str("out of memory"),
        }
    }
}

/// Why there is no difference. The first that holds, in this order, is the answer; only `Memory` may come in place of
/// another.
#[derive(Clone, Copy, Debug, PartialEq, Eq)]
pub enum DifferenceFault {
    /// This arc of this state of the first or of the second machine, the first such by state and then place, has two
    /// different labels. The second machine is asked where the first has none.
    NotAcceptor {
        second: bool,
        state: u32,
        place: u32,
    },
    /// This arc of this state of the second machine, the first such, has the label of an earlier arc of its state.
    NotDeterministic {
        state: u32,
        place: u32,
    },
    /// This arc of this state of the second machine, the first such, has label 0.
    HasEpsilon {
        state: u32,
        place: u32,
    },
    /// This state of the second machine, the least such, has an arc whose weight is not One, or a final weight that is
    /// neither One nor Zero.
    NotUnweighted {
        state: u32,
    },
    /// The result would have more states than the limit.
    StateLimit {
        limit: u32,
    },
    /// The result would have more than 33,554,432 arcs.
    TooManyArcs,
    /// There is no memory.
    Memory,
}

/// Says why, as `not unweighted at state 0`.
impl fmt::Display for DifferenceFault {
    ghost use Rattle.std.specs.Prelude.{Some};
    ghost use Rattle.fst_setops.specs.Faults.{difference_text};

    ghost output = { λ fault. Some (difference_text fault) };

    fn fmt<W: fmt::Write>(&self, f: &mut fmt::Formatter<W>) -> fmt::Result {
        match *self {
            DifferenceFault::NotAcceptor {
                second: false,
                state,
                place,
            } => { write!(f, "not an acceptor at state {state} arc {place}") }
            DifferenceFault::NotAcceptor {
                second: true,
                state,
                place,
            } => {
                write!(
                    f,
                    "second machine: not an acceptor at state {state} arc {place}"
                )
            }
            DifferenceFault::NotDeterministic { state, place } => {
                write!(f, "not deterministic at state {state} arc {place}")
            }
            DifferenceFault::HasEpsilon { state, place } => {
                write!(f, "epsilon at state {state} arc {place}")
            }
            DifferenceFault::NotUnweighted { state } => write!(
                f,
                "not unweighted at state {state}"
            ),
            DifferenceFault::StateLimit { limit } => write!(f, "state limit {limit} passed"),
            DifferenceFault::TooManyArcs => f.write_str("too many arcs"),
            DifferenceFault::Memory => f.write_str("out of memory"),
        }
    }
}
