//! Why two machines are not compared.

use std::fmt;

/// Why two machines are not compared. The first that holds, in this order, is the answer; only `Memory` may come in place
/// of another.
#[derive(Clone, Copy, Debug, PartialEq, Eq)]
pub enum EquivalentFault {
    /// This arc, the first such by state and place, has two different labels. The first machine is asked first.
    NotAcceptor {
        /// Whether it is an arc of the second machine.
        second: bool,
        /// The number of the state.
        state: u32,
        /// The place of the arc among those of the state.
        place: u32,
    },
    /// This arc, the first such by state and place, has the label of an earlier arc of its state. The first machine is asked
    /// first.
    NotDeterministic {
        /// Whether it is an arc of the second machine.
        second: bool,
        /// The number of the state.
        state: u32,
        /// The place of the arc among those of the state.
        place: u32,
    },
    /// The arc type is min-max, in which a factor cannot be cancelled.
    NotCancelling,
    /// Words lead to more different pairs of states of the connected machines than the limit, a pair with one state counted.
    StateLimit {
        /// The limit.
        limit: u32,
    },
    /// There is no memory.
    Memory,
}

/// Says why, as `second machine: not deterministic at state 0 arc 1`.
impl fmt::Display for EquivalentFault {
    ghost use Rattle.std.specs.Prelude.{Some};
    ghost use Rattle.fst_setops.specs.EquivalentFaults.{equivalent_text};

    ghost output = { λ fault. Some (equivalent_text fault) };

    fn fmt<W: fmt::Write>(&self, f: &mut fmt::Formatter<W>) -> fmt::Result {
        match *self {
            EquivalentFault::NotAcceptor {
                second: false,
                state,
                place,
            } => write!(f, "not an acceptor at state {state} arc {place}"),
            EquivalentFault::NotAcceptor {
                second: true,
                state,
                place,
            } => write!(
                f,
                "second machine: not an acceptor at state {state} arc {place}"
            ),
            EquivalentFault::NotDeterministic {
                second: false,
                state,
                place,
            } => write!(f, "not deterministic at state {state} arc {place}"),
            EquivalentFault::NotDeterministic {
                second: true,
                state,
                place,
            } => write!(
                f,
                "second machine: not deterministic at state {state} arc {place}"
            ),
            EquivalentFault::NotCancelling => f.write_str("arc type minmax does not cancel"),
            EquivalentFault::StateLimit { limit } => write!(f, "state limit {limit} passed"),
            EquivalentFault::Memory => f.write_str("out of memory"),
        }
    }
}
