//! What minimization makes of small machines, by hand, and why it makes none.

use fst_machine::Fst;
use fst_minimize::{MinimizeFault, minimize};
use fst_queue::{Fifo, StateQueue};
use fst_samples::{is_text, machine};
use fst_semiring::{MinMax, Tropical};
use std::test::Fail;

/// Machines, each with the minimal one.
static MADE: [(&[u8], &[u8]); 7] = [
    // Two ways are one once their weights are pushed.
    (
        b"0 1 1 1\n0 2 2 2\n1 3 3 3 5\n2 3 3 3 2\n3\n",
        b"0 1 1 1 3\n0 1 2 2\n1 2 3 3\n2 2\n",
    ),
    // The start is entered.
    (b"0 0 1 1\n0 3\n", b"0 0 1 1\n0 3\n"),
    // The arcs of two states that do the same stand in different orders; the order of the least member stays.
    (
        b"0 1 1 1\n0 2 2 2\n1 3 5 5\n1 3 4 4\n2 3 4 4\n2 3 5 5\n3\n",
        b"0 1 1 1\n0 1 2 2\n1 2 5 5\n1 2 4 4\n2\n",
    ),
    // One round tells states 1 and 2 apart, and only the next one states 0 and 3.
    (
        b"4 0 1 1\n4 3 2 2\n0 1 1 1\n3 2 1 1\n1 5 1 1\n2 5 1 1 1\n2 5 2 2\n5\n",
        b"4 0 1 1\n4 3 2 2\n0 1 1 1\n3 2 1 1\n1 5 1 1\n2 5 1 1 1\n2 5 2 2\n5\n",
    ),
    (b"0 1 1 1\n", b""),
    // Long cycles, in which each round tells few states apart, so that blocks are divided by blocks.
    (
        b"0 1 1 1\n0\n1 2 1 1\n2 3 1 1\n3 4 1 1\n4 5 1 1\n5 6 1 1\n6 7 1 1\n7 8 1 1\n8 9 1 1\n9 10 1 1\n10 11 1 1\n11 12 1 1\n12 13 1 1\n12\n13 14 1 1\n14 15 1 1\n15 16 1 1\n16 17 1 1\n17 18 1 1\n18 19 1 1\n19 20 1 1\n20 21 1 1\n21 22 1 1\n22 23 1 1\n23 0 1 1\n",
        b"0 1 1 1\n0\n1 2 1 1\n2 3 1 1\n3 4 1 1\n4 5 1 1\n5 6 1 1\n6 7 1 1\n7 8 1 1\n8 9 1 1\n9 10 1 1\n10 11 1 1\n11 0 1 1\n",
    ),
    (
        b"0 1 1 1\n0 12 2 2\n0\n1 2 1 1\n1 13 2 2\n2 3 1 1\n2 14 2 2\n3 4 1 1\n3 15 2 2\n4 5 1 1\n4 16 2 2\n5 6 1 1\n5 17 2 2\n6 7 1 1\n6 18 2 2\n7 8 1 1\n7 19 2 2\n8 9 1 1\n8 20 2 2\n9 10 1 1\n9 21 2 2\n10 11 1 1\n10 22 2 2\n11 12 1 1\n11 23 2 2\n12 13 1 1\n12 0 2 2\n12\n13 14 1 1\n13 1 2 2\n14 15 1 1\n14 2 2 2\n15 16 1 1\n15 3 2 2\n16 17 1 1\n16 4 2 2\n17 18 1 1\n17 5 2 2\n18 19 1 1\n18 6 2 2\n19 20 1 1\n19 7 2 2\n20 21 1 1\n20 8 2 2\n21 22 1 1\n21 9 2 2\n22 23 1 1\n22 10 2 2\n23 0 1 1\n23 11 2 2\n",
        b"0 1 1 1\n0 0 2 2\n0\n1 2 1 1\n1 1 2 2\n2 3 1 1\n2 2 2 2\n3 4 1 1\n3 3 2 2\n4 5 1 1\n4 4 2 2\n5 6 1 1\n5 5 2 2\n6 7 1 1\n6 6 2 2\n7 8 1 1\n7 7 2 2\n8 9 1 1\n8 8 2 2\n9 10 1 1\n9 9 2 2\n10 11 1 1\n10 10 2 2\n11 0 1 1\n11 11 2 2\n",
    ),
];

#[test]
fn states_that_do_the_same_are_one(rt: HostRuntime) -> Result<(), Fail> {
    let alloc = rt.alloc();
    for (text, wanted) in &MADE {
        let fst: Fst<Tropical> = machine(alloc, text)?;
        let mut queue: Box<dyn StateQueue> = Box::new(alloc, Fifo::new(alloc))?;
        match minimize(alloc, &fst, &mut queue) {
            Ok(made) => assert!(rt; is_text(alloc, &made, wanted)?, "{text:?}"),
            Err(_) => assert!(rt; false, "{text:?}"),
        }
    }
    Ok(())
}

const MIN_MAX: &[u8] = b"0 1 1 1\n0 2 2 2\n1 3 1 1 6\n1 3 2 2\n2 3 1 1\n2 3 2 2\n3 6\n";

#[test]
fn no_value_is_divided_in_min_max(rt: HostRuntime) -> Result<(), Fail> {
    let alloc = rt.alloc();
    let fst: Fst<MinMax> = machine(
        alloc,
        b"0 1 1 1 6\n0 2 2 2 6\n1 3 1 1 6\n1 3 2 2 5\n2 3 1 1 5\n2 3 2 2 5\n3 -Infinity\n",
    )?;
    let mut queue: Box<dyn StateQueue> = Box::new(alloc, Fifo::new(alloc))?;
    match minimize(alloc, &fst, &mut queue) {
        Ok(made) => assert!(rt; is_text(alloc, &made, MIN_MAX)?),
        Err(_) => assert!(rt; false),
    }
    Ok(())
}

/// Why a machine has no minimal one, with the numbers that are told.
#[derive(Clone, Copy, Debug, PartialEq, Eq)]
enum Cause {
    Acceptor(u32, u32),
    Deterministic(u32, u32),
    Cycle(usize),
    Past(u32),
}

/// What a fault tells; `None` where memory ran out.
fn told(fault: &MinimizeFault) -> Option<Cause> {
    match fault {
        MinimizeFault::NotAcceptor { state, place } => Some(Cause::Acceptor(*state, *place)),
        MinimizeFault::NotDeterministic { state, place } => {
            Some(Cause::Deterministic(*state, *place))
        }
        MinimizeFault::ImprovingCycle { cycle } => Some(Cause::Cycle(cycle.len())),
        MinimizeFault::Overflow { state } => Some(Cause::Past(*state)),
        MinimizeFault::Memory => None,
    }
}

/// Machines, each with what is told of it.
static FAULTS: [(&[u8], Cause); 4] = [
    (b"0 1 2 2\n0 1 2 1\n1\n", Cause::Acceptor(0, 1)),
    (b"0 1 1 1\n0 2 1 1\n1\n2\n", Cause::Deterministic(0, 1)),
    (b"0 1 1 1 2\n1 2 2 2\n2 1 3 3 -1\n1\n", Cause::Cycle(2)),
    (b"0 1 1 1 1000000000000000000\n1 1\n", Cause::Past(1)),
];

#[test]
fn the_first_cause_is_told(rt: HostRuntime) -> Result<(), Fail> {
    let alloc = rt.alloc();
    for (text, wanted) in &FAULTS {
        let fst: Fst<Tropical> = machine(alloc, text)?;
        let mut queue: Box<dyn StateQueue> = Box::new(alloc, Fifo::new(alloc))?;
        match minimize(alloc, &fst, &mut queue) {
            Ok(_) => assert!(rt; false, "{text:?}"),
            Err(fault) => assert!(rt; told(&fault) == Some(*wanted), "{text:?}"),
        }
    }
    Ok(())
}
