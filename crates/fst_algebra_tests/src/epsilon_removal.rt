//! Machines without their epsilon arcs: what is left by every queue, what is refused, and the weights of the pairs beside
//! those that the slow programs compute.

use crate::worst_first::WorstFirst;
use fst_epsilon::{EpsilonFault, rmepsilon};
use fst_machine::Fst;
use fst_queue::{BestFirst, Fifo, Lifo, StateQueue};
use fst_samples::{is_text, machine, relation, weigh_alike};
use fst_semiring::{Boolean, Lexicographic, MinMax, Tropical, Weight};
use std::alloc::{AllocError, Global};
use std::process::Abort;
use std::test::Fail;

/// What is left of a machine by a queue, or the fault.
fn left<W: Weight>(
    rt: &impl Abort,
    alloc: Global,
    fst: &Fst<W>,
    queue: Box<dyn StateQueue>,
) -> Result<Fst<W>, EpsilonFault> {
    let mut queue = queue;
    assert!(rt; queue.is_empty());
    rmepsilon(alloc, fst, &mut queue)
}

/// What is left where states leave in the order in which they came.
fn by_fifo<W: Weight>(
    rt: &impl Abort,
    alloc: Global,
    fst: &Fst<W>,
) -> Result<Result<Fst<W>, EpsilonFault>, AllocError> {
    Ok(left(rt, alloc, fst, Box::new(alloc, Fifo::new(alloc))?))
}

/// Asks that a queue leaves the machine of a text.
fn leaves(
    rt: &impl Abort,
    alloc: Global,
    fst: &Fst<Tropical>,
    queue: Box<dyn StateQueue>,
    wanted: &[u8],
) -> Result<(), Fail> {
    match left(rt, alloc, fst, queue) {
        Ok(made) => assert!(rt; is_text(alloc, &made, wanted)?, "{wanted:?}"),
        Err(_) => assert!(rt; false, "no machine"),
    }
    Ok(())
}

/// Tropical machines, and what is left of them. In the first two ways of epsilon arcs lead to state 1, and their best has
/// weight 2. In the second equal arcs come from three states: their best weight stands in the place of the first. In the
/// third the start reaches neither state 1 nor state 3. In the fourth a product on the way to state 3 is out of range, so
/// that only a search by the queue finds it.
static TROPICAL: [(&[u8], &[u8]); 5] = [
    (
        b"0 1 0 0 3\n0 2 0 0 1\n2 1 0 0 1\n1 1 0 0 0\n1 3 5 6 4\n3\n",
        b"0 3 5 6 6\n1 3 5 6 4\n2 3 5 6 5\n3\n",
    ),
    (
        b"0 3 7 7 9\n0 3 8 8 1\n0 2 0 0 1\n0 1 0 0 2\n2 3 7 7 1\n1 3 7 7 1\n1 3 9 9\n2 5\n1 3\n3\n",
        b"0 3 7 7 2\n0 3 8 8 1\n0 3 9 9 2\n0 5\n1 3 7 7 1\n1 3 9 9\n1 3\n2 3 7 7 1\n2 5\n3\n",
    ),
    (
        b"2 0 0 0 4\n1 3 0 0 1\n3 1 1 1\n0 2\n3\n",
        b"2 6\n1 Infinity\n3 Infinity\n0 2\n",
    ),
    (
        b"0 1 0 0 600000000000000000\n0 2 0 0 3\n2 1 0 0 600000000000000000\n1 3 0 0 600000000000000000\n3 4 5 6 -600000000000000000\n4\n",
        b"0 4 5 6 600000000000000000\n1 4 5 6\n2 4 5 6 600000000000000000\n3 4 5 6 -600000000000000000\n4\n",
    ),
    (b"", b""),
];

#[test]
fn what_is_left_of_tropical_machines(rt: HostRuntime) -> Result<(), Fail> {
    let alloc = rt.alloc();
    for (text, wanted) in &TROPICAL {
        let fst: Fst<Tropical> = machine(alloc, text)?;
        leaves(&rt, alloc, &fst, Box::new(alloc, Fifo::new(alloc))?, wanted)?;
        leaves(&rt, alloc, &fst, Box::new(alloc, Lifo::new(alloc))?, wanted)?;
        leaves(
            &rt,
            alloc,
            &fst,
            Box::new(alloc, BestFirst::new(alloc))?,
            wanted,
        )?;
        leaves(
            &rt,
            alloc,
            &fst,
            Box::new(alloc, WorstFirst::new(alloc))?,
            wanted,
        )?;
    }
    Ok(())
}

/// What is refused.
#[derive(Clone, Copy, Debug, PartialEq, Eq)]
enum Refused {
    Nothing,
    Cycle,
    Arcs,
    Number(u32),
    Memory,
}

/// Machines, and what is refused: a cycle of epsilon arcs that is better than One; nothing where one label is not epsilon,
/// and where the start does not reach it; and the first state with too large a number.
static REFUSED: [(&[u8], Refused); 4] = [
    (b"0 1 1 1\n1 2 0 0 1\n2 1 0 0 -2\n2\n", Refused::Cycle),
    (b"0 0 1 0 -1\n0\n", Refused::Nothing),
    (b"0\n1 1 0 0 -1\n1\n", Refused::Nothing),
    (
        b"0 1 1 1\n1 2 0 0 900000000000000000\n2 3 1 1 900000000000000000\n3\n",
        Refused::Number(1),
    ),
];

/// What is refused of a machine.
fn stops_at<W: Weight>(rt: &impl Abort, alloc: Global, text: &[u8]) -> Result<Refused, Fail> {
    let fst: Fst<W> = machine(alloc, text)?;
    Ok(match by_fifo(rt, alloc, &fst)? {
        Err(EpsilonFault::ImprovingCycle { cycle: _cycle }) => Refused::Cycle,
        Err(EpsilonFault::TooManyArcs) => Refused::Arcs,
        Err(EpsilonFault::Overflow { state }) => Refused::Number(state),
        Err(EpsilonFault::Memory) => Refused::Memory,
        Ok(_made) => Refused::Nothing,
    })
}

#[test]
fn what_stops(rt: HostRuntime) -> Result<(), Fail> {
    let alloc = rt.alloc();
    for (text, wanted) in &REFUSED {
        assert_eq!(rt; stops_at::<Tropical>(&rt, alloc, text)?, *wanted);
    }
    Ok(())
}

/// Asks that a machine without its epsilon arcs gives the same pairs the same weights. All its paths have few arcs.
fn keeps<W: Weight>(rt: &impl Abort, alloc: Global, text: &[u8], count: usize) -> Result<(), Fail> {
    let fst: Fst<W> = machine(alloc, text)?;
    assert_eq!(rt; relation(alloc, &fst)?.len(), count);
    match by_fifo(rt, alloc, &fst)? {
        Ok(made) => assert!(rt; weigh_alike(alloc, &fst, &made)?),
        Err(_other) => assert!(rt; false, "no machine"),
    }
    Ok(())
}

/// Paths of three states with epsilon arcs before, between and behind their labels.
const BARE: &[u8] =
    b"0 1 0 0\n0 2 1 1\n1 2 1 1\n1 2 1 2\n2 3 0 0\n2 4 0 0\n3 4 0 0\n3 5 2 0\n4 5 2 0\n5 6 0 0\n4\n6\n";

/// The same with numbers.
const NUMBERS: &[u8] =
    b"0 1 0 0 2\n0 2 1 1 9\n1 2 1 1 1\n1 2 1 2 -4\n2 3 0 0 5\n2 4 0 0 3\n3 4 0 0 -7\n3 5 2 0 1\n4 5 2 0 8\n5 6 0 0 1\n4 6\n6 2\n";

/// The same with pairs.
const PAIRS: &[u8] =
    b"0 1 0 0 2,1\n0 2 1 1 3,4\n1 2 1 1 1,3\n1 2 1 2 -4,0\n2 3 0 0 5,5\n2 4 0 0 3,1\n3 4 0 0 -2,-7\n3 5 2 0 1,1\n4 5 2 0 1,9\n5 6 0 0 1,0\n4 6,6\n6 2,0\n";

#[test]
fn the_slow_program_gives_the_same_weights(rt: HostRuntime) -> Result<(), Fail> {
    let alloc = rt.alloc();
    keeps::<Boolean>(&rt, alloc, BARE, 10)?;
    keeps::<Tropical>(&rt, alloc, NUMBERS, 15)?;
    keeps::<MinMax>(&rt, alloc, NUMBERS, 14)?;
    keeps::<Lexicographic>(&rt, alloc, PAIRS, 15)
}
