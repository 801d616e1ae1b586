//! What pruning keeps of small machines, by hand, with each queue, and why it keeps nothing.

use crate::worst_first::WorstFirst;
use fst_machine::Fst;
use fst_plain::tropical_number;
use fst_queue::{BestFirst, Fifo, Lifo, StateQueue};
use fst_samples::{is_text, machine};
use fst_select::{PruneFault, prune};
use fst_semiring::{Tropical, Weight};
use std::alloc::Global;
use std::process::Abort;
use std::test::Fail;

/// Paths of weights 1, 4 and 6.
const THREE: &[u8] = b"0 1 1 1 1\n0 1 2 2 4\n1 2 3 3\n1 3 4 4 5\n2\n3\n";

/// Machines, each with a threshold, where it is not Zero, and what it keeps.
static KEPT: [(&[u8], Option<i64>, &[u8]); 12] = [
    // The bound itself is good enough.
    (THREE, Some(3), b"0 1 1 1 1\n0 1 2 2 4\n1 2 3 3\n2\n"),
    (THREE, Some(2), b"0 1 1 1 1\n1 2 3 3\n2\n"),
    (THREE, None, THREE),
    // Nothing is better than the best.
    (THREE, Some(-1), b""),
    // The best of both ends is good, and the second arc is not.
    (b"0 1 1 1\n0 1 2 2 9\n1\n", Some(1), b"0 1 1 1\n1\n"),
    // A final weight with which no good path ends.
    (b"0 1 1 1\n0 9\n1\n", Some(1), b"0 1 1 1\n1\n"),
    // States that no successful path meets, with threshold Zero.
    (b"0 1 1 1\n0 2 2 2\n3 1 3 3\n1\n", None, b"0 1 1 1\n1\n"),
    // A cycle of weight One on a good path stays, and one that costs something goes.
    (
        b"0 0 1 1\n0 1 2 2 1\n1\n",
        Some(0),
        b"0 0 1 1\n0 1 2 2 1\n1\n",
    ),
    (b"0 0 1 1 2\n0 1 2 2 1\n1\n", Some(1), b"0 1 2 2 1\n1\n"),
    // A cycle that is better than One where no successful path is.
    (
        b"0 1 1 1 2\n0 2 2 2\n2 2 3 3 -1\n1\n",
        Some(5),
        b"0 1 1 1 2\n1\n",
    ),
    // No successful path.
    (b"0 1 1 1\n", None, b""),
    // The empty path.
    (b"0 4\n", Some(0), b"0 4\n"),
];

/// What a machine is pruned to with a queue, which has no states before and after.
fn pruned(
    rt: &impl Abort,
    alloc: Global,
    fst: &Fst<Tropical>,
    threshold: Tropical,
    queue: Box<dyn StateQueue>,
) -> Result<Fst<Tropical>, PruneFault> {
    let mut queue = queue;
    assert!(rt; queue.is_empty());
    let made = prune(alloc, fst, threshold, &mut queue)?;
    assert!(rt; queue.is_empty());
    Ok(made)
}

/// Asks that a machine pruned with this queue is that of the text.
fn keeps(
    rt: &impl Abort,
    alloc: Global,
    row: &(&[u8], Option<i64>, &[u8]),
    queue: Box<dyn StateQueue>,
) -> Result<(), Fail> {
    let (text, threshold, wanted) = row;
    let fst: Fst<Tropical> = machine(alloc, text)?;
    let threshold = match threshold {
        Some(number) => tropical_number(*number).unwrap_or(Tropical::zero()),
        None => Tropical::zero(),
    };
    match pruned(rt, alloc, &fst, threshold, queue) {
        Ok(made) => assert!(rt; is_text(alloc, &made, wanted)?, "{text:?}"),
        Err(_) => assert!(rt; false, "{text:?}"),
    }
    Ok(())
}

#[test]
fn good_paths_stay_with_each_queue(rt: HostRuntime) -> Result<(), Fail> {
    let alloc = rt.alloc();
    for row in &KEPT {
        keeps(&rt, alloc, row, Box::new(alloc, Fifo::new(alloc))?)?;
        keeps(&rt, alloc, row, Box::new(alloc, Lifo::new(alloc))?)?;
        keeps(&rt, alloc, row, Box::new(alloc, BestFirst::new(alloc))?)?;
        keeps(&rt, alloc, row, Box::new(alloc, WorstFirst::new(alloc))?)?;
    }
    Ok(())
}

/// Whether a fault lists a cycle of one arc.
fn is_loop(fault: &PruneFault) -> bool {
    match fault {
        PruneFault::ImprovingCycle { cycle } => cycle.len() == 1,
        PruneFault::Memory => false,
    }
}

#[test]
fn a_cycle_is_listed(rt: HostRuntime) -> Result<(), Fail> {
    let alloc = rt.alloc();
    let fst: Fst<Tropical> = machine(alloc, b"0 1 2 2\n1 1 1 1 -1\n1\n")?;
    let queue = Box::new(alloc, Fifo::new(alloc))?;
    match pruned(&rt, alloc, &fst, Tropical::zero(), queue) {
        Ok(_) => assert!(rt; false, "no cycle"),
        Err(fault) => assert!(rt; is_loop(&fault)),
    }
    Ok(())
}
