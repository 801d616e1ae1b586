//! Pushed machines beside what the plain programs compute, for each arc type.

use fst_distance::{PushFault, push, push_wide};
use fst_machine::{Fst, narrow_all};
use fst_plain::distances_to_final;
use fst_queue::{BestFirst, Fifo, Lifo};
use fst_samples::{ARCS, is_text, machine, machines, one, relation, says};
use fst_semiring::{Boolean, Lexicographic, MinMax, Tropical, Weight};
use std::alloc::Global;
use std::process::Abort;
use std::test::Fail;

/// Asks that by the plain programs each state of a machine has distance One to the final states, by paths of at most
/// `ARCS` arcs.
fn is_normal<W: Weight>(rt: &impl Abort, alloc: Global, fst: &Fst<W>) -> Result<(), Fail> {
    for distance in &distances_to_final(alloc, fst, ARCS)? {
        assert!(rt; *distance == one(W::KIND));
    }
    Ok(())
}

/// Asks of one machine: pushed, it relates the same; with its total removed, each state has distance One. Gives whether
/// it has a pushed machine, and not an improving cycle.
fn compare_pushed<W: Weight>(rt: &impl Abort, alloc: Global, fst: &Fst<W>) -> Result<bool, Fail> {
    match push(alloc, fst, false, &mut Fifo::new(alloc)) {
        Ok(made) => assert!(rt; says(alloc, &made, relation(alloc, fst)?.as_slice())?),
        Err(PushFault::ImprovingCycle { cycle: _cycle }) => return Ok(false),
        Err(_other) => assert!(rt; false, "no pushed machine"),
    }
    match push(alloc, fst, true, &mut Lifo::new(alloc)) {
        Ok(made) => is_normal(rt, alloc, &made)?,
        Err(_other) => assert!(rt; false, "no pushed machine without its total"),
    }
    Ok(true)
}

/// Asks of the machines of an arc type; of each is said whether it has a pushed machine.
fn compare<W: Weight>(rt: &impl Abort, alloc: Global, wanted: [bool; 4]) -> Result<(), Fail> {
    let list = machines::<W>(alloc)?;
    assert_eq!(rt; list.len(), 4);
    for (fst, is_pushed) in list.iter().zip(&wanted) {
        assert_eq!(rt; compare_pushed(rt, alloc, fst)?, *is_pushed);
    }
    Ok(())
}

#[test]
fn pushed_machines_relate_the_same(rt: HostRuntime) -> Result<(), Fail> {
    let alloc = rt.alloc();
    compare::<Boolean>(&rt, alloc, [true; 4])?;
    compare::<Tropical>(&rt, alloc, [true, false, true, true])?;
    compare::<MinMax>(&rt, alloc, [true; 4])?;
    compare::<Lexicographic>(&rt, alloc, [true, false, true, true])
}

/// Machines, each with its pushed machine without the total, and the total.
static WIDE: [(&[u8], &[u8], i128); 3] = [
    (
        b"0 1 1 1\n0 2 2 2\n1 3 3 3 5\n2 3 3 3 2\n3\n",
        b"0 1 1 1 3\n0 2 2 2\n1 3 3 3\n2 3 3 3\n3\n",
        2,
    ),
    // The total is no weight of a machine.
    (
        b"0 1 1 1 1000000000000000000\n1 1\n",
        b"0 1 1 1\n1\n",
        1_000_000_000_000_000_001,
    ),
    // State 1 leads nowhere.
    (
        b"0 1 1 1\n0 2 2 2 -3\n2 0 1 1 4\n2 -1\n",
        b"0 1 2 2\n1 0 1 1 1\n1\n",
        -4,
    ),
];

#[test]
fn wide_weights_stand_beside_their_total(rt: HostRuntime) -> Result<(), Fail> {
    let alloc = rt.alloc();
    for (text, wanted, total) in &WIDE {
        let fst: Fst<Tropical> = machine(alloc, text)?;
        match push_wide(alloc, &fst, &mut BestFirst::new(alloc)) {
            Ok(pushed) => {
                let fst = narrow_all(alloc, &pushed.fst)?;
                assert!(rt; is_text(alloc, &fst, wanted)?, "{text:?}");
                assert!(rt; Tropical::key(pushed.total).first == *total, "{text:?}");
            }
            Err(_) => assert!(rt; false, "{text:?}"),
        }
    }
    Ok(())
}
