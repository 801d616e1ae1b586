//! Distances of small tropical machines, with every queue.

ghost use Rattle.std.specs.Prelude.{◌≡◌, []};

use crate::worst_first::WorstFirst;
use fst_machine::{Fst, Path, Step};
use fst_plain::{PlainCost, distances_to_final};
use fst_queue::{BestFirst, Fifo, Lifo, StateQueue};
use fst_samples::machine;
use fst_search::{Direction, DistanceFault, distance, useful_distances};
use fst_semiring::{Tropical, Weight};
use std::alloc::Global;
use std::test::Fail;

/// Two ways lead to state 1: one arc of weight 3, and two of weight 1. The loop at state 1 changes nothing.
const DETOUR: &[u8] = b"0 1 0 0 3\n0 2 0 0 1\n2 1 0 0 1\n1 1 0 0\n1 3 5 6 4\n3\n";

/// State 0 has a cycle that is better than One, and leads to no final state.
const APART: &[u8] = b"1 0 0 0\n0 0 0 0 -1\n1 5\n";

/// Here such a cycle is on successful paths.
const MET: &[u8] = b"0 1 1 1 2\n1 2 2 2\n2 1 3 3 -1\n1\n";

/// Three times two ways lead on, of which the longer one is better. A search that looks at the worst state first goes
/// on from the end of the worse way before it finds the better one, each time.
const RUNGS: &[u8] =
    b"0 2 1 1 5\n0 1 1 1 1\n1 2 1 1\n2 4 1 1 3\n2 3 1 1 1\n3 4 1 1\n4 6 1 1 2\n4 5 1 1 1\n5 6 1 1\n6\n";

/// A machine, a direction, and the distance of each state; `None` is Zero.
static DISTANCES: [(&[u8], Direction, &[Option<i128>]); 6] = [
    (
        DETOUR,
        Direction::FromStart,
        &[Some(0), Some(2), Some(1), Some(6)],
    ),
    (
        DETOUR,
        Direction::ToFinals,
        &[Some(6), Some(4), Some(5), Some(0)],
    ),
    (APART, Direction::ToFinals, &[None, Some(5)]),
    (b"", Direction::FromStart, &[]),
    (
        RUNGS,
        Direction::FromStart,
        &[
            Some(0),
            Some(1),
            Some(1),
            Some(2),
            Some(2),
            Some(3),
            Some(3),
        ],
    ),
    (
        RUNGS,
        Direction::ToFinals,
        &[
            Some(3),
            Some(2),
            Some(2),
            Some(1),
            Some(1),
            Some(0),
            Some(0),
        ],
    ),
];

/// Whether distances are these numbers.
fn are_numbers(found: &[<Tropical as Weight>::Wide], wanted: &[Option<i128>]) -> bool {
    found.len() == wanted.len()
        && found.iter().zip(wanted).all(|(distance, number)| {
            let key = Tropical::key(*distance);
            match number {
                Some(number) => key.class == 1 && key.first == *number,
                None => key.class == 2,
            }
        })
}

/// Whether a queue leads to these distances.
fn leads_to<Q: StateQueue>(
    alloc: Global,
    fst: &Fst<Tropical>,
    direction: Direction,
    queue: Q,
    wanted: &[Option<i128>],
) -> bool
    requires { Q.members queue ≡ [] }
{
    let mut queue = queue;
    match distance(alloc, fst, direction, &mut queue) {
        Ok(found) => are_numbers(found.as_slice(), wanted),
        Err(_) => false,
    }
}

/// Whether each queue leads to these distances, also one that gives the worst state first.
fn all_lead_to(
    alloc: Global,
    fst: &Fst<Tropical>,
    direction: Direction,
    wanted: &[Option<i128>],
) -> bool {
    leads_to(alloc, fst, direction, Fifo::new(alloc), wanted)
        && leads_to(alloc, fst, direction, Lifo::new(alloc), wanted)
        && leads_to(alloc, fst, direction, BestFirst::new(alloc), wanted)
        && leads_to(alloc, fst, direction, WorstFirst::new(alloc), wanted)
}

#[test]
fn each_queue_leads_to_the_same_distances(rt: HostRuntime) -> Result<(), Fail> {
    let alloc = rt.alloc();
    for (text, direction, wanted) in &DISTANCES {
        let fst: Fst<Tropical> = machine(alloc, text)?;
        assert!(rt; all_lead_to(alloc, &fst, *direction, wanted), "{text:?}");
    }
    Ok(())
}

/// Whether a path is that of the cycle between the states 1 and 2 of the third machine.
fn is_cycle(cycle: &Path) -> bool {
    let first = Step { state: 1, place: 0 };
    let second = Step { state: 2, place: 0 };
    cycle.len() == 2
        && ((*cycle.item(0) == first && *cycle.item(1) == second)
            || (*cycle.item(0) == second && *cycle.item(1) == first))
}

/// Whether a fault lists that cycle.
fn lists_the_cycle(fault: &DistanceFault) -> bool {
    match fault {
        DistanceFault::ImprovingCycle { cycle } => is_cycle(cycle),
        DistanceFault::Memory => false,
    }
}

/// Whether a queue leads to that cycle.
fn finds_the_cycle<Q: StateQueue>(
    alloc: Global,
    fst: &Fst<Tropical>,
    direction: Direction,
    queue: Q,
) -> bool
    requires { Q.members queue ≡ [] }
{
    let mut queue = queue;
    match distance(alloc, fst, direction, &mut queue) {
        Ok(_) => false,
        Err(fault) => lists_the_cycle(&fault),
    }
}

#[test]
fn a_cycle_that_is_better_than_one_is_listed(rt: HostRuntime) -> Result<(), Fail> {
    let alloc = rt.alloc();
    let fst: Fst<Tropical> = machine(alloc, MET)?;
    assert!(rt; finds_the_cycle(alloc, &fst, Direction::FromStart, Fifo::new(alloc)));
    assert!(rt; finds_the_cycle(alloc, &fst, Direction::ToFinals, Lifo::new(alloc)));
    Ok(())
}

/// Whether a cycle improves distances from the start.
fn improves(alloc: Global, fst: &Fst<Tropical>) -> bool {
    let found = distance(alloc, fst, Direction::FromStart, &mut Fifo::new(alloc));
    matches!(found, Err(DistanceFault::ImprovingCycle { .. }))
}

/// Whether the distances of the useful states are these.
fn useful_are(alloc: Global, fst: &Fst<Tropical>, wanted: &[Option<i128>]) -> bool {
    let mut queue = Fifo::new(alloc);
    match useful_distances::<Tropical, Tropical, Fst<Tropical>, Fifo>(alloc, fst, &mut queue) {
        Ok(found) => are_numbers(found.as_slice(), wanted),
        Err(_) => false,
    }
}

#[test]
fn a_cycle_apart_from_successful_paths_does_not_count(rt: HostRuntime) -> Result<(), Fail> {
    let fst: Fst<Tropical> = machine(rt.alloc(), APART)?;
    assert!(rt; improves(rt.alloc(), &fst));
    assert!(rt; useful_are(rt.alloc(), &fst, &[None, Some(5)]));
    Ok(())
}

/// Whether distances are those of the plain program, all of them numbers.
fn are_plain(found: &[<Tropical as Weight>::Wide], plain: &[PlainCost]) -> bool {
    found.len() == plain.len()
        && found.iter().zip(plain).all(|(distance, cost)| {
            let key = Tropical::key(*distance);
            *cost == PlainCost::Finite(key.first, 0)
        })
}

#[test]
fn the_plain_program_says_the_same(rt: HostRuntime) -> Result<(), Fail> {
    let alloc = rt.alloc();
    let fst: Fst<Tropical> = machine(alloc, DETOUR)?;
    let plain = distances_to_final(alloc, &fst, 6)?;
    match distance(alloc, &fst, Direction::ToFinals, &mut BestFirst::new(alloc)) {
        Ok(found) => assert!(rt; are_plain(found.as_slice(), plain.as_slice())),
        Err(_) => assert!(rt; false, "no distances"),
    }
    Ok(())
}
