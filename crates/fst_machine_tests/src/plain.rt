//! The plain programs on small tropical machines, with what they give written out by hand.

use fst_machine::Fst;
use fst_plain::{
    PlainCost, PlainPath, breadth_first, distances_to, distances_to_final, pair_weight,
    successful_paths, tropical_number,
};
use fst_samples::{machine, without_start};
use fst_semiring::Tropical;
use std::test::Fail;

const ONE: &[u8] = b"0 1 1 2 5\n1 3\n";

/// Two ways lead to state 1: one arc of weight 3, and two of weight 1.
const DETOUR: &[u8] = b"0 1 0 0 3\n0 2 0 0 1\n2 1 0 0 1\n1 1 0 0\n1 3 5 6 4\n3\n";

/// The cycle of state 0 is on no successful path: it leads to no final state.
const APART: &[u8] = b"1 0 0 0\n0 0 0 0 -1\n1 5\n";

/// Here it is on them: each longer path is better, so that the pair has no weight.
const MET: &[u8] = b"0 0 0 0 -1\n0\n";

/// Two arcs of one weight, and a cycle.
const TIES: &[u8] = b"0 1 1 1 2\n0 1 2 2 2\n1 1 3 3\n1\n";

/// A machine, the greatest number of arcs, a pair of strings, and its weight over paths of at most so many arcs.
static PAIRS: [(&[u8], u32, &[u32], &[u32], Option<i128>); 11] = [
    (ONE, 3, &[1], &[2], Some(8)),
    (ONE, 3, &[1], &[1], None),
    (ONE, 0, &[1], &[2], None),
    (DETOUR, 2, &[5], &[6], Some(7)),
    (DETOUR, 6, &[5], &[6], Some(6)),
    (DETOUR, 6, &[0, 5], &[6], None),
    (APART, 0, &[], &[], Some(5)),
    (APART, 4, &[], &[], Some(5)),
    (MET, 0, &[], &[], Some(0)),
    (MET, 1, &[], &[], Some(-1)),
    (MET, 4, &[], &[], Some(-4)),
];

/// The cost of a number, infinite where there is none.
fn cost(number: Option<i128>) -> PlainCost {
    match number {
        Some(number) => PlainCost::Finite(number, 0),
        None => PlainCost::Infinite,
    }
}

#[test]
fn weighs_pairs(rt: HostRuntime) -> Result<(), Fail> {
    for (text, arcs, input, output, want) in &PAIRS {
        let fst: Fst<Tropical> = machine(rt.alloc(), text)?;
        let start = fst.start().expect(&rt, "a start");
        let found = pair_weight(&fst, *arcs, start, input, output);
        assert!(rt; found == cost(*want), "{text:?} {arcs}: {found:?}");
    }
    Ok(())
}

/// A machine, the greatest number of arcs, and the labels and weight of each path.
static PATHS: [(&[u8], u32, &[(&[u32], i128)]); 3] = [
    (TIES, 2, &[(&[1], 2), (&[2], 2), (&[1, 3], 2), (&[2, 3], 2)]),
    (APART, 3, &[(&[], 5)]),
    (MET, 2, &[(&[0, 0], -2), (&[0], -1), (&[], 0)]),
];

/// Whether a path has these input labels, epsilon among them, and this weight.
fn is_path(path: &PlainPath, labels: &[u32], number: i128) -> bool {
    path.weight == PlainCost::Finite(number, 0)
        && path.transitions.len() == labels.len()
        && path
            .transitions
            .iter()
            .zip(labels)
            .all(|(t, label)| t.ilabel == *label)
}

/// Whether paths are these, in this order.
fn are_paths(paths: &[PlainPath], wanted: &[(&[u32], i128)]) -> bool {
    paths.len() == wanted.len()
        && paths
            .iter()
            .zip(wanted)
            .all(|(path, (labels, number))| is_path(path, labels, *number))
}

#[test]
fn lists_paths_in_order(rt: HostRuntime) -> Result<(), Fail> {
    let alloc = rt.alloc();
    for (text, arcs, wanted) in &PATHS {
        let fst: Fst<Tropical> = machine(alloc, text)?;
        let paths = successful_paths(alloc, &fst, *arcs)?;
        assert!(rt; are_paths(paths.as_slice(), wanted), "{text:?}");
        let bare = without_start(alloc, &fst)?;
        assert!(rt; successful_paths(alloc, &bare, *arcs)?.is_empty());
    }
    Ok(())
}

/// Whether costs are those of these numbers.
fn are_costs(costs: &[PlainCost], numbers: &[Option<i128>]) -> bool {
    costs.len() == numbers.len()
        && costs
            .iter()
            .zip(numbers)
            .all(|(found, number)| *found == cost(*number))
}

#[test]
fn measures_distances(rt: HostRuntime) -> Result<(), Fail> {
    let alloc = rt.alloc();
    let fst: Fst<Tropical> = machine(alloc, DETOUR)?;
    let states = fst.states();
    assert!(rt; states == 4);
    let table = distances_to_final(alloc, &fst, 6)?;
    assert!(rt; are_costs(table.as_slice(), &[Some(6), Some(4), Some(5), Some(0)]));
    let table = distances_to(alloc, &fst, 2, 6)?;
    assert!(rt; are_costs(table.as_slice(), &[Some(1), None, Some(0), None]));
    assert_eq!(rt;
        breadth_first(alloc, &fst, 0)?.as_slice(),
        [0u32, 1, 2, 3].as_slice()
    );
    assert!(rt; tropical_number(1_000_000_000_000_000_001).is_none());
    Ok(())
}
