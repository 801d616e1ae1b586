//! Each operation beside what the plain programs compute, on machines of each arc type: one without epsilon
//! cycles, one with them, one without a start, and the one without states. `ARCS` says what is compared.

use crate::operations::{Change, apply, changed};
use crate::products::{add_arcs, composed, concatenated, count_pairs, united};
use fst_compose::compose;
use fst_machine::Fst;
use fst_plain::{PlainCost, breadth_first, distances_to_final};
use fst_rational::{concat, union};
use fst_samples::{ARCS, Triple, machines, relation, said, says};
use fst_semiring::{Boolean, Lexicographic, MinMax, Tropical, Weight};
use fst_trim::{Side, arcsort, is_sorted};
use std::alloc::{AllocError, Global};
use std::process::Abort;
use std::test::Fail;

/// The operations on one machine.
static CHANGES: [Change; 10] = [
    Change::Reverse,
    Change::Invert,
    Change::ProjectInput,
    Change::ProjectOutput,
    Change::Relabel,
    Change::SortInput,
    Change::SortOutput,
    Change::Connect,
    Change::Star,
    Change::Plus,
];

/// Whether by the plain program the start reaches each state.
fn is_accessible<W: Weight>(alloc: Global, fst: &Fst<W>) -> Result<bool, AllocError> {
    let Some(start) = fst.start() else {
        return Ok(fst.states() == 0);
    };
    let reached = breadth_first(alloc, fst, start)?;
    Ok(reached.len() == fst.states() as usize)
}

/// Whether by the plain program each state reaches a final state by at most `ARCS` arcs.
fn is_coaccessible<W: Weight>(alloc: Global, fst: &Fst<W>) -> Result<bool, AllocError> {
    let distances = distances_to_final(alloc, fst, ARCS)?;
    Ok(!distances.as_slice().contains(&PlainCost::Infinite))
}

/// Asks what an operation makes sure of beside the relation.
fn compare_form<W: Weight>(
    rt: &impl Abort,
    alloc: Global,
    change: Change,
    made: &Fst<W>,
) -> Result<(), Fail> {
    match change {
        Change::SortInput => assert!(rt; is_sorted(made, Side::Input)),
        Change::SortOutput => assert!(rt; is_sorted(made, Side::Output)),
        Change::Connect => {
            assert!(rt; is_accessible(alloc, made)? && is_coaccessible(alloc, made)?);
        }
        _ => {}
    }
    Ok(())
}

/// Asks of one operation and one machine.
fn compare_change<W: Weight>(
    rt: &impl Abort,
    alloc: Global,
    change: Change,
    fst: &Fst<W>,
) -> Result<(), Fail> {
    let triples = relation(alloc, fst)?;
    let wanted = changed(rt, alloc, W::KIND, change, triples.as_slice())?;
    let made = apply(alloc, change, fst)?;
    assert!(rt; says(alloc, &made, wanted.as_slice())?, "{change:?}");
    compare_form(rt, alloc, change, &made)
}

/// Asks of each operation and one machine.
fn compare_changes<W: Weight>(rt: &impl Abort, alloc: Global, fst: &Fst<W>) -> Result<(), Fail> {
    for change in &CHANGES {
        compare_change(rt, alloc, *change, fst)?;
    }
    Ok(())
}

/// Whether the union of two machines relates what both relate.
fn unites<W: Weight>(
    rt: &impl Abort,
    alloc: Global,
    a: &Fst<W>,
    b: &Fst<W>,
    front: &[Triple],
    back: &[Triple],
) -> Result<bool, Fail> {
    let wanted = united(rt, alloc, front, back)?;
    let made = union(alloc, a, b)?;
    let same = says(alloc, &made, wanted.as_slice())?;
    Ok(same)
}

/// Whether the concatenation of two machines relates the products of what both relate.
fn joins<W: Weight>(
    rt: &impl Abort,
    alloc: Global,
    a: &Fst<W>,
    b: &Fst<W>,
    front: &[Triple],
    back: &[Triple],
) -> Result<bool, Fail> {
    let wanted = concatenated(rt, alloc, W::KIND, front, back)?;
    let made = concat(alloc, a, b)?;
    let same = says(alloc, &made, wanted.as_slice())?;
    Ok(same)
}

/// Asks of the union and the concatenation of two machines.
fn compare_joins<W: Weight>(
    rt: &impl Abort,
    alloc: Global,
    a: &Fst<W>,
    b: &Fst<W>,
) -> Result<(), Fail> {
    let front = relation(alloc, a)?;
    let back = relation(alloc, b)?;
    let (front, back) = (front.as_slice(), back.as_slice());
    assert!(rt; unites(rt, alloc, a, b, front, back)?);
    assert!(rt; joins(rt, alloc, a, b, front, back)?);
    Ok(())
}

/// Asks that a machine relates the composition of two lists of triples, one for each path, and has one path for each
/// matching pair of paths. Gives how many these are.
fn compare_pairs<W: Weight>(
    rt: &impl Abort,
    alloc: Global,
    made: &Fst<W>,
    first: &[Triple],
    second: &[Triple],
) -> Result<usize, Fail> {
    let wanted = composed(rt, alloc, W::KIND, first, second)?;
    assert!(rt; says(alloc, made, wanted.as_slice())?);
    let count = said(alloc, made)?.len();
    assert_eq!(rt; count, count_pairs(rt, first, second));
    Ok(count)
}

/// Asks of the composition of two machines. Gives how many paths it has.
fn compare_composition<W: Weight>(
    rt: &impl Abort,
    alloc: Global,
    a: &Fst<W>,
    b: &Fst<W>,
) -> Result<usize, Fail> {
    let sorted = arcsort(alloc, a, Side::Output)?;
    let made = compose(alloc, &sorted, b, 1_000)?;
    assert_eq!(rt; made.names.len(), made.fst.states() as usize);
    let first = said(alloc, a)?;
    let second = said(alloc, b)?;
    compare_pairs(rt, alloc, &made.fst, first.as_slice(), second.as_slice())
}

/// Asks of a machine with each of others after it. Gives how many paths the compositions have together.
fn compare_row<W: Weight>(
    rt: &impl Abort,
    alloc: Global,
    a: &Fst<W>,
    others: &[Fst<W>],
) -> Result<usize, Fail> {
    let mut count = 0;
    for b in others {
        compare_joins(rt, alloc, a, b)?;
        count = add_arcs(rt, count, compare_composition(rt, alloc, a, b)?);
    }
    Ok(count)
}

/// Asks of all operations and the machines of an arc type, of which each has so many triples. The numbers of triples,
/// and 630, that of the paths of the compositions, were counted by a program of another language, which follows arcs
/// and pairs paths as the definitions say.
fn compare<W: Weight>(rt: &impl Abort, alloc: Global, sizes: &[usize; 4]) -> Result<(), Fail> {
    let list = machines::<W>(alloc)?;
    assert_eq!(rt; list.len(), 4);
    let mut count = 0;
    for (a, size) in list.iter().zip(sizes) {
        assert_eq!(rt; relation(alloc, a)?.len(), *size);
        compare_changes(rt, alloc, a)?;
        count = add_arcs(rt, count, compare_row(rt, alloc, a, list.as_slice())?);
    }
    assert_eq!(rt; count, 630);
    Ok(())
}

#[test]
fn compares_boolean_machines(rt: HostRuntime) -> Result<(), Fail> {
    compare::<Boolean>(&rt, rt.alloc(), &[23, 58, 0, 0])
}

#[test]
fn compares_tropical_machines(rt: HostRuntime) -> Result<(), Fail> {
    compare::<Tropical>(&rt, rt.alloc(), &[23, 80, 0, 0])
}

#[test]
fn compares_minmax_machines(rt: HostRuntime) -> Result<(), Fail> {
    compare::<MinMax>(&rt, rt.alloc(), &[23, 74, 0, 0])
}

#[test]
fn compares_lexicographic_machines(rt: HostRuntime) -> Result<(), Fail> {
    compare::<Lexicographic>(&rt, rt.alloc(), &[23, 80, 0, 0])
}
