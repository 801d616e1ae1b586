//! Compositions of small tropical machines, written out from the definition by hand.

use fst_compose::{ComposeFault, ComposeKey, compose, expand, key_final};
use fst_machine::Fst;
use fst_samples::{chain, is_text, machine, same};
use fst_semiring::{Tropical, Weight};
use fst_trim::{Side, is_sorted};
use std::alloc::Global;
use std::process::Abort;
use std::test::Fail;

/// A path that writes epsilon after its label, and one that reads epsilon before its label.
const FIRST: &[u8] = b"0 1 1 0\n1 2 2 3\n2\n";

const SECOND: &[u8] = b"0 1 0 9\n1 2 3 4\n2\n";

/// A machine that is not sorted by its output labels, and one that is not by its input labels.
const UNSORTED: &[u8] = b"0 1 1 2\n0 1 1 1\n1\n";

const OTHER: &[u8] = b"0 1 2 1\n0 1 1 1\n1\n";

/// Two machines and their composition, which has at most nine states.
static GIVEN: [(&[u8], &[u8], &[u8]); 4] = [
    (FIRST, SECOND, b"0 1 1 0\n0 2 0 9\n1 3 0 9\n3 4 2 4\n4\n"),
    (
        b"0 1 1 1 999999999999999999\n1\n",
        b"0 1 1 1 1\n1\n",
        b"0 1 1 1 1000000000000000000\n1\n",
    ),
    (b"0 1 1 1\n0 1 1 2\n1\n", OTHER, b"0 1 1 1\n0 1 1 1\n1\n"),
    (b"", b"0\n", b""),
];

/// Two machines, the greatest number of states, and the fault of their composition.
static REFUSED: [(&[u8], &[u8], u32, ComposeFault); 3] = [
    (FIRST, SECOND, 4, ComposeFault::StateLimit { limit: 4 }),
    (
        b"0 1 1 1 1000000000000000000\n1\n",
        b"0 1 1 1 1\n1\n",
        9,
        ComposeFault::Overflow { state: 0 },
    ),
    (UNSORTED, OTHER, 9, ComposeFault::NotSorted),
];

#[test]
fn composes(rt: HostRuntime) -> Result<(), Fail> {
    let alloc = rt.alloc();
    for (a, b, want) in &GIVEN {
        let (a, b) = (machine::<Tropical>(alloc, a)?, machine(alloc, b)?);
        let made = compose(alloc, &a, &b, 9)?;
        assert!(rt; is_text(alloc, &made.fst, want)?);
        assert_eq!(rt; made.names.len(), made.fst.states() as usize);
    }
    Ok(())
}

/// Why two machines have no composition with at most so many states.
fn refusal(
    rt: &impl Abort,
    alloc: Global,
    a: &[u8],
    b: &[u8],
    limit: u32,
) -> Result<Option<ComposeFault>, Fail> {
    let (a, b) = (machine::<Tropical>(alloc, a)?, machine(alloc, b)?);
    assert!(rt; limit > 0 && limit < 10);
    Ok(compose(alloc, &a, &b, limit).err())
}

#[test]
fn refuses_what_has_no_composition(rt: HostRuntime) -> Result<(), Fail> {
    let alloc = rt.alloc();
    for (a, b, limit, want) in &REFUSED {
        assert_eq!(rt; refusal(&rt, alloc, a, b, *limit)?, Some(*want));
    }
    Ok(())
}

#[test]
fn names_states_by_pairs(rt: HostRuntime) -> Result<(), Fail> {
    let alloc = rt.alloc();
    let (a, b) = (machine::<Tropical>(alloc, FIRST)?, machine(alloc, SECOND)?);
    let made = compose(alloc, &a, &b, 5)?;
    assert!(rt; made.names.len() == 5);
    let want = ComposeKey {
        first: 0,
        second: 1,
        filter: 1,
    };
    assert!(rt; *made.names.item(2) == want);
    Ok(())
}

#[test]
fn gives_the_arcs_of_one_name(rt: HostRuntime) -> Result<(), Fail> {
    let alloc = rt.alloc();
    let a: Fst<Tropical> = machine(alloc, b"0 1 1 0 3\n1\n")?;
    let b: Fst<Tropical> = machine(alloc, b"0 1 0 9 4\n1\n")?;
    let (first, second) = (a.states(), b.states());
    assert!(rt; first > 0 && second > 0);
    assert!(rt; is_sorted(&a, Side::Output));
    let here = ComposeKey {
        first: 0,
        second: 0,
        filter: 1,
    };
    let there = ComposeKey {
        first: 0,
        second: 1,
        filter: 1,
    };
    let arcs = expand(alloc, &a, &b, here)?;
    assert!(rt; arcs.len() == 1);
    assert!(rt; arcs[0].ilabel == 0 && arcs[0].olabel == 9 && arcs[0].next == there);
    assert!(rt; key_final(&a, &b, here) == Tropical::zero().widen());
    Ok(())
}

/// Whether the composition of two machines is the first of them, with as many states as the limit.
fn stays(alloc: Global, a: &Fst<Tropical>, b: &Fst<Tropical>) -> Result<bool, Fail> {
    let made = compose(alloc, a, b, 6_001)?;
    Ok(same(&made.fst, a))
}

#[test]
fn makes_as_many_names_as_the_limit(rt: HostRuntime) -> Result<(), Fail> {
    let alloc = rt.alloc();
    let a = chain(alloc, 6_000)?;
    assert_eq!(rt; a.states(), 6_001);
    let b = machine(alloc, b"0 0 1 1\n0\n")?;
    assert!(rt; stays(alloc, &a, &b)?);
    let fault = compose(alloc, &a, &b, 6_000).err();
    assert!(rt; fault == Some(ComposeFault::StateLimit { limit: 6_000 }));
    Ok(())
}
