//! What each operation makes of small tropical machines, by hand.

use crate::operations::{Change, apply, apply_given, with_new_labels};
use fst_machine::{Fst, Joined, Leaving, MOST_STATES};
use fst_rational::{PairsFault, RationalFault, concat, into_concat, into_union, read_pairs, union};
use fst_samples::{bare_states, chain, is_text, machine, without_start};
use fst_semiring::Tropical;
use fst_trim::connect;
use std::alloc::Global;
use std::test::Fail;

/// One arc from state 0 to state 1.
const TICKET: &[u8] = b"0 1 1 2 5\n1 3\n";

/// An operation, a machine, and what it makes of it.
static CHANGES: [(Change, &[u8], &[u8]); 20] = [
    (Change::Invert, TICKET, b"0 1 2 1 5\n1 3\n"),
    (Change::ProjectInput, TICKET, b"0 1 1 1 5\n1 3\n"),
    (Change::ProjectOutput, TICKET, b"0 1 2 2 5\n1 3\n"),
    (Change::Star, TICKET, b"0 1 0 0\n1 2 1 2 5\n2 0 0 0 3\n0\n"),
    (Change::Star, b"", b"0\n"),
    // Two final states, of which one leads on.
    (
        Change::Star,
        b"0 1 1 2 5\n0 2\n1 0 3 4 6\n1 3\n",
        b"0 1 0 0\n1 2 1 2 5\n1 0 0 0 2\n2 1 3 4 6\n2 0 0 0 3\n0\n",
    ),
    (
        Change::Plus,
        b"0 1 1 2 5\n0 2\n1 0 3 4 6\n1 3\n",
        b"0 1 1 2 5\n0 0 0 0 2\n0 2\n1 0 3 4 6\n1 0 0 0 3\n1 3\n",
    ),
    (Change::Plus, TICKET, b"0 1 1 2 5\n1 0 0 0 3\n1 3\n"),
    (Change::Reverse, TICKET, b"0 2 0 0 3\n2 1 1 2 5\n1\n"),
    // The arcs of the reverse come by source and place.
    (
        Change::Reverse,
        b"1 2 3 4 2\n1 0 5 6 3\n0 2 1 2 1\n0 2 7 8 4\n2 2 9 9 5\n0 6\n2 7\n",
        b"0 1 0 0 6\n0 3 0 0 7\n1 2 5 6 3\n3 1 1 2 1\n3 1 7 8 4\n3 2 3 4 2\n3 3 9 9 5\n2\n",
    ),
    // State 2 reaches no final state, and state 0 stays.
    (Change::Connect, b"0 1 1 1\n0 2 2 2\n1\n", b"0 1 1 1\n1\n"),
    // The start reaches no final state.
    (Change::Connect, b"0 Infinity\n1 0 1 1\n1\n", b""),
    // States 0 and 3 are not reached; the start has the greatest number.
    (
        Change::Connect,
        b"4 2 6 6\n4 4 7 7\n0 1 1 1\n1 4 2 2\n2 1 3 3\n2 0 4 4\n3 3 5 5\n1\n3\n",
        b"3 2 6 6\n3 3 7 7\n0 1 1 1\n1 3 2 2\n2 1 3 3\n2 0 4 4\n1\n",
    ),
    (Change::Connect, b"", b""),
    (Change::SortInput, b"1 Infinity\n0\n", b"1 Infinity\n0\n"),
    (Change::SortOutput, b"1 Infinity\n0\n", b"1 Infinity\n0\n"),
    (
        Change::SortInput,
        b"1 Infinity\n0 0 2 7\n0 1 1 7\n0\n",
        b"1 Infinity\n0 1 1 7\n0 0 2 7\n0\n",
    ),
    (
        Change::SortOutput,
        b"1 Infinity\n0 0 2 7\n0 1 1 7\n0\n",
        b"1 Infinity\n0 0 2 7\n0 1 1 7\n0\n",
    ),
    // Equal labels keep their order, and each state has its own.
    (
        Change::SortInput,
        b"1 0 5 5\n1 1 0 6\n0 1 3 1\n0 0 1 9\n0 0 3 0\n0 1 1 2\n0\n",
        b"1 1 0 6\n1 0 5 5\n0 0 1 9\n0 1 1 2\n0 1 3 1\n0 0 3 0\n0\n",
    ),
    (
        Change::SortOutput,
        b"1 0 5 5\n1 1 0 6\n0 1 3 1\n0 0 1 9\n0 0 3 0\n0 1 1 2\n0\n",
        b"1 0 5 5\n1 1 0 6\n0 0 3 0\n0 1 3 1\n0 1 1 2\n0 0 1 9\n0\n",
    ),
];

#[test]
fn changes_one_machine(rt: HostRuntime) -> Result<(), Fail> {
    let alloc = rt.alloc();
    for (change, text, want) in &CHANGES {
        let fst: Fst<Tropical> = machine(alloc, text)?;
        let made = apply(alloc, *change, &fst)?;
        assert!(rt; is_text(alloc, &made, want)?, "{change:?} of {text:?}");
    }
    Ok(())
}

#[test]
fn changes_one_machine_that_is_given_away(rt: HostRuntime) -> Result<(), Fail> {
    let alloc = rt.alloc();
    for (change, text, want) in &CHANGES {
        let fst: Fst<Tropical> = machine(alloc, text)?;
        let made = apply_given(alloc, *change, fst)?;
        assert!(rt; is_text(alloc, &made, want)?, "{change:?} of {text:?}");
    }
    Ok(())
}

/// The machine that two texts of pairs, of the input and of the output side, make of `TICKET`.
static RELABELED: [(&[u8], &[u8], &[u8]); 2] = [
    (b"", b"2 7\n3\t0\r\n\n1 0\n", b"0 1 1 7 5\n1 3\n"),
    (b"2 7\n3\t0\r\n\n1 0\n", b"", b"0 1 0 2 5\n1 3\n"),
];

#[test]
fn changes_labels(rt: HostRuntime) -> Result<(), Fail> {
    let alloc = rt.alloc();
    let ticket: Fst<Tropical> = machine(alloc, TICKET)?;
    for (input, output, want) in &RELABELED {
        let made = with_new_labels(alloc, &ticket, input, output)?;
        assert!(rt; is_text(alloc, &made, want)?, "{want:?}");
    }
    Ok(())
}

static REFUSED_PAIRS: [(&[u8], PairsFault); 6] = [
    (b"2 7\n2 8\n", PairsFault::Duplicate { line: 2 }),
    (b"1 2\n\n3\n", PairsFault::BadColumns { line: 3 }),
    (b"1 2 3\n", PairsFault::BadColumns { line: 1 }),
    (b"0 2\n", PairsFault::BadLabel { line: 1 }),
    (b"1 x\n", PairsFault::BadLabel { line: 1 }),
    (b"1 2147483648\n", PairsFault::BadLabel { line: 1 }),
];

#[test]
fn refuses_pairs(rt: HostRuntime) {
    for (text, want) in &REFUSED_PAIRS {
        let fault = read_pairs(rt.alloc(), text).err();
        assert!(rt; fault == Some(*want), "{text:?} gives {fault:?}");
    }
}

/// Two machines, and their union.
static UNITED: [(&[u8], &[u8], &[u8]); 2] = [
    (
        TICKET,
        TICKET,
        b"0 1 0 0\n0 3 0 0\n1 2 1 2 5\n3 4 1 2 5\n2 3\n4 3\n",
    ),
    (b"", TICKET, b"0 1 0 0\n1 2 1 2 5\n2 3\n"),
];

/// Two machines, and their concatenation.
static JOINED: [(&[u8], &[u8], &[u8]); 3] = [
    (TICKET, TICKET, b"0 1 1 2 5\n1 2 0 0 3\n2 3 1 2 5\n3 3\n"),
    // Two final states in front, and a start behind that is not the first state.
    (
        b"0 1 1 2 5\n0 2\n1 0 3 4 6\n1 3\n",
        b"1 0 7 8 9\n0 4\n",
        b"0 1 1 2 5\n0 3 0 0 2\n1 0 3 4 6\n1 3 0 0 3\n3 2 7 8 9\n2 4\n",
    ),
    (TICKET, b"", b"0 1 1 2 5\n"),
];

/// The union of the machines of two texts.
fn united(alloc: Global, a: &[u8], b: &[u8]) -> Result<Fst<Tropical>, Fail> {
    let (a, b) = (machine(alloc, a)?, machine(alloc, b)?);
    let made = union(alloc, &a, &b)?;
    Ok(made)
}

/// The concatenation of the machines of two texts.
fn joined(alloc: Global, a: &[u8], b: &[u8]) -> Result<Fst<Tropical>, Fail> {
    let (a, b) = (machine(alloc, a)?, machine(alloc, b)?);
    let made = concat(alloc, &a, &b)?;
    Ok(made)
}

/// Whether these states are those of a machine from a place on.
fn are_states(part: &Leaving<Tropical>, fst: &Fst<Tropical>, from: usize) -> bool {
    for place in 0..part.len() {
        let state = from.saturating_add(place);
        if state >= fst.states() as usize {
            return false;
        }
        let state = state as u32;
        if part.final_weight(place) != fst.final_weight(state)
            || part.arcs(place) != fst.arcs(state)
        {
            return false;
        }
    }
    true
}

/// Whether a machine whose states stand in two lists is that of a text.
fn is_joined_text(alloc: Global, made: Joined<Tropical>, text: &[u8]) -> Result<bool, Fail> {
    let wanted: Fst<Tropical> = machine(alloc, text)?;
    if made.start() != wanted.start()
        || made.states() != wanted.states()
        || made.arc_count() != wanted.arc_count()
    {
        return Ok(false);
    }
    let (first, second) = made.into_parts();
    let behind = first.len();
    Ok(are_states(&first, &wanted, 0) && are_states(&second, &wanted, behind))
}

/// The union of the machines of two texts, which are given away.
fn united_given(alloc: Global, a: &[u8], b: &[u8]) -> Result<Joined<Tropical>, Fail> {
    let (a, b) = (machine(alloc, a)?, machine(alloc, b)?);
    let made = into_union(alloc, a, b)?;
    Ok(made)
}

/// The concatenation of the machines of two texts, which are given away.
fn joined_given(alloc: Global, a: &[u8], b: &[u8]) -> Result<Joined<Tropical>, Fail> {
    let (a, b) = (machine(alloc, a)?, machine(alloc, b)?);
    let made = into_concat(alloc, a, b)?;
    Ok(made)
}

#[test]
fn joins_two_machines_that_are_given_away(rt: HostRuntime) -> Result<(), Fail> {
    let alloc = rt.alloc();
    for (a, b, want) in &UNITED {
        let made = united_given(alloc, a, b)?;
        assert!(rt; is_joined_text(alloc, made, want)?, "{want:?}");
    }
    for (a, b, want) in &JOINED {
        let made = joined_given(alloc, a, b)?;
        assert!(rt; is_joined_text(alloc, made, want)?, "{want:?}");
    }
    Ok(())
}

#[test]
fn joins_two_machines(rt: HostRuntime) -> Result<(), Fail> {
    let alloc = rt.alloc();
    for (a, b, want) in &UNITED {
        assert!(rt; is_text(alloc, &united(alloc, a, b)?, want)?, "{want:?}");
    }
    for (a, b, want) in &JOINED {
        assert!(rt; is_text(alloc, &joined(alloc, a, b)?, want)?, "{want:?}");
    }
    Ok(())
}

#[test]
fn has_a_greatest_size(rt: HostRuntime) -> Result<(), Fail> {
    let alloc = rt.alloc();
    let half = bare_states(alloc, 2_097_152)?;
    let less = bare_states(alloc, 2_097_151)?;
    assert!(rt; union(alloc, &half, &half).err() == Some(RationalFault::TooManyStates));
    let most = union(alloc, &half, &less)?;
    assert_eq!(rt; most.states(), 4_194_304);
    assert_eq!(rt; most.arc_count(), 0);
    let most = into_union(alloc, half, less)?;
    assert_eq!(rt; most.states(), 4_194_304);
    Ok(())
}

#[test]
fn connects_a_chain_of_all_states(rt: HostRuntime) -> Result<(), Fail> {
    let most = MOST_STATES as u32;
    let fst = chain(rt.alloc(), most - 1)?;
    assert_eq!(rt; fst.states(), most);
    let connected = connect(rt.alloc(), &fst)?;
    assert!(rt; connected.states() == most && connected.arc_count() == most - 1);
    assert!(rt; connected.start() == Some(0));
    Ok(())
}

#[test]
fn connects_nothing_without_a_start(rt: HostRuntime) -> Result<(), Fail> {
    let fst: Fst<Tropical> = machine(rt.alloc(), b"0 1 1 1\n1\n")?;
    let made = connect(rt.alloc(), &without_start(rt.alloc(), &fst)?)?;
    assert!(rt; is_text(rt.alloc(), &made, b"")?);
    Ok(())
}
