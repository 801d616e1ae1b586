//! `compose`.

use crate::session::Row::{self, Lacks, Machine, Makes, Refuse, Run};
use crate::session::play;
use std::test::Fail;

/// A path that writes epsilon after its label, and one that reads epsilon before its label.
const FIRST: &[u8] = b"0 1 1 0\n1 2 2 3\n2\n";

const SECOND: &[u8] = b"0 1 0 9\n1 2 3 4\n2\n";

const COMPOSED: &[u8] = b"0\t1\t1\t0\n1\t2\t0\t9\n2\t3\t2\t4\n3\n";

/// A machine that is not sorted by its output labels, and one that is not by its input labels.
const UNSORTED: &[u8] = b"0 1 1 2\n0 1 1 1\n1\n";

const OTHER: &[u8] = b"0 1 2 1\n0 1 1 1\n1\n";

static OPTIONS: [Row; 15] = [
    Machine("a", "tropical", FIRST),
    Machine("b", "tropical", SECOND),
    Makes("compose a b r", COMPOSED),
    Makes(
        "compose --connect=false a b r",
        b"0\t1\t1\t0\n0\t2\t0\t9\n1\t3\t0\t9\n2\tInfinity\n3\t4\t2\t4\n4\n",
    ),
    Makes("fstcompose a --max_states=5 b r --connect=true", COMPOSED),
    Machine("n", "tropical", b""),
    Makes("compose a n r", b""),
    Makes("compose n b r", b""),
    Machine("a", "boolean", FIRST),
    Machine("b", "boolean", SECOND),
    Makes("compose a b r", COMPOSED),
    // Two arcs of each machine, of which each matches one: two paths of one pair.
    Machine("a", "tropical", UNSORTED),
    Machine("b", "tropical", OTHER),
    Run("arcsort --sort_type=olabel a s"),
    Makes("compose s b r", b"0\t1\t1\t1\n0\t1\t1\t1\n1\n"),
];

static WEIGHTS: [Row; 15] = [
    Machine("a", "tropical", b"0 1 1 1 999999999999999999\n1\n"),
    Machine("b", "tropical", b"0 1 1 1 1\n1\n"),
    Makes("compose a b r", b"0\t1\t1\t1\t1000000000000000000\n1\n"),
    Machine("a", "minmax", b"0 1 1 2 5\n1 3\n"),
    Machine("b", "minmax", b"0 1 2 3 4\n1 6\n"),
    Makes("compose a b r", b"0\t1\t1\t3\t5\n1\t6\n"),
    Machine("a", "lexicographic", b"0 1 1 2 5,1\n1 3,0\n"),
    Machine("b", "lexicographic", b"0 1 2 3 4,-2\n1 6,1\n"),
    Makes("compose a b r", b"0\t1\t1\t3\t9,-1\n1\t9,1\n"),
    // Epsilons on both sides, in the one order that the filter lets through.
    Machine("a", "tropical", b"0 1 1 0 1\n1\n"),
    Machine("b", "tropical", b"0 1 0 2 2\n1\n"),
    Makes("compose a b r", b"0\t1\t1\t0\t1\n1\t2\t0\t2\t2\n2\n"),
    // Before a match and after it.
    Machine("a", "tropical", b"0 1 1 0\n1 2 2 3\n2 3 4 0\n3\n"),
    Machine("b", "tropical", b"0 1 0 9\n1 2 3 4\n2 3 0 8\n3\n"),
    Makes(
        "compose a b r",
        b"0\t1\t1\t0\n1\t2\t0\t9\n2\t3\t2\t4\n3\t4\t4\t0\n4\t5\t0\t8\n5\n",
    ),
];

static REFUSED: [Row; 11] = [
    Machine("a", "tropical", UNSORTED),
    Machine("b", "tropical", OTHER),
    Refuse(
        "compose a b o",
        1,
        b"fst: neither machine is sorted for composition\n",
    ),
    Machine("a", "tropical", FIRST),
    Machine("b", "tropical", SECOND),
    Refuse(
        "compose --max_states=4 a b o",
        1,
        b"fst: state limit 4 passed\n",
    ),
    Machine("a", "tropical", b"0 1 1 1 1000000000000000000\n1\n"),
    Machine("b", "tropical", b"0 1 1 1 1\n1\n"),
    Refuse("compose a b o", 1, b"fst: number too large at state 0\n"),
    // A limit that is passed comes before a number that is too large.
    Refuse(
        "compose --max_states=1 a b o",
        1,
        b"fst: state limit 1 passed\n",
    ),
    Lacks("o"),
];

#[test]
fn composes(rt: HostRuntime) -> Result<(), Fail> {
    let alloc = rt.alloc();
    play(&rt, alloc, OPTIONS.as_slice())?;
    play(&rt, alloc, WEIGHTS.as_slice())
}

#[test]
fn refuses_what_has_no_composition(rt: HostRuntime) -> Result<(), Fail> {
    play(&rt, rt.alloc(), REFUSED.as_slice())
}
