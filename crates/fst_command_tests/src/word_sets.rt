//! `intersect`, `difference` and `equivalent`.

use crate::session::Row::{self, Lacks, Machine, Makes, Refuse, Tells};
use crate::session::play;
use std::test::Fail;

/// The words `1 3` of weight 5 and `2 3` of weight 2.
const TWO: &[u8] = b"0 1 1 1\n0 2 2 2\n1 3 3 3 5\n2 3 3 3 2\n3\n";

/// The same, minimal.
const LEAST: &[u8] = b"0 1 1 1 3\n0 1 2 2\n1 2 3 3\n2 2\n";

static INTERSECTED: [Row; 20] = [
    Machine("a", "tropical", TWO),
    Machine("b", "tropical", b"0 1 2 2 1\n1 2 3 3\n2\n"),
    Makes("intersect a b r", b"0\t1\t2\t2\t1\n1\t2\t3\t3\t2\n2\n"),
    Makes(
        "fstintersect --connect=true a b r",
        b"0\t1\t2\t2\t1\n1\t2\t3\t3\t2\n2\n",
    ),
    Makes("intersect b a r", b"0\t1\t2\t2\t1\n1\t2\t3\t3\t2\n2\n"),
    Refuse(
        "intersect --max_states=2 a b o",
        1,
        b"fst: state limit 2 passed\n",
    ),
    Makes(
        "intersect --max_states=3 a b r",
        b"0\t1\t2\t2\t1\n1\t2\t3\t3\t2\n2\n",
    ),
    Machine("b", "tropical", b"0 1 1 1\n0 1 2 2\n1 2 4 4\n2\n"),
    Makes("intersect a b r", b""),
    Makes(
        "intersect --connect=false a b r",
        b"0\t1\t1\t1\n0\t2\t2\t2\n1\tInfinity\n2\tInfinity\n",
    ),
    // The order of the causes.
    Machine("t", "tropical", b"0 1 1 2\n0 1 1 1\n1\n"),
    Machine("u", "tropical", b"0 1 2 2\n0 1 1 1\n1\n"),
    Refuse(
        "intersect u u o",
        1,
        b"fst: neither machine is sorted for composition\n",
    ),
    Refuse(
        "intersect t a o",
        1,
        b"fst: not an acceptor at state 0 arc 0\n",
    ),
    Refuse(
        "intersect a t o",
        1,
        b"fst: second machine: not an acceptor at state 0 arc 0\n",
    ),
    Refuse(
        "intersect t t o",
        1,
        b"fst: not an acceptor at state 0 arc 0\n",
    ),
    Machine("a", "minmax", b"0 1 1 1 3\n1 4\n"),
    Machine("b", "minmax", b"0 1 1 1 5\n1 2\n"),
    Makes("intersect a b r", b"0\t1\t1\t1\t5\n1\t4\n"),
    Lacks("o"),
];

static SUBTRACTED: [Row; 29] = [
    Machine("a", "tropical", TWO),
    Machine("b", "tropical", b"0 1 1 1\n1 2 3 3\n2\n"),
    Makes("difference a b r", b"0\t1\t2\t2\n1\t2\t3\t3\t2\n2\n"),
    Makes(
        "fstdifference --connect=false a b r",
        b"0\t1\t1\t1\n0\t2\t2\t2\n1\t3\t3\t3\t5\n2\t4\t3\t3\t2\n3\tInfinity\n4\n",
    ),
    Machine("w", "tropical", b"0 1 1 1 4\n1\n"),
    Refuse("difference a w o", 1, b"fst: not unweighted at state 0\n"),
    // An epsilon of the first leaves the second where it is.
    Machine("a", "tropical", b"0 1 0 0\n1 2 1 1\n2\n"),
    Machine("b", "tropical", b"0 1 1 1\n1\n"),
    Makes("difference a b r", b""),
    Refuse(
        "difference --connect=false --max_states=2 a b o",
        1,
        b"fst: state limit 2 passed\n",
    ),
    Makes(
        "difference --connect=false --max_states=3 a b r",
        b"0\t1\t0\t0\n1\t2\t1\t1\n2\tInfinity\n",
    ),
    // A second machine without states takes nothing.
    Machine("e", "tropical", b""),
    Machine("a", "tropical", b"0 1 1 2\n1\n"),
    Refuse(
        "difference a e o",
        1,
        b"fst: not an acceptor at state 0 arc 0\n",
    ),
    Machine("a", "tropical", b"0 1 1 1 2\n0 1 1 1 3\n1\n"),
    Makes("difference a e r", b"0\t1\t1\t1\t2\n0\t1\t1\t1\t3\n1\n"),
    Makes("difference e b r", b""),
    // The order of the causes.
    Machine("d", "tropical", b"0 1 0 0\n0 1 0 0 4\n1\n"),
    Refuse(
        "difference a d o",
        1,
        b"fst: not deterministic at state 0 arc 1\n",
    ),
    Machine("d", "tropical", b"0 1 0 0 4\n1 7\n"),
    Refuse("difference a d o", 1, b"fst: epsilon at state 0 arc 0\n"),
    Machine("d", "tropical", b"0 1 1 1\n1 7\n"),
    Refuse("difference a d o", 1, b"fst: not unweighted at state 1\n"),
    Machine("d", "tropical", b"0 1 2 1\n0 1 2 2\n1 7\n"),
    Refuse(
        "difference a d o",
        1,
        b"fst: second machine: not an acceptor at state 0 arc 0\n",
    ),
    // A second machine whose arcs are not in order.
    Machine("b", "tropical", b"0 1 2 2\n0 2 1 1\n1\n2 2 9 9\n"),
    Machine("a", "tropical", b"0 1 1 1\n0 1 2 2\n0 1 3 3\n1\n"),
    Makes("difference a b r", b"0\t1\t1\t1\n0\t2\t3\t3\n1\n2\n"),
    Lacks("o"),
];

static COMPARED: [Row; 62] = [
    Machine("a", "tropical", TWO),
    Machine("b", "tropical", LEAST),
    Tells("equivalent a b r", 0, b"equivalent\n"),
    Tells("fstequivalent b a r", 0, b"equivalent\n"),
    Machine("b", "tropical", b"0 1 1 1 3\n0 1 2 2\n1 2 3 3\n2 4\n"),
    Tells("equivalent a b r", 2, b"separated\t5\t7\t1 3\n"),
    Tells("equivalent b a r", 2, b"separated\t7\t5\t1 3\n"),
    Machine("b", "tropical", b"0 1 1 1\n1 2 3 3 5\n2\n"),
    Tells("equivalent a b r", 2, b"separated\t2\tInfinity\t2 3\n"),
    // The pair is met first with one ratio; the word goes by another.
    Machine("a", "tropical", b"0 1 1 1\n0 1 2 2\n1 2 3 3\n2\n"),
    Machine("b", "tropical", b"0 1 1 1\n0 1 2 2 1\n1 2 3 3\n2\n"),
    Tells("equivalent a b r", 2, b"separated\t0\t1\t2 3\n"),
    Machine("a", "tropical", b"0 0 1 1 1\n0 1 2 2\n1\n"),
    Machine("b", "tropical", b"0 0 1 1 2\n0 1 2 2\n1\n"),
    Tells("equivalent a b r", 2, b"separated\t1\t2\t1 2\n"),
    // A cycle that is better than One.
    Machine("a", "tropical", b"0 0 1 1 -1\n0\n"),
    Tells("equivalent a a r", 0, b"equivalent\n"),
    Machine("b", "tropical", b"0 0 1 1 -2\n0\n"),
    Tells("equivalent a b r", 2, b"separated\t-1\t-2\t1\n"),
    // Weights past 10 to the 18.
    Machine(
        "a",
        "tropical",
        b"0 1 1 1 1000000000000000000\n1 2 1 1 1000000000000000000\n2\n",
    ),
    Machine("b", "tropical", b"0 1 1 1\n1 2 1 1\n2\n"),
    Tells(
        "equivalent a b r",
        2,
        b"separated\t2000000000000000000\t0\t1 1\n",
    ),
    // The empty word.
    Machine("a", "tropical", b"0 3\n"),
    Machine("b", "tropical", b"0 4\n"),
    Tells("equivalent a b r", 2, b"separated\t3\t4\t\n"),
    Machine("e", "tropical", b""),
    Tells("equivalent e e r", 0, b"equivalent\n"),
    Machine("b", "tropical", b"0 1 7 7\n1\n"),
    Tells("equivalent e b r", 2, b"separated\tInfinity\t0\t7\n"),
    // Label 0 is a label like others.
    Machine("a", "tropical", b"0 1 0 0\n1\n"),
    Machine("b", "tropical", b"0\n"),
    Tells("equivalent a b r", 2, b"separated\tInfinity\t0\t\n"),
    // The limit counts all pairs.
    Machine("a", "tropical", b"0 0 1 1\n0 3\n"),
    Machine("b", "tropical", b"0 1 1 1\n1 0 1 1\n0\n1\n"),
    Refuse(
        "equivalent --max_states=1 a b o",
        1,
        b"fst: state limit 1 passed\n",
    ),
    Tells("equivalent --max_states=2 a b r", 2, b"separated\t3\t0\t\n"),
    // Arcs out of order.
    Machine("a", "tropical", b"0 1 2 2\n0 1 1 1\n1\n"),
    Machine("b", "tropical", b"0 1 2 2 5\n0 1 1 1 5\n1\n"),
    Tells("equivalent a b r", 2, b"separated\t0\t5\t1\n"),
    // What no successful path meets makes no pair.
    Machine("a", "tropical", b"0 1 1 1\n0 2 2 2\n1\n"),
    Machine("b", "tropical", b"0 1 1 1\n1\n"),
    Tells("equivalent --max_states=2 a b r", 0, b"equivalent\n"),
    // The other arc types.
    Machine("a", "boolean", b"0 1 1 1\n1\n"),
    Machine("b", "boolean", b"0 1 1 1\n1 1 2 2\n1\n"),
    Tells("equivalent a b r", 2, b"separated\t0\t1\t1 2\n"),
    Machine("a", "lexicographic", b"0 1 1 1 1,2\n1\n"),
    Machine("b", "lexicographic", b"0 1 1 1 1,3\n1\n"),
    Tells("equivalent a b r", 2, b"separated\t1,2\t1,3\t1\n"),
    Machine("b", "lexicographic", b"0\n"),
    Tells(
        "equivalent b a r",
        2,
        b"separated\t0,0\tInfinity,Infinity\t\n",
    ),
    Machine("m", "minmax", b"0 1 1 1 3\n1\n"),
    Refuse(
        "equivalent m m o",
        1,
        b"fst: arc type minmax does not cancel\n",
    ),
    Machine("d", "minmax", b"0 1 1 1 3\n0 1 1 1 4\n1\n"),
    Refuse(
        "equivalent m d o",
        1,
        b"fst: second machine: not deterministic at state 0 arc 1\n",
    ),
    Refuse(
        "equivalent d m o",
        1,
        b"fst: not deterministic at state 0 arc 1\n",
    ),
    Machine("t", "minmax", b"0 1 1 2\n1\n"),
    Refuse(
        "equivalent d t o",
        1,
        b"fst: second machine: not an acceptor at state 0 arc 0\n",
    ),
    Refuse(
        "equivalent t d o",
        1,
        b"fst: not an acceptor at state 0 arc 0\n",
    ),
    Refuse(
        "equivalent m a o",
        1,
        b"fst: arc types differ: minmax and lexicographic\n",
    ),
    Refuse(
        "equivalent --connect=true m m o",
        1,
        b"fst: bad command line\n",
    ),
    Refuse("equivalent m", 1, b"fst: bad command line\n"),
    Lacks("o"),
];

#[test]
fn acceptors_are_intersected(rt: HostRuntime) -> Result<(), Fail> {
    play(&rt, rt.alloc(), INTERSECTED.as_slice())
}

#[test]
fn acceptors_are_subtracted(rt: HostRuntime) -> Result<(), Fail> {
    play(&rt, rt.alloc(), SUBTRACTED.as_slice())
}

#[test]
fn acceptors_are_compared(rt: HostRuntime) -> Result<(), Fail> {
    play(&rt, rt.alloc(), COMPARED.as_slice())
}
