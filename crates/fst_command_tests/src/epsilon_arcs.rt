//! `rmepsilon`.

use crate::session::Row::{self, Lacks, Machine, Makes, Refuse};
use crate::session::play;
use std::test::Fail;

/// Two ways of epsilon arcs lead to state 1; the better has two arcs. The arc that is not epsilon is merged with none.
const TWO_WAYS: &[u8] = b"0 1 0 0 3\n0 2 0 0 1\n2 1 0 0 1\n1 1 0 0 0\n1 3 5 6 4\n3\n";

/// Equal arcs come from states 0, 1 and 2: one stands for them, in the place of the first, with the best weight.
const MERGED: &[u8] =
    b"0 3 7 7 9\n0 3 8 8 1\n0 2 0 0 1\n0 1 0 0 2\n1 3 7 7 1\n1 3 9 9\n1 3\n2 3 7 7 1\n2 5\n3\n";

/// A cycle of epsilon arcs that is better than One, which the start reaches.
const BETTERED: &[u8] = b"0 1 1 1\n1 2 0 0 1\n2 1 0 0 -2\n2\n";

static REMOVED: [Row; 34] = [
    Machine("m", "tropical", TWO_WAYS),
    Makes("rmepsilon m r", b"0\t1\t5\t6\t6\n1\n"),
    Makes("rmepsilon --queue_type=lifo m r", b"0\t1\t5\t6\t6\n1\n"),
    Makes(
        "fstrmepsilon --queue_type=shortest m r",
        b"0\t1\t5\t6\t6\n1\n",
    ),
    Makes(
        "rmepsilon --queue_type=auto --connect=true m r",
        b"0\t1\t5\t6\t6\n1\n",
    ),
    Makes(
        "rmepsilon --connect=false m r",
        b"0\t3\t5\t6\t6\n1\t3\t5\t6\t4\n2\t3\t5\t6\t5\n3\n",
    ),
    Machine("m", "tropical", MERGED),
    Makes(
        "rmepsilon m r",
        b"0\t1\t7\t7\t2\n0\t1\t8\t8\t1\n0\t1\t9\t9\t2\n0\t5\n1\n",
    ),
    Makes(
        "rmepsilon --queue_type=lifo m r",
        b"0\t1\t7\t7\t2\n0\t1\t8\t8\t1\n0\t1\t9\t9\t2\n0\t5\n1\n",
    ),
    // The start does not reach state 2.
    Machine("m", "boolean", b"0 1 0 0\n1 1 1 1\n1\n2 1 3 3\n"),
    Makes("rmepsilon m r", b"0\t1\t1\t1\n0\n1\t1\t1\t1\n1\n"),
    Makes(
        "rmepsilon --connect=false m r",
        b"0\t1\t1\t1\n0\n1\t1\t1\t1\n1\n2\t0\n",
    ),
    Machine(
        "m",
        "minmax",
        b"0 1 0 0 5\n0 2 0 0 3\n2 1 0 0 4\n1 2 1 1 1\n2\n1 7\n",
    ),
    Makes("rmepsilon m r", b"0\t1\t1\t1\t4\n0\t3\n1\t1\t1\t1\t4\n1\n"),
    Machine(
        "m",
        "lexicographic",
        b"0 1 0 0 1,2\n0 2 0 0 1,1\n1 3 1 1 0,0\n2 3 1 1 0,0\n3 2,2\n",
    ),
    Makes("rmepsilon m r", b"0\t1\t1\t1\t1,1\n1\t2,2\n"),
    // No start.
    Machine("m", "tropical", b""),
    Makes("rmepsilon m r", b""),
    Makes("rmepsilon --connect=false m r", b""),
    Machine("m", "tropical", BETTERED),
    Refuse("rmepsilon m o", 1, b"fst: improving cycle\n"),
    Refuse(
        "rmepsilon --queue_type=lifo m o",
        1,
        b"fst: improving cycle\n",
    ),
    Refuse(
        "rmepsilon --queue_type=shortest --connect=false m o",
        1,
        b"fst: improving cycle\n",
    ),
    // One label of it is not epsilon.
    Machine("m", "tropical", b"0 0 0 1 -1\n0\n"),
    Makes("rmepsilon m r", b"0\t0\t0\t1\t-1\n0\n"),
    // The start does not reach it.
    Machine("m", "tropical", b"0\n1 1 0 0 -1\n1\n"),
    Makes("rmepsilon m r", b"0\n"),
    // Too large a number counts before the machine is connected: it stands at state 1.
    Machine(
        "m",
        "tropical",
        b"0 1 1 1\n1 2 0 0 900000000000000000\n2 3 1 1 900000000000000000\n0\n",
    ),
    Refuse("rmepsilon m o", 1, b"fst: number too large at state 1\n"),
    Machine("m", "tropical", b"0 1 0 0 1000000000000000000\n1 1\n"),
    Refuse("rmepsilon m o", 1, b"fst: number too large at state 0\n"),
    Lacks("o"),
    Refuse(
        "rmepsilon --connect=maybe m o",
        1,
        b"fst: bad command line\n",
    ),
    Lacks("o"),
];

#[test]
fn epsilon_arcs_are_removed_by_every_queue(rt: HostRuntime) -> Result<(), Fail> {
    play(&rt, rt.alloc(), REMOVED.as_slice())
}
