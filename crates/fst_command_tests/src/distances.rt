//! `shortestdistance`.

use crate::session::Row::{self, Holds, Lacks, Machine, Refuse, Run};
use crate::session::play;
use std::test::Fail;

/// Two states, of which the second has a loop that betters nothing.
const PAIRS: &[u8] = b"0 1 1 1 2,5\n1 1 2 2 1,-3\n1 0,0\n";

/// The same with a loop that is better than One.
const BETTERED: &[u8] = b"0 1 1 1 2,5\n1 1 2 2 0,-1\n1 0,0\n";

static DISTANCES: [Row; 28] = [
    Machine("m", "lexicographic", PAIRS),
    Run("shortestdistance m d"),
    Holds("d", b"0\t0,0\n1\t2,5\n"),
    Run("shortestdistance --queue_type=fifo m d"),
    Holds("d", b"0\t0,0\n1\t2,5\n"),
    Run("shortestdistance --queue_type=lifo m d"),
    Holds("d", b"0\t0,0\n1\t2,5\n"),
    Run("fstshortestdistance m --queue_type=shortest d"),
    Holds("d", b"0\t0,0\n1\t2,5\n"),
    Run("shortestdistance --reverse m d"),
    Holds("d", b"0\t2,5\n1\t0,0\n"),
    Run("shortestdistance --reverse --queue_type=lifo m d"),
    Holds("d", b"0\t2,5\n1\t0,0\n"),
    Machine("m", "lexicographic", BETTERED),
    Refuse("shortestdistance m o", 1, b"fst: improving cycle\n"),
    Refuse(
        "shortestdistance --reverse --queue_type=shortest m o",
        1,
        b"fst: improving cycle\n",
    ),
    Lacks("o"),
    Machine("m", "tropical", b""),
    Run("shortestdistance m d"),
    Holds("d", b""),
    Machine("m", "boolean", b"0 1 1 1\n1 1\n2 2 1 1\n"),
    Run("shortestdistance m d"),
    Holds("d", b"0\t1\n1\t1\n2\t0\n"),
    Machine(
        "m",
        "tropical",
        b"0 1 1 1 1000000000000000000\n1 2 1 1 1\n2\n",
    ),
    Refuse(
        "shortestdistance m o",
        1,
        b"fst: number too large at state 2\n",
    ),
    Refuse(
        "shortestdistance --reverse m o",
        1,
        b"fst: number too large at state 0\n",
    ),
    Machine("m", "minmax", b"0 1 1 1 5\n1 2 1 1 3\n2 4\n"),
    Run("shortestdistance m d"),
];

#[test]
fn distances_are_told_by_every_queue(rt: HostRuntime) -> Result<(), Fail> {
    play(&rt, rt.alloc(), DISTANCES.as_slice())
}
