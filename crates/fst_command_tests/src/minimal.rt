//! `minimize`.

use crate::session::Row::{self, Lacks, Machine, Makes, Refuse};
use crate::session::play;
use std::test::Fail;

static MINIMIZED: [Row; 29] = [
    Machine("m", "tropical", b"0 0 1 1 0\n0 3\n"),
    Makes("minimize m r", b"0\t0\t1\t1\n0\t3\n"),
    // Two states that are alike once the weights are pushed.
    Machine(
        "m",
        "tropical",
        b"0 1 1 1\n0 2 2 2\n1 3 3 3 5\n2 3 3 3 2\n3\n",
    ),
    Makes(
        "minimize m r",
        b"0\t1\t1\t1\t3\n0\t1\t2\t2\n1\t2\t3\t3\n2\t2\n",
    ),
    Makes(
        "minimize --queue_type=lifo m r",
        b"0\t1\t1\t1\t3\n0\t1\t2\t2\n1\t2\t3\t3\n2\t2\n",
    ),
    Makes(
        "fstminimize m --queue_type=shortest r",
        b"0\t1\t1\t1\t3\n0\t1\t2\t2\n1\t2\t3\t3\n2\t2\n",
    ),
    Machine("m", "boolean", b"0 1 1 1\n0 2 2 2\n1 3 3 3\n2 3 3 3\n3\n"),
    Makes("minimize m r", b"0\t1\t1\t1\n0\t1\t2\t2\n1\t2\t3\t3\n2\n"),
    Machine(
        "m",
        "lexicographic",
        b"0 1 1 1\n0 2 2 2\n1 3 3 3 5,1\n2 3 3 3 2,7\n3\n",
    ),
    Makes(
        "minimize m r",
        b"0\t1\t1\t1\t3,-6\n0\t1\t2\t2\n1\t2\t3\t3\n2\t2,7\n",
    ),
    // Each word weighs 6, and three states would be enough.
    Machine(
        "m",
        "minmax",
        b"0 1 1 1 6\n0 2 2 2 6\n1 3 1 1 6\n1 3 2 2 5\n2 3 1 1 5\n2 3 2 2 5\n3 -Infinity\n",
    ),
    Makes(
        "minimize m r",
        b"0\t1\t1\t1\n0\t2\t2\t2\n1\t3\t1\t1\t6\n1\t3\t2\t2\n2\t3\t1\t1\n2\t3\t2\t2\n3\t6\n",
    ),
    // Labels that do not ascend: the arcs of the least member stay in their order.
    Machine(
        "m",
        "tropical",
        b"0 1 2 2\n0 2 1 1\n1 3 5 5\n1 3 4 4\n2 3 4 4\n2 3 5 5\n3\n",
    ),
    Makes(
        "minimize m r",
        b"0\t1\t2\t2\n0\t1\t1\t1\n1\t2\t5\t5\n1\t2\t4\t4\n2\n",
    ),
    // A start that is entered.
    Machine("m", "tropical", b"0 1 1 1 2\n1 0 2 2 3\n1 4\n"),
    Makes("minimize m r", b"0\t1\t1\t1\n1\t0\t2\t2\t5\n1\t6\n"),
    // No useful state.
    Machine("m", "tropical", b"0 1 1 1\n"),
    Makes("minimize m r", b""),
    // A bad cycle on a state that is not useful, and one that counts.
    Machine("m", "tropical", b"0 1 1 1 2\n0 2 2 2\n2 2 3 3 -1\n1\n"),
    Makes("minimize m r", b"0\t1\t1\t1\n1\t2\n"),
    Machine("m", "tropical", b"0 0 1 1 -1\n0\n"),
    Refuse("minimize m o", 1, b"fst: improving cycle\n"),
    Machine(
        "m",
        "tropical",
        b"0 1 1 1 1\n0 2 1 1 2\n1 3 3 3 5\n2 3 3 3 1\n3\n",
    ),
    Refuse(
        "minimize m o",
        1,
        b"fst: not deterministic at state 0 arc 1\n",
    ),
    // The labels of an arc are asked first.
    Machine("m", "tropical", b"0 1 1 1\n0 1 1 1\n1 0 2 3\n1\n"),
    Refuse(
        "minimize m o",
        1,
        b"fst: not an acceptor at state 1 arc 0\n",
    ),
    Machine(
        "m",
        "tropical",
        b"0 1 1 1 1000000000000000000\n1 2 2 2 1000000000000000000\n2\n",
    ),
    Refuse("minimize m o", 1, b"fst: number too large at state 2\n"),
    Lacks("o"),
];

#[test]
fn deterministic_acceptors_are_minimized(rt: HostRuntime) -> Result<(), Fail> {
    play(&rt, rt.alloc(), MINIMIZED.as_slice())
}
