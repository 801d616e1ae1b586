//! `determinize`.

use crate::session::Row::{self, Lacks, Machine, Makes, Refuse};
use crate::session::play;
use std::test::Fail;

/// Two paths with one label word, which end in one state.
const TWO_WAYS: &[u8] = b"0 1 1 1 1\n0 2 1 1 2\n1 3 3 3 5\n2 3 3 3 1\n3\n";

static DETERMINIZED: [Row; 14] = [
    Machine("m", "tropical", TWO_WAYS),
    Makes("determinize m r", b"0\t1\t1\t1\t1\n1\t2\t3\t3\t2\n2\n"),
    // The two loops part further with each turn.
    Machine(
        "m",
        "tropical",
        b"0 1 1 1\n0 2 1 1\n1 1 2 2 1\n2 2 2 2 2\n1\n2\n",
    ),
    Refuse(
        "determinize --max_states=5 m o",
        1,
        b"fst: state limit 5 passed\n",
    ),
    Machine(
        "m",
        "minmax",
        b"0 1 1 1 3\n0 2 1 1 5\n1 3 2 2 4\n2 3 2 2 1\n3 -Infinity\n",
    ),
    Makes(
        "fstdeterminize m r",
        b"0\t1\t1\t1\t3\n1\t2\t2\t2\t4\n2\t4\n",
    ),
    Machine("m", "tropical", b"0 1 1 2 5\n1 3\n"),
    Refuse(
        "determinize m o",
        1,
        b"fst: not an acceptor at state 0 arc 0\n",
    ),
    Lacks("o"),
    Machine("m", "tropical", b""),
    Makes("determinize m r", b""),
    // Epsilon is a label like others.
    Machine("m", "boolean", b"0 1 0 0\n0 2 0 0\n1\n2\n"),
    Makes("determinize m r", b"0\t1\t0\t0\n1\n"),
    Makes("determinize --max_states=2 m r", b"0\t1\t0\t0\n1\n"),
];

#[test]
fn acceptors_are_determinized(rt: HostRuntime) -> Result<(), Fail> {
    play(&rt, rt.alloc(), DETERMINIZED.as_slice())
}
