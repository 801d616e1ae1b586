//! `push`.

use crate::session::Row::{self, Lacks, Machine, Makes, Refuse};
use crate::session::play;
use std::test::Fail;

/// Two ways to one end, by weights that stand late.
const WAYS: &[u8] = b"0 1 1 1\n0 2 2 2\n1 3 3 3 5\n2 3 3 3 2\n3\n";

/// Its pushed machine without the total, which is 2.
const REMOVED: &[u8] = b"0\t1\t1\t1\t3\n0\t2\t2\t2\n1\t3\t3\t3\n2\t3\t3\t3\n3\n";

/// And with it.
const PUT: &[u8] = b"0\t1\t1\t1\t5\n0\t2\t2\t2\t2\n1\t3\t3\t3\n2\t3\t3\t3\n3\n";

/// Its total is one past the greatest number.
const LARGE: &[u8] = b"0 1 1 1 1000000000000000000\n1 1\n";

static PUSHED: [Row; 39] = [
    Machine("m", "tropical", WAYS),
    Makes("push --push_weights m r", PUT),
    Makes("fstpush --queue_type=lifo --push_weights m r", PUT),
    Makes(
        "push --push_weights m --remove_total_weight --queue_type=shortest r",
        REMOVED,
    ),
    Refuse("push m o", 1, b"fst: bad command line\n"),
    Refuse(
        "push --remove_total_weight m o",
        1,
        b"fst: bad command line\n",
    ),
    Lacks("o"),
    // The start is entered, so the total stands on a copy.
    Machine("m", "tropical", b"0 0 1 1 0\n0 3\n"),
    Makes(
        "push --push_weights m r",
        b"1\t0\t1\t1\t3\n1\t3\n0\t0\t1\t1\n0\n",
    ),
    Makes(
        "push --push_weights --remove_total_weight m r",
        b"0\t0\t1\t1\n0\n",
    ),
    // A total that is One needs no copy.
    Machine("m", "tropical", b"0 0 1 1 4\n0\n"),
    Makes("push --push_weights m r", b"0\t0\t1\t1\t4\n0\n"),
    Machine("m", "tropical", LARGE),
    Refuse(
        "push --push_weights m o",
        1,
        b"fst: number too large at state 0\n",
    ),
    Makes(
        "push --push_weights --remove_total_weight m r",
        b"0\t1\t1\t1\n1\n",
    ),
    // The copy of the start is the first state with a number that is too large.
    Machine(
        "m",
        "tropical",
        b"0 0 1 1\n0 1 2 2 1000000000000000000\n1 1\n",
    ),
    Refuse(
        "push --push_weights m o",
        1,
        b"fst: number too large at state 2\n",
    ),
    Lacks("o"),
    // No state is useful; and states on no successful path, with a cycle that is better than One.
    Machine("m", "tropical", b"0 1 1 1\n"),
    Makes("push --push_weights m r", b""),
    Machine("m", "tropical", b""),
    Makes("push --push_weights m r", b""),
    Machine(
        "m",
        "tropical",
        b"0 2 2 2\n0 1 1 1 2\n2 2 3 3 -1\n1 3\n3 3 1 1 -1\n3 0 1 1\n",
    ),
    Makes("push --push_weights m r", b"0\t1\t1\t1\t5\n1\n"),
    // Here such a cycle is on successful paths.
    Machine("m", "tropical", b"0 1 1 1\n1 0 1 1 -1\n1\n"),
    Refuse("push --push_weights m o", 1, b"fst: improving cycle\n"),
    Lacks("o"),
    Machine("m", "lexicographic", b"0 1 1 1 2,5\n1 1 2 2 1,-3\n1 0,1\n"),
    Makes(
        "push --push_weights m r",
        b"0\t1\t1\t1\t2,6\n1\t1\t2\t2\t1,-3\n1\n",
    ),
    Makes(
        "push --push_weights --remove_total_weight m r",
        b"0\t1\t1\t1\n1\t1\t2\t2\t1,-3\n1\n",
    ),
    Machine(
        "m",
        "minmax",
        b"0 1 1 1 5\n1 2 2 2 7\n1 3 3 3 2\n2 -Infinity\n3 4\n",
    ),
    Makes(
        "push --push_weights m r",
        b"0\t1\t1\t1\t5\n1\t2\t2\t2\t7\n1\t3\t3\t3\n2\n3\n",
    ),
    Makes(
        "push --push_weights --remove_total_weight m r",
        b"0\t1\t1\t1\n1\t2\t2\t2\t7\n1\t3\t3\t3\n2\n3\n",
    ),
    // An arc whose weight is the distance of its state becomes One, also where no value is divided.
    Machine("m", "minmax", b"0 0 1 1 3\n0 3\n"),
    Makes(
        "push --push_weights m r",
        b"1\t0\t1\t1\t3\n1\t3\n0\t0\t1\t1\n0\n",
    ),
    Machine("m", "boolean", b"0 1 1 1\n1 0 2 2\n1\n2 1 3 3\n"),
    Makes("push --push_weights m r", b"0\t1\t1\t1\n1\t0\t2\t2\n1\n"),
    Refuse("push --push_weights n o", 4, b"fst: cannot read n\n"),
    Lacks("o"),
];

#[test]
fn weights_are_pushed_toward_the_start(rt: HostRuntime) -> Result<(), Fail> {
    play(&rt, rt.alloc(), PUSHED.as_slice())
}
