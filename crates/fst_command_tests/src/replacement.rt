//! `replace`.

use crate::session::Row::{self, Lacks, Machine, Makes, Put, Refuse};
use crate::session::play;
use std::test::Fail;

/// A text whose second arc calls the rule of label 101.
const ROOT: &[u8] = b"0 1 1 1\n1 2 5 101 2\n2\n";

/// A text that calls itself by that label.
const LOOP: &[u8] = b"0 1 7 101\n1\n";

/// Another arc type comes before a recursive rule, and the form of a later file before that.
static ROWS: [Row; 21] = [
    Machine("a", "tropical", ROOT),
    Machine("b", "tropical", b"0 1 7 8 3\n1 4\n"),
    Makes(
        "replace a 100 b 101 r",
        b"0\t1\t1\t1\n1\t3\t0\t0\t2\n2\n3\t4\t7\t8\t3\n4\t2\t0\t0\t4\n",
    ),
    Machine("b", "tropical", b""),
    Makes("replace a 100 b 101 r", b"0\t1\t1\t1\n1\tInfinity\n2\n"),
    // A recursive rule that the root does not reach.
    Machine("a", "tropical", b"0 1 1 1\n1\n"),
    Machine("b", "tropical", LOOP),
    Makes("replace a 100 b 101 r", b"0\t1\t1\t1\n1\n"),
    Machine("a", "tropical", ROOT),
    Refuse("replace a 100 b 101 o", 1, b"fst: label 101 is recursive\n"),
    Machine("c", "boolean", b"0 1 1 1\n1 1\n"),
    Put("t", b"0 1 1 1\n"),
    Refuse(
        "replace a 100 c 102 b 101 c 103 o",
        1,
        b"fst: arc types differ: tropical and boolean\n",
    ),
    Refuse(
        "replace a 100 c 102 b 101 t 103 o",
        1,
        b"fst: t: byte 0: bad magic number\n",
    ),
    // Rules that call one another in a ring.
    Machine("b", "tropical", b"0 1 7 102\n1\n"),
    Machine("c", "tropical", b"0 1 7 103\n1\n"),
    Machine("d", "tropical", b"0 1 7 104\n1\n"),
    Machine("e", "tropical", b"0 1 7 105\n1\n"),
    Machine("f", "tropical", b"0 1 7 102\n1\n"),
    Refuse(
        "replace a 100 b 101 f 105 e 104 d 103 c 102 o",
        1,
        b"fst: label 105 is recursive\n",
    ),
    Lacks("o"),
];

#[test]
fn replaces_calls(rt: HostRuntime) -> Result<(), Fail> {
    play(&rt, rt.alloc(), ROWS.as_slice())
}
