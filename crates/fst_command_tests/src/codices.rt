//! `encode` and `encode --decode`.

use crate::session::Row::{self, Holds, Lacks, Machine, Makes, Put, Refuse, Run};
use crate::session::play;
use std::test::Fail;

/// A text with two arcs of one pair of labels and different weights.
pub(crate) const TWICE: &[u8] = b"0 1 1 2 5\n0 1 1 2 6\n1 3\n";

/// The codex of its labels.
pub(crate) const CODEX: &[u8] =
    b"FSTCODEX\x08\0\0\0tropical\0\x01\0\0\0\0\0\0\0\x01\0\0\0\x02\0\0\0";

static BOTH_WAYS: [Row; 8] = [
    Machine("m", "tropical", TWICE),
    Makes(
        "encode --encode_labels m c r",
        b"0\t1\t1\t1\t5\n0\t1\t1\t1\t6\n1\t3\n",
    ),
    Holds("c", CODEX),
    Run("encode --encode_labels m c o"),
    Makes(
        "encode --decode o c r",
        b"0\t1\t1\t2\t5\n0\t1\t1\t2\t6\n1\t3\n",
    ),
    Makes(
        "encode --encode_labels --encode_weights m c r",
        b"0\t1\t1\t1\n0\t1\t2\t2\n1\t3\n",
    ),
    Run("encode --encode_labels --encode_weights m c o"),
    Makes(
        "fstencode --decode o c r",
        b"0\t1\t1\t2\t5\n0\t1\t1\t2\t6\n1\t3\n",
    ),
];

/// The form of the codex comes before its arc type.
static REFUSED: [Row; 16] = [
    Put("c", CODEX),
    Machine("m", "tropical", b"0 1 3 3\n1\n"),
    Refuse(
        "encode --decode m c n",
        1,
        b"fst: label 3 is not in the codex\n",
    ),
    Machine("m", "tropical", b"0 1 1 1\n0 1 1 0\n1\n"),
    Refuse(
        "encode --decode m c n",
        1,
        b"fst: not an acceptor at state 0 arc 1\n",
    ),
    Machine("m", "tropical", b"0 1 1 1 1000000000000000000\n1\n"),
    Put(
        "c",
        b"FSTCODEX\x08\0\0\0tropical\x01\x01\0\0\0\0\0\0\0\x01\0\0\0\x02\0\0\0\x01\x01\0\0\0\0\0\0\0",
    ),
    Refuse(
        "encode --decode m c n",
        1,
        b"fst: number too large at state 0\n",
    ),
    Machine("m", "tropical", b"0 1 1 1\n1\n"),
    Put(
        "c",
        b"FSTCODEX\x07\0\0\0boolean\0\x01\0\0\0\0\0\0\0\x01\0\0\0\x02\0\0\0",
    ),
    Refuse(
        "encode --decode m c n",
        1,
        b"fst: arc types differ: tropical and boolean\n",
    ),
    Put("c", b"FSTCODEX\x07\0\0\0boolean\x02"),
    Refuse("encode --decode m c n", 1, b"fst: c: byte 19: bad flags\n"),
    Put("c", b"FSTCODE"),
    Refuse("encode --decode m c n", 1, b"fst: c: byte 7: too short\n"),
    Lacks("n"),
];

#[test]
fn encodes_and_decodes(rt: HostRuntime) -> Result<(), Fail> {
    play(&rt, rt.alloc(), BOTH_WAYS.as_slice())
}

#[test]
fn refuses_what_is_not_decoded(rt: HostRuntime) -> Result<(), Fail> {
    play(&rt, rt.alloc(), REFUSED.as_slice())
}
