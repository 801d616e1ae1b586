//! `batch`.

use crate::session::Row::{self, Holds, Lacks, Machine, Put, Refuse, Run};
use crate::session::play;
use std::test::Fail;

/// The answers of six lines, and how many states of the composition they need.
const ANSWERS: &[u8] = b"1\t1\t21\n2\tnone\n3\t1\t21\n4\t0\t20\n5\t0\t22\n6\tnone\n#\t6\t13\n";

static ROWS: [Row; 33] = [
    // Number words, read byte by byte.
    Machine(
        "a",
        "tropical",
        b"0 1 116 50\n1 2 119 0\n2 3 101 0\n3 4 110 0\n4 5 116 0\n5 6 121 0\n6 7 0 48\n6 8 32 0\n8 9 111 49\n9 10 110 0\n10 7 101 0\n8 11 116 50\n11 12 119 0\n12 7 111 0\n7\n",
    ),
    Machine("b", "tropical", b"0 0 48 48\n0 0 49 49 1\n0 0 50 50\n0\n"),
    Put(
        "lines",
        b"twenty one\n\ntwenty one\ntwenty\ntwenty two\none\n",
    ),
    Run("batch a b lines out --summary"),
    Holds("out", ANSWERS),
    Run("batch --workers=2 a b lines out --summary"),
    Holds("out", ANSWERS),
    Run("batch --workers=64 a b lines out --summary"),
    Holds("out", ANSWERS),
    Run("batch --max_states=5 a b lines out --summary"),
    Holds(
        "out",
        b"1\t!\tstate limit 5 passed\n2\tnone\n3\t!\tstate limit 5 passed\n4\t!\tstate limit 5 passed\n5\t!\tstate limit 5 passed\n6\tnone\n#\t6\t5\n",
    ),
    // A last line needs no end, and a text without bytes has no line.
    Put("lines", b"twenty"),
    Run("batch a b lines out"),
    Holds("out", b"1\t0\t20\n"),
    Put("lines", b""),
    Run("batch a b lines out"),
    Holds("out", b""),
    Put("lines", b"a\n\0\n"),
    Run("batch a b lines out"),
    Holds("out", b"1\tnone\n2\t!\tbyte 0 in the line\n"),
    // A label that is no text, and a cycle better than One.
    Put("lines", b"a\n"),
    Machine("a", "tropical", b"0 1 97 300\n1\n"),
    Machine("b", "tropical", b"0 1 300 300\n1\n"),
    Run("batch a b lines out"),
    Holds("out", b"1\t!\tlabel 300 is not text\n"),
    Machine("a", "tropical", b"0 1 97 97\n1\n"),
    Machine("b", "tropical", b"0 0 0 98 -1\n0 0 97 97\n0\n"),
    Run("batch a b lines out"),
    Holds("out", b"1\t!\timproving cycle\n"),
    // Neither machine is sorted.
    Machine("a", "tropical", b"0 0 97 2\n0 0 97 1\n0\n"),
    Machine("b", "tropical", b"0 0 2 97\n0 0 1 97\n0\n"),
    Refuse(
        "batch a b lines o",
        1,
        b"fst: neither machine is sorted for composition\n",
    ),
    Lacks("o"),
];

#[test]
fn answers_lines(rt: HostRuntime) -> Result<(), Fail> {
    play(&rt, rt.alloc(), ROWS.as_slice())
}
