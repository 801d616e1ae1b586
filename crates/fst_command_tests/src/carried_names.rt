//! Machines that carry their symbol tables: which commands pass them on, and how `print` uses them.

use crate::session::Row::{self, Holds, Machine, Makes, Put, PutWith, Refuse, Run, Tells};
use crate::session::play;
use std::test::Fail;

/// An arc 1:2 with weight 5 to a final state with weight 3, and the table of `a`, whose number is 1, for its input labels.
const TABLED_FILE: &[u8] =
    b"\xd6\xfd\xb2\x7e\x06\0\0\0vector\x08\0\0\0tropical\x03\0\0\0\x01\0\0\0\x03\0\0\0\0\0\0\0\0\0\0\0\0\0\0\0\x02\0\0\0\0\0\0\0\x01\0\0\0\0\0\0\0\x01\0\0\0\0\0\0\0\x01\0\0\0a\x01\0\0\0\0\x01\0\0\0\0\0\0\0\x01\0\0\0\x02\0\0\0\x01\x05\0\0\0\0\0\0\0\x01\0\0\0\x01\x03\0\0\0\0\0\0\0\0\0\0\0\0\0\0\0";

/// A table that is kept, and shown unless numbers are asked for.
static KEPT: [Row; 18] = [
    Put("s", b"a 1\n"),
    Put("t", b"0 1 a 2 5\n1 3\n"),
    Run("compile --isymbols=s --keep_isymbols t o"),
    Holds("o", TABLED_FILE),
    Run("print o p"),
    Holds("p", b"0\t1\ta\t2\t5\n1\t3\n"),
    Run("print --numeric o p"),
    Holds("p", b"0\t1\t1\t2\t5\n1\t3\n"),
    Makes("invert o r", b"0\t1\t2\ta\t5\n1\t3\n"),
    Makes("project o r", b"0\t1\ta\ta\t5\n1\t3\n"),
    Makes("project --project_output o r", b"0\t1\t2\t2\t5\n1\t3\n"),
    // The fault of a table is one of the file.
    PutWith("bad", TABLED_FILE, 74, 0),
    Refuse("print bad p", 1, b"fst: bad: byte 74: bad symbols\n"),
    PutWith("bad", TABLED_FILE, 30, 0),
    Refuse("info bad p", 1, b"fst: bad: byte 30: bad flags\n"),
    // A table is kept where it is read, and shown or not.
    Refuse("compile --keep_isymbols t b", 1, b"fst: bad command line\n"),
    Refuse(
        "compile --isymbols=s --keep_osymbols t b",
        1,
        b"fst: bad command line\n",
    ),
    Refuse(
        "print --numeric --osymbols=s o p",
        1,
        b"fst: bad command line\n",
    ),
];

/// The machine has `a`, whose number is 1, on its input side and `B`, whose number is 2, on the other.
static PASSED_ON: [Row; 46] = [
    Put("i", b"<eps> 0\na 1\n"),
    Put("o", b"<eps> 0\nB 2\n"),
    Put("t", b"0 1 a B 5\n1 3\n"),
    Run("compile --isymbols=i --osymbols=o --keep_isymbols --keep_osymbols t m"),
    Makes("arcsort m r", b"0\t1\ta\tB\t5\n1\t3\n"),
    Makes("connect m r", b"0\t1\ta\tB\t5\n1\t3\n"),
    Makes("rmepsilon m r", b"0\t1\ta\tB\t5\n1\t3\n"),
    Makes("prune m r", b"0\t1\ta\tB\t5\n1\t3\n"),
    Makes("shortestpath m r", b"0\t1\ta\tB\t5\n1\t3\n"),
    Makes("push --push_weights m r", b"0\t1\ta\tB\t8\n1\n"),
    Makes("invert m r", b"0\t1\tB\ta\t5\n1\t3\n"),
    Makes("project m r", b"0\t1\ta\ta\t5\n1\t3\n"),
    Makes("project --project_output m r", b"0\t1\tB\tB\t5\n1\t3\n"),
    // A table of the words goes before that of the file, on its side.
    Put("z", b"z 1\n"),
    Run("print --isymbols=z m p"),
    Holds("p", b"0\t1\tz\tB\t5\n1\t3\n"),
    // Of two machines the tables of the first are passed on, and of a composition the outer ones.
    Put("b", b"b 2\n"),
    Put("c", b"C 3\n"),
    Put("t", b"0 1 b C 1\n1\n"),
    Run("compile --isymbols=b --osymbols=c --keep_isymbols --keep_osymbols t n"),
    Makes("compose m n r", b"0\t1\ta\tC\t6\n1\t3\n"),
    Makes(
        "concat m m r",
        b"0\t1\ta\tB\t5\n1\t2\t<eps>\t<eps>\t3\n2\t3\ta\tB\t5\n3\t3\n",
    ),
    Run("concat m n r"),
    Refuse("print r p", 1, b"fst: no symbol for label 2\n"),
    // New labels have no names, and what is no machine is the same with tables and without.
    Makes("relabel m r", b"0\t1\t1\t2\t5\n1\t3\n"),
    Makes("replace m 7 n 8 r", b"0\t1\t1\t2\t5\n1\t3\n"),
    Run("encode --encode_labels m codex r"),
    Run("print r p"),
    Holds("p", b"0\t1\t1\t1\t5\n1\t3\n"),
    Run("shortestdistance m p"),
    Holds("p", b"0\t0\n1\t5\n"),
    // An acceptor is shown by the names of its input side.
    Put("t", b"0 1 a 5\n1 3\n"),
    Run("compile --acceptor --isymbols=i --keep_isymbols t acceptor"),
    Run("print --acceptor acceptor p"),
    Holds("p", b"0\t1\ta\t5\n1\t3\n"),
    Makes("determinize acceptor r", b"0\t1\ta\t1\t5\n1\t3\n"),
    Machine("empty", "tropical", b""),
    // Of two acceptors: the outer tables, those of the first, and none.
    Makes("intersect acceptor acceptor r", b"0\t1\ta\t1\t10\n1\t6\n"),
    Makes("difference acceptor empty r", b"0\t1\ta\t1\t5\n1\t3\n"),
    Tells(
        "equivalent acceptor empty r",
        2,
        b"separated\t8\tInfinity\t1\n",
    ),
    // A chain of commands, the last of which names no table.
    Run("invert m v"),
    Run("arcsort v v"),
    Run("compose v m w"),
    Run("shortestpath w x"),
    Run("print x p"),
    Holds("p", b"0\t1\tB\tB\t10\n1\t6\n"),
];

/// One file for both sides is carried twice.
static BOTH_SIDES: [Row; 5] = [
    Put("l", b"<eps> 0\na 1\nb 2\n"),
    Put("t", b"0 1 a b 5\n1 3\n"),
    Run("compile --isymbols=l --osymbols=l --keep_isymbols --keep_osymbols t m"),
    Makes("connect m r", b"0\t1\ta\tb\t5\n1\t3\n"),
    Makes("invert m r", b"0\t1\tb\ta\t5\n1\t3\n"),
];

#[test]
fn carries_the_tables_that_are_kept(rt: HostRuntime) -> Result<(), Fail> {
    let alloc = rt.alloc();
    play(&rt, alloc, KEPT.as_slice())?;
    play(&rt, alloc, PASSED_ON.as_slice())?;
    play(&rt, alloc, BOTH_SIDES.as_slice())
}
