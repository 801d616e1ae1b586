//! `compile` and `print`: both forms, the options, the tags of weights, and the first cause of a refusal.

use crate::session::Row::{self, Fetched, Holds, Lacks, Put, PutWith, Refuse, Run};
use crate::session::{ends, play};
use fst_desk::MemoryDesk;
use std::test::Fail;

/// A text of two states and one arc, and its binary form.
pub(crate) const TICKET: &[u8] = b"0 1 1 2 5\n1 3\n";

pub(crate) const TICKET_FILE: &[u8] =
    b"\xd6\xfd\xb2\x7e\x06\0\0\0vector\x08\0\0\0tropical\x02\0\0\0\0\0\0\0\x03\0\0\0\0\0\0\0\0\0\0\0\0\0\0\0\x02\0\0\0\0\0\0\0\x01\0\0\0\0\0\0\0\0\x01\0\0\0\0\0\0\0\x01\0\0\0\x02\0\0\0\x01\x05\0\0\0\0\0\0\0\x01\0\0\0\x01\x03\0\0\0\0\0\0\0\0\0\0\0\0\0\0\0";

/// No states and no start.
const EMPTY_FILE: &[u8] =
    b"\xd6\xfd\xb2\x7e\x06\0\0\0vector\x08\0\0\0tropical\x02\0\0\0\0\0\0\0\x03\0\0\0\0\0\0\0\xff\xff\xff\xff\xff\xff\xff\xff\0\0\0\0\0\0\0\0\0\0\0\0\0\0\0\0";

static BOTH_WAYS: [Row; 12] = [
    Put("t", TICKET),
    Run("compile t b"),
    Holds("b", TICKET_FILE),
    Run("fstprint b p"),
    Holds("p", b"0\t1\t1\t2\t5\n1\t3\n"),
    Run("fstcompile p b2"),
    Holds("b2", TICKET_FILE),
    Put("t", b""),
    Run("compile t b"),
    Holds("b", EMPTY_FILE),
    Run("print b p"),
    Holds("p", b""),
];

static REFUSED_TEXTS: [Row; 15] = [
    Put("t", b"0 1 1 1 1000000000000000000\n1\n"),
    Run("compile t most"),
    Put("t", b"0 1 1 1 1000000000000000001\n1\n"),
    Refuse("compile t b", 1, b"fst: t: line 1: bad weight\n"),
    Put("t", b"0 1 1 1 Infinity\n1\n"),
    Refuse("compile t b", 1, b"fst: t: line 1: bad weight\n"),
    Put("t", b"0 1 1 1 0.5\n1\n"),
    Refuse("compile t b", 1, b"fst: t: line 1: bad weight\n"),
    Put("t", b"0 1 1 2\n0 1 5\n"),
    Refuse(
        "compile t b",
        1,
        b"fst: t: line 2: wrong number of columns\n",
    ),
    Put("t", b"\n\n0 x 1 2\n"),
    Refuse("compile t b", 1, b"fst: t: line 3: bad state\n"),
    Put("t", b"0 1 a 2\n"),
    Refuse("compile t b", 1, b"fst: t: line 1: bad label\n"),
    Lacks("b"),
];

/// The letters are a table for both sides. An acceptor has its labels from the table of the input side.
static OPTIONS: [Row; 39] = [
    Put("i", b"<eps> 0\na 1\nb 2\n"),
    Put("o", b"<eps> 0\na 1\nb 2\n"),
    Put("a", b"a 1\n"),
    Put("t", b"7 3 1 1\n3 7 2 2\n7\n"),
    Run("compile --keep_state_numbering t b"),
    Run("print b p"),
    Holds(
        "p",
        b"7\t3\t1\t1\n7\n0\tInfinity\n1\tInfinity\n2\tInfinity\n3\t7\t2\t2\n4\tInfinity\n5\tInfinity\n6\tInfinity\n",
    ),
    Put("t", b"0 1 1 2\n0 1 5\n"),
    Run("compile t b --acceptor"),
    Run("print --acceptor b p"),
    Holds("p", b"0\t1\t1\t2\n0\t1\t5\n1\tInfinity\n"),
    Put("t", b"0 1 1 2\n1\n"),
    Run("compile t b"),
    Run("print b --show_weight_one p"),
    Holds("p", b"0\t1\t1\t2\t0\n1\t0\n"),
    Put("t", b"0 1 a b 5\n1\n"),
    Run("compile --isymbols=i --osymbols o t b"),
    Run("print --osymbols=o b --isymbols i p"),
    Holds("p", b"0\t1\ta\tb\t5\n1\n"),
    Put("t", b"0 1 a 5\n1\n"),
    Run("compile --acceptor --isymbols=a --osymbols=o t b"),
    Run("print --isymbols=i --osymbols=i b p"),
    Holds("p", b"0\t1\ta\ta\t5\n1\n"),
    Put("t", b"0 1 1 1 1\n0 2 2 2\n1 1\n"),
    Run("compile --arc_type=boolean t b"),
    Run("print b p"),
    Holds("p", b"0\t1\t1\t1\n0\t2\t2\t2\n1\n2\t0\n"),
    Put(
        "t",
        b"0 1 1 1 -1000000000000000000\n1 1000000000000000000\n",
    ),
    Run("compile --arc_type tropical t b"),
    Run("print b p"),
    Holds(
        "p",
        b"0\t1\t1\t1\t-1000000000000000000\n1\t1000000000000000000\n",
    ),
    Put(
        "t",
        b"0 1 1 1 -Infinity\n0 1 2 2 -1000000000000000000\n1 1000000000000000000\n2 Infinity\n",
    ),
    Run("compile --arc_type=minmax t b"),
    Run("print --show_weight_one b p"),
    Holds(
        "p",
        b"0\t1\t1\t1\t-Infinity\n0\t1\t2\t2\t-1000000000000000000\n1\t1000000000000000000\n2\tInfinity\n",
    ),
    Put(
        "t",
        b"0 1 1 1 2,-3\n0 1 2 2 0,0\n1 -1000000000000000000,1000000000000000000\n2 Infinity,Infinity\n",
    ),
    Run("compile --arc_type=lexicographic t b"),
    Run("print b p"),
    Holds(
        "p",
        b"0\t1\t1\t1\t2,-3\n0\t1\t2\t2\n1\t-1000000000000000000,1000000000000000000\n2\tInfinity,Infinity\n",
    ),
];

/// Two equal tables, and then one that is given for both sides: the same bytes, with one fetch less. Its fault is found
/// once, and `-` is no name of both.
static ONE_TABLE: [Row; 19] = [
    Put("i", b"<eps> 0\na 1\nb 2\n"),
    Put("o", b"<eps> 0\na 1\nb 2\n"),
    Put("t", b"0 1 a b 5\n1 3\n"),
    Run("compile --isymbols=i --osymbols=o t b"),
    Holds("b", TICKET_FILE),
    Run("print --isymbols=i --osymbols=o b p"),
    Holds("p", b"0\t1\ta\tb\t5\n1\t3\n"),
    Fetched(6),
    Run("compile --isymbols=i --osymbols=i t b2"),
    Holds("b2", TICKET_FILE),
    Run("print --isymbols=i --osymbols=i b2 p2"),
    Holds("p2", b"0\t1\ta\tb\t5\n1\t3\n"),
    Fetched(10),
    Put("i", b"a x\n"),
    Refuse(
        "compile --isymbols=i --osymbols=i t b3",
        1,
        b"fst: i: line 1: bad number\n",
    ),
    Fetched(11),
    Refuse(
        "compile --isymbols=- --osymbols=- t b3",
        1,
        b"fst: bad command line\n",
    ),
    Fetched(11),
    Lacks("b3"),
];

/// The tables come first, that of the input side in front, each whole before the next is read, and each also where
/// it is not used.
static FIRST_CAUSES: [Row; 28] = [
    Put("i", b"<eps> 0\na 1\nb 2\n"),
    Put("o", b"<eps> 0\na 1\nb 2\n"),
    Put("a", b"a 1\n"),
    Put("columns", b"a\n"),
    Put("number", b"a x\n"),
    Put("name_twice", b"a 1\na 2\n"),
    Put("number_twice", b"a 1\nb 1\n"),
    Put("t", b"0 1 c b\n"),
    Refuse(
        "compile --isymbols=i --osymbols=o t b",
        1,
        b"fst: t: line 1: unknown symbol\n",
    ),
    Put("t", b"0 1 a b\n"),
    Refuse(
        "compile --acceptor --osymbols=o t b",
        1,
        b"fst: t: line 1: bad label\n",
    ),
    Put("t", b"0 1 1 1 2\n"),
    Refuse(
        "compile --arc_type=boolean t b",
        1,
        b"fst: t: line 1: bad weight\n",
    ),
    Put("t", b"x\n"),
    Refuse(
        "compile --isymbols=name_twice --osymbols=none t b",
        1,
        b"fst: name_twice: line 2: symbol given twice\n",
    ),
    Refuse(
        "compile --osymbols=number_twice --isymbols=i t b",
        1,
        b"fst: number_twice: line 2: number given twice\n",
    ),
    Refuse(
        "compile --isymbols=columns none b",
        1,
        b"fst: columns: line 1: wrong number of columns\n",
    ),
    Refuse(
        "compile --isymbols=number t b",
        1,
        b"fst: number: line 1: bad number\n",
    ),
    Refuse(
        "compile --isymbols=none --osymbols=number t b",
        4,
        b"fst: cannot read none\n",
    ),
    Refuse("compile --isymbols=i none b", 4, b"fst: cannot read none\n"),
    Put("t", b"0 1 a\n"),
    Refuse(
        "compile --acceptor --isymbols=i --osymbols=number t b",
        1,
        b"fst: number: line 1: bad number\n",
    ),
    Put("m", TICKET_FILE),
    Refuse("print --osymbols=a m b", 1, b"fst: no symbol for label 2\n"),
    Refuse(
        "print --acceptor --isymbols=a m b",
        1,
        b"fst: not an acceptor at state 0 arc 0\n",
    ),
    Refuse(
        "print --isymbols=number none b",
        1,
        b"fst: number: line 1: bad number\n",
    ),
    Refuse("print t b", 1, b"fst: t: byte 0: bad magic number\n"),
    Lacks("b"),
];

/// A min-max machine: an arc of weight One, whose tag is byte 81, and a final weight 7.
const GATE_FILE: &[u8] =
    b"\xd6\xfd\xb2\x7e\x06\0\0\0vector\x06\0\0\0minmax\x02\0\0\0\0\0\0\0\x03\0\0\0\0\0\0\0\0\0\0\0\0\0\0\0\x02\0\0\0\0\0\0\0\x01\0\0\0\0\0\0\0\0\x01\0\0\0\0\0\0\0\x01\0\0\0\x01\0\0\0\x02\x01\0\0\0\x01\x07\0\0\0\0\0\0\0\0\0\0\0\0\0\0\0";

/// Only min-max has the tag 2: in a tropical file it is none of the arc type's.
static TAGS: [Row; 13] = [
    Put("t", b"0 1 1 1 -Infinity\n1 7\n"),
    Run("compile --arc_type=minmax t b"),
    Holds("b", GATE_FILE),
    PutWith("b", GATE_FILE, 81, 2),
    Run("print b q"),
    PutWith("b", GATE_FILE, 81, 0),
    Refuse("print b p", 1, b"fst: b: byte 81: bad weight\n"),
    PutWith("b", GATE_FILE, 81, 3),
    Refuse("print b p", 1, b"fst: b: byte 81: bad weight\n"),
    PutWith("b", GATE_FILE, 81, 255),
    Refuse("print b p", 1, b"fst: b: byte 81: bad weight\n"),
    PutWith("b", TICKET_FILE, 83, 2),
    Refuse("print b p", 1, b"fst: b: byte 83: bad weight\n"),
];

#[test]
fn compiles_and_prints(rt: HostRuntime) -> Result<(), Fail> {
    let alloc = rt.alloc();
    play(&rt, alloc, BOTH_WAYS.as_slice())?;
    play(&rt, alloc, OPTIONS.as_slice())?;
    play(&rt, alloc, TAGS.as_slice())
}

#[test]
fn reads_one_table_for_both_sides_once(rt: HostRuntime) -> Result<(), Fail> {
    play(&rt, rt.alloc(), ONE_TABLE.as_slice())
}

#[test]
fn refuses_by_the_first_cause(rt: HostRuntime) -> Result<(), Fail> {
    let alloc = rt.alloc();
    play(&rt, alloc, REFUSED_TEXTS.as_slice())?;
    play(&rt, alloc, FIRST_CAUSES.as_slice())
}

#[test]
fn refuses_each_cut_of_a_file(rt: HostRuntime) -> Result<(), Fail> {
    let alloc = rt.alloc();
    let mut desk = MemoryDesk::new(alloc);
    for count in 0..113 {
        desk.put("b", TICKET_FILE.get(..count).unwrap_or(TICKET_FILE))?;
        let line = format!(in alloc; "fst: b: byte {count}: too short\n")?;
        ends(&rt, alloc, &mut desk, "print b p", 1, line.as_bytes())?;
    }
    assert!(rt; desk.held("p").is_none());
    Ok(())
}
