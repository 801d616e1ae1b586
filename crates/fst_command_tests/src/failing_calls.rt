//! Each command once for each call of the desk that can fail.

use crate::codices::{CODEX, TWICE};
use crate::failing_calls::Call::{Read, Write};
use crate::forms::{TICKET, TICKET_FILE};
use crate::session::Row::{self, Holds, Lacks, Machine, New, Put, Refuse};
use crate::session::{is_held, play, play_row, queues, split};
use fst_command::run;
use fst_delayed::CountMeter;
use fst_desk::{Desk, MemoryDesk, SureDesk};
use std::alloc::{AllocError, Global};
use std::process::Abort;
use std::test::Fail;
use std::thread::Threads;

/// The files that the commands read.
static STOCK: [Row; 18] = [
    Put("s", b"<eps> 0\none 1\ntwo 2\n"),
    Put("o", b"two 2\none 1\n"),
    Put("t", b"0 1 one two 2\n1 3\n"),
    Put("p", b"1 7\n"),
    Put("q", b"2 8\n"),
    Put("l", b"a\n"),
    Put("c", CODEX),
    Machine("m", "tropical", TWICE),
    Machine("n", "tropical", b"0 1 1 1 5\n1 3\n"),
    Machine("d", "tropical", b"0 1 1 1\n0 1 2 2\n1\n"),
    Machine("f", "tropical", b"0 1 1 1\n0 2 2 2\n1\n2\n"),
    Machine("e", "tropical", b"0 1 0 0 2\n1 2 1 1\n2\n"),
    Machine("a", "tropical", b"0 1 1 2\n1\n"),
    Machine("b", "tropical", b"0 1 2 3\n1\n"),
    Machine("x", "tropical", b"0 1 5 101 2\n1\n"),
    Machine("y", "tropical", b"0 1 7 8\n1 4\n"),
    Machine("u", "tropical", b"0 0 97 120 1\n0\n"),
    Machine("v", "tropical", b"0 0 120 121 2\n0\n"),
];

/// What stands under the names of the outputs before a command.
const BEFORE: &[u8] = b"what stood before";

/// The front of a binary file.
const MACHINE: &[u8] = b"\xd6\xfd\xb2\x7e\x06";

/// A call that fails, after five bytes where it writes.
#[derive(Clone, Copy)]
enum Call {
    /// The file of this name is fetched: status 4, `fst: cannot read NAME`, and no output is changed.
    Read(&'static str),
    /// The file of this name is stored: status 5, `fst: cannot write NAME`, and these bytes then stand under `r` and `k`.
    Write(&'static str, &'static [u8], &'static [u8]),
}

/// The words of each command, and its calls of the desk, each of which fails once.
///
/// All files are fetched before one is stored: those of the options first, a file of both sides once, then the command's
/// own. A codex is stored before the machine.
static CALLS: [(&str, &[Call]); 31] = [
    (
        "compile --isymbols=s --osymbols=s t r",
        &[Read("s"), Read("t"), Write("r", MACHINE, BEFORE)],
    ),
    (
        "compile --isymbols=s --osymbols=o t r",
        &[Read("s"), Read("o"), Read("t"), Write("r", MACHINE, BEFORE)],
    ),
    (
        "print --isymbols=s --osymbols=s m r",
        &[Read("s"), Read("m"), Write("r", b"0\t1\to", BEFORE)],
    ),
    (
        "print --isymbols=s --osymbols=o m r",
        &[
            Read("s"),
            Read("o"),
            Read("m"),
            Write("r", b"0\t1\to", BEFORE),
        ],
    ),
    ("info m r", &[Read("m"), Write("r", b"arc t", BEFORE)]),
    ("invert m r", &[Read("m"), Write("r", MACHINE, BEFORE)]),
    ("reverse m r", &[Read("m"), Write("r", MACHINE, BEFORE)]),
    ("connect m r", &[Read("m"), Write("r", MACHINE, BEFORE)]),
    (
        "union m d r",
        &[Read("m"), Read("d"), Write("r", MACHINE, BEFORE)],
    ),
    (
        "concat m d r",
        &[Read("m"), Read("d"), Write("r", MACHINE, BEFORE)],
    ),
    ("closure m r", &[Read("m"), Write("r", MACHINE, BEFORE)]),
    (
        "project --project_output m r",
        &[Read("m"), Write("r", MACHINE, BEFORE)],
    ),
    (
        "replace x 100 y 101 r",
        &[Read("x"), Read("y"), Write("r", MACHINE, BEFORE)],
    ),
    (
        "relabel --relabel_ipairs=p --relabel_opairs=q m r",
        &[Read("p"), Read("q"), Read("m"), Write("r", MACHINE, BEFORE)],
    ),
    (
        "arcsort --sort_type=olabel m r",
        &[Read("m"), Write("r", MACHINE, BEFORE)],
    ),
    (
        "compose a b r",
        &[Read("a"), Read("b"), Write("r", MACHINE, BEFORE)],
    ),
    ("rmepsilon e r", &[Read("e"), Write("r", MACHINE, BEFORE)]),
    (
        "shortestdistance m r",
        &[Read("m"), Write("r", b"0\t0\n1", BEFORE)],
    ),
    (
        "shortestpath --nshortest=2 m r",
        &[Read("m"), Write("r", MACHINE, BEFORE)],
    ),
    (
        "shortestpath --nshortest=2 --unique d r",
        &[Read("d"), Write("r", MACHINE, BEFORE)],
    ),
    (
        "push --push_weights m r",
        &[Read("m"), Write("r", MACHINE, BEFORE)],
    ),
    (
        "encode --encode_labels m k r",
        &[
            Read("m"),
            Write("k", BEFORE, b"FSTCO"),
            Write("r", MACHINE, CODEX),
        ],
    ),
    (
        "encode --decode n c r",
        &[Read("n"), Read("c"), Write("r", MACHINE, BEFORE)],
    ),
    ("determinize d r", &[Read("d"), Write("r", MACHINE, BEFORE)]),
    ("minimize d r", &[Read("d"), Write("r", MACHINE, BEFORE)]),
    (
        "prune --weight=3 m r",
        &[Read("m"), Write("r", MACHINE, BEFORE)],
    ),
    (
        "intersect d f r",
        &[Read("d"), Read("f"), Write("r", MACHINE, BEFORE)],
    ),
    (
        "difference d f r",
        &[Read("d"), Read("f"), Write("r", MACHINE, BEFORE)],
    ),
    (
        "equivalent d f r",
        &[Read("d"), Read("f"), Write("r", b"equiv", BEFORE)],
    ),
    (
        "batch u v l r",
        &[
            Read("u"),
            Read("v"),
            Read("l"),
            Write("r", b"1\t3\ty", BEFORE),
        ],
    ),
    ("make --lines=1 r", &[Write("r", b"first", BEFORE)]),
];

/// A desk with the files.
fn stocked<R: Threads + Sync + Abort>(rt: &R, alloc: Global) -> Result<MemoryDesk, AllocError> {
    let mut desk = MemoryDesk::new(alloc);
    for row in &STOCK {
        play_row(rt, alloc, &mut desk, *row)?;
    }
    Ok(desk)
}

/// How many calls of the desk there were.
fn calls_of(desk: &MemoryDesk) -> u64 {
    desk.fetches()
        .saturating_add(desk.stores())
        .saturating_add(desk.shows())
}

/// Runs the words. The status.
fn status_of<R: Threads + Sync, D: Desk>(
    rt: &R,
    alloc: Global,
    desk: &mut D,
    line: &str,
) -> Result<u8, AllocError> {
    let words = split(alloc, line)?;
    let queues = queues(alloc)?;
    let mut meter = CountMeter::new();
    Ok(run(rt, alloc, words.as_slice(), desk, queues, &mut meter))
}

/// Runs the words over what stood before, where the call of that number fails. The status, what is shown, and how many
/// calls there were.
fn ended<R: Threads + Sync>(
    rt: &R,
    alloc: Global,
    desk: &mut MemoryDesk,
    line: &str,
    call: u64,
) -> Result<(u8, Vec<u8>, u64), AllocError> {
    desk.put("r", BEFORE)?;
    desk.put("k", BEFORE)?;
    let before = calls_of(desk);
    let shown = desk.shown_bytes().len();
    desk.fail(before.saturating_add(call), 5)?;
    let status = status_of(rt, alloc, desk, line)?;
    let line = desk.shown_bytes().get(shown..).unwrap_or(&[]);
    let line = Vec::from_slice(alloc, line)?;
    Ok((status, line, calls_of(desk).saturating_sub(before)))
}

/// Whether the words end as they have to where the call of that number fails. Behind it there is no call but the show.
fn stops_so<R: Threads + Sync>(
    rt: &R,
    alloc: Global,
    desk: &mut MemoryDesk,
    words: &str,
    number: u64,
    call: Call,
) -> Result<bool, AllocError> {
    let (wanted, verb, name, r, k) = match call {
        Read(name) => (4u8, "read", name, BEFORE, BEFORE),
        Write(name, r, k) => (5, "write", name, r, k),
    };
    let line = format!(in alloc; "fst: cannot {verb} {name}\n")?;
    let (status, shown, calls) = ended(rt, alloc, desk, words, number)?;
    let stands = is_held(desk, "r", r) && is_held(desk, "k", k);
    let told = status == wanted && shown.as_slice() == line.as_bytes();
    Ok(stands && told && calls == number.saturating_add(1))
}

/// The number of the first of the calls that does not end the words so, 0 where each does.
fn first_other<R: Threads + Sync>(
    rt: &R,
    alloc: Global,
    desk: &mut MemoryDesk,
    words: &str,
    calls: &[Call],
) -> Result<u64, AllocError> {
    let mut number = 0u64;
    for call in calls {
        number = number.saturating_add(1);
        if !stops_so(rt, alloc, desk, words, number, *call)? {
            return Ok(number);
        }
    }
    Ok(0)
}

#[test]
fn tells_each_call_that_fails(rt: HostRuntime) -> Result<(), Fail> {
    let alloc = rt.alloc();
    let mut desk = stocked(&rt, alloc)?;
    for (words, calls) in &CALLS {
        let other = first_other(&rt, alloc, &mut desk, words, calls)?;
        assert_eq!(rt; other, 0, "{words}");
    }
    Ok(())
}

/// A desk of which no call fails, with the same files.
fn sure(alloc: Global, stocked: &MemoryDesk) -> Result<SureDesk, AllocError> {
    let mut desk = SureDesk::new(alloc);
    for row in &STOCK {
        if let Put(name, _) | Machine(name, _, _) = *row {
            desk.put(name, stocked.held(name).unwrap_or(&[]))?;
        }
    }
    Ok(desk)
}

/// Whether the words end well over both desks, and leave the same.
fn ends_alike<R: Threads + Sync>(
    rt: &R,
    alloc: Global,
    kept: &mut MemoryDesk,
    sure: &mut SureDesk,
    words: &str,
) -> Result<bool, AllocError> {
    let well = status_of(rt, alloc, kept, words)? == 0 && status_of(rt, alloc, sure, words)? == 0;
    let alike = kept.held("r") == sure.held("r") && kept.held("k") == sure.held("k");
    Ok(well && alike && sure.held("r").is_some() && sure.shown_bytes().is_empty())
}

#[test]
fn ends_alike_where_no_call_can_fail(rt: HostRuntime) -> Result<(), Fail> {
    let alloc = rt.alloc();
    let mut kept = stocked(&rt, alloc)?;
    let mut sure = sure(alloc, &kept)?;
    for (words, _) in &CALLS {
        let alike = ends_alike(&rt, alloc, &mut kept, &mut sure, words)?;
        assert!(rt; alike, "{words}");
    }
    Ok(())
}

/// What no number of one call that fails reaches.
static BESIDES: [Row; 36] = [
    // The show fails too: the status is that of the call before it.
    Put("t", TICKET),
    Row::Fail(1, 0),
    Row::Fail(2, 4),
    Refuse("compile t b", 4, b"fst:"),
    Lacks("b"),
    New,
    Put("t", TICKET),
    Row::Fail(2, 5),
    Row::Fail(3, 4),
    Refuse("compile t b", 5, b"fst:"),
    Holds("b", MACHINE),
    // The show is the first call where the words are none of a command, and the second where a file has a fault.
    New,
    Row::Fail(1, 4),
    Refuse("frobnicate t b", 1, b"fst:"),
    New,
    Put("m", b"FST"),
    Row::Fail(2, 0),
    Refuse("info m b", 1, b""),
    Lacks("b"),
    // A store that takes nothing, and one that takes all and then fails.
    New,
    Put("t", TICKET),
    Row::Fail(2, 0),
    Refuse("compile t b", 5, b"fst: cannot write b\n"),
    Holds("b", b""),
    Row::Fail(5, 113),
    Refuse("compile t b", 5, b"fst: cannot write b\n"),
    Holds("b", TICKET_FILE),
    New,
    Machine("m", "tropical", TWICE),
    Row::Fail(4, 1000),
    Refuse("encode --encode_labels m k r", 5, b"fst: cannot write k\n"),
    Holds("k", CODEX),
    Lacks("r"),
    // The standard streams.
    New,
    Refuse("info", 4, b"fst: cannot read -\n"),
    Lacks("-"),
];

#[test]
fn tells_calls_that_fail_otherwise(rt: HostRuntime) -> Result<(), Fail> {
    play(&rt, rt.alloc(), BESIDES.as_slice())
}
