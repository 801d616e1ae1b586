//! Rows of tests, played one after the other over a desk in memory.

use fst_command::{Queues, run};
use fst_delayed::CountMeter;
use fst_desk::MemoryDesk;
use fst_queue::{BestFirst, Fifo, Lifo};
use std::alloc::{AllocError, Global};
use std::process::Abort;
use std::test::Fail;
use std::thread::Threads;

/// A row: what is done at the desk, or what is asked of it. Words are written with spaces between them.
#[derive(Clone, Copy)]
pub(crate) enum Row {
    /// A new desk takes the place of the one before.
    New,
    /// The call of that number fails, counted from 1 since the desk is new, after so many bytes.
    Fail(u64, u64),
    /// The file holds these bytes from now on.
    Put(&'static str, &'static [u8]),
    /// The same with so many bytes from the front alone.
    PutPart(&'static str, &'static [u8], usize),
    /// The same with another byte at an offset.
    PutWith(&'static str, &'static [u8], usize, u8),
    /// The file is the machine of an arc type that `compile` makes of a text.
    Machine(&'static str, &'static str, &'static [u8]),
    /// The words end with status 0, and nothing is shown.
    Run(&'static str),
    /// The same, and the file `r` is then a machine that is printed as this text.
    Makes(&'static str, &'static [u8]),
    /// The words end with this status, nothing is shown, and the file `r` then holds these bytes.
    Tells(&'static str, u8, &'static [u8]),
    /// The words end with this status, and these bytes are shown.
    Refuse(&'static str, u8, &'static [u8]),
    /// The file holds these bytes.
    Holds(&'static str, &'static [u8]),
    /// There is no such file.
    Lacks(&'static str),
    /// There were so many fetches since the desk is new.
    Fetched(u64),
}

/// The words of a line, one by one.
pub(crate) fn split(alloc: Global, line: &str) -> Result<Vec<String>, AllocError> {
    let mut words = Vec::new(alloc);
    for word in line.split_whitespace() {
        words.push(String::from_str(alloc, word)?)?;
    }
    Ok(words)
}

/// The queues of the program.
pub(crate) fn queues(alloc: Global) -> Result<Queues, AllocError> {
    Ok(Queues {
        fifo: Box::new(alloc, Fifo::new(alloc))?,
        lifo: Box::new(alloc, Lifo::new(alloc))?,
        best: Box::new(alloc, BestFirst::new(alloc))?,
    })
}

/// Asks that the words end with a status, and that these bytes are then shown after those that were.
pub(crate) fn ends<R: Threads + Sync + Abort>(
    rt: &R,
    alloc: Global,
    desk: &mut MemoryDesk,
    line: &str,
    status: u8,
    shown: &[u8],
) -> Result<(), AllocError> {
    let before = desk.shown_bytes().len();
    let words = split(alloc, line)?;
    let queues = queues(alloc)?;
    let mut meter = CountMeter::new();
    let ended = run(rt, alloc, words.as_slice(), desk, queues, &mut meter);
    assert_eq!(rt; ended, status, "{line}");
    let found = desk.shown_bytes().get(before..).unwrap_or(&[]);
    assert_eq!(rt; found, shown, "{line}");
    Ok(())
}

/// Whether the file holds these bytes.
pub(crate) fn is_held(desk: &MemoryDesk, name: &str, bytes: &[u8]) -> bool {
    match desk.held(name) {
        Some(content) => content == bytes,
        None => false,
    }
}

/// Asks that the file holds these bytes.
fn holds(rt: &impl Abort, desk: &MemoryDesk, name: &str, bytes: &[u8]) {
    let held = desk.held(name);
    assert!(rt; held.is_some(), "{name} is not there");
    assert_eq!(rt; held.unwrap_or(&[]), bytes, "{name}");
}

/// Compiles a text.
fn compile<R: Threads + Sync + Abort>(
    rt: &R,
    alloc: Global,
    desk: &mut MemoryDesk,
    name: &str,
    kind: &str,
    text: &[u8],
) -> Result<(), AllocError> {
    desk.put("text", text)?;
    let line = format!(in alloc; "compile --arc_type={kind} text {name}")?;
    ends(rt, alloc, desk, line.as_str(), 0, b"")
}

/// Asks that the words make the machine of this text.
fn makes<R: Threads + Sync + Abort>(
    rt: &R,
    alloc: Global,
    desk: &mut MemoryDesk,
    line: &str,
    text: &[u8],
) -> Result<(), AllocError> {
    ends(rt, alloc, desk, line, 0, b"")?;
    ends(rt, alloc, desk, "print r printed", 0, b"")?;
    holds(rt, desk, "printed", text);
    Ok(())
}

/// Puts a file with one byte changed.
fn put_with(
    alloc: Global,
    desk: &mut MemoryDesk,
    name: &str,
    bytes: &[u8],
    at: usize,
    byte: u8,
) -> Result<(), AllocError> {
    let mut changed = Vec::from_slice(alloc, bytes)?;
    if let Some(place) = changed.get_mut(at) {
        *place = byte;
    }
    desk.put(name, changed.as_slice())
}

/// Does what a row says.
pub(crate) fn play_row<R: Threads + Sync + Abort>(
    rt: &R,
    alloc: Global,
    desk: &mut MemoryDesk,
    row: Row,
) -> Result<(), AllocError> {
    match row {
        Row::New => *desk = MemoryDesk::new(alloc),
        Row::Fail(call, after) => desk.fail(call, after)?,
        Row::Put(name, bytes) => desk.put(name, bytes)?,
        Row::PutPart(name, bytes, count) => desk.put(name, bytes.get(..count).unwrap_or(bytes))?,
        Row::PutWith(name, bytes, at, byte) => put_with(alloc, desk, name, bytes, at, byte)?,
        Row::Machine(name, kind, text) => compile(rt, alloc, desk, name, kind, text)?,
        Row::Run(line) => ends(rt, alloc, desk, line, 0, b"")?,
        Row::Makes(line, text) => makes(rt, alloc, desk, line, text)?,
        Row::Tells(line, status, bytes) => {
            ends(rt, alloc, desk, line, status, b"")?;
            holds(rt, desk, "r", bytes);
        }
        Row::Refuse(line, status, shown) => ends(rt, alloc, desk, line, status, shown)?,
        Row::Holds(name, bytes) => holds(rt, desk, name, bytes),
        Row::Lacks(name) => assert!(rt; desk.held(name).is_none(), "{name} is there"),
        Row::Fetched(count) => assert_eq!(rt; desk.fetches(), count),
    }
    Ok(())
}

/// Plays the rows, from a new desk on.
pub(crate) fn play<R: Threads + Sync + Abort>(
    rt: &R,
    alloc: Global,
    rows: &[Row],
) -> Result<(), Fail> {
    let mut desk = MemoryDesk::new(alloc);
    for row in rows {
        play_row(rt, alloc, &mut desk, *row)?;
    }
    Ok(())
}
