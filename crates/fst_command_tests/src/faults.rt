//! What a command does where a call of the desk fails, and the words that no command takes.

use crate::codices::{CODEX, TWICE};
use crate::forms::{TICKET, TICKET_FILE};
use crate::session::Row::{self, Holds, Lacks, Machine, New, Put, Refuse, Run};
use crate::session::play;
use std::test::Fail;

/// A line that cannot be shown leaves the status as it was. The second file is read after the first, and the codex is
/// written before the machine.
static DESK: [Row; 28] = [
    Put("t", TICKET),
    Row::Fail(2, 10),
    Refuse("compile t b", 5, b"fst: cannot write b\n"),
    Holds("b", b"\xd6\xfd\xb2\x7e\x06\0\0\0ve"),
    New,
    Put("t", TICKET),
    Row::Fail(1, 0),
    Refuse("compile t b", 4, b"fst: cannot read t\n"),
    Lacks("b"),
    New,
    Row::Fail(2, 4),
    Refuse("print b p", 4, b"fst:"),
    New,
    Put("a", TICKET_FILE),
    Put("b", TICKET_FILE),
    Row::Fail(2, 0),
    Refuse("union a b o", 4, b"fst: cannot read b\n"),
    Lacks("o"),
    // The machine of each of these takes two calls.
    New,
    Machine("m", "tropical", TWICE),
    Row::Fail(4, 3),
    Refuse("encode --encode_labels m c o", 5, b"fst: cannot write c\n"),
    Holds("c", b"FST"),
    Lacks("o"),
    Row::Fail(8, 5),
    Refuse("encode --encode_labels m c o", 5, b"fst: cannot write o\n"),
    Holds("c", CODEX),
    Holds("o", b"\xd6\xfd\xb2\x7e\x06"),
];

const USAGE: &[u8] = b"fst: bad command line\n";

/// A name that is missing is that of the standard streams; one name may stand in both places.
static WORDS: [Row; 31] = [
    Put("t", TICKET),
    Row::Fail(7, 0),
    Refuse("", 1, USAGE),
    Refuse("compile t b c", 1, USAGE),
    Refuse("frobnicate a b", 1, USAGE),
    Refuse("fstfstcompile t b", 1, USAGE),
    Refuse("compile --arc_type=standard t b", 1, USAGE),
    Refuse("union a", 1, USAGE),
    // The show of this refusal fails.
    Refuse("compile --x b", 1, b""),
    Refuse("compile t -b", 1, USAGE),
    Refuse("compile --acceptor=true t b", 1, USAGE),
    Refuse("compile --acceptor --acceptor t b", 1, USAGE),
    Refuse("compile --isymbols=- - b", 1, USAGE),
    Refuse("print --help", 1, USAGE),
    Refuse("union - - b", 1, USAGE),
    Refuse("relabel --relabel_ipairs=- - b", 1, USAGE),
    Refuse("arcsort --sort_type=weight t b", 1, USAGE),
    Refuse("replace t 100 t 100 b", 1, USAGE),
    Lacks("b"),
    Put("-", TICKET),
    Run("compile"),
    Holds("-", TICKET_FILE),
    Put("-", TICKET),
    Run("compile -"),
    Holds("-", TICKET_FILE),
    Put("-", TICKET),
    Run("compile - -"),
    Holds("-", TICKET_FILE),
    Put("-", TICKET),
    Run("compile -- - -"),
    Holds("-", TICKET_FILE),
];

/// Names that begin with a dash.
static DASHES: [Row; 3] = [
    Put("-b", TICKET),
    Run("compile -- -b -c"),
    Holds("-c", TICKET_FILE),
];

#[test]
fn tells_what_the_desk_refuses(rt: HostRuntime) -> Result<(), Fail> {
    play(&rt, rt.alloc(), DESK.as_slice())
}

#[test]
fn refuses_other_words(rt: HostRuntime) -> Result<(), Fail> {
    play(&rt, rt.alloc(), WORDS.as_slice())?;
    play(&rt, rt.alloc(), DASHES.as_slice())
}
