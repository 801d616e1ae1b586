//! The commands that make a machine of machines, and `info`.

use crate::forms::{TICKET, TICKET_FILE};
use crate::session::Row::{self, Holds, Lacks, Machine, Makes, Put, PutPart, Refuse, Run};
use crate::session::play;
use std::test::Fail;

static LABELS: [Row; 9] = [
    Machine("m", "tropical", TICKET),
    Machine("n", "tropical", b""),
    Put("q", b"2 7\n"),
    Makes("invert m r", b"0\t1\t2\t1\t5\n1\t3\n"),
    Makes("fstproject m r", b"0\t1\t1\t1\t5\n1\t3\n"),
    Makes("project m --project_output r", b"0\t1\t2\t2\t5\n1\t3\n"),
    Makes("relabel --relabel_opairs=q m r", b"0\t1\t1\t7\t5\n1\t3\n"),
    Makes("relabel --relabel_ipairs q m r", b"0\t1\t1\t2\t5\n1\t3\n"),
    Makes("invert n r", b""),
];

static JOINS: [Row; 9] = [
    Machine("m", "tropical", TICKET),
    Machine("n", "tropical", b""),
    Makes("union n m r", b"0\t1\t0\t0\n1\t2\t1\t2\t5\n2\t3\n"),
    Makes(
        "union m m r",
        b"0\t1\t0\t0\n0\t3\t0\t0\n1\t2\t1\t2\t5\n2\t3\n3\t4\t1\t2\t5\n4\t3\n",
    ),
    Makes(
        "concat m m r",
        b"0\t1\t1\t2\t5\n1\t2\t0\t0\t3\n2\t3\t1\t2\t5\n3\t3\n",
    ),
    Makes("closure n r", b"0\n"),
    Makes(
        "closure m r",
        b"0\t1\t0\t0\n0\n1\t2\t1\t2\t5\n2\t0\t0\t0\t3\n",
    ),
    Makes(
        "closure --closure_plus m r",
        b"0\t1\t1\t2\t5\n1\t0\t0\t0\t3\n1\t3\n",
    ),
    Makes("reverse m r", b"0\t2\t0\t0\t3\n1\n2\t1\t1\t2\t5\n"),
];

static ORDERS: [Row; 6] = [
    Machine("m", "tropical", b"0 1 1 1\n0 2 2 2\n1 4\n"),
    Machine("n", "tropical", b"0 1 2 7 3\n0 1 1 7 4\n1\n"),
    Makes("connect m r", b"0\t1\t1\t1\n1\t4\n"),
    Makes(
        "arcsort --sort_type=olabel n r",
        b"0\t1\t2\t7\t3\n0\t1\t1\t7\t4\n1\n",
    ),
    Makes(
        "arcsort --sort_type=ilabel n r",
        b"0\t1\t1\t7\t4\n0\t1\t2\t7\t3\n1\n",
    ),
    Makes("arcsort n r", b"0\t1\t1\t7\t4\n0\t1\t2\t7\t3\n1\n"),
];

static DESCRIPTIONS: [Row; 6] = [
    Machine("m", "tropical", TICKET),
    Machine("n", "tropical", b""),
    Run("info m i"),
    Holds(
        "i",
        b"arc type\ttropical\nstates\t2\narcs\t1\nstart\t0\nfinal states\t1\ninput epsilons\t0\noutput epsilons\t0\ninput/output epsilons\t0\naccessible states\t2\ncoaccessible states\t2\nconnected states\t2\nacceptor\tno\ninput sorted\tyes\noutput sorted\tyes\ndeterministic\tyes\n",
    ),
    Run("info n"),
    Holds(
        "-",
        b"arc type\ttropical\nstates\t0\narcs\t0\nstart\tnone\nfinal states\t0\ninput epsilons\t0\noutput epsilons\t0\ninput/output epsilons\t0\naccessible states\t0\ncoaccessible states\t0\nconnected states\t0\nacceptor\tyes\ninput sorted\tyes\noutput sorted\tyes\ndeterministic\tyes\n",
    ),
];

/// The form of each file comes before the arc types, and that of the first before the second is read.
static FIRST_CAUSES: [Row; 13] = [
    Machine("b", "boolean", b"0 1 1 1\n1 1\n"),
    Put("t", b"0 1 1 1\n1 1\n"),
    Put("m", TICKET_FILE),
    PutPart("x", TICKET_FILE, 112),
    Put("q", b"2 7\n2 8\n"),
    Refuse(
        "union m b r",
        1,
        b"fst: arc types differ: tropical and boolean\n",
    ),
    Refuse(
        "concat b m r",
        1,
        b"fst: arc types differ: boolean and tropical\n",
    ),
    Refuse("union b x r", 1, b"fst: x: byte 112: too short\n"),
    Refuse("union t none r", 1, b"fst: t: byte 0: bad magic number\n"),
    Refuse(
        "relabel --relabel_opairs=q x r",
        1,
        b"fst: q: line 2: label given twice\n",
    ),
    Refuse("reverse t r", 1, b"fst: t: byte 0: bad magic number\n"),
    Refuse("info x r", 1, b"fst: x: byte 112: too short\n"),
    Lacks("r"),
];

#[test]
fn makes_machines(rt: HostRuntime) -> Result<(), Fail> {
    let alloc = rt.alloc();
    play(&rt, alloc, LABELS.as_slice())?;
    play(&rt, alloc, JOINS.as_slice())?;
    play(&rt, alloc, ORDERS.as_slice())
}

#[test]
fn describes_a_machine(rt: HostRuntime) -> Result<(), Fail> {
    play(&rt, rt.alloc(), DESCRIPTIONS.as_slice())
}

#[test]
fn refuses_machines_by_the_first_cause(rt: HostRuntime) -> Result<(), Fail> {
    play(&rt, rt.alloc(), FIRST_CAUSES.as_slice())
}
