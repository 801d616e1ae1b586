//! Words and what they ask for. Each answer was written down from the rules, and not from the program.

use fst_semiring::ArcType;
use fst_words::{Name, Options, Plan, WordsFault, read_words};
use std::alloc::{AllocError, Global};
use std::process::Abort;
use std::test::Fail;

/// Adds a flag that stands.
fn put_flag(out: &mut String, name: &str, stands: bool) -> Result<(), AllocError> {
    if stands {
        out.push_str(" --")?;
        out.push_str(name)?;
    }
    Ok(())
}

/// Adds an option that stands.
fn put_text(out: &mut String, name: &str, text: &str) -> Result<(), AllocError> {
    out.push_str(" --")?;
    out.push_str(name)?;
    out.push_str("=")?;
    out.push_str(text)
}

fn put_name(out: &mut String, name: &str, value: &Option<Name>) -> Result<(), AllocError> {
    match value {
        Some(value) => put_text(out, name, value.text()),
        None => Ok(()),
    }
}

fn put_number(alloc: Global, out: &mut String, name: &str, value: Option<u64>) -> Result<(), Fail> {
    if let Some(n) = value {
        let digits = format!(in alloc; "{n}")?;
        put_text(out, name, digits.as_str())?;
    }
    Ok(())
}

fn put_arc_type(out: &mut String, value: Option<ArcType>) -> Result<(), AllocError> {
    match value {
        Some(kind) => put_text(out, "arc_type", kind.name()),
        None => Ok(()),
    }
}

fn put_options(alloc: Global, out: &mut String, o: &Options) -> Result<(), Fail> {
    put_arc_type(out, o.arc_type)?;
    put_flag(out, "acceptor", o.acceptor)?;
    put_flag(out, "keep_state_numbering", o.keep_state_numbering)?;
    put_flag(out, "show_weight_one", o.show_weight_one)?;
    put_name(out, "isymbols", &o.isymbols)?;
    put_name(out, "osymbols", &o.osymbols)?;
    put_flag(out, "keep_isymbols", o.keep_isymbols)?;
    put_flag(out, "keep_osymbols", o.keep_osymbols)?;
    put_flag(out, "numeric", o.numeric)?;
    put_flag(out, "closure_plus", o.closure_plus)?;
    put_flag(out, "project_output", o.project_output)?;
    put_name(out, "relabel_ipairs", &o.relabel_ipairs)?;
    put_name(out, "relabel_opairs", &o.relabel_opairs)?;
    put_name(out, "sort_type", &o.sort_type)?;
    put_name(out, "connect", &o.connect)?;
    put_number(alloc, out, "max_states", o.max_states)?;
    put_more_options(alloc, out, o)
}

fn put_more_options(alloc: Global, out: &mut String, o: &Options) -> Result<(), Fail> {
    put_name(out, "queue_type", &o.queue_type)?;
    put_name(out, "weight", &o.weight)?;
    put_flag(out, "reverse", o.reverse)?;
    put_number(alloc, out, "nshortest", o.nshortest)?;
    put_flag(out, "unique", o.unique)?;
    put_flag(out, "push_weights", o.push_weights)?;
    put_flag(out, "remove_total_weight", o.remove_total_weight)?;
    put_flag(out, "encode_labels", o.encode_labels)?;
    put_flag(out, "encode_weights", o.encode_weights)?;
    put_flag(out, "decode", o.decode)?;
    put_number(alloc, out, "workers", o.workers)?;
    put_flag(out, "summary", o.summary)?;
    put_number(alloc, out, "seed", o.seed)?;
    put_number(alloc, out, "lines", o.lines)
}

/// The command, the names and the options of a plan, in one text.
fn told(alloc: Global, plan: &Plan) -> Result<String, Fail> {
    let mut out = String::from_str(alloc, plan.command.name())?;
    for place in 0..plan.names.len() {
        out.push_str(" ")?;
        out.push_str(plan.names.item(place).text())?;
    }
    put_options(alloc, &mut out, &plan.options)?;
    Ok(out)
}

/// Words as they are read.
pub(crate) fn owned(alloc: Global, words: &[&str]) -> Result<Vec<String>, AllocError> {
    let mut list = Vec::new(alloc);
    for word in words {
        list.push(String::from_str(alloc, word)?)?;
    }
    Ok(list)
}

/// What the words come to, in one text.
fn answer(alloc: Global, words: &[&str]) -> Result<String, Fail> {
    let words = owned(alloc, words)?;
    match read_words(alloc, words.as_slice()) {
        Ok(plan) => told(alloc, &plan),
        Err(WordsFault::Usage) => Ok(String::from_str(alloc, "usage")?),
        Err(WordsFault::Memory) => Ok(String::from_str(alloc, "memory")?),
    }
}

/// Whether each word list has its answer. The first that has not is told.
fn check_rows(rt: &impl Abort, alloc: Global, rows: &[(&[&str], &str)]) -> Result<(), Fail> {
    for (words, want) in rows {
        let got = answer(alloc, words)?;
        assert_eq!(rt; got.as_str(), *want, "at {words:?}");
    }
    Ok(())
}

/// The rows of first words, and of each command by itself.
fn check_commands(rt: &impl Abort, alloc: Global) -> Result<(), Fail> {
    check_rows(rt, alloc, FIRST_WORDS.as_slice())?;
    check_rows(rt, alloc, COMMANDS_1.as_slice())?;
    check_rows(rt, alloc, COMMANDS_2.as_slice())?;
    check_rows(rt, alloc, COMMANDS_3.as_slice())
}

/// The rows of options, and of numbers in them.
fn check_options(rt: &impl Abort, alloc: Global) -> Result<(), Fail> {
    check_rows(rt, alloc, OPTIONS_1.as_slice())?;
    check_rows(rt, alloc, OPTIONS_2.as_slice())?;
    check_rows(rt, alloc, TABLES.as_slice())?;
    check_rows(rt, alloc, NUMBERS.as_slice())
}

/// The rows of names that may not be equal, or are labels.
fn check_names(rt: &impl Abort, alloc: Global) -> Result<(), Fail> {
    check_rows(rt, alloc, ENCODE.as_slice())?;
    check_rows(rt, alloc, REPLACE.as_slice())?;
    check_rows(rt, alloc, TWICE.as_slice())
}

#[test]
fn reads_the_words_of_every_command(rt: HostRuntime) -> Result<(), Fail> {
    let alloc = rt.alloc();
    check_commands(&rt, alloc)?;
    check_options(&rt, alloc)?;
    check_names(&rt, alloc)?;
    Ok(())
}

static FIRST_WORDS: [(&[&str], &str); 12] = [
    (&[], "usage"),
    (&["frobnicate", "a", "b"], "usage"),
    (&[""], "usage"),
    (&["fst"], "usage"),
    (&["fstfst"], "usage"),
    (&["compile"], "compile - -"),
    (&["fstcompile"], "compile - -"),
    (&["fstfstcompile"], "usage"),
    (&["Compile"], "usage"),
    (&["compile "], "usage"),
    (&["fst compile"], "usage"),
    (&["--acceptor", "compile"], "usage"),
];

static COMMANDS_1: [(&[&str], &str); 24] = [
    (&["compile", "t"], "compile t -"),
    (&["compile", "t", "b"], "compile t b"),
    (&["compile", "t", "b", "c"], "usage"),
    (&["print"], "print - -"),
    (&["print", "m", "t"], "print m t"),
    (&["info"], "info - -"),
    (&["fstinfo", "m", "o"], "info m o"),
    (&["invert", "m"], "invert m -"),
    (&["reverse", "m", "o"], "reverse m o"),
    (&["connect"], "connect - -"),
    (&["union", "a"], "usage"),
    (&["union"], "usage"),
    (&["union", "a", "b"], "union a b -"),
    (&["union", "a", "b", "c"], "union a b c"),
    (&["union", "a", "b", "c", "d"], "usage"),
    (&["concat", "a", "b", "o"], "concat a b o"),
    (
        &["closure", "m", "o", "--closure_plus"],
        "closure m o --closure_plus",
    ),
    (&["closure", "m"], "closure m -"),
    (
        &["project", "--project_output", "m"],
        "project m - --project_output",
    ),
    (&["project"], "project - -"),
    (&["relabel", "m", "o"], "relabel m o"),
    (
        &[
            "relabel",
            "--relabel_ipairs=i",
            "--relabel_opairs",
            "p",
            "m",
        ],
        "relabel m - --relabel_ipairs=i --relabel_opairs=p",
    ),
    (&["arcsort", "m"], "arcsort m -"),
    (
        &["arcsort", "--sort_type=olabel", "m"],
        "arcsort m - --sort_type=olabel",
    ),
];

static COMMANDS_2: [(&[&str], &str); 38] = [
    (
        &["arcsort", "--sort_type", "ilabel"],
        "arcsort - - --sort_type=ilabel",
    ),
    (&["arcsort", "--sort_type=label"], "usage"),
    (&["compose", "a", "b"], "compose a b -"),
    (
        &[
            "compose",
            "a",
            "b",
            "o",
            "--connect=false",
            "--max_states=5",
        ],
        "compose a b o --connect=false --max_states=5",
    ),
    (&["compose", "a", "b", "--connect=yes"], "usage"),
    (&["compose", "a", "b", "--connect"], "usage"),
    (&["rmepsilon", "m"], "rmepsilon m -"),
    (
        &["rmepsilon", "m", "--connect=true", "--queue_type=lifo"],
        "rmepsilon m - --connect=true --queue_type=lifo",
    ),
    (
        &["shortestdistance", "--reverse", "m"],
        "shortestdistance m - --reverse",
    ),
    (
        &["shortestdistance", "--queue_type=shortest"],
        "shortestdistance - - --queue_type=shortest",
    ),
    (&["shortestdistance", "--queue_type=best"], "usage"),
    (&["shortestpath"], "shortestpath - -"),
    (
        &["shortestpath", "--nshortest=4", "m", "o"],
        "shortestpath m o --nshortest=4",
    ),
    (&["shortestpath", "--unique"], "shortestpath - - --unique"),
    (
        &["fstshortestpath", "m", "--unique", "o", "--nshortest", "3"],
        "shortestpath m o --nshortest=3 --unique",
    ),
    (&["shortestpath", "--unique=true", "m"], "usage"),
    (&["shortestpath", "--unique", "--unique", "m"], "usage"),
    (&["batch", "a", "b", "--unique"], "usage"),
    (&["push", "--push_weights"], "push - - --push_weights"),
    (&["push", "m"], "usage"),
    (&["push", "--remove_total_weight"], "usage"),
    (
        &[
            "push",
            "--push_weights",
            "--remove_total_weight",
            "--queue_type",
            "auto",
            "m",
            "o",
        ],
        "push m o --queue_type=auto --push_weights --remove_total_weight",
    ),
    (
        &["determinize", "m", "--max_states=4194304"],
        "determinize m - --max_states=4194304",
    ),
    (
        &["minimize", "--queue_type=fifo", "m"],
        "minimize m - --queue_type=fifo",
    ),
    (
        &["prune", "m", "--weight", "x y", "--queue_type=lifo"],
        "prune m - --queue_type=lifo --weight=x y",
    ),
    (&["fstprune", "--weight=", "m"], "prune m - --weight="),
    (&["prune", "--weight", "-1"], "usage"),
    (
        &[
            "intersect",
            "a",
            "--connect=false",
            "b",
            "--max_states",
            "7",
        ],
        "intersect a b - --connect=false --max_states=7",
    ),
    (
        &["fstdifference", "--max_states=1", "a", "b", "c"],
        "difference a b c --max_states=1",
    ),
    (&["difference", "a"], "usage"),
    (
        &["equivalent", "a", "b", "--max_states=2"],
        "equivalent a b - --max_states=2",
    ),
    (&["equivalent", "--connect=true", "a", "b"], "usage"),
    (&["fstfstequivalent", "a", "b"], "usage"),
    (&["batch", "a", "b"], "batch a b - -"),
    (
        &[
            "batch",
            "a",
            "b",
            "l",
            "o",
            "--summary",
            "--workers=64",
            "--nshortest=2",
            "--max_states=7",
        ],
        "batch a b l o --max_states=7 --nshortest=2 --workers=64 --summary",
    ),
    (&["batch", "a"], "usage"),
    (&["batch", "a", "b", "l", "o", "x"], "usage"),
    (&["make"], "make -"),
];

static COMMANDS_3: [(&[&str], &str); 13] = [
    (&["intersect", "a", "b"], "intersect a b -"),
    (
        &[
            "fstintersect",
            "a",
            "--connect=false",
            "b",
            "--max_states=4194304",
            "o",
        ],
        "intersect a b o --connect=false --max_states=4194304",
    ),
    (&["intersect", "a"], "usage"),
    (
        &["difference", "--connect", "true", "a", "-", "o"],
        "difference a - o --connect=true",
    ),
    (&["difference", "a", "b", "o", "p"], "usage"),
    (&["difference", "a", "b", "--max_states=0"], "usage"),
    (&["equivalent", "-", "b"], "equivalent - b -"),
    (
        &["fstequivalent", "a", "b", "o", "--max_states=1"],
        "equivalent a b o --max_states=1",
    ),
    (&["equivalent", "--delta=1", "a", "b"], "usage"),
    (
        &["make", "--seed=0", "--lines=10000", "s"],
        "make s --seed=0 --lines=10000",
    ),
    (
        &["make", "--nshortest=3", "--workers=2", "--max_states=9"],
        "make - --max_states=9 --nshortest=3 --workers=2",
    ),
    (&["make", "a", "b"], "usage"),
    (&["make", "--summary"], "usage"),
];

static OPTIONS_1: [(&[&str], &str); 24] = [
    (&["compile", "--arc_type=standard", "t", "b"], "usage"),
    (&["compile", "--arc_type=log"], "usage"),
    (&["compile", "--arc_type="], "usage"),
    (
        &["compile", "--arc_type=boolean"],
        "compile - - --arc_type=boolean",
    ),
    (
        &["compile", "--arc_type", "tropical"],
        "compile - - --arc_type=tropical",
    ),
    (
        &["compile", "t", "--arc_type=minmax", "b"],
        "compile t b --arc_type=minmax",
    ),
    (
        &["compile", "t", "b", "--arc_type", "lexicographic"],
        "compile t b --arc_type=lexicographic",
    ),
    (&["compile", "--arc_type=Tropical"], "usage"),
    (
        &[
            "compile",
            "--acceptor",
            "--keep_state_numbering",
            "t",
            "--isymbols=i",
            "--osymbols=o",
            "b",
        ],
        "compile t b --acceptor --keep_state_numbering --isymbols=i --osymbols=o",
    ),
    (
        &[
            "print",
            "--acceptor",
            "--show_weight_one",
            "--isymbols",
            "i",
            "--osymbols",
            "o",
            "m",
            "t",
        ],
        "print m t --acceptor --show_weight_one --isymbols=i --osymbols=o",
    ),
    (&["print", "--arc_type=tropical"], "usage"),
    (&["print", "--keep_state_numbering"], "usage"),
    (&["info", "--acceptor"], "usage"),
    (&["compile", "--acceptor", "t", "--acceptor"], "usage"),
    (&["compile", "--isymbols=i", "--isymbols=i"], "usage"),
    (&["compile", "--isymbols=i", "--isymbols", "j"], "usage"),
    (&["compile", "--acceptor=true"], "usage"),
    (&["compile", "--acceptor="], "usage"),
    (
        &["compile", "--acceptor", "true"],
        "compile true - --acceptor",
    ),
    (&["compile", "--help"], "usage"),
    (&["compile", "-h"], "usage"),
    (&["--help"], "usage"),
    (&["-h"], "usage"),
    (&["help"], "usage"),
];

static OPTIONS_2: [(&[&str], &str); 27] = [
    (&["compile", "help"], "compile help -"),
    (&["compile", "--version"], "usage"),
    (&["compile", "-V"], "usage"),
    (
        &["compile", "--isymbols=--help", "t"],
        "compile t - --isymbols=--help",
    ),
    (&["compile", "--isymbols", "--help"], "usage"),
    (&["compile", "--isymbols"], "usage"),
    (&["compile", "t", "--isymbols"], "usage"),
    (&["compile", "--isymbols", "--", "t"], "usage"),
    (
        &["compile", "--isymbols=--", "t"],
        "compile t - --isymbols=--",
    ),
    (&["compile", "--isymbols", "-x", "t"], "usage"),
    (
        &["compile", "--isymbols=-x", "t"],
        "compile t - --isymbols=-x",
    ),
    (
        &["compile", "--isymbols", "-", "t"],
        "compile t - --isymbols=-",
    ),
    (
        &["compile", "--isymbols=a=b", "t"],
        "compile t - --isymbols=a=b",
    ),
    (&["compile", "--isymbols=", "t"], "compile t - --isymbols="),
    (&["compile", "-acceptor"], "usage"),
    (&["compile", "--accept"], "usage"),
    (&["compile", "--=x"], "usage"),
    (&["compile", "-x"], "usage"),
    (&["compile", "-é"], "usage"),
    (
        &["compile", "é", "--isymbols=é"],
        "compile é - --isymbols=é",
    ),
    (&["compile", "--names=x"], "usage"),
    (
        &["compile", "--", "-x", "--acceptor"],
        "compile -x --acceptor",
    ),
    (
        &["compile", "--acceptor", "--", "--"],
        "compile -- - --acceptor",
    ),
    (&["compile", "--", "a", "b", "c"], "usage"),
    (&["compile", "--"], "compile - -"),
    (&["compile", "", "b"], "compile  b"),
    (&["print", ""], "print  -"),
];

/// A table that is kept is one that is read, and numbers are shown where no table is.
static TABLES: [(&[&str], &str); 10] = [
    (
        &["compile", "--isymbols=i", "--keep_isymbols"],
        "compile - - --isymbols=i --keep_isymbols",
    ),
    (
        &[
            "compile",
            "--keep_osymbols",
            "--osymbols=o",
            "--keep_isymbols",
            "--isymbols=i",
        ],
        "compile - - --isymbols=i --osymbols=o --keep_isymbols --keep_osymbols",
    ),
    (&["compile", "--keep_isymbols"], "usage"),
    (&["compile", "--keep_isymbols", "--osymbols=o"], "usage"),
    (&["compile", "--isymbols=i", "--keep_osymbols"], "usage"),
    (&["compile", "--numeric"], "usage"),
    (&["print", "--numeric", "m"], "print m - --numeric"),
    (&["print", "--numeric", "--isymbols=i"], "usage"),
    (&["print", "--osymbols=o", "--numeric"], "usage"),
    (&["print", "--keep_isymbols", "--isymbols=i"], "usage"),
];

static NUMBERS: [(&[&str], &str); 23] = [
    (
        &["compose", "a", "b", "--max_states=1"],
        "compose a b - --max_states=1",
    ),
    (&["compose", "a", "b", "--max_states=0"], "usage"),
    (
        &["compose", "a", "b", "--max_states=4194304"],
        "compose a b - --max_states=4194304",
    ),
    (&["compose", "a", "b", "--max_states=4194305"], "usage"),
    (
        &["compose", "a", "b", "--max_states=00000000000000000005"],
        "compose a b - --max_states=5",
    ),
    (
        &["compose", "a", "b", "--max_states=000000000000000000005"],
        "usage",
    ),
    (&["compose", "a", "b", "--max_states="], "usage"),
    (&["compose", "a", "b", "--max_states=+5"], "usage"),
    (&["compose", "a", "b", "--max_states=-5"], "usage"),
    (&["compose", "a", "b", "--max_states=5x"], "usage"),
    (&["shortestpath", "--nshortest=0"], "usage"),
    (
        &["shortestpath", "--nshortest=1"],
        "shortestpath - - --nshortest=1",
    ),
    (
        &["shortestpath", "--nshortest", "100000"],
        "shortestpath - - --nshortest=100000",
    ),
    (&["shortestpath", "--nshortest=100001"], "usage"),
    (&["shortestpath", "--nshortest="], "usage"),
    (&["batch", "a", "b", "--workers=0"], "usage"),
    (
        &["batch", "a", "b", "--workers=1"],
        "batch a b - - --workers=1",
    ),
    (&["batch", "a", "b", "--workers=65"], "usage"),
    (
        &["make", "--seed=18446744073709551615"],
        "make - --seed=18446744073709551615",
    ),
    (&["make", "--seed=18446744073709551616"], "usage"),
    (&["make", "--seed=99999999999999999999"], "usage"),
    (&["make", "--lines=0", "s"], "make s --lines=0"),
    (&["make", "--lines=10001"], "usage"),
];

static ENCODE: [(&[&str], &str); 15] = [
    (
        &["encode", "--encode_labels", "m", "c"],
        "encode m c - --encode_labels",
    ),
    (
        &[
            "encode",
            "--encode_labels",
            "--encode_weights",
            "m",
            "c",
            "o",
        ],
        "encode m c o --encode_labels --encode_weights",
    ),
    (&["encode", "--encode_weights", "m", "c", "o"], "usage"),
    (&["encode", "m", "c", "o"], "usage"),
    (
        &["encode", "--decode", "m", "c", "o"],
        "encode m c o --decode",
    ),
    (
        &["encode", "--decode", "--encode_labels", "m", "c", "o"],
        "usage",
    ),
    (
        &["encode", "--decode", "--encode_weights", "m", "c", "o"],
        "usage",
    ),
    (&["encode", "--encode_labels", "m"], "usage"),
    (&["encode", "--encode_labels", "m", "c", "c"], "usage"),
    (&["encode", "--encode_labels", "m", "-"], "usage"),
    (
        &["encode", "--encode_labels", "m", "-", "o"],
        "encode m - o --encode_labels",
    ),
    (
        &["encode", "--encode_labels", "-", "c"],
        "encode - c - --encode_labels",
    ),
    (
        &["encode", "--encode_labels", "m", "m", "o"],
        "encode m m o --encode_labels",
    ),
    (&["encode", "--decode", "-", "-", "o"], "usage"),
    (
        &["encode", "--decode", "m", "c", "c"],
        "encode m c c --decode",
    ),
];

static REPLACE: [(&[&str], &str); 19] = [
    (&["replace", "r", "100"], "replace r 100 -"),
    (&["replace", "r", "100", "o"], "replace r 100 o"),
    (
        &["replace", "r", "100", "s", "101"],
        "replace r 100 s 101 -",
    ),
    (
        &["replace", "r", "100", "s", "101", "o"],
        "replace r 100 s 101 o",
    ),
    (&["replace", "r"], "usage"),
    (&["replace"], "usage"),
    (&["replace", "r", "100", "s", "100", "o"], "usage"),
    (&["replace", "r", "100", "s", "0100", "o"], "usage"),
    (&["replace", "r", "0"], "usage"),
    (&["replace", "r", "x"], "usage"),
    (&["replace", "r", ""], "usage"),
    (&["replace", "r", "2147483647"], "replace r 2147483647 -"),
    (&["replace", "r", "2147483648"], "usage"),
    (
        &["replace", "r", "000000000000000007"],
        "replace r 000000000000000007 -",
    ),
    (&["replace", "r", "0000000000000000007"], "usage"),
    (&["replace", "-", "1", "-", "2", "o"], "usage"),
    (&["replace", "-", "1", "s", "2"], "replace - 1 s 2 -"),
    (
        &["replace", "s", "1", "s", "2", "t", "3"],
        "replace s 1 s 2 t 3 -",
    ),
    (&["replace", "r", "1", "s", "2", "t", "1"], "usage"),
];

static TWICE: [(&[&str], &str); 13] = [
    (&["union", "-", "-", "o"], "usage"),
    (&["union", "-", "b"], "union - b -"),
    (&["union", "a", "a", "a"], "union a a a"),
    (&["compile", "--isymbols=-"], "usage"),
    (
        &["compile", "--isymbols=-", "t"],
        "compile t - --isymbols=-",
    ),
    (&["compile", "--isymbols=-", "--osymbols=-", "t"], "usage"),
    (&["compile", "--acceptor", "--osymbols=-", "-"], "usage"),
    (
        &["relabel", "--relabel_ipairs=-", "--relabel_opairs=-", "m"],
        "usage",
    ),
    (&["relabel", "--relabel_opairs=-"], "usage"),
    (&["batch", "-", "b"], "usage"),
    (&["batch", "-", "b", "l"], "batch - b l -"),
    (&["batch", "a", "b", "-"], "batch a b - -"),
    (&["info", "m", "m"], "info m m"),
];
