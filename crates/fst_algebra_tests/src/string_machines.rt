//! The machines of the first strings of small acceptors, by hand: which strings they are, in which order, and why there is no
//! machine.

ghost use Rattle.std.specs.Prelude.{◌<◌, ◌≡◌, ◌≤◌};

use fst_determinize::SubsetWeight;
use fst_fields::List;
use fst_machine::{Fst, Steps};
use fst_plain::tropical_number;
use fst_samples::{is_text, machine};
use fst_select::{StringChainsFault, StringWeight, Strings, string_chains, unique_nbest};
use fst_semiring::{Boolean, Lexicographic, MinMax, Tropical, Weight};
use std::alloc::{AllocError, Global};
use std::marker::Brand;
use std::process::Abort;
use std::sync::ledger::{Blank, Ledger};
use std::test::Fail;

/// The machine of the first strings, or why there is none; `None` where no strings are listed.
fn chained<W: SubsetWeight, L: Ledger>(
    alloc: Global,
    fst: &Fst<W>,
    n: u32,
    blank: Blank,
) -> Option<Result<Fst<W>, StringChainsFault>>
    requires name { blank.name ≡ L.name }
    requires parts { blank.parts ≡ L.parts }
    requires own { 0 < blank.parts }
    requires some { 1 ≤ n }
    requires few { n ≤ 100000 }
{
    match unique_nbest(alloc, fst, n, &mut Steps::<L>::new(blank)) {
        Ok(strings) => Some(string_chains(alloc, &strings)),
        Err(_) => None,
    }
}

/// Machines with how many strings are wanted, and the machine of these.
static TROPICAL: [(&[u8], u32, &[u8]); 12] = [
    // One string by two paths, of which the dearer begins with the cheaper arc.
    (
        b"0 1 1 1\n0 2 1 1 2\n1 3 3 3 5\n2 3 3 3 1\n3\n",
        2,
        b"0 1 1 1\n1 2 3 3\n2 3\n",
    ),
    // No deterministic machine: its subsets have no end.
    (
        b"0 1 1 1\n0 2 1 1\n1 1 2 2 1\n2 2 2 2 2\n1\n2\n",
        3,
        b"0 1 1 1\n0 2 1 1\n0 4 1 1\n1\n2 3 2 2\n3 1\n4 5 2 2\n5 6 2 2\n6 2\n",
    ),
    // Strings of one weight and length stand by their labels, whatever the order of the arcs; the first two of them.
    (
        b"0 1 2 2\n0 1 1 1\n1 2 3 3\n1 2 1 1\n2\n",
        9,
        b"0 1 1 1\n0 3 1 1\n0 5 2 2\n0 7 2 2\n1 2 1 1\n2\n3 4 3 3\n4\n5 6 1 1\n6\n7 8 3 3\n8\n",
    ),
    (
        b"0 1 2 2\n0 1 1 1\n1 2 3 3\n1 2 1 1\n2\n",
        2,
        b"0 1 1 1\n0 3 1 1\n1 2 1 1\n2\n3 4 3 3\n4\n",
    ),
    // Four paths of one string.
    (
        b"0 1 1 1\n0 1 1 1 1\n1 2 1 1\n1 2 1 1 1\n2\n",
        9,
        b"0 1 1 1\n1 2 1 1\n2\n",
    ),
    // Behind the label 1 the shortest string is not the best.
    (
        b"0 1 1 1\n0 2 1 1\n1 3 2 2\n3 4 2 2\n4\n2 5 3 3 1\n5\n0 6 2 2\n6 7 2 2\n7\n",
        9,
        b"0 1 2 2\n0 3 1 1\n0 6 1 1\n1 2 2 2\n2\n3 4 2 2\n4 5 2 2\n5\n6 7 3 3\n7 1\n",
    ),
    // Two states behind the label 1, each best for another string.
    (
        b"0 1 1 1\n0 2 1 1 2\n1 3 3 3 5\n2 3 3 3 1\n1 4 4 4\n2 4 4 4 9\n3\n4\n",
        9,
        b"0 1 1 1\n0 3 1 1\n1 2 4 4\n2\n3 4 3 3\n4 3\n",
    ),
    // Strings without end, all of one weight; and the empty one behind others.
    (
        b"0 0 1 1\n0 4\n",
        3,
        b"0 1 1 1\n0 2 1 1\n0 4\n1 4\n2 3 1 1\n3 4\n",
    ),
    (
        b"0 1 1 1 -2\n0 3\n1 1 2147483647 2147483647 3\n1\n",
        3,
        b"0 1 1 1\n0 2 1 1\n0 3\n1 -2\n2 3 2147483647 2147483647\n3 1\n",
    ),
    // A cycle that is better than One where no successful path is.
    (b"0 1 1 1 2\n0 2 2 2\n2 2 3 3 -1\n1\n", 5, b"0 1 1 1\n1 2\n"),
    // No strings.
    (b"0 1 1 1\n", 5, b""),
    (b"", 5, b""),
];

/// Behind the label 1 the best string weighs 3; the next one, of weight 5, is longer than it and than another of weight 5.
const TWO_WEIGHTS: &[u8] =
    b"0 1 1 1 3\n1 2 1 1 3\n1 3 2 2 5\n3 2 2 2 3\n0 4 2 2 4\n4 5 1 1 5\n2\n4\n5\n";

static MIN_MAX: [(&[u8], u32, &[u8]); 5] = [
    (
        TWO_WEIGHTS,
        9,
        b"0 1 1 1\n0 3 2 2\n0 4 2 2\n0 6 1 1\n1 2 1 1\n2 3\n3 4\n4 5 1 1\n5 5\n6 7 2 2\n7 8 2 2\n8 5\n",
    ),
    (
        TWO_WEIGHTS,
        3,
        b"0 1 1 1\n0 3 2 2\n0 4 2 2\n1 2 1 1\n2 3\n3 4\n4 5 1 1\n5 5\n",
    ),
    (
        b"0 1 1 1 3\n0 2 1 1 5\n1 3 2 2 4\n2 3 2 2 1\n3\n",
        9,
        b"0 1 1 1\n1 2 2 2\n2 4\n",
    ),
    (
        b"0 0 1 1 2\n0 1 2 2 1\n1 0 1 1 3\n0 4\n1 2\n",
        3,
        b"0 1 2 2\n0 2 1 1\n0 4 1 1\n1 2\n2 3 2 2\n3 2\n4 5 1 1\n5 6 2 2\n6 2\n",
    ),
    (b"0\n", 2, b"0\n"),
];

static LEXICOGRAPHIC: [(&[u8], u32, &[u8]); 2] = [
    (
        b"0 1 1 1 1,5\n0 2 1 1 1,2\n1 3 2 2 0,0\n2 3 2 2 1,0\n0 4 3 3 1,5\n3\n4\n",
        9,
        b"0 1 3 3\n0 2 1 1\n1 1,5\n2 3 2 2\n3 1,5\n",
    ),
    (
        b"0 1 2 2 2,5\n0 1 1 1 2,5\n0 1 3 3 2,4\n1 0,1\n",
        9,
        b"0 1 3 3\n0 2 1 1\n0 3 2 2\n1 2,5\n2 2,6\n3 2,6\n",
    ),
];

static BOOLEAN: [(&[u8], u32, &[u8]); 1] = [(
    b"0 1 1 1\n0 2 1 1\n1 0 2 2\n2 3 2 2\n2\n3\n",
    3,
    b"0 1 1 1\n0 2 1 1\n0 4 1 1\n1\n2 3 2 2\n3\n4 5 2 2\n5 6 1 1\n6\n",
)];

/// Asks that the first strings of each machine make the machine beside it.
fn lists<W: SubsetWeight>(
    rt: &impl Abort,
    alloc: Global,
    rows: &[(&[u8], u32, &[u8])],
) -> Result<(), Fail> {
    for (text, n, want) in rows {
        let fst: Fst<W> = machine(alloc, text)?;
        let n = *n;
        assert!(rt; n > 0 && n < 10);
        match chained::<W, Brand>(alloc, &fst, n, Blank::new(1)) {
            Some(Ok(made)) => assert!(rt; is_text(alloc, &made, want)?, "{text:?}"),
            _ => assert!(rt; false, "{text:?}"),
        }
    }
    Ok(())
}

#[test]
fn lists_each_string_once_in_order(rt: HostRuntime) -> Result<(), Fail> {
    let alloc = rt.alloc();
    lists::<Tropical>(&rt, alloc, &TROPICAL)?;
    lists::<MinMax>(&rt, alloc, &MIN_MAX)?;
    lists::<Lexicographic>(&rt, alloc, &LEXICOGRAPHIC)?;
    lists::<Boolean>(&rt, alloc, &BOOLEAN)
}

/// Machines with strings past 10 to the 18, and the state where the first of these ends.
static PAST: [(&[u8], u32); 3] = [
    (b"0 1 1 1 1000000000000000000\n1 1\n", 1),
    (b"0 1 1 1 -1000000000000000000\n1 -1\n", 1),
    (
        b"0 1 1 1 5\n0 2 2 2 1000000000000000000\n2 3 2 2\n1\n3 1\n0 4 3 3 1000000000000000000\n4 2\n",
        3,
    ),
];

#[test]
fn names_the_first_state_past_the_range(rt: HostRuntime) -> Result<(), Fail> {
    let alloc = rt.alloc();
    for (text, state) in &PAST {
        let fst: Fst<Tropical> = machine(alloc, text)?;
        let want = StringChainsFault::Overflow { state: *state };
        match chained::<Tropical, Brand>(alloc, &fst, 9, Blank::new(1)) {
            Some(Err(fault)) => assert_eq!(rt; fault, want, "{text:?}"),
            _ => assert!(rt; false, "{text:?}"),
        }
    }
    Ok(())
}

/// Twice a number, which is past 10 to the 18 for this number itself.
fn twice(number: i64) -> <Tropical as Weight>::Wide {
    let weight = tropical_number(number).unwrap_or(Tropical::zero());
    weight.times(weight)
}

/// Why two strings have no machine: that of the label 1, and the empty one behind it, which weigh twice these numbers.
fn refusal(alloc: Global, first: i64, last: i64) -> Result<Option<StringChainsFault>, AllocError> {
    let mut word = List::new(alloc);
    word.push(1)?;
    let mut strings: Strings<Tropical> = List::new(alloc);
    strings.push(StringWeight {
        word,
        weight: twice(first),
    })?;
    strings.push(StringWeight {
        word: List::new(alloc),
        weight: twice(last),
    })?;
    Ok(string_chains(alloc, &strings).err())
}

/// Such numbers, and the first state past the range: the empty string ends in state 0, wherever it stands.
static BY_HAND: [(i64, i64, Option<StringChainsFault>); 4] = [
    (
        5,
        1_000_000_000_000_000_000,
        Some(StringChainsFault::Overflow { state: 0 }),
    ),
    (
        1_000_000_000_000_000_000,
        5,
        Some(StringChainsFault::Overflow { state: 1 }),
    ),
    (
        1_000_000_000_000_000_000,
        1_000_000_000_000_000_000,
        Some(StringChainsFault::Overflow { state: 0 }),
    ),
    (5, 500_000_000_000_000_000, None),
];

#[test]
fn the_empty_string_ends_at_the_start(rt: HostRuntime) -> Result<(), Fail> {
    for (first, last, want) in &BY_HAND {
        let found = refusal(rt.alloc(), *first, *last)?;
        assert_eq!(rt; found, *want, "{first} {last}");
    }
    Ok(())
}

/// The strings of labels 1, each longer by one than the one before and worse by one, and one of so many labels 2, which is
/// better than they are.
fn long_strings(alloc: Global, labels: u16) -> Result<Fst<Tropical>, Fail> {
    let mut text = String::new(alloc);
    text.push_str("0 1 1 1 1\n1 1 1 1 1\n1\n")?;
    for place in 0..labels {
        let next = u32::from(place) + 2;
        let state = if place == 0 { 0 } else { next - 1 };
        let line = format!(in alloc; "{state} {next} 2 2\n")?;
        text.push_str(line.as_str())?;
    }
    let last = u32::from(labels) + 1;
    let line = format!(in alloc; "{last}\n")?;
    text.push_str(line.as_str())?;
    machine(alloc, text.as_bytes())
}

/// How many states the machine of 2,896 of these strings has, or why there is none: 2,895 strings of labels 1 have 4,191,960
/// labels together.
fn states(alloc: Global, labels: u16) -> Result<Option<Result<u32, StringChainsFault>>, Fail> {
    let fst = long_strings(alloc, labels)?;
    match chained::<Tropical, Brand>(alloc, &fst, 2_896, Blank::new(1)) {
        Some(Ok(made)) => Ok(Some(Ok(made.states()))),
        Some(Err(fault)) => Ok(Some(Err(fault))),
        None => Ok(None),
    }
}

#[test]
fn listed_strings_have_as_many_states_as_there_may_be(rt: HostRuntime) -> Result<(), Fail> {
    let alloc = rt.alloc();
    assert_eq!(rt; states(alloc, 2_343)?, Some(Ok(4_194_304)));
    assert_eq!(rt;
        states(alloc, 2_344)?,
        Some(Err(StringChainsFault::TooManyStates))
    );
    Ok(())
}
