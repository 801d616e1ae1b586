//! The n best different strings of small acceptors that are drawn by a seed, beside all words of the slow program, and why no
//! strings are listed.

ghost use Rattle.std.specs.Prelude.{◌<◌, ◌≡◌, ◌≤◌, ◌+◌, IfOk, length};

use fst_determinize::SubsetWeight;
use fst_machine::{Fst, Steps};
use fst_plain::{PlainPath, PlainTransition, weighted_strings, wide_cost};
use fst_samples::{ARCS, Manner, Recipe, drawn_text, machine};
use fst_select::{StringWeight, Strings, UniqueFault, unique_nbest};
use fst_semiring::{Boolean, Lexicographic, MinMax, Tropical, Weight};
use fst_setops::Labels;
use std::alloc::Global;
use std::marker::Brand;
use std::process::Abort;
use std::sync::ledger::{Blank, Ledger};
use std::test::Fail;

/// No line has this number.
const NONE: u32 = 1_000;

/// How many machines are drawn.
const SEEDS: u64 = 24;

/// The first strings of a machine. At most one step is counted for each of them.
fn counted<W: SubsetWeight, L: Ledger>(
    alloc: Global,
    fst: &Fst<W>,
    n: u32,
    steps: &mut Steps<L>,
) -> Result<Strings<W>, UniqueFault>
    requires some { 1 ≤ n }
    requires few { n ≤ 100000 }
    ensures counted { IfOk result (λ strings. steps.new ≤ steps.old + length strings) }
{
    unique_nbest(alloc, fst, n, steps)
}

/// The same, by a count that begins.
fn firsts<W: SubsetWeight, L: Ledger>(
    alloc: Global,
    fst: &Fst<W>,
    n: u32,
    blank: Blank,
) -> Result<Strings<W>, UniqueFault>
    requires name { blank.name ≡ L.name }
    requires parts { blank.parts ≡ L.parts }
    requires own { 0 < blank.parts }
    requires some { 1 ≤ n }
    requires few { n ≤ 100000 }
{
    counted(alloc, fst, n, &mut Steps::<L>::new(blank))
}

/// What is told of a machine whose strings are not listed.
#[derive(Clone, Copy, Debug, PartialEq, Eq)]
enum Told {
    /// The state and the place of an arc with two labels.
    TwoLabels(u32, u32),
    /// Those of an arc with label 0.
    Epsilon(u32, u32),
    /// How many arcs the cycle has.
    Cycle(usize),
    /// There was no memory.
    NoMemory,
}

/// What a fault tells.
fn tell(fault: &UniqueFault) -> Told {
    match fault {
        UniqueFault::NotAcceptor { state, place } => Told::TwoLabels(*state, *place),
        UniqueFault::HasEpsilon { state, place } => Told::Epsilon(*state, *place),
        UniqueFault::ImprovingCycle { cycle } => Told::Cycle(cycle.len()),
        UniqueFault::Memory => Told::NoMemory,
    }
}

/// Machines whose strings are not listed: two labels come first, then label 0, then the cycle.
static UNLISTED: [(&[u8], Told); 5] = [
    (b"0 1 0 0\n0 1 1 2\n1\n", Told::TwoLabels(0, 1)),
    (b"0 1 0 1\n1\n", Told::TwoLabels(0, 0)),
    (b"0 1 1 1\n1 2 2 2\n1 2 0 0\n2\n", Told::Epsilon(1, 1)),
    (b"0 0 1 1 -1\n0 1 0 0\n1\n", Told::Epsilon(0, 1)),
    (b"0 0 1 1 -1\n0\n", Told::Cycle(1)),
];

#[test]
fn tells_why_no_strings_are_listed(rt: HostRuntime) -> Result<(), Fail> {
    let alloc = rt.alloc();
    for (text, want) in &UNLISTED {
        let fst: Fst<Tropical> = machine(alloc, text)?;
        match firsts::<Tropical, Brand>(alloc, &fst, 5, Blank::new(1)) {
            Ok(_) => assert!(rt; false, "{text:?}"),
            Err(fault) => assert_eq!(rt; tell(&fault), *want, "{text:?}"),
        }
    }
    Ok(())
}

/// Whether a word is that of the arcs of a path.
fn is_word(word: &Labels, path: &[PlainTransition]) -> bool {
    if word.len() != path.len() {
        return false;
    }
    for place in 0..path.len() {
        if *word.item(place) != path[place].ilabel {
            return false;
        }
    }
    true
}

/// Whether a listed string is that of a path, with its weight.
fn is_string<W: Weight>(listed: &StringWeight<W>, plain: &PlainPath) -> bool {
    is_word(&listed.word, plain.transitions.as_slice())
        && wide_cost::<W>(listed.weight) == plain.weight
}

/// Whether those of the listed strings that have at most `ARCS` labels are the first ones of the slow program, and all of
/// them where fewer than n are listed.
fn are_firsts<W: Weight>(strings: &Strings<W>, plain: &[PlainPath], n: usize) -> bool {
    let mut count = 0usize;
    for place in 0..strings.len() {
        let listed = strings.item(place);
        if listed.word.len() > ARCS as usize {
            continue;
        }
        let Some(wanted) = plain.get(count) else {
            return false;
        };
        if !is_string(listed, wanted) {
            return false;
        }
        count = count.wrapping_add(1);
    }
    strings.len() == n || (strings.len() < n && count == plain.len())
}

/// How many strings of at most `ARCS` labels a drawn machine has, whose first ones are listed; `None` where a cycle keeps them
/// from being listed.
fn compared<W: SubsetWeight>(
    rt: &impl Abort,
    alloc: Global,
    seed: u64,
) -> Result<Option<usize>, Fail> {
    let recipe = Recipe {
        manner: Manner::Spelling,
        seed,
        lean: 0,
        changed: NONE,
    };
    let text = drawn_text(alloc, W::KIND, recipe)?;
    let fst: Fst<W> = machine(alloc, text.as_bytes())?;
    match firsts::<W, Brand>(alloc, &fst, 20, Blank::new(1)) {
        Ok(strings) => {
            let plain = weighted_strings(alloc, &fst, ARCS)?;
            assert!(rt; are_firsts(&strings, plain.as_slice(), 20), "{seed}");
            Ok(Some(plain.len()))
        }
        Err(fault) => {
            assert!(rt; matches!(tell(&fault), Told::Cycle(_)), "{seed}");
            Ok(None)
        }
    }
}

/// Asks of all machines of an arc type, which have so many strings of at most `ARCS` labels; and so many are refused.
fn compare<W: SubsetWeight>(
    rt: &impl Abort,
    alloc: Global,
    strings: usize,
    refused: u32,
) -> Result<(), Fail> {
    let mut count = 0usize;
    let mut cycles = 0u32;
    for seed in 0..SEEDS {
        match compared::<W>(rt, alloc, seed)? {
            Some(found) => count = count.wrapping_add(found),
            None => cycles = cycles.wrapping_add(1),
        }
    }
    assert_eq!(rt; count, strings);
    assert_eq!(rt; cycles, refused);
    Ok(())
}

/// The numbers of strings and of machines were counted by a program of another language, over all words.
#[test]
fn the_slow_program_lists_the_same_strings(rt: HostRuntime) -> Result<(), Fail> {
    let alloc = rt.alloc();
    compare::<Boolean>(&rt, alloc, 679, 0)?;
    compare::<Tropical>(&rt, alloc, 336, 6)?;
    compare::<MinMax>(&rt, alloc, 679, 0)?;
    compare::<Lexicographic>(&rt, alloc, 336, 6)
}
