//! The n best paths of small machines, beside the list of all paths of the plain program.

ghost use Rattle.std.specs.Prelude.{◌≡◌, ◌<◌, ◌≤◌};

use fst_distance::push_wide;
use fst_machine::{Fst, Path, Paths, Step, Steps, WideFst, narrow_all};
use fst_nbest::{ChainsFault, NbestFault, chains, nbest, nbest_wide};
use fst_plain::{PlainPath, successful_paths};
use fst_queue::Fifo;
use fst_samples::machine;
use fst_semiring::{Boolean, Lexicographic, MinMax, Tropical, Weight};
use std::alloc::Global;
use std::marker::Brand;
use std::process::Abort;
use std::sync::ledger::{Blank, Ledger};
use std::test::Fail;

/// The first paths of a machine.
fn firsts<W: Weight, L: Ledger>(
    alloc: Global,
    fst: &Fst<W>,
    n: u32,
    blank: Blank,
) -> Result<Paths, NbestFault>
    requires name { blank.name ≡ L.name }
    requires parts { blank.parts ≡ L.parts }
    requires own { 0 < blank.parts }
    requires some { 1 ≤ n }
    requires few { n ≤ 100000 }
{
    nbest(alloc, fst, n, &mut Steps::<L>::new(blank))
}

/// Whether the program answers as the plain one lists, of whose paths the first have at most so many arcs.
fn is_listed(path: &Path, plain: &PlainPath) -> bool {
    path.len() == plain.transitions.len()
        && plain.transitions.iter().enumerate().all(|(k, t)| {
            k < path.len()
                && path.item(k).state == t.state
                && path.item(k).place as usize == t.place
        })
}

/// Whether these are the first paths of those that the plain program lists, at most so many.
fn are_firsts(paths: &Paths, plain: &[PlainPath], n: u32) -> bool {
    if paths.len() != plain.len().min(n as usize) {
        return false;
    }
    for i in 0..paths.len() {
        let Some(wanted) = plain.get(i) else {
            return false;
        };
        if !is_listed(paths.item(i), wanted) {
            return false;
        }
    }
    true
}

/// Asks that the first paths of a machine are the first of those that the plain program lists.
fn compare<W: Weight>(rt: &impl Abort, alloc: Global, text: &[u8]) -> Result<(), Fail> {
    let fst: Fst<W> = machine(alloc, text)?;
    let plain = successful_paths(alloc, &fst, 9)?;
    for n in 1..6 {
        match firsts::<W, Brand>(alloc, &fst, n, Blank::new(1)) {
            Ok(paths) => assert!(rt; are_firsts(&paths, plain.as_slice(), n), "{text:?}: {n}"),
            Err(_) => assert!(rt; false, "{text:?}"),
        }
    }
    Ok(())
}

/// Whether the first paths of a wide machine, of whose weights no number is past the range of weights, are the first of
/// those that the plain program lists.
fn are_wide_firsts<W: Weight, L: Ledger>(
    alloc: Global,
    wide: &WideFst<W>,
    n: u32,
    blank: Blank,
) -> Result<bool, Fail>
    requires name { blank.name ≡ L.name }
    requires parts { blank.parts ≡ L.parts }
    requires own { 0 < blank.parts }
    requires some { 1 ≤ n }
    requires few { n ≤ 100000 }
{
    match narrow_all(alloc, wide) {
        Ok(fst) => match nbest_wide(alloc, wide, n, &mut Steps::<L>::new(blank)) {
            Ok(paths) => {
                let plain = successful_paths(alloc, &fst, 9)?;
                Ok(are_firsts(&paths, plain.as_slice(), n))
            }
            Err(_) => Ok(false),
        },
        Err(_) => Ok(false),
    }
}

/// Asks the same of the wide machine that pushing makes of a machine.
fn compare_wide<W: Weight>(rt: &impl Abort, alloc: Global, text: &[u8]) -> Result<(), Fail> {
    let fst: Fst<W> = machine(alloc, text)?;
    match push_wide(alloc, &fst, &mut Fifo::new(alloc)) {
        Ok(pushed) => {
            for n in 1..6 {
                let listed = are_wide_firsts::<W, Brand>(alloc, &pushed.fst, n, Blank::new(1))?;
                assert!(rt; listed, "{text:?}: {n}");
            }
        }
        Err(_) => assert!(rt; false, "{text:?}"),
    }
    Ok(())
}

/// Machines with ties, cycles that cost nothing, paths of all lengths, states on no path, and few paths.
static SHAPES: [&[u8]; 7] = [
    b"0 1 1 1 5\n1 2 2 2 5\n1 3 3 3 3\n3 2 4 4 3\n2\n",
    b"0 1 1 1 2\n0 1 2 2 2\n1 1 3 3\n1\n",
    b"0 0 1 1 1\n0 1 2 2 1\n1 0 3 3 1\n1 2\n0 3\n",
    b"0 1 1 1 4\n0 2 2 2 1\n2 1 3 3 3\n1 3 4 4 2\n2 3 5 5 5\n3 1\n2 7\n",
    b"2 1 1 1 3\n2 0 2 2 3\n0 1 3 3\n0 0 4 4\n1 3 5 5 3\n1 1\n",
    b"1 0 1 1 2\n1 0 2 2 2\n0 2 3 3 2\n0 2 4 4 2\n2 3 5 5 2\n2 3 6 6 2\n3 2\n",
    b"0 1 1 1 7\n1 0 2 2 7\n1 7\n",
];

/// The same of an arc type with one weight, and of one with pairs.
static TRUTHS: [&[u8]; 3] = [
    b"0 1 1 1\n0 1 2 2\n1 1 3 3\n1 0 4 4\n1\n",
    b"0 0 1 1\n0 1 2 2\n1 2 3 3\n0 2 4 4\n2\n1\n",
    b"0 1 1 1\n1 2 2 2\n1 3 3 3\n3 2 4 4\n2\n",
];

static ORDERED: [&[u8]; 3] = [
    b"0 1 1 1 2,5\n0 1 2 2 2,4\n1 1 3 3 0,1\n1 0,0\n",
    b"0 0 1 1 1,-5\n0 1 2 2 1,0\n1 0 3 3 0,0\n1 0,2\n",
    b"0 1 1 1 1,1\n1 2 2 2 1,1\n1 3 3 3 1,0\n3 2 4 4 0,1\n2 0,0\n",
];

#[test]
fn lists_what_the_plain_program_lists(rt: HostRuntime) -> Result<(), Fail> {
    for text in &SHAPES {
        compare::<Tropical>(&rt, rt.alloc(), text)?;
        compare::<MinMax>(&rt, rt.alloc(), text)?;
    }
    for text in &TRUTHS {
        compare::<Boolean>(&rt, rt.alloc(), text)?;
    }
    for text in &ORDERED {
        compare::<Lexicographic>(&rt, rt.alloc(), text)?;
    }
    Ok(())
}

#[test]
fn lists_paths_of_wide_machines(rt: HostRuntime) -> Result<(), Fail> {
    for text in &SHAPES {
        compare_wide::<Tropical>(&rt, rt.alloc(), text)?;
        compare_wide::<MinMax>(&rt, rt.alloc(), text)?;
    }
    Ok(())
}

/// Sixteen times two arcs beside each other, and 48 arcs behind them: 65,536 paths of 64 arcs each.
fn many_paths(alloc: Global) -> Result<Fst<Tropical>, Fail> {
    let mut text = String::new(alloc);
    for place in 0..64u16 {
        let (state, next) = (u32::from(place), u32::from(place) + 1);
        let line = format!(in alloc; "{state} {next} 1 1\n")?;
        text.push_str(line.as_str())?;
        if place < 16 {
            text.push_str(line.as_str())?;
        }
    }
    text.push_str("64\n")?;
    machine(alloc, text.as_bytes())
}

/// How many states the machine of the first paths has, or why there is none.
fn chained<W: Weight, L: Ledger>(
    alloc: Global,
    fst: &Fst<W>,
    n: u32,
    blank: Blank,
) -> Option<Result<u32, ChainsFault>>
    requires name { blank.name ≡ L.name }
    requires parts { blank.parts ≡ L.parts }
    requires own { 0 < blank.parts }
    requires some { 1 ≤ n }
    requires few { n ≤ 100000 }
{
    match nbest(alloc, fst, n, &mut Steps::<L>::new(blank)) {
        Ok(paths) => match chains(alloc, fst, &paths) {
            Ok(made) => Some(Ok(made.states())),
            Err(fault) => Some(Err(fault)),
        },
        Err(_) => None,
    }
}

#[test]
fn listed_paths_have_as_many_states_as_there_may_be(rt: HostRuntime) -> Result<(), Fail> {
    let alloc = rt.alloc();
    let fst = many_paths(alloc)?;
    let most = chained::<Tropical, Brand>(alloc, &fst, 65_535, Blank::new(1));
    assert_eq!(rt; most, Some(Ok(4_194_241)));
    let more = chained::<Tropical, Brand>(alloc, &fst, 65_536, Blank::new(1));
    assert_eq!(rt; more, Some(Err(ChainsFault::TooManyStates)));
    Ok(())
}

/// Whether a fault lists the loop of the only state.
fn lists_the_loop(fault: &NbestFault) -> bool {
    match fault {
        NbestFault::ImprovingCycle { cycle } => {
            cycle.len() == 1 && *cycle.item(0) == Step { state: 0, place: 0 }
        }
        NbestFault::Memory => false,
    }
}

#[test]
fn a_cycle_on_successful_paths_that_is_better_than_one_is_listed(
    rt: HostRuntime,
) -> Result<(), Fail> {
    let alloc = rt.alloc();
    let fst: Fst<Tropical> = machine(alloc, b"0 0 1 1 -1\n0\n")?;
    match firsts::<Tropical, Brand>(alloc, &fst, 1, Blank::new(1)) {
        Ok(_) => assert!(rt; false, "paths"),
        Err(fault) => assert!(rt; lists_the_loop(&fault)),
    }
    Ok(())
}
