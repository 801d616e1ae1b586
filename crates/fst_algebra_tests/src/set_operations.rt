//! Differences and verdicts of small acceptors that are drawn by a seed, beside what the slow programs find among all words.

use fst_machine::Fst;
use fst_plain::{PlainSeparation, remaining_paths, separating_word, wide_cost};
use fst_samples::{ARCS, Manner, Recipe, drawn_text, machine, said, says, triples_of};
use fst_semiring::{Boolean, Lexicographic, MinMax, Tropical, Weight};
use fst_setops::{Labels, Verdict, difference, equivalent};
use std::alloc::Global;
use std::process::Abort;
use std::test::Fail;

/// No line has this number.
const NONE: u32 = 1_000;

/// How many machines are compared, and how many lines of each are changed in turn.
const SEEDS: u64 = 16;

const LINES: u32 = 7;

/// Seeds of machines of which the second takes away some paths of the first.
const LESS: [u64; 6] = [2, 10, 13, 14, 16, 21];

/// A machine that is drawn.
fn drawn<W: Weight>(alloc: Global, recipe: Recipe) -> Result<Fst<W>, Fail> {
    let text = drawn_text(alloc, W::KIND, recipe)?;
    machine(alloc, text.as_bytes())
}

/// Whether a word is that of these labels.
fn is_word(word: &Labels, labels: &[u32]) -> bool {
    if word.len() != labels.len() {
        return false;
    }
    for place in 0..labels.len() {
        if *word.item(place) != labels[place] {
            return false;
        }
    }
    true
}

/// Whether a verdict is what is found over all words of at most `ARCS` labels.
fn is_found<W: Weight>(verdict: &Verdict<W>, found: &Option<PlainSeparation>) -> bool {
    match (verdict, found) {
        (Verdict::Equivalent, found) => found.is_none(),
        (Verdict::Separated { word, .. }, None) => word.len() > ARCS as usize,
        (
            Verdict::Separated {
                word,
                first,
                second,
            },
            Some(least),
        ) => {
            is_word(word, least.word.as_slice())
                && wide_cost::<W>(*first) == least.first
                && wide_cost::<W>(*second) == least.second
        }
    }
}

/// Whether two machines are equivalent, where the verdict is what the slow program finds; `None` where it is not.
fn judged<W: Weight>(alloc: Global, a: &Fst<W>, b: &Fst<W>) -> Result<Option<bool>, Fail> {
    let found = separating_word(alloc, a, b, ARCS)?;
    match equivalent(alloc, a, b, 1_000) {
        Ok(verdict) if is_found(&verdict, &found) => Ok(Some(found.is_none())),
        _ => Ok(None),
    }
}

/// Asks of a machine and the same with its weights moved and each line changed in turn. Gives how many of these are
/// equivalent to it.
fn judge_changes<W: Weight>(rt: &impl Abort, alloc: Global, recipe: Recipe) -> Result<u32, Fail> {
    let fst: Fst<W> = drawn(alloc, recipe)?;
    let mut count = 0u32;
    for changed in 0..LINES {
        let other = Recipe {
            lean: 2,
            changed,
            ..recipe
        };
        let verdict = judged(alloc, &fst, &drawn::<W>(alloc, other)?)?;
        assert!(rt; verdict.is_some(), "{recipe:?} {changed}");
        count = count.wrapping_add(u32::from(verdict == Some(true)));
    }
    Ok(count)
}

/// Asks of all machines of an arc type, of which so many are equivalent to a changed one.
fn judge<W: Weight>(rt: &impl Abort, alloc: Global, wanted: u32) -> Result<(), Fail> {
    let mut count = 0u32;
    for seed in 0..SEEDS {
        let recipe = Recipe {
            manner: Manner::Deterministic,
            seed,
            lean: 0,
            changed: NONE,
        };
        count = count.wrapping_add(judge_changes::<W>(rt, alloc, recipe)?);
    }
    assert_eq!(rt; count, wanted);
    Ok(())
}

/// The numbers of equivalent machines were counted by a program of another language, over all words.
#[test]
fn the_slow_program_finds_the_same_word(rt: HostRuntime) -> Result<(), Fail> {
    let alloc = rt.alloc();
    judge::<Boolean>(&rt, alloc, 54)?;
    judge::<Tropical>(&rt, alloc, 54)?;
    judge::<Lexicographic>(&rt, alloc, 54)
}

/// Whether a difference has the paths that the slow program leaves, one for one. Gives how many they are.
fn leaves<W: Weight>(alloc: Global, a: &Fst<W>, b: &Fst<W>) -> Result<Option<usize>, Fail> {
    let paths = remaining_paths(alloc, a, b, ARCS)?;
    let wanted = triples_of(alloc, paths.as_slice())?;
    match difference(alloc, a, b, 1_000) {
        Ok(made)
            if says(alloc, &made, wanted.as_slice())?
                && said(alloc, &made)?.len() == wanted.len() => Ok(Some(wanted.len())),
        _ => Ok(None),
    }
}

/// Asks of machines of an arc type less others, which leave so many paths together.
fn subtract<W: Weight>(rt: &impl Abort, alloc: Global, wanted: usize) -> Result<(), Fail> {
    let mut count = 0usize;
    for seed in LESS {
        let recipe = Recipe {
            manner: Manner::Scattered,
            seed,
            lean: 1,
            changed: NONE,
        };
        let other = Recipe {
            manner: Manner::Unweighted,
            ..recipe
        };
        let left = leaves(
            alloc,
            &drawn::<W>(alloc, recipe)?,
            &drawn::<W>(alloc, other)?,
        )?;
        assert!(rt; left.is_some(), "{recipe:?}");
        count = count.wrapping_add(left.unwrap_or(0));
    }
    assert_eq!(rt; count, wanted);
    Ok(())
}

/// The numbers of paths were counted by a program of another language.
#[test]
fn the_slow_program_leaves_the_same_paths(rt: HostRuntime) -> Result<(), Fail> {
    let alloc = rt.alloc();
    subtract::<Boolean>(&rt, alloc, 222)?;
    subtract::<Tropical>(&rt, alloc, 222)?;
    subtract::<MinMax>(&rt, alloc, 222)?;
    subtract::<Lexicographic>(&rt, alloc, 222)
}
