//! The least word that tells two machines apart, by comparing all words.

use crate::cost::{PlainCost, plus_costs};
use crate::listing::successful_paths;
use crate::path::{PlainPath, PlainTransition};
use fst_machine::Fst;
use fst_semiring::Weight;
use std::alloc::{AllocError, Global};
use std::cmp::Ordering;

/// A word with its weights in two machines.
#[derive(Drop)]
pub struct PlainSeparation {
    /// Its labels in order, 0 among them.
    pub word: Vec<u32>,
    /// Its weight in the first machine.
    pub first: PlainCost,
    /// Its weight in the second.
    pub second: PlainCost,
}

/// How two words of labels compare: the shorter is the less, then the one whose label is the less where they first differ.
pub(crate) fn compare_words(a: &[PlainTransition], b: &[PlainTransition]) -> Ordering {
    match a.len().cmp(&b.len()) {
        Ordering::Equal => compare_labels(a, b),
        other => other,
    }
}

/// How two words compare label by label; one that goes on is the greater.
fn compare_labels(a: &[PlainTransition], b: &[PlainTransition]) -> Ordering {
    match a {
        [] => match b {
            [] => Ordering::Equal,
            [_, ..] => Ordering::Less,
        },
        [first, firsts @ ..] => match b {
            [] => Ordering::Greater,
            [second, seconds @ ..] => match first.ilabel.cmp(&second.ilabel) {
                Ordering::Equal => compare_labels(firsts, seconds),
                other => other,
            },
        },
    }
}

/// The best weight of those of these paths that have the word: Zero where there is none.
fn word_weight(paths: &[PlainPath], word: &[PlainTransition]) -> PlainCost {
    let mut best = PlainCost::Infinite;
    for path in paths {
        if compare_words(path.transitions.as_slice(), word) == Ordering::Equal {
            best = plus_costs(best, path.weight);
        }
    }
    best
}

/// Whether the word of a path has two weights.
fn separates(path: &PlainPath, first: &[PlainPath], second: &[PlainPath]) -> bool {
    let word = path.transitions.as_slice();
    word_weight(first, word) != word_weight(second, word)
}

/// The place of the path with the least word of two weights among these, which is behind their end where none has one.
fn least_place(paths: &[PlainPath], first: &[PlainPath], second: &[PlainPath]) -> usize {
    let mut least = paths.len();
    for place in 0..paths.len() {
        let is_less = match paths.get(least) {
            Some(other) => {
                let word = paths[place].transitions.as_slice();
                compare_words(word, other.transitions.as_slice()) == Ordering::Less
            }
            None => true,
        };
        if is_less && separates(&paths[place], first, second) {
            least = place;
        }
    }
    least
}

/// The word of the path with its weights among these paths.
fn separation(
    alloc: Global,
    path: &PlainPath,
    first: &[PlainPath],
    second: &[PlainPath],
) -> Result<PlainSeparation, AllocError> {
    let mut word = Vec::new(alloc);
    for transition in &path.transitions {
        word.push(transition.ilabel)?;
    }
    let labels = path.transitions.as_slice();
    Ok(PlainSeparation {
        word,
        first: word_weight(first, labels),
        second: word_weight(second, labels),
    })
}

/// The path with the lesser word of these two, if there are both.
fn lesser<'a>(a: Option<&'a PlainPath>, b: Option<&'a PlainPath>) -> Option<&'a PlainPath> {
    match (a, b) {
        (Some(one), Some(other)) => {
            let word = one.transitions.as_slice();
            match compare_words(word, other.transitions.as_slice()) {
                Ordering::Greater => b,
                _ => a,
            }
        }
        (Some(_), None) => a,
        (None, _) => b,
    }
}

/// The least word of at most so many labels whose weights in two machines differ, the shorter before the longer, and then
/// label by label; none where there is none. A word with a weight is that of a successful path with as many arcs as it has
/// labels, so that the words of these paths are all that can have two weights.
pub fn separating_word<W: Weight>(
    alloc: Global,
    a: &Fst<W>,
    b: &Fst<W>,
    labels: u32,
) -> Result<Option<PlainSeparation>, AllocError> {
    let first = successful_paths(alloc, a, labels)?;
    let second = successful_paths(alloc, b, labels)?;
    let (firsts, seconds) = (first.as_slice(), second.as_slice());
    let one = firsts.get(least_place(firsts, firsts, seconds));
    let other = seconds.get(least_place(seconds, firsts, seconds));
    match lesser(one, other) {
        Some(path) => Ok(Some(separation(alloc, path, firsts, seconds)?)),
        None => Ok(None),
    }
}
