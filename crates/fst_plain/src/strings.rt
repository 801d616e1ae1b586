//! The strings of an acceptor with their weights, by comparing all words.

ghost use Rattle.std.specs.Prelude.{◌≤◌, length};

use crate::cost::compare_costs;
use crate::listing::successful_paths;
use crate::path::PlainPath;
use crate::separating::compare_words;
use fst_machine::Fst;
use fst_semiring::Weight;
use std::alloc::{AllocError, Global};
use std::cmp::Ordering;

/// Whether one of these paths has the word of the path.
fn is_spelled(paths: &[PlainPath], path: &PlainPath) -> bool {
    let word = path.transitions.as_slice();
    for other in paths {
        if compare_words(other.transitions.as_slice(), word) == Ordering::Equal {
            return true;
        }
    }
    false
}

/// How the words of two paths compare by weight, then by length, then label by label.
fn compare_strings(a: &PlainPath, b: &PlainPath) -> Ordering {
    match compare_costs(a.weight, b.weight) {
        Ordering::Equal => compare_words(a.transitions.as_slice(), b.transitions.as_slice()),
        other => other,
    }
}

/// How many of the first paths have a word that comes before this one's.
fn place_of(paths: &[PlainPath], path: &PlainPath) -> usize
    ensures { result ≤ length paths.now }
{
    for place in 0..paths.len() {
        if compare_strings(&paths[place], path) != Ordering::Less {
            return place;
        }
    }
    paths.len()
}

/// The strings of at most so many labels that an acceptor without label 0 gives a weight, in order: by weight, the better
/// first, then by length, then label by label. Each is told by the first of its paths, which is a best one: a string with a
/// weight is that of a successful path with as many arcs as it has labels.
pub fn weighted_strings<W: Weight>(
    alloc: Global,
    fst: &Fst<W>,
    labels: u32,
) -> Result<Vec<PlainPath>, AllocError> {
    let mut strings = Vec::new(alloc);
    // The paths stand best first.
    for path in successful_paths(alloc, fst, labels)? {
        if !is_spelled(strings.as_slice(), &path) {
            let place = place_of(strings.as_slice(), &path);
            strings.insert(place, path)?;
        }
    }
    Ok(strings)
}
