//! The paths of a difference, by comparing strings.

ghost use Rattle.std.specs.Prelude.{◌≡◌};
ghost use Rattle.std.specs.Bool.{Decides};
ghost use Rattle.fst_plain.specs.Strings.{IsReadBy, read_along};

use crate::listing::successful_paths;
use crate::path::{PlainPath, PlainTransition};
use fst_machine::Fst;
use fst_semiring::Weight;
use std::alloc::{AllocError, Global};

/// Whether two paths read one string: the same input labels in order, but for 0.
fn read_alike(a: &[PlainTransition], b: &[PlainTransition]) -> bool
    ensures { Decides result (read_along a.now ≡ read_along b.now) }
{
    match (a, b) {
        ([], []) => true,
        ([first, firsts @ ..], _) if first.ilabel == 0 => read_alike(firsts, b),
        (_, [other, others @ ..]) if other.ilabel == 0 => read_alike(a, others),
        ([first, firsts @ ..], [other, others @ ..]) => {
            first.ilabel == other.ilabel && read_alike(firsts, others)
        }
        _ => false,
    }
}

/// Whether one of these paths reads what the path reads.
fn is_read(paths: &[PlainPath], path: &PlainPath) -> bool
    ensures { Decides result (IsReadBy paths.now (read_along path.now.transitions.items)) }
{
    match paths {
        [] => false,
        [first, rest @ ..] => {
            read_alike(first.transitions.as_slice(), path.transitions.as_slice())
                || is_read(rest, path)
        }
    }
}

/// The successful paths of the first machine with at most so many arcs whose string no successful path of the second with
/// at most so many arcs reads, in their order.
pub fn remaining_paths<W: Weight>(
    alloc: Global,
    a: &Fst<W>,
    b: &Fst<W>,
    arcs: u32,
) -> Result<Vec<PlainPath>, AllocError> {
    let others = successful_paths(alloc, b, arcs)?;
    let mut found = Vec::new(alloc);
    for path in successful_paths(alloc, a, arcs)? {
        if !is_read(others.as_slice(), &path) {
            found.push(path)?;
        }
    }
    Ok(found)
}
