//! The operations on one machine, and by definition what they make of a relation.

use crate::products::{add_arcs, closed};
use fst_machine::Fst;
use fst_rational::{
    closure, into_closure, into_inverted, into_projected, into_relabelled, invert, project,
    read_pairs, relabel, reverse,
};
use fst_samples::{Triple, put};
use fst_semiring::{ArcType, Weight};
use fst_trim::{Side, arcsort, connect, into_arcsorted, into_connected};
use std::alloc::{AllocError, Global};
use std::process::Abort;
use std::test::Fail;

/// An operation of one machine.
#[derive(Clone, Copy, Debug)]
pub(crate) enum Change {
    Reverse,
    Invert,
    ProjectInput,
    ProjectOutput,
    Relabel,
    SortInput,
    SortOutput,
    Connect,
    Star,
    Plus,
}

/// Old input labels, each with its new label.
const INPUT_PAIRS: &[(u32, u32)] = &[(1, 2), (3, 0)];

/// Old output labels, each with its new label. A new label is an old one, too.
const OUTPUT_PAIRS: &[(u32, u32)] = &[(1, 2), (2, 0)];

/// Relabels a machine by texts of pairs, of the input and of the output side.
pub(crate) fn with_new_labels<W: Weight>(
    alloc: Global,
    fst: &Fst<W>,
    input: &[u8],
    output: &[u8],
) -> Result<Fst<W>, Fail> {
    let input = read_pairs(alloc, input)?;
    let output = read_pairs(alloc, output)?;
    let made = relabel(alloc, fst, &input, &output)?;
    Ok(made)
}

/// What the operation makes of a machine.
pub(crate) fn apply<W: Weight>(
    alloc: Global,
    change: Change,
    fst: &Fst<W>,
) -> Result<Fst<W>, Fail> {
    let made = match change {
        Change::Reverse => reverse(alloc, fst)?,
        Change::Invert => invert(alloc, fst)?,
        Change::ProjectInput => project(alloc, fst, false)?,
        Change::ProjectOutput => project(alloc, fst, true)?,
        // The texts of `INPUT_PAIRS` and `OUTPUT_PAIRS`.
        Change::Relabel => with_new_labels(alloc, fst, b"1 2\n3 0\n", b"1 2\n2 0\n")?,
        Change::SortInput => arcsort(alloc, fst, Side::Input)?,
        Change::SortOutput => arcsort(alloc, fst, Side::Output)?,
        Change::Connect => connect(alloc, fst)?,
        Change::Star => closure(alloc, fst, false)?,
        Change::Plus => closure(alloc, fst, true)?,
    };
    Ok(made)
}

/// What the operation makes of a machine that is given away.
pub(crate) fn apply_given<W: Weight>(
    alloc: Global,
    change: Change,
    fst: Fst<W>,
) -> Result<Fst<W>, Fail> {
    let made = match change {
        Change::Invert => into_inverted(alloc, fst)?,
        Change::ProjectInput => into_projected(alloc, fst, false)?,
        Change::ProjectOutput => into_projected(alloc, fst, true)?,
        Change::Relabel => {
            // The texts of `INPUT_PAIRS` and `OUTPUT_PAIRS`.
            let input = read_pairs(alloc, b"1 2\n3 0\n")?;
            let output = read_pairs(alloc, b"1 2\n2 0\n")?;
            into_relabelled(alloc, fst, &input, &output)?
        }
        Change::SortInput => into_arcsorted(alloc, fst, Side::Input)?,
        Change::SortOutput => into_arcsorted(alloc, fst, Side::Output)?,
        Change::Connect => into_connected(alloc, fst)?,
        Change::Star => into_closure(alloc, fst, false)?,
        Change::Plus => into_closure(alloc, fst, true)?,
        Change::Reverse => {
            let fst = fst;
            apply(alloc, change, &fst)?
        }
    };
    Ok(made)
}

/// A copy of a string.
fn copied(alloc: Global, text: &[u32]) -> Result<Vec<u32>, AllocError> {
    let mut copy = Vec::new(alloc);
    copy.extend_from_slice(text)?;
    Ok(copy)
}

/// A string turned round.
fn turned(alloc: Global, text: &[u32]) -> Result<Vec<u32>, AllocError> {
    let mut back = Vec::new(alloc);
    for label in text.iter().rev() {
        back.push(*label)?;
    }
    Ok(back)
}

/// The new label of an old one; a label that is no old one stays.
fn new_label(pairs: &[(u32, u32)], label: u32) -> u32 {
    for (old, new) in pairs {
        if *old == label {
            return *new;
        }
    }
    label
}

/// A string with its old labels replaced, without what became epsilon.
fn replaced(alloc: Global, pairs: &[(u32, u32)], text: &[u32]) -> Result<Vec<u32>, AllocError> {
    let mut news = Vec::new(alloc);
    for label in text {
        let new = new_label(pairs, *label);
        if new != 0 {
            news.push(new)?;
        }
    }
    Ok(news)
}

/// The strings of the triple that the operation makes of one with these strings. Sorting and connecting keep them.
fn changed_pair(
    alloc: Global,
    change: Change,
    input: &[u32],
    output: &[u32],
) -> Result<(Vec<u32>, Vec<u32>), AllocError> {
    let pair = match change {
        Change::Reverse => (turned(alloc, input)?, turned(alloc, output)?),
        Change::Invert => (copied(alloc, output)?, copied(alloc, input)?),
        Change::ProjectInput => (copied(alloc, input)?, copied(alloc, input)?),
        Change::ProjectOutput => (copied(alloc, output)?, copied(alloc, output)?),
        Change::Relabel => (
            replaced(alloc, INPUT_PAIRS, input)?,
            replaced(alloc, OUTPUT_PAIRS, output)?,
        ),
        _ => (copied(alloc, input)?, copied(alloc, output)?),
    };
    Ok(pair)
}

/// How many arcs more the paths of the result have.
fn more_arcs(change: Change) -> usize {
    match change {
        // The epsilon arc of the new start.
        Change::Reverse => 1,
        _ => 0,
    }
}

/// The triples that the operation makes of these, one of each.
fn each_changed(
    rt: &impl Abort,
    alloc: Global,
    change: Change,
    triples: &[Triple],
) -> Result<Vec<Triple>, AllocError> {
    let mut news = Vec::new(alloc);
    for triple in triples {
        let (input, output) = changed_pair(
            alloc,
            change,
            triple.input.as_slice(),
            triple.output.as_slice(),
        )?;
        put(
            &mut news,
            Triple {
                arcs: add_arcs(rt, triple.arcs, more_arcs(change)),
                input,
                output,
                weight: triple.weight,
            },
        )?;
    }
    Ok(news)
}

/// The triples that the operation makes of these.
pub(crate) fn changed(
    rt: &impl Abort,
    alloc: Global,
    kind: ArcType,
    change: Change,
    triples: &[Triple],
) -> Result<Vec<Triple>, AllocError> {
    match change {
        Change::Star => closed(rt, alloc, kind, false, triples),
        Change::Plus => closed(rt, alloc, kind, true, triples),
        _ => each_changed(rt, alloc, change, triples),
    }
}
