//! Relations of machines, as lists of their triples.

use fst_machine::Fst;
use fst_plain::{PlainCost, PlainPath, pair_weight, successful_paths};
use fst_semiring::{ArcType, Weight};
use std::alloc::{AllocError, Global};

/// The greatest number of arcs of the paths that are compared.
///
/// Where a machine has a cycle its relation has no end, and with an epsilon cycle one pair of strings has paths
/// without end. So what is compared is not the whole relation, but the triples that successful paths of at most
/// so many arcs say. A construction makes of paths of the operands a path with as many arcs and those epsilon
/// arcs that it adds, whose number is known. So the triples that the operands have over such paths, each with the
/// number of arcs, give every triple that the result has over such paths, and no other. Nothing is left out of
/// this for epsilon cycles, nor for cycles that improve weights without end.
pub const ARCS: u32 = 6;

/// A triple of a relation, and how many arcs a path has that says it.
#[derive(Debug, Drop)]
pub struct Triple {
    pub arcs: usize,
    pub input: Vec<u32>,
    pub output: Vec<u32>,
    pub weight: PlainCost,
}

/// Puts a label, unless it is epsilon, after a string.
fn put_label(text: &mut Vec<u32>, label: u32) -> Result<(), AllocError> {
    if label != 0 {
        text.push(label)?;
    }
    Ok(())
}

/// The triple that a path says.
fn triple_of(alloc: Global, path: &PlainPath) -> Result<Triple, AllocError> {
    let mut input = Vec::new(alloc);
    let mut output = Vec::new(alloc);
    for transition in &path.transitions {
        put_label(&mut input, transition.ilabel)?;
        put_label(&mut output, transition.olabel)?;
    }
    Ok(Triple {
        arcs: path.transitions.len(),
        input,
        output,
        weight: path.weight,
    })
}

/// Whether two triples have one pair of strings.
fn same_pair(a: &Triple, b: &Triple) -> bool {
    a.input.as_slice() == b.input.as_slice() && a.output.as_slice() == b.output.as_slice()
}

/// Whether two triples have one pair of strings and one weight.
fn same_triple(a: &Triple, b: &Triple) -> bool {
    same_pair(a, b) && a.weight == b.weight
}

/// Whether a triple is among these, whatever the numbers of arcs.
fn is_among(triples: &[Triple], triple: &Triple) -> bool {
    triples.iter().any(|other| same_triple(other, triple))
}

/// Puts a triple after others, if its path has at most `ARCS` arcs and they have none with its strings, weight
/// and number of arcs.
pub fn put(triples: &mut Vec<Triple>, triple: Triple) -> Result<(), AllocError> {
    let is_long = triple.arcs > ARCS as usize;
    let stands = triples.iter().any(|other| other.arcs == triple.arcs
        && same_triple(other, &triple));
    if !is_long && !stands {
        triples.push(triple)?;
    }
    Ok(())
}

/// The triples that these paths say, one for each path.
pub fn triples_of(alloc: Global, paths: &[PlainPath]) -> Result<Vec<Triple>, AllocError> {
    let mut triples = Vec::new(alloc);
    for path in paths {
        triples.push(triple_of(alloc, path)?)?;
    }
    Ok(triples)
}

/// The triples of the successful paths of at most `ARCS` arcs, one for each path.
pub fn said<W: Weight>(alloc: Global, fst: &Fst<W>) -> Result<Vec<Triple>, AllocError> {
    let paths = successful_paths(alloc, fst, ARCS)?;
    triples_of(alloc, paths.as_slice())
}

/// The triples that the plain program lists, over successful paths of at most `ARCS` arcs.
pub fn relation<W: Weight>(alloc: Global, fst: &Fst<W>) -> Result<Vec<Triple>, AllocError> {
    let mut triples = Vec::new(alloc);
    for path in &successful_paths(alloc, fst, ARCS)? {
        put(&mut triples, triple_of(alloc, path)?)?;
    }
    Ok(triples)
}

/// One of an arc type.
pub fn one(kind: ArcType) -> PlainCost {
    match kind {
        ArcType::MinMax => PlainCost::Best,
        _ => PlainCost::Finite(0, 0),
    }
}

/// Whether a value is better than another.
pub fn is_better(a: PlainCost, b: PlainCost) -> bool {
    match (a, b) {
        (PlainCost::Finite(first, second), PlainCost::Finite(third, fourth)) => {
            first < third || (first == third && second < fourth)
        }
        (PlainCost::Best, _) => b != PlainCost::Best,
        (PlainCost::Finite(_, _), _) => b == PlainCost::Infinite,
        (PlainCost::Infinite, _) => false,
    }
}

/// The best of the weights that these triples have for the pair of one of them.
fn best_weight(triples: &[Triple], pair: &Triple) -> PlainCost {
    let mut best = PlainCost::Infinite;
    for triple in triples {
        if same_pair(triple, pair) && is_better(triple.weight, best) {
            best = triple.weight;
        }
    }
    best
}

/// Whether each triple is among others.
fn lie_in(triples: &[Triple], others: &[Triple]) -> bool {
    triples.iter().all(|triple| is_among(others, triple))
}

/// Whether the plain program gives each pair the best of the weights that the triples have for it.
fn weighs_pairs<W: Weight>(fst: &Fst<W>, wanted: &[Triple]) -> bool {
    let Some(start) = fst.start() else {
        return true;
    };
    for triple in wanted {
        let input = triple.input.as_slice();
        let output = triple.output.as_slice();
        let weight = pair_weight(fst, ARCS, start, input, output);
        if weight != best_weight(wanted, triple) {
            return false;
        }
    }
    true
}

/// Whether these are the triples of a machine over paths of at most `ARCS` arcs, by both plain programs: the listed
/// paths say them all and no others, and the weight of each pair is the best that they have for it.
pub fn says<W: Weight>(alloc: Global, fst: &Fst<W>, wanted: &[Triple]) -> Result<bool, AllocError> {
    let found = relation(alloc, fst)?;
    let found = found.as_slice();
    Ok(lie_in(found, wanted) && lie_in(wanted, found) && weighs_pairs(fst, wanted))
}

/// Whether two machines give the pair of each of these triples one weight. A machine without a start gives no pair a
/// weight, so that there may then be no triples.
fn weigh_pairs_alike<W: Weight>(a: &Fst<W>, b: &Fst<W>, triples: &[Triple]) -> bool {
    let (Some(first), Some(second)) = (a.start(), b.start()) else {
        return triples.is_empty();
    };
    for triple in triples {
        let input = triple.input.as_slice();
        let output = triple.output.as_slice();
        let weight = pair_weight(a, ARCS, first, input, output);
        if weight != pair_weight(b, ARCS, second, input, output) {
            return false;
        }
    }
    true
}

/// Whether two machines give each pair one weight that paths of at most `ARCS` arcs of either of them say, by the plain
/// programs.
pub fn weigh_alike<W: Weight>(alloc: Global, a: &Fst<W>, b: &Fst<W>) -> Result<bool, AllocError> {
    let first = relation(alloc, a)?;
    let second = relation(alloc, b)?;
    Ok(weigh_pairs_alike(a, b, first.as_slice()) && weigh_pairs_alike(a, b, second.as_slice()))
}
