//! Unions, products and compositions of relations, by definition.

use fst_plain::PlainCost;
use fst_samples::{ARCS, Triple, is_better, one, put};
use fst_semiring::ArcType;
use std::alloc::{AllocError, Global};
use std::process::Abort;

/// Whether a path says what another reads.
fn matches(a: &Triple, b: &Triple) -> bool {
    a.output.as_slice() == b.input.as_slice()
}

/// The number of arcs of the path of a composition that goes along two paths that match: they share an arc for each
/// label of the string between them.
fn shared_arcs(rt: &impl Abort, a: &Triple, b: &Triple) -> usize {
    let both = add_arcs(rt, a.arcs, b.arcs);
    both.checked_sub(a.output.len())
        .expect(rt, "as many arcs as labels")
}

/// Two numbers of arcs together.
pub(crate) fn add_arcs(rt: &impl Abort, a: usize, b: usize) -> usize {
    a.checked_add(b).expect(rt, "few arcs")
}

/// The sum of each part of two values.
fn sum(rt: &impl Abort, a: PlainCost, b: PlainCost) -> PlainCost {
    match (a, b) {
        (PlainCost::Finite(first, second), PlainCost::Finite(third, fourth)) => PlainCost::Finite(
            first.checked_add(third).expect(rt, "a small number"),
            second.checked_add(fourth).expect(rt, "a small number"),
        ),
        _ => PlainCost::Infinite,
    }
}

/// Times of an arc type: the worse of two values of min-max, else their sum.
fn times(rt: &impl Abort, kind: ArcType, a: PlainCost, b: PlainCost) -> PlainCost {
    match kind {
        ArcType::MinMax => { if is_better(a, b) { b } else { a } }
        _ => sum(rt, a, b),
    }
}

/// Two strings, one after the other.
fn joined(alloc: Global, front: &[u32], back: &[u32]) -> Result<Vec<u32>, AllocError> {
    let mut text = Vec::new(alloc);
    text.extend_from_slice(front)?;
    text.extend_from_slice(back)?;
    Ok(text)
}

/// The product of two triples, where paths of products have so many arcs more.
fn product(
    rt: &impl Abort,
    alloc: Global,
    kind: ArcType,
    more: usize,
    a: &Triple,
    b: &Triple,
) -> Result<Triple, AllocError> {
    Ok(Triple {
        arcs: add_arcs(rt, add_arcs(rt, a.arcs, b.arcs), more),
        input: joined(alloc, a.input.as_slice(), b.input.as_slice())?,
        output: joined(alloc, a.output.as_slice(), b.output.as_slice())?,
        weight: times(rt, kind, a.weight, b.weight),
    })
}

/// How two triples make one.
#[derive(Clone, Copy)]
enum Pairing {
    /// One after the other, where paths of products have so many arcs more.
    Product(usize),
    /// The first through the second, where they match.
    Composition,
}

/// The triple that two triples make, if they make one.
fn paired(
    rt: &impl Abort,
    alloc: Global,
    kind: ArcType,
    pairing: Pairing,
    a: &Triple,
    b: &Triple,
) -> Result<Option<Triple>, AllocError> {
    match pairing {
        Pairing::Product(more) => Ok(Some(product(rt, alloc, kind, more, a, b)?)),
        Pairing::Composition if matches(a, b) => Ok(Some(Triple {
            arcs: shared_arcs(rt, a, b),
            input: joined(alloc, a.input.as_slice(), &[])?,
            output: joined(alloc, b.output.as_slice(), &[])?,
            weight: times(rt, kind, a.weight, b.weight),
        })),
        Pairing::Composition => Ok(None),
    }
}

/// Puts what a triple makes with each of others after a list.
fn put_row(
    rt: &impl Abort,
    alloc: Global,
    kind: ArcType,
    pairing: Pairing,
    a: &Triple,
    others: &[Triple],
    list: &mut Vec<Triple>,
) -> Result<(), AllocError> {
    for b in others {
        if let Some(triple) = paired(rt, alloc, kind, pairing, a, b)? {
            put(list, triple)?;
        }
    }
    Ok(())
}

/// What the triples of both make.
fn pairs(
    rt: &impl Abort,
    alloc: Global,
    kind: ArcType,
    pairing: Pairing,
    a: &[Triple],
    b: &[Triple],
) -> Result<Vec<Triple>, AllocError> {
    let mut list = Vec::new(alloc);
    for triple in a {
        put_row(rt, alloc, kind, pairing, triple, b, &mut list)?;
    }
    Ok(list)
}

/// Puts copies of triples, whose paths have so many arcs more, after a list.
fn put_all(
    rt: &impl Abort,
    alloc: Global,
    more: usize,
    triples: &[Triple],
    list: &mut Vec<Triple>,
) -> Result<(), AllocError> {
    for triple in triples {
        let copy = Triple {
            arcs: add_arcs(rt, triple.arcs, more),
            input: joined(alloc, triple.input.as_slice(), &[])?,
            output: joined(alloc, triple.output.as_slice(), &[])?,
            weight: triple.weight,
        };
        put(list, copy)?;
    }
    Ok(())
}

/// The union: the triples of both. A path has the epsilon arc of the new start more.
pub(crate) fn united(
    rt: &impl Abort,
    alloc: Global,
    a: &[Triple],
    b: &[Triple],
) -> Result<Vec<Triple>, AllocError> {
    let mut list = Vec::new(alloc);
    put_all(rt, alloc, 1, a, &mut list)?;
    put_all(rt, alloc, 1, b, &mut list)?;
    Ok(list)
}

/// The concatenation: the products of the triples of both. A path has the epsilon arc between two paths more.
pub(crate) fn concatenated(
    rt: &impl Abort,
    alloc: Global,
    kind: ArcType,
    a: &[Triple],
    b: &[Triple],
) -> Result<Vec<Triple>, AllocError> {
    pairs(rt, alloc, kind, Pairing::Product(1), a, b)
}

/// The composition: the input of a triple of the first, and the output of one of the second that reads what the first
/// writes, with the product of their weights.
pub(crate) fn composed(
    rt: &impl Abort,
    alloc: Global,
    kind: ArcType,
    a: &[Triple],
    b: &[Triple],
) -> Result<Vec<Triple>, AllocError> {
    pairs(rt, alloc, kind, Pairing::Composition, a, b)
}

/// How many of these paths match a path, so that both make a path of at most `ARCS` arcs.
fn count_matches(rt: &impl Abort, a: &Triple, others: &[Triple]) -> usize {
    let mut count = 0;
    for b in others {
        if matches(a, b) && shared_arcs(rt, a, b) <= ARCS as usize {
            count = add_arcs(rt, count, 1);
        }
    }
    count
}

/// How many matching pairs of paths make a path of at most `ARCS` arcs.
pub(crate) fn count_pairs(rt: &impl Abort, a: &[Triple], b: &[Triple]) -> usize {
    let mut count = 0;
    for path in a {
        count = add_arcs(rt, count, count_matches(rt, path, b));
    }
    count
}

/// The triples that stand before the first round of a closure: the product of no triples for star, and the
/// triples themselves for plus.
fn first_round(
    rt: &impl Abort,
    alloc: Global,
    kind: ArcType,
    plus: bool,
    triples: &[Triple],
) -> Result<Vec<Triple>, AllocError> {
    let mut list = Vec::new(alloc);
    if plus {
        put_all(rt, alloc, 0, triples, &mut list)?;
    } else {
        list.push(Triple {
            arcs: 0,
            input: Vec::new(alloc),
            output: Vec::new(alloc),
            weight: one(kind),
        })?;
    }
    Ok(list)
}

/// The closure: the products of lists of triples, for plus of lists that are not empty. For star each triple of a
/// list takes an epsilon arc from the new start and one back to it; for plus each but the first takes one back to
/// the start. So no list with paths of at most `ARCS` arcs has more than `ARCS` triples after its first, and
/// as many rounds make all of them.
pub(crate) fn closed(
    rt: &impl Abort,
    alloc: Global,
    kind: ArcType,
    plus: bool,
    triples: &[Triple],
) -> Result<Vec<Triple>, AllocError> {
    let pairing = Pairing::Product(if plus { 1 } else { 2 });
    let mut round = first_round(rt, alloc, kind, plus, triples)?;
    let mut list = first_round(rt, alloc, kind, plus, triples)?;
    for _ in 0..ARCS {
        round = pairs(rt, alloc, kind, pairing, round.as_slice(), triples)?;
        put_all(rt, alloc, 0, round.as_slice(), &mut list)?;
    }
    Ok(list)
}
