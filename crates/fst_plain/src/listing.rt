//! All successful paths of at most so many arcs, in their order.

ghost use Rattle.std.specs.Prelude.{◌≡◌, ◌<◌, ◌≤◌, ◌+◌, ◌∷◌, ◌++◌, [], ℕ, All, IfOk, OnOk, IfSome, IfNone, length, map, slice_get};
ghost use Rattle.std.specs.Cmp.Lexicographic.{slice_cmp};
ghost use Rattle.std.specs.Ordering.{nat_cmp};
ghost use Rattle.fst_machine.specs.Machine.{valued, valued_arc};
ghost use Rattle.fst_machine.specs.Graph.{graph_of};
ghost use Rattle.fst_machine.specs.PathOrder.{path_cmp};
ghost use Rattle.fst_plain.specs.Plain.{cost_of, Fits, SumFits};
ghost use Rattle.fst_plain.specs.Collected.{collected, inserted, kept, place_in, ties_in};
ghost use Rattle.fst_plain.specs.PlainPaths.{AllGood, ArePartsBelow, ListsPaths, extensions, no_arcs, one_more, outgoing, part_of, path_of, transition_of};

use crate::cost::{PlainCost, compare_costs, one, plain_cost, times_costs};
use crate::path::{PlainPart, PlainPath, PlainTransition};
use fst_machine::{Fst, FstArc};
use fst_semiring::{ArcType, Weight};
use std::alloc::{AllocError, Global};
use std::cmp::Ordering;

/// A path with one arc more.
fn add_arc<W: Weight>(
    alloc: Global,
    part: &PlainPart,
    place: usize,
    arc: &FstArc<W>,
) -> Result<PlainPart, AllocError>
    requires { (n : ℕ) × (n ≤ 10000000000) × Fits n (cost_of part.now.product) }
    ensures value { IfOk result (λ more. part_of more ≡ one_more W.KIND (part_of part.now) (record { state = part.now.end; place = place; arc = valued_arc W.value arc.now })) }
    ensures fits { IfOk result (λ more. (n : ℕ) → Fits n (cost_of part.now.product) → Fits (n + 1) (cost_of more.product)) }
{
    let weight = plain_cost(arc.weight);
    let mut transitions = Vec::new(alloc);
    transitions.extend_from_slice(part.transitions.as_slice())?;
    transitions.push(PlainTransition {
        state: part.end,
        place,
        ilabel: arc.ilabel,
        olabel: arc.olabel,
        weight,
        next: arc.next,
    })?;
    Ok(PlainPart {
        transitions,
        end: arc.next,
        product: times_costs(W::KIND, part.product, weight),
    })
}

/// How the places of two lists of arcs compare.
fn compare_places(a: &[PlainTransition], b: &[PlainTransition]) -> Ordering
    ensures { result ≡ slice_cmp nat_cmp (map (λ t. t.place) a.now) (map (λ t. t.place) b.now) }
{
    match a {
        [] => match b {
            [] => Ordering::Equal,
            [_, ..] => Ordering::Less,
        },
        [first, firsts @ ..] => match b {
            [] => Ordering::Greater,
            [second, seconds @ ..] => match first.place.cmp(&second.place) {
                Ordering::Equal => compare_places(firsts, seconds),
                other => other,
            },
        },
    }
}

/// How two paths compare: by weight, then by the number of arcs, then by the places.
fn compare_paths(a: &PlainPath, b: &PlainPath) -> Ordering
    ensures { result ≡ path_cmp (path_of a.now) (path_of b.now) }
{
    match compare_costs(a.weight, b.weight) {
        Ordering::Equal => match a.transitions.len().cmp(&b.transitions.len()) {
            Ordering::Equal => {
                compare_places(a.transitions.as_slice(), b.transitions.as_slice())
            }
            other => other,
        },
        other => other,
    }
}

/// How many of the first paths come before this one.
fn place_of(paths: &[PlainPath], path: &PlainPath) -> usize
    ensures value { result ≡ place_in (map path_of paths.now) (path_of path.now) }
    ensures within { result ≤ length paths.now }
{
    match paths {
        [] => 0,
        [first, rest @ ..] => match compare_paths(first, path) {
            Ordering::Less => 1 + place_of(rest, path),
            _ => 0,
        },
    }
}

/// Whether the first path that does not come before this one ties with it.
fn ties(paths: &[PlainPath], path: &PlainPath) -> bool
    ensures { result ≡ ties_in (map path_of paths.now) (path_of path.now) }
{
    match paths {
        [] => false,
        [first, rest @ ..] => match compare_paths(first, path) {
            Ordering::Less => ties(rest, path),
            Ordering::Equal => true,
            Ordering::Greater => false,
        },
    }
}

/// Puts a path into its place among those in order.
fn insert(found: &mut Vec<PlainPath>, path: PlainPath) -> Result<(), AllocError>
    ensures { OnOk result (map path_of found.new.items ≡ inserted (map path_of found.old.items) (path_of path)) }
{
    if ties(found.as_slice(), &path) {
        return Ok(());
    }
    let place = place_of(found.as_slice(), &path);
    found.insert(place, path)?;
    Ok(())
}

/// Collects a path, with the final weight of its end, where that is not Zero.
fn keep(
    alloc: Global,
    kind: ArcType,
    part: &PlainPart,
    last: PlainCost,
    found: &mut Vec<PlainPath>,
) -> Result<(), AllocError>
    requires { SumFits (cost_of part.now.product) (cost_of last) }
    ensures { OnOk result (map path_of found.new.items ≡ kept kind (cost_of last) (part_of part.now) (map path_of found.old.items)) }
{
    if last == PlainCost::Infinite {
        return Ok(());
    }
    let mut transitions = Vec::new(alloc);
    transitions.extend_from_slice(part.transitions.as_slice())?;
    let weight = times_costs(kind, part.product, last);
    insert(
        found,
        PlainPath {
            transitions,
            weight,
        },
    )?;
    Ok(())
}

/// Adds a path with each of these arcs behind it.
fn extend<W: Weight>(
    alloc: Global,
    part: &PlainPart,
    arcs: &[FstArc<W>],
    parts: &mut Vec<PlainPart>,
) -> Result<(), AllocError>
    requires { (n : ℕ) × (n ≤ 10000000000) × Fits n (cost_of part.now.product) }
    ensures value { OnOk result (map part_of parts.new.items ≡ map part_of parts.old.items ++ map (one_more W.KIND (part_of part.now)) (outgoing part.now.end 0 (map (valued_arc W.value) arcs.now))) }
    ensures good { OnOk result ((states n : ℕ) → Fits n (cost_of part.now.product) → All (λ a. a.next < states) arcs.now → AllGood states (n + 1) parts.old.items → AllGood states (n + 1) parts.new.items) }
{
    for place in 0..arcs.len() {
        let more = add_arc(alloc, part, place, &arcs[place])?;
        parts.push(more)?;
    }
    Ok(())
}

/// The path without arcs, and each of these paths with one arc more.
fn longer<W: Weight>(
    alloc: Global,
    fst: &Fst<W>,
    start: u32,
    parts: &[PlainPart],
) -> Result<Vec<PlainPart>, AllocError>
    requires start { start < length fst.now.states }
    requires good { (n : ℕ) × (n ≤ 10000000000) × AllGood (length fst.now.states) n parts.now }
    ensures value { IfOk result (λ more. map part_of more.items ≡ no_arcs W.KIND start ∷ extensions W.KIND (graph_of (valued W.value fst.now)) (map part_of parts.now)) }
    ensures good { IfOk result (λ more. (n : ℕ) → AllGood (length fst.now.states) n parts.now → AllGood (length fst.now.states) (n + 1) more.items) }
{
    let _states = fst.states();
    let mut more = Vec::new(alloc);
    more.push(PlainPart {
        transitions: Vec::new(alloc),
        end: start,
        product: one(W::KIND),
    })?;
    for part in parts {
        let arcs = fst.arcs(part.end);
        extend(alloc, part, arcs, &mut more)?;
    }
    Ok(more)
}

/// The paths from the start with at most so many arcs.
fn parts_within<W: Weight>(
    alloc: Global,
    fst: &Fst<W>,
    start: u32,
    arcs: u32,
) -> Result<Vec<PlainPart>, AllocError>
    requires { start < length fst.now.states }
    ensures value { IfOk result (λ parts. ArePartsBelow W.KIND (graph_of (valued W.value fst.now)) start (arcs + 1) (map part_of parts.items)) }
    ensures good { IfOk result (λ parts. AllGood (length fst.now.states) (arcs + 1) parts.items) }
{
    let none = Vec::new(alloc);
    let mut parts = longer(alloc, fst, start, none.as_slice())?;
    for _round in 0..arcs {
        parts = longer(alloc, fst, start, parts.as_slice())?;
    }
    Ok(parts)
}

/// Collects those of the paths that end at a final state.
fn collect<W: Weight>(
    alloc: Global,
    fst: &Fst<W>,
    parts: &[PlainPart],
) -> Result<Vec<PlainPath>, AllocError>
    requires { (n : ℕ) × (n ≤ 10000000000) × AllGood (length fst.now.states) n parts.now }
    ensures { IfOk result (λ found. map path_of found.items ≡ collected W.KIND (graph_of (valued W.value fst.now)) (map part_of parts.now) []) }
{
    let mut found = Vec::new(alloc);
    for part in parts {
        let last = plain_cost(fst.final_weight(part.end));
        keep(alloc, W::KIND, part, last, &mut found)?;
    }
    Ok(found)
}

/// All successful paths with at most so many arcs, each once, in their order: by weight, the better first,
/// then by the number of arcs, then by the places of the arcs.
pub fn successful_paths<W: Weight>(
    alloc: Global,
    fst: &Fst<W>,
    arcs: u32,
) -> Result<Vec<PlainPath>, AllocError>
    ensures { IfOk result (λ found. ListsPaths W.KIND (graph_of (valued W.value fst.now)) arcs (map path_of found.items)) }
{
    let Some(start) = fst.start() else {
        return Ok(Vec::new(alloc));
    };
    let parts = parts_within(alloc, fst, start, arcs)?;
    let found = collect(alloc, fst, parts.as_slice())?;
    Ok(found)
}
