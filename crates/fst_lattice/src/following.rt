//! The arcs of a name of a lattice.

ghost use Rattle.std.specs.Prelude.{◌≡◌, ◌+◌, ◌∷◌, [], ◌<◌, ◌≤◌, ℕ, List, ◌++◌, IfOk, MatchBool, MatchOption, OnOk, Some, false, true, length, map, slice_get};
ghost use Rattle.fst_machine.specs.BreadthFirst.{Grows};
ghost use Rattle.fst_machine.specs.Graph.{nexts};
ghost use Rattle.fst_walk.specs.Making.{Passes};
ghost use Rattle.fst_walk.specs.Names.{key_arc};
ghost use Rattle.fst_delayed.specs.Ascending.{Ascends};
ghost use Rattle.fst_delayed.specs.Handed.{Name};
ghost use Rattle.fst_lattice.specs.Lattice.{Point, byte_arcs, point_arcs, reading};
ghost use Rattle.fst_lattice.specs.Walks.{label_arcs};

use crate::points::Points;
use fst_delayed::{KeyArc, run_of};
use fst_semiring::Weight;
use std::alloc::AllocError;

/// Finds the name at a position to which an arc leads, if it reads a label. False where there are then more names than
/// the limit.
fn find_one<W: Weight>(
    points: &mut Points,
    arc: &KeyArc<W>,
    label: u32,
    position: u64,
    limit: u32,
) -> Result<bool, AllocError>
    requires few { length points.old ≤ limit }
    ensures finds { IfOk result (λ fits. MatchBool fits (Grows points.old (nexts (label_arcs label position (key_arc W.wide_value arc.now ∷ []))) points.new × (length points.new ≤ limit)) (Passes limit points.old (nexts (label_arcs label position (key_arc W.wide_value arc.now ∷ []))))) }
    ensures front { OnOk result ((more : List (Point (Name ℕ ℕ))) × (points.new ≡ points.old ++ more)) }
{
    if arc.ilabel != label {
        return Ok(true);
    }
    points.find(position, arc.next, limit)
}

/// Finds the names at a position to which those of these arcs lead that read a label, and tells whether any of the arcs
/// reads epsilon; `None` where there are then more names than the limit.
fn find_label<W: Weight>(
    points: &mut Points,
    arcs: &[KeyArc<W>],
    label: u32,
    position: u64,
    limit: u32,
) -> Result<Option<bool>, AllocError>
    requires few { length points.old ≤ limit }
    ensures finds { IfOk result (λ found. MatchOption found (Passes limit points.old (nexts (label_arcs label position (map (key_arc W.wide_value) arcs.now)))) (λ silent. Grows points.old (nexts (label_arcs label position (map (key_arc W.wide_value) arcs.now))) points.new × (length points.new ≤ limit))) }
    ensures silent { IfOk result (λ found. found ≡ Some false → reading 0 (map (key_arc W.wide_value) arcs.now) ≡ []) }
    ensures front { OnOk result ((more : List (Point (Name ℕ ℕ))) × (points.new ≡ points.old ++ more)) }
{
    let mut silent = false;
    for arc in arcs {
        let fits = find_one(points, arc, label, position, limit)?;
        if !fits {
            return Ok(None);
        }
        if arc.ilabel == 0 {
            silent = true;
        }
    }
    Ok(Some(silent))
}

/// The same. Where the arcs are known to ascend by their input labels, those that read the label are found by a search, the
/// others are not looked at, and some may read epsilon.
fn find_those<W: Weight>(
    points: &mut Points,
    arcs: &[KeyArc<W>],
    ascends: bool,
    label: u32,
    position: u64,
    limit: u32,
) -> Result<Option<bool>, AllocError>
    requires few { length points.old ≤ limit }
    requires ascends { ascends ≡ true → Ascends arcs.now }
    ensures finds { IfOk result (λ found. MatchOption found (Passes limit points.old (nexts (label_arcs label position (map (key_arc W.wide_value) arcs.now)))) (λ silent. Grows points.old (nexts (label_arcs label position (map (key_arc W.wide_value) arcs.now))) points.new × (length points.new ≤ limit))) }
    ensures silent { IfOk result (λ found. found ≡ Some false → reading 0 (map (key_arc W.wide_value) arcs.now) ≡ []) }
    ensures front { OnOk result ((more : List (Point (Name ℕ ℕ))) × (points.new ≡ points.old ++ more)) }
{
    if !ascends {
        return find_label(points, arcs, label, position, limit);
    }
    let run = run_of(arcs, label);
    match find_label(points, run, label, position, limit)? {
        None => Ok(None),
        Some(_silent) => Ok(Some(true)),
    }
}

/// Finds the names to which those of the arcs lead that read the byte behind a position, if there is one, and tells
/// whether any of the arcs may read epsilon; `None` where there are then more names than the limit.
fn find_byte<W: Weight>(
    points: &mut Points,
    arcs: &[KeyArc<W>],
    ascends: bool,
    line: &[u8],
    position: u64,
    limit: u32,
) -> Result<Option<bool>, AllocError>
    requires few { length points.old ≤ limit }
    requires ascends { ascends ≡ true → Ascends arcs.now }
    ensures finds { IfOk result (λ found. MatchOption found (Passes limit points.old (nexts (byte_arcs (slice_get line.now position) position (map (key_arc W.wide_value) arcs.now)))) (λ silent. Grows points.old (nexts (byte_arcs (slice_get line.now position) position (map (key_arc W.wide_value) arcs.now))) points.new × (length points.new ≤ limit))) }
    ensures silent { IfOk result (λ found. found ≡ Some false → reading 0 (map (key_arc W.wide_value) arcs.now) ≡ []) }
    ensures front { OnOk result ((more : List (Point (Name ℕ ℕ))) × (points.new ≡ points.old ++ more)) }
{
    if position >= line.len() as u64 {
        return Ok(Some(true));
    }
    let byte = line[position as usize];
    find_those(points, arcs, ascends, u32::from(byte), position + 1, limit)
}

/// Finds the names to which the arcs of a name of a lattice lead, whose name in the composition has these arcs. Where they
/// are known to ascend by their input labels, those that read a label are searched. False where there are then more names
/// than the limit.
pub(crate) fn follow<W: Weight>(
    points: &mut Points,
    arcs: &[KeyArc<W>],
    ascends: bool,
    line: &[u8],
    position: u64,
    limit: u32,
) -> Result<bool, AllocError>
    requires few { length points.old ≤ limit }
    requires ascends { ascends ≡ true → Ascends arcs.now }
    ensures finds { IfOk result (λ fits. MatchBool fits (Grows points.old (nexts (point_arcs line.now position (map (key_arc W.wide_value) arcs.now))) points.new × (length points.new ≤ limit)) (Passes limit points.old (nexts (point_arcs line.now position (map (key_arc W.wide_value) arcs.now))))) }
    ensures front { OnOk result ((more : List (Point (Name ℕ ℕ))) × (points.new ≡ points.old ++ more)) }
{
    let Some(silent) = find_byte(points, arcs, ascends, line, position, limit)? else {
        return Ok(false);
    };
    // Where it is seen that none of the arcs reads epsilon, they are looked at once.
    if !silent {
        return Ok(true);
    }
    let all = find_those(points, arcs, ascends, 0, position, limit)?;
    Ok(all.is_some())
}
