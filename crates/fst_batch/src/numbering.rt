//! The arcs of a name of a lattice, to the numbers of names.

ghost use Rattle.std.specs.Prelude.{◌≡◌, ◌+◌, ◌≤◌, ◌∷◌, [], ℕ, IfOk, OnOk, Some, false, true, length, map, slice_get};
ghost use Rattle.std.specs.List.{AllZip};
ghost use Rattle.fst_machine.specs.BreadthFirst.{Has};
ghost use Rattle.fst_machine.specs.Graph.{nexts};
ghost use Rattle.fst_machine.specs.Machine.{most_states, valued_arc};
ghost use Rattle.fst_walk.specs.Making.{IsNumberedArc};
ghost use Rattle.fst_walk.specs.Names.{key_arc};
ghost use Rattle.fst_delayed.specs.Ascending.{Ascends};
ghost use Rattle.fst_delayed.specs.Handed.{Name};
ghost use Rattle.fst_lattice.specs.Lattice.{Point, byte_arcs, point, point_arcs, reading};
ghost use Rattle.fst_lattice.specs.Walks.{label_arcs};
ghost use Rattle.fst_batch.specs.Building.{AreFound};
ghost use Rattle.fst_batch.specs.Filling.{Continues};

use fst_delayed::{KeyArc, run_of};
use fst_lattice::Points;
use fst_machine::{FstArc, WideArc};
use fst_semiring::Weight;
use std::alloc::AllocError;

/// Puts an arc that reads a label, to the number of its next name at a position; no other arc.
fn number_one<W: Weight>(
    out: &mut Vec<WideArc<W>>,
    points: &Points,
    arc: &KeyArc<W>,
    label: u32,
    position: u64,
) -> Result<(), AllocError>
    requires few { length points.now ≤ most_states }
    requires found { arc.now.ilabel ≡ label → Has points.now (point position arc.now.next) }
    ensures { OnOk result (Continues points.now (label_arcs label position (key_arc W.wide_value arc.now ∷ [])) (map (valued_arc W.wide_value) out.old.items) (map (valued_arc W.wide_value) out.new.items)) }
{
    if arc.ilabel != label {
        return Ok(());
    }
    let Some(place) = points.place(position, arc.next) else {
        unreachable!()
    };
    out.push(FstArc {
        ilabel: arc.ilabel,
        olabel: arc.olabel,
        weight: arc.weight,
        next: place as u32,
    })?;
    Ok(())
}

/// Puts those of the arcs that read a label, to the numbers of their next names at a position, and tells whether any of
/// the arcs reads epsilon.
fn number_label<W: Weight>(
    out: &mut Vec<WideArc<W>>,
    points: &Points,
    arcs: &[KeyArc<W>],
    label: u32,
    position: u64,
) -> Result<bool, AllocError>
    requires few { length points.now ≤ most_states }
    requires found { AreFound points.now label position (map (key_arc W.wide_value) arcs.now) }
    ensures arcs { OnOk result (Continues points.now (label_arcs label position (map (key_arc W.wide_value) arcs.now)) (map (valued_arc W.wide_value) out.old.items) (map (valued_arc W.wide_value) out.new.items)) }
    ensures silent { IfOk result (λ silent. silent ≡ false → reading 0 (map (key_arc W.wide_value) arcs.now) ≡ []) }
{
    let mut silent = false;
    for arc in arcs {
        number_one(out, points, arc, label, position)?;
        if arc.ilabel == 0 {
            silent = true;
        }
    }
    Ok(silent)
}

/// The same. Where the arcs are known to ascend by their input labels, those that read the label are found by a search, the
/// others are not looked at, and some may read epsilon.
fn number_those<W: Weight>(
    out: &mut Vec<WideArc<W>>,
    points: &Points,
    arcs: &[KeyArc<W>],
    ascends: bool,
    label: u32,
    position: u64,
) -> Result<bool, AllocError>
    requires few { length points.now ≤ most_states }
    requires found { AreFound points.now label position (map (key_arc W.wide_value) arcs.now) }
    requires ascends { ascends ≡ true → Ascends arcs.now }
    ensures arcs { OnOk result (Continues points.now (label_arcs label position (map (key_arc W.wide_value) arcs.now)) (map (valued_arc W.wide_value) out.old.items) (map (valued_arc W.wide_value) out.new.items)) }
    ensures silent { IfOk result (λ silent. silent ≡ false → reading 0 (map (key_arc W.wide_value) arcs.now) ≡ []) }
{
    if !ascends {
        return number_label(out, points, arcs, label, position);
    }
    let run = run_of(arcs, label);
    number_label(out, points, run, label, position)?;
    Ok(true)
}

/// Puts those of the arcs that read the byte behind a position, if there is one, and tells whether any of the arcs may
/// read epsilon.
fn number_byte<W: Weight>(
    out: &mut Vec<WideArc<W>>,
    points: &Points,
    arcs: &[KeyArc<W>],
    ascends: bool,
    line: &[u8],
    position: u64,
) -> Result<bool, AllocError>
    requires few { length points.now ≤ most_states }
    requires found { (byte : ℕ) → slice_get line.now position ≡ Some byte → AreFound points.now byte (position + 1) (map (key_arc W.wide_value) arcs.now) }
    requires ascends { ascends ≡ true → Ascends arcs.now }
    ensures arcs { OnOk result (Continues points.now (byte_arcs (slice_get line.now position) position (map (key_arc W.wide_value) arcs.now)) (map (valued_arc W.wide_value) out.old.items) (map (valued_arc W.wide_value) out.new.items)) }
    ensures silent { IfOk result (λ silent. silent ≡ false → reading 0 (map (key_arc W.wide_value) arcs.now) ≡ []) }
{
    if position >= line.len() as u64 {
        return Ok(true);
    }
    let byte = line[position as usize];
    number_those(out, points, arcs, ascends, u32::from(byte), position + 1)
}

/// Fills a list with the arcs of a name of a lattice, to the numbers of names. Its name in the composition has these arcs;
/// where they are known to ascend by their input labels, those that read a label are searched.
pub(crate) fn number_point<W: Weight>(
    out: &mut Vec<WideArc<W>>,
    points: &Points,
    arcs: &[KeyArc<W>],
    ascends: bool,
    line: &[u8],
    position: u64,
) -> Result<(), AllocError>
    requires few { length points.now ≤ most_states }
    requires found { (n : Point (Name ℕ ℕ)) → Has (nexts (point_arcs line.now position (map (key_arc W.wide_value) arcs.now))) n → Has points.now n }
    requires ascends { ascends ≡ true → Ascends arcs.now }
    ensures { OnOk result (AllZip (IsNumberedArc points.now) (point_arcs line.now position (map (key_arc W.wide_value) arcs.now)) (map (valued_arc W.wide_value) out.new.items)) }
{
    out.clear();
    let silent = number_byte(out, points, arcs, ascends, line, position)?;
    // Where it is seen that none of the arcs reads epsilon, they are looked at once.
    if !silent {
        return Ok(());
    }
    number_those(out, points, arcs, ascends, 0, position)?;
    Ok(())
}
