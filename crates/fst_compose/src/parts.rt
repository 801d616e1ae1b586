//! The arcs of a name, in parts where they may be very many.

ghost use Rattle.std.specs.Prelude.{◌≡◌, ◌<◌, ◌≤◌, ◌++◌, IfOk, drop, length, map};
ghost use Rattle.fst_machine.specs.Machine.{valued_arc};
ghost use Rattle.fst_compose.specs.Matching.{IsOrdered, composition_rest, name_arcs};
ghost use Rattle.fst_trim.specs.Sides.{StandsBy};
ghost use Rattle.fst_trim.specs.declared.side.Side.TheVariants as sides;
ghost use Rattle.fst_walk.specs.Names.{IsLater, key_arc, left_from};

use crate::key::{ComposeKey, KeyArc};
use crate::matching::{Ordered, put_all_found, put_by_second, put_by_side, put_in_order};
use fst_machine::{Fst, FstArc, Steps};
use fst_semiring::Weight;
use fst_trim::{Side, run_end};
use std::alloc::{AllocError, Global};
use std::sync::ledger::{Blank, Ledger};

/// How many pairs of arcs of its two states match where the arcs of a name are still put at once.
const FEW_PAIRS: usize = 262_144;

/// About how many arcs a part has where each arc of the first state matches all of the second.
const PART: usize = 16_384;

/// How many arcs of the first state a part takes at least.
const AT_LEAST: usize = 16;

/// Whether the arcs of a name of two states with these arcs may be very many.
fn has_many_pairs<W: Weight>(arcs: &[FstArc<W>], bs: &[FstArc<W>]) -> bool {
    arcs.len().saturating_mul(bs.len()) > FEW_PAIRS
}

/// Whether they are, where both have their arcs in order: goes along both, until so many pairs with one label are found.
/// (Nothing hangs on the answer but how soon the arcs are put.)
fn has_many_matches<W: Weight>(arcs: &[FstArc<W>], bs: &[FstArc<W>]) -> bool {
    let mut count: usize = 0;
    let mut at = 0;
    let mut place = 0;
    while at < arcs.len() {
        if place >= bs.len() || count > FEW_PAIRS {
            return count > FEW_PAIRS;
        }
        let a = &arcs[at];
        let b = &bs[place];
        if b.ilabel < a.olabel {
            place += 1;
        } else {
            if b.ilabel == a.olabel {
                let end = run_end(bs, Side::Input, a.olabel, place);
                count = count.saturating_add(end - place);
            }
            at += 1;
        }
    }
    count > FEW_PAIRS
}

/// The arcs from a place on.
fn behind<W: Weight>(arcs: &[FstArc<W>], from: usize) -> &[FstArc<W>]
    ensures { result.now ≡ drop from arcs.now }
{
    if from >= arcs.len() {
        return &arcs[arcs.len()..];
    }
    &arcs[from..]
}

/// Puts the next part of the arcs of a name after the others, from an arc of its first state on: those that some of the
/// arcs of this state give, or all that are left. The arcs of the second state are searched.
fn put_next<W: Weight, L: Ledger>(
    out: &mut Vec<KeyArc<W>>,
    key: ComposeKey,
    arcs: &[FstArc<W>],
    bs: &[FstArc<W>],
    from: u32,
    steps: &mut Steps<L>,
) -> Result<Option<u32>, AllocError>
    requires sorted { StandsBy sides.Input bs.now }
    ensures put { IfOk result (λ next. map (key_arc W.wide_value) out.new.items ++ left_from (λ i. name_arcs W.KIND key (drop i (map (valued_arc W.value) arcs.now)) (map (valued_arc W.value) bs.now)) next ≡ map (key_arc W.wide_value) out.old.items ++ name_arcs W.KIND key (drop from (map (valued_arc W.value) arcs.now)) (map (valued_arc W.value) bs.now)) }
    ensures later { IfOk result (IsLater from) }
{
    let start = from as usize;
    let next = start + AT_LEAST + PART / (bs.len() + 1);
    if next >= arcs.len() || next > u32::MAX as usize {
        let rest = behind(arcs, start);
        put_by_second(out, key, rest, bs, steps)?;
        return Ok(None);
    }
    put_all_found(out, key, &arcs[start..next], bs, steps)?;
    Ok(Some(next as u32))
}

/// The same, and all at once where they are not very many.
fn put_part_by_second<W: Weight, L: Ledger>(
    out: &mut Vec<KeyArc<W>>,
    key: ComposeKey,
    arcs: &[FstArc<W>],
    bs: &[FstArc<W>],
    from: u32,
    steps: &mut Steps<L>,
) -> Result<Option<u32>, AllocError>
    requires sorted { StandsBy sides.Input bs.now }
    ensures put { IfOk result (λ next. map (key_arc W.wide_value) out.new.items ++ left_from (λ i. name_arcs W.KIND key (drop i (map (valued_arc W.value) arcs.now)) (map (valued_arc W.value) bs.now)) next ≡ map (key_arc W.wide_value) out.old.items ++ name_arcs W.KIND key (drop from (map (valued_arc W.value) arcs.now)) (map (valued_arc W.value) bs.now)) }
    ensures later { IfOk result (IsLater from) }
{
    if from > 0 || has_many_pairs(arcs, bs) {
        return put_next(out, key, arcs, bs, from, steps);
    }
    put_by_second(out, key, arcs, bs, steps)?;
    Ok(None)
}

/// The same where the arcs of the first state are in order too.
fn put_part_in_order<W: Weight, L: Ledger>(
    out: &mut Vec<KeyArc<W>>,
    key: ComposeKey,
    arcs: &[FstArc<W>],
    bs: &[FstArc<W>],
    from: u32,
    steps: &mut Steps<L>,
) -> Result<Option<u32>, AllocError>
    requires first { StandsBy sides.Output arcs.now }
    requires second { StandsBy sides.Input bs.now }
    ensures put { IfOk result (λ next. map (key_arc W.wide_value) out.new.items ++ left_from (λ i. name_arcs W.KIND key (drop i (map (valued_arc W.value) arcs.now)) (map (valued_arc W.value) bs.now)) next ≡ map (key_arc W.wide_value) out.old.items ++ name_arcs W.KIND key (drop from (map (valued_arc W.value) arcs.now)) (map (valued_arc W.value) bs.now)) }
    ensures later { IfOk result (IsLater from) }
{
    if from > 0 || (has_many_pairs(arcs, bs) && has_many_matches(arcs, bs)) {
        return put_next(out, key, arcs, bs, from, steps);
    }
    put_in_order(out, key, arcs, bs, steps)?;
    Ok(None)
}

/// Puts the arcs of a name that are left from an arc of its first state on after the others, by what is known of the order
/// of the arcs of both machines, or a part of them. Gives from which arc on others are left, if any are. Where the first
/// machine alone is in order, all are put at once.
pub(crate) fn put_part<W: Weight, L: Ledger>(
    alloc: Global,
    out: &mut Vec<KeyArc<W>>,
    a: &Fst<W>,
    b: &Fst<W>,
    key: ComposeKey,
    ordered: Ordered,
    from: u32,
    blank: Blank,
) -> Result<Option<u32>, AllocError>
    requires first { key.first < length a.now.states }
    requires second { key.second < length b.now.states }
    requires ordered { IsOrdered ordered a.now b.now }
    requires name { blank.name ≡ L.name }
    requires parts { blank.parts ≡ L.parts }
    requires some { 0 < blank.parts }
    ensures put { IfOk result (λ next. map (key_arc W.wide_value) out.new.items ++ left_from (composition_rest ordered W.KIND W.value a.now b.now key) next ≡ map (key_arc W.wide_value) out.old.items ++ composition_rest ordered W.KIND W.value a.now b.now key from) }
    ensures later { IfOk result (IsLater from) }
{
    let mut steps = Steps::<L>::new(blank);
    let arcs = a.arcs(key.first);
    let bs = b.arcs(key.second);
    match ordered {
        Ordered::First => {
            put_by_side(alloc, out, key, arcs, bs, Side::Output, &mut steps)?;
            Ok(None)
        }
        Ordered::Second => put_part_by_second(out, key, arcs, bs, from, &mut steps),
        Ordered::Both => put_part_in_order(out, key, arcs, bs, from, &mut steps),
    }
}
