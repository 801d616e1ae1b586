//! The arcs and the final weight of a name.

ghost use Rattle.std.specs.Prelude.{◌≡◌, ◌<◌, ◌≤◌, ◌++◌, ◌∷◌, ◌⊎◌, [], IfOk, OnOk, length, map};
ghost use Rattle.std.specs.List.{flat_map};
ghost use Rattle.fst_semiring.specs.Semiring.{Within};
ghost use Rattle.fst_machine.specs.Machine.{valued_arc};
ghost use Rattle.fst_compose.specs.Composition.{composition, first_arcs, match_arcs, second_arcs};
ghost use Rattle.fst_compose.specs.Matching.{IsSearch, IsSearchable};
ghost use Rattle.fst_walk.specs.Names.{key_arc};
ghost use Rattle.fst_trim.specs.Sides.{IsSortedOn};
ghost use Rattle.fst_trim.specs.declared.side.Side.TheVariants as sides;

use crate::key::{ComposeKey, KeyArc, key_at};
use crate::matching::put_by_side;
use fst_machine::{Fst, FstArc, Steps};
use fst_semiring::Weight;
use fst_trim::{Side, stands_by};
use std::alloc::{AllocError, Global};
use std::marker::Brand;
use std::sync::ledger::{Blank, Ledger};

/// Puts an arc after the others.
fn put_made<W: Weight>(out: &mut Vec<KeyArc<W>>, arc: KeyArc<W>) -> Result<(), AllocError>
    ensures { OnOk result (out.new.items ≡ out.old.items ++ arc ∷ []) }
{
    // Mostly there is room, and then the arc is written where it stays.
    if out.len() < out.capacity() {
        out.push_reserved(arc);
        return Ok(());
    }
    out.push(arc)?;
    Ok(())
}

/// Puts the arc of two arcs after the others, if these match.
fn put_match<W: Weight>(
    out: &mut Vec<KeyArc<W>>,
    a: FstArc<W>,
    b: FstArc<W>,
) -> Result<(), AllocError>
    ensures { OnOk result (map (key_arc W.wide_value) out.new.items ≡ map (key_arc W.wide_value) out.old.items ++ match_arcs W.KIND (valued_arc W.value a) (valued_arc W.value b)) }
{
    if a.olabel == b.ilabel {
        let arc = KeyArc {
            ilabel: a.ilabel,
            olabel: b.olabel,
            weight: a.weight.times(b.weight),
            next: key_at(a.next, b.next, 0),
        };
        return put_made(out, arc);
    }
    Ok(())
}

/// Puts the arcs of an arc with each of these that it matches after the others.
pub(crate) fn put_matches<W: Weight>(
    out: &mut Vec<KeyArc<W>>,
    a: FstArc<W>,
    bs: &[FstArc<W>],
) -> Result<(), AllocError>
    ensures { OnOk result (map (key_arc W.wide_value) out.new.items ≡ map (key_arc W.wide_value) out.old.items ++ flat_map (match_arcs W.KIND (valued_arc W.value a)) (map (valued_arc W.value) bs.now)) }
{
    for b in bs {
        put_match(out, a, *b)?;
    }
    Ok(())
}

/// Puts the arcs that an arc of the first machine has with these of the second after the others.
pub(crate) fn put_first<W: Weight>(
    out: &mut Vec<KeyArc<W>>,
    key: ComposeKey,
    a: FstArc<W>,
    bs: &[FstArc<W>],
) -> Result<(), AllocError>
    ensures { OnOk result (map (key_arc W.wide_value) out.new.items ≡ map (key_arc W.wide_value) out.old.items ++ first_arcs W.KIND key (map (valued_arc W.value) bs.now) (valued_arc W.value a)) }
{
    if a.olabel > 0 {
        return put_matches(out, a, bs);
    }
    if key.filter > 0 {
        return Ok(());
    }
    let arc = KeyArc {
        ilabel: a.ilabel,
        olabel: 0,
        weight: a.weight.widen(),
        next: key_at(a.next, key.second, 0),
    };
    put_made(out, arc)
}

/// The same for each of these arcs of the first machine.
pub(crate) fn put_firsts<W: Weight>(
    out: &mut Vec<KeyArc<W>>,
    key: ComposeKey,
    arcs: &[FstArc<W>],
    bs: &[FstArc<W>],
) -> Result<(), AllocError>
    ensures { OnOk result (map (key_arc W.wide_value) out.new.items ≡ map (key_arc W.wide_value) out.old.items ++ flat_map (first_arcs W.KIND key (map (valued_arc W.value) bs.now)) (map (valued_arc W.value) arcs.now)) }
{
    for a in arcs {
        put_first(out, key, *a, bs)?;
    }
    Ok(())
}

/// Puts the arc of an arc of the second machine alone after the others, if it reads epsilon.
fn put_second<W: Weight>(
    out: &mut Vec<KeyArc<W>>,
    key: ComposeKey,
    b: FstArc<W>,
) -> Result<(), AllocError>
    ensures { OnOk result (map (key_arc W.wide_value) out.new.items ≡ map (key_arc W.wide_value) out.old.items ++ second_arcs key (valued_arc W.value b)) }
{
    if b.ilabel > 0 {
        return Ok(());
    }
    let arc = KeyArc {
        ilabel: 0,
        olabel: b.olabel,
        weight: b.weight.widen(),
        next: key_at(key.first, b.next, 1),
    };
    put_made(out, arc)
}

/// The same for each of these arcs of the second machine.
pub(crate) fn put_seconds<W: Weight>(
    out: &mut Vec<KeyArc<W>>,
    key: ComposeKey,
    bs: &[FstArc<W>],
) -> Result<(), AllocError>
    ensures { OnOk result (map (key_arc W.wide_value) out.new.items ≡ map (key_arc W.wide_value) out.old.items ++ flat_map (second_arcs key) (map (valued_arc W.value) bs.now)) }
{
    for b in bs {
        put_second(out, key, *b)?;
    }
    Ok(())
}

/// The arcs of a name, as `expand` has them. For the input side the arcs of the name's second state are searched, for
/// the output side those of its first. (OpenFst manual, "Matchers".)
///
/// A step is one comparison with the label of an arc in a search. Where the first state has m arcs and the second n,
/// there are at most 2 (m + 1) steps for each binary digit of n for the input side, and 2 n for each binary digit of m
/// for the output side. What std's sort compares is not counted: for the output side the arcs of the second state are put in
/// order where they are not.
pub fn expand_counted<W: Weight, L: Ledger>(
    alloc: Global,
    a: &Fst<W>,
    b: &Fst<W>,
    key: ComposeKey,
    side: Side,
    steps: &mut Steps<L>,
) -> Result<Vec<KeyArc<W>>, AllocError>
    requires first { key.first < length a.now.states }
    requires second { key.second < length b.now.states }
    requires filter { key.filter ≤ 1 }
    requires sorted { IsSearchable side a.now b.now key }
    ensures arcs { IfOk result (λ arcs. map (key_arc W.wide_value) arcs.items ≡ (composition W.KIND W.value a.now b.now).arcs key) }
    ensures cost { IsSearch side a.now b.now key steps.old steps.new }
{
    let mut out = Vec::new(alloc);
    let firsts = a.arcs(key.first);
    let seconds = b.arcs(key.second);
    put_by_side(alloc, &mut out, key, firsts, seconds, side, steps)?;
    Ok(out)
}

/// The same, of which nobody counts the steps.
fn expand_by<W: Weight, L: Ledger>(
    alloc: Global,
    a: &Fst<W>,
    b: &Fst<W>,
    key: ComposeKey,
    side: Side,
    blank: Blank,
) -> Result<Vec<KeyArc<W>>, AllocError>
    requires first { key.first < length a.now.states }
    requires second { key.second < length b.now.states }
    requires filter { key.filter ≤ 1 }
    requires sorted { IsSearchable side a.now b.now key }
    requires name { blank.name ≡ L.name }
    requires parts { blank.parts ≡ L.parts }
    requires some { 0 < blank.parts }
    ensures { IfOk result (λ arcs. map (key_arc W.wide_value) arcs.items ≡ (composition W.KIND W.value a.now b.now).arcs key) }
{
    let mut steps = Steps::<L>::new(blank);
    expand_counted(alloc, a, b, key, side, &mut steps)
}

/// The arcs of a name, in order: those of each arc of the first machine's state, which goes alone where it writes
/// epsilon, if the filter lets it, and else with each arc of the second machine's state that it matches; then those
/// of the second machine's state that go alone. (Mohri 2009, section 4.1.)
///
/// Time: that of `expand_counted`, by the input side where the arcs of the name's second state stand by their input
/// labels, and else by the output side; and one look at each arc of the second state.
pub fn expand<W: Weight>(
    alloc: Global,
    a: &Fst<W>,
    b: &Fst<W>,
    key: ComposeKey,
) -> Result<Vec<KeyArc<W>>, AllocError>
    requires first { key.first < length a.now.states }
    requires second { key.second < length b.now.states }
    requires filter { key.filter ≤ 1 }
    requires sorted { IsSortedOn sides.Output a.now ⊎ IsSortedOn sides.Input b.now }
    ensures { IfOk result (λ arcs. map (key_arc W.wide_value) arcs.items ≡ (composition W.KIND W.value a.now b.now).arcs key) }
{
    if stands_by(b.arcs(key.second), Side::Input) {
        return expand_by::<W, Brand>(alloc, a, b, key, Side::Input, Blank::new(1));
    }
    expand_by::<W, Brand>(alloc, a, b, key, Side::Output, Blank::new(1))
}

/// The final weight of a name: that of its states together. Its numbers have absolute value at most 2 times 10 to
/// the 18. Takes no memory.
pub fn key_final<W: Weight>(a: &Fst<W>, b: &Fst<W>, key: ComposeKey) -> W::Wide
    requires first { key.first < length a.now.states }
    requires second { key.second < length b.now.states }
    ensures value { W.wide_value result ≡ (composition W.KIND W.value a.now b.now).final key }
    ensures range { Within 2000000000000000000 (W.wide_value result) }
{
    let first = a.final_weight(key.first);
    let second = b.final_weight(key.second);
    first.times(second)
}
