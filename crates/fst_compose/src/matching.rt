//! The arcs of a name, found by searches among arcs that stand by their labels.

ghost use Rattle.std.specs.Prelude.{◌≡◌, ◌<◌, ◌≤◌, ◌*◌, ◌++◌, OnOk, ℕ, get_or, length, map};
ghost use Rattle.std.specs.List.{flat_map};
ghost use Rattle.fst_machine.specs.Machine.{Arc, valued_arc};
ghost use Rattle.fst_compose.specs.Composition.{composition, first_arcs};
ghost use Rattle.fst_compose.specs.Matching.{IsInOrder, IsOrdered, SearchSteps, all_matches, name_arcs};
ghost use Rattle.fst_trim.specs.Runs.{TakesSteps};
ghost use Rattle.fst_trim.specs.Sides.{StandsBy};
ghost use Rattle.fst_trim.specs.declared.side.Side.TheVariants as sides;
ghost use Rattle.fst_walk.specs.Names.{key_arc};

use crate::expanding::{put_first, put_firsts, put_matches, put_seconds};
use crate::key::{ComposeKey, KeyArc};
use fst_machine::{Fst, FstArc, Steps};
use fst_semiring::Weight;
use fst_trim::{Side, find_run, run_end, run_from, sort_arcs, stands_by};
use std::alloc::{AllocError, Global};
use std::sync::ledger::{Blank, Ledger};

/// How many arcs of a first state are few enough to be gone along for each arc of a second whose arcs are in no order.
const FEW: usize = 6;

/// How many times as many arcs one state has as the other where it is searched for the arcs of the other, both being in
/// order.
const MANY_TIMES: usize = 8;

/// Which of two machines have their arcs in the order that lets them be searched: the first by its output labels, the
/// second by its input labels.
#[derive(Clone, Copy, Debug, PartialEq, Eq)]
pub(crate) enum Ordered {
    /// The first.
    First,
    /// The second.
    Second,
    /// Both.
    Both,
}

/// Puts the arcs that an arc of the first machine has with these of the second after the others. Where it does not go
/// alone, those that it matches are searched.
fn put_found<W: Weight, L: Ledger>(
    out: &mut Vec<KeyArc<W>>,
    key: ComposeKey,
    a: FstArc<W>,
    bs: &[FstArc<W>],
    steps: &mut Steps<L>,
) -> Result<(), AllocError>
    requires sorted { StandsBy sides.Input bs.now }
    ensures put { OnOk result (map (key_arc W.wide_value) out.new.items ≡ map (key_arc W.wide_value) out.old.items ++ first_arcs W.KIND key (map (valued_arc W.value) bs.now) (valued_arc W.value a)) }
    ensures cost { TakesSteps 2 (length bs.now) steps.old steps.new }
{
    if a.olabel == 0 {
        return put_first(out, key, a, bs);
    }
    let (first, last) = find_run(bs, Side::Input, a.olabel, steps);
    put_first(out, key, a, &bs[first..last])
}

/// The same for each of these arcs of the first machine.
pub(crate) fn put_all_found<W: Weight, L: Ledger>(
    out: &mut Vec<KeyArc<W>>,
    key: ComposeKey,
    arcs: &[FstArc<W>],
    bs: &[FstArc<W>],
    steps: &mut Steps<L>,
) -> Result<(), AllocError>
    requires sorted { StandsBy sides.Input bs.now }
    ensures put { OnOk result (map (key_arc W.wide_value) out.new.items ≡ map (key_arc W.wide_value) out.old.items ++ flat_map (first_arcs W.KIND key (map (valued_arc W.value) bs.now)) (map (valued_arc W.value) arcs.now)) }
    ensures cost { TakesSteps (2 * length arcs.now) (length bs.now) steps.old steps.new }
{
    for a in arcs {
        put_found(out, key, *a, bs, steps)?;
    }
    Ok(())
}

/// Puts the arcs of a name after the others. The arcs of its second state are searched.
pub(crate) fn put_by_second<W: Weight, L: Ledger>(
    out: &mut Vec<KeyArc<W>>,
    key: ComposeKey,
    arcs: &[FstArc<W>],
    bs: &[FstArc<W>],
    steps: &mut Steps<L>,
) -> Result<(), AllocError>
    requires sorted { StandsBy sides.Input bs.now }
    ensures put { OnOk result (map (key_arc W.wide_value) out.new.items ≡ map (key_arc W.wide_value) out.old.items ++ name_arcs W.KIND key (map (valued_arc W.value) arcs.now) (map (valued_arc W.value) bs.now)) }
    ensures cost { SearchSteps sides.Input (length arcs.now) (length bs.now) steps.old steps.new }
{
    put_all_found(out, key, arcs, bs, steps)?;
    let (_, last) = find_run(bs, Side::Input, 0, steps);
    put_seconds(out, key, &bs[..last])
}

/// Puts the arc of each of these arcs with each of those that it matches after the others.
fn put_products<W: Weight>(
    out: &mut Vec<KeyArc<W>>,
    arcs: &[FstArc<W>],
    bs: &[FstArc<W>],
) -> Result<(), AllocError>
    ensures { OnOk result (map (key_arc W.wide_value) out.new.items ≡ map (key_arc W.wide_value) out.old.items ++ all_matches W.KIND (map (valued_arc W.value) arcs.now) (map (valued_arc W.value) bs.now)) }
{
    for a in arcs {
        put_matches(out, *a, bs)?;
    }
    Ok(())
}

/// The same where both stand by the labels that match: those of one label are taken together, and of the first the run
/// with that label is searched from the last one on.
fn put_runs<W: Weight, L: Ledger>(
    out: &mut Vec<KeyArc<W>>,
    arcs: &[FstArc<W>],
    bs: &[FstArc<W>],
    steps: &mut Steps<L>,
) -> Result<(), AllocError>
    requires first { StandsBy sides.Output arcs.now }
    requires second { StandsBy sides.Input bs.now }
    ensures put { OnOk result (map (key_arc W.wide_value) out.new.items ≡ map (key_arc W.wide_value) out.old.items ++ all_matches W.KIND (map (valued_arc W.value) arcs.now) (map (valued_arc W.value) bs.now)) }
    ensures cost { TakesSteps (2 * length bs.now) (length arcs.now) steps.old steps.new }
{
    let mut taken = 0;
    let mut place = 0;
    while place < bs.len() {
        let next = &bs[place];
        let label = next.ilabel;
        let end = run_end(bs, Side::Input, label, place);
        let (first, last) = run_from(arcs, Side::Output, label, taken, steps);
        put_products(out, &arcs[first..last], &bs[place..end])?;
        taken = last;
        place = end;
    }
    Ok(())
}

/// The first place, from one on before which all labels are lower than this one, whose label is not, or the number of arcs.
fn pass_lower<W: Weight>(bs: &[FstArc<W>], label: u32, start: usize) -> usize
    requires start { start ≤ length bs.now }
    requires before { (k : ℕ) (d : Arc W ℕ) → k < start → (get_or bs.now k d).ilabel < label }
    ensures within { result ≤ length bs.now }
    ensures before { (k : ℕ) (d : Arc W ℕ) → k < result → (get_or bs.now k d).ilabel < label }
    ensures next { (d : Arc W ℕ) → result < length bs.now → label ≤ (get_or bs.now result d).ilabel }
{
    let mut place = start;
    while place < bs.len() {
        let next = &bs[place];
        if next.ilabel >= label {
            return place;
        }
        place += 1;
    }
    place
}

/// The same as `put_runs` by going along both at once: for each arc of the first, those of the second with lower labels
/// are passed over, and no arc behind it needs them.
fn put_merged<W: Weight>(
    out: &mut Vec<KeyArc<W>>,
    arcs: &[FstArc<W>],
    bs: &[FstArc<W>],
) -> Result<(), AllocError>
    requires first { StandsBy sides.Output arcs.now }
    requires second { StandsBy sides.Input bs.now }
    ensures put { OnOk result (map (key_arc W.wide_value) out.new.items ≡ map (key_arc W.wide_value) out.old.items ++ all_matches W.KIND (map (valued_arc W.value) arcs.now) (map (valued_arc W.value) bs.now)) }
{
    let mut place = 0;
    for a in arcs {
        place = pass_lower(bs, a.olabel, place);
        if place == bs.len() {
            return Ok(());
        }
        let next = &bs[place];
        if next.ilabel == a.olabel {
            let end = run_end(bs, Side::Input, a.olabel, place);
            put_matches(out, *a, &bs[place..end])?;
        }
    }
    Ok(())
}

/// Puts the arcs of a name after the others. The arcs of both states are in order; those of the first are searched.
fn put_by_both<W: Weight, L: Ledger>(
    out: &mut Vec<KeyArc<W>>,
    key: ComposeKey,
    arcs: &[FstArc<W>],
    bs: &[FstArc<W>],
    steps: &mut Steps<L>,
) -> Result<(), AllocError>
    requires first { StandsBy sides.Output arcs.now }
    requires second { StandsBy sides.Input bs.now }
    ensures put { OnOk result (map (key_arc W.wide_value) out.new.items ≡ map (key_arc W.wide_value) out.old.items ++ name_arcs W.KIND key (map (valued_arc W.value) arcs.now) (map (valued_arc W.value) bs.now)) }
    ensures cost { SearchSteps sides.Output (length arcs.now) (length bs.now) steps.old steps.new }
{
    let alone = run_end(arcs, Side::Output, 0, 0);
    let epsilons = run_end(bs, Side::Input, 0, 0);
    put_firsts(out, key, &arcs[..alone], bs)?;
    put_runs(out, &arcs[alone..], &bs[epsilons..], steps)?;
    put_seconds(out, key, &bs[..epsilons])
}

/// The same by going along both at once.
fn put_both_merged<W: Weight>(
    out: &mut Vec<KeyArc<W>>,
    key: ComposeKey,
    arcs: &[FstArc<W>],
    bs: &[FstArc<W>],
) -> Result<(), AllocError>
    requires first { StandsBy sides.Output arcs.now }
    requires second { StandsBy sides.Input bs.now }
    ensures put { OnOk result (map (key_arc W.wide_value) out.new.items ≡ map (key_arc W.wide_value) out.old.items ++ name_arcs W.KIND key (map (valued_arc W.value) arcs.now) (map (valued_arc W.value) bs.now)) }
{
    let first_alone = run_end(arcs, Side::Output, 0, 0);
    let second_alone = run_end(bs, Side::Input, 0, 0);
    put_firsts(out, key, &arcs[..first_alone], bs)?;
    put_merged(out, &arcs[first_alone..], &bs[second_alone..])?;
    put_seconds(out, key, &bs[..second_alone])
}

/// Puts the arcs of a name after the others. The arcs of its first state are searched; those of its second are put in
/// order where they are not, unless the first has so few that it costs no more to go along them.
fn put_by_first<W: Weight, L: Ledger>(
    alloc: Global,
    out: &mut Vec<KeyArc<W>>,
    key: ComposeKey,
    arcs: &[FstArc<W>],
    bs: &[FstArc<W>],
    steps: &mut Steps<L>,
) -> Result<(), AllocError>
    requires sorted { StandsBy sides.Output arcs.now }
    ensures put { OnOk result (map (key_arc W.wide_value) out.new.items ≡ map (key_arc W.wide_value) out.old.items ++ name_arcs W.KIND key (map (valued_arc W.value) arcs.now) (map (valued_arc W.value) bs.now)) }
    ensures cost { SearchSteps sides.Output (length arcs.now) (length bs.now) steps.old steps.new }
{
    if stands_by(bs, Side::Input) {
        return put_by_both(out, key, arcs, bs, steps);
    }
    if arcs.len() <= FEW {
        put_firsts(out, key, arcs, bs)?;
        return put_seconds(out, key, bs);
    }
    let mut sorted = Vec::new(alloc);
    sort_arcs(&mut sorted, bs, Side::Input)?;
    put_by_both(out, key, arcs, sorted.as_slice(), steps)
}

/// Puts the arcs of a name after the others: for the input side those of its second state are searched, for the output
/// side those of its first.
pub(crate) fn put_by_side<W: Weight, L: Ledger>(
    alloc: Global,
    out: &mut Vec<KeyArc<W>>,
    key: ComposeKey,
    arcs: &[FstArc<W>],
    bs: &[FstArc<W>],
    side: Side,
    steps: &mut Steps<L>,
) -> Result<(), AllocError>
    requires sorted { IsInOrder side arcs.now bs.now }
    ensures put { OnOk result (map (key_arc W.wide_value) out.new.items ≡ map (key_arc W.wide_value) out.old.items ++ name_arcs W.KIND key (map (valued_arc W.value) arcs.now) (map (valued_arc W.value) bs.now)) }
    ensures cost { SearchSteps side (length arcs.now) (length bs.now) steps.old steps.new }
{
    match side {
        Side::Input => put_by_second(out, key, arcs, bs, steps),
        Side::Output => put_by_first(alloc, out, key, arcs, bs, steps),
    }
}

/// The same where both are in order: the state that has many times as many arcs as the other is searched for these, and
/// where neither has, both are gone along at once.
pub(crate) fn put_in_order<W: Weight, L: Ledger>(
    out: &mut Vec<KeyArc<W>>,
    key: ComposeKey,
    arcs: &[FstArc<W>],
    bs: &[FstArc<W>],
    steps: &mut Steps<L>,
) -> Result<(), AllocError>
    requires first { StandsBy sides.Output arcs.now }
    requires second { StandsBy sides.Input bs.now }
    ensures put { OnOk result (map (key_arc W.wide_value) out.new.items ≡ map (key_arc W.wide_value) out.old.items ++ name_arcs W.KIND key (map (valued_arc W.value) arcs.now) (map (valued_arc W.value) bs.now)) }
{
    if arcs.len() < bs.len() / MANY_TIMES {
        return put_by_second(out, key, arcs, bs, steps);
    }
    if bs.len() < arcs.len() / MANY_TIMES {
        return put_by_both(out, key, arcs, bs, steps);
    }
    put_both_merged(out, key, arcs, bs)
}
