//! The arcs of a name of a difference: what the arcs of the first machine make of the second part.

ghost use Rattle.std.specs.Prelude.{◌≡◌, ◌++◌, ◌∷◌, ◌<◌, ◌≤◌, [], ℕ, IfSome, OnOk, get_or, length, map};
ghost use Rattle.fst_machine.specs.Graph.{graph_of};
ghost use Rattle.fst_machine.specs.Machine.{Arc, valued, valued_arc};
ghost use Rattle.fst_trim.specs.Sides.{IsSortedOn, StandsBy};
ghost use Rattle.fst_trim.specs.declared.side.Side.TheVariants as sides;
ghost use Rattle.fst_walk.specs.Names.{key_arc};
ghost use Rattle.fst_setops.specs.Difference.{rest_arc, rest_at};
ghost use Rattle.fst_setops.specs.Following.{IsPassed, led_on};

use crate::key::RestKey;
use fst_machine::{Fst, FstArc, Steps};
use fst_semiring::Weight;
use fst_trim::{Side, run_from};
use fst_walk::NameArc;
use std::alloc::AllocError;
use std::sync::ledger::{Blank, Ledger};

/// An arc of a difference, to a name. Its weight is in the wide form.
pub(crate) type RestArc<W> = NameArc<RestKey, W>;

/// How far arcs were gone along: those in the places before this one have lower labels than this one.
#[derive(Clone, Copy, Debug)]
struct Passed {
    label: u32,
    place: usize,
}

/// From which place on a label is to be looked for.
fn begin<W>(bs: &[FstArc<W>], passed: Passed, label: u32) -> usize
    requires passed { IsPassed bs.now passed.label passed.place }
    ensures { IsPassed bs.now label result }
{
    if label < passed.label {
        return 0;
    }
    passed.place
}

/// The second part behind a label: where the arc with it among these leads, if there is one; with label 0 it stays. And how
/// far the arcs were gone along.
fn lead<W: Weight, L: Ledger>(
    bs: &[FstArc<W>],
    second: Option<u32>,
    label: u32,
    passed: Passed,
    steps: &mut Steps<L>,
) -> (Option<u32>, Passed)
    requires sorted { StandsBy sides.Input bs.now }
    requires passed { IsPassed bs.now passed.label passed.place }
    ensures next { result.0 ≡ led_on second (map (valued_arc W.value) bs.now) label }
    ensures passed { IsPassed bs.now result.1.label result.1.place }
{
    if label == 0 {
        return (second, passed);
    }
    let start = begin(bs, passed, label);
    let (first, last) = run_from(bs, Side::Input, label, start, steps);
    let passed = Passed {
        label,
        place: first,
    };
    if first < last {
        let found = &bs[first];
        return (Some(found.next), passed);
    }
    (None, passed)
}

/// Puts an arc of the first machine after the others, with this second part behind it.
fn put_rest<W: Weight>(
    out: &mut Vec<RestArc<W>>,
    a: FstArc<W>,
    second: Option<u32>,
) -> Result<(), AllocError>
    ensures { OnOk result (map (key_arc W.wide_value) out.new.items ≡ map (key_arc W.wide_value) out.old.items ++ rest_at second (valued_arc W.value a) ∷ []) }
{
    out.push(RestArc {
        ilabel: a.ilabel,
        olabel: a.olabel,
        weight: a.weight.widen(),
        next: RestKey {
            first: a.next,
            second,
        },
    })?;
    Ok(())
}

/// Puts these arcs of the first machine after the others, each with what it makes of the second part, whose state has the
/// arcs `bs`. Where labels ascend, those of `bs` that were passed are not looked at again.
fn put_led<W: Weight, L: Ledger>(
    out: &mut Vec<RestArc<W>>,
    arcs: &[FstArc<W>],
    bs: &[FstArc<W>],
    second: Option<u32>,
    blank: Blank,
) -> Result<(), AllocError>
    requires sorted { StandsBy sides.Input bs.now }
    requires name { blank.name ≡ L.name }
    requires parts { blank.parts ≡ L.parts }
    requires some { 0 < blank.parts }
    ensures { OnOk result (map (key_arc W.wide_value) out.new.items ≡ map (key_arc W.wide_value) out.old.items ++ map (λ a. rest_at (led_on second (map (valued_arc W.value) bs.now) a.ilabel) a) (map (valued_arc W.value) arcs.now)) }
{
    let mut steps = Steps::<L>::new(blank);
    let mut passed = Passed { label: 0, place: 0 };
    for a in arcs {
        let (next, further) = lead(bs, second, a.ilabel, passed, &mut steps);
        put_rest(out, *a, next)?;
        passed = further;
    }
    Ok(())
}

/// Puts the arcs of a name after the others.
pub(crate) fn put_rests<W: Weight, L: Ledger>(
    out: &mut Vec<RestArc<W>>,
    a: &Fst<W>,
    b: &Fst<W>,
    key: RestKey,
    blank: Blank,
) -> Result<(), AllocError>
    requires first { key.first < length a.now.states }
    requires second { IfSome key.second (λ q. q < length b.now.states) }
    requires sorted { IsSortedOn sides.Input b.now }
    requires name { blank.name ≡ L.name }
    requires parts { blank.parts ≡ L.parts }
    requires some { 0 < blank.parts }
    ensures { OnOk result (map (key_arc W.wide_value) out.new.items ≡ map (key_arc W.wide_value) out.old.items ++ map (rest_arc (graph_of (valued W.value b.now)) key.second) ((graph_of (valued W.value a.now)).arcs key.first)) }
{
    let arcs = a.arcs(key.first);
    match key.second {
        Some(state) => put_led::<W, L>(out, arcs, b.arcs(state), key.second, blank),
        // No arc is looked at.
        None => put_led::<W, L>(out, arcs, &arcs[..0], None, blank),
    }
}
