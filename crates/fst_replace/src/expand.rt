//! The expansion itself: the blocks of all calls, one behind the other.

ghost use Rattle.std.specs.Prelude.{◌≡◌, ◌<◌, ◌≤◌, ◌+◌, ◌++◌, ◌∷◌, ℕ, All, IfOk, IfSome, OnOk, [], length, map, reverse};
ghost use Rattle.fst_machine.specs.Graph.{renamed};
ghost use Rattle.fst_machine.specs.Machine.{IsArc, IsMachine, arc_total, most_arcs, most_states, valued, valued_arc, valued_state};
ghost use Rattle.fst_rational.specs.Constructions.{carried, kept};
ghost use Rattle.fst_rational.specs.Limits.{IsSmall};
ghost use Rattle.fst_replace.specs.Calls.{arcs_of, call_of, calls_in, rules_in};
ghost use Rattle.fst_replace.specs.Expansion.{blocks_size, entered, entered_by, entered_states, entry, replaced};
ghost use Rattle.fst_replace.specs.Rules.{labels_of, place_of, valued_rules};
ghost use Rattle.fst_replace.specs.Totals.{HasStarts, IsExpanding, IsTable, shape_at, shifted, standing, standing_call};

use crate::rule::Rules;
use fst_machine::{Fst, FstArc, StateList};
use fst_rational::put_onward;
use fst_semiring::Weight;
use std::alloc::{AllocError, Global};
use std::marker::Model;

/// What a call needs to know of the rule that it calls.
#[derive(Clone, Copy)]
pub(crate) struct Shape {
    /// The start of its machine.
    pub(crate) start: Option<u32>,
    /// How many states its expansion has.
    pub(crate) size: u32,
}

impl Model for Shape {
    ghost use Rattle.fst_replace.specs.Expansion.{Shape};

    ghost Value = { Shape };

    ghost view = { λ s. record { start = s.start; size = s.size } };

    ghost inverse = { λ s. record { start = s.start; size = s.size } };
}

/// A call: the place of the rule that is called, and the state to which its block goes on.
#[derive(Clone, Copy)]
pub(crate) struct Call {
    rule: usize,
    next: u32,
}

impl Model for Call {
    ghost use Rattle.fst_replace.specs.Calls.{Calling};

    ghost Value = { Calling };

    ghost view = { λ c. record { rule = c.rule; next = c.next } };

    ghost inverse = { λ c. record { rule = c.rule; next = c.next } };
}

/// Puts the epsilon arc to the start of the block of a call, which stands at `block`, counted from `at`, behind the
/// arcs of a list, and the call, if its block has states, behind those of another. Gives where the next block stands.
fn put_call<W: Weight>(
    own: &mut Vec<FstArc<W>>,
    calls: &mut Vec<Call>,
    rule: usize,
    shape: Shape,
    at: u32,
    block: u32,
    arc: FstArc<W>,
) -> Result<u32, AllocError>
    requires good { IsArc W.value most_states arc }
    requires start { IfSome shape.start (λ s. s < shape.size) }
    requires room { at + (block + shape.size) ≤ most_states }
    ensures own { OnOk result (map (valued_arc W.value) own.new.items ≡ map (valued_arc W.value) own.old.items ++ map (renamed (λ p. at + p)) (entry (W.value arc.weight) block shape.start)) }
    ensures calls { OnOk result (calls.new.items ≡ calls.old.items ++ map (shifted at) (standing_call shape.size (record { rule = rule; next = arc.next }))) }
    ensures next { IfOk result (λ next. next ≡ block + shape.size) }
{
    if shape.size > 0 {
        calls.push(Call {
            rule,
            next: at + arc.next,
        })?;
    }
    let weight = arc.weight;
    if let Some(start) = shape.start {
        own.push(FstArc {
            ilabel: 0,
            olabel: 0,
            weight,
            next: at + (block + start),
        })?;
    }
    Ok(block + shape.size)
}

/// Puts what stands for an arc behind the arcs of a list.
fn put_arc<W: Weight>(
    own: &mut Vec<FstArc<W>>,
    calls: &mut Vec<Call>,
    rules: &Rules<'_, W>,
    shapes: &[Shape],
    at: u32,
    block: u32,
    arc: FstArc<W>,
) -> Result<u32, AllocError>
    requires good { IsArc W.value most_states arc }
    requires sizes { length shapes.now ≡ length rules.now }
    requires starts { HasStarts (shape_at shapes.now) (rules_in (call_of (labels_of rules.now) arc)) }
    requires room { at + (block + blocks_size (labels_of rules.now) (shape_at shapes.now) (call_of (labels_of rules.now) arc)) ≤ most_states }
    ensures own { OnOk result (map (valued_arc W.value) own.new.items ≡ map (valued_arc W.value) own.old.items ++ map (renamed (λ p. at + p)) (entered_by (shape_at shapes.now) block (valued_arc W.value arc) (place_of (labels_of rules.now) arc.olabel))) }
    ensures calls { OnOk result (calls.new.items ≡ calls.old.items ++ map (shifted at) (standing (shape_at shapes.now) (call_of (labels_of rules.now) arc))) }
    ensures next { IfOk result (λ next. next ≡ block + blocks_size (labels_of rules.now) (shape_at shapes.now) (call_of (labels_of rules.now) arc)) }
{
    match rules.place(arc.olabel) {
        Some(rule) => put_call(own, calls, rule, shapes[rule], at, block, arc),
        None => {
            own.push(FstArc {
                ilabel: arc.ilabel,
                olabel: arc.olabel,
                weight: arc.weight,
                next: at + arc.next,
            })?;
            Ok(block)
        }
    }
}

/// The same for each of these arcs.
fn put_arcs<W: Weight>(
    own: &mut Vec<FstArc<W>>,
    calls: &mut Vec<Call>,
    rules: &Rules<'_, W>,
    shapes: &[Shape],
    at: u32,
    block: u32,
    arcs: &[FstArc<W>],
) -> Result<u32, AllocError>
    requires good { All (IsArc W.value most_states) arcs.now }
    requires sizes { length shapes.now ≡ length rules.now }
    requires starts { HasStarts (shape_at shapes.now) (rules_in (calls_in (labels_of rules.now) arcs.now)) }
    requires room { at + (block + blocks_size (labels_of rules.now) (shape_at shapes.now) (calls_in (labels_of rules.now) arcs.now)) ≤ most_states }
    ensures own { OnOk result (map (valued_arc W.value) own.new.items ≡ map (valued_arc W.value) own.old.items ++ map (renamed (λ p. at + p)) (entered (labels_of rules.now) (shape_at shapes.now) block (map (valued_arc W.value) arcs.now))) }
    ensures calls { OnOk result (calls.new.items ≡ calls.old.items ++ map (shifted at) (standing (shape_at shapes.now) (calls_in (labels_of rules.now) arcs.now))) }
    ensures next { IfOk result (λ next. next ≡ block + blocks_size (labels_of rules.now) (shape_at shapes.now) (calls_in (labels_of rules.now) arcs.now)) }
{
    let mut next = block;
    for arc in arcs {
        next = put_arc(own, calls, rules, shapes, at, next, *arc)?;
    }
    Ok(next)
}

/// What is made: the states so far, the arcs of the state that is being made, and the calls of its block.
#[derive(Drop)]
struct Output<W: Weight> {
    states: StateList<W>,
    own: Vec<FstArc<W>>,
    calls: Vec<Call>,
}

/// Where the states of a rule are put.
#[derive(Clone, Copy)]
struct Place {
    /// The number of the first of them.
    at: u32,
    /// Whether final weights stay.
    keeps: bool,
    /// Where final states go on by an epsilon arc.
    target: Option<u32>,
}

/// The final weight, where it stays.
fn kept_weight<W: Weight>(keeps: bool, last: W) -> W
    ensures { W.value result ≡ kept keeps (W.value last) }
{
    if keeps { last } else { W::zero() }
}

/// Puts a state with this final weight and these arcs behind the others.
fn put_state<W: Weight>(
    output: &mut Output<W>,
    rules: &Rules<'_, W>,
    shapes: &[Shape],
    place: Place,
    block: u32,
    last: W,
    arcs: &[FstArc<W>],
) -> Result<u32, AllocError>
    requires good { All (IsArc W.value most_states) arcs.now }
    requires sizes { length shapes.now ≡ length rules.now }
    requires starts { HasStarts (shape_at shapes.now) (rules_in (calls_in (labels_of rules.now) arcs.now)) }
    requires room { place.at + (block + blocks_size (labels_of rules.now) (shape_at shapes.now) (calls_in (labels_of rules.now) arcs.now)) ≤ most_states }
    requires arcs { arc_total output.old.states + length (carried place.at place.keeps place.target (record { final = W.value last; arcs = entered (labels_of rules.now) (shape_at shapes.now) block (map (valued_arc W.value) arcs.now) })).arcs ≤ most_arcs }
    ensures states { OnOk result (map (valued_state W.value) output.new.states ≡ map (valued_state W.value) output.old.states ++ carried place.at place.keeps place.target (record { final = W.value last; arcs = entered (labels_of rules.now) (shape_at shapes.now) block (map (valued_arc W.value) arcs.now) }) ∷ []) }
    ensures calls { OnOk result (output.new.calls.items ≡ output.old.calls.items ++ map (shifted place.at) (standing (shape_at shapes.now) (calls_in (labels_of rules.now) arcs.now))) }
    ensures next { IfOk result (λ next. next ≡ block + blocks_size (labels_of rules.now) (shape_at shapes.now) (calls_in (labels_of rules.now) arcs.now)) }
{
    output.own.clear();
    let next = put_arcs(
        &mut output.own,
        &mut output.calls,
        rules,
        shapes,
        place.at,
        block,
        arcs,
    )?;
    put_onward(&mut output.own, last, place.target)?;
    output
        .states
        .push(kept_weight(place.keeps, last), output.own.as_slice())?;
    Ok(next)
}

/// Puts the states of a machine behind the others, and its calls behind those of the list.
fn put_machine<W: Weight>(
    output: &mut Output<W>,
    rules: &Rules<'_, W>,
    shapes: &[Shape],
    place: Place,
    machine: &Fst<W>,
) -> Result<(), AllocError>
    requires sizes { length shapes.now ≡ length rules.now }
    requires starts { HasStarts (shape_at shapes.now) (rules_in (calls_in (labels_of rules.now) (arcs_of machine.now.states))) }
    requires room { place.at + (length machine.now.states + blocks_size (labels_of rules.now) (shape_at shapes.now) (calls_in (labels_of rules.now) (arcs_of machine.now.states))) ≤ most_states }
    requires arcs { arc_total output.old.states + arc_total (map (carried place.at place.keeps place.target) (entered_states (labels_of rules.now) (shape_at shapes.now) (length machine.now.states) (map (valued_state W.value) machine.now.states))) ≤ most_arcs }
    ensures states { OnOk result (map (valued_state W.value) output.new.states ≡ map (valued_state W.value) output.old.states ++ map (carried place.at place.keeps place.target) (entered_states (labels_of rules.now) (shape_at shapes.now) (length machine.now.states) (map (valued_state W.value) machine.now.states))) }
    ensures calls { OnOk result (output.new.calls.items ≡ output.old.calls.items ++ map (shifted place.at) (standing (shape_at shapes.now) (calls_in (labels_of rules.now) (arcs_of machine.now.states)))) }
{
    let mut block = machine.states();
    for state in 0..machine.states() {
        let last = machine.final_weight(state);
        let arcs = machine.arcs(state);
        block = put_state(output, rules, shapes, place, block, last, arcs)?;
    }
    Ok(())
}

/// Moves calls, the last first, behind those that wait.
fn put_waiting(waiting: &mut Vec<Call>, calls: &mut Vec<Call>) -> Result<(), AllocError>
    ensures waiting { OnOk result (waiting.new.items ≡ waiting.old.items ++ reverse calls.old.items) }
    ensures calls { OnOk result (calls.new.items ≡ []) }
{
    while let Some(call) = calls.pop() {
        waiting.push(call)?;
    }
    Ok(())
}

/// Puts the machine of the root, and makes its calls wait. Gives where the first block stands.
fn put_root<W: Weight>(
    output: &mut Output<W>,
    waiting: &mut Vec<Call>,
    rules: &Rules<'_, W>,
    shapes: &[Shape],
) -> Result<u32, AllocError>
    requires table { IsTable (valued_rules W.value rules.now) shapes.now }
    requires small { IsSmall (replaced (valued_rules W.value rules.now)) }
    requires first { output.old.states ≡ [] }
    requires clear { output.old.calls.items ≡ [] }
    requires none { waiting.old.items ≡ [] }
    ensures expanding { IfOk result (λ next. IsExpanding (valued_rules W.value rules.now) shapes.now (map (valued_state W.value) output.new.states) waiting.new.items next) }
    ensures clear { OnOk result (output.new.calls.items ≡ []) }
{
    let _rules = rules.count();
    let root = rules.machine(0);
    let place = Place {
        at: 0,
        keeps: true,
        target: None,
    };
    put_machine(output, rules, shapes, place, root)?;
    put_waiting(waiting, &mut output.calls)?;
    Ok(root.states())
}

/// Puts the block of a call, which stands at `at`, and makes its calls wait, to come before the others. Gives where
/// the next block stands.
fn put_block<W: Weight>(
    output: &mut Output<W>,
    waiting: &mut Vec<Call>,
    rules: &Rules<'_, W>,
    shapes: &[Shape],
    at: u32,
    call: Call,
) -> Result<u32, AllocError>
    requires table { IsTable (valued_rules W.value rules.now) shapes.now }
    requires small { IsSmall (replaced (valued_rules W.value rules.now)) }
    requires expanding { IsExpanding (valued_rules W.value rules.now) shapes.now (map (valued_state W.value) output.old.states) (waiting.old.items ++ call ∷ []) at }
    requires clear { output.old.calls.items ≡ [] }
    ensures expanding { IfOk result (λ next. IsExpanding (valued_rules W.value rules.now) shapes.now (map (valued_state W.value) output.new.states) waiting.new.items next) }
    ensures clear { OnOk result (output.new.calls.items ≡ []) }
    ensures further { IfOk result (λ next. (at < next) × (next ≤ most_states)) }
{
    let _rules = rules.count();
    let machine = rules.machine(call.rule);
    let place = Place {
        at,
        keeps: false,
        target: Some(call.next),
    };
    put_machine(output, rules, shapes, place, machine)?;
    put_waiting(waiting, &mut output.calls)?;
    Ok(at + machine.states())
}

/// The expansion of the root, which is not too big.
///
/// The blocks stand in the order in which they are met: a block that is made puts its own calls before those that
/// wait already. So no call of this function stands for a call of a rule, however deep the rules call each other.
pub(crate) fn expand_root<W: Weight>(
    alloc: Global,
    rules: &Rules<'_, W>,
    shapes: &[Shape],
    states: u32,
    arcs: u32,
) -> Result<Fst<W>, AllocError>
    requires table { IsTable (valued_rules W.value rules.now) shapes.now }
    requires small { IsSmall (replaced (valued_rules W.value rules.now)) }
    ensures { IfOk result (λ m. valued W.value m ≡ replaced (valued_rules W.value rules.now)) }
{
    let _rules = rules.count();
    let mut output = Output {
        states: StateList::with_capacity(alloc, states as usize, arcs as usize)?,
        own: Vec::new(alloc),
        calls: Vec::new(alloc),
    };
    let mut waiting = Vec::new(alloc);
    let mut at = put_root(&mut output, &mut waiting, rules, shapes)?;
    while let Some(call) = waiting.pop() {
        at = put_block(&mut output, &mut waiting, rules, shapes, at, call)?;
    }
    let root = rules.machine(0);
    Ok(output.states.into_machine(root.start()))
}
