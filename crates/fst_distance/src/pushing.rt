//! A machine with its weights pushed toward the start.

ghost use Rattle.std.specs.Prelude.{◌≡◌, ◌≢◌, ◌<◌, ◌≤◌, ◌+◌, All, OnOk, Some, IfSome, length, map, slice_get};
ghost use Rattle.std.specs.Bool.{Decides};
ghost use Rattle.std.specs.Option.{option_map};
ghost use Rattle.fst_semiring.specs.Cost.{infinite, plus};
ghost use Rattle.fst_semiring.specs.Semiring.{IsCost, IsWide, Within, times};
ghost use Rattle.fst_semiring.specs.Division.{push_quotient};
ghost use Rattle.fst_machine.specs.Graph.{graph_of};
ghost use Rattle.fst_machine.specs.Machine.{IsMachine, arc_total, valued, valued_arc};
ghost use Rattle.fst_distance.specs.Pushing.{pushed_by, pushed_machine, value_at};
ghost use Rattle.fst_distance.specs.Totals.{IsEntered};
ghost use Rattle.fst_trim.specs.Handed.{machine_of};
ghost use Rattle.fst_distance.specs.Values.{HasDistances, LeadsTo, most_distance, most_pushed, value_in};

use fst_machine::{FstArc, WideArc};
use fst_semiring::Weight;
use fst_trim::Handed;
use std::alloc::AllocError;
use std::cmp::Ordering;
use std::marker::Model;

/// Push division: One where the two are equal, else subset division.
fn push_divide<W: Weight>(weight: W::Wide, by: W::Wide) -> W::Wide
    requires by_not_zero { W.wide_value by ≢ infinite }
    requires by_no_worse { plus (W.wide_value by) (W.wide_value weight) ≡ W.wide_value by }
    requires weight_wide { IsWide (W.wide_value weight) }
    requires by_wide { IsWide (W.wide_value by) }
    ensures quotient { W.wide_value result ≡ push_quotient W.KIND (W.wide_value weight) (W.wide_value by) }
    ensures kind { IsCost W.KIND (W.wide_value result) }
{
    match W::wide_compare(weight, by) {
        Ordering::Equal => W::one().widen(),
        _ => W::wide_divide(weight, by),
    }
}

/// The weight Times the distance of the end of its arc, divided by the distance of the state that it leaves.
fn push_weight<W: Weight>(weight: W, next: W::Wide, own: W::Wide) -> W::Wide
    requires own_not_zero { W.wide_value own ≢ infinite }
    requires no_worse { plus (W.wide_value own) (times W.KIND (W.value weight) (W.wide_value next)) ≡ W.wide_value own }
    requires next_within { Within most_distance (W.wide_value next) }
    requires own_within { Within most_distance (W.wide_value own) }
    ensures pushed { W.wide_value result ≡ push_quotient W.KIND (times W.KIND (W.value weight) (W.wide_value next)) (W.wide_value own) }
    ensures kind { IsCost W.KIND (W.wide_value result) }
    ensures range { Within most_pushed (W.wide_value result) }
{
    let product = W::wide_times(weight.widen(), next);
    push_divide::<W>(product, own)
}

/// Fills a list with these arcs, their weights pushed.
fn put_pushed<W: Weight>(
    out: &mut Vec<WideArc<W>>,
    arcs: &[FstArc<W>],
    distances: &[W::Wide],
    own: W::Wide,
) -> Result<(), AllocError>
    requires ends { All (λ a. a.next < length distances.now) arcs.now }
    requires own_not_zero { W.wide_value own ≢ infinite }
    requires own_within { Within most_distance (W.wide_value own) }
    requires next_within { All (λ d. Within most_distance (W.wide_value d)) distances.now }
    requires no_worse { All (λ a. plus (W.wide_value own) (times W.KIND (W.value a.weight) (value_in W.wide_value distances.now a.next)) ≡ W.wide_value own) arcs.now }
    ensures arcs { OnOk result (map (valued_arc W.wide_value) out.new.items ≡ map (λ a. pushed_by W.KIND (value_in W.wide_value distances.now) (W.wide_value own) (valued_arc W.value a)) arcs.now) }
    ensures good { OnOk result (All (λ a. IsCost W.KIND (W.wide_value a.weight) × Within most_pushed (W.wide_value a.weight)) out.new.items) }
{
    out.clear();
    for arc in arcs {
        let next = distances[arc.next as usize];
        let weight = push_weight::<W>(arc.weight, next, own);
        out.push(FstArc {
            ilabel: arc.ilabel,
            olabel: arc.olabel,
            weight,
            next: arc.next,
        })?;
    }
    Ok(())
}

/// Whether one of these arcs leads to a state.
fn leads_to<W: Weight>(arcs: &[FstArc<W>], state: u32) -> bool
    ensures { LeadsTo arcs.now state result }
{
    for arc in arcs {
        if arc.next == state {
            return true;
        }
    }
    false
}

/// A trim machine with its weights pushed by the distances of its states to the final states. The weights are computed
/// where they are asked for, so that no second machine is kept.
#[derive(Drop)]
pub struct Pushing<'a, W: Weight> {
    fst: Handed<'a, W>,
    distances: Vec<W::Wide>,
}

impl<'a, W: Weight> Model for Pushing<'a, W> {
    ghost use Rattle.std.specs.Prelude.{◌≡◌, length};
    ghost use Rattle.fst_semiring.specs.Cost.{Cost};
    ghost use Rattle.fst_machine.specs.Machine.{Machine, valued};
    ghost use Rattle.fst_trim.specs.Handed.{machine_of};
    ghost use Rattle.fst_distance.specs.Pushing.{pushed_machine};
    ghost use Rattle.fst_distance.specs.Values.{HasDistances, value_in};

    ghost Value = { Machine Cost };

    ghost view = { λ p. pushed_machine W.KIND (value_in W.wide_value p.distances.items) (valued W.value (machine_of p.fst)) };

    ghost invariant = { λ p. (length p.distances.items ≡ length (machine_of p.fst).states) × HasDistances W.KIND (valued W.value (machine_of p.fst)) (value_in W.wide_value p.distances.items) };
}

impl<'a, W: Weight> Pushing<'a, W> {
    /// A trim machine, pushed by its distances. Takes no memory.
    pub fn new(fst: Handed<'a, W>, distances: Vec<W::Wide>) -> Pushing<'a, W>
        requires size { length distances.items ≡ length (machine_of fst).states }
        requires distances { HasDistances W.KIND (valued W.value (machine_of fst)) (value_in W.wide_value distances.items) }
        ensures { result ≡ pushed_machine W.KIND (value_in W.wide_value distances.items) (valued W.value (machine_of fst.entry)) }
    {
        Pushing { fst, distances }
    }

    /// The start; `None` exactly where there is none. Takes no memory.
    pub fn start(&self) -> Option<u32>
        ensures { result ≡ self.now.start }
    {
        self.fst.fst().start()
    }

    /// The number of states, and with it what holds of the machine. Takes no memory.
    pub fn states(&self) -> u32
        ensures value { result ≡ length self.now.states }
        ensures machine { IsMachine (λ v. v) self.now }
    {
        self.fst.fst().states()
    }

    /// The number of arcs of all states together. Takes no memory.
    pub fn arc_count(&self) -> u32
        ensures { result ≡ arc_total self.now.states }
    {
        self.fst.fst().arc_count()
    }

    /// The number of arcs of a state. Takes no memory.
    pub(crate) fn arcs_of(&self, state: u32) -> usize
        requires { state < length self.now.states }
        ensures { result ≡ length ((graph_of self.now).arcs state) }
    {
        self.fst.fst().arcs(state).len()
    }

    /// Whether an arc leads to a state. Takes no memory.
    pub(crate) fn is_entered(&self, state: u32) -> bool
        ensures { Decides result (IsEntered self.now state) }
    {
        let fst = self.fst.fst();
        for from in 0..fst.states() {
            if leads_to(fst.arcs(from), state) {
                return true;
            }
        }
        false
    }

    /// The final weight of a state, pushed. Takes no memory.
    pub fn final_weight(&self, state: u32) -> W::Wide
        requires { state < length self.now.states }
        ensures value { W.wide_value result ≡ (graph_of self.now).final state }
        ensures kind { IsCost W.KIND (W.wide_value result) }
        ensures range { Within most_pushed (W.wide_value result) }
    {
        let last = self.fst.fst().final_weight(state);
        push_divide::<W>(last.widen(), self.distances[state as usize])
    }

    /// Fills a list with the arcs of a state, their weights pushed.
    pub fn put_arcs(&self, out: &mut Vec<WideArc<W>>, state: u32) -> Result<(), AllocError>
        requires { state < length self.now.states }
        ensures arcs { OnOk result (map (valued_arc W.wide_value) out.new.items ≡ (graph_of self.now).arcs state) }
        ensures good { OnOk result (All (λ a. IsCost W.KIND (W.wide_value a.weight) × Within most_pushed (W.wide_value a.weight)) out.new.items) }
    {
        let fst = self.fst.fst();
        let _states = fst.states();
        let own = self.distances[state as usize];
        put_pushed::<W>(out, fst.arcs(state), &self.distances, own)?;
        Ok(())
    }
}
