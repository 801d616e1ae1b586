//! What is known of states before their ends are: their final weights, labels and weights as rows of numbers.

ghost use Rattle.std.specs.Prelude.{◌≡◌, ◌<◌, ◌+◌, ◌∷◌, ◌++◌, [], ℕ, List, IfOk, OnOk, Some, length, map, slice_get};
ghost use Rattle.std.specs.List.Sorted.{IsNonDecreasingBy, IsPermutation};
ghost use Rattle.fst_machine.specs.BreadthFirst.{Apart};
ghost use Rattle.fst_machine.specs.Graph.{graph_of, nexts};
ghost use Rattle.fst_machine.specs.Machine.{Arc, valued_arc};
ghost use Rattle.fst_semiring.specs.Cost.{Cost};
ghost use Rattle.fst_machine.specs.Graph.{Graph};
ghost use Rattle.fst_minimize.specs.Described.{DescribedBy, IsDescribed, IsDescription, OfKind, OncePlacedAll};
ghost use Rattle.fst_minimize.specs.Numbered.{IsNumbering, TellsApart};
ghost use Rattle.fst_minimize.specs.Saying.{Extends, IsByLabel, SaysArcs};

use crate::numberer::{Numberer, Numbering};
use crate::rows::Rows;
use crate::weights::{WeightKey, key_of, number_weight};
use fst_distance::Pushing;
use fst_keys::KeySet;
use fst_machine::WideArc;
use fst_semiring::Weight;
use std::alloc::{AllocError, Global};

/// Fills a list with the labels of these arcs and the numbers of their weights, in turn.
fn put_said<W: Weight>(
    said: &mut Vec<u32>,
    keys: &mut KeySet<WeightKey>,
    arcs: &[WideArc<W>],
) -> Result<(), AllocError>
    requires apart { Apart keys.old }
    ensures says { OnOk result (SaysArcs keys.new (map (valued_arc W.wide_value) arcs.now) said.new.items) }
    ensures apart { OnOk result (Apart keys.new) }
    ensures more { OnOk result (Extends keys.old keys.new) }
{
    said.clear();
    for arc in arcs {
        let weight = number_weight(keys, key_of::<W>(arc.weight))?;
        said.push(arc.ilabel)?;
        said.push(weight)?;
    }
    Ok(())
}

/// Fills a list with the states to which these arcs lead.
fn put_ends<W: Weight>(ends: &mut Vec<u32>, arcs: &[WideArc<W>]) -> Result<(), AllocError>
    ensures { OnOk result (ends.new.items ≡ map (λ a. a.next) arcs.now) }
{
    ends.clear();
    for arc in arcs {
        ends.push(arc.next)?;
    }
    Ok(())
}

/// Puts arcs in the order of their labels.
fn sort_arcs<W: Weight>(arcs: &mut Vec<WideArc<W>>) -> Result<(), AllocError>
    ensures same { OnOk result (IsPermutation arcs.old.items arcs.new.items) }
    ensures sorted { OnOk result (IsNonDecreasingBy (λ (a : Arc W.Wide ℕ). a.ilabel) arcs.new.items) }
{
    arcs.sort_by_key(|arc| arc.ilabel)?;
    Ok(())
}

/// States that are being described, each by a row of numbers, which is numbered at once, and by the ends of its arcs.
#[derive(Drop)]
pub(crate) struct Describer {
    said: Vec<u32>,
    ends: Vec<u32>,
    keys: KeySet<WeightKey>,
    numberer: Numberer,
    rows: Rows,
}

/// Describes a state by its arcs, which stand by their labels, and its final weight.
fn add_state<W: Weight>(
    describer: &mut Describer,
    arcs: &[WideArc<W>],
    last: W::Wide,
) -> Result<(), AllocError>
    requires apart { Apart describer.old.keys }
    ensures described { OnOk result ((g : Graph ℕ) (done : ℕ) → IsByLabel (g.arcs done) (map (valued_arc W.wide_value) arcs.now) → g.final done ≡ W.wide_value last → IsDescribed g done describer.old → IsDescribed g (done + 1) describer.new) }
    ensures apart { OnOk result (Apart describer.new.keys) }
{
    let head = number_weight(&mut describer.keys, key_of::<W>(last))?;
    put_said::<W>(&mut describer.said, &mut describer.keys, arcs)?;
    put_ends::<W>(&mut describer.ends, arcs)?;
    describer.numberer.add(head, &describer.said)?;
    describer.rows.push(&describer.ends)?;
    Ok(())
}

impl Describer {
    /// No states, and room for the rows of so many states with so many arcs.
    fn with_capacity(alloc: Global, states: usize, arcs: usize) -> Result<Describer, AllocError>
        ensures described { IfOk result (λ d. (g : Graph ℕ) → IsDescribed g 0 d) }
        ensures apart { IfOk result (λ d. Apart d.keys) }
    {
        Ok(Describer {
            said: Vec::new(alloc),
            ends: Vec::new(alloc),
            keys: KeySet::new(alloc),
            numberer: Numberer::with_capacity(alloc, states)?,
            rows: Rows::with_capacity(alloc, states, arcs)?,
        })
    }

    /// What was described.
    fn finish(self) -> Description
        ensures { (g : Graph ℕ) (n : ℕ) → IsDescribed g n self → IsDescription g n result.first.numbers.items result.first.least.items result.rows }
    {
        Description {
            first: self.numberer.finish(),
            rows: self.rows,
        }
    }
}

/// Describes a state of a pushed machine.
fn describe_state<W: Weight>(
    describer: &mut Describer,
    arcs: &mut Vec<WideArc<W>>,
    pushed: &Pushing<'_, W>,
    state: u32,
) -> Result<(), AllocError>
    requires apart { Apart describer.old.keys }
    requires once { OncePlacedAll (graph_of pushed.now) }
    requires state { state < length pushed.now.states }
    ensures described { OnOk result (IsDescribed (graph_of pushed.now) state describer.old → IsDescribed (graph_of pushed.now) (state + 1) describer.new) }
    ensures apart { OnOk result (Apart describer.new.keys) }
    ensures kind { OnOk result (OfKind W.KIND (graph_of pushed.now) state) }
{
    pushed.put_arcs(arcs, state)?;
    sort_arcs::<W>(arcs)?;
    add_state::<W>(describer, arcs, pushed.final_weight(state))?;
    Ok(())
}

/// States that were described.
#[derive(Drop)]
pub(crate) struct Description {
    /// Their numbers by final weights, labels and weights.
    pub(crate) first: Numbering,
    /// For each the ends of its arcs, by their labels.
    pub(crate) rows: Rows,
}

/// Describes the states of a machine.
pub(crate) fn describe<W: Weight>(
    alloc: Global,
    pushed: &Pushing<'_, W>,
) -> Result<Description, AllocError>
    requires once { OncePlacedAll (graph_of pushed.now) }
    ensures described { IfOk result (λ d. IsDescription (graph_of pushed.now) (length pushed.now.states) d.first.numbers.items d.first.least.items d.rows) }
    ensures kind { OnOk result ((p : ℕ) → p < length pushed.now.states → OfKind W.KIND (graph_of pushed.now) p) }
{
    let states = pushed.states();
    let arc_count = pushed.arc_count() as usize;
    let mut describer = Describer::with_capacity(alloc, states as usize, arc_count)?;
    let mut arcs = Vec::new(alloc);
    for state in 0..states {
        describe_state(&mut describer, &mut arcs, pushed, state)?;
    }
    Ok(describer.finish())
}
