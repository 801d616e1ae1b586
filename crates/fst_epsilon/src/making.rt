//! The result while it is made, state by state.

ghost use Rattle.std.specs.Prelude.{◌≡◌, ◌≤◌, ◌+◌, ◌++◌, ◌∷◌, [], All, List, true, IfOk, MatchOption, OnOk, length, map};
ghost use Rattle.std.specs.Bool.{Decides};
ghost use Rattle.fst_semiring.specs.Cost.{Cost};
ghost use Rattle.fst_semiring.specs.Semiring.{InRange};
ghost use Rattle.fst_machine.specs.Machine.{State, arc_total, most_arcs, valued_arc, valued_state};
ghost use Rattle.fst_machine.specs.Narrowing.{IsInRange};
ghost use Rattle.fst_epsilon.specs.Making.{IsMade};

use fst_machine::{FstArc, MOST_ARCS, StateList, WideArc, narrow_state};
use fst_semiring::Weight;
use std::alloc::{AllocError, Global};

/// The states that were made.
#[derive(Drop)]
pub(crate) struct Output<W: Weight> {
    /// The states, up to the first that does not fit.
    pub(crate) states: StateList<W>,
    /// How many arcs all that were made have.
    pub(crate) total: usize,
    /// The first of them that has a weight out of range.
    pub(crate) overflow: Option<u32>,
    /// The arcs of one state.
    pub(crate) row: Vec<FstArc<W>>,
}

impl<W: Weight> Output<W> {
    /// No states, and room for so many states and arcs.
    pub(crate) fn new(alloc: Global, states: usize, arcs: usize) -> Result<Output<W>, AllocError>
        ensures { IfOk result (λ o. IsMade [] (map (valued_state W.value) o.states) o.total o.overflow) }
    {
        Ok(Output {
            states: StateList::with_capacity(alloc, states, arcs)?,
            total: 0,
            overflow: None,
            row: Vec::new(alloc),
        })
    }
}

/// Puts a state after the others, if its weights and those before it are in range and the arcs are not too many.
pub(crate) fn put_state<W: Weight>(
    output: &mut Output<W>,
    state: u32,
    last: W::Wide,
    arcs: &[WideArc<W>],
) -> Result<(), AllocError>
    requires { (all : List (State Cost)) × (length all ≡ state) × IsMade all (map (valued_state W.value) output.old.states) output.old.total output.old.overflow }
    ensures { OnOk result ((all : List (State Cost)) → length all ≡ state → IsMade all (map (valued_state W.value) output.old.states) output.old.total output.old.overflow → IsMade (all ++ valued_state W.wide_value (record { final = last; arcs = arcs.now }) ∷ []) (map (valued_state W.value) output.new.states) output.new.total output.new.overflow) }
{
    output.total = output.total.saturating_add(arcs.len());
    if output.total > MOST_ARCS as usize || output.overflow.is_some() {
        return Ok(());
    }
    if !narrow_state(&mut output.states, &mut output.row, last, arcs)? {
        output.overflow = Some(state);
    }
    Ok(())
}

/// Puts a state whose weights are in range after the others, if those before it are and the arcs are not too many.
pub(crate) fn put_near<W: Weight>(
    output: &mut Output<W>,
    last: W,
    arcs: &[FstArc<W>],
) -> Result<(), AllocError>
    requires range { IsInRange (valued_state W.value (record { final = last; arcs = arcs.now })) }
    requires made { (all : List (State Cost)) × IsMade all (map (valued_state W.value) output.old.states) output.old.total output.old.overflow }
    ensures { OnOk result ((all : List (State Cost)) → IsMade all (map (valued_state W.value) output.old.states) output.old.total output.old.overflow → IsMade (all ++ valued_state W.value (record { final = last; arcs = arcs.now }) ∷ []) (map (valued_state W.value) output.new.states) output.new.total output.new.overflow) }
{
    output.total = output.total.saturating_add(arcs.len());
    if output.total > MOST_ARCS as usize || output.overflow.is_some() {
        return Ok(());
    }
    output.states.push(last, arcs)?;
    Ok(())
}
