//! Wide machines as machines, where their weights are in range.

ghost use Rattle.std.specs.Prelude.{◌≡◌, ◌≤◌, ◌+◌, ◌∷◌, ◌++◌, [], true, OnOk, IfOk, IfErr, MatchOption, All, length, map};
ghost use Rattle.std.specs.Bool.{Decides};
ghost use Rattle.fst_semiring.specs.Semiring.{InRange};
ghost use Rattle.fst_machine.specs.Machine.{IsMachine, arc_total, most_arcs, valued, valued_arc, valued_state};
ghost use Rattle.fst_machine.specs.Narrowing.{IsCause, IsInRange, Overflows};

use crate::arc::FstArc;
use crate::fst::{Fst, StateList};
use crate::wide::{WideArc, WideFst};
use fst_semiring::Weight;
use std::alloc::{AllocError, Global};

/// Why a wide machine is not narrowed.
#[derive(Clone, Copy, Debug, PartialEq, Eq)]
pub enum NarrowFault {
    /// The final weight or the weight of an arc of this state has a number of absolute value above 10 to the 18,
    /// and no state before it has one.
    Overflow {
        /// The number of the state.
        state: u32,
    },
    /// There is no memory.
    Memory,
}

impl From<AllocError> for NarrowFault {
    ghost use Rattle.std.specs.Prelude.{◌≡◌};
    ghost use Rattle.fst_machine.specs.declared.narrow.NarrowFault.TheVariants as faults;

    ghost from_gives = { λ _ e. e ≡ faults.Memory };

    fn from(_e: AllocError) -> NarrowFault {
        NarrowFault::Memory
    }
}

/// The same arc; `None` exactly where a number of its weight is past the range.
fn narrow_arc<W: Weight>(arc: WideArc<W>) -> Option<FstArc<W>>
    ensures { MatchOption result (InRange (W.wide_value arc.weight) → ⊥) (λ own. (valued_arc W.value own ≡ valued_arc W.wide_value arc) × InRange (W.wide_value arc.weight)) }
{
    let weight = W::narrow(arc.weight)?;
    Some(FstArc {
        ilabel: arc.ilabel,
        olabel: arc.olabel,
        weight,
        next: arc.next,
    })
}

/// Makes `row` the same arcs, and tells whether all are in range; where one is not, `row` is part of them.
fn narrow_arcs<W: Weight>(arcs: &[WideArc<W>], row: &mut Vec<FstArc<W>>) -> Result<bool, AllocError>
    ensures fits { IfOk result (λ fits. Decides fits (All (λ a. InRange a.weight) (map (valued_arc W.wide_value) arcs.now))) }
    ensures row { IfOk result (λ fits. fits ≡ true → map (valued_arc W.value) row.new.items ≡ map (valued_arc W.wide_value) arcs.now) }
{
    row.clear();
    for arc in arcs {
        match narrow_arc::<W>(*arc) {
            Some(own) => row.push(own)?,
            None => return Ok(false),
        }
    }
    Ok(true)
}

/// Puts a state with this final weight and these arcs behind the others, and tells whether its weights are in range;
/// where they are not, it is not put. The row is a buffer.
///
/// Time: O(a), where a is the number of arcs.
pub fn narrow_state<W: Weight>(
    list: &mut StateList<W>,
    row: &mut Vec<FstArc<W>>,
    last: W::Wide,
    arcs: &[WideArc<W>],
) -> Result<bool, AllocError>
    requires { arc_total list.old + length arcs.now ≤ most_arcs }
    ensures fits { IfOk result (λ fits. Decides fits (IsInRange (valued_state W.wide_value (record { final = last; arcs = arcs.now })))) }
    ensures list { IfOk result (λ fits. fits ≡ true → map (valued_state W.value) list.new ≡ map (valued_state W.value) list.old ++ valued_state W.wide_value (record { final = last; arcs = arcs.now }) ∷ []) }
{
    let Some(own) = W::narrow(last) else {
        return Ok(false);
    };
    if !narrow_arcs::<W>(arcs, row)? {
        return Ok(false);
    }
    list.push(own, row.as_slice())?;
    Ok(true)
}

/// The same states, and what holds of the wide machine.
fn narrow_states<W: Weight>(alloc: Global, wide: &WideFst<W>) -> Result<StateList<W>, NarrowFault>
    ensures states { IfOk result (λ list. map (valued_state W.value) list ≡ (valued W.wide_value wide.now).states) }
    ensures fits { OnOk result (All IsInRange (valued W.wide_value wide.now).states) }
    ensures machine { IsMachine W.wide_value wide.now }
    ensures fault { IfErr result (λ fault. IsCause (valued W.wide_value wide.now) fault) }
{
    let states = wide.states();
    let mut list = StateList::with_capacity(alloc, states as usize, wide.arc_count() as usize)?;
    let mut row = Vec::new(alloc);
    for state in 0..states {
        let last = wide.final_weight(state);
        if !narrow_state(&mut list, &mut row, last, wide.arcs(state))? {
            return Err(NarrowFault::Overflow { state });
        }
    }
    Ok(list)
}

/// The same machine. `Overflow` exactly where a number of some weight has absolute value above 10 to the 18, with
/// the least state that has such a weight as its final weight or on an arc; only `Memory` may come before it.
///
/// Time: O(v + e). Space: O(v + e), where v is the number of states and e the number of arcs.
pub fn narrow_all<W: Weight>(alloc: Global, wide: &WideFst<W>) -> Result<Fst<W>, NarrowFault>
    ensures machine { IfOk result (λ m. valued W.value m ≡ valued W.wide_value wide.now) }
    ensures fits { OnOk result (All IsInRange (valued W.wide_value wide.now).states) }
    ensures overflow { Overflows (valued W.wide_value wide.now) result }
{
    match narrow_states(alloc, wide) {
        Ok(list) => Ok(list.into_machine(wide.start())),
        Err(fault) => Err(fault),
    }
}
