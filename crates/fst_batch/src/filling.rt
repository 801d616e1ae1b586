//! The states of a machine that is filled.

ghost use Rattle.std.specs.Prelude.{◌≡◌, ◌<◌, ◌≤◌, All, ℕ, IfOk, OnOk, Some, length, map, slice_get};
ghost use Rattle.fst_semiring.specs.Cost.{Cost, infinite};
ghost use Rattle.fst_machine.specs.Machine.{IsArc, State, bare_state, changed, valued_state};
ghost use Rattle.fst_batch.specs.Filling.{filled};

use fst_machine::{WideArc, WideFst};
use fst_semiring::Weight;
use std::alloc::{AllocError, Global};

/// A machine of so many states without arcs, of which none is final and the first is the start.
pub(crate) fn blank_machine<W: Weight>(
    alloc: Global,
    count: usize,
) -> Result<WideFst<W>, AllocError>
    requires { 0 < count }
    ensures start { IfOk result (λ fst. fst.start ≡ Some 0) }
    ensures size { IfOk result (λ fst. length fst.states ≡ count) }
    ensures bare { IfOk result (λ fst. (j : ℕ) (s : State Cost) → slice_get (map (valued_state W.wide_value) fst.states) j ≡ Some s → s ≡ bare_state infinite) }
{
    let mut fst = WideFst::new(alloc);
    for _ in 0..count {
        if fst.add_state().is_err() {
            return Err(AllocError);
        }
    }
    fst.set_start(0);
    Ok(fst)
}

/// Gives a state its final weight, and arcs behind those that it has.
pub(crate) fn fill_state<W: Weight>(
    fst: &mut WideFst<W>,
    state: u32,
    last: W::Wide,
    arcs: &[WideArc<W>],
) -> Result<(), AllocError>
    requires state { state < length fst.old.states }
    requires arcs { All (IsArc W.wide_value (length fst.old.states)) arcs.now }
    ensures { OnOk result (fst.new ≡ record fst.old { states = changed (filled last arcs.now) fst.old.states state }) }
{
    fst.set_final(state, last);
    for arc in arcs {
        if fst.add_arc(state, *arc).is_err() {
            return Err(AllocError);
        }
    }
    Ok(())
}
