//! Machines of a given size.

ghost use Rattle.std.specs.Prelude.{◌≡◌, ◌+◌, IfOk, length};

use fst_machine::{Fst, FstArc, GrowFault};
use fst_semiring::{Tropical, Weight};
use std::alloc::Global;

/// So many states without arcs, and no start.
pub fn bare_states(alloc: Global, count: u32) -> Result<Fst<Tropical>, GrowFault>
    ensures { IfOk result (λ m. length m.states ≡ count) }
{
    let mut fst: Fst<Tropical> = Fst::new(alloc);
    for _ in 0..count {
        fst.add_state()?;
    }
    Ok(fst)
}

/// So many arcs in a row, each with the labels 1 and weight One. The start is the first state, and the last one is
/// final.
pub fn chain(alloc: Global, arcs: u32) -> Result<Fst<Tropical>, GrowFault>
    ensures { IfOk result (λ m. length m.states ≡ arcs + 1) }
{
    let mut fst: Fst<Tropical> = Fst::new(alloc);
    let mut last = fst.add_state()?;
    fst.set_start(last);
    for _ in 0..arcs {
        let next = fst.add_state()?;
        let arc = FstArc {
            ilabel: 1,
            olabel: 1,
            weight: Tropical::one(),
            next,
        };
        fst.add_arc(last, arc)?;
        last = next;
    }
    fst.set_final(last, Tropical::one());
    Ok(fst)
}
