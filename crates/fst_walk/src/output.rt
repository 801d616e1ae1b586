//! What a walk has made so far.

ghost use Rattle.std.specs.Prelude.{◌≡◌, ◌≤◌, ◌+◌, [], ℕ, true, None, OnOk, map};
ghost use Rattle.std.specs.Bool.{Decides};
ghost use Rattle.fst_machine.specs.Machine.{most_arcs, valued_arc, valued_state};
ghost use Rattle.fst_walk.specs.Making.{IsCounted, PutsState};

use crate::names::NameArc;
use crate::table::NameTable;
use fst_keys::Coded;
use fst_machine::{MOST_ARCS, OpenList};
use fst_semiring::Weight;
use std::alloc::AllocError;

/// The count with so many more; one above the greatest number of arcs stands for all above it.
pub(crate) fn counted(total: u32, more: usize) -> u32
    requires { total ≤ most_arcs + 1 }
    ensures count { (n : ℕ) → IsCounted total n → IsCounted result (n + more) }
    ensures few { result ≤ most_arcs + 1 }
{
    let total = total as usize;
    let most = MOST_ARCS as usize;
    if total > most || more > most - total {
        return MOST_ARCS + 1;
    }
    (total + more) as u32
}

/// What a walk has made so far.
#[derive(Drop)]
pub(crate) struct Output<K: Coded, W: Weight> {
    /// The names that were found.
    pub(crate) names: NameTable<K>,
    /// The states of those whose arcs were followed, up to the first that does not fit, and the arcs of the next, which are
    /// put where they stay.
    pub(crate) states: OpenList<W>,
    /// How many arcs those whose arcs were followed have, as `counted` gives it.
    pub(crate) total: u32,
    /// The first of them that has a weight out of range, as long as the arcs are not too many.
    pub(crate) overflow: Option<u32>,
    /// The arcs of one name, to names.
    pub(crate) made: Vec<NameArc<K, W>>,
}

/// Whether all fits so far and the arcs are not too many. Else no machine is made, and no arc is put.
pub(crate) fn still_fits(fits: bool, total: u32) -> bool
    ensures { Decides result ((fits ≡ true) × (total ≤ most_arcs)) }
{
    if total > MOST_ARCS {
        return false;
    }
    fits
}

/// Puts the open state, which is that of a name, after the others, if all states so far fit. Where they do not, it stays
/// open.
pub(crate) fn put_state<K: Coded, W: Weight>(
    output: &mut Output<K, W>,
    place: u32,
    fits: bool,
    last: W::Wide,
) -> Result<(), AllocError>
    ensures put { OnOk result (PutsState place fits (W.wide_value last) (map (valued_arc W.value) output.old.states.arcs) output.old.total output.old.overflow output.new.overflow (map (valued_state W.value) output.old.states.states) (map (valued_state W.value) output.new.states.states)) }
    ensures closed { OnOk result (output.new.overflow ≡ None → output.new.total ≤ most_arcs → output.new.states.arcs ≡ []) }
    ensures names { output.new.names ≡ output.old.names }
    ensures total { output.new.total ≡ output.old.total }
{
    if output.total > MOST_ARCS || output.overflow.is_some() {
        return Ok(());
    }
    if !fits {
        output.overflow = Some(place);
        return Ok(());
    }
    let Some(last) = W::narrow(last) else {
        output.overflow = Some(place);
        return Ok(());
    };
    output.states.close(last)?;
    Ok(())
}
