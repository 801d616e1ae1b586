//! Arcs to numbers in place of names.

ghost use Rattle.std.specs.Prelude.{◌≡◌, ◌<◌, ◌≤◌, ◌+◌, ◌++◌, ◌∷◌, [], true, IfOk, MatchOption, length, map};
ghost use Rattle.std.specs.Bool.{Decides};
ghost use Rattle.fst_semiring.specs.Semiring.{InRange};
ghost use Rattle.fst_machine.specs.Graph.{nexts};
ghost use Rattle.fst_machine.specs.Machine.{arc_total, most_arcs, valued_arc};
ghost use Rattle.fst_walk.specs.Making.{Passes, PutsArcs};
ghost use Rattle.fst_walk.specs.Names.{key_arc};

use crate::names::NameArc;
use crate::table::{NameTable, find};
use fst_keys::Coded;
use fst_machine::{FstArc, OpenList, WideArc};
use fst_semiring::Weight;
use std::alloc::AllocError;

/// Puts an arc behind those of the open state, if those before it fit and its weight is in range; and gives whether this
/// is so.
fn put_arc<W: Weight>(
    states: &mut OpenList<W>,
    fits: bool,
    arc: WideArc<W>,
) -> Result<bool, AllocError>
    requires room { fits ≡ true → arc_total states.old.states + length states.old.arcs < most_arcs }
    ensures range { IfOk result (λ r. Decides r ((fits ≡ true) × InRange (W.wide_value arc.weight))) }
    ensures put { IfOk result (λ r. r ≡ true → map (valued_arc W.value) states.new.arcs ≡ map (valued_arc W.value) states.old.arcs ++ valued_arc W.wide_value arc ∷ []) }
    ensures others { states.new.states ≡ states.old.states }
{
    if !fits {
        return Ok(false);
    }
    let Some(weight) = W::narrow(arc.weight) else {
        return Ok(false);
    };
    states.put_arc(FstArc {
        ilabel: arc.ilabel,
        olabel: arc.olabel,
        weight,
        next: arc.next,
    })?;
    Ok(true)
}

/// So many names are more than the processor has at hand.
const MANY: usize = 8192;

/// Of so many arcs at least it pays to look at their names beforehand.
const SEVERAL: usize = 4;

/// And of so many at most what is found stays at hand.
const AT_ONCE: usize = 256;

/// Makes room for the names to which these arcs lead, if there are many names already: they are looked at side by side,
/// before each is looked up and waited for.
pub(crate) fn expect_names<K: Coded, W: Weight>(
    names: &mut NameTable<K>,
    made: &[NameArc<K, W>],
) -> Result<(), AllocError>
    ensures { names.new ≡ names.old }
{
    if names.len() < MANY || made.len() < SEVERAL {
        return Ok(());
    }
    for arc in &made[..made.len().min(AT_ONCE)] {
        names.expect(&arc.next)?;
    }
    names.make_room()
}

/// Finds the names to which these arcs lead, and puts the arcs, numbered, behind those of the open state, if those before
/// them fit, and as far as their weights are in range. Gives whether all are put; `None` where there are more names than the
/// limit. The names move into the table.
pub(crate) fn number_arcs<K: Coded, W: Weight>(
    states: &mut OpenList<W>,
    names: &mut NameTable<K>,
    made: &mut Vec<NameArc<K, W>>,
    fits: bool,
    limit: u32,
) -> Result<Option<bool>, AllocError>
    requires few { length names.old ≤ limit }
    requires room { fits ≡ true → arc_total states.old.states + length states.old.arcs + length made.old.items ≤ most_arcs }
    ensures put { IfOk result (λ found. MatchOption found (Passes limit names.old (nexts (map (key_arc W.wide_value) made.old.items))) (PutsArcs limit (fits ≡ true) (map (key_arc W.wide_value) made.old.items) names.old names.new (map (valued_arc W.value) states.old.arcs) (map (valued_arc W.value) states.new.arcs))) }
    ensures others { states.new.states ≡ states.old.states }
{
    let mut fits = fits;
    for arc in made.drain(..) {
        let NameArc {
            ilabel,
            olabel,
            weight,
            next,
        } = arc;
        let Some(next) = find(names, next, limit)? else {
            return Ok(None);
        };
        let arc = FstArc {
            ilabel,
            olabel,
            weight,
            next,
        };
        fits = put_arc(states, fits, arc)?;
    }
    Ok(Some(fits))
}
