//! The states of a machine, changed one by one.

ghost use Rattle.std.specs.Prelude.{◌≡◌, ◌<◌, ◌≤◌, ◌+◌, ◌++◌, ◌∷◌, [], All, IfSome, OnOk, length, map};
ghost use Rattle.fst_machine.specs.Graph.{renamed};
ghost use Rattle.fst_machine.specs.Machine.{IsArc, arc_total, most_arcs, most_states, valued_arc, valued_state};
ghost use Rattle.fst_rational.specs.Changing.{changed_state, goings, onward};
ghost use Rattle.fst_rational.specs.Constructions.{entry, kept};

use fst_machine::{Fst, FstArc, StateList};
use fst_semiring::{Weight, is_zero};
use std::alloc::AllocError;

/// What a construction makes of each state.
pub(crate) trait Change<W: Weight> {
    ghost use Rattle.std.specs.Prelude.{ℕ, Option};
    ghost use Rattle.fst_semiring.specs.Cost.{Cost};
    ghost use Rattle.fst_machine.specs.Machine.{Arc};

    /// When the states of a machine can be changed.
    ghost ready: { Self → Type 0 };

    /// What becomes of an arc.
    ghost changed_arc: { Self → Arc Cost ℕ → Arc Cost ℕ };

    /// What becomes of a final weight.
    ghost changed_final: { Self → Cost → Cost };

    /// Where final states go on by an epsilon arc.
    ghost target: { Self → Option ℕ };

    /// What becomes of an arc.
    fn arc(&self, arc: FstArc<W>) -> FstArc<W>
        requires ready { ready self.now }
        requires good { IsArc W.value most_states arc }
        ensures { valued_arc W.value result ≡ changed_arc self.now (valued_arc W.value arc) };

    /// What becomes of a final weight.
    fn last(&self, last: W) -> W
        ensures { W.value result ≡ changed_final self.now (W.value last) };

    /// Where final states go on by an epsilon arc.
    fn onward(&self) -> Option<u32>
        ensures { result ≡ target self.now };
}

/// Puts each arc, changed, behind those of a list.
fn put_arcs<W: Weight, C: Change<W>>(
    out: &mut Vec<FstArc<W>>,
    change: &C,
    arcs: &[FstArc<W>],
) -> Result<(), AllocError>
    requires ready { C.ready change.now }
    requires good { All (IsArc W.value most_states) arcs.now }
    ensures { OnOk result (map (valued_arc W.value) out.new.items ≡ map (valued_arc W.value) out.old.items ++ map (C.changed_arc change.now) (map (valued_arc W.value) arcs.now)) }
{
    for arc in arcs {
        out.push(change.arc(*arc))?;
    }
    Ok(())
}

/// Puts the epsilon arc by which a state with this final weight goes on, if it does, behind those of a list.
pub fn put_onward<W: Weight>(
    out: &mut Vec<FstArc<W>>,
    last: W,
    target: Option<u32>,
) -> Result<(), AllocError>
    ensures { OnOk result (map (valued_arc W.value) out.new.items ≡ map (valued_arc W.value) out.old.items ++ onward (W.value last) target) }
{
    let Some(next) = target else {
        return Ok(());
    };
    if is_zero(last) {
        return Ok(());
    }
    out.push(FstArc {
        ilabel: 0,
        olabel: 0,
        weight: last,
        next,
    })?;
    Ok(())
}

/// Puts a state, changed, behind the others. The list `own` is for its arcs, whatever it has.
fn put_state<W: Weight, C: Change<W>>(
    states: &mut StateList<W>,
    own: &mut Vec<FstArc<W>>,
    change: &C,
    last: W,
    arcs: &[FstArc<W>],
) -> Result<(), AllocError>
    requires ready { C.ready change.now }
    requires good { All (IsArc W.value most_states) arcs.now }
    requires room { arc_total states.old + length (changed_state (C.changed_arc change.now) (C.changed_final change.now) (C.target change.now) (record { final = W.value last; arcs = map (valued_arc W.value) arcs.now })).arcs ≤ most_arcs }
    ensures { OnOk result (map (valued_state W.value) states.new ≡ map (valued_state W.value) states.old ++ changed_state (C.changed_arc change.now) (C.changed_final change.now) (C.target change.now) (record { final = W.value last; arcs = map (valued_arc W.value) arcs.now }) ∷ []) }
{
    own.clear();
    put_arcs(own, change, arcs)?;
    put_onward(own, last, change.onward())?;
    states.push(change.last(last), own)
}

/// Puts the states of a machine, changed, behind the others. The list `own` is for the arcs of a state.
pub(crate) fn put_states<W: Weight, C: Change<W>>(
    states: &mut StateList<W>,
    own: &mut Vec<FstArc<W>>,
    change: &C,
    fst: &Fst<W>,
) -> Result<(), AllocError>
    requires ready { C.ready change.now }
    requires room { arc_total states.old + arc_total (map (changed_state (C.changed_arc change.now) (C.changed_final change.now) (C.target change.now)) (map (valued_state W.value) fst.now.states)) ≤ most_arcs }
    ensures { OnOk result (map (valued_state W.value) states.new ≡ map (valued_state W.value) states.old ++ map (changed_state (C.changed_arc change.now) (C.changed_final change.now) (C.target change.now)) (map (valued_state W.value) fst.now.states)) }
{
    for state in 0..fst.states() {
        put_state(
            states,
            own,
            change,
            fst.final_weight(state),
            fst.arcs(state),
        )?;
    }
    Ok(())
}

/// Puts the epsilon arc with weight One to the start of an operand whose states stand `shift` places further on,
/// where there is a start, behind the arcs of a list.
pub(crate) fn put_entry<W: Weight>(
    own: &mut Vec<FstArc<W>>,
    shift: u32,
    start: Option<u32>,
) -> Result<(), AllocError>
    requires { IfSome start (λ s. shift + s < 4294967296) }
    ensures { OnOk result (map (valued_arc W.value) own.new.items ≡ map (valued_arc W.value) own.old.items ++ entry W.KIND shift start) }
{
    let Some(start) = start else {
        return Ok(());
    };
    own.push(FstArc {
        ilabel: 0,
        olabel: 0,
        weight: W::one(),
        next: shift + start,
    })?;
    Ok(())
}

/// How the states of an operand are carried over.
#[derive(Clone, Copy)]
pub(crate) struct Carrying {
    /// How many places further on they stand.
    pub(crate) shift: u32,
    /// Whether final weights stay.
    pub(crate) keeps: bool,
    /// Where final states go on by an epsilon arc.
    pub(crate) target: Option<u32>,
}

impl<W: Weight> Change<W> for Carrying {
    ghost ready = { λ s. s.shift ≤ most_states };

    ghost changed_arc = { λ s. renamed (λ p. s.shift + p) };

    ghost changed_final = { λ s. kept s.keeps };

    ghost target = { λ s. s.target };

    fn arc(&self, arc: FstArc<W>) -> FstArc<W>
        requires ready { self.now.shift ≤ most_states }
        requires good { IsArc W.value most_states arc }
        ensures { valued_arc W.value result ≡ renamed (λ p. self.now.shift + p) (valued_arc W.value arc) }
    {
        FstArc {
            ilabel: arc.ilabel,
            olabel: arc.olabel,
            weight: arc.weight,
            next: self.shift + arc.next,
        }
    }

    fn last(&self, last: W) -> W
        ensures { W.value result ≡ kept self.now.keeps (W.value last) }
    {
        if self.keeps { last } else { W::zero() }
    }

    fn onward(&self) -> Option<u32>
        ensures { result ≡ self.now.target }
    {
        self.target
    }
}

/// How many arcs a state with this final weight goes on by.
fn goes_on<W: Weight>(last: W, target: Option<u32>) -> u32
    ensures count { result ≡ length (onward (W.value last) target) }
    ensures one { result ≤ 1 }
{
    match target {
        None => 0,
        Some(_) => { if is_zero(last) { 0 } else { 1 } }
    }
}

/// How many states go on by an epsilon arc where the target is this one.
pub fn count_onward<W: Weight>(fst: &Fst<W>, target: Option<u32>) -> u32
    ensures count { result ≡ goings target (map (valued_state W.value) fst.now.states) }
    ensures few { result ≤ length fst.now.states }
{
    let mut count = 0;
    for state in 0..fst.states() {
        count += goes_on(fst.final_weight(state), target);
    }
    count
}
