//! The states of an operand, carried over: copied, or in the room of a machine that is given away.

ghost use Rattle.std.specs.Prelude.{◌≡◌, ◌≤◌, ◌<◌, ◌+◌, ◌∷◌, ◌++◌, [], None, All, IfErr, IfOk, OnOk, drop, length, map, take, true};
ghost use Rattle.fst_machine.specs.Machine.{IsArc, arc_total, most_arcs, most_states, valued_arc, valued_state};
ghost use Rattle.fst_rational.specs.Changing.{goings};
ghost use Rattle.fst_rational.specs.Constructions.{carried, carried_states, headed};

use crate::change::{Carrying, Change, put_onward, put_states};
use fst_machine::{Fst, FstArc, Spreading, StateList};
use fst_semiring::Weight;
use std::alloc::{AllocError, Global};

/// Carries states so many places further on. Their final weights stay.
fn shift_states<W: Weight>(list: &mut StateList<W>, by: u32)
    requires small { by ≤ most_states }
    requires good { All (λ s. All (IsArc W.value most_states) s.arcs) list.old }
    ensures { map (valued_state W.value) list.new ≡ map (carried by true None) (map (valued_state W.value) list.old) }
{
    list.shift(by);
}

/// Puts a state, so many places further on, behind the others.
fn push_state<W: Weight>(
    list: &mut StateList<W>,
    last: W,
    arcs: &[FstArc<W>],
    by: u32,
) -> Result<(), AllocError>
    requires small { by ≤ most_states }
    requires good { All (IsArc W.value most_states) arcs.now }
    requires room { arc_total list.old + length (carried by true None (record { final = W.value last; arcs = map (valued_arc W.value) arcs.now })).arcs ≤ most_arcs }
    ensures { OnOk result (map (valued_state W.value) list.new ≡ map (valued_state W.value) list.old ++ carried by true None (record { final = W.value last; arcs = map (valued_arc W.value) arcs.now }) ∷ []) }
{
    list.push_shifted(last, arcs, by)?;
    Ok(())
}

/// Puts the states of a machine, so many places further on, behind the others. Their final weights stay.
pub(crate) fn push_states<W: Weight>(
    list: &mut StateList<W>,
    fst: &Fst<W>,
    by: u32,
) -> Result<(), AllocError>
    requires small { by ≤ most_states }
    requires room { arc_total list.old + arc_total (map (carried by true None) (map (valued_state W.value) fst.now.states)) ≤ most_arcs }
    ensures { OnOk result (map (valued_state W.value) list.new ≡ map (valued_state W.value) list.old ++ map (carried by true None) (map (valued_state W.value) fst.now.states)) }
{
    for state in 0..fst.states() {
        push_state(list, fst.final_weight(state), fst.arcs(state), by)?;
    }
    Ok(())
}

/// Whether the states that are carried so lead further on, and are else as they were.
fn only_shifts(how: Carrying) -> bool
    ensures { result ≡ true → carried how.shift how.keeps how.target ≡ carried how.shift true None }
{
    how.keeps && how.target.is_none()
}

/// Puts the states of a machine, carried over, behind the others.
fn put_carried<W: Weight>(
    alloc: Global,
    list: &mut StateList<W>,
    fst: &Fst<W>,
    how: Carrying,
) -> Result<(), AllocError>
    requires small { how.shift ≤ most_states }
    requires room { arc_total list.old + arc_total (map (carried how.shift how.keeps how.target) (map (valued_state W.value) fst.now.states)) ≤ most_arcs }
    ensures { OnOk result (map (valued_state W.value) list.new ≡ map (valued_state W.value) list.old ++ map (carried how.shift how.keeps how.target) (map (valued_state W.value) fst.now.states)) }
{
    if only_shifts(how) {
        push_states(list, fst, how.shift)?;
    } else {
        let mut own = Vec::new(alloc);
        put_states(list, &mut own, &how, fst)?;
    }
    Ok(())
}

/// Puts a new start with this final weight and these arcs, where there is one, in front of the others, in a list that
/// gets room for so many states and arcs in all.
fn put_front<W: Weight>(
    list: &mut StateList<W>,
    head: Option<W>,
    arcs: &[FstArc<W>],
    room: (usize, usize),
) -> Result<(), AllocError>
    requires { arc_total (headed W.value head arcs.now (map (valued_state W.value) list.old)) ≤ most_arcs }
    ensures { OnOk result (map (valued_state W.value) list.new ≡ headed W.value head arcs.now (map (valued_state W.value) list.old)) }
{
    list.reserve(room.0, room.1)?;
    if let Some(last) = head {
        list.push_front(last, arcs)?;
    }
    Ok(())
}

/// The states of a machine, carried over, behind a new start where there is one, in a list of their own with room for so
/// many states and arcs.
pub(crate) fn copied_states<W: Weight>(
    alloc: Global,
    fst: &Fst<W>,
    head: Option<W>,
    arcs: &[FstArc<W>],
    how: Carrying,
    room: (usize, usize),
) -> Result<StateList<W>, AllocError>
    requires small { how.shift ≤ most_states }
    requires few { arc_total (carried_states W.value head arcs.now how fst.now) ≤ most_arcs }
    ensures { IfOk result (λ list. map (valued_state W.value) list ≡ carried_states W.value head arcs.now how fst.now) }
{
    let mut list = StateList::with_capacity(alloc, room.0, room.1)?;
    put_front(&mut list, head, arcs, room)?;
    put_carried(alloc, &mut list, fst, how)?;
    Ok(list)
}

/// Puts the next of the states that are left, carried over, behind those that are done. The list `own` is for the
/// arc by which it goes on.
fn carry_next<W: Weight>(
    states: &mut Spreading<W>,
    own: &mut Vec<FstArc<W>>,
    how: Carrying,
) -> Result<(), AllocError>
    requires some { 0 < length states.old.left }
    requires small { how.shift ≤ most_states }
    requires good { All (λ s. All (IsArc W.value most_states) s.arcs) states.old.left }
    requires room { goings how.target (map (valued_state W.value) states.old.left) ≤ states.old.room }
    ensures done { OnOk result (map (valued_state W.value) states.new.done ≡ map (valued_state W.value) states.old.done ++ map (carried how.shift how.keeps how.target) (map (valued_state W.value) (take 1 states.old.left))) }
    ensures left { OnOk result (states.new.left ≡ drop 1 states.old.left) }
    ensures room { OnOk result (goings how.target (map (valued_state W.value) (drop 1 states.old.left)) ≤ states.new.room) }
{
    let last = states.final_weight();
    own.clear();
    put_onward(own, last, how.target)?;
    states.put_next(how.last(last), how.shift, own);
    Ok(())
}

/// The states of a machine that is given away, each carried over where it stands.
fn carry_all<W: Weight>(
    alloc: Global,
    given: Spreading<W>,
    how: Carrying,
) -> Result<StateList<W>, AllocError>
    requires first { given.done ≡ [] }
    requires small { how.shift ≤ most_states }
    requires good { All (λ s. All (IsArc W.value most_states) s.arcs) given.left }
    requires room { goings how.target (map (valued_state W.value) given.left) ≤ given.room }
    ensures { IfOk result (λ list. map (valued_state W.value) list ≡ map (carried how.shift how.keeps how.target) (map (valued_state W.value) given.left)) }
{
    let mut states = given;
    let mut own = Vec::with_capacity(alloc, 1)?;
    while states.left() > 0 {
        carry_next(&mut states, &mut own, how)?;
    }
    Ok(states.into_list())
}

/// The states of a machine that is given away, carried over in its own room, with room for so many arcs more; the
/// machine as it was, where that room cannot be had.
fn carry_in_place<W: Weight>(
    alloc: Global,
    fst: Fst<W>,
    how: Carrying,
    more: usize,
) -> Result<Result<StateList<W>, Fst<W>>, AllocError>
    requires small { how.shift ≤ most_states }
    requires few { arc_total fst.states + more ≤ most_arcs }
    requires room { goings how.target (map (valued_state W.value) fst.states) ≤ more }
    ensures carried { IfOk result (λ r. IfOk r (λ list. map (valued_state W.value) list ≡ map (carried how.shift how.keeps how.target) (map (valued_state W.value) fst.states))) }
    ensures given { IfOk result (λ r. IfErr r (λ left. left ≡ fst)) }
{
    let _states = fst.states();
    if only_shifts(how) {
        match fst.extend() {
            Ok(mut list) => {
                shift_states(&mut list, how.shift);
                Ok(Ok(list))
            }
            Err(fst) => Ok(Err(fst)),
        }
    } else {
        match fst.spread(more)? {
            Ok(states) => {
                let list = carry_all(alloc, states, how)?;
                Ok(Ok(list))
            }
            Err(fst) => Ok(Err(fst)),
        }
    }
}

/// The states of a machine that is given away, carried over, behind a new start where there is one: in its own room,
/// where that can be had, and there is room for so many states and arcs in all.
pub(crate) fn given_states<W: Weight>(
    alloc: Global,
    fst: Fst<W>,
    head: Option<W>,
    arcs: &[FstArc<W>],
    how: Carrying,
    room: (u32, u32),
) -> Result<StateList<W>, AllocError>
    requires small { how.shift ≤ most_states }
    requires few { room.1 ≤ most_arcs }
    requires all { arc_total (carried_states W.value head arcs.now how fst) ≤ room.1 }
    ensures { IfOk result (λ list. map (valued_state W.value) list ≡ carried_states W.value head arcs.now how fst) }
{
    let more = room.1 - fst.arc_count();
    let all = (room.0 as usize, room.1 as usize);
    match carry_in_place(alloc, fst, how, more as usize)? {
        Ok(mut list) => {
            put_front(&mut list, head, arcs, all)?;
            Ok(list)
        }
        Err(fst) => copied_states(alloc, &fst, head, arcs, how, all),
    }
}
