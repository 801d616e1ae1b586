//! The machine of all names that the start reaches.

ghost use Rattle.std.specs.Prelude.{◌≡◌, ◌<◌, ◌≤◌, ◌+◌, ◌∷◌, [], ℕ, true, false, IfOk, IfErr, IfSome, None, OnOk, Some, length, map};
ghost use Rattle.fst_machine.specs.BreadthFirst.{Grows};
ghost use Rattle.fst_machine.specs.Machine.{most_arcs, most_states, valued, valued_arc, valued_state};
ghost use Rattle.fst_machine.specs.OpenStates.{none_open};
ghost use Rattle.fst_walk.specs.Answers.{IsExactly, IsFine, IsNamed, ReachesMore, Stops};
ghost use Rattle.fst_walk.specs.Making.{IsDone, IsMaking, IsTaking};
ghost use Rattle.fst_walk.specs.Names.{IsLater, left_from};

use crate::fault::WalkFault;
use crate::names::Names;
use crate::numbering::{expect_names, number_arcs};
use crate::output::{Output, counted, put_state, still_fits};
use crate::table::{NameTable, find};
use fst_keys::Coded;
use fst_machine::{Fst, MOST_ARCS, OpenList};
use fst_semiring::Weight;
use std::alloc::{AllocError, Global};

/// What a walk makes: a machine, and the names of its states in the order of their numbers.
#[derive(Drop)]
pub struct Walked<K: Coded, W: Weight> {
    /// The machine.
    pub fst: Fst<W>,
    /// The names of its states.
    pub names: NameTable<K>,
}

/// For how many states and arcs room is made before a walk. It may find more, or fewer. Names with a number below that
/// of the states are looked up in a list by number.
#[derive(Clone, Copy, Debug)]
pub struct Room {
    /// For how many states.
    pub states: usize,
    /// For how many arcs.
    pub arcs: usize,
}

/// Follows a part of the arcs of the name in a place, which is open, from a place among them on. `fits` says whether all
/// fits that was followed before. Gives the same with this part, and from where on arcs are left; `None` where there are
/// then more names than the limit.
fn follow_part<W: Weight, N: Names<W>>(
    output: &mut Output<N::Key, W>,
    scratch: &mut N::Scratch,
    graph: &N,
    place: usize,
    from: u32,
    fits: bool,
    limit: u32,
) -> Result<Option<(bool, Option<u32>)>, N::Fault>
    requires holds { N.holds graph.now }
    requires few { limit ≤ most_states }
    requires taking { IsTaking (N.graph graph.now) limit place (λ n. N.rest graph.now n from) output.old.names (map (valued_state W.value) output.old.states.states) (map (valued_arc W.value) output.old.states.arcs) output.old.total output.old.overflow fits }
    requires total { output.old.total ≤ most_arcs + 1 }
    ensures taking { IfOk result (λ r. IfSome r (λ p. IsTaking (N.graph graph.now) limit place (λ n. left_from (N.rest graph.now n) p.1) output.new.names (map (valued_state W.value) output.new.states.states) (map (valued_arc W.value) output.new.states.arcs) output.new.total output.new.overflow p.0)) }
    ensures later { IfOk result (λ r. IfSome r (λ p. IsLater from p.1)) }
    ensures total { OnOk result (output.new.total ≤ most_arcs + 1) }
    ensures stops { IfOk result (λ r. r ≡ None → ReachesMore (N.graph graph.now) limit) }
{
    let key = output.names.item(place);
    output.made.clear();
    let next = graph.put_part(scratch, &mut output.made, key, from)?;
    let more = output.made.len();
    output.total = counted(output.total, more);
    let so_far = still_fits(fits, output.total);
    expect_names(&mut output.names, output.made.as_slice())?;
    let Some(fits) = number_arcs(
        &mut output.states,
        &mut output.names,
        &mut output.made,
        so_far,
        limit,
    )?
    else {
        return Ok(None);
    };
    Ok(Some((fits, next)))
}

/// Follows the arcs of the name in a place. False where there are then more names than the limit.
fn follow<W: Weight, N: Names<W>>(
    output: &mut Output<N::Key, W>,
    scratch: &mut N::Scratch,
    graph: &N,
    place: usize,
    limit: u32,
) -> Result<bool, N::Fault>
    requires holds { N.holds graph.now }
    requires few { limit ≤ most_states }
    requires place { place < length output.old.names }
    requires making { IsMaking (N.graph graph.now) limit output.old.names (map (valued_state W.value) output.old.states.states) output.old.total output.old.overflow place }
    requires total { output.old.total ≤ most_arcs + 1 }
    requires closed { output.old.overflow ≡ None → output.old.total ≤ most_arcs → output.old.states.arcs ≡ [] }
    ensures goes { IfOk result (λ more. more ≡ true → IsMaking (N.graph graph.now) limit output.new.names (map (valued_state W.value) output.new.states.states) output.new.total output.new.overflow (place + 1)) }
    ensures total { OnOk result (output.new.total ≤ most_arcs + 1) }
    ensures closed { IfOk result (λ more. more ≡ true → output.new.overflow ≡ None → output.new.total ≤ most_arcs → output.new.states.arcs ≡ []) }
    ensures stops { IfOk result (λ more. more ≡ false → ReachesMore (N.graph graph.now) limit) }
{
    let mut fits = still_fits(output.overflow.is_none(), output.total);
    let mut next = Some(0);
    while let Some(from) = next {
        let Some((fit, later)) = follow_part(output, scratch, graph, place, from, fits, limit)?
        else {
            return Ok(false);
        };
        fits = fit;
        next = later;
    }
    let last = graph.final_weight(output.names.item(place));
    put_state(output, place as u32, fits, last)?;
    Ok(true)
}

/// Follows the arcs of all names. False where there are more names than the limit.
fn follow_all<W: Weight, N: Names<W>>(
    output: &mut Output<N::Key, W>,
    scratch: &mut N::Scratch,
    graph: &N,
    limit: u32,
) -> Result<bool, N::Fault>
    requires holds { N.holds graph.now }
    requires few { limit ≤ most_states }
    requires making { IsMaking (N.graph graph.now) limit output.old.names (map (valued_state W.value) output.old.states.states) output.old.total output.old.overflow 0 }
    requires total { output.old.total ≤ most_arcs + 1 }
    requires closed { output.old.overflow ≡ None → output.old.total ≤ most_arcs → output.old.states.arcs ≡ [] }
    ensures done { IfOk result (λ all. all ≡ true → IsDone (N.graph graph.now) limit output.new.names (map (valued_state W.value) output.new.states.states) output.new.total output.new.overflow) }
    ensures closed { IfOk result (λ all. all ≡ true → output.new.overflow ≡ None → output.new.total ≤ most_arcs → output.new.states.arcs ≡ []) }
    ensures stops { IfOk result (λ all. all ≡ false → ReachesMore (N.graph graph.now) limit) }
{
    let mut taken = 0;
    while taken < output.names.len() {
        if !follow(output, scratch, graph, taken, limit)? {
            return Ok(false);
        }
        taken += 1;
    }
    Ok(true)
}

/// What there is at the start: its name, and nothing of its arcs.
fn begin<K: Coded, W: Weight>(
    alloc: Global,
    start: K,
    room: Room,
    limit: u32,
) -> Result<Output<K, W>, AllocError>
    requires some { 0 < limit }
    ensures names { IfOk result (λ o. Grows [] (start ∷ []) o.names × (length o.names ≤ limit)) }
    ensures states { IfOk result (λ o. o.states ≡ none_open) }
    ensures total { IfOk result (λ o. o.total ≡ 0) }
    ensures overflow { IfOk result (λ o. o.overflow ≡ None) }
{
    let mut names = NameTable::with_bound(alloc, room.states);
    let _place = find(&mut names, start, limit)?;
    Ok(Output {
        names,
        states: OpenList::with_capacity(alloc, room.states, room.arcs)?,
        total: 0,
        overflow: None,
        made: Vec::new(alloc),
    })
}

/// The machine of the names that a start reaches.
fn walk_from<W: Weight, N: Names<W>>(
    alloc: Global,
    graph: &N,
    start: N::Key,
    room: Room,
    limit: u32,
) -> Result<Result<Walked<N::Key, W>, WalkFault>, N::Fault>
    requires holds { N.holds graph.now }
    requires some { 0 < limit }
    requires few { limit ≤ most_states }
    requires start { (N.graph graph.now).start ≡ Some start }
    ensures made { IfOk result (λ r. IfOk r (λ w. IsNamed (N.graph graph.now) w.names (valued W.value w.fst))) }
    ensures fine { IfOk result (λ r. IfOk r (λ w. IsFine (N.graph graph.now) limit w.names)) }
    ensures cause { IfOk result (λ r. IfErr r (Stops (N.graph graph.now) limit)) }
{
    let mut output = begin(alloc, start, room, limit)?;
    let mut scratch = N::scratch(alloc);
    if !follow_all(&mut output, &mut scratch, graph, limit)? {
        return Ok(Err(WalkFault::StateLimit { limit }));
    }
    if output.total > MOST_ARCS {
        return Ok(Err(WalkFault::TooManyArcs));
    }
    if let Some(state) = output.overflow {
        return Ok(Err(WalkFault::Overflow { state }));
    }
    Ok(Ok(Walked {
        fst: output.states.into_list().into_machine(Some(0)),
        names: output.names,
    }))
}

/// The machine of all names that the start of a graph reaches, numbered in breadth-first order. Where the graph has
/// no start, the machine has no states.
///
/// `StateLimit` exactly where the start reaches more than `max_states` names, which is answered as soon as so many are
/// found; else `TooManyArcs` exactly where these have more than 33,554,432 arcs; else `Overflow` exactly where a weight
/// has a number of absolute value above 10 to the 18, with the first state that has such a weight. The faults of the
/// names, of which one is that memory has run out, stand apart from these causes. States after the first that does not
/// fit are not kept.
///
/// Time: that of the arcs of each name, and a look-up for each arc. Space: the result, and the arcs that the operation puts
/// at once.
pub fn walk<W: Weight, N: Names<W>>(
    alloc: Global,
    graph: &N,
    room: Room,
    max_states: u32,
) -> Result<Result<Walked<N::Key, W>, WalkFault>, N::Fault>
    requires holds { N.holds graph.now }
    requires some { 0 < max_states }
    requires few { max_states ≤ most_states }
    ensures made { IfOk result (λ r. IfOk r (λ w. IsNamed (N.graph graph.now) w.names (valued W.value w.fst))) }
    ensures exact { IfOk result (IsExactly (N.graph graph.now) max_states) }
{
    let Some(start) = graph.start() else {
        return Ok(Ok(Walked {
            fst: Fst::new(alloc),
            names: NameTable::new(alloc),
        }));
    };
    walk_from(alloc, graph, start, room, max_states)
}
