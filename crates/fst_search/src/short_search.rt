//! Short searches along epsilon arcs, without a queue.
//!
//! States are listed as they are met, and each hands its distance on along its links. Where a state that has handed on
//! becomes better, all from its place on hand on again. The first order is mostly a good one, so that this is seldom;
//! where it is not, or where a number goes out of range, the search is given up.

ghost use Rattle.std.specs.Prelude.{◌≡◌, ◌<◌, ◌≤◌, ◌*◌, ℕ, [], true, IfOk, IfSome, OnOk, length, map};
ghost use Rattle.std.specs.Bool.{Decides};
ghost use Rattle.fst_semiring.specs.Cost.{Cost};
ghost use Rattle.fst_machine.specs.Graph.{graph_of};
ghost use Rattle.fst_machine.specs.Machine.{most_states, valued};
ghost use Rattle.fst_trim.specs.Links.{epsilon_links};
ghost use Rattle.fst_search.specs.Closure.{IsClosure, valued_reached};
ghost use Rattle.fst_search.specs.Hops.{Better, IsHop, IsNet};
ghost use Rattle.fst_search.specs.Near.{ArePlaced, HasNoPlaces, IsMet, Offered, ShortSearch, costs_of, names_of, one_at, place_of};

use crate::unmeeting::Reached;
use fst_machine::Fst;
use fst_semiring::Weight;
use fst_trim::Links;
use std::alloc::AllocError;
use std::cmp::Ordering;

/// A search is given up once it has handed on more than twice as many times as it has met states, and so many more.
const SPARE: usize = 64;

/// Whether the first weight is better than the second.
fn is_better<W: Weight>(a: W, b: W) -> bool
    ensures { Decides result (Better (W.value a) (W.value b)) }
{
    match a.compare(b) {
        Ordering::Less => true,
        _ => false,
    }
}

/// Lists a state behind the others.
fn meet<W: Weight>(
    places: &mut Vec<u32>,
    reached: &mut Vec<Reached<W>>,
    state: u32,
    distance: W,
) -> Result<(), AllocError>
    requires placed { ArePlaced places.old.items (names_of reached.old.items) }
    requires state { state < length places.old.items }
    requires size { length places.old.items ≤ most_states }
    requires new { place_of places.old.items state ≡ 0 }
    ensures placed { ArePlaced places.new.items (names_of reached.new.items) }
    ensures size { length places.new.items ≡ length places.old.items }
    ensures longer { length reached.old.items ≤ length reached.new.items }
    ensures listed { OnOk result (IsMet state (W.value distance) (length reached.old.items) places.old.items places.new.items (costs_of W.value reached.old.items) (costs_of W.value reached.new.items)) }
{
    reached.push(Reached { state, distance })?;
    places[state as usize] = reached.len() as u32;
    Ok(())
}

/// Gives a state a distance, where it is better than the one so far. Gives how many states, from the first on, need not
/// hand on again of those that needed not.
fn offer<W: Weight>(
    places: &mut Vec<u32>,
    reached: &mut Vec<Reached<W>>,
    state: u32,
    distance: W,
    next: usize,
) -> Result<usize, AllocError>
    requires placed { ArePlaced places.old.items (names_of reached.old.items) }
    requires state { state < length places.old.items }
    requires size { length places.old.items ≤ most_states }
    requires next { next ≤ length reached.old.items }
    ensures placed { ArePlaced places.new.items (names_of reached.new.items) }
    ensures size { length places.new.items ≡ length places.old.items }
    ensures longer { length reached.old.items ≤ length reached.new.items }
    ensures offered { IfOk result (λ after. Offered state (W.value distance) next after places.old.items places.new.items (costs_of W.value reached.old.items) (costs_of W.value reached.new.items)) }
{
    let place = places[state as usize] as usize;
    if place == 0 {
        meet(places, reached, state, distance)?;
        return Ok(next);
    }
    if is_better(distance, reached[place - 1].distance) {
        reached[place - 1] = Reached { state, distance };
        return Ok(next.min(place - 1));
    }
    Ok(next)
}

/// Hands on the distance of the state in a place along its links. Gives the next place; `None` where a number goes out
/// of range.
fn hand_on<W: Weight>(
    places: &mut Vec<u32>,
    reached: &mut Vec<Reached<W>>,
    links: &Links<W>,
    at: usize,
) -> Result<Option<usize>, AllocError>
    requires placed { ArePlaced places.old.items (names_of reached.old.items) }
    requires states { length places.old.items ≡ length links.now }
    requires size { length links.now ≤ most_states }
    requires net { IsNet (IsHop W.value [] links.now) (length links.now) }
    requires at { at < length reached.old.items }
    ensures placed { ArePlaced places.new.items (names_of reached.new.items) }
    ensures states { length places.new.items ≡ length links.now }
    ensures next { IfOk result (λ o. IfSome o (λ next. next ≤ length reached.new.items)) }
    ensures goes_on { IfOk result (λ o. IfSome o (λ next. (source : ℕ → Cost) → ShortSearch W.KIND (IsHop W.value [] links.now) source at places.old.items (costs_of W.value reached.old.items) → ShortSearch W.KIND (IsHop W.value [] links.now) source next places.new.items (costs_of W.value reached.new.items))) }
{
    let state = reached[at].state;
    let so_far = reached[at].distance;
    let mut next = at + 1;
    for link in links.links(state) {
        let Some(distance) = W::narrow(link.weight.times(so_far)) else {
            return Ok(None);
        };
        next = offer(places, reached, link.next, distance, next)?;
    }
    Ok(Some(next))
}

/// Searches from a state, and tells whether each state has its distance; if not, the search was given up.
fn try_search<W: Weight>(
    places: &mut Vec<u32>,
    reached: &mut Vec<Reached<W>>,
    links: &Links<W>,
    state: u32,
) -> Result<bool, AllocError>
    requires states { state < length links.now }
    requires size { length links.now ≤ most_states }
    requires net { IsNet (IsHop W.value [] links.now) (length links.now) }
    requires empty { reached.old.items ≡ [] }
    requires blank { HasNoPlaces (length links.now) places.old.items }
    ensures placed { ArePlaced places.new.items (names_of reached.new.items) }
    ensures states { length places.new.items ≡ length links.now }
    ensures found { IfOk result (λ soon. soon ≡ true → ShortSearch W.KIND (IsHop W.value [] links.now) (one_at W.KIND state) (length reached.new.items) places.new.items (costs_of W.value reached.new.items)) }
{
    meet(places, reached, state, W::one())?;
    let mut at = 0;
    let mut takes = 0;
    while at < reached.len() {
        if takes > 2 * reached.len() + SPARE {
            return Ok(false);
        }
        let Some(next) = hand_on(places, reached, links, at)? else {
            return Ok(false);
        };
        at = next;
        takes += 1;
    }
    Ok(true)
}

/// Takes their places from the states that were met.
fn displace<D: Copy>(places: &mut Vec<u32>, reached: &[Reached<D>])
    requires { ArePlaced places.old.items (names_of reached.now) }
    ensures { HasNoPlaces (length places.old.items) places.new.items }
{
    for item in reached {
        places[item.state as usize] = 0;
    }
}

/// The states that epsilon arcs reach from a state with their distances, where these are soon found. No state has a place
/// then.
pub(crate) fn near<W: Weight>(
    fst: &Fst<W>,
    places: &mut Vec<u32>,
    reached: &mut Vec<Reached<W>>,
    links: &Links<W>,
    state: u32,
) -> Result<bool, AllocError>
    requires links { links.now ≡ epsilon_links fst.now.states }
    requires state { state < length fst.now.states }
    requires blank { HasNoPlaces (length fst.now.states) places.old.items }
    ensures blank { HasNoPlaces (length fst.now.states) places.new.items }
    ensures closure { IfOk result (λ soon. soon ≡ true → IsClosure W.KIND (graph_of (valued W.value fst.now)) state (length fst.now.states * 1000000000000000000) (map (valued_reached W.value) reached.new.items)) }
{
    let _states = fst.states();
    reached.clear();
    let soon = try_search(places, reached, links, state);
    displace(places, reached.as_slice());
    soon
}
