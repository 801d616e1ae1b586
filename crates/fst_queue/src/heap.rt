//! A heap of states by key, with the place of each state in it.
//!
//! Below place p stand places 2p + 1 and 2p + 2, and no state is better than the one above it. The table of places
//! holds for each state 0, or its place in the heap and one; so a state is found in constant time.

ghost use Rattle.std.specs.Prelude.{◌≡◌, ◌≢◌, ◌+◌, ◌*◌, ◌<◌, ◌≤◌, ℕ, length, IfSome, MatchOption, OnErr, OnOk, get_or, set};
ghost use Rattle.std.specs.Ordering.{is_lt};
ghost use Rattle.fst_semiring.specs.Keys.{key_cmp};
ghost use Rattle.fst_queue.specs.Heap.{key_at, key_in, Heaped, IsBest, Linked, SamePresent};
ghost use Rattle.fst_queue.specs.HeapOrder.{Falling, IsFirstBelow, Ordered, Rising};
ghost use Rattle.fst_machine.specs.BreadthFirst.{Has};
ghost use Rattle.fst_queue.specs.Members.{Adds, Takes};

use fst_semiring::Key;
use std::alloc::AllocError;
use std::cmp::Ordering;

/// Whether the first key is better than the second.
pub(crate) fn is_better(a: Key, b: Key) -> bool
    ensures { result ≡ is_lt (key_cmp a b) }
{
    match a.cmp(&b) {
        Ordering::Less => true,
        _ => false,
    }
}

/// Whether the state in place `a` has a better key than that in place `b`.
fn is_better_in(heap: &Vec<u32>, keys: &Vec<Key>, a: usize, b: usize) -> bool
    requires a_within { a < length heap.now.items }
    requires b_within { b < length heap.now.items }
    requires a_low { get_or heap.now.items a 0 < length keys.now.items }
    requires b_low { get_or heap.now.items b 0 < length keys.now.items }
    ensures { result ≡ is_lt (key_cmp (key_in keys.now.items heap.now.items a) (key_in keys.now.items heap.now.items b)) }
{
    let first = keys[heap[a] as usize];
    let second = keys[heap[b] as usize];
    is_better(first, second)
}

/// Exchanges the states in two places.
fn exchange(heap: &mut Vec<u32>, places: &mut Vec<usize>, a: usize, b: usize)
    requires linked { (size : ℕ) × Linked heap.old.items places.old.items size }
    requires a_within { a < length heap.old.items }
    requires b_within { b < length heap.old.items }
    ensures linked { (size : ℕ) → Linked heap.old.items places.old.items size → Linked heap.new.items places.new.items size }
    ensures same { SamePresent places.old.items places.new.items }
    ensures len { length heap.new.items ≡ length heap.old.items }
    ensures at_a { get_or heap.new.items a 0 ≡ get_or heap.old.items b 0 }
    ensures at_b { get_or heap.new.items b 0 ≡ get_or heap.old.items a 0 }
    ensures others { (i : ℕ) → (i ≡ a → ⊥) → (i ≡ b → ⊥) → get_or heap.new.items i 0 ≡ get_or heap.old.items i 0 }
{
    let first = heap[a];
    let second = heap[b];
    heap[a] = second;
    heap[b] = first;
    places[second as usize] = a + 1;
    places[first as usize] = b + 1;
}

/// The place below another whose state is not worse than the other's there; `None` exactly where none is below it.
fn best_below(heap: &Vec<u32>, places: &Vec<usize>, keys: &Vec<Key>, at: usize) -> Option<usize>
    requires linked { Linked heap.now.items places.now.items (length keys.now.items) }
    ensures { let n = length heap.now.items in MatchOption result (n ≤ 2 * at + 1) (λ c. IsFirstBelow key_cmp n (key_in keys.now.items heap.now.items) at c) }
{
    let len = heap.len();
    if at >= len / 2 {
        return None;
    }
    let first = 2 * at + 1;
    let second = first + 1;
    if second < len && is_better_in(heap, keys, second, first) {
        Some(second)
    } else {
        Some(first)
    }
}

/// Lets the state in a place rise to where the one above it is not worse.
pub(crate) fn rise(heap: &mut Vec<u32>, places: &mut Vec<usize>, keys: &Vec<Key>, at: usize)
    requires linked { Linked heap.old.items places.old.items (length keys.now.items) }
    requires within { at < length heap.old.items }
    requires rising { Rising key_cmp (length heap.old.items) (key_in keys.now.items heap.old.items) at }
    ensures linked { Linked heap.new.items places.new.items (length keys.now.items) }
    ensures ordered { Ordered key_cmp (length heap.new.items) (key_in keys.now.items heap.new.items) }
    ensures same { SamePresent places.old.items places.new.items }
{
    let mut at = at;
    while at > 0 {
        let above = (at - 1) / 2;
        if !is_better_in(heap, keys, at, above) {
            return;
        }
        exchange(heap, places, above, at);
        at = above;
    }
}

/// Lets the state in a place fall to where those below it are not better.
pub(crate) fn fall(heap: &mut Vec<u32>, places: &mut Vec<usize>, keys: &Vec<Key>, at: usize)
    requires linked { Linked heap.old.items places.old.items (length keys.now.items) }
    requires within { at < length heap.old.items }
    requires falling { Falling key_cmp (length heap.old.items) (key_in keys.now.items heap.old.items) at }
    ensures linked { Linked heap.new.items places.new.items (length keys.now.items) }
    ensures ordered { Ordered key_cmp (length heap.new.items) (key_in keys.now.items heap.new.items) }
    ensures same { SamePresent places.old.items places.new.items }
{
    let mut at = at;
    while let Some(below) = best_below(heap, places, keys, at) {
        if !is_better_in(heap, keys, below, at) {
            return;
        }
        exchange(heap, places, at, below);
        at = below;
    }
}

/// Makes room for the place of a state: at least twice as many places. No state's place changes.
pub(crate) fn grow_places(places: &mut Vec<usize>, state: u32) -> Result<(), AllocError>
    ensures room { OnOk result (state < length places.new.items) }
    ensures longer { length places.old.items ≤ length places.new.items }
    ensures same { (q : ℕ) → get_or places.new.items q 0 ≡ get_or places.old.items q 0 }
{
    let len = places.len();
    let at = state as usize;
    if at >= len {
        let wanted = (2 * len).min(4294967296).max(at + 1);
        places.resize(wanted, 0)?;
    }
    Ok(())
}

/// Makes room for the key of a state: at least twice as many keys. No state's key changes.
pub(crate) fn grow_keys(keys: &mut Vec<Key>, state: u32) -> Result<(), AllocError>
    ensures room { OnOk result (state < length keys.new.items) }
    ensures longer { length keys.old.items ≤ length keys.new.items }
    ensures same { (q : ℕ) → key_at keys.new.items q ≡ key_at keys.old.items q }
{
    let len = keys.len();
    let at = state as usize;
    if at >= len {
        let wanted = (2 * len).min(4294967296).max(at + 1);
        let none = Key {
            class: 0,
            first: 0,
            second: 0,
        };
        keys.resize(wanted, none)?;
    }
    Ok(())
}

/// Puts a state that has no place into the heap. An `Err` changes nothing.
fn enter(
    heap: &mut Vec<u32>,
    places: &mut Vec<usize>,
    keys: &mut Vec<Key>,
    state: u32,
    key: Key,
) -> Result<(), AllocError>
    requires heaped { Heaped heap.old.items places.old.items keys.old.items }
    requires place { state < length places.old.items }
    requires low { state < length keys.old.items }
    requires absent { get_or places.old.items state 0 ≡ 0 }
    ensures heaped { Heaped heap.new.items places.new.items keys.new.items }
    ensures adds { OnOk result (Adds heap.old.items state heap.new.items) }
    ensures keys { OnOk result (keys.new.items ≡ set keys.old.items state key) }
    ensures err { OnErr result (heap.new.items ≡ heap.old.items) }
    ensures err_keys { OnErr result (keys.new.items ≡ keys.old.items) }
{
    let at = heap.len();
    heap.push(state)?;
    places[state as usize] = at + 1;
    keys[state as usize] = key;
    rise(heap, places, keys, at);
    Ok(())
}

/// Gives a state that has a place a new key.
fn rekey(heap: &mut Vec<u32>, places: &mut Vec<usize>, keys: &mut Vec<Key>, state: u32, key: Key)
    requires heaped { Heaped heap.old.items places.old.items keys.old.items }
    requires place { state < length places.old.items }
    requires low { state < length keys.old.items }
    requires present { 0 < get_or places.old.items state 0 }
    ensures heaped { Heaped heap.new.items places.new.items keys.new.items }
    ensures adds { Adds heap.old.items state heap.new.items }
    ensures keys { keys.new.items ≡ set keys.old.items state key }
{
    let at = places[state as usize] - 1;
    let before = keys[state as usize];
    keys[state as usize] = key;
    if is_better(key, before) {
        rise(heap, places, keys, at);
    } else {
        fall(heap, places, keys, at);
    }
}

/// Puts a state into the heap, or gives it a new key where it is there. An `Err` changes neither the heap nor a key.
///
/// Takes time logarithmic in the heap, apart from growth.
pub(crate) fn insert(
    heap: &mut Vec<u32>,
    places: &mut Vec<usize>,
    keys: &mut Vec<Key>,
    state: u32,
    key: Key,
) -> Result<(), AllocError>
    requires { Heaped heap.old.items places.old.items keys.old.items }
    ensures heaped { Heaped heap.new.items places.new.items keys.new.items }
    ensures adds { OnOk result (Adds heap.old.items state heap.new.items) }
    ensures key { OnOk result (key_at keys.new.items state ≡ key) }
    ensures others { (q : ℕ) → q ≢ state → key_at keys.new.items q ≡ key_at keys.old.items q }
    ensures err { OnErr result (heap.new.items ≡ heap.old.items) }
    ensures err_keys { OnErr result ((q : ℕ) → key_at keys.new.items q ≡ key_at keys.old.items q) }
{
    grow_places(places, state)?;
    grow_keys(keys, state)?;
    if places[state as usize] == 0 {
        enter(heap, places, keys, state, key)?;
    } else {
        rekey(heap, places, keys, state, key);
    }
    Ok(())
}

/// Takes the state in the first place out of the heap; `None` exactly where the heap is empty.
///
/// Takes time logarithmic in the heap, and no memory.
pub(crate) fn leave(heap: &mut Vec<u32>, places: &mut Vec<usize>, keys: &Vec<Key>) -> Option<u32>
    requires { Heaped heap.old.items places.old.items keys.now.items }
    ensures heaped { Heaped heap.new.items places.new.items keys.now.items }
    ensures takes { Takes heap.old.items result heap.new.items }
    ensures best { IfSome result (λ state. IsBest keys.now.items heap.old.items state) }
{
    if heap.is_empty() {
        return None;
    }
    let state = heap[0];
    let last = heap.len() - 1;
    exchange(heap, places, 0, last);
    heap.truncate(last);
    places[state as usize] = 0;
    if last > 0 {
        fall(heap, places, keys, 0);
    }
    Some(state)
}
