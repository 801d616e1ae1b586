//! The search of distances, in rounds.
//!
//! In each round a state is taken at most once; a state that becomes better behind its turn is put off to the next
//! round. So each round takes at most as many states as there are, whatever the order in which the queue gives them,
//! and after as many rounds as there are states either no state is put off, or the hops that gave the states their
//! distances lead round a cycle that is better than One. (Mohri 2009, section 3.3, single-source shortest distances.)

ghost use Rattle.std.specs.Prelude.{◌≡◌, ◌⊎◌, ◌+◌, ◌*◌, ◌-◌, ◌<◌, ◌≤◌, ℕ, List, [], Some, None, IfOk, IfSome, IfNone, OnOk, length, get_or, map};
ghost use Rattle.std.specs.Bool.{Decides};
ghost use Rattle.fst_semiring.specs.Cost.{Cost};
ghost use Rattle.fst_machine.specs.BreadthFirst.{Has};
ghost use Rattle.fst_machine.specs.Machine.{most_states};
ghost use Rattle.fst_machine.specs.declared.path.Step.{Step};
ghost use Rattle.fst_trim.specs.Links.{Link as LinkValue};
ghost use Rattle.fst_search.specs.Hops.{IsHop, IsNet, IsOpen};
ghost use Rattle.fst_search.specs.Searching.{Answers, IsTrail, Searching, link_at, turn_at, valued_node};
ghost use Rattle.fst_search.specs.Trying.{AreBelow, left, most_takes};

use crate::node::Node;
use crate::table::{Table, try_value};
use crate::widens::Widens;
use fst_machine::Step;
use fst_queue::StateQueue;
use fst_semiring::Weight;
use fst_trim::{Link, Links};
use std::alloc::AllocError;

/// Whether a state counts.
pub(crate) fn is_open(marks: &[bool], state: u32) -> bool
    ensures { Decides result (IsOpen marks.now state) }
{
    let at = state as usize;
    at >= marks.len() || marks[at]
}

/// Looks along the links of a state that is taken: each state to which one leads gets the value that comes by it, where
/// this is better.
fn look<W: Weight, V: Copy, M: Widens<W, V>, Q: StateQueue>(
    table: &mut Table<W>,
    queue: &mut Q,
    links: &Links<V>,
    marks: &[bool],
    state: u32,
    mark: u32,
) -> Result<(), AllocError>
    requires mark { mark < 4294967295 }
    requires net { IsNet (IsHop M.value marks.now links.now) (length links.now) }
    requires known { (q : ℕ) (l : LinkValue V) → Has (get_or links.now q []) l → M.known l.weight }
    requires state { state < length links.now }
    requires turn { turn_at (map (valued_node W.wide_value) table.old.nodes.items) state ≡ mark }
    requires begun { (source : ℕ → Cost) × (k : ℕ) × (takes : ℕ) × (takes ≤ most_takes) × Searching W.KIND (IsHop M.value marks.now links.now) source (length links.now) M.bound k mark takes (λ q. Has (Q.members queue.old) q ⊎ (q ≡ state)) (map (valued_node W.wide_value) table.old.nodes.items) (Q.members queue.old) table.old.later.items table.old.met.items }
    ensures looked { OnOk result ((source : ℕ → Cost) (k takes : ℕ) → Searching W.KIND (IsHop M.value marks.now links.now) source (length links.now) M.bound k mark takes (λ q. Has (Q.members queue.old) q ⊎ (q ≡ state)) (map (valued_node W.wide_value) table.old.nodes.items) (Q.members queue.old) table.old.later.items table.old.met.items → Searching W.KIND (IsHop M.value marks.now links.now) source (length links.now) M.bound k mark (takes + 1) (Has (Q.members queue.new)) (map (valued_node W.wide_value) table.new.nodes.items) (Q.members queue.new) table.new.later.items table.new.met.items) }
    ensures left { OnOk result (left mark (map (valued_node W.wide_value) table.new.nodes.items) ≡ left mark (map (valued_node W.wide_value) table.old.nodes.items)) }
    ensures below { AreBelow (length links.now) (Q.members queue.old) → AreBelow (length links.now) (Q.members queue.new) }
{
    let so_far = table.nodes[state as usize].distance;
    let short = W::narrow(so_far);
    for link in links.links(state) {
        if !is_open(marks, link.next) {
            continue;
        }
        let value = M::product(link.weight, so_far, short);
        let step = Step {
            state,
            place: link.place,
        };
        try_value(table, queue, mark, link.next, value, step)?;
    }
    Ok(())
}

/// Reads the first link of the state that is likely taken next, so that the processor fetches it while it looks along the
/// links of another. What it gives says nothing.
fn read_ahead<V: Copy, Q: StateQueue>(queue: &Q, links: &Links<V>) -> u32
    requires { AreBelow (length links.now) (Q.members queue.now) }
{
    let Some(soon) = queue.peek() else {
        return 0;
    };
    match links.links(soon) {
        [first, ..] => first.next,
        [] => 0,
    }
}

/// Takes the states of a round, and gives how many these are.
fn take_all<W: Weight, V: Copy, M: Widens<W, V>, Q: StateQueue>(
    table: &mut Table<W>,
    queue: &mut Q,
    links: &Links<V>,
    marks: &[bool],
    mark: u32,
) -> Result<usize, AllocError>
    requires mark { mark < 4294967295 }
    requires size { length links.now ≤ most_states }
    requires net { IsNet (IsHop M.value marks.now links.now) (length links.now) }
    requires known { (q : ℕ) (l : LinkValue V) → Has (get_or links.now q []) l → M.known l.weight }
    requires begun { (source : ℕ → Cost) × (k : ℕ) × (takes : ℕ) × (takes + length links.now ≤ most_takes) × Searching W.KIND (IsHop M.value marks.now links.now) source (length links.now) M.bound k mark takes (Has (Q.members queue.old)) (map (valued_node W.wide_value) table.old.nodes.items) (Q.members queue.old) table.old.later.items table.old.met.items }
    ensures taken { IfOk result (λ t. (source : ℕ → Cost) (k takes : ℕ) → Searching W.KIND (IsHop M.value marks.now links.now) source (length links.now) M.bound k mark takes (Has (Q.members queue.old)) (map (valued_node W.wide_value) table.old.nodes.items) (Q.members queue.old) table.old.later.items table.old.met.items → Searching W.KIND (IsHop M.value marks.now links.now) source (length links.now) M.bound k mark (takes + t) (Has (Q.members queue.new)) (map (valued_node W.wide_value) table.new.nodes.items) (Q.members queue.new) table.new.later.items table.new.met.items) }
    ensures few { IfOk result (λ t. t ≤ length links.now) }
    ensures empty { OnOk result (Q.members queue.new ≡ []) }
    ensures below { AreBelow (length links.now) (Q.members queue.new) }
{
    let mut taken = 0;
    while let Some(state) = queue.take() {
        table.nodes[state as usize].turn = mark;
        table.ahead = read_ahead(queue, links);
        look::<W, V, M, Q>(table, queue, links, marks, state, mark)?;
        taken += 1;
    }
    Ok(taken)
}

/// The state to which so many links lead back; `None` where fewer lead to a state that has none.
fn follow<W: Weight>(nodes: &Vec<Node<W::Wide>>, from: u32, steps: usize) -> Option<u32>
    requires from { from < length nodes.now.items }
    requires low { (q : ℕ) (s : Step) → link_at (map (valued_node W.wide_value) nodes.now.items) q ≡ Some s → s.state < length nodes.now.items }
    ensures leads { IfSome result (λ x. (trail : List Step) × IsTrail (link_at (map (valued_node W.wide_value) nodes.now.items)) from trail x × (length trail ≡ steps)) }
    ensures ends { IfNone result ((trail : List Step) × (x : ℕ) × IsTrail (link_at (map (valued_node W.wide_value) nodes.now.items)) from trail x × (length trail < steps) × (link_at (map (valued_node W.wide_value) nodes.now.items) x ≡ None)) }
{
    let mut at = from;
    for _ in 0..steps {
        let Some(step) = nodes[at as usize].link else {
            return None;
        };
        at = step.state;
    }
    Some(at)
}

/// Puts the states that were put off.
fn put_all<W: Weight, Q: StateQueue>(table: &mut Table<W>, queue: &mut Q) -> Result<(), AllocError>
    requires low { AreBelow (length table.old.nodes.items) table.old.later.items }
    ensures nodes { table.new.nodes.items ≡ table.old.nodes.items }
    ensures met { table.new.met.items ≡ table.old.met.items }
    ensures none { OnOk result (table.new.later.items ≡ []) }
    ensures members { OnOk result ((q : ℕ) → (Has (Q.members queue.new) q → Has (Q.members queue.old) q ⊎ Has table.old.later.items q) × (Has table.old.later.items q → Has (Q.members queue.new) q)) }
    ensures below { AreBelow (length table.old.nodes.items) (Q.members queue.old) → AreBelow (length table.old.nodes.items) (Q.members queue.new) }
{
    for state in &table.later {
        let distance = table.nodes[*state as usize].distance;
        queue.put(*state, W::key(distance))?;
    }
    table.later.clear();
    Ok(())
}

/// A state to which the links lead back, looked for once as many states were taken as there are, and behind the last
/// round.
fn turned<W: Weight>(table: &Table<W>, round: u32, since: usize) -> Option<u32>
    requires some { 0 < length table.now.later.items }
    requires later { AreBelow (length table.now.nodes.items) table.now.later.items }
    requires low { (q : ℕ) (s : Step) → link_at (map (valued_node W.wide_value) table.now.nodes.items) q ≡ Some s → s.state < length table.now.nodes.items }
    ensures found { IfSome result (λ x. (trail : List Step) × IsTrail (link_at (map (valued_node W.wide_value) table.now.nodes.items)) (get_or table.now.later.items 0 0) trail x × (length trail ≡ length table.now.nodes.items)) }
    ensures goes_on { IfNone result (length table.now.nodes.items ≤ round → (trail : List Step) × (x : ℕ) × IsTrail (link_at (map (valued_node W.wide_value) table.now.nodes.items)) (get_or table.now.later.items 0 0) trail x × (length trail < length table.now.nodes.items) × (link_at (map (valued_node W.wide_value) table.now.nodes.items) x ≡ None)) }
{
    let states = table.nodes.len();
    if (round as usize) < states && since < states {
        return None;
    }
    follow::<W>(&table.nodes, table.later[0], states)
}

/// How many states were taken since the last look along the links.
fn since_look(since: usize, states: usize) -> usize
    ensures { result ≤ states }
{
    if since < states { since } else { 0 }
}

/// The search: no answer where each state has its distance, else a state to which the links lead back. The states that
/// have a value wait in the queue.
pub(crate) fn search<W: Weight, V: Copy, M: Widens<W, V>, Q: StateQueue>(
    table: &mut Table<W>,
    queue: &mut Q,
    links: &Links<V>,
    marks: &[bool],
) -> Result<Option<u32>, AllocError>
    requires size { length links.now ≤ most_states }
    requires net { IsNet (IsHop M.value marks.now links.now) (length links.now) }
    requires known { (q : ℕ) (l : LinkValue V) → Has (get_or links.now q []) l → M.known l.weight }
    requires none { table.old.later.items ≡ [] }
    requires begun { (source : ℕ → Cost) × Searching W.KIND (IsHop M.value marks.now links.now) source (length links.now) M.bound 0 1 0 (Has (Q.members queue.old)) (map (valued_node W.wide_value) table.old.nodes.items) (Q.members queue.old) [] table.old.met.items }
    ensures found { IfOk result (λ r. (source : ℕ → Cost) → Searching W.KIND (IsHop M.value marks.now links.now) source (length links.now) M.bound 0 1 0 (Has (Q.members queue.old)) (map (valued_node W.wide_value) table.old.nodes.items) (Q.members queue.old) [] table.old.met.items → Answers W.KIND (IsHop M.value marks.now links.now) source (length links.now) M.bound (map (valued_node W.wide_value) table.new.nodes.items) (Q.members queue.new) table.new.met.items r) }
    ensures later { IfOk result (λ r. IfNone r (table.new.later.items ≡ [])) }
    ensures below { AreBelow (length links.now) (Q.members queue.new) }
{
    let states = table.nodes.len();
    let mut round = 0;
    let mut since = 0;
    'rounds: loop {
        since += take_all::<W, V, M, Q>(table, queue, links, marks, 2 * round + 1)?;
        if table.later.is_empty() {
            return Ok(None);
        }
        if let Some(state) = turned(table, round, since) {
            return Ok(Some(state));
        }
        since = since_look(since, states);
        put_all(table, queue)?;
        round += 1;
    }
}
