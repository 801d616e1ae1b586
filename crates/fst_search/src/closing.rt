//! The states that epsilon arcs reach from a state, with their distances.

ghost use Rattle.std.specs.Prelude.{◌≡◌, ◌*◌, ◌<◌, [], IfErr, IfNone, IfOk, OnOk, get_or, length, map};
ghost use Rattle.fst_machine.specs.Graph.{graph_of};
ghost use Rattle.fst_machine.specs.Machine.{valued};
ghost use Rattle.fst_trim.specs.Links.{epsilon_links};
ghost use Rattle.fst_search.specs.Beginning.{IsBlank};
ghost use Rattle.fst_search.specs.Closure.{IsClosure, IsSilentCycle, Searched, valued_reached};
ghost use Rattle.fst_search.specs.Searching.{valued_node};
ghost use Rattle.fst_search.specs.Trying.{AreBelow};

use crate::beginning::begin_at;
use crate::cycle::solve;
use crate::direction::Direction;
use crate::table::Table;
use crate::unmeeting::{Reached, take_met};
use fst_machine::{Fst, Path};
use fst_queue::StateQueue;
use fst_semiring::Weight;
use fst_trim::Links;
use std::alloc::{AllocError, Global};

/// Searches along epsilon arcs from a state: no answer where each state has its distance, else a cycle that is better
/// than One.
fn search_from<W: Weight, Q: StateQueue>(
    alloc: Global,
    fst: &Fst<W>,
    table: &mut Table<W>,
    links: &Links<W>,
    queue: &mut Q,
    state: u32,
) -> Result<Option<Path>, AllocError>
    requires links { links.now ≡ epsilon_links fst.now.states }
    requires state { state < length fst.now.states }
    requires empty { Q.members queue.old ≡ [] }
    requires blank { IsBlank (length fst.now.states) (map (valued_node W.wide_value) table.old.nodes.items) }
    requires later { table.old.later.items ≡ [] }
    requires met { table.old.met.items ≡ [] }
    ensures searched { IfOk result (λ r. Searched W.KIND W.value fst.now.states state (map (valued_node W.wide_value) table.new.nodes.items) (Q.members queue.new) table.new.met.items r) }
    ensures later { IfOk result (λ r. IfNone r (table.new.later.items ≡ [])) }
    ensures below { AreBelow (length fst.now.states) (Q.members queue.new) }
{
    let _states = fst.states();
    begin_at(table, queue, state, W::one().widen())?;
    let marks = Vec::new(alloc);
    let found = solve::<W, W, Fst<W>, Q>(
        alloc,
        table,
        queue,
        links,
        marks.as_slice(),
        Direction::FromStart,
    )?;
    Ok(found)
}

/// The state alone, which no epsilon arc leaves.
fn alone<W: Weight>(
    alloc: Global,
    fst: &Fst<W>,
    state: u32,
) -> Result<Vec<Reached<W::Wide>>, AllocError>
    requires state { state < length fst.now.states }
    requires none { get_or (epsilon_links fst.now.states) state [] ≡ [] }
    ensures { IfOk result (λ list. IsClosure W.KIND (graph_of (valued W.value fst.now)) state (length fst.now.states * 1000000000000000000) (map (valued_reached W.wide_value) list.items)) }
{
    let _states = fst.states();
    let mut list = Vec::with_capacity(alloc, 1)?;
    let distance = W::one().widen();
    list.push(Reached { state, distance })?;
    Ok(list)
}

/// The states that epsilon arcs reach from a state, each once and with its distance over such arcs, or a cycle of them
/// that is better than One. The table is then blank again.
pub(crate) fn closure<W: Weight, Q: StateQueue>(
    alloc: Global,
    fst: &Fst<W>,
    table: &mut Table<W>,
    links: &Links<W>,
    queue: &mut Q,
    state: u32,
) -> Result<Result<Vec<Reached<W::Wide>>, Path>, AllocError>
    requires links { links.now ≡ epsilon_links fst.now.states }
    requires state { state < length fst.now.states }
    requires empty { Q.members queue.old ≡ [] }
    requires blank { IsBlank (length fst.now.states) (map (valued_node W.wide_value) table.old.nodes.items) }
    requires later { table.old.later.items ≡ [] }
    requires met { table.old.met.items ≡ [] }
    ensures closure { IfOk result (λ r. IfOk r (λ list. IsClosure W.KIND (graph_of (valued W.value fst.now)) state (length fst.now.states * 1000000000000000000) (map (valued_reached W.wide_value) list.items))) }
    ensures cycle { IfOk result (λ r. IfErr r (IsSilentCycle W.KIND (graph_of (valued W.value fst.now)) state)) }
    ensures blank { IfOk result (λ r. OnOk r (IsBlank (length fst.now.states) (map (valued_node W.wide_value) table.new.nodes.items))) }
    ensures later { IfOk result (λ r. OnOk r (table.new.later.items ≡ [])) }
    ensures met { IfOk result (λ r. OnOk r (table.new.met.items ≡ [])) }
    ensures empty { IfOk result (λ r. OnOk r (Q.members queue.new ≡ [])) }
    ensures below { AreBelow (length fst.now.states) (Q.members queue.new) }
{
    let _states = fst.states();
    if links.links(state).is_empty() {
        let own = alone(alloc, fst, state)?;
        return Ok(Ok(own));
    }
    if let Some(path) = search_from(alloc, fst, table, links, queue, state)? {
        return Ok(Err(path));
    }
    let list = take_met(alloc, table)?;
    Ok(Ok(list))
}
