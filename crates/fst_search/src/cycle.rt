//! The cycle that a search lists.

ghost use Rattle.std.specs.Prelude.{◌≡◌, ◌≤◌, ◌<◌, ◌++◌, ◌∷◌, ℕ, List, [], Some, IfOk, IfNone, OnOk, length, get_or, map, reverse};
ghost use Rattle.fst_semiring.specs.Cost.{Cost};
ghost use Rattle.fst_machine.specs.BreadthFirst.{Has};
ghost use Rattle.fst_machine.specs.Machine.{most_states};
ghost use Rattle.fst_machine.specs.declared.path.Step.{Step};
ghost use Rattle.fst_trim.specs.Links.{Link as LinkValue};
ghost use Rattle.fst_search.specs.Cycles.{Solves, in_order, link_step, told};
ghost use Rattle.fst_search.specs.Hops.{IsHop, IsNet};
ghost use Rattle.fst_search.specs.Searching.{IsTrail, Searching, link_at, valued_node};
ghost use Rattle.fst_search.specs.Trying.{AreBelow};

use crate::direction::Direction;
use crate::node::Node;
use crate::searching::search;
use crate::table::Table;
use crate::widens::Widens;
use fst_machine::{Path, Step};
use fst_queue::StateQueue;
use fst_semiring::Weight;
use fst_trim::Links;
use std::alloc::{AllocError, Global};

/// The step of the machine that the link of a state is.
fn step_along(direction: Direction, state: u32, link: Step) -> Step
    ensures { result ≡ link_step direction state link }
{
    match direction {
        Direction::FromStart => link,
        Direction::ToFinals => Step {
            state,
            place: link.place,
        },
    }
}

/// The steps from a state back along the links until they are at that state again.
fn cycle_from<W: Weight>(
    alloc: Global,
    nodes: &Vec<Node<W::Wide>>,
    direction: Direction,
    state: u32,
) -> Result<Vec<Step>, AllocError>
    requires low { (q : ℕ) (s : Step) → link_at (map (valued_node W.wide_value) nodes.now.items) q ≡ Some s → (q < length nodes.now.items) × (s.state < length nodes.now.items) }
    requires turns { (trail : List Step) × IsTrail (link_at (map (valued_node W.wide_value) nodes.now.items)) state trail state × (1 ≤ length trail) × (length trail ≤ length nodes.now.items) }
    ensures { IfOk result (λ steps. (trail : List Step) × IsTrail (link_at (map (valued_node W.wide_value) nodes.now.items)) state trail state × (1 ≤ length trail) × (steps.items ≡ told direction state trail)) }
{
    let mut steps = Vec::new(alloc);
    let mut at = state;
    for _ in 0..nodes.len() {
        let Some(link) = nodes[at as usize].link else {
            unreachable!();
        };
        steps.push(step_along(direction, at, link))?;
        at = link.state;
        if at == state {
            return Ok(steps);
        }
    }
    unreachable!()
}

/// Adds steps to a path, from the first on.
fn push_along(path: &mut Path, steps: &[Step]) -> Result<(), AllocError>
    ensures { OnOk result (path.new ≡ path.old ++ steps.now) }
{
    for step in steps {
        path.push(*step)?;
    }
    Ok(())
}

/// Adds steps to a path, from the last on.
fn push_back(path: &mut Path, steps: &[Step]) -> Result<(), AllocError>
    ensures { OnOk result (path.new ≡ path.old ++ reverse steps.now) }
{
    let mut left = steps.len();
    while 0 < left {
        left -= 1;
        path.push(steps[left])?;
    }
    Ok(())
}

/// Steps that were told from the end of a path of hops, as a path of the machine.
fn path_of(alloc: Global, direction: Direction, steps: &[Step]) -> Result<Path, AllocError>
    ensures { IfOk result (λ path. path ≡ in_order direction steps.now) }
{
    let mut path = Path::new(alloc);
    match direction {
        Direction::FromStart => push_back(&mut path, steps)?,
        Direction::ToFinals => push_along(&mut path, steps)?,
    }
    Ok(path)
}

/// Searches, and lists the cycle of links that is found.
pub(crate) fn solve<W: Weight, V: Copy, M: Widens<W, V>, Q: StateQueue>(
    alloc: Global,
    table: &mut Table<W>,
    queue: &mut Q,
    links: &Links<V>,
    marks: &[bool],
    direction: Direction,
) -> Result<Option<Path>, AllocError>
    requires size { length links.now ≤ most_states }
    requires net { IsNet (IsHop M.value marks.now links.now) (length links.now) }
    requires known { (q : ℕ) (l : LinkValue V) → Has (get_or links.now q []) l → M.known l.weight }
    requires none { table.old.later.items ≡ [] }
    requires begun { (source : ℕ → Cost) × Searching W.KIND (IsHop M.value marks.now links.now) source (length links.now) M.bound 0 1 0 (Has (Q.members queue.old)) (map (valued_node W.wide_value) table.old.nodes.items) (Q.members queue.old) [] table.old.met.items }
    ensures found { IfOk result (λ r. (source : ℕ → Cost) → Searching W.KIND (IsHop M.value marks.now links.now) source (length links.now) M.bound 0 1 0 (Has (Q.members queue.old)) (map (valued_node W.wide_value) table.old.nodes.items) (Q.members queue.old) [] table.old.met.items → Solves W.KIND (IsHop M.value marks.now links.now) source direction (length links.now) M.bound (map (valued_node W.wide_value) table.new.nodes.items) (Q.members queue.new) table.new.met.items r) }
    ensures later { IfOk result (λ r. IfNone r (table.new.later.items ≡ [])) }
    ensures below { AreBelow (length links.now) (Q.members queue.new) }
{
    let Some(state) = search::<W, V, M, Q>(table, queue, links, marks)? else {
        return Ok(None);
    };
    let steps = cycle_from::<W>(alloc, &table.nodes, direction, state)?;
    let path = path_of(alloc, direction, steps.as_slice())?;
    Ok(Some(path))
}
