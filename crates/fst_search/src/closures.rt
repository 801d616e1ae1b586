//! Searches along epsilon arcs, one state after the other, in one table.

ghost use Rattle.std.specs.Prelude.{◌≡◌, ◌*◌, ◌<◌, [], true, IfErr, IfOk, OnOk, length, map};
ghost use Rattle.fst_machine.specs.Graph.{graph_of};
ghost use Rattle.fst_machine.specs.Machine.{valued};
ghost use Rattle.fst_trim.specs.Links.{epsilon_links};
ghost use Rattle.fst_search.specs.Closure.{IsClosure, IsSilentCycle, valued_reached};
ghost use Rattle.fst_search.specs.Trying.{AreBelow};

use crate::beginning::blank_table;
use crate::closing::closure;
use crate::short_search::near;
use crate::table::Table;
use crate::unmeeting::Reached;
use fst_machine::{Fst, Path};
use fst_queue::StateQueue;
use fst_semiring::Weight;
use fst_trim::Links;
use std::alloc::{AllocError, Global};
use std::marker::Model;

/// A search along the epsilon arcs of a machine that serves one state after the other. Contracts see the epsilon links
/// of the machine.
///
/// It takes 40 bytes for each state with weights of 8 bytes, and 16 for each epsilon arc.
#[derive(Drop)]
pub struct Closures<W: Weight> {
    table: Table<W>,
    places: Vec<u32>,
    links: Links<W>,
}

impl<W: Weight> Model for Closures<W> {
    ghost use Rattle.std.specs.Prelude.{◌≡◌, List, [], length, map};
    ghost use Rattle.fst_trim.specs.Links.{Link};
    ghost use Rattle.fst_search.specs.Beginning.{IsBlank};
    ghost use Rattle.fst_search.specs.Near.{HasNoPlaces};
    ghost use Rattle.fst_search.specs.Searching.{valued_node};

    ghost Value = { List (List (Link W)) };

    ghost view = { λ c. c.links };

    ghost invariant = { λ c. IsBlank (length c.links) (map (valued_node W.wide_value) c.table.nodes.items) × (c.table.later.items ≡ []) × (c.table.met.items ≡ []) × HasNoPlaces (length c.links) c.places.items };
}

/// What epsilon arcs reach from a state, and the search, which may go on with another state.
#[derive(Drop)]
pub struct Closed<W: Weight> {
    /// The search.
    pub closures: Closures<W>,
    /// The states that epsilon arcs reach, each once, with their distances.
    pub reached: Vec<Reached<W::Wide>>,
}

impl<W: Weight> Closures<W> {
    /// The search along the epsilon arcs of a machine. Time and space: linear in the states and the arcs.
    pub fn new(alloc: Global, fst: &Fst<W>) -> Result<Closures<W>, AllocError>
        ensures { IfOk result (λ c. c ≡ epsilon_links fst.now.states) }
    {
        let links = Links::epsilons(alloc, fst)?;
        let table = blank_table::<W>(alloc, links.len())?;
        let places = vec![in alloc; 0u32; links.len()]?;
        Ok(Closures {
            table,
            places,
            links,
        })
    }

    /// The states that epsilon arcs of the machine reach from a state, the state itself among them, each once and with
    /// its distance over such arcs, where a short search without a queue finds them; it tells whether it does. If not,
    /// `closure` finds them.
    ///
    /// Time: linear in what is met of states, and in their epsilon arcs as often as they hand on. Space: the answer.
    pub fn near(
        &mut self,
        fst: &Fst<W>,
        state: u32,
        reached: &mut Vec<Reached<W>>,
    ) -> Result<bool, AllocError>
        requires links { self.old ≡ epsilon_links fst.now.states }
        requires state { state < length fst.now.states }
        ensures same { self.new ≡ self.old }
        ensures closure { IfOk result (λ soon. soon ≡ true → IsClosure W.KIND (graph_of (valued W.value fst.now)) state (length fst.now.states * 1000000000000000000) (map (valued_reached W.value) reached.new.items)) }
    {
        near(fst, &mut self.places, reached, &self.links, state)
    }

    /// The states that epsilon arcs of the machine reach from a state, the state itself among them, each once and with
    /// its distance over such arcs; or a cycle of such arcs on these states that is better than One, so that there are
    /// no such distances.
    ///
    /// Time: as a search, over these states alone. Space: the answer.
    pub fn closure<Q: StateQueue>(
        self,
        alloc: Global,
        fst: &Fst<W>,
        queue: &mut Q,
        state: u32,
    ) -> Result<Result<Closed<W>, Path>, AllocError>
        requires links { self ≡ epsilon_links fst.now.states }
        requires state { state < length fst.now.states }
        requires empty { Q.members queue.old ≡ [] }
        ensures closures { IfOk result (λ r. IfOk r (λ c. c.closures ≡ epsilon_links fst.now.states)) }
        ensures closure { IfOk result (λ r. IfOk r (λ c. IsClosure W.KIND (graph_of (valued W.value fst.now)) state (length fst.now.states * 1000000000000000000) (map (valued_reached W.wide_value) c.reached.items))) }
        ensures cycle { IfOk result (λ r. IfErr r (IsSilentCycle W.KIND (graph_of (valued W.value fst.now)) state)) }
        ensures empty { IfOk result (λ r. OnOk r (Q.members queue.new ≡ [])) }
        ensures below { AreBelow (length fst.now.states) (Q.members queue.new) }
    {
        let Closures {
            mut table,
            places,
            links,
        } = self;
        match closure(alloc, fst, &mut table, &links, queue, state)? {
            Ok(reached) => Ok(Ok(Closed {
                closures: Closures {
                    table,
                    places,
                    links,
                },
                reached,
            })),
            Err(cycle) => Ok(Err(cycle)),
        }
    }
}
