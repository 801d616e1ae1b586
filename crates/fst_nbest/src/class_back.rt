//! The arcs of paths of one total weight, seen from where they lead.

ghost use Rattle.std.specs.Prelude.{◌≡◌, ◌<◌, ◌≤◌, ◌+◌, ◌↔◌, ◌⊎◌, ℕ, true, All, OnOk};
ghost use Rattle.fst_machine.specs.BreadthFirst.{Has};
ghost use Rattle.fst_nbest.specs.Classes.{name_at};

use crate::counting::Backward;
use crate::naming::{is_fitting, is_reached_by, is_under, named, parted};
use fst_search::Widens;
use fst_semiring::Weight;
use fst_trim::{Link, Links};
use std::alloc::AllocError;
use std::marker::Model;

/// A machine with its arcs by the states to which they lead, and the total weight of the paths that are meant.
pub(crate) struct ClassBack<'a, W: Weight, V: Copy, M: Widens<W, V>> {
    pub(crate) fst: &'a M,
    pub(crate) links: &'a Links<V>,
    pub(crate) total: W::Wide,
}

impl<'a, W: Weight, V: Copy, M: Widens<W, V>> Drop for ClassBack<'a, W, V, M> {
    fn drop(self) {
        let ClassBack {
            fst: _,
            links: _,
            total: _,
        } = self;
    }
}

impl<'a, W: Weight, V: Copy, M: Widens<W, V>> Model for ClassBack<'a, W, V, M> {
    ghost use Rattle.std.specs.Prelude.{◌≡◌};
    ghost use Rattle.fst_trim.specs.Links.{turned_links};
    ghost use Rattle.fst_nbest.specs.Classes.{Class, IsClass};

    ghost Value = { Class V };

    ghost view = { λ s. record { machine = M.machine s.fst.now; total = W.wide_value s.total } };

    ghost invariant = { λ s. IsClass M.value M.known (M.machine s.fst.now) (W.wide_value s.total) × (s.links.now ≡ turned_links (M.machine s.fst.now).states) };
}

/// Puts a state's name with a mark, if it is to be put.
fn put_name(
    sources: &mut Vec<u32>,
    states: u32,
    state: u32,
    from: bool,
    is_source: bool,
) -> Result<(), AllocError>
    requires few { states ≤ 4194304 }
    requires state { state < states }
    ensures just { OnOk result ((x : ℕ) → Has sources.new.items x ↔ (Has sources.old.items x ⊎ ((x ≡ name_at states state from) × (is_source ≡ true)))) }
    ensures low { OnOk result (All (λ x. x < states + states) sources.old.items → All (λ x. x < states + states) sources.new.items) }
{
    if is_source {
        sources.push(named(states, state, from))?;
    }
    Ok(())
}

impl<'a, W: Weight, V: Copy, M: Widens<W, V>> Backward<V> for ClassBack<'a, W, V, M> {
    ghost use Rattle.std.specs.Prelude.{◌+◌, length};
    ghost use Rattle.fst_nbest.specs.Classes.{IsClassLink, IsClassStop, class_links};

    ghost size = { λ s. length s.machine.states + length s.machine.states };

    ghost stops = { λ s. IsClassStop M.value s.machine s.total };

    ghost links = { λ s. class_links s.machine };

    ghost leads = { λ s. IsClassLink M.value (length s.machine.states) s.total };

    ghost within = { λ s x stop. stop.low };

    fn name_count(&self) -> u32 {
        let states = self.fst.state_count();
        states + states
    }

    fn is_stop(&self, name: u32) -> bool {
        let (state, reached) = parted(self.fst.state_count(), name);
        let last = M::widened(self.fst.final_at(state));
        is_fitting::<W>(self.total, reached, last)
    }

    fn links_to(&self, name: u32) -> &[Link<V>] {
        let (state, _) = parted(self.fst.state_count(), name);
        self.links.links(state)
    }

    fn put_source(
        &self,
        sources: &mut Vec<u32>,
        link: &Link<V>,
        name: u32,
    ) -> Result<(), AllocError> {
        let states = self.fst.state_count();
        let weight = M::widened(link.weight);
        if !is_under::<W>(self.total, weight) {
            return Ok(());
        }
        let (_, reached) = parted(states, name);
        let first = reached == is_reached_by::<W>(self.total, true, weight);
        put_name(sources, states, link.next, true, first)?;
        let second = reached == is_reached_by::<W>(self.total, false, weight);
        put_name(sources, states, link.next, false, second)?;
        Ok(())
    }
}
