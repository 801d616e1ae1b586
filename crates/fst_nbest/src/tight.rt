//! The arcs of best paths, seen from where they lead.

ghost use Rattle.std.specs.Prelude.{◌≡◌, ◌<◌, [], length, get_or};
ghost use Rattle.fst_semiring.specs.Semiring.{Within};
ghost use Rattle.fst_nbest.specs.Ready.{dist_in, most_distance};

use crate::counting::Backward;
use crate::values::{is_same, is_zero_wide};
use fst_search::Widens;
use fst_semiring::Weight;
use fst_trim::{Link, Links};
use std::alloc::AllocError;
use std::marker::Model;

/// A machine with the distances of its states to the final states, and with its arcs by the states to which they lead.
/// Its hops are along the arcs that are the first of best paths.
pub(crate) struct TightBack<'a, W: Weight, V: Copy, M: Widens<W, V>> {
    pub(crate) fst: &'a M,
    pub(crate) links: &'a Links<V>,
    pub(crate) dist: &'a Vec<W::Wide>,
}

impl<'a, W: Weight, V: Copy, M: Widens<W, V>> Drop for TightBack<'a, W, V, M> {
    fn drop(self) {
        let TightBack {
            fst: _,
            links: _,
            dist: _,
        } = self;
    }
}

impl<'a, W: Weight, V: Copy, M: Widens<W, V>> Model for TightBack<'a, W, V, M> {
    ghost use Rattle.std.specs.Prelude.{◌≡◌};
    ghost use Rattle.fst_trim.specs.Links.{turned_links};
    ghost use Rattle.fst_nbest.specs.Ready.{HasDistances, Measured};

    ghost Value = { Measured V W.Wide };

    ghost view = { λ s. record { machine = M.machine s.fst.now; dist = s.dist.now.items } };

    ghost invariant = { λ s. HasDistances W.KIND M.value W.wide_value M.known (M.machine s.fst.now) s.dist.now.items × (s.links.now ≡ turned_links (M.machine s.fst.now).states) };
}

impl<'a, W: Weight, V: Copy, M: Widens<W, V>> TightBack<'a, W, V, M> {
    /// The distance of a state to the final states.
    fn distance(&self, state: u32) -> W::Wide
        requires { state < length self.now.machine.states }
        ensures same { W.wide_value result ≡ dist_in W.wide_value self.now.dist state }
        ensures range { Within most_distance (W.wide_value result) }
    {
        self.dist[state as usize]
    }
}

impl<'a, W: Weight, V: Copy, M: Widens<W, V>> Backward<V> for TightBack<'a, W, V, M> {
    ghost use Rattle.std.specs.Prelude.{[], length, get_or};
    ghost use Rattle.fst_trim.specs.Links.{turned_links};
    ghost use Rattle.fst_nbest.specs.Ready.{IsTightLink, IsTightStop};

    ghost size = { λ s. length s.machine.states };

    ghost stops = { λ s. IsTightStop M.value W.wide_value s.machine s.dist };

    ghost links = { λ s y. get_or (turned_links s.machine.states) y [] };

    ghost leads = { λ s. IsTightLink W.KIND M.value W.wide_value s.dist };

    ghost within = { λ s x stop. stop.low };

    fn name_count(&self) -> u32 {
        self.fst.state_count()
    }

    fn is_stop(&self, name: u32) -> bool {
        let last = M::widened(self.fst.final_at(name));
        if is_zero_wide::<W>(last) {
            return false;
        }
        is_same::<W>(last, self.distance(name))
    }

    fn links_to(&self, name: u32) -> &[Link<V>] {
        self.links.links(name)
    }

    fn put_source(
        &self,
        sources: &mut Vec<u32>,
        link: &Link<V>,
        name: u32,
    ) -> Result<(), AllocError> {
        // What holds of the machine.
        let _states = self.fst.state_count();
        let total = W::wide_times(M::widened(link.weight), self.distance(name));
        if is_same::<W>(total, self.distance(link.next)) {
            sources.push(link.next)?;
        }
        Ok(())
    }
}
