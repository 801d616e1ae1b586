//! The n best paths where the product is the worse of two weights: those of one total weight after those of the other.

ghost use Rattle.std.specs.Prelude.{◌≡◌, ◌≢◌, ◌<◌, ◌≤◌, ◌+◌, ◌-◌, ◌++◌, ℕ, List, Some, IfOk, OnOk, false, length, map};
ghost use Rattle.std.specs.Bool.{Decides};
ghost use Rattle.std.specs.Option.{option_map};
ghost use Rattle.fst_semiring.specs.declared.arc_type.ArcType.TheVariants as kinds;
ghost use Rattle.fst_semiring.specs.Cost.{infinite};
ghost use Rattle.fst_semiring.specs.Semiring.{cancels};
ghost use Rattle.fst_machine.specs.Graph.{graph_of};
ghost use Rattle.fst_machine.specs.Machine.{valued};
ghost use Rattle.fst_machine.specs.PathOrder.{WeightedPath};
ghost use Rattle.fst_machine.specs.Paths.{places};
ghost use Rattle.fst_machine.specs.Steps.{written};
ghost use Rattle.fst_trim.specs.Links.{turned_links};
ghost use Rattle.fst_nbest.specs.Classes.{IsClass, IsClassReady};
ghost use Rattle.fst_nbest.specs.FirstPaths.{AreFirstPaths};
ghost use Rattle.fst_nbest.specs.Ready.{HasDistances, dist_in};
ghost use Rattle.fst_nbest.specs.Totals.{AreFirstOf};

use crate::class_back::ClassBack;
use crate::class_system::ClassSystem;
use crate::counting::{UNCOUNTED, counts_back};
use crate::enumerating::first_words;
use crate::heap::take;
use crate::naming::{is_reached_by, named};
use crate::totals::{ByWeight, totals_of};
use crate::traced::put_traced;
use crate::values::is_same;
use fst_machine::{Paths, Steps};
use fst_search::Widens;
use fst_semiring::Weight;
use fst_trim::Links;
use std::alloc::{AllocError, Global};
use std::marker::PhantomData;
use std::sync::ledger::Ledger;

/// The counts of arcs ahead on paths of one total weight.
pub(crate) fn counts_in_class<W: Weight, V: Copy, M: Widens<W, V>>(
    alloc: Global,
    fst: &M,
    links: &Links<V>,
    total: W::Wide,
) -> Result<Vec<u32>, AllocError>
    requires class { IsClass M.value M.known (M.machine fst.now) (W.wide_value total) }
    requires links { links.now ≡ turned_links (M.machine fst.now).states }
    ensures { IfOk result (λ v. IsClassReady M.value M.known (M.machine fst.now) (W.wide_value total) v.items) }
{
    let back = ClassBack { fst, links, total };
    counts_back::<V, ClassBack<W, V, M>>(alloc, &back)
}

/// Lists the first paths of one total weight behind those that are listed, until there are `n`.
fn list_class<W: Weight, V: Copy, M: Widens<W, V>, L: Ledger>(
    alloc: Global,
    fst: &M,
    links: &Links<V>,
    start: u32,
    total: W::Wide,
    n: usize,
    paths: &mut Paths,
    steps: &mut Steps<L>,
) -> Result<(), AllocError>
    requires kind { cancels W.KIND ≡ false }
    requires class { IsClass M.value M.known (M.machine fst.now) (W.wide_value total) }
    requires links { links.now ≡ turned_links (M.machine fst.now).states }
    requires start { (M.machine fst.now).start ≡ Some start }
    requires low { start < length (M.machine fst.now).states }
    requires room { length paths.old < n }
    ensures listed { OnOk result ((more : List (WeightedPath ℕ)) × AreFirstOf W.KIND (graph_of (valued M.value (M.machine fst.now))) (W.wide_value total) (n - length paths.old) more × (map written paths.new ≡ map written paths.old ++ map (λ a. places a.path) more)) }
    ensures steps { OnOk result (steps.new + length paths.old ≡ steps.old + length paths.new) }
{
    let states = fst.state_count();
    let counts = counts_in_class::<W, V, M>(alloc, fst, links, total)?;
    let name = named(
        states,
        start,
        is_reached_by::<W>(total, false, W::one().widen()),
    );
    if counts[name as usize] >= UNCOUNTED {
        return Ok(());
    }
    let system = ClassSystem {
        fst,
        total,
        counts: &counts,
        weight: PhantomData,
    };
    let words = first_words(alloc, &system, name, n - paths.len(), steps)?;
    put_traced::<V, M>(alloc, paths, fst, start, &words)?;
    Ok(())
}

/// Whether the paths of this total weight have been looked at.
fn is_done<W: Weight>(last: Option<W::Wide>, total: W::Wide) -> bool
    ensures { Decides result (option_map W.wide_value last ≡ Some (W.wide_value total)) }
{
    match last {
        Some(before) => is_same::<W>(before, total),
        None => false,
    }
}

/// The first paths where a product is the worse of two weights. Then the order of what is ahead of a state differs
/// behind different paths, so that the paths of each total weight are listed by themselves, the better totals first.
pub(crate) fn by_classes<W: Weight, V: Copy, M: Widens<W, V>, L: Ledger>(
    alloc: Global,
    fst: &M,
    dist: &Vec<W::Wide>,
    start: u32,
    n: u32,
    steps: &mut Steps<L>,
) -> Result<Paths, AllocError>
    requires kind { cancels W.KIND ≡ false }
    requires measured { HasDistances W.KIND M.value W.wide_value M.known (M.machine fst.now) dist.now.items }
    requires start { (M.machine fst.now).start ≡ Some start }
    requires low { start < length (M.machine fst.now).states }
    ensures first { IfOk result (λ paths. AreFirstPaths W.KIND (graph_of (valued M.value (M.machine fst.now))) n (map written paths)) }
    ensures steps { IfOk result (λ paths. steps.new ≡ steps.old + length paths) }
{
    // What holds of the machine.
    let _states = fst.state_count();
    let n = n as usize;
    let by = ByWeight::<W> {
        weight: PhantomData,
    };
    let links = Links::turned(alloc, fst)?;
    let mut totals = totals_of::<W, V, M>(alloc, fst, dist, start)?;
    let mut last = None;
    let mut paths = Paths::new(alloc);
    'classes: while paths.len() < n {
        let Some(total) = take(&mut totals, &by) else {
            return Ok(paths);
        };
        if is_done::<W>(last, total) {
            continue;
        }
        list_class::<W, V, M, L>(alloc, fst, &links, start, total, n, &mut paths, steps)?;
        last = Some(total);
    }
    Ok(paths)
}
