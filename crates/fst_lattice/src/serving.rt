//! A worker serves its jobs, one after the other.

ghost use Rattle.std.specs.Prelude.{◌≡◌, ◌+◌, ◌<◌, ◌≤◌, ◌++◌, ◌∷◌, ◌^◌, [], ℕ, List, true, IfOk, MatchBool, OnOk, Some, length, map, slice_get};
ghost use Rattle.fst_machine.specs.BreadthFirst.{Has};
ghost use Rattle.fst_walk.specs.Names.{key_arc};
ghost use Rattle.fst_claims.specs.Passes.{IsPassOf, found, parts, won};
ghost use Rattle.fst_delayed.specs.Caches.{IsTrueOf, keys};
ghost use Rattle.fst_delayed.specs.Coding.{code_of};
ghost use Rattle.fst_delayed.specs.Graphs.{IsKeyOf, delayed_graph};
ghost use Rattle.fst_delayed.specs.Handed.{Name};
ghost use Rattle.fst_machine.specs.Machine.{Arc};
ghost use Rattle.fst_lattice.specs.Serving.{HasServed, IsBlocked, IsGrown, IsJobOf, IsOwn, IsSameJob, IsSettled};
ghost use Rattle.fst_lattice.specs.Walks.{IsJob, LineWalk};

use crate::gate::Gate;
use crate::job::Job;
use crate::lines::Lines;
use crate::state::JobState;
use fst_claims::{Claim, Claims, Pass};
use fst_delayed::{Cache, ComposeKey, Delayed, KeyArc, Meter, code};
use fst_semiring::Weight;
use std::alloc::{AllocError, Global};

/// Claims a code. Whether it was won.
fn wins(claims: &Claims, pass: &mut Pass, code: u64) -> bool
    requires pass { IsPassOf claims.now pass.old }
    requires code { 0 < code }
    ensures pass { IsPassOf claims.now pass.new × (parts pass.new ≡ parts pass.old) }
    ensures found { (seen : List (ℕ × ℕ)) × (found pass.new ≡ found pass.old ++ seen) }
    ensures won { MatchBool result ((won pass.new ≡ won pass.old ++ code ∷ []) × (IsBlocked claims.now.places (found pass.old) code → ⊥) × (length (won pass.new) ≤ claims.now.places)) ((won pass.new ≡ won pass.old) × IsBlocked claims.now.places (found pass.new) code) }
{
    match claims.claim(pass, code) {
        Claim::Won => true,
        Claim::Taken => false,
        Claim::Full => false,
    }
}

/// Claims the code of a name; where it is won, expands the name into the worker's own cache. Whether it was won.
fn win<W: Weight, G: Gate, M: Meter>(
    alloc: Global,
    delayed: &Delayed<'_, W, M>,
    gate: &G,
    number: u32,
    claims: &Claims,
    pass: &mut Pass,
    cache: &Cache<W>,
    own: &mut Cache<W>,
    meter: &mut M,
    key: ComposeKey,
) -> Result<bool, AllocError>
    requires pass { IsPassOf claims.now pass.old }
    requires key { IsKeyOf delayed.now key }
    requires absent { Has (keys cache.now ++ keys own.old) key → ⊥ }
    requires own { IsOwn W.wide_value (delayed_graph W.KIND W.value delayed.now) cache.now own.old (won pass.old) }
    requires few { M.count meter.old < 2 ^ 62 + length own.old }
    ensures pass { IsPassOf claims.now pass.new × (parts pass.new ≡ parts pass.old) }
    ensures found { (seen : List (ℕ × ℕ)) × (found pass.new ≡ found pass.old ++ seen) }
    ensures own { OnOk result (IsOwn W.wide_value (delayed_graph W.KIND W.value delayed.now) cache.now own.new (won pass.new)) }
    ensures won { IfOk result (λ won. MatchBool won ((arcs : List (Arc W.Wide (Name ℕ ℕ))) × (own.new ≡ own.old ++ (key, arcs) ∷ []) × (IsBlocked claims.now.places (found pass.old) (code_of key) → ⊥)) ((own.new ≡ own.old) × IsBlocked claims.now.places (found pass.new) (code_of key))) }
    ensures count { OnOk result (M.count meter.new + length own.old ≡ M.count meter.old + length own.new) }
    ensures meter { OnOk result ((M.parts_out meter.new ≡ M.parts_out meter.old) × (M.is_part meter.new ≡ M.is_part meter.old)) }
{
    // No table has more places, so no more names were won than are counted here.
    let _places = claims.places();
    if !wins(claims, pass, code(key)) {
        return Ok(false);
    }
    gate.before_expand(number);
    let arcs = delayed.expand(alloc, key, pass, meter)?;
    gate.after_expand(number);
    own.add(key, arcs)?;
    Ok(true)
}

/// Serves a job: it takes names as long as the caches have their arcs, or its worker wins them.
fn serve<W: Weight, G: Gate, M: Meter>(
    alloc: Global,
    delayed: &Delayed<'_, W, M>,
    gate: &G,
    number: u32,
    claims: &Claims,
    pass: &mut Pass,
    line: &[u8],
    cache: &Cache<W>,
    own: &mut Cache<W>,
    meter: &mut M,
    job: &mut Job,
) -> Result<(), AllocError>
    requires pass { IsPassOf claims.now pass.old }
    requires entries { IsTrueOf W.wide_value (delayed_graph W.KIND W.value delayed.now) cache.now }
    requires own { IsOwn W.wide_value (delayed_graph W.KIND W.value delayed.now) cache.now own.old (won pass.old) }
    requires job { IsJob W.KIND W.value delayed.now line.now (keys cache.now ++ keys own.old) job.old }
    requires few { M.count meter.old < 2 ^ 62 + length own.old }
    ensures pass { IsPassOf claims.now pass.new × (parts pass.new ≡ parts pass.old) }
    ensures own { OnOk result (IsOwn W.wide_value (delayed_graph W.KIND W.value delayed.now) cache.now own.new (won pass.new)) }
    ensures job { OnOk result (IsJob W.KIND W.value delayed.now line.now (keys cache.now ++ keys own.new) job.new) }
    ensures same { OnOk result (IsSameJob job.old job.new) }
    ensures settled { OnOk result (IsSettled claims.now.places cache.now own.new (found pass.new) job.new) }
    ensures grown { OnOk result (IsGrown claims.now.places line.now (delayed_graph W.KIND W.value delayed.now) job.old.limit own.old own.new (found pass.old) (found pass.new)) }
    ensures count { OnOk result (M.count meter.new + length own.old ≡ M.count meter.old + length own.new) }
    ensures meter { OnOk result ((M.parts_out meter.new ≡ M.parts_out meter.old) × (M.is_part meter.new ≡ M.is_part meter.old)) }
{
    // Whether the arcs of the name at the head were put into the cache right before.
    let mut put = false;
    loop {
        match job.advance(line, delayed, cache, own)? {
            JobState::Walked => return Ok(()),
            JobState::Needs(key) => {
                put = win(
                    alloc, delayed, gate, number, claims, pass, cache, own, meter, key,
                )?;
                if !put {
                    return Ok(());
                }
            }
        }
    }
}

/// Serves the jobs of a worker, one after the other.
pub(crate) fn work<W: Weight, G: Gate, M: Meter>(
    alloc: Global,
    delayed: &Delayed<'_, W, M>,
    gate: &G,
    number: u32,
    claims: &Claims,
    pass: &mut Pass,
    lines: &Lines,
    cache: &Cache<W>,
    own: &mut Cache<W>,
    meter: &mut M,
    jobs: &mut [Job],
) -> Result<(), AllocError>
    requires pass { IsPassOf claims.now pass.old }
    requires entries { IsTrueOf W.wide_value (delayed_graph W.KIND W.value delayed.now) cache.now }
    requires own { IsOwn W.wide_value (delayed_graph W.KIND W.value delayed.now) cache.now own.old (won pass.old) }
    requires none { own.old ≡ [] }
    requires jobs { (k : ℕ) (w : LineWalk) → slice_get jobs.old k ≡ Some w → IsJobOf W.KIND W.value W.wide_value delayed.now lines.now (keys cache.now) w }
    requires few { M.count meter.old < 2 ^ 62 }
    ensures pass { IsPassOf claims.now pass.new × (parts pass.new ≡ parts pass.old) }
    ensures own { OnOk result (IsOwn W.wide_value (delayed_graph W.KIND W.value delayed.now) cache.now own.new (won pass.new)) }
    ensures served { OnOk result (HasServed W.KIND W.value W.wide_value delayed.now lines.now claims.now.places cache.now own.new (found pass.new) jobs.old jobs.new) }
    ensures count { OnOk result (M.count meter.new ≡ M.count meter.old + length own.new) }
    ensures meter { OnOk result ((M.parts_out meter.new ≡ M.parts_out meter.old) × (M.is_part meter.new ≡ M.is_part meter.old)) }
{
    for job in jobs.iter_mut() {
        let line = lines.line(job.index());
        serve(
            alloc, delayed, gate, number, claims, pass, line, cache, own, meter, job,
        )?;
    }
    Ok(())
}
