//! The best path of a family, and the families that it leaves on its way.

ghost use Rattle.std.specs.Prelude.{◌≡◌, ◌≢◌, ◌<◌, ◌≤◌, ◌+◌, ◌-◌, ◌++◌, ◌∷◌, [], ℕ, List, None, IfOk, OnOk, All, length, map, take, drop};
ghost use Rattle.std.specs.List.Sorted.{IsPermutation};
ghost use Rattle.fst_nbest.specs.Words.{IsAhead};
ghost use Rattle.fst_nbest.specs.Entries.{AreOrders, IsEntry, IsLeft, Stepped, Walked, list_at, most_long};

use crate::entry::Entry;
use crate::orders::Orders;
use crate::system::System;
use fst_fields::List;
use std::alloc::{AllocError, Global};

/// A path as the places of its arcs.
pub(crate) type Word = List<u32>;

/// Paths in order.
pub(crate) type Words = List<Word>;

/// Puts the family that is left behind a family's first move, if more moves are left, behind those that were left
/// before. Its paths begin as the path with this number.
pub(crate) fn leave<D: Copy, S: System<D>>(
    left: &mut Vec<Entry<D>>,
    system: &S,
    orders: &Orders,
    path: usize,
    core: Entry<D>,
) -> Result<(), AllocError>
    requires size { length orders.now ≡ S.size system.now }
    requires orders { AreOrders S.kind (S.words system.now) (S.dist system.now) (S.count system.now) orders.now }
    requires core { IsEntry S.kind (S.words system.now) (S.dist system.now) (S.count system.now) S.value S.bounded orders.now core }
    ensures { OnOk result (IsLeft S.kind (S.words system.now) (S.dist system.now) (S.count system.now) S.value S.bounded orders.now path core left.old.items left.new.items) }
{
    let moves = orders.of(core.name);
    let rank = core.rank + 1;
    if rank >= moves.len() {
        return Ok(());
    }
    let turn = moves[rank];
    let (total, ahead) = system.look_ahead(core.front, core.name, turn);
    let arcs = core.depth + ahead;
    left.push(Entry {
        total,
        arcs,
        path,
        rank,
        ..core
    })?;
    Ok(())
}

/// The first arcs of a listed path.
pub(crate) fn begin(
    alloc: Global,
    listed: &Words,
    path: usize,
    depth: usize,
) -> Result<Word, AllocError>
    requires { depth ≤ length (list_at listed.now path) }
    ensures { IfOk result (λ word. word ≡ take depth (list_at listed.now path)) }
{
    let mut word = Word::new(alloc);
    if depth == 0 {
        return Ok(word);
    }
    let before = listed.item(path);
    for i in 0..depth {
        word.push(*before.item(i))?;
    }
    Ok(word)
}

/// One step of a walk, by the first move of its family, which is a step. The family that is given stands for the paths
/// behind it.
fn step<D: Copy, S: System<D>>(
    alloc: Global,
    system: &S,
    orders: &mut Orders,
    word: &mut Word,
    core: Entry<D>,
) -> Result<Entry<D>, AllocError>
    requires size { length orders.old ≡ S.size system.now }
    requires orders { AreOrders S.kind (S.words system.now) (S.dist system.now) (S.count system.now) orders.old }
    requires core { IsEntry S.kind (S.words system.now) (S.dist system.now) (S.count system.now) S.value S.bounded orders.old core }
    requires more { core.depth < core.arcs }
    requires few { core.depth < most_long }
    ensures size { length orders.new ≡ length orders.old }
    ensures step { IfOk result (λ next. Stepped S.kind (S.words system.now) (S.dist system.now) (S.count system.now) S.value S.bounded orders.old orders.new word.old word.new core next) }
{
    // What holds of the words.
    let _names = system.name_count();
    let turn = orders.of(core.name)[core.rank];
    let place = turn - 1;
    let (front, name) = system.step(core.front, core.name, place);
    orders.prepare(alloc, system, name)?;
    word.push(place)?;
    Ok(Entry {
        front,
        depth: core.depth + 1,
        name,
        rank: 0,
        ..core
    })
}

/// The best path of a family, behind the first arcs of a listed path. The families of its other paths, one for each
/// name on the way where more moves are left, are put into `left`. They begin as this path, which will be the next to
/// be listed.
pub(crate) fn walk<D: Copy, S: System<D>>(
    alloc: Global,
    system: &S,
    orders: &mut Orders,
    listed: &Words,
    left: &mut Vec<Entry<D>>,
    entry: Entry<D>,
) -> Result<Word, AllocError>
    requires size { length orders.old ≡ S.size system.now }
    requires orders { AreOrders S.kind (S.words system.now) (S.dist system.now) (S.count system.now) orders.old }
    requires entry { IsEntry S.kind (S.words system.now) (S.dist system.now) (S.count system.now) S.value S.bounded orders.old entry }
    requires depth { entry.depth ≤ length (list_at listed.now entry.path) }
    requires few { entry.arcs ≤ most_long }
    requires clear { left.old.items ≡ [] }
    ensures size { length orders.new ≡ length orders.old }
    ensures walked { IfOk result (λ word. Walked S.kind (S.words system.now) (S.dist system.now) (S.count system.now) S.value S.bounded listed.now orders.old orders.new (length listed.now) entry left.new.items word) }
{
    // What holds of the words.
    let _names = system.name_count();
    let path = listed.len();
    let mut word = begin(alloc, listed, entry.path, entry.depth)?;
    let mut core = entry;
    while core.depth < core.arcs {
        leave(left, system, orders, path, core)?;
        core = step(alloc, system, orders, &mut word, core)?;
    }
    leave(left, system, orders, path, core)?;
    Ok(word)
}
