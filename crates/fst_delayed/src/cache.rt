//! The arcs of names that were expanded.

ghost use Rattle.std.specs.Prelude.{◌≡◌, ◌∷◌, ◌++◌, [], true, IfSome, MatchOption, OnErr, OnOk, length};
ghost use Rattle.fst_machine.specs.BreadthFirst.{Apart, Has};
ghost use Rattle.fst_delayed.specs.Ascending.{Ascends};
ghost use Rattle.fst_delayed.specs.Caches.{AreApart, AreEntered, entered, keys};

use crate::entry::Entry;
use crate::names::{keep_first, put_names};
use fst_compose::{ComposeKey, KeyArc};
use fst_keys::KeySet;
use fst_semiring::Weight;
use std::alloc::{AllocError, Global};
use std::marker::Model;

/// Puts a name and its entry after the others. Where there is no memory, the entries are as before.
fn add_entry<W: Weight>(
    names: &mut KeySet<ComposeKey>,
    entries: &mut Vec<Entry<W>>,
    key: ComposeKey,
    kept: Entry<W>,
) -> Result<(), AllocError>
    requires held { AreEntered names.old entries.old.items }
    requires absent { Has (keys (entered (λ e. e.arcs.items) names.old entries.old.items)) key → ⊥ }
    ensures added { OnOk result (entered (λ e. e.arcs.items) names.new entries.new.items ≡ entered (λ e. e.arcs.items) names.old entries.old.items ++ (key, kept.arcs.items) ∷ []) }
    ensures err { OnErr result (entered (λ e. e.arcs.items) names.new entries.new.items ≡ entered (λ e. e.arcs.items) names.old entries.old.items) }
    ensures held { AreEntered names.new entries.new.items }
{
    let alloc = *entries.allocator();
    keep_first(alloc, names, entries.len())?;
    entries.reserve(1)?;
    names.put(key)?;
    entries.push_reserved(kept);
    Ok(())
}

/// Moves other names with their entries after these. Where there is no memory, the entries of both are as before.
fn join_entries<W: Weight>(
    names: &mut KeySet<ComposeKey>,
    entries: &mut Vec<Entry<W>>,
    more: &mut KeySet<ComposeKey>,
    others: &mut Vec<Entry<W>>,
) -> Result<(), AllocError>
    requires held { AreEntered names.old entries.old.items }
    requires others { AreEntered more.old others.old.items }
    requires apart { AreApart (entered (λ e. e.arcs.items) names.old entries.old.items) (entered (λ e. e.arcs.items) more.old others.old.items) }
    ensures added { OnOk result (entered (λ e. e.arcs.items) names.new entries.new.items ≡ entered (λ e. e.arcs.items) names.old entries.old.items ++ entered (λ e. e.arcs.items) more.old others.old.items) }
    ensures emptied { OnOk result (entered (λ e. e.arcs.items) more.new others.new.items ≡ []) }
    ensures err { OnErr result (entered (λ e. e.arcs.items) names.new entries.new.items ≡ entered (λ e. e.arcs.items) names.old entries.old.items) }
    ensures same { OnErr result (entered (λ e. e.arcs.items) more.new others.new.items ≡ entered (λ e. e.arcs.items) more.old others.old.items) }
    ensures held { AreEntered names.new entries.new.items }
    ensures others { AreEntered more.new others.new.items }
{
    let alloc = *entries.allocator();
    keep_first(alloc, names, entries.len())?;
    put_names(names, more, others.len())?;
    entries.append(others)?;
    *more = KeySet::new(alloc);
    Ok(())
}

/// Names, each once, with their arcs, in the order in which they came. A name is looked up by its number.
#[derive(Drop)]
pub struct Cache<W: Weight> {
    /// Names, place for place with their entries. Those after the last entry have none: they were put where memory ran out.
    names: KeySet<ComposeKey>,
    entries: Vec<Entry<W>>,
}

impl<W: Weight> Model for Cache<W> {
    ghost use Rattle.std.specs.Prelude.{ℕ, List};
    ghost use Rattle.fst_machine.specs.Machine.{Arc};
    ghost use Rattle.fst_compose.specs.Names.{Name};
    ghost use Rattle.fst_delayed.specs.Caches.{AreEntered, entered};

    ghost Value = { List (Name ℕ ℕ × List (Arc W.Wide (Name ℕ ℕ))) };

    ghost view = { λ c. entered (λ e. e.arcs.items) c.names c.entries.items };

    ghost invariant = { λ c. AreEntered c.names c.entries.items };
}

impl<W: Weight> Cache<W> {
    /// A cache without entries. Takes no memory.
    pub fn new(alloc: Global) -> Cache<W>
        ensures { result ≡ [] }
    {
        Cache {
            names: KeySet::new(alloc),
            entries: Vec::new(alloc),
        }
    }

    /// The arcs of a name, which are lent; `None` exactly where it has no entry. Takes no memory.
    pub fn get(&self, key: ComposeKey) -> Option<&[KeyArc<W>]>
        ensures { MatchOption result (Has (keys self.now) key → ⊥) (λ arcs. Has self.now (key, arcs.now)) }
    {
        match self.find(key) {
            None => None,
            Some((arcs, _ascends)) => Some(arcs),
        }
    }

    /// The same with whether the arcs are known to ascend by their input labels.
    pub fn find(&self, key: ComposeKey) -> Option<(&[KeyArc<W>], bool)>
        ensures arcs { MatchOption result (Has (keys self.now) key → ⊥) (λ held. Has self.now (key, held.0.now)) }
        ensures ascends { IfSome result (λ held. held.1 ≡ true → Ascends held.0.now) }
    {
        let Some(place) = self.names.find(&key) else {
            return None;
        };
        if place >= self.entries.len() {
            return None;
        }
        let entry = &self.entries[place];
        Some((entry.arcs.as_slice(), entry.ascends))
    }

    /// Adds an entry behind the others. Where there is no memory, the cache is as before, and the arcs are dropped.
    pub fn add(&mut self, key: ComposeKey, arcs: Vec<KeyArc<W>>) -> Result<(), AllocError>
        requires absent { Has (keys self.old) key → ⊥ }
        ensures added { OnOk result (self.new ≡ self.old ++ (key, arcs.items) ∷ []) }
        ensures err { OnErr result (self.new ≡ self.old) }
    {
        add_entry(&mut self.names, &mut self.entries, key, Entry::new(arcs))
    }

    /// Moves all entries of another cache behind those of this one. Where there is no memory, both are as before.
    pub fn append(&mut self, other: &mut Cache<W>) -> Result<(), AllocError>
        requires apart { AreApart self.old other.old }
        ensures added { OnOk result (self.new ≡ self.old ++ other.old) }
        ensures emptied { OnOk result (other.new ≡ []) }
        ensures err { OnErr result ((self.new ≡ self.old) × (other.new ≡ other.old)) }
    {
        join_entries(
            &mut self.names,
            &mut self.entries,
            &mut other.names,
            &mut other.entries,
        )
    }

    /// The number of entries, and with it that no name has two. Takes no memory.
    pub fn len(&self) -> usize
        ensures len { result ≡ length self.now }
        ensures apart { Apart (keys self.now) }
    {
        self.entries.len()
    }
}
