//! The entries of arcs, each found by its labels and its weight.

ghost use Rattle.std.specs.Prelude.{◌≡◌, ℕ, ◌<◌, ◌≤◌, ◌+◌, ◌∷◌, [], IfOk, OnErr, OnOk, Some, length, map, slice_get};
ghost use Rattle.fst_semiring.specs.Semiring.{InRange};
ghost use Rattle.fst_machine.specs.Machine.{IsArc, most_states, valued_arc};
ghost use Rattle.fst_machine.specs.BreadthFirst.{Grows};
ghost use Rattle.fst_codex.specs.Encoded.{IsEncodedArc, entry_of};
ghost use Rattle.fst_codex.specs.Table.{IsEntry, most_entries, valued_entry};

use crate::codex::{Codex, CodexEntry};
use fst_keys::KeySet;
use fst_machine::FstArc;
use fst_semiring::Weight;
use std::alloc::{AllocError, Global};
use std::marker::Model;

/// Puts an entry after the others, where it is new, and gives its place.
fn put_entry<W: Weight>(
    entries: &mut KeySet<CodexEntry<W>>,
    entry: CodexEntry<W>,
) -> Result<usize, AllocError>
    ensures there { IfOk result (λ place. slice_get entries.new place ≡ Some entry) }
    ensures within { IfOk result (λ place. place < length entries.new) }
    ensures grown { OnOk result (Grows entries.old (entry ∷ []) entries.new) }
    ensures few { OnOk result (length entries.new ≤ length entries.old + 1) }
    ensures err { OnErr result (entries.new ≡ entries.old) }
{
    let (place, _) = entries.put(entry)?;
    Ok(place)
}

/// The entries so far, in the order in which they first appeared.
#[derive(Drop)]
pub(crate) struct Coder<W: Weight> {
    /// Whether weights go into the entries.
    weights: bool,
    /// The entries. They stand here alone, and become the codex's own list.
    entries: KeySet<CodexEntry<W>>,
}

impl<W: Weight> Model for Coder<W> {
    ghost use Rattle.std.specs.Prelude.{All};
    ghost use Rattle.fst_codex.specs.Table.{IsEntry, Table};

    ghost Value = { Table W };

    ghost view = { λ c. record { weights = c.weights; entries = c.entries } };

    ghost invariant = { λ c. All (IsEntry W.KIND W.value c.weights) c.entries };
}

impl<W: Weight> Coder<W> {
    /// No entries, and room for half as many as there are arcs. Where all arcs differ the table of the entries grows once,
    /// and where most are alike little room stays empty.
    pub(crate) fn for_arcs(
        alloc: Global,
        arcs: usize,
        weights: bool,
    ) -> Result<Coder<W>, AllocError>
        ensures { IfOk result (λ c. c ≡ record { weights = weights; entries = [] }) }
    {
        Ok(Coder {
            weights,
            entries: KeySet::with_room(alloc, arcs / 2)?,
        })
    }

    /// The number of an entry, counted from 1. One that is new stands after the others.
    fn number(&mut self, entry: CodexEntry<W>) -> Result<u32, AllocError>
        requires good { IsEntry W.KIND W.value self.old.weights entry }
        requires room { length self.old.entries < most_entries }
        ensures grown { OnOk result (Grows (map (valued_entry W.value) self.old.entries) (valued_entry W.value entry ∷ []) (map (valued_entry W.value) self.new.entries)) }
        ensures there { IfOk result (λ n. (place : ℕ) × (n ≡ place + 1) × (slice_get (map (valued_entry W.value) self.new.entries) place ≡ Some (valued_entry W.value entry))) }
        ensures few { IfOk result (λ n. (n ≤ length self.new.entries) × (length self.new.entries ≤ length self.old.entries + 1)) }
        ensures flag { self.new.weights ≡ self.old.weights }
    {
        let place = put_entry(&mut self.entries, entry)?;
        Ok(place as u32 + 1)
    }

    /// The arc with the number of its entry on both sides.
    pub(crate) fn encode(&mut self, arc: FstArc<W>) -> Result<FstArc<W>, AllocError>
        requires good { IsArc W.value most_states arc }
        requires room { length self.old.entries < most_entries }
        ensures grown { OnOk result (Grows (map (valued_entry W.value) self.old.entries) (entry_of W.KIND self.old.weights (valued_arc W.value arc) ∷ []) (map (valued_entry W.value) self.new.entries)) }
        ensures encoded { IfOk result (λ c. IsEncodedArc W.KIND self.old.weights (map (valued_entry W.value) self.new.entries) (valued_arc W.value arc) (valued_arc W.value c)) }
        ensures few { OnOk result (length self.new.entries ≤ length self.old.entries + 1) }
        ensures flag { self.new.weights ≡ self.old.weights }
        ensures range { InRange (W.value arc.weight) }
    {
        // The wide form says that the weight of an arc is in range.
        let _ = arc.weight.widen();
        let (taken, left) = if self.weights {
            (arc.weight, W::one())
        } else {
            (W::one(), arc.weight)
        };
        let number = self.number(CodexEntry {
            ilabel: arc.ilabel,
            olabel: arc.olabel,
            weight: taken,
        })?;
        Ok(FstArc {
            ilabel: number,
            olabel: number,
            weight: left,
            next: arc.next,
        })
    }

    /// The codex of the entries.
    pub(crate) fn into_codex(self) -> Codex<W>
        requires { length self.entries ≤ most_entries }
        ensures { result ≡ self }
    {
        Codex::new(self.weights, self.entries.into_keys())
    }
}
