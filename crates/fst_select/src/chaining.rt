//! The machine of listed strings.

ghost use Rattle.std.specs.Prelude.{◌≡◌, ◌≢◌, ◌↔◌, ◌<◌, ◌≤◌, ◌+◌, ℕ, All, IfNone, IfOk, IfSome, IsErrOf, List, MatchOption, OnOk, length, map};
ghost use Rattle.std.specs.Bool.{Decides};
ghost use Rattle.fst_semiring.specs.Cost.{Cost, infinite};
ghost use Rattle.fst_semiring.specs.Semiring.{InRange};
ghost use Rattle.fst_machine.specs.BreadthFirst.{Apart, Has};
ghost use Rattle.fst_machine.specs.Graph.{graph_of};
ghost use Rattle.fst_machine.specs.Machine.{greatest_label, most_states, valued};
ghost use Rattle.fst_machine.specs.Relation.{Rel};
ghost use Rattle.fst_nbest.specs.Chains.{chained};
ghost use Rattle.fst_select.specs.StringChains.{EndsOut, IsLeastEnd, end_state, lesser, string_chain};
ghost use Rattle.fst_select.specs.Strings.{labels_listed, weighted};

use crate::strings::{StringWeight, Strings};
use fst_machine::{Fst, FstArc, MOST_STATES};
use fst_nbest::{ChainSource, chain_machine};
use fst_semiring::Weight;
use std::alloc::Global;
use std::marker::Model;

/// Why listed strings have no machine.
#[derive(Clone, Copy, Debug, PartialEq, Eq)]
pub enum StringChainsFault {
    /// It would have more than 4,194,304 states.
    TooManyStates,
    /// A weight of this state, the least such, has a number of absolute value above 10 to the 18.
    Overflow {
        /// The number of the state.
        state: u32,
    },
    /// There is no memory.
    Memory,
}

/// Listed strings as chains: each label stands on both sides of an arc with weight One, and the weight at the end.
struct StringChains<'a, W: Weight> {
    strings: &'a Strings<W>,
}

impl<'a, W: Weight> Drop for StringChains<'a, W> {
    fn drop(self) {
        let StringChains { strings: _ } = self;
    }
}

impl<'a, W: Weight> Model for StringChains<'a, W> {
    ghost use Rattle.std.specs.Prelude.{All, List, map};
    ghost use Rattle.fst_semiring.specs.Semiring.{InRange};
    ghost use Rattle.fst_nbest.specs.Chains.{Chain, HaveLetters};
    ghost use Rattle.fst_select.specs.StringChains.{string_chain};
    ghost use Rattle.fst_select.specs.Strings.{weighted};

    ghost Value = { List Chain };

    ghost view = { λ s. map (string_chain W.KIND) (map (weighted W.wide_value) s.strings.now) };

    ghost invariant = { λ s. HaveLetters (map (string_chain W.KIND) (map (weighted W.wide_value) s.strings.now)) × All (λ a. InRange a.weight) (map (weighted W.wide_value) s.strings.now) };
}

impl<'a, W: Weight> ChainSource<W> for StringChains<'a, W> {
    ghost chains = { λ s. s };

    fn chain_count(&self) -> usize {
        self.strings.len()
    }

    fn letter_count(&self, chain: usize) -> usize {
        self.strings.item(chain).word.len()
    }

    fn arc(&self, chain: usize, place: usize) -> FstArc<W> {
        let label = *self.strings.item(chain).word.item(place);
        FstArc {
            ilabel: label,
            olabel: label,
            weight: W::one(),
            next: 0,
        }
    }

    fn last(&self, chain: usize) -> W {
        let Some(last) = W::narrow(self.strings.item(chain).weight) else {
            // All weights are in range.
            unreachable!()
        };
        last
    }
}

/// Whether the strings have more labels together than a machine can have states behind its start.
fn are_too_long<W: Weight>(strings: &Strings<W>) -> bool
    ensures { Decides result (most_states < labels_listed (map (weighted W.wide_value) strings.now) + 1) }
{
    let mut count = 0;
    for i in 0..strings.len() {
        let len = strings.item(i).word.len();
        if len >= MOST_STATES - count {
            return true;
        }
        count += len;
    }
    false
}

/// The state in which a string ends behind so many labels, where its weight is out of range.
fn end_out<W: Weight>(string: &StringWeight<W>, labels: u32) -> Option<u32>
    requires { labels + length string.now.word ≤ most_states }
    ensures out { IfSome result (λ state. (state ≡ end_state labels string.now.word) × (InRange (W.wide_value string.now.weight) → ⊥)) }
    ensures fits { IfNone result (InRange (W.wide_value string.now.weight)) }
{
    if W::narrow(string.weight).is_some() {
        return None;
    }
    let len = string.word.len() as u32;
    if len == 0 {
        Some(0)
    } else {
        Some(labels + len)
    }
}

/// The lesser of two states, where there are two.
fn lesser(a: Option<u32>, b: Option<u32>) -> Option<u32>
    ensures { result ≡ lesser a b }
{
    match (a, b) {
        (Some(state), Some(other)) => Some(state.min(other)),
        (Some(state), None) => Some(state),
        (None, other) => other,
    }
}

/// The least state in which a string ends whose weight is out of range. The empty string ends in the start, wherever it is
/// listed.
fn least_end_out<W: Weight>(strings: &Strings<W>) -> Option<u32>
    requires { labels_listed (map (weighted W.wide_value) strings.now) < most_states }
    ensures { MatchOption result (All (λ a. InRange a.weight) (map (weighted W.wide_value) strings.now)) (IsLeastEnd (map (weighted W.wide_value) strings.now)) }
{
    let mut labels = 0;
    let mut least = None;
    for i in 0..strings.len() {
        let string = strings.item(i);
        least = lesser(least, end_out(string, labels));
        labels += string.word.len() as u32;
    }
    least
}

/// The machine of listed strings. Where none is listed it has no states. Else state 0 is its start, and each string in
/// order adds one state for each of its labels: the arc of its first label leaves the start, and the others leave the state
/// before. An arc has its label on both sides and weight One, and a string's last state has the string's weight as its final
/// weight; for the empty string that is the start. So the machine relates each string to itself with its weight, and no more.
/// (OpenFst manual, "ShortestPath".)
///
/// The words differ, and their labels are 1 to 2,147,483,647. `TooManyStates` exactly where the strings have more than
/// 4,194,303 labels together. Else `Overflow` where a weight has a number of absolute value above 10 to the 18, with the
/// least state in which such a string ends; only `Memory` may come in its place. Time and space: linear in the labels and
/// the strings listed.
pub fn string_chains<W: Weight>(
    alloc: Global,
    strings: &Strings<W>,
) -> Result<Fst<W>, StringChainsFault>
    requires apart { Apart (map (λ s. s.word) strings.now) }
    requires labels { All (λ s. All (λ l. (1 ≤ l) × (l ≤ greatest_label)) s.word) strings.now }
    ensures machine { IfOk result (λ m. valued W.value m ≡ chained (map (string_chain W.KIND) (map (weighted W.wide_value) strings.now))) }
    ensures relates { IfOk result (λ m. (x y : List ℕ) (w : Cost) → Rel W.KIND (graph_of (valued W.value m)) x y w ↔ ((x ≡ y) × (w ≢ infinite) × Has (map (weighted W.wide_value) strings.now) (record { word = x; weight = w }))) }
    ensures full { IsErrOf result StringChainsFault.TooManyStates ↔ (most_states < labels_listed (map (weighted W.wide_value) strings.now) + 1) }
    ensures overflow { (state : ℕ) → IsErrOf result (StringChainsFault.Overflow state) → IsLeastEnd (map (weighted W.wide_value) strings.now) state }
    ensures fits { OnOk result ((state : ℕ) → EndsOut 0 (map (weighted W.wide_value) strings.now) state → ⊥) }
{
    if are_too_long(strings) {
        return Err(StringChainsFault::TooManyStates);
    }
    if let Some(state) = least_end_out(strings) {
        return Err(StringChainsFault::Overflow { state });
    }
    let source = StringChains { strings };
    match chain_machine(alloc, &source) {
        Ok(made) => Ok(made),
        // The states were counted, so that there is no other cause.
        Err(_) => Err(StringChainsFault::Memory),
    }
}
