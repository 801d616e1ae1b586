//! The search for words that separate two acceptors.

ghost use Rattle.std.specs.Prelude.{◌≡◌, ◌<◌, ◌≤◌, ◌⊎◌, ◌+◌, ℕ, true, false, Option, IfOk, IfSome, OnOk, MatchOption, Some, None, length, map, slice_get};
ghost use Rattle.fst_semiring.specs.Semiring.{IsWide, Within, cancels, times};
ghost use Rattle.fst_machine.specs.Graph.{graph_of};
ghost use Rattle.fst_machine.specs.Machine.{most_states, valued, valued_arc};
ghost use Rattle.fst_setops.specs.Prepared.{IsPrepared};
ghost use Rattle.fst_setops.specs.Followed.{AreSound, IsFollowedOr};
ghost use Rattle.fst_setops.specs.Kept.{AreWithin, most_number, most_product, most_words};
ghost use Rattle.fst_setops.specs.Led.{begin_of, final_of, weight_of};
ghost use Rattle.fst_setops.specs.Separating.{HasMorePairs};
ghost use Rattle.fst_setops.specs.Sought.{AreBefore, AreWeights, AreWords, IsEnded, IsNoted, IsSought, words_of};
ghost use Rattle.fst_setops.specs.Ways.{arc_weight, arcs_of, end_of};

use crate::pair_key::PairKey;
use crate::search::{Node, Slot, is_same, put_word};
use crate::way::{Way, next_way, past};
use fst_keys::KeySet;
use fst_machine::{Fst, FstArc};
use fst_semiring::Weight;
use std::alloc::{AllocError, Global};

/// The pairs to which words led, in the order in which they did first; the words of each pair; and the words.
#[derive(Drop)]
pub(crate) struct Search<W: Weight> {
    pub(crate) pairs: KeySet<PairKey>,
    pub(crate) slots: Vec<Slot>,
    pub(crate) nodes: Vec<Node<W::Wide>>,
}

/// The arcs of a state; none where there is no state.
fn arcs_of<W: Weight>(a: &Fst<W>, state: Option<u32>) -> &[FstArc<W>]
    requires { IfSome state (λ p. p < length a.now.states) }
    ensures { map (valued_arc W.value) result.now ≡ arcs_of (graph_of (valued W.value a.now)) state }
{
    match state {
        Some(state) => a.arcs(state),
        None => &[],
    }
}

/// Where an arc leads.
fn end_of<W: Copy>(arc: Option<FstArc<W>>) -> Option<u32>
    ensures { result ≡ end_of arc }
{
    match arc {
        Some(arc) => Some(arc.next),
        None => None,
    }
}

/// A product with the weight of an arc, which is Zero where there is none.
fn product<W: Weight>(before: W::Wide, arc: Option<FstArc<W>>) -> W::Wide
    requires { Within most_product (W.wide_value before) }
    ensures product { W.wide_value result ≡ times W.KIND (W.wide_value before) (arc_weight W.value arc) }
    ensures range { Within most_number (W.wide_value result) }
{
    match arc {
        Some(arc) => W::wide_times(before, arc.weight.widen()),
        None => W::zero().widen(),
    }
}

/// Follows a label from the pair of a word: the word with the label is put where its pair needs it. False where there are then
/// more pairs than the limit.
fn follow<W: Weight>(
    search: &mut Search<W>,
    node: Node<W::Wide>,
    parent: usize,
    way: Way<W>,
    limit: u32,
) -> Result<bool, AllocError>
    requires sound { AreSound W.KIND W.wide_value limit search.old.pairs search.old.slots.items search.old.nodes.items }
    requires within { AreWithin most_number W.wide_value search.old.nodes.items }
    requires words { length search.old.nodes.items ≤ most_words }
    requires parent { parent < length search.old.nodes.items }
    requires first { Within most_product (W.wide_value node.first) }
    requires second { Within most_product (W.wide_value node.second) }
    ensures sound { OnOk result (AreSound W.KIND W.wide_value limit search.new.pairs search.new.slots.items search.new.nodes.items) }
    ensures followed { IfOk result (IsFollowedOr W.KIND W.wide_value W.value limit search.old.pairs search.old.nodes.items node parent way.label way.first way.second search.new.pairs search.new.nodes.items) }
{
    let key = PairKey {
        first: end_of(way.first),
        second: end_of(way.second),
    };
    let Some((pair, is_new)) = search.pairs.put_below(key, limit)? else {
        return Ok(false);
    };
    let word = Node {
        pair: pair as u32,
        parent: parent as u32,
        label: way.label,
        first: product::<W>(node.first, way.first),
        second: product::<W>(node.second, way.second),
    };
    put_word::<W>(&mut search.slots, &mut search.nodes, word, is_new)?;
    Ok(true)
}

/// Follows all labels from the pair of a word, the least first. False where there are then more pairs than the limit.
fn take_word<W: Weight>(
    search: &mut Search<W>,
    a: &Fst<W>,
    b: &Fst<W>,
    place: usize,
    limit: u32,
) -> Result<bool, AllocError>
    requires first { IsPrepared W.KIND W.value a.now }
    requires second { IsPrepared W.KIND W.value b.now }
    requires few { limit ≤ most_states }
    requires place { place < length search.old.nodes.items }
    requires sought { IsSought W.KIND W.wide_value (graph_of (valued W.value a.now)) (graph_of (valued W.value b.now)) limit search.old.pairs search.old.slots.items search.old.nodes.items place 0 }
    ensures goes { IfOk result (λ more. more ≡ true → IsSought W.KIND W.wide_value (graph_of (valued W.value a.now)) (graph_of (valued W.value b.now)) limit search.new.pairs search.new.slots.items search.new.nodes.items (place + 1) 0) }
    ensures kept { IfOk result (λ more. more ≡ true → AreBefore search.old.nodes.items search.new.nodes.items) }
    ensures stops { IfOk result (λ more. more ≡ false → HasMorePairs (graph_of (valued W.value a.now)) (graph_of (valued W.value b.now)) limit) }
{
    let node = search.nodes[place];
    let pair = *search.pairs.item(node.pair as usize);
    let firsts = arcs_of(a, pair.first);
    let seconds = arcs_of(b, pair.second);
    let mut x = 0;
    let mut y = 0;
    while let Some(way) = next_way(firsts, seconds, x, y) {
        if !follow(search, node, place, way, limit)? {
            return Ok(false);
        }
        x = past(firsts, x, way.first);
        y = past(seconds, y, way.second);
    }
    Ok(true)
}

/// A product with the final weight of a state, which is Zero where there is none.
fn last_product<W: Weight>(before: W::Wide, a: &Fst<W>, state: Option<u32>) -> W::Wide
    requires state { IfSome state (λ p. p < length a.now.states) }
    requires range { Within most_product (W.wide_value before) }
    ensures product { W.wide_value result ≡ times W.KIND (W.wide_value before) (final_of (graph_of (valued W.value a.now)) state) }
    ensures range { Within most_number (W.wide_value result) }
{
    match state {
        Some(state) => W::wide_times(before, a.final_weight(state).widen()),
        None => W::zero().widen(),
    }
}

/// The weights of a word in both acceptors.
#[derive(Clone, Copy)]
pub(crate) struct Weights<V> {
    pub(crate) first: V,
    pub(crate) second: V,
}

/// The weights of the word in a place.
pub(crate) fn weights_at<W: Weight>(
    search: &Search<W>,
    a: &Fst<W>,
    b: &Fst<W>,
    place: usize,
) -> Weights<W::Wide>
    requires first { IsPrepared W.KIND W.value a.now }
    requires second { IsPrepared W.KIND W.value b.now }
    requires place { place < length search.now.nodes.items }
    requires few { length search.now.nodes.items ≤ most_words }
    requires pairs { length search.now.pairs ≤ most_states }
    requires words { AreWords W.KIND W.wide_value (graph_of (valued W.value a.now)) (graph_of (valued W.value b.now)) search.now.pairs search.now.nodes.items }
    ensures weights { AreWeights W.KIND W.wide_value (graph_of (valued W.value a.now)) (graph_of (valued W.value b.now)) (words_of search.now.nodes.items) place result.first result.second }
    ensures first { Within most_number (W.wide_value result.first) }
    ensures second { Within most_number (W.wide_value result.second) }
{
    let node = search.nodes[place];
    let pair = *search.pairs.item(node.pair as usize);
    Weights {
        first: last_product(node.first, a, pair.first),
        second: last_product(node.second, b, pair.second),
    }
}

/// The place of a word, if its weights differ.
fn note_new<W: Weight>(search: &Search<W>, a: &Fst<W>, b: &Fst<W>, place: usize) -> Option<usize>
    requires first { IsPrepared W.KIND W.value a.now }
    requires second { IsPrepared W.KIND W.value b.now }
    requires place { place < length search.now.nodes.items }
    requires few { length search.now.nodes.items ≤ most_words }
    requires pairs { length search.now.pairs ≤ most_states }
    requires words { AreWords W.KIND W.wide_value (graph_of (valued W.value a.now)) (graph_of (valued W.value b.now)) search.now.pairs search.now.nodes.items }
    requires noted { IsNoted W.KIND (graph_of (valued W.value a.now)) (graph_of (valued W.value b.now)) (words_of search.now.nodes.items) place None }
    ensures { IsNoted W.KIND (graph_of (valued W.value a.now)) (graph_of (valued W.value b.now)) (words_of search.now.nodes.items) (place + 1) result }
{
    let weights = weights_at(search, a, b, place);
    if is_same::<W>(weights.first, weights.second) {
        return None;
    }
    Some(place)
}

/// Notes the place of a word, if it is the first whose weights differ.
fn note_word<W: Weight>(
    search: &Search<W>,
    a: &Fst<W>,
    b: &Fst<W>,
    place: usize,
    noted: Option<usize>,
) -> Option<usize>
    requires first { IsPrepared W.KIND W.value a.now }
    requires second { IsPrepared W.KIND W.value b.now }
    requires place { place < length search.now.nodes.items }
    requires few { length search.now.nodes.items ≤ most_words }
    requires pairs { length search.now.pairs ≤ most_states }
    requires words { AreWords W.KIND W.wide_value (graph_of (valued W.value a.now)) (graph_of (valued W.value b.now)) search.now.pairs search.now.nodes.items }
    requires noted { IsNoted W.KIND (graph_of (valued W.value a.now)) (graph_of (valued W.value b.now)) (words_of search.now.nodes.items) place noted }
    ensures { IsNoted W.KIND (graph_of (valued W.value a.now)) (graph_of (valued W.value b.now)) (words_of search.now.nodes.items) (place + 1) result }
{
    match noted {
        Some(earlier) => Some(earlier),
        None => note_new(search, a, b, place),
    }
}

/// Takes all words, also those behind one that separates. Gives the place of the first that does, if one does; `None` where
/// there are more pairs than the limit.
pub(crate) fn take_words<W: Weight>(
    search: &mut Search<W>,
    a: &Fst<W>,
    b: &Fst<W>,
    limit: u32,
) -> Result<Option<Option<usize>>, AllocError>
    requires first { IsPrepared W.KIND W.value a.now }
    requires second { IsPrepared W.KIND W.value b.now }
    requires few { limit ≤ most_states }
    requires sought { IsSought W.KIND W.wide_value (graph_of (valued W.value a.now)) (graph_of (valued W.value b.now)) limit search.old.pairs search.old.slots.items search.old.nodes.items 0 0 }
    ensures ended { IfOk result (λ r. IfSome r (λ noted. IsEnded W.KIND W.wide_value (graph_of (valued W.value a.now)) (graph_of (valued W.value b.now)) limit search.new.pairs search.new.slots.items search.new.nodes.items noted)) }
    ensures stops { IfOk result (λ r. r ≡ None → HasMorePairs (graph_of (valued W.value a.now)) (graph_of (valued W.value b.now)) limit) }
{
    let mut noted = None;
    let mut taken = 0;
    while taken < search.nodes.len() {
        noted = note_word(search, a, b, taken, noted);
        if !take_word(search, a, b, taken, limit)? {
            return Ok(None);
        }
        taken += 1;
    }
    Ok(Some(noted))
}

/// With what the empty word leads to the start: One, or Zero where there is none.
fn first_product<W: Weight>(a: &Fst<W>) -> W::Wide
    ensures { W.wide_value result ≡ begin_of W.KIND a.now.start }
{
    match a.start() {
        Some(_) => W::one().widen(),
        None => W::zero().widen(),
    }
}

/// The search before any word is taken: it has the empty one.
pub(crate) fn begin<W: Weight>(
    alloc: Global,
    a: &Fst<W>,
    b: &Fst<W>,
    limit: u32,
) -> Result<Search<W>, AllocError>
    requires some { 0 < limit }
    ensures { IfOk result (λ s. IsSought W.KIND W.wide_value (graph_of (valued W.value a.now)) (graph_of (valued W.value b.now)) limit s.pairs s.slots.items s.nodes.items 0 0) }
{
    let mut search = Search {
        pairs: KeySet::new(alloc),
        slots: Vec::new(alloc),
        nodes: Vec::new(alloc),
    };
    let key = PairKey {
        first: a.start(),
        second: b.start(),
    };
    let word = Node {
        pair: 0,
        parent: 0,
        label: 0,
        first: first_product(a),
        second: first_product(b),
    };
    let _place = search.pairs.put_below(key, limit)?;
    put_word::<W>(&mut search.slots, &mut search.nodes, word, true)?;
    Ok(search)
}
