//! The machine of chains.

ghost use Rattle.std.specs.Prelude.{◌≡◌, ◌<◌, ◌≤◌, ◌↔◌, ◌+◌, ◌++◌, [], IfOk, IsErrOf, MatchOption, OnOk, length, map};
ghost use Rattle.fst_semiring.specs.Cost.{infinite};
ghost use Rattle.fst_machine.specs.Machine.{arc_total, most_arcs, most_states, valued, valued_arc, valued_state};
ghost use Rattle.fst_nbest.specs.Chains.{all_states, arcs_listed, chain_at, chained, final_of, first_arc, first_arcs, own_states, start_weight};

use crate::chain_source::ChainSource;
use fst_machine::{Fst, FstArc, MOST_STATES, StateList};
use fst_semiring::Weight;
use std::alloc::{AllocError, Global};

/// Why chains have no machine.
#[derive(Clone, Copy, Debug, PartialEq, Eq)]
pub enum ChainsFault {
    /// It would have more than 4,194,304 states.
    TooManyStates,
    /// There is no memory.
    Memory,
}

/// How many arcs the chains have together; `None` exactly where their states would be too many.
fn count_arcs<W: Weight, C: ChainSource<W>>(source: &C) -> Option<usize>
    ensures { MatchOption result (most_states < arcs_listed (C.chains source.now) + 1) (λ n. (n ≡ arcs_listed (C.chains source.now)) × (n < most_states)) }
{
    let mut count = 0;
    for chain in 0..source.chain_count() {
        let len = source.letter_count(chain);
        if len >= MOST_STATES - count {
            return None;
        }
        count += len;
    }
    Some(count)
}

/// Puts the first arc of a chain, if it has one; it leads to `next`.
fn put_first_arc<W: Weight, C: ChainSource<W>>(
    own: &mut Vec<FstArc<W>>,
    source: &C,
    chain: usize,
    next: u32,
) -> Result<(), AllocError>
    requires { chain < length (C.chains source.now) }
    ensures { OnOk result (map (valued_arc W.value) own.new.items ≡ map (valued_arc W.value) own.old.items ++ first_arc next (chain_at (C.chains source.now) chain).letters) }
{
    if source.letter_count(chain) == 0 {
        return Ok(());
    }
    let arc = source.arc(chain, 0);
    own.push(FstArc { next, ..arc })?;
    Ok(())
}

/// Puts the first arc of each chain, which leads to the first of the states of its own.
fn put_first_arcs<W: Weight, C: ChainSource<W>>(
    own: &mut Vec<FstArc<W>>,
    source: &C,
) -> Result<(), AllocError>
    requires clear { own.old.items ≡ [] }
    requires few { arcs_listed (C.chains source.now) < most_states }
    ensures { OnOk result (map (valued_arc W.value) own.new.items ≡ first_arcs 1 (C.chains source.now)) }
{
    let mut next = 1;
    for chain in 0..source.chain_count() {
        put_first_arc(own, source, chain, next)?;
        next += source.letter_count(chain) as u32;
    }
    Ok(())
}

/// The final weight of the start by one more chain: that of the chain where it has no letters.
fn start_final_by<W: Weight, C: ChainSource<W>>(source: &C, so_far: W, chain: usize) -> W
    requires { chain < length (C.chains source.now) }
    ensures { W.value result ≡ start_weight (W.value so_far) (chain_at (C.chains source.now) chain).last (chain_at (C.chains source.now) chain).letters }
{
    if source.letter_count(chain) == 0 {
        source.last(chain)
    } else {
        so_far
    }
}

/// The final weight of the start: that of the chain without letters, where there is one.
fn start_final<W: Weight, C: ChainSource<W>>(source: &C) -> W
    ensures { W.value result ≡ final_of infinite (C.chains source.now) }
{
    let mut last = W::zero();
    for chain in 0..source.chain_count() {
        last = start_final_by(source, last, chain);
    }
    last
}

/// Puts a chain's own states, of which the first has this number. The list `own` is for an arc.
fn put_chain<W: Weight, C: ChainSource<W>>(
    states: &mut StateList<W>,
    own: &mut Vec<FstArc<W>>,
    source: &C,
    chain: usize,
    first: u32,
) -> Result<(), AllocError>
    requires chain { chain < length (C.chains source.now) }
    requires few { first + length (chain_at (C.chains source.now) chain).letters ≤ most_states }
    requires room { arc_total states.old + length (chain_at (C.chains source.now) chain).letters ≤ most_arcs }
    ensures { OnOk result (map (valued_state W.value) states.new ≡ map (valued_state W.value) states.old ++ own_states first (chain_at (C.chains source.now) chain).last (chain_at (C.chains source.now) chain).letters) }
{
    let len = source.letter_count(chain);
    if len == 0 {
        return Ok(());
    }
    let mut state = first;
    for place in 1..len {
        let arc = source.arc(chain, place);
        own.clear();
        own.push(FstArc {
            next: state + 1,
            ..arc
        })?;
        states.push(W::zero(), own)?;
        state += 1;
    }
    own.clear();
    states.push(source.last(chain), own)
}

/// Puts the states of all chains behind the start. The list `own` is for an arc.
fn put_chains<W: Weight, C: ChainSource<W>>(
    states: &mut StateList<W>,
    own: &mut Vec<FstArc<W>>,
    source: &C,
) -> Result<(), AllocError>
    requires few { arcs_listed (C.chains source.now) < most_states }
    requires room { arc_total states.old ≤ most_states }
    ensures { OnOk result (map (valued_state W.value) states.new ≡ map (valued_state W.value) states.old ++ all_states 1 (C.chains source.now)) }
{
    let mut first = 1;
    for chain in 0..source.chain_count() {
        put_chain(states, own, source, chain, first)?;
        first += source.letter_count(chain) as u32;
    }
    Ok(())
}

/// The machine of chains that have these arcs together; what it needs is reserved at once.
fn build<W: Weight, C: ChainSource<W>>(
    alloc: Global,
    source: &C,
    arcs: usize,
) -> Result<Fst<W>, AllocError>
    requires some { 0 < length (C.chains source.now) }
    requires count { arcs ≡ arcs_listed (C.chains source.now) }
    requires few { arcs < most_states }
    ensures { IfOk result (λ m. valued W.value m ≡ chained (C.chains source.now)) }
{
    // What holds of the letters.
    let _chains = source.chain_count();
    let mut states = StateList::with_capacity(alloc, arcs + 1, arcs)?;
    let mut own = Vec::new(alloc);
    put_first_arcs(&mut own, source)?;
    states.push(start_final(source), &own)?;
    put_chains(&mut states, &mut own, source)?;
    Ok(states.into_machine(Some(0)))
}

/// The machine of chains. Where there is none it has no states. Else state 0 is its start, and each chain in order adds
/// one state for each of its letters: its first arc leaves the start, and the others leave the state before. Its last
/// state has its final weight; for a chain without letters that is the start.
///
/// `TooManyStates` exactly where the chains have more than 4,194,303 letters together. Time and space: linear in the
/// letters and the chains.
pub fn chain_machine<W: Weight, C: ChainSource<W>>(
    alloc: Global,
    source: &C,
) -> Result<Fst<W>, ChainsFault>
    ensures machine { IfOk result (λ m. valued W.value m ≡ chained (C.chains source.now)) }
    ensures full { IsErrOf result ChainsFault.TooManyStates ↔ (most_states < arcs_listed (C.chains source.now) + 1) }
{
    let Some(arcs) = count_arcs(source) else {
        return Err(ChainsFault::TooManyStates);
    };
    if source.chain_count() == 0 {
        return Ok(Fst::new(alloc));
    }
    match build(alloc, source, arcs) {
        Ok(made) => Ok(made),
        // A lack of memory becomes a fault here alone.
        Err(_) => Err(ChainsFault::Memory),
    }
}
