//! Reversal.

ghost use Rattle.std.specs.Prelude.{◌≡◌, ◌<◌, ◌≤◌, ◌+◌, ◌-◌, ◌∷◌, ◌++◌, ℕ, [], All, IfOk, OnOk, Some, drop, get_or, length, map, take};
ghost use Rattle.std.specs.List.{range_with_len};
ghost use Rattle.fst_machine.specs.Machine.{IsArc, IsMachine, arc_total, changed, most_arcs, most_states, valued, valued_arc, valued_state};
ghost use Rattle.fst_machine.specs.Placing.{arc_counts};
ghost use Rattle.fst_rational.specs.Backing.{bare_states, counted_back, put_all, put_back, turned_bare, with_more};
ghost use Rattle.fst_rational.specs.Changing.{onward};
ghost use Rattle.fst_rational.specs.Constructions.{final_arcs, reverse_of, start_weight};
ghost use Rattle.fst_rational.specs.Limits.{IsLimited, IsSize, IsSmall};
ghost use Rattle.fst_rational.specs.Relations.{Reverses};

use crate::change::count_onward;
use crate::construction::{Construction, construct};
use crate::fault::RationalFault;
use fst_machine::{Fst, FstArc, Placing};
use fst_semiring::{Weight, is_zero};
use std::alloc::{AllocError, Global};

/// The final weight of what becomes of a state: One at the start, and Zero elsewhere.
fn weight_at<W: Weight>(start: Option<u32>, state: u32) -> W
    ensures { W.value result ≡ start_weight W.KIND start state }
{
    match start {
        None => W::zero(),
        Some(start) => { if state == start { W::one() } else { W::zero() } }
    }
}

/// Counts arcs by the places where they are put back, one place beyond where they lead.
fn count_arcs<W>(counts: &mut Vec<u32>, arcs: &[FstArc<W>])
    requires within { All (λ a. 1 + a.next < length counts.old.items) arcs.now }
    requires few { (i : ℕ) → get_or (counted_back arcs.now counts.old.items) i 0 ≤ most_arcs }
    ensures { counts.new.items ≡ counted_back arcs.now counts.old.items }
{
    for arc in arcs {
        counts[1 + arc.next as usize] += 1;
    }
}

/// How many arcs each state of the reversal has.
fn count_all<W: Weight>(alloc: Global, a: &Fst<W>) -> Result<Vec<u32>, AllocError>
    requires { IsSmall (reverse_of W.KIND (valued W.value a.now)) }
    ensures { IfOk result (λ counts. counts.items ≡ arc_counts (reverse_of W.KIND (valued W.value a.now)).states) }
{
    let states = a.states();
    let mut counts = vec![in alloc; 0u32; states as usize + 1]?;
    counts[0] = count_onward(a, Some(0));
    for state in 0..states {
        count_arcs(&mut counts, a.arcs(state));
    }
    Ok(counts)
}

/// Puts what becomes of each state, without its arcs but with room for them, behind the first.
fn put_bare<W: Weight>(
    states: &mut Placing<W>,
    a: &Fst<W>,
    counts: &[u32],
) -> Result<(), AllocError>
    requires counts { counts.now ≡ arc_counts (reverse_of W.KIND (valued W.value a.now)).states }
    requires left { states.old.left ≡ arc_total (drop 1 (reverse_of W.KIND (valued W.value a.now)).states) }
    requires rooms { states.old.rooms ≡ take 1 counts.now }
    ensures states { OnOk result (map (valued_state W.value) states.new.states ≡ map (valued_state W.value) states.old.states ++ map (turned_bare W.KIND (valued W.value a.now)) (range_with_len 0 (length a.now.states))) }
    ensures rooms { OnOk result (states.new.rooms ≡ counts.now) }
    ensures left { OnOk result (states.new.left ≡ 0) }
{
    for state in 0..a.states() {
        let room = counts[1 + state as usize] as usize;
        states.push(weight_at(a.start(), state), room)?;
    }
    Ok(())
}

/// The states of the reversal without their arcs, each with room for so many as it is to have.
fn make_room<W: Weight>(alloc: Global, a: &Fst<W>, counts: &[u32]) -> Result<Placing<W>, AllocError>
    requires small { IsSmall (reverse_of W.KIND (valued W.value a.now)) }
    requires counts { counts.now ≡ arc_counts (reverse_of W.KIND (valued W.value a.now)).states }
    ensures states { IfOk result (λ p. map (valued_state W.value) p.states ≡ bare_states W.KIND (valued W.value a.now)) }
    ensures rooms { IfOk result (λ p. p.rooms ≡ counts.now) }
    ensures left { IfOk result (λ p. p.left ≡ 0) }
{
    let _states = a.states();
    let entered = counts[0] as usize;
    let arcs = a.arc_count() as usize + entered;
    let mut states = Placing::with_capacity(alloc, counts.len(), arcs)?;
    states.push(W::zero(), entered)?;
    put_bare(&mut states, a, counts)?;
    Ok(states)
}

/// Puts the epsilon arc to the place `next` with this final weight, unless it is Zero, behind those of the first state.
fn put_final<W: Weight>(states: &mut Placing<W>, last: W, next: u32)
    requires { get_or (arc_counts states.old.states) 0 0 + length (onward (W.value last) (Some next)) ≤ get_or states.old.rooms 0 0 }
    ensures states { map (valued_state W.value) states.new.states ≡ changed (with_more (onward (W.value last) (Some next))) (map (valued_state W.value) states.old.states) 0 }
    ensures rooms { states.new.rooms ≡ states.old.rooms }
    ensures left { states.new.left ≡ states.old.left }
{
    if is_zero(last) {
        return;
    }
    states.put(
        0,
        FstArc {
            ilabel: 0,
            olabel: 0,
            weight: last,
            next,
        },
    );
}

/// Puts the epsilon arcs to the final states, one place further on, behind those of the first state.
fn put_finals<W: Weight>(states: &mut Placing<W>, a: &Fst<W>)
    requires { get_or (arc_counts states.old.states) 0 0 + length (final_arcs 1 (map (valued_state W.value) a.now.states)) ≤ get_or states.old.rooms 0 0 }
    ensures states { map (valued_state W.value) states.new.states ≡ changed (with_more (final_arcs 1 (map (valued_state W.value) a.now.states))) (map (valued_state W.value) states.old.states) 0 }
    ensures rooms { states.new.rooms ≡ states.old.rooms }
    ensures left { states.new.left ≡ states.old.left }
{
    for state in 0..a.states() {
        put_final(states, a.final_weight(state), state + 1);
    }
}

/// Puts these arcs back to `place`, each behind those of the state one place beyond where it leads.
fn put_arcs_back<W: Weight>(states: &mut Placing<W>, arcs: &[FstArc<W>], place: u32)
    requires few { length states.old.states ≤ most_states }
    requires good { All (IsArc W.value (length states.old.states - 1)) arcs.now }
    requires room { (i : ℕ) → get_or (arc_counts (put_back place (map (valued_arc W.value) arcs.now) (map (valued_state W.value) states.old.states))) i 0 ≤ get_or states.old.rooms i 0 }
    ensures states { map (valued_state W.value) states.new.states ≡ put_back place (map (valued_arc W.value) arcs.now) (map (valued_state W.value) states.old.states) }
    ensures size { length states.new.states ≡ length states.old.states }
    ensures rooms { states.new.rooms ≡ states.old.rooms }
    ensures left { states.new.left ≡ states.old.left }
{
    for arc in arcs {
        let turned = FstArc {
            ilabel: arc.ilabel,
            olabel: arc.olabel,
            weight: arc.weight,
            next: place,
        };
        states.put(1 + arc.next, turned);
    }
}

/// Puts the arcs of each state, back to where it stands one place further on, where they led.
fn put_all_back<W: Weight>(states: &mut Placing<W>, a: &Fst<W>)
    requires size { length states.old.states ≡ length a.now.states + 1 }
    requires few { length states.old.states ≤ most_states }
    requires room { (i : ℕ) → get_or (arc_counts (put_all 1 (map (valued_state W.value) a.now.states) (map (valued_state W.value) states.old.states))) i 0 ≤ get_or states.old.rooms i 0 }
    ensures states { map (valued_state W.value) states.new.states ≡ put_all 1 (map (valued_state W.value) a.now.states) (map (valued_state W.value) states.old.states) }
    ensures rooms { states.new.rooms ≡ states.old.rooms }
    ensures left { states.new.left ≡ states.old.left }
{
    for state in 0..a.states() {
        put_arcs_back(states, a.arcs(state), state + 1);
    }
}

/// The reversal, which is not too big. Its arcs are counted by the states that get them, and then each goes to its place.
fn build<W: Weight>(alloc: Global, a: &Fst<W>) -> Result<Fst<W>, AllocError>
    requires { IsSmall (reverse_of W.KIND (valued W.value a.now)) }
    ensures { IfOk result (λ m. valued W.value m ≡ reverse_of W.KIND (valued W.value a.now)) }
{
    let _states = a.states();
    let counts = count_all(alloc, a)?;
    let mut states = make_room(alloc, a, counts.as_slice())?;
    put_finals(&mut states, a);
    put_all_back(&mut states, a);
    Ok(states.into_machine(Some(0)))
}

/// The reversal of a machine.
#[derive(Drop)]
struct Reversing<'a, W: Weight> {
    a: &'a Fst<W>,
}

impl<'a, W: Weight> Construction<W> for Reversing<'a, W> {
    type Made = Fst<W>;

    ghost machine = { λ s. reverse_of W.KIND (valued W.value s.a.now) };

    ghost seen = { λ m. valued W.value m };

    fn size(&self) -> (u32, u32) {
        let states = self.a.states();
        let arcs = self.a.arc_count() + count_onward(self.a, Some(0));
        (states + 1, arcs)
    }

    fn build(self, alloc: Global, _needed: (u32, u32)) -> Result<Fst<W>, AllocError> {
        build(alloc, self.a)
    }
}

/// The reversal of a machine: a new start, which is not final, with an epsilon arc to each final state, by
/// number, with its final weight; then the states one place further on, of which the old start alone is final,
/// with weight One, and which have the arcs that led to them, by their old source and place. (Mohri 2009, section
/// 3.1.) A reversal that is too big is refused before anything of it is made.
pub fn reverse<W: Weight>(alloc: Global, a: &Fst<W>) -> Result<Fst<W>, RationalFault>
    ensures limits { IsLimited (reverse_of W.KIND (valued W.value a.now)) result }
    ensures machine { IfOk result (λ m. valued W.value m ≡ reverse_of W.KIND (valued W.value a.now)) }
    ensures relation { IfOk result (λ m. Reverses W.KIND (valued W.value a.now) (valued W.value m)) }
{
    // What holds of the operand.
    let _states = a.states();
    construct(alloc, Reversing { a })
}
