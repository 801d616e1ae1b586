//! The marked states of a machine that is given away, kept where its states stand.

ghost use Rattle.std.specs.Prelude.{◌≡◌, ◌<◌, ◌≤◌, ◌+◌, ◌++◌, ℕ, [], true, false, Bool, IfErr, IfOk, length, get_or, take, drop};
ghost use Rattle.std.specs.List.{All};
ghost use Rattle.fst_machine.specs.Machine.{most_arcs};
ghost use Rattle.fst_machine.specs.Renumbered.{marked_arcs, marked_states};
ghost use Rattle.fst_machine.specs.Retaining.{IsRetained};
ghost use Rattle.fst_machine.specs.SideBySide.{Follow};
ghost use Rattle.fst_machine.specs.Store.{LiesIn};

use super::{Fst, StateList};
use crate::arc::FstArc;
use crate::kept::Kept;
use crate::slot::Slot;
use fst_semiring::Weight;
use std::alloc::AllocError;

/// Whether the arcs of each state stand behind those of the states before it.
pub(super) fn are_side_by_side<V>(slots: &[Slot<V>]) -> bool
    ensures { result ≡ true → Follow 0 slots.now }
{
    let mut behind = 0usize;
    for slot in slots {
        let first = slot.first as usize;
        let count = slot.count as usize;
        if count > 0 {
            if first < behind {
                return false;
            }
            behind = first + count;
        }
    }
    true
}

/// Whether there is a place, and it is marked.
fn is_marked(marks: &[bool], place: usize) -> bool
    ensures marked { result ≡ get_or marks.now place false }
    ensures there { result ≡ true → place < length marks.now }
{
    match marks.get(place) {
        Some(mark) => *mark,
        None => false,
    }
}

/// Puts those of so many arcs of a store that lead to marked states, by the numbers of these, in a place before them.
/// Where they end.
fn retain_arcs<V: Copy>(
    store: &mut [FstArc<V>],
    first: usize,
    count: usize,
    to: usize,
    marks: &[bool],
    numbers: &[u32],
) -> usize
    requires inside { 0 < count → first + count ≤ length store.old }
    requires small { first + count < 8589934592 }
    requires place { 0 < count → to ≤ first }
    requires numbers { length numbers.now ≡ length marks.now }
    ensures kept { take result store.new ≡ take to store.old ++ marked_arcs marks.now numbers.now (take count (drop first store.old)) }
    ensures behind { (n : ℕ) → (0 < count → first + count ≤ n) → drop n store.new ≡ drop n store.old }
    ensures size { length store.new ≡ length store.old }
    ensures low { to ≤ result }
    ensures high { result ≤ to + count }
{
    let mut end = to;
    for place in first..first + count {
        let arc = &store[place];
        let next = arc.next as usize;
        if !is_marked(marks, next) {
            continue;
        }
        let own = FstArc {
            ilabel: arc.ilabel,
            olabel: arc.olabel,
            weight: arc.weight,
            next: numbers[next],
        };
        store[end] = own;
        end += 1;
    }
    end
}

/// Puts the arcs of the marked states that lead to marked states in front of the store, and the states behind the others.
/// Where the arcs end.
fn retain_states<V: Copy>(
    slots: &[Slot<V>],
    store: &mut [FstArc<V>],
    kept: &mut Vec<Slot<V>>,
    marks: &[bool],
    numbers: &[u32],
) -> Result<usize, AllocError>
    requires parts { All (LiesIn (length store.old)) slots.now }
    requires follow { Follow 0 slots.now }
    requires small { length store.old ≤ most_arcs }
    requires marks { length marks.now ≡ length slots.now }
    requires numbers { length numbers.now ≡ length marks.now }
    requires none { kept.old.items ≡ [] }
    ensures size { length store.new ≡ length store.old }
    ensures retained { IfOk result (λ end. IsRetained marks.now numbers.now slots.now store.old (take end store.new) kept.new.items) }
{
    let mut end = 0usize;
    for state in 0..slots.len() {
        let slot = &slots[state];
        if !marks[state] {
            continue;
        }
        let first = end;
        end = retain_arcs(
            store,
            slot.first as usize,
            slot.count as usize,
            first,
            marks,
            numbers,
        );
        kept.push(Slot {
            last: slot.last,
            first: first as u32,
            count: (end - first) as u32,
        })?;
    }
    Ok(end)
}

impl<W: Weight> Fst<W> {
    /// The marked states of a machine that is given away, in order, and the arcs between them, by the numbers of these:
    /// the arcs stay where they stood, or move to the front. Where the arcs of the states do not stand side by side, the
    /// machine is given back as it was.
    ///
    /// Time: linear in the states and the arcs. Space: 16 bytes for each state that is kept.
    pub fn retain(
        self,
        marks: &[bool],
        numbers: &[u32],
    ) -> Result<Result<StateList<W>, Fst<W>>, AllocError>
        requires marks { length marks.now ≡ length self.states }
        requires numbers { length numbers.now ≡ length marks.now }
        ensures states { IfOk result (λ r. IfOk r (λ states. states ≡ marked_states marks.now numbers.now 0 self.states)) }
        ensures given { IfOk result (λ r. IfErr r (λ fst. fst ≡ self)) }
    {
        let Kept {
            start,
            slots,
            mut store,
            apart,
            total,
        } = self.kept;
        if !apart.is_empty() || !are_side_by_side(slots.as_slice()) {
            let kept = Kept {
                start,
                slots,
                store,
                apart,
                total,
            };
            return Ok(Err(Fst { kept }));
        }
        let mut own = Vec::with_capacity(*slots.allocator(), slots.len())?;
        let end = retain_states(
            slots.as_slice(),
            store.as_mut_slice(),
            &mut own,
            marks,
            numbers,
        )?;
        store.truncate(end);
        Ok(Ok(StateList { slots: own, store }))
    }
}
