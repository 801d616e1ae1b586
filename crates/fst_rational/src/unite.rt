//! Union.

ghost use Rattle.std.specs.Prelude.{◌≡◌, ◌<◌, ◌+◌, ◌++◌, IfOk, IfSome, map};
ghost use Rattle.fst_machine.specs.Machine.{valued, valued_arc};
ghost use Rattle.fst_rational.specs.Constructions.{entry, union_of};
ghost use Rattle.fst_rational.specs.Limits.{IsLimited, IsSize, IsSmall};
ghost use Rattle.fst_rational.specs.Relations.{Unites};

use crate::change::{Carrying, put_entry};
use crate::construction::{Construction, construct};
use crate::fault::RationalFault;
use crate::operand::{GivenPair, LentPair, Operands};
use crate::size::entries;
use fst_machine::{Fst, FstArc, Joined};
use fst_semiring::Weight;
use std::alloc::{AllocError, Global};

/// The arcs of the new start of a union, which enter both operands.
fn entering<W: Weight>(
    alloc: Global,
    first: Option<u32>,
    behind: u32,
    second: Option<u32>,
) -> Result<Vec<FstArc<W>>, AllocError>
    requires first { IfSome first (λ s. 1 + s < 4294967296) }
    requires second { IfSome second (λ s. behind + s < 4294967296) }
    ensures { IfOk result (λ own. map (valued_arc W.value) own.items ≡ entry W.KIND 1 first ++ entry W.KIND behind second) }
{
    let mut own = Vec::new(alloc);
    put_entry(&mut own, 1, first)?;
    put_entry(&mut own, behind, second)?;
    Ok(own)
}

/// The union, which is not too big: the states of both lead further on, and the new start stands in front of those of
/// the first.
fn build<W: Weight, P: Operands<W> + Drop>(
    alloc: Global,
    pair: P,
    needed: (u32, u32),
) -> Result<P::Both, AllocError>
    requires size { IsSize (union_of W.KIND (valued W.value (P.one pair)) (valued W.value (P.two pair))) needed }
    requires small { IsSmall (union_of W.KIND (valued W.value (P.one pair)) (valued W.value (P.two pair))) }
    ensures { IfOk result (λ m. P.seen m ≡ union_of W.KIND (valued W.value (P.one pair)) (valued W.value (P.two pair))) }
{
    let first = pair.first();
    let behind = first.states() + 1;
    let second = pair.second();
    let _back = second.states();
    let arcs = entering(alloc, first.start(), behind, second.start())?;
    let further = Carrying {
        shift: 1,
        keeps: true,
        target: None,
    };
    let room = (behind, needed.1 - second.arc_count());
    pair.carry(alloc, Some(0), Some(W::zero()), &arcs, further, room)
}

/// How many states and arcs the union has.
fn union_size<W: Weight>(a: &Fst<W>, b: &Fst<W>) -> (u32, u32)
    ensures { IsSize (union_of W.KIND (valued W.value a.now) (valued W.value b.now)) result }
{
    let states = a.states() + b.states() + 1;
    let own = a.arc_count() + b.arc_count();
    let arcs = own + entries(a.start()) + entries(b.start());
    (states, arcs)
}

/// The union of two machines.
#[derive(Drop)]
struct Uniting<P> {
    pair: P,
}

impl<W: Weight, P: Operands<W> + Drop> Construction<W> for Uniting<P> {
    type Made = P::Both;

    ghost machine = { λ s. union_of W.KIND (valued W.value (P.one s.pair)) (valued W.value (P.two s.pair)) };

    ghost seen = { λ m. P.seen m };

    fn size(&self) -> (u32, u32) {
        union_size(self.pair.first(), self.pair.second())
    }

    fn build(self, alloc: Global, needed: (u32, u32)) -> Result<P::Both, AllocError> {
        build(alloc, self.pair, needed)
    }
}

/// The union of two machines that are lent or given away.
fn unite<W: Weight, P: Operands<W> + Drop>(alloc: Global, pair: P) -> Result<P::Both, RationalFault>
    ensures limits { IsLimited (union_of W.KIND (valued W.value (P.one pair)) (valued W.value (P.two pair))) result }
    ensures machine { IfOk result (λ m. P.seen m ≡ union_of W.KIND (valued W.value (P.one pair)) (valued W.value (P.two pair))) }
    ensures relation { IfOk result (λ m. Unites W.KIND (valued W.value (P.one pair)) (valued W.value (P.two pair)) (P.seen m)) }
{
    // What holds of the operands.
    let _states = (pair.first().states(), pair.second().states());
    construct(alloc, Uniting { pair })
}

/// The union of two machines: a new start, which is not final, with an epsilon arc of weight One to the start
/// of each that has one; then the states of the first, then those of the second. (Mohri 2009, section 3.1.)
/// A union that is too big is refused before anything of it is made.
pub fn union<W: Weight>(alloc: Global, a: &Fst<W>, b: &Fst<W>) -> Result<Fst<W>, RationalFault>
    ensures limits { IsLimited (union_of W.KIND (valued W.value a.now) (valued W.value b.now)) result }
    ensures machine { IfOk result (λ m. valued W.value m ≡ union_of W.KIND (valued W.value a.now) (valued W.value b.now)) }
    ensures relation { IfOk result (λ m. Unites W.KIND (valued W.value a.now) (valued W.value b.now) (valued W.value m)) }
{
    unite(alloc, LentPair { a, b })
}

/// The union of two machines that are given away, as `union` makes it of them: `TooManyStates`, `TooManyArcs` and
/// `Memory` as there. Each list of its states is made in the room of the machine that has them, where the arcs of
/// none of its states stand apart from those of the others; otherwise they are copied.
///
/// Time and space: linear in the states and arcs; in the rooms of the machines the new start is all that is taken
/// beside.
pub fn into_union<W: Weight>(
    alloc: Global,
    a: Fst<W>,
    b: Fst<W>,
) -> Result<Joined<W>, RationalFault>
    ensures limits { IsLimited (union_of W.KIND (valued W.value a) (valued W.value b)) result }
    ensures machine { IfOk result (λ m. valued W.value m ≡ union_of W.KIND (valued W.value a) (valued W.value b)) }
    ensures relation { IfOk result (λ m. Unites W.KIND (valued W.value a) (valued W.value b) (valued W.value m)) }
{
    unite(alloc, GivenPair { a, b })
}
