//! Concatenation.

ghost use Rattle.std.specs.Prelude.{◌≡◌, ◌+◌, ◌<◌, IfOk, IfSome};
ghost use Rattle.std.specs.Option.{option_map};
ghost use Rattle.fst_machine.specs.Machine.{valued};
ghost use Rattle.fst_rational.specs.Constructions.{concat_of};
ghost use Rattle.fst_rational.specs.Limits.{IsLimited, IsSize, IsSmall};
ghost use Rattle.fst_rational.specs.Relations.{Concatenates};

use crate::change::{Carrying, count_onward};
use crate::construction::{Construction, construct};
use crate::fault::RationalFault;
use crate::operand::{GivenPair, LentPair, Operands};
use fst_machine::{Fst, Joined};
use fst_semiring::Weight;
use std::alloc::{AllocError, Global};

/// Where a start stands so many places further on.
fn shifted(shift: u32, start: Option<u32>) -> Option<u32>
    requires { IfSome start (λ s. shift + s < 4294967296) }
    ensures { result ≡ option_map (λ s. shift + s) start }
{
    match start {
        Some(start) => Some(shift + start),
        None => None,
    }
}

/// The concatenation, which is not too big: the states of the first go on, and those of the second lead further on.
fn build<W: Weight, P: Operands<W> + Drop>(
    alloc: Global,
    pair: P,
    needed: (u32, u32),
) -> Result<P::Both, AllocError>
    requires size { IsSize (concat_of (valued W.value (P.one pair)) (valued W.value (P.two pair))) needed }
    requires small { IsSmall (concat_of (valued W.value (P.one pair)) (valued W.value (P.two pair))) }
    ensures { IfOk result (λ m. P.seen m ≡ concat_of (valued W.value (P.one pair)) (valued W.value (P.two pair))) }
{
    let first = pair.first();
    let behind = first.states();
    let start = first.start();
    let second = pair.second();
    let _back = second.states();
    let onward = Carrying {
        shift: 0,
        keeps: false,
        target: shifted(behind, second.start()),
    };
    let room = (behind, needed.1 - second.arc_count());
    let none = Vec::new(alloc);
    pair.carry(alloc, start, None, &none, onward, room)
}

/// How many states and arcs the concatenation has.
fn concat_size<W: Weight>(a: &Fst<W>, b: &Fst<W>) -> (u32, u32)
    ensures { IsSize (concat_of (valued W.value a.now) (valued W.value b.now)) result }
{
    let front = a.states();
    let back = b.states();
    let target = shifted(front, b.start());
    let arcs = a.arc_count() + count_onward(a, target) + b.arc_count();
    (front + back, arcs)
}

/// The concatenation of two machines.
#[derive(Drop)]
struct Joining<P> {
    pair: P,
}

impl<W: Weight, P: Operands<W> + Drop> Construction<W> for Joining<P> {
    type Made = P::Both;

    ghost machine = { λ s. concat_of (valued W.value (P.one s.pair)) (valued W.value (P.two s.pair)) };

    ghost seen = { λ m. P.seen m };

    fn size(&self) -> (u32, u32) {
        concat_size(self.pair.first(), self.pair.second())
    }

    fn build(self, alloc: Global, needed: (u32, u32)) -> Result<P::Both, AllocError> {
        build(alloc, self.pair, needed)
    }
}

/// The concatenation of two machines that are lent or given away.
fn concatenate<W: Weight, P: Operands<W> + Drop>(
    alloc: Global,
    pair: P,
) -> Result<P::Both, RationalFault>
    ensures limits { IsLimited (concat_of (valued W.value (P.one pair)) (valued W.value (P.two pair))) result }
    ensures machine { IfOk result (λ m. P.seen m ≡ concat_of (valued W.value (P.one pair)) (valued W.value (P.two pair))) }
    ensures relation { IfOk result (λ m. Concatenates W.KIND (valued W.value (P.one pair)) (valued W.value (P.two pair)) (P.seen m)) }
{
    // What holds of the operands.
    let _states = (pair.first().states(), pair.second().states());
    construct(alloc, Joining { pair })
}

/// The concatenation of two machines: the states of the first, which are not final and go on from each final
/// weight by an epsilon arc with this weight to the start of the second, if it has one; then the states of the
/// second. (Mohri 2009, section 3.1.) A concatenation that is too big is refused before anything of it is made.
pub fn concat<W: Weight>(alloc: Global, a: &Fst<W>, b: &Fst<W>) -> Result<Fst<W>, RationalFault>
    ensures limits { IsLimited (concat_of (valued W.value a.now) (valued W.value b.now)) result }
    ensures machine { IfOk result (λ m. valued W.value m ≡ concat_of (valued W.value a.now) (valued W.value b.now)) }
    ensures relation { IfOk result (λ m. Concatenates W.KIND (valued W.value a.now) (valued W.value b.now) (valued W.value m)) }
{
    concatenate(alloc, LentPair { a, b })
}

/// The concatenation of two machines that are given away, as `concat` makes it of them: `TooManyStates`,
/// `TooManyArcs` and `Memory` as there. Each list of its states is made in the room of the machine that has them,
/// where the arcs of none of its states stand apart from those of the others; otherwise they are copied.
///
/// Time and space: linear in the states and arcs; in the rooms of the machines the arcs by which the final states of
/// the first go on are all that is taken beside.
pub fn into_concat<W: Weight>(
    alloc: Global,
    a: Fst<W>,
    b: Fst<W>,
) -> Result<Joined<W>, RationalFault>
    ensures limits { IsLimited (concat_of (valued W.value a) (valued W.value b)) result }
    ensures machine { IfOk result (λ m. valued W.value m ≡ concat_of (valued W.value a) (valued W.value b)) }
    ensures relation { IfOk result (λ m. Concatenates W.KIND (valued W.value a) (valued W.value b) (valued W.value m)) }
{
    concatenate(alloc, GivenPair { a, b })
}
