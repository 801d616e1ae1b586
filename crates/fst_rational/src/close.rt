//! Closure: star and plus.

ghost use Rattle.std.specs.Prelude.{◌≡◌, IfOk};
ghost use Rattle.fst_semiring.specs.Semiring.{one_of};
ghost use Rattle.fst_machine.specs.Machine.{valued};
ghost use Rattle.fst_rational.specs.Constructions.{closure_of, plus_of, star_of};
ghost use Rattle.fst_rational.specs.Handed.{machine_of};
ghost use Rattle.fst_rational.specs.Limits.{IsLimited, IsSize, IsSmall};
ghost use Rattle.fst_rational.specs.Relations.{Closes};

use crate::change::{Carrying, count_onward, put_entry};
use crate::construction::{Construction, construct};
use crate::fault::RationalFault;
use crate::operand::Handed;
use crate::size::entries;
use fst_machine::Fst;
use fst_semiring::Weight;
use std::alloc::{AllocError, Global};

/// The final weight of the new start of a star: One, which is the product of no triples.
fn weight_of_none<W: Weight>() -> W
    ensures { W.value result ≡ one_of W.KIND }
{
    W::one()
}

/// The star, which is not too big: the states go on to the new start, which stands in front of them.
fn build_star<'a, W: Weight>(
    alloc: Global,
    a: Handed<'a, W>,
    needed: (u32, u32),
) -> Result<Fst<W>, AllocError>
    requires size { IsSize (star_of W.KIND (valued W.value (machine_of a))) needed }
    requires small { IsSmall (star_of W.KIND (valued W.value (machine_of a))) }
    ensures { IfOk result (λ m. valued W.value m ≡ star_of W.KIND (valued W.value (machine_of a.entry))) }
{
    let fst = a.fst();
    let _states = fst.states();
    let mut own = Vec::new(alloc);
    put_entry(&mut own, 1, fst.start())?;
    let round = Carrying {
        shift: 1,
        keeps: false,
        target: Some(0),
    };
    let last = Some(weight_of_none());
    let list = a.carry(alloc, last, &own, round, needed)?;
    Ok(list.into_machine(Some(0)))
}

/// The plus, which is not too big: the states go on to the start.
fn build_plus<'a, W: Weight>(
    alloc: Global,
    a: Handed<'a, W>,
    needed: (u32, u32),
) -> Result<Fst<W>, AllocError>
    requires size { IsSize (plus_of (valued W.value (machine_of a))) needed }
    requires small { IsSmall (plus_of (valued W.value (machine_of a))) }
    ensures { IfOk result (λ m. valued W.value m ≡ plus_of (valued W.value (machine_of a.entry))) }
{
    let fst = a.fst();
    let _states = fst.states();
    let start = fst.start();
    let round = Carrying {
        shift: 0,
        keeps: true,
        target: start,
    };
    let none = Vec::new(alloc);
    let list = a.carry(alloc, None, &none, round, needed)?;
    Ok(list.into_machine(start))
}

/// How many states and arcs the star has.
fn star_size<W: Weight>(a: &Fst<W>) -> (u32, u32)
    ensures { IsSize (star_of W.KIND (valued W.value a.now)) result }
{
    let states = a.states();
    let own = a.arc_count() + count_onward(a, Some(0));
    (states + 1, own + entries(a.start()))
}

/// How many states and arcs the plus has.
fn plus_size<W: Weight>(a: &Fst<W>) -> (u32, u32)
    ensures { IsSize (plus_of (valued W.value a.now)) result }
{
    let states = a.states();
    let arcs = a.arc_count() + count_onward(a, a.start());
    (states, arcs)
}

/// The closure of a machine.
#[derive(Drop)]
struct Closing<'a, W: Weight> {
    a: Handed<'a, W>,
    plus: bool,
}

impl<'a, W: Weight> Construction<W> for Closing<'a, W> {
    type Made = Fst<W>;

    ghost machine = { λ s. closure_of W.KIND s.plus (valued W.value (machine_of s.a)) };

    ghost seen = { λ m. valued W.value m };

    fn size(&self) -> (u32, u32) {
        if self.plus {
            plus_size(self.a.fst())
        } else {
            star_size(self.a.fst())
        }
    }

    fn build(self, alloc: Global, needed: (u32, u32)) -> Result<Fst<W>, AllocError> {
        if self.plus {
            build_plus(alloc, self.a, needed)
        } else {
            build_star(alloc, self.a, needed)
        }
    }
}

/// The closure of a machine that is lent or given away. The flag is borrowed, so that an operand that is given away has the
/// lifetime of something.
fn close<'a, W: Weight + 'a>(
    alloc: Global,
    a: Handed<'a, W>,
    plus: &'a bool,
) -> Result<Fst<W>, RationalFault>
    ensures limits { IsLimited (closure_of W.KIND plus.now (valued W.value (machine_of a.entry))) result }
    ensures machine { IfOk result (λ m. valued W.value m ≡ closure_of W.KIND plus.now (valued W.value (machine_of a.entry))) }
    ensures relation { IfOk result (λ m. Closes W.KIND plus.now (valued W.value (machine_of a.entry)) (valued W.value m)) }
{
    // What holds of the operand.
    let _states = a.fst().states();
    construct(alloc, Closing { a, plus: *plus })
}

/// The closure of a machine. Star: a new start, final with weight One, with an epsilon arc of weight One to the
/// start of the machine, if it has one; then its states, which are not final and go on from each final weight by
/// an epsilon arc with this weight to the new start. Plus: its states, which stay final and go on so to its
/// start. (Mohri 2009, section 3.1.) A closure that is too big is refused before anything of it is made.
pub fn closure<W: Weight>(alloc: Global, a: &Fst<W>, plus: bool) -> Result<Fst<W>, RationalFault>
    ensures limits { IsLimited (closure_of W.KIND plus (valued W.value a.now)) result }
    ensures machine { IfOk result (λ m. valued W.value m ≡ closure_of W.KIND plus (valued W.value a.now)) }
    ensures relation { IfOk result (λ m. Closes W.KIND plus (valued W.value a.now) (valued W.value m)) }
{
    close(alloc, Handed::Lent(a), &plus)
}

/// The closure of a machine that is given away, as `closure` makes it of it: `TooManyStates`, `TooManyArcs` and
/// `Memory` as there. It is made in the room of the machine, where the arcs of none of its states stand apart from
/// those of the others; otherwise its states are copied.
///
/// Time and space: linear in the states and arcs; in the room of the machine the arcs by which its final states go
/// on are all that is taken beside, and for star the new start.
pub fn into_closure<W: Weight>(
    alloc: Global,
    a: Fst<W>,
    plus: bool,
) -> Result<Fst<W>, RationalFault>
    ensures limits { IsLimited (closure_of W.KIND plus (valued W.value a)) result }
    ensures machine { IfOk result (λ m. valued W.value m ≡ closure_of W.KIND plus (valued W.value a)) }
    ensures relation { IfOk result (λ m. Closes W.KIND plus (valued W.value a) (valued W.value m)) }
{
    close(alloc, Handed::Given(a), &plus)
}
