//! Machines whose size is known before anything of them is made.

ghost use Rattle.std.specs.Prelude.{◌≡◌, IfOk};
ghost use Rattle.fst_machine.specs.Machine.{valued};
ghost use Rattle.fst_rational.specs.Limits.{IsLimited, IsSize, IsSmall};

use crate::fault::RationalFault;
use crate::size::check_size;
use fst_semiring::Weight;
use std::alloc::{AllocError, Global};

/// An operation on the machines that it holds.
pub(crate) trait Construction<W: Weight> {
    ghost use Rattle.fst_semiring.specs.Cost.{Cost};
    ghost use Rattle.fst_machine.specs.Machine.{Machine};

    /// What is made: a machine, or one whose states stand in two lists.
    type Made;

    /// The machine of the construction.
    ghost machine: { Self → Machine Cost };

    /// What is made, as a machine.
    ghost seen: { Self.Made → Machine Cost };

    /// How many states and arcs the machine has.
    fn size(&self) -> (u32, u32)
        ensures { IsSize (machine self.now) result };

    /// The machine, which has this size and is not too big; what it needs is reserved at once.
    fn build(self, alloc: Global, needed: (u32, u32)) -> Result<Self::Made, AllocError>
        requires size { IsSize (machine self) needed }
        requires small { IsSmall (machine self) }
        ensures { IfOk result (λ m. seen m ≡ machine self) };
}

/// The machine of a construction. One that is too big is refused before anything of it is made.
pub(crate) fn construct<W: Weight, C: Construction<W> + Drop>(
    alloc: Global,
    construction: C,
) -> Result<C::Made, RationalFault>
    ensures limits { IsLimited (C.machine construction) result }
    ensures machine { IfOk result (λ m. C.seen m ≡ C.machine construction) }
{
    let needed = construction.size();
    if let Some(fault) = check_size(needed) {
        return Err(fault);
    }
    match construction.build(alloc, needed) {
        Ok(made) => Ok(made),
        // A lack of memory becomes a fault here alone.
        Err(_) => Err(RationalFault::Memory),
    }
}
