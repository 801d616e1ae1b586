//! The size of a result.

ghost use Rattle.std.specs.Prelude.{◌≡◌};
ghost use Rattle.fst_rational.specs.Limits.{size_fault, start_count};

use crate::fault::RationalFault;
use fst_machine::{MOST_ARCS, MOST_STATES};

/// Why a machine of this size, so many states and so many arcs, is not made, if it is too big.
pub(crate) fn check_size(size: (u32, u32)) -> Option<RationalFault>
    ensures { size_fault size ≡ result }
{
    let (states, arcs) = size;
    if states as usize > MOST_STATES {
        return Some(RationalFault::TooManyStates);
    }
    if arcs > MOST_ARCS {
        return Some(RationalFault::TooManyArcs);
    }
    None
}

/// How many arcs enter a machine with this start.
pub fn entries(start: Option<u32>) -> u32
    ensures { result ≡ start_count start }
{
    if start.is_some() { 1 } else { 0 }
}
