//! The closure of a state in the order in which its arcs are collected.

ghost use Rattle.std.specs.Prelude.{◌≡◌, ℕ};
ghost use Rattle.std.specs.List.Sorted.{IsNonDecreasingBy, IsPermutation};
ghost use Rattle.fst_search.specs.Closure.{Reached as ReachedValue};
ghost use Rattle.fst_epsilon.specs.Gathering.{rank};

use fst_search::Reached;

/// A number by which the state itself stands before all others, and these by number.
fn rank_of(own: u32, state: u32) -> u64
    ensures { result ≡ rank own state }
{
    if state == own {
        0
    } else {
        u64::from(state) + 1
    }
}

/// Puts what epsilon arcs reach from a state in order: the state itself, then the others by number. Takes no memory.
///
/// A short search lists the state first, and behind it what it met, mostly greater numbers later. So little is left to move.
pub(crate) fn sort_closure<D: Copy>(reached: &mut Vec<Reached<D>>, own: u32)
    ensures same { IsPermutation reached.old.items reached.new.items }
    ensures ranked { IsNonDecreasingBy (λ (r : ReachedValue D). rank own r.state) reached.new.items }
{
    reached.sort_unstable_by_key(|item| rank_of(own, item.state));
}
