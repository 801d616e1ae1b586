//! What a search of the best paths knows beforehand.

use std::alloc::{AllocError, Global};
use std::cmp::Ordering;

/// A system of words, with what is ahead of each of its names.
pub(crate) trait System<D: Copy> {
    ghost use Rattle.std.specs.Prelude.{◌≡◌, ◌≢◌, ◌+◌, ◌<◌, ◌≤◌, ℕ, true, suc, List, [], Some, IfOk, IfSome, MatchOption, None};
    ghost use Rattle.std.specs.Bool.{MatchBool};
    ghost use Rattle.fst_semiring.specs.Cost.{Cost, cost_cmp};
    ghost use Rattle.fst_semiring.specs.declared.arc_type.ArcType.{ArcType};
    ghost use Rattle.fst_semiring.specs.Semiring.{cancels, one_of, times};
    ghost use Rattle.fst_nbest.specs.Words.{Ahead, AreWords, IsAhead, IsOrder, Words, ahead_of, Says};
    ghost use Rattle.fst_nbest.specs.Entries.{most_long};

    ghost kind: { ArcType };

    /// The value of a weight.
    ghost value: { D → Cost };

    /// The words.
    ghost words: { Self → Words ℕ };

    /// The best weight ahead of a name.
    ghost dist: { Self → ℕ → Cost };

    /// The least number of arcs ahead with that weight.
    ghost count: { Self → ℕ → ℕ };

    /// How many names there are.
    ghost size: { Self → ℕ };

    /// What holds of a weight of so many arcs.
    ghost bounded: { ℕ → D → Type 0 };

    /// The number of names, and with it what holds of the words.
    fn name_count(&self) -> u32
        ensures count { result ≡ size self.now }
        ensures cancel { cancels kind ≡ true }
        ensures good { AreWords kind (words self.now) (dist self.now) (count self.now) };

    /// One.
    fn one(&self) -> D
        ensures value { value result ≡ one_of kind }
        ensures bound { bounded 0 result };

    /// How two weights compare: Less is better.
    fn compare(&self, a: D, b: D) -> Ordering
        ensures { result ≡ cost_cmp (value a) (value b) };

    /// The moves of a name from which words go on, in the order of what is ahead of them.
    fn moves(&self, alloc: Global, name: u32) -> Result<Vec<u32>, AllocError>
        requires { name < size self.now }
        ensures { IfOk result (λ moves. IsOrder kind (words self.now) (dist self.now) (count self.now) name moves.items) };

    /// What is ahead of a move of a name, behind a weight: the weight of the whole, and the number of arcs ahead.
    fn look_ahead(&self, front: D, name: u32, turn: u32) -> (D, usize)
        requires name { name < size self.now }
        requires turn { ahead_of kind (words self.now) (dist self.now) (count self.now) name turn ≢ None }
        requires bound { (depth : ℕ) × bounded depth front × (depth ≤ most_long) }
        ensures few { result.1 ≤ 4294967296 }
        ensures ahead { (e : Ahead) → ahead_of kind (words self.now) (dist self.now) (count self.now) name turn ≡ Some e → (value result.0 ≡ times kind (value front) e.total) × (result.1 ≡ e.arcs) };

    /// A step of a name: its weight behind a weight, and the name where it leads.
    fn step(&self, front: D, name: u32, place: u32) -> (D, u32)
        requires name { name < size self.now }
        requires step { (words self.now).step name place ≢ None }
        requires bound { (depth : ℕ) × bounded depth front × (depth ≤ most_long) }
        ensures step { (w : Cost) × ((words self.now).step name place ≡ Some (w, result.1)) × (value result.0 ≡ times kind (value front) w) }
        ensures bound { (depth : ℕ) → bounded depth front → bounded (depth + 1) result.0 }
        ensures name { result.1 < size self.now };

    /// The weight and the number of arcs ahead of a name from which words go on.
    fn whole(&self, name: u32) -> (D, usize)
        requires { name < size self.now }
        ensures total { value result.0 ≡ dist self.now name }
        ensures arcs { result.1 ≡ count self.now name };
}
