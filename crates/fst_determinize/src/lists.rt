//! The lists in which the members of subsets are kept.

ghost use Rattle.std.specs.Prelude.{◌≡◌, ◌∷◌, [], IfOk};

use crate::residual::{Broad, Narrow};
use crate::subset::Held;
use fst_semiring::{Boolean, Lexicographic, MinMax, Tropical, Weight};
use smallvec::SmallVec;
use std::alloc::{AllocError, Global};
use std::convert::AsSlice;

/// A list of members.
pub trait MemberList<R: Copy>: AsSlice<Held<R>> + Drop {
    /// The list of one member. Takes no memory.
    fn one(alloc: Global, member: Held<R>) -> Self
        ensures { Self.items result ≡ member ∷ [] };

    /// The list of these members.
    fn of(alloc: Global, members: &[Held<R>]) -> Result<Self, AllocError>
        ensures { IfOk result (λ list. Self.items list ≡ members.now) };
}

/// A list of which up to two members stand in place, so that most subsets take no memory of their own.
type Few<R> = SmallVec<Held<R>, 2>;

impl<R: Copy + Default> MemberList<R> for SmallVec<Held<R>, 2> {
    fn one(alloc: Global, member: Held<R>) -> Self
        ensures { result.items ≡ member ∷ [] }
    {
        SmallVec::from_buf_and_len(alloc, [member, member], 1)
    }

    fn of(alloc: Global, members: &[Held<R>]) -> Result<Self, AllocError> {
        SmallVec::from_slice(alloc, members)
    }
}

/// Weights with lists for the members of their subsets. A list holds members in place, so the type of each is named
/// where that of the weights is known.
pub trait SubsetWeight: Weight {
    /// That of members whose residuals are in the form of weights.
    type NarrowList: MemberList<Narrow<Self>>;

    /// That of members whose residuals are in the wide form.
    type BroadList: MemberList<Broad<Self, Self::Wide>>;
}

impl SubsetWeight for Boolean {
    type NarrowList = Few<Narrow<Boolean>>;

    type BroadList = Few<Broad<Boolean, Boolean>>;
}

impl SubsetWeight for Tropical {
    type NarrowList = Few<Narrow<Tropical>>;

    type BroadList = Few<Broad<Tropical, <Tropical as Weight>::Wide>>;
}

impl SubsetWeight for MinMax {
    type NarrowList = Few<Narrow<MinMax>>;

    type BroadList = Few<Broad<MinMax, <MinMax as Weight>::Wide>>;
}

impl SubsetWeight for Lexicographic {
    type NarrowList = Few<Narrow<Lexicographic>>;

    type BroadList = Few<Broad<Lexicographic, <Lexicographic as Weight>::Wide>>;
}
