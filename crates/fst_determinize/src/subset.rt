//! Weighted subsets as keys of a table.

ghost use Rattle.std.specs.Prelude.{◌≡◌, ◌<◌, [], ◌∷◌, IfOk, Some, fold, length, slice_get};
ghost use Rattle.std.specs.Cmp.{on_equiv, on_per, partial_equiv_from_equiv};
ghost use Rattle.fst_determinize.specs.Kept.{member_as, members_as, number_more, same_member, same_members, subset_number};
ghost use Rattle.fst_determinize.specs.KeyLaws.{member_laws, same_decides, subset_laws};
ghost use Rattle.fst_determinize.specs.Listing.{listed_apart, listed_decides, listed_of};

use crate::listing::{Listed, Ranked};
use crate::lists::MemberList;
use crate::residual::Kept;
use fst_keys::{Code, Coded};
use std::alloc::{AllocError, Global};
use std::convert::AsSlice;
use std::marker::{Model, PhantomData};

/// A state with its residual.
#[derive(Clone, Copy, Default)]
pub struct Held<R> {
    /// The state.
    pub state: u32,
    /// What is left of the best weight that reaches it, when the best of all is divided off.
    pub residual: R,
}

impl<R> Model for Held<R> {
    ghost use Rattle.fst_determinize.specs.Kept.{HeldAs};

    ghost Value = { HeldAs R };

    ghost view = { λ h. record { state = h.state; residual = h.residual } };

    ghost inverse = { λ h. record { state = h.state; residual = h.residual } };
}

impl<R: Kept> PartialEq for Held<R> {
    ghost eq = { λ a b. same_member (member_as R.value a) (member_as R.value b) };

    ghost laws = { on_per (member_as R.value) (partial_equiv_from_equiv member_laws) };

    fn eq(&self, other: &Held<R>) -> bool {
        self.state == other.state && self.residual.same(other.residual)
    }
}

impl<R: Kept> Eq for Held<R> {
    ghost laws = { on_equiv (member_as R.value) member_laws };
}

/// A weighted subset: states by number, each with its residual. One of up to two states takes no memory of its own.
#[derive(Drop)]
pub struct SubsetOf<R: Kept, L: MemberList<R>> {
    list: L,
    form: PhantomData<R>,
}

impl<R: Kept, L: MemberList<R>> Model for SubsetOf<R, L> {
    ghost use Rattle.std.specs.Prelude.{List};
    ghost use Rattle.fst_determinize.specs.Subsets.{Member};
    ghost use Rattle.fst_determinize.specs.Kept.{members_as};

    ghost Value = { List Member };

    ghost view = { λ s. members_as R.value (L.items s.list) };
}

impl<R: Kept, L: MemberList<R>> PartialEq for SubsetOf<R, L> {
    ghost eq = { same_members };

    ghost laws = { partial_equiv_from_equiv subset_laws };

    fn eq(&self, other: &SubsetOf<R, L>) -> bool {
        self.members() == other.members()
    }
}

impl<R: Kept, L: MemberList<R>> Eq for SubsetOf<R, L> {
    ghost laws = { subset_laws };
}

/// Odd numbers whose bits look random.
const FIRST_FACTOR: u64 = 0x9E3779B97F4A7C15;

const SECOND_FACTOR: u64 = 0xD6E8FEB86659FD93;

/// One more than the greatest number of 64 bits.
const HALF: u128 = 18_446_744_073_709_551_616;

/// A number with a member more. That of one member with a residual of 0 is its state, so that a list by number has
/// place for it.
#[tactic(auto, unfolding(crate::specs::Kept::number_more))]
fn number_more<R: Kept>(number: u64, member: Held<R>) -> u64
    ensures { result ≡ number_more number (member_as R.value member) }
{
    let residual = (member.residual.key().first.unsigned_abs() % HALF) as u64;
    let once = number.wrapping_mul(FIRST_FACTOR).wrapping_add(residual);
    once.wrapping_mul(SECOND_FACTOR)
        .wrapping_add(u64::from(member.state))
}

/// A number with these members more.
fn numbered<R: Kept>(number: u64, members: &[Held<R>]) -> u64
    ensures { result ≡ fold number_more number (members_as R.value members.now) }
{
    let mut so_far = number;
    for member in members {
        so_far = number_more(so_far, *member);
    }
    so_far
}

/// The members of a subset as plain numbers.
fn listed<R: Kept, L: MemberList<R>>(
    alloc: Global,
    subset: &SubsetOf<R, L>,
) -> Result<Listed, AllocError>
    ensures { IfOk result (λ l. l ≡ listed_of subset.now) }
{
    let mut members = Vec::with_capacity(alloc, subset.len())?;
    for place in 0..subset.len() {
        let member = subset.item(place);
        members.push(Ranked {
            state: member.state,
            key: member.residual.key(),
        })?;
    }
    Ok(Listed { members })
}

/// A subset is found by a number of its members. Where another subset has that number, it is looked up by the list of its
/// members.
impl<R: Kept, L: MemberList<R>> Coded for SubsetOf<R, L> {
    type Whole = Listed;

    ghost code = { subset_number };

    ghost whole = { listed_of };

    fn code(&self) -> Code {
        Code {
            number: numbered(0, self.members()),
            is_alone: false,
        }
    }

    fn whole(&self, alloc: Global) -> Result<Listed, AllocError> {
        listed(alloc, self)
    }

    ghost same = { same_decides };

    ghost apart = { listed_apart };

    ghost compared = { listed_decides };
}

/// The subset of these members.
pub(crate) fn subset_of<R: Kept, L: MemberList<R>>(
    alloc: Global,
    members: &[Held<R>],
) -> Result<SubsetOf<R, L>, AllocError>
    ensures { IfOk result (λ s. s ≡ members_as R.value members.now) }
{
    Ok(SubsetOf {
        list: L::of(alloc, members)?,
        form: PhantomData,
    })
}

/// The subset of one member. Takes no memory.
pub(crate) fn subset_of_one<R: Kept, L: MemberList<R>>(
    alloc: Global,
    member: Held<R>,
) -> SubsetOf<R, L>
    ensures { result ≡ member_as R.value member ∷ [] }
{
    SubsetOf {
        list: L::one(alloc, member),
        form: PhantomData,
    }
}

impl<R: Kept, L: MemberList<R>> SubsetOf<R, L> {
    /// Its members, by state. Takes no memory.
    pub(crate) fn members(&self) -> &[Held<R>]
        ensures { members_as R.value result.now ≡ self.now }
    {
        self.list.as_slice()
    }

    /// How many members it has. Takes no memory.
    pub fn len(&self) -> usize
        ensures { result ≡ length self.now }
    {
        self.members().len()
    }

    /// The member in a place, by state, from 0. Takes no memory.
    pub fn item(&self, index: usize) -> Held<R>
        requires { index < length self.now }
        ensures { slice_get self.now index ≡ Some (member_as R.value result) }
    {
        self.members()[index]
    }
}
