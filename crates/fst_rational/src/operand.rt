//! Machines on which an operation works: lent ones, and ones that are given away.

ghost use Rattle.std.specs.Prelude.{◌≡◌, ◌≤◌, IfOk, map};
ghost use Rattle.fst_machine.specs.Machine.{IsMachine, arc_total, most_arcs, most_states, valued, valued_state};
ghost use Rattle.fst_rational.specs.Constructions.{both_of, carried_states};
ghost use Rattle.fst_rational.specs.Handed.{machine_of};

use crate::carry::{copied_states, given_states, push_states};
use crate::change::Carrying;
use fst_machine::{Fst, FstArc, Joined, StateList};
use fst_semiring::Weight;
use std::alloc::{AllocError, Global};

/// A machine on which an operation works.
#[derive(Drop)]
pub(crate) enum Handed<'a, W: Weight> {
    /// One that is lent: its states are copied.
    Lent(&'a Fst<W>),
    /// One that is given away: its states are carried over in its own room, where that can be had.
    Given(Fst<W>),
}

impl<'a, W: Weight> Handed<'a, W> {
    /// The machine. Takes no memory.
    pub(crate) fn fst(&self) -> &Fst<W>
        ensures { result.now ≡ machine_of self.now }
    {
        match self {
            Handed::Lent(fst) => fst,
            Handed::Given(fst) => fst,
        }
    }

    /// Its states, carried over, behind a new start with this final weight and these arcs where there is one. They are
    /// so many, with so many arcs.
    pub(crate) fn carry(
        self,
        alloc: Global,
        head: Option<W>,
        arcs: &[FstArc<W>],
        how: Carrying,
        room: (u32, u32),
    ) -> Result<StateList<W>, AllocError>
        requires small { how.shift ≤ most_states }
        requires few { room.1 ≤ most_arcs }
        requires all { arc_total (carried_states W.value head arcs.now how (machine_of self)) ≤ room.1 }
        ensures { IfOk result (λ list. map (valued_state W.value) list ≡ carried_states W.value head arcs.now how (machine_of self.entry)) }
    {
        match self {
            Handed::Lent(fst) => {
                let all = (room.0 as usize, room.1 as usize);
                copied_states(alloc, fst, head, arcs, how, all)
            }
            Handed::Given(fst) => given_states(alloc, fst, head, arcs, how, room),
        }
    }
}

/// Two machines on which an operation works.
pub(crate) trait Operands<W: Weight> {
    ghost use Rattle.fst_semiring.specs.Cost.{Cost};
    ghost use Rattle.fst_machine.specs.Machine.{Machine};

    /// What becomes of the two: a machine, or one whose states stand in two lists.
    type Both;

    /// The first machine.
    ghost one: { Self → Machine W };

    /// The second machine.
    ghost two: { Self → Machine W };

    /// What becomes of the two, as a machine.
    ghost seen: { Self.Both → Machine Cost };

    /// The first machine. Takes no memory.
    fn first(&self) -> &Fst<W>
        ensures { result.now ≡ one self.now };

    /// The second machine. Takes no memory.
    fn second(&self) -> &Fst<W>
        ensures { result.now ≡ two self.now };

    /// The machine with this start and the states of the first, carried over, as `Handed::carry` gives them, and behind
    /// them those of the second, which lead so many places further on.
    fn carry(
        self,
        alloc: Global,
        start: Option<u32>,
        head: Option<W>,
        arcs: &[FstArc<W>],
        how: Carrying,
        room: (u32, u32),
    ) -> Result<Self::Both, AllocError>
        requires small { how.shift ≤ most_states }
        requires behind { room.0 ≤ most_states }
        requires few { room.1 ≤ most_arcs }
        requires all { arc_total (carried_states W.value head arcs.now how (one self)) ≤ room.1 }
        requires machine { IsMachine (λ v. v) (both_of W.value start head arcs.now how room.0 (one self) (two self)) }
        ensures { IfOk result (λ m. seen m ≡ both_of W.value start head arcs.now how room.0 (one self) (two self)) };
}

/// Two machines that are lent: the states of both are copied into one list.
#[derive(Drop)]
pub(crate) struct LentPair<'a, W: Weight> {
    pub(crate) a: &'a Fst<W>,
    pub(crate) b: &'a Fst<W>,
}

impl<'a, W: Weight> Operands<W> for LentPair<'a, W> {
    type Both = Fst<W>;

    ghost one = { λ s. s.a.now };

    ghost two = { λ s. s.b.now };

    ghost seen = { λ m. valued W.value m };

    fn first(&self) -> &Fst<W> {
        self.a
    }

    fn second(&self) -> &Fst<W> {
        self.b
    }

    fn carry(
        self,
        alloc: Global,
        start: Option<u32>,
        head: Option<W>,
        arcs: &[FstArc<W>],
        how: Carrying,
        room: (u32, u32),
    ) -> Result<Fst<W>, AllocError>
        requires small { how.shift ≤ most_states }
        requires behind { room.0 ≤ most_states }
        requires few { room.1 ≤ most_arcs }
        requires all { arc_total (carried_states W.value head arcs.now how self.a.now) ≤ room.1 }
        requires machine { IsMachine (λ v. v) (both_of W.value start head arcs.now how room.0 self.a.now self.b.now) }
        ensures { IfOk result (λ m. valued W.value m ≡ both_of W.value start head arcs.now how room.0 self.entry.a.now self.entry.b.now) }
    {
        let states = room.0 as usize + self.b.states() as usize;
        let all = room.1 as usize + self.b.arc_count() as usize;
        let mut list = copied_states(alloc, self.a, head, arcs, how, (states, all))?;
        push_states(&mut list, self.b, room.0)?;
        Ok(list.into_machine(start))
    }
}

/// Two machines that are given away: the states of each are carried over in its own room, where that can be had.
#[derive(Drop)]
pub(crate) struct GivenPair<W: Weight> {
    pub(crate) a: Fst<W>,
    pub(crate) b: Fst<W>,
}

impl<W: Weight> Operands<W> for GivenPair<W> {
    type Both = Joined<W>;

    ghost one = { λ s. s.a };

    ghost two = { λ s. s.b };

    ghost seen = { λ m. valued W.value m };

    fn first(&self) -> &Fst<W> {
        &self.a
    }

    fn second(&self) -> &Fst<W> {
        &self.b
    }

    fn carry(
        self,
        alloc: Global,
        start: Option<u32>,
        head: Option<W>,
        arcs: &[FstArc<W>],
        how: Carrying,
        room: (u32, u32),
    ) -> Result<Joined<W>, AllocError>
        requires small { how.shift ≤ most_states }
        requires behind { room.0 ≤ most_states }
        requires few { room.1 ≤ most_arcs }
        requires all { arc_total (carried_states W.value head arcs.now how self.a) ≤ room.1 }
        requires machine { IsMachine (λ v. v) (both_of W.value start head arcs.now how room.0 self.a self.b) }
        ensures { IfOk result (λ m. valued W.value m ≡ both_of W.value start head arcs.now how room.0 self.a self.b) }
    {
        let first = given_states(alloc, self.a, head, arcs, how, room)?;
        let none = Vec::new(alloc);
        let own = (self.b.states(), self.b.arc_count());
        let further = Carrying {
            shift: room.0,
            keeps: true,
            target: None,
        };
        let second = given_states(alloc, self.b, None, &none, further, own)?;
        Ok(Joined::new(start, first, second))
    }
}
