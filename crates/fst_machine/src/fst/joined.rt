//! A machine whose states stand in two lists, as one that was put behind another leaves them.

ghost use Rattle.std.specs.Prelude.{◌≡◌, ◌<◌, ◌++◌, IfSome, length};
ghost use Rattle.fst_machine.specs.Machine.{IsMachine, arc_total};

use super::{Leaving, StateList};
use fst_semiring::Weight;
use std::marker::Model;

/// A machine whose states stand in two lists, those of the first in front of those of the second. It is made of two
/// lists without a state or an arc moving, and what reads it reads one list after the other.
#[derive(Drop)]
pub struct Joined<W: Weight> {
    start: Option<u32>,
    first: StateList<W>,
    second: StateList<W>,
}

impl<W: Weight> Model for Joined<W> {
    ghost use Rattle.std.specs.Prelude.{◌++◌};
    ghost use Rattle.fst_machine.specs.Machine.{Machine, IsMachine};

    ghost Value = { Machine W };

    ghost view = { λ m. record { start = m.start; states = m.first ++ m.second } };

    ghost invariant = { λ m. IsMachine W.value (record { start = m.start; states = m.first ++ m.second }) };
}

impl<W: Weight> Joined<W> {
    /// The machine with this start, the states of the first list, and those of the second behind them. The arcs of both
    /// lead to these states by their places among all of them. Takes no memory.
    pub fn new(start: Option<u32>, first: StateList<W>, second: StateList<W>) -> Joined<W>
        requires { IsMachine W.value (record { start = start; states = first ++ second }) }
        ensures { result ≡ record { start = start; states = first ++ second } }
    {
        Joined {
            start,
            first,
            second,
        }
    }

    /// The start; `None` exactly where there is none. Takes no memory.
    pub fn start(&self) -> Option<u32>
        ensures value { result ≡ self.now.start }
        ensures state { IfSome result (λ s. s < length self.now.states) }
    {
        self.start
    }

    /// The number of states, and with it what holds of every machine. Takes no memory.
    pub fn states(&self) -> u32
        ensures value { result ≡ length self.now.states }
        ensures machine { IsMachine W.value self.now }
    {
        (self.first.len() + self.second.len()) as u32
    }

    /// The number of arcs of all states together. Takes no memory.
    pub fn arc_count(&self) -> u32
        ensures { result ≡ arc_total self.now.states }
    {
        (self.first.arc_count() + self.second.arc_count()) as u32
    }

    /// The states of the first list, and those of the second, of a machine that is given away. Takes no memory.
    pub fn into_parts(self) -> (Leaving<W>, Leaving<W>)
        ensures { self.states ≡ result.0 ++ result.1 }
    {
        (self.first.leave(), self.second.leave())
    }
}
