//! The names of a lattice that a walk has found.

ghost use Rattle.std.specs.Prelude.{◌≡◌, ◌⊎◌, ◌+◌, ◌<◌, ◌≤◌, ◌∷◌, [], IfOk, MatchBool, MatchOption, Some, length, slice_get};
ghost use Rattle.fst_machine.specs.BreadthFirst.{Grows, Has};
ghost use Rattle.fst_walk.specs.Making.{Passes};
ghost use Rattle.fst_lattice.specs.Lattice.{point};
ghost use Rattle.fst_lattice.specs.Points.{point_decides, point_number};

use fst_delayed::ComposeKey;
use fst_keys::{Code, Coded, KeySet};
use std::alloc::{AllocError, Global};
use std::marker::Model;

/// An odd number whose bits look random.
const FACTOR: u64 = 0x9E3779B97F4A7C15;

/// A name of a lattice: how many bytes of the line were read, and a name of the composition that reads it.
#[derive(Clone, Copy, Debug, PartialEq, Eq, PartialOrd, Ord)]
struct PointKey {
    position: u64,
    name: ComposeKey,
}

impl Model for PointKey {
    ghost use Rattle.std.specs.Prelude.{ℕ};
    ghost use Rattle.fst_delayed.specs.Handed.{Name};
    ghost use Rattle.fst_lattice.specs.Lattice.{Point};

    ghost Value = { Point (Name ℕ ℕ) };

    ghost view = { λ p. record { position = p.position; name = p.name } };

    ghost inverse = { λ p. record { position = p.position; name = p.name } };
}

/// A number of a name, which others may have: the states of both machines side by side, and a product of the position and
/// the state of the filter.
#[tactic(auto, unfolding(crate::specs::Points::point_number))]
fn point_number(key: PointKey) -> u64
    ensures { result ≡ point_number key }
{
    let name = key.name;
    let states = u64::from(name.first) + u64::from(name.second) * 4_294_967_296;
    let others = key
        .position
        .wrapping_mul(2)
        .wrapping_add(u64::from(name.filter));
    states.wrapping_add(others.wrapping_mul(FACTOR))
}

/// Where another name has its number, a name is found by all its parts.
impl Coded for PointKey {
    type Whole = PointKey;

    ghost code = { point_number };

    ghost whole = { λ p. p };

    ghost same = { point_decides };

    ghost apart = { λ a b e. e };

    ghost compared = { point_decides };

    fn code(&self) -> Code {
        Code {
            number: point_number(*self),
            is_alone: false,
        }
    }

    fn whole(&self, _alloc: Global) -> Result<PointKey, AllocError> {
        Ok(*self)
    }
}

/// Puts a name after the others, where it is new, and gives its place.
fn put_point(keys: &mut KeySet<PointKey>, key: PointKey) -> Result<usize, AllocError>
    ensures grown { IfOk result (λ place. Grows keys.old (key ∷ []) keys.new) }
    ensures there { IfOk result (λ place. slice_get keys.new place ≡ Some key) }
    ensures last { IfOk result (λ place. (keys.new ≡ keys.old) ⊎ (length keys.new ≡ place + 1)) }
{
    let (place, _) = keys.put(key)?;
    Ok(place)
}

/// Names of a lattice, each once, in the order in which they were found. A name is looked up by a number, and where
/// another has that number, by all its parts.
#[derive(Drop)]
pub struct Points {
    keys: KeySet<PointKey>,
}

impl Model for Points {
    ghost use Rattle.std.specs.Prelude.{ℕ, List};
    ghost use Rattle.fst_delayed.specs.Handed.{Name};
    ghost use Rattle.fst_lattice.specs.Lattice.{Point};

    ghost Value = { List (Point (Name ℕ ℕ)) };

    ghost view = { λ t. t.keys };
}

impl Points {
    /// No names. Takes no memory.
    pub(crate) fn new(alloc: Global) -> Points
        ensures { result ≡ [] }
    {
        Points {
            keys: KeySet::new(alloc),
        }
    }

    /// Puts a name after the others where it is new. False where these are then more than the limit.
    pub(crate) fn find(
        &mut self,
        position: u64,
        name: ComposeKey,
        limit: u32,
    ) -> Result<bool, AllocError>
        requires few { length self.old ≤ limit }
        ensures grown { IfOk result (λ fits. Grows self.old (point position name ∷ []) self.new) }
        ensures fits { IfOk result (λ fits. MatchBool fits (length self.new ≤ limit) (Passes limit self.old (point position name ∷ []))) }
    {
        let place = put_point(&mut self.keys, PointKey { position, name })?;
        if place >= limit as usize {
            return Ok(false);
        }
        Ok(true)
    }

    /// The number of names. Takes no memory.
    pub fn len(&self) -> usize
        ensures { result ≡ length self.now }
    {
        self.keys.len()
    }

    /// The name in a place, from 0: its position, and its name in the composition. Takes no memory.
    pub fn item(&self, index: usize) -> (u64, ComposeKey)
        requires { index < length self.now }
        ensures { slice_get self.now index ≡ Some (point result.0 result.1) }
    {
        let key = self.keys.item(index);
        (key.position, key.name)
    }

    /// The place of a name, from 0; `None` exactly where it was not found. Takes no memory.
    pub fn place(&self, position: u64, name: ComposeKey) -> Option<usize>
        ensures { MatchOption result (Has self.now (point position name) → ⊥) (λ place. slice_get self.now place ≡ Some (point position name)) }
    {
        self.keys.find(&PointKey { position, name })
    }
}
