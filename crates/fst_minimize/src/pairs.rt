//! Numbers of pairs of numbers, and of rows of numbers by way of pairs.

ghost use Rattle.std.specs.Prelude.{◌≡◌, ◌+◌, ◌<◌, ◌≤◌, None, Some, IfOk, OnErr, OnOk, All, ℕ};
ghost use Rattle.fst_table.specs.Placed.{placed_in};
ghost use Rattle.fst_minimize.specs.Pairs.{IsNext, IsNumberTable, KnowsMore, Spells, packed};

use fst_table::FlatTable;
use std::alloc::{AllocError, Global};

/// Numbers of pairs, in the order in which they first came.
#[derive(Drop)]
pub(crate) struct Pairs {
    table: FlatTable,
    count: u32,
    ghost numbers: { IsNumberTable (placed_in table) count },
}

impl Pairs {
    /// No pairs. Takes no memory.
    pub(crate) fn new(alloc: Global) -> Pairs
        ensures { result.count ≡ 0 }
    {
        Pairs {
            table: FlatTable::new(alloc),
            count: 0,
        }
    }

    /// How many pairs have a number. Takes no memory.
    pub(crate) fn count(&self) -> u32
        ensures { result ≡ self.now.count }
    {
        self.count
    }

    /// Gives the next number to a pair that has none. A table of 4,294,967,295 pairs has no memory for more.
    fn add(&mut self, key: u64) -> Result<u32, AllocError>
        requires absent { placed_in self.old.table key ≡ None }
        ensures known { IfOk result (λ n. placed_in self.new.table key ≡ Some n) }
        ensures next { IfOk result (λ n. (n ≡ self.old.count) × (self.new.count ≡ self.old.count + 1)) }
        ensures kept { OnOk result (KnowsMore (placed_in self.old.table) (placed_in self.new.table)) }
    {
        let place = self.count;
        if place == u32::MAX {
            return Err(AllocError);
        }
        self.table.add(key, place)?;
        self.count = place + 1;
        Ok(place)
    }

    /// The number of a pair: that which it has, or the next one.
    pub(crate) fn number(&mut self, first: u32, second: u32) -> Result<u32, AllocError>
        ensures known { IfOk result (λ n. placed_in self.new.table (packed first second) ≡ Some n) }
        ensures next { IfOk result (λ n. IsNext self.old.count n self.new.count) }
        ensures kept { OnOk result (KnowsMore (placed_in self.old.table) (placed_in self.new.table)) }
    {
        let key = u64::from(first) * 4294967296 + u64::from(second);
        match self.table.find(key) {
            Some(place) => Ok(place),
            None => self.add(key),
        }
    }

    /// The number of a row from a head on: of the pair of what was read so far and the next value, for each value.
    pub(crate) fn spell(&mut self, head: u32, values: &[u32]) -> Result<u32, AllocError>
        ensures spells { IfOk result (λ end. Spells (placed_in self.new.table) head values.now end) }
        ensures kept { OnOk result (KnowsMore (placed_in self.old.table) (placed_in self.new.table)) }
    {
        let mut end = head;
        for value in values {
            end = self.number(end, *value)?;
        }
        Ok(end)
    }
}
