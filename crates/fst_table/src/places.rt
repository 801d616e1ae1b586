//! A table from numbers to places, where the lesser numbers stand in a list by number.

ghost use Rattle.std.specs.Prelude.{◌≡◌, ◌<◌, ◌≤◌, ℕ, None, Some, IfOk, IsSome, OnErr, OnOk, length};
ghost use Rattle.std.specs.Option.{ForSome};
ghost use Rattle.fst_table.specs.Placed.{found_among, room_in, start_in};

use crate::flat_table::FlatTable;
use std::alloc::{AllocError, Global};

/// The slot of a number that is not known.
const ABSENT: u32 = u32::MAX;

/// The places of the numbers that are known: those below a bound in a list by number, the others in a flat table of
/// slots. A place in the list takes four bytes, and costs a look-up no search.
#[derive(Drop)]
pub struct Places {
    bound: usize,
    dense: Vec<u32>,
    sparse: FlatTable,
    // The number that was asked for last as one that is likely to be asked for again.
    recent: Option<(u64, u32)>,
    ghost room: { length dense.items ≤ bound },
    ghost remembered: { ForSome recent (λ r. found_among bound dense.items sparse r.0 ≡ Some r.1) },
}

impl Places {
    ghost use Rattle.fst_table.specs.Found.{found_in};
    ghost use Rattle.fst_table.specs.Slots.{with_place};

    /// No number is known. The list takes no more than `bound` places. Takes no memory.
    pub fn new(alloc: Global, bound: usize) -> Places
        ensures none { (n : ℕ) → found_in result n ≡ None }
        ensures bound { result.bound ≡ bound }
    {
        Places {
            bound,
            dense: Vec::new(alloc),
            sparse: FlatTable::new(alloc),
            recent: None,
        }
    }

    /// The same, where the table of the numbers from the bound on does not grow before so many are added.
    pub fn with_room(alloc: Global, bound: usize, numbers: usize) -> Result<Places, AllocError>
        ensures none { IfOk result (λ p. (n : ℕ) → found_in p n ≡ None) }
        ensures bound { IfOk result (λ p. p.bound ≡ bound) }
        ensures room { IfOk result (λ p. numbers ≤ room_in p.sparse) }
    {
        Ok(Places {
            bound,
            dense: Vec::new(alloc),
            sparse: FlatTable::with_room(alloc, numbers)?,
            recent: None,
        })
    }

    /// The place of a number; `None` exactly where it is not known. Takes no memory.
    pub fn find(&self, number: u64) -> Option<u32>
        ensures { result ≡ found_in self.now number }
    {
        if number >= self.bound as u64 {
            return self.sparse.find(number);
        }
        match self.dense.get(number as usize) {
            Some(place) => { if *place == ABSENT { None } else { Some(*place) } }
            None => None,
        }
    }

    /// The slot of the table at which the look for a number from the bound on begins. Reads no slot, and takes no memory.
    pub fn start(&self, number: u64) -> usize
        ensures { result ≡ start_in self.now.sparse number }
    {
        self.sparse.start(number)
    }

    /// How many of these slots of the table are free, as `FlatTable` counts them.
    pub fn count_free(&self, starts: &[usize]) -> usize
        ensures { result ≤ length starts.now }
    {
        self.sparse.count_free(starts)
    }

    /// The place of a number that is likely to be asked for again at once. Takes no memory.
    pub fn find_again(&mut self, number: u64) -> Option<u32>
        ensures place { result ≡ found_in self.old number }
        ensures same { found_in self.new ≡ found_in self.old }
    {
        if let Some((recent, place)) = self.recent {
            if recent == number {
                return Some(place);
            }
        }
        let found = self.find(number);
        if let Some(place) = found {
            self.recent = Some((number, place));
        }
        found
    }

    /// Makes the list long enough for a slot: at least twice as long, but no longer than the bound.
    fn grow(&mut self, slot: usize) -> Result<(), AllocError>
        requires { slot < self.old.bound }
        ensures ok { OnOk result (slot < length self.new.dense.items) }
        ensures short { OnErr result (length self.old.dense.items ≤ slot) }
        ensures bound { self.new.bound ≡ self.old.bound }
        ensures same { (n : ℕ) → found_in self.new n ≡ found_in self.old n }
    {
        let len = self.dense.len();
        let bound = self.bound;
        if slot >= len {
            let wanted = (2 * len).min(bound).max(slot + 1);
            self.dense.resize(wanted, ABSENT)?;
        }
        Ok(())
    }

    /// The place of a number that is known; `None` exactly where it is not, and then it is added with the place that is
    /// given. It is looked for once, where `find` and `add` would look twice. Only a number that is not known takes
    /// memory; where that runs out, what is known stays.
    pub fn find_or_add(&mut self, number: u64, place: u32) -> Result<Option<u32>, AllocError>
        requires place { place < 4294967295 }
        ensures place { IfOk result (λ o. o ≡ found_in self.old number) }
        ensures known { IfOk result (λ o. IsSome o → (n : ℕ) → found_in self.new n ≡ found_in self.old n) }
        ensures added { IfOk result (λ o. o ≡ None → (n : ℕ) → found_in self.new n ≡ with_place (found_in self.old) number place n) }
        ensures err { OnErr result ((n : ℕ) → found_in self.new n ≡ found_in self.old n) }
        ensures absent { OnErr result (found_in self.old number ≡ None) }
    {
        if number >= self.bound as u64 {
            return self.sparse.find_or_add(number, place);
        }
        self.grow(number as usize)?;
        let known = self.dense[number as usize];
        if known != ABSENT {
            return Ok(Some(known));
        }
        self.dense[number as usize] = place;
        Ok(None)
    }

    /// Adds a number with its place. Where memory runs out, what is known stays.
    pub fn add(&mut self, number: u64, place: u32) -> Result<(), AllocError>
        requires place { place < 4294967295 }
        requires absent { found_in self.old number ≡ None }
        ensures added { OnOk result ((n : ℕ) → found_in self.new n ≡ with_place (found_in self.old) number place n) }
        ensures err { OnErr result ((n : ℕ) → found_in self.new n ≡ found_in self.old n) }
    {
        if number >= self.bound as u64 {
            self.sparse.add(number, place)?;
            return Ok(());
        }
        self.grow(number as usize)?;
        self.dense[number as usize] = place;
        Ok(())
    }
}
