//! A table from numbers to places, in one list of slots: open addressing with linear probing, where a probe looks at no
//! more than a bounded number of slots. The numbers that find no slot within it stand in a sorted map. So a look-up costs
//! a bounded number of slots and at most a search in the map, whatever the numbers are, also where
//! they are chosen so that all their probes begin at one slot.

ghost use Rattle.std.specs.Prelude.{◌≡◌, ◌+◌, ◌*◌, ◌<◌, ◌≤◌, ℕ, true, length, None, IfOk, IsSome, OnErr, OnOk};
ghost use Rattle.fst_table.specs.Slots.{IsNear, IsOverflow, IsProbed, first_slot, number_of, placed_in_slots, probed_slot, slot_of, with_place};
ghost use Rattle.std.specs.BTreeMap.{get};
ghost use Rattle.std.specs.Ordering.{nat_cmp};

use std::alloc::{AllocError, Global};
use std::collections::BTreeMap;
use std::collections::btree_map::Entry;

/// The place in an empty slot.
const ABSENT: u32 = u32::MAX;

/// Odd numbers whose bits look random: the multiplications spread the numbers of a text, however regular they are.
const FIRST_FACTOR: u64 = 0x9E3779B97F4A7C15;

const SECOND_FACTOR: u64 = 0xD6E8FEB86659FD93;

/// A probe looks at so many slots at most. Of numbers that are spread evenly six in ten thousand find none of them empty
/// while a table fills, and a look-up of one that is not known ends in the map nine times in a thousand at worst, when
/// the table is as full as it may be (by trial with four million slots).
const PROBE_LIMIT: usize = 32;

/// A number is its low half and so many times its high half.
const HALF: u64 = 1 << 32;

/// A number and its place; empty where the place is `ABSENT`. The number is kept by halves, so that a slot takes twelve
/// bytes and not sixteen: the fewer bytes the slots take, the more of them are at hand.
#[derive(Clone, Copy)]
struct Slot {
    low: u32,
    high: u32,
    place: u32,
}

const EMPTY: Slot = Slot {
    low: 0,
    high: 0,
    place: ABSENT,
};

impl Slot {
    fn new(number: u64, place: u32) -> Slot
        ensures { result ≡ slot_of number place }
    {
        Slot {
            low: (number % HALF) as u32,
            high: (number / HALF) as u32,
            place,
        }
    }

    fn number(self) -> u64
        ensures { result ≡ number_of self }
    {
        u64::from(self.low) + u64::from(self.high) * HALF
    }
}

/// The places of numbers. A number stands in the first slot that was empty from its first one on, so that a look-up
/// reads slots that lie side by side, and mostly one or two.
#[derive(Drop)]
pub struct FlatTable {
    slots: Vec<Slot>,
    // The numbers whose probes met no empty slot. A slot never becomes empty, so that their probes never do.
    overflow: BTreeMap<u64, u32>,
    // How many numbers stand in the slots; it says no more than when the table grows.
    used: usize,
    ghost probed: { IsProbed slots.items },
    ghost near: { IsNear slots.items },
    ghost overflows: { IsOverflow slots.items overflow },
}

/// The slot at which the probe for a number begins.
#[tactic(auto, unfolding(crate::specs::Slots::first_slot))]
fn first_slot(len: usize, number: u64) -> usize
    ensures { result ≡ first_slot len number }
{
    let once = number.wrapping_mul(FIRST_FACTOR);
    let twice = once.wrapping_add(once >> 32).wrapping_mul(SECOND_FACTOR);
    // The last slots are left for the probes that begin before them: as many as a probe looks at, and fewer where the
    // slots are few.
    let firsts = (len - (len / 16).min(PROBE_LIMIT)) as u64;
    ((twice >> 32).wrapping_mul(firsts) >> 32) as usize
}

/// The first slot from the first one of a number on that is empty or holds it; the number of slots where there is none
/// within the limit.
fn probe(slots: &[Slot], number: u64) -> usize
    ensures { result ≡ probed_slot slots.now number }
{
    let mut at = first_slot(slots.len(), number);
    let end = at.saturating_add(PROBE_LIMIT).min(slots.len());
    while at < end {
        let slot = slots[at];
        if slot.place == ABSENT || slot.number() == number {
            return at;
        }
        at += 1;
    }
    slots.len()
}

/// The place of a number in a map; one that is not there is written with the place that is given, by one search. Where
/// memory runs out, the map stays.
fn find_or_insert(
    map: &mut BTreeMap<u64, u32>,
    number: u64,
    place: u32,
) -> Result<Option<u32>, AllocError>
    ensures place { IfOk result (λ o. o ≡ get nat_cmp map.old number) }
    ensures known { IfOk result (λ o. IsSome o → (n : ℕ) → get nat_cmp map.new n ≡ get nat_cmp map.old n) }
    ensures added { IfOk result (λ o. o ≡ None → (n : ℕ) → get nat_cmp map.new n ≡ with_place (get nat_cmp map.old) number place n) }
    ensures err { OnErr result ((n : ℕ) → get nat_cmp map.new n ≡ get nat_cmp map.old n) }
    ensures absent { OnErr result (get nat_cmp map.old number ≡ None) }
{
    match map.entry(number)? {
        Entry::Occupied(known) => Ok(Some(*known.get())),
        Entry::Vacant(free) => {
            free.insert(place);
            Ok(None)
        }
    }
}

#[tactic(auto, unfolding(crate::specs::Placed::placed_in))]
impl FlatTable {
    ghost use Rattle.fst_table.specs.Placed.{placed_in, room_in, start_in};

    /// No number is known. Takes no memory.
    pub fn new(alloc: Global) -> FlatTable
        ensures { (n : ℕ) → placed_in result n ≡ None }
    {
        FlatTable {
            slots: Vec::new(alloc),
            overflow: BTreeMap::new(alloc),
            used: 0,
        }
    }

    /// The place of a number; `None` exactly where it is not known. Takes no memory.
    #[tactic(auto, using(crate::proofs::Overflow::past_told), unfolding(crate::specs::Placed::placed_in))]
    pub fn find(&self, number: u64) -> Option<u32>
        ensures { result ≡ placed_in self.now number }
    {
        let at = probe(&self.slots, number);
        if at >= self.slots.len() {
            return self.overflow.get(&number).copied();
        }
        let place = self.slots[at].place;
        if place == ABSENT { None } else { Some(place) }
    }

    /// The slot at which the look for a number begins. Reads no slot, and takes no memory.
    pub fn start(&self, number: u64) -> usize
        ensures { result ≡ start_in self.now number }
    {
        first_slot(self.slots.len(), number)
    }

    /// Whether a slot is free. The numbers for which the look begins there are not known then. Takes no memory.
    #[tactic(auto, using(crate::proofs::Overflow::first_told), unfolding(crate::specs::Placed::placed_in))]
    pub fn is_free(&self, start: usize) -> bool
        ensures { result ≡ true → (n : ℕ) → start_in self.now n ≡ start → placed_in self.now n ≡ None }
    {
        start < self.slots.len() && self.slots[start].place == ABSENT
    }

    /// How many of these slots are free. No look hangs on what another finds, so that the processor makes many at once,
    /// and what they find is near for a while. Takes no memory.
    pub fn count_free(&self, starts: &[usize]) -> usize
        ensures { result ≤ length starts.now }
    {
        let mut count = 0;
        for start in starts {
            count += usize::from(self.is_free(*start));
        }
        count
    }

    /// So many empty slots.
    fn with_slots(alloc: Global, len: usize) -> Result<FlatTable, AllocError>
        ensures none { IfOk result (λ t. (n : ℕ) → placed_in t n ≡ None) }
        ensures len { IfOk result (λ t. length t.slots.items ≡ len) }
        ensures unused { IfOk result (λ t. t.used ≡ 0) }
    {
        let mut slots = Vec::new(alloc);
        slots.resize(len, EMPTY)?;
        Ok(FlatTable {
            slots,
            overflow: BTreeMap::new(alloc),
            used: 0,
        })
    }

    /// No number is known. The table does not grow before so many are added.
    pub fn with_room(alloc: Global, numbers: usize) -> Result<FlatTable, AllocError>
        ensures none { IfOk result (λ t. (n : ℕ) → placed_in t n ≡ None) }
        ensures room { IfOk result (λ t. numbers ≤ room_in t) }
    {
        if numbers > usize::MAX / 8 {
            return Err(AllocError);
        }
        Self::with_slots(alloc, (numbers / 2 + 1) * 3)
    }

    /// Writes a number with its place in the slot where its probe ends.
    fn write(&mut self, at: usize, number: u64, place: u32)
        requires place { place < 4294967295 }
        requires ends { at ≡ probed_slot self.old.slots.items number }
        requires within { at < length self.old.slots.items }
        requires absent { placed_in self.old number ≡ None }
        ensures written { (n : ℕ) → placed_in self.new n ≡ with_place (placed_in self.old) number place n }
        ensures len { length self.new.slots.items ≡ length self.old.slots.items }
    {
        self.slots[at] = Slot::new(number, place);
        self.used = self.used.saturating_add(1);
    }

    /// Writes a number with its place in the slot where its probe ends, or in the map where it meets no empty slot.
    /// Where memory runs out, what is known stays.
    fn put(&mut self, number: u64, place: u32) -> Result<(), AllocError>
        requires place { place < 4294967295 }
        requires absent { placed_in self.old number ≡ None }
        ensures put { OnOk result ((n : ℕ) → placed_in self.new n ≡ with_place (placed_in self.old) number place n) }
        ensures err { OnErr result ((n : ℕ) → placed_in self.new n ≡ placed_in self.old n) }
        ensures len { length self.new.slots.items ≡ length self.old.slots.items }
    {
        let at = probe(&self.slots, number);
        if at < self.slots.len() {
            self.write(at, number, place);
            return Ok(());
        }
        self.overflow.insert(number, place)?;
        Ok(())
    }

    /// Adds the numbers in the slots of a table to one that has none.
    fn fill_from_slots(&mut self, from: &FlatTable) -> Result<(), AllocError>
        requires { (n : ℕ) → placed_in self.old n ≡ None }
        ensures filled { OnOk result ((n : ℕ) → placed_in self.new n ≡ placed_in_slots from.now.slots.items n) }
        ensures len { length self.new.slots.items ≡ length self.old.slots.items }
    {
        for slot in &from.slots {
            if slot.place != ABSENT {
                self.put(slot.number(), slot.place)?;
            }
        }
        Ok(())
    }

    /// Adds the numbers in the map of a table to one that has those in its slots.
    fn fill_from_overflow(&mut self, from: &FlatTable) -> Result<(), AllocError>
        requires { (n : ℕ) → placed_in self.old n ≡ placed_in_slots from.now.slots.items n }
        ensures filled { OnOk result ((n : ℕ) → placed_in self.new n ≡ placed_in from.now n) }
        ensures len { length self.new.slots.items ≡ length self.old.slots.items }
    {
        for (number, place) in &from.overflow {
            self.put(*number, *place)?;
        }
        Ok(())
    }

    /// The same numbers in more than twice as many slots.
    fn grown(&self) -> Result<FlatTable, AllocError>
        ensures same { IfOk result (λ t. (n : ℕ) → placed_in t n ≡ placed_in self.now n) }
        ensures longer { IfOk result (λ t. length t.slots.items ≡ 2 * length self.now.slots.items + 80) }
    {
        let len = self.slots.len();
        if len > usize::MAX / 4 {
            return Err(AllocError);
        }
        let mut more = Self::with_slots(*self.slots.allocator(), 2 * len + 80)?;
        more.fill_from_slots(self)?;
        more.fill_from_overflow(self)?;
        Ok(more)
    }

    /// Whether the table is as full as it may be before it grows, which is two thirds.
    fn is_full(&self) -> bool {
        // Fuller, probes get long, and more numbers go into the map; emptier, the slots take more memory. The table grows for
        // no other reason: numbers that are chosen to meet in one slot stand in the map, and do not make it grow.
        self.used >= self.slots.len() / 3 * 2
    }

    /// Makes the table larger where it is as full as it may be. Where memory runs out, what is known stays.
    fn make_room(&mut self) -> Result<(), AllocError>
        ensures { (n : ℕ) → placed_in self.new n ≡ placed_in self.old n }
    {
        if self.is_full() {
            *self = self.grown()?;
        }
        Ok(())
    }

    /// The place of a number that is known. One that is not is written with the place that is given, however full the
    /// table is. Where memory runs out, what is known stays.
    fn find_or_put(&mut self, number: u64, place: u32) -> Result<Option<u32>, AllocError>
        requires place { place < 4294967295 }
        ensures place { IfOk result (λ o. o ≡ placed_in self.old number) }
        ensures known { IfOk result (λ o. IsSome o → (n : ℕ) → placed_in self.new n ≡ placed_in self.old n) }
        ensures added { IfOk result (λ o. o ≡ None → (n : ℕ) → placed_in self.new n ≡ with_place (placed_in self.old) number place n) }
        ensures err { OnErr result ((n : ℕ) → placed_in self.new n ≡ placed_in self.old n) }
        ensures absent { OnErr result (placed_in self.old number ≡ None) }
    {
        let at = probe(&self.slots, number);
        if at >= self.slots.len() {
            return find_or_insert(&mut self.overflow, number, place);
        }
        let known = self.slots[at].place;
        if known != ABSENT {
            return Ok(Some(known));
        }
        self.write(at, number, place);
        Ok(None)
    }

    /// The place of a number that is known; `None` exactly where it is not, and then it is added with the place that is
    /// given. The slots are mostly looked through once, where `find` and `add` would look twice. Only a number that is
    /// not known takes memory; where that runs out, what is known stays.
    pub fn find_or_add(&mut self, number: u64, place: u32) -> Result<Option<u32>, AllocError>
        requires place { place < 4294967295 }
        ensures place { IfOk result (λ o. o ≡ placed_in self.old number) }
        ensures known { IfOk result (λ o. IsSome o → (n : ℕ) → placed_in self.new n ≡ placed_in self.old n) }
        ensures added { IfOk result (λ o. o ≡ None → (n : ℕ) → placed_in self.new n ≡ with_place (placed_in self.old) number place n) }
        ensures err { OnErr result ((n : ℕ) → placed_in self.new n ≡ placed_in self.old n) }
        ensures absent { OnErr result (placed_in self.old number ≡ None) }
    {
        if !self.is_full() {
            return self.find_or_put(number, place);
        }
        let known = self.find(number);
        if known.is_none() {
            self.add(number, place)?;
        }
        Ok(known)
    }

    /// Adds a number with its place. Where memory runs out, what is known stays.
    pub fn add(&mut self, number: u64, place: u32) -> Result<(), AllocError>
        requires place { place < 4294967295 }
        requires absent { placed_in self.old number ≡ None }
        ensures added { OnOk result ((n : ℕ) → placed_in self.new n ≡ with_place (placed_in self.old) number place n) }
        ensures err { OnErr result ((n : ℕ) → placed_in self.new n ≡ placed_in self.old n) }
    {
        self.make_room()?;
        self.put(number, place)
    }
}
