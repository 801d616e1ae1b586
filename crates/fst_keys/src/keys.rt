//! Sets of keys, in the order in which they were put in.

ghost use Rattle.std.specs.Prelude.{◌≡◌, ◌<◌, ◌≤◌, ◌++◌, ◌∷◌, ℕ, [], true, false, not, IfOk, IfSome, MatchOption, None, OnErr, OnOk, Option, Some, length, slice_get};
ghost use Rattle.std.specs.BTreeMap.{get};
ghost use Rattle.std.specs.List.{list_any};
ghost use Rattle.fst_table.specs.Found.{found_in};
ghost use Rattle.std.specs.Vec.{vec_capacity, vec_len};
ghost use Rattle.fst_keys.specs.Keys.{AreKept, with_key, with_whole};
ghost use Rattle.fst_keys.specs.Sought.{IsNumbered, IsSought};

use crate::coded::Coded;
use fst_table::Places;
use std::alloc::{AllocError, Global};
use std::collections::BTreeMap;
use std::marker::Model;

/// What is known of a key that is looked up.
#[derive(Drop)]
pub(crate) enum Sought<W: Drop> {
    /// It stands in this place.
    There(usize),
    /// No key has its number.
    Unnumbered(u64),
    /// Another key has its number, and it is none of the keys. All that it is.
    Apart(W),
}

/// Looks up a key whose number an earlier key has: the first of those stands in this place.
#[inline]
fn seek_behind<K: Coded>(
    keys: &[K],
    others: &BTreeMap<K::Whole, u32>,
    key: &K,
    is_alone: bool,
    first: u32,
    alloc: Global,
) -> Result<Sought<K::Whole>, AllocError>
    requires within { first < length keys.now }
    requires alone { is_alone ≡ true → (other : K) → K.code other ≡ K.code key.now → other ≡ key.now }
    ensures { IfOk result (λ s. (firsts : ℕ → Option ℕ) → AreKept K.code K.whole keys.now firsts (get K.Whole.cmp others.now) → firsts (K.code key.now) ≡ Some first → IsSought K.code K.whole keys.now firsts (get K.Whole.cmp others.now) key.now s) }
{
    if is_alone {
        return Ok(Sought::There(first as usize));
    }
    if keys[first as usize] == *key {
        return Ok(Sought::There(first as usize));
    }
    let whole = key.whole(alloc)?;
    match others.get(&whole) {
        Some(place) => Ok(Sought::There(*place as usize)),
        None => Ok(Sought::Apart(whole)),
    }
}

/// Looks a key up by its number, and where another key has that number, by all that it is.
#[inline]
fn seek<K: Coded>(
    keys: &[K],
    firsts: &Places,
    others: &BTreeMap<K::Whole, u32>,
    key: &K,
    alloc: Global,
) -> Result<Sought<K::Whole>, AllocError>
    requires kept { AreKept K.code K.whole keys.now (found_in firsts.now) (get K.Whole.cmp others.now) }
    ensures { IfOk result (IsSought K.code K.whole keys.now (found_in firsts.now) (get K.Whole.cmp others.now) key.now) }
{
    let code = key.code();
    let Some(first) = firsts.find(code.number) else {
        return Ok(Sought::Unnumbered(code.number));
    };
    seek_behind(keys, others, key, code.is_alone, first, alloc)
}

/// Looks a key up in the same way, and where no key has its number, writes the place that it is to have into the table.
#[inline]
fn seek_or_number<K: Coded>(
    keys: &[K],
    firsts: &mut Places,
    others: &BTreeMap<K::Whole, u32>,
    key: &K,
    place: u32,
    alloc: Global,
) -> Result<Sought<K::Whole>, AllocError>
    requires kept { AreKept K.code K.whole keys.now (found_in firsts.old) (get K.Whole.cmp others.now) }
    requires place { place < 4294967295 }
    ensures sought { IfOk result (IsSought K.code K.whole keys.now (found_in firsts.old) (get K.Whole.cmp others.now) key.now) }
    ensures numbered { IfOk result (IsNumbered (found_in firsts.old) (found_in firsts.new) place) }
    ensures err { OnErr result ((n : ℕ) → found_in firsts.new n ≡ found_in firsts.old n) }
{
    let code = key.code();
    let Some(first) = firsts.find_or_add(code.number, place)? else {
        return Ok(Sought::Unnumbered(code.number));
    };
    seek_behind(keys, others, key, code.is_alone, first, alloc)
}

/// Puts a key after the others, and its place into a map for all that it is, since another has its number.
fn put_apart<K: Coded>(
    keys: &mut Vec<K>,
    others: &mut BTreeMap<K::Whole, u32>,
    key: K,
    whole: K::Whole,
) -> Result<(), AllocError>
    requires room { vec_len keys.old < vec_capacity keys.old }
    requires few { length keys.old.items < 4294967295 }
    ensures put { OnOk result (keys.new.items ≡ keys.old.items ++ key ∷ []) }
    ensures added { OnOk result ((w : K.Whole) → get K.Whole.cmp others.new w ≡ with_whole K.Whole.cmp (get K.Whole.cmp others.old) whole (length keys.old.items) w) }
    ensures err { OnErr result (keys.new.items ≡ keys.old.items) }
    ensures stays { OnErr result ((w : K.Whole) → get K.Whole.cmp others.new w ≡ get K.Whole.cmp others.old w) }
{
    others.insert(whole, keys.len() as u32)?;
    keys.push_reserved(key);
    Ok(())
}

/// Keys, each once, in the order in which they were put in. A key is looked up by its number, and where an earlier key
/// has that number, by all that it is. So no chosen keys make it slow.
#[derive(Drop)]
pub struct KeySet<K: Coded> {
    keys: Vec<K>,
    /// For each number the place of the first key that has it.
    firsts: Places,
    /// The place of each key whose number an earlier key has.
    others: BTreeMap<K::Whole, u32>,
    /// For each key that is noted where the look for its number begins.
    expected: Vec<usize>,
}

impl<K: Coded> Model for KeySet<K> {
    ghost use Rattle.std.specs.Prelude.{List};
    ghost use Rattle.std.specs.BTreeMap.{get};
    ghost use Rattle.fst_table.specs.Found.{found_in};
    ghost use Rattle.fst_keys.specs.Keys.{AreKept};

    ghost Value = { List K };

    ghost view = { λ s. s.keys.items };

    ghost invariant = { λ s. AreKept K.code K.whole s.keys.items (found_in s.firsts) (get K.Whole.cmp s.others) };
}

impl<K: Coded> KeySet<K> {
    /// No keys. Takes no memory.
    pub fn new(alloc: Global) -> KeySet<K>
        ensures { result ≡ [] }
    {
        Self::with_bound(alloc, 0)
    }

    /// No keys, and room for so many: neither the list of keys nor the table of their numbers grows before.
    pub fn with_room(alloc: Global, keys: usize) -> Result<KeySet<K>, AllocError>
        ensures { IfOk result (λ s. s ≡ []) }
    {
        Ok(KeySet {
            keys: Vec::with_capacity(alloc, keys)?,
            firsts: Places::with_room(alloc, 0, keys)?,
            others: BTreeMap::new(alloc),
            expected: Vec::new(alloc),
        })
    }

    /// No keys. Those with a number below the bound are looked up in a list by number. Takes no memory.
    pub fn with_bound(alloc: Global, bound: usize) -> KeySet<K>
        ensures { result ≡ [] }
    {
        KeySet {
            keys: Vec::new(alloc),
            firsts: Places::new(alloc, bound),
            others: BTreeMap::new(alloc),
            expected: Vec::new(alloc),
        }
    }

    /// Notes a key that is to be put in soon. The only fault is that memory has run out.
    #[inline]
    pub fn expect(&mut self, key: &K) -> Result<(), AllocError>
        ensures { self.new ≡ self.old }
    {
        let start = self.firsts.start(key.code().number);
        if self.expected.len() < self.expected.capacity() {
            self.expected.push_reserved(start);
            return Ok(());
        }
        self.expected.push(start)?;
        Ok(())
    }

    /// Makes room for those of the keys that are noted that one look at the table of numbers tells to be new, and forgets the
    /// notes. The looks are made side by side, and what they find is near when the keys are put in one by one. The only
    /// fault is that memory has run out.
    pub fn make_room(&mut self) -> Result<(), AllocError>
        ensures { self.new ≡ self.old }
    {
        let more = self.firsts.count_free(self.expected.as_slice());
        self.expected.clear();
        self.keys.reserve(more)
    }

    /// The place of a key, which is put after the others where it is new, and whether it was; `None` where it is new and
    /// there are as many keys as the limit, or more. The only fault is that memory has run out. Then, and with `None`,
    /// the keys are as before.
    pub fn put_below(&mut self, key: K, limit: u32) -> Result<Option<(usize, bool)>, AllocError>
        ensures keys { IfOk result (λ o. IfSome o (λ r. self.new ≡ with_key K.PartialEq.eq self.old key)) }
        ensures added { IfOk result (λ o. IfSome o (λ r. r.1 ≡ not (list_any (K.PartialEq.eq key) self.old))) }
        ensures there { IfOk result (λ o. IfSome o (λ r. slice_get self.new r.0 ≡ Some key)) }
        ensures within { IfOk result (λ o. IfSome o (λ r. r.0 < length self.new)) }
        ensures last { IfOk result (λ o. IfSome o (λ r. r.1 ≡ true → (r.0 ≡ length self.old) × (r.0 < limit))) }
        ensures full { IfOk result (λ o. o ≡ None → (limit ≤ length self.old) × (list_any (K.PartialEq.eq key) self.old ≡ false)) }
        ensures none { IfOk result (λ o. o ≡ None → self.new ≡ self.old) }
        ensures err { OnErr result (self.new ≡ self.old) }
    {
        let alloc = *self.keys.allocator();
        let place = self.keys.len();
        if place >= limit as usize {
            let Some(place) = self.place(&key)? else {
                return Ok(None);
            };
            return Ok(Some((place, false)));
        }
        // Room first, so that nothing can fail once the place stands in the table.
        self.keys.reserve(1)?;
        match seek_or_number(
            self.keys.as_slice(),
            &mut self.firsts,
            &self.others,
            &key,
            place as u32,
            alloc,
        )? {
            Sought::There(place) => Ok(Some((place, false))),
            Sought::Unnumbered(_) => {
                self.keys.push_reserved(key);
                Ok(Some((place, true)))
            }
            Sought::Apart(whole) => {
                put_apart(&mut self.keys, &mut self.others, key, whole)?;
                Ok(Some((place, true)))
            }
        }
    }

    /// The place of a key, which is put after the others where it is new, and whether it was. There are at most
    /// 4,294,967,295 keys. The only fault is that memory has run out, as it has with more. Then the keys are as before.
    pub fn put(&mut self, key: K) -> Result<(usize, bool), AllocError>
        ensures keys { IfOk result (λ r. self.new ≡ with_key K.PartialEq.eq self.old key) }
        ensures added { IfOk result (λ r. r.1 ≡ not (list_any (K.PartialEq.eq key) self.old)) }
        ensures there { IfOk result (λ r. slice_get self.new r.0 ≡ Some key) }
        ensures within { IfOk result (λ r. r.0 < length self.new) }
        ensures last { IfOk result (λ r. r.1 ≡ true → r.0 ≡ length self.old) }
        ensures err { OnErr result (self.new ≡ self.old) }
    {
        match self.put_below(key, u32::MAX)? {
            Some(found) => Ok(found),
            None => Err(AllocError),
        }
    }

    /// The place of a key; `None` exactly where it is not one of the keys. The only fault is that memory has run out, and
    /// memory is asked for only where another key has the number of this one.
    pub fn place(&self, key: &K) -> Result<Option<usize>, AllocError>
        ensures { IfOk result (λ o. MatchOption o (list_any (K.PartialEq.eq key.now) self.now ≡ false) (λ p. slice_get self.now p ≡ Some key.now)) }
    {
        let alloc = *self.keys.allocator();
        match seek(self.keys.as_slice(), &self.firsts, &self.others, key, alloc)? {
            Sought::There(place) => Ok(Some(place)),
            Sought::Unnumbered(_) => Ok(None),
            Sought::Apart(_) => Ok(None),
        }
    }

    /// The keys in their order, as a list of their own. Takes no memory.
    pub fn into_keys(self) -> Vec<K>
        ensures { result.items ≡ self }
    {
        self.keys
    }

    /// The number of keys. Takes no memory.
    pub fn len(&self) -> usize
        ensures { result ≡ length self.now }
    {
        self.keys.len()
    }

    /// The key in a place, from 0. Takes no memory.
    pub fn item(&self, index: usize) -> &K
        requires { index < length self.now }
        ensures { slice_get self.now index ≡ Some result.now }
    {
        &self.keys[index]
    }
}
