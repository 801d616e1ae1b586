// A desk in memory, which tells all and fails where it was asked to.
ghost use Rattle.std.specs.Prelude.{◌≡◌, [], ◌∷◌, ◌++◌, take, None, OnOk, OnErr, nat_eq};
ghost use Rattle.std.specs.Option.{option_copied};
ghost use Rattle.std.specs.Result.{result_map_both};
ghost use Rattle.fst_desk.specs.Desk.{Fetches, Stores, DeskShows};
ghost use Rattle.fst_desk.specs.Kept.{last_of, files_of, fresh, planned_for, counted, fetching_once, storing_once, showing_once, written, seen_of, part_of, Misses, KeptFetches, KeptStores, KeptShows};

use crate::count::raise;
use crate::edge::{Desk, FetchFault, StoreFault};
use crate::text::Text;
use crate::writes::{Write, last_written};
use std::alloc::{AllocError, Global};
use std::marker::Model;

// The number of a call that is to fail, and how many bytes it takes first.
#[derive(Drop)]
struct Planned {
    call: u64,
    after: u64,
}

impl Model for Planned {
    ghost use Rattle.std.specs.Prelude.{ℕ};

    ghost Value = { ℕ × ℕ };

    ghost view = { λ p. (p.call, p.after) };
}

/// A desk in memory, for tests: it tells all, and a call fails where it was asked to, where a name is
/// not held, or where there is no memory.
///
/// The writes are kept as a log, so space grows with each store, also of the same name.
#[derive(Drop)]
pub struct MemoryDesk {
    writes: Vec<Write>,
    plan: Vec<Planned>,
    calls: u64,
    fetches: u64,
    stores: u64,
    shows: u64,
    missed: Vec<Text>,
    write_faults: u64,
    starved: u64,
    taken: usize,
    shown: Vec<u8>,
    show_faults: u64,
    show_starved: u64,
}

impl Model for MemoryDesk {
    ghost use Rattle.fst_desk.specs.Kept.{Kept};

    ghost Value = { Kept };

    ghost view = { λ d. record {
      writes = d.writes.items;
      plan = d.plan.items;
      calls = d.calls;
      fetches = d.fetches;
      stores = d.stores;
      shows = d.shows;
      missed = d.missed.items;
      write_faults = d.write_faults;
      starved = d.starved;
      taken = d.taken;
      shown = d.shown.items;
      show_faults = d.show_faults;
      show_starved = d.show_starved;
    } };
}

impl MemoryDesk {
    /// A desk that holds no file, of which no call is to fail, before its first call: each count is 0.
    /// It takes no memory.
    pub fn new(alloc: Global) -> MemoryDesk
        ensures { result ≡ fresh }
    {
        MemoryDesk {
            writes: Vec::new(alloc),
            plan: Vec::new(alloc),
            calls: 0,
            fetches: 0,
            stores: 0,
            shows: 0,
            missed: Vec::new(alloc),
            write_faults: 0,
            starved: 0,
            taken: 0,
            shown: Vec::new(alloc),
            show_faults: 0,
            show_starved: 0,
        }
    }

    /// Sets the content of a file. It counts as no store. After an `Err`, out of memory, nothing is
    /// changed.
    pub fn put(&mut self, name: &str, bytes: &[u8]) -> Result<(), AllocError>
        ensures ok { OnOk result (self.new ≡ written name.now bytes.now self.old) }
        ensures err { OnErr result (self.new ≡ self.old) }
    {
        let alloc = *self.shown.allocator();
        let name = Text::new(alloc, name.as_bytes())?;
        let content = Text::new(alloc, bytes)?;
        self.writes.push(Write { name, content })?;
        Ok(())
    }

    /// Makes the call of that number fail, counted from 1 over `fetch`, `store` and `show` together. A
    /// failing `store` or `show` first takes `after` bytes, or all where there are fewer. It counts as
    /// no call. After an `Err`, out of memory, nothing is changed.
    pub fn fail(&mut self, call: u64, after: u64) -> Result<(), AllocError>
        ensures ok { OnOk result (self.new ≡ record self.old { plan = self.old.plan ++ (call, after) ∷ [] }) }
        ensures err { OnErr result (self.new ≡ self.old) }
    {
        self.plan.push(Planned { call, after })?;
        Ok(())
    }

    /// The content under the name, None exactly where the name is not held. It counts as no fetch, and
    /// takes no memory.
    pub fn held(&self, name: &str) -> Option<&[u8]>
        ensures { option_copied result ≡ files_of self.now name.now }
    {
        last_written(self.writes.as_slice(), name)
    }

    /// The diagnostic bytes, in the order in which they were shown. It changes no count, and takes no
    /// memory.
    pub fn shown_bytes(&self) -> &[u8]
        ensures { result.now ≡ self.now.shown }
    {
        self.shown.as_slice()
    }

    /// How many fetches there were since the desk was new. It takes no memory.
    pub fn fetches(&self) -> u64
        ensures { result ≡ self.now.fetches }
    {
        self.fetches
    }

    /// How many stores there were since the desk was new. It takes no memory.
    pub fn stores(&self) -> u64
        ensures { result ≡ self.now.stores }
    {
        self.stores
    }

    /// How many shows there were since the desk was new. It takes no memory.
    pub fn shows(&self) -> u64
        ensures { result ≡ self.now.shows }
    {
        self.shows
    }

    // Counts a call. Where it is to fail, the result is the number of bytes that it takes first.
    fn count_call(&mut self) -> Option<u64>
        ensures counts { self.new ≡ counted self.old }
        ensures planned { result ≡ planned_for self.old }
    {
        self.calls = raise(self.calls);
        last_planned(self.plan.as_slice(), self.calls)
    }

    // Counts a fetch, of which the rest is as for any call.
    fn count_fetch(&mut self) -> Option<u64>
        ensures counts { self.new ≡ fetching_once self.old }
        ensures planned { result ≡ planned_for self.old }
    {
        self.fetches = raise(self.fetches);
        self.count_call()
    }

    // Counts a store, of which the rest is as for any call.
    fn count_store(&mut self) -> Option<u64>
        ensures counts { self.new ≡ storing_once self.old }
        ensures planned { result ≡ planned_for self.old }
    {
        self.stores = raise(self.stores);
        self.count_call()
    }

    // Counts a show, of which the rest is as for any call.
    fn count_show(&mut self) -> Option<u64>
        ensures counts { self.new ≡ showing_once self.old }
        ensures planned { result ≡ planned_for self.old }
    {
        self.shows = raise(self.shows);
        self.count_call()
    }

    // Notes a name whose fetch failed.
    fn miss(&mut self, name: &str) -> FetchFault
        ensures { Misses name.now self.old self.new result }
    {
        self.taken = 0;
        let alloc = *self.shown.allocator();
        let name = match Text::new(alloc, name.as_bytes()) {
            Ok(name) => name,
            Err(_) => return FetchFault::Memory,
        };
        match self.missed.push(name) {
            Ok(()) => FetchFault::Failed,
            Err(_) => FetchFault::Memory,
        }
    }
}

impl Desk for MemoryDesk {
    ghost seen = { seen_of };

    fn fetch(&mut self, alloc: Global, name: &str, limit: usize) -> Result<Vec<u8>, FetchFault>
        ensures promised { Fetches name.now limit (seen_of self.old) (seen_of self.new)
            (result_map_both (λ v. v.items) (λ e. e) result) }
        ensures exact { KeptFetches name.now limit self.old self.new
            (result_map_both (λ v. v.items) (λ e. e) result) }
    {
        if self.count_fetch().is_some() {
            return Err(self.miss(name));
        }
        let content = match self.held(name) {
            Some(content) => content,
            None => return Err(self.miss(name)),
        };
        let length = content.len();
        if length > limit {
            self.taken = length;
            return Err(FetchFault::TooLong);
        }
        match Vec::from_slice(alloc, content) {
            Ok(bytes) => {
                self.taken = length;
                Ok(bytes)
            }
            Err(_) => {
                self.taken = 0;
                Err(FetchFault::Memory)
            }
        }
    }

    fn store(&mut self, name: &str, bytes: &[u8]) -> Result<(), StoreFault>
        ensures promised { Stores name.now bytes.now (seen_of self.old) (seen_of self.new) result }
        ensures exact { KeptStores name.now bytes.now self.old self.new result }
    {
        let planned = self.count_store();
        if self.put(name, part(bytes, planned)).is_err() {
            self.starved = raise(self.starved);
            return Err(StoreFault::Memory);
        }
        if planned.is_some() {
            self.write_faults = raise(self.write_faults);
            return Err(StoreFault::Failed);
        }
        Ok(())
    }

    fn show(&mut self, line: &[u8]) -> Result<(), StoreFault>
        ensures promised { DeskShows line.now (seen_of self.old) (seen_of self.new) result }
        ensures exact { KeptShows line.now self.old self.new result }
    {
        let planned = self.count_show();
        if self.shown.extend_from_slice(part(line, planned)).is_err() {
            self.show_starved = raise(self.show_starved);
            return Err(StoreFault::Memory);
        }
        if planned.is_some() {
            self.show_faults = raise(self.show_faults);
            return Err(StoreFault::Failed);
        }
        Ok(())
    }
}

// How many bytes the call of that number takes before it fails, where it is to fail.
fn last_planned(plan: &[Planned], call: u64) -> Option<u64>
    ensures { result ≡ last_of nat_eq None plan.now call }
{
    let mut found = None;
    for planned in plan {
        if planned.call == call {
            found = Some(planned.after);
        }
    }
    found
}

// What a call takes of its bytes: the planned number, or all where there are fewer or none is planned.
fn part(bytes: &[u8], planned: Option<u64>) -> &[u8]
    ensures { result.now ≡ part_of planned bytes.now }
{
    match planned {
        Some(most) if (most as usize) < bytes.len() => &bytes[..most as usize],
        _ => bytes,
    }
}
