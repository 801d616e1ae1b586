// A desk in memory, which tells all and fails for lack of memory alone.
ghost use Rattle.std.specs.Prelude.{◌≡◌, OnOk, OnErr};
ghost use Rattle.std.specs.Option.{option_copied};
ghost use Rattle.std.specs.Result.{result_map_both};
ghost use Rattle.fst_desk.specs.Desk.{Fetches, Stores, DeskShows};
ghost use Rattle.fst_desk.specs.Sure.{unused, put_sure, sure_files, sure_seen, SureFetches, SureStores, SureShows};

use crate::count::raise;
use crate::edge::{Desk, FetchFault, StoreFault};
use crate::text::Text;
use crate::writes::{Write, last_written};
use std::alloc::{AllocError, Global};
use std::marker::Model;

/// A desk in memory, for tests, whose calls fail for lack of memory alone: it tells all, and a name that is
/// not held is fetched as an empty content.
///
/// The writes are kept as a log, so space grows with each store, also of the same name.
#[derive(Drop)]
pub struct SureDesk {
    writes: Vec<Write>,
    fetches: u64,
    stores: u64,
    shows: u64,
    starved: u64,
    taken: usize,
    shown: Vec<u8>,
    show_starved: u64,
}

impl Model for SureDesk {
    ghost use Rattle.fst_desk.specs.Sure.{Sure};

    ghost Value = { Sure };

    ghost view = { λ d. record {
      writes = d.writes.items;
      fetches = d.fetches;
      stores = d.stores;
      shows = d.shows;
      starved = d.starved;
      taken = d.taken;
      shown = d.shown.items;
      show_starved = d.show_starved;
    } };
}

impl SureDesk {
    /// A desk that holds no file, before its first call: each count is 0. It takes no memory.
    pub fn new(alloc: Global) -> SureDesk
        ensures { result ≡ unused }
    {
        SureDesk {
            writes: Vec::new(alloc),
            fetches: 0,
            stores: 0,
            shows: 0,
            starved: 0,
            taken: 0,
            shown: Vec::new(alloc),
            show_starved: 0,
        }
    }

    /// Sets the content of a file. It counts as no store. After an `Err`, out of memory, nothing is changed.
    pub fn put(&mut self, name: &str, bytes: &[u8]) -> Result<(), AllocError>
        ensures ok { OnOk result (self.new ≡ put_sure name.now bytes.now self.old) }
        ensures err { OnErr result (self.new ≡ self.old) }
    {
        let alloc = *self.shown.allocator();
        let name = Text::new(alloc, name.as_bytes())?;
        let content = Text::new(alloc, bytes)?;
        self.writes.push(Write { name, content })?;
        Ok(())
    }

    /// The content under the name, None exactly where the name is not held. It counts as no fetch, and
    /// takes no memory.
    pub fn held(&self, name: &str) -> Option<&[u8]>
        ensures { option_copied result ≡ sure_files self.now name.now }
    {
        last_written(self.writes.as_slice(), name)
    }

    /// The diagnostic bytes, in the order in which they were shown. It changes no count, and takes no
    /// memory.
    pub fn shown_bytes(&self) -> &[u8]
        ensures { result.now ≡ self.now.shown }
    {
        self.shown.as_slice()
    }
}

impl Desk for SureDesk {
    ghost seen = { sure_seen };

    fn fetch(&mut self, alloc: Global, name: &str, limit: usize) -> Result<Vec<u8>, FetchFault>
        ensures promised { Fetches name.now limit (sure_seen self.old) (sure_seen self.new)
            (result_map_both (λ v. v.items) (λ e. e) result) }
        ensures exact { SureFetches name.now limit self.old self.new
            (result_map_both (λ v. v.items) (λ e. e) result) }
    {
        self.fetches = raise(self.fetches);
        self.taken = 0;
        let content = self.held(name).unwrap_or(&[]);
        let length = content.len();
        if length > limit {
            self.taken = length;
            return Err(FetchFault::TooLong);
        }
        match Vec::from_slice(alloc, content) {
            Ok(bytes) => {
                self.taken = length;
                Ok(bytes)
            }
            Err(_) => Err(FetchFault::Memory),
        }
    }

    fn store(&mut self, name: &str, bytes: &[u8]) -> Result<(), StoreFault>
        ensures promised { Stores name.now bytes.now (sure_seen self.old) (sure_seen self.new) result }
        ensures exact { SureStores name.now bytes.now self.old self.new result }
    {
        self.stores = raise(self.stores);
        if self.put(name, bytes).is_err() {
            self.starved = raise(self.starved);
            return Err(StoreFault::Memory);
        }
        Ok(())
    }

    fn show(&mut self, line: &[u8]) -> Result<(), StoreFault>
        ensures promised { DeskShows line.now (sure_seen self.old) (sure_seen self.new) result }
        ensures exact { SureShows line.now self.old self.new result }
    {
        self.shows = raise(self.shows);
        if self.shown.extend_from_slice(line).is_err() {
            self.show_starved = raise(self.show_starved);
            return Err(StoreFault::Memory);
        }
        Ok(())
    }
}
