// The operating system as a desk: the trusted edge, of which no clause can say what it gives or takes.
ghost use Rattle.std.specs.Prelude.{◌≡◌, ◌<◌, ◌≤◌, [], vec_len, vec_capacity, IfOk};
ghost use Rattle.std.specs.Result.{IsErrOf, result_map_both};
ghost use Rattle.fst_desk.specs.Noted.{unnoted, noted_seen};

use crate::count::raise;
use crate::edge::{Desk, FetchFault, StoreFault};
use crate::streams::{Reading, read_whole, write_whole};
use crate::text::Text;
use std::alloc::{AllocError, Global};
use std::fs::OpenFile;
use std::io::ErrorKind;
use std::marker::Model;
use std::rt::Runtime;
use std::{fs, io, str};

// The name of standard input to a fetch, and of standard output to a store.
const STANDARD: &str = "-";

// How many bytes one read asks for.
const CHUNK: usize = 64 * 1024;

/// The operating system as a desk: files by their paths, standard input and output under the name
/// `-`, and standard error for the diagnostic lines. It tells no content, and notes what failed.
///
/// A store creates the file or replaces what it held. Neither a store nor a show takes memory.
#[derive(Drop)]
pub struct RealDesk<'r, R: Runtime> {
    rt: &'r R,
    missed: Vec<Text>,
    write_faults: u64,
    taken: usize,
    show_faults: u64,
    fetches: u64,
    stores: u64,
    shows: u64,
}

impl<'r, R: Runtime> Model for RealDesk<'r, R> {
    ghost use Rattle.fst_desk.specs.Noted.{Noted};

    ghost Value = { Noted };

    ghost view = { λ d. record {
      missed = d.missed.items;
      write_faults = d.write_faults;
      taken = d.taken;
      show_faults = d.show_faults;
      fetches = d.fetches;
      stores = d.stores;
      shows = d.shows;
    } };
}

impl<'r, R: Runtime> RealDesk<'r, R> {
    /// A desk over that runtime, before its first call: each count is 0. It takes no memory.
    pub fn new(alloc: Global, rt: &'r R) -> RealDesk<'r, R>
        ensures { result ≡ unnoted }
    {
        RealDesk {
            rt,
            missed: Vec::new(alloc),
            write_faults: 0,
            taken: 0,
            show_faults: 0,
            fetches: 0,
            stores: 0,
            shows: 0,
        }
    }
}

impl<'r, R: Runtime> Desk for RealDesk<'r, R> {
    ghost seen = { noted_seen };

    fn fetch(&mut self, alloc: Global, name: &str, limit: usize) -> Result<Vec<u8>, FetchFault> {
        self.fetches = raise(self.fetches);
        self.taken = 0;
        // The memory for the note comes first, so that a read that fails can always be noted.
        let note = match note_of(alloc, name, &mut self.missed) {
            Ok(note) => note,
            Err(_) => return Err(FetchFault::Memory),
        };
        let reading = read_input(self.rt, alloc, name, limit);
        self.taken = reading.taken;
        match reading.content {
            Ok(content) => Ok(content),
            Err(FetchFault::Failed) => {
                self.missed.push_reserved(note);
                Err(FetchFault::Failed)
            }
            Err(fault) => Err(fault),
        }
    }

    fn store(&mut self, name: &str, bytes: &[u8]) -> Result<(), StoreFault> {
        self.stores = raise(self.stores);
        if write_output(self.rt, name, bytes).is_err() {
            self.write_faults = raise(self.write_faults);
            return Err(StoreFault::Failed);
        }
        Ok(())
    }

    fn show(&mut self, line: &[u8]) -> Result<(), StoreFault> {
        self.shows = raise(self.shows);
        if print_line(self.rt, line).is_err() {
            self.show_faults = raise(self.show_faults);
            return Err(StoreFault::Failed);
        }
        Ok(())
    }
}

// The name's copy, with room for it at the end of the list.
fn note_of(alloc: Global, name: &str, missed: &mut Vec<Text>) -> Result<Text, AllocError>
    ensures note { IfOk result (λ note. note ≡ name.now) }
    ensures room { IfOk result (λ _. vec_len missed.new < vec_capacity missed.new) }
    ensures kept { missed.new.items ≡ missed.old.items }
{
    missed.reserve(1)?;
    Text::new(alloc, name.as_bytes())
}

// Reads all of the input of that name.
fn read_input<R: Runtime>(rt: &R, alloc: Global, name: &str, limit: usize) -> Reading
    ensures fits { IfOk result.content (λ content. vec_len content ≤ limit) }
    ensures taken { IfOk result.content (λ content. result.taken ≡ vec_len content) }
    ensures too_long { IsErrOf result.content FetchFault.TooLong → limit < result.taken }
{
    let mut chunk = match zeros(alloc, CHUNK) {
        Ok(chunk) => chunk,
        Err(_) => return Reading::broken(0, FetchFault::Memory),
    };
    if name == STANDARD {
        let mut input = rt.reader();
        return read_whole(&mut input, chunk.as_mut_slice(), Vec::new(alloc), limit);
    }
    let mut file = match fs::open(rt, name) {
        Ok(file) => file,
        Err(_) => return Reading::broken(0, FetchFault::Failed),
    };
    let bytes = match file.metadata() {
        Ok(metadata) => room_for(alloc, metadata.len(), limit),
        Err(_) => Vec::new(alloc),
    };
    read_whole(&mut file, chunk.as_mut_slice(), bytes, limit)
}

// Bytes to read into, of that number.
fn zeros(alloc: Global, count: usize) -> Result<Vec<u8>, AllocError>
    ensures { IfOk result (λ chunk. vec_len chunk ≡ count) }
{
    Vec::from_elem(alloc, 0, count)
}

// An empty vector, with room for a content of the length that a file states. The length may lie: past
// the limit it is not believed, what is not used of the room is never touched, and where the room is
// refused the vector grows as it is filled.
fn room_for(alloc: Global, stated: u64, limit: usize) -> Vec<u8>
    ensures { result.items ≡ [] }
{
    let mut bytes = Vec::new(alloc);
    if stated <= limit as u64 {
        let _ = bytes.reserve(stated as usize);
    }
    bytes
}

// Writes the bytes as the output of that name.
fn write_output<R: Runtime>(rt: &R, name: &str, bytes: &[u8]) -> io::Result<()> {
    if name == STANDARD {
        return write_whole(&mut io::writer(rt), bytes);
    }
    let mut file = fs::create(rt, name)?;
    write_whole(&mut file, bytes)
}

// Prints the line on standard error, which takes text alone.
fn print_line<R: Runtime>(rt: &R, line: &[u8]) -> io::Result<()> {
    match str::from_utf8(line) {
        Ok(text) => rt.eprint(text),
        Err(_) => Err(io::Error::from(ErrorKind::InvalidData)),
    }
}
