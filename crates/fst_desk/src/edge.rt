// The trait, with the faults of its calls.
ghost use Rattle.std.specs.Result.{result_map_both};
ghost use Rattle.fst_desk.specs.Seen.{Seen};
ghost use Rattle.fst_desk.specs.Desk.{Fetches, Stores, DeskShows};

use std::alloc::Global;

/// Why a [`Desk::fetch`] gave nothing.
#[derive(Debug, Clone, Copy, PartialEq, Eq)]
pub enum FetchFault {
    /// The content could not be read. The desk noted the name.
    Failed,
    /// The content has more bytes than the limit.
    TooLong,
    /// There was no memory for the content, or for the note of its name.
    Memory,
}

/// Why a [`Desk::store`] or a [`Desk::show`] did not take all.
#[derive(Debug, Clone, Copy, PartialEq, Eq)]
pub enum StoreFault {
    /// The bytes could not all be written. The front of them may stand, and the desk counted the fault.
    Failed,
    /// There was no memory. Nothing was written, and the desk counted this.
    Memory,
}

/// The files, the standard streams and the diagnostic lines of one run.
///
/// What is seen of a desk has two halves. The half of the files tells the contents by name, where the
/// desk tells them, the names whose fetch failed, the counts of the stores that failed and that
/// found no memory, how many bytes the last fetch took, and how many fetches and stores there were.
/// The half of the diagnostic lines tells the bytes shown, where the desk tells them, the counts of
/// the shows that failed and that found no memory, and how many shows there were. No count ever
/// falls; one that stands at 2^64 - 1 stays there, and counts as risen.
///
/// Each call raises the count of its name by one, whatever it answers, and nothing else raises it.
pub trait Desk {
    ghost seen: { Self → Seen };

    /// The whole content under the name, of at most `limit` bytes; empty where the name is not held.
    /// `Failed` only where this call put the name at the end of those missed, `TooLong` only where it
    /// took more than `limit` bytes. The count of fetches rises by one. No file, no other count and
    /// nothing shown is changed.
    fn fetch(&mut self, alloc: Global, name: &str, limit: usize) -> Result<Vec<u8>, FetchFault>
        ensures { Fetches name.now limit (seen self.old) (seen self.new)
            (result_map_both (λ v. v.items) (λ e. e) result) };

    /// Leaves exactly these bytes under the name. `Failed` only where the count of failed stores rose,
    /// and a prefix of the bytes then stands under the name; `Memory` only where the count of stores
    /// without memory rose, and no file then changed. The count of stores rises by one. All else is as
    /// before.
    fn store(&mut self, name: &str, bytes: &[u8]) -> Result<(), StoreFault>
        ensures { Stores name.now bytes.now (seen self.old) (seen self.new) result };

    /// Appends the line to what is shown. `Failed` only where the count of failed shows rose, and a
    /// prefix of the line is then appended; `Memory` only where the count of shows without memory
    /// rose, and nothing is then appended. The count of shows rises by one. Nothing of the files' half
    /// is changed.
    fn show(&mut self, line: &[u8]) -> Result<(), StoreFault>
        ensures { DeskShows line.now (seen self.old) (seen self.new) result };
}
