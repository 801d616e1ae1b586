//! Reading an input and writing an output, each with its refusals.

ghost use Rattle.std.specs.Result.{result_map_both};
ghost use Rattle.fst_command.specs.Steps.{Reads, StoresOutput, WritesBoth, WritesOutput};
ghost use Rattle.fst_verbs.specs.Causes.{unwritten};
ghost use Rattle.fst_verbs.specs.Told.{Tells};

use fst_desk::{Desk, FetchFault, StoreFault};
use fst_verbs::{Refusal, longer, not_read, not_written};
use std::alloc::Global;

/// The most bytes that are read of an input. The largest machine of every arc type fits.
const READ_LIMIT: usize = 1_342_177_280;

/// The content of an input. An input that cannot be read, or is longer than what is read, is a refusal.
pub(crate) fn read_input<D: Desk>(
    alloc: Global,
    desk: &mut D,
    name: &str,
) -> Result<Vec<u8>, Refusal>
    ensures { Reads name.now (D.seen desk.old) (D.seen desk.new) (result_map_both (λ v. v.items) (λ e. e) result) }
{
    match desk.fetch(alloc, name, READ_LIMIT) {
        Ok(content) => Ok(content),
        Err(FetchFault::Failed) => Err(not_read(alloc, name)),
        Err(FetchFault::TooLong) => Err(longer(alloc, name)),
        Err(FetchFault::Memory) => Err(Refusal::Memory),
    }
}

/// Stores an output, of which the refusal is made already.
fn store_output<D: Desk>(
    desk: &mut D,
    name: &str,
    bytes: &[u8],
    refusal: Refusal,
) -> Result<(), Refusal>
    requires { Tells (unwritten name.now) refusal }
    ensures { StoresOutput name.now bytes.now (D.seen desk.old) (D.seen desk.new) result }
{
    match desk.store(name, bytes) {
        Ok(()) => Ok(()),
        Err(StoreFault::Failed) => Err(refusal),
        Err(StoreFault::Memory) => Err(Refusal::Memory),
    }
}

/// Writes an output. The line of a write fault is made before the first byte is written, so that want of
/// memory for it leaves every file as it was.
pub(crate) fn write_output<D: Desk>(
    alloc: Global,
    desk: &mut D,
    name: &str,
    bytes: &[u8],
) -> Result<(), Refusal>
    ensures { WritesOutput name.now bytes.now (D.seen desk.old) (D.seen desk.new) result }
{
    let refusal = not_written(alloc, name);
    if refusal.is_memory() {
        return Err(refusal);
    }
    store_output(desk, name, bytes, refusal)
}

/// Writes two outputs, one after the other. The lines of both write faults are made before the first byte is
/// written. Where the second output is not written, the first stands whole.
pub(crate) fn write_both<D: Desk>(
    alloc: Global,
    desk: &mut D,
    name: &str,
    bytes: &[u8],
    other: &str,
    more: &[u8],
) -> Result<(), Refusal>
    ensures { WritesBoth name.now bytes.now other.now more.now (D.seen desk.old) (D.seen desk.new) result }
{
    let refusal = not_written(alloc, name);
    if refusal.is_memory() {
        return Err(refusal);
    }
    let later = not_written(alloc, other);
    if later.is_memory() {
        return Err(later);
    }
    match store_output(desk, name, bytes, refusal) {
        Ok(()) => store_output(desk, other, more, later),
        Err(refusal) => Err(refusal),
    }
}
