// Reading a whole input and writing a whole output, over std's `read` and `write`.
ghost use Rattle.std.specs.Prelude.{◌≡◌, ◌<◌, ◌≤◌, [], length, vec_len, IfOk, OnOk, IfSome};
ghost use Rattle.std.specs.Result.{IsErrOf};
ghost use Rattle.std.specs.Io.KnownBytes.{Appends, Consumes, IsAtEnd};

use crate::edge::FetchFault;
use std::io;
use std::io::{Read, Write};

// What came of reading an input.
#[derive(Drop)]
pub(crate) struct Reading {
    // How many bytes the reads took.
    pub(crate) taken: usize,
    // All of them, or why they are not all there.
    pub(crate) content: Result<Vec<u8>, FetchFault>,
}

impl Reading {
    pub(crate) fn broken(taken: usize, fault: FetchFault) -> Reading
        ensures taken { result.taken ≡ taken }
        ensures fault { IsErrOf result.content fault }
    {
        Reading {
            taken,
            content: Err(fault),
        }
    }
}

// Reads to the end, by chunks, into an empty vector. It gives up at the first read that fails, and
// where more than `limit` bytes are taken. Each turn takes at least one byte, so there are at most
// `limit` turns and two more.
pub(crate) fn read_whole<I: Read>(
    input: &mut I,
    chunk: &mut [u8],
    mut bytes: Vec<u8>,
    limit: usize,
) -> Reading
    requires room { 0 < length chunk.old }
    requires empty { bytes.items ≡ [] }
    ensures fits { IfOk result.content (λ content. vec_len content ≤ limit) }
    ensures taken { IfOk result.content (λ content. result.taken ≡ vec_len content) }
    ensures too_long { IsErrOf result.content FetchFault.TooLong → limit < result.taken }

    // Where the reader's bytes are known, these are all of them.
    ensures whole { IfOk result.content (λ content. Consumes (I.remaining input.old) (I.remaining input.new) content.items) }
    ensures end { OnOk result.content (IsAtEnd (I.remaining input.new)) }
    ensures longer { IsErrOf result.content FetchFault.TooLong → IfSome (I.remaining input.old) (λ left. limit < length left) }
{
    loop {
        let count = match input.read(chunk) {
            Ok(0) => {
                return Reading {
                    taken: bytes.len(),
                    content: Ok(bytes),
                };
            }
            Ok(count) => count,
            Err(_) => return Reading::broken(bytes.len(), FetchFault::Failed),
        };
        if count > limit - bytes.len() {
            return Reading::broken(bytes.len() + count, FetchFault::TooLong);
        }
        if bytes.extend_from_slice(&chunk[..count]).is_err() {
            return Reading::broken(bytes.len() + count, FetchFault::Memory);
        }
    }
}

// Writes all of the bytes. A write that fails, or that takes nothing of a piece, ends it.
pub(crate) fn write_whole<O: Write>(output: &mut O, bytes: &[u8]) -> io::Result<()>
    ensures { OnOk result (Appends (O.contents output.old) (O.contents output.new) bytes.now) }
{
    let mut at = 0;
    while at < bytes.len() {
        let count = output.write(&bytes[at..])?;
        if count == 0 {
            return Err(io::Error::from(io::ErrorKind::WriteZero));
        }
        at += count;
    }
    Ok(())
}
