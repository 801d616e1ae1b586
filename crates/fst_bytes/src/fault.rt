//! Why bytes are no file, and why reading them stopped.

ghost use Rattle.std.specs.Prelude.{◌≡◌, ◌≢◌, IfErr, OnOk, length};
ghost use Rattle.fst_bytes.specs.Stopping.{fault_of};
ghost use Rattle.fst_bytes.specs.declared.fault.Stopped.TheVariants as stops;

use std::alloc::{AllocError, AllocFailed};

/// The first fault of the bytes of a file, and where it is. What kinds there are is told by the form of the file.
#[derive(Clone, Copy, Debug, PartialEq, Eq)]
pub struct FileFault<K> {
    /// The number of bytes before the field that is wrong. The number of all bytes where a field is not whole, and 0
    /// where there is no memory.
    pub offset: u64,
    /// What is wrong with the field.
    pub kind: K,
}

/// Why bytes at an offset are no weight field.
#[derive(Clone, Copy, Debug, PartialEq, Eq)]
pub enum WeightFieldFault {
    /// The tag or a number after it is not whole.
    Short,
    /// The arc type has no such tag, or a number has an absolute value past 10 to the 18.
    BadWeight,
}

/// Why reading stopped: for a fault of the bytes, or for lack of memory. The two stay apart until the end, so that no
/// fault turns into the other.
#[derive(Clone, Copy, Debug)]
pub enum Stopped<K> {
    /// There is no memory.
    Memory,
    /// The bytes have this fault.
    At(FileFault<K>),
}

impl<K: Copy> Stopped<K> {
    /// The fault of the file, with the kind that says that there is no memory.
    pub fn into_fault(self, memory: K) -> FileFault<K>
        ensures { result ≡ fault_of memory self }
    {
        match self {
            Stopped::At(fault) => fault,
            Stopped::Memory => FileFault {
                offset: 0,
                kind: memory,
            },
        }
    }
}

impl<K: Copy> From<FileFault<K>> for Stopped<K> {
    ghost from_gives = { λ fault stopped. stopped ≡ stops.At fault };

    fn from(found: FileFault<K>) -> Stopped<K> {
        Stopped::At(found)
    }
}

impl<K: Copy> From<AllocError> for Stopped<K> {
    ghost from_gives = { λ _ stopped. stopped ≡ stops.Memory };

    fn from(_e: AllocError) -> Stopped<K> {
        Stopped::Memory
    }
}

impl<T: Drop, K: Copy> From<AllocFailed<T>> for Stopped<K> {
    ghost from_gives = { λ _ stopped. stopped ≡ stops.Memory };

    fn from(_e: AllocFailed<T>) -> Stopped<K> {
        Stopped::Memory
    }
}

/// The bytes have to end at an offset.
pub fn expect_end<K: Copy>(bytes: &[u8], at: usize, extra: K) -> Result<(), FileFault<K>>
    ensures ok { OnOk result (at ≡ length bytes.now) }
    ensures err { IfErr result (λ fault. (fault ≡ record { offset = at; kind = extra }) × (at ≢ length bytes.now)) }
{
    if at == bytes.len() {
        Ok(())
    } else {
        Err(fault_at(at, extra))
    }
}

/// A field of these bytes is not whole.
pub fn short_of<K>(bytes: &[u8], short: K) -> FileFault<K>
    ensures { result ≡ record { offset = length bytes.now; kind = short } }
{
    fault_at(bytes.len(), short)
}

/// The field at an offset is wrong.
pub fn fault_at<K>(offset: usize, kind: K) -> FileFault<K>
    ensures { result ≡ record { offset = offset; kind = kind } }
{
    FileFault {
        offset: offset as u64,
        kind,
    }
}
