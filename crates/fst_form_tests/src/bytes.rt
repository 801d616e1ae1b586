//! Bytes with some of them changed.

use std::alloc::{AllocError, Global};

/// The bytes with these in the place of those at an offset, as far as there are any.
pub(crate) fn change(
    alloc: Global,
    whole: &[u8],
    at: usize,
    bytes: &[u8],
) -> Result<Vec<u8>, AllocError> {
    let mut changed = Vec::new(alloc);
    for (i, byte) in whole.iter().enumerate() {
        let other = if at <= i { bytes.get(i - at) } else { None };
        changed.push(*other.unwrap_or(byte))?;
    }
    Ok(changed)
}
