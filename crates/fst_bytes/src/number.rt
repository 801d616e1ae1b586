//! Numbers of four and of eight bytes, the least byte first, and parts of so many bytes.

ghost use Rattle.std.specs.Prelude.{◌≡◌, ◌≤◌, ◌==◌, ◌+◌, drop, length, IfOk, nat_le};
ghost use Rattle.std.specs.Result.{result_map_both};
ghost use Rattle.byteorder.specs.Endian.{little_number};
ghost use Rattle.fst_fields.specs.Decimal.{greatest_label};
ghost use Rattle.fst_bytes.specs.Reading.{label_at, number_at, number_where, part_at};

use crate::fault::{FileFault, fault_at, short_of};
use byteorder::{ByteOrder, LittleEndian};
use fst_fields::MOST_LABEL;

/// The number of the four bytes that stand at an offset.
pub fn word_at(bytes: &[u8], at: usize) -> u32
    requires { at + 4 ≤ length bytes.now }
    ensures { result ≡ little_number 4 (drop at bytes.now) }
{
    LittleEndian::read_u32(&bytes[at..])
}

/// The number of four bytes at an offset, and the offset after it.
#[tactic(auto, unfolding(crate::specs::Reading::number_at))]
pub fn read_word<K: Copy>(bytes: &[u8], at: usize, short: K) -> Result<(u32, usize), FileFault<K>>
    requires { at ≤ length bytes.now }
    ensures value { result ≡ number_at short 4 bytes.now at }
    ensures after { IfOk result (λ x. x.1 ≤ length bytes.now) }
{
    if bytes.len() - at < 4 {
        return Err(short_of(bytes, short));
    }
    Ok((word_at(bytes, at), at + 4))
}

/// The number of eight bytes at an offset, and the offset after it.
#[tactic(auto, unfolding(crate::specs::Reading::number_at))]
pub fn read_long<K: Copy>(bytes: &[u8], at: usize, short: K) -> Result<(u64, usize), FileFault<K>>
    requires { at ≤ length bytes.now }
    ensures value { result ≡ number_at short 8 bytes.now at }
    ensures after { IfOk result (λ x. x.1 ≤ length bytes.now) }
{
    if bytes.len() - at < 8 {
        return Err(short_of(bytes, short));
    }
    Ok((LittleEndian::read_u64(&bytes[at..]), at + 8))
}

/// So many bytes at an offset, and the offset after them.
#[tactic(auto, unfolding(crate::specs::Reading::part_at))]
pub fn read_bytes<K: Copy>(
    bytes: &[u8],
    at: usize,
    count: usize,
    short: K,
) -> Result<(&[u8], usize), FileFault<K>>
    requires { at ≤ length bytes.now }
    ensures value { result_map_both (λ x. (x.0.now, x.1)) (λ e. e) result ≡ part_at short count bytes.now at }
    ensures after { IfOk result (λ x. x.1 ≤ length bytes.now) }
{
    if bytes.len() - at < count {
        return Err(short_of(bytes, short));
    }
    Ok((&bytes[at..at + count], at + count))
}

/// The offset after a number of four bytes, which has to be this one.
#[tactic(auto, unfolding(crate::specs::Reading::number_where))]
pub fn expect_word<K: Copy>(
    bytes: &[u8],
    at: usize,
    wanted: u32,
    short: K,
    wrong: K,
) -> Result<usize, FileFault<K>>
    requires { at ≤ length bytes.now }
    ensures value { result_map_both (λ next. (wanted, next)) (λ e. e) result ≡ number_where (λ n. n == wanted) short wrong 4 bytes.now at }
    ensures after { IfOk result (λ next. next ≤ length bytes.now) }
{
    let (number, next) = read_word(bytes, at, short)?;
    if number == wanted {
        Ok(next)
    } else {
        Err(fault_at(at, wrong))
    }
}

/// A number of eight bytes that is at most this one, and the offset after it.
#[tactic(auto, unfolding(crate::specs::Reading::number_where))]
pub fn read_count<K: Copy>(
    bytes: &[u8],
    at: usize,
    most: u64,
    short: K,
    wrong: K,
) -> Result<(u64, usize), FileFault<K>>
    requires { at ≤ length bytes.now }
    ensures value { result ≡ number_where (λ n. nat_le n most) short wrong 8 bytes.now at }
    ensures most { IfOk result (λ x. x.0 ≤ most) }
    ensures after { IfOk result (λ x. x.1 ≤ length bytes.now) }
{
    let (number, next) = read_long(bytes, at, short)?;
    if number <= most {
        Ok((number, next))
    } else {
        Err(fault_at(at, wrong))
    }
}

/// A label, and the offset after it.
#[tactic(auto, unfolding(crate::specs::Reading::number_where))]
pub fn read_label<K: Copy>(
    bytes: &[u8],
    at: usize,
    short: K,
    wrong: K,
) -> Result<(u32, usize), FileFault<K>>
    requires { at ≤ length bytes.now }
    ensures value { result ≡ label_at short wrong bytes.now at }
    ensures range { IfOk result (λ x. x.0 ≤ greatest_label) }
    ensures after { IfOk result (λ x. x.1 ≤ length bytes.now) }
{
    let (label, next) = read_word(bytes, at, short)?;
    if label <= MOST_LABEL {
        Ok((label, next))
    } else {
        Err(fault_at(at, wrong))
    }
}
