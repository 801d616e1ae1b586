//! The numbers of weights, and of their texts.

ghost use Rattle.std.specs.Prelude.{◌≡◌, ◌≤◌, ◌+◌, ◌+ℤ◌, ◌-ℤ◌, ◌++◌, ◌==◌, length, codes, vec_capacity, IfSome, IfNone, OnOk, OnErr};
ghost use Rattle.std.specs.Fmt.{signed_decimal};
ghost use Rattle.std.specs.List.{position_or_len};
ghost use Rattle.std.specs.Option.{option_map};
ghost use Rattle.fst_semiring.specs.Cost.{finite};
ghost use Rattle.fst_semiring.specs.WeightText.{cost_of_pair, magnitude_of_text, number_of_text};
ghost use Rattle.fst_semiring.specs.Semiring.{IsSmall, IsWithin};

use fst_fields::{append, read_decimal};
use itoa::Buffer;
use std::alloc::AllocError;

/// The greatest absolute value of a number in a weight, 10 to the 18.
pub const LIMIT: i64 = 1_000_000_000_000_000_000;

/// The number that one to nineteen decimal digits stand for, where it is at most `LIMIT`.
fn read_magnitude(digits: &[u8]) -> Option<u64>
    ensures value { result ≡ magnitude_of_text digits.now }
    ensures small { IfSome result (λ n. n ≤ 1000000000000000000) }
{
    let n = read_decimal(digits, 19)?;
    if n <= LIMIT as u64 { Some(n) } else { None }
}

/// The number that a number of a weight text stands for: an optional minus sign and one to nineteen decimal
/// digits, with absolute value at most `LIMIT`. `None` exactly where the bytes are no such text.
pub fn read_number(field: &[u8]) -> Option<i64>
    ensures value { result ≡ number_of_text field.now }
    ensures small { IfSome result IsSmall }
{
    match field {
        [] => None,
        [b'-', digits @ ..] => {
            let n = read_magnitude(digits)?;
            Some(-(n as i64))
        }
        digits => {
            let n = read_magnitude(digits)?;
            Some(n as i64)
        }
    }
}

/// How many bytes stand in front of the first comma.
fn comma_place(field: &[u8]) -> usize
    ensures value { result ≡ position_or_len (λ c. c == 44) field.now }
    ensures bound { result ≤ length field.now }
{
    for (i, c) in field.iter().enumerate() {
        if *c == b',' {
            return i;
        }
    }
    field.len()
}

/// The numbers that a pair of a weight text stands for: two numbers with one comma between them and no
/// space. `None` exactly where the bytes are no such text.
pub fn read_pair(field: &[u8]) -> Option<(i64, i64)>
    ensures value { option_map (λ p. finite p.0 p.1) result ≡ cost_of_pair field.now }
    ensures small { IfSome result (λ p. IsSmall p.0 × IsSmall p.1) }
{
    let comma = comma_place(field);
    let first = read_number(&field[..comma])?;
    if comma == field.len() {
        return None;
    }
    let second = read_number(&field[comma + 1..])?;
    Some((first, second))
}

/// The same number, where its absolute value is at most `LIMIT`.
pub fn narrow_number(number: i128) -> Option<i64>
    ensures some { IfSome result (λ n. (n ≡ number) × IsSmall n) }
    ensures none { IfNone result (IsSmall number → ⊥) }
{
    if -i128::from(LIMIT) <= number && number <= i128::from(LIMIT) {
        Some(number as i64)
    } else {
        None
    }
}

/// The sum of two numbers of absolute value below 2 to the 120. Its own is below 2 to the 121.
pub fn add_wide(a: i128, b: i128) -> i128
    requires a_wide { IsWithin 1329227995784915872903807060280344575 a }
    requires b_wide { IsWithin 1329227995784915872903807060280344575 b }
    ensures same { result ≡ a +ℤ b }
    ensures within { IsWithin 2658455991569831745807614120560689150 result }
{
    a + b
}

/// The difference of two numbers of absolute value below 2 to the 120. Its own is below 2 to the 121.
pub fn subtract_wide(a: i128, b: i128) -> i128
    requires a_wide { IsWithin 1329227995784915872903807060280344575 a }
    requires b_wide { IsWithin 1329227995784915872903807060280344575 b }
    ensures same { result ≡ a -ℤ b }
    ensures within { IsWithin 2658455991569831745807614120560689150 result }
{
    a - b
}

/// Appends a number in decimal digits, without leading zeros. An `Err` changes nothing.
pub fn push_number(out: &mut Vec<u8>, number: i64) -> Result<(), AllocError>
    ensures ok { OnOk result (out.new.items ≡ out.old.items ++ signed_decimal number) }
    ensures err { OnErr result (out.new.items ≡ out.old.items) }
{
    let mut buffer = Buffer::new();
    out.extend_from_slice(buffer.format(number).as_bytes())
}

/// Appends two numbers with a comma between them. An `Err` changes nothing.
pub fn push_pair(out: &mut Vec<u8>, first: i64, second: i64) -> Result<(), AllocError>
    ensures ok { OnOk result (out.new.items ≡ out.old.items ++ (signed_decimal first ++ codes "," ++ signed_decimal second)) }
    ensures err { OnErr result (out.new.items ≡ out.old.items) }
{
    let mut first_buffer = Buffer::new();
    let mut second_buffer = Buffer::new();
    let front = first_buffer.format(first).as_bytes();
    let back = second_buffer.format(second).as_bytes();
    out.reserve(front.len() + 1 + back.len())?;
    append(out, front);
    append(out, b",");
    append(out, back);
    Ok(())
}
