//! Whole numbers in decimal digits.

ghost use Rattle.std.specs.Prelude.{◌≡◌, ◌<◌, ◌≤◌, ◌^◌, IfSome, length};
ghost use Rattle.fst_fields.specs.Decimal.{digits_after, greatest_label, label_of_text, natural_of_text};

/// The greatest label.
pub const MOST_LABEL: u32 = 2_147_483_647;

/// The number that the bytes stand for, where they are all decimal digits. Leading zeros are read.
fn digits(field: &[u8]) -> Option<u64>
    requires { length field.now ≤ 19 }
    ensures value { result ≡ digits_after 0 field.now }
    ensures small { IfSome result (λ n. n < 10 ^ length field.now) }
{
    let mut n: u64 = 0;
    for c in field {
        if !c.is_ascii_digit() {
            return None;
        }
        n = 10 * n + u64::from(*c - b'0');
    }
    Some(n)
}

/// The number that a field of one to `most` decimal digits stands for; leading zeros are read. `None`
/// exactly where the field is empty, is longer than `most`, or has a byte that is no digit. Takes no memory.
pub fn read_decimal(field: &[u8], most: usize) -> Option<u64>
    requires { most ≤ 19 }
    ensures value { result ≡ natural_of_text most field.now }
    ensures small { IfSome result (λ n. n < 10 ^ most) }
{
    if field.is_empty() || field.len() > most {
        return None;
    }
    digits(field)
}

/// The label that a field stands for: one to eighteen decimal digits, at most 2,147,483,647; leading zeros
/// are read. `None` exactly where the field is no such number. Takes no memory.
pub fn read_label(field: &[u8]) -> Option<u32>
    ensures value { result ≡ label_of_text field.now }
    ensures small { IfSome result (λ n. n ≤ greatest_label) }
{
    match read_decimal(field, 18) {
        Some(n) => {
            if n <= u64::from(MOST_LABEL) {
                Some(n as u32)
            } else {
                None
            }
        }
        None => None,
    }
}
