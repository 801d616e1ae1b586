//! A field of a line that is read together with the number that it is.

ghost use Rattle.std.specs.Prelude.{◌≡◌, ◌∷◌, ◌++◌, [], ◌<◌, ◌≤◌, ℕ, List, Some, MatchOption, IfSome, length, take};
ghost use Rattle.std.specs.Char.{is_ascii_digit};
ghost use Rattle.std.specs.List.{prefix_len};
ghost use Rattle.fst_fields.specs.Decimal.{natural_of_text};
ghost use Rattle.fst_fields.specs.Lines.{fields_of, is_separator};
ghost use Rattle.fst_text.specs.FirstLine.{GoesOn, IsFirstLine, is_none, listed};
ghost use Rattle.fst_text.specs.Leading.{leading_number};

use fst_fields::{next_field, read_decimal};
use std::marker::Model;

/// A number has at most so many digits.
const MOST_DIGITS: usize = 18;

/// A field of a line, with the number that it is where it is one of one to eighteen digits. Contracts see its bytes.
#[derive(Drop)]
pub struct Field<'t> {
    bytes: &'t [u8],
    number: Option<u64>,
}

impl<'t> Model for Field<'t> {
    ghost use Rattle.std.specs.Prelude.{◌≡◌, List, ℕ};
    ghost use Rattle.fst_fields.specs.Decimal.{natural_of_text};

    ghost Value = { List ℕ };

    ghost view = { λ f. f.bytes.now };

    ghost invariant = { λ f. f.number ≡ natural_of_text 18 f.bytes.now };
}

impl<'t> Field<'t> {
    /// The bytes of the field.
    #[inline(always)]
    pub fn bytes(&self) -> &'t [u8]
        ensures { result.now ≡ self.now }
    {
        self.bytes
    }

    /// The number that the field is; `None` exactly where it is none of one to eighteen digits.
    #[inline(always)]
    pub fn number(&self) -> Option<u64>
        ensures { result ≡ natural_of_text 18 self.now }
    {
        self.number
    }
}

/// The first field of a line, and the line behind it. `None` exactly where the line has no field. Takes no memory.
pub fn read_field(line: &[u8]) -> Option<(Field<'_>, &[u8])>
    ensures { MatchOption result (fields_of line.now ≡ []) (λ p. fields_of line.now ≡ p.0 ∷ fields_of p.1.now) }
{
    let (bytes, rest) = next_field(line)?;
    let number = read_decimal(bytes, MOST_DIGITS);
    Some((Field { bytes, number }, rest))
}

/// Whether a byte separates fields: a space, a tab or a carriage return.
#[inline(always)]
fn separates(c: u8) -> bool
    ensures { result ≡ is_separator c }
{
    c == b'\t' || c == b' ' || c == b'\r'
}

/// How many digits stand in front, and the number that they stand for.
#[inline(always)]
fn leading_digits(text: &[u8]) -> (usize, u64)
    requires { length text.now ≤ 18 }
    ensures count { result.0 ≡ prefix_len is_ascii_digit text.now }
    ensures bound { result.0 ≤ length text.now }
    ensures number { result.1 ≡ leading_number 0 text.now }
{
    let mut n: u64 = 0;
    for (i, c) in text.iter().enumerate() {
        if !c.is_ascii_digit() {
            return (i, n);
        }
        n = 10 * n + u64::from(*c - b'0');
    }
    (text.len(), n)
}

/// The first eighteen bytes of a text, or all of them where it has fewer.
#[inline(always)]
fn number_part(text: &[u8]) -> &[u8]
    ensures part { result.now ≡ take 18 text.now }
    ensures short { length result.now ≤ 18 }
{
    if text.len() > MOST_DIGITS {
        &text[..MOST_DIGITS]
    } else {
        text
    }
}

/// The digits that stand in front of a text, up to eighteen, as a field, and what stands behind them. `None` where the text
/// begins with no digit.
#[inline(always)]
fn digits_in_front(text: &[u8]) -> Option<(Field<'_>, &[u8])>
    ensures parts { IfSome result (λ p. p.0 ++ p.1.now ≡ text.now) }
    ensures number { IfSome result (λ p. (n : ℕ) × (natural_of_text 18 p.0 ≡ Some n)) }
    ensures shorter { IfSome result (λ p. length p.1.now < length text.now) }
{
    let (end, number) = leading_digits(number_part(text));
    if end == 0 {
        return None;
    }
    let bytes = &text[..end];
    let field = Field {
        bytes,
        number: Some(number),
    };
    Some((field, &text[end..]))
}

/// The first field of a text where the text begins with it and it is a number, whether a line ends with it, and what stands
/// behind it, without the byte that ends it. `None` where the text begins otherwise. It is read in one pass.
#[inline(always)]
pub fn plain_field(text: &[u8]) -> Option<(Field<'_>, bool, &[u8])>
    ensures field { IfSome result (λ p. (fields : List (List ℕ)) → (rest : List ℕ) → GoesOn p.1 p.2.now fields rest → IsFirstLine text.now (p.0 ∷ fields) rest) }
    ensures shorter { IfSome result (λ p. length p.2.now < length text.now) }
{
    let (field, rest) = digits_in_front(text)?;
    let Some((end, behind)) = rest.split_first() else {
        return Some((field, true, rest));
    };
    if *end == b'\n' {
        return Some((field, true, behind));
    }
    if separates(*end) {
        return Some((field, false, behind));
    }
    None
}

/// A plain field that does not end its line, and what stands behind it.
#[inline(always)]
pub fn inner_field(text: &[u8]) -> Option<(Field<'_>, &[u8])>
    ensures field { IfSome result (λ p. (fields : List (List ℕ)) → (rest : List ℕ) → IsFirstLine p.1.now fields rest → IsFirstLine text.now (p.0 ∷ fields) rest) }
    ensures shorter { IfSome result (λ p. length p.1.now < length text.now) }
{
    let (field, ended, rest) = plain_field(text)?;
    if ended { None } else { Some((field, rest)) }
}

/// The plain field of an output label, which an acceptor does not have, behind another field, which may have ended the line.
/// Whether the line has ended with it, and what stands behind it.
#[inline(always)]
pub fn label_field(
    acceptor: bool,
    ended: bool,
    text: &[u8],
) -> Option<(Option<Field<'_>>, bool, &[u8])>
    ensures field { IfSome result (λ p. (fields : List (List ℕ)) → (rest : List ℕ) → GoesOn p.1 p.2.now fields rest → GoesOn ended text.now (listed p.0 ++ fields) rest) }
    ensures own { IfSome result (λ p. is_none p.0 ≡ acceptor) }
    ensures shorter { IfSome result (λ p. length p.2.now ≤ length text.now) }
{
    if acceptor {
        return Some((None, ended, text));
    }
    if ended {
        return None;
    }
    let (field, ends, rest) = plain_field(text)?;
    Some((Some(field), ends, rest))
}

/// The plain field that ends a line, behind another field; no field where that has ended the line. What stands behind it.
#[inline(always)]
pub fn last_field(ended: bool, text: &[u8]) -> Option<(Option<Field<'_>>, &[u8])>
    ensures field { IfSome result (λ p. GoesOn ended text.now (listed p.0) p.1.now) }
    ensures shorter { IfSome result (λ p. length p.1.now ≤ length text.now) }
{
    if ended {
        return Some((None, text));
    }
    let (field, ends, rest) = plain_field(text)?;
    if ends {
        Some((Some(field), rest))
    } else {
        None
    }
}
