//! The row of a line whose first field is mostly long.

ghost use Rattle.std.specs.Prelude.{◌≡◌, ◌∷◌, [], ◌≤◌, false, All, IfOk, IfSome, MatchOption, length};
ghost use Rattle.std.specs.Option.{option_map};
ghost use Rattle.std.specs.List.{position_or_len};
ghost use Rattle.fst_fields.specs.Decimal.{greatest_label};
ghost use Rattle.fst_fields.specs.Lines.{begins_field, fields_of, is_line_end, is_separator};
ghost use Rattle.fst_fields.specs.Texts.{IsRead, row_of};
ghost use Rattle.fst_symbols.specs.Reading.{symbol_of};
ghost use Rattle.fst_symbols.specs.Symbols.{IsName};

use crate::fault::SymbolsFault;
use fst_fields::{next_field, read_label};
use memchr::memchr3;

/// How many bytes stand in front of the first separator. They are searched many at a time.
fn name_length(line: &[u8]) -> usize
    ensures value { result ≡ position_or_len is_separator line.now }
    ensures bound { result ≤ length line.now }
{
    match memchr3(b' ', b'\t', b'\r', line) {
        Some(end) => end,
        None => line.len(),
    }
}

/// Whether a line begins with a field.
fn begins_field(line: &[u8]) -> bool
    ensures { result ≡ begins_field line.now }
{
    match line.first() {
        Some(c) => *c != b' ' && *c != b'\t' && *c != b'\r',
        None => false,
    }
}

/// The first field of a line, and the line behind it; `None` exactly where the line has no field.
fn first_field(line: &[u8]) -> Option<(&[u8], &[u8])>
    ensures { MatchOption result (fields_of line.now ≡ []) (λ p. fields_of line.now ≡ p.0.now ∷ fields_of p.1.now) }
{
    if !begins_field(line) {
        return next_field(line);
    }
    let end = name_length(line);
    Some((&line[..end], &line[end..]))
}

/// The row of a line: its two fields, or nothing where the line is blank. `None` exactly where the line has one field, or
/// more than two. Takes no memory.
fn read_row(line: &[u8]) -> Option<Option<(&[u8], &[u8])>>
    ensures { option_map (option_map (λ p. (p.0.now, p.1.now))) result ≡ row_of (fields_of line.now) }
{
    let Some((first, rest)) = first_field(line) else {
        return Some(None);
    };
    let (second, rest) = next_field(rest)?;
    if next_field(rest).is_some() {
        return None;
    }
    Some(Some((first, second)))
}

/// The name and the number of a line; nothing where the line is blank. Takes no memory.
pub fn read_symbol(line: u64, text: &[u8]) -> Result<Option<(&[u8], u32)>, SymbolsFault>
    requires { All (λ c. is_line_end c ≡ false) text.now }
    ensures read { IsRead (option_map (λ p. (p.0.now, p.1))) result (symbol_of line (fields_of text.now)) }
    ensures name { IfOk result (λ row. IfSome row (λ p. IsName p.0.now)) }
    ensures small { IfOk result (λ row. IfSome row (λ p. p.1 ≤ greatest_label)) }
{
    let Some(row) = read_row(text) else {
        return Err(SymbolsFault::BadColumns { line });
    };
    let Some((name, number)) = row else {
        return Ok(None);
    };
    match read_label(number) {
        Some(number) => Ok(Some((name, number))),
        None => Err(SymbolsFault::BadNumber { line }),
    }
}
