//! The first line of a text and the first field of a line.

ghost use Rattle.std.specs.Prelude.{◌≡◌, ◌∷◌, [], ◌<◌, ◌≤◌, true, MatchOption, IfSome, length};
ghost use Rattle.std.specs.Option.{option_map};
ghost use Rattle.std.specs.List.{prefix_len, position_or_len};
ghost use Rattle.fst_fields.specs.Lines.{lines_of, fields_of, begins_field, is_separator, is_line_end};
ghost use Rattle.fst_fields.specs.Texts.{row_of};

use memchr::memchr;

/// How many bytes the first line of a text has.
fn line_length(text: &[u8]) -> usize
    ensures value { result ≡ position_or_len is_line_end text.now }
    ensures bound { result ≤ length text.now }
{
    match memchr(b'\n', text) {
        Some(end) => end,
        None => text.len(),
    }
}

/// The first line of a text, without the byte 10 that ends it, and the text behind it. `None` exactly
/// where the text is empty. Takes no memory, and time by the length of the line.
pub fn next_line(text: &[u8]) -> Option<(&[u8], &[u8])>
    ensures lines { MatchOption result (lines_of text.now ≡ []) (λ p. lines_of text.now ≡ p.0.now ∷ lines_of p.1.now) }
    ensures shorter { IfSome result (λ p. length p.1.now < length text.now) }
{
    if text.is_empty() {
        return None;
    }
    let end = line_length(text);
    if end < text.len() {
        Some((&text[..end], &text[end + 1..]))
    } else {
        Some((text, &text[text.len()..]))
    }
}

/// Whether a byte separates fields: a space, a tab or a carriage return.
fn separates(c: u8) -> bool
    ensures { result ≡ is_separator c }
{
    c == b' ' || c == b'\t' || c == b'\r'
}

/// How many separators stand in front of the first field.
fn separators(line: &[u8]) -> usize
    ensures value { result ≡ prefix_len is_separator line.now }
    ensures bound { result ≤ length line.now }
{
    for (i, c) in line.iter().enumerate() {
        if !separates(*c) {
            return i;
        }
    }
    line.len()
}

/// How many bytes stand in front of the first separator.
fn field_length(line: &[u8]) -> usize
    ensures value { result ≡ position_or_len is_separator line.now }
    ensures bound { result ≤ length line.now }
{
    for (i, c) in line.iter().enumerate() {
        if separates(*c) {
            return i;
        }
    }
    line.len()
}

/// The line from its first field on.
fn skip_separators(line: &[u8]) -> &[u8]
    ensures fields { fields_of result.now ≡ fields_of line.now }
    ensures begins { 0 < length result.now → begins_field result.now ≡ true }
{
    let start = separators(line);
    &line[start..]
}

/// The first field of a line, without the separators around it, and the line behind it. `None` exactly
/// where the line has no field. Takes no memory, and time by the length of what it skips and gives.
pub fn next_field(line: &[u8]) -> Option<(&[u8], &[u8])>
    ensures fields { MatchOption result (fields_of line.now ≡ []) (λ p. fields_of line.now ≡ p.0.now ∷ fields_of p.1.now) }
    ensures filled { IfSome result (λ p. 0 < length p.0.now) }
{
    let line = skip_separators(line);
    if line.is_empty() {
        return None;
    }
    let end = field_length(line);
    Some((&line[..end], &line[end..]))
}

/// The row of a line: its two fields, or nothing where the line is blank. `None` exactly where the line has one
/// field, or more than two. Takes no memory.
pub fn read_row(line: &[u8]) -> Option<Option<(&[u8], &[u8])>>
    ensures { option_map (option_map (λ p. (p.0.now, p.1.now))) result ≡ row_of (fields_of line.now) }
{
    let Some((first, rest)) = next_field(line) else {
        return Some(None);
    };
    let (second, rest) = next_field(rest)?;
    if next_field(rest).is_some() {
        return None;
    }
    Some(Some((first, second)))
}
