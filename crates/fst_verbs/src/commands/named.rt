//! Lines of a text: a name, a tab and a value.

ghost use Rattle.std.specs.Prelude.{◌≡◌, ◌++◌, OnOk, string_bytes};
ghost use Rattle.fst_verbs.specs.Descriptions.{named_line};

use itoa::{Buffer, Integer};
use std::alloc::AllocError;

/// Appends a line.
pub(crate) fn add_line(text: &mut String, name: &str, value: &str) -> Result<(), AllocError>
    ensures { OnOk result (string_bytes text.new ≡ string_bytes text.old ++ named_line name.now value.now) }
{
    writeln!(text, "{name}\t{value}")
}

/// Appends the line of a number.
pub(crate) fn add_number<I: Integer>(
    text: &mut String,
    name: &str,
    number: I,
) -> Result<(), AllocError>
    ensures { OnOk result (string_bytes text.new ≡ string_bytes text.old ++ named_line name.now (I.text number)) }
{
    let mut buffer = Buffer::new();
    add_line(text, name, buffer.format(number))
}
