//! The printed form of a wide weight.

ghost use Rattle.std.specs.Prelude.{◌≡◌, ◌++◌, OnOk};
ghost use Rattle.fst_semiring.specs.WeightText.{text_of_cost};
ghost use Rattle.fst_verbs.specs.KeyText.{key_text, part_text};

use fst_semiring::{ArcType, Key, Weight};
use itoa::Buffer;
use std::alloc::AllocError;

/// Appends a number of a weight of this class, or the infinity that stands in its place.
fn push_part(out: &mut Vec<u8>, class: u8, number: i128) -> Result<(), AllocError>
    ensures { OnOk result (out.new.items ≡ out.old.items ++ part_text class number) }
{
    match class {
        0 => out.extend_from_slice(b"-Infinity"),
        1 => {
            let mut buffer = Buffer::new();
            out.extend_from_slice(buffer.format(number).as_bytes())
        }
        _ => out.extend_from_slice(b"Infinity"),
    }
}

/// Appends the printed form of the weight of this arc type that has the key.
fn push_key(out: &mut Vec<u8>, kind: ArcType, key: Key) -> Result<(), AllocError>
    ensures { OnOk result (out.new.items ≡ out.old.items ++ key_text kind key) }
{
    match kind {
        ArcType::Boolean => {
            let text = if key.class == 2 { b"0" } else { b"1" };
            out.extend_from_slice(text.as_slice())
        }
        ArcType::Tropical | ArcType::MinMax => push_part(out, key.class, key.first),
        ArcType::Lexicographic => {
            push_part(out, key.class, key.first)?;
            out.push(b',')?;
            push_part(out, key.class, key.second)
        }
    }
}

/// Appends the printed form of a wide weight, whose numbers stand in full also past 10 to the 18.
pub(crate) fn push_wide<W: Weight>(out: &mut Vec<u8>, wide: W::Wide) -> Result<(), AllocError>
    ensures { OnOk result (out.new.items ≡ out.old.items ++ text_of_cost W.KIND (W.wide_value wide)) }
{
    push_key(out, W::KIND, W::key(wide))
}
