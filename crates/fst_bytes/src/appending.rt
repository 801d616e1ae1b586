//! Fields at the end of a vector: where it has room for them, and where it may have to grow.

ghost use Rattle.std.specs.Prelude.{◌≡◌, ◌≤◌, ◌++◌, ◌+◌, ◌<◌, OnOk, length, vec_capacity};
ghost use Rattle.fst_bytes.specs.Spelling.{long, signed, text, word};
ghost use Rattle.fst_semiring.specs.Names.{name_of};

use byteorder::{ByteOrder, LittleEndian};
use fst_fields::append;
use fst_semiring::ArcType;
use std::alloc::AllocError;

/// Appends a number in four bytes where there is room.
#[tactic(auto, unfolding(crate::specs::Spelling::word))]
pub fn append_word(out: &mut Vec<u8>, number: u32)
    requires { length out.old.items + 4 ≤ vec_capacity out.old }
    ensures items { out.new.items ≡ out.old.items ++ word number }
    ensures len { length out.new.items ≡ length out.old.items + 4 }
    ensures room { vec_capacity out.old ≤ vec_capacity out.new }
{
    let mut bytes = [0; 4];
    LittleEndian::write_u32(&mut bytes, number);
    append(out, &bytes);
}

/// Appends a number in eight bytes where there is room.
#[tactic(auto, unfolding(crate::specs::Spelling::long))]
pub fn append_long(out: &mut Vec<u8>, number: u64)
    requires { length out.old.items + 8 ≤ vec_capacity out.old }
    ensures items { out.new.items ≡ out.old.items ++ long number }
    ensures len { length out.new.items ≡ length out.old.items + 8 }
    ensures room { vec_capacity out.old ≤ vec_capacity out.new }
{
    let mut bytes = [0; 8];
    LittleEndian::write_u64(&mut bytes, number);
    append(out, &bytes);
}

/// Appends a number with a sign in eight bytes where there is room.
#[tactic(auto, unfolding(crate::specs::Spelling::signed, crate::specs::Spelling::long))]
pub fn append_signed(out: &mut Vec<u8>, number: i64)
    requires { length out.old.items + 8 ≤ vec_capacity out.old }
    ensures items { out.new.items ≡ out.old.items ++ signed number }
    ensures len { length out.new.items ≡ length out.old.items + 8 }
    ensures room { vec_capacity out.old ≤ vec_capacity out.new }
{
    append_long(out, number.cast_unsigned());
}

/// Appends a text after its length where there is room.
pub fn append_text(out: &mut Vec<u8>, bytes: &[u8])
    requires room { length out.old.items + 4 + length bytes.now ≤ vec_capacity out.old }
    requires short { length bytes.now < 4294967296 }
    ensures items { out.new.items ≡ out.old.items ++ text bytes.now }
    ensures len { length out.new.items ≡ length out.old.items + 4 + length bytes.now }
    ensures room { vec_capacity out.old ≤ vec_capacity out.new }
{
    append_word(out, bytes.len() as u32);
    append(out, bytes);
}

/// Appends the name of an arc type after its length where there is room.
pub fn append_arc_type(out: &mut Vec<u8>, kind: ArcType)
    requires { length out.old.items + 4 + length (name_of kind) ≤ vec_capacity out.old }
    ensures items { out.new.items ≡ out.old.items ++ text (name_of kind) }
    ensures len { length out.new.items ≡ length out.old.items + 4 + length (name_of kind) }
    ensures room { vec_capacity out.old ≤ vec_capacity out.new }
{
    append_text(out, kind.name().as_bytes());
}

/// Appends a number in four bytes.
pub fn push_word(out: &mut Vec<u8>, number: u32) -> Result<(), AllocError>
    ensures { OnOk result (out.new.items ≡ out.old.items ++ word number) }
{
    out.reserve(4)?;
    append_word(out, number);
    Ok(())
}

/// Appends a number in eight bytes.
pub fn push_long(out: &mut Vec<u8>, number: u64) -> Result<(), AllocError>
    ensures { OnOk result (out.new.items ≡ out.old.items ++ long number) }
{
    out.reserve(8)?;
    append_long(out, number);
    Ok(())
}

/// Appends the name of an arc type after its length.
pub fn push_arc_type(out: &mut Vec<u8>, kind: ArcType) -> Result<(), AllocError>
    ensures { OnOk result (out.new.items ≡ out.old.items ++ text (name_of kind)) }
{
    out.reserve(4 + kind.name().len())?;
    append_arc_type(out, kind);
    Ok(())
}
