//! The name of an arc type.

ghost use Rattle.std.specs.Prelude.{◌≡◌, ◌≤◌, length, IfOk};
ghost use Rattle.fst_semiring.specs.Names.{known};
ghost use Rattle.fst_bytes.specs.Reading.{arc_type_at, named_at, number_where};

use crate::fault::{FileFault, fault_at};
use crate::number::{read_bytes, read_word};
use fst_semiring::ArcType;

/// The arc type whose name stands at an offset after its length, and the offset after it. A length that no arc type's
/// name has is refused before the name is read.
#[tactic(auto, unfolding(crate::specs::Reading::named_at, crate::specs::Reading::number_where))]
pub fn read_arc_type<K: Copy>(
    bytes: &[u8],
    at: usize,
    short: K,
    wrong: K,
) -> Result<(ArcType, usize), FileFault<K>>
    requires { at ≤ length bytes.now }
    ensures value { result ≡ arc_type_at known short wrong bytes.now at }
    ensures after { IfOk result (λ x. x.1 ≤ length bytes.now) }
{
    let (count, next) = read_word(bytes, at, short)?;
    if !ArcType::is_length_of_name(count as usize) {
        return Err(fault_at(at, wrong));
    }
    let (name, next) = read_bytes(bytes, next, count as usize, short)?;
    match ArcType::named(name) {
        Some(kind) => Ok((kind, next)),
        None => Err(fault_at(at, wrong)),
    }
}
