//! Weight fields: a tag and the numbers after it.

ghost use Rattle.std.specs.Prelude.{◌≡◌, ◌≢◌, ◌≤◌, ◌++◌, ◌+◌, ◌*◌, ◌&&◌, length, drop, ℕ, List, IsOkAnd, Some, None, Ok, Err, true, false, vec_capacity, IfOk, IfSome, IfNone, OnOk, OnErr, if◌then◌else◌};
ghost use Rattle.std.specs.Option.{option_map};
ghost use Rattle.std.specs.List.{list_all};
ghost use Rattle.std.specs.Result.{result_map_both};
ghost use Rattle.fst_semiring.specs.Cost.{Cost, best, finite, infinite, is_infinite};
ghost use Rattle.fst_semiring.specs.Keys.{key_of};
ghost use Rattle.fst_bytes.specs.Spelling.{HasField, weight_field};
ghost use Rattle.fst_bytes.specs.Reading.{cost_of_numbers, file_weight_at, has_best, integer_at, integers_at, is_small, non_zero_weight_at, number_count, numbers_at, weight_at};

use crate::appending::append_signed;
use crate::fault::{FileFault, WeightFieldFault, fault_at, short_of};
use byteorder::{ByteOrder, LittleEndian};
use fst_fields::append;
use fst_semiring::{ArcType, Key, LIMIT, Weight, is_zero};
use std::alloc::AllocError;

/// Whether a number may stand in a weight.
fn is_in_range(number: i64) -> bool
    ensures { result ≡ is_small number }
{
    -LIMIT <= number && number <= LIMIT
}

/// How many numbers stand after the tag 1.
fn count_of_numbers(kind: ArcType) -> usize
    ensures { result ≡ number_count kind }
{
    match kind {
        ArcType::Boolean => 0,
        ArcType::Tropical | ArcType::MinMax => 1,
        ArcType::Lexicographic => 2,
    }
}

/// Whether the arc type has the tag 2.
fn has_tag_of_best(kind: ArcType) -> bool
    ensures { result ≡ has_best kind }
{
    match kind {
        ArcType::MinMax => true,
        _ => false,
    }
}

/// The number with a sign in the eight bytes at an offset.
#[tactic(auto, unfolding(crate::specs::Reading::integer_at))]
fn read_integer(bytes: &[u8], at: usize) -> i64
    requires { at + 8 ≤ length bytes.now }
    ensures { result ≡ integer_at bytes.now at }
{
    LittleEndian::read_i64(&bytes[at..])
}

/// The key with the numbers after the tag 1; 0 for those that the arc type does not have. `None` where one of them may
/// not stand in a weight.
fn read_key(kind: ArcType, bytes: &[u8], at: usize) -> Option<Key>
    requires { at + 8 * number_count kind ≤ length bytes.now }
    ensures { result ≡ (if list_all is_small (integers_at (number_count kind) bytes.now at) then Some (key_of (cost_of_numbers (integers_at (number_count kind) bytes.now at))) else None) }
{
    match kind {
        ArcType::Boolean => key_of_numbers(0, 0),
        ArcType::Tropical | ArcType::MinMax => key_of_numbers(read_integer(bytes, at), 0),
        ArcType::Lexicographic => key_of_numbers(
            read_integer(bytes, at),
            read_integer(bytes, at + 8),
        ),
    }
}

/// The key of a number, or of a pair of numbers, where they may stand in a weight.
fn key_of_numbers(first: i64, second: i64) -> Option<Key>
    ensures { result ≡ (if is_small first && is_small second then Some (key_of (finite first second)) else None) }
{
    if !is_in_range(first) || !is_in_range(second) {
        return None;
    }
    Some(Key {
        class: 1,
        first: i128::from(first),
        second: i128::from(second),
    })
}

/// The weight with the numbers after the tag 1, all of which stand there. `None` where one of them may not stand in a
/// weight.
fn weight_of_numbers<W: Weight>(bytes: &[u8], at: usize) -> Option<W>
    requires { at + 8 * number_count W.KIND ≤ length bytes.now }
    ensures found { IfSome result (λ w. numbers_at W.KIND bytes.now at ≡ Ok (W.value w, at + 8 * number_count W.KIND)) }
    ensures value { IfSome result (λ w. W.value w ≡ cost_of_numbers (integers_at (number_count W.KIND) bytes.now at)) }
    ensures none { IfNone result (numbers_at W.KIND bytes.now at ≡ Err WeightFieldFault.BadWeight) }
{
    match read_key(W::KIND, bytes, at) {
        Some(key) => W::from_key(key),
        None => None,
    }
}

/// The weight with the numbers after the tag 1, and the offset after them.
#[tactic(auto, unfolding(crate::specs::Reading::numbers_at))]
fn read_numbers<W: Weight>(bytes: &[u8], at: usize) -> Result<(W, usize), WeightFieldFault>
    requires { at ≤ length bytes.now }
    ensures value { result_map_both (λ x. (W.value x.0, x.1)) (λ e. e) result ≡ numbers_at W.KIND bytes.now at }
    ensures after { IfOk result (λ x. x.1 ≤ length bytes.now) }
{
    let len = 8 * count_of_numbers(W::KIND);
    if bytes.len() - at < len {
        return Err(WeightFieldFault::Short);
    }
    match weight_of_numbers(bytes, at) {
        Some(weight) => Ok((weight, at + len)),
        None => Err(WeightFieldFault::BadWeight),
    }
}

/// The One of min-max, the best value.
fn best_weight<W: Weight>() -> Option<W>
    ensures { option_map (λ w. W.value w) result ≡ (if has_best W.KIND then Some best else None) }
{
    if !has_tag_of_best(W::KIND) {
        return None;
    }
    let key = Key {
        class: 0,
        first: 0,
        second: 0,
    };
    W::from_key(key)
}

/// The weight of the field at an offset, and the offset after it.
#[tactic(auto, unfolding(crate::specs::Reading::weight_at))]
fn read_field<W: Weight>(bytes: &[u8], offset: usize) -> Result<(W, usize), WeightFieldFault>
    requires { offset ≤ length bytes.now }
    ensures value { result_map_both (λ x. (W.value x.0, x.1)) (λ e. e) result ≡ weight_at W.KIND bytes.now offset }
    ensures after { IfOk result (λ x. x.1 ≤ length bytes.now) }
{
    if offset == bytes.len() {
        return Err(WeightFieldFault::Short);
    }
    let next = offset + 1;
    match bytes[offset] {
        0 => Ok((W::zero(), next)),
        1 => read_numbers(bytes, next),
        2 => match best_weight() {
            Some(weight) => Ok((weight, next)),
            None => Err(WeightFieldFault::BadWeight),
        },
        _ => Err(WeightFieldFault::BadWeight),
    }
}

/// How many bytes a weight field with the tag 1 takes. Each weight of the arc type has such a field but Zero and the best
/// value.
pub fn numbered_length(kind: ArcType) -> usize
    ensures { result ≡ 1 + 8 * number_count kind }
{
    1 + 8 * count_of_numbers(kind)
}

/// The weight of the field at an offset, all of which stands there if its tag is 1. `None` where it has another tag, or is
/// wrong: `read_weight_field` tells these apart. Takes no memory.
#[tactic(auto, unfolding(crate::specs::Reading::weight_at))]
pub fn read_numbered<W: Weight>(bytes: &[u8], at: usize) -> Option<W>
    requires { at + 1 + 8 * number_count W.KIND ≤ length bytes.now }
    ensures found { IfSome result (λ w. weight_at W.KIND bytes.now at ≡ Ok (W.value w, at + 1 + 8 * number_count W.KIND)) }
    ensures not_zero { IfSome result (λ w. is_infinite (W.value w) ≡ false) }
{
    if bytes[at] != 1 {
        return None;
    }
    weight_of_numbers(bytes, at + 1)
}

/// The weight whose field begins at an offset, and the offset after the field. Takes no memory.
pub fn read_weight_field<W: Weight>(
    bytes: &[u8],
    offset: usize,
) -> Result<(W, usize), WeightFieldFault>
    requires { offset ≤ length bytes.now }
    // What is read stands there.
    ensures found { IfOk result (λ x. drop offset bytes.now ≡ weight_field W.KIND (W.value x.0) ++ drop x.1 bytes.now) }
    // What stands there is read.
    ensures only { (v : Cost) (rest : List ℕ) → HasField W.KIND v → drop offset bytes.now ≡ weight_field W.KIND v ++ rest → IsOkAnd result (λ x. (W.value x.0 ≡ v) × (drop x.1 bytes.now ≡ rest)) }
    // Which fault it is.
    ensures exact { result_map_both (λ x. (W.value x.0, x.1)) (λ e. e) result ≡ weight_at W.KIND bytes.now offset }
    ensures after { IfOk result (λ x. x.1 ≤ length bytes.now) }
{
    read_field(bytes, offset)
}

/// The weight whose field begins at an offset of a file, and the offset after the field.
#[tactic(auto, unfolding(crate::specs::Reading::file_weight_at))]
pub fn read_weight<W: Weight, K: Copy>(
    bytes: &[u8],
    at: usize,
    short: K,
    wrong: K,
) -> Result<(W, usize), FileFault<K>>
    requires { at ≤ length bytes.now }
    ensures value { result_map_both (λ x. (W.value x.0, x.1)) (λ e. e) result ≡ file_weight_at W.KIND short wrong bytes.now at }
    ensures after { IfOk result (λ x. x.1 ≤ length bytes.now) }
{
    match read_field(bytes, at) {
        Ok(read) => Ok(read),
        Err(WeightFieldFault::Short) => Err(short_of(bytes, short)),
        Err(WeightFieldFault::BadWeight) => Err(fault_at(at, wrong)),
    }
}

/// The same of a weight that is not Zero.
#[tactic(auto, unfolding(crate::specs::Reading::non_zero_weight_at))]
pub fn read_non_zero_weight<W: Weight, K: Copy>(
    bytes: &[u8],
    at: usize,
    short: K,
    wrong: K,
) -> Result<(W, usize), FileFault<K>>
    requires { at ≤ length bytes.now }
    ensures value { result_map_both (λ x. (W.value x.0, x.1)) (λ e. e) result ≡ non_zero_weight_at W.KIND short wrong bytes.now at }
    ensures not_zero { IfOk result (λ x. W.value x.0 ≢ infinite) }
    ensures after { IfOk result (λ x. x.1 ≤ length bytes.now) }
{
    let (weight, next) = read_weight(bytes, at, short, wrong)?;
    if is_zero(weight) {
        return Err(fault_at(at, wrong));
    }
    Ok((weight, next))
}

/// How many bytes the field of a weight takes, at most 17. Takes no memory.
pub fn weight_length<W: Weight>(weight: W) -> usize
    ensures value { result ≡ length (weight_field W.KIND (W.value weight)) }
    ensures bound { result ≤ 17 }
    ensures fits { HasField W.KIND (W.value weight) }
{
    // Of the wide form it is known that the weight has a field.
    let wide = weight.widen();
    match weight.single_number() {
        Some(_number) => 9,
        None if W::key(wide).class == 1 => 1 + 8 * count_of_numbers(W::KIND),
        None => 1,
    }
}

/// Appends the field of a weight where there is room.
pub fn append_weight<W: Weight>(out: &mut Vec<u8>, weight: W)
    requires { length out.old.items + length (weight_field W.KIND (W.value weight)) ≤ vec_capacity out.old }
    ensures items { out.new.items ≡ out.old.items ++ weight_field W.KIND (W.value weight) }
    ensures room { vec_capacity out.old ≤ vec_capacity out.new }
{
    let key = W::key(weight.widen());
    match key.class {
        0 => append(out, &[2]),
        1 => append_numbers(out, W::KIND, key.first as i64, key.second as i64),
        _ => append(out, &[0]),
    }
}

/// Appends the tag 1 and the numbers after it where there is room.
fn append_numbers(out: &mut Vec<u8>, kind: ArcType, first: i64, second: i64)
    requires { length out.old.items + length (weight_field kind (finite first second)) ≤ vec_capacity out.old }
    ensures items { out.new.items ≡ out.old.items ++ weight_field kind (finite first second) }
    ensures room { vec_capacity out.old ≤ vec_capacity out.new }
{
    append(out, &[1]);
    match kind {
        ArcType::Boolean => {}
        ArcType::Tropical | ArcType::MinMax => append_signed(out, first),
        ArcType::Lexicographic => {
            append_signed(out, first);
            append_signed(out, second);
        }
    }
}

/// Appends the field of a weight. An `Err` changes nothing.
pub fn push_weight_field<W: Weight>(out: &mut Vec<u8>, weight: W) -> Result<(), AllocError>
    ensures ok { OnOk result (out.new.items ≡ out.old.items ++ weight_field W.KIND (W.value weight)) }
    ensures err { OnErr result (out.new.items ≡ out.old.items) }
{
    out.reserve(weight_length(weight))?;
    append_weight(out, weight);
    Ok(())
}
