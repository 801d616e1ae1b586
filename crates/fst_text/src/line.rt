//! A line in a room of its own, written from its end to its front, so that a number is written at once where it stands.

ghost use Rattle.std.specs.Prelude.{◌≡◌, ◌≤◌, ◌+◌, ◌∷◌, ◌++◌, [], true, drop, if◌then◌else◌, IfSome};
ghost use Rattle.std.specs.Fmt.{decimal, signed_decimal};
ghost use Rattle.fst_machine.specs.Machine.{valued_arc};
ghost use Rattle.fst_semiring.specs.WeightText.{text_of_cost};
ghost use Rattle.fst_text.specs.Printed.{behind_tabs, is_one, label_fields, is_numbered, weight_fields};

use crate::options::TextOptions;
use fst_machine::FstArc;
use fst_semiring::Weight;
use itoa::write_digits;

/// The room of a line: four numbers of up to ten digits and one of up to nineteen with a sign, a tab behind each but
/// the last, and a line feed.
pub(crate) const LINE_ROOM: usize = 65;

/// Whether a weight is One.
fn is_one<W: Weight>(weight: W) -> bool
    ensures { result ≡ is_one W.KIND (W.value weight) }
{
    weight.compare(W::one()).is_eq()
}

/// Whether the field of a weight is printed: One is left out unless it is to be shown.
pub(crate) fn is_shown<W: Weight>(options: &TextOptions, weight: W) -> bool
    ensures { weight_fields W.KIND options.now (W.value weight) ≡ (if result then text_of_cost W.KIND (W.value weight) ∷ [] else []) }
{
    options.show_weight_one || !is_one::<W>(weight)
}

/// Writes a number so that it ends at `end`. Where it starts.
#[inline(always)]
pub(crate) fn write_number(line: &mut [u8; LINE_ROOM], end: usize, number: u32) -> usize
    requires { (10 ≤ end) × (end ≤ 65) }
    ensures start { (end ≤ result + 10) × (result ≤ end) }
    ensures written { drop result line.new ≡ decimal number ++ drop end line.old }
{
    write_digits(u64::from(number), line, end)
}

/// Writes a tab and a number so that they end at `end`. Where they start.
#[inline(always)]
pub(crate) fn write_field(line: &mut [u8; LINE_ROOM], end: usize, number: u32) -> usize
    requires { (11 ≤ end) × (end ≤ 65) }
    ensures start { (end ≤ result + 11) × (result ≤ end) }
    ensures written { drop result line.new ≡ 9 ∷ decimal number ++ drop end line.old }
{
    let start = write_number(line, end, number) - 1;
    line[start] = b'\t';
    start
}

/// Writes a number at the end of the room. Where it starts.
pub(crate) fn write_last_number(line: &mut [u8; LINE_ROOM], number: u32) -> usize
    ensures start { result ≤ 65 }
    ensures written { drop result line.new ≡ decimal number }
{
    write_number(line, LINE_ROOM, number)
}

/// Writes a tab and a number at the end of the room. Where they start.
pub(crate) fn write_last_field(line: &mut [u8; LINE_ROOM], number: u32) -> usize
    ensures start { (54 ≤ result) × (result ≤ 65) }
    ensures written { drop result line.new ≡ 9 ∷ decimal number }
{
    write_field(line, LINE_ROOM, number)
}

/// Writes a number with its sign so that it ends at `end`. Where it starts.
#[inline(always)]
fn write_signed(line: &mut [u8; LINE_ROOM], end: usize, number: i64) -> usize
    requires { (20 ≤ end) × (end ≤ 65) }
    ensures start { (end ≤ result + 20) × (result ≤ end) }
    ensures written { drop result line.new ≡ signed_decimal number ++ drop end line.old }
{
    let start = write_digits(number.unsigned_abs(), line, end);
    if number >= 0 {
        return start;
    }
    line[start - 1] = b'-';
    start - 1
}

/// Writes a tab and a number with its sign so that they end at `end`. Where they start.
#[inline(always)]
fn write_signed_field(line: &mut [u8; LINE_ROOM], end: usize, number: i64) -> usize
    requires { (21 ≤ end) × (end ≤ 65) }
    ensures start { (end ≤ result + 21) × (result ≤ end) }
    ensures written { drop result line.new ≡ 9 ∷ signed_decimal number ++ drop end line.old }
{
    let start = write_signed(line, end, number) - 1;
    line[start] = b'\t';
    start
}

/// Writes the end of a line whose weight is a single number: the field of the weight, where it is not left out, and a
/// line feed. Where it starts; `None` where the weight is no single number.
#[inline(always)]
pub(crate) fn write_weight<W: Weight>(
    line: &mut [u8; LINE_ROOM],
    options: &TextOptions,
    weight: W,
) -> Option<usize>
    ensures start { IfSome result (λ start. (43 ≤ start) × (start ≤ 65)) }
    ensures written { IfSome result (λ start. drop start line.new ≡ behind_tabs (weight_fields W.KIND options.now (W.value weight)) ++ 10 ∷ []) }
{
    let number = weight.single_number()?;
    line[LINE_ROOM - 1] = b'\n';
    if is_shown::<W>(options, weight) {
        Some(write_signed_field(line, LINE_ROOM - 1, number))
    } else {
        Some(LINE_ROOM - 1)
    }
}

/// Writes the fields of the labels of an arc, which are numbers, so that they end at `end`. Where they start.
#[inline(always)]
fn write_labels<W: Weight>(
    line: &mut [u8; LINE_ROOM],
    end: usize,
    options: &TextOptions,
    arc: &FstArc<W>,
) -> usize
    requires numbered { is_numbered options.now ≡ true }
    requires room { (22 ≤ end) × (end ≤ 65) }
    ensures start { (end ≤ result + 22) × (result ≤ end) }
    ensures written { drop result line.new ≡ behind_tabs (label_fields options.now (valued_arc W.value arc.now)) ++ drop end line.old }
{
    let end = if options.acceptor {
        end
    } else {
        write_field(line, end, arc.olabel)
    };
    write_field(line, end, arc.ilabel)
}

/// Writes the line of an arc whose labels are numbers up to the field of its weight, so that it ends at `end`. Where it
/// starts.
#[inline(always)]
pub(crate) fn write_arc<W: Weight>(
    line: &mut [u8; LINE_ROOM],
    end: usize,
    options: &TextOptions,
    state: u32,
    arc: &FstArc<W>,
) -> usize
    requires numbered { is_numbered options.now ≡ true }
    requires room { (43 ≤ end) × (end ≤ 65) }
    ensures start { result ≤ end }
    ensures written { drop result line.new ≡ decimal state ++ behind_tabs (decimal arc.now.next ∷ []) ++ behind_tabs (label_fields options.now (valued_arc W.value arc.now)) ++ drop end line.old }
{
    let labels = write_labels::<W>(line, end, options, arc);
    let next = write_field(line, labels, arc.next);
    write_number(line, next, state)
}

/// Writes the line of an arc whose labels are numbers up to the field of its weight at the end of the room. Where it
/// starts.
pub(crate) fn write_last_arc<W: Weight>(
    line: &mut [u8; LINE_ROOM],
    options: &TextOptions,
    state: u32,
    arc: &FstArc<W>,
) -> usize
    requires numbered { is_numbered options.now ≡ true }
    ensures start { result ≤ 65 }
    ensures written { drop result line.new ≡ decimal state ++ behind_tabs (decimal arc.now.next ∷ []) ++ behind_tabs (label_fields options.now (valued_arc W.value arc.now)) }
{
    write_arc::<W>(line, LINE_ROOM, options, state, arc)
}
