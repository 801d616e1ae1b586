//! The lines in which answers are told.

ghost use Rattle.std.specs.Prelude.{◌≡◌, ◌++◌, OnOk, codes};
ghost use Rattle.std.specs.Fmt.{decimal};
ghost use Rattle.std.specs.List.{flat_map};
ghost use Rattle.fst_batch.specs.AnswerText.{answer_text, path_line, reason_of};

use crate::answer::{Answer, Answers, LineAnswer};
use crate::fault::LineFault;
use fst_semiring::Weight;
use itoa::Buffer;
use std::alloc::AllocError;

/// Appends a number in decimal digits.
pub fn put_number(out: &mut Vec<u8>, number: u64) -> Result<(), AllocError>
    ensures { OnOk result (out.new.items ≡ out.old.items ++ decimal number) }
{
    let mut buffer = Buffer::new();
    out.extend_from_slice(buffer.format(number).as_bytes())
}

/// Appends a reason that names a number.
fn put_numbered(
    out: &mut Vec<u8>,
    before: &[u8],
    number: u32,
    behind: &[u8],
) -> Result<(), AllocError>
    ensures { OnOk result (out.new.items ≡ out.old.items ++ (before.now ++ decimal number ++ behind.now)) }
{
    out.extend_from_slice(before)?;
    put_number(out, u64::from(number))?;
    out.extend_from_slice(behind)
}

/// Appends why a line is refused.
fn put_reason(out: &mut Vec<u8>, fault: LineFault) -> Result<(), AllocError>
    ensures { OnOk result (out.new.items ≡ out.old.items ++ reason_of fault) }
{
    match fault {
        LineFault::BadByte => out.extend_from_slice(b"byte 0 in the line"),
        LineFault::StateLimit { limit } => put_numbered(out, b"state limit ", limit, b" passed"),
        LineFault::TooManyArcs => out.extend_from_slice(b"too many arcs"),
        LineFault::ImprovingCycle => out.extend_from_slice(b"improving cycle"),
        LineFault::Overflow => out.extend_from_slice(b"number too large"),
        LineFault::NotText { label } => put_numbered(out, b"label ", label, b" is not text"),
    }
}

/// Appends the line of a path.
fn put_path_line<W: Weight>(
    out: &mut Vec<u8>,
    number: u64,
    answer: &Answer<W>,
) -> Result<(), AllocError>
    ensures { OnOk result (out.new.items ≡ out.old.items ++ path_line W.KIND W.value number answer.now) }
{
    put_number(out, number)?;
    out.push(b'\t')?;
    answer.weight.push_text(out)?;
    out.push(b'\t')?;
    out.extend_from_slice(answer.text.as_slice())?;
    out.push(b'\n')?;
    Ok(())
}

/// Appends the lines of paths.
fn put_path_lines<W: Weight>(
    out: &mut Vec<u8>,
    number: u64,
    answers: &Answers<W>,
) -> Result<(), AllocError>
    ensures { OnOk result (out.new.items ≡ out.old.items ++ flat_map (path_line W.KIND W.value number) answers.now) }
{
    for place in 0..answers.len() {
        put_path_line(out, number, answers.item(place))?;
    }
    Ok(())
}

/// Appends the lines of the answer of a line with this number, from 1: for each path the number, its weight and its text, with
/// tabs between; where there is none, the number and `none`; where the line is refused, the number, `!` and the reason.
pub fn put_answer_lines<W: Weight>(
    out: &mut Vec<u8>,
    number: u64,
    answer: &LineAnswer<W>,
) -> Result<(), AllocError>
    ensures { OnOk result (out.new.items ≡ out.old.items ++ answer_text W.KIND W.value number answer.now) }
{
    match answer {
        LineAnswer::Listed(answers) => {
            if answers.len() > 0 {
                return put_path_lines(out, number, answers);
            }
            put_number(out, number)?;
            out.extend_from_slice(b"\tnone\n")
        }
        LineAnswer::Refused(fault) => {
            put_number(out, number)?;
            out.extend_from_slice(b"\t!\t")?;
            put_reason(out, *fault)?;
            out.push(b'\n')?;
            Ok(())
        }
    }
}
