//! The machine of a text.

ghost use Rattle.std.specs.Prelude.{◌≡◌, ◌/◌, IfOk};
ghost use Rattle.fst_fields.specs.Texts.{IsRead};
ghost use Rattle.fst_machine.specs.Machine.{valued};
ghost use Rattle.fst_text.specs.Grammar.{Gives, machine_of_text};
ghost use Rattle.fst_text.specs.Building.{built, built_of_text};

use crate::builder::Builder;
use crate::fault::TextFault;
use crate::options::TextOptions;
use fst_machine::Fst;
use fst_semiring::Weight;
use std::alloc::{AllocError, Global};

/// The written numbers below this are looked up in a table by number: most are, since a line of an arc has at least
/// eight bytes. The table takes at most a quarter as much memory as the text.
fn table_bound(bytes: usize) -> usize
    ensures { result ≡ bytes / 16 }
{
    bytes / 16
}

/// What the lines of a text build, or the first fault of the first faulty line.
fn read_lines<W: Weight>(
    alloc: Global,
    text: &[u8],
    options: &TextOptions,
) -> Result<Result<Builder<W>, TextFault>, AllocError>
    ensures { IfOk result (λ r. IsRead (built W.value) r (built_of_text W.KIND options.now text.now)) }
{
    let mut builder = Builder::new(alloc, table_bound(text.len()));
    let mut rest = text;
    let mut line: u64 = 0;
    while !rest.is_empty() {
        line += 1;
        let (read, behind) = builder.first_line(options, line, rest)?;
        match read {
            Ok(()) => {}
            Err(fault) => return Ok(Err(fault)),
        }
        rest = behind;
    }
    Ok(Ok(builder))
}

/// The machine of a text, with states numbered in the order of first appearance, the source of an arc
/// before its destination, or with the written numbers where `keep_state_numbering` is set. The first state
/// of the text is the start; a text of blank lines is the machine with no states. Reads the text once, and
/// takes memory by the machine, and at most a quarter as much as the text for the numbers below a sixteenth
/// of its length. A fault is the first one of the first faulty line; `Memory` where memory runs out.
pub fn compile<W: Weight>(
    alloc: Global,
    bytes: &[u8],
    options: &TextOptions,
) -> Result<Fst<W>, TextFault>
    ensures { Gives (valued W.value) result (machine_of_text W.KIND options.now bytes.now) }
{
    match read_lines::<W>(alloc, bytes, options) {
        Ok(Ok(builder)) => Ok(builder.into_machine()),
        Ok(Err(fault)) => Err(fault),
        Err(_) => Err(TextFault::Memory),
    }
}
