//! Reading machines and codices of any arc type.

ghost use Rattle.fst_binary.specs.Reading.{Gives};
ghost use Rattle.fst_codex.specs.Reading.{Gives as GivesCodex};
ghost use Rattle.fst_text.specs.Grammar.{Gives as GivesText};
ghost use Rattle.fst_any.specs.Typed.{codex_of_file, machine_of_file, typed, typed_codex, typed_machine_of_text, typed_tabled};

use crate::any::{AnyCodex, AnyFst, AnyTabled};
use fst_binary::{BinaryFault, arc_type, decode_tabled};
use fst_codex::{CodexFault, codex_arc_type, read_codex};
use fst_semiring::ArcType;
use fst_text::{TextFault, TextOptions, compile};
use std::alloc::Global;

/// The machine whose bytes these are, of the arc type that they name, and the symbol tables that it carries, or the first
/// fault of the bytes. Space is reserved for no more than the bytes can hold.
#[tactic(auto, unfolding(crate::specs::Typed::machine_of_file))]
pub fn decode_any(alloc: Global, bytes: &[u8]) -> Result<AnyTabled, BinaryFault>
    ensures { Gives (λ t. typed_tabled t) result (machine_of_file bytes.now) }
{
    match arc_type(bytes)? {
        ArcType::Boolean => {
            let tabled = decode_tabled(alloc, bytes)?;
            Ok(AnyTabled {
                fst: AnyFst::Boolean(tabled.fst),
                isymbols: tabled.isymbols,
                osymbols: tabled.osymbols,
            })
        }
        ArcType::Tropical => {
            let tabled = decode_tabled(alloc, bytes)?;
            Ok(AnyTabled {
                fst: AnyFst::Tropical(tabled.fst),
                isymbols: tabled.isymbols,
                osymbols: tabled.osymbols,
            })
        }
        ArcType::MinMax => {
            let tabled = decode_tabled(alloc, bytes)?;
            Ok(AnyTabled {
                fst: AnyFst::MinMax(tabled.fst),
                isymbols: tabled.isymbols,
                osymbols: tabled.osymbols,
            })
        }
        ArcType::Lexicographic => {
            let tabled = decode_tabled(alloc, bytes)?;
            Ok(AnyTabled {
                fst: AnyFst::Lexicographic(tabled.fst),
                isymbols: tabled.isymbols,
                osymbols: tabled.osymbols,
            })
        }
    }
}

/// The codex whose bytes these are, of the arc type that they name, or their first fault. Space is reserved for no more
/// than the bytes can hold.
#[tactic(auto, unfolding(crate::specs::Typed::codex_of_file))]
pub fn read_any_codex(alloc: Global, bytes: &[u8]) -> Result<AnyCodex, CodexFault>
    ensures { GivesCodex (λ c. typed_codex c) result (codex_of_file bytes.now) }
{
    match codex_arc_type(bytes)? {
        ArcType::Boolean => Ok(AnyCodex::Boolean(read_codex(alloc, bytes)?)),
        ArcType::Tropical => Ok(AnyCodex::Tropical(read_codex(alloc, bytes)?)),
        ArcType::MinMax => Ok(AnyCodex::MinMax(read_codex(alloc, bytes)?)),
        ArcType::Lexicographic => Ok(AnyCodex::Lexicographic(read_codex(alloc, bytes)?)),
    }
}

/// The machine of this arc type that a text stands for, or the first fault of its first faulty line.
#[tactic(auto, unfolding(crate::specs::Typed::typed_machine_of_text))]
pub fn compile_any(
    alloc: Global,
    kind: ArcType,
    bytes: &[u8],
    options: &TextOptions,
) -> Result<AnyFst, TextFault>
    ensures { GivesText (λ m. typed m) result (typed_machine_of_text kind options.now bytes.now) }
{
    match kind {
        ArcType::Boolean => Ok(AnyFst::Boolean(compile(alloc, bytes, options)?)),
        ArcType::Tropical => Ok(AnyFst::Tropical(compile(alloc, bytes, options)?)),
        ArcType::MinMax => Ok(AnyFst::MinMax(compile(alloc, bytes, options)?)),
        ArcType::Lexicographic => Ok(AnyFst::Lexicographic(compile(alloc, bytes, options)?)),
    }
}
