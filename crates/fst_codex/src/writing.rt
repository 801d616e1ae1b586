//! Writing the file form of a codex.

ghost use Rattle.std.specs.Prelude.{◌≡◌, ◌≤◌, ◌<◌, ◌++◌, ◌+◌, ◌*◌, length, map, All, IfOk, OnOk, Ok};
ghost use Rattle.std.specs.List.{flat_map};
ghost use Rattle.fst_semiring.specs.Names.{name_of};
ghost use Rattle.fst_bytes.specs.Spelling.{HasField};
ghost use Rattle.fst_codex.specs.Spelling.{HasCodexSpelling, codex_heading, codex_spelling, codex_types, entry_fields, flag, weight_part};
ghost use Rattle.fst_codex.specs.Reading.{codex_arc_type_of_bytes, codex_of_bytes};
ghost use Rattle.fst_codex.specs.Table.{most_entries, valued_entry, valued_table};

use crate::codex::{Codex, CodexEntry};
use fst_bytes::{push_arc_type, push_long, push_weight_field, push_word, weight_length};
use fst_semiring::{ArcType, Weight};
use std::alloc::{AllocError, Global};

/// How many bytes stand before the entries.
fn heading_length(kind: ArcType) -> usize
    ensures { result ≡ 21 + length (name_of kind) }
{
    21 + kind.name().len()
}

/// Appends whether weights stand in the entries.
fn push_flag(out: &mut Vec<u8>, weights: bool) -> Result<(), AllocError>
    ensures { OnOk result (out.new.items ≡ out.old.items ++ flag weights) }
{
    if weights {
        out.extend_from_slice(&[1])
    } else {
        out.extend_from_slice(&[0])
    }
}

/// Appends the fields before the entries.
fn push_heading<W: Weight>(out: &mut Vec<u8>, codex: &Codex<W>) -> Result<(), AllocError>
    ensures { OnOk result (out.new.items ≡ out.old.items ++ codex_heading W.KIND (valued_table W.value codex.now)) }
{
    out.extend_from_slice(b"FSTCODEX")?;
    push_arc_type(out, W::KIND)?;
    push_flag(out, codex.weights())?;
    push_long(out, codex.entries().len() as u64)
}

/// How many bytes the weight of an entry takes.
fn part_length<W: Weight>(weights: bool, weight: W) -> usize
    ensures value { result ≡ length (weight_part W.KIND weights (W.value weight)) }
    ensures bound { result ≤ 17 }
    ensures fits { HasField W.KIND (W.value weight) }
{
    let own = weight_length(weight);
    if weights { own } else { 0 }
}

/// How many bytes the entries take.
fn entries_length<W: Weight>(weights: bool, entries: &[CodexEntry<W>]) -> usize
    requires { length entries.now ≤ most_entries }
    ensures value { result ≡ length (flat_map (entry_fields W.KIND weights) (map (valued_entry W.value) entries.now)) }
    ensures bound { result ≤ 25 * length entries.now }
    ensures fits { All (λ e. HasField W.KIND (W.value e.weight)) entries.now }
{
    let mut len = 0;
    for entry in entries {
        len += 8 + part_length(weights, entry.weight);
    }
    len
}

/// Appends an entry.
fn push_entry<W: Weight>(
    out: &mut Vec<u8>,
    weights: bool,
    entry: CodexEntry<W>,
) -> Result<(), AllocError>
    ensures { OnOk result (out.new.items ≡ out.old.items ++ entry_fields W.KIND weights (valued_entry W.value entry)) }
{
    push_word(out, entry.ilabel)?;
    push_word(out, entry.olabel)?;
    if weights {
        push_weight_field(out, entry.weight)?;
    }
    Ok(())
}

/// Appends entries.
fn push_entries<W: Weight>(
    out: &mut Vec<u8>,
    weights: bool,
    entries: &[CodexEntry<W>],
) -> Result<(), AllocError>
    ensures { OnOk result (out.new.items ≡ out.old.items ++ flat_map (entry_fields W.KIND weights) (map (valued_entry W.value) entries.now)) }
{
    for entry in entries {
        push_entry(out, weights, *entry)?;
    }
    Ok(())
}

/// The bytes of a codex, which has a spelling where they are given.
fn write_whole<W: Weight>(alloc: Global, codex: &Codex<W>) -> Result<Vec<u8>, AllocError>
    ensures spelled { IfOk result (λ bytes. bytes.items ≡ codex_spelling W.KIND (valued_table W.value codex.now)) }
    ensures fits { IfOk result (λ _. HasCodexSpelling W.KIND (valued_table W.value codex.now)) }
{
    let entries = codex.entries();
    let len = heading_length(W::KIND) + entries_length(codex.weights(), entries);
    let mut out = Vec::with_capacity(alloc, len)?;
    push_heading(&mut out, codex)?;
    push_entries(&mut out, codex.weights(), entries)?;
    Ok(out)
}

/// The bytes of a codex. Their exact number is reserved at first.
pub fn write_codex<W: Weight>(alloc: Global, codex: &Codex<W>) -> Result<Vec<u8>, AllocError>
    // They are the spelling of the codex,
    ensures spelled { IfOk result (λ bytes. bytes.items ≡ codex_spelling W.KIND (valued_table W.value codex.now)) }
    // they are read as the codex again,
    ensures again { IfOk result (λ bytes. codex_of_bytes W.KIND bytes.items ≡ Ok (valued_table W.value codex.now)) }
    // and their arc type is that of the weight.
    ensures named { IfOk result (λ bytes. codex_arc_type_of_bytes bytes.items ≡ Ok W.KIND) }
{
    write_whole(alloc, codex)
}
