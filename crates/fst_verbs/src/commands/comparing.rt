//! `equivalent`.

ghost use Rattle.std.specs.Prelude.{◌≡◌, ◌++◌, IfOk, OnOk, length};
ghost use Rattle.std.specs.Result.{result_map_both};
ghost use Rattle.fst_words.specs.PlanLaws.{HasNumbersInRange};
ghost use Rattle.fst_setops.specs.EquivalentFaults.{equivalent_text};
ghost use Rattle.fst_verbs.specs.Causes.{faulty, refused, unmade};
ghost use Rattle.fst_verbs.specs.Comparing.{equivalent_meaning, labels_text, next_label_text, separation_text};
ghost use Rattle.fst_verbs.specs.Meaning.{Settles};
ghost use Rattle.fst_verbs.specs.Seeing.{given_seen, made_seen};
ghost use Rattle.fst_verbs.specs.Told.{IsMade};

use super::composing::limit_of;
use super::wide_weights::push_wide;
use crate::given::Given;
use crate::outputs::Made;
use crate::refusal::{Refusal, unmade};
use fst_batch::put_number;
use fst_semiring::Weight;
use fst_setops::{EquivalentFault, Labels, Verdict, equivalent};
use fst_words::Options;
use std::alloc::{AllocError, Global};

/// Appends a label behind a space.
fn push_next_label(out: &mut Vec<u8>, label: u32) -> Result<(), AllocError>
    ensures { OnOk result (out.new.items ≡ out.old.items ++ next_label_text label) }
{
    out.push(b' ')?;
    put_number(out, u64::from(label))
}

/// Appends labels in decimal digits, with a space between each two.
fn push_labels(out: &mut Vec<u8>, labels: &Labels) -> Result<(), AllocError>
    ensures { OnOk result (out.new.items ≡ out.old.items ++ labels_text labels.now) }
{
    if labels.len() == 0 {
        return Ok(());
    }
    put_number(out, u64::from(*labels.item(0)))?;
    for place in 1..labels.len() {
        push_next_label(out, *labels.item(place))?;
    }
    Ok(())
}

/// The text that tells two machines apart: the two weights of a word, and the word.
fn separation_text<W: Weight>(
    alloc: Global,
    first: W::Wide,
    second: W::Wide,
    word: &Labels,
) -> Result<Vec<u8>, AllocError>
    ensures { IfOk result (λ text. text.items ≡ separation_text W.KIND (W.wide_value first) (W.wide_value second) word.now) }
{
    let mut out = Vec::from_slice(alloc, b"separated\t")?;
    push_wide::<W>(&mut out, first)?;
    out.push(b'\t')?;
    push_wide::<W>(&mut out, second)?;
    out.push(b'\t')?;
    push_labels(&mut out, word)?;
    out.push(b'\n')?;
    Ok(out)
}

/// The machines are not compared.
fn uncompared(alloc: Global, fault: EquivalentFault) -> Refusal
    ensures made { IsMade (refused (faulty (unmade (equivalent_text fault)))) result }
    ensures memory { fault ≡ EquivalentFault.Memory → result ≡ Refusal.Memory }
{
    match fault {
        EquivalentFault::Memory => Refusal::Memory,
        _ => unmade(alloc, fault),
    }
}

/// `equivalent`.
pub(crate) fn compared<W: Weight>(
    alloc: Global,
    options: &Options,
    given: Given<W>,
) -> Result<Made<W>, Refusal>
    requires two { length given.machines.items ≡ 2 }
    requires numbers { HasNumbersInRange options.now }
    ensures { Settles (equivalent_meaning options.now) (given_seen W.KIND W.value given) (result_map_both (made_seen W.KIND W.value) (λ e. e) result) }
{
    let (first, second) = given.two();
    match equivalent(alloc, &first, &second, limit_of(options)) {
        Ok(Verdict::Equivalent) => Ok(Made::Text(Vec::from_slice(alloc, b"equivalent\n")?)),
        Ok(
            Verdict::Separated {
                word,
                first,
                second,
            },
        ) => Ok(Made::Separation(separation_text::<W>(alloc, first, second, &word)?)),
        Err(fault) => Err(uncompared(alloc, fault)),
    }
}
