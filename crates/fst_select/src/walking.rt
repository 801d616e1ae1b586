//! The best string of an entry, and the entries that it leaves on its way.

ghost use Rattle.std.specs.Prelude.{◌≡◌, ◌<◌, ◌≤◌, ◌++◌, [], ℕ, List, IfOk, OnOk, length, map};
ghost use Rattle.fst_machine.specs.Graph.{graph_of};
ghost use Rattle.fst_machine.specs.Machine.{valued};
ghost use Rattle.fst_nbest.specs.Entries.{most_long};
ghost use Rattle.fst_select.specs.Entries.{IsEntry, front_of, tail_of, words_of};
ghost use Rattle.fst_select.specs.Frontier.{IsKey};
ghost use Rattle.fst_select.specs.Outlook.{IsDue};
ghost use Rattle.fst_select.specs.Searching.{Walked};
ghost use Rattle.fst_select.specs.Strings.{IsPlain, IsSpelled, weighted};

use crate::entry::Entry;
use crate::outlook::Outlook;
use crate::parting::put_parts;
use crate::prefixes::prefix;
use crate::siblings::take_least;
use crate::strings::{StringWeight, Strings};
use fst_determinize::{Subset, SubsetWeight};
use fst_setops::Labels;
use std::alloc::{AllocError, Global};

/// Puts a label behind a string, unless it is 0.
fn put_label(word: &mut Labels, label: u32) -> Result<(), AllocError>
    ensures { OnOk result (word.new ≡ word.old ++ tail_of label) }
{
    if label == 0 {
        return Ok(());
    }
    word.push(label)
}

/// Moves entries behind others.
fn append<D: Copy>(left: &mut Vec<Entry<D>>, parts: &mut Vec<Entry<D>>) -> Result<(), AllocError>
    ensures moved { OnOk result (left.new.items ≡ left.old.items ++ parts.old.items) }
    ensures clear { OnOk result (parts.new.items ≡ []) }
{
    left.extend_from_slice(parts.as_slice())?;
    parts.clear();
    Ok(())
}

/// The best string of an entry whose total is due. At each prefix on its way the parts of the prefix but the best are put
/// into `left`. They begin as this string, which will be the next to be listed.
pub(crate) fn walk<W: SubsetWeight>(
    alloc: Global,
    outlook: &Outlook<W>,
    subsets: &mut Vec<Subset<W>>,
    listed: &Strings<W>,
    left: &mut Vec<Entry<W::Wide>>,
    entry: Entry<W::Wide>,
) -> Result<StringWeight<W>, AllocError>
    requires plain { IsPlain (graph_of (valued W.value outlook.now.machine)) }
    requires entry { IsEntry W.KIND (graph_of (valued W.value outlook.now.machine)) W.wide_value outlook.now.due (words_of listed.now) subsets.old.items entry (front_of W.wide_value (words_of listed.now) entry) }
    requires key { IsKey (IsSpelled W.KIND (graph_of (valued W.value outlook.now.machine))) (front_of W.wide_value (words_of listed.now) entry) }
    requires due { IsDue W.KIND outlook.now.due (W.wide_value entry.total) }
    requires few { entry.long ≤ most_long }
    requires clear { left.old.items ≡ [] }
    ensures walked { IfOk result (λ s. Walked W.KIND (graph_of (valued W.value outlook.now.machine)) W.wide_value outlook.now.due (words_of listed.now) subsets.old.items subsets.new.items entry left.new.items (weighted W.wide_value s)) }
{
    // What holds of the machine.
    let _fst = outlook.machine();
    let owner = listed.len();
    let mut word = prefix(alloc, listed, &entry)?;
    let mut parts = Vec::new(alloc);
    let mut core = entry;
    while !core.closed {
        put_parts(
            alloc,
            outlook,
            subsets,
            &mut parts,
            core.by,
            core.slot,
            owner,
            word.len(),
        )?;
        core = take_least::<W>(&mut parts);
        append(left, &mut parts)?;
        put_label(&mut word, core.tail)?;
    }
    Ok(StringWeight {
        word,
        weight: core.total,
    })
}
