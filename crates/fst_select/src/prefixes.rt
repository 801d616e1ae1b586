//! The prefixes of entries.

ghost use Rattle.std.specs.Prelude.{◌≡◌, ◌<◌, ◌≤◌, IfOk, get_or, length, take};
ghost use Rattle.std.specs.Ordering.{is_lt, nat_cmp};
ghost use Rattle.std.specs.Cmp.Lexicographic.{slice_cmp};
ghost use Rattle.fst_nbest.specs.Entries.{list_at};
ghost use Rattle.fst_select.specs.Entries.{CanCompare, prefix_of, words_of};

use crate::entry::Entry;
use crate::strings::Strings;
use fst_semiring::Weight;
use fst_setops::Labels;
use std::alloc::{AllocError, Global};

/// How many labels the prefix of an entry has.
pub(crate) fn prefix_len<W: Weight>(listed: &Strings<W>, e: &Entry<W::Wide>) -> usize
    requires { CanCompare (words_of listed.now) e.now }
    ensures { result ≡ length (prefix_of (words_of listed.now) e.now) }
{
    if e.tail == 0 { e.depth } else { e.depth + 1 }
}

/// The label in a place of the prefix of an entry.
fn label_at<W: Weight>(listed: &Strings<W>, e: &Entry<W::Wide>, k: usize) -> u32
    requires can { CanCompare (words_of listed.now) e.now }
    requires within { k < length (prefix_of (words_of listed.now) e.now) }
    ensures { result ≡ get_or (prefix_of (words_of listed.now) e.now) k 0 }
{
    if k < e.depth {
        return *listed.item(e.owner).word.item(k);
    }
    e.tail
}

/// Whether the prefix of the first comes before that of the second. Where both begin as one listed string, they are the
/// same up to the end of the shorter part of it.
pub(crate) fn is_prefix_before<W: Weight>(
    listed: &Strings<W>,
    a: &Entry<W::Wide>,
    b: &Entry<W::Wide>,
) -> bool
    requires a_can { CanCompare (words_of listed.now) a.now }
    requires b_can { CanCompare (words_of listed.now) b.now }
    ensures { result ≡ is_lt (slice_cmp nat_cmp (prefix_of (words_of listed.now) a.now) (prefix_of (words_of listed.now) b.now)) }
{
    let first_len = prefix_len::<W>(listed, a);
    let second_len = prefix_len::<W>(listed, b);
    let least = first_len.min(second_len);
    let mut k = if a.owner == b.owner {
        a.depth.min(b.depth)
    } else {
        0
    };
    while k < least {
        let first = label_at::<W>(listed, a, k);
        let second = label_at::<W>(listed, b, k);
        if first != second {
            return first < second;
        }
        k += 1;
    }
    first_len < second_len
}

/// The first labels of the listed string with this number.
fn begin<W: Weight>(
    alloc: Global,
    listed: &Strings<W>,
    owner: usize,
    depth: usize,
) -> Result<Labels, AllocError>
    requires { depth ≤ length (list_at (words_of listed.now) owner) }
    ensures { IfOk result (λ word. word ≡ take depth (list_at (words_of listed.now) owner)) }
{
    let mut word = Labels::new(alloc);
    if depth == 0 {
        return Ok(word);
    }
    let before = &listed.item(owner).word;
    for i in 0..depth {
        word.push(*before.item(i))?;
    }
    Ok(word)
}

/// The labels of the prefix of an entry.
pub(crate) fn prefix<W: Weight>(
    alloc: Global,
    listed: &Strings<W>,
    entry: &Entry<W::Wide>,
) -> Result<Labels, AllocError>
    requires { CanCompare (words_of listed.now) entry.now }
    ensures { IfOk result (λ word. word ≡ prefix_of (words_of listed.now) entry.now) }
{
    let mut word = begin::<W>(alloc, listed, entry.owner, entry.depth)?;
    if entry.tail != 0 {
        word.push(entry.tail)?;
    }
    Ok(word)
}
