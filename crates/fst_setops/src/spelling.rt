//! The labels of a word that a search keeps.

ghost use Rattle.std.specs.Prelude.{◌≡◌, ◌<◌, ◌++◌, [], IfOk, OnOk, get_or, length, reverse};
ghost use Rattle.fst_setops.specs.Sought.{AreParents, words_of};

use crate::search::Node;
use crate::verdict::Labels;
use std::alloc::{AllocError, Global};

/// Puts the labels of the word in a place, the last first.
fn put_backward<V: Copy>(
    labels: &mut Vec<u32>,
    nodes: &[Node<V>],
    place: usize,
) -> Result<(), AllocError>
    requires place { place < length nodes.now }
    requires parents { AreParents nodes.now }
    ensures { OnOk result (get_or (words_of nodes.now) place [] ++ reverse labels.old.items ≡ reverse labels.new.items) }
{
    let mut at = place;
    while at > 0 {
        let node = &nodes[at];
        labels.push(node.label)?;
        at = node.parent as usize;
    }
    Ok(())
}

/// The labels of the word in a place.
pub(crate) fn spell<V: Copy>(
    alloc: Global,
    nodes: &[Node<V>],
    place: usize,
) -> Result<Labels, AllocError>
    requires place { place < length nodes.now }
    requires parents { AreParents nodes.now }
    ensures { IfOk result (λ word. word ≡ get_or (words_of nodes.now) place []) }
{
    let mut backward = Vec::new(alloc);
    put_backward(&mut backward, nodes, place)?;
    let mut word = Labels::new(alloc);
    let mut left = backward.len();
    while left > 0 {
        left -= 1;
        word.push(backward[left])?;
    }
    Ok(word)
}
