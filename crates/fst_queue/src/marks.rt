//! Marks on states, which tell in constant time whether a state is a member.

ghost use Rattle.std.specs.Prelude.{◌≡◌, ◌<◌, ℕ, false, get_or, length, OnOk};

use std::alloc::AllocError;

/// Whether a state has a mark.
pub(crate) fn is_marked(marks: &Vec<bool>, state: u32) -> bool
    ensures { result ≡ get_or marks.now.items state false }
{
    let at = state as usize;
    at < marks.len() && marks[at]
}

/// Makes room for the mark of a state: at least twice as many marks. No state gains or loses its mark.
pub(crate) fn grow(marks: &mut Vec<bool>, state: u32) -> Result<(), AllocError>
    ensures room { OnOk result (state < length marks.new.items) }
    ensures same { (q : ℕ) → get_or marks.new.items q false ≡ get_or marks.old.items q false }
{
    let len = marks.len();
    let at = state as usize;
    if at >= len {
        let wanted = (2 * len).min(4294967296).max(at + 1);
        marks.resize(wanted, false)?;
    }
    Ok(())
}
