//! The claim table and its passes.

ghost use Rattle.std.specs.Prelude.{◌≡◌, ◌<◌, ◌≤◌, []};

use crate::plays::Fair;
use crate::view::View;
use atomic_table::{Seat, Table};
use std::alloc::Global;

/// A table of words. Each is 0 or a code, and one that is set never changes again.
#[derive(Drop)]
pub struct Claims {
    pub(crate) table: Table<(), View, usize, Fair, Global>,
    pub(crate) places: usize,
    ghost sized: { (table.shared.table_id.words ≡ places) × (table.shared.key ≡ places) × (0 < places) × (places ≤ 1048576) },
}

/// What a worker claims with. It has no bytes and takes no memory.
#[derive(Drop)]
pub struct Pass {
    pub(crate) seat: Seat<(), View>,
    ghost some_part: { 0 < seat.me.0.parts },
    ghost sized: { (seat.me.1 ≡ []) × (seat.me.0.places ≡ seat.table_id.words) },
}
