//! Tables from numbers to places, for look-ups without a hash of the kit's maps.
//!
//! No wrong body is tried in this crate, since it promises nothing to a user. With weaker contracts here these could not be
//! proved: `relabel` of `fst_rational` (which new label a label has), `compile` of `fst_text` (which state a number is),
//! `replace` of `fst_replace` (which machine a label calls), and `KeySet::put_below` of `fst_keys` (which key a place has).
#![tactic(auto)]

mod flat_table;
mod places;

pub use flat_table::FlatTable;
pub use places::Places;
