//! `connect` and `arcsort`.

ghost use Rattle.std.specs.Prelude.{◌≡◌, length};
ghost use Rattle.std.specs.Result.{result_map_both};
ghost use Rattle.fst_verbs.specs.Meaning.{Settles};
ghost use Rattle.fst_verbs.specs.Seeing.{given_seen, made_seen};
ghost use Rattle.fst_verbs.specs.Trimming.{arcsort_meaning, connect_meaning, side_of};

use crate::given::Given;
use crate::outputs::Made;
use crate::refusal::Refusal;
use fst_semiring::Weight;
use fst_trim::{Side, into_arcsorted, into_connected};
use fst_words::{Name, Options};
use std::alloc::Global;

/// `connect`.
pub(crate) fn connected<W: Weight>(alloc: Global, given: Given<W>) -> Result<Made<W>, Refusal>
    requires { length given.machines.items ≡ 1 }
    ensures { Settles connect_meaning (given_seen W.KIND W.value given) (result_map_both (made_seen W.KIND W.value) (λ e. e) result) }
{
    let machine = given.one();
    Ok(Made::Machine(into_connected(alloc, machine)?))
}

/// The side whose labels the arcs are sorted by.
fn side(sort_type: &Option<Name>) -> Side
    ensures { result ≡ side_of sort_type.now }
{
    match sort_type {
        None => Side::Input,
        Some(name) => {
            if name.text() == "olabel" {
                Side::Output
            } else {
                Side::Input
            }
        }
    }
}

/// `arcsort`.
pub(crate) fn sorted<W: Weight>(
    alloc: Global,
    options: &Options,
    given: Given<W>,
) -> Result<Made<W>, Refusal>
    requires { length given.machines.items ≡ 1 }
    ensures { Settles (arcsort_meaning options.now) (given_seen W.KIND W.value given) (result_map_both (made_seen W.KIND W.value) (λ e. e) result) }
{
    let machine = given.one();
    let side = side(&options.sort_type);
    Ok(Made::Machine(into_arcsorted(alloc, machine, side)?))
}
