//! The arcs of a subset of one member, where no label stands twice.

ghost use Rattle.std.specs.Prelude.{◌≡◌, ◌≢◌, ◌++◌, true, OnOk, All, map};
ghost use Rattle.fst_semiring.specs.Cost.{infinite};
ghost use Rattle.fst_semiring.specs.Semiring.{IsWide, times};
ghost use Rattle.fst_machine.specs.Machine.{valued_arc};
ghost use Rattle.fst_walk.specs.Names.{key_arc};
ghost use Rattle.fst_determinize.specs.Kept.{IsModest, member_as};
ghost use Rattle.fst_determinize.specs.Subsets.{AscendsBy};
ghost use Rattle.fst_determinize.specs.Ways.{single_arc, way_by};

use crate::fault::ArcFault;
use crate::lists::MemberList;
use crate::making::{put, single_arc};
use crate::residual::Residual;
use crate::subset::{Held, SubsetOf};
use crate::way::way_of;
use fst_machine::FstArc;
use fst_semiring::Weight;
use fst_walk::NameArc;
use std::alloc::Global;

/// Whether each of these arcs has a greater label than those before it.
pub(crate) fn labels_ascend<W: Weight>(arcs: &[FstArc<W>]) -> bool
    ensures { result ≡ true → AscendsBy (λ a. a.ilabel) arcs.now }
{
    // One more than the last label.
    let mut least = 0;
    for arc in arcs {
        let label = u64::from(arc.ilabel);
        if label < least {
            return false;
        }
        least = label + 1;
    }
    true
}

/// Puts the arcs of a subset of one member after the others, each of one arc of the member: so they stand by label
/// where its arcs do and no label stands twice.
pub(crate) fn put_single_arcs<W: Weight, R: Residual<W>, L: MemberList<R>>(
    out: &mut Vec<NameArc<SubsetOf<R, L>, W>>,
    arcs: &[FstArc<W>],
    member: Held<R>,
    alloc: Global,
) -> Result<(), ArcFault>
    requires modest { IsModest (R.value member.residual) }
    requires not_zero { All (λ a. times W.KIND (R.value member.residual) (W.value a.weight) ≢ infinite) arcs.now }
    requires wide { All (λ a. IsWide (times W.KIND (R.value member.residual) (W.value a.weight))) arcs.now }
    ensures { OnOk result (map (key_arc W.wide_value) out.new.items ≡ map (key_arc W.wide_value) out.old.items ++ map (single_arc W.KIND) (map (way_by W.KIND (member_as R.value member)) (map (valued_arc W.value) arcs.now))) }
{
    for arc in arcs {
        let next = single_arc(way_of(member, *arc), alloc)?;
        put(out, next)?;
    }
    Ok(())
}
