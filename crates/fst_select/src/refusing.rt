//! What stands against listing the strings of a machine, by its labels.

ghost use Rattle.std.specs.Prelude.{IfNone, IfSome};
ghost use Rattle.fst_machine.specs.Graph.{graph_of};
ghost use Rattle.fst_machine.specs.Machine.{valued};
ghost use Rattle.fst_trim.specs.FirstArcs.{IsAcceptor};
ghost use Rattle.fst_setops.specs.Answers.{IsFree};
ghost use Rattle.fst_select.specs.Strings.{IsPlain};
ghost use Rattle.fst_select.specs.UniqueRefusals.{IsUnlistable};

use crate::unique_fault::UniqueFault;
use fst_machine::Fst;
use fst_semiring::Weight;
use fst_setops::epsilon_at;
use fst_trim::not_acceptor_at;

/// The first arc with two different labels, or else the first with label 0, by state and then by place; `None` exactly
/// where the machine is an acceptor without epsilon. Takes no memory.
pub(crate) fn unfit<W: Weight>(fst: &Fst<W>) -> Option<UniqueFault>
    ensures some { IfSome result (IsUnlistable W.KIND (valued W.value fst.now)) }
    ensures none { IfNone result (IsAcceptor (valued W.value fst.now) × IsFree (valued W.value fst.now)) }
    ensures plain { IfNone result (IsPlain (graph_of (valued W.value fst.now))) }
{
    if let Some(step) = not_acceptor_at(fst) {
        return Some(UniqueFault::NotAcceptor {
            state: step.state,
            place: step.place,
        });
    }
    if let Some(step) = epsilon_at(fst) {
        return Some(UniqueFault::HasEpsilon {
            state: step.state,
            place: step.place,
        });
    }
    None
}
