//! What is told of the best paths of a machine.

ghost use Rattle.std.specs.Prelude.{◌≡◌, ◌<◌, ◌≤◌, ◌*◌, ◌++◌, All, IfErr, IfOk, MatchOption, None, OnOk, Some, length, map};
ghost use Rattle.std.specs.Result.{result_map_both};
ghost use Rattle.fst_semiring.specs.Semiring.{InRange, Within, times};
ghost use Rattle.fst_machine.specs.Graph.{graph_of};
ghost use Rattle.fst_machine.specs.Letters.{output, product};
ghost use Rattle.fst_machine.specs.Machine.{IsArc, valued, valued_arc};
ghost use Rattle.fst_machine.specs.Steps.{written};
ghost use Rattle.fst_nbest.specs.Chains.{arc_at, chain_of};
ghost use Rattle.fst_nbest.specs.FirstPaths.{AreFirstPaths};
ghost use Rattle.fst_nbest.specs.Listing.{AreAllSteps, AreSteps, IsStep};
ghost use Rattle.fst_batch.specs.BestPaths.{first_not_text, is_text, valued_told};
ghost use Rattle.fst_batch.specs.Filling.{AreSmall};
ghost use Rattle.fst_batch.specs.ToldChains.{Tells, chain_weight};

use crate::answer::{Answer, LineAnswer};
use crate::fault::LineFault;
use fst_fields::List;
use fst_machine::{Path, Paths, Step, WideArc, WideFst};
use fst_semiring::Weight;
use std::alloc::{AllocError, Global};

/// The greatest number of arcs of a path whose weight is computed; no path with more is held in memory.
const MOST_STEPS: usize = 1 << 40;

/// The arc of a step.
fn step_arc<W: Weight>(fst: &WideFst<W>, step: &Step) -> WideArc<W>
    requires { IsStep (graph_of (valued W.wide_value fst.now)) (step.now.state, step.now.place) }
    ensures value { valued_arc W.wide_value result ≡ arc_at (graph_of (valued W.wide_value fst.now)) (step.now.state, step.now.place) }
    ensures good { IsArc W.wide_value (length fst.now.states) result }
{
    let _states = fst.states();
    let arcs = fst.arcs(step.state);
    arcs[step.place as usize]
}

/// The final weight of the end of a path from the start.
fn end_weight<W: Weight>(fst: &WideFst<W>, start: u32, path: &Path) -> W::Wide
    requires start { fst.now.start ≡ Some start }
    requires steps { AreSteps (graph_of (valued W.wide_value fst.now)) (written path.now) }
    requires small { AreSmall (valued W.wide_value fst.now) }
    ensures value { W.wide_value result ≡ (chain_of (graph_of (valued W.wide_value fst.now)) (written path.now)).last }
    ensures range { Within 2000000000000000000 (W.wide_value result) }
{
    let _states = fst.states();
    let len = path.len();
    if len == 0 {
        return fst.final_weight(start);
    }
    let end = step_arc(fst, path.item(len - 1));
    fst.final_weight(end.next)
}

/// The product of the weights of the arcs of a path.
fn path_product<W: Weight>(fst: &WideFst<W>, path: &Path) -> W::Wide
    requires steps { AreSteps (graph_of (valued W.wide_value fst.now)) (written path.now) }
    requires small { AreSmall (valued W.wide_value fst.now) }
    requires few { length path.now ≤ 1099511627776 }
    ensures value { W.wide_value result ≡ product W.KIND (chain_of (graph_of (valued W.wide_value fst.now)) (written path.now)).letters }
    ensures range { Within (length path.now * 2000000000000000000) (W.wide_value result) }
{
    let mut weight = W::one().widen();
    let mut place = path.len();
    while place > 0 {
        place -= 1;
        let arc = step_arc(fst, path.item(place));
        weight = W::wide_times(arc.weight, weight);
    }
    weight
}

/// The weight of a path from the start; `None` exactly where it is out of range.
fn path_weight<W: Weight>(
    fst: &WideFst<W>,
    start: u32,
    path: &Path,
) -> Result<Option<W>, AllocError>
    requires start { fst.now.start ≡ Some start }
    requires steps { AreSteps (graph_of (valued W.wide_value fst.now)) (written path.now) }
    requires small { AreSmall (valued W.wide_value fst.now) }
    ensures { IfOk result (λ weight. MatchOption weight (InRange (chain_weight W.KIND (chain_of (graph_of (valued W.wide_value fst.now)) (written path.now))) → ⊥) (λ w. (W.value w ≡ chain_weight W.KIND (chain_of (graph_of (valued W.wide_value fst.now)) (written path.now))) × InRange (W.value w))) }
{
    if path.len() > MOST_STEPS {
        return Err(AllocError);
    }
    let weight = W::wide_times(path_product(fst, path), end_weight(fst, start, path));
    Ok(W::narrow(weight))
}

/// Whether a label is text.
fn is_text(label: u32) -> bool
    ensures { result ≡ is_text label }
{
    1 <= label && label <= 255 && label != 10
}

/// Appends what the arcs of a path write. The first label that is no text in its stead.
fn put_text<W: Weight>(
    text: &mut Vec<u8>,
    fst: &WideFst<W>,
    path: &Path,
) -> Result<Result<(), u32>, AllocError>
    requires steps { AreSteps (graph_of (valued W.wide_value fst.now)) (written path.now) }
    ensures text { IfOk result (λ r. OnOk r ((text.new.items ≡ text.old.items ++ output (chain_of (graph_of (valued W.wide_value fst.now)) (written path.now)).letters) × (first_not_text (output (chain_of (graph_of (valued W.wide_value fst.now)) (written path.now)).letters) ≡ None))) }
    ensures label { IfOk result (λ r. IfErr r (λ label. first_not_text (output (chain_of (graph_of (valued W.wide_value fst.now)) (written path.now)).letters) ≡ Some label)) }
{
    for place in 0..path.len() {
        let label = step_arc(fst, path.item(place)).olabel;
        if label == 0 {
            continue;
        }
        if !is_text(label) {
            return Ok(Err(label));
        }
        text.push(label as u8)?;
    }
    Ok(Ok(()))
}

/// What is told of paths from the start, or the fault that stands against them: a weight out of range, or else the first label, path
/// by path, that is no text.
pub(crate) fn list_paths<W: Weight>(
    alloc: Global,
    fst: &WideFst<W>,
    start: u32,
    paths: &Paths,
) -> Result<LineAnswer<W>, AllocError>
    requires start { fst.now.start ≡ Some start }
    requires steps { AreAllSteps (graph_of (valued W.wide_value fst.now)) (map written paths.now) }
    requires small { AreSmall (valued W.wide_value fst.now) }
    ensures { IfOk result (Tells W.KIND W.value (map (chain_of (graph_of (valued W.wide_value fst.now))) (map written paths.now))) }
{
    let mut answers = List::new(alloc);
    let mut wrong = None;
    for place in 0..paths.len() {
        let path = paths.item(place);
        let Some(weight) = path_weight(fst, start, path)? else {
            return Ok(LineAnswer::Refused(LineFault::Overflow));
        };
        if wrong.is_some() {
            continue;
        }
        let mut text = Vec::new(alloc);
        if let Err(label) = put_text(&mut text, fst, path)? {
            wrong = Some(label);
            continue;
        }
        answers.push(Answer { weight, text })?;
    }
    match wrong {
        Some(label) => Ok(LineAnswer::Refused(LineFault::NotText { label })),
        None => Ok(LineAnswer::Listed(answers)),
    }
}
