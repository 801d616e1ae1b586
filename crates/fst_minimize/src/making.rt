//! The machine of the classes of a pushed machine.

ghost use Rattle.std.specs.Prelude.{◌≡◌, ◌<◌, ◌≤◌, ◌+◌, true, ◌∷◌, ◌++◌, [], ℕ, All, Some, IfErr, IfOk, OnOk, IfSome, length, map, slice_get, take};
ghost use Rattle.std.specs.Option.{option_map};
ghost use Rattle.std.specs.Bool.{Decides};
ghost use Rattle.fst_semiring.specs.Cost.{Cost};
ghost use Rattle.fst_semiring.specs.Semiring.{Within};
ghost use Rattle.fst_machine.specs.Graph.{graph_of, renamed};
ghost use Rattle.fst_machine.specs.Machine.{Machine, arc_total, most_arcs, valued, valued_arc, valued_state};
ghost use Rattle.fst_machine.specs.Narrowing.{IsCause, IsInRange};
ghost use Rattle.fst_distance.specs.Values.{most_distance};
ghost use Rattle.fst_minimize.specs.Classes.{class_machine, class_state};
ghost use Rattle.fst_minimize.specs.Described.{OfKind};
ghost use Rattle.fst_minimize.specs.Laws.{totalled, totalled_state};
ghost use Rattle.fst_minimize.specs.Numbered.{IsNumbering, TellsBehaviour, number_in};
ghost use Rattle.fst_minimize.specs.Ready.{IsReady};

use crate::describing::describe;
use crate::numberer::Numbering;
use crate::rounds::refine;
use fst_distance::Pushing;
use fst_machine::{Fst, FstArc, NarrowFault, StateList, WideArc, narrow_state};
use fst_semiring::Weight;
use std::alloc::{AllocError, Global};

/// Numbers the states of a pushed machine by their behaviour, the classes by their least members.
pub(crate) fn number_classes<W: Weight>(
    alloc: Global,
    pushed: &Pushing<'_, W>,
) -> Result<Numbering, AllocError>
    requires { IsReady pushed.now }
    ensures tells { IfOk result (λ n. TellsBehaviour (graph_of pushed.now) (length pushed.now.states) n.numbers.items) }
    ensures numbering { IfOk result (λ n. IsNumbering n.numbers.items n.least.items) }
    ensures kind { OnOk result ((p : ℕ) → p < length pushed.now.states → OfKind W.KIND (graph_of pushed.now) p) }
{
    let description = describe(alloc, pushed)?;
    let classes = refine(alloc, description.first, &description.rows)?;
    Ok(classes)
}

/// Fills a list with these arcs, which lead to the numbers of their ends.
fn put_renamed<W: Weight>(
    out: &mut Vec<WideArc<W>>,
    arcs: &[WideArc<W>],
    numbers: &[u32],
) -> Result<(), AllocError>
    requires { All (λ a. a.next < length numbers.now) arcs.now }
    ensures { OnOk result (map (valued_arc W.wide_value) out.new.items ≡ map (λ a. renamed (number_in numbers.now) (valued_arc W.wide_value a)) arcs.now) }
{
    out.clear();
    for arc in arcs {
        out.push(FstArc {
            ilabel: arc.ilabel,
            olabel: arc.olabel,
            weight: arc.weight,
            next: numbers[arc.next as usize],
        })?;
    }
    Ok(())
}

/// Buffers of arcs.
#[derive(Drop)]
struct Buffers<W: Weight> {
    arcs: Vec<WideArc<W>>,
    renamed: Vec<WideArc<W>>,
    row: Vec<FstArc<W>>,
}

/// Puts the class of a state behind the others, its final weight multiplied by the total, and tells whether its weights
/// are in range; where they are not, it is not put.
fn put_class<W: Weight>(
    list: &mut StateList<W>,
    buffers: &mut Buffers<W>,
    pushed: &Pushing<'_, W>,
    numbers: &[u32],
    total: W::Wide,
    state: u32,
) -> Result<bool, AllocError>
    requires state { state < length pushed.now.states }
    requires size { length numbers.now ≡ length pushed.now.states }
    requires total { Within most_distance (W.wide_value total) }
    requires room { arc_total list.old + length (class_state pushed.now numbers.now state).arcs ≤ most_arcs }
    ensures fits { IfOk result (λ fits. Decides fits (IsInRange (totalled_state W.KIND (W.wide_value total) (class_state pushed.now numbers.now state)))) }
    ensures list { IfOk result (λ fits. fits ≡ true → map (valued_state W.value) list.new ≡ map (valued_state W.value) list.old ++ totalled_state W.KIND (W.wide_value total) (class_state pushed.now numbers.now state) ∷ []) }
{
    let _states = pushed.states();
    pushed.put_arcs(&mut buffers.arcs, state)?;
    put_renamed::<W>(&mut buffers.renamed, &buffers.arcs, numbers)?;
    let last = W::wide_times(total, pushed.final_weight(state));
    let fits = narrow_state::<W>(list, &mut buffers.row, last, &buffers.renamed)?;
    Ok(fits)
}

/// The number of the start.
fn start_class(start: Option<u32>, numbers: &[u32]) -> Option<u32>
    requires { IfSome start (λ s. s < length numbers.now) }
    ensures { result ≡ option_map (number_in numbers.now) start }
{
    match start {
        Some(state) => Some(numbers[state as usize]),
        None => None,
    }
}

/// The states of the machine of the classes, each by its least member.
fn class_states<W: Weight>(
    alloc: Global,
    pushed: &Pushing<'_, W>,
    classes: &Numbering,
    total: W::Wide,
) -> Result<StateList<W>, NarrowFault>
    requires size { length classes.now.numbers.items ≡ length pushed.now.states }
    requires numbering { IsNumbering classes.now.numbers.items classes.now.least.items }
    requires total { Within most_distance (W.wide_value total) }
    ensures states { IfOk result (λ list. map (valued_state W.value) list ≡ (totalled W.KIND (W.wide_value total) (class_machine pushed.now classes.now.numbers.items classes.now.least.items)).states) }
    ensures fits { OnOk result (All IsInRange (totalled W.KIND (W.wide_value total) (class_machine pushed.now classes.now.numbers.items classes.now.least.items)).states) }
    ensures fault { IfErr result (IsCause (totalled W.KIND (W.wide_value total) (class_machine pushed.now classes.now.numbers.items classes.now.least.items))) }
{
    let _states = pushed.states();
    let count = classes.least.len();
    let mut list = StateList::with_capacity(alloc, count, 0)?;
    let mut buffers = Buffers {
        arcs: Vec::new(alloc),
        renamed: Vec::new(alloc),
        row: Vec::new(alloc),
    };
    for class in 0..count {
        let state = classes.least[class];
        if !put_class(
            &mut list,
            &mut buffers,
            pushed,
            &classes.numbers,
            total,
            state,
        )? {
            return Err(NarrowFault::Overflow {
                state: class as u32,
            });
        }
    }
    Ok(list)
}

/// The machine of the classes, with the total on each final weight.
pub(crate) fn make<W: Weight>(
    alloc: Global,
    pushed: &Pushing<'_, W>,
    classes: &Numbering,
    total: W::Wide,
) -> Result<Fst<W>, NarrowFault>
    requires size { length classes.now.numbers.items ≡ length pushed.now.states }
    requires numbering { IsNumbering classes.now.numbers.items classes.now.least.items }
    requires total { Within most_distance (W.wide_value total) }
    ensures machine { IfOk result (λ m. valued W.value m ≡ totalled W.KIND (W.wide_value total) (class_machine pushed.now classes.now.numbers.items classes.now.least.items)) }
    ensures fits { OnOk result (All IsInRange (totalled W.KIND (W.wide_value total) (class_machine pushed.now classes.now.numbers.items classes.now.least.items)).states) }
    ensures fault { IfErr result (IsCause (totalled W.KIND (W.wide_value total) (class_machine pushed.now classes.now.numbers.items classes.now.least.items))) }
{
    let _states = pushed.states();
    match class_states(alloc, pushed, classes, total) {
        Ok(list) => Ok(list.into_machine(start_class(pushed.start(), &classes.numbers))),
        Err(fault) => Err(fault),
    }
}
