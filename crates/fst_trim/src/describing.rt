//! What there is to say of a machine.

ghost use Rattle.std.specs.Prelude.{◌≡◌, ◌<◌, ◌≤◌, ◌+◌, if◌then◌else◌, length, IfOk};
ghost use Rattle.std.specs.List.{count_by};
ghost use Rattle.fst_machine.specs.Graph.{graph_of};
ghost use Rattle.fst_machine.specs.Machine.{arc_total, most_arcs, valued};
ghost use Rattle.fst_semiring.specs.Cost.{infinite};
ghost use Rattle.fst_machine.specs.Renumbered.{marked};
ghost use Rattle.fst_trim.specs.Counted.{IsCount, IsInfo, arcs_with, has_both_epsilons, has_input_epsilon, has_output_epsilon};

use crate::first_arc::{is_acceptor, is_deterministic};
use crate::side::Side;
use crate::sorted::is_sorted;
use crate::summary::Info;
use crate::useful::{accessible, coaccessible, find_finals, keep_both};
use fst_machine::{Fst, FstArc};
use fst_semiring::Weight;
use std::alloc::{AllocError, Global};

/// How many arcs have label 0 on the input side, on the output side, and on both.
#[derive(Clone, Copy)]
struct Epsilons {
    input: u32,
    output: u32,
    both: u32,
}

/// Counts an arc.
fn add_arc<W>(epsilons: Epsilons, arc: &FstArc<W>) -> Epsilons
    requires input { epsilons.input < 4294967295 }
    requires output { epsilons.output < 4294967295 }
    requires both { epsilons.both < 4294967295 }
    ensures input { result.input ≡ epsilons.input + (if has_input_epsilon arc.now then 1 else 0) }
    ensures output { result.output ≡ epsilons.output + (if has_output_epsilon arc.now then 1 else 0) }
    ensures both { result.both ≡ epsilons.both + (if has_both_epsilons arc.now then 1 else 0) }
{
    let input = arc.ilabel == 0;
    let output = arc.olabel == 0;
    Epsilons {
        input: epsilons.input + u32::from(input),
        output: epsilons.output + u32::from(output),
        both: epsilons.both + u32::from(input && output),
    }
}

/// Counts the arcs of a state.
fn add_arcs<W>(before: Epsilons, arcs: &[FstArc<W>]) -> Epsilons
    requires input { before.input + length arcs.now ≤ most_arcs }
    requires output { before.output + length arcs.now ≤ most_arcs }
    requires both { before.both + length arcs.now ≤ most_arcs }
    ensures input { result.input ≡ before.input + count_by has_input_epsilon arcs.now }
    ensures output { result.output ≡ before.output + count_by has_output_epsilon arcs.now }
    ensures both { result.both ≡ before.both + count_by has_both_epsilons arcs.now }
{
    let mut epsilons = before;
    for arc in arcs {
        epsilons = add_arc(epsilons, arc);
    }
    epsilons
}

/// Counts the arcs of a machine.
fn count_epsilons<W: Weight>(fst: &Fst<W>) -> Epsilons
    ensures input { result.input ≡ arcs_with has_input_epsilon fst.now }
    ensures output { result.output ≡ arcs_with has_output_epsilon fst.now }
    ensures both { result.both ≡ arcs_with has_both_epsilons fst.now }
{
    let mut epsilons = Epsilons {
        input: 0,
        output: 0,
        both: 0,
    };
    for state in 0..fst.states() {
        epsilons = add_arcs(epsilons, fst.arcs(state));
    }
    epsilons
}

/// The number of marks.
fn count_marks(marks: &[bool]) -> u32
    requires { length marks.now ≤ 4294967295 }
    ensures { result ≡ length (marked 0 marks.now) }
{
    let mut count = 0u32;
    for mark in marks {
        count += u32::from(*mark);
    }
    count
}

/// The number of final states.
fn count_finals<W: Weight>(alloc: Global, fst: &Fst<W>) -> Result<u32, AllocError>
    ensures { IfOk result (IsCount (λ p. (graph_of (valued W.value fst.now)).final p ≡ infinite → ⊥)) }
{
    let mut seen = vec![in alloc; false; fst.states() as usize]?;
    let mut names = Vec::new(alloc);
    find_finals(fst, &mut names, &mut seen)?;
    Ok(names.len() as u32)
}

/// The counts and properties of a machine, each as it is defined.
///
/// Time and space: linear in the states and the arcs, on any depth of the machine, and as `is_deterministic` where
/// arcs do not stand by their input labels.
pub fn info<W: Weight>(alloc: Global, a: &Fst<W>) -> Result<Info, AllocError>
    ensures { IfOk result (IsInfo W.KIND W.value a.now) }
{
    let states = a.states();
    let final_states = count_finals(alloc, a)?;
    let mut marks = accessible::<W, Fst<W>>(alloc, a)?;
    let accessible = count_marks(marks.as_slice());
    let others = coaccessible(alloc, a)?;
    let coaccessible = count_marks(others.as_slice());
    keep_both(&mut marks, others.as_slice());
    let connected = count_marks(marks.as_slice());
    let epsilons = count_epsilons(a);
    Ok(Info {
        arc_type: W::KIND,
        states,
        arcs: a.arc_count(),
        start: a.start(),
        final_states,
        input_epsilons: epsilons.input,
        output_epsilons: epsilons.output,
        both_epsilons: epsilons.both,
        accessible,
        coaccessible,
        connected,
        acceptor: is_acceptor(a),
        input_sorted: is_sorted(a, Side::Input),
        output_sorted: is_sorted(a, Side::Output),
        deterministic: is_deterministic(alloc, a),
    })
}
