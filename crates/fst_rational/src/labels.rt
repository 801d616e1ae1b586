//! Operations that change labels.

ghost use Rattle.std.specs.Prelude.{◌≡◌, IfOk, None};
ghost use Rattle.fst_machine.specs.Machine.{IsArc, most_states, valued, valued_arc};
ghost use Rattle.fst_rational.specs.Labels.{KeepsRange, inverted, labelled, labelled_machine, projected, relabelled};
ghost use Rattle.fst_rational.specs.Relations.{Inverts, Projects, Relabels};

use crate::change::{Change, put_states};
use crate::pairs::Pairs;
use fst_machine::{ArcsChange, Fst, FstArc, StateList};
use fst_semiring::Weight;
use std::alloc::{AllocError, Global};

/// What the labels of an arc become.
trait Rules {
    ghost use Rattle.fst_rational.specs.Labels.{Rule};

    /// The new input label.
    ghost reads: { Self → Rule };

    /// The new output label.
    ghost writes: { Self → Rule };

    /// The new input label of an arc with these labels.
    fn input(&self, ilabel: u32, olabel: u32) -> u32
        ensures { result ≡ reads self.now ilabel olabel };

    /// The new output label of an arc with these labels.
    fn output(&self, ilabel: u32, olabel: u32) -> u32
        ensures { result ≡ writes self.now ilabel olabel };
}

/// An arc with labels by rules.
fn labelled_arc<W: Copy, R: Rules>(rules: &R, arc: FstArc<W>) -> FstArc<W>
    ensures { result ≡ labelled (R.reads rules.now) (R.writes rules.now) arc }
{
    FstArc {
        ilabel: rules.input(arc.ilabel, arc.olabel),
        olabel: rules.output(arc.ilabel, arc.olabel),
        weight: arc.weight,
        next: arc.next,
    }
}

/// The change of labels by rules.
#[derive(Clone, Copy)]
struct Labelling<R> {
    rules: R,
}

impl<W: Weight, R: Rules> Change<W> for Labelling<R> {
    ghost ready = { λ s. Unit {0} };

    ghost changed_arc = { λ s. labelled (R.reads s.rules) (R.writes s.rules) };

    ghost changed_final = { λ s w. w };

    ghost target = { λ s. None };

    fn arc(&self, arc: FstArc<W>) -> FstArc<W>
        requires good { IsArc W.value most_states arc }
        ensures { valued_arc W.value result ≡ labelled (R.reads self.now.rules) (R.writes self.now.rules) (valued_arc W.value arc) }
    {
        labelled_arc(&self.rules, arc)
    }

    fn last(&self, last: W) -> W
        ensures { W.value result ≡ W.value last }
    {
        last
    }

    fn onward(&self) -> Option<u32>
        ensures { result ≡ None }
    {
        None
    }
}

impl<W: Weight, R: Rules> ArcsChange<W> for Labelling<R> {
    ghost use Rattle.std.specs.Prelude.{◌≡◌, map};

    ghost changes = { λ s arcs new. new ≡ map (labelled (R.reads s.rules) (R.writes s.rules)) arcs };

    fn change(&self, arcs: &mut [FstArc<W>]) -> Result<(), AllocError> {
        for place in 0..arcs.len() {
            arcs[place] = labelled_arc(&self.rules, arcs[place]);
        }
        Ok(())
    }
}

/// The machine with labels by rules that keep labels in range.
fn with_labels<W: Weight, R: Rules + Copy>(
    alloc: Global,
    a: &Fst<W>,
    rules: R,
) -> Result<Fst<W>, AllocError>
    requires { KeepsRange (R.reads rules) (R.writes rules) }
    ensures { IfOk result (λ m. valued W.value m ≡ labelled_machine (R.reads rules) (R.writes rules) (valued W.value a.now)) }
{
    let change = Labelling { rules };
    let mut states = StateList::with_capacity(alloc, a.states() as usize, a.arc_count() as usize)?;
    let mut own = Vec::new(alloc);
    put_states(&mut states, &mut own, &change, a)?;
    Ok(states.into_machine(a.start()))
}

/// The same of a machine that is given away: its arcs are changed where they stand, where those of its states stand side by
/// side.
fn with_labels_given<W: Weight, R: Rules + Copy>(
    alloc: Global,
    a: Fst<W>,
    rules: R,
) -> Result<Fst<W>, AllocError>
    requires { KeepsRange (R.reads rules) (R.writes rules) }
    ensures { IfOk result (λ m. valued W.value m ≡ labelled_machine (R.reads rules) (R.writes rules) (valued W.value a)) }
{
    let change = Labelling { rules };
    match a.with_arcs(&change)? {
        Ok(machine) => Ok(machine),
        Err(a) => with_labels(alloc, &a, rules),
    }
}

/// The rules of inversion.
#[derive(Clone, Copy)]
struct Inversion;

impl Rules for Inversion {
    ghost use Rattle.fst_rational.specs.Labels.{input_side, output_side};

    ghost reads = { λ s. output_side };

    ghost writes = { λ s. input_side };

    fn input(&self, _ilabel: u32, olabel: u32) -> u32 {
        olabel
    }

    fn output(&self, ilabel: u32, _olabel: u32) -> u32 {
        ilabel
    }
}

/// The rules of projection to the output side, or to the input side.
#[derive(Clone, Copy)]
struct Projection {
    written: bool,
}

impl Rules for Projection {
    ghost use Rattle.fst_rational.specs.Labels.{side};

    ghost reads = { λ s. side s.written };

    ghost writes = { λ s. side s.written };

    fn input(&self, ilabel: u32, olabel: u32) -> u32 {
        if self.written { olabel } else { ilabel }
    }

    fn output(&self, ilabel: u32, olabel: u32) -> u32 {
        if self.written { olabel } else { ilabel }
    }
}

/// The rules of relabelling by the new labels of old ones, on each side.
#[derive(Clone, Copy)]
struct Relabelling<'p> {
    input: &'p Pairs,
    output: &'p Pairs,
}

impl<'p> Rules for Relabelling<'p> {
    ghost use Rattle.fst_rational.specs.Labels.{new_label};

    ghost reads = { λ s i o. new_label s.input.now i };

    ghost writes = { λ s i o. new_label s.output.now o };

    fn input(&self, ilabel: u32, _olabel: u32) -> u32 {
        self.input.renew(ilabel)
    }

    fn output(&self, _ilabel: u32, olabel: u32) -> u32 {
        self.output.renew(olabel)
    }
}

/// The inversion of a machine: the input and the output label of each arc are swapped.
pub fn invert<W: Weight>(alloc: Global, a: &Fst<W>) -> Result<Fst<W>, AllocError>
    ensures machine { IfOk result (λ m. valued W.value m ≡ inverted (valued W.value a.now)) }
    ensures relation { IfOk result (λ m. Inverts W.KIND (valued W.value a.now) (valued W.value m)) }
{
    with_labels(alloc, a, Inversion)
}

/// The projection of a machine to its output side, or to its input side: that side's label of each arc stands
/// on both sides.
pub fn project<W: Weight>(alloc: Global, a: &Fst<W>, output: bool) -> Result<Fst<W>, AllocError>
    ensures machine { IfOk result (λ m. valued W.value m ≡ projected output (valued W.value a.now)) }
    ensures relation { IfOk result (λ m. Projects W.KIND output (valued W.value a.now) (valued W.value m)) }
{
    with_labels(alloc, a, Projection { written: output })
}

/// The machine with each label that is an old one of its side's pairs replaced by its new label. (OpenFst
/// manual, "Relabel".) A look-up takes time that does not grow with the pairs.
pub fn relabel<W: Weight>(
    alloc: Global,
    a: &Fst<W>,
    input: &Pairs,
    output: &Pairs,
) -> Result<Fst<W>, AllocError>
    ensures machine { IfOk result (λ m. valued W.value m ≡ relabelled input.now output.now (valued W.value a.now)) }
    ensures relation { IfOk result (λ m. Relabels W.KIND input.now output.now (valued W.value a.now) (valued W.value m)) }
{
    let _counts = (input.count(), output.count());
    let rules = Relabelling { input, output };
    with_labels(alloc, a, rules)
}

/// The inversion of a machine that is given away, as `invert` makes it. It takes memory only where the arcs of the states do
/// not stand side by side.
pub fn into_inverted<W: Weight>(alloc: Global, a: Fst<W>) -> Result<Fst<W>, AllocError>
    ensures machine { IfOk result (λ m. valued W.value m ≡ inverted (valued W.value a)) }
    ensures relation { IfOk result (λ m. Inverts W.KIND (valued W.value a) (valued W.value m)) }
{
    with_labels_given(alloc, a, Inversion)
}

/// The projection of a machine that is given away, as `project` makes it. It takes memory only where the arcs of the states
/// do not stand side by side.
pub fn into_projected<W: Weight>(
    alloc: Global,
    a: Fst<W>,
    output: bool,
) -> Result<Fst<W>, AllocError>
    ensures machine { IfOk result (λ m. valued W.value m ≡ projected output (valued W.value a)) }
    ensures relation { IfOk result (λ m. Projects W.KIND output (valued W.value a) (valued W.value m)) }
{
    with_labels_given(alloc, a, Projection { written: output })
}

/// A machine that is given away with labels replaced by pairs, as `relabel` makes it. It takes memory only where the arcs of
/// the states do not stand side by side.
pub fn into_relabelled<W: Weight>(
    alloc: Global,
    a: Fst<W>,
    input: &Pairs,
    output: &Pairs,
) -> Result<Fst<W>, AllocError>
    ensures machine { IfOk result (λ m. valued W.value m ≡ relabelled input.now output.now (valued W.value a)) }
    ensures relation { IfOk result (λ m. Relabels W.KIND input.now output.now (valued W.value a) (valued W.value m)) }
{
    let _counts = (input.count(), output.count());
    let rules = Relabelling { input, output };
    with_labels_given(alloc, a, rules)
}
