//! The first arc that keeps one of two machines from being an acceptor.

ghost use Rattle.std.specs.Prelude.{MatchOption};
ghost use Rattle.fst_machine.specs.Machine.{valued};
ghost use Rattle.fst_setops.specs.Answers.{AreAcceptors, IsSplit};

use fst_machine::Fst;
use fst_semiring::Weight;
use fst_trim::not_acceptor_at;

/// An arc with two different labels of one of two machines.
#[derive(Clone, Copy, Debug)]
pub(crate) struct Split {
    /// Whether it is one of the second.
    pub(crate) second: bool,
    /// The number of its state.
    pub(crate) state: u32,
    /// Its place among the arcs of the state.
    pub(crate) place: u32,
}

/// The first arc with two different labels, by state then place; of the second machine where the first has none. Takes no
/// memory.
pub(crate) fn split_at<W: Weight>(a: &Fst<W>, b: &Fst<W>) -> Option<Split>
    ensures { MatchOption result (AreAcceptors (valued W.value a.now) (valued W.value b.now)) (λ s. IsSplit (valued W.value a.now) (valued W.value b.now) s.second s.state s.place) }
{
    if let Some(step) = not_acceptor_at(a) {
        return Some(Split {
            second: false,
            state: step.state,
            place: step.place,
        });
    }
    if let Some(step) = not_acceptor_at(b) {
        return Some(Split {
            second: true,
            state: step.state,
            place: step.place,
        });
    }
    None
}
