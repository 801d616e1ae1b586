//! Machines from texts, and the machines that operations are tried on, for each arc type.

ghost use Rattle.std.specs.Prelude.{◌≡◌, None, IfOk};

use fst_machine::{Fst, StateList};
use fst_semiring::{ArcType, Weight};
use fst_text::{TextOptions, compile};
use std::alloc::{AllocError, Global};
use std::test::Fail;

/// The texts of the two machines of an arc type, with the numbers of their states; the first line begins with the
/// start. The first has a cycle with labels, epsilons on one side, arcs out of order on both sides, state 0, which
/// reaches no final state, and state 2, which is not reached. The second has epsilon cycles: of one arc, of two,
/// and of two with an output label. The weights differ from arc to arc where the arc type has more than one; those
/// of the tropical and the lexicographic cycle of two arcs improve without end.
fn texts_of(kind: ArcType) -> (&'static [u8], &'static [u8]) {
    match kind {
        ArcType::Boolean => (
            b"3 0 1 1\n3 1 1 2\n3 1 3 0\n3 4 2 1\n1 1 2 2\n1 4 0 1\n2 1 1 1\n1\n4\n",
            b"1 1 0 0\n1 0 1 1\n1 0 0 0\n0 1 0 2\n0 1 0 0\n0\n",
        ),
        ArcType::Tropical => (
            b"3 0 1 1 7\n3 1 1 2 5\n3 1 3 0 -1\n3 4 2 1 4\n1 1 2 2 2\n1 4 0 1\n2 1 1 1 1\n1 3\n4 -2\n",
            b"1 1 0 0 1\n1 0 1 1 2\n1 0 0 0\n0 1 0 2 -3\n0 1 0 0 -4\n0 4\n",
        ),
        ArcType::MinMax => (
            b"3 0 1 1 7\n3 1 1 2 5\n3 1 3 0 -1\n3 4 2 1 4\n1 1 2 2 2\n1 4 0 1\n2 1 1 1 1\n1 3\n4 -2\n",
            b"1 1 0 0 1\n1 0 1 1 2\n1 0 0 0\n0 1 0 2 -3\n0 1 0 0 4\n0 -4\n",
        ),
        ArcType::Lexicographic => (
            b"3 0 1 1 7,7\n3 1 1 2 5,1\n3 1 3 0 -1,2\n3 4 2 1 4,0\n1 1 2 2 2,-3\n1 4 0 1\n2 1 1 1 1,1\n1 3,4\n4 -2,0\n",
            b"1 1 0 0 0,1\n1 0 1 1 2,2\n1 0 0 0\n0 1 0 2 -3,5\n0 1 0 0 0,-1\n0 4,4\n",
        ),
    }
}

/// The machine of a text, with the numbers of its states; the first line begins with the start.
pub fn machine<W: Weight>(alloc: Global, text: &[u8]) -> Result<Fst<W>, Fail> {
    let options = TextOptions {
        acceptor: false,
        keep_state_numbering: true,
        show_weight_one: false,
        isymbols: None,
        osymbols: None,
    };
    let fst = compile(alloc, text, &options)?;
    Ok(fst)
}

/// Whether two machines have the same start, states, final weights and arcs, in the same order.
pub fn same<W: Weight>(a: &Fst<W>, b: &Fst<W>) -> bool {
    let states = a.states();
    if a.start() != b.start() || states != b.states() {
        return false;
    }
    for state in 0..states {
        if a.final_weight(state) != b.final_weight(state) || a.arcs(state) != b.arcs(state) {
            return false;
        }
    }
    true
}

/// Whether a machine is that of a text.
pub fn is_text<W: Weight>(alloc: Global, fst: &Fst<W>, text: &[u8]) -> Result<bool, Fail> {
    let wanted = machine(alloc, text)?;
    Ok(same(fst, &wanted))
}

/// The same machine without its start.
pub fn without_start<W: Weight>(alloc: Global, fst: &Fst<W>) -> Result<Fst<W>, AllocError>
    ensures { IfOk result (λ m. m ≡ record { start = None; states = fst.now.states }) }
{
    let states = fst.states();
    let mut list = StateList::with_capacity(alloc, states as usize, fst.arc_count() as usize)?;
    for state in 0..states {
        list.push(fst.final_weight(state), fst.arcs(state))?;
    }
    Ok(list.into_machine(None))
}

/// The machines of an arc type, in this order: one without epsilon cycles, one with them, the first without its
/// start, and the one without states.
pub fn machines<W: Weight>(alloc: Global) -> Result<Vec<Fst<W>>, Fail> {
    let (plain, cyclic) = texts_of(W::KIND);
    let plain: Fst<W> = machine(alloc, plain)?;
    let cyclic: Fst<W> = machine(alloc, cyclic)?;
    let bare = without_start(alloc, &plain)?;
    let mut list = Vec::new(alloc);
    list.push(plain)?;
    list.push(cyclic)?;
    list.push(bare)?;
    list.push(Fst::new(alloc))?;
    Ok(list)
}
