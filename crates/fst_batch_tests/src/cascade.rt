//! What the generator draws first, from seed 1.

use fst_lattice::make_cascade;
use fst_semiring::Weight;
use std::test::Fail;

#[test]
fn first_arcs_of_seed_1(rt: HostRuntime) -> Result<(), Fail> {
    let cascade = make_cascade(rt.alloc(), 1, 0)?;
    assert!(rt; cascade.first.states() == 500 && cascade.first.arc_count() == 26_000);
    assert!(rt; cascade.second.states() == 200 && cascade.second.arc_count() == 5_200);
    assert!(rt; cascade.lines.count() == 0);
    let [one, two, ..] = cascade.first.arcs(0) else {
        panic!(rt; "state 0 has no two arcs")
    };
    assert!(rt; one.ilabel == 97 && one.olabel == 113 && one.next == 196);
    assert!(rt; two.ilabel == 97 && two.olabel == 0);
    let one_text = one.weight.weight_text(rt.alloc())?;
    let two_text = two.weight.weight_text(rt.alloc())?;
    assert!(rt; one_text.as_slice() == b"3".as_slice() && two_text.as_slice() == b"5".as_slice());
    Ok(())
}
