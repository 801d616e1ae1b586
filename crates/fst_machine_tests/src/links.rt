//! Lists of links, and the states that connecting keeps, of small tropical machines, by hand.

use fst_machine::{Fst, WideFst};
use fst_samples::{is_text, machine};
use fst_semiring::Tropical;
use fst_trim::{Connected, Handed, Link, Links, connect_kept};
use std::test::Fail;

const TEXT: &[u8] = b"0 1 5 0\n0 1 0 0\n1 0 2 2\n1 1 0 3\n1 1 0 0\n";

/// Where a link leads to, and its place.
type End = (u32, u32);

/// The links of both states: as they are, of epsilons alone, and turned round.
static LINKS: [[&[End]; 2]; 3] = [
    [&[(1, 0), (1, 1)], &[(0, 0), (1, 1), (1, 2)]],
    [&[(1, 1)], &[(1, 2)]],
    [&[(1, 0)], &[(0, 0), (0, 1), (1, 1), (1, 2)]],
];

/// Whether links lead to these ends, in this order.
fn are_ends<V: Copy>(links: &[Link<V>], ends: &[End]) -> bool {
    links.len() == ends.len()
        && links.iter().zip(ends).all(|(link, (next, place))| link.next == *next
            && link.place == *place)
}

/// Whether the links of state 0 and those of state 1 are these, and there are no others.
fn are_links<V: Copy>(links: &Links<V>, wanted: &[&[End]; 2]) -> bool {
    let [first, second] = wanted;
    links.len() == 2 && are_ends(links.links(0), first) && are_ends(links.links(1), second)
}

#[test]
fn lists_the_links_of_each_state(rt: HostRuntime) -> Result<(), Fail> {
    let alloc = rt.alloc();
    let fst: Fst<Tropical> = machine(alloc, TEXT)?;
    let [plain, epsilons, turned] = &LINKS;
    assert!(rt; are_links(&Links::of(alloc, &fst)?, plain));
    assert!(rt; are_links(&Links::epsilons(alloc, &fst)?, epsilons));
    assert!(rt; are_links(&Links::turned(alloc, &fst)?, turned));
    let wide: WideFst<Tropical> = WideFst::new(alloc);
    assert!(rt; Links::of(alloc, &wide)?.len() == 0);
    assert!(rt; Links::turned(alloc, &wide)?.len() == 0);
    Ok(())
}

#[test]
fn lists_the_kept_states(rt: HostRuntime) -> Result<(), Fail> {
    let fst: Fst<Tropical> = machine(rt.alloc(), b"1 0 1 1\n1 3 2 2\n0 3 3 3\n3\n")?;
    let Connected { machine, kept } = connect_kept(rt.alloc(), Handed::Lent(&fst))?;
    assert!(rt; kept.as_slice() == [0u32, 1, 3].as_slice());
    let text = b"1 0 1 1\n1 2 2 2\n0 2 3 3\n2\n";
    assert!(rt; is_text(rt.alloc(), machine.fst(), text)?);
    Ok(())
}
