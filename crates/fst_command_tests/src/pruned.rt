//! `prune`.

use crate::session::Row::{self, Lacks, Machine, Makes, Refuse};
use crate::session::play;
use std::test::Fail;

/// The machine with paths of weights 1, 4 and 6, printed.
const THREE: &[u8] = b"0\t1\t1\t1\t1\n0\t1\t2\t2\t4\n1\t2\t3\t3\n1\t3\t4\t4\t5\n2\n3\n";

/// What is within 3 of its best path.
const WITHIN_3: &[u8] = b"0\t1\t1\t1\t1\n0\t1\t2\t2\t4\n1\t2\t3\t3\n2\n";

static PRUNED: [Row; 45] = [
    Machine(
        "m",
        "tropical",
        b"0 1 1 1 1\n0 1 2 2 4\n1 2 3 3\n1 3 4 4 5\n2\n3\n",
    ),
    Makes("prune --weight=3 m r", WITHIN_3),
    Makes("prune --weight=3 --queue_type=auto m r", WITHIN_3),
    Makes("prune --weight=3 --queue_type=fifo m r", WITHIN_3),
    Makes("prune --queue_type=lifo --weight=3 m r", WITHIN_3),
    Makes("fstprune m --weight=3 r --queue_type=shortest", WITHIN_3),
    Makes("prune --weight 2 m r", b"0\t1\t1\t1\t1\n1\t2\t3\t3\n2\n"),
    // The default is Zero, which keeps all successful paths.
    Makes("prune m r", THREE),
    Makes("prune --weight=Infinity m r", THREE),
    // A threshold better than One keeps nothing.
    Makes("prune --weight=-1 m r", b""),
    Refuse("prune --weight=x m o", 1, b"fst: bad threshold\n"),
    Refuse("prune --weight= m o", 1, b"fst: bad threshold\n"),
    Refuse("prune --weight=1,2 m o", 1, b"fst: bad threshold\n"),
    Refuse(
        "prune --weight=1000000000000000001 m o",
        1,
        b"fst: bad threshold\n",
    ),
    Makes("prune --weight=1000000000000000000 m r", THREE),
    // A cycle that counts, and the threshold that is asked first.
    Machine("m", "tropical", b"0 0 1 1 -1\n0\n"),
    Refuse("prune m o", 1, b"fst: improving cycle\n"),
    Refuse("prune --weight=x m o", 1, b"fst: bad threshold\n"),
    // One that does not.
    Machine("m", "tropical", b"0 1 1 1 2\n0 2 2 2\n2 2 3 3 -1\n1\n"),
    Makes("prune m r", b"0\t1\t1\t1\t2\n1\n"),
    // Both ends of the second arc are good, and it is not.
    Machine("m", "tropical", b"0 1 1 1\n0 1 2 2 9\n1\n"),
    Makes("prune --weight=1 m r", b"0\t1\t1\t1\n1\n"),
    // A final weight with which no good path ends.
    Machine("m", "tropical", b"0 1 1 1\n0 9\n1\n"),
    Makes("prune --weight=1 m r", b"0\t1\t1\t1\n1\n"),
    // Weights past 10 to the 18 on the way.
    Machine(
        "m",
        "tropical",
        b"0 1 1 1 1000000000000000000\n1 2 2 2 1000000000000000000\n0 2 3 3 999999999999999999\n2 1000000000000000000\n",
    ),
    Makes(
        "prune --weight=1000000000000000000 m r",
        b"0\t1\t3\t3\t999999999999999999\n1\t1000000000000000000\n",
    ),
    // No successful path.
    Machine("m", "tropical", b"0 1 1 1\n"),
    Makes("prune m r", b""),
    // Min-max: below, at and above the best weight, and the best of all.
    Machine("m", "minmax", b"0 1 1 1 3\n0 1 2 2 5\n1 -Infinity\n"),
    Makes("prune --weight=2 m r", b"0\t1\t1\t1\t3\n1\n"),
    Makes("prune --weight=3 m r", b"0\t1\t1\t1\t3\n1\n"),
    Makes("prune --weight=5 m r", b"0\t1\t1\t1\t3\n0\t1\t2\t2\t5\n1\n"),
    Makes("prune --weight=-Infinity m r", b"0\t1\t1\t1\t3\n1\n"),
    Makes("prune m r", b"0\t1\t1\t1\t3\n0\t1\t2\t2\t5\n1\n"),
    Machine("m", "boolean", b"0 1 1 1\n0 2 2 2\n1 1 3 3\n1\n"),
    Makes("prune --weight=0 m r", b"0\t1\t1\t1\n1\t1\t3\t3\n1\n"),
    Makes("prune --weight=1 m r", b"0\t1\t1\t1\n1\t1\t3\t3\n1\n"),
    Refuse("prune --weight=2 m o", 1, b"fst: bad threshold\n"),
    Machine("m", "lexicographic", b"0 1 1 1 1,5\n0 1 2 2 2,0\n1\n"),
    Makes("prune --weight=0,0 m r", b"0\t1\t1\t1\t1,5\n1\n"),
    Makes(
        "prune --weight=1,-5 m r",
        b"0\t1\t1\t1\t1,5\n0\t1\t2\t2\t2,0\n1\n",
    ),
    Makes("prune --weight=1,-6 m r", b"0\t1\t1\t1\t1,5\n1\n"),
    Makes("prune --weight=0,-1 m r", b""),
    Refuse("prune --weight=3 m o", 1, b"fst: bad threshold\n"),
    Lacks("o"),
];

#[test]
fn good_paths_stay(rt: HostRuntime) -> Result<(), Fail> {
    play(&rt, rt.alloc(), PRUNED.as_slice())
}
