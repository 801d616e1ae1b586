//! `shortestpath`, of paths and of strings.

use crate::session::Row::{self, Lacks, Machine, Makes, Refuse};
use crate::session::play;
use std::test::Fail;

static PATHS: [Row; 21] = [
    Machine("m", "tropical", b"0 1 1 1 2\n0 1 2 2 2\n1 1 3 3\n1\n"),
    Makes(
        "shortestpath --nshortest=4 m r",
        b"0\t1\t1\t1\t2\n0\t2\t2\t2\t2\n0\t3\t1\t1\t2\n0\t5\t2\t2\t2\n1\n2\n3\t4\t3\t3\n4\n5\t6\t3\t3\n6\n",
    ),
    // One path without the option.
    Makes("fstshortestpath m r", b"0\t1\t1\t1\t2\n1\n"),
    Machine("m", "tropical", b"0 1 1 1 2\n0 1 2 2 2\n1\n"),
    Makes(
        "shortestpath --nshortest=9 m r",
        b"0\t1\t1\t1\t2\n0\t2\t2\t2\t2\n1\n2\n",
    ),
    Refuse(
        "shortestpath --nshortest=0 m o",
        1,
        b"fst: bad command line\n",
    ),
    // Both paths weigh 5, and the one with fewer arcs goes first.
    Machine(
        "m",
        "minmax",
        b"0 1 1 1 5\n1 2 2 2 5\n1 3 3 3 3\n3 2 4 4 3\n2 -Infinity\n",
    ),
    Makes("shortestpath m r", b"0\t1\t1\t1\t5\n1\t2\t2\t2\t5\n2\n"),
    Makes(
        "shortestpath --nshortest=2 m r",
        b"0\t1\t1\t1\t5\n0\t3\t1\t1\t5\n1\t2\t2\t2\t5\n2\n3\t4\t3\t3\t3\n4\t5\t4\t4\t3\n5\n",
    ),
    // The path without arcs, and no path.
    Machine("m", "tropical", b"0 3\n"),
    Makes("shortestpath m r", b"0\t3\n"),
    Machine("m", "tropical", b"0 1 1 1\n"),
    Makes("shortestpath m r", b""),
    // A cycle that is better than One, on successful paths, and where no successful path meets it.
    Machine("m", "tropical", b"0 0 1 1 -1\n0\n"),
    Refuse("shortestpath m o", 1, b"fst: improving cycle\n"),
    Lacks("o"),
    Machine("m", "tropical", b"0 0 1 1 -1\n"),
    Makes("shortestpath m r", b""),
    // The second number decides.
    Machine("m", "lexicographic", b"0 1 1 1 2,5\n0 1 2 2 2,4\n1 0,0\n"),
    Makes(
        "shortestpath --nshortest=2 m r",
        b"0\t1\t2\t2\t2,4\n0\t2\t1\t1\t2,5\n1\n2\n",
    ),
    Makes("shortestpath m r", b"0\t1\t2\t2\t2,4\n1\n"),
];

#[test]
fn the_best_paths_are_listed(rt: HostRuntime) -> Result<(), Fail> {
    play(&rt, rt.alloc(), PATHS.as_slice())
}

static STRINGS: [Row; 22] = [
    // The string with two paths has the better of their weights.
    Machine(
        "m",
        "tropical",
        b"0 1 1 1 1\n0 2 1 1 2\n1 3 3 3 5\n2 3 3 3 1\n3\n",
    ),
    Makes(
        "shortestpath --unique --nshortest=2 m r",
        b"0\t1\t1\t1\n1\t2\t3\t3\n2\t3\n",
    ),
    Makes(
        "fstshortestpath m --unique r",
        b"0\t1\t1\t1\n1\t2\t3\t3\n2\t3\n",
    ),
    // No number of subsets is too many.
    Machine(
        "m",
        "tropical",
        b"0 1 1 1\n0 2 1 1\n1 1 2 2 1\n2 2 2 2 2\n1\n2\n",
    ),
    Refuse(
        "determinize --max_states=5 m o",
        1,
        b"fst: state limit 5 passed\n",
    ),
    Makes(
        "shortestpath --nshortest=3 --unique m r",
        b"0\t1\t1\t1\n0\t2\t1\t1\n0\t4\t1\t1\n1\n2\t3\t2\t2\n3\t1\n4\t5\t2\t2\n5\t6\t2\t2\n6\t2\n",
    ),
    // Many paths of one string, and fewer strings than are asked for.
    Machine(
        "m",
        "tropical",
        b"0 1 1 1 2\n0 1 1 1 1\n0 2 1 1 3\n0 1 1 1 1\n1\n2\n",
    ),
    Makes(
        "shortestpath --unique --nshortest=9 m r",
        b"0\t1\t1\t1\n1\t1\n",
    ),
    // Labels decide between strings of one weight and one length, and not the places of arcs.
    Machine("m", "tropical", b"0 1 5 5 1\n0 1 3 3 1\n1\n"),
    Makes(
        "shortestpath --unique --nshortest=2 m r",
        b"0\t1\t3\t3\n0\t2\t5\t5\n1\t1\n2\t1\n",
    ),
    // The empty string ends in the start, wherever it is listed.
    Machine("m", "tropical", b"0 1 1 1 -1\n0\n1\n"),
    Makes(
        "shortestpath --unique --nshortest=2 m r",
        b"0\t1\t1\t1\n0\n1\t-1\n",
    ),
    Machine("m", "tropical", b"0 3\n"),
    Makes("shortestpath --unique m r", b"0\t3\n"),
    Machine("m", "tropical", b"0 1 1 1\n"),
    Makes("shortestpath --unique m r", b""),
    // The best string behind 1 is better than 5, which another path of it weighs: the next one behind 1 is longer than 2 2.
    Machine(
        "m",
        "minmax",
        b"0 1 1 1 3\n0 3 2 2 5\n1 2 2 2 3\n1 2 2 2 5\n1 4 3 3 5\n3 2 2 2 3\n4 2 4 4 3\n2 -Infinity\n",
    ),
    Makes(
        "shortestpath --unique --nshortest=3 m r",
        b"0\t1\t1\t1\n0\t3\t2\t2\n0\t5\t1\t1\n1\t2\t2\t2\n2\t3\n3\t4\t2\t2\n4\t5\n5\t6\t3\t3\n6\t7\t4\t4\n7\t5\n",
    ),
    Machine("m", "boolean", b"0 1 1 1\n1 1 1 1\n0 1 1 1\n1\n"),
    Makes(
        "shortestpath --unique --nshortest=2 m r",
        b"0\t1\t1\t1\n0\t2\t1\t1\n1\n2\t3\t1\t1\n3\n",
    ),
    Machine(
        "m",
        "lexicographic",
        b"0 1 2 2 2,4\n0 1 1 1 2,5\n0 1 1 1 2,4\n1 0,0\n",
    ),
    Makes(
        "shortestpath --unique --nshortest=3 m r",
        b"0\t1\t1\t1\n0\t2\t2\t2\n1\t2,4\n2\t2,4\n",
    ),
];

#[test]
fn the_best_strings_are_listed_once(rt: HostRuntime) -> Result<(), Fail> {
    play(&rt, rt.alloc(), STRINGS.as_slice())
}

static UNLISTED: [Row; 20] = [
    Machine("m", "tropical", b"0 1 1 2 5\n1 3\n"),
    Refuse(
        "shortestpath --unique m o",
        1,
        b"fst: not an acceptor at state 0 arc 0\n",
    ),
    Makes("shortestpath m r", b"0\t1\t1\t2\t5\n1\t3\n"),
    Machine("m", "tropical", b"0 1 0 0\n1\n"),
    Refuse(
        "shortestpath --unique m o",
        1,
        b"fst: epsilon at state 0 arc 0\n",
    ),
    // The order of the causes; the first two are sought on all states.
    Machine(
        "m",
        "tropical",
        b"0 0 1 1 -1\n0 1 0 0\n0\n1\n2 2 1 1\n2 2 1 2\n",
    ),
    Refuse(
        "shortestpath --unique m o",
        1,
        b"fst: not an acceptor at state 2 arc 1\n",
    ),
    Machine("m", "tropical", b"0 0 1 1 -1\n0\n1 1 1 1\n1 1 0 0\n"),
    Refuse(
        "shortestpath --unique m o",
        1,
        b"fst: epsilon at state 1 arc 1\n",
    ),
    Machine(
        "m",
        "tropical",
        b"0 0 1 1 -1\n0 1 2 2 1000000000000000000\n0\n1 1\n",
    ),
    Refuse("shortestpath --unique m o", 1, b"fst: improving cycle\n"),
    Machine("m", "tropical", b"0 0 1 1 -1\n"),
    Makes("shortestpath --unique m r", b""),
    // Weights past 10 to the 18, and the least state in which such a string ends.
    Machine("m", "tropical", b"0 1 1 1 1000000000000000000\n1 1\n"),
    Refuse(
        "shortestpath --unique m o",
        1,
        b"fst: number too large at state 1\n",
    ),
    Machine(
        "m",
        "tropical",
        b"0 1 1 1 1000000000000000000\n0 2 2 2 1000000000000000000\n1\n2 1\n",
    ),
    Makes(
        "shortestpath --unique m r",
        b"0\t1\t1\t1\n1\t1000000000000000000\n",
    ),
    Refuse(
        "shortestpath --unique --nshortest=2 m o",
        1,
        b"fst: number too large at state 2\n",
    ),
    Refuse(
        "shortestpath --unique --nshortest=0 m o",
        1,
        b"fst: bad command line\n",
    ),
    Lacks("o"),
];

#[test]
fn strings_are_refused_by_the_first_cause(rt: HostRuntime) -> Result<(), Fail> {
    play(&rt, rt.alloc(), UNLISTED.as_slice())
}
