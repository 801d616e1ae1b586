//! `make`. The totals were computed by a program of another language, which draws by the rule and walks each line by itself.

use crate::session::Row::{self, Holds, Lacks, Refuse, Run};
use crate::session::play;
use std::test::Fail;

/// The totals of three lines of seed 1, and of two of the greatest seed.
const THREE: &[u8] =
    b"first\t500\t26000\nsecond\t200\t5200\nlines\t3\nanswered\t3\nweights\t106\nexpansions\t551\n";

const GREATEST: &[u8] =
    b"first\t500\t26000\nsecond\t200\t5200\nlines\t2\nanswered\t2\nweights\t78\nexpansions\t3941\n";

/// The same three lines, of which two are refused by the limit.
const LIMITED: &[u8] =
    b"first\t500\t26000\nsecond\t200\t5200\nlines\t3\nanswered\t1\nweights\t26\nexpansions\t33\n";

/// No line.
const NONE: &[u8] =
    b"first\t500\t26000\nsecond\t200\t5200\nlines\t0\nanswered\t0\nweights\t0\nexpansions\t0\n";

const USAGE: &[u8] = b"fst: bad command line\n";

static ROWS: [Row; 20] = [
    Run("make --lines=3 out"),
    Holds("out", THREE),
    Run("fstmake --lines=3 --workers=2 --seed=1 out"),
    Holds("out", THREE),
    // The first of five paths is the best.
    Run("make --workers=64 --nshortest=5 --lines=3 out"),
    Holds("out", THREE),
    Run("make --max_states=20 --workers=3 --lines=3 out"),
    Holds("out", LIMITED),
    Run("make --seed=18446744073709551615 --lines=2 out"),
    Holds("out", GREATEST),
    Run("make --lines=0"),
    Holds("-", NONE),
    Refuse("make in o", 1, USAGE),
    Refuse("make --lines=10001 o", 1, USAGE),
    Refuse("make --seed=18446744073709551616 o", 1, USAGE),
    Refuse("make --workers=0 o", 1, USAGE),
    Refuse("make --summary o", 1, USAGE),
    Refuse("make --arc_type=tropical o", 1, USAGE),
    Lacks("o"),
    Lacks("in"),
];

#[test]
fn tells_totals(rt: HostRuntime) -> Result<(), Fail> {
    play(&rt, rt.alloc(), ROWS.as_slice())
}
