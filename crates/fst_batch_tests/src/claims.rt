//! Claims of a table of two places, and of a pass that was split.

use fst_claims::{Claim, Claims};
use std::test::Fail;

#[test]
fn claims_of_two_places(rt: HostRuntime) -> Result<(), Fail> {
    let (table, mut pass) = Claims::new(rt.alloc(), 2)?;
    let answers = [
        table.claim(&mut pass, 5),
        table.claim(&mut pass, 5),
        table.claim(&mut pass, 4),
        table.claim(&mut pass, 7),
        table.claim(&mut pass, 4),
    ];
    assert!(rt; answers[0] == Claim::Won && answers[1] == Claim::Taken);
    assert!(rt;
        answers[2] == Claim::Won && answers[3] == Claim::Full && answers[4] == Claim::Taken
    );
    Ok(())
}

#[test]
fn one_of_two_passes_wins(rt: HostRuntime) -> Result<(), Fail> {
    let (table, mut pass) = Claims::new(rt.alloc(), 2)?;
    let mut other = table.split(&mut pass);
    let second = table.claim(&mut other, 5);
    let first = table.claim(&mut pass, 5);
    table.join(&mut pass, other);
    assert!(rt; second == Claim::Won && first == Claim::Taken);
    assert!(rt; table.claim(&mut pass, 5) == Claim::Taken);
    Ok(())
}
