//! A walk whose names can be moved and not copied.

ghost use Rattle.std.specs.Prelude.{[], Some};
ghost use Rattle.std.proofs.lemmas.Bool.Decides.{Decides-eqb};

use fst_keys::{Code, Coded};
use fst_semiring::{Tropical, Weight};
use fst_walk::{NameArc, Names, Room, walk};
use std::alloc::{AllocError, Global};
use std::marker::Model;
use std::test::Fail;

/// A name that can be moved and not copied.
#[derive(PartialEq, Eq, Drop)]
struct Mark {
    place: u32,
}

impl Model for Mark {
    ghost use Rattle.std.specs.Prelude.{ℕ};

    ghost Value = { ℕ };

    ghost view = { λ m. m.place };

    ghost inverse = { λ n. record { place = n } };
}

/// A name is found by its place.
impl Coded for Mark {
    type Whole = u32;

    ghost code = { λ n. n };

    ghost whole = { λ n. n };

    fn code(&self) -> Code {
        Code {
            number: u64::from(self.place),
            is_alone: true,
        }
    }

    fn whole(&self, _alloc: Global) -> Result<u32, AllocError> {
        Ok(self.place)
    }

    ghost same = { λ a b. Decides-eqb a b };

    ghost apart = { λ a b e. e };

    ghost compared = { λ a b. Decides-eqb a b };
}

/// The graph of one name without arcs.
struct Lone;

impl Names<Tropical> for Lone {
    ghost use Rattle.std.specs.Prelude.{[], Some, refl};
    ghost use Rattle.fst_semiring.specs.Cost.{infinite};

    type Key = Mark;

    type Fault = AllocError;

    type Scratch = ();

    ghost graph = { λ s. record { start = Some 7; arcs = λ n. []; final = λ n. infinite } };

    ghost rest = { λ s n from. [] };

    ghost holds = { λ s. Unit {0} };

    fn start(&self) -> Option<Mark> {
        Some(Mark { place: 7 })
    }

    fn scratch(_alloc: Global) {}

    fn put_part(
        &self,
        _scratch: &mut (),
        _out: &mut Vec<NameArc<Mark, Tropical>>,
        _key: &Mark,
        _from: u32,
    ) -> Result<Option<u32>, AllocError> {
        Ok(None)
    }

    fn final_weight(&self, _key: &Mark) -> <Tropical as Weight>::Wide {
        Tropical::zero().widen()
    }

    ghost whole = { λ s n. refl };

    ghost good = { λ s h n near k a e. absurd (Prim.cc) };
}

#[test]
fn moves_its_names(rt: HostRuntime) -> Result<(), Fail> {
    let room = Room { states: 1, arcs: 0 };
    let walked = walk::<Tropical, Lone>(rt.alloc(), &Lone, room, 1)?;
    let made = walked.expect(&rt, "a machine");
    assert!(rt; made.fst.states() == 1 && made.fst.start() == Some(0));
    assert!(rt; made.names.len() == 1);
    assert!(rt; made.names.item(0).place == 7);
    Ok(())
}
