//! What a command is given.

ghost use Rattle.std.specs.Prelude.{◌≡◌, [], ◌∷◌, length};
ghost use Rattle.fst_verbs.specs.Given.{arc_type_of};

use fst_codex::Codex;
use fst_machine::Fst;
use fst_rational::Pairs;
use fst_semiring::{ArcType, Weight};
use fst_words::Options;

/// What a command is given beside the symbol tables: the other files of its options, and what it works on, all of one arc
/// type.
#[derive(Drop)]
pub struct Given<W: Weight> {
    /// The new labels of the input side.
    pub ipairs: Pairs,
    /// Those of the output side.
    pub opairs: Pairs,
    /// Lines.
    pub lines: Vec<u8>,
    /// The machines, in the order in which they were read.
    pub machines: Vec<Fst<W>>,
    /// The codex.
    pub codex: Option<Codex<W>>,
    /// Where the text of the output may be made: the content of the machine that is printed.
    pub text_room: Vec<u8>,
}

/// The arc type of a machine that is made without a machine: tropical without the option.
pub fn arc_type_of(options: &Options) -> ArcType
    ensures { result ≡ arc_type_of options.now }
{
    match options.arc_type {
        Some(kind) => kind,
        None => ArcType::Tropical,
    }
}

/// The one machine of a list.
pub(crate) fn one<W: Weight>(list: Vec<Fst<W>>) -> Fst<W>
    requires { length list.items ≡ 1 }
    ensures { list.items ≡ result ∷ [] }
{
    let mut list = list;
    match list.pop() {
        Some(machine) => machine,
        None => unreachable!(),
    }
}

/// The two machines of a list.
fn two<W: Weight>(list: Vec<Fst<W>>) -> (Fst<W>, Fst<W>)
    requires { length list.items ≡ 2 }
    ensures { list.items ≡ result.0 ∷ result.1 ∷ [] }
{
    let mut list = list;
    let second = match list.pop() {
        Some(machine) => machine,
        None => unreachable!(),
    };
    (one(list), second)
}

impl<W: Weight> Given<W> {
    /// The one machine. All else is freed.
    pub(crate) fn one(self) -> Fst<W>
        requires { length self.machines.items ≡ 1 }
        ensures { self.machines.items ≡ result ∷ [] }
    {
        one(self.machines)
    }

    /// The two machines. All else is freed.
    pub(crate) fn two(self) -> (Fst<W>, Fst<W>)
        requires { length self.machines.items ≡ 2 }
        ensures { self.machines.items ≡ result.0 ∷ result.1 ∷ [] }
    {
        two(self.machines)
    }
}
