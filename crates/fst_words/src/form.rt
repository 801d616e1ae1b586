//! The commands, a row each: what a command that is added takes stands here and in `specs/Forms.antt`.

ghost use Rattle.std.specs.Prelude.{◌≡◌, map};
ghost use Rattle.fst_words.specs.Commands.{flags_of, options_of};
ghost use Rattle.fst_words.specs.Forms.{all_of, carries_of, form_of, has_rules, least_of, place_of, role_of};
ghost use Rattle.fst_words.specs.Verbs.{name_of};

use crate::verb::Verb;

/// How many names a command takes, and which of them are stored. Missing names are `-`.
#[derive(Clone, Copy, Debug, PartialEq, Eq)]
pub(crate) enum Shape {
    /// An output alone.
    NoInput,
    /// A text and an output, which may be missing.
    Text,
    /// A machine and an output, which may be missing.
    One,
    /// Two machines, and an output, which may be missing.
    Two,
    /// Two machines, and lines and an output, which may be missing.
    Three,
    /// Pairs of a machine and a label, and an output, which may be missing.
    Rules,
    /// A machine and a codex, which is stored first unless it is decoded by, and an output, which may be missing.
    Codex,
}

/// What becomes of the content of a machine that a command has read, while the command works. No result depends on it.
#[derive(Clone, Copy, Debug, PartialEq, Eq)]
pub enum Room {
    /// It is freed, since lists as long as the machine are made.
    Freed,
    /// The bytes of the output are made where it is: the command changes its machine in place.
    Output,
    /// The same, but only of a machine with few arcs: the command makes lists of its states and arcs.
    LightOutput,
    /// The text of the output is made where it is.
    Text,
}

/// The symbol tables that the machine of a command's output carries.
#[derive(Clone, Copy, Debug, PartialEq, Eq)]
pub enum Carries {
    /// None: its labels are new ones, or the output is no machine.
    Nothing,
    /// Those of the options, as far as the words keep them.
    Kept,
    /// Those of the first machine that is read.
    First,
    /// The same, each on the other side.
    Exchanged,
    /// That of the side on which the labels are kept, on both sides.
    OneSide,
    /// The input side's of the first machine that is read, and the output side's of the last.
    Outer,
}

/// What a command takes, and what it does with the contents that it reads.
#[derive(Clone, Copy)]
pub(crate) struct Form {
    /// The name, without `fst` in front.
    pub(crate) name: &'static str,
    /// The options with a value.
    pub(crate) options: &'static [&'static str],
    /// The flags, which have no value.
    pub(crate) flags: &'static [&'static str],
    /// The shape of its names.
    pub(crate) shape: Shape,
    /// What becomes of the content of a machine.
    pub(crate) room: Room,
    /// The symbol tables that the machine of its output carries.
    pub(crate) carries: Carries,
}

/// A row of the table: a command, its name without `fst` in front, its options with a value, its flags, which have no
/// value, the shape of its names, what becomes of the content of a machine, and the symbol tables that that of its output
/// carries.
type Row = (
    Verb,
    &'static str,
    &'static [&'static str],
    &'static [&'static str],
    Shape,
    Room,
    Carries,
);

/// The commands, a row each, in the order of `Verb`.
pub(crate) static ROWS: &[Row] = &[
    (
        Verb::Compile,
        "compile",
        &["arc_type", "isymbols", "osymbols"],
        &[
            "acceptor",
            "keep_state_numbering",
            "keep_isymbols",
            "keep_osymbols",
        ],
        Shape::Text,
        Room::Output,
        Carries::Kept,
    ),
    (
        Verb::Print,
        "print",
        &["isymbols", "osymbols"],
        &["acceptor", "show_weight_one", "numeric"],
        Shape::One,
        Room::Text,
        Carries::Nothing,
    ),
    (
        Verb::Info,
        "info",
        &[],
        &[],
        Shape::One,
        Room::Freed,
        Carries::Nothing,
    ),
    (
        Verb::Invert,
        "invert",
        &[],
        &[],
        Shape::One,
        Room::Output,
        Carries::Exchanged,
    ),
    (
        Verb::Reverse,
        "reverse",
        &[],
        &[],
        Shape::One,
        Room::Freed,
        Carries::First,
    ),
    (
        Verb::Connect,
        "connect",
        &[],
        &[],
        Shape::One,
        Room::LightOutput,
        Carries::First,
    ),
    (
        Verb::Union,
        "union",
        &[],
        &[],
        Shape::Two,
        Room::Output,
        Carries::First,
    ),
    (
        Verb::Concat,
        "concat",
        &[],
        &[],
        Shape::Two,
        Room::Output,
        Carries::First,
    ),
    (
        Verb::Closure,
        "closure",
        &[],
        &["closure_plus"],
        Shape::One,
        Room::Output,
        Carries::First,
    ),
    (
        Verb::Project,
        "project",
        &[],
        &["project_output"],
        Shape::One,
        Room::Output,
        Carries::OneSide,
    ),
    (
        Verb::Replace,
        "replace",
        &[],
        &[],
        Shape::Rules,
        Room::Freed,
        Carries::Nothing,
    ),
    (
        Verb::Relabel,
        "relabel",
        &["relabel_ipairs", "relabel_opairs"],
        &[],
        Shape::One,
        Room::Output,
        Carries::Nothing,
    ),
    (
        Verb::Arcsort,
        "arcsort",
        &["sort_type"],
        &[],
        Shape::One,
        Room::Output,
        Carries::First,
    ),
    (
        Verb::Compose,
        "compose",
        &["connect", "max_states"],
        &[],
        Shape::Two,
        Room::Freed,
        Carries::Outer,
    ),
    (
        Verb::Rmepsilon,
        "rmepsilon",
        &["connect", "queue_type"],
        &[],
        Shape::One,
        Room::Freed,
        Carries::First,
    ),
    (
        Verb::Shortestdistance,
        "shortestdistance",
        &["queue_type"],
        &["reverse"],
        Shape::One,
        Room::Freed,
        Carries::Nothing,
    ),
    (
        Verb::Shortestpath,
        "shortestpath",
        &["nshortest"],
        &["unique"],
        Shape::One,
        Room::Freed,
        Carries::First,
    ),
    (
        Verb::Push,
        "push",
        &["queue_type"],
        &["push_weights", "remove_total_weight"],
        Shape::One,
        Room::Freed,
        Carries::First,
    ),
    (
        Verb::Encode,
        "encode",
        &[],
        &["encode_labels", "encode_weights", "decode"],
        Shape::Codex,
        Room::Freed,
        Carries::Nothing,
    ),
    (
        Verb::Determinize,
        "determinize",
        &["max_states"],
        &[],
        Shape::One,
        Room::Freed,
        Carries::First,
    ),
    (
        Verb::Minimize,
        "minimize",
        &["queue_type"],
        &[],
        Shape::One,
        Room::Freed,
        Carries::First,
    ),
    (
        Verb::Prune,
        "prune",
        &["weight", "queue_type"],
        &[],
        Shape::One,
        Room::Freed,
        Carries::First,
    ),
    (
        Verb::Intersect,
        "intersect",
        &["connect", "max_states"],
        &[],
        Shape::Two,
        Room::Freed,
        Carries::Outer,
    ),
    (
        Verb::Difference,
        "difference",
        &["connect", "max_states"],
        &[],
        Shape::Two,
        Room::Freed,
        Carries::First,
    ),
    (
        Verb::Equivalent,
        "equivalent",
        &["max_states"],
        &[],
        Shape::Two,
        Room::Freed,
        Carries::Nothing,
    ),
    (
        Verb::Batch,
        "batch",
        &["nshortest", "workers", "max_states"],
        &["summary"],
        Shape::Three,
        Room::Freed,
        Carries::Nothing,
    ),
    (
        Verb::Make,
        "make",
        &["seed", "lines", "nshortest", "workers", "max_states"],
        &[],
        Shape::NoInput,
        Room::Freed,
        Carries::Nothing,
    ),
];

/// What each command takes.
pub(crate) fn form_of(verb: Verb) -> Form
    ensures name { result.name.now ≡ name_of verb }
    ensures options { map (λ s. s.now) result.options.now ≡ options_of verb }
    ensures flags { map (λ s. s.now) result.flags.now ≡ flags_of verb }
    ensures shape { result.shape ≡ (form_of verb).shape }
    ensures carries { result.carries ≡ carries_of verb }
{
    let (_, name, options, flags, shape, room, carries) = ROWS[verb as usize];
    Form {
        name,
        options,
        flags,
        shape,
        room,
        carries,
    }
}

impl Shape {
    /// How many names must be given.
    pub(crate) fn least(self) -> usize
        ensures { result ≡ least_of self }
    {
        match self {
            Shape::NoInput | Shape::Text | Shape::One => 0,
            Shape::Two | Shape::Three | Shape::Rules | Shape::Codex => 2,
        }
    }

    /// How many names there are, with those that are missing, where so many are given.
    pub(crate) fn all(self, given: usize) -> usize
        ensures { result ≡ all_of self given }
    {
        match self {
            Shape::NoInput => 1,
            Shape::Text | Shape::One => 2,
            Shape::Two => 3,
            Shape::Three => 4,
            Shape::Rules => 2 * (given / 2) + 1,
            Shape::Codex => 3,
        }
    }

    /// The place of the first name that is stored.
    pub(crate) fn output_place(self, decode: bool, names: usize) -> usize
        ensures { result ≡ place_of self decode names }
    {
        match self {
            Shape::NoInput => 0,
            Shape::Text | Shape::One => 1,
            Shape::Two => 2,
            Shape::Three => 3,
            Shape::Rules => names.saturating_sub(1),
            Shape::Codex => { if decode { 2 } else { 1 } }
        }
    }

    /// Whether the names are pairs of a machine and a label, and then an output.
    pub(crate) fn has_rules(self) -> bool
        ensures { result ≡ has_rules self }
    {
        match self {
            Shape::Rules => true,
            Shape::NoInput | Shape::Text | Shape::One | Shape::Two | Shape::Three | Shape::Codex =>
                false,
        }
    }

    /// What the input in a place is, from 0.
    pub(crate) fn role(self, place: usize) -> Role
        ensures { result ≡ role_of self place }
    {
        match self {
            Shape::Text => Role::Text,
            Shape::NoInput | Shape::One | Shape::Two | Shape::Rules => Role::Machine,
            Shape::Three => {
                if place < 2 {
                    Role::Machine
                } else {
                    Role::Lines
                }
            }
            Shape::Codex => {
                if place < 1 {
                    Role::Machine
                } else {
                    Role::Codex
                }
            }
        }
    }
}

/// What an input of a command is, and what it is for.
#[derive(Clone, Copy, Debug, PartialEq, Eq)]
pub enum Role {
    /// The symbol table of the input labels.
    InputSymbols,
    /// The symbol table of the output labels.
    OutputSymbols,
    /// The symbol table of the labels of both sides.
    BothSymbols,
    /// The pairs of old and new input labels.
    InputPairs,
    /// The pairs of old and new output labels.
    OutputPairs,
    /// A machine as text.
    Text,
    /// A machine in the binary form.
    Machine,
    /// A codex.
    Codex,
    /// Lines, each for one run.
    Lines,
}
