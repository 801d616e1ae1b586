//! What was read, and how it becomes what a command is given.

ghost use Rattle.std.specs.Prelude.{◌≡◌, map};
ghost use Rattle.std.specs.Option.{option_map};
ghost use Rattle.fst_machine.specs.Machine.{valued};
ghost use Rattle.fst_codex.specs.Table.{valued_table};
ghost use Rattle.fst_any.specs.Taken.{machines_as};
ghost use Rattle.fst_any.specs.Typed.{typed, typed_codex};
ghost use Rattle.fst_verbs.specs.Causes.{kinds_differ};
ghost use Rattle.fst_verbs.specs.Given.{codex_at, given_at, kind_of, nothing, telling};
ghost use Rattle.fst_verbs.specs.Seeing.{given_with};
ghost use Rattle.fst_verbs.specs.Told.{Judges};
ghost use Rattle.fst_command.specs.Views.{held_seen};

use fst_any::{AnyCodex, AnyFst, Kinded, OtherKind, machines_of};
use fst_codex::Codex;
use fst_machine::Fst;
use fst_rational::Pairs;
use fst_semiring::{ArcType, Weight};
use fst_verbs::{Given, Refusal, Tables, arc_type_of, kinds_apart};
use fst_words::Options;
use std::alloc::Global;
use std::mem::{drop, replace};

/// What was read, each machine with its arc type.
#[derive(Drop)]
pub(crate) struct Held {
    /// The symbol tables.
    pub(crate) tables: Tables,
    /// The new labels of the input side.
    pub(crate) ipairs: Pairs,
    /// Those of the output side.
    pub(crate) opairs: Pairs,
    /// Lines.
    pub(crate) lines: Vec<u8>,
    /// The machines, in the order in which they were read.
    pub(crate) machines: Vec<AnyFst>,
    /// The codex.
    pub(crate) codex: Option<AnyCodex>,
    /// Where the bytes of the output may be made: the content that was read last, of a command that makes its machine where
    /// those that it reads stand.
    pub(crate) room: Vec<u8>,
    /// Where the text of the output may be made: the content of the machine that is printed.
    pub(crate) text_room: Vec<u8>,
}

impl Held {
    /// Nothing was read. Takes no memory.
    pub(crate) fn new(alloc: Global) -> Held
        ensures { held_seen result ≡ nothing }
    {
        Held {
            tables: Tables::new(),
            ipairs: Pairs::new(alloc),
            opairs: Pairs::new(alloc),
            lines: Vec::new(alloc),
            machines: Vec::new(alloc),
            codex: None,
            room: Vec::new(alloc),
            text_room: Vec::new(alloc),
        }
    }

    /// The arc type: that of the first machine, or of the options where there is none.
    pub(crate) fn kind(&self, options: &Options) -> ArcType
        ensures { result ≡ kind_of options.now (map typed self.now.machines.items) }
    {
        match self.machines.first() {
            Some(machine) => machine.kind(),
            None => arc_type_of(options),
        }
    }
}

/// The machines, where all have the arc type of the weights.
fn alike_machines<W: Kinded>(alloc: Global, list: Vec<AnyFst>) -> Result<Vec<Fst<W>>, Refusal>
    ensures { Judges (λ v. map (valued W.value) v.items) result (telling (kinds_differ W.KIND) (machines_as W.KIND (map typed list.items))) }
{
    match machines_of::<W>(alloc, list) {
        Ok(machines) => Ok(machines),
        Err(OtherKind::Other(other)) => Err(kinds_apart(alloc, W::KIND, other)),
        Err(OtherKind::Memory) => Err(Refusal::Memory),
    }
}

/// The codex, where it has the arc type of the weights.
fn alike_codex<W: Kinded>(alloc: Global, any: Option<AnyCodex>) -> Result<Option<Codex<W>>, Refusal>
    ensures { Judges (λ c. option_map (valued_table W.value) c) result (telling (kinds_differ W.KIND) (codex_at W.KIND (option_map typed_codex any))) }
{
    match any {
        None => Ok(None),
        Some(any) => match W::codex(any) {
            Ok(codex) => Ok(Some(codex)),
            Err(other) => Err(kinds_apart(alloc, W::KIND, other)),
        },
    }
}

impl Held {
    /// Takes out what has an arc type: the machines and the codex.
    fn take_typed(&mut self, alloc: Global) -> (Vec<AnyFst>, Option<AnyCodex>)
        ensures taken { (result.0.items ≡ self.old.machines.items) × (result.1 ≡ self.old.codex) }
        ensures rest { self.new ≡ record self.old { machines = self.new.machines; codex = self.new.codex } }
    {
        let machines = replace(&mut self.machines, Vec::new(alloc));
        (machines, replace(&mut self.codex, None))
    }

    /// What a command is given: these machines and this codex, and all else that was read but the symbol tables.
    fn take_given<W: Weight>(
        &mut self,
        alloc: Global,
        machines: Vec<Fst<W>>,
        codex: Option<Codex<W>>,
    ) -> Given<W>
        ensures given { result ≡ record { ipairs = self.old.ipairs; opairs = self.old.opairs; lines = self.old.lines; machines = machines; codex = codex; text_room = self.old.text_room } }
        ensures rest { self.new.tables ≡ self.old.tables }
    {
        Given {
            ipairs: replace(&mut self.ipairs, Pairs::new(alloc)),
            opairs: replace(&mut self.opairs, Pairs::new(alloc)),
            lines: replace(&mut self.lines, Vec::new(alloc)),
            machines,
            codex,
            text_room: replace(&mut self.text_room, Vec::new(alloc)),
        }
    }

    /// Takes out the symbol tables.
    fn take_tables(&mut self) -> Tables
        ensures { result ≡ self.old.tables }
    {
        replace(&mut self.tables, Tables::new())
    }
}

/// What was read, all of the arc type of the weights, and the symbol tables beside it; the room for bytes is freed. The first
/// machine of another arc type, or else a codex of another, is a refusal. What is freed is dropped by name: the prover then looks
/// at no field of it.
#[tactic(auto, unfolding(fst_verbs::specs::Given::given_at))]
pub(crate) fn alike<W: Kinded>(alloc: Global, held: Held) -> Result<(Given<W>, Tables), Refusal>
    ensures { Judges (λ x. given_with x.1 W.KIND W.value x.0) result (given_at W.KIND (held_seen held)) }
{
    let mut held = held;
    let (list, any) = held.take_typed(alloc);
    let machines = match alike_machines::<W>(alloc, list) {
        Ok(machines) => machines,
        Err(refusal) => {
            drop(any);
            drop(held);
            return Err(refusal);
        }
    };
    let codex = match alike_codex::<W>(alloc, any) {
        Ok(codex) => codex,
        Err(refusal) => {
            drop(machines);
            drop(held);
            return Err(refusal);
        }
    };
    let given = held.take_given(alloc, machines, codex);
    let tables = held.take_tables();
    drop(held);
    Ok((given, tables))
}
