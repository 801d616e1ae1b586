//! The symbol tables that were read: those of the options, and those that machines carry.

ghost use Rattle.std.specs.Prelude.{◌≡◌};
ghost use Rattle.std.specs.Option.{option_map};
ghost use Rattle.fst_binary.specs.Sides.{neither};
ghost use Rattle.fst_verbs.specs.Given.{no_tables, with_both, with_carried, with_input, with_output};
ghost use Rattle.fst_verbs.specs.Seeing.{input_names, output_names, sides_of, tables_seen};
ghost use Rattle.fst_verbs.specs.Tabling.{kept_if, tables_by, tables_for};
ghost use Rattle.fst_verbs.specs.Texts.{shown_by};

use fst_binary::LentTables;
use fst_symbols::SymbolTable;
use fst_words::{Carries, Options, Plan};

/// The symbol tables that a machine carries.
#[derive(Drop)]
pub struct Carried {
    /// The names of its input labels.
    pub isymbols: Option<SymbolTable>,
    /// The names of its output labels.
    pub osymbols: Option<SymbolTable>,
}

/// The symbol tables that were read. A table that was given for both sides stands here once.
#[derive(Drop)]
pub struct Tables {
    /// The names of the labels of the input side, where an option names a table of its own.
    pub input: Option<SymbolTable>,
    /// Those of the output side, where an option names a table of its own.
    pub output: Option<SymbolTable>,
    /// Those of each side that has no table of its own.
    pub shared: Option<SymbolTable>,
    /// Those that the first machine carries.
    pub first: Carried,
    /// Those that the last machine carries, where it is not the first.
    pub last: Option<Carried>,
}

impl Carried {
    /// None. Takes no memory.
    fn none() -> Carried
        ensures { sides_of result ≡ neither }
    {
        Carried {
            isymbols: None,
            osymbols: None,
        }
    }
}

impl Tables {
    /// No names. Takes no memory.
    pub fn new() -> Tables
        ensures { tables_seen result ≡ no_tables }
    {
        Tables {
            input: None,
            output: None,
            shared: None,
            first: Carried::none(),
            last: None,
        }
    }

    /// Puts the table of the option for the input side.
    pub fn put_input(&mut self, table: SymbolTable)
        ensures { tables_seen self.new ≡ with_input table (tables_seen self.old) }
    {
        self.input = Some(table);
    }

    /// Puts the table of the option for the output side.
    pub fn put_output(&mut self, table: SymbolTable)
        ensures { tables_seen self.new ≡ with_output table (tables_seen self.old) }
    {
        self.output = Some(table);
    }

    /// Puts the one table of the options for both sides.
    pub fn put_both(&mut self, table: SymbolTable)
        ensures { tables_seen self.new ≡ with_both table (tables_seen self.old) }
    {
        self.input = None;
        self.output = None;
        self.shared = Some(table);
    }

    /// Puts the tables that a machine carries before which so many were read. Those of a machine that is neither the first
    /// nor the last are freed.
    pub fn put_carried(&mut self, before: usize, carried: Carried)
        ensures { tables_seen self.new ≡ with_carried before (sides_of carried) (tables_seen self.old) }
    {
        if before == 0 {
            self.first = carried;
            self.last = None;
        } else {
            self.last = Some(carried);
        }
    }

    /// The names of the labels of the input side that the options give.
    pub fn of_input(&self) -> Option<&SymbolTable>
        ensures { option_map (λ t. t.now) result ≡ input_names self.entry.now }
    {
        match &self.input {
            Some(table) => Some(table),
            None => self.shared.as_ref(),
        }
    }

    /// The names of the labels of the output side that the options give.
    pub fn of_output(&self) -> Option<&SymbolTable>
        ensures { option_map (λ t. t.now) result ≡ output_names self.entry.now }
    {
        match &self.output {
            Some(table) => Some(table),
            None => self.shared.as_ref(),
        }
    }

    /// The names of the output labels of the last machine.
    fn of_last_output(&self) -> Option<&SymbolTable>
        ensures { option_map (λ t. t.now) result ≡ (tables_seen self.entry.now).last.osymbols }
    {
        match &self.last {
            Some(last) => last.osymbols.as_ref(),
            None => self.first.osymbols.as_ref(),
        }
    }

    /// The names of the labels of the input side of a machine that is printed.
    pub(crate) fn shown_input(&self, numeric: bool) -> Option<&SymbolTable>
        ensures { option_map (λ t. t.now) result ≡ shown_by numeric (tables_seen self.entry.now).isymbols (tables_seen self.entry.now).first.isymbols }
    {
        if numeric {
            return None;
        }
        match self.of_input() {
            Some(table) => Some(table),
            None => self.first.isymbols.as_ref(),
        }
    }

    /// The names of the labels of its output side.
    pub(crate) fn shown_output(&self, numeric: bool) -> Option<&SymbolTable>
        ensures { option_map (λ t. t.now) result ≡ shown_by numeric (tables_seen self.entry.now).osymbols (tables_seen self.entry.now).first.osymbols }
    {
        if numeric {
            return None;
        }
        match self.of_output() {
            Some(table) => Some(table),
            None => self.first.osymbols.as_ref(),
        }
    }
}

/// A table that is kept, or none.
fn kept_if(keep: bool, table: Option<&SymbolTable>) -> Option<&SymbolTable>
    ensures { option_map (λ t. t.now) result ≡ kept_if keep (option_map (λ t. t.now) table.entry) }
{
    if keep { table } else { None }
}

/// The symbol tables that the machine of an output carries, by the column of its command.
fn tables_by<'t>(carries: Carries, options: &Options, tables: &'t Tables) -> LentTables<'t>
    ensures { result ≡ tables_by carries options.now (tables_seen tables.entry.now) }
{
    let first = &tables.first;
    match carries {
        Carries::Nothing => LentTables::none(),
        Carries::Kept => LentTables {
            isymbols: kept_if(options.keep_isymbols, tables.of_input()),
            osymbols: kept_if(options.keep_osymbols, tables.of_output()),
        },
        Carries::First => LentTables {
            isymbols: first.isymbols.as_ref(),
            osymbols: first.osymbols.as_ref(),
        },
        Carries::Exchanged => LentTables {
            isymbols: first.osymbols.as_ref(),
            osymbols: first.isymbols.as_ref(),
        },
        Carries::OneSide => {
            let side = if options.project_output {
                first.osymbols.as_ref()
            } else {
                first.isymbols.as_ref()
            };
            LentTables {
                isymbols: side,
                osymbols: side,
            }
        }
        Carries::Outer => LentTables {
            isymbols: first.isymbols.as_ref(),
            osymbols: tables.of_last_output(),
        },
    }
}

/// The symbol tables that the machine of a plan's output carries, lent.
pub fn tables_for<'t>(plan: &Plan, tables: &'t Tables) -> LentTables<'t>
    ensures { result ≡ tables_for plan.now (tables_seen tables.entry.now) }
{
    tables_by(plan.command.carries(), &plan.options, tables)
}
