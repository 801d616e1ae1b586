//! A symbol table.

ghost use Rattle.std.specs.Prelude.{◌≡◌, ◌+◌, ◌/◌, ◌<◌, ◌≤◌, min, [], false, All, IfOk, IfSome, Some, length, slice_get, sum_by};
ghost use Rattle.std.specs.Option.{option_map};
ghost use Rattle.fst_fields.specs.Decimal.{greatest_label};
ghost use Rattle.fst_fields.specs.Lines.{fields_of, is_line_end, lines_of};
ghost use Rattle.fst_symbols.specs.Adding.{Adds};
ghost use Rattle.fst_symbols.specs.Symbols.{IsName, IsTable, mean_name_length, name_of, number_of};
ghost use Rattle.fst_symbols.specs.Reading.{Gives, after_line, table_of_text};
ghost use Rattle.fst_symbols.specs.Kept.{IsKept, symbols_of};

use crate::fault::{AddSymbolFault, SymbolsFault};
use crate::keeping::put;
use crate::name::{Name, Sought};
use crate::row::read_symbol;
use crate::seeded::Seeded;
use fst_fields::next_line;
use indexmap::{IndexMap, IndexSet};
use std::alloc::{AllocError, Global};
use std::marker::Model;

/// The names of labels, seen as a list of symbols in the order in which they were added. No two symbols have one name
/// or one number; a name is not empty, and has no space, tab, carriage return or line feed.
#[derive(Drop)]
pub struct SymbolTable {
    symbols: IndexMap<Name, u32, Seeded>,
    /// The numbers of the symbols, place for place.
    numbers: IndexSet<u32, Seeded>,
    /// How many bytes the names have together.
    name_bytes: u32,
}

impl Model for SymbolTable {
    ghost use Rattle.std.specs.Prelude.{List};
    ghost use Rattle.fst_symbols.specs.Symbols.{Symbol};

    ghost Value = { List Symbol };

    ghost use Rattle.fst_symbols.specs.Kept.{IsKept, symbols_of};

    ghost view = { λ t. symbols_of t.symbols.entries };

    ghost invariant = { λ t. IsKept t.symbols.entries t.numbers.keys t.name_bytes };
}

impl SymbolTable {
    /// The table without symbols. Takes no memory.
    pub fn new(alloc: Global) -> SymbolTable
        ensures { result ≡ [] }
    {
        let seeded = Seeded::by_nothing();
        SymbolTable {
            symbols: IndexMap::with_hasher(alloc, seeded),
            numbers: IndexSet::with_hasher(alloc, seeded),
            name_bytes: 0,
        }
    }

    /// The table without symbols, with room for so many. Its names are hashed by a seed that is drawn from these bytes: where
    /// names are chosen by others, the bytes that hold them. Takes time by the bytes, and memory by the room.
    pub fn with_room(alloc: Global, bytes: &[u8], symbols: usize) -> Result<SymbolTable, AllocError>
        ensures { IfOk result (λ t. t ≡ []) }
    {
        let seeded = Seeded::by(bytes);
        Ok(SymbolTable {
            symbols: IndexMap::with_capacity_and_hasher(alloc, symbols, seeded)?,
            numbers: IndexSet::with_capacity_and_hasher(alloc, symbols, seeded)?,
            name_bytes: 0,
        })
    }

    /// Adds a symbol behind the others. `SymbolTaken` where one has the name; else `NumberTaken` where one has the number.
    /// After any fault the table is as it was. Takes time by the name, and memory for it.
    pub fn add(&mut self, alloc: Global, name: &[u8], number: u32) -> Result<(), AddSymbolFault>
        requires name { IsName name.now }
        requires small { number ≤ greatest_label }
        ensures { Adds self.old name.now number self.new result }
    {
        if self.find(name).is_some() {
            return Err(AddSymbolFault::SymbolTaken);
        }
        let Some(name_bytes) = bytes_with(self.name_bytes, name) else {
            return Err(AddSymbolFault::Memory);
        };
        let Ok(name) = Name::of(alloc, name) else {
            return Err(AddSymbolFault::Memory);
        };
        match put(&mut self.symbols, &mut self.numbers, name, number) {
            Ok(()) => {
                self.name_bytes = name_bytes;
                Ok(())
            }
            Err(fault) => Err(fault),
        }
    }

    /// How many symbols there are. No two have one label for their number, so that there are no more than labels. Takes no
    /// memory.
    pub fn len(&self) -> u64
        ensures len { result ≡ length self.now }
        ensures table { IsTable self.now }
        ensures few { result ≤ 2147483648 }
    {
        self.symbols.len() as u64
    }

    /// The symbol in a place: its name and its number. Takes no memory.
    pub fn pair(&self, index: u64) -> (&[u8], u32)
        requires { index < length self.now }
        ensures pair { slice_get self.now index ≡ Some (record { name = result.0.now; number = result.1 }) }
        ensures short { length result.0.now < 4294967296 }
    {
        match self.symbols.get_index(index as usize) {
            Some((name, number)) => (name.as_slice(), *number),
            None => unreachable!(),
        }
    }

    /// How many bytes the names have together: fewer than 2 to the 32. Takes no memory, and no time by the names.
    pub fn name_bytes(&self) -> u32
        ensures { result ≡ sum_by (λ s. length s.name) self.now }
    {
        self.name_bytes
    }

    /// The number of a name; `None` exactly where no symbol has it. Takes no memory, and time by the name.
    pub fn find(&self, name: &[u8]) -> Option<u32>
        ensures number { result ≡ number_of self.now name.now }
        ensures table { IsTable self.now }
    {
        self.symbols.get(Sought::of(name)).copied()
    }

    /// The name of a label; `None` exactly where no symbol has its number. Takes no memory.
    pub fn name(&self, label: u32) -> Option<&[u8]>
        ensures name { option_map (λ name. name.now) result ≡ name_of self.now label }
        ensures table { IsTable self.now }
    {
        let place = self.numbers.get_index_of(&label)?;
        let (name, _) = self.symbols.get_index(place)?;
        Some(name.as_slice())
    }

    /// The mean length of the names in bytes, rounded up; 0 where there are none. Takes no memory, and no time by the names.
    pub fn mean_name_length(&self) -> usize
        ensures { result ≡ mean_name_length self.now }
    {
        if self.symbols.is_empty() {
            return 0;
        }
        (self.name_bytes as usize).div_ceil(self.symbols.len())
    }

    /// Adds the symbol of a line, which has this number; nothing where the line is blank.
    fn add_line(&mut self, alloc: Global, line: u64, text: &[u8]) -> Result<(), SymbolsFault>
        requires { All (λ c. is_line_end c ≡ false) text.now }
        ensures { Gives (λ x. self.new) result (after_line line self.old (fields_of text.now)) }
    {
        let Some((name, number)) = read_symbol(line, text)? else {
            return Ok(());
        };
        match self.add(alloc, name, number) {
            Ok(()) => Ok(()),
            Err(AddSymbolFault::SymbolTaken) => Err(SymbolsFault::DuplicateSymbol { line }),
            Err(AddSymbolFault::NumberTaken) => Err(SymbolsFault::DuplicateNumber { line }),
            Err(AddSymbolFault::Memory) => Err(SymbolsFault::Memory),
        }
    }

    /// The table of a text: each line that is not blank has a symbol and its number, a label number. (OpenFst
    /// Quick Tour, "Creating FSTs".) Takes time by the text, and memory by its lines. A fault is the first
    /// one of the first faulty line; `Memory` where memory runs out.
    pub fn read(alloc: Global, bytes: &[u8]) -> Result<SymbolTable, SymbolsFault>
        ensures read { Gives (λ t. t) result (table_of_text bytes.now) }
        ensures table { IfOk result IsTable }
    {
        let Ok(mut table) = SymbolTable::with_room(alloc, bytes, most_symbols(bytes)) else {
            return Err(SymbolsFault::Memory);
        };
        let mut rest = bytes;
        let mut line: u64 = 0;
        while let Some((first, behind)) = next_line(rest) {
            line += 1;
            table.add_line(alloc, line, first)?;
            rest = behind;
        }
        // `len` says that the symbols are a table.
        let _symbols = table.len();
        Ok(table)
    }
}

/// How many bytes names have together with one name more; `None` where they are more than a 32-bit number tells.
fn bytes_with(before: u32, name: &[u8]) -> Option<u32>
    ensures sum { IfSome result (λ n. n ≡ before + length name.now) }
    ensures fits { IfSome result (λ n. n < 4294967296) }
{
    before.checked_add(u32::try_from(name.len()).ok()?)
}

/// How many lines a text has.
fn line_count(bytes: &[u8]) -> usize
    ensures { result ≡ length (lines_of bytes.now) }
{
    let mut lines = 0;
    let mut rest = bytes;
    while let Some((_, behind)) = next_line(rest) {
        lines += 1;
        rest = behind;
    }
    lines
}

/// As many symbols as a text can have. A line has one at most, and takes four bytes then with its end, which the last line
/// need not have.
fn most_symbols(bytes: &[u8]) -> usize
    ensures { result ≡ min (length (lines_of bytes.now)) (length bytes.now / 4 + 1) }
{
    line_count(bytes).min(bytes.len() / 4 + 1)
}
