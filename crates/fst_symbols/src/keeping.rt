//! Names in their order with their numbers, and the numbers place for place.

ghost use Rattle.std.specs.Prelude.{◌≡◌, None};
ghost use Rattle.fst_symbols.specs.Kept.{Puts, PutsNumber, found_in};

use crate::fault::AddSymbolFault;
use crate::name::Name;
use crate::seeded::Seeded;
use indexmap::{IndexMap, IndexSet};

/// Puts a number behind the others. After an `Err` they are as before.
fn put_number(numbers: &mut IndexSet<u32, Seeded>, number: u32) -> Result<(), AddSymbolFault>
    ensures { PutsNumber numbers.old.keys number numbers.new.keys result }
{
    match numbers.insert(number) {
        Ok(true) => Ok(()),
        Ok(false) => Err(AddSymbolFault::NumberTaken),
        Err(_) => Err(AddSymbolFault::Memory),
    }
}

/// Puts a new name with its number behind the others. After an `Err` all is as before: room for the name is there before
/// the number is put.
pub fn put(
    symbols: &mut IndexMap<Name, u32, Seeded>,
    numbers: &mut IndexSet<u32, Seeded>,
    name: Name,
    number: u32,
) -> Result<(), AddSymbolFault>
    requires { found_in symbols.old.entries name.bytes.items ≡ None }
    ensures { Puts symbols.old.entries numbers.old.keys name number symbols.new.entries numbers.new.keys result }
{
    if symbols.reserve(1).is_err() {
        return Err(AddSymbolFault::Memory);
    }
    match put_number(numbers, number) {
        Ok(()) => match symbols.insert(name, number) {
            Ok(_) => Ok(()),
            Err(_) => unreachable!(),
        },
        Err(fault) => Err(fault),
    }
}
