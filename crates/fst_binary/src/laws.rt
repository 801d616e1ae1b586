//! Laws of the binary form.

ghost use Rattle.std.specs.Prelude.{◌≡◌, ℕ, ◌++◌, [], List, length, Ok};
ghost use Rattle.std.specs.List.{flat_map};
ghost use Rattle.fst_semiring.specs.declared.arc_type.ArcType.{ArcType};
ghost use Rattle.fst_semiring.specs.Cost.{Cost};
ghost use Rattle.fst_machine.specs.Machine.{Machine, valued};
ghost use Rattle.fst_bytes.specs.Spelling.{long, word};
ghost use Rattle.fst_binary.specs.Sides.{HasSides, Sides};
ghost use Rattle.fst_binary.specs.Spelling.{HasSpelling, count_fields, spelling, state_fields, tabled_spelling, tabled_with, type_fields};
ghost use Rattle.fst_binary.specs.Reading.{TabledMachine, tabled_of_bytes};

use fst_semiring::Weight;

/// What is spelled is read as the same machine and tables.
pub fn spelling_is_read()
    ensures { (kind : ArcType) (m : Machine Cost) (s : Sides) → HasSpelling kind m → HasSides s → tabled_of_bytes kind (tabled_spelling kind m s) ≡ Ok (record { machine = m; sides = s }) }
{}

/// No spelling is the beginning of another with the same properties.
pub fn no_spelling_goes_on()
    ensures { (kind other : ArcType) (properties : List ℕ) (t u : TabledMachine) (rest : List ℕ) → HasSpelling kind t.machine → HasSides t.sides → HasSpelling other u.machine → HasSides u.sides → length properties ≡ 8 → tabled_with properties other u.machine u.sides ≡ tabled_with properties kind t.machine t.sides ++ rest → (rest ≡ []) × (kind ≡ other) × (t ≡ u) }
{}

/// The spelling of a machine without tables is that of version 2: its types, the version, no flags, the properties 3, its
/// counts, its states.
pub fn untabled_as_before()
    ensures { (kind : ArcType) (m : Machine Cost) → spelling kind m ≡ type_fields kind ++ word 2 ++ word 0 ++ long 3 ++ count_fields m ++ flat_map (state_fields kind) m.states }
{}

/// Machines with the same values are the same. So decoding gives the very machine that was encoded.
pub fn values_tell_machines<W: Weight>()
    ensures { (m n : Machine W) → valued W.value m ≡ valued W.value n → m ≡ n }
{}
