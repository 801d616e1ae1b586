//! The law of the text form, as the clause of a function.

ghost use Rattle.fst_semiring.specs.Cost.{Cost};
ghost use Rattle.fst_machine.specs.Machine.{Machine};
ghost use Rattle.fst_semiring.specs.declared.arc_type.ArcType.{ArcType};
ghost use Rattle.fst_text.specs.Laws.{CompilesBack};
ghost use Rattle.fst_text.specs.Options.{Options};

/// A machine with a start that is printed and compiled with the same options, symbol tables among them, and
/// state numbers kept is the same machine. The function does nothing: its clause is the law.
pub fn printed_machine_compiles_back()
    ensures { (kind : ArcType) (options : Options) (m : Machine Cost) → CompilesBack kind options m }
{}
