//! The laws of plans, as the clauses of a function with nothing to do.

ghost use Rattle.fst_words.specs.PlanLaws.{NamesAreKnown, PlansAreWhole, PrefixIsFree};

/// What holds of every plan that words ask for, and of the names of commands.
pub fn plan_laws()
    ensures whole { PlansAreWhole }
    ensures names { NamesAreKnown }
    ensures prefix { PrefixIsFree }
{}
