//! The law of the rule, on the contract of a function with nothing to do, so that it is proved.

ghost use Rattle.std.specs.Prelude.{ℕ};
ghost use Rattle.atomic_table.specs.Table.{State};
ghost use Rattle.fst_claims.specs.declared.view.View.{View};
ghost use Rattle.fst_claims.specs.Rule.{Kept, Says};

/// What the rule says without its sums: each word that is set has a code that was won, once and by one pass; each code
/// that was won stands in a word; and no two words hold one code.
pub fn rule_says()
    ensures { (places : ℕ) (s : State (Unit {0}) View) → Kept places s → Says places s }
{}
