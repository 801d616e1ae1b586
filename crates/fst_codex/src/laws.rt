//! The laws of encoding and decoding: each gives one answer. Each stands on the contract of a function with nothing to
//! do, so that it is proved; crates above cite the lemmas in `proofs`.

ghost use Rattle.std.specs.Prelude.{◌≡◌, ◌⊎◌, Bool, Result, Err};
ghost use Rattle.fst_semiring.specs.Cost.{Cost};
ghost use Rattle.fst_semiring.specs.declared.arc_type.ArcType.{ArcType};
ghost use Rattle.fst_machine.specs.Machine.{Machine};
ghost use Rattle.fst_codex.specs.Decoded.{Decodes};
ghost use Rattle.fst_codex.specs.Encoded.{IsEncoded};
ghost use Rattle.fst_codex.specs.Table.{Table};
ghost use Rattle.fst_codex.specs.declared.decoding.DecodeFault.{DecodeFault};
ghost use Rattle.fst_codex.specs.declared.decoding.DecodeFault.TheVariants.{Memory};

/// One machine and one codex stand for a machine, and decoding gives one answer, apart from want of memory.
pub fn one_answer<V>()
    ensures encoded { (kind : ArcType) (weights : Bool) (m c d : Machine Cost) (t u : Table Cost) → IsEncoded kind weights m c t → IsEncoded kind weights m d u → (c ≡ d) × (t ≡ u) }
    ensures decoded { (kind : ArcType) (value : V → Cost) (m : Machine V) (t : Table Cost) (r q : Result (Machine Cost) DecodeFault) → Decodes kind value m t r → Decodes kind value m t q → (r ≡ Err Memory) ⊎ ((q ≡ Err Memory) ⊎ (r ≡ q)) }
{}
