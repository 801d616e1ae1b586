//! The law of decimal digits, as the clause of a function.

ghost use Rattle.std.specs.Prelude.{◌≡◌, ◌<◌, ◌^◌, ℕ, Some};
ghost use Rattle.std.specs.Fmt.{decimal};
ghost use Rattle.fst_fields.specs.Decimal.{natural_of_text};

/// A printed number of at most `most` digits is read as the number, where it has at most 64 bits. The
/// function does nothing: its clause is the law.
pub fn printed_decimal_reads_again()
    ensures { (most n : ℕ) → 0 < most → n < 10 ^ most → n < 2 ^ 64 → natural_of_text most (decimal n) ≡ Some n }
{}
