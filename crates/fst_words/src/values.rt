//! The values of options.

ghost use Rattle.std.specs.Prelude.{◌≡◌, ◌<◌, ◌≤◌, ◌^◌, IfSome, length, map};
ghost use Rattle.fst_fields.specs.Decimal.{natural_of_text};
ghost use Rattle.fst_words.specs.Values.{is_among, label_of, number_in};

use fst_fields::read_decimal;

/// The number that twenty digits stand for.
fn twenty_digits(digits: &[u8]) -> Option<u128>
    requires { length digits.now ≡ 20 }
    ensures { result ≡ natural_of_text 20 digits.now }
{
    let (front, last) = digits.split_at(19);
    let front = read_decimal(front, 19)?;
    let last = read_decimal(last, 1)?;
    Some(10 * u128::from(front) + u128::from(last))
}

/// The number that one to twenty decimal digits stand for.
fn natural(digits: &[u8]) -> Option<u128>
    ensures { result ≡ natural_of_text 20 digits.now }
{
    if digits.len() == 20 {
        return twenty_digits(digits);
    }
    let n = read_decimal(digits, 19)?;
    Some(u128::from(n))
}

/// The numbers that an option may have.
#[derive(Clone, Copy)]
pub(crate) struct NumberRange {
    low: u64,
    high: u64,
}

/// The range of `--max_states`.
pub(crate) const MAX_STATES: NumberRange = NumberRange {
    low: 1,
    high: 4_194_304,
};

/// The range of `--nshortest`.
pub(crate) const NSHORTEST: NumberRange = NumberRange {
    low: 1,
    high: 100_000,
};

/// The range of `--workers`.
pub(crate) const WORKERS: NumberRange = NumberRange { low: 1, high: 64 };

/// The range of `--seed`.
pub(crate) const SEED: NumberRange = NumberRange {
    low: 0,
    high: u64::MAX,
};

/// The range of `--lines`.
pub(crate) const LINES: NumberRange = NumberRange {
    low: 0,
    high: 10_000,
};

/// The number of an option: one to twenty decimal digits, in the range.
#[tactic(auto, unfolding(crate::specs::Values::number_in))]
pub(crate) fn number_in(range: NumberRange, text: &str) -> Option<u64>
    ensures { result ≡ number_in range.low range.high text.now }
{
    let n = natural(text.as_bytes())?;
    if u128::from(range.low) <= n && n <= u128::from(range.high) {
        Some(n as u64)
    } else {
        None
    }
}

/// The label of `replace` that a text stands for.
#[tactic(auto, unfolding(crate::specs::Values::label_of))]
pub(crate) fn label_of(text: &str) -> Option<u64>
    ensures value { result ≡ label_of text.now }
    ensures range { IfSome result (λ n. n ≤ 2147483647) }
    ensures some { IfSome result (λ n. 0 < n) }
{
    let n = read_decimal(text.as_bytes(), 18)?;
    if 1 <= n && n <= 2147483647 {
        Some(n)
    } else {
        None
    }
}

/// The sides by which arcs are sorted.
pub(crate) static SORT_TYPES: [&str; 2] = ["ilabel", "olabel"];

/// The truth values.
pub(crate) static TRUTH_VALUES: [&str; 2] = ["true", "false"];

/// The kinds of queues.
pub(crate) static QUEUE_TYPES: [&str; 4] = ["auto", "fifo", "lifo", "shortest"];

/// Whether the text is one of these words.
pub(crate) fn is_among(words: &[&str], text: &str) -> bool
    ensures { result ≡ is_among (map (λ s. s.now) words.now) text.now }
{
    for word in words {
        if *word == text {
            return true;
        }
    }
    false
}
