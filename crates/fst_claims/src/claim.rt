//! What a claim answers.

/// What a claim of a code answers.
#[derive(Clone, Copy, Debug, PartialEq, Eq)]
pub enum Claim {
    /// This claim set a word to the code.
    Won,
    /// A word held the code when this claim looked at it.
    Taken,
    /// Every word held another code when this claim looked at it.
    Full,
}
