//! How far the walk of a line has come.

/// How far the walk of a line has come.
#[derive(Clone, Copy, Debug, PartialEq, Eq)]
pub enum Stage {
    /// It takes name after name, as long as there are any.
    Going,
    /// It has found more names than the limit, and is over.
    Stopped,
    /// The line holds a byte 0, so there is nothing to walk.
    Bad,
}
