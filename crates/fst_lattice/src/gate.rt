//! What stands around each expansion.

/// Is called around each expansion of a worker, for tests that make workers meet. Workers have numbers from 0 on.
pub trait Gate: Sync {
    /// Before an expansion.
    fn before_expand(&self, worker: u32);

    /// After an expansion.
    fn after_expand(&self, worker: u32);
}

/// Does nothing.
pub struct OpenGate;

impl Gate for OpenGate {
    fn before_expand(&self, _worker: u32) {}

    fn after_expand(&self, _worker: u32) {}
}
