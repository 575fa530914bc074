//! A gate that each worker enters before each expansion.

/// What each worker calls before each expansion, with its number. The caller of a search is worker 0.
/// A gate takes no memory, and may hold a worker for a while.
pub trait Gate: Sync {
    /// The worker is about to expand a branch.
    fn enter(&self, worker: u32);
}

/// A gate that holds nobody.
pub struct OpenGate;

impl Gate for OpenGate {
    fn enter(&self, worker: u32) {
        let _ = worker;
    }
}
