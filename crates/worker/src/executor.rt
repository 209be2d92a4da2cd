//! Who executes what workers have posted.

use exchange::GroupSignals;

/// What a worker says once it has posted requests or its bye.
#[derive(Clone, Copy)]
pub struct Posting {
    /// The worker's number.
    pub worker: usize,
    /// Whether it is left to another thread: it is large, and the worker has more to do before it
    /// waits for the answers.
    pub is_left: bool,
}

/// Sees to it that what workers have posted is executed, by another thread or by the caller's. No
/// clause says so.
pub trait Executor {
    /// A worker has posted.
    fn posted(&self, posting: Posting);
}

/// Has the storage thread execute: wakes it, if it has parked or is about to.
impl Executor for GroupSignals {
    fn posted(&self, _posting: Posting) {
        self.parking().unpark();
    }
}
