//! Which thread executes what a worker has posted.

use exchange::GroupSignals;
use proto::Storage;
use std::time::{self, Duration};
use storage_thread::{Serve, SharedStorage};
use worker::{Executor, Posting};

/// The storage side, as workers have it execute.
#[derive_where(Clone, Copy)]
pub struct StorageExecutor<'a, R, T> {
    pub rt: &'a R,
    pub shared: &'a SharedStorage<T>,
    pub signals: &'a GroupSignals,
    /// Whether a worker executes what it has posted, unless that is left to the storage thread.
    pub serves: bool,
}

/// Says for `stats` that no thread has held the side yet, if it will be told how long they do.
pub fn note_unheld(signals: &GroupSignals, storage: Storage) {
    if storage == Storage::Workers {
        signals.storage_gauges().leave_waiting(Duration::ZERO);
    }
}

impl<R: time::Clock, T: Serve> Executor for StorageExecutor<'_, R, T> {
    fn posted(&self, posting: Posting) {
        if self.serves
            && !posting.is_left
            && self.shared.serve(self.rt, self.signals, posting.worker)
        {
            return;
        }
        self.signals.parking().unpark();
    }
}
