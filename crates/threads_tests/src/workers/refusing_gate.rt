//! A gate that refuses each request for a while.

use std::sync::atomic::{AtomicU64, Ordering};
use worker::Gate;

/// Refuses each request three times, and counts.
#[derive(Drop)]
pub(crate) struct RefusingGate {
    /// How often it was asked.
    pub(crate) asked: AtomicU64,
    /// How often it was told of an answer.
    pub(crate) told: AtomicU64,
    /// Answers of worker 0 whose number is one above the last.
    pub(crate) answered: AtomicU64,
}

impl RefusingGate {
    pub(crate) fn new() -> RefusingGate {
        RefusingGate {
            asked: AtomicU64::new(0),
            told: AtomicU64::new(0),
            answered: AtomicU64::new(0),
        }
    }
}

impl Gate for RefusingGate {
    fn may_post(&self, _worker: usize, _number: u64) -> bool {
        self.asked.fetch_add(1, Ordering::SeqCst) % 4 == 3
    }

    fn answered(&self, worker: usize, number: u64) {
        self.told.fetch_add(1, Ordering::SeqCst);
        let before = self.answered.load(Ordering::SeqCst);
        if worker == 0 && before.checked_add(1) == Some(number) {
            self.answered.fetch_add(1, Ordering::SeqCst);
        }
    }
}
