//! A gate that lets worker 1 wait for worker 0.

use std::sync::atomic::{AtomicBool, Ordering};
use worker::Gate;

/// Refuses each request of worker 1 until request 1 of worker 0 was answered.
#[derive(Drop)]
pub(crate) struct SecondGate {
    was_answered: AtomicBool,
}

impl SecondGate {
    pub(crate) fn new() -> SecondGate {
        SecondGate {
            was_answered: AtomicBool::new(false),
        }
    }
}

impl Gate for SecondGate {
    fn may_post(&self, worker: usize, _number: u64) -> bool {
        worker == 0 || self.was_answered.load(Ordering::SeqCst)
    }

    fn answered(&self, worker: usize, number: u64) {
        if worker == 0 && number == 1 {
            self.was_answered.store(true, Ordering::SeqCst);
        }
    }
}
