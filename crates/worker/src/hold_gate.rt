//! A gate that holds two workers apart, so that a run in which they don't run side by side can't
//! finish in time.

ghost use Rattle.std.specs.Prelude.{◌≡◌, ◌≢◌, ◌≤◌, true};

use crate::Gate;
use std::sync::atomic::{AtomicBool, AtomicU64, Ordering};
use std::thread;

/// How many yields and refusals there may be before the gate opens for good.
const PATIENCE: u64 = 1_000_000;

/// What came of request 1 of a worker.
#[derive(Drop)]
struct FirstRequest {
    came: AtomicBool,
    was_answered: AtomicBool,
}

impl FirstRequest {
    fn new() -> FirstRequest {
        FirstRequest {
            came: AtomicBool::new(false),
            was_answered: AtomicBool::new(false),
        }
    }
}

/// Holds workers 0 and 1: request 1 of each stays in `may_post` until both are there, and request 2
/// of each is refused until request 1 of the other was answered. Every other request passes, and
/// each does once the gate is spent.
#[derive(Drop)]
pub struct HoldGate {
    first_requests: [FirstRequest; 2],
    /// Yields and refusals so far.
    waits: AtomicU64,
}

impl HoldGate {
    /// A gate at which no request has come.
    pub fn new() -> HoldGate {
        HoldGate {
            first_requests: [FirstRequest::new(), FirstRequest::new()],
            waits: AtomicU64::new(0),
        }
    }

    /// Whether it opened for good, at the 1,000,000th yield or refusal.
    pub fn spent(&self) -> bool {
        self.waits.load(Ordering::SeqCst) >= PATIENCE
    }

    fn have_both_come(&self) -> bool {
        self.first_requests
            .iter()
            .all(|first| first.came.load(Ordering::SeqCst))
    }

    /// Stays until both workers are there. Each turn counts as a wait, so the turns are no more
    /// than the waits.
    fn stay_for_both(&self) {
        for _ in 0..PATIENCE {
            if self.have_both_come() || self.spent() {
                return;
            }
            self.waits.fetch_add(1, Ordering::SeqCst);
            thread::yield_now();
        }
    }

    /// Whether request 1 of the other worker was answered, or the gate is spent. Each refusal
    /// counts as a wait.
    fn may_follow(&self, other: &FirstRequest) -> bool {
        if other.was_answered.load(Ordering::SeqCst) || self.spent() {
            return true;
        }
        self.waits.fetch_add(1, Ordering::SeqCst);
        false
    }
}

impl Gate for HoldGate {
    fn may_post(&self, worker: usize, number: u64) -> bool
        ensures others { 2 ≤ worker → result ≡ true }
        ensures not_second { number ≢ 2 → result ≡ true }
    {
        let [first, second] = &self.first_requests;
        let (own, other) = match worker {
            0 => (first, second),
            1 => (second, first),
            _ => return true,
        };
        match number {
            1 => {
                own.came.store(true, Ordering::SeqCst);
                self.stay_for_both();
                true
            }
            2 => self.may_follow(other),
            _ => true,
        }
    }

    fn answered(&self, worker: usize, number: u64) {
        if number == 1 && worker < self.first_requests.len() {
            self.first_requests[worker]
                .was_answered
                .store(true, Ordering::SeqCst);
        }
    }
}
