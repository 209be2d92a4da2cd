//! What the sessions of a worker come to, and whether one refusal allows it.

use crate::quiet_port::{Output, QuietPort};
use group::GroupWorker;

/// What a session comes to, or several, or a run.
#[derive(Clone, Copy, PartialEq, Eq)]
pub enum Outcome {
    /// All is as without a refusal.
    Whole,
    /// One refusal allows it.
    Allowed,
    Wrong,
}

impl Outcome {
    /// What two come to, as one refusal meets no more than one of them.
    pub fn and(self, other: Outcome) -> Outcome {
        match (self, other) {
            (Outcome::Whole, outcome) => outcome,
            (outcome, Outcome::Whole) => outcome,
            _ => Outcome::Wrong,
        }
    }
}

/// What a session sends, and what it may be given.
pub struct Session {
    pub input: &'static [u8],
    /// Its output without a refusal.
    pub whole: &'static [u8],
    /// Its output if storage was refused memory.
    pub refused: &'static [u8],
}

impl Session {
    /// It has one of its outputs, or the beginning of one if it was shut.
    fn outcome(&self, given: &Output) -> Outcome {
        let output = given.bytes();
        let is_allowed = if given.is_shut {
            self.whole.starts_with(output) || self.refused.starts_with(output)
        } else {
            self.refused == output
        };
        if self.whole == output && !given.is_shut {
            Outcome::Whole
        } else if is_allowed {
            Outcome::Allowed
        } else {
            Outcome::Wrong
        }
    }
}

/// What the sessions of a worker come to. One that is counted as unopened was shut.
pub fn outcome_of(worker: &GroupWorker<QuietPort<'_>>, sessions: &[Session; 2]) -> Outcome {
    let port = &worker.port;
    let shut = u64::from(port.first.is_shut) + u64::from(port.second.is_shut);
    if worker.unopened > shut || worker.strangers != 0 {
        return Outcome::Wrong;
    }
    let first = sessions[0].outcome(&port.first);
    let second = sessions[1].outcome(&port.second);
    first.and(second)
}
