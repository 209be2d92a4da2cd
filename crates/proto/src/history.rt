//! What goes between the workers and the storage thread. A history is a list of `Answered`.

use crate::clock::ClockAnswers;
use crate::message::{Reply, Request};

/// A request that a worker posts for one of its sessions.
#[derive(Drop)]
pub struct Posted {
    pub session: u64,
    /// The worker's number for it: 1, 2, 3 and so on over all its sessions.
    pub number: u64,
    pub request: Request,
}

/// A request that was executed, with its moment in seconds, the clock's answers up to the one that
/// gave it, and its reply.
#[derive(Drop)]
pub struct Answered {
    pub worker: usize,
    pub session: u64,
    pub number: u64,
    pub request: Request,
    pub moment: u64,
    pub clock: ClockAnswers,
    pub reply: Reply,
}
