//! What a group is given, and what it leaves.

use exchange::{Gathered, SentList};
use proto::{Dialect, Storage, Terms};
use worker::SessionList;

/// What a group runs for.
#[derive(Clone, Copy)]
pub struct Config {
    /// The sizes of the store, and whether its clock is the system's.
    pub terms: Terms,
    /// How lines are written that sessions send.
    pub dialect: Dialect,
    /// How many microseconds each thread looks for work before it sleeps. With None each uses its
    /// own small number of turns.
    pub spin: Option<u32>,
    /// The bytes that the output which clients don't take, and the answers on their way, may take
    /// at each worker. With None they are 67,108,864.
    pub output_budget: Option<usize>,
    /// Which threads execute requests.
    pub storage: Storage,
}

/// What a group leaves of one worker.
#[derive(Drop)]
pub struct GroupWorker<P> {
    pub port: P,
    /// The requests that it sent, for clauses alone: it has no bytes.
    pub sent: SentList,
    /// The sessions that were opened, by rising numbers, and why each ended.
    pub sessions: SessionList,
    /// How many sessions were shut at once because memory ran out. The count saturates.
    pub unopened: u64,
    /// Answers that no session waited for.
    pub strangers: u64,
}

/// What a group leaves: its workers in the order of the ports, the clock, and how many requests
/// were executed, sent and taken back.
#[derive(Drop)]
pub struct GroupReport<P, C> {
    pub workers: Vec<GroupWorker<P>>,
    pub clock: C,
    /// It stays at the greatest number.
    pub executed: u64,
    /// By the number of the worker.
    pub gathered: Gathered,
}
