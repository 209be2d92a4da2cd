//! What a run over a port that keeps its records leaves.

use crate::serving::{Served, exchange_of_one, serve, sizes};
use crate::workers::recording_port::{Manners, RecordingPort, Step};
use std::alloc::Global;
use std::collections::VecDeque;
use std::process::Abort;
use std::sync::Wait;
use std::thread::Threads;
use std::time::Clock;
use worker::Gate;
use worker_port::PortRecord;

/// How a session ended at its port.
#[derive(Clone, Copy, Debug, PartialEq, Eq)]
pub(crate) enum Ending {
    /// It was open still when the port ended.
    Open,
    Shut,
    Gone,
}

/// Runs a worker over a port that plays these steps.
pub(crate) fn run<R, G>(
    rt: &R,
    alloc: Global,
    steps: VecDeque<Step>,
    manners: Manners,
    gate: &G,
) -> Served<RecordingPort<R>>
where
    R: Abort + Threads + Wait + Clock + Copy + Drop + Send + Sync + 'static,
    G: Gate,
{
    let geometry = sizes(rt);
    let exchange = exchange_of_one(rt, alloc, geometry);
    let port = RecordingPort::new(*rt, alloc, geometry, steps, manners, exchange.name());
    serve(rt, alloc, geometry, exchange, port, gate)
}

impl<R: Abort + Drop> RecordingPort<R> {
    /// How the session ended at its port.
    pub(crate) fn ending_of(&self, session: u64) -> Ending {
        for entry in self.records.as_slice() {
            match entry {
                PortRecord::Gone(number) if *number == session => return Ending::Gone,
                PortRecord::Shut(number) if *number == session => return Ending::Shut,
                _ => {}
            }
        }
        Ending::Open
    }

    /// How many bytes were given to the session.
    pub(crate) fn given_length(&self, session: u64) -> usize {
        let mut length = 0usize;
        for entry in self.records.as_slice() {
            if let PortRecord::Accepted(number, bytes) = entry {
                if *number == session {
                    length = length.saturating_add(bytes.len());
                }
            }
        }
        length
    }

    /// Whether the session was given these bytes, and nothing else.
    pub(crate) fn was_given(&self, session: u64, wanted: &[u8]) -> bool {
        let mut left = wanted;
        for entry in self.records.as_slice() {
            if let PortRecord::Accepted(number, bytes) = entry {
                if *number == session {
                    match left.strip_prefix(bytes.as_slice()) {
                        Some(rest) => left = rest,
                        None => return false,
                    }
                }
            }
        }
        left.is_empty()
    }

    /// Session 1 was shut, once, and nothing of it follows.
    pub(crate) fn is_shut_last(&self) -> bool {
        let mut shuts = 0u64;
        for entry in self.records.as_slice() {
            match entry {
                PortRecord::Shut(_) => shuts = shuts.saturating_add(1),
                PortRecord::Ended => {}
                _ if shuts > 0 => return false,
                _ => {}
            }
        }
        shuts == 1
    }
}
