//! A port that sends its bytes and keeps what it is given.

use bytes::Bytes;
use exchange::WorkerLane;
use std::alloc::Global;
use worker_port::{Gone, Port, PortEvent, ToldHistory};

/// Opens session 1, sends it some bytes, and ends. It keeps what is given, and whether a session
/// was shut.
#[derive(Drop)]
pub(crate) struct KeepingPort {
    input: Option<Bytes>,
    is_open: bool,
    pub(crate) given: Vec<u8>,
    pub(crate) was_shut: bool,
}

impl KeepingPort {
    pub(crate) fn new(alloc: Global, input: Bytes) -> KeepingPort {
        KeepingPort {
            input: Some(input),
            is_open: false,
            given: Vec::new(alloc),
            was_shut: false,
        }
    }
}

impl Port for KeepingPort {
    ghost use Rattle.std.specs.Prelude.{None};

    ghost told = { λ _. None };

    ghost leads_to = { λ _ _. Unit {0} };

    fn next(&mut self, _may_wait: bool, _sender: &WorkerLane) -> PortEvent {
        if !self.is_open {
            self.is_open = true;
            return PortEvent::Opened(1);
        }
        match self.input.take() {
            Some(bytes) => PortEvent::Data(1, bytes),
            None => PortEvent::Ended,
        }
    }

    fn give(&mut self, _session: u64, bytes: &[u8], _history: ToldHistory) -> Result<usize, Gone> {
        match self.given.extend_from_slice(bytes) {
            Ok(()) => Ok(bytes.len()),
            Err(_) => Ok(0),
        }
    }

    fn pause(&mut self, _session: u64) {}

    fn resume(&mut self, _session: u64) {}

    fn shut(&mut self, _session: u64) {
        self.was_shut = true;
    }

    ghost leads_reflexive = { λ _. tt };

    ghost leads_transitive = { λ _ _ _ _ _. tt };
}
