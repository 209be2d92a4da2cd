//! A port of two sessions that takes no memory.

use crate::counters::Counters;
use bytes::Bytes;
use exchange::WorkerLane;
use std::sync::atomic::Ordering;
use worker_port::{Gone, Port, PortEvent, ToldHistory};

/// The most bytes that are kept of a session's output.
const ROOM: usize = 64;

/// What a session was given.
#[derive(Drop)]
pub struct Output {
    bytes: [u8; ROOM],
    length: usize,
    pub is_shut: bool,
}

impl Output {
    fn new() -> Output {
        Output {
            bytes: [0; ROOM],
            length: 0,
            is_shut: false,
        }
    }

    fn keep(&mut self, bytes: &[u8]) {
        for byte in bytes {
            if self.length < ROOM {
                self.bytes[self.length] = *byte;
                self.length += 1;
            }
        }
    }

    pub fn bytes(&self) -> &[u8] {
        if self.length <= ROOM {
            &self.bytes[..self.length]
        } else {
            &[]
        }
    }
}

/// Opens sessions 1 and 2, sends each its input unless it was shut, and ends. It counts how often
/// it is asked.
#[derive(Drop)]
pub struct QuietPort<'a> {
    counters: &'a Counters,
    inputs: [&'static [u8]; 2],
    pub first: Output,
    pub second: Output,
    step: u64,
}

impl<'a> QuietPort<'a> {
    pub fn new(counters: &'a Counters, inputs: [&'static [u8]; 2]) -> QuietPort<'a> {
        QuietPort {
            counters,
            inputs,
            first: Output::new(),
            second: Output::new(),
            step: 0,
        }
    }

    fn output(&mut self, session: u64) -> &mut Output {
        if session == 1 {
            &mut self.first
        } else {
            &mut self.second
        }
    }
}

impl Port for QuietPort<'_> {
    ghost use Rattle.std.specs.Prelude.{None};

    ghost told = { λ _. None };

    ghost leads_to = { λ _ _. Unit {0} };

    fn next(&mut self, _may_wait: bool, _sender: &WorkerLane) -> PortEvent {
        self.counters.events.fetch_add(1, Ordering::SeqCst);
        self.step = self.step.saturating_add(1);
        match self.step {
            1 => PortEvent::Opened(1),
            2 => PortEvent::Opened(2),
            3 if !self.first.is_shut => PortEvent::Data(1, Bytes::from_static(self.inputs[0])),
            4 if !self.second.is_shut => PortEvent::Data(2, Bytes::from_static(self.inputs[1])),
            5 => PortEvent::Ended,
            _ => PortEvent::Idle,
        }
    }

    fn give(&mut self, session: u64, bytes: &[u8], _history: ToldHistory) -> Result<usize, Gone> {
        self.output(session).keep(bytes);
        Ok(bytes.len())
    }

    fn pause(&mut self, _session: u64) {}

    fn resume(&mut self, _session: u64) {}

    fn shut(&mut self, session: u64) {
        self.output(session).is_shut = true;
    }

    ghost leads_reflexive = { λ _. tt };

    ghost leads_transitive = { λ _ _ _ _ _. tt };
}
