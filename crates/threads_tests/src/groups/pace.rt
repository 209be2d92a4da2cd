//! Requests that come one at a time: a worker that doesn't wake a storage thread that has parked is
//! seen, and storage that doesn't wake a worker that has.

ghost use Rattle.std.specs.Prelude.{◌≡◌, [], Some, IsSome};

use crate::clock::SteadyClock;
use crate::groups::running;
use crate::groups::running::EACH_STORAGE;
use bytes::Bytes;
use exchange::WorkerLane;
use proto::{Clock as Moments, ClockAnswer, Storage};
use std::alloc::Global;
use std::process::Abort;
use std::sync::Wait;
use std::thread;
use std::thread::Threads;
use std::time::{Clock, Duration, Instant};
use worker::OpenGate;
use worker_port::{Gone, Port, PortEvent, ToldHistory};

/// How many requests come.
const REQUESTS: usize = 200;

/// What each of them is answered.
const ANSWER: &[u8] = b"END\r\n";

/// The pause before each request, or in the midst of it, in milliseconds. A thread that isn't woken
/// sleeps for some 100.
const PAUSE_MILLIS: u64 = 2;

/// So long all of them may take.
const MOST_SECONDS: u64 = 5;

/// It is 1000 at all times, and takes a while to say so.
#[derive(Drop)]
struct SlowClock<R: Drop> {
    rt: R,
}

impl<R: Clock + Drop> Moments for SlowClock<R> {
    ghost use Rattle.std.specs.Prelude.{⊤, None};

    ghost told = { λ _. None };

    ghost leads_to = { λ _ _. ⊤ };

    ghost start = { λ _. None };

    ghost leads_reflexive = { λ _. tt };

    ghost leads_transitive = { λ _ _ _ _ _. tt };

    fn now(&mut self) -> ClockAnswer {
        thread::sleep(&self.rt, Duration::from_millis(PAUSE_MILLIS));
        ClockAnswer::given(1000)
    }
}

/// Opens session 1, sends it a request so long after the one before was answered, and ends after
/// the last answer.
#[derive(Drop)]
struct OneAtATime<R: Drop> {
    rt: R,
    pause_millis: u64,
    is_open: bool,
    has_ended: bool,
    sent: usize,
    given: usize,
}

impl<R: Clock + Drop> Port for OneAtATime<R> {
    ghost use Rattle.std.specs.Prelude.{None};

    ghost told = { λ _. None };

    ghost leads_to = { λ _ _. Unit {0} };

    fn next(&mut self, _may_wait: bool, _sender: &WorkerLane) -> PortEvent {
        if !self.is_open {
            self.is_open = true;
            return PortEvent::Opened(1);
        }
        if self.has_ended || self.given < self.sent.saturating_mul(ANSWER.len()) {
            return PortEvent::Idle;
        }
        if self.sent < REQUESTS {
            self.sent = self.sent.saturating_add(1);
            thread::sleep(&self.rt, Duration::from_millis(self.pause_millis));
            return PortEvent::Data(1, Bytes::from_static(b"get a\r\n"));
        }
        self.has_ended = true;
        PortEvent::Ended
    }

    fn give(&mut self, _session: u64, bytes: &[u8], _history: ToldHistory) -> Result<usize, Gone> {
        self.given = self.given.saturating_add(bytes.len());
        Ok(bytes.len())
    }

    fn pause(&mut self, _session: u64) {}

    fn resume(&mut self, _session: u64) {}

    fn shut(&mut self, _session: u64) {}

    ghost leads_reflexive = { λ _. tt };

    ghost leads_transitive = { λ _ _ _ _ _. tt };
}

// Runs a group over the requests, and gives how many were executed and how long that took.
fn run<R, C>(
    rt: &R,
    alloc: Global,
    pause_millis: u64,
    clock: C,
    storage: Storage,
) -> (u64, Duration)
where
    R: Abort + Threads + Wait + Clock + Sync + Send + Copy + Drop,
    C: Moments + Send,
    requires unasked { IsSome (C.start clock) → C.told clock ≡ Some [] }
{
    let port = OneAtATime {
        rt: *rt,
        pause_millis,
        is_open: false,
        has_ended: false,
        sent: 0,
        given: 0,
    };
    let mut ports = Vec::new(alloc);
    ports.push(port).expect(rt, "memory");
    let start = Instant::now(rt).expect(rt, "the time");
    let executed = running::run(rt, alloc, ports, clock, &OpenGate, storage).executed;
    (executed, start.elapsed(rt).expect(rt, "the time"))
}

fn check_run(rt: &impl Abort, (executed, took): (u64, Duration)) {
    assert!(rt; took < Duration::from_secs(MOST_SECONDS));
    assert_eq!(rt; executed, REQUESTS as u64);
}

// Storage has parked when a request comes.
#[test]
fn requests_after_pauses_are_answered_soon(rt: HostRuntime) {
    for storage in EACH_STORAGE {
        check_run(
            &rt,
            run(&rt, rt.alloc(), PAUSE_MILLIS, SteadyClock, storage),
        );
    }
}

// The worker has parked when its answer comes.
#[test]
fn answers_of_a_slow_storage_are_taken_soon(rt: HostRuntime) {
    for storage in EACH_STORAGE {
        check_run(&rt, run(&rt, rt.alloc(), 0, SlowClock { rt }, storage));
    }
}
