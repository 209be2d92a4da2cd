//! Storage tells a worker of its answers at each eighth. The test finds storage that tells them
//! only once it has answered all that it saw.

use crate::groups::keeping_port::KeepingPort;
use crate::groups::running::run;
use crate::same::check_same;
use crate::texts::repeated;
use bytes::Bytes;
use proto::{Clock as Moments, ClockAnswer, Storage};
use std::alloc::Global;
use std::process::Abort;
use std::sync::atomic::{AtomicU64, Ordering};
use std::thread;
use std::time::{Clock, Duration};
use worker::Gate;

/// How many requests come in one piece. Storage sees all of them at once.
const REQUESTS: usize = 24;

/// The most answers that are told together.
const TOLD_TOGETHER: u64 = 8;

/// How long the clock waits for answers to be taken, in milliseconds.
const PATIENCE_MILLIS: u64 = 4000;

/// Lets each request pass, and counts the answers that the worker took.
#[derive(Drop)]
struct TakenAnswers {
    taken: AtomicU64,
    given_up: AtomicU64,
}

impl TakenAnswers {
    /// Waits until `wanted` answers were taken, or gives up.
    fn wait_for<R: Clock>(&self, rt: &R, wanted: u64) {
        for _ in 0..PATIENCE_MILLIS {
            if self.taken.load(Ordering::SeqCst) >= wanted {
                return;
            }
            thread::sleep(rt, Duration::from_millis(1));
        }
        self.given_up.fetch_add(1, Ordering::SeqCst);
    }
}

impl Gate for TakenAnswers {
    fn may_post(&self, _worker: usize, _number: u64) -> bool {
        true
    }

    fn answered(&self, _worker: usize, _number: u64) {
        self.taken.fetch_add(1, Ordering::SeqCst);
    }
}

/// It is 1000 at all times. Behind each eighth request it says so only once the worker took all
/// answers before.
#[derive(Drop)]
struct WaitingClock<'a, R: Drop> {
    rt: R,
    answers: &'a TakenAnswers,
    asked: u64,
}

impl<R: Clock + Drop> Moments for WaitingClock<'_, R> {
    ghost use Rattle.std.specs.Prelude.{⊤, None};

    ghost told = { λ _. None };

    ghost leads_to = { λ _ _. ⊤ };

    ghost start = { λ _. None };

    ghost leads_reflexive = { λ _. tt };

    ghost leads_transitive = { λ _ _ _ _ _. tt };

    fn now(&mut self) -> ClockAnswer {
        if self.asked % TOLD_TOGETHER == 0 {
            self.answers.wait_for(&self.rt, self.asked);
        }
        self.asked = self.asked.saturating_add(1);
        ClockAnswer::given(1000)
    }
}

/// Sends all requests in one piece.
fn port_of<R: Abort>(rt: &R, alloc: Global) -> KeepingPort {
    let piece = repeated(rt, alloc, b"get a\r\n", REQUESTS);
    let piece = Bytes::copy_from_slice(alloc, piece.as_slice()).expect(rt, "memory");
    KeepingPort::new(alloc, piece)
}

#[test]
fn each_eighth_answer_is_told(rt: HostRuntime) {
    let alloc: Global = rt.alloc();
    let answers = TakenAnswers {
        taken: AtomicU64::new(0),
        given_up: AtomicU64::new(0),
    };
    let clock = WaitingClock {
        rt,
        answers: &answers,
        asked: 0,
    };
    let mut ports = Vec::new(alloc);
    ports.push(port_of(&rt, alloc)).expect(&rt, "memory");
    // A worker that executes takes no answers meanwhile.
    let executed = run(&rt, alloc, ports, clock, &answers, Storage::Thread).executed;
    check_same(&rt, executed, REQUESTS as u64, "executed");
    let given_up = answers.given_up.load(Ordering::SeqCst);
    check_same(&rt, given_up, 0, "given up");
}
