//! Storage tells a worker of its answers before a `get` that may take long, and wakes a worker that
//! it tells early. The first test finds storage that tells them later; the second one finds storage
//! that doesn't wake a worker which has parked.

use crate::groups::keeping_port::KeepingPort;
use crate::groups::running::run;
use crate::same::check_same;
use crate::texts::{add_get, repeated};
use bytes::Bytes;
use proto::{Clock as Moments, ClockAnswer, Storage};
use std::alloc::Global;
use std::process::Abort;
use std::sync::Wait;
use std::sync::atomic::{AtomicU64, Ordering};
use std::thread::{self, Threads};
use std::time::{Clock, Duration};
use worker::Gate;

/// The requests of a window: storage sees all of them at once.
const REQUESTS: usize = 64;

/// The requests for one key before the one for many.
const SHORT_REQUESTS: usize = 3;

/// The fewest keys of a `get` that may take long.
const MANY_KEYS: usize = 65;

/// How long the clock waits for an answer to be taken, in milliseconds.
const PATIENCE_MILLIS: u64 = 4000;

/// In this time, in milliseconds, the worker parks.
const PARKING_MILLIS: u64 = 5;

/// So many milliseconds seven answers may be waited for. A worker that isn't woken parks for 100
/// before each of them.
const MOST_MILLIS: u64 = 300;

/// A busy machine may keep a thread from its processor.
const TRIES: usize = 3;

/// Lets each request pass, and counts the answers that the worker took, and for how many
/// milliseconds they were waited for.
#[derive(Drop)]
struct TakenAnswers {
    taken: AtomicU64,
    waited_millis: AtomicU64,
}

impl TakenAnswers {
    fn new() -> TakenAnswers {
        TakenAnswers {
            taken: AtomicU64::new(0),
            waited_millis: AtomicU64::new(0),
        }
    }

    /// Waits until `wanted` answers were taken, or gives up.
    fn wait_for<R: Clock>(&self, rt: &R, wanted: u64) {
        for _ in 0..PATIENCE_MILLIS {
            if self.taken.load(Ordering::SeqCst) >= wanted {
                return;
            }
            thread::sleep(rt, Duration::from_millis(1));
            self.waited_millis.fetch_add(1, Ordering::SeqCst);
        }
    }
}

impl Gate for TakenAnswers {
    fn may_post(&self, _worker: usize, _number: u64) -> bool {
        true
    }

    fn answered(&self, _worker: usize, _number: u64) {
        self.taken.fetch_add(1, Ordering::SeqCst);
    }
}

/// It is 1000 at all times. Before each request of which the number, from 0 on, is a multiple of
/// `each`, it says so only once the worker took all answers before, and then has parked.
#[derive(Drop)]
struct WaitingClock<'a, R: Drop> {
    rt: R,
    answers: &'a TakenAnswers,
    each: u64,
    asked: u64,
}

impl<R: Clock + Drop> Moments for WaitingClock<'_, R> {
    ghost use Rattle.std.specs.Prelude.{⊤, None};

    ghost told = { λ _. None };

    ghost leads_to = { λ _ _. ⊤ };

    ghost start = { λ _. None };

    ghost leads_reflexive = { λ _. tt };

    ghost leads_transitive = { λ _ _ _ _ _. tt };

    fn now(&mut self) -> ClockAnswer {
        if self.asked.checked_rem(self.each) == Some(0) {
            self.answers.wait_for(&self.rt, self.asked);
            thread::sleep(&self.rt, Duration::from_millis(PARKING_MILLIS));
        }
        self.asked = self.asked.saturating_add(1);
        ClockAnswer::given(1000)
    }
}

/// For how many milliseconds the answers before each of these requests were waited for, if one
/// session sends them in one piece.
fn waited_millis<R>(rt: R, alloc: Global, requests: &[u8], count: u64, each: u64) -> u64
where
    R: Abort + Threads + Wait + Clock + Sync + Send + Copy + Drop,
{
    let answers = TakenAnswers::new();
    let clock = WaitingClock {
        rt,
        answers: &answers,
        each,
        asked: 0,
    };
    let piece = Bytes::copy_from_slice(alloc, requests).expect(&rt, "memory");
    let mut ports = Vec::new(alloc);
    ports
        .push(KeepingPort::new(alloc, piece))
        .expect(&rt, "memory");
    let executed = run(&rt, alloc, ports, clock, &answers, Storage::Thread).executed;
    check_same(&rt, executed, count, "executed");
    answers.waited_millis.load(Ordering::SeqCst)
}

/// Short requests, and one that may take long.
fn short_and_long<R: Abort>(rt: &R, alloc: Global) -> Vec<u8> {
    let mut all = repeated(rt, alloc, b"get a\r\n", SHORT_REQUESTS);
    add_get(rt, &mut all, b" a", MANY_KEYS);
    all
}

#[test]
fn answers_before_a_get_that_may_take_long_are_told(rt: HostRuntime) {
    let alloc: Global = rt.alloc();
    let requests = short_and_long(&rt, alloc);
    let short = SHORT_REQUESTS as u64;
    let waited = waited_millis(rt, alloc, requests.as_slice(), short + 1, short);
    assert!(rt; waited < PATIENCE_MILLIS);
}

#[test]
fn a_worker_that_is_told_early_is_woken(rt: HostRuntime) {
    let alloc: Global = rt.alloc();
    let requests = repeated(&rt, alloc, b"get a\r\n", REQUESTS);
    let mut is_soon = false;
    for _ in 0..TRIES {
        let waited = waited_millis(rt, alloc, requests.as_slice(), REQUESTS as u64, 8);
        is_soon = is_soon || waited < MOST_MILLIS;
    }
    assert!(rt; is_soon);
}
