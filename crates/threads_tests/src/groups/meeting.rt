//! A gate and a clock that wait for each other, so that eight workers and storage have to run side
//! by side.

use proto::{Clock, ClockAnswer};
use std::sync::atomic::{AtomicBool, AtomicU64, Ordering};
use std::thread;
use worker::Gate;

/// How often a stay yields before it gives up.
const PATIENCE: u64 = 1_000_000;

/// What a stay waits for.
#[derive(Clone, Copy)]
enum Wanted {
    /// Request 1 of each of the eight workers.
    AllFirst,
    /// Request 2 of each of the eight workers.
    AllSecond,
    /// The clock was asked.
    Asked,
}

/// Which requests came, and whether the clock was asked.
#[derive(Drop)]
pub(crate) struct Meeting {
    first_came: [AtomicBool; 8],
    second_came: [AtomicBool; 8],
    was_asked: AtomicBool,
    given_up: AtomicU64,
}

fn none_yet() -> [AtomicBool; 8] {
    [
        AtomicBool::new(false),
        AtomicBool::new(false),
        AtomicBool::new(false),
        AtomicBool::new(false),
        AtomicBool::new(false),
        AtomicBool::new(false),
        AtomicBool::new(false),
        AtomicBool::new(false),
    ]
}

fn are_all_set(flags: &[AtomicBool]) -> bool {
    flags.iter().all(|flag| flag.load(Ordering::SeqCst))
}

impl Meeting {
    pub(crate) fn new() -> Meeting {
        Meeting {
            first_came: none_yet(),
            second_came: none_yet(),
            was_asked: AtomicBool::new(false),
            given_up: AtomicU64::new(0),
        }
    }

    /// How many stays gave up.
    pub(crate) fn given_up(&self) -> u64 {
        self.given_up.load(Ordering::SeqCst)
    }

    fn has(&self, wanted: Wanted) -> bool {
        match wanted {
            Wanted::AllFirst => are_all_set(&self.first_came),
            Wanted::AllSecond => are_all_set(&self.second_came),
            Wanted::Asked => self.was_asked.load(Ordering::SeqCst),
        }
    }

    /// Yields until it came, or gives up.
    fn stay(&self, wanted: Wanted) {
        for _ in 0..PATIENCE {
            if self.has(wanted) {
                return;
            }
            thread::yield_now();
        }
        self.given_up.fetch_add(1, Ordering::SeqCst);
    }
}

/// Each request 1 stays until all eight came. Request 2 is held until the clock was asked: a worker
/// tells storage of its request 1 only once its turn goes on.
impl Gate for Meeting {
    fn may_post(&self, worker: usize, number: u64) -> bool {
        if worker < 8 && number == 1 {
            self.first_came[worker].store(true, Ordering::SeqCst);
            self.stay(Wanted::AllFirst);
        } else if worker < 8 && number == 2 {
            self.second_came[worker].store(true, Ordering::SeqCst);
            return self.has(Wanted::Asked);
        }
        true
    }

    fn answered(&self, _worker: usize, _number: u64) {}
}

/// It is 1000 at all times. When it is asked for the first time it stays until request 2 of all
/// eight workers came.
#[derive(Drop)]
pub(crate) struct MeetingClock<'a> {
    pub(crate) meeting: &'a Meeting,
}

impl Clock for MeetingClock<'_> {
    ghost use Rattle.std.specs.Prelude.{⊤, None};

    ghost told = { λ _. None };

    ghost leads_to = { λ _ _. ⊤ };

    ghost start = { λ _. None };

    ghost leads_reflexive = { λ _. tt };

    ghost leads_transitive = { λ _ _ _ _ _. tt };

    fn now(&mut self) -> ClockAnswer {
        if !self.meeting.has(Wanted::Asked) {
            self.meeting.was_asked.store(true, Ordering::SeqCst);
            self.meeting.stay(Wanted::AllSecond);
        }
        ClockAnswer::given(1000)
    }
}
