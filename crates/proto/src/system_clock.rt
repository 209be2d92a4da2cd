//! The answers of a clock, and the system's clock.

ghost use Rattle.std.specs.Prelude.{◌≡◌, ◌++◌, [], ◌∷◌, Option};
ghost use Rattle.std.specs.declared.time.Instant.{Instant};

use crate::clock::Clock;
use crate::logged_clock::{ClockReading, LoggedClock};
use crate::trace::Trace;
use std::marker::Model;
use std::time::{self, Instant};

/// One answer of a clock. For contracts only, it knows which reading it came from: only
/// `SystemClock` makes one with a reading.
#[derive(Drop)]
pub struct ClockAnswer {
    pub(crate) seconds: u64,
    read: Trace<ClockReading>,
    /// The reading of the monotonic clock, if there was one. No clause speaks of it.
    pub(crate) at: Option<Instant>,
}

impl Model for ClockAnswer {
    ghost use Rattle.proto.specs.ClockAnswers.{GivenAnswer};

    ghost Value = { GivenAnswer };

    ghost view = { λ a. record { seconds = a.seconds; read = a.read.items } };
}

impl ClockAnswer {
    /// The answer of another clock than the system's.
    pub fn given(seconds: u64) -> ClockAnswer
        ensures { result ≡ record { seconds = seconds; read = [] } }
    {
        ClockAnswer {
            seconds,
            read: Trace::new(),
            at: None,
        }
    }

    pub fn seconds(&self) -> u64
        ensures { result ≡ self.now.seconds }
    {
        self.seconds
    }
}

/// The system's clock, in whole seconds: the Unix time of its start, counted on by the monotonic
/// clock, so that its answers don't jump with the system's time. Its value is what was read.
#[derive(Drop)]
pub struct SystemClock<R: Drop> {
    log: LoggedClock<R>,
    /// The Unix seconds of its start.
    began: u64,
}

impl<R: Drop> Model for SystemClock<R> {
    ghost use Rattle.std.specs.Prelude.{◌≡◌, ◌<◌, ◌^◌};
    ghost use Rattle.proto.specs.ClockAnswers.{ClockLog, unix_seconds};

    ghost Value = { ClockLog };

    ghost view = { λ c. c.log };

    ghost invariant = { λ c. (c.began ≡ unix_seconds c.log.start.unix) × (c.began < 2 ^ 63) };
}

impl<R: time::Clock + Drop> SystemClock<R> {
    /// Reads the clock's start.
    pub fn new(rt: R) -> SystemClock<R>
        ensures { result.readings ≡ [] }
    {
        let log = LoggedClock::new(rt);
        let began = log.start().unix_seconds();
        SystemClock { log, began }
    }
}

/// It tells its answers, one for each reading of the monotonic clock.
impl<R: time::Clock + Drop> Clock for SystemClock<R> {
    ghost use Rattle.std.specs.Prelude.{⊤, Some, map};
    ghost use Rattle.proto.specs.ClockAnswers.{seconds_since};

    ghost told = { λ c. Some (map (seconds_since c.start) c.readings) };

    ghost leads_to = { λ _ _. ⊤ };

    ghost start = { λ c. Some c.start };

    ghost leads_reflexive = { λ _. tt };

    ghost leads_transitive = { λ _ _ _ _ _. tt };

    /// The whole seconds of one reading. They are 0 or more after the Unix seconds of the start.
    fn now(&mut self) -> ClockAnswer
        ensures start { self.new.start ≡ self.old.start }
        ensures reading { (now : Option Instant) × (self.new.readings ≡ self.old.readings ++ now ∷ [])
            × (result ≡ record {
              seconds = seconds_since self.old.start now;
              read = record { start = self.old.start; now = now } ∷ [];
            }) }
    {
        let reading = self.log.read();
        let seconds = self.began + reading.seconds();
        let mut read = Trace::new();
        read.note_as(&reading);
        ClockAnswer {
            seconds,
            read,
            at: reading.now,
        }
    }
}
