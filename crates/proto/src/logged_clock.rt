//! The system's clock, which knows, for clauses alone, what was read of it. All that is proved of
//! its times rests on `new` and `read`, which note what the system answered; no clause says that
//! what it answers goes on.

ghost use Rattle.std.specs.Prelude.{◌≡◌, ◌++◌, ◌∷◌, [], IfSome};
ghost use Rattle.std.specs.Time.{system_time_nanos, instant_nanos, FitsClock};
ghost use Rattle.proto.specs.ClockAnswers.{unix_seconds, seconds_between};

use crate::trace::{Noted, Trace};
use std::marker::Model;
use std::time::{self, Instant, SystemTime, UNIX_EPOCH};

/// What was read at the start: the Unix time and the monotonic clock, None if they couldn't be
/// read. Only `LoggedClock` makes one.
#[derive(Clone, Copy)]
pub struct ClockStart {
    unix: Option<SystemTime>,
    monotonic: Option<Instant>,
}

/// One reading of the monotonic clock, None if it couldn't be read, with the start. Only
/// `LoggedClock` makes one.
#[derive(Clone, Copy)]
pub struct ClockReading {
    start: ClockStart,
    pub(crate) now: Option<Instant>,
}

impl Noted<Option<Instant>> for Option<Instant> {
    ghost noted = { λ now. now ∷ [] };
}

impl Noted<ClockReading> for ClockReading {
    ghost noted = { λ reading. reading ∷ [] };
}

/// The system's clock. Its value is its start and the list of its readings; nothing but `read` adds
/// to it.
#[derive(Drop)]
pub struct LoggedClock<R: Drop> {
    rt: R,
    start: ClockStart,
    readings: Trace<Option<Instant>>,
}

impl<R: Drop> Model for LoggedClock<R> {
    ghost use Rattle.proto.specs.ClockAnswers.{ClockLog};

    ghost Value = { ClockLog };

    ghost view = { λ c. record { start = c.start; readings = c.readings.items } };
}

impl<R: time::Clock + Drop> LoggedClock<R> {
    /// Reads the Unix time and the monotonic clock, once for all.
    pub(crate) fn new(rt: R) -> LoggedClock<R>
        ensures readings { result.readings ≡ [] }
        ensures fits { IfSome result.start.unix (λ time. FitsClock (system_time_nanos time)) }
    {
        let start = ClockStart {
            unix: SystemTime::now(&rt).ok(),
            monotonic: Instant::now(&rt).ok(),
        };
        LoggedClock {
            rt,
            start,
            readings: Trace::new(),
        }
    }

    /// Reads the monotonic clock once.
    pub(crate) fn read(&mut self) -> ClockReading
        ensures start { (result.start ≡ self.old.start) × (self.new.start ≡ self.old.start) }
        ensures readings { self.new.readings ≡ self.old.readings ++ result.now ∷ [] }
        ensures fits { IfSome result.now (λ now. FitsClock (instant_nanos now)) }
    {
        let now = Instant::now(&self.rt).ok();
        self.readings.note_as(&now);
        ClockReading {
            start: self.start,
            now,
        }
    }

    pub(crate) fn start(&self) -> ClockStart
        ensures { result ≡ self.now.start }
    {
        self.start
    }
}

impl ClockStart {
    /// The whole seconds from 1970 to the Unix time, 0 if it couldn't be read.
    pub(crate) fn unix_seconds(self) -> u64
        ensures { result ≡ unix_seconds self.unix }
    {
        match self.unix.map(|time| time.duration_since(UNIX_EPOCH)) {
            Some(Ok(since)) => since.as_secs(),
            _ => 0,
        }
    }
}

impl ClockReading {
    /// The whole seconds by the monotonic clock since the start, 0 if it couldn't be read then or
    /// now.
    pub(crate) fn seconds(self) -> u64
        ensures { result ≡ seconds_between self.start.monotonic self.now }
    {
        match (self.start.monotonic, self.now) {
            (Some(first), Some(now)) => now.duration_since(first).as_secs(),
            _ => 0,
        }
    }
}
