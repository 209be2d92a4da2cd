//! Times that have passed.

use std::time::{Clock, Duration, Instant};

/// The least time between two turns of something.
#[derive(Clone, Copy)]
pub(crate) struct Interval {
    least: Duration,
    /// The last turn; none if there was none.
    last: Option<Instant>,
}

impl Interval {
    pub(crate) fn of_millis(millis: u64) -> Interval {
        Interval::of(Duration::from_millis(millis))
    }

    pub(crate) fn of(least: Duration) -> Interval {
        Interval { least, last: None }
    }

    /// The time to the next turn, none of it if one is due; `None` if the clock can't be read.
    pub(crate) fn left<R: Clock>(&self, rt: &R) -> Option<Duration> {
        let Some(last) = self.last else {
            return Some(Duration::ZERO);
        };
        Some(self.least.saturating_sub(last.elapsed(rt).ok()?))
    }

    /// Whether a turn is due. It is taken to be made. None is due while the clock can't be read.
    pub(crate) fn take<R: Clock>(&mut self, rt: &R) -> bool {
        let Ok(now) = Instant::now(rt) else {
            return false;
        };
        let Interval { least, last } = *self;
        if last.is_some_and(|last| now.duration_since(last) < least) {
            return false;
        }
        self.last = Some(now);
        true
    }

    /// As `take`, but turns are due at even times: one that is late by less than the interval makes
    /// no later one late. So two of them may be closer than the interval.
    pub(crate) fn take_evenly<R: Clock>(&mut self, rt: &R) -> bool {
        let before = self.last;
        if !self.take(rt) {
            return false;
        }
        let due = before.and_then(|before| before.checked_add(self.least));
        if let (Some(due), Some(now)) = (due, self.last) {
            if now.duration_since(due) < self.least {
                self.last = Some(due);
            }
        }
        true
    }
}

/// Whether so many milliseconds have passed since then. They have if the clock can't be read.
pub(crate) fn have_passed<R: Clock>(rt: &R, since: Instant, millis: u64) -> bool {
    match since.elapsed(rt) {
        Ok(passed) => passed >= Duration::from_millis(millis),
        Err(_) => true,
    }
}
