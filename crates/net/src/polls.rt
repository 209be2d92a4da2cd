//! When a port polls its sockets, and how long each poll waits.

use std::time::{Clock, Duration, Instant};
use worker_port::MAX_PIECE;

/// While the worker may not wait, the sockets are polled only at each fourth call in a row that
/// finds nothing, so that a lone request may be answered before the first of these polls.
const CALLS_EACH_POLL: u32 = 4;

/// The sockets are polled at each so many calls at least, whatever is known, so that a client that
/// sends or reads fast doesn't keep the others from being heard. Each whole piece of output that
/// was accepted counts as a call.
const MOST_UNPOLLED: usize = 32;

/// How long a poll waits, in milliseconds: a new stream wakes it.
const WAIT_MILLIS: u64 = 100;

/// How long it waits while sessions that were shut are read.
const DRAINING_WAIT_MILLIS: u64 = 5;

/// The calls in a row that found no event, and the time after the last event for which polls don't
/// wait.
#[derive(Clone, Copy, Default)]
pub(crate) struct Polls {
    idle_calls: u32,
    /// The calls since the last poll.
    unpolled: usize,
    /// Zero at first: each poll waits then, if the worker may.
    spin: Duration,
    /// The first poll since the last event that would wait; none if there was none.
    since: Option<Instant>,
}

impl Polls {
    /// Polls don't wait until this many microseconds after an event.
    pub(crate) fn set_spin(&mut self, micros: u32) {
        self.spin = Duration::from_micros(micros as u64);
    }

    /// Something came or went: idle calls are counted from here.
    pub(crate) fn restart(&mut self) {
        self.idle_calls = 0;
        self.since = None;
    }

    /// So many bytes of output were accepted.
    pub(crate) fn gave(&mut self, bytes: usize) {
        self.restart();
        self.unpolled = self.unpolled.saturating_add(bytes / MAX_PIECE);
    }

    /// How long the poll of this call waits; none if there is to be no poll.
    pub(crate) fn next<R: Clock>(
        &mut self,
        rt: &R,
        knows_event: bool,
        may_wait: bool,
        is_draining: bool,
    ) -> Option<Duration> {
        self.unpolled = self.unpolled.saturating_add(1);
        let calls = self.idle_calls;
        if !knows_event {
            self.idle_calls = calls.saturating_add(1);
        }
        let is_early = !may_wait && calls % CALLS_EACH_POLL < CALLS_EACH_POLL - 1;
        let needs_none = knows_event || is_early;
        if needs_none && self.unpolled < MOST_UNPOLLED {
            return None;
        }
        self.unpolled = 0;
        let millis = match may_wait {
            _ if needs_none => 0,
            true if !self.spin.is_zero() && self.spins(rt) => 0,
            true if is_draining => DRAINING_WAIT_MILLIS,
            true => WAIT_MILLIS,
            false => 0,
        };
        Some(Duration::from_millis(millis))
    }

    /// Whether a poll is too early to wait. The clock is read only here, so that a busy port never
    /// reads it.
    fn spins<R: Clock>(&mut self, rt: &R) -> bool {
        let Ok(now) = Instant::now(rt) else {
            return false;
        };
        let since = *self.since.get_or_insert(now);
        now.duration_since(since) < self.spin
    }
}
