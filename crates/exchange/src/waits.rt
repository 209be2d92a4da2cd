//! How long a thread waited.

use proto::Gauges;
use std::time::{Clock, Duration, Instant};

/// How long a thread waited, which it leaves for `stats`. The clock is read where a wait begins and
/// where it ends.
#[derive(Drop)]
pub struct Waits<'a> {
    gauges: Option<&'a Gauges>,
    /// When the thread began, and since when it waits; None also if the clock couldn't be read.
    began: Option<Instant>,
    since: Option<Instant>,
    /// How long the waits were that have ended.
    total: Duration,
}

impl<'a> Waits<'a> {
    /// The thread begins. It leaves its times there.
    pub fn new<R: Clock>(rt: &R, gauges: Option<&'a Gauges>) -> Waits<'a> {
        Waits {
            gauges,
            began: Instant::now(rt).ok(),
            since: None,
            total: Duration::ZERO,
        }
    }

    /// The thread waits from now on, if it doesn't already.
    pub fn begin<R: Clock>(&mut self, rt: &R) {
        if self.since.is_some() {
            return;
        }
        self.since = Instant::now(rt).ok();
        if let (Some(began), Some(since), Some(gauges)) = (self.began, self.since, self.gauges) {
            gauges.leave_waiting(since.duration_since(began).saturating_sub(self.total));
        }
    }

    /// It goes on, if it has waited.
    pub fn end<R: Clock>(&mut self, rt: &R) {
        let Some(since) = self.since else {
            return;
        };
        self.since = None;
        if let Ok(now) = Instant::now(rt) {
            self.total = self.total.saturating_add(now.duration_since(since));
        }
        if let Some(gauges) = self.gauges {
            gauges.leave_busy(self.total);
        }
    }
}
