//! What a `stats` shows.

ghost use Rattle.std.specs.Prelude.{◌≡◌, ◌⊎◌, ℕ, List, IfOk};
ghost use Rattle.proto.specs.StatTexts.{IsStats};

use engine::StorageEngine;
use exchange::GroupSignals;
use proto::{Counts, Gauge, NoMemory, Reply, Request, StatsText, TOLD_VERSION};
use std::time::{Clock, Duration, Instant};

/// What a `stats` shows beside counts, the system's clock and the signals: when the storage side
/// was made.
#[derive(Drop)]
pub struct StatsSource {
    /// None if the clock couldn't be read.
    began: Option<Instant>,
    /// How often the store had made room when that was noted last.
    evictions: u64,
}

/// How long ago that was; no time if the clock can't be read.
pub(crate) fn passed<R: Clock>(rt: &R, since: Option<Instant>) -> Duration {
    since
        .and_then(|since| since.elapsed(rt).ok())
        .unwrap_or(Duration::ZERO)
}

impl StatsSource {
    pub fn new<R: Clock>(rt: &R) -> StatsSource {
        StatsSource {
            began: Instant::now(rt).ok(),
            evictions: 0,
        }
    }

    /// Sets the gauges, this long after the side was made.
    fn set_gauges<S: StorageEngine>(
        &self,
        signals: &GroupSignals,
        store: &S,
        worker: usize,
        passed: Duration,
    ) {
        let gauges = signals.storage_gauges();
        gauges.set(&[
            (Gauge::Pid, u64::from(libc::getpid().unsigned_abs())),
            (Gauge::Uptime, passed.as_secs()),
            (Gauge::Time, store.last_moment()),
            (Gauge::PointerSize, 64),
            (Gauge::Threads, signals.workers() as u64),
            (Gauge::StorageBusy, gauges.busy_micros(passed)),
        ]);
        signals.gather_gauges(worker);
        store.set_gauges(gauges);
    }

    /// These counts, the gauges, and the lines of each worker, for a worker that asks.
    #[inline(never)]
    #[tactic(auto, unfolding(proto::specs::StatTexts::names_gauge, proto::specs::StatTexts::count_lines, proto::specs::StatTexts::tally_lines))]
    fn text<S: StorageEngine, R: Clock>(
        &self,
        rt: &R,
        signals: &GroupSignals,
        counts: &Counts,
        store: &S,
        worker: usize,
    ) -> Result<StatsText, NoMemory>
        ensures { IfOk result (λ text. text ≡ counts.now) }
    {
        let passed = passed(rt, self.began);
        self.set_gauges(signals, store, worker, passed);
        let (alloc, told) = (signals.allocator(), signals.storage_gauges());
        let mut text = StatsText::of(alloc, counts)?
            .with_word(b"version", TOLD_VERSION.as_bytes())?
            .with_seconds(alloc, b"rusage_user", told.get(Gauge::UserTime))?
            .with_seconds(alloc, b"rusage_system", told.get(Gauge::SystemTime))?
            .with_gauges(told)?
            .with_word(b"cas_enabled", b"yes")?;
        for each in 0..signals.workers() {
            if let Some(gauges) = signals.gauges(each) {
                let connections = gauges.get(Gauge::CurrConnections);
                text = text.with_worker(each, connections, gauges.busy_micros(passed))?;
            }
        }
        Ok(text)
    }

    /// The reply to a request of the worker, to which the store replied so, if these are the counts
    /// before it. If the store made room for the request, the time since the clock was read for it
    /// is noted.
    #[inline(always)]
    pub fn reply<S: StorageEngine, R: Clock>(
        &mut self,
        rt: &R,
        signals: &GroupSignals,
        since: Option<Instant>,
        counts: &Counts,
        store: &S,
        worker: usize,
        request: &Request,
        reply: Reply,
    ) -> Reply
        ensures tells { request.now ≡ Request.Stats → (result ≡ Reply.NoMemory)
            ⊎ ((lines : List ℕ) × (result ≡ Reply.Stats lines) × IsStats counts.now lines) }
        ensures same { (reply ≡ result) ⊎ (request.now ≡ Request.Stats) }
    {
        match request {
            Request::Stats => match self.text(rt, signals, counts, store, worker) {
                Ok(text) => Reply::Stats(text.into_lines()),
                Err(_) => Reply::NoMemory,
            },
            // A `get` makes no room.
            Request::Get { .. } => reply,
            _ => {
                let evictions = store.evictions();
                if evictions != self.evictions {
                    self.evictions = evictions;
                    let gauges = signals.storage_gauges();
                    gauges.raise_micros(Gauge::MergeLongest, passed(rt, since));
                }
                reply
            }
        }
    }
}
