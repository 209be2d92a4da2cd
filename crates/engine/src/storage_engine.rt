//! What the storage thread asks of a store.

ghost use Rattle.std.specs.Prelude.{◌≡◌, ◌≢◌, ℕ, ◌≤◌, Bool, List, false};
ghost use Rattle.proto.specs.Sizes.{Sizes};
ghost use Rattle.proto.specs.Cache.{Cache};
ghost use Rattle.proto.specs.Steps.{Step};
ghost use Rattle.proto.specs.Stored.{StoredItem};
ghost use Rattle.proto.specs.History.{max_moment};
ghost use Rattle.engine.specs.Outcomes.{outcome_at, needs_memory};
ghost use Rattle.engine.specs.Keeping.{KeepsAll};
ghost use Rattle.engine.specs.Deadlines.{KeepsDeadlines};

use proto::{Gauges, Reply, Request};
use std::hash::FoldHasher;

/// The greatest moment in seconds.
pub const MAX_MOMENT: u64 = 4_611_686_018_427_387_904;

/// A cache that executes one request at a time. However it stores its entries, each request is a
/// step of the cache's definition.
pub trait StorageEngine {
    /// The sizes that the cache was made for.
    ghost sizes: { Self → Sizes };

    /// The entries that were live at the last moment, the last cas number and the pending flush.
    ghost cache: { Self → Cache };

    /// The moment of the last request, 0 before the first one.
    ghost moment: { Self → ℕ };

    /// Whether a request that stores an item may be refused memory. One that shows a hit may always
    /// be.
    ghost may_refuse: { Bool };

    /// These items were stored so far, none with a deadline, and no item was forgotten to make
    /// room.
    ghost keeps: { Self → List StoredItem → Type 0 };

    /// Whether it keeps deadlines to the second, those below 2^48.
    ghost is_exact: { Self → Bool };

    /// The moment of the last request in seconds, 0 before the first one.
    fn last_moment(&self) -> u64
        ensures { result ≡ moment self.now };

    /// What hashes the keys for `prefetch`.
    fn key_hasher(&self) -> FoldHasher;

    /// Reads what requests with keys of these hashes will look up, for all at once, so that it is
    /// in the processor's cache. No clause speaks of what it reads.
    fn prefetch(&self, hashes: &[u64]);

    /// Sets the gauges that it knows, for `stats`. No clause speaks of it.
    fn set_gauges(&self, gauges: &Gauges);

    /// How often room was made so far by forgetting something. No clause speaks of it.
    fn evictions(&self) -> u64;

    /// Executes the first step of the request at this moment in seconds, which is at most
    /// `MAX_MOMENT`: all of it, unless it is a `gat` (`carry_out`). Hits may take the buffer that
    /// the keys were lent; no clause speaks of that.
    fn handle(&mut self, now: u64, request: &mut Request) -> Reply
        requires not_before { moment self.old ≤ now }
        requires in_range { now ≤ max_moment }
        ensures request { request.new ≡ request.old }
        ensures step { Step (sizes self.old) now (cache self.old) request.old result (cache self.new) }
        ensures sizes { sizes self.new ≡ sizes self.old }
        ensures moment { moment self.new ≡ now }

        // NoMemory is answered only if a hit would be shown, or an item be stored by a store that
        // may refuse it
        ensures succeeds { needs_memory may_refuse (outcome_at (sizes self.old) (cache self.old) now request.old)
            ≡ false → result ≢ Reply.NoMemory }

        // nothing is forgotten while little is stored, and nothing with a deadline
        ensures kept { KeepsAll sizes cache keeps self.old now request.old result self.new }

        // where deadlines are kept to the second, what is stored has the one asked for
        ensures deadlines { KeepsDeadlines sizes cache is_exact self.old now request.old result self.new };

    /// Gives the entry of the key another deadline, as a `touch` at this moment does: the same
    /// holds of it as of `handle`.
    fn touch(&mut self, now: u64, key: &[u8], exptime: i64) -> Reply
        requires not_before { moment self.old ≤ now }
        requires in_range { now ≤ max_moment }
        ensures step { Step (sizes self.old) now (cache self.old)
            (Request.Touch (record { key = key.now; exptime = exptime }))
            result (cache self.new) }
        ensures sizes { sizes self.new ≡ sizes self.old }
        ensures moment { moment self.new ≡ now }
        ensures deadlines { KeepsDeadlines sizes cache is_exact self.old now
            (Request.Touch (record { key = key.now; exptime = exptime })) result self.new };
}
