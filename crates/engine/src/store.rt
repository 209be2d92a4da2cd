//! An engine as a store: what it asks of its map beyond the commands, how it is made, and how it
//! handles requests.

ghost use Rattle.std.specs.Prelude.{◌≡◌, ◌≢◌, ℕ, ◌≤◌, [], IfOk, IsTrue, Bool, false};
ghost use Rattle.proto.specs.declared.dialect.Dialect.TheVariants.{Strict};
ghost use Rattle.proto.specs.declared.eviction.Eviction.{Eviction};
ghost use Rattle.proto.specs.declared.eviction.Eviction.TheVariants.{Oldest};
ghost use Rattle.proto.specs.declared.message.Request.{Request};
ghost use Rattle.proto.specs.declared.message.Reply.{Reply};
ghost use Rattle.proto.specs.Sizes.{Sizes};
ghost use Rattle.proto.specs.Cache.{found_at, no_entries};
ghost use Rattle.proto.specs.Steps.{Step};
ghost use Rattle.proto.specs.History.{max_moment};
ghost use Rattle.engine.specs.declared.commands.Engine.{Engine};
ghost use Rattle.engine.specs.declared.store.TheConstants.{SEED};
ghost use Rattle.engine.specs.Engines.{IsNewEngine, IsHandled, cache_in};
ghost use Rattle.engine.specs.Keeping.{KeepsAll};
ghost use Rattle.engine.specs.Deadlines.{KeepsDeadlines};
ghost use Rattle.engine.specs.AnswerSizes.{answer_size, is_too_long};
ghost use Rattle.engine.specs.Outcomes.{outcome_at, needs_memory};

use crate::scratch::Scratch;
use crate::{Engine, LiveMap, StorageEngine};
use proto::{Dialect, Eviction, Gauges, Geometry, NoMemory, Reply, Request};
use std::alloc::Global;
use std::hash::FoldHasher;

/// The seed if the caller gives none.
const SEED: u64 = 0x9e37_79b9_7f4a_7c15;

/// A map over which an engine is a store: it can be made, and says what a request leaves of it.
pub trait StoreMap: LiveMap {
    /// What a new map of these sizes and this seed is, which evicts by this rule, and keeps
    /// deadlines to the second or not, beyond what any is.
    ghost made: { Sizes → ℕ → Eviction → Bool → Self → Type 0 };

    /// What a request leaves of this map, beyond what one leaves of any.
    ghost promises: { Engine Self → ℕ → Request → Reply → Engine Self → Type 0 };

    /// Whether it keeps deadlines to the second, those below 2^48.
    ghost is_exact: { Self → Bool };

    /// No entry, at the moment 0. A map that hashes keys hashes the seed before each, and one that
    /// evicts does it by this rule; one that can keeps deadlines to the second or not. NoMemory if
    /// out of memory.
    fn seeded(
        alloc: Global,
        geometry: Geometry,
        seed: u64,
        eviction: Eviction,
        exact: bool,
    ) -> Result<Self, NoMemory>
        ensures sizes { IfOk result (λ m. Self.sizes m ≡ geometry) }
        ensures entries { IfOk result (λ m. Self.entries m ≡ no_entries) }
        ensures moment { IfOk result (λ m. Self.moment m ≡ 0) }
        ensures keeps { IfOk result (λ m. Self.keeps m []) }
        ensures made { IfOk result (λ m. made geometry seed eviction exact m) };

    /// A law, which each map proves: whatever an engine over it handles is as the map promises, and
    /// keeps deadlines if the map says so. There is nothing to run.
    fn keep_promises()
        ensures promised { (old : Engine Self) (t : ℕ) (q : Request) (reply : Reply) (new : Engine Self)
            → IsHandled Self.LiveMap old t q reply new → promises old t q reply new }
        ensures deadlines { (old : Engine Self) (t : ℕ) (q : Request) (reply : Reply) (new : Engine Self)
            → IsHandled Self.LiveMap old t q reply new
            → KeepsDeadlines (λ (engine : Engine Self). Self.sizes engine.map) (cache_in Self.entries)
            (λ (engine : Engine Self). is_exact engine.map) old t q reply new };
}

impl<M: StoreMap> Engine<M> {
    /// An empty cache for the strict dialect, at the moment 0. NoMemory if out of memory.
    pub fn new(alloc: Global, geometry: Geometry) -> Result<Self, NoMemory>
        ensures new { IfOk result (IsNewEngine M.LiveMap geometry 0 Strict) }
        ensures made { IfOk result (λ s. M.made geometry SEED Oldest false s.map) }
    {
        Engine::starting(alloc, geometry, 0)
    }

    /// An empty cache for this dialect, at the moment 0, that changes entries in place or writes
    /// them anew, evicts by this rule, and keeps deadlines to the second or not. NoMemory if out of
    /// memory.
    pub fn evicting(
        alloc: Global,
        geometry: Geometry,
        in_place: bool,
        dialect: Dialect,
        eviction: Eviction,
        exact: bool,
    ) -> Result<Self, NoMemory>
        ensures new { IfOk result (IsNewEngine M.LiveMap geometry 0 dialect) }
        ensures in_place { IfOk result (λ s. s.in_place ≡ in_place) }
        ensures made { IfOk result (λ s. M.made geometry SEED eviction exact s.map) }
    {
        Engine::seeded(alloc, geometry, 0, SEED, in_place, dialect, eviction, exact)
    }

    /// An empty cache for the strict dialect that has given out this cas number last. NoMemory if
    /// out of memory.
    pub fn starting(alloc: Global, geometry: Geometry, last_cas: u64) -> Result<Self, NoMemory>
        ensures new { IfOk result (IsNewEngine M.LiveMap geometry last_cas Strict) }
        ensures made { IfOk result (λ s. M.made geometry SEED Oldest false s.map) }
    {
        let dialect = Dialect::Strict;
        let eviction = Eviction::Oldest;
        Engine::seeded(
            alloc, geometry, last_cas, SEED, false, dialect, eviction, false,
        )
    }

    /// An empty cache that has given out this cas number last, and hashes the seed before each key.
    /// `incr`, `decr`, `append` and `prepend` change entries in place, if their map can, or write
    /// them anew. Answers keep the limit of the dialect, and the map evicts by this rule, and keeps
    /// deadlines to the second or not. NoMemory if out of memory.
    pub fn seeded(
        alloc: Global,
        geometry: Geometry,
        last_cas: u64,
        seed: u64,
        in_place: bool,
        dialect: Dialect,
        eviction: Eviction,
        exact: bool,
    ) -> Result<Self, NoMemory>
        ensures new { IfOk result (IsNewEngine M.LiveMap geometry last_cas dialect) }
        ensures in_place { IfOk result (λ s. s.in_place ≡ in_place) }
        ensures made { IfOk result (λ s. M.made geometry seed eviction exact s.map) }
    {
        let scratch = Scratch::new(alloc)?;
        Ok(Engine {
            map: M::seeded(alloc, geometry, seed, eviction, exact)?,
            last_cas,
            pending: None,
            in_place,
            dialect,
            scratch,
        })
    }
}

impl<M: LiveMap> Engine<M> {
    ghost use Rattle.engine.specs.Engines.{cache_in};

    /// The moment of a flush that is pending.
    pub fn pending(&self) -> Option<u64>
        ensures { result ≡ (cache_in M.entries self.now).pending }
    {
        self.pending
    }
}

impl<M: StoreMap> StorageEngine for Engine<M> {
    ghost use Rattle.engine.specs.Engines.{cache_in, IsHandled};

    ghost sizes = { λ s. M.sizes s.map };

    ghost cache = { λ s. cache_in M.entries s };

    ghost moment = { λ s. M.moment s.map };

    ghost may_refuse = { M.may_refuse };

    ghost keeps = { λ s items. M.keeps s.map items };

    ghost is_exact = { λ s. M.is_exact s.map };

    fn last_moment(&self) -> u64 {
        self.map.last_moment()
    }

    fn key_hasher(&self) -> FoldHasher {
        self.map.key_hasher()
    }

    fn prefetch(&self, hashes: &[u64]) {
        self.map.prefetch(hashes);
    }

    fn set_gauges(&self, gauges: &Gauges) {
        self.map.set_gauges(gauges);
    }

    fn evictions(&self) -> u64 {
        self.map.evictions()
    }

    /// Executes the request at this moment, in seconds. The hits of a `get` stand in the buffer
    /// that its keys were lent. NoMemory if out of memory, or the hits take more bytes than one
    /// answer may show.
    fn handle(&mut self, now: u64, request: &mut Request) -> Reply
        requires not_before { M.moment self.old.map ≤ now }
        requires in_range { now ≤ max_moment }
        ensures request { request.new ≡ request.old }

        // what the map does beyond what any map does: step by step, and as the map promises it of
        // whole requests
        ensures handled { IsHandled M.LiveMap self.old now request.old result self.new }
        ensures promised { M.promises self.old now request.old result self.new }
        ensures step { Step (M.sizes self.old.map) now (cache_in M.entries self.old) request.old result
            (cache_in M.entries self.new) }
        ensures sizes { M.sizes self.new.map ≡ M.sizes self.old.map }
        ensures moment { M.moment self.new.map ≡ now }

        // if out of memory, what was found stays; and only what shows something needs any, or
        // stores, where the map may refuse
        ensures refused { result ≡ Reply.NoMemory
            → cache_in M.entries self.new ≡ found_at (cache_in M.entries self.old) now }
        ensures succeeds { needs_memory M.may_refuse
            (outcome_at (M.sizes self.old.map) (cache_in M.entries self.old) now request.old) ≡ false
            → result ≢ Reply.NoMemory }

        // hits above the limit of one answer aren't shown
        ensures limit { IsTrue (is_too_long self.old.dialect
            (answer_size (found_at (cache_in M.entries self.old) now).entries request.old)) → result ≡ Reply.NoMemory }
        ensures dialect { self.new.dialect ≡ self.old.dialect }

        // nothing is forgotten while little is stored, and nothing with a deadline
        ensures kept { KeepsAll (λ (engine : Engine M). M.sizes engine.map) (cache_in M.entries)
            (λ (engine : Engine M) items. M.keeps engine.map items) self.old now request.old result self.new }

        // where deadlines are kept to the second, what is stored has the one asked for
        ensures deadlines { KeepsDeadlines (λ (engine : Engine M). M.sizes engine.map) (cache_in M.entries)
            (λ (engine : Engine M). M.is_exact engine.map) self.old now request.old result self.new }
    {
        // the law by which what was handled is `promised`
        M::keep_promises();
        self.advance(now);
        self.execute(request)
    }

    fn touch(&mut self, now: u64, key: &[u8], exptime: i64) -> Reply
        requires not_before { M.moment self.old.map ≤ now }
        requires in_range { now ≤ max_moment }
        ensures handled { IsHandled M.LiveMap self.old now
            (Request.Touch (record { key = key.now; exptime = exptime })) result
            self.new }
        ensures promised { M.promises self.old now (Request.Touch (record { key = key.now; exptime = exptime })) result
            self.new }
        ensures step { Step (M.sizes self.old.map) now (cache_in M.entries self.old)
            (Request.Touch (record { key = key.now; exptime = exptime })) result (cache_in M.entries self.new) }
        ensures sizes { M.sizes self.new.map ≡ M.sizes self.old.map }
        ensures moment { M.moment self.new.map ≡ now }
        ensures deadlines { KeepsDeadlines (λ (engine : Engine M). M.sizes engine.map) (cache_in M.entries)
            (λ (engine : Engine M). M.is_exact engine.map) self.old now
            (Request.Touch (record { key = key.now; exptime = exptime })) result self.new }
    {
        // the law by which what was handled is `promised`
        M::keep_promises();
        self.advance(now);
        Engine::touch(self, key, exptime)
    }
}
