//! The storage side, which executes requests in whatever thread holds it.

ghost use Rattle.std.specs.Prelude.{◌≡◌, [], true, false, IsSome};
ghost use Rattle.std.specs.Option.{IfNone};
ghost use Rattle.proto.specs.Cache.{empty_cache};
ghost use Rattle.storage_thread.specs.Serving.{IsUnused, SaidBye};
ghost use Rattle.storage_thread.specs.Sides.{IsLeftBySide};

use crate::serving::{StorageReport, execute, read_ahead, take_next, tell_workers};
use crate::stats::StatsSource;
use engine::{Clock, StorageEngine};
use exchange::{GroupSignals, StorageEnd, StorageLanes, Taken, Waits};
use proto::{AskedClock, Counts, WINDOW};
use std::marker::Model;
use std::snapshot::Snapshot;
use std::time::{self, Instant};

/// The most requests of others that a worker executes in a turn.
const OTHERS_A_TURN: u64 = 64;

/// The bytes of others' answers after which a worker's turn ends.
const OTHERS_BYTES_A_TURN: usize = 262_144;

/// The most messages in a worker's turn: those of others, and all that its own window has room for.
const MESSAGES_A_TURN: u64 = OTHERS_A_TURN + WINDOW;

/// A message that was served.
#[derive(Clone, Copy)]
pub enum Served {
    Request {
        /// When the clock was read for it.
        at: Option<Instant>,
        /// About how many bytes its answer takes, unless it is of the worker that holds the side.
        of_others: Option<usize>,
    },
    Bye,
}

/// A turn of a worker.
#[derive(Clone, Copy)]
pub struct Turn {
    /// Whether the storage thread is to go on: the turn stopped before all was executed, so that
    /// messages may be left, or each worker has said bye.
    pub is_left: bool,
    /// When the clock was read for its first request; None if it had none.
    pub since: Option<Instant>,
}

/// What a storage side began with, for clauses alone. It has no bytes.
#[derive(Drop)]
pub struct Origin<S, C> {
    pub store: Snapshot<S>,
    pub clock: Snapshot<C>,
    pub end: Snapshot<StorageEnd>,
}

impl<S, C> Origin<S, C> {
    pub fn of(store: &S, clock: &C, end: &StorageEnd) -> Origin<S, C>
        ensures store { result.store.value ≡ store.now }
        ensures clock { result.clock.value ≡ clock.now }
        ensures end { result.end.value ≡ end.now }
    {
        Origin {
            store: Snapshot::of(store),
            clock: Snapshot::of(clock),
            end: Snapshot::of(end),
        }
    }
}

/// What a storage side holds.
#[derive(Drop)]
pub struct SideState<S, C: Clock> {
    pub(crate) store: S,
    pub(crate) clock: AskedClock<C>,
    pub(crate) counts: Counts,
    pub(crate) source: StatsSource,
    /// Storage's end of all lanes.
    pub(crate) end: StorageLanes,
    /// How many workers haven't said bye.
    pub(crate) left: usize,
    /// How many requests were executed. It stays at the greatest number of its type.
    pub(crate) executed: u64,
    /// For how many messages that come next an earlier prefetch was made.
    pub(crate) ahead: u64,
    pub(crate) origin: Origin<S, C>,
}

/// The storage side. Between requests its parts agree: the history is legal, of the exchange that
/// it began with, and the store is where the history leads.
#[derive(Drop)]
pub struct StorageSide<S: StorageEngine, C: Clock> {
    pub(crate) state: SideState<S, C>,
}

impl<S: StorageEngine, C: Clock> Model for StorageSide<S, C> {
    ghost use Rattle.storage_thread.specs.declared.side.SideState.{SideState};
    ghost use Rattle.storage_thread.specs.Sides.{IsSideServing};

    ghost Value = { SideState S C };

    ghost view = { λ s. s.state };

    ghost invariant = { λ s. IsSideServing S.cache S.moment S.sizes S.keeps S.is_exact S.may_refuse C.told C.start C.leads_to s.state };
}

impl<S: StorageEngine, C: Clock> StorageSide<S, C> {
    /// A side over a new store, by a clock that was asked nothing, of an end from which nothing was
    /// taken.
    pub fn new<R: time::Clock>(
        rt: &R,
        store: S,
        clock: C,
        storage_end: StorageEnd,
    ) -> StorageSide<S, C>
        requires empty { (S.cache store ≡ empty_cache 0) × (S.moment store ≡ 0) }
        requires sizes { S.sizes store ≡ storage_end.terms.geometry }
        requires refuses { storage_end.terms.may_refuse ≡ false → S.may_refuse ≡ false }
        requires system_clock { storage_end.terms.system_clock ≡ true → IsSome (C.start clock) }
        requires unasked { IsSome (C.start clock) → C.told clock ≡ Some [] }
        requires unused { IsUnused storage_end }
        ensures store { result.origin.store.value ≡ store }
        ensures clock { result.origin.clock.value ≡ clock }
        ensures end { result.origin.end.value ≡ storage_end }
        ensures told { result.end.told ≡ result.end.end.history }
    {
        let origin = Origin::of(&store, &clock, &storage_end);
        let clock = AskedClock::new(clock);
        let end = storage_end.batched();
        let left = end.workers();
        StorageSide {
            state: SideState {
                store,
                clock,
                counts: Counts::new(),
                source: StatsSource::new(rt),
                end,
                left,
                executed: 0,
                ahead: 0,
                origin,
            },
        }
    }

    /// Whether each worker has said bye: nothing comes any more.
    pub fn is_done(&self) -> bool
        ensures { result ≡ true → self.now.left ≡ 0 }
    {
        self.state.left == 0
    }

    /// Takes the next message and executes it, if it is a request. If there was none, the workers
    /// have been told of all answers. A wait of the thread ends once a message was taken. A worker
    /// that holds the side isn't woken.
    pub fn serve_next<R: time::Clock>(
        &mut self,
        rt: &R,
        signals: &GroupSignals,
        holder: Option<usize>,
        waits: Option<&mut Waits>,
    ) -> Option<Served>
        ensures origin { self.new.origin ≡ self.old.origin }
        ensures told { IfNone result (self.new.end.told ≡ self.new.end.end.history) }
    {
        if self.state.left == 0 {
            tell_workers(&mut self.state.end, signals, holder);
            return None;
        }
        let taken = take_next(
            &mut self.state.end,
            &self.state.clock,
            self.state.executed,
            signals,
            holder,
        )?;
        if let Some(waits) = waits {
            waits.end(rt);
        }
        match taken {
            Taken::Asked { worker, posted } => {
                self.state.ahead = if signals.has_hints() {
                    read_ahead(
                        self.state.ahead,
                        &self.state.store,
                        &self.state.end,
                        signals,
                    )
                } else {
                    0
                };
                let executed = execute(
                    rt,
                    signals,
                    &mut self.state.store,
                    &mut self.state.clock,
                    &mut self.state.counts,
                    &mut self.state.source,
                    &mut self.state.end,
                    holder,
                    worker,
                    posted,
                );
                if let Some(told) = executed.told {
                    signals.unpark(told);
                }
                self.state.executed = self.state.executed.saturating_add(1);
                Some(executed.served)
            }
            Taken::Bye { worker: _ } => {
                self.state.left -= 1;
                Some(Served::Bye)
            }
        }
    }

    /// Executes what stands in the lanes, for the worker of this number: of others no more requests
    /// and bytes of answers than a turn has. The workers have been told of all answers.
    pub fn serve_turn<R: time::Clock>(&mut self, rt: &R, signals: &GroupSignals, own: usize) -> Turn
        ensures origin { self.new.origin ≡ self.old.origin }
        ensures told { self.new.end.told ≡ self.new.end.end.history }
    {
        let mut turn = Turn {
            is_left: true,
            since: None,
        };
        let mut requests = 0u64;
        let mut bytes = 0usize;
        for _ in 0..MESSAGES_A_TURN {
            let Some(served) = self.serve_next(rt, signals, Some(own), None) else {
                turn.is_left = self.state.left == 0;
                return turn;
            };
            if let Served::Request { at, of_others } = served {
                turn.since = turn.since.or(at);
                if let Some(more) = of_others {
                    requests = requests.saturating_add(1);
                    bytes = bytes.saturating_add(more);
                }
            }
            let (_, _, seen) = self.state.end.seen();
            if seen == 0 && self.state.end.workers() == 1 {
                // all that the only worker can have posted
                turn.is_left = self.state.left == 0;
                break;
            }
            if requests >= OTHERS_A_TURN || bytes >= OTHERS_BYTES_A_TURN {
                break;
            }
        }
        tell_workers(&mut self.state.end, signals, Some(own));
        turn
    }
}

impl<S: StorageEngine + Drop, C: Clock> StorageSide<S, C> {
    /// What it leaves, at whatever moment between two requests.
    pub fn into_report(self) -> StorageReport<C>
        ensures left { IsLeftBySide C.told C.leads_to (S.keeps self.origin.store.value [])
            (S.is_exact self.origin.store.value) S.may_refuse self.origin.clock.value self.origin.end.value result }
        ensures bye { self.left ≡ 0 → SaidBye result.storage_end }
    {
        let StorageSide { state } = self;
        let SideState {
            clock,
            mut end,
            executed,
            ..
        } = state;
        end.flush_answers();
        StorageReport {
            clock: clock.into_clock(),
            storage_end: end.into_end(),
            executed,
        }
    }
}
