//! The loop of the storage thread.

ghost use Rattle.std.specs.Prelude.{◌≡◌, ◌+◌, ◌-◌, ◌^◌, ◌<◌, ◌≤◌, map, min, length, All, Some, None, true, false};
ghost use Rattle.std.specs.Prelude.{IsSome, MatchOption, []};
ghost use Rattle.std.specs.Option.{IfNone};
ghost use Rattle.proto.specs.Cache.{empty_cache};
ghost use Rattle.proto.specs.History.{max_moment, answers_by, worker_share, Legal, RefusesBy};
ghost use Rattle.proto.specs.Tallies.{no_counts, counts_after};
ghost use Rattle.engine.specs.Reaching.{Reaches};
ghost use Rattle.storage_thread.specs.Serving.{AsksClock, IsReadSince, IsTimed, taken_as, SaidBye, IsUnused};
ghost use Rattle.storage_thread.specs.Serving.{IsSameExchange, IsStorageServing};
ghost use Rattle.storage_thread.specs.Serving.{GetsNone, GetsMessage, AnswersOpenRequest};
ghost use Rattle.storage_thread.specs.Keeping.{LeadsKeeping, MayAlwaysForgetNothing, MayLeave};
ghost use Rattle.storage_thread.specs.Deadlines.{LeadsAsAsked};
ghost use Rattle.engine.specs.Deadlines.{IsAsAsked};

use crate::side::{Served, StorageSide};
use crate::stats::StatsSource;
use engine::{Clock, MAX_MOMENT, StorageEngine, carry_out};
use exchange::{Answered, GroupSignals, IdleTurns, Posted, StorageEnd, StorageLanes, Taken, Waits};
use proto::{AskedClock, Counts, Reply, Request};
use std::sync::Wait;
use std::{hint, time};

/// The workers are told of their answers at least at each so many.
const ANSWERS_PER_FLUSH: u64 = 8;

/// The keys above which a `get` or a `gat` may take long. The workers are told of all answers
/// before it.
const MANY_KEYS: usize = 64;

/// The idle turns in a row in which it spins before it parks, if the signals say no time: two
/// microseconds.
const IDLE_TURNS: u32 = 10;

/// How often a turn spins in which the side is held and nothing comes.
const SPINS_PER_TURN: u32 = 4;

/// The most messages for which storage reads ahead at once: their slots and items come from memory
/// at the same time.
const MESSAGES_AHEAD: u64 = 8;

/// What the storage thread leaves.
#[derive(Drop)]
pub struct StorageReport<C: Clock> {
    pub clock: C,
    pub storage_end: StorageEnd,
    /// How many requests were executed. It stays at the greatest number of its type.
    pub executed: u64,
}

/// Prefetches by hints for the message just taken and for those seen after it. `done` is how many
/// messages an earlier call has already covered, and the result is how many this one has.
pub(crate) fn read_ahead<S: StorageEngine>(
    done: u64,
    store: &S,
    end: &StorageLanes,
    signals: &GroupSignals,
) -> u64 {
    if done > 0 {
        return done - 1;
    }
    let (lane, first, seen) = end.seen();
    let count = seen.min(MESSAGES_AHEAD);
    if count < 2 {
        return 0;
    }
    let mut hashes = [0; MESSAGES_AHEAD as usize];
    for place in 0..count {
        hashes[place as usize] = signals.hint(lane, first.wrapping_add(place));
    }
    store.prefetch(&hashes[..count as usize]);
    count - 1
}

/// Asks the clock once for the moment of the next request: its answer, but none after the greatest
/// moment or before the last one.
pub fn next_moment<C: Clock>(clock: &mut AskedClock<C>, last: u64) -> u64
    ensures leads { C.leads_to clock.old.clock clock.new.clock }
    ensures moment { AsksClock C.told C.start clock.old last clock.new result }
    ensures order { (last ≤ result) × (last ≤ max_moment → result ≤ max_moment) }
{
    let now = clock.now().min(MAX_MOMENT);
    now.max(last)
}

/// What came of a request that was executed.
#[derive(Clone, Copy)]
pub(crate) struct Executed {
    /// The worker that was told of its answers now, if one was.
    pub(crate) told: Option<usize>,
    pub(crate) served: Served,
}

/// About how many bytes the reply takes as an answer.
fn reply_bytes(reply: &Reply) -> usize {
    match reply {
        Reply::Values(hits) => hits.text_len(),
        _ => 0,
    }
}

/// Executes the open request, counts it, and answers it. If the store made room for it, the time
/// since the clock was read is noted. Its worker is told at the next flush, or before. A worker may
/// hold the side.
pub(crate) fn execute<S: StorageEngine, C: Clock, R: time::Clock>(
    rt: &R,
    signals: &GroupSignals,
    store: &mut S,
    clock: &mut AskedClock<C>,
    counts: &mut Counts,
    source: &mut StatsSource,
    end: &mut StorageLanes,
    holder: Option<usize>,
    worker: usize,
    posted: Posted,
) -> Executed
    requires counts { counts.old ≡ counts_after no_counts end.old.end.history }
    requires answers { clock.old.answers ≡ answers_by [] end.old.end.history }
    requires read { IsReadSince end.old.end.terms.system_clock (C.start clock.old.clock) end.old.end.history }
    requires reaches { Reaches end.old.end.terms.geometry end.old.end.history (S.cache store.old) (S.moment store.old) }
    requires sizes { S.sizes store.old ≡ end.old.end.terms.geometry }
    requires refuses { end.old.end.terms.may_refuse ≡ false → S.may_refuse ≡ false }
    requires refused { RefusesBy S.may_refuse end.old.end.history }
    requires open_request { end.old.end.open_request ≡ Some (worker, posted) }
    requires next { posted.number ≡ length (worker_share end.old.end.history worker) + 1 }
    ensures reaches { Reaches end.new.end.terms.geometry end.new.end.history (S.cache store.new) (S.moment store.new) }
    ensures kept { LeadsKeeping end.old.end.terms.geometry end.old.end.history (S.cache store.old) (S.keeps store.old)
        → LeadsKeeping end.new.end.terms.geometry end.new.end.history (S.cache store.new) (S.keeps store.new) }
    ensures dated { LeadsAsAsked end.old.end.terms.geometry end.old.end.history (S.cache store.old)
        (S.is_exact store.old)
        → LeadsAsAsked end.new.end.terms.geometry end.new.end.history (S.cache store.new) (S.is_exact store.new) }
    ensures sizes { S.sizes store.new ≡ S.sizes store.old }
    ensures refused { RefusesBy S.may_refuse end.new.end.history }
    ensures counts { counts.new ≡ counts_after no_counts end.new.end.history }
    ensures answered { AnswersOpenRequest end.old.end end.new.end worker posted (S.moment store.new) clock.new.answers }
    ensures read { IsReadSince end.new.end.terms.system_clock (C.start clock.new.clock) end.new.end.history }
    ensures leads { C.leads_to clock.old.clock clock.new.clock }
    ensures moment { AsksClock C.told C.start clock.old (S.moment store.old) clock.new (S.moment store.new) }
{
    let moment = next_moment(clock, store.last_moment());
    let Posted {
        session,
        number,
        mut request,
    } = posted;
    let stored = carry_out(store, moment, &mut request);
    let at = clock.at;
    let reply = source.reply(rt, signals, at, counts, store, worker, &request, stored);
    counts.count(&request, &reply);
    let of_others = if holder == Some(worker) {
        None
    } else {
        Some(reply_bytes(&reply))
    };
    let answered = Answered {
        worker,
        session,
        number,
        request,
        moment,
        clock: clock.answers(),
        reply,
    };
    let told = end.answer_later(answered);
    let served = Served::Request { at, of_others };
    Executed { told, served }
}

/// Tells the workers of all answers, and unparks the one whose answers they are, unless it holds
/// the side.
pub(crate) fn tell_workers(end: &mut StorageLanes, signals: &GroupSignals, holder: Option<usize>)
    ensures end { end.new.end ≡ end.old.end }
    ensures told { end.new.told ≡ end.old.end.history }
{
    if let Some(worker) = end.flush_answers() {
        if holder != Some(worker) {
            signals.unpark(worker);
        }
    }
}

/// Whether the workers are told of all answers before this message: at each eighth answer, and
/// before a `get` or a `gat` for many keys.
fn tells_before(taken: &Taken, executed: u64) -> bool {
    if executed % ANSWERS_PER_FLUSH == 0 {
        return true;
    }
    let Taken::Asked { posted, .. } = taken else {
        return false;
    };
    match &posted.request {
        Request::Get { keys, .. } | Request::GetAndTouch { keys, .. } => keys.len() > MANY_KEYS,
        _ => false,
    }
}

/// The next message among those that the last look at the lanes named; the workers are told of each
/// eighth answer, and of all before a `get` for many keys. If none is left, they are told of all
/// answers, and then the lanes are looked at.
pub(crate) fn take_next<C: Clock>(
    end: &mut StorageLanes,
    clock: &AskedClock<C>,
    executed: u64,
    signals: &GroupSignals,
    holder: Option<usize>,
) -> Option<Taken>
    requires shut { end.old.end.open_request ≡ None }
    requires fresh { clock.now.answers ≡ answers_by [] end.old.end.history }
    ensures taken { MatchOption result (GetsNone end.old.end end.new.end) (GetsMessage end.old.end end.new.end) }
    ensures told { IfNone result (end.new.told ≡ end.new.end.history) }
{
    let Some(taken) = end.next_seen(clock) else {
        tell_workers(end, signals, holder);
        return end.next(clock);
    };
    if tells_before(&taken, executed) {
        tell_workers(end, signals, holder);
    }
    Some(taken)
}

/// An idle turn of the storage thread, in which it may park. No worker waits for an answer that was
/// given.
fn pass_turn<R: Wait + time::Clock, S: StorageEngine, C: Clock>(
    rt: &R,
    _side: &StorageSide<S, C>,
    idle: &mut IdleTurns,
    waits: &mut Waits,
    signals: &GroupSignals,
)
    requires told { _side.now.end.told ≡ _side.now.end.end.history }
{
    if signals.spin().is_some() || idle.parks_next() {
        waits.begin(rt);
    }
    idle.turn(rt, signals.parking());
}

fn spin() {
    for _ in 0..SPINS_PER_TURN {
        hint::spin_loop();
    }
}

/// Executes requests until nothing has come for some turns, in which it spins. True if there was a
/// message.
pub(crate) fn serve_until_idle<R: Wait + time::Clock, S: StorageEngine, C: Clock>(
    rt: &R,
    side: &mut StorageSide<S, C>,
    signals: &GroupSignals,
) -> bool
    ensures origin { side.new.origin ≡ side.old.origin }
    ensures told { side.new.end.told ≡ side.new.end.end.history }
{
    let mut has_served = false;
    let mut idle = 0;
    for _ in rt.forever() {
        match side.serve_next(rt, signals, None, None) {
            Some(_) => {
                has_served = true;
                idle = 0;
            }
            None if idle >= IDLE_TURNS || side.is_done() => return has_served,
            None => {
                idle += 1;
                spin();
            }
        }
    }
    unreachable!()
}

/// Executes requests until all workers have said bye.
pub(crate) fn serve<R: Wait + time::Clock, S: StorageEngine, C: Clock>(
    rt: &R,
    side: &mut StorageSide<S, C>,
    signals: &GroupSignals,
)
    ensures origin { side.new.origin ≡ side.old.origin }
    ensures told { side.new.end.told ≡ side.new.end.end.history }
    ensures done { side.new.left ≡ 0 }
{
    let mut idle = IdleTurns::new(IDLE_TURNS, signals.spin());
    let mut waits = Waits::new(rt, Some(signals.storage_gauges()));
    for _ in rt.forever() {
        match side.serve_next(rt, signals, None, Some(&mut waits)) {
            Some(_) => idle.reset(signals.parking()),
            None if side.is_done() => return,
            None => pass_turn(rt, side, &mut idle, &mut waits, signals),
        }
    }
    unreachable!()
}

/// Executes requests until each worker has said bye. The store is empty, for the geometry that the
/// exchange was made for, and nothing was taken from the end. The clock is asked once for each
/// request. The messages that a look named are served before it looks again; the workers are told
/// of each eighth answer, and of all before it looks and before a `get` for more than 64 keys.
/// While nothing comes, the thread spins, as long as the signals say, and then parks: a worker that
/// posts or says bye wakes it. Workers' hints tell it what to prefetch.
pub fn run_storage<R: Wait + time::Clock, S: StorageEngine + Drop, C: Clock>(
    rt: &R,
    store: S,
    clock: C,
    storage_end: StorageEnd,
    signals: &GroupSignals,
) -> StorageReport<C>
    requires empty { (S.cache store ≡ empty_cache 0) × (S.moment store ≡ 0) }
    requires sizes { S.sizes store ≡ storage_end.terms.geometry }
    requires refuses { storage_end.terms.may_refuse ≡ false → S.may_refuse ≡ false }
    requires system_clock { storage_end.terms.system_clock ≡ true → IsSome (C.start clock) }
    requires unasked { IsSome (C.start clock) → C.told clock ≡ Some [] }
    requires unused { IsUnused storage_end }
    ensures same { IsSameExchange storage_end result.storage_end }
    ensures legal { Legal storage_end.terms.geometry result.storage_end.history }
    ensures refused { RefusesBy S.may_refuse result.storage_end.history }
    ensures once_in_order { (result.storage_end.taken ≡ map taken_as result.storage_end.history)
        × (result.storage_end.open_request ≡ None) }
    ensures inside { All (λ e. e.worker < storage_end.workers) result.storage_end.history }
    ensures bye { SaidBye result.storage_end }
    ensures leads { C.leads_to clock result.clock }
    ensures moments { IsTimed (C.told clock) (C.told result.clock) result.storage_end.history }

    // as long as no deadline is set and little is stored, nothing is forgotten by a store that
    // keeps what it stores
    ensures bounded { S.keeps store [] → MayAlwaysForgetNothing storage_end.terms.geometry result.storage_end.history }

    // over a store that keeps deadlines to the second, each entry has the deadline asked for
    ensures dated { S.is_exact store ≡ true → MayLeave IsAsAsked storage_end.terms.geometry result.storage_end.history }
    ensures executed { result.executed ≡ min (length result.storage_end.history) (2 ^ 64 - 1) }
{
    let mut side = StorageSide::new(rt, store, clock, storage_end);
    serve(rt, &mut side, signals);
    side.into_report()
}
