//! Eight workers' threads beside the storage thread.

ghost use Rattle.std.specs.Prelude.{◌≡◌, true, false};
ghost use Rattle.proto.specs.Cache.{empty_cache};
ghost use Rattle.segcache.specs.StoreState.{sizes_in, segmented_cache, last_moment};
ghost use Rattle.storage_thread.specs.Serving.{IsUnused, IsSameExchange};

use crate::clock::CountingClock;
use crate::same::check_same;
use crate::signals::signals_of;
use crate::storage::ends::{ask, made};
use exchange::{Gathered, GroupSignals, StorageEnd, WorkerEnd, gather};
use segcache::Store;
use std::alloc::Global;
use std::process::Abort;
use std::snapshot::Snapshot;
use std::sync::atomic::{AtomicU64, Ordering};
use std::sync::{Arc, Wait};
use std::test::Fail;
use std::thread;
use std::thread::Promise;
use storage_thread::{StorageReport, run_storage};

const CALLERS: usize = 8;

const REQUESTS: u64 = 10_000;

/// The number of the answer that is taken, if there is one; it is counted where it is one above the
/// last.
fn take(end: &mut WorkerEnd, last: u64, good: &AtomicU64) -> Option<u64>
    ensures { (end.new.exchange ≡ end.old.exchange) × (end.new.worker ≡ end.old.worker) }
{
    let answered = end.take()?;
    if answered.number.wrapping_sub(1) == last {
        good.fetch_add(1, Ordering::SeqCst);
    }
    Some(answered.number)
}

/// Says bye, if all answers were taken and it wasn't said before.
fn leave(end: &mut WorkerEnd) -> bool
    ensures { (end.new.exchange ≡ end.old.exchange) × (end.new.worker ≡ end.old.worker) }
{
    if end.sent() < REQUESTS || end.outstanding() > 0 {
        return false;
    }
    if !end.said_bye() {
        end.bye();
    }
    true
}

/// Posts all requests, takes all answers and says bye. Counts the answers whose number is one above
/// the last.
fn call<R: Wait>(
    rt: &R,
    alloc: Global,
    end: &mut WorkerEnd,
    good: &AtomicU64,
    signals: &GroupSignals,
)
    ensures { (end.new.exchange ≡ end.old.exchange) × (end.new.worker ≡ end.old.worker) }
{
    let mut last = 0u64;
    for _ in rt.forever() {
        if end.sent() < REQUESTS && ask(alloc, end).is_none() {
            return;
        }
        signals.parking().unpark();
        match take(end, last, good) {
            Some(number) => last = number,
            None => thread::yield_now(),
        }
        if leave(end) {
            signals.parking().unpark();
            return;
        }
    }
    unreachable!()
}

#[derive(Drop)]
struct StorageStays(Snapshot<StorageEnd>);

impl Promise<StorageReport<CountingClock>> for StorageStays {
    ghost use Rattle.storage_thread.specs.Serving.{IsSameExchange};

    ghost kept_by = { λ p r. IsSameExchange p.0.value r.storage_end };
}

/// Each caller sent all its requests and took all answers.
fn check_gathered(rt: &impl Abort, gathered: &Gathered) {
    let all = [REQUESTS; CALLERS];
    check_same(rt, gathered.sent.as_slice(), all.as_slice(), "sent");
    check_same(rt, gathered.back.as_slice(), all.as_slice(), "back");
}

#[test]
fn many_callers(rt: HostRuntime) -> Result<(), Fail> {
    let alloc: Global = rt.alloc();
    let (mut ends, storage, store) = made(alloc, CALLERS)?;
    let signals = signals_of(&rt, alloc, CALLERS);
    let of_storage = Arc::try_clone(&signals).expect(&rt, "memory");
    let good = AtomicU64::new(0);
    let promise = StorageStays(Snapshot::of(&storage));
    let clock = CountingClock { last: 0 };
    let child = thread::spawn_with(
        &rt,
        promise,
        move || -> StorageReport<CountingClock>
            requires empty { (segmented_cache store ≡ empty_cache 0) × (last_moment store ≡ 0) }
            requires sizes { sizes_in store ≡ storage.terms.geometry }
            requires any_terms { (storage.terms.system_clock ≡ false) × (storage.terms.may_refuse ≡ true) }
            requires unused { IsUnused storage }
            ensures { IsSameExchange storage result.storage_end }
        { run_storage(&rt, store, clock, storage, &of_storage) },
    )
    .expect(&rt, "a thread");
    let ask = |_: usize, end: &mut WorkerEnd|
        ensures { (end.exit.now.exchange ≡ end.entry.now.exchange) × (end.exit.now.worker ≡ end.entry.now.worker) }
    { call(&rt, alloc, end, &good, &signals) };
    thread::for_each_mut(&rt, ends.as_mut_slice(), CALLERS, &ask);
    let report = child.join(&rt);
    let counts = (
        report.executed,
        report.clock.last,
        good.load(Ordering::SeqCst),
    );
    check_same(&rt, counts, (80_000, 80_000, 80_000), "requests");
    let gathered = gather(ends, report.storage_end);
    check_gathered(&rt, &gathered);
    Ok(())
}
