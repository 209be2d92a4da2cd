//! One worker over a port, with a storage thread beside it.

ghost use Rattle.std.specs.Prelude.{◌≡◌, [], true, false, Some, None};
ghost use Rattle.proto.specs.declared.dialect.Dialect.TheVariants.{Strict};
ghost use Rattle.proto.specs.Cache.{empty_cache};
ghost use Rattle.reference.specs.PlainState.{plain_sizes, plain_cache, plain_moment};
ghost use Rattle.storage_thread.specs.Serving.{IsUnused};
ghost use Rattle.worker_port.specs.Ports.{PortTrace};
ghost use Rattle.worker_port.specs.Giving.{by_any_clock};

use crate::clock::SteadyClock;
use crate::same::check_same;
use crate::signals::signals_of;
use exchange::{Exchange, StorageEnd, WorkerEnd};
use proto::{Dialect, Geometry, Terms};
use reference::PlainStore;
use std::alloc::Global;
use std::process::Abort;
use std::sync::{Arc, Wait};
use std::thread::Threads;
use std::{thread, time};
use storage_thread::{StorageReport, run_storage};
use worker::{Gate, run_worker};
use worker_port::Port;

/// The sizes of a store of 64 segments.
pub(crate) fn sizes<R: Abort>(rt: &R) -> Geometry {
    Geometry::new(65_536, 64).expect(rt, "a geometry")
}

/// The exchange of one worker, over a store of these sizes.
pub(crate) fn exchange_of_one<R: Abort>(rt: &R, alloc: Global, geometry: Geometry) -> Exchange
    ensures { (result.workers ≡ 1) × (result.terms ≡ by_any_clock geometry) }
{
    let terms = Terms {
        geometry,
        system_clock: false,
        may_refuse: true,
    };
    Exchange::new(alloc, 1, terms).expect(rt, "an exchange")
}

/// The ends of an exchange of one worker, and an empty store.
fn made<R: Abort>(
    rt: &R,
    alloc: Global,
    geometry: Geometry,
    exchange: Exchange,
) -> (WorkerEnd, StorageEnd, PlainStore)
    requires { (exchange.workers ≡ 1) × (exchange.terms ≡ by_any_clock geometry) }
    ensures worker { (result.0.sent ≡ []) × (result.0.back ≡ []) × (result.0.said_bye ≡ false) }
    ensures whose { (result.0.worker ≡ 0) × (result.0.terms ≡ by_any_clock geometry) × (result.0.seen ≡ [])
        × (result.0.exchange ≡ exchange.id) }
    ensures storage { IsUnused result.1 }
    ensures sizes { plain_sizes result.2 ≡ result.1.terms.geometry }
    ensures any_terms { (result.1.terms.system_clock ≡ false) × (result.1.terms.may_refuse ≡ true) }
    ensures store { (plain_cache result.2 ≡ empty_cache 0) × (plain_moment result.2 ≡ 0) }
{
    let (mut ends, storage) = exchange.into_ends();
    let end = ends.pop().expect(rt, "an end");
    let store = PlainStore::new(alloc, geometry).expect(rt, "memory");
    (end, storage, store)
}

/// What a run leaves.
#[derive(Drop)]
pub(crate) struct Served<P> {
    pub(crate) port: P,
    pub(crate) sent: u64,
    pub(crate) executed: u64,
}

/// Runs the worker to its end, and the storage thread. Each session was opened.
pub(crate) fn serve<R, P, G>(
    rt: &R,
    alloc: Global,
    geometry: Geometry,
    exchange: Exchange,
    port: P,
    gate: &G,
) -> Served<P>
where
    R: Abort + Threads + Wait + time::Clock + Copy + Drop + Send + Sync + 'static,
    P: Port,
    G: Gate,
    requires made { (exchange.workers ≡ 1) × (exchange.terms ≡ by_any_clock geometry) }
    requires spelled { (trace : PortTrace) → P.told port ≡ Some trace → trace.dialect ≡ Strict }
    requires silent { (trace : PortTrace) → P.told port ≡ Some trace → trace.events ≡ [] }
    requires whose { (trace : PortTrace) → P.told port ≡ Some trace
        → (trace.worker ≡ 0) × (trace.terms ≡ by_any_clock geometry) × (trace.history ≡ [])
        × (trace.exchange ≡ exchange.id) }
{
    let handle = *rt;
    let signals = signals_of(rt, alloc, 1);
    let of_storage = Arc::try_clone(&signals).expect(rt, "memory");
    let (end, storage_end, store) = made(rt, alloc, geometry, exchange);
    let child = thread::spawn(
        rt,
        move || -> StorageReport<SteadyClock>
            requires empty { (plain_cache store ≡ empty_cache 0) × (plain_moment store ≡ 0) }
            requires sizes { plain_sizes store ≡ storage_end.terms.geometry }
            requires any_terms { (storage_end.terms.system_clock ≡ false) × (storage_end.terms.may_refuse ≡ true) }
            requires unused { IsUnused storage_end }
        { run_storage(&handle, store, SteadyClock, storage_end, &of_storage) },
    )
    .expect(rt, "a thread");
    let report = run_worker(
        rt,
        alloc,
        port,
        end,
        Dialect::Strict,
        None,
        gate,
        &*signals,
        &signals,
    );
    check_same(rt, report.unopened, 0, "unopened");
    Served {
        sent: report.worker_end.sent(),
        executed: child.join(rt).executed,
        port: report.port,
    }
}

/// Runs a worker over a port that tells nothing.
pub(crate) fn serve_untold<R, P, G>(
    rt: &R,
    alloc: Global,
    geometry: Geometry,
    port: P,
    gate: &G,
) -> Served<P>
where
    R: Abort + Threads + Wait + time::Clock + Copy + Drop + Send + Sync + 'static,
    P: Port,
    G: Gate,
    requires { P.told port ≡ None }
{
    let exchange = exchange_of_one(rt, alloc, geometry);
    serve(rt, alloc, geometry, exchange, port, gate)
}
