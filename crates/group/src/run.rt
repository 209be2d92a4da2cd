//! A whole run of a group.
ghost use Rattle.std.specs.Prelude.{◌≡◌, Some, IsSome, ◌≤◌, List, [], IfOk, IfErr, vec_len, vec_capacity, true, false};
ghost use Rattle.proto.specs.declared.terms.Terms.{Terms};
ghost use Rattle.proto.specs.Cache.{empty_cache};
ghost use Rattle.exchange.specs.Ends.{AreMade, AreTogether, IsCount};
ghost use Rattle.group.specs.Threads.{ArePortsOf, AreJoined, IsCalledOff, IsLeftByStorage, StartsEmpty, ends_of, workers_of};
ghost use Rattle.group.specs.Headline.{IsRun, NoneBegan};
ghost use Rattle.storage_thread.specs.Sides.{IsSameOrigin};

use crate::context::{GroupContext, Runtime};
use crate::executing::{StorageExecutor, note_unheld};
use crate::fault::GroupFault;
use crate::report::{Config, GroupReport, GroupWorker};
use crate::start::CalledOff;
use crate::threads::{WorkerHandle, join_workers, start_threads};
use engine::{Clock, StorageEngine};
use exchange::{Exchange, GroupSignals, StorageEnd, WorkerEnd, gather};
use proto::Storage;
use std::alloc::{AllocError, Global};
use std::marker::Brand;
use std::snapshot::Snapshot;
use std::sync::{OnceLock, OnceToken};
use std::thread::{self, Scope};
use storage_thread::{
    LockId, Origin, Serve, SharedSide, SharedStorage, StorageReport, StorageSide,
};
use worker::{Executor, Gate, WorkerReport};
use worker_port::Port;

/// Splits the reports into what the group says of each worker, and the ends. The lists have room
/// for them.
fn split_reports<P: Port>(
    reports: Vec<WorkerReport<P>>,
    mut workers: Vec<GroupWorker<P>>,
    mut ends: Vec<WorkerEnd>,
) -> (Vec<GroupWorker<P>>, Vec<WorkerEnd>)
    requires workers { (workers.items ≡ []) × (vec_len reports ≤ vec_capacity workers) }
    requires ends { (ends.items ≡ []) × (vec_len reports ≤ vec_capacity ends) }
    ensures { (result.0.items ≡ workers_of reports.items) × (result.1.items ≡ ends_of reports.items) }
{
    for report in reports {
        workers.push_reserved(GroupWorker {
            port: report.port,
            sent: report.worker_end.sent_list(),
            sessions: report.sessions,
            unopened: report.unopened,
            strangers: report.strangers,
        });
        ends.push_reserved(report.worker_end);
    }
    (workers, ends)
}

/// Gathers the ends, which are of one exchange. The lists have room for what is left.
fn gather_report<P: Port, E: StorageEngine, C: Clock>(
    reports: Vec<WorkerReport<P>>,
    storage: StorageReport<C>,
    workers: Vec<GroupWorker<P>>,
    ends: Vec<WorkerEnd>,
) -> GroupReport<P, C>
    requires workers { (workers.items ≡ []) × (vec_len reports ≤ vec_capacity workers) }
    requires ends { (ends.items ≡ []) × (vec_len reports ≤ vec_capacity ends) }
    requires together { AreTogether (ends_of reports.items) storage.storage_end }
    ensures { (store : E) (terms : Terms) (ports : List P) (clock : C)
        → IsLeftByStorage C.told C.leads_to (E.keeps store []) (E.is_exact store) E.may_refuse terms ports clock storage
        → AreJoined P.told P.leads_to terms storage.storage_end ports reports.items
        → IsRun P.told P.leads_to C.told C.leads_to (E.keeps store []) (E.is_exact store)
        E.may_refuse terms.geometry ports
        clock result }
{
    let (workers, ends) = split_reports(reports, workers, ends);
    GroupReport {
        workers,
        clock: storage.clock,
        executed: storage.executed,
        gathered: gather(ends, storage.storage_end),
    }
}

/// Lists with room for all workers, which joining fills.
#[derive(Drop)]
struct Room<'s, P: Port> {
    handles: Vec<WorkerHandle<'s, P>>,
    reports: Vec<WorkerReport<P>>,
}

/// Empty lists with room for this many workers.
fn room_for<'s, P: Port>(alloc: Global, count: usize) -> Result<Room<'s, P>, AllocError>
    ensures handles { IfOk result (λ r. (r.handles.items ≡ []) × (count ≤ vec_capacity r.handles)) }
    ensures reports { IfOk result (λ r. (r.reports.items ≡ []) × (count ≤ vec_capacity r.reports)) }
{
    Ok(Room {
        handles: Vec::with_capacity(alloc, count)?,
        reports: Vec::with_capacity(alloc, count)?,
    })
}

/// Starts all threads, has them begin, and joins those of the workers. The ends were made with this
/// storage's end.
fn run_started<'s, P: Port + Send + 's, T: Serve + Send + 's>(
    rt: &'s impl Runtime,
    scope: &'s Scope<'s, &()>,
    context: &'s GroupContext<'s, impl Gate + Sync>,
    executor: &'s (impl Executor + Sync),
    shared: &'s SharedStorage<T>,
    ports: Vec<P>,
    ends: Vec<WorkerEnd>,
    end: Snapshot<StorageEnd>,
    room: Room<'s, P>,
) -> Result<Vec<WorkerReport<P>>, GroupFault>
    requires ports { ArePortsOf P.told end.value.exchange end.value.terms context.now.config.dialect ports.items }
    requires made { AreMade (vec_len ports) end.value.terms ends.items end.value }
    requires handles { (room.handles.items ≡ []) × (vec_len ports ≤ vec_capacity room.handles) }
    requires reports { (room.reports.items ≡ []) × (vec_len ports ≤ vec_capacity room.reports) }
    ensures joined { IfOk result (λ reports. AreJoined P.told P.leads_to end.value.terms end.value ports.items
        reports.items) }
    ensures off { IfErr result (IsCalledOff context.now.start.now.id) }
{
    let Room { handles, reports } = room;
    let started = start_threads(rt, scope, context, executor, shared, ports, ends, handles);
    // The threads that were started are told not to begin if one wasn't.
    let Ok(told) = context.start.set(rt, started.is_some()) else {
        return Err(GroupFault::NotNew);
    };
    match started {
        Some(handles) => Ok(join_workers(rt, &told, handles, reports)),
        None => Err(GroupFault::NoThread(CalledOff::of(context.start, &told))),
    }
}

/// Makes all room that joining needs, and runs the threads.
#[tactic(auto, using(crate::proofs::Runs::none_began_in))]
fn run_in<'s, P: Port + Send + 's, T: Serve + Send + 's>(
    rt: &'s impl Runtime,
    scope: &'s Scope<'s, &()>,
    context: &'s GroupContext<'s, impl Gate + Sync>,
    executor: &'s (impl Executor + Sync),
    shared: &'s SharedStorage<T>,
    ports: Vec<P>,
    ends: Vec<WorkerEnd>,
    end: Snapshot<StorageEnd>,
) -> Result<Vec<WorkerReport<P>>, GroupFault>
    requires ports { ArePortsOf P.told end.value.exchange end.value.terms context.now.config.dialect ports.items }
    requires made { AreMade (vec_len ports) end.value.terms ends.items end.value }
    ensures joined { IfOk result (λ reports. AreJoined P.told P.leads_to end.value.terms end.value ports.items
        reports.items) }
    ensures none_began { IfErr result NoneBegan }
{
    let room = room_for(context.alloc, ports.len())?;
    run_started(rt, scope, context, executor, shared, ports, ends, end, room)
}

/// Runs a group whose storage side began with what stands in the lock of this id.
fn run_named<
    P: Port + Send,
    E: StorageEngine + Drop + Send,
    C: Clock + Send,
    G: Gate + Sync,
    R: Runtime,
    J: LockId + Send + Sync,
>(
    rt: &R,
    alloc: Global,
    ports: Vec<P>,
    ends: Vec<WorkerEnd>,
    end: Snapshot<StorageEnd>,
    side: StorageSide<E, C>,
    origin: &OnceToken<'_, Origin<E, C>>,
    config: Config,
    gate: &G,
    signals: &GroupSignals,
) -> Result<GroupReport<P, C>, GroupFault>
    requires id { origin.now.of ≡ J.id }
    requires origin { IsSameOrigin side.origin origin.now.value }
    requires end { end.value ≡ origin.now.value.end.value }
    requires told { side.end.told ≡ side.end.end.history }
    requires ports { ArePortsOf P.told end.value.exchange end.value.terms config.dialect ports.items }
    requires made { AreMade (vec_len ports) end.value.terms ends.items end.value }
    ensures run { IfOk result (λ report. IsRun P.told P.leads_to C.told C.leads_to
        (E.keeps origin.now.value.store.value []) (E.is_exact origin.now.value.store.value) E.may_refuse
        end.value.terms.geometry ports.items origin.now.value.clock.value report) }
    ensures none_began { IfErr result NoneBegan }
{
    let workers = Vec::with_capacity(alloc, ports.len())?;
    let gathered = Vec::with_capacity(alloc, ports.len())?;
    let start = OnceLock::new();
    let group = GroupContext {
        alloc,
        start: &start,
        config,
        gate,
        signals,
    };
    let shared = SharedStorage::new(SharedSide::<E, C, J>::new(side, origin.again()));
    let executor = StorageExecutor {
        rt,
        shared: &shared,
        signals,
        serves: matches!(config.storage, Storage::Workers),
    };
    let reports = run_threads(rt, &group, &executor, &shared, ports, ends, end)?;
    let storage = shared.into_inner().into_report(origin);
    Ok(gather_report::<P, E, C>(reports, storage, workers, gathered))
}

/// Runs all threads of a group in a scope of their own.
fn run_threads<P: Port + Send, T: Serve + Send, X: Executor + Sync, G: Gate + Sync, R: Runtime>(
    rt: &R,
    context: &GroupContext<'_, G>,
    executor: &X,
    shared: &SharedStorage<T>,
    ports: Vec<P>,
    ends: Vec<WorkerEnd>,
    end: Snapshot<StorageEnd>,
) -> Result<Vec<WorkerReport<P>>, GroupFault>
    requires ports { ArePortsOf P.told end.value.exchange end.value.terms context.now.config.dialect ports.items }
    requires made { AreMade (vec_len ports) end.value.terms ends.items end.value }
    ensures joined { IfOk result (λ reports. AreJoined P.told P.leads_to end.value.terms end.value ports.items
        reports.items) }
    ensures none_began { IfErr result NoneBegan }
{
    thread::scope(
        thread::scope_env(),
        rt,
        move |scope| -> Result<Vec<WorkerReport<P>>, GroupFault>
            requires ports { ArePortsOf P.told end.value.exchange end.value.terms
                context.now.config.dialect ports.items }
            requires made { AreMade (vec_len ports) end.value.terms ends.items end.value }
            ensures joined { IfOk result (λ reports. AreJoined P.told P.leads_to end.value.terms end.value ports.items
                reports.items) }
            ensures none_began { IfErr result NoneBegan }
        { run_in(rt, scope, context, executor, shared, ports, ends, end) },
    )
}

/// Runs a worker for each port and a storage thread, each in a thread of its own, until all ports
/// have ended and all was answered and given. Requests are executed over the store by the threads
/// that the configuration names. The store is new, the configuration has its sizes, and the
/// exchange was made for as many workers, by the same terms.
///
/// # Errors
///
/// NoMemory if out of memory at the start, where all room for joining and gathering is made too;
/// NoThread if a thread couldn't be started: those that were started were told not to begin. After
/// both of them the threads that were started have ended, no event was taken and no request
/// executed; ports, store and clock are dropped.
pub fn run_group<P: Port + Send, E: StorageEngine + Drop + Send, C: Clock + Send>(
    rt: &impl Runtime,
    alloc: Global,
    ports: Vec<P>,
    exchange: Exchange,
    config: Config,
    store: E,
    clock: C,
    gate: &(impl Gate + Sync),
) -> Result<GroupReport<P, C>, GroupFault>
    requires ports { ArePortsOf P.told exchange.id config.terms config.dialect ports.items }
    requires made { (exchange.workers ≡ vec_len ports) × (exchange.terms ≡ config.terms) }
    requires empty { (E.cache store ≡ empty_cache 0) × (E.moment store ≡ 0) }
    requires sizes { E.sizes store ≡ config.terms.geometry }
    requires refuses { config.terms.may_refuse ≡ false → E.may_refuse ≡ false }
    requires system_clock { config.terms.system_clock ≡ true → IsSome (C.start clock) }
    requires unasked { IsSome (C.start clock) → C.told clock ≡ Some [] }
    ensures run { IfOk result (λ report. IsRun P.told P.leads_to C.told C.leads_to (E.keeps store []) (E.is_exact store)
        E.may_refuse (E.sizes store) ports.items clock report) }
    ensures none_began { IfErr result NoneBegan }
{
    let signals = GroupSignals::new(alloc, store.key_hasher(), exchange.workers(), config.spin)?;
    let (ends, storage_end) = exchange.into_ends();
    let end = Snapshot::of(&storage_end);
    let lock = OnceLock::new();
    // The lock is new, and no other thread knows it.
    let Ok(origin) = lock.try_set(Origin::of(&store, &clock, &storage_end)) else {
        return Err(GroupFault::NotNew);
    };
    let side = StorageSide::new(rt, store, clock, storage_end);
    note_unheld(&signals, config.storage);
    run_named::<P, E, C, _, _, Brand>(
        rt, alloc, ports, ends, end, side, &origin, config, gate, &signals,
    )
}
