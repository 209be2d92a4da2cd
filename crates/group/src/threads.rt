//! The threads of a group: each waits for the start, and promises what it leaves.
ghost use Rattle.std.specs.Prelude.{◌≡◌, ℕ, ◌<◌, ◌≤◌, ⊤, [], true, None, All, IfSome, map, length, vec_len};
ghost use Rattle.std.specs.Prelude.{vec_capacity, ◌+◌, ◌∷◌};
ghost use Rattle.worker.specs.declared.run.WorkerReport.{WorkerReport};
ghost use Rattle.exchange.specs.Ends.{WorkerView};
ghost use Rattle.worker.specs.Starts.{IsPortAt, HasSentNothing};
ghost use Rattle.group.specs.Threads.{IsFinished, KeepsWorker, AreEach};

use crate::context::{GroupContext, Runtime};
use crate::start::{Finished, wait_for_start};
use exchange::WorkerEnd;
use os::set_thread_name;
use proto::Storage;
use std::snapshot::Snapshot;
use std::sync::{OnceLock, OnceToken, Wait};
use std::thread::{JoinHandle, Promise, PromisedHandle, Scope, Threads};
use std::{time, vec};
use storage_thread::{Serve, SharedStorage};
use worker::{Executor, Gate, WorkerReport, run_worker};
use worker_port::Port;

/// What a worker's thread promises: what it leaves of the port and the end that it was given, if it
/// was told to begin.
#[derive(Drop)]
pub struct WorkerPromise<'a, P> {
    pub start: &'a OnceLock<bool>,
    pub port: Snapshot<P>,
    pub end: Snapshot<WorkerEnd>,
}

impl<'a, P: Port> Promise<Finished<'a, WorkerReport<P>>> for WorkerPromise<'a, P> {
    ghost use Rattle.group.specs.Threads.{IsFinished, KeepsWorker};

    ghost kept_by = { λ p r. IsFinished p.start.now.id (KeepsWorker P.told P.leads_to p.port.value p.end.value) r };
}

pub type WorkerHandle<'a, P> = PromisedHandle<Finished<'a, WorkerReport<P>>, WorkerPromise<'a, P>>;

/// The name of a worker's thread, as the system's tools show it: `worker 0` to `worker 7`.
fn thread_name(worker: usize) -> [u8; 8]
    requires { worker < 8 }
{
    let mut name = *b"worker 0";
    name[7] += worker as u8;
    name
}

/// Names the thread, and runs a worker in it once it is told to begin.
fn worker_thread<'a, P: Port, G: Gate, X: Executor, R: Wait + time::Clock>(
    rt: &R,
    context: &GroupContext<'a, G>,
    executor: &X,
    port: P,
    end: WorkerEnd,
) -> Finished<'a, WorkerReport<P>>
    requires port { IsPortAt P.told context.now.config.dialect port end }
    requires fresh { HasSentNothing end }
    ensures { IsFinished context.now.start.now.id (KeepsWorker P.told P.leads_to port end) result }
{
    // Names are for the operator: where the system takes none, the thread runs as well.
    let _ = set_thread_name(&thread_name(end.worker()));
    let config = context.config;
    let (gate, signals) = (context.gate, context.signals);
    let told = wait_for_start(rt, context.start);
    if !*context.start.value(&told) {
        return Finished { told, ran: None };
    }
    let ran = Some(run_worker(
        rt,
        context.alloc,
        port,
        end,
        config.dialect,
        config.output_budget,
        gate,
        executor,
        signals,
    ));
    Finished { told, ran }
}

/// Names the thread, and serves in it once it is told to begin.
fn run_storage_thread<'a, T: Serve, G, R: Wait + time::Clock>(
    rt: &R,
    context: &GroupContext<'a, G>,
    shared: &SharedStorage<T>,
) -> Finished<'a, ()>
    ensures { IsFinished context.now.start.now.id (λ _. ⊤) result }
{
    let _ = set_thread_name(b"storage");
    let told = wait_for_start(rt, context.start);
    if !*context.start.value(&told) {
        return Finished { told, ran: None };
    }
    match context.config.storage {
        Storage::Thread => shared.serve_to_end(rt, context.signals),
        Storage::Workers => shared.serve_beside(rt, context.signals),
    }
    Finished {
        told,
        ran: Some(()),
    }
}

/// Starts the storage thread, or none if the system starts no thread.
fn start_storage<'s, T: Serve + Send + 's>(
    rt: &'s impl Runtime,
    scope: &'s Scope<'s, &()>,
    context: &'s GroupContext<'s, impl Sync>,
    shared: &'s SharedStorage<T>,
) -> Option<JoinHandle<Finished<'s, ()>>> {
    scope
        .spawn(move || run_storage_thread(rt, context, shared))
        .ok()
}

/// Starts the thread of one worker, or none if the system starts no thread.
fn start_worker<'s, P: Port + Send + 's>(
    rt: &'s impl Runtime,
    scope: &'s Scope<'s, &()>,
    context: &'s GroupContext<'s, impl Gate + Sync>,
    executor: &'s (impl Executor + Sync),
    port: P,
    end: WorkerEnd,
) -> Option<WorkerHandle<'s, P>>
    requires port { IsPortAt P.told context.now.config.dialect port end }
    requires fresh { HasSentNothing end }
    ensures start { IfSome result (λ h. h.promise.start.now.id ≡ context.now.start.now.id) }
    ensures given { IfSome result (λ h. (h.promise.port.value ≡ port) × (h.promise.end.value ≡ end)) }
{
    let promise = WorkerPromise {
        start: context.start,
        port: Snapshot::of(&port),
        end: Snapshot::of(&end),
    };
    scope
        .spawn_with(
            promise,
            move || worker_thread(rt, context, executor, port, end),
        )
        .ok()
}

/// The first of the ports that are left.
fn next_port<P: Port>(ports: &mut vec::IntoIter<P>) -> P
    requires left { 0 < ports.old.rest.len }
    ensures items { ports.old.rest.items ≡ result ∷ ports.new.rest.items }
    ensures len { ports.old.rest.len ≡ ports.new.rest.len + 1 }
{
    let Some(port) = ports.next() else {
        unreachable!()
    };
    port
}

/// Starts a thread for each port, with the end at its place. The list of handles has room for them.
/// None if one can't be started.
fn start_workers<'s, P: Port + Send + 's>(
    rt: &'s impl Runtime,
    scope: &'s Scope<'s, &()>,
    context: &'s GroupContext<'s, impl Gate + Sync>,
    executor: &'s (impl Executor + Sync),
    ports: Vec<P>,
    ends: Vec<WorkerEnd>,
    mut handles: Vec<WorkerHandle<'s, P>>,
) -> Option<Vec<WorkerHandle<'s, P>>>
    requires ports { AreEach (IsPortAt P.told context.now.config.dialect) ports.items ends.items }
    requires ends { All HasSentNothing ends.items }
    requires lengths { vec_len ports ≡ vec_len ends }
    requires room { (handles.items ≡ []) × (vec_len ends ≤ vec_capacity handles) }
    ensures start { IfSome result (λ v. All (λ h. h.promise.start.now.id ≡ context.now.start.now.id) v.items) }
    ensures ports { IfSome result (λ v. map (λ h. h.promise.port.value) v.items ≡ ports.items) }
    ensures ends { IfSome result (λ v. map (λ h. h.promise.end.value) v.items ≡ ends.items) }
{
    let mut ports = ports.into_iter();
    for end in ends {
        let port = next_port(&mut ports);
        let handle = start_worker(rt, scope, context, executor, port, end)?;
        handles.push_reserved(handle);
    }
    Some(handles)
}

/// Starts the storage thread, and a thread for each port, with the end at its place. The list of
/// handles has room for them. All wait for the start. None if one can't be started.
pub fn start_threads<'s, P: Port + Send + 's, T: Serve + Send + 's>(
    rt: &'s impl Runtime,
    scope: &'s Scope<'s, &()>,
    context: &'s GroupContext<'s, impl Gate + Sync>,
    executor: &'s (impl Executor + Sync),
    shared: &'s SharedStorage<T>,
    ports: Vec<P>,
    ends: Vec<WorkerEnd>,
    handles: Vec<WorkerHandle<'s, P>>,
) -> Option<Vec<WorkerHandle<'s, P>>>
    requires ports { AreEach (IsPortAt P.told context.now.config.dialect) ports.items ends.items }
    requires ends { All HasSentNothing ends.items }
    requires lengths { vec_len ports ≡ vec_len ends }
    requires room { (handles.items ≡ []) × (vec_len ends ≤ vec_capacity handles) }
    ensures start { IfSome result (λ v. All (λ h. h.promise.start.now.id ≡ context.now.start.now.id) v.items) }
    ensures ports { IfSome result (λ v. map (λ h. h.promise.port.value) v.items ≡ ports.items) }
    ensures ends { IfSome result (λ v. map (λ h. h.promise.end.value) v.items ≡ ends.items) }
{
    start_storage(rt, scope, context, shared)?;
    start_workers(rt, scope, context, executor, ports, ends, handles)
}

/// What the workers' threads leave, in order, which were told to begin. The list of reports has
/// room for them.
pub fn join_workers<'s, P: Port, R: Threads>(
    rt: &R,
    told: &OnceToken<'s, bool>,
    handles: Vec<WorkerHandle<'s, P>>,
    mut reports: Vec<WorkerReport<P>>,
) -> Vec<WorkerReport<P>>
    requires began { All (λ h. told.now.of ≡ h.promise.start.now.id) handles.items × (told.now.value ≡ true) }
    requires room { (reports.items ≡ []) × (vec_len handles ≤ vec_capacity reports) }
    ensures { AreEach (λ h r. KeepsWorker P.told P.leads_to h.promise.port.value h.promise.end.value r)
        handles.entry.items result.items }
{
    for handle in handles {
        let finished = handle.join(rt);
        finished.told.agrees(told);
        reports.push_reserved(finished.ran.unwrap());
    }
    reports
}
