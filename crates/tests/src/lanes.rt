//! How many requests a lane holds, whose turn it is, and what is refused.

ghost use Rattle.std.specs.Prelude.{◌≡◌, ◌+◌, [], length, None, IfOk};

use crate::clock::Stopped;
use crate::same::check_same;
use exchange::{MakeFault, Posted, StorageEnd, Taken, WorkerEnd, WorkerLane, make};
use proto::{AskedClock, ByteString, Geometry, Request, Terms};
use std::alloc::Global;
use std::process::Abort;
use std::test::Fail;

/// Both sides of an exchange.
#[derive(Drop)]
struct Lanes {
    workers: Vec<WorkerEnd>,
    storage: StorageEnd,
}

fn made(alloc: Global, workers: usize) -> Result<Lanes, MakeFault>
    ensures { IfOk result (λ lanes. lanes.storage.history ≡ []) }
{
    let geometry = match Geometry::new(4096, 8) {
        Ok(geometry) => geometry,
        Err(_) => return Err(MakeFault::BadCount),
    };
    let terms = Terms {
        geometry,
        system_clock: false,
        may_refuse: true,
    };
    let (workers, storage) = make(alloc, workers, terms)?;
    Ok(Lanes { workers, storage })
}

/// The deletion with this number.
fn deletion(alloc: Global, number: u64) -> Result<Posted, Fail>
    ensures { IfOk result (λ p. p.number ≡ number) }
{
    let key = Vec::from_slice(alloc, b"key")?;
    Ok(Posted {
        session: 7,
        number,
        request: Request::Delete {
            key: ByteString::from_vec(key),
        },
    })
}

fn is_deletion(posted: &Posted, number: u64) -> bool {
    match &posted.request {
        Request::Delete { key } => {
            posted.session == 7 && posted.number == number && key.as_slice() == b"key".as_slice()
        }
        _ => false,
    }
}

/// Posts a request of session 7, and checks whether it was sent. One that is handed back is
/// unchanged.
fn check_sent(
    rt: &impl Abort,
    alloc: Global,
    end: &mut WorkerEnd,
    wanted: bool,
) -> Result<(), Fail> {
    let number = end.sent() + 1;
    let posted = deletion(alloc, number)?;
    let back = match end.post(posted) {
        Ok(()) => None,
        Err(back) => Some(is_deletion(&back, number)),
    };
    let is_right = if wanted { None } else { Some(true) };
    check_same(rt, back, is_right, "what is handed back");
    Ok(())
}

/// The last worker's end.
fn last<'a>(rt: &impl Abort, ends: &'a mut [WorkerEnd]) -> &'a mut WorkerEnd {
    match ends.last_mut() {
        Some(end) => end,
        None => panic!(rt; "no end"),
    }
}

/// The lane of the next message, and whether it is a request; a bye else.
fn next_of(storage: &mut StorageEnd) -> Option<(usize, bool)>
    requires shut { storage.old.open_request ≡ None }
    requires unanswered { storage.old.history ≡ [] }
    ensures { storage.new.history ≡ [] }
{
    match storage.next(&AskedClock::new(Stopped)) {
        Some(Taken::Asked { worker, posted }) => {
            drop(posted);
            Some((worker, true))
        }
        Some(Taken::Bye { worker }) => Some((worker, false)),
        None => None,
    }
}

/// No request is open, and the next message is so.
fn check_next(rt: &impl Abort, storage: &mut StorageEnd, wanted: Option<(usize, bool)>, place: &str)
    requires { storage.old.history ≡ [] }
    ensures { storage.new.history ≡ [] }
{
    assert!(rt; !storage.is_open());
    check_same(rt, next_of(storage), wanted, place);
}

/// Takes the next answer, and says whether there was none.
fn has_none(end: &mut WorkerEnd) -> bool {
    end.take().is_none()
}

fn check_65th(rt: &impl Abort, alloc: Global, end: &mut WorkerEnd) -> Result<(), Fail> {
    check_same(rt, has_none(end), true, "no answer at first");
    for _ in 0..64 {
        check_sent(rt, alloc, end, true)?;
    }
    check_sent(rt, alloc, end, false)?;
    check_same(rt, has_none(end), true, "no answer");
    check_same(rt, (end.sent(), end.outstanding()), (64, 64), "the end");
    Ok(())
}

#[test]
fn the_65th_request_is_handed_back(rt: HostRuntime) -> Result<(), Fail> {
    let mut lanes = made(rt.alloc(), 1)?;
    let checked = check_65th(&rt, rt.alloc(), last(&rt, lanes.workers.as_mut_slice()));
    drop(lanes);
    checked
}

fn check_bye(
    rt: &impl Abort,
    alloc: Global,
    end: &mut WorkerEnd,
    storage: &mut StorageEnd,
) -> Result<(), Fail>
    requires { storage.old.history ≡ [] }
{
    check_next(rt, storage, None, "the beginning");
    if !end.said_bye() && end.outstanding() == 0 {
        end.bye();
    }
    check_sent(rt, alloc, end, false)?;
    check_next(rt, storage, Some((1, false)), "the bye");
    Ok(())
}

#[test]
fn nothing_is_posted_after_bye(rt: HostRuntime) -> Result<(), Fail> {
    let mut lanes = made(rt.alloc(), 2)?;
    let end = last(&rt, lanes.workers.as_mut_slice());
    let checked = check_bye(&rt, rt.alloc(), end, &mut lanes.storage);
    drop(lanes);
    checked
}

fn check_turns(
    rt: &impl Abort,
    alloc: Global,
    ends: &mut [WorkerEnd],
    storage: &mut StorageEnd,
) -> Result<(), Fail>
    requires { storage.old.history ≡ [] }
{
    check_same(rt, storage.workers(), 3, "workers");
    for end in ends {
        check_sent(rt, alloc, end, true)?;
    }
    check_next(rt, storage, Some((0, true)), "the first");
    check_same(rt, storage.is_open(), true, "behind the first");
    Ok(())
}

#[test]
fn lanes_are_looked_at_in_turn(rt: HostRuntime) -> Result<(), Fail> {
    let mut lanes = made(rt.alloc(), 3)?;
    let ends = lanes.workers.as_mut_slice();
    let checked = check_turns(&rt, rt.alloc(), ends, &mut lanes.storage);
    drop(lanes);
    checked
}

/// How many ends of workers are made, and how many of them storage knows; None if the count is bad.
fn made_counts(alloc: Global, workers: usize) -> Result<Option<(usize, usize)>, MakeFault> {
    match made(alloc, workers) {
        Ok(lanes) => {
            let counts = (lanes.workers.len(), lanes.storage.workers());
            drop(lanes);
            Ok(Some(counts))
        }
        Err(MakeFault::BadCount) => Ok(None),
        Err(fault) => Err(fault),
    }
}

#[test]
fn one_to_eight_workers(rt: HostRuntime) -> Result<(), Fail> {
    for workers in 0..10 {
        let wanted = if 1 <= workers && workers <= 8 {
            Some((workers, workers))
        } else {
            None
        };
        check_same(&rt, made_counts(rt.alloc(), workers)?, wanted, workers);
    }
    Ok(())
}

/// Two histories that the worker was told of are compared, and one of them is checked, and compared
/// with a later one.
fn apply_laws(batch: &mut WorkerLane)
    ensures { batch.new ≡ batch.old }
{
    let first = batch.told();
    let second = batch.told();
    let first = batch.compare(first, second);
    let first = batch.check(first);
    let later = batch.told();
    drop(batch.compare(first, later));
}

/// Whether a request can be put and sent after the laws.
fn is_put_after_laws(end: WorkerEnd, posted: Posted) -> bool
    requires { posted.number ≡ length end.sent + 1 }
{
    let mut batch = end.batched();
    apply_laws(&mut batch);
    let is_put = batch.put(posted).is_ok();
    apply_laws(&mut batch);
    batch.flush();
    is_put
}

fn check_laws(
    rt: &impl Abort,
    alloc: Global,
    end: WorkerEnd,
    storage: &mut StorageEnd,
) -> Result<(), Fail>
    requires { storage.old.history ≡ [] }
{
    let posted = deletion(alloc, end.sent() + 1)?;
    check_same(rt, is_put_after_laws(end, posted), true, "a request is put");
    check_next(rt, storage, Some((1, true)), "the request");
    Ok(())
}

#[test]
fn laws_of_told_histories_leave_the_lanes_alone(rt: HostRuntime) -> Result<(), Fail> {
    let mut lanes = made(rt.alloc(), 2)?;
    match lanes.workers.pop() {
        Some(end) => check_laws(&rt, rt.alloc(), end, &mut lanes.storage),
        None => Err("no end".into()),
    }
}
