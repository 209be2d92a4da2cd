//! One lane, by the single calls of its ends.

ghost use Rattle.std.specs.Prelude.{◌⊎◌, ◌≡◌, ◌+◌, [], length, true, false, Some, None};
ghost use Rattle.proto.specs.History.{answers_by, worker_share};
ghost use Rattle.engine.specs.Reaching.{Reaches};
ghost use Rattle.segcache.specs.StoreState.{sizes_in, segmented_cache, last_moment};
ghost use Rattle.storage_thread.specs.Serving.{IsUnused};

use crate::clock::SteadyClock;
use crate::same::check_same;
use crate::storage::ends::{ask, made};
use engine::{StorageEngine, carry_out};
use exchange::{Answered, Posted, StorageEnd, Taken, WorkerEnd};
use proto::{AskedClock, Clock, Reply, Request};
use segcache::Store;
use std::alloc::Global;
use std::process::Abort;
use std::test::Fail;
use storage_thread::next_moment;

/// The reply to a request, to which the store replied so. Nothing is counted here.
fn uncounted(request: &Request, reply: Reply) -> Reply
    ensures same { (reply ≡ result) ⊎ (request.now ≡ Request.Stats) }
    ensures refused { request.now ≡ Request.Stats → result ≡ Reply.NoMemory }
{
    match request {
        Request::Stats => Reply::NoMemory,
        _ => reply,
    }
}

/// Executes the open request at the clock's moment, and answers it.
fn execute<S: StorageEngine, C: Clock>(
    store: &mut S,
    clock: &mut AskedClock<C>,
    end: &mut StorageEnd,
    worker: usize,
    posted: Posted,
)
    requires answers { clock.old.answers ≡ answers_by [] end.old.history }
    requires reaches { Reaches end.old.terms.geometry end.old.history (S.cache store.old) (S.moment store.old) }
    requires sizes { S.sizes store.old ≡ end.old.terms.geometry }
    requires any_terms { (end.old.terms.system_clock ≡ false) × (end.old.terms.may_refuse ≡ true) }
    requires open_request { end.old.open_request ≡ Some (worker, posted) }
    requires next { posted.number ≡ length (worker_share end.old.history worker) + 1 }
{
    let moment = next_moment(clock, store.last_moment());
    let told = clock.answers();
    let Posted {
        session,
        number,
        mut request,
    } = posted;
    let stored = carry_out(store, moment, &mut request);
    let reply = uncounted(&request, stored);
    let _ = end.answer(Answered {
        worker,
        session,
        number,
        request,
        moment,
        clock: told,
        reply,
    });
}

/// Executes and answers one request, and says whether there was one.
fn serve_one<C: Clock>(store: &mut Store, clock: &mut AskedClock<C>, end: &mut StorageEnd) -> bool
    requires answers { clock.old.answers ≡ answers_by [] end.old.history }
    requires reaches { Reaches end.old.terms.geometry end.old.history
        (segmented_cache store.old) (last_moment store.old) }
    requires sizes { sizes_in store.old ≡ end.old.terms.geometry }
    requires any_terms { (end.old.terms.system_clock ≡ false) × (end.old.terms.may_refuse ≡ true) }
    requires shut { end.old.open_request ≡ None }
{
    match end.next(clock) {
        Some(Taken::Asked { worker, posted }) => {
            execute(store, clock, end, worker, posted);
            true
        }
        _ => false,
    }
}

/// `count` requests are sent, and the next one is handed back.
fn check_sent(rt: &impl Abort, alloc: Global, end: &mut WorkerEnd, count: usize) {
    for _ in 0..count {
        check_same(rt, ask(alloc, end), Some(true), "one that has room");
    }
    check_same(rt, ask(alloc, end), Some(false), "one that has none");
}

fn is_first(answered: &Answered) -> bool {
    answered.worker == 0
        && answered.session == 7
        && answered.number == 1
        && matches!(&answered.reply, Reply::NotFound)
}

/// Takes the next answer, if there is one, and says whether it is that to the first request.
fn takes_first(end: &mut WorkerEnd) -> Option<bool> {
    match end.take() {
        Some(answered) => Some(is_first(&answered)),
        None => None,
    }
}

/// 64 requests are sent, and the next one is handed back. Once one of them was taken and answered
/// and its answer taken, one more is sent, and the next is handed back.
fn check_room(
    rt: &impl Abort,
    alloc: Global,
    end: &mut WorkerEnd,
    storage: &mut StorageEnd,
    store: &mut Store,
)
    requires unused { IsUnused storage.old }
    requires reaches { Reaches storage.old.terms.geometry storage.old.history
        (segmented_cache store.old) (last_moment store.old) }
    requires sizes { sizes_in store.old ≡ storage.old.terms.geometry }
    requires any_terms { (storage.old.terms.system_clock ≡ false) × (storage.old.terms.may_refuse ≡ true) }
{
    let mut clock = AskedClock::new(SteadyClock);
    check_sent(rt, alloc, end, 64);
    check_same(rt, takes_first(end), None, "before an answer");
    check_same(rt, serve_one(store, &mut clock, storage), true, "an answer");
    check_same(rt, takes_first(end), Some(true), "the answer");
    check_same(rt, takes_first(end), None, "behind the answer");
    check_sent(rt, alloc, end, 1);
}

#[test]
fn an_answer_makes_room(rt: HostRuntime) -> Result<(), Fail> {
    let (mut ends, mut storage, mut store) = made(rt.alloc(), 1)?;
    match ends.last_mut() {
        Some(end) => check_room(&rt, rt.alloc(), end, &mut storage, &mut store),
        None => panic!(rt; "no end"),
    }
    Ok(())
}
