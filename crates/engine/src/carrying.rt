//! Requests of several steps, over any store.

ghost use Rattle.std.specs.Prelude.{◌≡◌, ◌≢◌, ◌≤◌, Bool, [], map, true, false, MatchOption, if◌then◌else◌};
ghost use Rattle.proto.specs.Stored.{is_no_memory};
ghost use Rattle.proto.specs.declared.message.Reply.{Reply};
ghost use Rattle.proto.specs.Commands.{shows_hits};
ghost use Rattle.proto.specs.Steps.{Step, touched_by, TouchesEach, IsCarriedOut};
ghost use Rattle.proto.specs.History.{max_moment};
ghost use Rattle.engine.specs.Keeping.{KeepsAll};
ghost use Rattle.engine.specs.Deadlines.{IsKeepingStep, IsExactStep};

use crate::storage_engine::StorageEngine;
use proto::{Keys, Reply, Request};

/// Whether memory was refused.
fn is_refused(reply: &Reply) -> bool
    ensures { result ≡ is_no_memory reply.now }
{
    matches!(reply, Reply::NoMemory)
}

/// The reply to a request of several steps, one more of which was answered so.
fn with_answer(shown: Reply, answered: &Reply) -> Reply
    ensures { result ≡ if is_no_memory answered.now then Reply.NoMemory else shown }
{
    if is_refused(answered) {
        Reply::NoMemory
    } else {
        shown
    }
}

/// Touches each of the keys, one after the other. The reply stays, but it is NoMemory once a touch
/// is.
fn touch_each<S: StorageEngine>(
    store: &mut S,
    now: u64,
    keys: &Keys,
    exptime: i64,
    mut shown: Reply,
) -> Reply
    requires moment { S.moment store.old ≡ now }
    requires in_range { now ≤ max_moment }
    ensures touched { TouchesEach (IsKeepingStep (S.is_exact store.old) (S.sizes store.old) now) (S.cache store.old)
        (map (λ key. record { key = key; exptime = exptime }) keys.now) shown result (S.cache store.new) }
    ensures sizes { S.sizes store.new ≡ S.sizes store.old }
    ensures moment { S.moment store.new ≡ now }
    ensures exact { S.is_exact store.new ≡ S.is_exact store.old }
{
    let mut words = keys.iter();
    while let Some(key) = words.next() {
        let answered = store.touch(now, key, exptime);
        shown = with_answer(shown, &answered);
    }
    shown
}

/// The keys that a request touches behind its step, which was answered so, and by which exptime, if
/// it touches some.
fn touched<'a>(request: &'a Request, shown: &Reply) -> Option<(&'a Keys, i64)>
    ensures { MatchOption result (touched_by request.now shown.now ≡ [])
        (λ t. (touched_by request.now shown.now ≡ map (λ key. record { key = key; exptime = t.1 }) t.0.now)
        × ((with_cas : Bool) × (request.now ≡ Request.GetAndTouch t.0.now with_cas t.1))) }
{
    match request {
        Request::GetAndTouch { .. } if is_refused(shown) => None,
        Request::GetAndTouch { keys, exptime, .. } => Some((keys, *exptime)),
        _ => None,
    }
}

/// Carries the request out at this moment: its step, and then a step for each key that it touches.
pub fn carry_out<S: StorageEngine>(store: &mut S, now: u64, request: &mut Request) -> Reply
    requires not_before { S.moment store.old ≤ now }
    requires in_range { now ≤ max_moment }
    ensures request { request.new ≡ request.old }
    ensures steps { IsCarriedOut (Step (S.sizes store.old) now) (S.cache store.old) request.old result
        (S.cache store.new) }
    ensures sizes { S.sizes store.new ≡ S.sizes store.old }
    ensures moment { S.moment store.new ≡ now }

    // where storing isn't refused memory, only a request that shows hits is, and a `stats` never is
    ensures refused { S.may_refuse ≡ false → result ≡ Reply.NoMemory → shows_hits request.old ≡ true }
    ensures told { request.old ≡ Request.Stats → result ≢ Reply.NoMemory }
    ensures kept { KeepsAll S.sizes S.cache S.keeps store.old now request.old result store.new }

    // a store that keeps deadlines to the second goes on so, and each step stores its entry as it
    // asks
    ensures exact { S.is_exact store.new ≡ S.is_exact store.old }
    ensures deadlines { S.is_exact store.old ≡ true
        → IsCarriedOut (IsExactStep (S.sizes store.old) now) (S.cache store.old)
        request.old result (S.cache store.new) }
{
    let shown = store.handle(now, request);
    match touched(request, &shown) {
        Some((keys, exptime)) => touch_each(store, now, keys, exptime, shown),
        None => shown,
    }
}
