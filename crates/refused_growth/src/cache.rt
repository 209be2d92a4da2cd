//! A store is made after a refusal. Where memory is refused, it keeps its entries, its cas counter,
//! its pending flush and its moment, and executes the request when it is asked again.

use crate::protocol::{is_shown, read_request};
use engine::{StorageEngine, carry_out};
use proto::{Geometry, Message, Reply, Request};
use segcache::Store;
use std::alloc::Global;

/// Requests that store, show, change, join, touch, expire and flush, and a `stats`, of which a
/// store knows nothing.
const INPUTS: [&[u8]; 19] = [
    b"set a 1 0 1\r\nx\r\n",
    b"set b 2 9 2\r\nyy\r\n",
    b"add c 3 0 3\r\nccc\r\n",
    b"replace a 4 0 3\r\nzzz\r\n",
    b"cas b 5 4 2 2\r\nbb\r\n",
    b"set n 0 0 2\r\n19\r\n",
    b"incr n 1\r\n",
    b"decr n 3\r\n",
    b"gets a b c n\r\n",
    b"flush_all 2\r\n",
    b"delete a\r\n",
    b"set d 0 0 1\r\nd\r\n",
    b"set d 0 -1 1\r\nd\r\n",
    b"set e 0 0 1\r\ne\r\n",
    b"append e 9 9 2\r\nff\r\n",
    b"touch e 60\r\n",
    b"gats 90 b e a\r\n",
    b"stats\r\n",
    b"gets a b c d e n\r\n",
];

/// Shows all entries.
const ALL: &[u8] = b"gets a b c d e n\r\n";

/// The moment of the last request, which is later for each of them by one.
const LAST_MOMENT: u64 = 2000;

/// The store, if it is made at the first or the second try.
fn make(alloc: Global, geometry: Geometry) -> Option<Store> {
    for _ in 0..2 {
        if let Ok(store) = Store::new(alloc, geometry) {
            return Some(store);
        }
    }
    None
}

/// The store's reply, if the moment isn't before its last one.
fn handle(store: &mut Store, now: u64, request: &mut Request) -> Option<Reply> {
    if store.last_moment() > now || now > LAST_MOMENT {
        return None;
    }
    Some(carry_out(store, now, request))
}

/// Appends what stands in the store, and says whether there was memory for it.
fn push_once(alloc: Global, store: &mut Store, now: u64, out: &mut Vec<u8>) -> bool {
    let Some(mut request) = read_request(alloc, ALL) else {
        return false;
    };
    let reply = handle(store, now, &mut request);
    let message = Message::Ask(request, false);
    let is_pushed = match &reply {
        None | Some(Reply::NoMemory) => false,
        Some(reply) => is_shown(&message, reply, out),
    };
    drop(message);
    drop(reply);
    is_pushed
}

/// Appends what stands in the store, and says whether it is shown at the first, the second or the
/// third try.
fn push_entries(alloc: Global, store: &mut Store, now: u64, out: &mut Vec<u8>) -> bool {
    for _ in 0..3 {
        if push_once(alloc, store, now, out) {
            return true;
        }
    }
    false
}

/// Whether the store has these entries, this flush to come and this moment.
fn is_kept(
    alloc: Global,
    store: &mut Store,
    now: u64,
    before: &[u8],
    pending: Option<u64>,
) -> bool {
    let mut after = Vec::new(alloc);
    let is_shown = push_entries(alloc, store, now, &mut after);
    let is_same = after.as_slice() == before;
    drop(after);
    is_shown && is_same && store.pending() == pending && store.last_moment() == now
}

/// The reply, if the request is executed at the first try, or at the second one while the store is
/// kept.
fn handled(
    alloc: Global,
    store: &mut Store,
    now: u64,
    request: &mut Request,
    before: &[u8],
) -> Option<Reply> {
    let pending = store.pending();
    match handle(store, now, request)? {
        Reply::NoMemory => {}
        reply => return Some(reply),
    }
    if !is_kept(alloc, store, now, before, pending) {
        return None;
    }
    handle(store, now, request)
}

/// The reply, if the request is executed at the first or the second try, and a refusal changes
/// nothing.
fn reply_to(alloc: Global, store: &mut Store, now: u64, request: &mut Request) -> Option<Reply> {
    let mut before = Vec::new(alloc);
    let reply = if push_entries(alloc, store, now, &mut before) {
        handled(alloc, store, now, request, before.as_slice())
    } else {
        None
    };
    drop(before);
    reply
}

/// Appends the answer, and says whether the request was read, executed and shown.
fn push_answer(
    alloc: Global,
    store: &mut Store,
    now: u64,
    input: &[u8],
    out: &mut Vec<u8>,
) -> bool {
    let Some(mut request) = read_request(alloc, input) else {
        return false;
    };
    let reply = reply_to(alloc, store, now, &mut request);
    let message = Message::Ask(request, false);
    let is_pushed = match &reply {
        None => false,
        Some(reply) => is_shown(&message, reply, out),
    };
    drop(message);
    drop(reply);
    is_pushed
}

/// Writes the answer, and says whether it was given.
fn is_answered<R: Print + AllocGlobal>(rt: &R, store: &mut Store, now: u64, input: &[u8]) -> bool {
    let mut out = Vec::new(rt.alloc());
    let is_given = push_answer(rt.alloc(), store, now, input, &mut out);
    match str::from_utf8(out.as_slice()) {
        Ok(text) => rt.print(text).is_ok() && is_given,
        Err(_) => false,
    }
}

fn are_answered<R: Print + AllocGlobal>(rt: &R, store: &mut Store) -> bool {
    let mut now = 1000;
    for input in &INPUTS {
        if !is_answered(rt, store, now, input) {
            return false;
        }
        if now < LAST_MOMENT {
            now += 1;
        }
    }
    true
}

/// Writes the answers, and says whether the store was made and each answer given.
pub fn is_repeatable<R: Print + AllocGlobal>(rt: &R) -> bool {
    let Ok(geometry) = Geometry::new(4096, 8) else {
        return false;
    };
    match make(rt.alloc(), geometry) {
        Some(mut store) => are_answered(rt, &mut store),
        None => false,
    }
}
