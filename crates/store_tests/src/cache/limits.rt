//! A store at its limits, and what it says of itself.

use crate::cache::asking::answer;
use crate::same::check_same;
use engine::StorageEngine;
use proto::{ByteString, Geometry, Put, Reply, Request};
use segcache::Store;
use std::alloc::{AllocError, Global};
use std::process::Abort;
use std::test::Fail;

/// The store answers a request so at a moment.
fn check_answer(
    rt: &impl Abort,
    alloc: Global,
    store: &mut Store,
    now: u64,
    (request, wanted): (&str, &str),
) -> Result<(), Fail> {
    let given = answer(alloc, store, now, request)?;
    check_same(rt, given.as_slice(), wanted.as_bytes(), request);
    Ok(())
}

/// Requests to a store that has given out its last cas number, and their answers.
const WITHOUT_CAS_NUMBER: [(&str, &str); 3] = [
    (
        "set a 0 0 1\r\nx\r\n",
        "SERVER_ERROR out of cas numbers\r\n",
    ),
    ("set a 0 -1 1\r\nx\r\n", "STORED\r\n"),
    ("incr a 1\r\n", "NOT_FOUND\r\n"),
];

fn check_answers(
    rt: &impl Abort,
    alloc: Global,
    store: &mut Store,
    rows: &[(&str, &str)],
) -> Result<(), Fail> {
    for row in rows {
        check_answer(rt, alloc, store, 1000, *row)?;
    }
    Ok(())
}

/// The last cas number was given out: only a write that takes none is stored.
#[test]
fn no_cas_number_left(rt: HostRuntime) -> Result<(), Fail> {
    let mut store = Store::starting(rt.alloc(), Geometry::new(65536, 64)?, u64::MAX)?;
    check_answers(&rt, rt.alloc(), &mut store, &WITHOUT_CAS_NUMBER)
}

/// Whether a write was stored, or was too large; None for another answer.
fn says_stored(reply: &Reply) -> Option<bool> {
    match reply {
        Reply::Stored => Some(true),
        Reply::TooLarge => Some(false),
        _ => None,
    }
}

fn put_of(alloc: Global, key: usize, value: usize) -> Result<Request, AllocError> {
    let key = ByteString::from_vec(vec![in alloc; b'k'; key]?);
    let value = ByteString::from_vec(vec![in alloc; b'v'; value]?);
    Ok(Request::Set(Put {
        key,
        flags: 0,
        exptime: 0,
        value,
    }))
}

/// Whether a store to which nothing was sent stores the write.
fn put_stored(store: &mut Store, request: &mut Request) -> Option<bool> {
    if store.last_moment() > 1 {
        return None;
    }
    let reply = store.handle(1, request);
    says_stored(&reply)
}

/// Whether a key and a value of these lengths are stored, or are too large; None for another
/// answer.
fn is_stored(
    alloc: Global,
    store: &mut Store,
    key: usize,
    value: usize,
) -> Result<Option<bool>, AllocError> {
    let mut request = put_of(alloc, key, value)?;
    Ok(put_stored(store, &mut request))
}

fn check_length(
    rt: &impl Abort,
    alloc: Global,
    (key, value): (usize, usize),
    fits: bool,
) -> Result<(), Fail> {
    let mut store = Store::new(alloc, Geometry::new(4096, 8)?)?;
    let stored = is_stored(alloc, &mut store, key, value);
    drop(store);
    check_same(rt, stored?, Some(fits), (key, value));
    Ok(())
}

fn check_lengths(
    rt: &impl Abort,
    alloc: Global,
    rows: &[(usize, usize, bool)],
) -> Result<(), Fail> {
    for (key, value, fits) in rows {
        check_length(rt, alloc, (*key, *value), *fits)?;
    }
    Ok(())
}

/// The lengths of a key and of a value, and whether they are stored. Keys have 1 to 250 bytes, and
/// an item an eighth of a segment at most: 24 bytes, the key and the value, rounded up to a
/// multiple of 8.
const LENGTHS: [(usize, usize, bool); 8] = [
    (0, 1, false),
    (1, 1, true),
    (250, 1, true),
    (251, 1, false),
    (1, 487, true),
    (1, 488, false),
    (250, 238, true),
    (250, 239, false),
];

#[test]
fn lengths(rt: HostRuntime) -> Result<(), Fail> {
    check_lengths(&rt, rt.alloc(), &LENGTHS)
}

fn check_state(rt: &impl Abort, store: &Store, moment: u64, pending: Option<u64>) {
    let given = (store.last_moment(), store.pending());
    check_same(rt, given, (moment, pending), "the store's state");
}

fn check_states(rt: &impl Abort, alloc: Global, store: &mut Store) -> Result<(), Fail> {
    check_state(rt, store, 0, None);
    check_answer(rt, alloc, store, 7, ("flush_all 5\r\n", "OK\r\n"))?;
    check_state(rt, store, 7, Some(12));
    check_answer(rt, alloc, store, 12, ("get a\r\n", "END\r\n"))?;
    check_state(rt, store, 12, None);
    Ok(())
}

/// What a store says of itself.
#[test]
fn moments(rt: HostRuntime) -> Result<(), Fail> {
    let mut store = Store::new(rt.alloc(), Geometry::new(65536, 64)?)?;
    check_states(&rt, rt.alloc(), &mut store)
}
