//! The memory of hits goes round: of that no clause speaks.

use crate::same::check_same;
use engine::StorageEngine;
use proto::{Geometry, Message, Next, Request, next_message};
use segcache::Store;
use std::alloc::Global;
use std::process::Abort;
use std::test::Fail;

/// The capacity of the buffer that is lent with each request: room for the hits of any of them.
const LENT: usize = 200;

/// Requests in order, and the capacity of the buffer that comes back with the reply to each.
const REQUESTS: [(&str, Option<usize>); 5] = [
    ("set a 0 0 1\r\nx\r\n", None),
    ("get a\r\n", Some(LENT)),
    ("get a a\r\n", Some(LENT)),
    ("get b\r\n", Some(LENT)),
    ("get b c\r\n", Some(LENT)),
];

fn read(alloc: Global, text: &str) -> Result<Request, Fail> {
    match next_message(alloc, text.as_bytes())? {
        Next::Found(Message::Ask(request, _), _) => Ok(request),
        _ => Err(Fail::from("a request")),
    }
}

fn capacity_of(buffer: Option<Vec<u8>>) -> Option<usize> {
    Some(buffer?.capacity())
}

/// The capacity of the buffer that the request hands back, and of the one that comes back with the
/// reply.
fn buffers_back(
    alloc: Global,
    store: &mut Store,
    text: &str,
) -> Result<(Option<usize>, Option<usize>), Fail> {
    let mut request = read(alloc, text)?;
    let buffer = Vec::with_capacity(alloc, LENT)?;
    let handed_back = capacity_of(request.lend_buffer(buffer));
    if store.last_moment() > 1 {
        return Err(Fail::from("the moment 1 is over"));
    }
    let reply = store.handle(1, &mut request);
    drop(request);
    Ok((handed_back, capacity_of(reply.into_buffer())))
}

/// The buffer comes back with the reply, or else with the request.
fn check_request(
    rt: &impl Abort,
    alloc: Global,
    store: &mut Store,
    text: &str,
    comes_back: Option<usize>,
) -> Result<(), Fail> {
    let (handed_back, kept) = buffers_back(alloc, store, text)?;
    check_same(rt, kept, comes_back, text);
    check_same(rt, handed_back.is_some(), kept.is_none(), text);
    Ok(())
}

fn check_requests(
    rt: &impl Abort,
    alloc: Global,
    store: &mut Store,
    rows: &[(&str, Option<usize>)],
) -> Result<(), Fail> {
    for (text, comes_back) in rows {
        check_request(rt, alloc, store, text, *comes_back)?;
    }
    Ok(())
}

#[test]
fn the_memory_of_hits_goes_round(rt: HostRuntime) -> Result<(), Fail> {
    let mut store = Store::new(rt.alloc(), Geometry::new(4096, 8)?)?;
    check_requests(&rt, rt.alloc(), &mut store, &REQUESTS)
}
