//! Polls that may not wait, by the time that they take.

use crate::asked_port::{AskedPort, Came};
use crate::clients::hand;
use std::alloc::Global;
use std::net::Net;
use std::process::Abort;
use std::sync::Wait;
use std::time::{Clock, Duration, Instant};

/// So many calls in a row find nothing. Each fourth of them polls.
const CALLS: usize = 8_000;

/// So long all of them may take. With polls that wait a millisecond they take two seconds.
const MOST_MILLIS: u64 = 1000;

/// A busy machine may keep the thread from its processor.
const TRIES: usize = 3;

/// How long a new port takes for the calls, at which nothing comes.
fn time_of_calls<R>(rt: R, alloc: Global) -> Duration
where
    R: Wait + Clock + Net + Abort + Copy + Drop,
{
    let (of_listener, of_port) = hand(&rt, alloc, 1);
    let mut port = AskedPort::new(rt, alloc, of_port);
    let since = Instant::now(&rt).expect(&rt, "a clock");
    for _ in 0..CALLS {
        assert!(rt; port.came(false) == Came::Idle);
    }
    let took = since.elapsed(&rt).expect(&rt, "a clock");
    drop(of_listener);
    took
}

/// Whether one of the tries is short enough.
fn is_soon<R>(rt: R, alloc: Global) -> bool
where
    R: Wait + Clock + Net + Abort + Copy + Drop,
{
    for _ in 0..TRIES {
        if time_of_calls(rt, alloc) < Duration::from_millis(MOST_MILLIS) {
            return true;
        }
    }
    false
}

#[test]
fn polls_of_a_worker_that_may_not_wait_do_not(rt: HostRuntime) {
    assert!(rt; is_soon(rt, rt.alloc()));
}
