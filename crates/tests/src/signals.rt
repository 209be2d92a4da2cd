//! Tests of the hints that workers leave for the storage thread.

use crate::same::check_same;
use exchange::GroupSignals;
use proto::{MAX_WORKERS, WINDOW};
use std::hash::{FoldHasher, Hasher};
use std::process::Abort;
use std::test::Fail;

/// The messages of all workers that have a hint at a time.
const MESSAGES: u64 = MAX_WORKERS as u64 * WINDOW;

/// A key of its own for each worker's message.
fn key(worker: usize, number: u64) -> [u8; 8] {
    (worker as u64)
        .wrapping_mul(1000)
        .wrapping_add(number)
        .to_le_bytes()
}

fn check_hint(rt: &impl Abort, signals: &GroupSignals, worker: usize, number: u64) {
    let mut hasher = FoldHasher::default();
    hasher.write(&key(worker, number));
    let hash = hasher.finish();
    check_same(rt, signals.hint(worker, number), hash, (worker, number));
}

fn check_hints(rt: &impl Abort, signals: &GroupSignals) {
    check_same(rt, signals.has_hints(), true, "two workers");
    for place in 0..MESSAGES {
        let (worker, number) = ((place / WINDOW) as usize, place % WINDOW);
        signals.leave_hint(worker, number, &key(worker, number));
    }
    for place in 0..MESSAGES {
        check_hint(rt, signals, (place / WINDOW) as usize, place % WINDOW);
    }
    signals.leave_hint(3, WINDOW, &key(3, WINDOW));
    check_hint(rt, signals, 3, WINDOW);
    check_hint(rt, signals, 3, 1);
}

fn check_no_hints(rt: &impl Abort, signals: &GroupSignals) {
    check_same(rt, signals.has_hints(), false, "a single worker");
    signals.leave_hint(0, 0, b"alpha");
    check_same(rt, signals.hint(0, 0), 0, "the hint");
}

#[test]
fn each_message_has_a_hint_but_of_a_single_worker(rt: HostRuntime) -> Result<(), Fail> {
    let signals = GroupSignals::new(rt.alloc(), FoldHasher::default(), 2, None)?;
    check_hints(&rt, &signals);
    drop(signals);
    let signals = GroupSignals::new(rt.alloc(), FoldHasher::default(), 1, None)?;
    check_no_hints(&rt, &signals);
    drop(signals);
    Ok(())
}
