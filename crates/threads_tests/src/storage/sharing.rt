//! What a thread does that finds the storage side held, and the one that holds it.

use crate::same::check_same;
use crate::signals::signals_of;
use exchange::GroupSignals;
use std::alloc::Global;
use std::process::Abort;
use std::sync::atomic::{AtomicBool, AtomicU64, Ordering};
use std::sync::{Arc, Wait};
use std::{thread, time};
use storage_thread::{Serve, SharedStorage};

/// How often a stay yields before it gives up.
const PATIENCE: u64 = 1_000_000;

/// What has happened so far.
#[derive(Drop)]
struct Progress {
    turns: AtomicU64,
    has_looked: AtomicBool,
    was_tried: AtomicBool,
}

/// Yields until the word is set, or gives up.
fn stay(word: &AtomicBool) {
    for _ in 0..PATIENCE {
        if word.load(Ordering::SeqCst) {
            return;
        }
        thread::yield_now();
    }
}

/// A side without requests. Its first turn ends once another thread has tried to hold it.
#[derive(Drop)]
struct EmptySide {
    progress: Arc<Progress>,
}

impl Serve for EmptySide {
    fn serve_turn<R: time::Clock>(
        &mut self,
        _rt: &R,
        _signals: &GroupSignals,
        _own: usize,
    ) -> bool {
        if self.progress.turns.fetch_add(1, Ordering::SeqCst) == 0 {
            self.progress.has_looked.store(true, Ordering::SeqCst);
            stay(&self.progress.was_tried);
        }
        false
    }

    fn serve_until_idle<R: Wait + time::Clock>(
        &mut self,
        _rt: &R,
        _signals: &GroupSignals,
    ) -> bool {
        false
    }

    fn serve_to_end<R: Wait + time::Clock>(&mut self, _rt: &R, _signals: &GroupSignals) {}

    fn is_done(&self) -> bool {
        false
    }
}

/// A side whose turns say this of what they leave, and this of whether all have said bye.
#[derive(Drop)]
struct SaidSide {
    may_leave: bool,
    is_done: bool,
}

impl Serve for SaidSide {
    fn serve_turn<R: time::Clock>(
        &mut self,
        _rt: &R,
        _signals: &GroupSignals,
        _own: usize,
    ) -> bool {
        self.may_leave || self.is_done
    }

    fn serve_until_idle<R: Wait + time::Clock>(
        &mut self,
        _rt: &R,
        _signals: &GroupSignals,
    ) -> bool {
        false
    }

    fn serve_to_end<R: Wait + time::Clock>(&mut self, _rt: &R, _signals: &GroupSignals) {}

    fn is_done(&self) -> bool {
        self.is_done
    }
}

fn progress_of(rt: &impl Abort, alloc: Global) -> Arc<Progress> {
    let progress = Progress {
        turns: AtomicU64::new(0),
        has_looked: AtomicBool::new(false),
        was_tried: AtomicBool::new(false),
    };
    Arc::new(alloc, progress).expect(rt, "memory")
}

// Worker 1 posts after the last look at its lane, and finds the side held.
#[test]
fn what_is_posted_at_the_end_of_a_turn_is_looked_for(rt: HostRuntime) {
    let alloc: Global = rt.alloc();
    let signals = signals_of(&rt, alloc, 2);
    let of_second = Arc::try_clone(&signals).expect(&rt, "memory");
    let progress = progress_of(&rt, alloc);
    let seen = Arc::try_clone(&progress).expect(&rt, "memory");
    let side = EmptySide {
        progress: Arc::try_clone(&progress).expect(&rt, "memory"),
    };
    let shared = Arc::new(alloc, SharedStorage::new(side)).expect(&rt, "memory");
    let other = Arc::try_clone(&shared).expect(&rt, "memory");
    let second = thread::spawn(&rt, move || {
        stay(&seen.has_looked);
        let is_served = other.serve(&rt, &of_second, 1);
        seen.was_tried.store(true, Ordering::SeqCst);
        is_served
    })
    .expect(&rt, "a thread");
    let is_served = shared.serve(&rt, &signals, 0);
    check_same(&rt, (is_served, second.join(&rt)), (true, true), "served");
    check_same(&rt, progress.turns.load(Ordering::SeqCst), 2, "turns");
}

#[test]
fn the_storage_thread_is_wanted_where_some_may_be_left_or_all_have_ended(rt: HostRuntime) {
    let alloc: Global = rt.alloc();
    let signals = signals_of(&rt, alloc, 1);
    for (may_leave, is_done, is_served) in [
        (false, false, true),
        (true, false, false),
        (false, true, false),
    ] {
        let shared = SharedStorage::new(SaidSide { may_leave, is_done });
        check_same(&rt, shared.serve(&rt, &signals, 0), is_served, "served");
    }
}
