//! A storage side that threads share, one at a time.

ghost use Rattle.std.specs.Prelude.{◌≡◌, []};
ghost use Rattle.storage_thread.specs.Sides.{IsLeftBySide, IsSameOrigin};

use crate::serving::{StorageReport, serve, serve_until_idle};
use crate::side::{Origin, StorageSide};
use crate::stats::passed;
use engine::{Clock, StorageEngine};
use exchange::{GroupSignals, IdleTurns};
use std::marker::{Brand, Model, PhantomData};
use std::sync::atomic::{AtomicBool, Ordering};
use std::sync::{Mutex, MutexGuard, OnceToken, Wait};
use std::time::{self, Duration, Instant};

/// How many turns a worker takes in a row, as long as others have posted meanwhile. What they then
/// post is left to the storage thread.
const TURNS_IN_A_ROW: u32 = 4;

/// Which lock has the note of what a storage side began with. Each call of a group picks one.
pub trait LockId {
    ghost use Rattle.std.specs.Prelude.{ℕ};

    ghost id: { ℕ };
}

impl LockId for Brand {
    ghost id = { 0 };
}

/// What executes requests, as threads share it: a storage side of some store and some clock.
pub trait Serve {
    /// Takes a turn for the worker of this number. True if messages may be left, or each worker has
    /// said bye.
    fn serve_turn<R: time::Clock>(&mut self, rt: &R, signals: &GroupSignals, own: usize) -> bool;

    /// Executes requests until nothing has come for some turns. True if there was a message.
    fn serve_until_idle<R: Wait + time::Clock>(&mut self, rt: &R, signals: &GroupSignals) -> bool;

    /// Executes requests until each worker has said bye.
    fn serve_to_end<R: Wait + time::Clock>(&mut self, rt: &R, signals: &GroupSignals);

    /// Whether each worker has said bye.
    fn is_done(&self) -> bool;
}

/// A storage side that began with what stands in the lock of this id. The workers have been told of
/// all answers.
#[derive(Drop)]
pub struct SharedSide<'a, S: StorageEngine, C: Clock, J: LockId> {
    side: StorageSide<S, C>,
    origin: OnceToken<'a, Origin<S, C>>,
    /// For how long threads have held it that put it back.
    held: Duration,
    of: PhantomData<J>,
}

impl<'a, S: StorageEngine, C: Clock, J: LockId> Model for SharedSide<'a, S, C, J> {
    ghost use Rattle.std.specs.Prelude.{◌≡◌};
    ghost use Rattle.storage_thread.specs.declared.side.SideState.{SideState};

    ghost Value = { SideState S C };

    ghost view = { λ s. s.side };

    ghost use Rattle.storage_thread.specs.Sides.{IsSameOrigin};

    ghost invariant = { λ s. (s.origin.of ≡ J.id) × IsSameOrigin s.side.origin s.origin.value
        × (s.side.end.told ≡ s.side.end.end.history) };
}

impl<'a, S: StorageEngine, C: Clock, J: LockId> SharedSide<'a, S, C, J> {
    pub fn new(
        side: StorageSide<S, C>,
        origin: OnceToken<'a, Origin<S, C>>,
    ) -> SharedSide<'a, S, C, J>
        requires id { origin.of ≡ J.id }
        requires origin { IsSameOrigin side.origin origin.value }
        requires told { side.end.told ≡ side.end.end.history }
        ensures { result ≡ side }
    {
        SharedSide {
            side,
            origin,
            held: Duration::ZERO,
            of: PhantomData,
        }
    }

    /// Says for `stats` that a thread has held it since this moment, and puts it back now.
    fn note_held<R: time::Clock>(&mut self, rt: &R, signals: &GroupSignals, since: Option<Instant>)
        ensures { self.new ≡ self.old }
    {
        self.held = self.held.saturating_add(passed(rt, since));
        signals.storage_gauges().leave_waiting(self.held);
    }
}

impl<'a, S: StorageEngine + Drop, C: Clock, J: LockId> SharedSide<'a, S, C, J> {
    /// What it leaves, at whatever moment between two requests.
    pub fn into_report(self, origin: &OnceToken<'a, Origin<S, C>>) -> StorageReport<C>
        requires { origin.now.of ≡ J.id }
        ensures { IsLeftBySide C.told C.leads_to (S.keeps origin.now.value.store.value [])
            (S.is_exact origin.now.value.store.value) S.may_refuse origin.now.value.clock.value
            origin.now.value.end.value result }
    {
        let SharedSide {
            side,
            origin: mine,
            held: _,
            of: _,
        } = self;
        mine.agrees(origin);
        side.into_report()
    }
}

impl<S: StorageEngine, C: Clock, J: LockId> Serve for SharedSide<'_, S, C, J> {
    fn serve_turn<R: time::Clock>(&mut self, rt: &R, signals: &GroupSignals, own: usize) -> bool {
        let turn = self.side.serve_turn(rt, signals, own);
        self.note_held(rt, signals, turn.since);
        turn.is_left
    }

    fn serve_until_idle<R: Wait + time::Clock>(&mut self, rt: &R, signals: &GroupSignals) -> bool {
        let since = Instant::now(rt).ok();
        let has_served = serve_until_idle(rt, &mut self.side, signals);
        self.note_held(rt, signals, since);
        has_served
    }

    fn serve_to_end<R: Wait + time::Clock>(&mut self, rt: &R, signals: &GroupSignals) {
        serve(rt, &mut self.side, signals);
    }

    fn is_done(&self) -> bool {
        self.side.is_done()
    }
}

/// A storage side that threads share. One at a time holds it, and no thread waits for it.
///
/// A thread that finds the side held says that it wants it, and tries once more. Who takes the side
/// takes that word back before it looks at the lanes, and reads it once it has put the side back.
/// So what was posted before is executed: if the second try failed, its holder reads the word and
/// looks again.
#[derive(Drop)]
pub struct SharedStorage<T> {
    side: Mutex<T>,
    /// Whether a thread has found the side held since it was taken last.
    wanted: AtomicBool,
}

impl<T: Serve> SharedStorage<T> {
    pub fn new(side: T) -> SharedStorage<T> {
        SharedStorage {
            side: Mutex::new(side),
            wanted: AtomicBool::new(false),
        }
    }

    pub fn into_inner(self) -> T {
        let SharedStorage { side, wanted: _ } = self;
        side.into_inner()
    }

    /// The side, unless another thread has held it at both of two tries, and has been told between
    /// them that it is wanted: it then looks at the lanes once more.
    fn try_hold(&self) -> Option<MutexGuard<'_, T>> {
        let held = match self.side.try_lock() {
            Some(held) => held,
            None => {
                self.wanted.store(true, Ordering::SeqCst);
                self.side.try_lock()?
            }
        };
        // (a store takes much longer than a load)
        if self.wanted.load(Ordering::SeqCst) {
            self.wanted.store(false, Ordering::SeqCst);
        }
        Some(held)
    }

    /// Executes what was posted, for the worker of this number that has, unless another thread
    /// holds the side, which then does. False if the storage thread is to be woken: messages may be
    /// left, or each worker has said bye.
    pub fn serve<R: time::Clock>(&self, rt: &R, signals: &GroupSignals, own: usize) -> bool {
        for _ in 0..TURNS_IN_A_ROW {
            let Some(mut side) = self.try_hold() else {
                return true;
            };
            let is_left = side.serve_turn(rt, signals, own);
            drop(side);
            if is_left {
                return false;
            }
            if !self.wanted.load(Ordering::SeqCst) {
                return true;
            }
        }
        false
    }

    /// Holds the side until each worker has said bye: no other thread may try to.
    pub fn serve_to_end<R: Wait + time::Clock>(&self, rt: &R, signals: &GroupSignals) {
        self.side.lock(rt).serve_to_end(rt, signals);
    }

    /// Executes what workers leave, until each has said bye. It holds the side while it spins.
    /// Before it says that it will park it puts the side back, and then it looks at the lanes once
    /// more.
    pub fn serve_beside<R: Wait + time::Clock>(&self, rt: &R, signals: &GroupSignals) {
        let mut idle = IdleTurns::new(0, None);
        for _ in rt.forever() {
            let mut has_served = false;
            if let Some(mut side) = self.try_hold() {
                has_served = side.serve_until_idle(rt, signals);
                if side.is_done() {
                    return;
                }
                drop(side);
                has_served = has_served || self.wanted.load(Ordering::SeqCst);
            }
            if has_served {
                idle.reset(signals.parking());
            } else {
                idle.turn(rt, signals.parking());
            }
        }
        unreachable!()
    }
}
