//! What a thread does in a turn in which nothing came.

use crate::ParkingWord;
use std::sync::Wait;
use std::time::{Clock, Duration, Instant};
use std::{hint, thread};

/// How often an idle turn spins: with the look for work it takes some 200 nanoseconds.
const SPINS_PER_TURN: u32 = 4;

/// How long a thread parks at most: one that was forgotten looks for work again then.
const LONGEST_PARK_MILLIS: u64 = 100;

/// Idle turns in a row: the thread spins in the first of them, and then parks until it is unparked.
/// So an idle thread costs nothing. It doesn't yield before it parks: on a machine whose processors
/// are all busy a thread that yields waits for its turn after all others, while one that was woken
/// goes before them. Only a thread that spins for a time yields after these turns, so that it keeps
/// no other thread from a processor.
#[derive(Drop)]
pub struct IdleTurns {
    most: u32,
    spin: Option<Duration>,
    turns: u32,
    /// When the first idle turn of the row was. Only if the thread spins for a time.
    since: Option<Instant>,
    announced: bool,
}

impl IdleTurns {
    /// The thread parks after `most` turns that spin, or, with `spin`, once that many microseconds
    /// have passed since the first idle turn of the row. Only with `spin` the clock is read, and
    /// only at idle turns.
    pub fn new(most: u32, spin: Option<u32>) -> IdleTurns {
        IdleTurns {
            most,
            spin: spin.map(|micros| Duration::from_micros(micros as u64)),
            turns: 0,
            since: None,
            announced: false,
        }
    }

    /// Something came: the next idle turn is the first of a row.
    pub fn reset(&mut self, parking: &ParkingWord) {
        if self.announced {
            parking.cancel();
            self.announced = false;
        }
        self.turns = 0;
        self.since = None;
    }

    /// One idle turn. Work is looked for between two turns, also between the one that announces a
    /// park and the one that parks.
    pub fn turn<R: Wait + Clock>(&mut self, rt: &R, parking: &ParkingWord) {
        if self.announced {
            parking.park(rt, Duration::from_millis(LONGEST_PARK_MILLIS));
            self.announced = false;
        } else if self.has_spun(rt) {
            parking.announce();
            self.announced = true;
        } else {
            self.spin_or_yield();
        }
    }

    /// Spins, or yields if it has spun in as many turns as without a time.
    fn spin_or_yield(&mut self) {
        if self.turns >= self.most {
            thread::yield_now();
            return;
        }
        self.turns += 1;
        for _ in 0..SPINS_PER_TURN {
            hint::spin_loop();
        }
    }

    /// Whether the next idle turn parks.
    pub fn parks_next(&self) -> bool {
        self.announced
    }

    /// Whether the thread has spun often or long enough in this row. One that can't read the clock
    /// doesn't spin for a time.
    fn has_spun<R: Clock>(&mut self, rt: &R) -> bool {
        let Some(spin) = self.spin else {
            return self.turns >= self.most;
        };
        let Ok(now) = Instant::now(rt) else {
            return true;
        };
        let since = *self.since.get_or_insert(now);
        now.duration_since(since) >= spin
    }
}
