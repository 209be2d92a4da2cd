//! What a worker does in a turn in which nothing came, and what it waits for.

use crate::retries::{Retries, Ticks};
use crossbeam_utils::Backoff;
use exchange::{IdleTurns, ParkingWord, Waits};
use std::sync::Wait;
use std::time::Clock;

/// Idle turns in a row that spin for an answer before the worker parks: some ten microseconds, in
/// which storage mostly answers.
const IDLE_TURNS: u32 = 40;

/// Idle turns in a row. A worker that waits for an answer parks until storage has given it; else it
/// yields, as it waits for a peer that accepts no bytes.
#[derive(Drop)]
pub(crate) struct Pauses<'a> {
    idle: IdleTurns,
    backoff: Backoff,
    /// Whether the last turn was idle.
    is_idle: bool,
    /// Whether it spins for a time.
    is_timed: bool,
    /// Whether there are other workers, which may tell this one's gauges.
    pub(crate) has_others: bool,
    /// How long the worker waited, for answers or in its port.
    pub(crate) waits: Waits<'a>,
    pub(crate) retries: Retries,
    pub(crate) ticks: Ticks,
}

impl<'a> Pauses<'a> {
    /// A worker that waits for an answer spins for `spin` microseconds before it parks, or for
    /// `IDLE_TURNS` turns.
    pub(crate) fn new(spin: Option<u32>, has_others: bool, waits: Waits<'a>) -> Pauses<'a> {
        Pauses {
            idle: IdleTurns::new(IDLE_TURNS, spin),
            backoff: Backoff::new(),
            is_idle: false,
            is_timed: spin.is_some(),
            has_others,
            waits,
            retries: Retries::default(),
            ticks: Ticks::new(),
        }
    }

    /// Something came: the next idle turn is the first of a row.
    pub(crate) fn reset(&mut self, parking: Option<&ParkingWord>) {
        if !self.is_idle {
            return;
        }
        self.is_idle = false;
        if let Some(parking) = parking {
            self.idle.reset(parking);
        }
        self.backoff.reset();
        self.ticks.end_idle_turns();
    }

    /// One idle turn, in which answers are waited for or not.
    pub(crate) fn turn<R: Wait + Clock>(
        &mut self,
        rt: &R,
        for_answers: bool,
        parking: Option<&ParkingWord>,
    ) {
        self.is_idle = true;
        match parking {
            Some(parking) if for_answers => {
                if self.is_timed || self.idle.parks_next() {
                    self.waits.begin(rt);
                }
                self.idle.turn(rt, parking);
                self.waits.end(rt);
            }
            _ => {
                self.ticks.count_idle_turn();
                self.backoff.snooze();
            }
        }
    }
}
