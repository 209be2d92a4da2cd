//! When output is offered again that clients didn't take, and what passes while sessions wait for
//! memory.

use session_book::Tick;
use std::time::{Clock, Duration, Instant};

/// The most sessions that are offered their output again in a turn, at a port that doesn't tell of
/// room.
const RETRIES_A_TURN: usize = 2;

/// The same at a port that tells of room, once it has told.
const RETRIES_WITH_ROOM: usize = 16;

/// Which of the sessions whose clients took nothing are still to be offered their output again. A
/// port that tells of room is offered it only once it has told of some.
#[derive(Clone, Copy, Default)]
pub(crate) struct Retries {
    /// How often the port had told of room when the sessions were counted.
    rooms: Option<u64>,
    /// How many of them are left.
    left: usize,
}

impl Retries {
    /// The most sessions that are to be offered their output in this turn, if so many wait.
    pub(crate) fn most(&mut self, rooms: Option<u64>, waiting: usize) -> usize {
        if rooms.is_none() {
            return waiting.min(RETRIES_A_TURN);
        }
        if self.rooms != rooms {
            self.rooms = rooms;
            self.left = waiting;
        }
        self.left.min(RETRIES_WITH_ROOM)
    }

    /// So many of them were offered it.
    pub(crate) fn offered(&mut self, count: usize) {
        self.left = self.left.saturating_sub(count);
    }

    /// Whether no output need be offered before the port tells of room.
    pub(crate) fn are_done(&self, rooms: Option<u64>) -> bool {
        rooms.is_some() && self.rooms == rooms && self.left == 0
    }
}

/// The microseconds of a sixteenth of a second.
const SIXTEENTH: u64 = 62_500;

/// The turns in a row in which nothing came that are a tick too: the port was polled in them.
const IDLE_TURNS_A_TICK: u32 = 8;

/// What passes while sessions wait for memory.
#[derive(Clone, Copy)]
pub(crate) struct Ticks {
    /// When the second began that runs, and its sixteenth; none if no session waits, or the clock
    /// couldn't be read.
    since: Option<(Instant, Instant)>,
    /// The turns in a row in which nothing came.
    idle_turns: u32,
    /// What passed last.
    pub(crate) last: Tick,
}

impl Ticks {
    pub(crate) fn new() -> Ticks {
        Ticks {
            since: None,
            idle_turns: 0,
            last: Tick::Idle,
        }
    }

    /// No session waits.
    pub(crate) fn stop(&mut self) {
        self.since = None;
        self.idle_turns = 0;
    }

    /// Nothing came in this turn.
    pub(crate) fn count_idle_turn(&mut self) {
        self.idle_turns = self.idle_turns.saturating_add(1);
    }

    /// Something came in this turn.
    pub(crate) fn end_idle_turns(&mut self) {
        self.idle_turns = 0;
    }

    /// Whether another tick has passed while a session waited for memory. The clock is read only
    /// while one does.
    pub(crate) fn has_passed<R: Clock>(&mut self, rt: &R, is_waiting: bool) -> bool {
        if !is_waiting {
            self.stop();
            return false;
        }
        if self.idle_turns >= IDLE_TURNS_A_TICK {
            self.idle_turns = 0;
            self.last = Tick::Idle;
            return true;
        }
        let Ok(now) = Instant::now(rt) else {
            return false;
        };
        let (second, sixteenth) = *self.since.get_or_insert((now, now));
        if now.duration_since(second) >= Duration::from_secs(1) {
            self.since = Some((now, now));
            self.last = Tick::Second;
            return true;
        }
        if now.duration_since(sixteenth) < Duration::from_micros(SIXTEENTH) {
            return false;
        }
        self.since = Some((second, now));
        self.last = Tick::Sixteenth;
        true
    }
}
