//! The room for large messages, which is reserved before they come.

use std::mem;

/// The bytes of large messages for which there is room, over all sessions. A session whose message
/// would exceed them isn't read on.
const INPUT_BUDGET: usize = 67_108_864;

/// The bytes of large messages that come at once if it is more than one of them, as long as their
/// clients send fast: so they stand in the processor's cache until they are whole, and others wait
/// for few of their pieces.
const INPUT_AT_ONCE: usize = 1_048_576;

/// The room of a large message, and how often room had aged when it was reserved.
#[derive(Clone, Copy, Default)]
pub(crate) struct Room {
    bytes: usize,
    age: u64,
}

impl Room {
    pub(crate) fn is_reserved(&self) -> bool {
        self.bytes > 0
    }
}

/// The room that is reserved for large messages, over all sessions. What was reserved before room
/// aged twice is of clients that send slowly or have stopped. As much as that may come at once
/// beside them, so soon all have room that one budget has.
#[derive(Clone, Copy, Default)]
pub(crate) struct Rooms {
    new: usize,
    /// What was reserved before room aged last.
    aged: usize,
    slow: usize,
    /// How often room has aged.
    age: u64,
}

impl Rooms {
    /// What comes fast, as far as is known.
    fn coming(&self) -> usize {
        self.new.saturating_add(self.aged)
    }

    /// Whether there may be room for a message of so many bytes before another one has come.
    pub(crate) fn has_budget_for(&self, n: usize) -> bool {
        let reserved = self.coming().saturating_add(self.slow);
        reserved.saturating_add(n) <= INPUT_BUDGET
    }

    /// Reserves room for a message of so many bytes. None if there is none now.
    pub(crate) fn reserve(&mut self, n: usize) -> Option<Room> {
        if !self.has_room_for(n) {
            return None;
        }
        self.new = self.new.saturating_add(n);
        Some(Room {
            bytes: n,
            age: self.age,
        })
    }

    /// Whether so many bytes more may come now.
    fn has_room_for(&self, n: usize) -> bool {
        let coming = self.coming();
        let most = INPUT_AT_ONCE.max(self.slow);
        self.has_budget_for(n) && (coming == 0 || coming.saturating_add(n) <= most)
    }

    /// All room ages.
    pub(crate) fn grow_old(&mut self) {
        self.slow = self.slow.saturating_add(self.aged);
        self.aged = mem::take(&mut self.new);
        self.age = self.age.saturating_add(1);
    }

    /// The message of this room has come, or doesn't any more.
    pub(crate) fn release(&mut self, room: Room) {
        match self.age.saturating_sub(room.age) {
            0 => self.new = self.new.saturating_sub(room.bytes),
            1 => self.aged = self.aged.saturating_sub(room.bytes),
            _ => self.slow = self.slow.saturating_sub(room.bytes),
        }
    }
}
