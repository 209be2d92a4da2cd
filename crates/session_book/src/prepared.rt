//! The memory of a very large answer, which is taken before its `get` is asked.

use crate::book::MAX_HIT;
use proto::Dialect;
use std::alloc::Global;
use std::mem;

/// The bytes above which an answer is very large.
const VERY_LARGE: usize = 16_777_216;

/// The bytes that are taken in a turn.
const A_STEP: usize = 2_097_152;

/// The most bytes that are taken: the hits of a strict line's 1,021 keys need no more.
const MOST_PREPARED: usize = 134_217_728;

/// The part of an answer by which the room for its hits exceeds it at most. (For each hit 80 bytes
/// are reserved beside its key and its value, and of a very large answer each has 16,384 or more.)
const MORE_ROOM: usize = 64;

/// The memory for the hits of a very large answer. The system gives memory when it is first
/// written, and takes several times as long for it as storage to copy the hits, in which storage
/// serves no other request. So the memory is written before the `get` is asked, in steps, and
/// others are served between them. No clause speaks of it.
#[derive(Drop)]
pub(crate) struct PreparedMemory {
    /// What was written of it, all zeros.
    bytes: Vec<u8>,
    /// The most bytes that may be taken. None are leniently, since no answer is very large.
    most: usize,
    /// There was no memory for more.
    is_refused: bool,
    /// The session for whose `get` it was taken.
    session: u64,
}

impl PreparedMemory {
    pub(crate) fn new(alloc: Global, dialect: Dialect) -> PreparedMemory {
        PreparedMemory {
            bytes: Vec::new(alloc),
            most: if dialect.is_lenient() {
                0
            } else {
                MOST_PREPARED
            },
            is_refused: false,
            session: 0,
        }
    }

    /// How much memory is to be taken before a `get` for so many keys is asked, whose answer is
    /// likely to take so many bytes; none unless it is very large.
    pub(crate) fn needed(&self, keys: usize, likely: usize) -> usize {
        let most = keys.saturating_mul(MAX_HIT).min(self.most);
        if likely.min(most) <= VERY_LARGE {
            return 0;
        }
        likely.saturating_add(likely / MORE_ROOM).min(most)
    }

    /// Whether so much was taken, or all that there is.
    pub(crate) fn is_enough(&self, needed: usize) -> bool {
        self.bytes.len() >= needed || self.is_refused
    }

    /// Takes more, until it is so much, for the `get` of a session.
    pub(crate) fn take_more(&mut self, session: u64, needed: usize) {
        self.session = session;
        let missing = needed.saturating_sub(self.bytes.len());
        let written = self.bytes.len().saturating_add(missing.min(A_STEP));
        self.is_refused = self.bytes.reserve_exact(missing).is_err()
            || self.bytes.resize(written, 0).is_err();
    }

    /// The session for whose `get` memory was taken, if some was.
    pub(crate) fn session(&self) -> Option<u64> {
        (self.bytes.capacity() > 0 || self.is_refused).then_some(self.session)
    }

    /// What was taken. None is left.
    pub(crate) fn give(&mut self) -> Vec<u8> {
        let none = Vec::new(*self.bytes.allocator());
        self.is_refused = false;
        mem::replace(&mut self.bytes, none)
    }
}
