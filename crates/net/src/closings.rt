//! What connections were closed for, on its way to an operator. Of each reason a port keeps the
//! first one until the listener takes it, and counts those after it.

use crate::peer::Peer;
use crossbeam_queue::ArrayQueue;
use proto::FatalKind;
use std::alloc::{AllocError, Global};
use std::sync::Wait;
use std::sync::atomic::{AtomicU64, Ordering};
use worker_port::CloseReason;

/// How many reasons there are.
pub(crate) const REASONS: usize = 8;

/// The most bytes of a line that are shown.
const SHOWN: usize = 64;

/// A connection that is closed.
#[derive(Drop)]
pub struct Closing {
    pub peer: Peer,
    pub reason: CloseReason,
    line: [u8; SHOWN],
    length: usize,
}

impl Closing {
    /// With the first bytes of the line that it is closed for, or of none.
    pub(crate) fn new(peer: Peer, reason: CloseReason, line: &[u8]) -> Closing {
        let mut shown = [0u8; SHOWN];
        for (to, from) in shown.iter_mut().zip(line) {
            *to = *from;
        }
        Closing {
            peer,
            reason,
            line: shown,
            length: line.len().min(SHOWN),
        }
    }

    /// At most 64 bytes of the line that it is closed for; none if it is closed for another reason.
    pub fn line(&self) -> &[u8] {
        self.line.split_at(self.length.min(SHOWN)).0
    }
}

/// The reason's number, below `REASONS`.
fn number_of(reason: CloseReason) -> usize {
    match reason {
        CloseReason::Sent(FatalKind::BadLine) => 0,
        CloseReason::Sent(FatalKind::LongLine) => 1,
        CloseReason::Sent(FatalKind::BadChunk) => 2,
        CloseReason::Sent(FatalKind::TooLarge) => 3,
        CloseReason::Sent(FatalKind::Binary) => 4,
        CloseReason::Idle => 5,
        CloseReason::Memory => 6,
        CloseReason::Stalled => 7,
    }
}

/// The closings of one reason.
#[derive(Drop)]
struct Slot {
    first: ArrayQueue<Closing>,
    /// How many came while that was there.
    more: AtomicU64,
}

/// Closings that nobody took yet.
#[derive(Drop)]
pub(crate) struct Closings {
    slots: Vec<Slot>,
}

impl Closings {
    pub(crate) fn new(alloc: Global) -> Result<Closings, AllocError> {
        let mut slots = Vec::with_capacity(alloc, REASONS)?;
        for _ in 0..REASONS {
            let first = ArrayQueue::new(alloc, 1)?;
            slots.push(Slot {
                first,
                more: AtomicU64::new(0),
            })?;
        }
        Ok(Closings { slots })
    }

    pub(crate) fn put<R: Wait>(&self, rt: &R, closing: Closing) {
        if let Some(slot) = self.slots.get(number_of(closing.reason)) {
            if slot.first.push(rt, closing).is_err() {
                slot.more.fetch_add(1, Ordering::Relaxed);
            }
        }
    }

    /// Takes the first closing of a reason, and how many came after it.
    pub(crate) fn take<R: Wait>(&self, rt: &R, reason: usize) -> Option<(Closing, u64)> {
        let slot = self.slots.get(reason)?;
        let more = slot.more.swap(0, Ordering::Relaxed);
        let first = slot.first.pop(rt)?;
        Some((first, more))
    }
}
