//! Streams that were shut, and are read a little longer. A stream that is closed while input waits
//! unread is reset, and its peer may lose the last answer; so its sending half is ended first, and
//! what still comes is dropped.

use crate::interval::{Interval, have_passed};
use crate::sockets::EndedStream;
use std::alloc::{AllocError, Global};
use std::collections::VecDeque;
use std::io::ErrorKind;
use std::time::{Clock, Instant};

/// The most such streams of a port; of more the oldest is closed.
const MOST_LINGERING: usize = 256;

/// How long a stream is read, in milliseconds, and how many bytes of it at most.
const LINGER_MILLIS: u64 = 2000;

const LINGER_BYTES: usize = 16 * 1024 * 1024;

/// The most reads of all of them at a time, if they are no more.
const READS: usize = 64;

/// The time between two reads of a stream, in milliseconds. A peer that sends on waits as long, and
/// leaves the processors to others.
const DRAIN_MILLIS: u64 = 4;

#[derive(Drop)]
pub(crate) struct LingeringStream {
    stream: EndedStream,
    since: Instant,
    /// How many more bytes are read at most.
    left: usize,
}

/// Whether more of a stream may come.
#[derive(Clone, Copy)]
enum Drained {
    /// The peer has ended it, or it has had its share.
    Done,
    Empty,
    More,
}

impl LingeringStream {
    fn drain(&mut self, scratch: &mut [u8], reads: usize) -> Drained {
        for _ in 0..reads {
            match self.stream.drain(scratch) {
                Ok(0) => return Drained::Done,
                Ok(count) => self.left = self.left.saturating_sub(count),
                Err(error) if error.kind() == ErrorKind::WouldBlock => return Drained::Empty,
                Err(_) => return Drained::Done,
            }
            if self.left == 0 {
                return Drained::Done;
            }
        }
        Drained::More
    }
}

/// Such streams in the order in which they were shut.
#[derive(Drop)]
pub(crate) struct LingeringStreams {
    pub(crate) streams: VecDeque<LingeringStream>,
    /// Something may have come of one.
    pub(crate) is_ready: bool,
    reading: Interval,
}

impl LingeringStreams {
    pub(crate) fn new(alloc: Global) -> Result<LingeringStreams, AllocError> {
        Ok(LingeringStreams {
            streams: VecDeque::with_capacity(alloc, MOST_LINGERING)?,
            is_ready: false,
            reading: Interval::of_millis(DRAIN_MILLIS),
        })
    }

    /// If the clock can't be read, the stream is closed.
    pub(crate) fn add<R: Clock>(&mut self, rt: &R, stream: EndedStream) {
        let Ok(since) = Instant::now(rt) else {
            return;
        };
        if self.streams.len() >= MOST_LINGERING {
            let _ = self.streams.pop_front();
        }
        let _ = self.streams.push_back(LingeringStream {
            stream,
            since,
            left: LINGER_BYTES,
        });
        self.is_ready = true;
    }

    /// If it is time, drops some of what came, as much of one stream as of another, and closes
    /// those that have ended or expired.
    pub(crate) fn drain<R: Clock>(&mut self, rt: &R, scratch: &mut [u8]) {
        if !self.reading.take(rt) {
            return;
        }
        let was_ready = self.is_ready;
        self.is_ready = false;
        let reads_each = (READS / self.streams.len().max(1)).max(1);
        for _ in 0..self.streams.len() {
            let Some(mut lingering) = self.streams.pop_front() else {
                return;
            };
            if was_ready {
                match lingering.drain(scratch, reads_each) {
                    Drained::Done => continue,
                    Drained::More => self.is_ready = true,
                    Drained::Empty => {}
                }
            }
            if !have_passed(rt, lingering.since, LINGER_MILLIS) {
                let _ = self.streams.push_back(lingering);
            }
        }
    }
}
