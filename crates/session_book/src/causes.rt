//! Why calls are refused, what becomes of an answer, and how sessions end.

use proto::NoMemory;
use std::alloc::AllocError;
use thiserror::Error;

/// Why a session isn't opened.
#[derive(Clone, Copy, Debug, PartialEq, Eq, Error)]
pub enum OpenFault {
    /// The number is 0 or not above every number opened before, or the limit of sessions was
    /// reached.
    #[error("the session's number isn't new, or the limit of sessions is reached")]
    Known,
    #[error("out of memory")]
    NoMemory,
}

/// What became of a piece of input that came.
#[derive(Clone, Copy, Debug, PartialEq, Eq)]
pub enum Received {
    /// It was appended to the unread bytes, or dropped because the session has ended.
    Fed,
    /// It doesn't fit, and is held until it does.
    Held,
    /// There was no memory for it, or one is held already.
    Refused,
    /// The session isn't open.
    Unknown,
}

/// Why a session's next message isn't read. It stays unread.
#[derive(Clone, Copy, Debug, PartialEq, Eq, Error)]
pub enum Unasked {
    #[error("out of memory")]
    NoMemory,
    /// It is a `get` whose answer is likely to be large: it waits for others, or for room.
    #[error("the request waits for the answers to others, or for room")]
    Waits,
}

impl From<AllocError> for Unasked {
    fn from(_: AllocError) -> Unasked {
        Unasked::NoMemory
    }
}

impl From<NoMemory> for Unasked {
    fn from(_: NoMemory) -> Unasked {
        Unasked::NoMemory
    }
}

/// What became of an answer.
#[derive(Clone, Copy, Debug, PartialEq, Eq)]
pub enum Settled {
    /// Its bytes stand after the output of its session.
    Kept,
    /// Its session was closed.
    Dropped,
    /// There was no memory for it; its session is closed.
    Starved,
    /// It isn't the answer to the oldest unsettled request.
    Stranger,
}

/// How a session ended.
#[derive(Clone, Copy, Debug, PartialEq, Eq)]
pub enum EndCause {
    /// It was open still when the port ended, and all was answered.
    Drained,
    /// Its input ended and all was answered.
    EndOfInput,
    Quit,
    /// A fatal message was read.
    Fatal,
    /// The port told that the peer has gone. A socket's port tells it too of a session that it
    /// ended as idle.
    Gone,
    /// There was no memory for its input or its answer.
    NoMemory,
    /// Its client stopped for some seconds while others waited for the memory that it held: it took
    /// no output, or sent no more of a large message. Only lenient sessions end so.
    Stalled,
}

/// A request that was given with this number and has no reply yet.
#[derive(Clone, Copy, PartialEq, Eq)]
pub struct Unsettled {
    pub number: u64,
    pub session: u64,
}
