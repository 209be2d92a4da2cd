//! The sockets: what accepts streams, and each stream as it is new, served and ended. A raw stream
//! stands in this file and in that of the served ones alone: nothing else can read from it or write
//! to it.

ghost use Rattle.std.specs.Prelude.{◌≡◌, [], ◌∷◌, ◌++◌, OnErr, IfOk, IfSome};
ghost use Rattle.net.specs.Sockets.{socket_of, IsNewLog};

mod logged_stream;
mod raw;

use crate::probes::{PROBE_BYTES, is_probe};
use exchange::ExchangeName;
use logged_stream::LoggedStream;
pub(crate) use logged_stream::ServedStream;
use mio::{Poll, Token};
use proto::{Noted, Trace};
pub(crate) use raw::RawListener;
use raw::RawStream;
use std::alloc::{AllocError, Global};
use std::io::{self, ErrorKind, Read, Write};
use std::snapshot::Snapshot;

/// What a client is told that no worker can take.
const TOO_MANY: &[u8] = b"ERROR Too many open connections\r\n";

/// How many bytes of such a client are dropped at once, and how often.
const DROPPED_BYTES: usize = 4096;

const DROPS: usize = 16;

/// The most sockets of a listener.
const MAX_LISTENERS: usize = 8;

/// The sockets that accept streams. For clauses alone it knows which they accepted.
#[derive(Drop)]
pub(crate) struct Acceptor {
    listeners: Vec<RawListener>,
    /// The one that is asked first for the next stream.
    turn: usize,
    pub(crate) accepted: Trace<i32>,
}

/// The socket of a stream that was accepted, or that a session was opened with, for clauses alone.
#[derive(Clone, Copy)]
pub(crate) struct SocketNote<'a> {
    pub(crate) stream: &'a Snapshot<NewStream>,
}

impl Noted<i32> for SocketNote<'_> {
    ghost noted = { λ note. socket_of note.stream.now.value ∷ [] };
}

impl Acceptor {
    /// No socket yet.
    pub(crate) fn new(alloc: Global) -> Result<Acceptor, AllocError>
        ensures { IfOk result (λ acceptor. acceptor.accepted.items ≡ []) }
    {
        Ok(Acceptor {
            listeners: Vec::with_capacity(alloc, MAX_LISTENERS)?,
            turn: 0,
            accepted: Trace::new(),
        })
    }

    /// Adds a socket, and has the poll return when a stream waits there.
    pub(crate) fn add(&mut self, poll: &Poll, mut listener: RawListener) -> io::Result<()>
        ensures { self.new.accepted.items ≡ self.old.accepted.items }
    {
        listener.watch(poll)?;
        self.listeners
            .push(listener)
            .map_err(|_| io::Error::from(ErrorKind::OutOfMemory))
    }

    /// The port of the first socket of TCP, 0 if there is none.
    pub(crate) fn port(&self) -> u16 {
        let mut ports = self.listeners.iter().filter_map(|listener| listener.port());
        ports.next().unwrap_or(0)
    }

    /// The next stream that waits; `WouldBlock` if none does.
    pub(crate) fn accept(&mut self) -> io::Result<NewStream>
        ensures ok { IfOk result
            (λ stream. self.new.accepted.items ≡ self.old.accepted.items ++ socket_of stream ∷ []) }
        ensures err { OnErr result (self.new.accepted.items ≡ self.old.accepted.items) }
    {
        let stream = accept_in_turn(self.listeners.as_slice(), &mut self.turn)?;
        let stream = NewStream { stream };
        let accepted = Snapshot::of(&stream);
        self.accepted.note_as(&SocketNote { stream: &accepted });
        Ok(stream)
    }
}

/// The next stream that waits at one of the sockets, asked in turn; `WouldBlock` if none does.
fn accept_in_turn(listeners: &[RawListener], turn: &mut usize) -> io::Result<RawStream> {
    for _ in 0..listeners.len() {
        if *turn >= listeners.len() {
            *turn = 0;
        }
        let Some(listener) = listeners.get(*turn) else {
            break;
        };
        *turn += 1;
        match listener.accept() {
            Err(error) if error.kind() == ErrorKind::WouldBlock => {}
            done => return done,
        }
    }
    Err(io::Error::from(ErrorKind::WouldBlock))
}

/// An accepted stream that nobody serves yet. It can be handed on, served or closed.
#[derive(Drop)]
pub(crate) struct NewStream {
    stream: RawStream,
}

impl NewStream {
    /// Has the poll tell of the stream under the session's number from now on, for a worker of this
    /// exchange. None if the system refuses; the stream is closed then.
    pub(crate) fn serve(
        self,
        poll: &Poll,
        session: u64,
        exchange: &ExchangeName,
    ) -> Option<ServedStream>
        ensures { IfSome result (IsNewLog (socket_of self) exchange.now) }
    {
        let mut stream = self.stream;
        stream.watch(poll, Token(session as usize)).ok()?;
        Some(LoggedStream::new(stream, exchange))
    }

    /// Whether a probe's request is what came first. It is left to be read.
    pub(crate) fn has_probe(&self) -> bool {
        let mut first = [0u8; PROBE_BYTES];
        match self.stream.peek(&mut first) {
            Ok(count) => is_probe(&first[..count]),
            Err(_) => false,
        }
    }

    /// Says that there are too many, and closes the stream. What came is dropped first: the system
    /// resets a stream that is closed with unread input, and the line might be lost.
    pub(crate) fn refuse(mut self) {
        let _ = self.stream.write(TOO_MANY);
        let _ = self.stream.end_sending();
        let mut dropped = [0u8; DROPPED_BYTES];
        for _ in 0..DROPS {
            if !matches!(self.stream.read(&mut dropped), Ok(DROPPED_BYTES)) {
                return;
            }
        }
    }
}

/// A stream whose sending half is ended. Its input can only be discarded.
#[derive(Drop)]
pub(crate) struct EndedStream {
    stream: RawStream,
}

impl EndedStream {
    /// Ends the sending half. None if all of the stream's input was read, or if the system refuses;
    /// it is closed then.
    pub(crate) fn of(served: ServedStream) -> Option<EndedStream> {
        if served.has_ended {
            return None;
        }
        let stream = served.into_stream();
        stream.end_sending().ok()?;
        Some(EndedStream { stream })
    }

    /// Drops what came. It says how many bytes that were: 0 once the peer has ended the other half.
    pub(crate) fn drain(&mut self, scratch: &mut [u8]) -> io::Result<usize> {
        self.stream.read(scratch)
    }
}
