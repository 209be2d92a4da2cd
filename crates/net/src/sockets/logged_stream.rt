//! A stream that knows, for clauses alone, which bytes were read from it, which of these were told,
//! and which it took. Its calls are proved for any stream inside, so they can't alter, drop or
//! double a byte of it; no clause says what a socket delivers.

ghost use Rattle.std.specs.Prelude.{◌≡◌, ◌≤◌, ◌<◌, ◌++◌, ◌∷◌, [], false, not, ◌==◌, length, take};
ghost use Rattle.std.specs.Prelude.{IfOk, IfSome, OnErr, MatchResult};
ghost use Rattle.std.specs.Prelude.{ℕ, List};
ghost use Rattle.proto.specs.declared.message.Message.{Message};
ghost use Rattle.proto.specs.Reading.{Reads, asks};
ghost use Rattle.exchange.specs.Beginnings.{StartsWith};
ghost use Rattle.worker_port.specs.Giving.{MayBeSent, by_system_clock, sent_for};
ghost use Rattle.std.specs.Io.KnownBytes.{ReadConsumes, WriteAppends, Consumes, Keeps, IsAtEnd};

use super::raw::RawStream;
use crate::peer::Peer;
use crate::read_memory::ReadMemory;
use crate::streams::Owner;
use bytes::{Bytes, BytesMut};
use exchange::{ExchangeName, WorkerLane};
use proto::{Noted, Trace};
use std::io::{self, Read, Write};
use std::snapshot::Snapshot;
use worker_port::{MAX_PIECE, ToldHistory};

/// A session's stream.
pub(crate) type ServedStream = LoggedStream<RawStream>;

/// Stands for a stream as it was at first.
#[derive(Drop)]
struct Origin<'a, S> {
    stream: &'a S,
}

impl<S> Noted<S> for Origin<'_, S> {
    ghost use Rattle.std.specs.Prelude.{[], ◌∷◌};

    ghost noted = { λ note. note.stream.now ∷ [] };
}

/// A stream.
#[derive(Drop)]
pub(crate) struct LoggedStream<S: Drop> {
    stream: S,
    /// The stream as it was at first, for clauses alone: it tells which socket it is.
    pub(crate) origin: Trace<S>,
    /// The exchange whose worker it is served for, for clauses alone.
    pub(crate) exchange: Snapshot<ExchangeName>,
    /// What was read, for clauses alone.
    pub(crate) came: Trace<u8>,
    /// What of it was told, for clauses alone.
    pub(crate) received: Trace<u8>,
    /// The rest, which is told next.
    ahead: Bytes,
    pub(crate) sent: Trace<u8>,
    /// A read of no bytes came: no more come.
    pub(crate) has_ended: bool,
    ghost joined: { came.items ≡ received.items ++ ahead },
}

impl LoggedStream<RawStream> {
    /// Who has the other end.
    pub(crate) fn peer(&self) -> Peer {
        self.stream.peer()
    }
}

impl<S: Read + Write + Drop> LoggedStream<S> {
    /// A stream for a worker of this exchange. It stays of this exchange.
    pub(super) fn new(stream: S, exchange: &ExchangeName) -> LoggedStream<S>
        ensures origin { result.origin.items ≡ stream ∷ [] }
        ensures exchange { result.exchange.value ≡ exchange.now }
        ensures came { result.came.items ≡ [] }
        ensures received { result.received.items ≡ [] }
        ensures sent { result.sent.items ≡ [] }
        ensures goes_on { result.has_ended ≡ false }
    {
        let mut origin = Trace::new();
        origin.note_as(&Origin { stream: &stream });
        LoggedStream {
            stream,
            origin,
            exchange: Snapshot::of(exchange),
            came: Trace::new(),
            received: Trace::new(),
            ahead: Bytes::new(),
            sent: Trace::new(),
            has_ended: false,
        }
    }

    pub(super) fn into_stream(self) -> S {
        self.stream
    }

    /// Whether something was read that isn't told yet.
    pub(crate) fn has_ahead(&self) -> bool
        ensures { result ≡ not (length self.now.ahead == 0) }
    {
        !self.ahead.is_empty()
    }

    /// What was read stands first in the buffer, and is told. A read of no bytes is the end of the
    /// input. While it reads, what its worker, one of the stream's exchange, has sent for this
    /// session are the first of the requests that the bytes spell which were read before.
    pub(crate) fn read(
        &mut self,
        _owner: Owner,
        _session: u64,
        _sender: &WorkerLane,
        buf: &mut [u8],
    ) -> io::Result<usize>
        requires whose { (_sender.now.end.worker ≡ _owner.worker)
            × (_sender.now.end.exchange ≡ self.old.exchange.value) }
        requires asked { (messages : List Message) (rest : List ℕ)
            → Reads _owner.dialect self.old.received.items messages rest
            → StartsWith (asks messages) (sent_for _sender.now.end.sent _session) }
        requires goes_on { self.old.has_ended ≡ false }
        requires none_ahead { self.old.ahead ≡ [] }
        requires room { 0 < length buf.old }
        ensures within { IfOk result (λ n. n ≤ length buf.new) }
        ensures came { IfOk result (λ n. self.new.came.items ≡ self.old.came.items ++ take n buf.new) }
        ensures received { IfOk result (λ n. self.new.received.items ≡ self.old.received.items ++ take n buf.new) }
        ensures ended { IfOk result (λ n. self.new.has_ended ≡ (n == 0)) }
        ensures failed { OnErr result (self.new.received.items ≡ self.old.received.items) }
        ensures failed_came { OnErr result (self.new.came.items ≡ self.old.came.items) }
        ensures failed_on { OnErr result (self.new.has_ended ≡ false) }
        ensures ahead { self.new.ahead ≡ self.old.ahead }
        ensures sent { self.new.sent.items ≡ self.old.sent.items }
        ensures origin { self.new.origin.items ≡ self.old.origin.items }
        ensures exchange { self.new.exchange.value ≡ self.old.exchange.value }
        ensures given { ReadConsumes (S.remaining self.old.stream) (S.remaining self.new.stream) result buf.new }
    {
        let answer = self.stream.read(buf);
        if let Ok(count) = answer {
            self.came.note(&buf[..count]);
            self.received.note(&buf[..count]);
            self.has_ended = count == 0;
        }
        answer
    }

    /// Reads into a block of memory, of which the bytes that came become what is ahead. It says how
    /// many they are, as `read` does, or None if out of memory: they are lost then.
    pub(crate) fn read_ahead(
        &mut self,
        _owner: Owner,
        _session: u64,
        _sender: &WorkerLane,
        mut block: BytesMut,
        memory: &mut ReadMemory,
    ) -> io::Result<Option<usize>>
        requires whose { (_sender.now.end.worker ≡ _owner.worker)
            × (_sender.now.end.exchange ≡ self.old.exchange.value) }
        requires asked { (messages : List Message) (rest : List ℕ)
            → Reads _owner.dialect self.old.received.items messages rest
            → StartsWith (asks messages) (sent_for _sender.now.end.sent _session) }
        requires goes_on { self.old.has_ended ≡ false }
        requires none_ahead { self.old.ahead ≡ [] }
        requires room { (block.items ≡ []) × (0 < block.spare) }
        ensures count { IfOk result (λ came. IfSome came (λ n. n ≡ length self.new.ahead)) }
        ensures came { IfOk result (λ came. IfSome came
            (λ n. self.new.came.items ≡ self.old.came.items ++ self.new.ahead)) }
        ensures ended { IfOk result (λ came. IfSome came (λ n. self.new.has_ended ≡ (n == 0))) }
        ensures failed { OnErr result ((self.new.came.items ≡ self.old.came.items) × (self.new.has_ended ≡ false)) }
        ensures failed_ahead { OnErr result (self.new.ahead ≡ self.old.ahead) }
        ensures lost { result ≡ Ok None → self.new.ahead ≡ self.old.ahead }
        ensures received { self.new.received.items ≡ self.old.received.items }
        ensures sent { self.new.sent.items ≡ self.old.sent.items }
        ensures origin { self.new.origin.items ≡ self.old.origin.items }
        ensures exchange { self.new.exchange.value ≡ self.old.exchange.value }
        ensures given { MatchResult result
            (λ came. IfSome came
            (λ n. Consumes (S.remaining self.old.stream) (S.remaining self.new.stream)
            self.new.ahead
            × (n ≡ 0 → IsAtEnd (S.remaining self.new.stream))))
            (λ _. Keeps (S.remaining self.old.stream) (S.remaining self.new.stream)) }
    {
        let answer = block.read_from(&mut self.stream);
        let shared = memory.share(block);
        let count = answer?;
        let Some(read) = shared else {
            return Ok(None);
        };
        self.came.note(read.as_slice());
        self.ahead = read;
        self.has_ended = count == 0;
        Ok(Some(count))
    }

    /// Takes the first of what is ahead, which is told. None if out of memory.
    pub(crate) fn next_piece(&mut self) -> Option<Bytes>
        requires { 0 < length self.old.ahead }
        ensures within { IfSome result (λ piece. (0 < length piece) × (length piece ≤ 16384)) }
        ensures first { IfSome result (λ piece. self.old.ahead ≡ piece ++ self.new.ahead) }
        ensures received { IfSome result (λ piece. self.new.received.items ≡ self.old.received.items ++ piece) }
        ensures came { self.new.came.items ≡ self.old.came.items }
        ensures sent { self.new.sent.items ≡ self.old.sent.items }
        ensures input { self.new.has_ended ≡ self.old.has_ended }
        ensures origin { self.new.origin.items ≡ self.old.origin.items }
        ensures exchange { self.new.exchange.value ≡ self.old.exchange.value }
    {
        let count = self.ahead.len().min(MAX_PIECE);
        let piece = self.ahead.split_to(count).ok()?;
        self.received.note(piece.as_slice());
        Some(piece)
    }

    /// It took the first of the bytes. In the history that its worker was told of, which is one of
    /// the stream's exchange, they are due to this session by what was read from it and what it
    /// took before.
    pub(crate) fn write(
        &mut self,
        _owner: Owner,
        _session: u64,
        bytes: &[u8],
        _history: &ToldHistory,
    ) -> io::Result<usize>
        requires exchange { _history.now.exchange ≡ self.old.exchange.value }
        requires due { MayBeSent (by_system_clock _owner.geometry) _owner.dialect _owner.worker
            _history.now.items _session
            self.old.received.items self.old.sent.items bytes.now }
        ensures within { IfOk result (λ n. n ≤ length bytes.now) }
        ensures sent { IfOk result (λ n. self.new.sent.items ≡ self.old.sent.items ++ take n bytes.now) }
        ensures failed { OnErr result (self.new.sent.items ≡ self.old.sent.items) }
        ensures received { self.new.received.items ≡ self.old.received.items }
        ensures came { self.new.came.items ≡ self.old.came.items }
        ensures input { self.new.has_ended ≡ self.old.has_ended }
        ensures origin { self.new.origin.items ≡ self.old.origin.items }
        ensures exchange { self.new.exchange.value ≡ self.old.exchange.value }
        ensures took { WriteAppends (S.contents self.old.stream) (S.contents self.new.stream) result bytes.now }
    {
        let answer = self.stream.write(bytes);
        if let Ok(count) = answer {
            self.sent.note(&bytes[..count]);
        }
        answer
    }
}
