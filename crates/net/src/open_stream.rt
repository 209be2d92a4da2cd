//! One open session's stream: what its input and its output are doing.

ghost use Rattle.std.specs.Prelude.{◌≡◌, ◌≤◌, ◌<◌, ◌++◌, ℕ, ℤ, List, [], true, false, length, take, IfOk};
ghost use Rattle.proto.specs.declared.message.Message.{Message};
ghost use Rattle.proto.specs.Reading.{Reads, asks};
ghost use Rattle.exchange.specs.Beginnings.{StartsWith};
ghost use Rattle.exchange.specs.Ends.{TableId};
ghost use Rattle.net.specs.Seen.{Seen, fresh, then_received, then_sent, then_paused};
ghost use Rattle.net.specs.Sockets.{IsNewLog};
ghost use Rattle.net.specs.Shown.{seen_of, Arrives, listing, Lists, ListsRead, IsTakenOff};
ghost use Rattle.worker_port.specs.Giving.{MayBeSent, by_system_clock, sent_for};

use crate::read_memory::{LARGE_READ, ReadMemory};
use crate::sockets::ServedStream;
use crate::streams::Owner;
use bytes::{Bytes, BytesMut};
use exchange::WorkerLane;
use mio::event::Event;
use std::alloc::Global;
use std::collections::VecDeque;
use std::io::ErrorKind;
use worker_port::{Gone, MAX_PIECE, ToldHistory};

/// A session that was idle at this many checks in a row, and at one more, is ended. They come at
/// sixteenths of the time that it may be idle. The first of them may be late by almost one, so that
/// the session was active until the second was due; from then on that time has passed, and an
/// eighth more since it was active. A process that stood still ends nobody whose input waits.
const IDLE_CHECKS: u64 = 17;

/// What the input of a stream is doing.
#[derive(Clone, Copy)]
pub(crate) enum Input {
    /// Nothing is known to be there: an event tells when something comes.
    Waiting,
    /// Something may be there: the stream stands in the list of those to read.
    Listed,
    /// Like `Listed`, but the stream is read until it is empty, because no further event may
    /// announce what is there.
    Draining,
    /// The worker wants no input. The stream may stand in the list still.
    Paused { is_listed: bool },
}

/// What the output of a stream is doing.
#[derive(Clone, Copy)]
enum Output {
    /// The last write was whole.
    Free,
    /// The last write was short, after this many checks for idle sessions, and no room was told
    /// since.
    Blocked(u64),
    /// The last write was short, and room was told since.
    Freed,
}

/// What an event told of a session's stream.
#[derive(Clone, Copy)]
pub(crate) struct Heard {
    pub(crate) session: u64,
    is_readable: bool,
    /// No more comes than what is there.
    has_closed: bool,
    /// The stream is writable. A failed stream counts as writable, so that the next write reports
    /// the failure.
    has_room: bool,
}

impl Heard {
    pub(crate) fn of(event: &Event) -> Heard {
        let has_failed = event.is_error();
        let has_closed = has_failed || event.is_read_closed();
        Heard {
            session: event.token().0 as u64,
            is_readable: has_closed || event.is_readable(),
            has_closed,
            has_room: has_failed || event.is_writable(),
        }
    }
}

/// What a read brought.
pub(crate) enum Reading {
    Bytes(Bytes),
    Nothing,
    /// The peer sends no more, and may still read.
    Ended,
    Gone,
}

/// One open stream.
#[derive(Drop)]
pub(crate) struct OpenStream {
    pub(crate) stream: ServedStream,
    pub(crate) input: Input,
    /// The last read brought a whole piece, so that the next one may bring several.
    reads_much: bool,
    /// It was paused once, so it may be again: only behind a read that was whole does one bring
    /// several pieces, so that little is ahead of a stream that is paused.
    was_paused: bool,
    /// Something was heard of since what is ahead was read.
    has_more: bool,
    output: Output,
    /// How many checks for idle sessions came before its last activity: it sent something, or took
    /// some of what it is owed.
    active: u64,
}

impl OpenStream {
    /// The stream of a session that was just opened, after this many checks for idle sessions.
    pub(crate) fn new(stream: ServedStream, checks: u64) -> OpenStream
        ensures { (socket : ℤ) (exchange : TableId) → IsNewLog socket exchange stream
            → seen_of result ≡ fresh socket exchange }
    {
        OpenStream {
            stream,
            input: Input::Waiting,
            reads_much: false,
            was_paused: false,
            has_more: false,
            output: Output::Free,
            active: checks,
        }
    }

    /// Takes note of what was heard of the stream, after this many checks for idle sessions, and
    /// lists it if something may be there to read. True if it has room that it had not.
    pub(crate) fn hear(&mut self, heard: Heard, checks: u64, ready: &mut VecDeque<u64>) -> bool
        ensures seen { seen_of self.new ≡ seen_of self.old }
        ensures listed { Lists heard.session self.old self.new ready.old.items ready.new.items }
    {
        if heard.is_readable && !self.stream.has_ended {
            self.has_more = true;
            match self.input {
                Input::Waiting => self.list(heard.session, heard.has_closed, ready),
                Input::Listed if heard.has_closed => self.input = Input::Draining,
                _ => {}
            }
        }
        let is_freed = heard.has_room && matches!(self.output, Output::Blocked(_));
        if is_freed {
            self.output = Output::Freed;
            self.active = checks;
        }
        is_freed
    }

    /// Puts the stream behind those that are to be read, until nothing is there if it drains.
    /// Without memory it waits for another event.
    fn list(&mut self, session: u64, drains: bool, ready: &mut VecDeque<u64>)
        ensures seen { seen_of self.new ≡ then_paused false (seen_of self.old) }
        ensures ahead { self.new.stream.ahead ≡ self.old.stream.ahead }
        ensures behind { ready.new.items ≡ ready.old.items ++ listing session self.new }
    {
        if ready.push_back(session).is_err() {
            self.input = Input::Waiting;
        } else if drains {
            self.input = Input::Draining;
        } else {
            self.input = Input::Listed;
        }
    }

    /// Puts the stream before those that are to be read, as something is ahead of it. Without
    /// memory it waits for another event.
    fn list_first(&mut self, session: u64, drains: bool, ready: &mut VecDeque<u64>)
        ensures seen { seen_of self.new ≡ then_paused false (seen_of self.old) }
        ensures ahead { self.new.stream.ahead ≡ self.old.stream.ahead }
        ensures before { ready.new.items ≡ listing session self.new ++ ready.old.items }
    {
        self.input = if ready.push_front(session).is_err() {
            Input::Waiting
        } else if drains {
            Input::Draining
        } else {
            Input::Listed
        };
    }

    /// Tells what is ahead, or reads once, if the stream is to be read, after this many checks for
    /// idle sessions. It was taken off the list, and goes behind the others if more may be there,
    /// but before them while something is ahead.
    pub(crate) fn read(
        &mut self,
        owner: Owner,
        session: u64,
        sender: &WorkerLane,
        alloc: Global,
        scratch: &mut [u8],
        memory: &mut ReadMemory,
        checks: u64,
        ready: &mut VecDeque<u64>,
    ) -> Reading
        requires room { length scratch.old ≡ 16384 }
        requires whose { (sender.now.end.worker ≡ owner.worker)
            × (sender.now.end.exchange ≡ (seen_of self.old).exchange) }
        requires asked { (messages : List Message) (rest : List ℕ)
            → Reads owner.dialect (seen_of self.old).received messages rest
            → StartsWith (asks messages) (sent_for sender.now.end.sent session) }
        ensures arrives { Arrives (seen_of self.old) result (seen_of self.new) }
        ensures listed { ListsRead session self.new ready.old.items ready.new.items }
    {
        let input = self.input;
        if let Input::Paused { .. } = input {
            self.input = Input::Paused { is_listed: false };
            return Reading::Nothing;
        }
        self.input = Input::Waiting;
        if matches!(input, Input::Waiting) || self.stream.has_ended {
            return Reading::Nothing;
        }
        let drains = matches!(input, Input::Draining);
        if self.stream.has_ahead() {
            return self.tell(session, drains, checks, ready);
        }
        let block = if self.reads_much { memory.take() } else { None };
        match block {
            Some(block) => self.read_ahead(
                owner, session, sender, block, memory, drains, checks, ready,
            ),
            None => self.read_piece(
                owner, session, sender, alloc, scratch, drains, checks, ready,
            ),
        }
    }

    /// Reads a piece, which is told.
    fn read_piece(
        &mut self,
        owner: Owner,
        session: u64,
        sender: &WorkerLane,
        alloc: Global,
        scratch: &mut [u8],
        drains: bool,
        checks: u64,
        ready: &mut VecDeque<u64>,
    ) -> Reading
        requires room { length scratch.old ≡ 16384 }
        requires whose { (sender.now.end.worker ≡ owner.worker)
            × (sender.now.end.exchange ≡ (seen_of self.old).exchange) }
        requires asked { (messages : List Message) (rest : List ℕ)
            → Reads owner.dialect (seen_of self.old).received messages rest
            → StartsWith (asks messages) (sent_for sender.now.end.sent session) }
        requires waits { IsTakenOff self.old }
        requires none_ahead { self.old.stream.ahead ≡ [] }
        ensures arrives { Arrives (seen_of self.old) result (seen_of self.new) }
        ensures listed { ListsRead session self.new ready.old.items ready.new.items }
    {
        match self.stream.read(owner, session, sender, scratch) {
            Ok(0) => Reading::Ended,
            Ok(count) => {
                self.reads_much = count == scratch.len();
                if drains || count == scratch.len() {
                    self.list(session, drains, ready);
                }
                if matches!(self.output, Output::Free) {
                    self.active = checks;
                }
                piece_of(alloc, &scratch[..count])
            }
            Err(error) => failed(error.kind()),
        }
    }

    /// Reads several pieces into memory of their own, and tells the first.
    fn read_ahead(
        &mut self,
        owner: Owner,
        session: u64,
        sender: &WorkerLane,
        block: BytesMut,
        memory: &mut ReadMemory,
        drains: bool,
        checks: u64,
        ready: &mut VecDeque<u64>,
    ) -> Reading
        requires room { (block.items ≡ []) × (0 < block.spare) }
        requires whose { (sender.now.end.worker ≡ owner.worker)
            × (sender.now.end.exchange ≡ (seen_of self.old).exchange) }
        requires asked { (messages : List Message) (rest : List ℕ)
            → Reads owner.dialect (seen_of self.old).received messages rest
            → StartsWith (asks messages) (sent_for sender.now.end.sent session) }
        requires waits { IsTakenOff self.old }
        requires none_ahead { self.old.stream.ahead ≡ [] }
        ensures arrives { Arrives (seen_of self.old) result (seen_of self.new) }
        ensures listed { ListsRead session self.new ready.old.items ready.new.items }
    {
        match self
            .stream
            .read_ahead(owner, session, sender, block, memory)
        {
            Ok(Some(0)) => Reading::Ended,
            Ok(Some(count)) => {
                self.reads_much = (count >= LARGE_READ) | ((count >= MAX_PIECE) & !self.was_paused);
                self.has_more = false;
                self.tell(session, drains, checks, ready)
            }
            Ok(None) => Reading::Gone,
            Err(error) => failed(error.kind()),
        }
    }

    /// Tells the first piece of what is ahead. The stream goes before the others if more is ahead,
    /// so that all of a read is told while it is in the processor's cache. Else it goes behind them
    /// if more may have come: it drains, the piece is whole, or something was heard of since it was
    /// read.
    fn tell(
        &mut self,
        session: u64,
        drains: bool,
        checks: u64,
        ready: &mut VecDeque<u64>,
    ) -> Reading
        requires waits { IsTakenOff self.old }
        requires some { 0 < length self.old.stream.ahead }
        ensures arrives { Arrives (seen_of self.old) result (seen_of self.new) }
        ensures listed { ListsRead session self.new ready.old.items ready.new.items }
    {
        let Some(piece) = self.stream.next_piece() else {
            return Reading::Gone;
        };
        let has_ahead = self.stream.has_ahead();
        if has_ahead {
            self.list_first(session, drains, ready);
        } else if drains | self.has_more | (piece.len() >= MAX_PIECE) {
            self.list(session, drains, ready);
        }
        if matches!(self.output, Output::Free) {
            self.active = checks;
        }
        Reading::Bytes(piece)
    }

    /// Writes once, after this many checks for idle sessions, unless the stream is known to have no
    /// room: a short write is tried again after each check, as the system tells of room only once
    /// there is much of it.
    pub(crate) fn write(
        &mut self,
        owner: Owner,
        session: u64,
        bytes: &[u8],
        history: &ToldHistory,
        checks: u64,
    ) -> Result<usize, Gone>
        requires exchange { history.now.exchange ≡ (seen_of self.old).exchange }
        requires due { MayBeSent (by_system_clock owner.geometry) owner.dialect owner.worker history.now.items session
            (seen_of self.old).received (seen_of self.old).sent bytes.now }
        ensures within { IfOk result (λ n. n ≤ length bytes.now) }
        ensures sends { IfOk result (λ n. seen_of self.new ≡ then_sent (take n bytes.now) (seen_of self.old)) }
    {
        let is_blocked = match self.output {
            Output::Blocked(since) => since == checks,
            Output::Free | Output::Freed => false,
        };
        if is_blocked || bytes.is_empty() {
            return Ok(0);
        }
        let count = match self.stream.write(owner, session, bytes, history) {
            Ok(count) => count,
            Err(error) if error.kind() == ErrorKind::WouldBlock => 0,
            Err(_) => return Err(Gone),
        };
        self.output = if count < bytes.len() {
            Output::Blocked(checks)
        } else {
            Output::Free
        };
        if count > 0 {
            self.active = checks;
        }
        Ok(count)
    }

    pub(crate) fn pause(&mut self)
        ensures { seen_of self.new ≡ then_paused true (seen_of self.old) }
    {
        self.was_paused = true;
        self.input = match self.input {
            Input::Waiting => Input::Paused { is_listed: false },
            Input::Listed | Input::Draining => Input::Paused { is_listed: true },
            Input::Paused { is_listed } => Input::Paused { is_listed },
        };
    }

    /// What came meanwhile may not be told again, so the stream is listed, and read until nothing
    /// is there.
    pub(crate) fn resume(&mut self, session: u64, ready: &mut VecDeque<u64>)
        ensures seen { seen_of self.new ≡ then_paused false (seen_of self.old) }
        ensures listed { Lists session self.old self.new ready.old.items ready.new.items }
    {
        let Input::Paused { is_listed } = self.input else {
            return;
        };
        if self.stream.has_ended {
            self.input = Input::Waiting;
            return;
        }
        if is_listed {
            self.input = Input::Draining;
        } else {
            self.list(session, true, ready);
        }
    }

    /// Whether the session is to be ended at this check: for long enough it took nothing of what it
    /// is owed, or is owed nothing, sent nothing, and nothing of it waits to be read.
    pub(crate) fn is_idle(&self, checks: u64) -> bool {
        let is_owed = !matches!(self.output, Output::Free);
        let is_waiting = matches!(self.input, Input::Waiting) && !self.stream.has_ahead();
        checks.saturating_sub(self.active) > IDLE_CHECKS && (is_owed || is_waiting)
    }
}

/// What a read brought that failed like this.
fn failed(kind: ErrorKind) -> Reading
    ensures { (seen : Seen) → Arrives seen result seen }
{
    match kind {
        ErrorKind::WouldBlock => Reading::Nothing,
        _ => Reading::Gone,
    }
}

/// What a read of these bytes brought. Without memory for them the session can't go on.
fn piece_of(alloc: Global, bytes: &[u8]) -> Reading
    requires { (0 < length bytes.now) × (length bytes.now ≤ 16384) }
    ensures { (seen : Seen) → seen.input_ended ≡ false → seen.paused ≡ false
        → Arrives seen result (then_received bytes.now seen) }
{
    match Bytes::copy_from_slice(alloc, bytes) {
        Ok(piece) => Reading::Bytes(piece),
        Err(_) => Reading::Gone,
    }
}
