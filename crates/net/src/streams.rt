//! The open streams of a port, by their sessions' numbers, and what was told of them.

ghost use Rattle.std.specs.Prelude.{◌≡◌, ◌≤◌, ℕ, [], ◌∷◌, ◌++◌, length, vec_len, IsTrue, IfOk};
ghost use Rattle.std.specs.Prelude.{MatchOption};
ghost use Rattle.worker_port.specs.declared.events.PortEvent.TheVariants.{Opened, Gone as Left, Ended};
ghost use Rattle.worker_port.specs.declared.events.PortRecord.TheVariants.{Shut};
ghost use Rattle.worker_port.specs.Ports.{then_told, then_gave, with_pause};
ghost use Rattle.worker_port.specs.Giving.{MayBeGiven, HasAskedOnly};
ghost use Rattle.net.specs.Shown.{shown_stream};
ghost use Rattle.net.specs.Ties.{Ties, SocketTies, AreOfExchange};

use crate::hand::WAKER;
use crate::lingering::LingeringStreams;
use crate::open_stream::{Heard, OpenStream, Reading};
use crate::peer::Peer;
use crate::read_memory::ReadMemory;
use crate::sockets::{EndedStream, NewStream, SocketNote};
use exchange::{ExchangeName, WorkerLane};
use mio::{Events, Poll};
use proto::{Dialect, Geometry, Trace};
use std::alloc::{AllocError, Global};
use std::collections::{HashMap, VecDeque};
use std::snapshot::Snapshot;
use std::time::Clock;
use worker_port::{Gone, MAX_PIECE, PortEvent, PortNote, PortRecord, ToldHistory};

/// The most sessions of a port that are open at a time, with those that were shut and are read
/// still, unless it is told another number.
pub(crate) const OPEN_SESSIONS: usize = 1024;

/// The worker whose port it is, the sizes by which its histories are judged, and the dialect by
/// which it reads.
#[derive(Clone, Copy)]
pub struct Owner {
    pub geometry: Geometry,
    pub dialect: Dialect,
    pub worker: usize,
}

/// The open streams, which of them are to be read, in turn, and what was told.
#[derive(Drop)]
pub(crate) struct Streams {
    alloc: Global,
    pub(crate) open: HashMap<u64, OpenStream>,
    /// The sessions whose streams are to be read.
    pub(crate) ready: VecDeque<u64>,
    /// How often a stream had room that had none.
    pub(crate) rooms: u64,
    pub(crate) lingering: LingeringStreams,
    scratch: Vec<u8>,
    memory: ReadMemory,
    /// The number of the session that was opened last.
    pub(crate) last: u64,
    /// How often sessions were checked for idle ones.
    pub(crate) idle_checks: u64,
    /// The peer of the session that was ended last as idle.
    pub(crate) idle_peer: Peer,
    pub(crate) told: Trace<PortRecord>,
    /// The end was told.
    pub(crate) has_ended: bool,
    pub(crate) owner: Owner,
    /// The exchange of its worker's end, for clauses alone.
    pub(crate) exchange: ExchangeName,
    /// By which bytes were given last, for clauses alone. It is kept until the next give, so that
    /// it can be compared with others.
    pub(crate) history: Option<ToldHistory>,
    /// The sockets with which the sessions were opened, in their order.
    pub(crate) sockets: Trace<i32>,
    ghost room: { vec_len scratch ≡ 16384 },
    ghost ties: { Ties (shown_stream open.entries) last told.items has_ended },
    ghost kept: { SocketTies (shown_stream open.entries) last sockets.items },
    ghost named: { AreOfExchange exchange (shown_stream open.entries) },
}

impl Streams {
    ghost use Rattle.net.specs.Traces.{trace_of, IsNew, GoesOn, HasOpen, HasNoneOpen};
    ghost use Rattle.net.specs.Traces.{Tells, MayTell, TellsNothing, KeepsSockets};
    ghost use Rattle.net.specs.Sockets.{socket_of};

    pub(crate) fn new(
        alloc: Global,
        owner: Owner,
        exchange: ExchangeName,
    ) -> Result<Streams, AllocError>
        ensures { IfOk result (λ streams. IsNew owner.geometry owner.dialect owner.worker exchange (trace_of streams)) }
    {
        Ok(Streams {
            alloc,
            open: HashMap::with_capacity(alloc, OPEN_SESSIONS)?,
            ready: VecDeque::with_capacity(alloc, OPEN_SESSIONS)?,
            rooms: 0,
            lingering: LingeringStreams::new(alloc)?,
            scratch: Vec::from_elem(alloc, 0u8, MAX_PIECE)?,
            memory: ReadMemory::new(alloc)?,
            last: 0,
            idle_checks: 0,
            idle_peer: Peer::Unknown,
            told: Trace::new(),
            has_ended: false,
            owner,
            exchange,
            history: None,
            sockets: Trace::new(),
        })
    }

    /// Whether none is open or read still.
    pub(crate) fn is_empty(&self) -> bool
        ensures { IsTrue result → HasNoneOpen (trace_of self.now) }
    {
        self.open.is_empty() && self.lingering.streams.is_empty()
    }

    /// How many are open, or were shut and are read still.
    pub(crate) fn len(&self) -> usize {
        self.open.len().saturating_add(self.lingering.streams.len())
    }

    /// Opens a session for a stream, and tells of it. None if the stream can't be served; it is
    /// closed then.
    pub(crate) fn open(&mut self, poll: &Poll, stream: NewStream) -> Option<u64>
        requires { GoesOn (trace_of self.old) }
        ensures told { MatchOption result (trace_of self.new ≡ trace_of self.old)
            (λ n. Tells (trace_of self.old) (Opened n) (trace_of self.new)) }
        ensures sockets { MatchOption result (KeepsSockets self.old self.new)
            (λ _. self.new.sockets.items ≡ self.old.sockets.items ++ socket_of stream ∷ []) }
    {
        let session = self.last.checked_add(1)?;
        self.ready.reserve(OPEN_SESSIONS).ok()?;
        let accepted = Snapshot::of(&stream);
        let stream = stream.serve(poll, session, &self.exchange)?;
        let open = OpenStream::new(stream, self.idle_checks);
        self.open.insert(session, open).ok()?;
        self.last = session;
        self.sockets.note_as(&SocketNote { stream: &accepted });
        self.told.note_as(&PortNote::Opened(session));
        Some(session)
    }

    /// Takes note of what a poll brought, and says whether the hand woke it. An event that isn't of
    /// an open stream is of those that were shut.
    pub(crate) fn hear_all(&mut self, events: &Events) -> bool
        ensures { TellsNothing self.old self.new }
    {
        let mut was_woken = false;
        for event in events {
            if event.token() == WAKER {
                was_woken = true;
                continue;
            }
            let heard = Heard::of(event);
            let Some(open) = self.open.get_mut(&heard.session) else {
                self.lingering.is_ready = true;
                continue;
            };
            let has_room = open.hear(heard, self.idle_checks, &mut self.ready);
            self.rooms = self.rooms.wrapping_add(u64::from(has_room));
        }
        was_woken
    }

    /// Reads those that were shut, and closes those that were read for long enough.
    pub(crate) fn drain<R: Clock>(&mut self, rt: &R)
        ensures { TellsNothing self.old self.new }
    {
        self.lingering.drain(rt, self.scratch.as_mut_slice());
    }

    /// Reads from the streams that may have something, until there is an event to tell.
    pub(crate) fn next_input(&mut self, sender: &WorkerLane) -> Option<PortEvent>
        requires goes_on { GoesOn (trace_of self.old) }
        requires asked { HasAskedOnly (trace_of self.old) sender.now.end.exchange sender.now.end.worker
            sender.now.end.sent }
        ensures told { MayTell (trace_of self.old) result (trace_of self.new) }
        ensures sockets { KeepsSockets self.old self.new }
    {
        for _ in 0..self.ready.len() {
            let session = self.ready.pop_front()?;
            if let Some(event) = self.read(session, sender) {
                return Some(event);
            }
        }
        None
    }

    /// Reads at most once from a stream that was taken off the list, if it is open and to be read,
    /// and tells what came.
    fn read(&mut self, session: u64, sender: &WorkerLane) -> Option<PortEvent>
        requires goes_on { GoesOn (trace_of self.old) }
        requires asked { HasAskedOnly (trace_of self.old) sender.now.end.exchange sender.now.end.worker
            sender.now.end.sent }
        ensures told { MayTell (trace_of self.old) result (trace_of self.new) }
        ensures sockets { KeepsSockets self.old self.new }
    {
        let Some(open) = self.open.get_mut(&session) else {
            return None;
        };
        match open.read(
            self.owner,
            session,
            sender,
            self.alloc,
            self.scratch.as_mut_slice(),
            &mut self.memory,
            self.idle_checks,
            &mut self.ready,
        ) {
            Reading::Bytes(piece) => {
                self.told
                    .note_as(&PortNote::Data(session, piece.as_slice()));
                Some(PortEvent::Data(session, piece))
            }
            Reading::Nothing => None,
            Reading::Ended => {
                self.told.note_as(&PortNote::EndOfInput(session));
                Some(PortEvent::EndOfInput(session))
            }
            Reading::Gone => {
                let _ = self.open.remove(&session);
                self.told.note_as(&PortNote::Gone(session));
                Some(PortEvent::Gone(session))
            }
        }
    }

    /// Closes a session that was idle for long enough, and tells that its peer has gone.
    pub(crate) fn end_idle(&mut self) -> Option<PortEvent>
        requires { GoesOn (trace_of self.old) }
        ensures told { MayTell (trace_of self.old) result (trace_of self.new) }
        ensures sockets { KeepsSockets self.old self.new }
    {
        let mut entries = self.open.iter();
        let idle = entries.find(|(_, open)| open.is_idle(self.idle_checks));
        let session = idle.map(|(session, _)| *session)?;
        let ended = self.open.remove(&session)?;
        self.idle_peer = ended.stream.peer();
        self.told.note_as(&PortNote::Gone(session));
        Some(PortEvent::Gone(session))
    }

    /// Tells the end.
    pub(crate) fn end(&mut self)
        requires goes_on { GoesOn (trace_of self.old) }
        requires none { HasNoneOpen (trace_of self.old) }
        ensures told { Tells (trace_of self.old) Ended (trace_of self.new) }
        ensures sockets { KeepsSockets self.old self.new }
    {
        self.has_ended = true;
        self.told.note_as(&PortNote::Ended);
    }

    /// Gives bytes to a session, and tells how many its stream took.
    pub(crate) fn write(
        &mut self,
        session: u64,
        bytes: &[u8],
        history: ToldHistory,
    ) -> Result<usize, Gone>
        requires open { HasOpen session (trace_of self.old) }
        requires said { MayBeGiven (trace_of self.old) history.exchange history.items session bytes.now }
        ensures within { IfOk result (λ n. n ≤ length bytes.now) }
        ensures told { trace_of self.new ≡ then_gave session bytes.now result history.items (trace_of self.old) }
        ensures sockets { KeepsSockets self.old self.new }
    {
        let Some(open) = self.open.get_mut(&session) else {
            return Err(Gone);
        };
        let answer = open.write(self.owner, session, bytes, &history, self.idle_checks);
        self.history = Some(history);
        match answer {
            Ok(count) if 0 < count => {
                self.told
                    .note_as(&PortNote::Accepted(session, &bytes[..count]));
            }
            Ok(_) => {}
            Err(_) => {
                let _ = self.open.remove(&session);
                self.told.note_as(&PortNote::Gone(session));
            }
        }
        answer
    }

    pub(crate) fn set_paused(&mut self, session: u64, is_paused: bool)
        requires { HasOpen session (trace_of self.old) }
        ensures told { trace_of self.new ≡ with_pause session is_paused (trace_of self.old) }
        ensures sockets { KeepsSockets self.old self.new }
    {
        match self.open.get_mut(&session) {
            Some(open) if is_paused => open.pause(),
            Some(open) => open.resume(session, &mut self.ready),
            None => {}
        }
    }

    /// Ends a session for good. Its stream is read a little longer, so that its peer sees what it
    /// was given, unless all of its input was read.
    pub(crate) fn shut<R: Clock>(&mut self, rt: &R, session: u64)
        requires { HasOpen session (trace_of self.old) }
        ensures told { trace_of self.new ≡ then_told (Shut session ∷ []) (trace_of self.old) }
        ensures sockets { KeepsSockets self.old self.new }
    {
        let removed = self.open.remove(&session);
        if let Some(ended) = removed.and_then(|open| EndedStream::of(open.stream)) {
            self.lingering.add(rt, ended);
        }
        self.told.note_as(&PortNote::Shut(session));
    }
}
