//! A worker's port over the streams that its hand is given. What it tells is what was read from its
//! streams and what they took; no clause says what a socket delivers.

ghost use Rattle.std.specs.Prelude.{◌≡◌, ◌≤◌, [], ◌∷◌, true, false, length, IfOk, MatchOption, Some};
ghost use Rattle.std.specs.Option.{option_map};
ghost use Rattle.worker_port.specs.declared.events.PortRecord.TheVariants.{Shut};
ghost use Rattle.worker_port.specs.Ports.{PortTrace, then_told, with_pause, event_records, then_gave, is_open, MayCome};
ghost use Rattle.net.specs.Traces.{trace_of, IsNew, GoesOn, Tells, MayTell, PausesAgree, TellsNothing, AddsSockets};
ghost use Rattle.worker_port.specs.Giving.{HasAskedOnly};
ghost use Rattle.net.specs.Shown.{shown_stream};
ghost use Rattle.net.specs.Ties.{OpenAgrees, BytesAgree, ReadAgrees, SocketsAgree};

use crate::closings::Closing;
use crate::fault::{NetFault, Refusal};
use crate::hand::Hand;
use crate::interval::Interval;
use crate::peer::Peer;
use crate::polls::Polls;
use crate::streams::{Owner, Streams};
use exchange::{ExchangeName, WorkerLane};
use mio::{Events, Poll};
use proto::{Gauge, Gauges};
use std::alloc::Global;
use std::net::Net;
use std::sync::Wait;
use std::time::{Clock, Duration};
use worker_port::{CloseReason, Gone, Port, PortEvent, ToldHistory};

/// Events of one poll.
const EVENTS: usize = 256;

/// The time between two checks for idle sessions if a session may be idle for a second, in
/// microseconds: a sixteenth of it.
const CHECK_MICROS: u64 = 62_500;

/// A worker's port over sockets.
#[derive(Drop)]
pub struct MioPort<R: Drop> {
    rt: R,
    hand: Hand,
    poll: Poll,
    events: Events,
    served: Streams,
    polls: Polls,
    /// When sessions are checked for idle ones, if these are ended at all.
    idle_checks: Option<Interval>,
    /// The hand may have streams: it woke a poll since it was last empty, or a poll returned
    /// nothing (a wake can get lost).
    has_streams: bool,
    /// Some sessions may have been idle for long enough at the last check.
    has_idle: bool,
    /// Sessions that were ended as idle.
    idle_kicks: u64,
}

impl<R: Wait + Clock + Net + Drop> MioPort<R> {
    /// A port for the streams of the hand, which it numbers from 1.
    ///
    /// # Errors
    ///
    /// Refused, NoMemory.
    pub fn new(
        rt: R,
        alloc: Global,
        mut hand: Hand,
        owner: Owner,
        exchange: ExchangeName,
    ) -> Result<MioPort<R>, NetFault>
        ensures { IfOk result
            (λ port. IsNew owner.geometry owner.dialect owner.worker exchange (trace_of port.served)) }
    {
        let poll = Poll::new(&rt).map_err(|error| Refusal::of(&error))?;
        hand.register(&poll).map_err(|error| Refusal::of(&error))?;
        Ok(MioPort {
            rt,
            hand,
            poll,
            events: Events::with_capacity(alloc, EVENTS)?,
            served: Streams::new(alloc, owner, exchange)?,
            polls: Polls::default(),
            idle_checks: None,
            has_streams: true,
            has_idle: false,
            idle_kicks: 0,
        })
    }
}

impl<R: Wait + Clock + Drop> MioPort<R> {
    /// What the port told agrees with its streams: the open sessions are those with a stream, each
    /// with the socket that it was opened with; the data of each, joined, and then what is ahead of
    /// it is what was read from its stream; and what was accepted for it is what its stream took.
    pub fn agrees(&self)
        ensures open { OpenAgrees (shown_stream self.now.served.open.entries) (trace_of self.now.served).events }
        ensures bytes { BytesAgree (shown_stream self.now.served.open.entries) (trace_of self.now.served).events }
        ensures came { ReadAgrees self.now.served.open.entries (trace_of self.now.served).events }
        ensures sockets { SocketsAgree (shown_stream self.now.served.open.entries) self.now.served.sockets.items }
        ensures paused { PausesAgree (shown_stream self.now.served.open.entries) (trace_of self.now.served) }
    {
        let _served = &self.served;
    }

    /// Whether the session is open.
    pub fn is_open(&self, session: u64) -> bool
        ensures { is_open session (trace_of self.now.served).events ≡ result }
    {
        self.served.open.get(&session).is_some()
    }

    /// Has the port end idle sessions, as those whose peer has gone: a session that is owed nothing
    /// once it sent nothing for this many seconds, and one that is owed output once it took none of
    /// it for that long; each an eighth later at most.
    pub fn set_idle_limit(&mut self, seconds: u64)
        ensures { TellsNothing self.old.served self.new.served }
    {
        let between = Duration::from_micros(seconds.saturating_mul(CHECK_MICROS));
        self.idle_checks = Some(Interval::of(between));
    }

    /// Has the port poll on for this many microseconds after an event, before it waits for the next
    /// one: until then its polls don't wait.
    pub fn set_spin(&mut self, micros: u32)
        ensures { TellsNothing self.old.served self.new.served }
    {
        self.polls.set_spin(micros);
    }

    /// The next event that is known without a poll: streams that wait in the hand come before what
    /// can be read, and that before a session that was idle for long enough, so that nobody is
    /// ended whose input was heard of. Sessions are numbered from 1, and no number is given twice.
    pub fn next_event(&mut self, sender: &WorkerLane) -> PortEvent
        requires { HasAskedOnly (trace_of self.old.served) sender.now.end.exchange sender.now.end.worker
            sender.now.end.sent }
        ensures told { Tells (trace_of self.old.served) result (trace_of self.new.served) }
        ensures sockets { AddsSockets self.old.served self.new.served }
    {
        if self.served.has_ended {
            return PortEvent::Idle;
        }
        if self.has_streams {
            if let Some(event) = self.open_next() {
                return event;
            }
        }
        if let Some(event) = self.served.next_input(sender) {
            return event;
        }
        if self.has_idle {
            if let Some(event) = self.served.end_idle() {
                self.idle_kicks = self.idle_kicks.saturating_add(1);
                self.tell_closing(self.served.idle_peer, CloseReason::Idle, b"");
                return event;
            }
            self.has_idle = false;
        }
        if self.served.is_empty() && self.hand.is_drained() {
            self.served.end();
            return PortEvent::Ended;
        }
        PortEvent::Idle
    }

    /// Polls the sockets if no event is known yet and the end isn't to be told, unless it is too
    /// early; and now and then even so. No poll waits beyond the next check for idle sessions.
    /// Returns false if there is no event.
    fn poll_if_due(&mut self, may_wait: bool) -> bool
        ensures { TellsNothing self.old.served self.new.served }
    {
        let knows_event = self.may_know_event()
            || (self.served.is_empty() && self.hand.is_drained());
        let is_draining = self.served.lingering.is_ready;
        let Some(limit) = self
            .polls
            .next(&self.rt, knows_event, may_wait, is_draining)
        else {
            return knows_event;
        };
        if !self.served.lingering.streams.is_empty() {
            self.served.drain(&self.rt);
        }
        self.hand.report_closed(self.served.len());
        let limit = match self.idle_checks {
            Some(checks) if !limit.is_zero() => checks.left(&self.rt).unwrap_or(limit).min(limit),
            _ => limit,
        };
        if self.poll.poll(&mut self.events, Some(limit)).is_ok() {
            if self.served.hear_all(&self.events) {
                self.hand.clear_wakes();
                self.has_streams = true;
            }
            self.has_streams = self.has_streams || self.events.is_empty();
        }
        if let Some(checks) = &mut self.idle_checks {
            if checks.take_evenly(&self.rt) {
                self.served.idle_checks = self.served.idle_checks.saturating_add(1);
                self.has_idle = true;
            }
        }
        true
    }

    /// Leaves word of a connection that is closed.
    fn tell_closing(&self, peer: Peer, reason: CloseReason, line: &[u8]) {
        self.hand
            .explain(&self.rt, Closing::new(peer, reason, line));
    }

    /// Opens a session for the next stream that waits in the hand and can be served.
    fn open_next(&mut self) -> Option<PortEvent>
        requires { GoesOn (trace_of self.old.served) }
        ensures told { MayTell (trace_of self.old.served) result (trace_of self.new.served) }
        ensures sockets { AddsSockets self.old.served self.new.served }
    {
        for _ in 0..EVENTS {
            if self.served.len() >= self.hand.most_open() {
                return None;
            }
            let Some(stream) = self.hand.take(&self.rt) else {
                self.has_streams = false;
                return None;
            };
            if let Some(session) = self.served.open(&self.poll, stream) {
                return Some(PortEvent::Opened(session));
            }
        }
        None
    }
}

impl<R: Wait + Clock + Drop> Port for MioPort<R> {
    ghost use Rattle.std.specs.Prelude.{⊤, Some};
    ghost use Rattle.net.specs.Traces.{trace_of};

    ghost told = { λ port. Some (trace_of port.served) };

    ghost leads_to = { λ _ _. ⊤ };

    ghost leads_reflexive = { λ _. tt };

    ghost leads_transitive = { λ _ _ _ _ _. tt };

    fn next(&mut self, may_wait: bool, sender: &WorkerLane) -> PortEvent {
        if !self.poll_if_due(may_wait) {
            return PortEvent::Idle;
        }
        let event = self.next_event(sender);
        if !matches!(event, PortEvent::Idle) {
            self.polls.restart();
        }
        event
    }

    fn give(&mut self, session: u64, bytes: &[u8], history: ToldHistory) -> Result<usize, Gone> {
        let accepted = self.served.write(session, bytes, history)?;
        if accepted > 0 {
            self.polls.gave(accepted);
        }
        Ok(accepted)
    }

    fn pause(&mut self, session: u64) {
        self.served.set_paused(session, true);
    }

    fn resume(&mut self, session: u64) {
        self.served.set_paused(session, false);
    }

    fn shut(&mut self, session: u64) {
        self.served.shut(&self.rt, session);
    }

    fn explain(&self, session: u64, reason: CloseReason, line: &[u8]) {
        if let Some(open) = self.served.open.get(&session) {
            self.tell_closing(open.stream.peer(), reason, line);
        }
    }

    /// Whether a stream may be read or opened, or a session may have been idle for long enough.
    fn may_know_event(&self) -> bool {
        !self.served.ready.is_empty()
            || self.has_idle
            || (self.has_streams && self.served.len() < self.hand.most_open())
    }

    fn rooms(&self) -> Option<u64> {
        Some(self.served.rooms.wrapping_add(self.served.idle_checks))
    }

    fn set_gauges(&self, gauges: &Gauges) {
        gauges.set(&[(Gauge::IdleKicks, self.idle_kicks)]);
        self.hand.set_gauges(gauges);
    }
}
