//! What a port that plays a script holds, and its steps.

ghost use Rattle.std.specs.Prelude.{◌≡◌, ℕ, ◌+◌, ◌-◌, ◌<◌, ◌≤◌, ◌==◌, ◌||◌, nat_lt, List, [], ◌∷◌, ◌++◌, length, take};
ghost use Rattle.std.specs.Prelude.{true, false, IfOk};
ghost use Rattle.std.specs.List.{AllByRecursion};
ghost use Rattle.script.specs.declared.event.ScriptEvent.TheVariants as script;
ghost use Rattle.script.specs.declared.event.ScriptEvent.{ScriptEvent};
ghost use Rattle.script.specs.PortEvents.{is_playable};
ghost use Rattle.script.specs.Remaining.{in_order};
ghost use Rattle.script.specs.PortSessions.{is_closed, is_paused};
ghost use Rattle.script.specs.Players.{is_left, is_ready, events_left, NoneReady, player_state};
ghost use Rattle.script.specs.Players.{PlayerGoesOn, IsFirst, IsCausedAt, PlaysNext};
ghost use Rattle.script.specs.Players.{RecordsClose, EndsSession, Keeps, CountsOffer, GivesAs};
ghost use Rattle.script.specs.States.{CountsGive, SetsPaused, new_player, with_faults};
ghost use Rattle.worker_port.specs.Notes.{noted_record};
ghost use Rattle.worker_port.specs.Ports.{is_open};

use crate::ScriptEvent;
use crate::remaining::{Remaining, event_session};
use crate::sessions::{Sessions, Stage};
use bytes::Bytes;
use proto::Trace;
use std::alloc::{AllocError, Global};
use std::marker::Model;
use std::snapshot::Snapshot;
use worker_port::{Gone, MAX_PIECE, PortEvent, PortNote, PortRecord};

/// A script that is played. Contracts see it as `PlayerParts`.
#[derive(Drop)]
pub(crate) struct Player {
    /// The script that was handed in.
    pub(crate) script: Snapshot<Vec<ScriptEvent>>,
    /// The events that weren't played yet, those of closed sessions included.
    pub(crate) events: Remaining,
    pub(crate) sessions: Sessions,
    pub(crate) records: Trace<PortRecord>,
    /// The most bytes that a `give` accepts, or 0.
    pub(crate) accept: usize,
    /// The number of the `give` from now that fails, or 0.
    pub(crate) fail_give: u64,
    /// Whether a `give` was asked to fail.
    pub(crate) can_fail: bool,
    pub(crate) ended: bool,
}

impl Model for Player {
    ghost use Rattle.script.specs.States.{PlayerParts};

    ghost Value = { PlayerParts };

    ghost use Rattle.script.specs.Players.{parts_of, IsPlayerConsistent};

    ghost view = { parts_of };

    ghost invariant = { λ p. IsPlayerConsistent (parts_of p) };
}

/// Whether the event's session is neither gone nor shut.
fn is_left(sessions: &Sessions, event: &ScriptEvent) -> bool
    ensures { result ≡ is_left sessions.now event.now }
{
    sessions
        .get(event_session(event))
        .is_none_or(|session| !session.stage().is_closed())
}

/// Whether it may be played now.
fn is_ready(sessions: &Sessions, event: &ScriptEvent) -> bool
    ensures { result ≡ is_ready sessions.now event.now }
{
    match sessions.get(event_session(event)) {
        Some(session) => !session.stage().is_closed() && !session.stage().is_paused(),
        None => true,
    }
}

/// Drops the events of closed sessions that stand in front.
fn drop_closed(sessions: &Sessions, events: &mut Remaining)
    ensures left { events_left sessions.now (in_order events.new) ≡ events_left sessions.now (in_order events.old) }
    ensures aside { NoneReady sessions.now events.old.aside → NoneReady sessions.now events.new.aside }
    ensures front { events_left sessions.now (in_order events.new) ≡ [] → in_order events.new ≡ [] }
{
    while let Some(event) = events.first() {
        if is_left(sessions, event) {
            return;
        }
        events.drop_first();
    }
}

/// Puts aside what stands before the first event that may be played now.
fn settle(sessions: &Sessions, events: &mut Remaining)
    requires { NoneReady sessions.now events.old.aside }
    ensures order { in_order events.new ≡ in_order events.old }
    ensures aside { NoneReady sessions.now events.new.aside }
    ensures front { (e : ScriptEvent) (after : List ScriptEvent) → events.new.rest ≡ e ∷ after
        → is_ready sessions.now e ≡ true }
{
    while let Some(event) = events.front() {
        if is_ready(sessions, event) {
            return;
        }
        events.put_aside();
    }
}

/// The next piece of a send.
fn next_piece(bytes: &Bytes) -> Result<Bytes, AllocError>
    ensures { IfOk result (λ piece. piece ≡ take 16384 bytes.now) }
{
    bytes.slice(0..bytes.len().min(MAX_PIECE))
}

impl Player {
    pub(crate) fn new(alloc: Global, events: Vec<ScriptEvent>) -> Player
        ensures { player_state result ≡ new_player events.items }
    {
        let script = Snapshot::of(&events);
        Player {
            script,
            events: Remaining::new(events),
            sessions: Sessions::new(alloc),
            records: Trace::new(),
            accept: 0,
            fail_give: 0,
            can_fail: false,
            ended: false,
        }
    }

    /// From now on each `give` accepts at most `accept` bytes, and the `fail_give`th fails.
    pub(crate) fn set_faults(&mut self, accept: usize, fail_give: u64)
        ensures { player_state self.new ≡ with_faults accept fail_give (player_state self.old) }
    {
        self.accept = accept;
        self.fail_give = fail_give;
        self.can_fail |= fail_give > 0;
    }

    /// Begins a session.
    fn open(&mut self, session: u64) -> PortEvent
        requires { IsFirst self.old (script.Open session) }
        ensures { PlaysNext self.old result self.new }
    {
        if session <= self.sessions.newest() {
            self.events.drop_first();
            return PortEvent::Opened(session);
        }
        if self.sessions.open(session).is_err() {
            return PortEvent::Idle;
        }
        self.records.note_as(&PortNote::Opened(session));
        self.events.drop_first();
        PortEvent::Opened(session)
    }

    /// Plays the first of the rest, if there is one.
    fn play(&mut self) -> PortEvent
        requires running { self.old.ended ≡ false }
        requires first { (e : ScriptEvent) (after : List ScriptEvent) → self.old.events.rest ≡ e ∷ after
            → is_ready self.old.sessions e ≡ true }
        ensures { PlaysNext self.old result self.new }
    {
        match self.events.front() {
            Some(&ScriptEvent::Open(session)) => self.open(session),
            Some(ScriptEvent::Send(session, bytes)) => {
                let session = *session;
                let Ok(piece) = next_piece(bytes) else {
                    return PortEvent::Idle;
                };
                self.records
                    .note_as(&PortNote::Data(session, piece.as_slice()));
                self.events.take_piece();
                PortEvent::Data(session, piece)
            }
            Some(&ScriptEvent::Gone(session)) => {
                self.close(session, PortNote::Gone(session));
                self.events.drop_first();
                PortEvent::Gone(session)
            }
            None => PortEvent::Idle,
        }
    }

    /// Ends the port, as no event is left.
    fn end(&mut self) -> PortEvent
        requires running { self.old.ended ≡ false }
        requires none { in_order self.old.events ≡ [] }
        ensures { PlaysNext self.old result self.new }
    {
        self.records.note_as(&PortNote::Ended);
        self.ended = true;
        PortEvent::Ended
    }

    /// The first remaining event whose session isn't paused; for a send, its next piece. `Idle` if
    /// there is none, once `Ended` was given, and if out of memory.
    pub(crate) fn next(&mut self) -> PortEvent
        ensures { PlaysNext self.old result self.new }
    {
        if self.ended {
            return PortEvent::Idle;
        }
        drop_closed(&self.sessions, &mut self.events);
        settle(&self.sessions, &mut self.events);
        self.events.give_back();
        if self.events.is_empty() {
            self.end()
        } else {
            self.play()
        }
    }

    /// Ends an open session with the note's entry. Its events are left no more.
    pub(crate) fn close(&mut self, session: u64, note: PortNote<'_>)
        requires ends { EndsSession session (noted_record note) }
        requires caused { IsCausedAt self.old session (noted_record note) }
        ensures goes_on { PlayerGoesOn self.old self.new }
        ensures closes { is_open session self.old.records ≡ true
            → RecordsClose self.old session (noted_record note.entry) self.new }
        ensures same { is_open session self.old.records ≡ false → self.new ≡ self.old }
    {
        if self.sessions.change(session, Stage::Closed) {
            self.records.note_as(&note);
        }
    }

    /// Pauses or resumes an open session.
    pub(crate) fn set_stage(&mut self, session: u64, stage: Stage)
        requires stage { is_closed stage ≡ false }
        ensures goes_on { PlayerGoesOn self.old self.new }
        ensures records { self.new.records ≡ self.old.records }
        ensures paused { is_open session self.old.records ≡ true
            → SetsPaused (player_state self.old) session (is_paused stage) (player_state self.new) }
    {
        if !self.sessions.change(session, stage) {
            return;
        }
        if stage.is_paused() {
            return;
        }
        let stay = self.events.before_first_of(session);
        self.events.bring_back(stay);
    }

    /// Keeps bytes that a session is given. False if out of memory, and then nothing changes.
    fn keep(&mut self, session: u64, bytes: &[u8]) -> bool
        ensures kept { result ≡ true → Keeps self.old session bytes.now self.new }
        ensures same { result ≡ false → player_state self.new ≡ player_state self.old }
    {
        if self.sessions.accept(session, bytes).is_err() {
            return false;
        }
        self.records.note_as(&PortNote::Accepted(session, bytes));
        true
    }

    /// Whether this offer is the one that fails.
    fn fails(&mut self, bytes: &[u8]) -> bool
        ensures counts { CountsOffer self.old bytes.now self.new result }
        ensures can_fail { result ≡ true → self.old.can_fail ≡ true }
    {
        if bytes.is_empty() || self.fail_give == 0 {
            return false;
        }
        self.fail_give -= 1;
        self.fail_give == 0
    }

    /// Offers bytes to a session.
    pub(crate) fn give(&mut self, session: u64, bytes: &[u8]) -> Result<usize, Gone>
        ensures within { IfOk result (λ n. n ≤ length bytes.now) }
        ensures counts { CountsGive (player_state self.old) bytes.now (player_state self.new) }
        ensures can_fail { self.new.can_fail ≡ self.old.can_fail }
        ensures given { is_open session self.old.records ≡ true
            → GivesAs self.old session bytes.now result self.new }
    {
        if self.fails(bytes) {
            self.close(session, PortNote::Gone(session));
            return Err(Gone);
        }
        let most = if self.accept == 0 {
            bytes.len()
        } else {
            self.accept.min(bytes.len())
        };
        if most > 0 && self.keep(session, &bytes[..most]) {
            return Ok(most);
        }
        Ok(0)
    }
}
