//! The events of a script that are left to play.

ghost use Rattle.std.specs.Prelude.{◌≡◌, ◌≢◌, ℕ, ◌<◌, ◌≤◌, ◌⊎◌, List, [], ◌∷◌, ◌++◌, length, take, drop, MatchOption};
ghost use Rattle.std.specs.Prelude.{None, IfSome};
ghost use Rattle.std.specs.Bool.{OnTrue};
ghost use Rattle.std.specs.List.{All};
ghost use Rattle.script.specs.declared.event.ScriptEvent.TheVariants as script;
ghost use Rattle.script.specs.PortEvents.{event_session, send_after};
ghost use Rattle.script.specs.Remaining.{in_order, TakesFromSend};

use crate::ScriptEvent;
use bytes::Bytes;
use std::collections::VecDeque;
use std::marker::Model;
use worker_port::MAX_PIECE;

/// The session that an event is of.
pub(crate) fn event_session(event: &ScriptEvent) -> u64
    ensures { result ≡ event_session event.now }
{
    match event {
        ScriptEvent::Open(session) => *session,
        ScriptEvent::Send(session, _) => *session,
        ScriptEvent::Gone(session) => *session,
    }
}

/// The events left, those that were put aside before the rest. All stand in one ring, the rest in
/// front: an event goes aside by a turn of the ring, and comes back by a turn the other way, for
/// which no memory is needed.
#[derive(Drop)]
pub(crate) struct Remaining {
    ring: VecDeque<ScriptEvent>,
    /// The length of the rest, which stands in front of the ring.
    ahead: usize,
}

impl Model for Remaining {
    ghost use Rattle.std.specs.Prelude.{◌≤◌, length, take, drop};
    ghost use Rattle.script.specs.Remaining.{RemainingState};

    ghost Value = { RemainingState };

    ghost view = { λ r. record { aside = drop r.ahead r.ring.items; rest = take r.ahead r.ring.items } };

    ghost invariant = { λ r. r.ahead ≤ length r.ring.items };
}

impl Remaining {
    /// None is aside.
    pub(crate) fn new(events: Vec<ScriptEvent>) -> Remaining
        ensures { result ≡ record { aside = []; rest = events.items } }
    {
        let ahead = events.len();
        Remaining {
            ring: VecDeque::from_vec(events),
            ahead,
        }
    }

    /// No event is left.
    pub(crate) fn is_empty(&self) -> bool
        ensures { OnTrue result (in_order self.now ≡ []) }
    {
        self.ring.is_empty()
    }

    /// The first of the rest.
    pub(crate) fn front(&self) -> Option<&ScriptEvent>
        ensures { MatchOption result (self.now.rest ≡ []) (λ e. self.now.rest ≡ e.now ∷ drop 1 self.now.rest) }
    {
        if self.ahead == 0 {
            return None;
        }
        self.ring.front()
    }

    /// The first of the rest, or of those aside if no other is left.
    pub(crate) fn first(&self) -> Option<&ScriptEvent>
        ensures { MatchOption result (in_order self.now ≡ [])
            (λ e. (self.now.rest ≡ e.now ∷ drop 1 self.now.rest)
            ⊎ ((self.now.rest ≡ []) × (self.now.aside ≡ e.now ∷ drop 1 self.now.aside))) }
    {
        self.ring.front()
    }

    /// Drops the first of the rest, or of those aside if no other is left.
    pub(crate) fn drop_first(&mut self)
        ensures rest { 0 < length self.old.rest → self.new ≡ record self.old { rest = drop 1 self.old.rest } }
        ensures aside { self.old.rest ≡ [] → self.new ≡ record self.old { aside = drop 1 self.old.aside } }
    {
        self.ring.pop_front();
        self.ahead = self.ahead.saturating_sub(1);
    }

    /// Takes the next piece off the send in front of the rest, and the send away with its last
    /// piece.
    pub(crate) fn take_piece(&mut self)
        requires { 0 < length self.old.rest }
        ensures { TakesFromSend self.old self.new }
    {
        let Some(event) = self.ring.pop_front() else {
            return;
        };
        let Some((session, bytes)) = after_piece(event) else {
            self.ahead -= 1;
            return;
        };
        self.ring
            .push_front_reserved(ScriptEvent::Send(session, bytes));
    }

    /// Puts the first of the rest aside.
    pub(crate) fn put_aside(&mut self)
        requires { 0 < length self.old.rest }
        ensures { self.new ≡ record { aside = self.old.aside ++ take 1 self.old.rest; rest = drop 1 self.old.rest } }
    {
        self.ring.rotate_left(1);
        self.ahead -= 1;
    }

    /// How many of those aside stand before the session's first.
    pub(crate) fn before_first_of(&self, session: u64) -> usize
        ensures within { result ≤ length self.now.aside }
        ensures others { All (λ e. event_session e ≢ session) (take result self.now.aside) }
    {
        let aside = self.ring.len() - self.ahead;
        let mut before = 0;
        while before < aside {
            if event_session(&self.ring[self.ahead + before]) == session {
                return before;
            }
            before += 1;
        }
        before
    }

    /// The first `stay` stay aside, and those after them are of the rest again.
    pub(crate) fn bring_back(&mut self, stay: usize)
        requires { stay ≤ length self.old.aside }
        ensures { self.new ≡ record {
          aside = take stay self.old.aside;
          rest = drop stay self.old.aside ++ self.old.rest;
        } }
    {
        let back = self.ring.len() - self.ahead - stay;
        self.ring.rotate_right(back);
        self.ahead += back;
    }

    /// Gives memory back once half of it has no event any more.
    pub(crate) fn give_back(&mut self)
        ensures { self.new ≡ self.old }
    {
        if self.ring.len() < self.ring.capacity() / 2 {
            self.ring.shrink_to_fit();
        }
    }
}

/// What is left of a send after its next piece, if anything is.
fn after_piece(event: ScriptEvent) -> Option<(u64, Bytes)>
    ensures none { result ≡ None → (s : ℕ) (bytes : List ℕ) → event ≡ script.Send s bytes
        → send_after s bytes ≡ [] }
    ensures some { IfSome result (λ r. (s : ℕ) (bytes : List ℕ) → event ≡ script.Send s bytes
        → send_after s bytes ≡ script.Send r.0 r.1 ∷ []) }
{
    let ScriptEvent::Send(session, mut bytes) = event else {
        return None;
    };
    if bytes.len() <= MAX_PIECE {
        return None;
    }
    bytes.advance(MAX_PIECE);
    Some((session, bytes))
}
