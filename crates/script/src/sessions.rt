//! The sessions that a port has opened.

ghost use Rattle.std.specs.Prelude.{◌≡◌, ℕ, ◌+◌, ◌<◌, [], ◌∷◌, ◌++◌, length, map, true, false, Some, None, option_map};
ghost use Rattle.std.specs.Prelude.{MatchOption, OnOk, OnErr};
ghost use Rattle.script.specs.PortSessions.{ScriptSessionState, newest, session_entry};
ghost use Rattle.script.specs.PortSessions.{is_session_open, is_closed, is_paused, with_stage};
ghost use Rattle.script.specs.PortSessions.{IsPositionOf, ChangesScriptSession, AcceptsAt};
ghost use Rattle.std.specs.List.Sorted.{IsStrictlyIncreasing};

use std::alloc::{AllocError, Global};
use std::marker::Model;

/// What has become of a session that was opened.
#[derive(Clone, Copy)]
pub enum Stage {
    Playing,
    Paused,
    /// Its peer has gone, or it was shut.
    Closed,
}

impl Stage {
    pub(crate) fn is_closed(self) -> bool
        ensures { result ≡ is_closed self }
    {
        matches!(self, Stage::Closed)
    }

    pub(crate) fn is_paused(self) -> bool
        ensures { result ≡ is_paused self }
    {
        matches!(self, Stage::Paused)
    }
}

/// A session that was opened.
#[derive(Drop)]
pub struct ScriptSession {
    number: u64,
    stage: Stage,
    output: Vec<u8>,
}

impl Model for ScriptSession {
    ghost use Rattle.script.specs.PortSessions.{ScriptSessionState};

    ghost Value = { ScriptSessionState };

    ghost view = { λ s. record { number = s.number; stage = s.stage; output = s.output.items } };
}

impl ScriptSession {
    pub fn number(&self) -> u64
        ensures { result ≡ self.now.number }
    {
        self.number
    }

    /// The bytes that it was given.
    pub fn given(&self) -> &[u8]
        ensures { result.now ≡ self.now.output }
    {
        self.output.as_slice()
    }

    pub(crate) fn stage(&self) -> Stage
        ensures { result ≡ self.now.stage }
    {
        self.stage
    }

    fn set_stage(&mut self, stage: Stage)
        ensures { self.new ≡ record self.old { stage = stage } }
    {
        self.stage = stage;
    }

    fn accept(&mut self, bytes: &[u8]) -> Result<(), AllocError>
        ensures ok { OnOk result (self.new ≡ record self.old { output = self.old.output ++ bytes.now }) }
        ensures err { OnErr result (self.new ≡ self.old) }
    {
        self.output.extend_from_slice(bytes)
    }
}

/// The sessions, by rising numbers.
#[derive(Drop)]
pub(crate) struct Sessions {
    alloc: Global,
    entries: Vec<ScriptSession>,
}

impl Model for Sessions {
    ghost use Rattle.std.specs.Prelude.{List};
    ghost use Rattle.std.specs.List.Sorted.{IsStrictlyIncreasing};
    ghost use Rattle.script.specs.PortSessions.{ScriptSessionState, numbers};

    ghost Value = { List ScriptSessionState };

    ghost view = { λ s. s.entries.items };

    ghost invariant = { λ s. IsStrictlyIncreasing (numbers s.entries.items) };
}

/// What is found by its number.
pub trait Numbered {
    /// Its number, in contracts.
    ghost number_of: { Self → ℕ };

    /// Its number.
    fn number(&self) -> u64
        ensures { result ≡ Self.number_of self.now };
}

impl Numbered for ScriptSession {
    ghost number_of = { λ s. s.number };

    fn number(&self) -> u64
        ensures { result ≡ self.now.number }
    {
        self.number
    }
}

/// The position of the session with this number.
pub fn position_of<S: Numbered>(sessions: &[S], number: u64) -> Option<usize>
    requires { IsStrictlyIncreasing (map S.number_of sessions.now) }
    ensures { IsPositionOf (map S.number_of sessions.now) number result }
{
    match sessions.binary_search_by_key(&number, |session| session.number()) {
        Ok(at) => Some(at),
        Err(_) => None,
    }
}

impl Sessions {
    pub(crate) fn new(alloc: Global) -> Sessions
        ensures { result ≡ [] }
    {
        Sessions {
            alloc,
            entries: Vec::new(alloc),
        }
    }

    pub(crate) fn as_slice(&self) -> &[ScriptSession]
        ensures { result.now ≡ self.now }
    {
        self.entries.as_slice()
    }

    /// The session with this number.
    pub(crate) fn get(&self, number: u64) -> Option<&ScriptSession>
        ensures { MatchOption result (session_entry self.now number ≡ None)
            (λ s. session_entry self.now number ≡ Some s.now) }
    {
        let at = position_of(self.entries.as_slice(), number)?;
        Some(&self.entries[at])
    }

    /// The number that was opened last, 0 before the first.
    pub(crate) fn newest(&self) -> u64
        ensures { result ≡ newest self.now }
    {
        match self.entries.last() {
            Some(session) => session.number(),
            None => 0,
        }
    }

    /// Adds a session, or changes nothing.
    pub(crate) fn open(&mut self, number: u64) -> Result<(), AllocError>
        requires { newest self.old < number }
        ensures ok { OnOk result (self.new
            ≡ self.old ++ (record { number = number; stage = Stage.Playing; output = [] }) ∷ []) }
        ensures err { OnErr result (self.new ≡ self.old) }
    {
        self.entries.reserve(1)?;
        self.entries.push_reserved(ScriptSession {
            number,
            stage: Stage::Playing,
            output: Vec::new(self.alloc),
        });
        Ok(())
    }

    /// Writes what becomes of a session. False if it isn't open, and then nothing changes.
    pub(crate) fn change(&mut self, number: u64, stage: Stage) -> bool
        ensures open { result ≡ is_session_open self.old number }
        ensures changes { result ≡ true → ChangesScriptSession self.old number (with_stage stage) self.new }
        ensures same { result ≡ false → self.new ≡ self.old }
    {
        let Some(at) = position_of(self.entries.as_slice(), number) else {
            return false;
        };
        if self.entries[at].stage().is_closed() {
            return false;
        }
        self.entries[at].set_stage(stage);
        true
    }

    /// Keeps bytes that were accepted for an open session, or changes nothing.
    pub(crate) fn accept(&mut self, number: u64, bytes: &[u8]) -> Result<(), AllocError>
        ensures ok { OnOk result (AcceptsAt self.old number bytes.now self.new) }
        ensures err { OnErr result (self.new ≡ self.old) }
    {
        let Some(at) = position_of(self.entries.as_slice(), number) else {
            return Err(AllocError);
        };
        if self.entries[at].stage().is_closed() {
            return Err(AllocError);
        }
        self.entries[at].accept(bytes)
    }
}
