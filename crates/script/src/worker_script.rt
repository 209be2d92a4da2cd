//! The events of one worker's sessions.

ghost use Rattle.std.specs.Prelude.{◌≡◌, ℕ, ◌++◌, [], ◌∷◌, MatchOption, OnOk, OnErr};
ghost use Rattle.std.specs.Ordering.{nat_cmp};
ghost use Rattle.std.specs.BTreeSet.{contains};
ghost use Rattle.script.specs.Events.{IsOutOfPlace, IsPlayable, MayFollow, newest_after, open_after};

use crate::event::ScriptEvent;
use crate::fault::LineFault;
use proto::NoMemory;
use std::alloc::Global;
use std::collections::BTreeSet;
use std::marker::Model;

/// Events in order, each of which may come after those before it.
#[derive(Drop)]
pub struct WorkerScript {
    events: Vec<ScriptEvent>,
    /// The number that was opened last, 0 before the first.
    newest: u64,
    /// The sessions that are open.
    sessions: BTreeSet<u64>,
}

impl Model for WorkerScript {
    ghost use Rattle.std.specs.Prelude.{List};
    ghost use Rattle.script.specs.declared.event.ScriptEvent.{ScriptEvent};
    ghost use Rattle.script.specs.Tracking.{IsTracked};

    ghost Value = { List ScriptEvent };

    ghost view = { λ a. a.events.items };

    ghost invariant = { λ a. IsTracked a.events.items a.newest a.sessions };
}

/// Notes an event: the newest session, and which are open.
fn track(
    newest: &mut u64,
    sessions: &mut BTreeSet<u64>,
    event: &ScriptEvent,
) -> Result<(), NoMemory>
    ensures newest { OnOk result (newest.new ≡ newest_after newest.old event.now) }
    ensures sessions { OnOk result ((s : ℕ)
        → contains nat_cmp sessions.new s ≡ open_after s (contains nat_cmp sessions.old s) event.now) }
    ensures err { OnErr result ((newest.new ≡ newest.old)
        × ((s : ℕ) → contains nat_cmp sessions.new s ≡ contains nat_cmp sessions.old s)) }
{
    match event {
        ScriptEvent::Open(session) => {
            sessions.insert(*session)?;
            *newest = *session;
        }
        ScriptEvent::Send(_, _) => {}
        ScriptEvent::Gone(session) => {
            sessions.remove(session);
        }
    }
    Ok(())
}

impl WorkerScript {
    /// No event yet.
    pub fn new(alloc: Global) -> Self
        ensures { result ≡ [] }
    {
        WorkerScript {
            events: Vec::new(alloc),
            newest: 0,
            sessions: BTreeSet::new(alloc),
        }
    }

    /// Why the event may not come next, if it may not.
    pub fn fault(&self, event: &ScriptEvent) -> Option<LineFault>
        ensures { MatchOption result (MayFollow self.now event.now) (IsOutOfPlace self.now event.now) }
    {
        let (may_come, fault) = match event {
            ScriptEvent::Open(session) => (*session > self.newest, LineFault::NotAboveLast),
            ScriptEvent::Send(session, _) | ScriptEvent::Gone(session) => {
                (self.sessions.contains(session), LineFault::NotOpen)
            }
        };
        if may_come { None } else { Some(fault) }
    }

    /// Adds the event.
    ///
    /// # Errors
    ///
    /// NoMemory if out of memory; then nothing changes.
    pub fn push(&mut self, event: ScriptEvent) -> Result<(), NoMemory>
        requires { MayFollow self.old event }
        ensures ok { OnOk result (self.new ≡ self.old ++ event ∷ []) }
        ensures err { OnErr result (self.new ≡ self.old) }
    {
        self.events.reserve(1)?;
        track(&mut self.newest, &mut self.sessions, &event)?;
        self.events.push_reserved(event);
        Ok(())
    }

    pub fn as_slice(&self) -> &[ScriptEvent]
        ensures events { result.now ≡ self.now }
        ensures playable { IsPlayable self.now }
    {
        self.events.as_slice()
    }

    /// The events, in order.
    pub fn into_events(self) -> Vec<ScriptEvent>
        ensures events { result.items ≡ self }
        ensures playable { IsPlayable self }
    {
        self.events
    }
}
