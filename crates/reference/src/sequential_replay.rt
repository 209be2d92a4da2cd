//! A whole run.

ghost use Rattle.std.specs.Prelude.{◌≡◌, ℕ, ◌<◌, ◌++◌, ◌∷◌, [], List, length, map, IfOk, OnOk, slice_index, slice_set};
ghost use Rattle.std.specs.List.Sorted.{IsStrictlyIncreasing};
ghost use Rattle.proto.specs.Cache.{empty_cache};
ghost use Rattle.script.specs.declared.event.ScriptEvent.{ScriptEvent};
ghost use Rattle.script.specs.Events.{IsPlayable, MayFollow};
ghost use Rattle.reference.specs.declared.sequential_session.SequentialSession.{SequentialSession};
ghost use Rattle.reference.specs.SequentialSessions.{Setup};
ghost use Rattle.reference.specs.SequentialReplays.{IsReplay, RunsEvent, numbers_of, output_of};

use crate::sequential_session::{Executor, SequentialSession};
use engine::StorageEngine;
use proto::{ByteString, NoMemory};
use script::{Numbered, ScriptClock, ScriptEvent, position_of};
use std::alloc::Global;

/// A session, and all bytes that it was given.
#[derive(Drop)]
pub struct SessionOutput {
    pub session: u64,
    pub output: ByteString,
}

impl Numbered for SequentialSession {
    ghost number_of = { λ s. s.number };

    fn number(&self) -> u64
        ensures { result ≡ self.now.number }
    {
        self.number
    }
}

/// Plays the next event.
fn play<E: StorageEngine + Drop>(
    alloc: Global,
    executor: &mut Executor<E>,
    sessions: &mut Vec<SequentialSession>,
    event: &ScriptEvent,
) -> Result<(), NoMemory>
    requires { IsStrictlyIncreasing (numbers_of sessions.old.items) }
    ensures { OnOk result (RunsEvent executor.old sessions.old.items event.now executor.new sessions.new.items) }
{
    match event {
        ScriptEvent::Open(number) => sessions.push(SequentialSession::new(alloc, *number))?,
        ScriptEvent::Send(number, bytes) => {
            if let Some(at) = position_of(sessions.as_slice(), *number) {
                sessions[at].feed(alloc, executor, bytes.as_slice())?;
            }
        }
        ScriptEvent::Gone(_) => {}
    }
    Ok(())
}

/// What a session was given.
fn output_of(session: SequentialSession) -> SessionOutput
    ensures { result ≡ output_of session }
{
    SessionOutput {
        session: session.number,
        output: ByteString::from_vec(session.output),
    }
}

/// What the sessions were given.
fn outputs(alloc: Global, sessions: Vec<SequentialSession>) -> Result<Vec<SessionOutput>, NoMemory>
    ensures { IfOk result (λ given. given.items ≡ map output_of sessions.items) }
{
    let mut given = Vec::with_capacity(alloc, sessions.len())?;
    for session in sessions {
        given.push(output_of(session))?;
    }
    Ok(given)
}

/// Runs the events of one worker, in order, on one thread: each whole message of a session is
/// executed and answered before the next event. The store is new. Gives each session that was
/// opened, in order of its number, with all bytes that it was given.
///
/// # Errors
///
/// NoMemory if out of memory.
pub fn replay_sequentially<E: StorageEngine + Drop>(
    alloc: Global,
    store: E,
    clock: ScriptClock,
    events: &[ScriptEvent],
) -> Result<Vec<SessionOutput>, NoMemory>
    requires playable { IsPlayable events.now }
    requires no_entry { E.cache store ≡ empty_cache 0 }
    requires no_request { E.moment store ≡ 0 }
    ensures { IfOk result (λ given. IsReplay (E.sizes store) clock events.now given.items) }
{
    let mut executor = Executor::new(store, clock);
    let mut sessions = Vec::new(alloc);
    for event in events {
        play(alloc, &mut executor, &mut sessions, event)?;
    }
    outputs(alloc, sessions)
}
