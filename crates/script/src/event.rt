//! The events of a worker's sessions.

use bytes::Bytes;

/// What the peer of a session does.
#[derive(Drop)]
pub enum ScriptEvent {
    /// The session begins.
    Open(u64),
    /// Its bytes come.
    Send(u64, Bytes),
    /// Its peer has gone.
    Gone(u64),
}

/// A line of a script: an event, and the worker at which it comes.
#[derive(Drop)]
pub struct ScriptLine {
    pub worker: u64,
    pub event: ScriptEvent,
}
