//! Why sessions are closed, as an operator is told.

use proto::FatalKind;

/// Why a session is closed whose peer may have wanted to go on.
#[derive(Clone, Copy)]
pub enum CloseReason {
    /// For what it sent.
    Sent(FatalKind),
    /// It was silent for too long.
    Idle,
    /// There is no memory for what it sends or is owed.
    Memory,
    /// Its client took no output, or sent no more of a large message, while others waited for the
    /// memory.
    Stalled,
}
