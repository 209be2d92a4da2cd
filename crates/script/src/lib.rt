//! Scripts: what the peers of a run do, as lines of text; and the clock and the port that play one
//! to a group.
#![tactic(auto)]

mod clock;
mod event;
mod fault;
mod line;
mod player;
mod port;
mod reader;
mod remaining;
mod sessions;
mod worker_script;

pub use clock::{RecordingClock, ScriptClock};
pub use event::ScriptEvent;
pub use fault::{LineFault, ScriptFault};
pub use port::ScriptPort;
pub use reader::{MAX_SCRIPT, read_script};
pub use sessions::{Numbered, ScriptSession, position_of};
pub use worker_script::WorkerScript;
