//! One worker's loop over a port: the port's events become requests, and the answers become bytes.
#![tactic(auto)]

mod executor;
mod gate;
mod hold_gate;
mod pauses;
mod retries;
mod run;
mod session_list;
mod worker;

pub use executor::{Executor, Posting};
pub use gate::{Gate, OpenGate};
pub use hold_gate::HoldGate;
pub use run::{WorkerReport, run_worker};
pub use session_book::EndCause;
pub use session_list::SessionList;
