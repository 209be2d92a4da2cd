//! The sessions of one worker: their unread bytes and a piece that is held until it fits, the
//! answers that are still missing, their output, and which of them have something to do.
#![tactic(auto)]

mod book;
mod buffer;
mod causes;
mod counts;
mod fault_line;
mod input;
pub mod laws;
mod load;
mod prepared;
mod ready_queues;
mod rooms;
mod session;
mod upkeep;

pub use book::Book;
pub use causes::{EndCause, OpenFault, Received, Settled, Unasked};
pub use fault_line::FaultLine;
pub use load::OUTPUT_BUDGET;
pub use ready_queues::Task;
pub use upkeep::Tick;
