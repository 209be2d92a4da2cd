//! Groups: a worker for each port and one storage thread, each in a thread of its own, started
//! together, joined and gathered.
#![tactic(auto)]

mod context;
mod executing;
mod fault;
pub mod laws;
mod report;
mod run;
mod start;
mod threads;

pub use context::Runtime;
pub use fault::GroupFault;
pub use report::{Config, GroupReport, GroupWorker};
pub use run::run_group;
pub use start::CalledOff;
