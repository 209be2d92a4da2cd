//! The storage side: it takes requests from its end of the exchange, executes them one at a time,
//! and answers them. One thread at a time holds it: the storage thread alone, or whichever has
//! posted.
#![tactic(auto)]

mod serving;
mod sharing;
mod side;
mod stats;

pub use serving::{StorageReport, next_moment, run_storage};
pub use sharing::{LockId, Serve, SharedSide, SharedStorage};
pub use side::{Origin, Served, StorageSide, Turn};
