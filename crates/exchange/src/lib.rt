//! Lanes between workers and one storage thread, without a lock; the word that a thread parks on;
//! and the hints by which storage reads ahead.
#![tactic(auto)]

mod idle_turns;
mod messages;
mod opening;
mod rule;
mod signals;
mod steps;
mod storage;
mod told;
mod waits;
mod worker;

pub use idle_turns::IdleTurns;
pub use messages::Taken;
pub use opening::{Exchange, Gathered, MakeFault, gather, make};
pub use proto::{Answered, MAX_POSTS, Posted, WINDOW};
pub use signals::{GroupSignals, ParkingWord};
pub use storage::{StorageEnd, StorageLanes};
pub use told::{ExchangeName, ToldHistory};
pub use waits::Waits;
pub use worker::{SentList, WorkerEnd, WorkerLane};
