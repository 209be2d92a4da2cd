//! The commands of the cache, over any map of live entries; what the storage thread asks of a store
//! and of a clock.
#![tactic(auto)]

mod carrying;
mod commands;
mod deadline;
mod laws;
mod live_map;
mod number;
mod scratch;
mod showing;
mod storage_engine;
mod store;

pub use carrying::carry_out;
pub use commands::Engine;
pub use deadline::has_arrived;
pub use laws::limits;
pub use live_map::{EntryRef, LiveMap};
pub use proto::Clock;
pub use storage_engine::{MAX_MOMENT, StorageEngine};
pub use store::StoreMap;
