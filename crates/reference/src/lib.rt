//! The plain programs that tests compare with: a store that forgets nothing, and the sequential
//! replay of a script, on one thread. No part of the program stands on them.
#![tactic(auto)]

mod plain_map;
mod sequential_replay;
mod sequential_session;

pub use plain_map::{PlainMap, PlainStore};
pub use sequential_replay::{SessionOutput, replay_sequentially};
