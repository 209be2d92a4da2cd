//! `segcached serve`, and the seed of the hash of its keys.
#![tactic(auto)]

mod closing_text;
mod fault;
mod memory;
mod operator;
mod seed;
mod service;
mod usage;

pub use fault::Fault;
pub use seed::seed_of;
pub use service::{Report, System, serve, serve_to_end};
