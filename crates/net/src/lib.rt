//! Sockets: a listener that hands streams to workers, and a worker's port over such streams.
#![tactic(auto)]

mod address;
mod closings;
mod fault;
mod hand;
mod interval;
mod lingering;
mod listener;
mod notices;
mod open_stream;
mod peer;
mod polls;
mod port;
mod probes;
mod read_memory;
mod sockets;
mod streams;

pub use address::is_path;
pub use closings::Closing;
pub use fault::{NetFault, Refusal};
pub use hand::{Hand, StreamSender};
pub use listener::{ListenReport, Listener};
pub use notices::{Notices, ProcessorTimes};
pub use peer::Peer;
pub use port::MioPort;
pub use streams::Owner;
