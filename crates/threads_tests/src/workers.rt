//! The worker's loop, over the plain store: a storage thread runs beside it. And a gate that holds
//! workers.

mod hold_gate;
mod live;
mod recording_port;
mod records;
mod refusing_gate;
mod rows;
mod running;
mod scripts;
