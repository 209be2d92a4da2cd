//! The segmented store.

mod asking;
mod beside_plain;
mod lent_buffers;
mod limits;
mod random;
