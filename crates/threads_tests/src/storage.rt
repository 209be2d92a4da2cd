//! The lanes' ends, the storage thread, over the segmented store, and a storage side that threads
//! share.

mod callers;
mod ends;
mod lane;
mod sharing;
