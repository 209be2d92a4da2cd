//! What a group asks of the system, and what all its threads are given.

use crate::report::Config;
use exchange::GroupSignals;
use std::alloc::Global;
use std::sync::{OnceLock, Wait};
use std::thread::Threads;
use std::time;

/// What a group asks of the system.
pub trait Runtime: Threads + Wait + time::Clock + Sync {}

impl<R: Threads + Wait + time::Clock + Sync> Runtime for R {}

/// What all threads of a group are given, beside what is each one's own.
#[derive_where(Clone, Copy)]
pub struct GroupContext<'a, G> {
    pub alloc: Global,
    /// Says once to all threads whether to begin.
    pub start: &'a OnceLock<bool>,
    pub config: Config,
    pub gate: &'a G,
    pub signals: &'a GroupSignals,
}
