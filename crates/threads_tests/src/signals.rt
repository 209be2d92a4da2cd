//! What storage and the workers of a run are woken by.

use exchange::GroupSignals;
use std::alloc::Global;
use std::hash::FoldHasher;
use std::process::Abort;
use std::sync::Arc;

/// The signals of storage and `workers` workers.
pub(crate) fn signals_of(rt: &impl Abort, alloc: Global, workers: usize) -> Arc<GroupSignals> {
    let signals = GroupSignals::new(alloc, FoldHasher::default(), workers, None).expect(
        rt, "memory",
    );
    Arc::new(alloc, signals).expect(rt, "memory")
}
