//! What a map counts for `stats`: no clause speaks of it. After the greatest number a count goes on
//! from 0.

use segments::{Move, Place, Pool};

/// What a map did to make room, and the bytes of its items.
#[derive(Clone, Copy, Default)]
pub(crate) struct StoreCounts {
    pub(crate) merges: u64,
    /// Segments that were cleared.
    pub(crate) cleared: u64,
    /// Segments that were given back, as no item in them was current.
    pub(crate) emptied: u64,
    /// Keys that merges forgot, and those that clearings did.
    pub(crate) merged_keys: u64,
    pub(crate) cleared_keys: u64,
    /// Keys whose deadline had come when room was made.
    pub(crate) expired_keys: u64,
    /// The bytes of the current items.
    pub(crate) bytes: u64,
}

impl StoreCounts {
    /// Counts a merge, or a segment that was cleared, which forgot so many keys.
    pub(crate) fn forgot(&mut self, merged: bool, keys: usize) {
        if merged {
            self.merges = self.merges.wrapping_add(1);
            self.merged_keys = self.merged_keys.wrapping_add(keys as u64);
        } else {
            self.cleared = self.cleared.wrapping_add(1);
            self.cleared_keys = self.cleared_keys.wrapping_add(keys as u64);
        }
    }

    /// How often something was forgotten.
    pub(crate) fn evictions(&self) -> u64 {
        self.merges.wrapping_add(self.cleared)
    }

    /// How many keys were forgotten.
    pub(crate) fn evicted_keys(&self) -> u64 {
        self.merged_keys.wrapping_add(self.cleared_keys)
    }

    /// Counts what was done, besides forgetting, since these counts, to make a segment free: so
    /// many keys have gone, and so many segments are free. None was before.
    pub(crate) fn freed(&mut self, before: StoreCounts, keys: u64, free: u64) {
        let forgotten = self.evicted_keys().wrapping_sub(before.evicted_keys());
        self.expired_keys = self
            .expired_keys
            .wrapping_add(keys.saturating_sub(forgotten));
        if self.evictions() == before.evictions() {
            self.emptied = self.emptied.wrapping_add(free);
        }
    }

    /// An item of this size is current, in place of the one at the source.
    pub(crate) fn put(&mut self, pool: &Pool, source: Option<Place>, size: u32) {
        if let Some(source) = source {
            self.take_out(pool, source);
        }
        self.bytes = self.bytes.wrapping_add(u64::from(size));
    }

    /// The item at the place isn't current any more.
    pub(crate) fn take_out(&mut self, pool: &Pool, place: Place) {
        self.bytes = self.bytes.wrapping_sub(pool.size_at(place));
    }

    /// The items that these moves forget aren't current any more.
    pub(crate) fn forget(&mut self, pool: &Pool, moves: &[Move]) {
        for step in moves {
            if step.target.is_none() {
                self.take_out(pool, step.source);
            }
        }
    }
}
