//! A pool with marks of its current items, and the steps that make room.

ghost use Rattle.std.specs.Prelude.{◌≡◌};
ghost use Rattle.segments.specs.Marks.{KnowsPool};

use crate::pool::walks::has_item;
use crate::pool::writes::Writes;
use proto::Geometry;
use segments::{BUCKETS, ItemRef, LiveMarks, Move, Place, Pool, size_of};
use std::alloc::Global;
use std::test::Fail;

#[derive(Drop)]
pub struct Stock {
    pub pool: Pool,
    marks: LiveMarks,
    pub geometry: Geometry,
    ghost sizes: { pool.sizes ≡ geometry },
    ghost known: { KnowsPool marks pool },
}

impl Stock {
    /// An empty pool of segments of this size.
    #[tactic(auto, unfolding(segments::specs::Changes::new_pool))]
    pub fn new(alloc: Global, segment_size: u32, segments: u32) -> Result<Stock, Fail> {
        let geometry = Geometry::new(segment_size, segments)?;
        let pool = Pool::new(alloc, geometry)?;
        Ok(Stock {
            pool,
            marks: LiveMarks::new(alloc, geometry)?,
            geometry,
        })
    }

    /// Appends a current item that was never read, where a segment can hold it and one has room.
    pub fn append(
        &mut self,
        bucket: usize,
        moment: u64,
        cas: u64,
        key: &[u8],
        value: &[u8],
    ) -> Option<Place> {
        if bucket >= BUCKETS || moment > 1_000_000 || key.is_empty() {
            return None;
        }
        if key.len() > 250 || value.len() > 131_072 {
            return None;
        }
        let item = ItemRef {
            key,
            value,
            flags: 0,
            deadline: None,
            cas,
            reads: 0,
            own_deadline: 0,
        };
        if size_of(item) > self.geometry.item_limit() {
            return None;
        }
        let Ok(place) = self.pool.append(bucket, moment, item) else {
            return None;
        };
        self.marks.mark(place);
        Some(place)
    }

    /// The items of a segment are dead where its deadline has come.
    pub fn expire(&mut self, segment: u32, moment: u64) {
        if segment >= self.geometry.segments() {
            return;
        }
        if let Some(deadline) = self.pool.deadline(segment) {
            if deadline <= moment {
                self.marks.clear_segment(segment);
            }
        }
    }

    /// Frees the segments without a current item, and counts them.
    pub fn give_back(&mut self) -> usize {
        self.pool.give_back(&self.marks)
    }

    /// Plans the next merge, where there is one.
    pub fn plan(&mut self) -> bool {
        self.pool.plan_merge(&self.marks)
    }

    /// Carries out the next merge, where there is one.
    pub fn merge(&mut self, writes: &mut Writes) -> bool {
        if !self.pool.plan_merge(&self.marks) {
            return false;
        }
        self.marks.carry(self.pool.moves());
        writes.follow(self.pool.moves());
        self.pool.merge_next();
        true
    }

    /// Clears the segment that was opened first.
    pub fn clear_oldest(&mut self) -> Option<u32> {
        let segment = self.pool.oldest()?;
        self.marks.clear_segment(segment);
        self.pool.clear(segment);
        Some(segment)
    }

    /// The item at a place, if one stands there.
    pub fn item<'a>(&'a self, place: Place) -> Option<ItemRef<'a>> {
        if has_item(&self.pool, self.geometry, place) {
            Some(self.pool.item(place))
        } else {
            None
        }
    }

    /// Counts a read of the item at a place, if one stands there.
    pub fn read(&mut self, place: Place) {
        if has_item(&self.pool, self.geometry, place) {
            self.pool.count_read(place);
        }
    }

    /// The item at a place isn't current any more.
    pub fn forget(&mut self, place: Place) {
        let marks = self.geometry.segment_size() / 32;
        if place.segment < self.geometry.segments() && place.offset / 32 < marks {
            self.marks.unmark(place);
        }
    }

    /// The moves of the merge that was planned.
    pub fn moves(&self) -> &[Move] {
        self.pool.moves()
    }
}
