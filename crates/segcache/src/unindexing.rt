//! Takes items out of the index, with their marks: one, those of a segment, those whose deadline
//! has come, and all.

ghost use Rattle.std.specs.Prelude.{◌≡◌, ◌<◌, true, false, Some, is_some};
ghost use Rattle.std.specs.FinMap as map;
ghost use Rattle.segcache.specs.Invariants.{IsTied, AreDated};
ghost use Rattle.segcache.specs.Shown.{current};
ghost use Rattle.segcache.specs.State.{IsSegmentedMap};
ghost use Rattle.segcache.specs.Writes.{HasSamePool, FindsKey};
ghost use Rattle.segments.specs.Pools.{key_at, has_live};
ghost use Rattle.segments.specs.Merges.{contains_number, planned_segments};
ghost use Rattle.segcache.specs.LiveItems.{live_marks, is_dead};
ghost use Rattle.segcache.specs.OwnDeadlines.{may_expire};
ghost use Rattle.index.specs.Searches.{IsEntryOf};
ghost use Rattle.segcache.specs.Removals.{HasLeft, HaveArrivedLeft, HaveExpiredLeft, AllWaitIn};

use crate::segment_map::SegmentMap;
use engine::has_arrived;
use index::{Entry, Index};
use segments::{LiveMarks, Place, Pool};

/// Takes the current item of a key, which stands at the place, out. The key may be borrowed from
/// the pool.
fn unindex(pool: &Pool, index: &mut Index, marks: &mut LiveMarks, key: &[u8], place: Place)
    requires tied { IsTied pool.now index.old marks.old }
    requires there { map.get (current pool.now index.old) key.now ≡ Some place }
    ensures tied { IsTied pool.now index.new marks.new }
    ensures left { current pool.now index.new ≡ map.remove (current pool.now index.old) key.now }
{
    index.remove(pool, key, place);
    marks.unmark(place);
}

/// Takes the current item of a key out, which stands at the place, and whose search found this.
fn unindex_found(
    pool: &Pool,
    index: &mut Index,
    marks: &mut LiveMarks,
    key: &[u8],
    found: Entry,
    place: Place,
)
    requires tied { IsTied pool.now index.old marks.old }
    requires found { IsEntryOf (key_at pool.now) index.old key.now found }
    requires there { map.get (current pool.now index.old) key.now ≡ Some place }
    ensures tied { IsTied pool.now index.new marks.new }
    ensures left { current pool.now index.new ≡ map.remove (current pool.now index.old) key.now }
{
    index.remove_found(pool, key, found);
    marks.unmark(place);
}

/// Whether an item may expire at the moment in a segment with this deadline.
fn may_expire(exact: bool, shared: Option<u64>, moment: u64) -> bool
    ensures { result ≡ may_expire exact shared moment }
{
    match shared {
        None => exact,
        Some(deadline) => deadline <= moment,
    }
}

/// The slot that a search found.
fn slot_of(found: Entry) -> usize {
    match found {
        Entry::At { slot, .. } => slot,
        Entry::Gap { slot, .. } => slot,
    }
}

/// Whether the index has a place in a slot that is in the segment, of an item whose deadline hasn't
/// come at the moment.
fn is_witnessed(
    pool: &Pool,
    index: &Index,
    _marks: &LiveMarks,
    moment: u64,
    segment: u32,
    slot: usize,
) -> bool
    requires tied { IsTied pool.now index.now _marks.now }
    ensures { result ≡ true → has_live (live_marks _marks.now moment) pool.now segment ≡ true }
{
    match index.place_in(slot) {
        Some(place) => place.segment == segment && !has_arrived(pool.item(place).deadline, moment),
        None => false,
    }
}

/// The index's slot of the first current item of a segment whose deadline hasn't come at the
/// moment; None if the segment has none.
fn find_waiting(
    pool: &Pool,
    index: &Index,
    marks: &LiveMarks,
    moment: u64,
    segment: u32,
) -> Option<usize>
    requires in_range { segment < pool.now.sizes.segments }
    requires tied { IsTied pool.now index.now marks.now }
    ensures { is_some result ≡ has_live (live_marks marks.now moment) pool.now segment }
{
    let mut walk = pool.walk(segment);
    while let Some((place, item)) = walk.next() {
        if marks.is_marked(place) {
            if !has_arrived(item.deadline, moment) {
                return Some(slot_of(index.find(pool, item.key)));
            }
        }
    }
    None
}

/// Whether a segment has a current item whose deadline hasn't come at the moment. The one that was
/// noted last is looked at first.
fn has_waiting(
    pool: &Pool,
    index: &Index,
    marks: &LiveMarks,
    moment: u64,
    segment: u32,
    witnesses: &mut Vec<usize>,
) -> bool
    requires in_range { segment < pool.now.sizes.segments }
    requires tied { IsTied pool.now index.now marks.now }
    ensures { result ≡ has_live (live_marks marks.now moment) pool.now segment }
{
    let number = segment as usize;
    if number < witnesses.len()
        && is_witnessed(pool, index, marks, moment, segment, witnesses[number])
    {
        return true;
    }
    match find_waiting(pool, index, marks, moment, segment) {
        Some(slot) => {
            if number < witnesses.len() {
                witnesses[number] = slot;
            }
            true
        }
        None => false,
    }
}

/// Whether a segment may have items whose deadline has come at the moment, and has no other current
/// ones. Where items have none of their own, that of the segment says it.
fn is_expired(
    pool: &Pool,
    index: &Index,
    marks: &LiveMarks,
    moment: u64,
    segment: u32,
    witnesses: &mut Vec<usize>,
) -> bool
    requires in_range { segment < pool.now.sizes.segments }
    requires tied { IsTied pool.now index.now marks.now }
    requires dated { AreDated pool.now }
    ensures dead { result ≡ true → is_dead marks.now pool.now moment segment ≡ true }
    ensures alive { result ≡ false → is_dead marks.now pool.now moment segment ≡ true
        → AllWaitIn pool.now moment segment }
{
    let exact = pool.is_exact();
    if !may_expire(exact, pool.deadline(segment), moment) {
        return false;
    }
    if !exact {
        return true;
    }
    !has_waiting(pool, index, marks, moment, segment, witnesses)
}

impl SegmentMap {
    /// Takes the item of a key out, whose search found this, if there is one.
    pub fn remove_key(&mut self, key: &[u8], found: Entry)
        requires { FindsKey self.old key.now found }
        ensures left { current self.new.pool self.new.index
            ≡ map.remove (current self.old.pool self.old.index) key.now }
        ensures same { HasSamePool self.old self.new }
        ensures moment { self.new.moment ≡ self.old.moment }
    {
        if let Some(place) = self.index.place_found(&self.pool, key, found) {
            self.counts.take_out(&self.pool, place);
            unindex_found(
                &self.pool,
                &mut self.index,
                &mut self.marks,
                key,
                found,
                place,
            );
        }
    }

    /// Takes the current items of a segment out.
    pub fn unindex_segment(&mut self, segment: u32)
        requires in_range { segment < self.old.pool.sizes.segments }
        ensures left { HasLeft segment (current self.old.pool self.old.index) (current self.new.pool self.new.index) }
        ensures same { HasSamePool self.old self.new }
        ensures moment { self.new.moment ≡ self.old.moment }
    {
        let mut walk = self.pool.walk(segment);
        while let Some((place, item)) = walk.next() {
            if self.marks.is_marked(place) {
                self.counts.take_out(&self.pool, place);
                unindex(
                    &self.pool,
                    &mut self.index,
                    &mut self.marks,
                    item.key,
                    place,
                );
            }
        }
    }

    /// Takes the current items of a segment out whose deadline has come. None is read if none may
    /// have expired.
    pub fn unindex_arrived(&mut self, segment: u32)
        requires in_range { segment < self.old.pool.sizes.segments }
        ensures left { HaveArrivedLeft self.old.pool self.old.moment segment
            (current self.old.pool self.old.index) (current self.new.pool self.new.index) }
        ensures same { HasSamePool self.old self.new }
        ensures moment { self.new.moment ≡ self.old.moment }
    {
        let deadline = self.pool.deadline(segment);
        if !may_expire(self.pool.is_exact(), deadline, self.moment) {
            return;
        }
        let mut walk = self.pool.walk(segment);
        while let Some((place, item)) = walk.next() {
            if self.marks.is_marked(place) {
                if has_arrived(item.deadline, self.moment) {
                    self.counts.take_out(&self.pool, place);
                    unindex(
                        &self.pool,
                        &mut self.index,
                        &mut self.marks,
                        item.key,
                        place,
                    );
                }
            }
        }
    }

    /// Takes the current items of the segments out in which the deadline of each has come.
    pub fn unindex_dead(&mut self)
        ensures left { HaveExpiredLeft self.old.pool self.old.moment
            (is_dead self.old.marks self.old.pool self.old.moment)
            (current self.old.pool self.old.index) (current self.new.pool self.new.index) }
        // for callers that read no field
        ensures kept { IsSegmentedMap self.old }
        ensures same { HasSamePool self.old self.new }
        ensures moment { self.new.moment ≡ self.old.moment }
    {
        for segment in 0..self.pool.geometry().segments() {
            if is_expired(
                &self.pool,
                &self.index,
                &self.marks,
                self.moment,
                segment,
                &mut self.witnesses,
            ) {
                self.unindex_arrived(segment);
            }
        }
    }

    /// Takes the current items of the segments out that are to be merged whose deadline has come.
    pub fn unindex_merged(&mut self)
        ensures left { HaveExpiredLeft self.old.pool self.old.moment
            (contains_number (planned_segments self.old.pool))
            (current self.old.pool self.old.index) (current self.new.pool self.new.index) }
        // for callers that read no field
        ensures kept { IsSegmentedMap self.old }
        ensures same { HasSamePool self.old self.new }
        ensures moment { self.new.moment ≡ self.old.moment }
    {
        for k in 0..self.pool.merged().len() {
            let segment = self.pool.merged()[k];
            self.unindex_arrived(segment);
        }
    }

    /// Takes all current items out.
    pub fn remove_all(&mut self)
        ensures left { current self.new.pool self.new.index ≡ map.empty }
        ensures same { HasSamePool self.old self.new }
        ensures moment { self.new.moment ≡ self.old.moment }
    {
        self.index.clear();
        self.counts.bytes = 0;
        for segment in 0..self.pool.geometry().segments() {
            self.marks.clear_segment(segment);
        }
    }
}
