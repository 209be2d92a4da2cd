//! The map of live entries that stand in segments.

ghost use Rattle.std.specs.Prelude.{◌≡◌, ◌<◌, ◌≤◌, false, IfOk, IsSome, Some};
ghost use Rattle.std.specs.FinMap as map;
ghost use Rattle.proto.specs.Buckets.{time_to_live};
ghost use Rattle.segments.specs.Items.{Item};
ghost use Rattle.segments.specs.Shown.{item_of};
ghost use Rattle.segments.specs.Pools.{IsPool, bucket_count, item_in, place_deadline};
ghost use Rattle.segments.specs.Changes.{new_pool, with_eviction};
ghost use Rattle.engine.specs.Shown.{entry_of};
ghost use Rattle.segcache.specs.Shown.{entry_at, shown_entries};
ghost use Rattle.segcache.specs.Writes.{loses_little, may_give, suits_segment, may_share_segment, stays_as};
ghost use Rattle.segcache.specs.Writes.{is_same, touch_leaves_by, unread_by};
ghost use Rattle.segcache.specs.OwnDeadlines.{storable_or_zero, own_deadline_by};
ghost use Rattle.segcache.specs.ItemBuckets.{bucket_for};
ghost use Rattle.engine.specs.Deadlines.{is_storable_deadline};

use crate::counts::StoreCounts;
use engine::{EntryRef, LiveMap, StoreMap, has_arrived};
use index::{Entry, Index, layout_for, slots_for};
use proto::{Eviction, Gauge, Gauges, Geometry, NoMemory};
use segments::{ItemRef, LASTING, LONGEST_LIFE, LiveMarks, Place, Pool, bucket_of, life_width};
use std::alloc::Global;
use std::hash::FoldHasher;
use std::marker::Model;
use std::sync::atomic::{AtomicU64, Ordering};

/// Entries in the segments of a pool, found by an index. All memory is taken when the map is made.
#[derive(Drop)]
pub struct SegmentMap {
    pub(crate) pool: Pool,
    pub(crate) index: Index,
    /// Which items of the pool the index has.
    pub(crate) marks: LiveMarks,
    pub(crate) moment: u64,
    /// Some of what was read ahead last, so that a compiler doesn't leave the reads out.
    read_ahead: AtomicU64,
    /// For `stats` alone.
    pub(crate) counts: StoreCounts,
    /// How often an item was looked up whose deadline had come.
    expired_gets: AtomicU64,
    /// For each segment the index's slot of an item that was live there when that was asked last.
    pub(crate) witnesses: Vec<usize>,
}

impl Model for SegmentMap {
    ghost use Rattle.segcache.specs.State.{MapState, IsSegmentedMap};

    ghost Value = { MapState };

    ghost view = { λ a. record { pool = a.pool; index = a.index; marks = a.marks; moment = a.moment } };

    ghost invariant = { λ a. IsSegmentedMap
        (record { pool = a.pool; index = a.index; marks = a.marks; moment = a.moment }) };
}

/// The time to live in seconds of an entry that is written at the moment.
fn time_to_live(deadline: Option<u64>, now: u64) -> Option<u64>
    ensures { result ≡ time_to_live deadline now }
{
    let deadline = deadline?;
    Some(deadline.saturating_sub(now).max(1))
}

/// Whether a life, of which what is above the longest one doesn't count, loses less than two widths
/// of its bucket.
fn loses_little(now: u64, asked: u64, given: u64) -> bool
    requires { now ≤ asked }
    ensures { result ≡ loses_little now asked given }
{
    let most = asked.min(now.saturating_add(LONGEST_LIFE));
    most.saturating_sub(given) < 2 * life_width(asked - now)
}

/// Whether a write at the moment that asks for one deadline may give the other.
pub(crate) fn may_give(now: u64, asked: Option<u64>, given: Option<u64>) -> bool
    ensures { result ≡ may_give now asked given }
{
    match (asked, given) {
        (None, None) => true,
        (Some(asked), Some(given)) => {
            now < given && given <= asked && loses_little(now, asked, given)
        }
        _ => false,
    }
}

/// From this second on a deadline needs more than six bytes, and no item has it as its own.
const FAR: u64 = 281_474_976_710_656;

/// Whether an item can have this deadline of its own.
fn is_storable_deadline(deadline: Option<u64>) -> bool
    ensures { result ≡ is_storable_deadline deadline }
{
    match deadline {
        None => true,
        Some(deadline) => deadline < FAR,
    }
}

/// The deadline of its own that an item gets, which asks for one; 0 where it has none of its own.
fn storable_or_zero(asked: Option<u64>) -> u64
    ensures { result ≡ storable_or_zero asked }
{
    match asked {
        Some(deadline) if deadline < FAR => deadline,
        _ => 0,
    }
}

/// That, where items have their own deadlines.
fn own_deadline_by(exact: bool, asked: Option<u64>) -> u64
    ensures { result ≡ own_deadline_by exact asked }
{
    if exact { storable_or_zero(asked) } else { 0 }
}

fn is_same(one: Option<u64>, other: Option<u64>) -> bool
    ensures { result ≡ is_same one other }
{
    match (one, other) {
        (None, None) => true,
        (Some(one), Some(other)) => one == other,
        _ => false,
    }
}

/// Whether an item with the first deadline of its own, which hasn't come, goes into a segment with
/// the second one: that is the same or little earlier, and may have come; or there is none, where
/// all stand in one chain.
fn suits_segment(one_chain: bool, now: u64, own: Option<u64>, shared: Option<u64>) -> bool
    ensures { result ≡ suits_segment one_chain now own shared }
{
    match (own, shared) {
        (None, None) => true,
        (None, Some(_)) => false,
        (Some(own), None) => one_chain && now < own,
        (Some(own), Some(shared)) => {
            now < own
                && shared <= own
                && (loses_little(now, own, shared) || own - shared <= (own - now) / 8)
        }
    }
}

/// Whether an item that asks for the one deadline may stand in a segment with the other one: a
/// write may give that, or the item has its own, which goes in there.
pub(crate) fn may_share_segment(
    exact: bool,
    one_chain: bool,
    now: u64,
    asked: Option<u64>,
    shared: Option<u64>,
) -> bool
    ensures { result ≡ may_share_segment exact one_chain now asked shared }
{
    may_give(now, asked, shared)
        || (exact && is_storable_deadline(asked) && suits_segment(one_chain, now, asked, shared))
}

/// Whether an entry with this deadline may stay if another one is asked for at the moment: it may
/// be one that a write gives, or at most an eighth of the life asked for is missing.
fn stays_as(now: u64, asked: Option<u64>, given: Option<u64>) -> bool
    ensures { result ≡ stays_as now asked given }
{
    match (asked, given) {
        (None, None) => true,
        (Some(asked), Some(given)) => {
            now < given
                && given <= asked
                && (loses_little(now, asked, given) || asked - given <= (asked - now) / 8)
        }
        _ => false,
    }
}

/// Whether an entry with this deadline is left if another one is asked for: if it may stay; and
/// where items have their own deadlines, if it is that one, as far as an item can have it.
fn touch_leaves_by(exact: bool, now: u64, asked: Option<u64>, given: Option<u64>) -> bool
    ensures { result ≡ touch_leaves_by exact now asked given }
{
    if exact && is_storable_deadline(asked) {
        is_same(asked, given)
    } else {
        stays_as(now, asked, given)
    }
}

/// The entry of the item at a place, lent.
fn entry_at<'a>(pool: &'a Pool, place: Place) -> EntryRef<'a>
    requires { IsSome (item_in pool.now place) }
    ensures entry { entry_of result ≡ entry_at pool.now place }
    ensures deadline { result.deadline ≡ place_deadline pool.now place }
{
    let item = pool.item(place);
    EntryRef {
        value: item.value,
        flags: item.flags,
        deadline: item.deadline,
        cas: item.cas,
    }
}

/// The item of an entry that is put over the one at a place, whose read count it keeps.
fn item_over<'a>(pool: &Pool, place: Place, key: &'a [u8], entry: EntryRef<'a>) -> ItemRef<'a>
    requires { IsSome (item_in pool.now place) }
    ensures { (found : Item) × (Some found ≡ item_in pool.now place)
        × (item_of result ≡ record (unread_by false key.now (entry_of entry.entry)) {
          reads = found.reads;
          own_deadline = found.own_deadline;
        }) }
{
    let found = pool.item(place);
    ItemRef {
        key,
        value: entry.value,
        flags: entry.flags,
        deadline: entry.deadline,
        cas: entry.cas,
        reads: found.reads,
        own_deadline: found.own_deadline,
    }
}

impl SegmentMap {
    /// The bucket in which an item goes that asks for this deadline: where all stand in one chain,
    /// and it can have that as its own, the one of items without a deadline, and else that of its
    /// time to live.
    fn bucket_for(&self, deadline: Option<u64>) -> usize
        ensures value { result ≡ bucket_for self.now.pool self.now.moment deadline }
        ensures in_range { result < bucket_count }
    {
        if self.pool.shares_one_chain() && is_storable_deadline(deadline) {
            return LASTING;
        }
        bucket_of(time_to_live(deadline, self.moment))
    }
}

impl LiveMap for SegmentMap {
    ghost use Rattle.std.specs.Prelude.{false};
    ghost use Rattle.segcache.specs.Shown.{shown_entries};
    ghost use Rattle.segcache.specs.Writes.{StandsAt, FindsKey, WritesToSegments, ChangesSegments, touch_leaves};
    ghost use Rattle.segcache.specs.Writes.{IsReadAgain, IsTouched, HasSamePool};
    ghost use Rattle.segcache.specs.Keeping.{KeepsStored};

    type Place = Place;

    type Spot = Entry;

    ghost sizes = { λ m. m.pool.sizes };

    ghost entries = { λ m. shown_entries m.pool m.index m.moment };

    ghost moment = { λ m. m.moment };

    ghost may_refuse = { false };

    ghost stands = { StandsAt };

    ghost finds = { FindsKey };

    ghost writes = { WritesToSegments };

    ghost changes = { ChangesSegments };

    ghost reads = { IsReadAgain };

    ghost touches = { IsTouched };

    ghost stays = { touch_leaves };

    ghost alike = { HasSamePool };

    ghost keeps = { KeepsStored };

    fn item_limit(&self) -> u32 {
        self.pool.geometry().item_limit()
    }

    fn last_moment(&self) -> u64 {
        self.moment
    }

    fn key_hasher(&self) -> FoldHasher {
        self.index.hasher()
    }

    fn prefetch(&self, hashes: &[u64]) {
        let read = self.index.prefetch(&self.pool, hashes);
        self.read_ahead.store(read, Ordering::Relaxed);
    }

    fn set_gauges(&self, gauges: &Gauges) {
        let counts = &self.counts;
        let geometry = self.pool.geometry();
        let size = u64::from(geometry.segment_size());
        let segments = u64::from(geometry.segments());
        let free = self.pool.free_count() as u64;
        let used = size.wrapping_mul(segments.saturating_sub(free));
        gauges.set(&[
            (Gauge::LimitBytes, size.wrapping_mul(segments)),
            (Gauge::SegmentSize, size),
            (Gauge::Segments, segments),
            (Gauge::SegmentsFree, free),
            (Gauge::CurrItems, self.index.len() as u64),
            (Gauge::ItemLimit, u64::from(geometry.item_limit())),
            (Gauge::GetExpired, self.expired_gets.load(Ordering::Relaxed)),
            (Gauge::Bytes, counts.bytes),
            (Gauge::DeadBytes, used.saturating_sub(counts.bytes)),
            (Gauge::Evictions, counts.evicted_keys()),
            (Gauge::EvictedByMerge, counts.merged_keys),
            (Gauge::EvictedByClearing, counts.cleared_keys),
            (Gauge::Reclaimed, counts.expired_keys),
            (Gauge::SegmentsEmptied, counts.emptied),
            (Gauge::Merges, counts.merges),
            (Gauge::SegmentsCleared, counts.cleared),
        ]);
    }

    fn evictions(&self) -> u64 {
        self.counts.evictions()
    }

    fn advance(&mut self, now: u64) {
        self.moment = now;
    }

    fn find(&self, key: &[u8]) -> Entry {
        self.index.find(&self.pool, key)
    }

    fn entry_found<'a>(&'a self, key: &[u8], spot: Entry) -> Option<(EntryRef<'a>, Place)> {
        let place = self.index.place_found(&self.pool, key, spot)?;
        let entry = entry_at(&self.pool, place);
        if has_arrived(entry.deadline, self.moment) {
            let expired = self.expired_gets.load(Ordering::Relaxed);
            self.expired_gets
                .store(expired.wrapping_add(1), Ordering::Relaxed);
            return None;
        }
        Some((entry, place))
    }

    fn entry_at<'a>(&'a self, _key: &[u8], place: Place) -> EntryRef<'a> {
        entry_at(&self.pool, place)
    }

    fn count_read(&mut self, _key: &[u8], place: Place) {
        self.pool.count_read(place);
    }

    fn count_touch(&mut self, _key: &[u8], place: Place) {
        self.pool.count_hit(place.segment);
    }

    fn write(&mut self, key: &[u8], spot: Entry, entry: EntryRef) -> Result<(), NoMemory> {
        let item = ItemRef {
            key,
            value: entry.value,
            flags: entry.flags,
            deadline: entry.deadline,
            cas: entry.cas,
            reads: 0,
            own_deadline: own_deadline_by(self.pool.is_exact(), entry.deadline),
        };
        if let Some(place) = self.place_over(item, spot) {
            self.put_over(place, item);
            return Ok(());
        }
        let bucket = self.bucket_for(entry.deadline);
        self.write_item(bucket, item, spot);
        Ok(())
    }

    fn rewrite(
        &mut self,
        key: &[u8],
        spot: Entry,
        place: Place,
        entry: EntryRef,
    ) -> Result<(), NoMemory> {
        let item = item_over(&self.pool, place, key, entry);
        if !self.pool.fits_over(place, item) {
            return self.write(key, spot, entry);
        }
        self.pool.overwrite(place, item);
        Ok(())
    }

    fn may_stay(&self, _key: &[u8], place: Place, deadline: Option<u64>) -> bool {
        let given = self.pool.item(place).deadline;
        touch_leaves_by(self.pool.is_exact(), self.moment, deadline, given)
    }

    fn remove(&mut self, key: &[u8], spot: Entry) {
        self.remove_key(key, spot);
    }

    fn clear(&mut self) {
        self.remove_all();
    }
}

impl StoreMap for SegmentMap {
    ghost use Rattle.segcache.specs.Promises.{IsMadeFor, PromisesSegments};

    ghost made = { IsMadeFor };

    ghost promises = { PromisesSegments };

    ghost is_exact = { λ m. m.pool.exact };

    fn seeded(
        alloc: Global,
        geometry: Geometry,
        seed: u64,
        eviction: Eviction,
        exact: bool,
    ) -> Result<Self, NoMemory> {
        let mut pool = Pool::new(alloc, geometry)?;
        pool.set_rules(eviction, exact);
        Ok(SegmentMap {
            pool,
            index: Index::new(alloc, slots_for(geometry), layout_for(geometry), seed)?,
            marks: LiveMarks::new(alloc, geometry)?,
            moment: 0,
            read_ahead: AtomicU64::new(0),
            counts: StoreCounts::default(),
            expired_gets: AtomicU64::new(0),
            witnesses: vec![in alloc; 0; geometry.segments() as usize]?,
        })
    }

    fn keep_promises() {}
}
