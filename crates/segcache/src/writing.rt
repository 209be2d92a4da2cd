//! How an item is written: into its bucket's tail or a free segment, in place of the one that its
//! key has.

ghost use Rattle.std.specs.Prelude.{◌≡◌, ◌⊎◌, ◌<◌, None, false, IfSome, IsSome, IsTrue, MatchOption, MatchResult};
ghost use Rattle.std.specs.FinMap as map;
ghost use Rattle.proto.specs.Sizes.{item_limit};
ghost use Rattle.proto.specs.Cache.{has_arrived};
ghost use Rattle.segments.specs.Items.{IsStorable};
ghost use Rattle.segments.specs.Shown.{item_of};
ghost use Rattle.segments.specs.Pools.{bucket_count, item_in};
ghost use Rattle.segments.specs.Changes.{HasNoRoom, IsAddedToTail, IsAddedToFree};
ghost use Rattle.segments.specs.Marks.{IsWithin};
ghost use Rattle.segcache.specs.Shown.{current};
ghost use Rattle.segcache.specs.State.{IsSegmentedMap};
ghost use Rattle.segcache.specs.Room.{IsPut, IsPutOver};
ghost use Rattle.segcache.specs.Removals.{marked_instead};
ghost use Rattle.segcache.specs.LiveItems.{live_marks, live_others};
ghost use Rattle.segcache.specs.ForgottenKeys.{PlacesItem};
ghost use Rattle.segcache.specs.OwnDeadlines.{own_deadline_by};
ghost use Rattle.segcache.specs.ItemBuckets.{bucket_for};
ghost use Rattle.segcache.specs.Writes.{GoesOver, StandsAt, FindsKey, goes_over};
ghost use Rattle.segments.specs.declared.place.Place.{Place as Spot};

use crate::segment_map::{SegmentMap, may_share_segment};
use index::Entry;
use segments::{ItemRef, LiveMarks, NoRoom, Place, size_of};

/// Marks the place of an item in place of the one that its key had.
fn mark_instead(marks: &mut LiveMarks, source: Option<Place>, place: Place)
    requires source { IfSome source (IsWithin marks.old.sizes) }
    requires place { IsWithin marks.old.sizes place }
    ensures { marks.new ≡ marked_instead marks.old source place }
{
    match source {
        None => marks.mark(place),
        Some(source) => {
            marks.unmark(source);
            marks.mark(place);
        }
    }
}

impl SegmentMap {
    /// The place of the item of its key over which an item goes, where the key's search found this;
    /// None if it is written anew.
    pub(crate) fn place_over(&self, item: ItemRef, found: Entry) -> Option<Place>
        requires found { FindsKey self.now item.key.now found }
        requires storable { IsStorable (item_limit self.now.pool.sizes) (item_of item) }
        ensures { MatchOption result
            ((place : Spot) → StandsAt self.now item.entry.key.now place
            → goes_over self.now item.entry.deadline (item_of item.entry) place ≡ false)
            (λ place. StandsAt self.now item.entry.key.now place
            × IsTrue (goes_over self.now item.entry.deadline (item_of item.entry) place)) }
    {
        if !self.pool.lets_go_over() {
            return None;
        }
        let place = self.index.place_found(&self.pool, item.key, found)?;
        let shared = self.pool.shared_deadline(place);
        let exact = self.pool.is_exact();
        let one_chain = self.pool.shares_one_chain();
        if may_share_segment(exact, one_chain, self.moment, item.deadline, shared)
            && self.pool.fits_over(place, item)
        {
            Some(place)
        } else {
            None
        }
    }

    /// Puts an item over the one of its key, which stands at the place. The read count stays.
    pub(crate) fn put_over(&mut self, place: Place, item: ItemRef)
        requires stands { StandsAt self.old item.key.now place }
        requires storable { IsStorable (item_limit self.old.pool.sizes) (item_of item) }
        requires goes { IsTrue (goes_over self.old item.deadline (item_of item) place) }
        requires own { item.own_deadline ≡ own_deadline_by self.old.pool.exact item.deadline }
        ensures over { GoesOver self.old (item_of item.entry) item.entry.deadline self.new }
        // for callers that read no field
        ensures kept { IsSegmentedMap self.old }
    {
        let reads = self.pool.item(place).reads;
        self.pool.overwrite(place, ItemRef { reads, ..item });
    }

    /// Puts an item, in place of the one that its key has, whose search found this, into its
    /// bucket's tail or a free segment. NoRoom if the tail doesn't take it and no segment is free.
    fn append(&mut self, bucket: usize, item: ItemRef, found: Entry) -> Result<Place, NoRoom>
        requires found { FindsKey self.old item.key.now found }
        requires bucket { bucket < bucket_count }
        requires storable { IsStorable (item_limit self.old.pool.sizes) (item_of item) }
        requires own { item.own_deadline ≡ own_deadline_by self.old.pool.exact item.deadline }
        requires waits { has_arrived item.deadline self.old.moment ≡ false }
        requires of_bucket { bucket ≡ bucket_for self.old.pool self.old.moment item.deadline }
        ensures appended { MatchResult result
            (λ place. (IsAddedToTail self.old.pool bucket self.old.moment (item_of item.entry) self.new.pool place
            ⊎ IsAddedToFree self.old.pool bucket self.old.moment (item_of item.entry) self.new.pool place)
            × (current self.new.pool self.new.index
            ≡ map.insert (current self.old.pool self.old.index) item.entry.key.now place))
            (λ _. HasNoRoom self.old.pool bucket self.old.moment (item_of item.entry) × (self.new ≡ self.old)) }
        // for callers that read no field
        ensures kept { IsSegmentedMap self.old }
        ensures moment { self.new.moment ≡ self.old.moment }
    {
        let place = self.pool.append(bucket, self.moment, item)?;
        let source = self.index.insert(&self.pool, item.key, found, place);
        self.counts.put(&self.pool, source, size_of(item));
        mark_instead(&mut self.marks, source, place);
        Ok(place)
    }

    /// Makes a segment free, and puts an item there, of a key that has none. That moves keys to
    /// other slots, so the key is searched for again.
    fn append_to_freed(&mut self, bucket: usize, item: ItemRef)
        requires bucket { bucket < bucket_count }
        requires storable { IsStorable (item_limit self.old.pool.sizes) (item_of item) }
        requires absent { map.get (current self.old.pool self.old.index) item.key.now ≡ None }
        requires no_room { HasNoRoom self.old.pool bucket self.old.moment (item_of item) }
        requires own { item.own_deadline ≡ own_deadline_by self.old.pool.exact item.deadline }
        requires waits { has_arrived item.deadline self.old.moment ≡ false }
        requires of_bucket { bucket ≡ bucket_for self.old.pool self.old.moment item.deadline }
        ensures put { IsPut self.old.pool self.old.index self.old.moment
            (item_of item.entry) item.entry.deadline self.new.pool self.new.index }
        ensures placed { PlacesItem (live_marks self.old.marks self.old.moment)
            self.old.pool self.old.index bucket self.old.moment
            (item_of item.entry) self.new.pool self.new.index }
        ensures moment { self.new.moment ≡ self.old.moment }
    {
        self.free_segment();
        let found = self.index.find(&self.pool, item.key);
        let _ = self.append(bucket, item, found);
    }

    /// Puts an item into the pool in place of the one that its key has, whose search found this. If
    /// that needs no free segment, the index needs no other search; else the old one is taken out,
    /// and a segment made free.
    pub fn write_item(&mut self, bucket: usize, item: ItemRef, found: Entry)
        requires found { FindsKey self.old item.key.now found }
        requires bucket { bucket < bucket_count }
        requires storable { IsStorable (item_limit self.old.pool.sizes) (item_of item) }
        requires own { item.own_deadline ≡ own_deadline_by self.old.pool.exact item.deadline }
        requires waits { has_arrived item.deadline self.old.moment ≡ false }
        requires of_bucket { bucket ≡ bucket_for self.old.pool self.old.moment item.deadline }
        ensures put { IsPutOver self.old.pool self.old.index self.old.moment
            (item_of item.entry) item.entry.deadline self.new.pool self.new.index }
        ensures placed { PlacesItem (live_others item.entry.key.now self.old.marks self.old.moment)
            self.old.pool self.old.index bucket
            self.old.moment (item_of item.entry) self.new.pool self.new.index }
        ensures moment { self.new.moment ≡ self.old.moment }
    {
        if self.append(bucket, item, found).is_err() {
            self.remove_key(item.key, found);
            self.append_to_freed(bucket, item);
        }
    }
}
