//! How a segment becomes free if none is: segments without a live item are given back, or else a
//! merge makes room, or a segment is cleared: the one that was opened first, or of those looked at
//! the one with the fewest hits.

ghost use Rattle.std.specs.Prelude.{◌≡◌, ℕ, MatchBool};
ghost use Rattle.segments.specs.Items.{Item};
ghost use Rattle.segments.specs.Pools.{IsPool, Plan};
ghost use Rattle.segments.specs.Changes.{HasNoRoom, IsPoolFull};
ghost use Rattle.segments.specs.Merges.{IsPlan, NoneQualifies, with_merge_planned, without_plan};
ghost use Rattle.segcache.specs.ForgottenKeys.{IsEvicted, HasMadeRoom};
ghost use Rattle.segcache.specs.LiveItems.{live_marks};
ghost use Rattle.segcache.specs.PlannedMerges.{HasPlan};
ghost use Rattle.segcache.specs.Room.{IsCrowded, IsRoomMade};

use crate::segment_map::SegmentMap;
use engine::has_arrived;
use segments::{ItemRef, Live, LiveMarks, Place, Pool};

/// Which items are live at a moment: the marked ones whose deadline hasn't come then.
#[derive(Drop)]
struct LiveAt<'a> {
    marks: &'a LiveMarks,
    moment: u64,
}

impl<'a> Live for LiveAt<'a> {
    ghost lives_at = { λ a. live_marks a.marks.now a.moment };

    // Whether a segment has a live item isn't known.
    ghost knows = { λ a p. ⊥ };

    fn lives(&self, place: Place, item: &ItemRef) -> bool {
        self.marks.is_marked(place) && !has_arrived(item.deadline, self.moment)
    }

    fn has_live(&self, _segment: u32) -> bool {
        true
    }
}

/// Plans the merge that comes next, of the items that are live at the moment. False if the rule
/// merges nothing.
fn plan_merge(pool: &mut Pool, marks: &LiveMarks, moment: u64) -> bool
    ensures plan { MatchBool result
        ((plan : Plan) × IsPlan (live_marks marks.now moment) pool.old plan
        × (pool.new ≡ with_merge_planned pool.old plan))
        (NoneQualifies pool.old × (pool.new ≡ without_plan pool.old)) }
    ensures pool { IsPool pool.new }
{
    pool.plan_merge(&LiveAt { marks, moment })
}

impl SegmentMap {
    /// Carries out the merge that was planned, once the items have left whose deadline has come.
    /// What was forgotten is counted.
    fn merge(&mut self)
        requires planned { HasPlan (live_marks self.old.marks self.old.moment) self.old.pool }
        requires crowded { IsCrowded self.old.pool self.old.index self.old.moment }
        ensures made { IsRoomMade self.old.pool self.old.index self.old.moment self.new.pool self.new.index }
        ensures evicted { IsEvicted (live_marks self.old.marks self.old.moment)
            self.old.pool self.old.index self.old.moment self.new.pool self.new.index }
        ensures moment { self.new.moment ≡ self.old.moment }
    {
        self.unindex_merged();
        let keys = self.index.len();
        let moves = self.pool.moves();
        self.counts.forget(&self.pool, moves);
        self.index.relocate(&self.pool);
        self.marks.carry(moves);
        self.pool.merge_next();
        self.counts
            .forgot(true, keys.saturating_sub(self.index.len()));
    }

    /// Forgets the items of the segment that is evicted, once those have left whose deadline has
    /// come. What was forgotten is counted.
    fn clear_victim(&mut self)
        requires full { IsPoolFull self.old.pool }
        requires crowded { IsCrowded self.old.pool self.old.index self.old.moment }
        ensures made { IsRoomMade self.old.pool self.old.index self.old.moment self.new.pool self.new.index }
        ensures evicted { NoneQualifies self.old.pool
            → IsEvicted (live_marks self.old.marks self.old.moment)
            self.old.pool self.old.index self.old.moment self.new.pool self.new.index }
        ensures moment { self.new.moment ≡ self.old.moment }
    {
        if let Some(segment) = self.pool.victim() {
            self.unindex_arrived(segment);
            let keys = self.index.len();
            self.unindex_segment(segment);
            self.pool.clear(segment);
            self.counts
                .forgot(false, keys.saturating_sub(self.index.len()));
        }
    }

    /// Forgets what has to be forgotten if each segment has a live item: what a merge doesn't keep,
    /// or, if nothing can be merged, a segment's items.
    fn forget_some(&mut self)
        requires full { IsPoolFull self.old.pool }
        requires crowded { IsCrowded self.old.pool self.old.index self.old.moment }
        ensures made { IsRoomMade self.old.pool self.old.index self.old.moment self.new.pool self.new.index }
        ensures evicted { IsEvicted (live_marks self.old.marks self.old.moment)
            self.old.pool self.old.index self.old.moment self.new.pool self.new.index }
        ensures moment { self.new.moment ≡ self.old.moment }
    {
        if plan_merge(&mut self.pool, &self.marks, self.moment) {
            self.merge();
        } else {
            self.clear_victim();
        }
    }

    /// Gives back the segments without a live item, and if there are none forgets something.
    fn free_some(&mut self)
        requires full { IsPoolFull self.old.pool }
        ensures made { IsRoomMade self.old.pool self.old.index self.old.moment self.new.pool self.new.index }
        ensures room { (bucket : ℕ) → (i : Item) → HasNoRoom self.old.pool bucket self.old.moment i
            → HasMadeRoom (live_marks self.old.marks self.old.moment) self.old.pool self.old.index bucket
            self.old.moment i self.new.pool self.new.index }
        ensures moment { self.new.moment ≡ self.old.moment }
    {
        self.unindex_dead();
        if self.pool.give_back(&self.marks) == 0 {
            self.forget_some();
        }
    }

    /// Makes a segment free: gives back those without a live item, and if there are none forgets
    /// something. What was done is counted.
    pub fn free_segment(&mut self)
        requires full { IsPoolFull self.old.pool }
        ensures made { IsRoomMade self.old.pool self.old.index self.old.moment self.new.pool self.new.index }
        ensures room { (bucket : ℕ) → (i : Item) → HasNoRoom self.old.pool bucket self.old.moment i
            → HasMadeRoom (live_marks self.old.marks self.old.moment) self.old.pool self.old.index bucket
            self.old.moment i self.new.pool self.new.index }
        ensures moment { self.new.moment ≡ self.old.moment }
    {
        let before = self.counts;
        let keys = self.index.len();
        self.free_some();
        let gone = keys.saturating_sub(self.index.len());
        self.counts
            .freed(before, gone as u64, self.pool.free_count() as u64);
    }
}
