//! The rule of the least read. Of a third of the segments, in the order of opening, the first
//! that can become one with segments behind it is merged with them, and what the merge fills moves
//! up to directly before the one behind its front. If there is none, the one with the fewest hits
//! is evicted. Opening moments are rounded down, and writes go over items.

ghost use Rattle.std.specs.Prelude.{◌≡◌, ◌<◌, ◌≤◌, All, MatchOption, length, vec_len, vec_capacity};
ghost use Rattle.segments.specs.Inside.{shown_segments, IsOpeningInRange};
ghost use Rattle.segments.specs.Pools.{bucket_count};
ghost use Rattle.segments.specs.LeastReadRule.{rounded_moment, NoneBetween, IsFirstBetween, moved_before};
ghost use Rattle.segments.specs.LeastReadRule.{with_front, has_mate};
ghost use Rattle.segments.specs.Rules.{most_merged};
ghost use Rattle.proto.specs.declared.eviction.Eviction.TheVariants.{LeastRead};

use crate::bucket::{LASTING, lower_end, width};
use crate::merge::Choice;
use crate::segment::Segment;

/// What a chain has from a place of the order on.
#[derive(Clone, Copy)]
pub enum Rest {
    Nothing,
    /// Its tail alone.
    Tail,
    /// More segments, of which the first was opened at the moment.
    More(u64),
}

/// The opening moment of a segment of the bucket that is opened for a write at a moment: this
/// rounded down to a multiple of half the bucket's width, so that more segments have the same one
/// and can be merged.
pub fn rounded_moment(bucket: usize, moment: u64) -> u64
    requires bucket { bucket < bucket_count }
    ensures value { result ≡ rounded_moment bucket moment }
    ensures no_later { result ≤ moment }
{
    if bucket == LASTING || lower_end(bucket) == 0 {
        return moment;
    }
    moment - moment % (width(bucket) / 2)
}

/// The most segments of a bucket that become one. Of items without a shared deadline two do, since
/// then fewer of those that are in use are evicted.
pub fn most_merged(bucket: usize) -> usize
    ensures { result ≡ most_merged LeastRead bucket }
{
    if bucket == LASTING { 2 } else { 3 }
}

/// Whether a segment of the bucket that was opened at the moment can become one with the first of
/// those behind it.
fn has_mate(rest: Rest, bucket: usize, moment: u64) -> bool
    ensures { result ≡ has_mate rest bucket moment }
{
    match rest {
        Rest::Nothing => false,
        Rest::Tail => false,
        Rest::More(next) => bucket == LASTING || next == moment,
    }
}

/// What a chain has with a segment in front that was opened at the moment.
fn with_front(rest: Rest, moment: u64) -> Rest
    ensures { result ≡ with_front rest moment }
{
    match rest {
        Rest::Nothing => Rest::Tail,
        Rest::Tail => Rest::More(moment),
        Rest::More(_) => Rest::More(moment),
    }
}

/// Finds the first of so many places of the order whose segment can become one with segments behind
/// it. None if there is none.
pub fn find_mates(
    rests: &mut Vec<Rest>,
    looked: usize,
    order: &[u32],
    segments: &[Segment],
) -> Option<Choice>
    requires count { vec_len rests.old ≡ bucket_count }
    requires looked { looked ≤ length order.now }
    requires dated { All IsOpeningInRange segments.now }
    requires in_range { All (λ n. n < length segments.now) order.now }
    ensures next { MatchOption result (NoneBetween (shown_segments segments.now) order.now 0 looked)
        (IsFirstBetween (shown_segments segments.now) order.now 0 looked) }
    ensures count { vec_len rests.new ≡ bucket_count }
{
    rests.fill(Rest::Nothing);
    let mut found = None;
    for place in (0..order.len()).rev() {
        if let Some(opening) = segments[order[place] as usize].opening {
            let bucket = opening.bucket;
            let rest = rests[bucket];
            rests[bucket] = with_front(rest, opening.moment);
            if place < looked && has_mate(rest, bucket, opening.moment) {
                found = Some(Choice {
                    bucket,
                    from: place,
                });
            }
        }
    }
    found
}

/// Moves a number up to directly before another one that stands behind it.
pub fn move_before(order: &mut Vec<u32>, number: u32, next: u32)
    ensures items { order.new.items ≡ moved_before next number order.old.items }
    ensures capacity { vec_capacity order.new ≡ vec_capacity order.old }
{
    let mut is_behind = false;
    for place in 0..order.len() {
        if is_behind {
            if order[place] == next {
                return;
            }
            order.swap(place - 1, place);
        } else if order[place] == number {
            is_behind = true;
        }
    }
}
