//! The rule of the oldest. Chains take turns, each with its front, and what a merge fills stays in
//! its place. The segment that was opened first is evicted. A segment's opening moment is that of
//! the write for which it is opened. Writes go over items only where items have deadlines of their
//! own.

ghost use Rattle.std.specs.Prelude.{◌≡◌, ◌<◌, ◌++◌, ◌∷◌, [], ℕ, List, Option, All, MatchOption, length, vec_len};
ghost use Rattle.segments.specs.Inside.{shown_segments, IsOpeningInRange};
ghost use Rattle.segments.specs.Pools.{Used, bucket_count, oldest};
ghost use Rattle.segments.specs.Chains.{opened_in};
ghost use Rattle.segments.specs.OldestRule.{NoneIn, IsNextIn, AreStarts, start_of};

use crate::bucket::{BUCKETS, LASTING};
use crate::merge::Choice;
use crate::segment::Segment;

/// The most segments that become one.
pub const MOST_MERGED: usize = 4;

/// How a chain starts.
#[derive(Clone, Copy)]
pub enum Start {
    Empty,
    /// One segment, which was opened at the moment.
    One(u64),
    /// Its first two segments can't become one.
    Apart,
    /// Two segments that could become one if the second weren't the tail.
    Pair,
    /// Its first two segments can become one.
    Mergeable,
}

/// How a chain starts once a segment is added to it that was opened at the moment.
fn longer(start: Start, bucket: usize, moment: u64) -> Start
    ensures { (us : List (Option Used)) (numbers : List ℕ) (n : ℕ) → opened_in us n ≡ moment
        → start ≡ start_of us bucket numbers → result ≡ start_of us bucket (numbers ++ n ∷ []) }
{
    match start {
        Start::Empty => Start::One(moment),
        Start::One(first) => {
            if bucket == LASTING || moment == first {
                Start::Pair
            } else {
                Start::Apart
            }
        }
        Start::Pair => Start::Mergeable,
        Start::Apart => Start::Apart,
        Start::Mergeable => Start::Mergeable,
    }
}

/// Notes how each chain starts.
fn note_starts(starts: &mut Vec<Start>, order: &[u32], segments: &[Segment])
    requires count { vec_len starts.old ≡ bucket_count }
    requires dated { All IsOpeningInRange segments.now }
    requires in_range { All (λ n. n < length segments.now) order.now }
    ensures count { vec_len starts.new ≡ bucket_count }
    ensures starts { AreStarts (shown_segments segments.now) order.now starts.new.items }
{
    starts.fill(Start::Empty);
    for number in order {
        if let Some(opening) = segments[*number as usize].opening {
            let bucket = opening.bucket;
            starts[bucket] = longer(starts[bucket], bucket, opening.moment);
        }
    }
}

/// Finds the first bucket from the cursor on whose chain can be merged. None if no chain can be
/// merged.
pub fn find_next(
    starts: &mut Vec<Start>,
    cursor: usize,
    order: &[u32],
    segments: &[Segment],
) -> Option<Choice>
    requires cursor { cursor < bucket_count }
    requires count { vec_len starts.old ≡ bucket_count }
    requires dated { All IsOpeningInRange segments.now }
    requires in_range { All (λ n. n < length segments.now) order.now }
    ensures next { MatchOption result (NoneIn (shown_segments segments.now) order.now)
        (λ c. (c.from ≡ 0) × IsNextIn (shown_segments segments.now) order.now cursor c.bucket) }
    ensures count { vec_len starts.new ≡ bucket_count }
{
    note_starts(starts, order, segments);
    for distance in 0..BUCKETS {
        let bucket = (cursor + distance) % BUCKETS;
        if matches!(starts[bucket], Start::Mergeable) {
            return Some(Choice { bucket, from: 0 });
        }
    }
    None
}

/// The segment that is evicted; None if the order has none.
pub fn victim(order: &[u32]) -> Option<u32>
    ensures { result ≡ oldest order.now }
{
    order.first().copied()
}
