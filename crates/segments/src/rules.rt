//! The rules of eviction: what each of them answers. A rule is a file of `rules`, with its
//! definitions in `specs/OldestRule` or `LeastReadRule`; `specs/Rules` has those of all.

ghost use Rattle.std.specs.Prelude.{◌≡◌, ◌<◌, ◌≤◌, All, MatchOption, length, vec_len, vec_capacity};
ghost use Rattle.segments.specs.Inside.{shown_segments, IsOpeningInRange};
ghost use Rattle.segments.specs.Items.{halved_by};
ghost use Rattle.segments.specs.Pools.{bucket_count};
ghost use Rattle.segments.specs.Rules.{opening_moment, goes_over_by, most_merged, NoneBy, IsNextBy, order_by};
ghost use Rattle.segments.specs.Rules.{IsVictimOf, NoVictimOf, shares_one_chain};

mod least_read;
mod oldest;

use crate::merge::Choice;
use crate::segment::Segment;
use crate::segment_hits::SegmentHits;
pub use least_read::Rest;
pub use oldest::Start;
use proto::Eviction;

/// The opening moment of a segment of the bucket that is opened for a write at a moment.
pub fn opening_moment(eviction: Eviction, bucket: usize, moment: u64) -> u64
    requires bucket { bucket < bucket_count }
    ensures value { result ≡ opening_moment eviction bucket moment }
    ensures no_later { result ≤ moment }
{
    match eviction {
        Eviction::Oldest => moment,
        Eviction::LeastRead => least_read::rounded_moment(bucket, moment),
    }
}

/// Whether the rule lets an item go over the one of its key, by whether items have deadlines of
/// their own.
pub fn goes_over(eviction: Eviction, exact: bool) -> bool
    ensures { result ≡ goes_over_by eviction exact }
{
    match eviction {
        Eviction::Oldest => exact,
        Eviction::LeastRead => true,
    }
}

/// Whether items with deadlines of their own stand in the chain of those without one, by whether
/// items have such deadlines.
pub fn shares_one_chain(eviction: Eviction, exact: bool) -> bool
    ensures { result ≡ shares_one_chain eviction exact }
{
    match eviction {
        Eviction::Oldest => false,
        Eviction::LeastRead => exact,
    }
}

/// The most segments of a bucket that the rule merges into one.
pub fn most_merged(eviction: Eviction, bucket: usize) -> usize
    ensures most { result ≡ most_merged eviction bucket }
    ensures few { result ≤ 4 }
{
    match eviction {
        Eviction::Oldest => oldest::MOST_MERGED,
        Eviction::LeastRead => least_read::most_merged(bucket),
    }
}

/// Half of a read count, which an item has after a merge: rounded up by the rule of the least read,
/// so that an item that was read once ranks above those that never were.
pub fn halved(eviction: Eviction, reads: u8) -> u8
    ensures half { result ≡ halved_by eviction reads }
    ensures no_more { result ≤ reads }
{
    match eviction {
        Eviction::Oldest => reads / 2,
        Eviction::LeastRead => reads - reads / 2,
    }
}

/// Finds what the rule merges next. None if it merges nothing.
pub fn find_choice(
    starts: &mut Vec<Start>,
    rests: &mut Vec<Rest>,
    eviction: Eviction,
    cursor: usize,
    looked: usize,
    order: &[u32],
    segments: &[Segment],
) -> Option<Choice>
    requires cursor { cursor < bucket_count }
    requires start_count { vec_len starts.old ≡ bucket_count }
    requires rest_count { vec_len rests.old ≡ bucket_count }
    requires looked { looked ≤ length order.now }
    requires dated { All IsOpeningInRange segments.now }
    requires in_range { All (λ n. n < length segments.now) order.now }
    ensures next { MatchOption result
        (NoneBy eviction (shown_segments segments.now) order.now looked)
        (IsNextBy eviction (shown_segments segments.now) order.now cursor looked) }
    ensures start_count { vec_len starts.new ≡ bucket_count }
    ensures rest_count { vec_len rests.new ≡ bucket_count }
{
    match eviction {
        Eviction::Oldest => oldest::find_next(starts, cursor, order, segments),
        Eviction::LeastRead => least_read::find_mates(rests, looked, order, segments),
    }
}

/// Lets the number of a filled segment stand where the rule lets it stand: in its place, or
/// directly before another one.
pub fn place_filled(order: &mut Vec<u32>, eviction: Eviction, number: u32, next: u32)
    ensures items { order.new.items ≡ order_by eviction next number order.old.items }
    ensures capacity { vec_capacity order.new ≡ vec_capacity order.old }
{
    match eviction {
        Eviction::Oldest => {}
        Eviction::LeastRead => least_read::move_before(order, number, next),
    }
}

/// The segment that is evicted if none can be merged, where the rule looks at so many places of the
/// order. None if it finds no segment there.
pub fn victim(eviction: Eviction, looked: usize, order: &[u32], hits: &SegmentHits) -> Option<u32>
    requires looked { looked ≤ length order.now }
    requires counted { All (λ n. n < length hits.now.counts) order.now }
    ensures { MatchOption result
        (NoVictimOf eviction looked order.now)
        (IsVictimOf eviction looked order.now hits.now) }
{
    match eviction {
        Eviction::Oldest => oldest::victim(order),
        Eviction::LeastRead => hits.fewest(&order[..looked]),
    }
}
