//! Runs of writes without a deadline on eight segments of 4,096 bytes.
//!
//! A segment holds eight of the items, so 64 writes fill the eight segments: 1 to 8 stand in the
//! one opened first, 9 to 16 in the next, and so on.

use crate::pool::run::Step::{
    self, Empty, Forget, Hits, Made, Read, Reads, Segment, Write, WriteOf,
};
use crate::pool::run::play_each;
use std::test::Fail;

/// The 65th write finds no room and no segment to give back. The front of the chain is all but the
/// tail, 7 segments, of which the first 4 with the writes 1 to 32 are merged. None was read, so the
/// greatest cas numbers stay: 4,096 / 504 = 8 items, 25 to 32. Of the 3 segments that became free
/// the 65th write opens one.
const SIXTY_FIVE: [Step; 10] = [
    Write(64),
    Hits(1, 64, 0, 0),
    Empty(0),
    Write(1),
    Hits(25, 65, 0, 0),
    Segment(25, 26, 32),
    Segment(33, 34, 40),
    Segment(65, 66, 65),
    Empty(2),
    Made(0, 1, 0),
];

/// Write 1 ranks first in the merge, and the 7 others that fit are those with the greatest cas
/// numbers, 26 to 32. Its read count is halved.
const ONE_READ: [Step; 6] = [
    Write(64),
    Read(1),
    Write(1),
    Hits(1, 1, 26, 65),
    Segment(1, 26, 32),
    Reads(1, 0),
];

/// The writes 65 to 88 fill the 3 segments that the first merge freed. For the 89th the chain has
/// the segment of that merge in front, with 25 to 32, then those of 33 to 40, 41 to 48 and 49 to
/// 56, and 4 more: these first 4 are merged, and 49 to 56 stay.
const EIGHTY_NINE: [Step; 7] = [
    Write(88),
    Hits(25, 88, 0, 0),
    Made(0, 1, 0),
    Write(1),
    Hits(49, 89, 0, 0),
    Segment(49, 50, 56),
    Made(0, 2, 0),
];

/// Write 1 was read twice. The first merge keeps it and halves its read count to 1, so the second
/// one keeps it too, with 50 to 56, and its read count is 0.
const TWO_READS: [Step; 9] = [
    Write(64),
    Read(1),
    Read(1),
    Write(24),
    Reads(1, 1),
    Write(1),
    Hits(1, 1, 50, 89),
    Segment(1, 50, 56),
    Reads(1, 0),
];

/// Where no write is current, all 8 segments are given back, and nothing is merged.
const ALL_FORGOTTEN: [Step; 6] = [
    Write(64),
    Forget(1, 64),
    Write(1),
    Hits(65, 65, 0, 0),
    Empty(7),
    Made(8, 0, 0),
];

/// The writes 9 to 16 aren't current, and neither is 17: only the segment of the former has no
/// current item.
const SOME_FORGOTTEN: [Step; 5] = [
    Write(64),
    Forget(9, 17),
    Write(1),
    Hits(1, 8, 18, 65),
    Made(1, 0, 0),
];

/// A value of 484 bytes makes an item of 24 + 4 + 484 = 512 bytes, an eighth of a segment: 49 of
/// them take 6 segments and an eighth, and nothing is forgotten.
const LARGEST: [Step; 4] = [WriteOf(484, 49), Hits(1, 49, 0, 0), Empty(1), Made(0, 0, 0)];

const RUNS: [&[Step]; 7] = [
    &SIXTY_FIVE,
    &ONE_READ,
    &EIGHTY_NINE,
    &TWO_READS,
    &ALL_FORGOTTEN,
    &SOME_FORGOTTEN,
    &LARGEST,
];

#[test]
fn writes_without_deadlines(rt: HostRuntime) -> Result<(), Fail> {
    play_each(&rt, rt.alloc(), &RUNS)
}
