//! Runs of writes with deadlines on eight segments of 4,096 bytes.

use crate::pool::run::Step::{self, Deadline, Empty, Hits, Made, Segment, Write, WriteFor};
use crate::pool::run::play_each;
use std::test::Fail;

/// A time to live of 16 seconds is of bucket 2, whose lower end is 16 and whose width is 8. The
/// tail opened at 1000 is closed from 1008 on, and its deadline is 1016. The one opened at 1009
/// ends at 1025.
const ONE_WIDTH: [Step; 10] = [
    WriteFor(16, 1000, 1),
    WriteFor(16, 1003, 1),
    WriteFor(16, 1006, 1),
    WriteFor(16, 1009, 1),
    Segment(1, 2, 3),
    Segment(4, 5, 4),
    Deadline(1, Some(1016)),
    Deadline(2, Some(1016)),
    Deadline(3, Some(1016)),
    Deadline(4, Some(1025)),
];

/// At 1003 the item of 1000 has 13 seconds left. They are of bucket 1, whose lower end is 8.
const REWRITTEN: [Step; 5] = [
    WriteFor(16, 1000, 1),
    WriteFor(13, 1003, 1),
    Deadline(2, Some(1011)),
    Write(1),
    Deadline(3, None),
];

/// The times to live 8, 16 and so on to 72 are of the buckets 1 to 9, so the first eight writes
/// take a segment each. For the ninth no chain has two segments, and the segment that was opened
/// first is cleared.
const NINE_BUCKETS: [Step; 11] = [
    WriteFor(8, 1000, 1),
    WriteFor(16, 1000, 1),
    WriteFor(24, 1000, 1),
    WriteFor(32, 1000, 1),
    WriteFor(40, 1000, 1),
    WriteFor(48, 1000, 1),
    WriteFor(56, 1000, 1),
    WriteFor(64, 1000, 1),
    WriteFor(72, 1000, 1),
    Hits(2, 9, 0, 0),
    Made(0, 0, 1),
];

/// All 64 items have the deadline 1016. At 1016 they are dead, and each segment is given back.
const AT_THE_DEADLINE: [Step; 5] = [
    WriteFor(16, 1000, 64),
    WriteFor(16, 1016, 1),
    Made(8, 0, 0),
    Empty(7),
    Deadline(65, Some(1032)),
];

/// Three segments were opened at 1000 and five at 1008. The front of the chain is the first three,
/// since the next has another deadline: of the writes 1 to 24 the last 8 stay, and they keep their
/// deadline.
const ONE_DEADLINE: [Step; 7] = [
    WriteFor(16, 1000, 24),
    WriteFor(16, 1008, 41),
    Hits(17, 65, 0, 0),
    Segment(17, 18, 24),
    Deadline(17, Some(1016)),
    Deadline(25, Some(1024)),
    Made(0, 1, 0),
];

/// Bucket 2 has the six segments of the writes 1 to 48, and the bucket without deadlines those of
/// 49 to 64. The 65th write merges the first four of bucket 2, from which 25 to 32 stay. The writes
/// up to 88 fill the three segments that became free. The 89th looks on after bucket 2, though two
/// segments there could be merged again: it merges those of 49 to 80, from which 73 to 80 stay.
const IN_TURNS: [Step; 6] = [
    WriteFor(16, 1000, 48),
    Write(17),
    Hits(25, 65, 0, 0),
    Write(24),
    Hits(25, 48, 73, 89),
    Made(0, 2, 0),
];

const RUNS: [&[Step]; 6] = [
    &ONE_WIDTH,
    &REWRITTEN,
    &NINE_BUCKETS,
    &AT_THE_DEADLINE,
    &ONE_DEADLINE,
    &IN_TURNS,
];

#[test]
fn writes_with_deadlines(rt: HostRuntime) -> Result<(), Fail> {
    play_each(&rt, rt.alloc(), &RUNS)
}
