//! The table of buckets.

use crate::pool::run::check;
use segments::bucket_of;
use std::process::Abort;

/// The first and the last time to live of each part of the table, and those beside them.
const ROWS: [(u64, usize); 14] = [
    (1, 0),
    (7, 0),
    (8, 1),
    (2047, 255),
    (2048, 272),
    (32_767, 511),
    (32_768, 528),
    (524_287, 767),
    (524_288, 784),
    (8_355_839, 1022),
    (8_355_840, 1023),
    (8_388_607, 1023),
    (8_388_608, 1023),
    (18_446_744_073_709_551_615, 1023),
];

fn check_rows(rt: &impl Abort, rows: &[(u64, usize)]) {
    for (ttl, bucket) in rows {
        check(rt, bucket_of(Some(*ttl)) == *bucket, "the bucket", *bucket);
    }
}

#[test]
fn first_and_last_times_to_live(rt: HostRuntime) {
    check_rows(&rt, &ROWS);
    assert_eq!(rt; bucket_of(None), 1024);
}
