//! The sizes of a cache at their limits.

use crate::same::check_same;
use proto::Geometry;
use std::test::Fail;

/// The size of a segment, how many there are, and whether that is within the limits.
const SIZES: [(u32, u32, bool); 10] = [
    (4096, 8, true),
    (1_048_576, 65_536, true),
    (65_536, 64, true),
    (4095, 8, false),
    (2048, 8, false),
    (4096, 7, false),
    (0, 0, false),
    (2_097_152, 8, false),
    (65_536, 65_537, false),
    (12_288, 8, false),
];

/// The largest item of segments of 4,096 bytes, and whether that is within the limits.
const ITEM_LIMITS: [(u32, bool); 5] = [
    (512, true),
    (1000, true),
    (4032, true),
    (511, false),
    (4033, false),
];

#[test]
fn sizes_are_within_their_limits(rt: HostRuntime) -> Result<(), Fail> {
    for (size, segments, is_good) in &SIZES {
        let is_made = Geometry::new(*size, *segments).is_ok();
        check_same(&rt, is_made, *is_good, (*size, *segments));
    }
    let geometry = Geometry::new(4096, 9)?;
    let sizes = (geometry.segment_size(), geometry.segments());
    check_same(
        &rt,
        (sizes, geometry.item_limit()),
        ((4096, 9), 512),
        "4096 by 9",
    );
    for (limit, is_good) in &ITEM_LIMITS {
        let found = geometry.with_item_limit(*limit);
        let limited = found.map(|limited| limited.item_limit()).ok();
        check_same(&rt, limited, is_good.then_some(*limit), *limit);
    }
    Ok(())
}
