//! Which segments are merged or cleared.

/// What makes room if each segment has a live item. Up to four segments of one bucket with one
/// opening moment are merged, none of them their chain's tail; or, if there are none, a segment is
/// cleared.
#[derive(Clone, Copy, Debug, PartialEq, Eq)]
pub enum Eviction {
    /// Chains take turns, each with its front. The segment that was opened first is cleared.
    Oldest,
    /// Of a third of the segments, from the last merge on in the order of opening, the first with
    /// such segments behind it is merged with them; or the one with the fewest hits is cleared, the
    /// first of several. Opening moments are rounded down to half the bucket's width.
    LeastRead,
}
