//! The terms by which a history is legal.

use crate::geometry::Geometry;

/// The sizes of the cache, whether each moment must be a reading of the system's clock, and whether
/// a request that stores may be refused memory.
#[derive(Clone, Copy)]
pub struct Terms {
    pub geometry: Geometry,
    pub system_clock: bool,
    pub may_refuse: bool,
}
