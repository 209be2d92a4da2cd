//! An exchange is made after a refusal.

use exchange::make;
use proto::{Geometry, Terms};
use std::alloc::Global;

/// Whether the ends of two workers are made at the first or the second try.
pub fn is_repeatable(alloc: Global) -> bool {
    let Ok(geometry) = Geometry::new(4096, 8) else {
        return false;
    };
    for _ in 0..2 {
        let terms = Terms {
            geometry,
            system_clock: false,
            may_refuse: true,
        };
        if let Ok((ends, storage)) = make(alloc, 2, terms) {
            return ends.len() == 2 && storage.workers() == 2;
        }
    }
    false
}
