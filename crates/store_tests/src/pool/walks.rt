//! Walks that find out what may be asked of a pool.

ghost use Rattle.std.specs.Prelude.{◌≡◌, IsTrue, IsSome};
ghost use Rattle.segments.specs.Pools.{item_in};

use proto::Geometry;
use segments::{Place, Pool};

/// Whether an item stands at the place.
pub fn has_item(pool: &Pool, geometry: Geometry, place: Place) -> bool
    requires { pool.now.sizes ≡ geometry }
    ensures { IsTrue result → IsSome (item_in pool.now place) }
{
    if place.segment >= geometry.segments() {
        return false;
    }
    let mut walk = pool.walk(place.segment);
    while let Some((at, _)) = walk.next() {
        if at.segment == place.segment && at.offset == place.offset {
            return true;
        }
    }
    false
}
