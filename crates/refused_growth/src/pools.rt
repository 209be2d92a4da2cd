//! A pool is made after a refusal, and each of its segments is free.

ghost use Rattle.std.specs.Prelude.{◌≡◌, ◌<◌, IfSome};
ghost use Rattle.segments.specs.Pools.{bucket_count};

use proto::Geometry;
use segments::{ItemRef, Pool, size_of};
use std::alloc::Global;

/// The pool, if it is made at the first or the second try.
#[tactic(auto, unfolding(segments::specs::Changes::new_pool))]
fn make(alloc: Global, geometry: Geometry) -> Option<Pool>
    ensures { IfSome result (λ p. p.sizes ≡ geometry) }
{
    for _ in 0..2 {
        if let Ok(pool) = Pool::new(alloc, geometry) {
            return Some(pool);
        }
    }
    None
}

/// Whether an item finds room in the bucket.
fn finds_room(pool: &mut Pool, geometry: Geometry, bucket: usize) -> bool
    requires bucket { bucket < bucket_count }
    requires sizes { pool.old.sizes ≡ geometry }
    ensures { pool.new.sizes ≡ geometry }
{
    let item = ItemRef {
        key: b"key",
        value: b"value",
        flags: 0,
        deadline: None,
        cas: 1,
        reads: 0,
        own_deadline: 0,
    };
    size_of(item) <= geometry.item_limit() && pool.append(bucket, 0, item).is_ok()
}

/// Whether all of eight segments are free: no segment is in a chain, eight buckets find room for an
/// item, and a ninth one finds none.
fn are_free(pool: &mut Pool, geometry: Geometry) -> bool
    requires sizes { pool.old.sizes ≡ geometry }
{
    if pool.oldest().is_some() {
        return false;
    }
    for bucket in 0..8 {
        if !finds_room(pool, geometry, bucket) {
            return false;
        }
    }
    !finds_room(pool, geometry, 8)
}

/// Whether eight segments are made at the first or the second try, and all are free.
pub fn is_repeatable(alloc: Global) -> bool {
    let Ok(geometry) = Geometry::new(4096, 8) else {
        return false;
    };
    match make(alloc, geometry) {
        Some(mut pool) => are_free(&mut pool, geometry),
        None => false,
    }
}
