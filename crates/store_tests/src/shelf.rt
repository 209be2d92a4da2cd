//! A pool and an index of the size that goes with it, as a map from keys to values.

use index::{Index, layout_for, slots_for};
use proto::{Geometry, NoMemory};
use segments::{ItemRef, LASTING, Pool, size_of};
use std::alloc::Global;
use std::hash::Hasher;
use std::marker::Model;

/// The values of keys, each in the segments, with its place in the index.
#[derive(Drop)]
pub struct Shelf {
    geometry: Geometry,
    pool: Pool,
    index: Index,
}

impl Model for Shelf {
    ghost use Rattle.std.specs.Prelude.{◌≡◌, ◌≤◌, ◌*◌};
    ghost use Rattle.index.specs.Sizing.{most_items};
    ghost use Rattle.store_tests.specs.Pairs.{Pairs};
    ghost use Rattle.segments.specs.Pools.{key_at};
    ghost use Rattle.index.specs.Table.{IsIndex};
    ghost use Rattle.index.specs.Layouts.{IsLayoutOf};

    ghost Value = { Pairs };

    ghost view = { λ a. record { pool = a.pool; index = a.index } };

    ghost invariant = { λ a. IsIndex (key_at a.pool) a.index × (a.pool.sizes ≡ a.geometry)
        × (2 * most_items a.geometry ≤ a.index.room) × IsLayoutOf a.geometry a.index.layout };
}

impl Shelf {
    /// No key.
    pub fn new(alloc: Global, geometry: Geometry, seed: u64) -> Result<Shelf, NoMemory> {
        Ok(Shelf {
            geometry,
            pool: Pool::new(alloc, geometry)?,
            index: Index::new(
                alloc,
                slots_for(geometry).max(1),
                layout_for(geometry),
                seed,
            )?,
        })
    }

    /// Gives the key a value, where there is room for it.
    pub fn put(&mut self, key: &[u8], value: &[u8], cas: u64) -> bool {
        if key.is_empty() || key.len() > 250 || value.len() > 131_072 {
            return false;
        }
        let item = ItemRef {
            key,
            value,
            flags: 0,
            deadline: None,
            cas,
            reads: 0,
            own_deadline: 0,
        };
        if size_of(item) > self.geometry.item_limit() {
            return false;
        }
        let _ = self.pool.geometry();
        let Ok(place) = self.pool.append(LASTING, 0, item) else {
            return false;
        };
        let found = self.index.find(&self.pool, key);
        self.index.insert(&self.pool, key, found, place);
        true
    }

    /// The cas number of the key's item.
    pub fn cas_of(&self, key: &[u8]) -> Option<u64> {
        let found = self.index.find(&self.pool, key);
        let place = self.index.place_found(&self.pool, key, found)?;
        Some(self.pool.item(place).cas)
    }

    /// The hash by which the index finds the key.
    pub fn hash_of(&self, key: &[u8]) -> u64 {
        let mut hasher = self.index.hasher();
        hasher.write(key);
        hasher.finish()
    }

    /// What the index reads ahead for the key.
    pub fn read_ahead(&self, key: &[u8]) -> u64 {
        self.index.prefetch(&self.pool, &[self.hash_of(key)])
    }

    /// What the index reads ahead for both keys at once.
    pub fn read_ahead_for_both(&self, first: &[u8], second: &[u8]) -> u64 {
        let hashes = [self.hash_of(first), self.hash_of(second)];
        self.index.prefetch(&self.pool, &hashes)
    }

    /// Takes the key out.
    pub fn delete(&mut self, key: &[u8]) -> bool {
        let found = self.index.find(&self.pool, key);
        let was_there = self.index.place_found(&self.pool, key, found).is_some();
        self.index.remove_found(&self.pool, key, found);
        was_there
    }

    /// Takes all keys out.
    pub fn clear(&mut self) {
        self.index.clear();
    }
}
