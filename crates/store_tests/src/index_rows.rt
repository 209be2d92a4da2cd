//! Writes and deletes in turn, each look-up compared with a map.

use crate::same::check_same;
use crate::shelf::Shelf;
use proto::Geometry;
use std::alloc::{AllocError, Global};
use std::collections::BTreeMap;
use std::process::Abort;
use std::test::Fail;

/// The next of numbers that look random.
fn next(state: u64) -> u64 {
    state
        .wrapping_mul(6_364_136_223_846_793_005)
        .wrapping_add(1_442_695_040_888_963_407)
}

/// A shelf, and what it should have: the cas number of each key.
#[derive(Drop)]
struct Compared {
    shelf: Shelf,
    map: BTreeMap<u64, u64>,
}

impl Compared {
    /// No key.
    fn new(alloc: Global, segments: u32, seed: u64) -> Result<Compared, Fail> {
        let geometry = Geometry::new(65_536, segments)?;
        Ok(Compared {
            shelf: Shelf::new(alloc, geometry, seed)?,
            map: BTreeMap::new(alloc),
        })
    }

    /// Writes a key, for which there is room.
    fn write(&mut self, rt: &impl Abort, number: u64, cas: u64) -> Result<(), AllocError> {
        let is_written = self.shelf.put(&number.to_le_bytes(), b"value", cas);
        check_same(rt, is_written, true, number);
        self.map.insert(number, cas)?;
        Ok(())
    }

    /// Deletes a key, if it is there.
    fn delete(&mut self, rt: &impl Abort, number: u64) {
        let was_there = self.map.remove(&number).is_some();
        let is_deleted = self.shelf.delete(&number.to_le_bytes());
        check_same(rt, is_deleted, was_there, number);
    }

    /// A key is found as the map has it.
    fn check_key(&self, rt: &impl Abort, number: u64) {
        let given = self.shelf.cas_of(&number.to_le_bytes());
        check_same(rt, given, self.map.get(&number).copied(), number);
    }

    /// So is each of the keys below a count.
    fn check_keys(&self, rt: &impl Abort, keys: u64) {
        for number in 0..keys {
            self.check_key(rt, number);
        }
    }

    /// Takes all keys out.
    fn clear(&mut self) {
        self.shelf.clear();
        self.map.clear();
    }

    /// Writes or deletes a random one of the keys below a count.
    fn take_step(
        &mut self,
        rt: &impl Abort,
        state: u64,
        keys: u64,
        cas: u64,
    ) -> Result<(), AllocError> {
        let number = (state >> 40) % keys.max(1);
        if (state >> 20) % 4 == 0 {
            self.delete(rt, number);
            return Ok(());
        }
        self.write(rt, number, cas)
    }

    /// So many random steps. All keys below the count are looked up after each step whose number
    /// has none of the bits of a mask, and at the end, when the table is emptied and they are
    /// looked up again.
    fn run(
        &mut self,
        rt: &impl Abort,
        seed: u64,
        keys: u64,
        (steps, mask): (u64, u64),
    ) -> Result<(), Fail> {
        let mut state = seed;
        for step in 0..steps {
            state = next(state);
            self.take_step(rt, state, keys, step)?;
            if step & mask == 0 {
                self.check_keys(rt, keys);
            }
        }
        self.check_keys(rt, keys);
        self.clear();
        self.check_keys(rt, keys);
        Ok(())
    }
}

/// With up to 40 keys in a table that grows to at most 120 slots: keys meet, clusters of used slots
/// go over the end, and many deletes have places after them.
#[test]
fn small_table(rt: HostRuntime) -> Result<(), Fail> {
    let mut table = Compared::new(rt.alloc(), 8, 88_172_645_463_325_252)?;
    table.run(&rt, 1, 40, (10_000, 0))
}

fn run_twice(rt: &impl Abort, table: &mut Compared) -> Result<(), Fail> {
    table.run(rt, 3, 1_500, (6_000, 63))?;
    table.run(rt, 4, 1_500, (6_000, 63))
}

/// A table goes from one slot through eleven doublings, is emptied, and does it again. At each 64th
/// step of 6,000 all of 1,500 keys are looked up.
#[test]
fn through_doublings(rt: HostRuntime) -> Result<(), Fail> {
    let mut table = Compared::new(rt.alloc(), 32, 5)?;
    run_twice(&rt, &mut table)
}

impl Compared {
    /// Writes a key with five others after it.
    fn write_six(&mut self, rt: &impl Abort, number: u64) -> Result<(), AllocError> {
        for key in 0..6 {
            self.write(rt, number.wrapping_add(key * 1_000_000), number)?;
        }
        Ok(())
    }

    /// Writes the keys below a count whose hash leaves this home of 1,024, and after each five
    /// others. Answers how many have that home.
    fn crowd(&mut self, rt: &impl Abort, home: u64) -> Result<u64, AllocError> {
        let mut crowded: u64 = 0;
        for number in 0..100_000u64 {
            if self.shelf.hash_of(&number.to_le_bytes()) % 1_024 == home {
                self.write_six(rt, number)?;
                crowded = crowded.wrapping_add(1);
            }
        }
        Ok(crowded)
    }

    /// Each key of the map is found, and no other one below 100,000.
    fn check_found(&self, rt: &impl Abort) {
        for (key, cas) in &self.map {
            check_same(rt, self.shelf.cas_of(&key.to_le_bytes()), Some(*cas), *key);
        }
        self.check_keys(rt, 100_000);
    }

    /// Deletes each other key below 100,000, whether it is there or not.
    fn thin(&mut self, rt: &impl Abort) {
        for number in 0..50_000u64 {
            self.delete(rt, number.wrapping_mul(2));
        }
    }

    fn check_home(&mut self, rt: &impl Abort, home: u64) -> Result<(), Fail> {
        let crowded = self.crowd(rt, home)?;
        check_same(rt, (70..130).contains(&crowded), true, crowded);
        self.check_found(rt);
        self.thin(rt);
        self.check_found(rt);
        Ok(())
    }
}

fn check_new_home(rt: &impl Abort, alloc: Global, home: u64) -> Result<(), Fail> {
    let mut table = Compared::new(alloc, 32, 11)?;
    table.check_home(rt, home)
}

/// About a hundred keys have one home while there are up to 1,024 slots, then two, while the table
/// grows under them: the first slots of their homes, and the last ones, from which their searches
/// go over the end.
#[test]
fn at_one_home(rt: HostRuntime) -> Result<(), Fail> {
    check_new_home(&rt, rt.alloc(), 0)?;
    check_new_home(&rt, rt.alloc(), 1_023)
}

/// What is read ahead for `alpha`, once its item has this cas number.
fn read_with(rt: &impl Abort, shelf: &mut Shelf, cas: u64) -> u64 {
    check_same(rt, shelf.read_ahead(b"alpha"), 0, "no key");
    check_same(rt, shelf.put(b"alpha", b"value", cas), true, "alpha");
    check_same(rt, shelf.read_ahead(b"beta"), 0, "beta");
    shelf.read_ahead(b"alpha")
}

fn read_of_new(rt: &impl Abort, alloc: Global, cas: u64) -> Result<u64, Fail> {
    let mut shelf = Shelf::new(alloc, Geometry::new(65_536, 8)?, 77)?;
    Ok(read_with(rt, &mut shelf, cas))
}

/// An item begins with its cas number, and what else is read doesn't depend on that.
#[test]
fn a_key_is_read_ahead(rt: HostRuntime) -> Result<(), Fail> {
    let nine = read_of_new(&rt, rt.alloc(), 9)?;
    let thirty = read_of_new(&rt, rt.alloc(), 30)?;
    check_same(&rt, thirty.wrapping_sub(nine), 21, "alpha");
    Ok(())
}

fn check_read_ahead(rt: &impl Abort, shelf: &mut Shelf) {
    check_same(rt, shelf.put(b"alpha", b"value", 9), true, "alpha");
    check_same(rt, shelf.put(b"beta", b"value", 30), true, "beta");
    let alpha = shelf.read_ahead(b"alpha");
    let beta = shelf.read_ahead(b"beta");
    check_same(rt, alpha > 0, true, "alpha");
    check_same(rt, beta > 0, true, "beta");
    let both = shelf.read_ahead_for_both(b"alpha", b"beta");
    check_same(rt, both, alpha.wrapping_add(beta), "both");
}

/// What is read ahead for two keys at once is the sum of what is read for each: its slot and its
/// item.
#[test]
fn two_keys_are_read_ahead(rt: HostRuntime) -> Result<(), Fail> {
    let mut shelf = Shelf::new(rt.alloc(), Geometry::new(65_536, 8)?, 77)?;
    check_read_ahead(&rt, &mut shelf);
    Ok(())
}

/// Writes the keys below a count, each with its number; for the next one there is no room. Then
/// each is found.
fn check_full_pool(rt: &impl Abort, shelf: &mut Shelf, keys: u64) {
    for n in 0..keys {
        check_same(rt, shelf.put(&n.to_le_bytes(), b"", n), true, n);
    }
    check_same(rt, shelf.put(&keys.to_le_bytes(), b"", keys), false, keys);
    for n in 0..keys {
        check_same(rt, shelf.cas_of(&n.to_le_bytes()), Some(n), n);
    }
}

/// A pool of eight segments of 4,096 bytes is full with 1,024 items of 32 bytes, which use half of
/// the 2,048 slots.
#[test]
fn a_full_pool(rt: HostRuntime) -> Result<(), Fail> {
    let mut shelf = Shelf::new(rt.alloc(), Geometry::new(4096, 8)?, 7)?;
    check_full_pool(&rt, &mut shelf, 1_024);
    Ok(())
}

impl Compared {
    /// Writes a key, and deletes the one that was written 5,000 keys before it.
    fn move_on(&mut self, rt: &impl Abort, n: u64) -> Result<(), AllocError> {
        self.write(rt, n, n)?;
        if n >= 5_000 {
            self.delete(rt, n - 5_000);
        }
        Ok(())
    }

    /// After each of so many steps some keys are looked up, and at the end all.
    fn check_many_keys(&mut self, rt: &impl Abort, keys: u64) -> Result<(), Fail> {
        for n in 0..keys {
            self.move_on(rt, n)?;
            for other in n.saturating_sub(5_050)..n.saturating_add(2) {
                if other % 97 == n % 97 {
                    self.check_key(rt, other);
                }
            }
        }
        self.check_keys(rt, keys);
        Ok(())
    }
}

/// 10,000 keys written, and from the 5,000th on one deleted with each write.
#[test]
fn many_keys(rt: HostRuntime) -> Result<(), Fail> {
    let mut table = Compared::new(rt.alloc(), 16, 1)?;
    table.check_many_keys(&rt, 10_000)
}
