//! Runs of writes, each given by a table of steps.
//!
//! An item has the key k001, k002 and so on. With a value of 476 bytes and the 24 bytes before both
//! it has 24 + 4 + 476 = 504 bytes, a multiple of 8. A segment of 4,096 bytes holds eight of them,
//! 4,032 bytes, and the 64 bytes that are left hold none.

use crate::pool::stock::Stock;
use crate::pool::writes::Writes;
use segments::{ItemRef, Place, bucket_of, size_of};
use std::alloc::Global;
use std::process::Abort;
use std::test::Fail;

/// What is done, or what has to be there. Writes have the numbers 1, 2 and so on; ranges have both
/// their ends.
#[derive(Clone, Copy)]
pub enum Step {
    /// This number of writes with values of 476 bytes and no deadline, at the moment 1000.
    Write(usize),
    /// At a moment, of a time to live, a number of writes.
    WriteFor(u64, u64, usize),
    /// A number of writes with values of this length, the second one, and no deadline.
    WriteOf(usize, usize),
    Read(usize),
    /// The writes of a range aren't current any more.
    Forget(usize, usize),
    /// Exactly the writes of these two ranges are there, with their keys and values.
    Hits(usize, usize, usize, usize),
    /// The segment of the first write has it and then those of the range, in order and nothing
    /// else.
    Segment(usize, usize, usize),
    Reads(usize, u8),
    Deadline(usize, Option<u64>),
    /// This number of segments has no item.
    Empty(usize),
    /// How many segments were given back since they had no current item, how many merges were made,
    /// and how many clears.
    Made(usize, usize, usize),
}

/// A pool, where its writes stand, and what was done to make room.
#[derive(Drop)]
pub struct Run {
    pub stock: Stock,
    pub writes: Writes,
    value_length: usize,
    given_back: usize,
    merges: usize,
    clears: usize,
}

/// Checks that this holds, and else names what doesn't, and at which write or number. Its proof,
/// with that of the text, is made once.
pub fn check(rt: &impl Abort, holds: bool, what: &str, place: usize) {
    assert!(rt; holds, "{what} at {place}");
}

fn digit(n: usize) -> u8 {
    b'0' + (n % 10) as u8
}

/// The key of a write.
pub fn key_of(n: usize) -> [u8; 4] {
    [b'k', digit(n / 100), digit(n / 10), digit(n)]
}

/// The value of a write.
pub fn value_of(alloc: Global, n: usize, length: usize) -> Result<Vec<u8>, Fail> {
    let mut value = Vec::new(alloc);
    value.resize(length, (n % 251) as u8)?;
    Ok(value)
}

impl Run {
    pub fn new(alloc: Global) -> Result<Run, Fail> {
        Ok(Run {
            stock: Stock::new(alloc, 4096, 8)?,
            writes: Writes::new(alloc)?,
            value_length: 476,
            given_back: 0,
            merges: 0,
            clears: 0,
        })
    }

    /// Makes room: dead segments are given back, or else a chain is merged, or else the oldest
    /// segment cleared.
    fn make_room(&mut self, moment: u64) {
        for segment in 0..self.stock.geometry.segments() {
            self.stock.expire(segment, moment);
        }
        let count = self.stock.give_back();
        self.given_back = self.given_back.wrapping_add(count);
        if count > 0 {
            return;
        }
        if self.stock.merge(&mut self.writes) {
            self.merges = self.merges.wrapping_add(1);
        } else if let Some(segment) = self.stock.clear_oldest() {
            self.writes.forget_segment(segment);
            self.clears = self.clears.wrapping_add(1);
        }
    }

    /// Appends the item of a write, where need be once there is room for it.
    fn append(&mut self, ttl: Option<u64>, moment: u64, n: usize, value: &[u8]) -> Option<Place> {
        let bucket = bucket_of(ttl);
        let key = key_of(n);
        let tried = self.stock.append(bucket, moment, n as u64, &key, value);
        if tried.is_some() {
            return tried;
        }
        self.make_room(moment);
        self.stock.append(bucket, moment, n as u64, &key, value)
    }

    /// The next write.
    fn write(&mut self, alloc: Global, ttl: Option<u64>, moment: u64) -> Result<(), Fail> {
        let n = self.writes.next();
        let value = value_of(alloc, n, self.value_length)?;
        let place = self.append(ttl, moment, n, &value);
        drop(value);
        self.writes.add(place.ok_or("no room")?)?;
        Ok(())
    }

    fn write_all(
        &mut self,
        alloc: Global,
        ttl: Option<u64>,
        moment: u64,
        count: usize,
    ) -> Result<(), Fail> {
        for _ in 0..count {
            self.write(alloc, ttl, moment)?;
        }
        Ok(())
    }

    /// The item of a write, none where it is no longer there.
    pub fn item<'a>(&'a self, write: usize) -> Option<ItemRef<'a>> {
        self.stock.item(self.writes.place(write)?)
    }

    /// Whether the item of a write is there.
    fn has(&self, write: usize) -> bool {
        match self.item(write) {
            None => false,
            Some(item) => item.cas == write as u64,
        }
    }

    fn read(&mut self, write: usize) -> Result<(), Fail> {
        let place = self.writes.place(write).ok_or("forgotten")?;
        self.stock.read(place);
        Ok(())
    }

    fn forget(&mut self, first: usize, last: usize) {
        for write in first..last.wrapping_add(1) {
            if let Some(place) = self.writes.place(write) {
                self.stock.forget(place);
                self.writes.forget(write);
            }
        }
    }

    /// A write is there as it was written.
    fn check_write(&self, rt: &impl Abort, alloc: Global, write: usize) -> Result<(), Fail> {
        let value = value_of(alloc, write, self.value_length)?;
        let item = self.item(write).ok_or("gone")?;
        check(rt, item.cas == write as u64, "cas number", write);
        check(rt, item.key == key_of(write).as_slice(), "key", write);
        check(rt, item.value == value.as_slice(), "value", write);
        Ok(())
    }

    fn check_hits(
        &self,
        rt: &impl Abort,
        alloc: Global,
        one: (usize, usize),
        other: (usize, usize),
    ) -> Result<(), Fail> {
        for n in 1..self.writes.next() {
            if (one.0 <= n && n <= one.1) || (other.0 <= n && n <= other.1) {
                self.check_write(rt, alloc, n)?;
            } else {
                check(rt, !self.has(n), "a forgotten item", n);
            }
        }
        Ok(())
    }

    /// The segment of the first write has it, then those of the range, each where the one before it
    /// ends.
    fn check_segment(
        &self,
        rt: &impl Abort,
        first: usize,
        second: usize,
        last: usize,
    ) -> Result<(), Fail> {
        let segment = self.writes.place(first).ok_or("forgotten")?.segment;
        if segment >= self.stock.geometry.segments() {
            return Err(Fail::new("no segment"));
        }
        let mut walk = self.stock.pool.walk(segment);
        let mut offset: u32 = 0;
        let mut expected = first;
        while let Some((place, item)) = walk.next() {
            check(rt, place == Place { segment, offset }, "place", expected);
            check(rt, item.cas == expected as u64, "cas number", expected);
            offset = offset.wrapping_add(size_of(item));
            expected = if expected == first {
                second
            } else {
                expected.wrapping_add(1)
            };
        }
        check(rt, expected == last.wrapping_add(1), "the end", expected);
        Ok(())
    }

    fn empty_segments(&self) -> usize {
        let mut count: usize = 0;
        for segment in 0..self.stock.geometry.segments() {
            if self.stock.pool.walk(segment).next().is_none() {
                count = count.wrapping_add(1);
            }
        }
        count
    }

    fn check_reads(&self, rt: &impl Abort, write: usize, reads: u8) -> Result<(), Fail> {
        let item = self.item(write).ok_or("gone")?;
        check(rt, item.reads == reads, "reads", write);
        Ok(())
    }

    fn check_deadline(
        &self,
        rt: &impl Abort,
        write: usize,
        deadline: Option<u64>,
    ) -> Result<(), Fail> {
        let item = self.item(write).ok_or("gone")?;
        check(rt, item.deadline == deadline, "deadline", write);
        Ok(())
    }

    fn check_made(&self, rt: &impl Abort, given_back: usize, merges: usize, clears: usize) {
        let is_given_back = self.given_back == given_back;
        check(rt, is_given_back, "segments given back", given_back);
        check(rt, self.merges == merges, "merges", merges);
        check(rt, self.clears == clears, "clears", clears);
    }

    fn play_step(&mut self, rt: &impl Abort, alloc: Global, step: Step) -> Result<(), Fail> {
        match step {
            Step::Write(count) => return self.write_all(alloc, None, 1000, count),
            Step::WriteFor(ttl, moment, count) => {
                return self.write_all(alloc, Some(ttl), moment, count);
            }
            Step::WriteOf(length, count) => {
                self.value_length = length;
                return self.write_all(alloc, None, 1000, count);
            }
            Step::Read(write) => return self.read(write),
            Step::Forget(first, last) => self.forget(first, last),
            Step::Hits(a, b, c, d) => return self.check_hits(rt, alloc, (a, b), (c, d)),
            Step::Segment(first, second, last) => {
                return self.check_segment(rt, first, second, last);
            }
            Step::Reads(write, reads) => return self.check_reads(rt, write, reads),
            Step::Deadline(write, deadline) => return self.check_deadline(rt, write, deadline),
            Step::Empty(count) => {
                check(rt, self.empty_segments() == count, "empty segments", count);
            }
            Step::Made(given_back, merges, clears) => {
                self.check_made(rt, given_back, merges, clears);
            }
        }
        Ok(())
    }
}

fn play_all(rt: &impl Abort, alloc: Global, run: &mut Run, steps: &[Step]) -> Result<(), Fail> {
    for step in steps {
        run.play_step(rt, alloc, *step)?;
    }
    Ok(())
}

/// Plays the steps on eight segments of 4,096 bytes.
fn play(rt: &impl Abort, alloc: Global, steps: &[Step]) -> Result<(), Fail> {
    let mut run = Run::new(alloc)?;
    play_all(rt, alloc, &mut run, steps)
}

/// Plays each of the runs.
pub fn play_each(rt: &impl Abort, alloc: Global, runs: &[&[Step]]) -> Result<(), Fail> {
    for steps in runs {
        play(rt, alloc, steps)?;
    }
    Ok(())
}
