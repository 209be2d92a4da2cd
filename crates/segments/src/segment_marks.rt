//! The marks of one segment.

ghost use Rattle.std.specs.Prelude.{◌≡◌, ◌<◌, ◌≤◌, false, true, length, replicate, slice_index_or};
ghost use Rattle.std.specs.Prelude.{slice_set, IfOk};
ghost use Rattle.segments.specs.Marks.{mark_count};
ghost use Rattle.segments.specs.MarkBits.{bit_of};

use proto::NoMemory;
use std::alloc::Global;
use std::marker::Model;

/// Marks as bits in words, and how many of them are set.
#[derive(Drop)]
pub struct SegmentMarks {
    words: Vec<u64>,
    len: u32,
    count: u32,
}

impl Model for SegmentMarks {
    ghost use Rattle.std.specs.Prelude.{Bool, List};
    ghost use Rattle.segments.specs.MarkBits.{bits_of, AreMarkBits};

    ghost Value = { List Bool };

    ghost view = { λ a. bits_of a.len a.words.items };

    ghost invariant = { λ a. AreMarkBits a.words.items a.len a.count };
}

/// Whether the bit is set; false beyond the last one.
fn has_bit(words: &[u64], n: u32) -> bool
    ensures { result ≡ bit_of words.now n }
{
    match words.get((n / 64) as usize) {
        Some(word) => (*word >> (n % 64)) & 1 == 1,
        None => false,
    }
}

impl SegmentMarks {
    /// `count` marks, none set. NoMemory if out of memory.
    pub fn new(alloc: Global, count: u32) -> Result<SegmentMarks, NoMemory>
        requires { count ≤ 32768 }
        ensures { IfOk result (λ r. r ≡ replicate count false) }
    {
        Ok(SegmentMarks {
            words: vec![in alloc; 0; count.div_ceil(64) as usize]?,
            len: count,
            count: 0,
        })
    }

    /// Whether the mark is set; false beyond the last one.
    pub fn is_marked(&self, n: u32) -> bool
        ensures { result ≡ slice_index_or self.now n false }
    {
        n < self.len && has_bit(self.words.as_slice(), n)
    }

    /// How many marks are set.
    pub fn count(&self) -> u32
        ensures { result ≡ mark_count self.now }
    {
        self.count
    }

    /// Sets a mark.
    pub fn mark(&mut self, n: u32)
        requires { n < length self.old }
        ensures { self.new ≡ slice_set self.old n true }
    {
        if has_bit(self.words.as_slice(), n) {
            return;
        }
        self.words[(n / 64) as usize] |= 1 << (n % 64);
        self.count += 1;
    }

    /// Takes a mark away.
    pub fn unmark(&mut self, n: u32)
        requires { n < length self.old }
        ensures { self.new ≡ slice_set self.old n false }
    {
        if !has_bit(self.words.as_slice(), n) {
            return;
        }
        self.words[(n / 64) as usize] &= !(1 << (n % 64));
        self.count -= 1;
    }

    /// Takes all marks away. If none is set, nothing is written.
    pub fn clear(&mut self)
        ensures { self.new ≡ replicate (length self.old) false }
    {
        if self.count > 0 {
            self.count = 0;
            self.words.fill(0);
        }
    }
}
