//! Counts how often the items of each segment are read.

ghost use Rattle.std.specs.Prelude.{◌≡◌, ◌<◌, IfOk, MatchOption, [], All, length};
ghost use Rattle.segments.specs.Hits.{no_hits, with_hit, with_hits, with_opened, IsFewest};

use proto::NoMemory;
use std::alloc::Global;
use std::marker::Model;

/// The hits of each segment by its number. They are halved each time half as many segments were
/// opened as there are, so that old hits count less.
#[derive(Drop)]
pub struct SegmentHits {
    counts: Vec<u32>,
    /// The segments that were opened since hits were halved.
    opens: usize,
}

impl Model for SegmentHits {
    ghost use Rattle.segments.specs.Hits.{HitCounts, AreHitsKept};

    ghost Value = { HitCounts };

    ghost view = { λ a. record { counts = a.counts.items; opens = a.opens } };

    ghost invariant = { λ a. AreHitsKept (record { counts = a.counts.items; opens = a.opens }) };
}

impl SegmentHits {
    /// No segment of so many has a hit. NoMemory if out of memory.
    pub fn new(alloc: Global, segments: u32) -> Result<SegmentHits, NoMemory>
        ensures { IfOk result (λ r. r ≡ no_hits segments) }
    {
        Ok(SegmentHits {
            counts: vec![in alloc; 0; segments as usize]?,
            opens: 0,
        })
    }

    /// Counts a hit of a segment.
    pub fn count(&mut self, segment: u32)
        requires { segment < length self.old.counts }
        ensures { self.new ≡ with_hit self.old segment }
    {
        let hits = &mut self.counts[segment as usize];
        *hits = hits.saturating_add(1);
    }

    /// A segment begins with so many hits.
    pub fn begin(&mut self, segment: u32, hits: u32)
        requires { segment < length self.old.counts }
        ensures { self.new ≡ with_hits self.old segment hits }
    {
        self.counts[segment as usize] = hits;
    }

    /// A segment is opened, without a hit.
    pub fn open(&mut self, segment: u32)
        requires { segment < length self.old.counts }
        ensures { self.new ≡ with_opened self.old segment }
    {
        self.counts[segment as usize] = 0;
        self.opens += 1;
        if self.counts.len() <= 2 * self.opens {
            for count in self.counts.iter_mut() {
                *count /= 2;
            }
            self.opens = 0;
        }
    }

    /// Of these segments the first with the fewest hits; None if there are none.
    pub fn fewest(&self, numbers: &[u32]) -> Option<u32>
        requires { All (λ n. n < length self.now.counts) numbers.now }
        ensures { MatchOption result (numbers.now ≡ []) (IsFewest self.now numbers.now) }
    {
        let (first, others) = numbers.split_first()?;
        let mut found = *first;
        for number in others {
            if self.counts[*number as usize] < self.counts[found as usize] {
                found = *number;
            }
        }
        Some(found)
    }
}
