//! Which items are live: the test that a merge asks, and marks at the places of items, in all
//! segments of a pool.

ghost use Rattle.std.specs.Prelude.{◌≡◌, ℕ, ◌<◌, Bool, true, false, All, Option, IfOk, IfSome};
ghost use Rattle.segments.specs.declared.place.Place.{Place as Spot};
ghost use Rattle.segments.specs.Items.{Item};
ghost use Rattle.segments.specs.Pools.{PoolState, has_live};
ghost use Rattle.segments.specs.Shown.{item_of};
ghost use Rattle.segments.specs.Marks.{no_marks, is_marked, mark_count, row_of, with_mark, without_marks};
ghost use Rattle.segments.specs.Marks.{carried_marks, IsWithin};

use crate::place::{ItemRef, Move, Place};
use crate::segment_marks::SegmentMarks;
use proto::{Geometry, MIN_ITEM_SIZE, NoMemory};
use std::alloc::Global;
use std::marker::Model;

/// The caller's test of which items are live, and of which segments have a live item.
pub trait Live {
    ghost lives_at: { Self → Spot → Item → Option ℕ → Bool };

    /// The pools of whose segments it knows whether they have a live item.
    ghost knows: { Self → PoolState → Type 0 };

    fn lives(&self, place: Place, item: &ItemRef) -> bool
        ensures { result ≡ lives_at self.now place (item_of item.now) item.now.deadline };

    /// Whether a segment has a live item.
    fn has_live(&self, segment: u32) -> bool
        ensures { (p : PoolState) → knows self.now p → result ≡ has_live (lives_at self.now) p segment };
}

/// The marks of each segment: a bit for each 32 bytes.
#[derive(Drop)]
pub struct LiveMarks {
    geometry: Geometry,
    rows: Vec<SegmentMarks>,
}

impl Model for LiveMarks {
    ghost use Rattle.segments.specs.Marks.{Marks};
    ghost use Rattle.segments.specs.MarksInside.{marks_of, AreMarksKept};

    ghost Value = { Marks };

    ghost view = { marks_of };

    ghost invariant = { AreMarksKept };
}

impl LiveMarks {
    /// Takes the memory for all marks, none of which is set. NoMemory if out of memory.
    pub fn new(alloc: Global, geometry: Geometry) -> Result<LiveMarks, NoMemory>
        ensures { IfOk result (λ t. t ≡ no_marks geometry) }
    {
        let marks = geometry.segment_size() / MIN_ITEM_SIZE;
        let mut rows = Vec::with_capacity(alloc, geometry.segments() as usize)?;
        for _number in 0..geometry.segments() {
            rows.push(SegmentMarks::new(alloc, marks)?)?;
        }
        Ok(LiveMarks { geometry, rows })
    }

    /// Whether the place is marked.
    pub fn is_marked(&self, place: Place) -> bool
        ensures { result ≡ is_marked self.now place }
    {
        match self.rows.get(place.segment as usize) {
            Some(row) => row.is_marked(place.offset / MIN_ITEM_SIZE),
            None => false,
        }
    }

    /// How many places of the segment are marked.
    pub fn count(&self, segment: u32) -> u32
        ensures { result ≡ mark_count (row_of self.now segment) }
    {
        match self.rows.get(segment as usize) {
            Some(row) => row.count(),
            None => 0,
        }
    }

    /// Marks a place.
    pub fn mark(&mut self, place: Place)
        requires { IsWithin self.old.sizes place }
        ensures { self.new ≡ with_mark true self.old place }
    {
        self.rows[place.segment as usize].mark(place.offset / MIN_ITEM_SIZE);
    }

    /// Takes the mark of a place away.
    pub fn unmark(&mut self, place: Place)
        requires { IsWithin self.old.sizes place }
        ensures { self.new ≡ with_mark false self.old place }
    {
        self.rows[place.segment as usize].unmark(place.offset / MIN_ITEM_SIZE);
    }

    /// Moves the marks as the items are moved.
    pub fn carry(&mut self, moves: &[Move])
        requires sources { All (λ m. IsWithin self.old.sizes m.source) moves.now }
        requires targets { All (λ m. IfSome m.target (IsWithin self.old.sizes)) moves.now }
        ensures { self.new ≡ carried_marks self.old moves.now }
    {
        for step in moves {
            self.unmark(step.source);
        }
        for step in moves {
            if let Some(target) = step.target {
                self.mark(target);
            }
        }
    }

    /// Takes all marks of a segment away.
    pub fn clear_segment(&mut self, segment: u32)
        requires { segment < self.old.sizes.segments }
        ensures { self.new ≡ without_marks self.old segment }
    {
        self.rows[segment as usize].clear();
    }
}

impl Live for LiveMarks {
    ghost use Rattle.segments.specs.Marks.{lives_by, KnowsPool};

    ghost lives_at = { lives_by };

    ghost knows = { KnowsPool };

    fn lives(&self, place: Place, _item: &ItemRef) -> bool {
        self.is_marked(place)
    }

    fn has_live(&self, segment: u32) -> bool {
        self.count(segment) > 0
    }
}
