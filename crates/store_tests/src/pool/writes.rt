//! Where the writes of a run stand.

use segments::{Move, Place};
use std::alloc::{AllocError, Global};

/// The place of each write by its cas number, none where it was forgotten. The first write has the
/// number 1.
#[derive(Drop)]
pub struct Writes {
    places: Vec<Option<Place>>,
}

impl Writes {
    pub fn new(alloc: Global) -> Result<Writes, AllocError> {
        let mut places = Vec::new(alloc);
        places.push(None)?;
        Ok(Writes { places })
    }

    /// The number that the next write gets.
    pub fn next(&self) -> usize {
        self.places.len()
    }

    pub fn add(&mut self, place: Place) -> Result<(), AllocError> {
        self.places.push(Some(place))?;
        Ok(())
    }

    /// Where a write stands, none where it is no longer there.
    pub fn place(&self, write: usize) -> Option<Place> {
        match self.places.get(write) {
            None => None,
            Some(place) => *place,
        }
    }

    /// The writes from now on stand where a merge puts them.
    pub fn follow(&mut self, moves: &[Move]) {
        for spot in self.places.iter_mut() {
            if let Some(place) = *spot {
                for m in moves {
                    if m.source == place {
                        *spot = m.target;
                    }
                }
            }
        }
    }

    /// What stands in a segment is forgotten.
    pub fn forget_segment(&mut self, segment: u32) {
        for spot in self.places.iter_mut() {
            if let Some(place) = *spot {
                if place.segment == segment {
                    *spot = None;
                }
            }
        }
    }

    pub fn forget(&mut self, write: usize) {
        if let Some(spot) = self.places.get_mut(write) {
            *spot = None;
        }
    }
}
