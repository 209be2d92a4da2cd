//! The segmented store: the engine over entries in segments. A segment has items of one range of
//! times to live. Segments are given back whole, or merged if room is needed; an index finds the
//! entries.
#![tactic(auto)]

mod counts;
mod freeing;
mod segment_map;
mod unindexing;
mod writing;

use crate::segment_map::SegmentMap;
use engine::Engine;

/// The segmented cache.
pub type Store = Engine<SegmentMap>;
