//! How a slot is packed into one number.

ghost use Rattle.std.specs.Prelude.{◌≡◌, ◌<◌, ◌≤◌, ◌^◌, nat_le};
ghost use Rattle.index.specs.Layouts.{IsLayout, IsLayoutOf, CanHold, packed_limit, home_bits, tag_of, low_in, slot_of};
ghost use Rattle.index.specs.Layouts.{packed_of, IsInLayout};
ghost use Rattle.index.specs.Slots.{slot_with};
ghost use Rattle.segments.specs.declared.place.Place.{Place as Spot};

use crate::slots::{EMPTY, Slot};
use proto::{Geometry, MAX_SEGMENTS};
use segments::Place;

/// How many bits an offset takes, counted in eight bytes, and how many a place takes. A packed slot
/// has four bytes, of which the tag has the bits that a place leaves; if a place takes more than 32
/// bits, it has eight bytes.
#[derive(Clone, Copy)]
pub struct Layout {
    pub offset_bits: u32,
    pub place_bits: u32,
}

/// The most bits of an offset: the longest segment has 2^17 times eight bytes.
const MOST_OFFSET_BITS: u32 = 17;

/// The most bits of a place: of the most segments, each as long.
const MOST_PLACE_BITS: u32 = 33;

/// The fewest bits, at least one, that hold each number below `count`.
fn bits_for(count: u64, most: u32) -> u32
    requires count { count ≤ 2 ^ most }
    requires some { 1 ≤ most }
    requires few { most ≤ 33 }
    ensures enough { count ≤ 2 ^ result }
    ensures least { 1 ≤ result }
    ensures most { result ≤ most }
{
    let mut bits = 1;
    while bits < most && 1u64 << bits < count {
        bits += 1;
    }
    bits
}

/// The layout for a pool of these sizes.
pub fn layout_for(geometry: Geometry) -> Layout
    ensures layout { IsLayout result }
    ensures sizes { IsLayoutOf geometry result }
{
    let offset_bits = bits_for((geometry.segment_size() as u64 + 7) / 8, MOST_OFFSET_BITS);
    let segments = geometry.segments() as u64;
    let place_bits = bits_for(segments * (1u64 << offset_bits), MOST_PLACE_BITS);
    Layout {
        offset_bits,
        place_bits,
    }
}

impl Layout {
    /// Whether a packed slot has four bytes.
    pub fn is_narrow(self) -> bool
        ensures { result ≡ nat_le self.place_bits 32 }
    {
        self.place_bits <= 32
    }

    /// How many of a hash's lowest bits stand in a slot. They say most of what the key's home is:
    /// they tell keys of different homes apart, and by them a backward shift mostly needs no keys.
    /// The other bits tell keys of one home apart.
    pub fn home_bits(self) -> u32
        requires { IsLayout self }
        ensures value { result ≡ home_bits self }
        ensures few { result ≤ 4 }
    {
        if self.is_narrow() {
            ((32 - self.place_bits) / 2).min(4)
        } else {
            4
        }
    }

    /// The bits of the hash that stand in a slot.
    pub fn tag_of(self, hash: u64) -> u64
        requires { IsLayout self }
        ensures value { result ≡ tag_of self hash }
        ensures some { 1 ≤ result }
        ensures fits { (place : Spot) → IsInLayout self place → CanHold self (slot_with result place) }
    {
        let bits = self.home_bits();
        let beside = if self.is_narrow() {
            self.place_bits
        } else {
            self.place_bits - 32
        };
        let upper = (hash >> 32) >> (beside + bits);
        (upper << bits) + (hash & ((1u64 << bits) - 1)) + 1
    }

    /// The lowest bits of the hash whose tag this is.
    pub fn low_in(self, tag: u64) -> u64
        requires layout { IsLayout self }
        requires some { 1 ≤ tag }
        ensures value { result ≡ low_in self tag }
        ensures below { result < 2 ^ home_bits self }
    {
        (tag - 1) & ((1u64 << self.home_bits()) - 1)
    }

    /// The slot that was packed.
    pub fn slot_of(self, packed: u64) -> Slot
        requires { IsLayout self }
        ensures { result ≡ slot_of self packed }
    {
        if packed == 0 {
            return EMPTY;
        }
        let number = (packed & ((1u64 << self.place_bits) - 1)).saturating_sub(1);
        Slot {
            tag: (packed >> self.place_bits) + 1,
            place: Place {
                segment: ((number >> self.offset_bits) % u64::from(MAX_SEGMENTS)) as u32,
                offset: 8 * (number & ((1u64 << self.offset_bits) - 1)) as u32,
            },
        }
    }

    /// The slot, packed.
    pub fn packed_of(self, slot: Slot) -> u64
        requires layout { IsLayout self }
        requires slot { CanHold self slot }
        ensures value { result ≡ packed_of self slot }
        ensures limit { result < packed_limit self }
    {
        let place = slot.place;
        let number = ((place.segment as u64) << self.offset_bits) + place.offset as u64 / 8 + 1;
        ((slot.tag - 1) << self.place_bits) + number
    }
}
