//! The slots of a table, each packed into one number, and the steps from slot to slot.

ghost use Rattle.std.specs.Prelude.{◌≡◌, ◌<◌, ◌≤◌, ◌∷◌, [], ◌++◌, IfOk, length, slice_set};
ghost use Rattle.index.specs.Slots.{is_used, distance, next_slot, empty_slot, slot_at};
ghost use Rattle.index.specs.Layouts.{IsLayout, CanHold, slot_of, packed_limit};

use crate::layout::Layout;
use proto::NoMemory;
use segments::Place;
use std::alloc::Global;
use std::marker::Model;

/// A place, and bits of the hash of its key, by which a search passes most slots of other keys. A
/// slot with the tag 0 is empty. Of a used one, 1 less than the tag is packed.
#[derive(Clone, Copy)]
pub struct Slot {
    pub tag: u64,
    pub place: Place,
}

/// A slot without a place.
pub const EMPTY: Slot = Slot {
    tag: 0,
    place: Place {
        segment: 0,
        offset: 0,
    },
};

impl Slot {
    pub fn is_used(self) -> bool
        ensures { result ≡ is_used self }
    {
        self.tag != 0
    }
}

/// The slot after a slot; after the last of `count` comes the first.
pub fn next_slot(count: usize, at: usize) -> usize
    requires { at < count }
    ensures value { result ≡ next_slot count at }
    ensures in_range { result < count }
{
    if at + 1 == count { 0 } else { at + 1 }
}

/// How many steps lead from one slot to another, where the first of `count` comes after the last.
#[tactic(auto, unfolding(crate::specs::Slots::distance))]
pub fn distance(count: usize, from: usize, to: usize) -> usize
    requires from { from < count }
    requires to { to < count }
    ensures { result ≡ distance count from to }
{
    if from <= to {
        to - from
    } else {
        count - (from - to)
    }
}

/// Slots in a row, which never take more memory than they were made with. Only one of the two lists
/// is used, so that a slot has four bytes if its layout lets it.
#[derive(Drop)]
pub struct Slots {
    layout: Layout,
    narrow: Vec<u32>,
    wide: Vec<u64>,
}

impl Model for Slots {
    ghost use Rattle.std.specs.Prelude.{vec_capacity};
    ghost use Rattle.index.specs.Layouts.{SlotArray, slot_array_of, IsLayout};

    ghost Value = { SlotArray };

    ghost view = { λ a. slot_array_of a.layout a.narrow.items a.wide.items (vec_capacity a.narrow)
        (vec_capacity a.wide) };

    ghost invariant = { λ a. IsLayout a.layout };
}

impl Slots {
    /// One empty slot, with memory for `count`. NoMemory if out of memory.
    pub fn new(alloc: Global, count: usize, layout: Layout) -> Result<Slots, NoMemory>
        requires some { 1 ≤ count }
        requires layout { IsLayout layout }
        ensures slots { IfOk result (λ s. s.slots ≡ empty_slot ∷ []) }
        ensures room { IfOk result (λ s. s.room ≡ count) }
        ensures layout { IfOk result (λ s. s.layout ≡ layout) }
    {
        let narrow_count = if layout.is_narrow() { count } else { 0 };
        let mut slots = Slots {
            layout,
            narrow: Vec::with_capacity(alloc, narrow_count)?,
            wide: Vec::with_capacity(alloc, count - narrow_count)?,
        };
        slots.push();
        Ok(slots)
    }

    pub fn layout(&self) -> Layout
        ensures value { result ≡ self.now.layout }
        ensures layout { IsLayout result }
    {
        self.layout
    }

    pub fn len(&self) -> usize
        ensures { result ≡ length self.now.slots }
    {
        if self.layout.is_narrow() {
            self.narrow.len()
        } else {
            self.wide.len()
        }
    }

    /// How many slots memory was taken for.
    pub fn room(&self) -> usize
        ensures { result ≡ self.now.room }
    {
        if self.layout.is_narrow() {
            self.narrow.capacity()
        } else {
            self.wide.capacity()
        }
    }

    /// A slot as it is packed.
    fn packed(&self, at: usize) -> u64
        requires { at < length self.now.slots }
        ensures slot { slot_of self.now.layout result ≡ slot_at self.now.slots at }
        ensures limit { result < packed_limit self.now.layout }
    {
        if self.layout.is_narrow() {
            self.narrow[at] as u64
        } else {
            self.wide[at]
        }
    }

    /// Stores a packed slot.
    fn set_packed(&mut self, at: usize, packed: u64)
        requires at { at < length self.old.slots }
        requires limit { packed < packed_limit self.old.layout }
        ensures { self.new
            ≡ record self.old { slots = slice_set self.old.slots at (slot_of self.old.layout packed) } }
    {
        if self.layout.is_narrow() {
            self.narrow[at] = packed as u32;
        } else {
            self.wide[at] = packed;
        }
    }

    pub fn get(&self, at: usize) -> Slot
        requires { at < length self.now.slots }
        ensures { result ≡ slot_at self.now.slots at }
    {
        self.layout.slot_of(self.packed(at))
    }

    /// A slot as it is packed, or 0 if there is none.
    pub fn peek(&self, at: usize) -> u64 {
        if at < self.len() { self.packed(at) } else { 0 }
    }

    pub fn set(&mut self, at: usize, slot: Slot)
        requires at { at < length self.old.slots }
        requires slot { CanHold self.old.layout slot }
        ensures { self.new ≡ record self.old { slots = slice_set self.old.slots at slot } }
    {
        let packed = self.layout.packed_of(slot);
        self.set_packed(at, packed);
    }

    /// Empties a slot.
    pub fn empty(&mut self, at: usize)
        requires { at < length self.old.slots }
        ensures { self.new ≡ record self.old { slots = slice_set self.old.slots at empty_slot } }
    {
        self.set_packed(at, 0);
    }

    /// Copies a slot to another one.
    pub fn copy(&mut self, source: usize, target: usize)
        requires source { source < length self.old.slots }
        requires target { target < length self.old.slots }
        ensures { self.new
            ≡ record self.old { slots = slice_set self.old.slots target (slot_at self.old.slots source) } }
    {
        let packed = self.packed(source);
        self.set_packed(target, packed);
    }

    /// Appends an empty slot.
    pub fn push(&mut self)
        requires { length self.old.slots < self.old.room }
        ensures { self.new ≡ record self.old { slots = self.old.slots ++ empty_slot ∷ [] } }
    {
        if self.layout.is_narrow() {
            self.narrow.push_reserved(0);
        } else {
            self.wide.push_reserved(0);
        }
    }

    /// Keeps one slot, which is empty.
    pub fn clear(&mut self)
        requires { 1 ≤ self.old.room }
        ensures { self.new ≡ record self.old { slots = empty_slot ∷ [] } }
    {
        self.narrow.clear();
        self.wide.clear();
        self.push();
    }
}
