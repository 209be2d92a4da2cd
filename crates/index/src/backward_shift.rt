//! Deletion by backward shift: no empty slot is left before a place that is found through it.

ghost use Rattle.std.specs.Prelude.{◌≡◌, ◌+◌, ◌-◌, ◌%◌, ◌^◌, ◌<◌, ◌≤◌, length, IsSome, IfSome, true, List, ℕ};
ghost use Rattle.index.specs.Keys.{hash_of, home_of};
ghost use Rattle.segments.specs.Pools.{key_at};
ghost use Rattle.index.specs.Slots.{used_in, is_used, slot_at, place_of};
ghost use Rattle.index.specs.Table.{hashing, AreIndexed, IsSlotFound};
ghost use Rattle.index.specs.BackwardShift.{IsWithout};

use crate::hash::{hash_of, home_of};
use crate::search::has_gap;
use crate::slots::{Slot, Slots, distance, next_slot};
use segments::Pool;
use std::hash::FoldHasher;

/// The slot that is looked at first for the key of a place.
pub fn home_at(slot: Slot, count: usize, hasher: FoldHasher, pool: &Pool) -> usize
    requires some { 1 ≤ count }
    requires key { IsSome (key_at pool.now (place_of slot)) }
    ensures in_range { result < count }
    ensures value { IfSome (key_at pool.now (place_of slot)) (λ key. result ≡ home_of count (hash_of hasher key)) }
{
    home_of(count, hash_of(hasher, pool.key(slot.place)))
}

/// How many slots before this one the nearest slot is whose number has these lowest bits.
fn back_to_low(at: usize, low: usize, bits: u32) -> usize
    requires low { low < 2 ^ bits }
    requires few { bits ≤ 4 }
    ensures { result ≡ (at % 2 ^ bits + 2 ^ bits - low) % 2 ^ bits }
{
    let mask = (1usize << bits) - 1;
    ((at & mask) + mask + 1 - low) & mask
}

/// The home of the key whose place is in this slot. If there are slots enough, a home's number ends
/// in the lowest bits of the key's hash, and the slot stores these bits. So the home is the nearest
/// slot at or before this one whose number ends in them, provided that a slot between it and the
/// one before it is empty.
fn home_in(slots: &Slots, at: usize, hasher: FoldHasher, pool: &Pool) -> usize
    requires at { at < length slots.now.slots }
    requires found { (key : List ℕ)
        × IsSlotFound (hashing (length slots.now.slots) slots.now.layout hasher)
        (key_at pool.now) slots.now.slots at key }
    ensures in_range { result < length slots.now.slots }
    ensures value { IfSome (key_at pool.now (place_of (slot_at slots.now.slots at)))
        (λ key. result ≡ home_of (length slots.now.slots) (hash_of hasher key)) }
{
    let slot = slots.get(at);
    let layout = slots.layout();
    let bits = layout.home_bits();
    let back = back_to_low(at, layout.low_in(slot.tag) as usize, bits);
    let next = back + (1usize << bits);
    if next <= at && has_gap(slots, at - next, at - back) {
        at - back
    } else {
        home_at(slot, slots.len(), hasher, pool)
    }
}

/// Empties a slot. Each later place of its cluster that is found through the hole shifts back into
/// it, and leaves a hole of its own.
pub fn delete(slots: &mut Slots, at: usize, hasher: FoldHasher, pool: &Pool)
    requires at { at < length slots.old.slots }
    requires used { is_used (slot_at slots.old.slots at) ≡ true }
    requires gap { used_in slots.old.slots < length slots.old.slots }
    requires indexed { AreIndexed (hashing (length slots.old.slots) slots.old.layout hasher)
        (key_at pool.now) slots.old.slots }
    ensures without { IfSome (key_at pool.now (place_of (slot_at slots.old.slots at)))
        (λ key. IsWithout (hashing (length slots.old.slots) slots.old.layout hasher)
        (key_at pool.now) slots.old.slots slots.new.slots key) }
    ensures layout { slots.new.layout ≡ slots.old.layout }
    ensures room { slots.new.room ≡ slots.old.room }
    ensures count { length slots.new.slots ≡ length slots.old.slots }
{
    let count = slots.len();
    let mut hole = at;
    let mut next = next_slot(count, at);
    // The loop has a label for its proof alone.
    'scan: while slots.get(next).is_used() {
        let home = home_in(slots, next, hasher, pool);
        if distance(count, hole, next) <= distance(count, home, next) {
            slots.copy(next, hole);
            hole = next;
        }
        next = next_slot(count, next);
    }
    slots.empty(hole);
}
