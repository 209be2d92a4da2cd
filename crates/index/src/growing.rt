//! How many slots there are: memory for so many, of which linear hashing uses one more at a time.
//! The keys of one home are then split, and keys move to where their searches find them.

ghost use Rattle.std.specs.Prelude.{◌≡◌, ◌⊎◌, ◌+◌, ◌*◌, ◌<◌, ◌≤◌, length};
ghost use Rattle.std.specs.Int.{IsNextPowerOfTwo};
ghost use Rattle.segments.specs.Pools.{key_at};
ghost use Rattle.index.specs.Sizing.{most_items};
ghost use Rattle.index.specs.Slots.{used_in};
ghost use Rattle.index.specs.Reinserting.{AreNear, IsFirstStop, IsStretch, HasSamePlaces};
ghost use Rattle.index.specs.Table.{hashing, AreIndexed, IsIndex, table_of};

use crate::backward_shift::home_at;
use crate::hash::split_home;
use crate::search::first_gap_before;
use crate::slots::{Slots, distance, next_slot};
use proto::{Geometry, MIN_ITEM_SIZE};
use segments::Pool;
use std::hash::FoldHasher;

/// The most slots that are added for one new key: more than two, so that at most half of the slots
/// are ever used.
const MAX_GROWTH: usize = 3;

/// The most slots for each key.
const SLOTS_PER_KEY: usize = 3;

/// The slots of the index for a pool of these sizes. The items of a full pool use at most half of
/// them.
pub fn slots_for(geometry: Geometry) -> usize
    ensures { IsNextPowerOfTwo (2 * most_items geometry) result }
{
    let items = geometry.segments() as usize * (geometry.segment_size() / MIN_ITEM_SIZE) as usize;
    (2 * items).next_power_of_two()
}

/// Slots that are known to be used: from the first one up to the end, which itself may be empty.
#[derive(Clone, Copy)]
struct Stretch {
    first: usize,
    end: usize,
}

/// The first empty slot of the search from a home, or another slot that comes before it, as the end
/// of a stretch. If the home is in a stretch that is known, and that doesn't go past the other
/// slot, the search goes on from its end.
fn search(slots: &Slots, known: Stretch, home: usize, at: usize) -> Stretch
    requires known { IsStretch slots.now.slots known }
    requires home { home < length slots.now.slots }
    requires at { at < length slots.now.slots }
    requires gap { used_in slots.now.slots < length slots.now.slots }
    ensures first { result.first < length slots.now.slots }
    ensures used { IsFirstStop slots.now.slots result.first at result.end }
    ensures stop { IsFirstStop slots.now.slots home at result.end }
{
    let count = slots.len();
    let reach = distance(count, known.first, known.end);
    if distance(count, known.first, home) <= reach && reach <= distance(count, known.first, at) {
        return Stretch {
            first: known.first,
            end: first_gap_before(slots, known.end, at),
        };
    }
    Stretch {
        first: home,
        end: first_gap_before(slots, home, at),
    }
}

/// Reinserts the keys of a cluster's slots from one on, up to the first empty slot: a key that
/// isn't found there from its home of `count` slots goes to the first empty slot of its search. A
/// cluster is a run of used slots.
fn reinsert(slots: &mut Slots, from: usize, count: usize, hasher: FoldHasher, pool: &Pool)
    requires from { from < length slots.old.slots }
    requires some { 1 ≤ count }
    requires count { count ≤ length slots.old.slots }
    requires gap { used_in slots.old.slots < length slots.old.slots }
    requires near { AreNear (hashing count slots.old.layout hasher) (key_at pool.now) slots.old.slots from }
    ensures indexed { AreIndexed (hashing count slots.old.layout hasher) (key_at pool.now) slots.new.slots }
    ensures same { HasSamePlaces (key_at pool.now) slots.old slots.new }
    ensures count { length slots.new.slots ≡ length slots.old.slots }
{
    let mut at = from;
    let mut known = Stretch {
        first: from,
        end: from,
    };
    // The loop has a label for its proof alone.
    'cluster: while slots.get(at).is_used() {
        let home = home_at(slots.get(at), count, hasher, pool);
        known = search(slots, known, home, at);
        let gap = known.end;
        if gap != at {
            slots.copy(at, gap);
            slots.empty(at);
        }
        at = next_slot(slots.len(), at);
    }
}

/// Adds a slot. Two kinds of keys move: those that had wrapped around the end, and those of the
/// split home whose new home is the added slot.
fn grow(slots: &mut Slots, hasher: FoldHasher, pool: &Pool)
    requires room { length slots.old.slots < slots.old.room }
    requires gap { used_in slots.old.slots < length slots.old.slots }
    requires indexed { IsIndex (key_at pool.now) (table_of slots.old hasher) }
    ensures indexed { IsIndex (key_at pool.now) (table_of slots.new hasher) }
    ensures same { HasSamePlaces (key_at pool.now) slots.old slots.new }
    ensures count { length slots.new.slots ≡ length slots.old.slots + 1 }
{
    let count = slots.len();
    slots.push();
    let front = if slots.get(count - 1).is_used() {
        0
    } else {
        count
    };
    reinsert(slots, front, count, hasher, pool);
    let more = slots.len();
    reinsert(slots, split_home(count), more, hasher, pool);
}

/// Adds slots for `keys` keys, up to three, while there are fewer than three for each key and there
/// is room.
pub fn grow_for(slots: &mut Slots, keys: usize, hasher: FoldHasher, pool: &Pool)
    requires room { 2 * keys ≤ slots.old.room }
    requires half { 2 * keys ≤ length slots.old.slots + 2 }
    requires within { length slots.old.slots ≤ slots.old.room }
    requires keys { used_in slots.old.slots + 1 ≡ keys }
    requires indexed { IsIndex (key_at pool.now) (table_of slots.old hasher) }
    requires gap { used_in slots.old.slots < length slots.old.slots }
    ensures half { 2 * keys ≤ length slots.new.slots }
    ensures within { length slots.new.slots ≤ slots.new.room }
    ensures few { (length slots.new.slots ≡ length slots.old.slots) ⊎ (length slots.new.slots ≤ 3 * keys) }
    ensures indexed { IsIndex (key_at pool.now) (table_of slots.new hasher) }
    ensures same { HasSamePlaces (key_at pool.now) slots.old slots.new }
    ensures left { length slots.new.slots ≡ length slots.old.slots → slots.new ≡ slots.old }
{
    let mut left = MAX_GROWTH;
    while left > 0 && slots.len() < slots.room() && slots.len() / SLOTS_PER_KEY < keys {
        grow(slots, hasher, pool);
        left -= 1;
    }
}
