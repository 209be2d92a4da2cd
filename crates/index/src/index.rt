//! The index.

ghost use Rattle.std.specs.Prelude.{◌≡◌, ◌≢◌, ◌+◌, ◌*◌, ◌^◌, ◌<◌, ◌≤◌, length, IfOk, ◌⊎◌, ◌∷◌, [], IfSome, IsSome, All, None};
ghost use Rattle.std.specs.FinMap as map;
ghost use Rattle.segments.specs.declared.place.Place.{Place as Spot};
ghost use Rattle.segments.specs.Pools.{item_in, key_at};
ghost use Rattle.segments.specs.Merges.{planned_moves};
ghost use Rattle.segments.specs.Places.{moved_by};
ghost use Rattle.index.specs.Keys.{KeysOf, seeded_hasher, hash_of, home_of};
ghost use Rattle.index.specs.Slots.{used_in, empty_slot, slot_with, IsFirstGap};
ghost use Rattle.index.specs.Searches.{IsEntryOf};
ghost use Rattle.index.specs.Reinserting.{HasSamePlaces};
ghost use Rattle.index.specs.Layouts.{IsLayout, IsInLayout, CanHold, tag_of};
ghost use Rattle.index.specs.Relocating.{IsRelocated, CanRelocate, forget_place, forget_lost, keys_after_merge};
ghost use Rattle.index.specs.Table.{IsIndex, IsMap, IsSameSize, IsTable, table_of, places, place_at, HasPlace};

use crate::backward_shift::delete;
use crate::growing::grow_for;
use crate::hash::{hash_of, home_of, seeded};
use crate::layout::Layout;
use crate::search::{find_key, find_place, first_gap};
use crate::slots::{Slot, Slots};
use proto::NoMemory;
use segments::{Move, Place, Pool};
use std::alloc::Global;
use std::hash::FoldHasher;
use std::marker::Model;
use std::sync::atomic::{AtomicU64, Ordering};

/// The number of moves whose slots are read ahead at once.
const MOVES_AHEAD: usize = 16;

/// The places of items by their keys, in a table whose memory is taken once. Its used part grows
/// with the keys, and is never more than half full.
#[derive(Drop)]
pub struct Index {
    slots: Slots,
    hasher: FoldHasher,
    /// How many slots have a place.
    used: usize,
    /// Some of what was read ahead, so that a compiler doesn't leave the reads out.
    read_ahead: AtomicU64,
}

impl Model for Index {
    ghost use Rattle.index.specs.Table.{Table, AreSlotsCounted, table_of};

    ghost Value = { Table };

    ghost view = { λ a. table_of a.slots a.hasher };

    ghost invariant = { λ a. AreSlotsCounted (table_of a.slots a.hasher) a.used };
}

/// What a search for a key finds, as long as the table stays as it is: the key's hash, and the slot
/// that has its place, or the first empty one from the key's home on.
#[derive(Clone, Copy)]
pub enum Entry {
    At {
        hash: u64,
        slot: usize,
        place: Place,
    },
    Gap {
        hash: u64,
        slot: usize,
    },
}

/// A key's hash, its home, where searches for it begin, and its tag.
#[derive(Clone, Copy)]
struct Start {
    hash: u64,
    home: usize,
    tag: u64,
}

/// Where the searches for a key begin.
#[inline(always)]
fn start_of(slots: &Slots, hasher: FoldHasher, key: &[u8]) -> Start
    requires { 1 ≤ length slots.now.slots }
    ensures hash { result.hash ≡ hash_of hasher key.now }
    ensures home { result.home ≡ home_of (length slots.now.slots) (hash_of hasher key.now) }
    ensures tag { result.tag ≡ tag_of slots.now.layout (hash_of hasher key.now) }
    ensures in_range { result.home < length slots.now.slots }
    // for callers that count keys
    ensures small { length slots.now.slots < 2 ^ 64 }
    ensures fits { (place : Spot) → IsInLayout slots.now.layout place
        → CanHold slots.now.layout (slot_with result.tag place) }
{
    let hash = hash_of(hasher, key);
    Start {
        hash,
        home: home_of(slots.len(), hash),
        tag: slots.layout().tag_of(hash),
    }
}

/// Grows the table for one key more, and finds the first empty slot from the home of a hash on: the
/// one that was found there before, unless the table grew.
fn grown_gap(
    slots: &mut Slots,
    used: usize,
    hasher: FoldHasher,
    pool: &Pool,
    slot: usize,
    hash: u64,
) -> usize
    requires room { 2 * (used + 1) ≤ slots.old.room }
    requires table { IsTable (table_of slots.old hasher) }
    requires used { used ≡ used_in slots.old.slots }
    requires indexed { IsIndex (key_at pool.now) (table_of slots.old hasher) }
    requires gap { IsFirstGap slots.old.slots (home_of (length slots.old.slots) hash) slot }
    ensures gap { IsFirstGap slots.new.slots (home_of (length slots.new.slots) hash) result }
    ensures small { used + 1 < 2 ^ 64 }
    ensures half { 2 * (used + 1) ≤ length slots.new.slots }
    ensures within { length slots.new.slots ≤ slots.new.room }
    ensures few { (length slots.new.slots ≡ length slots.old.slots) ⊎ (length slots.new.slots ≤ 3 * (used + 1)) }
    ensures indexed { IsIndex (key_at pool.now) (table_of slots.new hasher) }
    ensures same { HasSamePlaces (key_at pool.now) slots.old slots.new }
{
    let count = slots.len();
    grow_for(slots, used + 1, hasher, pool);
    if slots.len() == count {
        slot
    } else {
        first_gap(slots, home_of(slots.len(), hash))
    }
}

impl Index {
    /// A table without a key, with memory for `count` slots. The seed is hashed before each key, so
    /// that clients who don't know it can't choose keys that meet in few slots. NoMemory if out of
    /// memory.
    pub fn new(alloc: Global, count: usize, layout: Layout, seed: u64) -> Result<Index, NoMemory>
        requires some { 1 ≤ count }
        requires layout { IsLayout layout }
        ensures room { IfOk result (λ index. index.room ≡ count) }
        ensures slots { IfOk result (λ index. index.slots ≡ empty_slot ∷ []) }
        ensures seed { IfOk result (λ index. index.hasher ≡ seeded_hasher seed) }
        ensures map { IfOk result (λ index. (keys : KeysOf) → IsMap keys index map.empty) }
        ensures layout { IfOk result (λ index. index.layout ≡ layout) }
    {
        Ok(Index {
            slots: Slots::new(alloc, count, layout)?,
            hasher: seeded(seed),
            used: 0,
            read_ahead: AtomicU64::new(0),
        })
    }

    /// How many keys it has.
    pub fn len(&self) -> usize {
        self.used
    }

    /// What hashes a key, once it has taken in the seed.
    pub fn hasher(&self) -> FoldHasher {
        self.hasher
    }

    /// Reads what look-ups of keys with these hashes read first, for all at once: the slots where
    /// they begin, and then what stands at each slot's place, if it may be the key's. It gives some
    /// of what it read.
    pub fn prefetch(&self, pool: &Pool, hashes: &[u64]) -> u64 {
        let mut read = self.peek_slots(hashes);
        for hash in hashes {
            let slot = self.slots.get(home_of(self.slots.len(), *hash));
            if slot.tag == self.slots.layout().tag_of(*hash) {
                read = read.wrapping_add(pool.peek(slot.place));
            }
        }
        read
    }

    /// The sum of the slots at which searches begin for keys with these hashes.
    fn peek_slots(&self, hashes: &[u64]) -> u64 {
        let mut read: u64 = 0;
        for hash in hashes {
            let home = home_of(self.slots.len(), *hash);
            read = read.wrapping_add(self.slots.peek(home));
        }
        read
    }

    /// Searches for the key.
    #[inline(always)]
    pub fn find(&self, pool: &Pool, key: &[u8]) -> Entry
        requires { IsIndex (key_at pool.now) self.now }
        ensures { IsEntryOf (key_at pool.now) self.now key.now result }
    {
        let Start { hash, home, tag } = start_of(&self.slots, self.hasher, key);
        match find_key(&self.slots, pool, home, tag, key) {
            Ok((slot, place)) => Entry::At { hash, slot, place },
            Err(slot) => Entry::Gap { hash, slot },
        }
    }

    /// The place of the key whose search found this; None if the index doesn't have it.
    #[inline(always)]
    pub fn place_found(&self, _pool: &Pool, _key: &[u8], entry: Entry) -> Option<Place>
        requires index { IsIndex (key_at _pool.now) self.now }
        requires found { IsEntryOf (key_at _pool.now) self.now _key.now entry }
        ensures place { result ≡ place_at (key_at _pool.now) self.now _key.now }
        ensures key { IfSome result (λ place. key_at _pool.now place ≡ Some _key.now) }
        ensures item { IfSome result (λ place. IsSome (item_in _pool.now place)) }
    {
        match entry {
            Entry::At { place, .. } => Some(place),
            Entry::Gap { .. } => None,
        }
    }

    /// The place in a slot; None if the slot has none, or the table no such slot.
    pub fn place_in(&self, slot: usize) -> Option<Place>
        ensures { IfSome result (HasPlace self.now) }
    {
        if slot >= self.slots.len() {
            return None;
        }
        let found = self.slots.get(slot);
        if found.is_used() {
            Some(found.place)
        } else {
            None
        }
    }

    /// Gives the key whose search found this a place, and returns the one that it had. If it had
    /// none, the used part of the table grows first, up to three slots for each key; a gap is
    /// searched for again only if it grew.
    pub fn insert(&mut self, pool: &Pool, _key: &[u8], entry: Entry, place: Place) -> Option<Place>
        requires index { IsIndex (key_at pool.now) self.old }
        requires found { IsEntryOf (key_at pool.now) self.old _key.now entry }
        requires key { key_at pool.now place ≡ Some _key.now }
        requires place { IsInLayout self.old.layout place }
        requires room { 2 * (used_in self.old.slots + 1) ≤ self.old.room }
        ensures had { result ≡ place_at (key_at pool.now) self.old _key.now }
        ensures map { IsMap (key_at pool.now) self.new (map.insert (places (key_at pool.now) self.old) _key.now place) }
        ensures size { IsSameSize self.old self.new }
        ensures few { (length self.new.slots ≡ length self.old.slots)
            ⊎ (length self.new.slots ≤ 3 * used_in self.new.slots) }
        ensures half { IsTable self.new }
    {
        match entry {
            Entry::At {
                hash,
                slot,
                place: source,
            } => {
                let tag = self.slots.layout().tag_of(hash);
                self.slots.set(slot, Slot { tag, place });
                Some(source)
            }
            Entry::Gap { hash, slot } => {
                let gap = grown_gap(&mut self.slots, self.used, self.hasher, pool, slot, hash);
                let tag = self.slots.layout().tag_of(hash);
                self.slots.set(gap, Slot { tag, place });
                self.used += 1;
                None
            }
        }
    }

    /// Gives the key another place.
    fn replace(&mut self, key: &[u8], source: Place, target: Place)
        requires target { IsInLayout self.old.layout target }
        requires there { (keys : KeysOf) × IsIndex keys self.old × (place_at keys self.old key.now ≡ Some source) }
        ensures map { (before after : KeysOf) → IsIndex before self.old
            → place_at before self.old key.now ≡ Some source
            → after target ≡ Some key.now
            → ((p : Spot) → HasPlace self.old p → p ≢ source → after p ≡ before p)
            → IsMap after self.new (map.insert (places before self.old) key.now target) }
        ensures size { IsSameSize self.old self.new }
        ensures count { used_in self.new.slots ≡ used_in self.old.slots }
    {
        let Start { home, tag, .. } = start_of(&self.slots, self.hasher, key);
        let at = find_place(&self.slots, home, source).unwrap();
        self.slots.set(at, Slot { tag, place: target });
    }

    /// Takes a key out.
    pub fn remove(&mut self, pool: &Pool, key: &[u8], place: Place)
        requires index { IsIndex (key_at pool.now) self.old }
        requires there { place_at (key_at pool.now) self.old key.now ≡ Some place }
        ensures map { IsMap (key_at pool.now) self.new (map.remove (places (key_at pool.now) self.old) key.now) }
        ensures size { IsSameSize self.old self.new }
        ensures count { used_in self.new.slots + 1 ≡ used_in self.old.slots }
    {
        let home = start_of(&self.slots, self.hasher, key).home;
        let at = find_place(&self.slots, home, place).unwrap();
        delete(&mut self.slots, at, self.hasher, pool);
        self.used -= 1;
    }

    /// Takes the key whose search found this out, if it has a place.
    pub fn remove_found(&mut self, pool: &Pool, _key: &[u8], entry: Entry)
        requires index { IsIndex (key_at pool.now) self.old }
        requires found { IsEntryOf (key_at pool.now) self.old _key.now entry }
        ensures map { IsMap (key_at pool.now) self.new (map.remove (places (key_at pool.now) self.old) _key.now) }
        ensures size { IsSameSize self.old self.new }
    {
        if let Entry::At { slot, .. } = entry {
            delete(&mut self.slots, slot, self.hasher, pool);
            self.used -= 1;
        }
    }

    /// Takes a key out if this is its place.
    fn take_out(&mut self, pool: &Pool, key: &[u8], place: Place)
        requires index { IsIndex (key_at pool.now) self.old }
        requires key { key_at pool.now place ≡ Some key.now }
        ensures relocated { IsRelocated (key_at pool.now) (key_at pool.now) (forget_place place) self.old self.new }
        ensures size { IsSameSize self.old self.new }
    {
        let home = start_of(&self.slots, self.hasher, key).home;
        if let Some(at) = find_place(&self.slots, home, place) {
            delete(&mut self.slots, at, self.hasher, pool);
            self.used -= 1;
        }
    }

    /// Reads the slots at which the searches for the keys of the next moves begin: of those that
    /// keep their items, or of those that don't. The slots come from memory at the same time.
    fn read_ahead(&self, pool: &Pool, moves: &[Move], from: usize, kept: bool)
        requires sources { All (λ m. IsSome (item_in pool.now m.source)) moves.now }
    {
        let mut hashes = [0; MOVES_AHEAD];
        let mut number: usize = 0;
        for hash in hashes.iter_mut() {
            if let Some(step) = moves.get(from.wrapping_add(number)) {
                if step.target.is_some() == kept {
                    *hash = hash_of(self.hasher, pool.item(step.source).key);
                }
            }
            number = number.wrapping_add(1);
        }
        self.read_ahead
            .store(self.peek_slots(&hashes), Ordering::Relaxed);
    }

    /// Takes out the keys of the items that moves forget.
    fn drop_lost(&mut self, pool: &Pool, moves: &[Move])
        requires index { IsIndex (key_at pool.now) self.old }
        requires sources { All (λ m. IsSome (item_in pool.now m.source)) moves.now }
        ensures relocated { IsRelocated (key_at pool.now) (key_at pool.now) (forget_lost moves.now) self.old self.new }
        ensures size { IsSameSize self.old self.new }
    {
        let mut number: usize = 0;
        for step in moves {
            if number % MOVES_AHEAD == 0 {
                self.read_ahead(pool, moves, number, false);
            }
            number = number.wrapping_add(1);
            if step.target.is_none() {
                let item = pool.item(step.source);
                self.take_out(pool, item.key, step.source);
            }
        }
    }

    /// Gives the keys of the items that moves keep their new places.
    fn move_kept(&mut self, pool: &Pool, moves: &[Move])
        requires index { IsIndex (key_at pool.now) self.old }
        requires sources { All (λ m. IsSome (item_in pool.now m.source)) moves.now }
        requires can { CanRelocate (key_at pool.now) (keys_after_merge pool.now) self.old moves.now }
        requires lost { All (λ m. m.target ≡ None → ¬ (HasPlace self.old m.source)) moves.now }
        ensures relocated { IsRelocated (key_at pool.now) (keys_after_merge pool.now)
            (moved_by moves.now) self.old self.new }
        ensures size { IsSameSize self.old self.new }
    {
        let mut number: usize = 0;
        for step in moves {
            if number % MOVES_AHEAD == 0 {
                self.read_ahead(pool, moves, number, true);
            }
            number = number.wrapping_add(1);
            if let Some(target) = step.target {
                let item = pool.item(step.source);
                self.replace(item.key, step.source, target);
            }
        }
    }

    /// Relocates the keys as the merge that is planned will move their items, before it is carried
    /// out: one search for each move.
    pub fn relocate(&mut self, pool: &Pool)
        requires index { IsIndex (key_at pool.now) self.old }
        requires can { CanRelocate (key_at pool.now) (keys_after_merge pool.now) self.old
            (planned_moves pool.now.plan) }
        ensures relocated { IsRelocated (key_at pool.now) (keys_after_merge pool.now)
            (moved_by (planned_moves pool.now.plan)) self.old self.new }
        ensures size { IsSameSize self.old self.new }
    {
        let moves = pool.moves();
        self.drop_lost(pool, moves);
        self.move_kept(pool, moves);
    }

    /// Takes all keys out, and keeps one slot.
    pub fn clear(&mut self)
        ensures map { (keys : KeysOf) → IsMap keys self.new map.empty }
        ensures size { IsSameSize self.old self.new }
        ensures count { used_in self.new.slots ≡ 0 }
        ensures slots { self.new.slots ≡ empty_slot ∷ [] }
    {
        self.slots.clear();
        self.used = 0;
    }
}
