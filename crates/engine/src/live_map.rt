//! What an engine asks of the map that has its entries.

ghost use Rattle.std.specs.Prelude.{◌≡◌, ℕ, ◌≤◌, Bool, List, Option, IfSome, IsSome, IsTrue, Some};
ghost use Rattle.std.specs.Prelude.{false, length};
ghost use Rattle.std.specs.Option.{option_map};
ghost use Rattle.std.specs.FinMap as map;
ghost use Rattle.proto.specs.Sizes.{Sizes, IsGeometry, item_limit};
ghost use Rattle.proto.specs.Cache.{Entry, Entries, no_entries, live, has_arrived};
ghost use Rattle.proto.specs.History.{max_moment};
ghost use Rattle.proto.specs.Steps.{MayBeDated};
ghost use Rattle.proto.specs.declared.message.Reply.TheVariants.{Touched};
ghost use Rattle.proto.specs.Stored.{StoredItem};
ghost use Rattle.engine.specs.Shown.{entry_of};
ghost use Rattle.engine.specs.Written.{MayBeWritten, IsChanged, WritesOrRefuses};
ghost use Rattle.engine.specs.Keeping.{StaysKept, KeepsEntry};
ghost use Rattle.engine.specs.Counting.{StaysAlike};

use proto::{Gauges, NoMemory};
use std::hash::FoldHasher;

/// An entry whose value is borrowed: from the map that has it, or from the caller that writes it.
#[derive(Clone, Copy)]
pub struct EntryRef<'a> {
    pub value: &'a [u8],
    pub flags: u32,
    pub deadline: Option<u64>,
    pub cas: u64,
}

/// Entries by their keys, as they are seen at the last moment.
pub trait LiveMap {
    /// Where an entry stands, as long as the map stays as it is.
    type Place: Copy;

    /// What a search finds for a key, as long as the map stays as it is: where its entry stands, or
    /// where one would go.
    type Spot: Copy;

    /// The sizes that it was made for.
    ghost sizes: { Self → Sizes };

    /// The entries that are live at the last moment.
    ghost entries: { Self → Entries };

    /// The last moment.
    ghost moment: { Self → ℕ };

    /// Whether a write may fail because memory is refused.
    ghost may_refuse: { Bool };

    /// The entry of the key stands at the place.
    ghost stands: { Self → List ℕ → Self.Place → Type 0 };

    /// A search for the key finds the spot.
    ghost finds: { Self → List ℕ → Self.Spot → Type 0 };

    /// What a write does to this map, beyond what one does to any.
    ghost writes: { Self → List ℕ → Entry → Self → Type 0 };

    /// What a change of the key's entry does to this map, beyond what a write does to any.
    ghost changes: { Self → List ℕ → Entry → Self → Type 0 };

    /// What counting a read of the entry at the key does to this map.
    ghost reads: { Self → List ℕ → Self → Type 0 };

    /// What counting a touch that leaves the entry at the key does to this map.
    ghost touches: { Self → List ℕ → Self → Type 0 };

    /// Whether an entry keeps its deadline at a moment when it is asked to have another one: the
    /// moment, the one asked for, and the one that it has.
    ghost stays: { Self → ℕ → Option ℕ → Option ℕ → Bool };

    /// The other map may differ from this one only by entries that expired or were removed:
    /// everything else is where it was.
    ghost alike: { Self → Self → Type 0 };

    /// These items were stored so far, none with a deadline, and no item was forgotten to make
    /// room.
    ghost keeps: { Self → List StoredItem → Type 0 };

    /// The largest size of an item.
    fn item_limit(&self) -> u32
        ensures value { result ≡ item_limit (sizes self.now) }
        ensures in_range { IsGeometry (sizes self.now) };

    fn last_moment(&self) -> u64
        ensures { result ≡ moment self.now };

    /// What hashes the keys for `prefetch`.
    fn key_hasher(&self) -> FoldHasher;

    /// Reads what the searches for keys with these hashes will read, for all at once, so that it is
    /// in the processor's cache. No clause speaks of what it reads.
    fn prefetch(&self, hashes: &[u64]);

    /// Sets the gauges that it knows, for `stats`. No clause speaks of it.
    fn set_gauges(&self, gauges: &Gauges);

    /// How often room was made so far by forgetting something. No clause speaks of it.
    fn evictions(&self) -> u64;

    /// Moves on to this moment.
    fn advance(&mut self, now: u64)
        requires not_before { moment self.old ≤ now }
        requires in_range { now ≤ max_moment }
        ensures entries { entries self.new ≡ live (entries self.old) now }
        ensures sizes { sizes self.new ≡ sizes self.old }
        ensures moment { moment self.new ≡ now }
        ensures alike { alike self.old self.new }
        ensures kept { StaysKept keeps self.old self.new };

    /// Searches for the key.
    fn find(&self, key: &[u8]) -> Self::Spot
        ensures { finds self.now key.now result };

    /// The entry at the key, whose search found the spot, and where it stands; None if the key has
    /// none.
    fn entry_found<'a>(
        &'a self,
        key: &[u8],
        spot: Self::Spot,
    ) -> Option<(EntryRef<'a>, Self::Place)>
        requires { finds self.now key.now spot }
        ensures found { option_map (λ r. entry_of r.0) result ≡ map.get (entries self.now) key.now }
        ensures stands { IfSome result (λ r. stands self.now key.now r.1) }
        ensures waits { IfSome result (λ r. has_arrived r.0.deadline (moment self.now) ≡ false) }
        ensures small { IfSome result (λ r. length r.0.value.now ≤ 1048576) };

    /// The entry at the key, which stands at the place, without a search.
    fn entry_at<'a>(&'a self, key: &[u8], place: Self::Place) -> EntryRef<'a>
        requires stands { stands self.now key.now place }
        requires there { IsSome (map.get (entries self.now) key.now) }
        ensures { Some (entry_of result) ≡ map.get (entries self.now) key.now };

    /// Whether the key has an entry, whose search found the spot.
    fn has_entry(&self, key: &[u8], spot: Self::Spot) -> bool
        requires { finds self.now key.now spot }
        ensures { result ≡ map.contains_key (entries self.now) key.now }
    {
        self.entry_found(key, spot).is_some()
    }

    /// Counts a read of the entry at the key, which stands at the place. All entries stand where
    /// they stood.
    fn count_read(&mut self, key: &[u8], place: Self::Place)
        requires { stands self.old key.now place }
        ensures counted { reads self.old key.now self.new }
        ensures stands { (other : List ℕ) (there : Self.Place) → stands self.old other there
            → stands self.new other there }
        ensures entries { entries self.new ≡ entries self.old }
        ensures sizes { sizes self.new ≡ sizes self.old }
        ensures moment { moment self.new ≡ moment self.old }
        ensures kept { StaysKept keeps self.old self.new };

    /// Counts a touch that leaves the entry at the key, which stands at the place.
    fn count_touch(&mut self, key: &[u8], place: Self::Place)
        requires { stands self.old key.now place }
        ensures counted { touches self.old key.now self.new }
        ensures entries { entries self.new ≡ entries self.old }
        ensures sizes { sizes self.new ≡ sizes self.old }
        ensures moment { moment self.new ≡ moment self.old }
        ensures kept { StaysKept keeps self.old self.new };

    /// Copies the entry into the map, in place of what the key has, whose search found the spot.
    /// NoMemory if out of memory; then no entry changes.
    fn write(&mut self, key: &[u8], spot: Self::Spot, entry: EntryRef) -> Result<(), NoMemory>
        requires found { finds self.old key.now spot }
        requires waits { has_arrived entry.deadline (moment self.old) ≡ false }
        requires fits { MayBeWritten (sizes self.old) (entries self.old) key.now entry.value.now }
        ensures { WritesOrRefuses sizes entries moment alike keeps may_refuse writes self.old key.now
            (entry_of entry.entry) result self.new };

    /// Writes an entry that differs from the one of the key only by its value and its cas number.
    /// The key's search found the spot, and its entry stands at the place: a map may change it
    /// there. NoMemory as for `write`.
    fn rewrite(
        &mut self,
        key: &[u8],
        spot: Self::Spot,
        place: Self::Place,
        entry: EntryRef,
    ) -> Result<(), NoMemory>
        requires found { finds self.old key.now spot }
        requires stands { stands self.old key.now place }
        requires changed { IsChanged (map.get (entries self.old) key.now) (entry_of entry) }
        requires waits { has_arrived entry.deadline (moment self.old) ≡ false }
        requires fits { MayBeWritten (sizes self.old) (entries self.old) key.now entry.value.now }
        ensures { WritesOrRefuses sizes entries moment alike keeps may_refuse changes self.old key.now
            (entry_of entry.entry) result self.new };

    /// Whether the entry of the key, which stands at the place, may be left as it is if it is asked
    /// to have this deadline.
    fn may_stay(&self, key: &[u8], place: Self::Place, deadline: Option<u64>) -> bool
        requires stands { stands self.now key.now place }
        requires there { IsSome (map.get (entries self.now) key.now) }
        requires waits { has_arrived deadline (moment self.now) ≡ false }
        ensures decides { (e : Entry) → map.get (entries self.now) key.now ≡ Some e
            → result ≡ stays self.now (moment self.now) deadline e.deadline }
        ensures may_stay { IsTrue result → (e : Entry) → map.get (entries self.now) key.now ≡ Some e
            → MayBeDated (moment self.now) deadline e.deadline Touched }
        ensures kept { IsTrue result → (e : Entry) → map.get (entries self.now) key.now ≡ Some e
            → KeepsEntry sizes entries moment keeps self.now key.now (record e { deadline = deadline }) self.now };

    /// Takes the entry at the key, whose search found the spot, out, if there is one.
    fn remove(&mut self, key: &[u8], spot: Self::Spot)
        requires { finds self.old key.now spot }
        ensures entries { entries self.new ≡ map.remove (entries self.old) key.now }
        ensures sizes { sizes self.new ≡ sizes self.old }
        ensures moment { moment self.new ≡ moment self.old }
        ensures alike { StaysAlike alike self.old self.new }
        ensures kept { StaysKept keeps self.old self.new };

    /// Takes all entries out.
    fn clear(&mut self)
        ensures entries { entries self.new ≡ no_entries }
        ensures sizes { sizes self.new ≡ sizes self.old }
        ensures moment { moment self.new ≡ moment self.old }
        ensures alike { StaysAlike alike self.old self.new }
        ensures kept { StaysKept keeps self.old self.new };
}
