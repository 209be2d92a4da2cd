//! A map that evicts nothing and gives each entry exactly the deadline that it asks for, and the
//! cache over it.

ghost use Rattle.std.specs.Prelude.{◌≡◌, ℕ, ◌≤◌, ⊤, true, length};
ghost use Rattle.std.specs.FinMap as finite;
ghost use Rattle.proto.specs.Cache.{live, no_entries};
ghost use Rattle.engine.specs.Shown.{entry_of};
ghost use Rattle.reference.specs.PlainEntries.{entries_of, plain_entries};
ghost use Rattle.reference.specs.PlainWrites.{same_deadline};

use engine::{Engine, EntryRef, LiveMap, StoreMap, has_arrived};
use proto::{ByteString, Eviction, Gauge, Gauges, Geometry, MAX_VALUE, NoMemory};
use std::alloc::Global;
use std::collections::BTreeMap;
use std::hash::FoldHasher;
use std::marker::Model;

/// What a cache has at a key.
#[derive(Drop)]
struct Entry {
    value: ByteString,
    flags: u32,
    deadline: Option<u64>,
    cas: u64,
}

impl Model for Entry {
    ghost use Rattle.proto.specs.Cache.{Entry, entry_code};

    ghost Value = { Entry };

    ghost coded = { entry_code };

    ghost use Rattle.std.specs.Prelude.{◌≤◌, length};

    ghost view = { λ a. record { value = a.value; flags = a.flags; deadline = a.deadline; cas = a.cas } };

    ghost invariant = { λ a. length a.value ≤ 1048576 };
}

impl Entry {
    fn new(value: ByteString, flags: u32, deadline: Option<u64>, cas: u64) -> Self
        requires { length value ≤ 1048576 }
        ensures { result ≡ record { value = value; flags = flags; deadline = deadline; cas = cas } }
    {
        Entry {
            value,
            flags,
            deadline,
            cas,
        }
    }

    /// The entry, lent.
    fn lent(&self) -> EntryRef<'_>
        ensures entry { entry_of result ≡ self.now }
        ensures small { length result.value.now ≤ 1048576 }
    {
        EntryRef {
            value: self.value.as_slice(),
            flags: self.flags,
            deadline: self.deadline,
            cas: self.cas,
        }
    }
}

/// Whether two deadlines are the same.
fn is_same_deadline(asked: Option<u64>, given: Option<u64>) -> bool
    ensures { result ≡ same_deadline asked given }
{
    given == asked
}

/// Takes the entry at the key out, if there is one.
fn take_out(map: &mut BTreeMap<Vec<u8>, Entry>, key: &[u8])
    ensures { (t : ℕ) → live (entries_of map.new.entries) t
        ≡ finite.remove (live (entries_of map.old.entries) t) key.now }
{
    map.remove(key);
}

/// A plain map of live entries. It is there to be compared with. An entry whose deadline has come
/// isn't seen any more, but it is dropped only when its key is written or deleted, or when all
/// entries are.
#[derive(Drop)]
pub struct PlainMap {
    alloc: Global,
    geometry: Geometry,
    map: BTreeMap<Vec<u8>, Entry>,
    moment: u64,
}

/// The plain cache.
pub type PlainStore = Engine<PlainMap>;

impl PlainMap {
    /// Takes all entries out, and keeps the rest.
    fn take_all_out(&mut self)
        ensures entries { plain_entries self.new ≡ no_entries }
        ensures sizes { self.new.geometry ≡ self.old.geometry }
        ensures moment { self.new.moment ≡ self.old.moment }
    {
        self.map.clear();
    }
}

impl LiveMap for PlainMap {
    ghost use Rattle.reference.specs.PlainWrites.{WritesPlainly, ReadsPlainly, same_deadline};

    /// An entry is found again by its key.
    type Place = ();

    type Spot = ();

    ghost sizes = { λ m. m.geometry };

    ghost entries = { plain_entries };

    ghost moment = { λ m. m.moment };

    ghost may_refuse = { true };

    ghost stands = { λ m key place. ⊤ };

    ghost finds = { λ m key spot. ⊤ };

    ghost writes = { WritesPlainly };

    ghost changes = { WritesPlainly };

    ghost reads = { ReadsPlainly };

    ghost touches = { ReadsPlainly };

    ghost stays = { λ m t asked given. same_deadline asked given };

    ghost alike = { λ m n. ⊤ };

    ghost keeps = { λ m items. ⊤ };

    fn item_limit(&self) -> u32 {
        self.geometry.item_limit()
    }

    fn last_moment(&self) -> u64 {
        self.moment
    }

    /// A plain map finds no key by its hash, and reads nothing ahead.
    fn key_hasher(&self) -> FoldHasher {
        FoldHasher::default()
    }

    fn prefetch(&self, _hashes: &[u64]) {}

    fn set_gauges(&self, gauges: &Gauges) {
        gauges.set(&[(Gauge::CurrItems, self.map.len() as u64)]);
    }

    fn evictions(&self) -> u64 {
        0
    }

    fn advance(&mut self, now: u64) {
        self.moment = now;
    }

    /// A plain map finds a key again where it is asked for its entry.
    fn find(&self, _key: &[u8]) {}

    fn entry_found<'a>(&'a self, key: &[u8], _spot: ()) -> Option<(EntryRef<'a>, ())> {
        let entry = self.map.get(key)?.lent();
        if has_arrived(entry.deadline, self.moment) {
            return None;
        }
        Some((entry, ()))
    }

    fn entry_at<'a>(&'a self, key: &[u8], _place: ()) -> EntryRef<'a> {
        self.entry_found(key, ()).unwrap().0
    }

    /// A plain map counts no reads.
    fn count_read(&mut self, _key: &[u8], _place: ()) {}

    /// Nor any touch.
    fn count_touch(&mut self, _key: &[u8], _place: ()) {}

    fn write(&mut self, key: &[u8], _spot: (), entry: EntryRef) -> Result<(), NoMemory> {
        if entry.value.len() > MAX_VALUE as usize {
            return Err(NoMemory);
        }
        let value = ByteString::from_vec(Vec::from_slice(self.alloc, entry.value)?);
        let key = Vec::from_slice(self.alloc, key)?;
        self.map.insert(
            key,
            Entry::new(value, entry.flags, entry.deadline, entry.cas),
        )?;
        Ok(())
    }

    /// A plain map writes it anew.
    fn rewrite(
        &mut self,
        key: &[u8],
        spot: (),
        _place: (),
        entry: EntryRef,
    ) -> Result<(), NoMemory> {
        self.write(key, spot, entry)
    }

    /// Only if it has this very deadline.
    fn may_stay(&self, key: &[u8], _place: (), deadline: Option<u64>) -> bool {
        is_same_deadline(deadline, self.entry_found(key, ()).unwrap().0.deadline)
    }

    fn remove(&mut self, key: &[u8], _spot: ()) {
        take_out(&mut self.map, key);
    }

    fn clear(&mut self) {
        self.take_all_out();
    }
}

impl StoreMap for PlainMap {
    ghost use Rattle.reference.specs.Plain.{HandlesPlainly};

    ghost made = { λ sizes seed eviction exact m. ⊤ };

    ghost promises = { HandlesPlainly };

    ghost is_exact = { λ m. true };

    /// An empty map takes no memory, and hashes no key.
    fn seeded(
        alloc: Global,
        geometry: Geometry,
        _seed: u64,
        _eviction: Eviction,
        _exact: bool,
    ) -> Result<Self, NoMemory> {
        Ok(PlainMap {
            alloc,
            geometry,
            map: BTreeMap::new(alloc),
            moment: 0,
        })
    }

    fn keep_promises() {}
}
