//! The commands, over any map of live entries.

ghost use Rattle.std.specs.Prelude.{◌≡◌, ◌≤◌, ◌<◌, ◌+◌, length, IsTrue, Some, true, false};
ghost use Rattle.std.specs.FinMap as map;
ghost use Rattle.proto.specs.Cache.{Entry, found_at, has_arrived};
ghost use Rattle.proto.specs.Commands.{write, put, change, join, is_too_large, leaving, hits_of};
ghost use Rattle.proto.specs.Sizes.{item_limit};
ghost use Rattle.proto.specs.History.{max_moment};
ghost use Rattle.proto.specs.declared.message.Put.{Put};
ghost use Rattle.engine.specs.Written.{MayBeWritten, IsChanged};
ghost use Rattle.engine.specs.Change.{changed_by, joined_by};
ghost use Rattle.engine.specs.Keeping.{StaysKept};
ghost use Rattle.engine.specs.AnswerSizes.{shown_size, answer_size, is_too_long};

use crate::deadline::{deadline_of, has_arrived};
use crate::live_map::{EntryRef, LiveMap};
use crate::number::{Change, number_of};
use crate::scratch::Scratch;
use crate::showing::{hit_of_only, hits_of_keys};
use itoa::Buffer;
use proto::{Dialect, HitWriter, Keys, MAX_KEY, Put, Reply, Request, item_size};

/// A cache over a map of live entries.
#[derive(Drop)]
pub struct Engine<M> {
    pub(crate) map: M,
    pub(crate) last_cas: u64,
    pub(crate) pending: Option<u64>,
    /// Whether `incr`, `decr`, `append` and `prepend` change an entry where it stands, if its map
    /// can.
    pub(crate) in_place: bool,
    /// Whose limit answers keep.
    pub(crate) dialect: Dialect,
    /// Where a value is put together, or a number written out, before it is stored.
    pub(crate) scratch: Scratch,
}

/// Whether an item of this key with values of these lengths, one after the other, is too large.
fn is_joined_too_large(limit: u32, key: &[u8], first: usize, second: usize) -> bool
    requires limit { limit ≤ 1048576 }
    requires first { first ≤ 1048576 }
    ensures too_large { (p : Put) → p.key ≡ key.now → length p.value ≡ first + second → result ≡ is_too_large limit p }
    ensures small { result ≡ false → first + second ≤ 1048576 }
{
    key.is_empty()
        || key.len() > MAX_KEY
        || second > limit as usize
        || first + second > limit as usize
        || item_size(key.len(), first + second) > limit
}

impl<M: LiveMap> Engine<M> {
    ghost use Rattle.engine.specs.Engines.{cache_in, Leaves, LeavesExecuted, change_way, as_written};

    /// Stores what the scratch has as the value of the key's entry, with the next cas number: where
    /// it stands, if entries are changed in place and it fits there. A search for the key found the
    /// spot; the entry stands at the place, and has these flags and this deadline. It gives this
    /// reply, NoCas if the greatest number was given out, or NoMemory if memory is refused.
    fn store_scratch(
        &mut self,
        key: &[u8],
        spot: M::Spot,
        place: M::Place,
        flags: u32,
        deadline: Option<u64>,
        reply: Reply,
    ) -> Reply
        requires found { M.finds self.old.map key.now spot }
        requires stands { M.stands self.old.map key.now place }
        requires changed { IsChanged (map.get (M.entries self.old.map) key.now)
            (record { value = self.old.scratch; flags = flags; deadline = deadline; cas = 0 }) }
        requires waits { has_arrived deadline (M.moment self.old.map) ≡ false }
        requires fits { MayBeWritten (M.sizes self.old.map) (M.entries self.old.map) key.now self.old.scratch }
        ensures { Leaves M.LiveMap (change_way self.old.in_place) self.old self.new
            (write (cache_in M.entries self.old) key.now
            (λ cas. record { value = self.old.scratch; flags = flags; deadline = deadline; cas = cas }) reply) result }
    {
        let Some(cas) = self.last_cas.checked_add(1) else {
            return Reply::NoCas;
        };
        let entry = EntryRef {
            value: self.scratch.as_slice(),
            flags,
            deadline,
            cas,
        };
        let stored = if self.in_place {
            self.map.rewrite(key, spot, place, entry)
        } else {
            self.map.write(key, spot, entry)
        };
        match stored {
            Ok(()) => {
                self.last_cas = cas;
                reply
            }
            Err(_) => Reply::NoMemory,
        }
    }

    /// Stores the entry of a put, for whose key the spot was found, with the next cas number, or
    /// takes its key out if its deadline has come already. It gives NoCas and NoMemory as
    /// `store_scratch` does.
    fn put(&mut self, item: &Put, spot: M::Spot) -> Reply
        requires found { M.finds self.old.map item.now.key spot }
        requires in_range { M.moment self.old.map ≤ max_moment }
        requires small { is_too_large (item_limit (M.sizes self.old.map)) item.now ≡ false }
        ensures { Leaves M.LiveMap as_written self.old self.new
            (put (cache_in M.entries self.old) (M.moment self.old.map) item.now) result }
    {
        let deadline = deadline_of(item.exptime, self.map.last_moment());
        if has_arrived(deadline, self.map.last_moment()) {
            self.map.remove(item.key.as_slice(), spot);
            return Reply::Stored;
        }
        if self.last_cas == u64::MAX {
            return Reply::NoCas;
        }
        let cas = self.last_cas + 1;
        let entry = EntryRef {
            value: item.value.as_slice(),
            flags: item.flags,
            deadline,
            cas,
        };
        if self.map.write(item.key.as_slice(), spot, entry).is_err() {
            return Reply::NoMemory;
        }
        self.last_cas = cas;
        Reply::Stored
    }

    /// Joins the value with that of the entry of the key, behind it or before it, with the next cas
    /// number. It gives NotStored if the key has no entry, TooLarge, and NoCas and NoMemory as
    /// `store_scratch` does.
    fn join(&mut self, item: &Put, behind: bool) -> Reply
        ensures { Leaves M.LiveMap (change_way self.old.in_place) self.old self.new
            (join (joined_by behind item.now.value) (map.get (M.entries self.old.map) item.now.key)
            (item_limit (M.sizes self.old.map)) (cache_in M.entries self.old) item.now) result }
    {
        let key = item.key.as_slice();
        let more = item.value.as_slice();
        let limit = self.map.item_limit();
        let spot = self.map.find(key);
        let Some((here, place)) = self.map.entry_found(key, spot) else {
            return Reply::NotStored;
        };
        if is_joined_too_large(limit, key, here.value.len(), more.len()) {
            return Reply::TooLarge;
        }
        let (flags, deadline) = (here.flags, here.deadline);
        self.scratch.put(here.value, more, behind);
        self.store_scratch(key, spot, place, flags, deadline, Reply::Stored)
    }

    /// Gives the entry of the key another deadline, or takes it out if that has come already.
    /// NotFound if the key has no entry, and NoMemory if memory is refused.
    pub(crate) fn touch(&mut self, key: &[u8], exptime: i64) -> Reply
        requires { M.moment self.old.map ≤ max_moment }
        ensures { LeavesExecuted M.LiveMap self.old (Request.Touch (record { key = key.now; exptime = exptime })) result
            self.new }
    {
        let spot = self.map.find(key);
        let Some((entry, place)) = self.map.entry_found(key, spot) else {
            return Reply::NotFound;
        };
        let deadline = deadline_of(exptime, self.map.last_moment());
        if has_arrived(deadline, self.map.last_moment()) {
            self.map.remove(key, spot);
            return Reply::Touched;
        }
        if self.map.may_stay(key, place, deadline) {
            self.map.count_touch(key, place);
            return Reply::Touched;
        }
        self.scratch.put(entry.value, b"", true);
        let dated = EntryRef {
            value: self.scratch.as_slice(),
            flags: entry.flags,
            deadline,
            cas: entry.cas,
        };
        match self.map.write(key, spot, dated) {
            Ok(()) => Reply::Touched,
            Err(_) => Reply::NoMemory,
        }
    }

    fn delete(&mut self, key: &[u8]) -> Reply
        ensures { LeavesExecuted M.LiveMap self.old (Request.Delete key.now) result self.new }
    {
        let spot = self.map.find(key);
        if !self.map.has_entry(key, spot) {
            return Reply::NotFound;
        }
        self.map.remove(key, spot);
        Reply::Deleted
    }

    /// Changes the number at the key. NotFound if it has no entry, NotNumber if its value is no
    /// number.
    fn change(&mut self, key: &[u8], by: Change) -> Reply
        ensures { Leaves M.LiveMap (change_way self.old.in_place) self.old self.new
            (change (changed_by by) (map.get (M.entries self.old.map) key.now)
            (cache_in M.entries self.old) key.now) result }
    {
        let spot = self.map.find(key);
        let Some((entry, place)) = self.map.entry_found(key, spot) else {
            return Reply::NotFound;
        };
        let Some(number) = number_of(entry.value) else {
            return Reply::NotNumber;
        };
        let (flags, deadline) = (entry.flags, entry.deadline);
        let number = by.applied_to(number);
        let mut buffer = Buffer::new();
        let value = buffer.format(number).as_bytes();
        self.scratch.put(value, b"", true);
        self.store_scratch(key, spot, place, flags, deadline, Reply::Number(number))
    }

    fn flush(&mut self, delay: u64) -> Reply
        requires { M.moment self.old.map ≤ max_moment }
        ensures { LeavesExecuted M.LiveMap self.old (Request.FlushAll delay) result self.new }
    {
        if delay == 0 {
            self.map.clear();
            self.pending = None;
        } else {
            self.pending = Some(self.map.last_moment().saturating_add(delay));
        }
        Reply::Flushed
    }

    /// Moves on to this moment, at which a pending flush may have come.
    pub(crate) fn advance(&mut self, now: u64)
        requires not_before { M.moment self.old.map ≤ now }
        requires in_range { now ≤ max_moment }
        ensures cache { cache_in M.entries self.new ≡ found_at (cache_in M.entries self.old) now }
        ensures sizes { M.sizes self.new.map ≡ M.sizes self.old.map }
        ensures moment { M.moment self.new.map ≡ now }
        ensures in_place { self.new.in_place ≡ self.old.in_place }
        ensures dialect { self.new.dialect ≡ self.old.dialect }
        ensures alike { M.alike self.old.map self.new.map }
        ensures kept { StaysKept M.keeps self.old.map self.new.map }
    {
        self.map.advance(now);
        if has_arrived(self.pending, now) {
            self.map.clear();
            self.pending = None;
        }
    }

    /// Whether the item would be larger than the map's limit, or its key is empty or too long.
    fn is_too_large(&self, item: &Put) -> bool
        ensures { result ≡ is_too_large (item_limit (M.sizes self.now.map)) item.now }
    {
        let second = item.value.as_slice().len();
        is_joined_too_large(self.map.item_limit(), item.key.as_slice(), 0, second)
    }

    /// Shows the entries at the keys, in the buffer that the keys were lent if that is large
    /// enough, and counts a read of each. NoMemory if they take more bytes than one answer may
    /// show, and then no read is counted.
    fn get(&mut self, keys: &mut Keys, with_cas: bool) -> Reply
        ensures limit { IsTrue (is_too_long self.old.dialect
            (shown_size (hits_of with_cas (M.entries self.old.map) keys.old))) → result ≡ Reply.NoMemory }
        ensures leaves { Leaves M.LiveMap as_written self.old self.new
            (leaving (cache_in M.entries self.old)
            (Reply.Values (hits_of with_cas (M.entries self.old.map) keys.old))) result }
        ensures same { keys.new ≡ keys.old }
    {
        let hits = HitWriter::for_keys(keys);
        let written = match keys.only() {
            Some(only) => hit_of_only(&mut self.map, only, with_cas, self.dialect, hits),
            None => hits_of_keys(&mut self.map, keys, with_cas, self.dialect, hits),
        };
        match written {
            Ok(hits) => Reply::Values(hits.finish()),
            Err(_) => Reply::NoMemory,
        }
    }

    fn set(&mut self, item: &Put) -> Reply
        requires { M.moment self.old.map ≤ max_moment }
        ensures { LeavesExecuted M.LiveMap self.old (Request.Set item.now) result self.new }
    {
        if self.is_too_large(item) {
            return Reply::TooLarge;
        }
        let spot = self.map.find(item.key.as_slice());
        self.put(item, spot)
    }

    /// Takes out what the key of a `set` has whose item is too large.
    fn refuse(&mut self, key: &[u8]) -> Reply
        ensures { LeavesExecuted M.LiveMap self.old (Request.SetTooLarge key.now) result self.new }
    {
        let spot = self.map.find(key);
        self.map.remove(key, spot);
        Reply::TooLarge
    }

    /// Stores the entry of a put where its key has an entry, or where it has none. NotStored if it
    /// is the other way round.
    fn put_where(&mut self, item: &Put, there: bool) -> Reply
        requires { M.moment self.old.map ≤ max_moment }
        ensures add { there ≡ false → LeavesExecuted M.LiveMap self.old (Request.Add item.now) result self.new }
        ensures replace { there ≡ true → LeavesExecuted M.LiveMap self.old (Request.Replace item.now) result self.new }
    {
        if self.is_too_large(item) {
            return Reply::TooLarge;
        }
        let key = item.key.as_slice();
        let spot = self.map.find(key);
        if self.map.has_entry(key, spot) != there {
            return Reply::NotStored;
        }
        self.put(item, spot)
    }

    fn cas(&mut self, item: &Put, unique: u64) -> Reply
        requires { M.moment self.old.map ≤ max_moment }
        ensures { LeavesExecuted M.LiveMap self.old (Request.Cas item.now unique) result self.new }
    {
        if self.is_too_large(item) {
            return Reply::TooLarge;
        }
        let key = item.key.as_slice();
        let spot = self.map.find(key);
        let Some((entry, _)) = self.map.entry_found(key, spot) else {
            return Reply::NotFound;
        };
        if entry.cas != unique {
            return Reply::Exists;
        }
        self.put(item, spot)
    }

    /// Executes the request at the last moment.
    pub(crate) fn execute(&mut self, request: &mut Request) -> Reply
        requires { M.moment self.old.map ≤ max_moment }
        ensures limit { IsTrue (is_too_long self.old.dialect (answer_size (M.entries self.old.map) request.old))
            → result ≡ Reply.NoMemory }
        ensures leaves { LeavesExecuted M.LiveMap self.old request.old result self.new }
        ensures same { request.new ≡ request.old }
    {
        match request {
            Request::Get { keys, with_cas } => self.get(keys, *with_cas),
            // `carry_out` touches the keys then.
            Request::GetAndTouch { with_cas, .. } => {
                let with_cas = *with_cas;
                let Request::GetAndTouch { keys, .. } = request else {
                    return Reply::NotFound;
                };
                self.get(keys, with_cas)
            }
            Request::Set(item) => self.set(item),
            Request::SetTooLarge { key } => self.refuse(key.as_slice()),
            Request::Add(item) => self.put_where(item, false),
            Request::Replace(item) => self.put_where(item, true),
            Request::Cas(item, unique) => self.cas(item, *unique),
            Request::Append(item) => self.join(item, true),
            Request::Prepend(item) => self.join(item, false),
            Request::Touch(asked) => self.touch(asked.key.as_slice(), asked.exptime),
            Request::Delete { key } => self.delete(key.as_slice()),
            Request::Incr { key, amount } => self.change(key.as_slice(), Change::Add(*amount)),
            Request::Decr { key, amount } => self.change(key.as_slice(), Change::Subtract(*amount)),
            Request::FlushAll { delay } => self.flush(*delay),
            // Who counts requests answers it.
            Request::Stats => Reply::NotFound,
        }
    }
}
