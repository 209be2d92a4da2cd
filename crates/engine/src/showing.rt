//! What a `get` shows.

ghost use Rattle.std.specs.Prelude.{◌≡◌, ◌+◌, ◌<◌, ◌≤◌, ◌^◌, ◌∷◌, [], length, decimal, sum_by, nat_lt, if◌then◌else◌};
ghost use Rattle.std.specs.Prelude.{Some, None, IfOk, OnOk, OnErr, MatchOption, ◌++◌};
ghost use Rattle.proto.specs.Commands.{hits_of};
ghost use Rattle.proto.specs.Hits.{hit_bytes, hit_room};
ghost use Rattle.proto.specs.SeenHits.{seen_hit};
ghost use Rattle.engine.specs.declared.showing.Found.{Found};
ghost use Rattle.engine.specs.Finding.{AreFound, HasFound, keys_found};
ghost use Rattle.engine.specs.AnswerSizes.{shown_size, is_too_long};
ghost use Rattle.engine.specs.Showing.{HasShown, ShowsOrRefuses};

use crate::live_map::LiveMap;
use itoa::Buffer;
use proto::{Dialect, HitRef, HitWriter, Keys, MAX_ANSWER, NoMemory};
use std::hash::Hasher;

/// The most keys whose searches are read ahead at once.
const KEYS_AHEAD: usize = 16;

/// Why no hits are shown.
#[derive(Clone, Copy)]
pub enum Unshown {
    /// They take more bytes than one answer of the dialect may show.
    TooLong,
    NoMemory,
}

impl From<NoMemory> for Unshown {
    ghost use Rattle.std.specs.Prelude.{◌≡◌};
    ghost use Rattle.engine.specs.declared.showing.Unshown.TheVariants as unshown;

    ghost from_gives = { λ _ e. e ≡ unshown.NoMemory };

    fn from(_e: NoMemory) -> Unshown {
        Unshown::NoMemory
    }
}

/// How many digits the number has in decimal.
fn digits(n: u64) -> usize
    ensures value { result ≡ length (decimal n) }
    ensures few { result ≤ 20 }
{
    Buffer::new().format(n).len()
}

/// The bytes that show the hit, beside those of its key and its value.
fn frame_size(hit: HitRef) -> usize
    ensures { let h = seen_hit hit.entry in result + length h.key + length h.value ≡ length (hit_bytes h) }
{
    let line = "VALUE  \r\n".len()
        + digits(u64::from(hit.flags))
        + " ".len()
        + digits(hit.value.len() as u64);
    let cas = hit.cas.map_or(0, |cas| " ".len() + digits(cas));
    line + cas + "\r\n".len()
}

/// What is left of the bytes once the hit is shown; None if the hit takes more.
pub fn left_after(left: usize, hit: HitRef) -> Option<usize>
    ensures { MatchOption result (left < length (hit_bytes (seen_hit hit.entry)))
        (λ n. n + length (hit_bytes (seen_hit hit.entry)) ≡ left) }
{
    left.checked_sub(frame_size(hit))?
        .checked_sub(hit.key.len())?
        .checked_sub(hit.value.len())
}

/// A hit of these parts of an entry, which shows its cas number or doesn't. Its room is enough for
/// the bytes that show it.
fn hit_with<'a>(key: &'a [u8], value: &'a [u8], flags: u32, cas: u64, with_cas: bool) -> HitRef<'a>
    requires { length value.now < 2 ^ 64 }
    ensures hit { seen_hit result
        ≡ record { key = key.now; flags = flags; value = value.now; cas = if with_cas then Some cas else None } }
    ensures room { length (hit_bytes (seen_hit result)) ≤ hit_room (seen_hit result) }
{
    HitRef {
        key,
        flags,
        value,
        cas: if with_cas { Some(cas) } else { None },
    }
}

/// A key that is there, and where its entry stands.
#[derive(Clone, Copy)]
struct Found<'k, P> {
    key: &'k [u8],
    place: P,
}

/// Adds a key that is there, with the place of its entry. With the first one the list takes memory
/// for so many.
fn add_found<'k, P: Copy>(
    found: &mut Vec<Found<'k, P>>,
    key: &'k [u8],
    place: P,
    count: usize,
) -> Result<(), NoMemory>
    ensures { OnOk result ((f : Found P) × (f.key.now ≡ key.now) × (f.place ≡ place)
        × (found.new.items ≡ found.old.items ++ f ∷ [])) }
{
    let wanted = if found.is_empty() { count } else { 1 };
    found.reserve(wanted)?;
    found.push(Found { key, place })?;
    Ok(())
}

/// Looks each key up, and lists those that are there, in a list that is empty. It gives the room
/// that their hits take. NoMemory if out of memory, or the room is more than memory can have.
fn list_found<'k, M: LiveMap>(
    found: &mut Vec<Found<'k, M::Place>>,
    map: &M,
    keys: &'k Keys,
    with_cas: bool,
) -> Result<usize, NoMemory>
    requires { found.old.items ≡ [] }
    ensures found { OnOk result (HasFound M.LiveMap with_cas map.now keys.now found.new.items) }
    ensures room { IfOk result (λ n. n ≡ sum_by hit_room (hits_of with_cas (M.entries map.now) keys.now)) }
    ensures enough { IfOk result (λ n. shown_size (hits_of with_cas (M.entries map.now) keys.now) ≤ n) }
    ensures err { OnErr result (0 < length (hits_of with_cas (M.entries map.now) keys.now)) }
{
    let mut room: usize = 0;
    let mut words = keys.iter();
    while let Some(key) = words.next() {
        if let Some((entry, place)) = map.entry_found(key, map.find(key)) {
            let hit = hit_with(key, entry.value, entry.flags, entry.cas, with_cas);
            let more = hit.room().ok_or(NoMemory)?;
            room = room.checked_add(more).ok_or(NoMemory)?;
            add_found(found, key, place, keys.len())?;
        }
    }
    Ok(room)
}

/// Whether the hits of keys that were found take more bytes than one answer of the dialect may
/// show.
fn are_too_long<M: LiveMap>(
    map: &M,
    found: &[Found<M::Place>],
    with_cas: bool,
    dialect: Dialect,
) -> bool
    requires { AreFound M.LiveMap map.now found.now }
    ensures { result ≡ is_too_long dialect (shown_size (hits_of with_cas (M.entries map.now) (keys_found found.now))) }
{
    if !dialect.is_lenient() {
        return false;
    }
    let mut left = MAX_ANSWER;
    for i in 0..found.len() {
        let Found { key, place } = found[i];
        let entry = map.entry_at(key, place);
        let hit = hit_with(key, entry.value, entry.flags, entry.cas, with_cas);
        match left_after(left, hit) {
            Some(rest) => left = rest,
            None => return true,
        }
    }
    false
}

/// Writes the hits of keys that were found, for which there is room, and counts a read of each. The
/// writer is new.
fn hits_found<M: LiveMap>(
    map: &mut M,
    found: &[Found<M::Place>],
    with_cas: bool,
    mut hits: HitWriter,
) -> HitWriter
    requires found { AreFound M.LiveMap map.old found.now }
    requires hits { hits
        ≡ record { hits = []; room = sum_by hit_room (hits_of with_cas (M.entries map.old) (keys_found found.now)) } }
    ensures { HasShown M.LiveMap with_cas map.old (keys_found found.now) map.new result }
{
    for i in 0..found.len() {
        let Found { key, place } = found[i];
        let entry = map.entry_at(key, place);
        hits.push(hit_with(key, entry.value, entry.flags, entry.cas, with_cas));
        map.count_read(key, place);
    }
    hits
}

/// Writes the hit of the only key, which is looked up once, and counts its read. The writer is new.
///
/// # Errors
///
/// TooLong if the hit takes more bytes than an answer of the dialect may show; NoMemory if out of
/// memory.
pub fn hit_of_only<M: LiveMap>(
    map: &mut M,
    only: &[u8],
    with_cas: bool,
    dialect: Dialect,
    mut hits: HitWriter,
) -> Result<HitWriter, Unshown>
    requires { hits ≡ record { hits = []; room = 0 } }
    ensures { ShowsOrRefuses M.LiveMap with_cas dialect map.old (only.now ∷ []) map.new result }
{
    if let Some((entry, place)) = map.entry_found(only, map.find(only)) {
        let hit = hit_with(only, entry.value, entry.flags, entry.cas, with_cas);
        let room = hit.room().ok_or(Unshown::NoMemory)?;
        if room > MAX_ANSWER && dialect.is_lenient() && left_after(MAX_ANSWER, hit).is_none() {
            return Err(Unshown::TooLong);
        }
        hits.reserve(room)?;
        hits.push(hit);
        map.count_read(only, place);
    }
    Ok(hits)
}

/// Reads ahead what the searches for these keys will read, for several of them at the same time.
fn read_ahead<M: LiveMap>(map: &M, keys: &Keys) {
    let mut hashes = [0; KEYS_AHEAD];
    let mut count = 0;
    let mut words = keys.iter();
    for _ in 0..keys.len() {
        let Some(key) = words.next() else {
            break;
        };
        let mut hasher = map.key_hasher();
        hasher.write(key);
        hashes[count] = hasher.finish();
        count += 1;
        if count == KEYS_AHEAD {
            map.prefetch(&hashes);
            count = 0;
        }
    }
    map.prefetch(&hashes[..count]);
}

/// Writes the hits of the keys, each of which is looked up once, and counts a read of each. Memory
/// is taken in two steps: for the list of the keys that are there, and then for all their hits. The
/// writer is new.
///
/// # Errors
///
/// TooLong if the hits take more bytes than an answer of the dialect may show; NoMemory if out of
/// memory.
pub fn hits_of_keys<M: LiveMap>(
    map: &mut M,
    keys: &Keys,
    with_cas: bool,
    dialect: Dialect,
    mut hits: HitWriter,
) -> Result<HitWriter, Unshown>
    requires { hits ≡ record { hits = []; room = 0 } }
    ensures { ShowsOrRefuses M.LiveMap with_cas dialect map.old keys.now map.new result }
{
    read_ahead(map, keys);
    let mut found = Vec::new(keys.allocator());
    let room = list_found(&mut found, map, keys, with_cas)?;
    let found = found.as_slice();
    if room > MAX_ANSWER && are_too_long(map, found, with_cas, dialect) {
        return Err(Unshown::TooLong);
    }
    hits.reserve(room)?;
    Ok(hits_found(map, found, with_cas, hits))
}
