//! A cache that is a list of entries, written after the rules of the commands alone.

ghost use Rattle.std.specs.Prelude.{◌<◌, IfSome, vec_len};

use itoa::Buffer;
use proto::{ByteString, Keys, Put, Request};
use std::alloc::{AllocError, Global};

/// An entry and its key. An entry without a deadline has the greatest number.
#[derive(Drop)]
struct ListEntry {
    key: Vec<u8>,
    value: Vec<u8>,
    flags: u32,
    deadline: u64,
    cas: u64,
}

#[derive(Drop)]
pub struct ListCache {
    entries: Vec<ListEntry>,
    last_cas: u64,
    item_limit: usize,
    pub pending: Option<u64>,
}

/// When a put may be stored.
#[derive(Clone, Copy)]
enum Condition {
    Always,
    Missing,
    There,
    SameCas(u64),
}

impl ListCache {
    pub fn new(alloc: Global, item_limit: usize) -> ListCache {
        ListCache {
            entries: Vec::new(alloc),
            last_cas: 0,
            item_limit,
            pending: None,
        }
    }

    fn place(&self, key: &ByteString) -> Option<usize>
        ensures { IfSome result (λ i. i < vec_len self.now.entries) }
    {
        for (i, entry) in self.entries.iter().enumerate() {
            if entry.key.as_slice() == key.as_slice() {
                return Some(i);
            }
        }
        None
    }

    /// The cas number at the key, or 0.
    pub fn cas_at(&self, key: &ByteString) -> u64 {
        match self.place(key) {
            Some(i) => self.entries[i].cas,
            None => 0,
        }
    }

    /// Drops what is over at the moment.
    fn expire(&mut self, now: u64) {
        if matches!(self.pending, Some(moment) if moment <= now) {
            self.entries.clear();
            self.pending = None;
        }
        self.entries.retain(|entry| entry.deadline > now);
    }

    /// Appends the answer to the request at the moment.
    pub fn answer(
        &mut self,
        alloc: Global,
        now: u64,
        request: &Request,
        out: &mut Vec<u8>,
    ) -> Result<(), AllocError> {
        self.expire(now);
        let text: &[u8] = match request {
            Request::Get { keys, with_cas } => return self.push_all(out, keys, *with_cas),
            Request::GetAndTouch {
                keys,
                with_cas,
                exptime,
            } => {
                self.push_all(out, keys, *with_cas)?;
                self.touch_all(now, keys, *exptime);
                return Ok(());
            }
            Request::Incr { key, amount } => return self.count(alloc, key, (*amount, true), out),
            Request::Decr { key, amount } => return self.count(alloc, key, (*amount, false), out),
            Request::Set(put) => self.put(alloc, now, put, Condition::Always)?,
            Request::SetTooLarge { key } => {
                self.delete(key);
                TOO_LARGE
            }
            Request::Add(put) => self.put(alloc, now, put, Condition::Missing)?,
            Request::Replace(put) => self.put(alloc, now, put, Condition::There)?,
            Request::Cas(put, cas) => self.put(alloc, now, put, Condition::SameCas(*cas))?,
            Request::Append(put) => self.join(alloc, put, true)?,
            Request::Prepend(put) => self.join(alloc, put, false)?,
            Request::Touch(touch) => self.touch(now, &touch.key, touch.exptime),
            Request::Delete { key } => self.delete(key),
            Request::FlushAll { delay } => self.flush(now, *delay),
            Request::Stats => b"NOT_FOUND",
        };
        push_line(out, text)
    }

    fn touch(&mut self, now: u64, key: &ByteString, exptime: i64) -> &'static [u8] {
        let Some(i) = self.place(key) else {
            return b"NOT_FOUND";
        };
        let deadline = deadline_of(now, exptime);
        if deadline > now {
            self.entries[i].deadline = deadline;
        } else {
            self.entries.remove(i);
        }
        b"TOUCHED"
    }

    fn touch_all(&mut self, now: u64, keys: &Keys, exptime: i64) {
        let deadline = deadline_of(now, exptime);
        let mut keys = keys.iter();
        for _ in 0..u64::MAX {
            let Some(key) = keys.next() else {
                break;
            };
            for entry in &mut self.entries {
                if entry.key.as_slice() == key {
                    entry.deadline = deadline;
                }
            }
        }
        self.expire(now);
    }

    fn join(
        &mut self,
        alloc: Global,
        put: &Put,
        behind: bool,
    ) -> Result<&'static [u8], AllocError> {
        let Some(i) = self.place(&put.key) else {
            return Ok(b"NOT_STORED");
        };
        let (here, more) = (self.entries[i].value.as_slice(), put.value.as_slice());
        let length = here.len().saturating_add(more.len());
        if !self.has_room(put.key.as_slice(), length) {
            return Ok(TOO_LARGE);
        }
        let (first, second) = if behind { (here, more) } else { (more, here) };
        let mut joined = Vec::from_slice(alloc, first)?;
        joined.extend_from_slice(second)?;
        self.last_cas = self.last_cas.saturating_add(1);
        self.entries[i].cas = self.last_cas;
        self.entries[i].value = joined;
        Ok(b"STORED")
    }

    fn delete(&mut self, key: &ByteString) -> &'static [u8] {
        match self.place(key) {
            Some(i) => {
                self.entries.remove(i);
                b"DELETED"
            }
            None => b"NOT_FOUND",
        }
    }

    fn flush(&mut self, now: u64, delay: u64) -> &'static [u8] {
        if delay == 0 {
            self.entries.clear();
            self.pending = None;
        } else {
            self.pending = Some(now.saturating_add(delay));
        }
        b"OK"
    }

    fn push_all(&self, out: &mut Vec<u8>, keys: &Keys, with_cas: bool) -> Result<(), AllocError> {
        let mut keys = keys.iter();
        for _ in 0..u64::MAX {
            let Some(key) = keys.next() else {
                break;
            };
            for entry in &self.entries {
                if entry.key.as_slice() == key {
                    push_value(out, entry, with_cas)?;
                }
            }
        }
        out.extend_from_slice(b"END\r\n")
    }

    /// Whether an item with this key and a value of this length is within the limit.
    fn has_room(&self, key: &[u8], length: usize) -> bool {
        let bytes = key.len().saturating_add(length).saturating_add(24);
        bytes.div_ceil(8) <= self.item_limit / 8
    }

    /// Why a put isn't stored, if it isn't.
    fn refusal(&self, put: &Put, condition: Condition) -> Option<&'static [u8]> {
        let key = put.key.as_slice();
        if !self.has_room(key, put.value.as_slice().len()) || key.is_empty() || key.len() > 250 {
            return Some(TOO_LARGE);
        }
        let there = match self.place(&put.key) {
            Some(i) => Some(self.entries[i].cas),
            None => None,
        };
        match (condition, there) {
            (Condition::Missing, Some(_)) | (Condition::There, None) => Some(b"NOT_STORED"),
            (Condition::SameCas(_), None) => Some(b"NOT_FOUND"),
            (Condition::SameCas(asked), Some(cas)) if asked != cas => Some(b"EXISTS"),
            _ => None,
        }
    }

    fn put(
        &mut self,
        alloc: Global,
        now: u64,
        put: &Put,
        condition: Condition,
    ) -> Result<&'static [u8], AllocError> {
        if let Some(refusal) = self.refusal(put, condition) {
            return Ok(refusal);
        }
        if let Some(i) = self.place(&put.key) {
            self.entries.remove(i);
        }
        let deadline = deadline_of(now, put.exptime);
        if deadline > now {
            self.last_cas = self.last_cas.saturating_add(1);
            let entry = entry_of(alloc, put, deadline, self.last_cas)?;
            self.entries.push(entry)?;
        }
        Ok(b"STORED")
    }

    /// Counts the number at the key up or down by the amount, and appends it.
    fn count(
        &mut self,
        alloc: Global,
        key: &ByteString,
        (amount, up): (u64, bool),
        out: &mut Vec<u8>,
    ) -> Result<(), AllocError> {
        let Some(i) = self.place(key) else {
            return push_line(out, b"NOT_FOUND");
        };
        let Some(n) = number(self.entries[i].value.as_slice()) else {
            return push_line(out, NO_NUMBER);
        };
        let mut buffer = Buffer::new();
        let counted = if up {
            n.wrapping_add(amount)
        } else {
            n.saturating_sub(amount)
        };
        let text = buffer.format(counted);
        self.last_cas = self.last_cas.saturating_add(1);
        self.entries[i].cas = self.last_cas;
        self.entries[i].value = Vec::from_slice(alloc, text.as_bytes())?;
        push_line(out, text.as_bytes())
    }
}

const TOO_LARGE: &[u8] = b"SERVER_ERROR object too large for cache";

const NO_NUMBER: &[u8] = b"CLIENT_ERROR cannot increment or decrement non-numeric value";

/// The entry of a put, with copies of its key and value.
fn entry_of(alloc: Global, put: &Put, deadline: u64, cas: u64) -> Result<ListEntry, AllocError> {
    let key = Vec::from_slice(alloc, put.key.as_slice())?;
    let value = Vec::from_slice(alloc, put.value.as_slice())?;
    Ok(ListEntry {
        key,
        value,
        flags: put.flags,
        deadline,
        cas,
    })
}

/// When an entry is over that is put now.
fn deadline_of(now: u64, exptime: i64) -> u64 {
    if exptime < 0 {
        0
    } else if exptime == 0 {
        u64::MAX
    } else if exptime <= 60 * 60 * 24 * 30 {
        now.saturating_add(exptime.unsigned_abs())
    } else {
        exptime.unsigned_abs()
    }
}

/// A number of at most 20 digits.
fn number(value: &[u8]) -> Option<u64> {
    if value.len() > 20 || value.iter().any(|byte| *byte < b'0' || *byte > b'9') {
        return None;
    }
    str::from_utf8(value).ok()?.parse::<u64>().ok()
}

fn push_line(out: &mut Vec<u8>, text: &[u8]) -> Result<(), AllocError> {
    out.extend_from_slice(text)?;
    out.extend_from_slice(b"\r\n")
}

fn push_value(out: &mut Vec<u8>, entry: &ListEntry, with_cas: bool) -> Result<(), AllocError> {
    out.extend_from_slice(b"VALUE ")?;
    out.extend_from_slice(entry.key.as_slice())?;
    let numbers = [u64::from(entry.flags), entry.value.len() as u64, entry.cas];
    for n in &numbers[..if with_cas { 3 } else { 2 }] {
        let mut buffer = Buffer::new();
        out.extend_from_slice(b" ")?;
        out.extend_from_slice(buffer.format(*n).as_bytes())?;
    }
    out.extend_from_slice(b"\r\n")?;
    out.extend_from_slice(entry.value.as_slice())?;
    out.extend_from_slice(b"\r\n")
}
