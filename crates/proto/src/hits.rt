//! The hits of an answer as they are shown, in one piece of memory.

ghost use Rattle.std.specs.Prelude.{◌≡◌, ◌≤◌, ◌<◌, ◌+◌, ◌-◌, ◌++◌, ◌∷◌, ◌↔◌, [], codes, IfOk, IfSome, IsTrue, OnErr};
ghost use Rattle.std.specs.Prelude.{OnOk};
ghost use Rattle.std.specs.Prelude.{decimal, flat_map, length, vec_len, vec_capacity};
ghost use Rattle.proto.specs.Hits.{hit_bytes, hit_room};
ghost use Rattle.proto.specs.Lines.{line_end};
ghost use Rattle.proto.specs.SeenHits.{seen_hit};

use crate::byte_string::ByteString;
use crate::keys::Keys;
use crate::no_memory::NoMemory;
use crate::trace::{Noted, Trace};
use itoa::Buffer;
use std::alloc::Global;
use std::marker::Model;
use std::mem;

/// The bytes of a hit beside its key and its data are fewer than this.
const HIT_ROOM: usize = 80;

/// A live entry that a `get` or, with its cas number, a `gets` shows.
#[derive(Drop)]
pub struct Hit {
    pub key: ByteString,
    pub flags: u32,
    pub value: ByteString,
    pub cas: Option<u64>,
}

/// Such an entry, lent.
#[derive(Clone, Copy)]
pub struct HitRef<'a> {
    pub key: &'a [u8],
    pub flags: u32,
    pub value: &'a [u8],
    pub cas: Option<u64>,
}

impl Noted<Hit> for HitRef<'_> {
    ghost noted = { λ hit. seen_hit hit ∷ [] };
}

impl<'a> HitRef<'a> {
    /// The room that the hit takes in a buffer; None if it is more than memory can have.
    pub fn room(self) -> Option<usize>
        ensures { IfSome result (λ n. n ≡ hit_room (seen_hit self.entry)) }
    {
        HIT_ROOM
            .checked_add(self.key.len())?
            .checked_add(self.value.len())
    }
}

/// Hits in the order of the keys asked: of each there is the text that shows it. Contracts see the
/// hits.
#[derive(Drop)]
pub struct Hits {
    pub(crate) text: Vec<u8>,
    shown: Trace<Hit>,
    pub(crate) count: usize,
}

impl Model for Hits {
    ghost use Rattle.std.specs.Prelude.{◌≡◌, List, flat_map, length};
    ghost use Rattle.proto.specs.declared.hits.Hit.{Hit};
    ghost use Rattle.proto.specs.Hits.{hit_bytes};

    ghost Value = { List Hit };

    ghost view = { λ a. a.shown.items };

    ghost invariant = { λ a. (a.text.items ≡ flat_map hit_bytes a.shown.items) × (a.count ≡ length a.shown.items) };
}

impl Hits {
    pub fn new(alloc: Global) -> Hits
        ensures { result ≡ [] }
    {
        Hits {
            text: Vec::new(alloc),
            shown: Trace::new(),
            count: 0,
        }
    }

    /// How many hits there are.
    pub fn len(&self) -> usize
        ensures { result ≡ length self.now }
    {
        self.count
    }

    pub fn is_empty(&self) -> bool
        ensures { IsTrue result ↔ (self.now ≡ []) }
    {
        self.text.is_empty()
    }

    /// How many bytes their text takes.
    pub fn text_len(&self) -> usize {
        self.text.len()
    }

    /// Appends their text and the line that ends it, or changes nothing. If the output is empty and
    /// has no more capacity than the text, the two buffers are swapped instead of copied. A larger
    /// output buffer is kept, since more answers may follow.
    pub(crate) fn give(&mut self, out: &mut Vec<u8>) -> Result<(), NoMemory>
        ensures ok { OnOk result
            (out.new.items ≡ out.old.items ++ flat_map hit_bytes self.old ++ codes "END" ++ line_end) }
        ensures err { OnErr result (out.new.items ≡ out.old.items) }
    {
        if !out.is_empty() || self.text.capacity() < out.capacity() {
            return show_lines(out, self.text.as_slice());
        }
        self.text.reserve(5)?;
        self.text.extend_from_slice(b"END\r\n").unwrap();
        mem::swap(&mut self.text, out);
        self.shown = Trace::new();
        self.count = 0;
        Ok(())
    }
}

/// Appends lines and the line that ends them, or changes nothing.
pub(crate) fn show_lines(out: &mut Vec<u8>, lines: &[u8]) -> Result<(), NoMemory>
    ensures ok { OnOk result (out.new.items ≡ out.old.items ++ lines.now ++ codes "END" ++ line_end) }
    ensures err { OnErr result (out.new.items ≡ out.old.items) }
{
    out.reserve(lines.len() + 5)?;
    out.extend_from_slice(lines).unwrap();
    out.extend_from_slice(b"END\r\n").unwrap();
    Ok(())
}

/// Appends a space and a number in decimal, for which there is room.
fn push_number(text: &mut Vec<u8>, n: u64)
    requires { vec_len text.old + 21 ≤ vec_capacity text.old }
    ensures items { text.new.items ≡ text.old.items ++ codes " " ++ decimal n }
    ensures len { vec_len text.new ≤ vec_len text.old + 21 }
    ensures room { vec_capacity text.old ≤ vec_capacity text.new }
{
    text.push_reserved(b' ');
    text.extend_from_slice(Buffer::new().format(n).as_bytes())
        .unwrap();
}

/// Puts hits one after the other into memory that was reserved for them.
#[derive(Drop)]
pub struct HitWriter {
    text: Vec<u8>,
    shown: Trace<Hit>,
    room: usize,
    count: usize,
}

impl Model for HitWriter {
    ghost use Rattle.std.specs.Prelude.{◌≡◌, ◌+◌, ◌≤◌, vec_len, vec_capacity, flat_map, length};
    ghost use Rattle.proto.specs.Hits.{Writing, hit_bytes};

    ghost Value = { Writing };

    ghost view = { λ a. record { hits = a.shown.items; room = a.room } };

    ghost invariant = { λ a. (a.text.items ≡ flat_map hit_bytes a.shown.items)
        × (vec_len a.text + a.room ≤ vec_capacity a.text) × (a.count ≡ length a.shown.items) };
}

impl HitWriter {
    /// Puts hits into the buffer that their keys were lent, once room is reserved. One without
    /// memory is left to the keys.
    pub fn for_keys(keys: &mut Keys) -> HitWriter
        ensures new { result ≡ record { hits = []; room = 0 } }
        ensures same { keys.new ≡ keys.old }
    {
        let none = Vec::new(*keys.buffer.allocator());
        let mut text = mem::replace(&mut keys.buffer, none);
        text.clear();
        HitWriter {
            text,
            shown: Trace::new(),
            room: 0,
            count: 0,
        }
    }

    /// Reserves this many bytes. NoMemory if out of memory: then nothing has changed.
    pub fn reserve(&mut self, room: usize) -> Result<(), NoMemory>
        ensures ok { IfOk result (λ _. self.new ≡ record { hits = self.old.hits; room = room }) }
        ensures err { OnErr result ((self.new ≡ self.old) × (0 < room)) }
    {
        self.text.reserve(room)?;
        self.room = room;
        Ok(())
    }

    /// Appends a hit, for which room was reserved.
    pub fn push(&mut self, hit: HitRef)
        requires { hit_room (seen_hit hit) ≤ self.old.room }
        ensures { self.new ≡ record {
          hits = self.old.hits ++ seen_hit hit.entry ∷ [];
          room = self.old.room - hit_room (seen_hit hit.entry);
        } }
    {
        self.count += 1;
        self.text.extend_from_slice(b"VALUE ").unwrap();
        self.text.extend_from_slice(hit.key).unwrap();
        push_number(&mut self.text, u64::from(hit.flags));
        push_number(&mut self.text, hit.value.len() as u64);
        if let Some(cas) = hit.cas {
            push_number(&mut self.text, cas);
        }
        self.text.extend_from_slice(b"\r\n").unwrap();
        self.text.extend_from_slice(hit.value).unwrap();
        self.text.extend_from_slice(b"\r\n").unwrap();
        self.shown.note_as(&hit);
        self.room -= HIT_ROOM + hit.key.len() + hit.value.len();
    }

    pub fn finish(self) -> Hits
        ensures { result ≡ self.hits }
    {
        Hits {
            text: self.text,
            shown: self.shown,
            count: self.count,
        }
    }
}
