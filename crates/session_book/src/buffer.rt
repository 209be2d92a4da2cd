//! Bytes that come in at the back and go out in front, and the memory of buffers that are empty.

ghost use Rattle.std.specs.Prelude.{◌≡◌, ◌++◌, [], length, take, drop, ◌≤◌, OnOk, OnErr, IfOk, is_some, IsOk, IsTrue};
ghost use Rattle.std.specs.Option.{option_copied_mut};
ghost use Rattle.proto.specs.Answers.{answer, is_ask, is_silent};

use crate::upkeep::Upkeep;
use proto::{ByteString, NoMemory, PendingAnswer, Reply};
use std::alloc::Global;
use std::marker::Model;
use std::mem;

/// The bytes of a message from which on its value stands in the memory of the input.
pub(crate) const LARGE_MESSAGE: usize = 4096;

/// How many times as many bytes that memory has at most, so that few bytes don't stand in much
/// memory.
const LARGEST_MEMORY: usize = 4;

/// A queue of bytes that lends them as one slice. The bytes in front that have gone out are kept
/// until they are at least half of all, so each byte is moved at most once for each byte that goes
/// out. Its first bytes borrow the memory of a spare buffer, and its last ones give it back.
#[derive(Drop)]
pub struct Buffer {
    bytes: Vec<u8>,
    start: usize,
}

impl Model for Buffer {
    ghost use Rattle.std.specs.Prelude.{List, ℕ, drop, length, ◌≤◌};

    ghost Value = { List ℕ };

    ghost view = { λ a. drop a.start a.bytes.items };

    ghost invariant = { λ a. a.start ≤ length a.bytes.items };
}

/// Takes the first `n` bytes out, and moves the others to the front. (`drain` fills a room on the
/// stack with zeros first, and `copy_within` takes some times as long as a copy between two parts.)
fn remove_front(bytes: &mut Vec<u8>, n: usize)
    requires { n ≤ length bytes.old.items }
    ensures { bytes.new.items ≡ drop n bytes.old.items }
{
    let left = bytes.len() - n;
    if left <= n {
        let (front, back) = bytes.as_mut_slice().split_at_mut(n);
        front[..left].copy_from_slice(back);
    } else {
        bytes.copy_within(n.., 0);
    }
    bytes.truncate(left);
}

impl Buffer {
    pub fn new(alloc: Global) -> Self
        ensures { result ≡ [] }
    {
        Buffer {
            bytes: Vec::new(alloc),
            start: 0,
        }
    }

    pub fn len(&self) -> usize
        ensures { result ≡ length self.now }
    {
        self.bytes.len() - self.start
    }

    pub fn as_slice(&self) -> &[u8]
        ensures { result.now ≡ self.now }
    {
        &self.bytes.as_slice()[self.start..]
    }

    /// Puts input after the others, with room for so many bytes at least. None at all needs no
    /// memory.
    pub fn append(
        &mut self,
        piece: &[u8],
        room: usize,
        spares: &mut SpareBuffers,
    ) -> Result<(), NoMemory>
        ensures ok { OnOk result (self.new ≡ self.old ++ piece.now) }
        ensures err { OnErr result (self.new ≡ self.old) }
    {
        if piece.is_empty() {
            return Ok(());
        }
        spares.lend(Use::Input, &mut self.bytes);
        self.bytes.reserve(room.max(piece.len()))?;
        self.bytes.extend_from_slice(piece)?;
        Ok(())
    }

    /// Moves the bytes into a spare buffer of large input, if they need as much room and there is
    /// one that has it.
    pub fn enlarge(&mut self, need: usize, spares: &mut SpareBuffers)
        ensures { self.new ≡ self.old }
    {
        if self.bytes.capacity() >= need {
            return;
        }
        let mut larger = Vec::new(*self.bytes.allocator());
        spares.lend(Use::LargeInput, &mut larger);
        if larger.capacity() < need || larger.extend_from_slice(self.as_slice()).is_err() {
            spares.keep(Use::LargeInput, larger);
            return;
        }
        spares.keep(Use::Input, mem::replace(&mut self.bytes, larger));
        self.start = 0;
    }

    /// Whether the first `n` bytes are to be taken out with the memory of all, and the others
    /// copied: they are many, and most.
    pub fn is_worth_taking(&self, n: usize) -> bool {
        n >= LARGE_MESSAGE
            && n >= self.len().saturating_sub(n)
            && n >= self.bytes.capacity() / LARGEST_MEMORY
    }

    /// Takes the first `n` bytes out. Those from `from` up to `to` are answered in the memory of
    /// all; what is left gets other memory.
    pub fn take_part(
        &mut self,
        from: usize,
        to: usize,
        n: usize,
        spares: &mut SpareBuffers,
    ) -> Result<ByteString, NoMemory>
        requires { (from ≤ to) × (to ≤ n) × (n ≤ length self.old) }
        ensures part { IfOk result (λ part. part ≡ drop from (take to self.old)) }
        ensures ok { OnOk result (self.new ≡ drop n self.old) }
        ensures err { OnErr result (self.new ≡ self.old) }
    {
        let mut rest = Buffer::new(*self.bytes.allocator());
        rest.append(self.as_slice().split_at(n).1, 0, spares)?;
        let Buffer { mut bytes, start } = mem::replace(self, rest);
        bytes.truncate(start + to);
        Ok(ByteString::behind(bytes, start + from))
    }

    /// Puts an answer after the others, and counts its bytes as output that is to be given.
    pub fn show(
        &mut self,
        pending: &PendingAnswer,
        reply: Option<&mut Reply>,
        upkeep: &mut Upkeep,
    ) -> Result<(), NoMemory>
        requires { is_some reply ≡ is_ask pending.now }
        ensures ok { OnOk result (self.new ≡ self.old ++ answer pending.now (option_copied_mut reply.entry)) }
        ensures err { OnErr result (self.new ≡ self.old) }
        ensures silent { IsTrue (is_silent pending.now) → IsOk result }
    {
        upkeep.spares.lend(Use::Output, &mut self.bytes);
        let before = self.bytes.len();
        pending.show(reply, &mut self.bytes)?;
        let shown = self.bytes.len().saturating_sub(before);
        upkeep.load.output = upkeep.load.output.saturating_add(shown);
        // (the memory of the hits may have been prepared for many more)
        let capacity = self.bytes.capacity();
        if capacity > MAX_BYTES && capacity / 2 > self.bytes.len() {
            self.bytes.shrink_to(MAX_BUFFER);
        }
        Ok(())
    }

    /// Takes bytes away in front, and answers how many are left. The memory of a buffer that is
    /// empty then is kept for another one of this use.
    pub fn discard(&mut self, n: usize, usage: Use, spares: &mut SpareBuffers) -> usize
        requires { n ≤ length self.old }
        ensures bytes { self.new ≡ drop n self.old }
        ensures left { result ≡ length self.new }
    {
        self.start += n;
        let left = self.bytes.len() - self.start;
        if left == 0 {
            let none = Vec::new(*self.bytes.allocator());
            spares.keep(usage, mem::replace(&mut self.bytes, none));
            self.start = 0;
        } else if self.start >= left {
            remove_front(&mut self.bytes, self.start);
            self.start = 0;
            self.bytes.shrink_to(MAX_BUFFER);
        }
        left
    }

    /// Frees memory that has no bytes, if it is more than a quarter of all. Room for so many bytes
    /// is kept.
    pub fn trim(&mut self, least: usize)
        ensures { self.new ≡ self.old }
    {
        let capacity = self.bytes.capacity();
        if capacity - capacity / 4 > self.bytes.len().max(least) {
            self.bytes.shrink_to(least);
        }
    }
}

/// What memory is used for. The buffers of one use have much the same size.
#[derive(Clone, Copy)]
pub(crate) enum Use {
    Input,
    /// Input of large messages.
    LargeInput,
    Output,
    Hits,
}

/// How many uses there are.
const USES: usize = 4;

/// The most spare buffers that are kept of a use.
const MAX_BUFFERS: usize = 128;

/// The most bytes that all of them have.
const MAX_BYTES: usize = 16_777_216;

/// The most bytes of a buffer that is kept. A larger one is freed, so that few bytes don't stand in
/// much memory for long.
const MAX_BUFFER: usize = 1_179_648;

/// The spare buffers of a worker, with one bound on all their bytes. A session's buffer borrows the
/// memory of one while there are bytes in it, and a `get` one for its hits: so a session that is
/// idle keeps no memory, and one that has much to give needn't take new memory for it. Each use has
/// a stack of its own: the buffer returned last, which is still in the processor's cache, is lent
/// first. Contracts see how many bytes all of them have.
#[derive(Drop)]
pub(crate) struct SpareBuffers {
    stacks: [Vec<Vec<u8>>; USES],
    bytes: usize,
}

impl Model for SpareBuffers {
    ghost use Rattle.std.specs.Prelude.{◌≡◌, ◌≤◌, ℕ, sum_by, length, All, vec_capacity};

    ghost Value = { ℕ };

    ghost view = { λ a. a.bytes };

    ghost invariant = { λ a. (sum_by (λ s. sum_by vec_capacity s.items) a.stacks ≡ a.bytes) × (a.bytes ≤ 16777216)
        × All (λ s. length s.items ≤ 128) a.stacks };
}

impl SpareBuffers {
    pub(crate) fn new(alloc: Global) -> SpareBuffers {
        SpareBuffers {
            stacks: [
                Vec::new(alloc),
                Vec::new(alloc),
                Vec::new(alloc),
                Vec::new(alloc),
            ],
            bytes: 0,
        }
    }

    /// Gives bytes without memory that of the buffer that was kept last for this use, if there is
    /// one.
    pub(crate) fn lend(&mut self, usage: Use, bytes: &mut Vec<u8>)
        ensures { bytes.new.items ≡ bytes.old.items }
    {
        if bytes.capacity() > 0 {
            return;
        }
        if let Some(spare) = self.stacks[usage as usize].pop() {
            self.bytes -= spare.capacity();
            *bytes = spare;
            bytes.clear();
        }
    }

    /// Keeps the memory of bytes that are gone, if it is of moderate size and there is room for it.
    pub(crate) fn keep(&mut self, usage: Use, spare: Vec<u8>) {
        let capacity = spare.capacity();
        let stack = &mut self.stacks[usage as usize];
        if capacity == 0
            || capacity > MAX_BUFFER
            || self.bytes > MAX_BYTES - capacity
            || stack.len() >= MAX_BUFFERS
        {
            return;
        }
        if stack.push(spare).is_ok() {
            self.bytes += capacity;
        }
    }
}
