//! The unread bytes of a session, and what they begin with. Those of a message whose item is too
//! large are dropped as they come.

ghost use Rattle.std.specs.Prelude.{◌≡◌, ◌≤◌, ◌<◌, ◌+◌, [], ◌++◌, length, drop, Ok, IfOk, OnOk, OnErr};
ghost use Rattle.std.specs.Prelude.{option_map};
ghost use Rattle.std.specs.Bool.{OnTrue, OnFalse};
ghost use Rattle.proto.specs.declared.message.Message.{Message};
ghost use Rattle.proto.specs.Grammar.{most_kept, refused_by, SpellsNone};
ghost use Rattle.proto.specs.Needs.{IsDropped};

use crate::buffer::{Buffer, SpareBuffers, Use};
use proto::{
    ByteString, Dialect, Message, MessageView, NextView, NoMemory, Put, Request, Trace,
    next_view_behind, request_to_store, to_message, too_large,
};
use std::alloc::Global;
use std::marker::Model;

/// The unread bytes of a session that are kept at most, unless its next message needs more.
const MAX_UNREAD: usize = 262_144;

/// Unread bytes that are kept beside a message which needs more. They are more than a piece, so a
/// session whose input is full always has a message to read.
const BESIDE_MESSAGE: usize = 65_536;

/// The longest message that is read without room of its own.
pub const MAX_SMALL_MESSAGE: usize = 196_608;

/// The bytes of a message for which there is memory as soon as its length is known.
pub(crate) const ROOM_AT_ONCE: usize = 262_144;

/// What the input begins with.
#[derive(Drop)]
pub(crate) enum Found {
    /// No whole message.
    Nothing,
    /// A message, copied, and how many bytes spell it.
    Copied(Message, usize),
    /// A request whose block is large, whether `noreply` was given, and how many bytes spelled it.
    /// They were taken out of the input: the value has their memory.
    Taken(Request, bool, usize),
}

/// The key, lent, if there is one.
fn lent_key(key: &Option<ByteString>) -> Option<&[u8]>
    ensures { option_map (λ key. key.now) result ≡ key.now }
{
    match key {
        Some(key) => Some(key.as_slice()),
        None => None,
    }
}

/// The key, copied, if there is one. NoMemory if out of memory.
fn copied_key(alloc: Global, key: Option<&[u8]>) -> Result<Option<ByteString>, NoMemory>
    ensures { IfOk result (λ copy. copy ≡ option_map (λ key. key.now) key.entry) }
{
    match key {
        Some(key) => Ok(Some(ByteString::from_slice(alloc, key)?)),
        None => Ok(None),
    }
}

/// Unread bytes. Contracts see those that were dropped too.
#[derive(Drop)]
pub(crate) struct Input {
    dialect: Dialect,
    kept: Buffer,
    /// How many of the kept bytes were searched for a line's end, and none was there.
    searched: usize,
    /// How many bytes there have to be before the parser is asked again.
    need: usize,
    /// How many bytes were dropped, in front of those that are kept: none, unless more are needed
    /// than a message has that is kept.
    dropped: usize,
    /// Which these were.
    gone: Trace<u8>,
    /// The key that the message takes out which they begin, if it is a `set`.
    key: Option<ByteString>,
    /// Whether it has `noreply`.
    noreply: bool,
    /// The message that was found and is held, and how many bytes spell it. Few sessions hold one.
    held: Option<Box<(Message, usize)>>,
}

impl Model for Input {
    ghost use Rattle.std.specs.Prelude.{◌≡◌, ◌++◌, length, option_map};
    ghost use Rattle.proto.specs.Lines.{IsSearched};
    ghost use Rattle.proto.specs.Needs.{NeedsMore};
    ghost use Rattle.proto.specs.Grammar.{refused_by};
    ghost use Rattle.session_book.specs.Input.{InputState, MayDrop, HoldsMessage};

    ghost Value = { InputState };

    ghost view = { λ a. record { dialect = a.dialect; unread = a.gone.items ++ a.kept; need = a.need } };

    ghost invariant = { λ a. (length a.gone.items ≡ a.dropped)
        × NeedsMore a.dialect (a.gone.items ++ a.kept) a.need
        × (IsSearched a.kept a.searched
        × HoldsMessage a.dialect (a.gone.items ++ a.kept)
        (option_map (λ held. held.value) a.held))
        × MayDrop a.dialect a.gone.items a.kept a.need (refused_by a.key a.noreply) };
}

impl Input {
    ghost use Rattle.session_book.specs.Input.{InputState, kept_length, max_unread, Begins, Finds};

    pub fn new(alloc: Global, dialect: Dialect) -> Self
        ensures { result ≡ record { dialect = dialect; unread = []; need = 1 } }
    {
        Input {
            dialect,
            kept: Buffer::new(alloc),
            searched: 0,
            need: 1,
            dropped: 0,
            gone: Trace::new(),
            key: None,
            noreply: false,
            held: None,
        }
    }

    /// Whether the parser is to be asked.
    pub fn has_enough(&self) -> bool
        ensures enough { OnTrue result (self.now.need ≤ length self.now.unread) }
        ensures few { OnFalse result (length self.now.unread < self.now.need) }
        ensures none { OnFalse result (SpellsNone self.now.dialect self.now.unread) }
    {
        self.need.saturating_sub(self.dropped) <= self.kept.len()
    }

    /// Whether so many more bytes may be kept.
    pub fn has_room_for(&self, n: usize) -> bool
        ensures room { OnTrue result (kept_length self.now.dialect self.now.unread self.now.need + n
            ≤ max_unread self.now.dialect self.now.need) }
        ensures full { OnFalse result (max_unread self.now.dialect self.now.need
            < kept_length self.now.dialect self.now.unread self.now.need + n) }
    {
        let most = if self.need > self.dialect.most_kept() {
            MAX_UNREAD
        } else {
            MAX_UNREAD.max(self.need + BESIDE_MESSAGE)
        };
        n <= most && self.kept.len() <= most - n
    }

    /// The bytes of the message that the unread ones begin, if it is kept and needs room of its
    /// own; else 0.
    pub fn large_need(&self) -> usize
        ensures { 0 < result → MAX_SMALL_MESSAGE < self.now.need }
    {
        if self.need > MAX_SMALL_MESSAGE && self.need <= self.dialect.most_kept() {
            self.need
        } else {
            0
        }
    }

    /// The bytes that are kept.
    pub fn kept(&self) -> &[u8]
        ensures { length result.now ≡ kept_length self.now.dialect self.now.unread self.now.need }
    {
        self.kept.as_slice()
    }

    /// How many bytes there are, with those that were dropped.
    pub fn len(&self) -> usize {
        self.kept.len().saturating_add(self.dropped)
    }

    /// Puts a piece after the others. There is then room for the bytes that the message needs, but
    /// if these are many, for no more than twice as many as have come: so what has only begun takes
    /// little memory. What is still to be dropped of a message is dropped.
    pub fn append(&mut self, piece: &[u8], spares: &mut SpareBuffers) -> Result<(), NoMemory>
        ensures ok { OnOk result (self.new ≡ record self.old { unread = self.old.unread ++ piece.now }) }
        ensures err { OnErr result (self.new ≡ self.old) }
    {
        if self.need <= self.dialect.most_kept() {
            if self.need > MAX_SMALL_MESSAGE {
                self.kept.enlarge(self.need, spares);
            }
            let come = self.kept.len();
            let most = self.need.min(come.saturating_mul(2).max(ROOM_AT_ONCE));
            return self.kept.append(piece, most.saturating_sub(come), spares);
        }
        let (front, behind) = piece.split_at((self.need - self.dropped).min(piece.len()));
        self.kept.append(behind, 0, spares)?;
        self.gone.note(front);
        self.dropped += front.len();
        Ok(())
    }

    /// The message that the bytes begin with: the held one, or what the parser finds; or none, and
    /// the need is what the parser said. A line that isn't whole yet is searched for its end from
    /// where the last search stopped.
    pub fn next(&mut self, alloc: Global, spares: &mut SpareBuffers) -> Result<Found, NoMemory>
        requires { self.old.need ≤ length self.old.unread }
        ensures { Finds self.old result self.new }
    {
        if let Some(held) = self.held.take() {
            let (message, length) = Box::into_inner(held);
            return Ok(Found::Copied(message, length));
        }
        if self.need > self.dialect.most_kept() {
            // All bytes of a message that is dropped have come.
            let view = too_large(lent_key(&self.key), self.noreply);
            let message = to_message(alloc, view)?;
            return Ok(Found::Copied(message, self.need));
        }
        match next_view_behind(self.dialect, self.kept.as_slice(), &mut self.searched) {
            NextView::Found(MessageView::Put(head, data), length)
                if self.kept.is_worth_taking(length) => {
                // The request is taken out of the bytes: its value has their memory.
                let (word, unique) = (head.word, head.unique);
                let (flags, exptime, noreply) = (head.flags, head.exptime, head.noreply);
                let key = ByteString::from_slice(alloc, head.key)?;
                let end = length - 2;
                let start = end - data.len();
                let value = self.kept.take_part(start, end, length, spares)?;
                self.searched = 0;
                self.need = 1;
                let put = Put {
                    key,
                    flags,
                    exptime,
                    value,
                };
                Ok(Found::Taken(request_to_store(word, unique, put), noreply, length))
            }
            NextView::Found(view, length) => Ok(Found::Copied(to_message(alloc, view)?, length)),
            NextView::More(count) => {
                self.need = count;
                Ok(Found::Nothing)
            }
            NextView::Drop(need, key, noreply) => {
                let key = copied_key(alloc, key)?;
                Ok(self.start_dropping(need, key, noreply, spares))
            }
        }
    }

    /// The message is too large, and isn't kept: what there is of it is dropped, and so is what
    /// comes of it.
    fn start_dropping(
        &mut self,
        need: usize,
        key: Option<ByteString>,
        noreply: bool,
        spares: &mut SpareBuffers,
    ) -> Found
        requires none_dropped { self.old.need ≤ most_kept self.old.dialect }
        requires dropped { IsDropped self.old.dialect self.old.unread need (refused_by key noreply) }
        ensures { Finds self.old (Ok result) self.new }
    {
        self.held = None;
        self.gone.note(self.kept.as_slice());
        self.dropped = self.kept.len();
        self.kept.discard(self.dropped, Use::Input, spares);
        self.searched = 0;
        self.need = need;
        self.key = key;
        self.noreply = noreply;
        Found::Nothing
    }

    /// Holds the message that was found, which is found again. Without memory for that it is read
    /// anew.
    pub fn hold(&mut self, alloc: Global, message: Message, n: usize)
        requires { Begins self.old message n }
        ensures { self.new ≡ self.old }
    {
        self.held = Box::new(alloc, (message, n)).ok();
    }

    /// Takes away the bytes of the message that was found.
    pub fn take(&mut self, n: usize, spares: &mut SpareBuffers)
        requires { (m : Message) × Begins self.old m n }
        ensures { self.new ≡ record self.old { unread = drop n self.old.unread; need = 1 } }
    {
        self.held = None;
        self.kept.discard(n - self.dropped, Use::Input, spares);
        self.gone = Trace::new();
        self.key = None;
        self.dropped = 0;
        self.searched = 0;
        self.need = 1;
    }
}
