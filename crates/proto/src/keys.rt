//! The keys of a `get`.

ghost use Rattle.std.specs.Prelude.{◌≡◌, ◌≢◌, ◌++◌, ◌∷◌, ◌↔◌, [], length, IfOk, IsTrue, MatchOption, OnErr, OnOk};
ghost use Rattle.proto.specs.Words.{IsWord};

use crate::no_memory::NoMemory;
use crate::words::Words;
use std::alloc::Global;
use std::marker::Model;

/// Keys in the order asked, in one piece of memory: a space stands before each. Beside them they
/// have the buffer that they were lent for their hits, of which no clause speaks.
#[derive(Drop)]
pub struct Keys {
    bytes: Vec<u8>,
    /// How many keys there are.
    pub(crate) count: usize,
    /// It comes back with the hits: so memory is used again where it would be freed by one thread
    /// and taken by another.
    pub(crate) buffer: Vec<u8>,
}

impl Model for Keys {
    ghost use Rattle.std.specs.Prelude.{◌≡◌, List, ℕ, length};
    ghost use Rattle.proto.specs.Words.{keys_in};

    ghost Value = { List (List ℕ) };

    ghost view = { λ a. keys_in a.bytes.items };

    ghost invariant = { λ a. a.count ≡ length (keys_in a.bytes.items) };
}

impl Keys {
    pub fn new(alloc: Global) -> Keys
        ensures { result ≡ [] }
    {
        Keys {
            bytes: Vec::new(alloc),
            count: 0,
            buffer: Vec::new(alloc),
        }
    }

    /// The words that are left of a line, copied at once. NoMemory if out of memory.
    pub fn from_words(alloc: Global, words: Words) -> Result<Keys, NoMemory>
        ensures { IfOk result (λ keys. keys ≡ words.entry) }
    {
        let Some(line) = words.rest() else {
            return Ok(Keys::new(alloc));
        };
        let mut bytes = Vec::with_capacity(alloc, line.len() + 1)?;
        bytes.push_reserved(b' ');
        bytes.extend_from_slice(line).unwrap();
        // one more than the spaces
        let mut count: usize = 1;
        for byte in line {
            if *byte == b' ' {
                count += 1;
            }
        }
        Ok(Keys {
            bytes,
            count,
            buffer: Vec::new(alloc),
        })
    }

    /// Appends a key. NoMemory if out of memory: then nothing has changed.
    pub fn push(&mut self, key: &[u8]) -> Result<(), NoMemory>
        requires { IsWord key.now }
        ensures ok { OnOk result (self.new ≡ self.old ++ key.now ∷ []) }
        ensures err { OnErr result (self.new ≡ self.old) }
    {
        self.bytes.reserve(key.len() + 1)?;
        self.bytes.extend_from_slice(b" ").unwrap();
        self.bytes.extend_from_slice(key).unwrap();
        self.count += 1;
        Ok(())
    }

    /// The keys, lent one after the other.
    pub fn iter(&self) -> Words<'_>
        ensures { result ≡ self.now }
    {
        match self.bytes.as_slice().split_first() {
            None => Words::none(),
            Some((_, keys)) => Words::new(keys),
        }
    }

    pub fn is_empty(&self) -> bool
        ensures { IsTrue result ↔ (self.now ≡ []) }
    {
        self.count == 0
    }

    /// The key, if it is the only one.
    pub fn only(&self) -> Option<&[u8]>
        ensures { MatchOption result (length self.now ≢ 1) (λ key. self.now ≡ key.now ∷ []) }
    {
        if self.count == 1 {
            Some(self.bytes.as_slice().split_at(1).1)
        } else {
            None
        }
    }

    /// How many keys there are.
    pub fn len(&self) -> usize
        ensures { result ≡ length self.now }
    {
        self.count
    }

    /// Where their memory is taken.
    pub fn allocator(&self) -> Global {
        *self.bytes.allocator()
    }
}
