//! Where an engine puts a value together.

ghost use Rattle.std.specs.Prelude.{◌≡◌, ◌≤◌, ◌+◌, length};
ghost use Rattle.engine.specs.Change.{joined_by};

use proto::{MAX_VALUE, NoMemory};
use std::alloc::Global;
use std::marker::Model;

/// The bytes of a value, in memory that the largest value of any geometry fits into. All of it is
/// taken at first.
#[derive(Drop)]
pub struct Scratch {
    bytes: Vec<u8>,
}

impl Model for Scratch {
    ghost use Rattle.std.specs.Prelude.{◌≤◌, List, ℕ, vec_capacity};

    ghost Value = { List ℕ };

    ghost view = { λ a. a.bytes.items };

    ghost invariant = { λ a. 1048576 ≤ vec_capacity a.bytes };
}

impl Scratch {
    /// No bytes. NoMemory if out of memory.
    pub fn new(alloc: Global) -> Result<Self, NoMemory> {
        let bytes = Vec::with_capacity(alloc, MAX_VALUE as usize)?;
        Ok(Scratch { bytes })
    }

    /// Has these bytes behind the value, or before it, in place of what it had.
    pub fn put(&mut self, value: &[u8], more: &[u8], behind: bool)
        requires { length value.now + length more.now ≤ 1048576 }
        ensures { self.new ≡ joined_by behind more.now value.now }
    {
        let (first, second) = if behind { (value, more) } else { (more, value) };
        self.bytes.clear();
        self.bytes.extend_from_slice(first).unwrap();
        self.bytes.extend_from_slice(second).unwrap();
    }

    pub fn as_slice(&self) -> &[u8]
        ensures { result.now ≡ self.now }
    {
        self.bytes.as_slice()
    }
}
