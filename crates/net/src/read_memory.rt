//! Memory for large reads. A port keeps it, and reads into it again once nobody has anything of
//! what was there: so what was read of all its streams and isn't told yet has a limit.

ghost use Rattle.std.specs.Prelude.{◌≡◌, ◌<◌, [], IfSome};

use bytes::{Bytes, BytesMut};
use std::alloc::{AllocError, Global};
use std::collections::VecDeque;

/// The most bytes of one large read.
pub(crate) const LARGE_READ: usize = 131_072;

/// The most blocks of memory for large reads that a port has.
const MOST: usize = 32;

/// The blocks of a port.
#[derive(Drop)]
pub(crate) struct ReadMemory {
    alloc: Global,
    /// All of each block, the one first that was shared first.
    blocks: VecDeque<Bytes>,
}

impl ReadMemory {
    pub(crate) fn new(alloc: Global) -> Result<ReadMemory, AllocError> {
        Ok(ReadMemory {
            alloc,
            blocks: VecDeque::with_capacity(alloc, MOST)?,
        })
    }

    /// A block to read into: the first of which nobody has anything, or a new one. None if it has
    /// as many as it may have.
    pub(crate) fn take(&mut self) -> Option<BytesMut>
        ensures { IfSome result (λ block. (block.items ≡ []) × (0 < block.spare)) }
    {
        for _ in 0..self.blocks.len() {
            match self.blocks.pop_front()?.try_into_mut() {
                Ok(mut block) => {
                    block.clear();
                    if block.capacity() >= LARGE_READ {
                        return Some(block);
                    }
                }
                Err(used) => {
                    let _ = self.blocks.push_back(used);
                }
            }
        }
        if self.blocks.len() >= MOST {
            return None;
        }
        BytesMut::with_capacity(self.alloc, LARGE_READ).ok()
    }

    /// Keeps the block, and shares what was read into it. None if out of memory.
    pub(crate) fn share(&mut self, mut block: BytesMut) -> Option<Bytes>
        ensures { IfSome result (λ read. read ≡ block.items) }
    {
        let count = block.len();
        let behind = block.capacity() - count;
        block.advance_mut(behind);
        let whole = block.freeze().ok()?;
        let read = whole.slice(0..count).ok()?;
        let _ = self.blocks.push_back(whole);
        Some(read)
    }
}
