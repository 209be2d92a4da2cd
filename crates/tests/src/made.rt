//! Bytes and replies that the tests share.

use proto::{HitRef, HitWriter, Keys, NoMemory, Reply};
use std::alloc::{AllocError, Global};

/// Some text, a byte and how many times it comes, and further text.
pub type Spelling = (&'static str, u8, usize, &'static str);

/// Appends what is spelled so.
pub fn spell(
    input: &mut Vec<u8>,
    (before, byte, times, behind): Spelling,
) -> Result<(), AllocError> {
    input.extend_from_slice(before.as_bytes())?;
    for _ in 0..times {
        input.push(byte)?;
    }
    input.extend_from_slice(behind.as_bytes())
}

/// The reply to a `get` that finds this value under `a`.
pub fn values(alloc: Global, value: Option<&[u8]>, cas: Option<u64>) -> Result<Reply, NoMemory> {
    let mut hits = HitWriter::for_keys(&mut Keys::new(alloc));
    if let Some(value) = value {
        push_hit(&mut hits, value, cas)?;
    }
    Ok(Reply::Values(hits.finish()))
}

fn push_hit(hits: &mut HitWriter, value: &[u8], cas: Option<u64>) -> Result<(), NoMemory> {
    let hit = HitRef {
        key: b"a",
        flags: 0,
        value,
        cas,
    };
    hits.reserve(hit.room().ok_or(NoMemory)?)?;
    hits.push(hit);
    Ok(())
}
