//! Bytes that sessions send and are given.

use std::alloc::Global;
use std::process::Abort;

pub(crate) fn add<R: Abort>(rt: &R, bytes: &mut Vec<u8>, piece: &[u8]) {
    bytes.extend_from_slice(piece).expect(rt, "memory");
}

pub(crate) fn add_times<R: Abort>(rt: &R, bytes: &mut Vec<u8>, piece: &[u8], times: usize) {
    for _ in 0..times {
        add(rt, bytes, piece);
    }
}

/// A line that asks for keys, each with the space before it.
pub(crate) fn add_get<R: Abort>(rt: &R, bytes: &mut Vec<u8>, key: &[u8], keys: usize) {
    add(rt, bytes, b"get");
    add_times(rt, bytes, key, keys);
    add(rt, bytes, b"\r\n");
}

/// The bytes, `times` times.
pub(crate) fn repeated<R: Abort>(rt: &R, alloc: Global, bytes: &[u8], times: usize) -> Vec<u8> {
    let mut all = Vec::new(alloc);
    add_times(rt, &mut all, bytes, times);
    all
}

/// A value of 8,000 bytes is stored, and asked for a thousand times: 8,023,008 bytes answer it.
pub(crate) fn much_output<R: Abort>(rt: &R, alloc: Global) -> Vec<u8> {
    let mut all = Vec::new(alloc);
    add(rt, &mut all, b"set a 0 0 8000\r\n");
    add_times(rt, &mut all, b"v", 8000);
    add(rt, &mut all, b"\r\n");
    add_times(rt, &mut all, b"get a\r\n", 1000);
    all
}
