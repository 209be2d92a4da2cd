//! What a session sends and what it is given, and many sessions as the text of a script.

use crate::texts::{add, add_get, add_times};
use std::alloc::Global;
use std::process::Abort;

/// A value under the key `a`, and how often it is asked for.
#[derive(Clone, Copy)]
pub(crate) struct Shape {
    pub(crate) value: usize,
    /// How many keys stand in a line.
    pub(crate) keys: usize,
    pub(crate) lines: usize,
}

/// A value of this length below a line.
fn below<R: Abort>(rt: &R, alloc: Global, line: &str, length: usize) -> Vec<u8> {
    let mut bytes = Vec::new(alloc);
    add(rt, &mut bytes, line.as_bytes());
    add_times(rt, &mut bytes, b"v", length);
    add(rt, &mut bytes, b"\r\n");
    bytes
}

/// Stores a value of this length without an answer.
pub(crate) fn set_of<R: Abort>(rt: &R, alloc: Global, length: usize) -> Vec<u8> {
    let line = format!(in alloc; "set a 0 0 {length} noreply\r\n").expect(rt, "memory");
    below(rt, alloc, line.as_str(), length)
}

/// A session's bytes: the value is stored, and then asked for.
pub(crate) fn input_of<R: Abort>(rt: &R, alloc: Global, shape: Shape) -> Vec<u8> {
    let mut input = set_of(rt, alloc, shape.value);
    for _ in 0..shape.lines {
        add_get(rt, &mut input, b" a", shape.keys);
    }
    input
}

/// What it is given.
pub(crate) fn output_of<R: Abort>(rt: &R, alloc: Global, shape: Shape) -> Vec<u8> {
    let line = format!(in alloc; "VALUE a 0 {}\r\n", shape.value).expect(rt, "memory");
    let hit = below(rt, alloc, line.as_str(), shape.value);
    let mut output = Vec::new(alloc);
    for _ in 0..shape.lines {
        add_times(rt, &mut output, hit.as_slice(), shape.keys);
        add(rt, &mut output, b"END\r\n");
    }
    output
}

/// The script of `sessions` sessions at worker 0 that are all open at the same time and send the
/// same bytes.
pub(crate) fn script_of<R: Abort>(rt: &R, alloc: Global, sessions: u64, input: &[u8]) -> Vec<u8> {
    let sent = hex::encode(alloc, input).expect(rt, "memory");
    let mut script = Vec::new(alloc);
    for session in 0..sessions {
        let number = session.saturating_add(1);
        let line = format!(in alloc; "open 0 {number}\nsend 0 {number} {}\n", sent.as_str()).expect(
            rt, "memory",
        );
        add(rt, &mut script, line.as_bytes());
    }
    script
}
