//! About how much memory a server takes at most, and how much it may.

use command_line::ServeOptions;
use proto::{Dialect, Geometry, MAX_BLOCK};
use std::alloc::Global;
use std::fs::{self, Files};
use std::io::Read;

const MIB: u64 = 1024 * 1024;

/// The program, its threads, and room to spare for what isn't counted.
const PROGRAM: u64 = 16 * MIB;

/// A worker's spare buffers.
const SPARES: u64 = 16 * MIB;

/// What a worker reads ahead of its connections.
const READ_AHEAD: u64 = 4 * MIB;

/// The requests that a worker has on their way at most, and the keys of `get`s among them.
const REQUESTS: u64 = 64;

const KEYS: u64 = 255;

/// The output of all connections of a worker, above which large replies wait, unless the server is
/// told another sum.
const OUTPUT: u64 = 64 * MIB;

/// What a connection takes beside its output: its state, the input that is kept, and a piece.
const CONNECTION: u64 = 1024 + 262_144 + 16_384;

/// The large requests that the connections of a worker are sending.
const LARGE_INPUT: u64 = 64 * MIB;

/// What stands beside a large value in the memory that it has.
const BESIDE_VALUE: u64 = 131_072;

/// The connections of a worker, unless it is told another number.
const CONNECTIONS: u64 = 1024;

/// The bytes of segments above which a slot of the index takes eight bytes in place of four.
const WIDE_INDEX: u64 = 32 * 1024 * MIB;

/// How many bytes more the largest data block of a request may have than 131,072.
fn more_than_block(dialect: Dialect) -> u64 {
    dialect.most_data().saturating_sub(MAX_BLOCK)
}

/// What a worker takes for the values of replies on their way, and for one reply above the most
/// output.
fn answers_of(dialect: Dialect) -> (u64, u64) {
    match dialect {
        Dialect::Lenient(_) => {
            let more = KEYS.saturating_mul(more_than_block(dialect));
            (more.saturating_add(40 * MIB), 8 * MIB)
        }
        Dialect::Strict => (160 * MIB, 128 * MIB),
    }
}

/// What a worker takes for the values of its requests on their way. One of up to 131,072 bytes
/// stands in up to four times its memory.
fn requests_of(dialect: Dialect) -> u64 {
    let value = more_than_block(dialect).saturating_add(MAX_BLOCK + BESIDE_VALUE);
    REQUESTS.saturating_mul(value.max(4 * MAX_BLOCK))
}

/// What the connections of a worker take beside their output.
fn connections_of(dialect: Dialect, connections: u64) -> u64 {
    let large = if more_than_block(dialect) > 0 {
        LARGE_INPUT
    } else {
        0
    };
    connections.saturating_mul(CONNECTION).saturating_add(large)
}

/// The store: segments, room for merges, live marks, and an index for as many of the smallest items
/// as there may be.
fn store_bytes(geometry: Geometry) -> u64 {
    let segment = u64::from(geometry.segment_size());
    let segments = u64::from(geometry.segments()).saturating_mul(segment);
    let slot = if segments > WIDE_INDEX { 8 } else { 4 };
    let slots = (segments / 16).checked_next_power_of_two();
    let index = slots.unwrap_or(u64::MAX).saturating_mul(slot);
    segments
        .saturating_add(segments / 256)
        .saturating_add(segment.saturating_mul(11))
        .saturating_add(index)
}

/// About the most bytes that the options let a server take, without the system's buffers of its
/// connections: how large a reply gets is only estimated. Output takes up to three times its bytes
/// while clients read a part of it.
pub(crate) fn most_bytes(options: &ServeOptions, geometry: Geometry) -> u64 {
    let (values, reply) = answers_of(options.dialect);
    let connections = options.connections.unwrap_or(CONNECTIONS);
    let output = match options.output_memory {
        Some(bytes) => bytes,
        None => OUTPUT.saturating_mul(options.workers),
    };
    let worker = connections_of(options.dialect, connections)
        .saturating_add(SPARES)
        .saturating_add(READ_AHEAD)
        .saturating_add(requests_of(options.dialect))
        .saturating_add(values)
        .saturating_add(reply.saturating_mul(3));
    store_bytes(geometry)
        .saturating_add(worker.saturating_mul(options.workers))
        .saturating_add(output.saturating_mul(3))
        .saturating_add(PROGRAM)
}

/// In MiB, rounded up.
pub(crate) fn mebibytes(bytes: u64) -> u64 {
    bytes / MIB + u64::from(bytes % MIB > 0)
}

/// The first bytes of a file as text, without its line's end. None if it can't be read, or has
/// more.
fn line_of<R: Files>(rt: &R, alloc: Global, path: &str) -> Option<String> {
    let mut file = fs::open(rt, path).ok()?;
    let mut room = [0u8; 4096];
    let count = file.read(&mut room).ok()?;
    let text = str::from_utf8(&room[..count]).ok()?;
    String::from_str(alloc, text.trim_end()).ok()
}

/// The limit on memory of one control group, if it has one.
fn limit_of<R: Files>(rt: &R, alloc: Global, group: &str) -> Option<u64> {
    let path = format!(in alloc; "/sys/fs/cgroup{group}/memory.max").ok()?;
    line_of(rt, alloc, path.as_str())?.parse().ok()
}

/// The least of these limits, if there is one.
fn least_of(one: Option<u64>, other: Option<u64>) -> Option<u64> {
    match (one, other) {
        (Some(one), Some(other)) => Some(one.min(other)),
        (one, other) => one.or(other),
    }
}

/// The least limit on memory of this control group and of those that it is part of. None if there
/// is none.
fn least_limit<R: Files>(rt: &R, alloc: Global, group: &str) -> Option<u64> {
    let mut group = group;
    let mut least = None;
    for _ in 0..group.len() {
        let path = format!(in alloc; "/{group}").ok()?;
        least = least_of(least, limit_of(rt, alloc, path.as_str()));
        let Some((parent, _)) = group.rsplit_once('/') else {
            break;
        };
        group = parent;
    }
    least_of(least, limit_of(rt, alloc, ""))
}

/// The control group of the lines of a process's file. None if the system has no unified groups.
fn group_in(said: &str) -> &str {
    // (its line is the last one, where there are others)
    match said.rsplit_once("0::/") {
        Some((_, group)) => group,
        None => "",
    }
}

/// The least limit on memory of the process's control group and of those that it is part of. None
/// if there is none.
pub(crate) fn group_limit<R: Files>(rt: &R, alloc: Global) -> Option<u64> {
    let said = line_of(rt, alloc, "/proc/self/cgroup")?;
    least_limit(rt, alloc, group_in(said.as_str()))
}
