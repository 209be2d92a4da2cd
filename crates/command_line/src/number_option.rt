//! The options whose values are numbers.

use proto::{
    BESIDE_LARGEST_ITEM, MAX_SEGMENT_SIZE, MAX_SEGMENTS, MAX_WORKERS, MIN_ITEM_LIMIT,
    MIN_SEGMENT_SIZE, MIN_SEGMENTS,
};

/// The most connections that a worker can be told to serve at a time.
const MAX_CONNECTIONS: u64 = 65_536;

/// The least bytes of output that a worker may be told to keep.
pub(crate) const LEAST_OUTPUT: u64 = 4_194_304;

/// The most bytes of output that all workers together can be told to keep.
const MOST_OUTPUT: u64 = 1_099_511_627_776;

/// An option whose value is a number from `least` to `most`.
#[derive(Drop)]
pub(crate) struct NumberOption {
    pub(crate) name: &'static str,
    pub(crate) value_name: &'static str,
    pub(crate) help: &'static str,
    pub(crate) least: u64,
    pub(crate) most: u64,
    /// Its value if it isn't given; empty if it then has none.
    pub(crate) default: &'static [&'static str],
}

/// How many workers run. Both jobs have this option, each with a default of its own.
pub(crate) const WORKERS: NumberOption = NumberOption {
    name: "workers",
    value_name: "COUNT",
    help: "Number of worker threads, 1 to 8",
    least: 1,
    most: MAX_WORKERS as u64,
    default: &[],
};

pub(crate) const SEGMENT_SIZE: NumberOption = NumberOption {
    name: "segment-size",
    value_name: "BYTES",
    help: "Bytes of a segment, a power of two from 4096 to 1048576",
    least: MIN_SEGMENT_SIZE as u64,
    most: MAX_SEGMENT_SIZE as u64,
    default: &["65536"],
};

pub(crate) const SEGMENTS: NumberOption = NumberOption {
    name: "segments",
    value_name: "COUNT",
    help: "Number of segments, 8 to 65536. If no request sets a TTL, nothing is evicted while all that was written since the start, overwrites included, takes at most 7/8 of all segments but one, or with --max-item-size what each of these has beside one such item",
    least: MIN_SEGMENTS as u64,
    most: MAX_SEGMENTS as u64,
    default: &["64"],
};

pub(crate) const MAX_ITEM_SIZE: NumberOption = NumberOption {
    name: "max-item-size",
    value_name: "BYTES",
    help: "Bytes of the largest item, 24 and those of its key and value, from 512 to 64 fewer than a segment has; an eighth of a segment if it isn't given",
    least: MIN_ITEM_LIMIT as u64,
    most: (MAX_SEGMENT_SIZE - BESIDE_LARGEST_ITEM) as u64,
    default: &[],
};

pub(crate) const NOW: NumberOption = NumberOption {
    name: "now",
    value_name: "SECONDS",
    help: "The clock's first answer",
    least: 0,
    most: u64::MAX,
    default: &["1000"],
};

pub(crate) const TICK: NumberOption = NumberOption {
    name: "tick",
    value_name: "SECONDS",
    help: "How much more each further answer of the clock is",
    least: 0,
    most: u64::MAX,
    default: &["0"],
};

pub(crate) const ACCEPT: NumberOption = NumberOption {
    name: "accept",
    value_name: "BYTES",
    help: "Each give accepts at most BYTES bytes, 1 to 65536",
    least: 1,
    most: 65_536,
    default: &[],
};

pub(crate) const FAIL_GIVE: NumberOption = NumberOption {
    name: "fail-give",
    value_name: "N",
    help: "At each worker the Nth give finds its peer gone",
    least: 1,
    most: u64::MAX,
    default: &[],
};

pub(crate) const SESSIONS: NumberOption = NumberOption {
    name: "sessions",
    value_name: "COUNT",
    help: "Accept COUNT connections, and end once their sessions have ended",
    least: 1,
    most: u64::MAX,
    default: &[],
};

pub(crate) const IDLE: NumberOption = NumberOption {
    name: "idle",
    value_name: "SECONDS",
    help: "Close a connection that has sent and taken nothing for SECONDS seconds, 1 to 4294967295",
    least: 1,
    most: u32::MAX as u64,
    default: &[],
};

pub(crate) const CONNECTIONS: NumberOption = NumberOption {
    name: "connections",
    value_name: "COUNT",
    help: "How many connections each worker serves at a time, 1 to 65536; 1024 if it isn't given",
    least: 1,
    most: MAX_CONNECTIONS,
    default: &[],
};

pub(crate) const OUTPUT_MEMORY: NumberOption = NumberOption {
    name: "output-memory",
    value_name: "BYTES",
    help: "Bytes of output that all workers together keep for clients that do not read, at least 4194304 for each worker; 67108864 for each if it isn't given",
    least: LEAST_OUTPUT,
    most: MOST_OUTPUT,
    default: &[],
};

pub(crate) const SPIN: NumberOption = NumberOption {
    name: "spin",
    value_name: "MICROSECONDS",
    help: "How long each thread looks for work before it sleeps, 0 to 1000000. Single requests are answered faster, and each worker and the storage thread keep a processor busy. With --storage workers it does nothing",
    least: 0,
    most: 1_000_000,
    default: &[],
};

/// The options of a replay beside its workers: the segments, the clock, and the faults of the
/// ports.
pub(crate) static REPLAY_OPTIONS: [NumberOption; 7] = [
    SEGMENT_SIZE,
    SEGMENTS,
    MAX_ITEM_SIZE,
    NOW,
    TICK,
    ACCEPT,
    FAIL_GIVE,
];

/// The options of a server beside its address and its workers.
pub(crate) static SERVE_OPTIONS: [NumberOption; 8] = [
    CONNECTIONS,
    OUTPUT_MEMORY,
    SESSIONS,
    IDLE,
    SPIN,
    SEGMENT_SIZE,
    SEGMENTS,
    MAX_ITEM_SIZE,
];
