//! Limits that more than one layer keeps. Definitions say them in digits, and the contracts of the
//! calls that cite a constant tie the two.

/// The longest key in bytes, after memcached's protocol.txt.
pub const MAX_KEY: usize = 250;

/// The longest line in bytes, with its end. memcached closes a connection that sends 2,048 bytes
/// without a line end, except in a `get` or `gets`.
pub const MAX_LINE: usize = 2048;

/// The longest line of the lenient dialect in bytes, with its end. The longest message that begins
/// with such a line is below the bytes that a session may have unread.
pub const MAX_LENIENT_LINE: usize = 32_768;

/// The longest data block of a request in bytes in the strict dialect: an eighth of the largest
/// segment, which is what an item has at most if no other limit is asked for.
pub const MAX_BLOCK: u64 = 131_072;

/// The longest data block in bytes that a request of the lenient dialect may have, and the most
/// bytes of a value: those of the largest segment.
pub const MAX_VALUE: u64 = 1_048_576;

/// The longest data block that is read in the lenient dialect, in bytes. One that is too large for
/// a request is read and dropped.
pub const MAX_LENIENT_BLOCK: u64 = 8_388_608;

/// The most bytes that the hits of one answer of the lenient dialect may take. A `get` or `gets`
/// whose hits would take more is answered out of memory. A strict line has too few keys to need a
/// limit.
pub const MAX_ANSWER: usize = 8_388_608;

/// The size in bytes of the smallest item: 24 bytes before a key of one byte and no value, rounded
/// up to a multiple of 8.
pub const MIN_ITEM_SIZE: u32 = 32;

/// The most workers of a group.
pub const MAX_WORKERS: usize = 8;

/// Requests of a worker that may be on their way at a time: the slots of its lane.
pub const WINDOW: u64 = 64;

/// Requests of a worker in one run: 2^62.
pub const MAX_POSTS: u64 = 4_611_686_018_427_387_904;

/// Sessions that a worker opens in one run in the strict dialect: 2^24.
pub const MAX_SESSIONS: u64 = 16_777_216;

/// Sessions that a worker opens in one run in the lenient dialect: 2^62, as many as it has
/// requests.
pub const MAX_LENIENT_SESSIONS: u64 = 4_611_686_018_427_387_904;
