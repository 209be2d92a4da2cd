//! Rows of messages: their bytes, what they are replied, and the answer.

use crate::made::Spelling;

/// The bytes of a message, what it is replied, and the answer.
pub type Row = (&'static [u8], Given, &'static [u8]);

#[derive(Clone, Copy)]
pub enum Given {
    /// It is no request.
    Nothing,
    Stored,
    NotStored,
    Exists,
    NotFound,
    Hit,
    Miss,
    Deleted,
    Zero,
    Touched,
    Flushed,
    TooLarge,
    NoMemory,
    NotNumber,
    NoCas,
    Told,
}

/// Requests of both dialects.
pub const REQUESTS: [Row; 16] = [
    (b"set a 0 0 1\r\nx\r\n", Given::Stored, b"STORED\r\n"),
    (b"set a 0 0 1 noreply\r\nx\r\n", Given::Stored, b""),
    (
        b"set a 0 0 7\r\nget b\r\n\r\n",
        Given::Stored,
        b"STORED\r\n",
    ),
    (
        b"set a 4294967295 9999999999 0\r\n\r\n",
        Given::TooLarge,
        b"SERVER_ERROR object too large for cache\r\n",
    ),
    (
        b"add a 0 -1 1\r\nx\r\n",
        Given::NotStored,
        b"NOT_STORED\r\n",
    ),
    (b"cas a 0 0 1 1\r\nz\r\n", Given::Exists, b"EXISTS\r\n"),
    (b"cas b 0 0 1 1 noreply\r\nw\r\n", Given::NotFound, b""),
    (b"get a\r\n", Given::Hit, b"VALUE a 0 1\r\nx\r\nEND\r\n"),
    (
        b"gets a b\r\n",
        Given::Hit,
        b"VALUE a 0 1 18446744073709551615\r\nx\r\nEND\r\n",
    ),
    (b"get b noreply\r\n", Given::Miss, b"END\r\n"),
    (b"delete a\r\n", Given::Deleted, b"DELETED\r\n"),
    (b"incr n 1\r\n", Given::Zero, b"0\r\n"),
    (
        b"decr n 5\r\n",
        Given::NotNumber,
        b"CLIENT_ERROR cannot increment or decrement non-numeric value\r\n",
    ),
    (b"flush_all 10\r\n", Given::Flushed, b"OK\r\n"),
    (
        b"set a 0 0 1\r\nx\r\n",
        Given::NoMemory,
        b"SERVER_ERROR out of memory\r\n",
    ),
    (
        b"set a 0 0 1\r\nx\r\n",
        Given::NoCas,
        b"SERVER_ERROR out of cas numbers\r\n",
    ),
];

/// Lines that are answered without the cache.
pub const FAULTS: [Row; 36] = [
    (b"foo\r\n", Given::Nothing, b"ERROR\r\n"),
    (b"\r\n", Given::Nothing, b"ERROR\r\n"),
    (b" get a\r\n", Given::Nothing, b"ERROR\r\n"),
    (b"GET a\r\n", Given::Nothing, b"ERROR\r\n"),
    (
        b"get\r\n",
        Given::Nothing,
        b"CLIENT_ERROR bad command line format\r\n",
    ),
    (
        b"get \r\n",
        Given::Nothing,
        b"CLIENT_ERROR bad command line format\r\n",
    ),
    (
        b"get  a\r\n",
        Given::Nothing,
        b"CLIENT_ERROR bad command line format\r\n",
    ),
    (
        b"get a\nget a\r\n",
        Given::Nothing,
        b"CLIENT_ERROR bad command line format\r\n",
    ),
    (
        b"quit \r\n",
        Given::Nothing,
        b"CLIENT_ERROR bad command line format\r\n",
    ),
    (
        b"get a \r\n",
        Given::Nothing,
        b"CLIENT_ERROR bad command line format\r\n",
    ),
    (
        b"set a 0 0 1 \r\n",
        Given::Nothing,
        b"CLIENT_ERROR bad command line format\r\n",
    ),
    (
        b"incr a 18446744073709551616\r\n",
        Given::Nothing,
        b"CLIENT_ERROR bad command line format\r\n",
    ),
    (
        b"flush_all 00\r\n",
        Given::Nothing,
        b"CLIENT_ERROR bad command line format\r\n",
    ),
    (
        b"flush_all 10000000000\r\n",
        Given::Nothing,
        b"CLIENT_ERROR bad command line format\r\n",
    ),
    (
        b"set a 00 0 1\r\n",
        Given::Nothing,
        b"CLIENT_ERROR bad command line format\r\n",
    ),
    (
        b"set a 4294967296 0 1\r\n",
        Given::Nothing,
        b"CLIENT_ERROR bad command line format\r\n",
    ),
    (
        b"set a 0 -0 1\r\n",
        Given::Nothing,
        b"CLIENT_ERROR bad command line format\r\n",
    ),
    (
        b"set a 0 0 131073\r\n",
        Given::Nothing,
        b"SERVER_ERROR object too large for cache\r\n",
    ),
    (
        b"set a 0 0 9999999999\r\n",
        Given::Nothing,
        b"SERVER_ERROR object too large for cache\r\n",
    ),
    (
        b"set a 0 0 2\r\nxyz\r",
        Given::Nothing,
        b"CLIENT_ERROR bad data chunk\r\n",
    ),
    (
        b"set a 0 0 1\r\nx\ry",
        Given::Nothing,
        b"CLIENT_ERROR bad data chunk\r\n",
    ),
    (b"append a 0 0 1\r\n", Given::Nothing, b"ERROR\r\n"),
    (b"prepend a 0 0 1 noreply\r\n", Given::Nothing, b"ERROR\r\n"),
    (b"touch a 60 noreply\r\n", Given::Nothing, b"ERROR\r\n"),
    (b"gat 60 a\r\n", Given::Nothing, b"ERROR\r\n"),
    (b"gats 60\r\n", Given::Nothing, b"ERROR\r\n"),
    (b"version\r\n", Given::Nothing, b"ERROR\r\n"),
    (b"verbosity 1 noreply\r\n", Given::Nothing, b"ERROR\r\n"),
    (
        b"cache_memlimit 64 noreply\r\n",
        Given::Nothing,
        b"ERROR\r\n",
    ),
    (b"stats\r\n", Given::Nothing, b"ERROR\r\n"),
    (b"stats items\r\n", Given::Nothing, b"ERROR\r\n"),
    (b"stats reset\r\n", Given::Nothing, b"ERROR\r\n"),
    (
        b"lru_crawler metadump all\r\n",
        Given::Nothing,
        b"ERROR\r\n",
    ),
    (
        b"delete a 0\r\n",
        Given::Nothing,
        b"CLIENT_ERROR bad command line format\r\n",
    ),
    (b"\x80\x01\r\n", Given::Nothing, b"ERROR\r\n"),
    (b"quit\r\n", Given::Nothing, b""),
];

/// Leniently spaces before a line's end don't count, nor does a zero after the key of a `delete`; a
/// data block is as it was sent.
pub const LENIENT_REQUESTS: [Row; 28] = [
    (b"get a \r\n", Given::Hit, b"VALUE a 0 1\r\nx\r\nEND\r\n"),
    (b"get a   \r\n", Given::Hit, b"VALUE a 0 1\r\nx\r\nEND\r\n"),
    (
        b"gets a b \r\n",
        Given::Hit,
        b"VALUE a 0 1 18446744073709551615\r\nx\r\nEND\r\n",
    ),
    (b"get a\r\n", Given::Hit, b"VALUE a 0 1\r\nx\r\nEND\r\n"),
    (b"delete a \r\n", Given::Deleted, b"DELETED\r\n"),
    (b"delete a 0\r\n", Given::Deleted, b"DELETED\r\n"),
    (b"delete a 0 \r\n", Given::Deleted, b"DELETED\r\n"),
    (b"delete a 0 noreply\r\n", Given::Deleted, b""),
    (b"delete 0\r\n", Given::NotFound, b"NOT_FOUND\r\n"),
    (b"delete 0 0\r\n", Given::NotFound, b"NOT_FOUND\r\n"),
    (b"incr n 1 \r\n", Given::Zero, b"0\r\n"),
    (b"flush_all \r\n", Given::Flushed, b"OK\r\n"),
    (b"flush_all 0 noreply \r\n", Given::Flushed, b""),
    (b"set a 0 0 1 \r\nx\r\n", Given::Stored, b"STORED\r\n"),
    (b"set a 0 0 1 noreply \r\nx\r\n", Given::Stored, b""),
    (b"set a 0 0 2\r\nx \r\n", Given::Stored, b"STORED\r\n"),
    (b"append a 0 0 1\r\nx\r\n", Given::Stored, b"STORED\r\n"),
    (
        b"prepend a 7 -1 7 \r\nget b\r\n\r\n",
        Given::Stored,
        b"STORED\r\n",
    ),
    (b"append a 0 0 1 noreply\r\nx\r\n", Given::Stored, b""),
    (b"touch a 60\r\n", Given::Touched, b"TOUCHED\r\n"),
    (b"touch a -1 \r\n", Given::Touched, b"TOUCHED\r\n"),
    (b"touch a 60 noreply\r\n", Given::Touched, b""),
    (b"gat 60 a\r\n", Given::Hit, b"VALUE a 0 1\r\nx\r\nEND\r\n"),
    (
        b"gats -1 a b \r\n",
        Given::Hit,
        b"VALUE a 0 1 18446744073709551615\r\nx\r\nEND\r\n",
    ),
    (b"gat 0 noreply\r\n", Given::Miss, b"END\r\n"),
    (b"stats\r\n", Given::Told, b"STAT uptime 5\r\nEND\r\n"),
    (b"stats \r\n", Given::Told, b"STAT uptime 5\r\nEND\r\n"),
    (
        b"stats\r\n",
        Given::NoMemory,
        b"SERVER_ERROR out of memory\r\n",
    ),
];

/// Other faults stay, also leniently. `version` and `verbosity` are answered by their first word,
/// unless they have `noreply`.
pub const LENIENT_FAULTS: [Row; 31] = [
    (
        b"get \r\n",
        Given::Nothing,
        b"CLIENT_ERROR bad command line format\r\n",
    ),
    (
        b"get  \r\n",
        Given::Nothing,
        b"CLIENT_ERROR bad command line format\r\n",
    ),
    (b" \r\n", Given::Nothing, b"ERROR\r\n"),
    (b"foo \r\n", Given::Nothing, b"ERROR\r\n"),
    (b" get a\r\n", Given::Nothing, b"ERROR\r\n"),
    (
        b"get  a\r\n",
        Given::Nothing,
        b"CLIENT_ERROR bad command line format\r\n",
    ),
    (
        b"get a\t\r\n",
        Given::Nothing,
        b"CLIENT_ERROR bad command line format\r\n",
    ),
    (
        b"get a\nget a\r\n",
        Given::Nothing,
        b"CLIENT_ERROR bad command line format\r\n",
    ),
    (
        b"set a 00 0 1 \r\n",
        Given::Nothing,
        b"CLIENT_ERROR bad command line format\r\n",
    ),
    (
        b"set a 0 0 1 \r\nx \r",
        Given::Nothing,
        b"CLIENT_ERROR bad data chunk\r\n",
    ),
    (b"verbosity 1\r\n", Given::Nothing, b"OK\r\n"),
    (b"verbosity 1 noreply\r\n", Given::Nothing, b""),
    (b"cache_memlimit 64\r\n", Given::Nothing, b"ERROR\r\n"),
    (b"cache_memlimit 64 noreply \r\n", Given::Nothing, b""),
    (b"stats items\r\n", Given::Nothing, b"END\r\n"),
    (b"stats noreply \r\n", Given::Nothing, b"END\r\n"),
    (
        b"stats reset\r\n",
        Given::Nothing,
        b"CLIENT_ERROR bad command line format\r\n",
    ),
    (b"lru_crawler metadump all\r\n", Given::Nothing, b"END\r\n"),
    (b"lru_crawler enable\r\n", Given::Nothing, b"ERROR\r\n"),
    (
        b"touch a\r\n",
        Given::Nothing,
        b"CLIENT_ERROR bad command line format\r\n",
    ),
    (
        b"gat 60\r\n",
        Given::Nothing,
        b"CLIENT_ERROR bad command line format\r\n",
    ),
    (
        b"gats a 60\r\n",
        Given::Nothing,
        b"CLIENT_ERROR bad command line format\r\n",
    ),
    (
        b"append a 0 0\r\n",
        Given::Nothing,
        b"CLIENT_ERROR bad command line format\r\n",
    ),
    (
        b"append a 0 0 1 1\r\n",
        Given::Nothing,
        b"CLIENT_ERROR bad command line format\r\n",
    ),
    (
        b"append a 0 0 1\r\nxyz",
        Given::Nothing,
        b"CLIENT_ERROR bad data chunk\r\n",
    ),
    (
        b"prepend a 0 0 8388609\r\n",
        Given::Nothing,
        b"SERVER_ERROR object too large for cache\r\n",
    ),
    (
        b"delete a 1\r\n",
        Given::Nothing,
        b"CLIENT_ERROR bad command line format\r\n",
    ),
    (
        b"delete a 00\r\n",
        Given::Nothing,
        b"CLIENT_ERROR bad command line format\r\n",
    ),
    (
        b"delete a 0 0\r\n",
        Given::Nothing,
        b"CLIENT_ERROR bad command line format\r\n",
    ),
    (b"\x80", Given::Nothing, b""),
    (b"quit \r\n", Given::Nothing, b""),
];

/// Spellings that the tables above don't have: some text, a byte and how many times it comes, and
/// further text.
pub const SPELLINGS: [Spelling; 46] = [
    ("set a 0 0 0\r\n", b'x', 0, "\r\n"),
    ("set a 0 5 1\r\n", b'x', 1, "\r\n"),
    ("set a 0 6 1\r\n", b'x', 1, "\r\n"),
    ("set a 0 16 1\r\n", b'x', 1, "\r\n"),
    ("set a 0 2592000 1\r\n", b'x', 1, "\r\n"),
    ("set a 0 2592001 1\r\n", b'x', 1, "\r\n"),
    ("set a 0 9999999999 1\r\n", b'x', 1, "\r\n"),
    ("set a 0 -1 1\r\n", b'x', 1, "\r\n"),
    ("set b 0 0 1\r\n", b'y', 1, "\r\n"),
    ("set k1 0 8 1\r\n", b'x', 1, "\r\n"),
    ("set k9 0 72 1\r\n", b'x', 1, "\r\n"),
    ("set n 0 0 1\r\n", b'3', 1, "\r\n"),
    ("set n 0 16 1\r\n", b'1', 1, "\r\n"),
    ("set n 0 0 20\r\n18446744073709551615", b'x', 0, "\r\n"),
    ("set n 0 0 20\r\n", b'0', 19, "7\r\n"),
    ("set a 4294967295 0 1\r\n", b'x', 1, "\r\n"),
    ("set k001 0 0 476\r\n", b'v', 476, "\r\n"),
    ("set a 0 0 487\r\n", b'x', 487, "\r\n"),
    ("set a 0 0 488\r\n", b'x', 488, "\r\n"),
    ("set ", b'k', 250, " 0 0 1\r\nx\r\n"),
    ("set ", b'k', 251, " 0 0 1\r\n"),
    ("set a 0 10000000000 1\r\n", b'x', 0, ""),
    ("set a 0 0 10000000000\r\n", b'x', 0, ""),
    ("cas a 0 0 1 1\r\n", b'y', 1, "\r\n"),
    ("cas b 0 0 1 1\r\n", b'w', 1, "\r\n"),
    ("get b\r\n", b'x', 0, ""),
    ("get n\r\n", b'x', 0, ""),
    ("get a b\r\n", b'x', 0, ""),
    ("get a b c d\r\n", b'x', 0, ""),
    ("get k001\r\n", b'x', 0, ""),
    ("get k064 k065\r\n", b'x', 0, ""),
    ("get ", b'k', 250, "\r\n"),
    ("get ", b'k', 251, "\r\n"),
    ("gets b\r\n", b'x', 0, ""),
    ("incr a 18446744073709551615\r\n", b'x', 0, ""),
    ("flush_all\r\n", b'x', 0, ""),
    ("flush_all 0\r\n", b'x', 0, ""),
    ("flush_all 5\r\n", b'x', 0, ""),
    ("flush_all 20\r\n", b'x', 0, ""),
    ("flush_all 10 noreply\r\n", b'x', 0, ""),
    ("flush_all -1\r\n", b'x', 0, ""),
    ("", b'a', 2046, "\r\n"),
    ("", b'a', 2047, "\r"),
    ("", b'a', 2048, ""),
    ("add a 0 0 1 noreply\r\n", b'x', 1, "\r\n"),
    ("replace a 0 0 1\r\n", b'x', 1, "\r\n"),
];

/// A line of letters, with what stands behind them: it is read as far as the longest line goes, and
/// answered so.
pub type LongLine = (usize, &'static str, &'static [u8]);

pub const LONG_LINES: [LongLine; 3] = [
    (2046, "\r\nget a\r\n", b"ERROR\r\n"),
    (2047, "\r\n", TOO_LONG),
    (2048, "", TOO_LONG),
];

pub const LENIENT_LONG_LINES: [LongLine; 4] = [
    (32_766, "\r\nget a\r\n", b"ERROR\r\n"),
    (32_767, "\r\n", TOO_LONG),
    (32_768, "", TOO_LONG),
    // The spaces are counted.
    (32_765, "  \r\n", TOO_LONG),
];

const TOO_LONG: &[u8] = b"CLIENT_ERROR line too long\r\n";

/// Inputs that are a beginning, and how many bytes are needed.
pub const NEEDS: [(&[u8], usize); 6] = [
    (b"", 1),
    (b"get a", 6),
    (b"set a 0 0 1\r", 13),
    (b"set a 0 0 1\r\n", 16),
    (b"set a 0 0 1\r\nx\r", 16),
    (b"set a 0 0 100000\r\n", 100_020),
];

/// The same of the lenient dialect alone.
pub const LENIENT_NEEDS: [(&[u8], usize); 9] = [
    (b"get a ", 7),
    (b"set a 0 0 1 \r", 14),
    (b"set a 0 0 1 \r\n", 17),
    (b"set a 0 0 2  \r\nx ", 19),
    (b"append a 0 0 100000\r\n", 100_023),
    (b"prepend a 0 0 1 noreply\r\nx", 28),
    (b"set a 0 0 131073\r\n", 131_093),
    (b"set a 0 0 163822\r\n", 163_842),
    (b"cas a 0 0 8388608 1 noreply\r\nget b\r\n", 8_388_639),
];

/// Whether the bytes of the message that these begin are to be dropped, whether it takes out its
/// key, and has `noreply`.
pub const DROPS: [(&[u8], Option<(bool, bool)>); 6] = [
    (b"set a 0 0 131072\r\n", None),
    (b"set a 0 0 163822\r\n", None),
    (b"set a 0 0 163823\r\n", Some((true, false))),
    (b"add a 0 0 163823\r\n", Some((false, false))),
    (b"append a 0 0 200000 noreply \r\nx", Some((false, true))),
    (b"set a 0 0 8388608\r\n", Some((true, false))),
];

/// The same where the largest item has this many bytes.
pub const LIMITED_DROPS: [(u32, &[u8], Option<(bool, bool)>); 4] = [
    (8192, b"set a 0 0 40943\r\n", None),
    (8192, b"set a 0 0 40944\r\n", Some((true, false))),
    (1_048_512, b"set a 0 0 1081261\r\n", None),
    (1_048_512, b"set a 0 0 1081262\r\n", Some((true, false))),
];
