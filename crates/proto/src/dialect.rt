//! Which lines count, and what is read of them.

ghost use Rattle.std.specs.Prelude.{◌≡◌, ◌≤◌, length};
ghost use Rattle.proto.specs.Lines.{longest_line};
ghost use Rattle.proto.specs.Lines.{is_lenient};
ghost use Rattle.proto.specs.Grammar.{meant, max_data, fits, most_kept, longest_block};
ghost use Rattle.proto.specs.Sessions.{most_sessions};

use crate::geometry::ITEM_HEADER;
use crate::limits::{
    MAX_BLOCK, MAX_LENIENT_BLOCK, MAX_LENIENT_LINE, MAX_LENIENT_SESSIONS, MAX_LINE, MAX_SESSIONS,
    MAX_VALUE,
};

/// How lines may be written.
#[derive(Clone, Copy, PartialEq, Eq)]
pub enum Dialect {
    /// All of a line counts, and with its end it has at most 2,048 bytes.
    Strict,
    /// Spaces before a line's end don't count, nor does a zero after the key of a `delete`, and
    /// with its end a line has at most 32,768 bytes. It has `append`, `prepend`, `touch`, `stats`,
    /// `version` and `verbosity` too, doesn't answer `cache_memlimit` with `noreply`, drops a data
    /// block whose item has more bytes than its number, which is that of the largest item, and goes
    /// on behind it, reads an exptime from 2^31 to 2^32 - 1 as a negative one, and refuses the
    /// binary protocol by its first byte.
    Lenient(u32),
}

impl Dialect {
    /// Whether it is the lenient one.
    pub fn is_lenient(self) -> bool
        ensures { result ≡ is_lenient self }
    {
        match self {
            Dialect::Strict => false,
            Dialect::Lenient(_) => true,
        }
    }

    /// The longest line in bytes, with its end, among those that begin so; 0 if none does.
    pub fn longest_line(self, input: &[u8]) -> usize
        ensures { result ≡ longest_line self input.now }
    {
        match (self, input.split_first()) {
            (Dialect::Lenient(_), Some((first, _))) => {
                if *first == 128 { 0 } else { MAX_LENIENT_LINE }
            }
            _ => MAX_LINE,
        }
    }

    /// The longest data block in bytes that a request has.
    pub fn most_data(self) -> u64
        ensures value { result ≡ max_data self }
        ensures within { result ≤ 1048576 }
    {
        match self {
            Dialect::Strict => MAX_BLOCK,
            Dialect::Lenient(limit) => MAX_VALUE.min(limit as u64),
        }
    }

    /// Whether a request has a data block of this size under the key: leniently no item is larger
    /// than the largest one.
    pub(crate) fn fits(self, key: &[u8], size: u64) -> bool
        requires { size ≤ 8388608 }
        ensures { result ≡ fits self (length key.now) size }
    {
        match self {
            Dialect::Strict => size <= MAX_BLOCK,
            Dialect::Lenient(_) => {
                let bytes = ITEM_HEADER as u64 + key.len() as u64 + size + 7;
                8 * (bytes / 8) <= self.most_data()
            }
        }
    }

    /// What is meant by an exptime that is written so: leniently 2^31 to 2^32 - 1, in which some
    /// clients write a negative one, are -1.
    pub(crate) fn meant(self, exptime: i64) -> i64
        ensures { result ≡ meant self exptime }
    {
        match self {
            Dialect::Strict => exptime,
            Dialect::Lenient(_) => match u64::try_from(exptime) {
                Ok(seconds) if seconds >= 1 << 31 && seconds < 1 << 32 => -1,
                _ => exptime,
            },
        }
    }

    /// The bytes of the longest message that is kept until it is whole: a line of 32,768 bytes and
    /// a data block of a request with its end. One of more bytes has a block that is dropped as it
    /// comes.
    pub fn most_kept(self) -> usize
        ensures value { result ≡ most_kept self }
        ensures within { result ≤ 1081346 }
    {
        self.most_data() as usize + (MAX_LENIENT_LINE + 2)
    }

    /// The longest data block in bytes that is read.
    pub fn longest_block(self) -> u64
        ensures { result ≡ longest_block self }
    {
        match self {
            Dialect::Strict => self.most_data(),
            Dialect::Lenient(_) => MAX_LENIENT_BLOCK,
        }
    }

    /// How many sessions a worker opens in a run.
    pub fn most_sessions(self) -> u64
        ensures value { result ≡ most_sessions self }
        ensures within { result ≤ 4611686018427387904 }
    {
        match self {
            Dialect::Strict => MAX_SESSIONS,
            Dialect::Lenient(_) => MAX_LENIENT_SESSIONS,
        }
    }
}
