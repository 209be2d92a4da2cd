//! How much is unfinished in all sessions of a book.

use proto::WINDOW;

/// The bytes up to which an answer is small: it waits for no room.
pub const SMALL_ANSWER: usize = 16_384;

/// The bytes above which an answer is large: one at a time is on its way.
const LARGE_ANSWER: usize = 262_144;

/// The likely bytes of the answers that are on their way, over all sessions, above which one
/// request at a time goes on. So the others wait for about 1 MiB of them.
const MAX_COMING: usize = 1_048_576;

/// The keys from which on a `get` is for many: what they take is likely to be what those of the
/// last one for many took.
pub(crate) const MANY_KEYS: usize = 64;

/// By how little of itself the size of stored values follows the last one.
const STORED_SHARE: usize = 16;

/// Keys of unsettled requests, over all sessions, above which one request at a time goes on,
/// whatever their answers are likely to take. Up to then each key has a hit at most, and the last
/// request one answer: so before they are put into outputs, their hits take no more than 40 MiB
/// leniently if items have at most 131,072 bytes, or 264 MiB if they have 1 MiB; and strictly, if a
/// line has 1,021 keys at most, no more than 160 MiB.
pub const MAX_KEYS: usize = 255;

/// The bytes that waiting output and the answers on their way may take, over all sessions, unless
/// the owner says another number. A `get` that is likely to exceed them waits, but for one whose
/// answer is small.
pub const OUTPUT_BUDGET: usize = 67_108_864;

/// The bytes that a key is likely to take in an answer: what each took in the last one, or half of
/// what it was before, if that is more.
#[derive(Clone, Copy, Default)]
pub(crate) struct KeyBytes {
    // (32 bits: each session has them)
    bytes: u32,
    /// The same, of the answers for many keys.
    of_many: u32,
}

impl KeyBytes {
    /// So many keys took so many bytes of output.
    pub(crate) fn took(&mut self, keys: usize, length: usize) {
        if keys > 0 {
            let each = (length / keys).min(u32::MAX as usize) as u32;
            self.bytes = each.max(self.bytes / 2).max(1);
            if keys >= MANY_KEYS {
                self.of_many = each.max(self.of_many / 2).max(1);
            }
        }
    }

    /// Whether anything was answered yet.
    fn is_known(self) -> bool {
        self.bytes > 0
    }
}

/// How much is unfinished in all sessions of a book. No clause speaks of it.
#[derive(Clone, Copy)]
pub(crate) struct Load {
    /// The keys of unsettled requests.
    keys: usize,
    /// The bytes that the answers to the unsettled requests are likely to take.
    coming: usize,
    /// The same of each of them, by its number: no more are unsettled than a window has.
    coming_of: [usize; WINDOW as usize],
    /// Over all sessions.
    key_bytes: KeyBytes,
    /// The bytes of the values that were to be stored, on average over the last ones.
    stored_bytes: usize,
    /// The bytes of output that weren't given yet.
    pub(crate) output: usize,
    /// The bytes that output and the answers on their way may take.
    pub(crate) output_budget: usize,
}

impl Load {
    pub(crate) fn new() -> Load {
        Load {
            keys: 0,
            coming: 0,
            coming_of: [0; WINDOW as usize],
            key_bytes: KeyBytes::default(),
            stored_bytes: 0,
            output: 0,
            output_budget: OUTPUT_BUDGET,
        }
    }

    /// The bytes that the answer to a `get` for so many keys is likely to take, if keys took so
    /// much in the last one of its session. The first one of a session, if it is for one key, is
    /// taken to be small.
    pub(crate) fn likely(&self, keys: usize, own: KeyBytes) -> usize {
        match own.bytes {
            0 if keys <= 1 => (self.key_bytes.bytes as usize).min(SMALL_ANSWER),
            0 => keys.saturating_mul(self.key_bytes.bytes as usize),
            bytes => keys.saturating_mul(bytes as usize),
        }
    }

    /// The bytes that the answer to a `get` for many keys may well take. The first one of a session
    /// is taken to show what the last one of all showed, or values as they were stored lately; so
    /// it may be overestimated, and waits for no room for it.
    pub(crate) fn likely_of_many(&self, keys: usize, own: KeyBytes) -> usize {
        let each = if own.of_many > 0 {
            own.of_many as usize
        } else {
            self.stored_bytes.max(self.key_bytes.of_many as usize)
        };
        keys.saturating_mul(each)
    }

    /// Whether a `get` for so many keys goes on whatever waits, if keys took so much in the last
    /// one of its session. While output takes three times the budget, only one for a single key
    /// does, and not if it is the first one of its session.
    pub(crate) fn is_small(&self, keys: usize, likely: usize, own: KeyBytes) -> bool {
        let most = self.output_budget.saturating_mul(3);
        likely <= SMALL_ANSWER && (self.output <= most || keys <= 1 && own.is_known())
    }

    /// Whether an answer that is likely to take so much fits into the budget. Half of the budget is
    /// enough for any, since one strict answer may have 134 MB.
    pub(crate) fn has_room_for(&self, likely: usize) -> bool {
        let budget = self.output_budget;
        self.output
            .saturating_add(self.coming)
            .saturating_add(likely.min(budget / 2))
            <= budget
    }

    /// Whether no large answer is on its way.
    pub(crate) fn is_free(&self) -> bool {
        self.coming <= LARGE_ANSWER
    }

    /// Whether an answer that is likely to take so much is large.
    pub(crate) fn is_large(&self, likely: usize) -> bool {
        likely > LARGE_ANSWER
    }

    /// Whether so much is on its way that one request at a time goes on.
    pub(crate) fn is_crowded(&self) -> bool {
        self.keys > MAX_KEYS || self.coming > MAX_COMING
    }

    /// The request of this number asks for so many keys, and its answer is likely to take so many
    /// bytes.
    pub(crate) fn asked(&mut self, number: u64, keys: usize, likely: usize) {
        self.keys = self.keys.saturating_add(keys);
        self.coming = self.coming.saturating_add(likely);
        self.coming_of[(number % WINDOW) as usize] = likely;
    }

    /// The request of this number, for so many keys, was settled with so many bytes of output.
    pub(crate) fn settled(&mut self, number: u64, keys: usize, length: usize) {
        self.keys = self.keys.saturating_sub(keys);
        let likely = self.coming_of[(number % WINDOW) as usize];
        self.coming = self.coming.saturating_sub(likely);
        self.key_bytes.took(keys, length);
    }

    /// A value of so many bytes was to be stored.
    pub(crate) fn stored(&mut self, length: usize) {
        let before = self.stored_bytes;
        self.stored_bytes = if before == 0 {
            length
        } else {
            (before - before / STORED_SHARE).saturating_add(length / STORED_SHARE)
        };
    }
}
