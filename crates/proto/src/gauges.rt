//! What a `stats` tells beside counts: numbers of which no clause says more than that they stand
//! under these names.

ghost use Rattle.proto.specs.declared.counts.Counts.{Counts};
ghost use Rattle.std.specs.Prelude.{IsTrue};
ghost use Rattle.std.specs.List.{list_all};
ghost use Rattle.proto.specs.StatTexts.{names_gauge};

use std::alloc::{AllocError, Global};
use std::sync::atomic::{AtomicU64, Ordering};
use std::time::Duration;

/// What a number is of.
#[derive(Clone, Copy)]
pub enum Gauge {
    /// The process.
    Pid,
    /// Seconds since the storage thread began.
    Uptime,
    /// The moment of the `stats`.
    Time,
    PointerSize,
    /// Microseconds for which processors ran the process, and the system for it.
    UserTime,
    SystemTime,
    Threads,
    /// Connections that workers have open.
    CurrConnections,
    /// Connections that workers ever had.
    TotalConnections,
    /// Connections that were closed, as no worker had room.
    RejectedConnections,
    /// How often the workers came to be full.
    ListenDisabled,
    /// Connections that wait for a worker.
    ConnectionsWaiting,
    /// How many connections the workers serve at a time.
    MaxConnections,
    /// 1 while a worker has room for a connection, else 0.
    AcceptingConnections,
    /// The port of TCP, or 0.
    TcpPort,
    /// Connections that were ended as idle.
    IdleKicks,
    /// How often a connection that may have further requests was set aside.
    ConnYields,
    BytesRead,
    BytesWritten,
    /// Bytes that were received and aren't read yet.
    InputBytes,
    /// Bytes of answers that clients haven't taken yet.
    OutputBytes,
    /// Requests that wait for their answers.
    RequestsInFlight,
    /// Microseconds in which the storage thread didn't wait.
    StorageBusy,
    UnknownCommands,
    BadLines,
    /// Connections that were closed for what they sent.
    ClosedMalformed,
    /// Those that sent a message of the binary protocol.
    ClosedBinary,
    /// Those that took none of their output while others waited for its memory.
    ClosedUnread,
    /// Storage commands that were refused as too large.
    StoreTooLarge,
    LimitBytes,
    /// Bytes of the current items.
    Bytes,
    CurrItems,
    /// The most bytes that an item may take.
    ItemLimit,
    /// How often an item was looked up whose deadline had come.
    GetExpired,
    Evictions,
    EvictedByMerge,
    EvictedByClearing,
    /// Items that had expired when room was made.
    Reclaimed,
    SegmentSize,
    Segments,
    SegmentsFree,
    /// Bytes of segments in use that no current item has.
    DeadBytes,
    /// Segments that were given back, as no item in them was alive.
    SegmentsEmptied,
    Merges,
    SegmentsCleared,
    /// The most microseconds for which a merge or a clearing held up all requests.
    MergeLongest,
}

/// What each worker tells of itself. A `stats` is told their sums.
pub const WORKER_GAUGES: [Gauge; 15] = [
    Gauge::CurrConnections,
    Gauge::TotalConnections,
    Gauge::IdleKicks,
    Gauge::ConnYields,
    Gauge::BytesRead,
    Gauge::BytesWritten,
    Gauge::InputBytes,
    Gauge::OutputBytes,
    Gauge::RequestsInFlight,
    Gauge::UnknownCommands,
    Gauge::BadLines,
    Gauge::ClosedMalformed,
    Gauge::ClosedBinary,
    Gauge::ClosedUnread,
    Gauge::StoreTooLarge,
];

/// What the listener tells.
pub const LISTENER_GAUGES: [Gauge; 8] = [
    Gauge::RejectedConnections,
    Gauge::ListenDisabled,
    Gauge::ConnectionsWaiting,
    Gauge::MaxConnections,
    Gauge::AcceptingConnections,
    Gauge::TcpPort,
    Gauge::UserTime,
    Gauge::SystemTime,
];

/// How many gauges there are.
const GAUGES: usize = Gauge::MergeLongest as usize + 1;

/// Each gauge that is told as a whole number, with its name, in the order in which they are told.
/// Those that memcached tells as settings come once more, under their names there.
#[tactic(auto, unfolding(crate::specs::StatTexts::names_gauge, crate::specs::StatTexts::count_lines, crate::specs::StatTexts::tally_lines))]
pub(crate) fn gauge_names() -> [(Gauge, &'static [u8]); 47]
    ensures { (c : Counts) → IsTrue (list_all (λ row. names_gauge c row.1.now) result) }
{
    [
        (Gauge::Pid, b"pid"),
        (Gauge::Uptime, b"uptime"),
        (Gauge::Time, b"time"),
        (Gauge::PointerSize, b"pointer_size"),
        (Gauge::Threads, b"threads"),
        (Gauge::CurrConnections, b"curr_connections"),
        (Gauge::TotalConnections, b"total_connections"),
        (Gauge::RejectedConnections, b"rejected_connections"),
        (Gauge::ListenDisabled, b"listen_disabled_num"),
        (Gauge::ConnectionsWaiting, b"connections_waiting"),
        (Gauge::MaxConnections, b"max_connections"),
        (Gauge::AcceptingConnections, b"accepting_conns"),
        (Gauge::IdleKicks, b"idle_kicks"),
        (Gauge::ConnYields, b"conn_yields"),
        (Gauge::BytesRead, b"bytes_read"),
        (Gauge::BytesWritten, b"bytes_written"),
        (Gauge::InputBytes, b"input_bytes"),
        (Gauge::OutputBytes, b"output_bytes"),
        (Gauge::RequestsInFlight, b"requests_in_flight"),
        (Gauge::StorageBusy, b"storage_busy_us"),
        (Gauge::UnknownCommands, b"unknown_commands"),
        (Gauge::BadLines, b"bad_lines"),
        (Gauge::ClosedMalformed, b"closed_malformed"),
        (Gauge::ClosedBinary, b"closed_binary"),
        (Gauge::ClosedUnread, b"closed_unread"),
        (Gauge::StoreTooLarge, b"store_too_large"),
        (Gauge::LimitBytes, b"limit_maxbytes"),
        (Gauge::Bytes, b"bytes"),
        (Gauge::CurrItems, b"curr_items"),
        (Gauge::GetExpired, b"get_expired"),
        (Gauge::Evictions, b"evictions"),
        (Gauge::EvictedByMerge, b"evicted_by_merge"),
        (Gauge::EvictedByClearing, b"evicted_by_clearing"),
        (Gauge::Reclaimed, b"reclaimed"),
        (Gauge::SegmentSize, b"segment_size"),
        (Gauge::Segments, b"segments"),
        (Gauge::SegmentsFree, b"segments_free"),
        (Gauge::DeadBytes, b"segment_bytes_dead"),
        (Gauge::SegmentsEmptied, b"segments_emptied"),
        (Gauge::Merges, b"merges"),
        (Gauge::SegmentsCleared, b"segments_cleared"),
        (Gauge::MergeLongest, b"merge_us_max"),
        (Gauge::LimitBytes, b"maxbytes"),
        (Gauge::MaxConnections, b"maxconns"),
        (Gauge::TcpPort, b"tcpport"),
        (Gauge::Threads, b"num_threads"),
        (Gauge::ItemLimit, b"item_size_max"),
    ]
}

/// The names of what a worker tells of itself alone, from its number: how many connections it has,
/// and how many microseconds it was busy.
#[tactic(auto, unfolding(crate::specs::StatTexts::names_gauge, crate::specs::StatTexts::count_lines, crate::specs::StatTexts::tally_lines))]
pub(crate) fn worker_names(worker: usize) -> (&'static [u8], &'static [u8])
    ensures connections { (c : Counts) → IsTrue (names_gauge c result.0.now) }
    ensures busy { (c : Counts) → IsTrue (names_gauge c result.1.now) }
{
    match worker {
        0 => (b"curr_connections_0", b"worker_busy_us_0"),
        1 => (b"curr_connections_1", b"worker_busy_us_1"),
        2 => (b"curr_connections_2", b"worker_busy_us_2"),
        3 => (b"curr_connections_3", b"worker_busy_us_3"),
        4 => (b"curr_connections_4", b"worker_busy_us_4"),
        5 => (b"curr_connections_5", b"worker_busy_us_5"),
        6 => (b"curr_connections_6", b"worker_busy_us_6"),
        _ => (b"curr_connections_7", b"worker_busy_us_7"),
    }
}

/// A duration in whole microseconds.
fn micros(duration: Duration) -> u64 {
    let seconds = duration.as_secs().saturating_mul(1_000_000);
    seconds.saturating_add(u64::from(duration.subsec_micros()))
}

/// A number for each gauge, 0 at first, in words of its own: one thread writes them, and others may
/// read them at any time.
#[derive(Drop)]
pub struct Gauges {
    words: Vec<AtomicU64>,
    /// How long the thread was busy. While it waits this stands still, and is here twice, and one
    /// more; while it doesn't, the time that it has waited is here twice.
    busy: AtomicU64,
    /// How long it was busy when it was asked for last.
    busy_before: AtomicU64,
}

impl Gauges {
    /// # Errors
    ///
    /// AllocError if out of memory.
    pub fn new(alloc: Global) -> Result<Gauges, AllocError> {
        let mut words = Vec::with_capacity(alloc, GAUGES)?;
        for _ in 0..GAUGES {
            words.push(AtomicU64::new(0))?;
        }
        Ok(Gauges {
            words,
            busy: AtomicU64::new(0),
            busy_before: AtomicU64::new(0),
        })
    }

    /// Sets each gauge to its number. A store takes much longer than a load, so a word that has the
    /// number already is only loaded.
    pub fn set(&self, values: &[(Gauge, u64)]) {
        for value in values {
            let (gauge, n) = *value;
            if let Some(word) = self.words.get(gauge as usize) {
                if word.load(Ordering::Relaxed) != n {
                    word.store(n, Ordering::Relaxed);
                }
            }
        }
    }

    /// Sets these gauges to what they are there.
    pub fn copy(&self, from: &Gauges, gauges: &[Gauge]) {
        for gauge in gauges {
            self.set(&[(*gauge, from.get(*gauge))]);
        }
    }

    pub fn get(&self, gauge: Gauge) -> u64 {
        match self.words.get(gauge as usize) {
            Some(word) => word.load(Ordering::Relaxed),
            None => 0,
        }
    }

    /// Sets it to the duration in microseconds, if that is more than it is.
    pub fn raise_micros(&self, gauge: Gauge, duration: Duration) {
        self.set(&[(gauge, self.get(gauge).max(micros(duration)))]);
    }

    /// The thread waits, and was busy for this long.
    pub fn leave_waiting(&self, busy: Duration) {
        let word = micros(busy).wrapping_mul(2).wrapping_add(1);
        self.busy.store(word, Ordering::Relaxed);
    }

    /// The thread goes on, and has waited for this long.
    pub fn leave_busy(&self, waited: Duration) {
        self.busy
            .store(micros(waited).wrapping_mul(2), Ordering::Relaxed);
    }

    /// For how many microseconds the thread was busy, this long after it began, by a clock that may
    /// have begun a little before its own. They don't fall.
    pub fn busy_micros(&self, passed: Duration) -> u64 {
        let word = self.busy.load(Ordering::Relaxed);
        let busy = if word % 2 == 1 {
            word / 2
        } else {
            micros(passed).saturating_sub(word / 2)
        };
        let busy = busy.max(self.busy_before.load(Ordering::Relaxed));
        self.busy_before.store(busy, Ordering::Relaxed);
        busy
    }
}
