//! What workers and the storage thread leave for each other beside their lanes: words to park on,
//! gauges, and hints.

use crate::steps::slot_at;
use proto::{Gauge, Gauges, LISTENER_GAUGES, MAX_WORKERS, WINDOW, WORKER_GAUGES};
use std::alloc::{AllocError, Global};
use std::hash::{FoldHasher, Hasher};
use std::sync::Wait;
use std::sync::atomic::{AtomicU64, Ordering};
use std::time::Duration;

const AWAKE: u64 = 0;

const ANNOUNCED: u64 = 1;

const PARKED: u64 = 2;

/// The word that one thread parks on, and that those which make work for it read.
///
/// The thread announces that it parks, looks for work once more, and then parks, or cancels if it
/// found some. One that has made work unparks it. So work that the last look didn't see was made
/// after the announcement, and its maker finds the word at `ANNOUNCED` or `PARKED`: the thread
/// doesn't sleep over it. Only one that has parked has to be woken.
#[derive(Drop)]
pub struct ParkingWord {
    word: AtomicU64,
}

impl ParkingWord {
    pub const fn new() -> ParkingWord {
        ParkingWord {
            word: AtomicU64::new(AWAKE),
        }
    }

    /// The thread says that it is about to park.
    pub fn announce(&self) {
        self.word.store(ANNOUNCED, Ordering::SeqCst);
    }

    /// Parks, unless there was an `unpark` since the announcement, for `longest` at most. It may
    /// return early.
    pub fn park<R: Wait>(&self, rt: &R, longest: Duration) {
        let parks = self
            .word
            .compare_exchange(ANNOUNCED, PARKED, Ordering::SeqCst, Ordering::SeqCst);
        if parks.is_ok() {
            self.word.park_timeout(rt, PARKED as u32, longest);
        }
        self.cancel();
    }

    /// The thread doesn't park after all.
    pub fn cancel(&self) {
        self.word.store(AWAKE, Ordering::SeqCst);
    }

    /// Wakes the thread, if it has parked, and keeps it from parking, if it is about to. Otherwise
    /// this is one load. To be called after work was made.
    pub fn unpark(&self) {
        if self.word.load(Ordering::SeqCst) != AWAKE
            && self.word.swap(AWAKE, Ordering::SeqCst) == PARKED
        {
            self.word.wake_one();
        }
    }
}

/// The words that the storage thread and the workers park on, what each of them tells of itself,
/// and a row of hints, one for each slot of a lane: the hashes of the keys that the requests on
/// their way begin with. By these storage reads ahead what it will look up. No answer rests on a
/// hint: one that is missing, or of another request, costs time alone.
#[derive(Drop)]
pub struct GroupSignals {
    parking: ParkingWord,
    workers: Vec<ParkingWord>,
    gauges: Vec<Gauges>,
    storage_gauges: Gauges,
    hasher: FoldHasher,
    hints: Vec<AtomicU64>,
    spin: Option<u32>,
}

impl GroupSignals {
    /// The signals of a group of workers. A single worker leaves no hints, since hashing each key
    /// first takes it more time than storage wins. The hasher is the one by which the store looks
    /// keys up. `spin` is how many microseconds the storage thread and the workers look for work
    /// before they park; with None each uses its own small number of turns.
    ///
    /// # Errors
    ///
    /// AllocError if out of memory.
    pub fn new(
        alloc: Global,
        hasher: FoldHasher,
        workers: usize,
        spin: Option<u32>,
    ) -> Result<GroupSignals, AllocError> {
        let mut words = Vec::with_capacity(alloc, workers)?;
        let mut gauges = Vec::with_capacity(alloc, workers)?;
        for _ in 0..workers {
            words.push(ParkingWord::new())?;
            gauges.push(Gauges::new(alloc)?)?;
        }
        let count = if workers > 1 {
            MAX_WORKERS * WINDOW as usize
        } else {
            0
        };
        let mut hints = Vec::with_capacity(alloc, count)?;
        for _ in 0..count {
            hints.push(AtomicU64::new(0))?;
        }
        Ok(GroupSignals {
            parking: ParkingWord::new(),
            workers: words,
            gauges,
            storage_gauges: Gauges::new(alloc)?,
            hasher,
            hints,
            spin,
        })
    }

    /// Where its memory was taken.
    pub fn allocator(&self) -> Global {
        *self.workers.allocator()
    }

    /// How many workers there are.
    pub fn workers(&self) -> usize {
        self.workers.len()
    }

    /// How many microseconds a thread looks for work before it parks. None if it counts turns.
    pub fn spin(&self) -> Option<u32> {
        self.spin
    }

    /// The word that the storage thread parks on.
    pub fn parking(&self) -> &ParkingWord {
        &self.parking
    }

    /// The word that the worker of this number parks on, while it waits for answers.
    pub fn worker_parking(&self, worker: usize) -> Option<&ParkingWord> {
        self.workers.get(worker)
    }

    /// What the worker of this number tells of itself.
    pub fn gauges(&self, worker: usize) -> Option<&Gauges> {
        self.gauges.get(worker)
    }

    /// What the storage thread tells.
    pub fn storage_gauges(&self) -> &Gauges {
        &self.storage_gauges
    }

    /// Adds up what the workers tell, into what the storage thread does. What the listener tells is
    /// as this worker left it.
    pub fn gather_gauges(&self, worker: usize) {
        for gauge in WORKER_GAUGES {
            self.storage_gauges.set(&[(gauge, self.sum_of(gauge))]);
        }
        if let Some(left) = self.gauges.get(worker) {
            self.storage_gauges.copy(left, &LISTENER_GAUGES);
        }
    }

    fn sum_of(&self, gauge: Gauge) -> u64 {
        let mut sum: u64 = 0;
        for left in &self.gauges {
            sum = sum.wrapping_add(left.get(gauge));
        }
        sum
    }

    /// Unparks the worker of this number, if it has parked or is about to.
    pub fn unpark(&self, worker: usize) {
        if let Some(parking) = self.workers.get(worker) {
            parking.unpark();
        }
    }

    /// The worker is about to post its message of this number, a request that begins with the key.
    /// Messages are counted from 0.
    pub fn leave_hint(&self, worker: usize, number: u64, key: &[u8]) {
        if let Some(hint) = self.hints.get(slot_at(worker % MAX_WORKERS, number)) {
            let mut hasher = self.hasher;
            hasher.write(key);
            hint.store(hasher.finish(), Ordering::Relaxed);
        }
    }

    /// Whether hints are left.
    pub fn has_hints(&self) -> bool {
        !self.hints.is_empty()
    }

    /// The hash that was left for the worker's message of this number, or for one a multiple of
    /// WINDOW before.
    pub fn hint(&self, worker: usize, number: u64) -> u64 {
        match self.hints.get(slot_at(worker % MAX_WORKERS, number)) {
            Some(hint) => hint.load(Ordering::Relaxed),
            None => 0,
        }
    }
}
