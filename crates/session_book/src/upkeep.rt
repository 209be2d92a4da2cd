//! What a book keeps of its sessions beside their states.

ghost use Rattle.std.specs.Prelude.{◌≡◌};

use crate::buffer::{LARGE_MESSAGE, SpareBuffers, Use};
use crate::counts::BookCounts;
use crate::fault_line::FaultLine;
use crate::input::ROOM_AT_ONCE;
use crate::load::{KeyBytes, Load, MANY_KEYS};
use crate::prepared::PreparedMemory;
use crate::ready_queues::{ReadyQueues, Task};
use crate::rooms::Rooms;
use proto::{Answered, Dialect, Message, Reply, Request};
use std::alloc::Global;

/// What has passed while sessions waited for memory.
#[derive(Clone, Copy)]
pub enum Tick {
    /// A sixteenth of a second.
    Sixteenth,
    /// The last sixteenth of a second.
    Second,
    /// Several turns of the owner in a row in which nothing came.
    Idle,
}

/// The seconds, as they are counted, after which a client that took and sent nothing has stopped.
const STOPPED_SECONDS: u64 = 10;

/// What a `get` waits for that was read and isn't asked yet.
#[derive(Clone, Copy)]
pub(crate) struct Waiting {
    /// The queue in which its session waits.
    pub(crate) task: Task,
    /// The bytes that its answer is likely to take.
    pub(crate) likely: u32,
    /// The bytes of memory that are to be taken for it before.
    pub(crate) needed: u32,
}

/// A number of bytes in 32 bits, and at most the greatest of these.
fn narrow(bytes: usize) -> u32 {
    bytes.min(u32::MAX as usize) as u32
}

/// How many keys a request is to show.
pub(crate) fn key_count(request: &Request) -> usize {
    match request {
        Request::Get { keys, .. } | Request::GetAndTouch { keys, .. } => keys.len(),
        _ => 0,
    }
}

/// How many bytes the value has that a request was to store; none if there is no value.
fn stored_bytes(request: &Request) -> Option<usize> {
    match request {
        Request::Set(item)
        | Request::Add(item)
        | Request::Replace(item)
        | Request::Cas(item, _)
        | Request::Append(item)
        | Request::Prepend(item) => Some(item.value.as_slice().len()),
        _ => None,
    }
}

/// Which sessions have something to do, how much is unfinished in all of them, what is counted for
/// `stats`, and the memory of buffers that are empty. No clause speaks of it.
#[derive(Drop)]
pub(crate) struct Upkeep {
    alloc: Global,
    pub(crate) ready: ReadyQueues,
    /// Whether the session that was asked last can be read further.
    pub(crate) reads_on: bool,
    /// The session that was asked last, and the line of the fatal message that was read of it then.
    pub(crate) asked: u64,
    pub(crate) fault: Option<FaultLine>,
    pub(crate) load: Load,
    /// The bytes that the answer to the `get` that was read last is likely to take.
    likely: usize,
    /// The bytes of memory that are to be taken before it is asked.
    needed: usize,
    pub(crate) rooms: Rooms,
    pub(crate) counts: BookCounts,
    /// The seconds that were counted.
    pub(crate) seconds: u64,
    pub(crate) spares: SpareBuffers,
    /// Beside them, the memory of the very large answer that comes next.
    prepared: PreparedMemory,
}

impl Upkeep {
    pub(crate) fn new(alloc: Global, dialect: Dialect) -> Upkeep {
        Upkeep {
            alloc,
            ready: ReadyQueues::new(alloc),
            reads_on: false,
            asked: 0,
            fault: None,
            load: Load::new(),
            likely: 0,
            needed: 0,
            rooms: Rooms::default(),
            counts: BookCounts::default(),
            seconds: 0,
            spares: SpareBuffers::new(alloc),
            prepared: PreparedMemory::new(alloc, dialect),
        }
    }

    /// What a message waits for, if keys took so much in the last answer of its session; none if it
    /// is to be asked now, as all are but a `get` or a `gat`. None of these goes before one that
    /// waits for room, but those whose answers are small. One whose answer is likely to be large
    /// lets the others go first that are to be asked; and one with a very large answer waits until
    /// its memory is prepared. What was likely when it began to wait still is, whatever others were
    /// answered meanwhile.
    pub(crate) fn waiting(
        &mut self,
        message: &Message,
        own: KeyBytes,
        before: Option<Waiting>,
    ) -> Option<Waiting> {
        let keys = match message {
            Message::Ask(Request::Get { keys, .. } | Request::GetAndTouch { keys, .. }, _) => {
                keys.len()
            }
            _ => return None,
        };
        let let_in = self.ready.let_in.take();
        let likely = self
            .load
            .likely(keys, own)
            .max(before.map_or(0, |waiting| waiting.likely as usize));
        self.likely = likely;
        self.needed = 0;
        if keys >= MANY_KEYS {
            let of_many = self.load.likely_of_many(keys, own);
            self.needed = self.prepared.needed(keys, of_many);
        }
        let needed = self.needed;
        let is_small = self.load.is_small(keys, likely, own);
        if matches!(let_in, Some(Task::AskForRoom)) || (is_small && needed == 0) {
            return None;
        }
        let is_let_in = let_in.is_some();
        let task = if is_small {
            (!is_let_in).then_some(Task::AskLarge)
        } else {
            self.queue_of(likely, needed, is_let_in)
        }?;
        Some(Waiting {
            task,
            likely: narrow(likely),
            needed: narrow(needed),
        })
    }

    /// The queue in which a `get` waits whose answer isn't small; none if it is to be asked now.
    fn queue_of(&self, likely: usize, needed: usize, is_let_in: bool) -> Option<Task> {
        if self.ready.count(Task::AskForRoom) > 0 || !self.load.has_room_for(likely) {
            return Some(Task::AskForRoom);
        }
        let may_come = self.ready.none_is_to_ask() && self.is_prepared(needed);
        let is_its_turn = is_let_in || may_come;
        let is_moderate = needed == 0 && !self.load.is_large(likely);
        let goes_on = is_moderate || (is_its_turn && self.load.is_free());
        (!goes_on).then_some(Task::AskLarge)
    }

    /// Whether a client that did nothing since this second has stopped.
    pub(crate) fn has_stopped_since(&self, second: u64) -> bool {
        self.seconds.saturating_sub(second) >= STOPPED_SECONDS
    }

    /// Room for large messages ages, and twice where nothing came: then all of it is of clients
    /// that send slowly.
    pub(crate) fn count(&mut self, tick: Tick) {
        match tick {
            Tick::Sixteenth => {}
            Tick::Second => self.seconds = self.seconds.saturating_add(1),
            Tick::Idle => self.rooms.grow_old(),
        }
        self.rooms.grow_old();
    }

    /// Whether so much memory was taken, or all that there is.
    pub(crate) fn is_prepared(&self, needed: usize) -> bool {
        self.prepared.is_enough(needed)
    }

    /// Takes a part of the memory that is needed for the `get` of a session, which comes next, if
    /// some is missing and no large answer is on its way. True if it did.
    pub(crate) fn prepare(&mut self, session: u64, needed: usize) -> bool {
        if self.is_prepared(needed) || !self.load.is_free() {
            return false;
        }
        self.prepared.take_more(session, needed);
        self.ready.hold_memory(true);
        true
    }

    /// The session for whose answer memory is held, if some is.
    pub(crate) fn prepared_for(&self) -> Option<u64> {
        self.prepared.session()
    }

    /// The memory that is held for an answer, which is none any more.
    pub(crate) fn give_prepared(&mut self) -> Vec<u8> {
        self.ready.hold_memory(false);
        self.prepared.give()
    }

    /// Counts the request that was read last and is asked with this number, and its keys. A `get`
    /// is lent a spare buffer for its hits, or the memory that was prepared.
    pub(crate) fn asked(&mut self, request: &mut Request, number: u64)
        ensures { request.new ≡ request.old }
    {
        let keys = key_count(request);
        if keys == 0 {
            self.load.asked(number, 0, 0);
            return;
        }
        self.load.asked(number, keys, self.likely);
        let mut hits = Vec::new(self.alloc);
        if self.ready.holds_memory && self.needed > 0 {
            hits = self.give_prepared();
        }
        self.spares.lend(Use::Hits, &mut hits);
        let _ = request.lend_buffer(hits);
    }

    /// Uncounts so many keys of a request that was settled with so many bytes of output, and keeps
    /// the memory of its hits for a `get`, or that of its value.
    pub(crate) fn settled(&mut self, answered: Answered, keys: usize, length: usize) {
        let Answered {
            number,
            request,
            reply,
            ..
        } = answered;
        self.load.settled(number, keys, length);
        if matches!(reply, Reply::TooLarge) {
            self.counts.refused_item();
        }
        if let Some(bytes) = reply.into_buffer() {
            self.spares.keep(Use::Hits, bytes);
        }
        if keys == 0 {
            self.keep_value(request);
        }
    }

    /// Counts the value that was to be stored, if there is one, and keeps the memory of a large one
    /// for input.
    fn keep_value(&mut self, request: Request) {
        if let Some(length) = stored_bytes(&request) {
            self.load.stored(length);
        }
        if let Some(bytes) = request.into_buffer() {
            if bytes.capacity() > ROOM_AT_ONCE {
                self.spares.keep(Use::LargeInput, bytes);
            } else if bytes.capacity() >= LARGE_MESSAGE {
                self.spares.keep(Use::Input, bytes);
            }
        }
    }
}
