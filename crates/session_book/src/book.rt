//! The sessions of one worker: reading what they were fed, and answering in the order of their
//! messages.

ghost use Rattle.std.specs.Prelude.{ℕ, ◌≡◌, ◌⊎◌, ◌+◌, ◌≤◌, ◌<◌, ◌↔◌, [], length, is_some, option_map};
ghost use Rattle.std.specs.Prelude.{slice_get};
ghost use Rattle.std.specs.Prelude.{IfSome, OnOk, OnErr, IsSome};
ghost use Rattle.session_book.specs.Session.{SessionState, IsEmptied, new_session, gave, finished_by, once_input_ended};
ghost use Rattle.session_book.specs.Session.{HasReadAll};
ghost use Rattle.std.specs.Bool.{OnTrue, OnFalse, nat_eq};
ghost use Rattle.std.specs.Option.{option_and_then};
ghost use Rattle.proto.specs.declared.limits.TheConstants.{WINDOW};
ghost use Rattle.indexmap.specs.IndexMap.{index_map_len};
ghost use Rattle.std.specs.Map.{lookup};
ghost use Rattle.session_book.specs.BookInside.{ChangesAt};

use crate::causes::{EndCause, OpenFault, Received, Settled, Unasked, Unsettled};
use crate::fault_line::FaultLine;
use crate::ready_queues::Task;
use crate::session::{MAX_WAITING, Offer, Session};
use crate::upkeep::{Tick, Upkeep, key_count};
use bytes::Bytes;
use indexmap::IndexMap;
use proto::{Answered, Dialect, Gauge, Gauges, MAX_POSTS, NoMemory, Request, WINDOW};
use std::alloc::Global;
use std::collections::VecDeque;
use std::marker::Model;

/// The most bytes that are reserved for one hit, unless larger items than an eighth of a segment
/// are asked for: an item takes 131,072 at most, of which 24 are neither key nor value, and 80 go
/// to the words and numbers beside them.
pub const MAX_HIT: usize = 131_128;

/// The same for items that may fill a segment.
pub const MAX_LARGE_HIT: usize = 1_048_632;

/// The sessions of a worker. Contracts see it as a `BookState`.
///
/// It keeps which sessions have something to do, in eight ready queues. Calls put a session into
/// one, and its owner takes it out and does it; no clause says that a session stands in one.
#[derive(Drop)]
pub struct Book {
    alloc: Global,
    worker: usize,
    dialect: Dialect,
    sessions: IndexMap<u64, Session>,
    numbered: u64,
    unsettled: VecDeque<Unsettled>,
    greatest: u64,
    opened: u64,
    looks: u64,
    upkeep: Upkeep,
}

impl Model for Book {
    ghost use Rattle.session_book.specs.Book.{BookState};
    ghost use Rattle.session_book.specs.BookInside.{state_of, IsBookKept};

    ghost Value = { BookState };

    ghost view = { state_of };

    ghost invariant = { IsBookKept };
}

impl Book {
    ghost use Rattle.session_book.specs.Book.{session_of, out_of, ChangesSession, Receives, FeedsHeldOf};
    ghost use Rattle.session_book.specs.Book.{OnlyAt, IsKnown, NextAsk, Settles, IsUnemptied, IsStalled};
    ghost use Rattle.session_book.specs.Book.{MayResume};

    /// No session is open yet. The worker's number is kept for its owner.
    pub fn new(alloc: Global, worker: usize, dialect: Dialect) -> Self
        ensures { result ≡ record {
          worker = worker;
          dialect = dialect;
          sessions = [];
          numbered = 0;
          unsettled = [];
          greatest = 0;
          opened = 0;
          looks = 0;
        } }
    {
        Book {
            alloc,
            worker,
            dialect,
            sessions: IndexMap::new(alloc),
            numbered: 0,
            unsettled: VecDeque::new(alloc),
            greatest: 0,
            opened: 0,
            looks: 0,
            upkeep: Upkeep::new(alloc, dialect),
        }
    }

    /// A `get` waits from now on whose answer is likely to bring output and the answers on their
    /// way above so many bytes, in place of 67,108,864.
    pub fn set_output_budget(&mut self, bytes: usize)
        ensures { self.new ≡ self.old }
    {
        self.upkeep.load.output_budget = bytes;
    }

    /// Opens a session. Numbers are above 0 and rise.
    pub fn open(&mut self, session: u64) -> Result<(), OpenFault>
        ensures known { (result ≡ Err OpenFault.Known) ↔ IsKnown self.old session }
        ensures ok { OnOk result (OnlyAt self.old self.new session (Some (new_session self.old.dialect))) }
        ensures rest { OnOk result (self.new
            ≡ record self.old { sessions = self.new.sessions; greatest = session; opened = self.old.opened + 1 }) }
        ensures err { OnErr result (self.new ≡ self.old) }
    {
        if session <= self.greatest || self.opened >= self.dialect.most_sessions() {
            return Err(OpenFault::Known);
        }
        if self.upkeep.ready.reserve(self.sessions.len() + 1).is_err() {
            return Err(OpenFault::NoMemory);
        }
        let new = Session::new(self.alloc, self.dialect);
        let Ok(replaced) = self.sessions.insert(session, new) else {
            return Err(OpenFault::NoMemory);
        };
        // (there is none, as numbers rise)
        drop(replaced);
        self.greatest = session;
        self.opened += 1;
        Ok(())
    }

    /// Puts a piece of input after the unread bytes, or holds it until it fits. A session that has
    /// read Quit or a fatal message drops it.
    pub fn receive(&mut self, session: u64, piece: Bytes) -> Received
        ensures { Receives self.old session piece result self.new }
    {
        let Some(place) = find(&self.sessions, session, &mut self.upkeep.ready.place) else {
            return Received::Unknown;
        };
        let (_, open) = self.sessions.pair_mut(place);
        open.receive(session, piece, &mut self.upkeep)
    }

    /// Feeds the held piece of a session, if it fits by now.
    pub fn feed_held(&mut self, session: u64) -> Result<bool, NoMemory>
        ensures { FeedsHeldOf self.old session result self.new }
    {
        let Some(place) = find(&self.sessions, session, &mut self.upkeep.ready.place) else {
            return Ok(false);
        };
        let (_, open) = self.sessions.pair_mut(place);
        open.feed_held(session, &mut self.upkeep)
    }

    /// Whether the window is full: no request is given before an answer was settled.
    pub fn is_full(&self) -> bool
        ensures full { OnTrue result (WINDOW ≤ length self.now.unsettled) }
        ensures room { OnFalse result (length self.now.unsettled < WINDOW) }
    {
        self.unsettled.len() as u64 >= WINDOW
    }

    /// The next request of a session with its number, which the caller posts. Messages that the
    /// book answers itself are answered in their order; nothing is read while the window is full or
    /// all numbers were given. On Err the messages before that one stay read; a session whose `get`
    /// waits is asked again once it needn't wait. A `get` is lent a spare buffer for its hits.
    pub fn next_ask(&mut self, session: u64) -> Result<Option<(Request, u64)>, Unasked>
        ensures closed { session_of self.old session ≡ None → (result ≡ Ok None) × (self.new ≡ self.old) }
        ensures open { (s : SessionState) → session_of self.old session ≡ Some s
            → NextAsk self.old session s result self.new }
    {
        if self.is_full() || self.numbered >= MAX_POSTS {
            return Ok(None);
        }
        let Some(place) = find(&self.sessions, session, &mut self.upkeep.ready.place) else {
            return Ok(None);
        };
        let (_, open) = self.sessions.pair_mut(place);
        let read = open.next_ask(&mut self.unsettled, &mut self.looks, &mut self.upkeep);
        open.join_queues(session, &mut self.upkeep);
        let Some(mut request) = read? else {
            return Ok(None);
        };
        self.numbered += 1;
        let number = self.numbered;
        self.upkeep.asked(&mut request, number);
        self.unsettled
            .push_back_reserved(Unsettled { number, session });
        Ok(Some((request, number)))
    }

    /// Puts the answer to the oldest unsettled request after the output of its session, and after
    /// it the answers that waited for it. The memory of its hits is kept for another request.
    pub fn settle(&mut self, mut answered: Answered) -> Settled
        ensures { Settles self.old answered result self.new }
    {
        let session = answered.session;
        let asked = Unsettled {
            number: answered.number,
            session,
        };
        if self.unsettled.front() != Some(&asked) {
            return Settled::Stranger;
        }
        self.unsettled.pop_front();
        let keys = key_count(&answered.request);
        let Some(place) = find(&self.sessions, session, &mut self.upkeep.ready.place) else {
            self.upkeep.settled(answered, keys, 0);
            return Settled::Dropped;
        };
        let (_, open) = self.sessions.pair_mut(place);
        let kept = open.settle(session, keys, &mut answered.reply, &mut self.upkeep);
        self.upkeep.settled(answered, keys, kept.unwrap_or(0));
        match kept {
            Ok(_) => Settled::Kept,
            Err(NoMemory) => {
                remove(&mut self.sessions, session, &mut self.upkeep);
                Settled::Starved
            }
        }
    }

    pub fn is_open(&self, session: u64) -> bool
        ensures { result ≡ is_some (session_of self.now session) }
    {
        self.sessions.contains_key(&session)
    }

    /// The output of a session that is to be given now, and whether the session has finished.
    pub fn offer(&self, session: u64) -> Offer<'_>
        ensures out { (result.out.now ≡ []) ⊎ (result.out.now ≡ out_of (session_of self.now session)) }
        ensures finished { result.finished ≡ option_and_then finished_by (session_of self.now session) }
        ensures read { HasReadAll (session_of self.now session) result.finished }
    {
        let mut place = self.upkeep.ready.place;
        if let Some(place) = find(&self.sessions, session, &mut place) {
            if let Some((_, open)) = self.sessions.get_index(place) {
                return open.offer(&self.upkeep.ready);
            }
        }
        Offer {
            out: &[],
            finished: None,
        }
    }

    /// No more input of the session comes. It answers whether the session has finished with that.
    pub fn end_input(&mut self, session: u64) -> Option<EndCause>
        ensures input_ended { ChangesSession self.old self.new session
            (option_map once_input_ended (session_of self.old session)) }
        ensures finished { result ≡ option_and_then finished_by (session_of self.new session) }
        ensures read { HasReadAll (session_of self.new session) result }
    {
        let Some(open) = self.sessions.get_mut(&session) else {
            return None;
        };
        open.end_input();
        open.finished()
    }

    /// `n` bytes of the output were given. It answers whether the session has finished by now.
    pub fn gave(&mut self, session: u64, n: usize) -> Option<EndCause>
        requires { n ≤ length (out_of (session_of self.old session)) }
        ensures gave { ChangesSession self.old self.new session
            (option_map (λ s. gave s n) (session_of self.old session)) }
        ensures finished { result ≡ option_and_then finished_by (session_of self.new session) }
        ensures read { HasReadAll (session_of self.new session) result }
    {
        let place = find(&self.sessions, session, &mut self.upkeep.ready.place)?;
        let (_, open) = self.sessions.pair_mut(place);
        open.gave(session, n, &mut self.upkeep)
    }

    /// Drops a session with its input and output. The answers to its unsettled requests are dropped
    /// when they come.
    pub fn close(&mut self, session: u64)
        ensures { ChangesSession self.old self.new session None }
    {
        remove(&mut self.sessions, session, &mut self.upkeep);
    }

    /// An open session that has input or output left, or has finished, if there is one.
    pub fn find_unemptied(&self) -> Option<u64>
        ensures none { result ≡ None → (session : ℕ) (s : SessionState) → session_of self.now session ≡ Some s
            → IsEmptied s }
        ensures some { IfSome result (IsUnemptied self.now) }
    {
        for (session, open) in self.sessions.iter() {
            if !open.is_emptied() {
                return Some(*session);
            }
        }
        None
    }

    /// The session is asked again, after others: it yields.
    pub fn ask_later(&mut self, session: u64)
        ensures { self.new ≡ self.old }
    {
        if let Some(place) = find(&self.sessions, session, &mut self.upkeep.ready.place) {
            let (_, open) = self.sessions.pair_mut(place);
            open.ask_later(session, &mut self.upkeep.ready);
            self.upkeep.counts.yielded();
        }
    }

    /// Whether the first of the sessions that wait for room has room by now.
    fn has_room_for_first(&self) -> bool {
        let Some((session, mut place)) = self.upkeep.ready.first(Task::AskForRoom) else {
            return false;
        };
        let Some(place) = find(&self.sessions, session, &mut place) else {
            return true;
        };
        match self.sessions.get_index(place) {
            Some((_, open)) => self.upkeep.load.has_room_for(open.likely_bytes()),
            None => true,
        }
    }

    /// Whether no session waits for memory, or is to: not for room for its next answer, and not for
    /// its large message.
    pub fn has_memory_for_all(&self) -> bool {
        self.upkeep.ready.none_waits_for_memory()
    }

    /// Whether a session waits for memory: for room for its next answer, or for its large message.
    pub fn waits_for_memory(&self) -> bool {
        self.waits_for_room() || self.waits_to_read()
    }

    /// Whether a session waits for room for its next answer, and has none.
    fn waits_for_room(&self) -> bool {
        self.upkeep.ready.count(Task::AskForRoom) > 0 && !self.has_room_for_first()
    }

    /// Whether nothing can be done before a client takes output or sends something.
    pub fn waits_for_clients(&self) -> bool {
        self.upkeep.ready.only_wait() && !self.has_room_for_first() && !self.may_read_on()
    }

    /// This has passed while a session waited for memory.
    pub fn count_tick(&mut self, tick: Tick)
        ensures { self.new ≡ self.old }
    {
        self.upkeep.count(tick);
    }

    /// A lenient session whose client has stopped for ten seconds, as they were counted, if it
    /// holds memory that others wait for: it took none of more than 16,384 bytes of output, or
    /// sent no more of a large message.
    pub fn find_stalled(&self) -> Option<u64>
        ensures { IfSome result (IsStalled self.now) }
    {
        if matches!(self.dialect, Dialect::Strict) {
            return None;
        }
        let for_output = self.waits_for_room();
        let for_input = self.waits_to_read() && !self.may_read_on();
        for (session, open) in self.sessions.iter() {
            if open.is_stalled(for_output, for_input, &self.upkeep) {
                return Some(*session);
            }
        }
        None
    }

    /// Whether a session is paused until there is room for its large message.
    fn waits_to_read(&self) -> bool {
        self.upkeep.ready.count(Task::ReadOn) > 0
    }

    /// Whether the first of them has room though no other message comes before: once it is known
    /// that the others come slowly.
    fn may_read_on(&self) -> bool {
        let Some((session, mut place)) = self.upkeep.ready.first(Task::ReadOn) else {
            return false;
        };
        let Some(place) = find(&self.sessions, session, &mut place) else {
            return true;
        };
        match self.sessions.get_index(place) {
            Some((_, open)) => self.upkeep.rooms.has_budget_for(open.large_need()),
            None => true,
        }
    }

    /// Takes out the next session that is to be paused. It waits for room for its large message.
    pub fn next_to_pause(&mut self) -> Option<u64>
        ensures same { self.new ≡ self.old }
        ensures open { IfSome result (λ n. IsSome (session_of self.old n)) }
    {
        let session = self.upkeep.ready.take(Task::Pause)?;
        let place = find(&self.sessions, session, &mut self.upkeep.ready.place)?;
        let (_, open) = self.sessions.pair_mut(place);
        open.wait_to_read(session, &mut self.upkeep.ready);
        Some(session)
    }

    /// Takes out the session that has waited longest for room for its large message, once there is
    /// some, and that too where the port has ended. It is to be resumed, unless a piece of it is
    /// held, which is fed before.
    pub fn next_to_resume(&mut self, has_ended: bool) -> Option<u64>
        ensures same { self.new ≡ self.old }
        ensures open { IfSome result (MayResume self.old) }
    {
        let (session, _) = self.upkeep.ready.first(Task::ReadOn)?;
        let Some(place) = find(&self.sessions, session, &mut self.upkeep.ready.place) else {
            self.upkeep.ready.take(Task::ReadOn);
            return None;
        };
        let (_, open) = self.sessions.pair_mut(place);
        if !open.read_on(session, has_ended, &mut self.upkeep) {
            return None;
        }
        Some(session)
    }

    /// Whether the session that was asked last can be read further.
    pub fn reads_on(&self) -> bool {
        self.upkeep.reads_on
    }

    /// The line of the fatal message that ended the session, if it was asked last and that was read
    /// then.
    pub fn fault(&self, session: u64) -> Option<&FaultLine> {
        if self.upkeep.asked != session {
            return None;
        }
        self.upkeep.fault.as_ref()
    }

    /// Takes out the next session that is to be asked. One whose `get` waits comes once it has room
    /// and no large answer is on its way, if no other is to be asked, or once as many others as a
    /// window has requests went before it. The memory of a very large answer is prepared before.
    pub fn next_to_ask(&mut self) -> Option<u64>
        ensures { self.new ≡ self.old }
    {
        let has_room = self.has_room_for_first();
        if !has_room && self.upkeep.ready.count(Task::AskLarge) == 0 {
            return self.upkeep.ready.take_next();
        }
        let (_, needed) = self.next_to_let_in(has_room);
        let is_prepared = self.upkeep.is_prepared(needed);
        self.upkeep
            .ready
            .take_to_ask(&self.upkeep.load, has_room, is_prepared)
    }

    /// The session whose `get` waits and comes next, and the bytes of memory that are to be taken
    /// for it before; 0 if none may come, or it is closed.
    fn next_to_let_in(&self, has_room: bool) -> (u64, usize) {
        let task = if has_room {
            Task::AskForRoom
        } else {
            Task::AskLarge
        };
        let Some((session, mut place)) = self.upkeep.ready.first(task) else {
            return (0, 0);
        };
        match find(&self.sessions, session, &mut place) {
            Some(place) => match self.sessions.get_index(place) {
                Some((_, open)) => (session, open.needed()),
                None => (session, 0),
            },
            None => (session, 0),
        }
    }

    /// Takes a part of the memory for a very large answer, if that is what comes next of what
    /// waits. What was taken for a session that waits no more, or for room, is freed. To be called
    /// in each turn in which a session has something to do. True if something was done.
    pub fn prepare_answer(&mut self) -> bool
        ensures { self.new ≡ self.old }
    {
        let has_room = self.has_room_for_first();
        let (session, needed) = self.next_to_let_in(has_room);
        if self.upkeep.prepare(session, needed) {
            return true;
        }
        let Some(session) = self.upkeep.prepared_for() else {
            return false;
        };
        if needed > 0 || self.waits_for_prepared(session) {
            return false;
        }
        drop(self.upkeep.give_prepared());
        true
    }

    /// Whether the `get` of this session waits for no room, and memory is to be taken before it is
    /// asked.
    fn waits_for_prepared(&self, session: u64) -> bool {
        match self.sessions.get(&session) {
            Some(open) => open.waits_for_prepared(),
            None => false,
        }
    }

    /// Takes out the next session that is to be taken up for the task.
    pub fn next_ready(&mut self, task: Task) -> Option<u64>
        ensures { self.new ≡ self.old }
    {
        self.upkeep.ready.take(task)
    }

    /// How many sessions are to be taken up for the task.
    pub fn ready(&self, task: Task) -> usize {
        self.upkeep.ready.count(task)
    }

    /// No session has anything to do.
    pub fn is_idle(&self) -> bool {
        self.upkeep.ready.members == 0
    }

    /// Whether more than 255 keys stand in unsettled requests, over all sessions, or these are
    /// likely to be answered with more than 1,048,576 bytes. Its owner then asks for one request at
    /// a time: so the hits of the unsettled ones take 41,943,040 bytes at most, or in the strict
    /// dialect 167,772,160.
    pub fn is_crowded(&self) -> bool {
        self.upkeep.load.is_crowded()
    }

    /// Whether little output waits, over all sessions: then a turn of its owner is short.
    pub fn has_little_output(&self) -> bool {
        self.upkeep.load.output <= MAX_WAITING
    }

    /// Sets the gauges of what it counted, and of how much is unfinished.
    pub fn set_gauges(&self, gauges: &Gauges) {
        gauges.set(&[
            (Gauge::CurrConnections, self.sessions.len() as u64),
            (Gauge::TotalConnections, self.opened),
            (Gauge::RequestsInFlight, self.unsettled.len() as u64),
            (Gauge::OutputBytes, self.upkeep.load.output as u64),
        ]);
        self.upkeep.counts.set_gauges(gauges);
    }
}

/// Calls for tests and measurements alone.
impl Book {
    ghost use Rattle.session_book.specs.Book.{session_of, out_of};

    /// The worker's number, which a worker asks its end for.
    pub fn worker(&self) -> usize
        ensures { result ≡ self.now.worker }
    {
        self.worker
    }

    /// The output of a session that wasn't given yet: a worker asks for an offer.
    pub fn out(&self, session: u64) -> &[u8]
        ensures { result.now ≡ out_of (session_of self.now session) }
    {
        match self.sessions.get(&session) {
            Some(state) => state.out(),
            None => &[],
        }
    }

    /// How often the parser was called. The count stays at the greatest number.
    pub fn looks(&self) -> u64
        ensures { result ≡ self.now.looks }
    {
        self.looks
    }
}

/// The place of a session in the table. One that doesn't stand at `place` is looked up, and `place`
/// is its place then: so one call after another finds the session where the last one did.
fn find(sessions: &IndexMap<u64, Session>, session: u64, place: &mut usize) -> Option<usize>
    ensures none { result ≡ None → lookup (nat_eq session) sessions.now.entries ≡ None }
    ensures some { IsSome result → IsSome (lookup (nat_eq session) sessions.now.entries) }
    ensures at { IfSome result (λ i. option_map (λ e. e.0) (slice_get sessions.now.entries i) ≡ Some session) }
    ensures within { IfSome result (λ i. i < index_map_len sessions.now) }
{
    if let Some((number, _)) = sessions.get_index(*place) {
        if *number == session {
            return Some(*place);
        }
    }
    let (found, _, _) = sessions.get_full(&session)?;
    *place = found;
    Some(found)
}

/// Closes a session, if it is open. What is left of its input and its output counts no more.
fn remove(sessions: &mut IndexMap<u64, Session>, session: u64, upkeep: &mut Upkeep)
    ensures { ChangesAt sessions.old.entries session None sessions.new.entries }
{
    if let Some(open) = sessions.swap_remove(&session) {
        open.forget(upkeep);
    }
}
