//! One session: reading its messages and answering them in their order.

ghost use Rattle.std.specs.Prelude.{◌≡◌, ◌≤◌, ◌<◌, ◌↔◌, ◌⊎◌, ◌∷◌, ◌++◌, [], length, true, false, None, Some, Ok};
ghost use Rattle.std.specs.Prelude.{IsOk, OnOk, OnErr};
ghost use Rattle.std.specs.VecDeque.{deque_len, deque_capacity};
ghost use Rattle.proto.specs.declared.message.Request.{Request};
ghost use Rattle.std.specs.Bool.{OnTrue, OnFalse};
ghost use Rattle.proto.specs.Answers.{said};
ghost use Rattle.session_book.specs.Session.{begins_asked, messages_left, ended_by};
ghost use Rattle.session_book.specs.declared.load.TheConstants.{SMALL_ANSWER};
ghost use Rattle.session_book.specs.declared.input.TheConstants.{MAX_SMALL_MESSAGE};
ghost use Rattle.proto.specs.Reading.{asks};

use crate::buffer::{Buffer, Use};
use crate::causes::{EndCause, Received, Unasked, Unsettled};
use crate::fault_line::FaultLine;
use crate::input::{Found, Input};
use crate::load::{KeyBytes, SMALL_ANSWER};
use crate::ready_queues::{ReadyQueues, Task, Tickets};
use crate::rooms::Room;
use crate::upkeep::{Upkeep, Waiting};
use bytes::Bytes;
use proto::{Dialect, Message, NoMemory, PendingAnswer, Reply, Request};
use std::alloc::Global;
use std::collections::VecDeque;
use std::marker::Model;
use std::mem;

/// Bytes of waiting output above which a session isn't read.
pub const MAX_WAITING: usize = 1_048_576;

/// The bytes of output that are given though more will stand after them.
const WORTH_GIVING: usize = 16_384;

/// A held piece is fed once this much of the input is free, so that the port reads at least as much
/// before the next pause. A session that waits for the rest of a message has this room.
const WORTH_FEEDING: usize = 65_536;

/// What is to be done with a session's output now.
#[derive(Clone, Copy)]
pub struct Offer<'a> {
    /// The output, empty if it is none or if more is about to stand after it.
    pub out: &'a [u8],
    /// Why it has ended, once all before that was answered and given.
    pub finished: Option<EndCause>,
}

/// The state of a session from its first input on, with its tickets of the book's ready queues.
/// Contracts see it as a `SessionState`, without the tickets.
#[derive(Drop)]
pub struct Session {
    alloc: Global,
    input: Input,
    queue: VecDeque<PendingAnswer>,
    output: Buffer,
    ended: Option<EndCause>,
    held: Option<Bytes>,
    /// No more input comes.
    input_ended: bool,
    tickets: Tickets,
    /// What keys took in the last answer.
    key_bytes: KeyBytes,
    /// What the `get` waits for that was read and isn't asked yet.
    waiting: Option<Waiting>,
    /// The second at which its client took nothing, if it took nothing since.
    refused_at: Option<u64>,
    /// What is reserved for the large message that it sends.
    room: Room,
    /// The second at which input came last, or from which on it may come.
    received_at: u64,
}

impl Model for Session {
    ghost use Rattle.std.specs.Prelude.{◌≡◌, true, [], unwrap_or};
    ghost use Rattle.session_book.specs.Session.{SessionState, begins_asked};

    ghost Value = { SessionState };

    ghost view = { λ a. record {
      dialect = a.input.dialect;
      unread = a.input.unread;
      queue = a.queue.items;
      out = a.output;
      ended = a.ended;
      need = a.input.need;
      held = unwrap_or a.held [];
      input_ended = a.input_ended;
    } };

    ghost invariant = { λ a. begins_asked a.queue.items ≡ true };
}

impl Session {
    ghost use Rattle.session_book.specs.Session.{new_session, IsInputFull, once_fed, TakesPiece, FeedsHeld};
    ghost use Rattle.session_book.specs.Session.{TriesNext, ReadsAsk};
    ghost use Rattle.session_book.specs.Session.{with_reply, gave, finished_by, once_input_ended, HasReadAll, IsReady};
    ghost use Rattle.session_book.specs.Session.{IsEmptied, Stops};
    ghost use Rattle.session_book.specs.Book.{MayStall};

    pub fn new(alloc: Global, dialect: Dialect) -> Self
        ensures { result ≡ new_session dialect }
    {
        Session {
            alloc,
            input: Input::new(alloc, dialect),
            queue: VecDeque::new(alloc),
            output: Buffer::new(alloc),
            ended: None,
            held: None,
            input_ended: false,
            tickets: Tickets::none(),
            key_bytes: KeyBytes::default(),
            waiting: None,
            refused_at: None,
            room: Room::default(),
            received_at: 0,
        }
    }

    /// Feeds a piece that came, or holds it until it fits.
    pub fn receive(&mut self, session: u64, piece: Bytes, upkeep: &mut Upkeep) -> Received
        ensures { TakesPiece self.old piece result self.new }
    {
        upkeep.counts.received(piece.len());
        self.received_at = upkeep.seconds;
        if self.held.is_some() {
            return Received::Refused;
        }
        match self.feed(session, &piece, upkeep) {
            Ok(true) => Received::Fed,
            Ok(false) => {
                self.held = Some(piece);
                Received::Held
            }
            Err(NoMemory) => Received::Refused,
        }
    }

    /// Feeds the held piece, if it fits by now.
    pub fn feed_held(&mut self, session: u64, upkeep: &mut Upkeep) -> Result<bool, NoMemory>
        ensures { FeedsHeld self.old result self.new }
    {
        let Some(piece) = self.held.take() else {
            return Ok(false);
        };
        let fed = self.feed(session, &piece, upkeep);
        if !matches!(fed, Ok(true)) {
            self.held = Some(piece);
        } else if upkeep.ready.has(self.tickets.read) {
            upkeep.ready.pause_again(session);
        }
        fed
    }

    /// Puts a piece of input after the unread bytes, if it fits, to be asked from once there is
    /// enough. A session that has read Quit or a fatal message drops it.
    fn feed(&mut self, session: u64, piece: &[u8], upkeep: &mut Upkeep) -> Result<bool, NoMemory>
        ensures full { (result ≡ Ok false) ↔ IsInputFull self.old piece.now }
        ensures fed { result ≡ Ok true → self.new ≡ once_fed self.old piece.now }
        ensures not_fed { (result ≡ Ok true → ⊥) → self.new ≡ self.old }
    {
        if self.ended.is_none() {
            if !self.input.has_room_for(piece.len()) {
                return Ok(false);
            }
            self.input.append(piece, &mut upkeep.spares)?;
            upkeep.counts.fed(piece.len());
            if !self.input.has_enough() {
                return Ok(true);
            }
        }
        upkeep.ready.add(Task::Ask, session, &mut self.tickets.ask);
        Ok(true)
    }

    /// Reads the next message if the parser is to be called, and counts that call. The bytes are
    /// read in place, and a request is copied out of them once; one with a large block takes their
    /// memory. With a message, `unsettled` has room for a request. A `get` that waits is held, and
    /// stays unread; so does a message for which there is no memory.
    fn next_message(
        &mut self,
        unsettled: &mut VecDeque<Unsettled>,
        looks: &mut u64,
        upkeep: &mut Upkeep,
    ) -> Result<Option<Message>, Unasked>
        ensures tries { TriesNext self.old looks.old result self.new looks.new }
        ensures kept { unsettled.new.items ≡ unsettled.old.items }
        ensures room { (message : Message) → result ≡ Ok (Some message)
            → deque_len unsettled.new < deque_capacity unsettled.new }
    {
        if !self.is_ready() {
            return Ok(None);
        }
        unsettled.reserve(1)?;
        *looks = looks.saturating_add(1);
        self.queue.reserve(1)?;
        match self.input.next(self.alloc, &mut upkeep.spares)? {
            Found::Nothing => Ok(None),
            Found::Copied(message, length) => {
                self.waiting = upkeep.waiting(&message, self.key_bytes, self.waiting);
                if self.waiting.is_some() {
                    self.input.hold(self.alloc, message, length);
                    return Err(Unasked::Waits);
                }
                put_behind(&mut self.queue, &mut self.output, &message, upkeep)?;
                if let Message::Fatal(kind) = &message {
                    upkeep.fault = FaultLine::copied(self.alloc, *kind, &self.input);
                }
                self.input.take(length, &mut upkeep.spares);
                upkeep.counts.read(&message, length);
                upkeep.rooms.release(mem::take(&mut self.room));
                self.ended = cause_of(&message);
                Ok(Some(message))
            }
            Found::Taken(request, noreply, length) => {
                let message = Message::Ask(request, noreply);
                self.queue.push_back_reserved(PendingAnswer::of(&message));
                upkeep.counts.read(&message, length);
                upkeep.rooms.release(mem::take(&mut self.room));
                Ok(Some(message))
            }
        }
    }

    /// Reads messages up to and including the next request, and counts the calls of the parser. On
    /// Ok, `unsettled` has room for the request. On Err that message stays unread.
    pub fn next_ask(
        &mut self,
        unsettled: &mut VecDeque<Unsettled>,
        looks: &mut u64,
        upkeep: &mut Upkeep,
    ) -> Result<Option<Request>, Unasked>
        ensures reads { ReadsAsk self.old looks.old result self.new looks.new }
        ensures kept { unsettled.new.items ≡ unsettled.old.items }
        ensures room { (request : Request) → result ≡ Ok (Some request)
            → deque_len unsettled.new < deque_capacity unsettled.new }
    {
        // This read is for the proof: with it is known that the queue begins with a request.
        let _ = &self.alloc;
        upkeep.fault = None;
        while let Some(message) = self.next_message(unsettled, looks, upkeep)? {
            if let Message::Ask(request, _) = message {
                return Ok(Some(request));
            }
        }
        Ok(None)
    }

    /// After a read, queues the session for what it may need: a pause, feeding its held piece,
    /// sending output, ending, or asking once its `get` waits no more.
    pub fn join_queues(&mut self, session: u64, upkeep: &mut Upkeep)
        ensures { self.new ≡ self.old }
    {
        if self.input.large_need() > 0 {
            self.reserve_room(session, upkeep);
        }
        let ready = &mut upkeep.ready;
        if self.held.is_some() && self.has_room() && !ready.has(self.tickets.read) {
            ready.add(Task::Feed, session, &mut self.tickets.feed);
        }
        if self.output.len() > 0 || self.ended.is_some() || self.input_ended {
            ready.add(Task::Give, session, &mut self.tickets.give);
        }
        if let Some(waiting) = self.waiting {
            ready.add(waiting.task, session, &mut self.tickets.ask);
        }
        upkeep.reads_on = self.is_ready();
        upkeep.asked = session;
    }

    /// Reserves room for a large message before it comes. If there is none, or others wait for
    /// some, the session is to be paused.
    fn reserve_room(&mut self, session: u64, upkeep: &mut Upkeep)
        ensures { self.new ≡ self.old }
    {
        if self.room.is_reserved() || upkeep.ready.has(self.tickets.read) {
            return;
        }
        if upkeep.ready.none_waits_to_read() {
            if let Some(room) = upkeep.rooms.reserve(self.input.large_need()) {
                self.room = room;
                return;
            }
        }
        upkeep
            .ready
            .add(Task::Pause, session, &mut self.tickets.read);
    }

    /// It is paused, until there is room for its large message.
    pub fn wait_to_read(&mut self, session: u64, ready: &mut ReadyQueues)
        ensures { self.new ≡ self.old }
    {
        ready.add(Task::ReadOn, session, &mut self.tickets.read);
    }

    /// Reserves room for the large message that it waits to read, and takes it out of the queue;
    /// that too where the port has ended. True if it is to be resumed: one whose piece is held is
    /// fed that before.
    pub fn read_on(&mut self, session: u64, has_ended: bool, upkeep: &mut Upkeep) -> bool
        ensures same { self.new ≡ self.old }
        ensures none_held { OnTrue result (self.old.held ≡ []) }
    {
        match upkeep.rooms.reserve(self.input.large_need()) {
            Some(room) => self.room = room,
            None if has_ended => {}
            None => return false,
        }
        upkeep.ready.take(Task::ReadOn);
        self.received_at = upkeep.seconds;
        if self.held.is_some() {
            upkeep
                .ready
                .add(Task::Feed, session, &mut self.tickets.feed);
            return false;
        }
        true
    }

    /// Whether the parser is to be called.
    fn is_ready(&self) -> bool
        ensures ready { OnTrue result (IsReady self.now) }
        ensures stops { OnFalse result (Stops self.now) }
    {
        self.input.has_enough() && self.ended.is_none() && self.output.len() <= MAX_WAITING
    }

    /// Whether it is worth feeding. A session that has ended drops what it is fed.
    fn has_room(&self) -> bool {
        self.ended.is_some() || self.input.has_room_for(WORTH_FEEDING)
    }

    /// Gives the first request of the queue, for so many keys, its reply. It answers how many bytes
    /// of output that made. If there is no memory for them the session is of no further use.
    pub fn settle(
        &mut self,
        session: u64,
        keys: usize,
        reply: &mut Reply,
        upkeep: &mut Upkeep,
    ) -> Result<usize, NoMemory>
        requires { 0 < length (asks self.old.queue) }
        ensures ok { OnOk result (self.new ≡ with_reply self.old reply.old) }
        ensures silent { said self.old.queue (reply.old ∷ []) ≡ [] → IsOk result }
    {
        let before = upkeep.load.output;
        match answer_first(&mut self.queue, reply, &mut self.output, upkeep) {
            Ok(()) => {
                upkeep
                    .ready
                    .add(Task::Give, session, &mut self.tickets.give);
                let length = upkeep.load.output.saturating_sub(before);
                self.key_bytes.took(keys, length);
                Ok(length)
            }
            Err(NoMemory) => {
                self.queue.clear();
                Err(NoMemory)
            }
        }
    }

    /// The output that is to be given now, and whether the session has finished. Little output
    /// waits for the answers that are outstanding, and for the input that is left to be read.
    pub fn offer(&self, ready: &ReadyQueues) -> Offer<'_>
        ensures out { (result.out.now ≡ []) ⊎ (result.out.now ≡ self.now.out) }
        ensures finished { result.finished ≡ finished_by self.now }
        ensures read { HasReadAll (Some self.now) result.finished }
    {
        let out = self.output.as_slice();
        if out.is_empty() {
            return Offer {
                out,
                finished: self.finished(),
            };
        }
        let waits = !self.queue.is_empty() || ready.is_to_ask(self.tickets.ask);
        Offer {
            out: if waits && out.len() < WORTH_GIVING {
                &[]
            } else {
                out
            },
            finished: None,
        }
    }

    /// `n` bytes of the output were given. It answers whether the session has finished by now. A
    /// session that had too much output is asked again.
    pub fn gave(&mut self, session: u64, n: usize, upkeep: &mut Upkeep) -> Option<EndCause>
        requires { n ≤ length self.old.out }
        ensures gave { self.new ≡ gave self.old n }
        ensures finished { result ≡ finished_by self.new }
        ensures read { HasReadAll (Some self.new) result }
    {
        let left = self.output.discard(n, Use::Output, &mut upkeep.spares);
        upkeep.load.output = upkeep.load.output.saturating_sub(n);
        upkeep.counts.gave(n);
        if n > 0 && left.saturating_add(n) > MAX_WAITING {
            upkeep.ready.add(Task::Ask, session, &mut self.tickets.ask);
        }
        if n == 0 {
            self.output.trim(WORTH_GIVING);
            upkeep
                .ready
                .add(Task::RetryWrite, session, &mut self.tickets.give);
            self.refused_at = self.refused_at.or(Some(upkeep.seconds));
        } else {
            self.refused_at = None;
            if left > 0 {
                upkeep
                    .ready
                    .add(Task::Give, session, &mut self.tickets.give);
            }
        }
        self.finished()
    }

    /// Why the session has ended, once all before that was answered and given.
    pub fn finished(&self) -> Option<EndCause>
        ensures finished { result ≡ finished_by self.now }
        ensures read { HasReadAll (Some self.now) result }
    {
        if !self.queue.is_empty() || self.output.len() > 0 {
            return None;
        }
        if self.ended.is_some() {
            return self.ended;
        }
        if self.input_ended && self.held().is_empty() && !self.input.has_enough() {
            return Some(EndCause::EndOfInput);
        }
        None
    }

    /// What is left of its input and its output counts no more: the session is closed.
    pub fn forget(&self, upkeep: &mut Upkeep) {
        upkeep.counts.forget(self.input.len());
        upkeep.rooms.release(self.room);
        upkeep.load.output = upkeep.load.output.saturating_sub(self.output.len());
    }

    /// No more input comes.
    pub fn end_input(&mut self)
        ensures { self.new ≡ once_input_ended self.old }
    {
        self.input_ended = true;
    }

    pub fn ask_later(&mut self, session: u64, ready: &mut ReadyQueues)
        ensures { self.new ≡ self.old }
    {
        ready.add(Task::Ask, session, &mut self.tickets.ask);
    }

    /// The bytes that the answer to the `get` is likely to take that waits, if one does.
    pub fn likely_bytes(&self) -> usize {
        self.waiting.map_or(0, |waiting| waiting.likely as usize)
    }

    /// The bytes of memory that are to be taken before the `get` is asked that waits, if one does.
    pub fn needed(&self) -> usize {
        self.waiting.map_or(0, |waiting| waiting.needed as usize)
    }

    /// Whether one waits that needs some, and waits for no room.
    pub fn waits_for_prepared(&self) -> bool {
        match self.waiting {
            Some(waiting) => matches!(waiting.task, Task::AskLarge) && waiting.needed > 0,
            None => false,
        }
    }

    /// The bytes of the large message for which it waits to be read on, if it does; else 0.
    pub fn large_need(&self) -> usize {
        self.input.large_need()
    }

    /// Whether its client has stopped for some seconds while it holds memory that others wait for:
    /// room for output, or for input.
    pub fn is_stalled(&self, for_output: bool, for_input: bool, upkeep: &Upkeep) -> bool
        ensures { OnTrue result (MayStall self.now) }
    {
        let holds_input = for_input && self.room.is_reserved();
        if (for_output || holds_input) && self.is_unread(upkeep) {
            return true;
        }
        holds_input && self.is_unsent(upkeep)
    }

    /// Whether more output waits than a small answer has, of which its client took nothing for some
    /// seconds.
    fn is_unread(&self, upkeep: &Upkeep) -> bool
        ensures { OnTrue result (SMALL_ANSWER < length self.now.out) }
    {
        self.output.len() > SMALL_ANSWER
            && self
                .refused_at
                .is_some_and(|second| upkeep.has_stopped_since(second))
    }

    /// Whether it began a large message, of which its client sent nothing for some seconds.
    fn is_unsent(&self, upkeep: &Upkeep) -> bool
        ensures { OnTrue result (MAX_SMALL_MESSAGE < self.now.need) }
    {
        self.input.large_need() > 0
            && !self.input.has_enough()
            && upkeep.has_stopped_since(self.received_at)
    }

    pub fn held(&self) -> &[u8]
        ensures { result.now ≡ self.now.held }
    {
        match &self.held {
            Some(piece) => piece,
            None => &[],
        }
    }

    pub fn out(&self) -> &[u8]
        ensures { result.now ≡ self.now.out }
    {
        self.output.as_slice()
    }

    /// Whether nothing is left to be read and to be given.
    pub fn is_emptied(&self) -> bool
        ensures emptied { OnTrue result (IsEmptied self.now) }
        ensures left { OnFalse result (¬ (IsEmptied self.now)) }
    {
        self.out().is_empty()
            && self.held().is_empty()
            && self.finished().is_none()
            && !self.is_ready()
    }
}

/// How a message ends its session.
fn cause_of(message: &Message) -> Option<EndCause>
    ensures { result ≡ ended_by None (message.now ∷ []) }
{
    match message {
        Message::Ask(..) | Message::Local(_) => None,
        Message::Quit => Some(EndCause::Quit),
        Message::Fatal(_) => Some(EndCause::Fatal),
    }
}

/// Puts a message after the queue, or answers it at once if nothing is before it.
fn put_behind(
    queue: &mut VecDeque<PendingAnswer>,
    out: &mut Buffer,
    message: &Message,
    upkeep: &mut Upkeep,
) -> Result<(), NoMemory>
    requires { begins_asked queue.old.items ≡ true }
    ensures queue { OnOk result (queue.new.items ≡ messages_left (queue.old.items ++ message.now ∷ []) []) }
    ensures out { OnOk result (out.new ≡ out.old ++ said (queue.old.items ++ message.now ∷ []) []) }
    ensures err_queue { OnErr result (queue.new.items ≡ queue.old.items) }
    ensures err_out { OnErr result (out.new ≡ out.old) }
{
    let pending = PendingAnswer::of(message);
    if queue.is_empty() && !pending.is_ask() {
        return out.show(&pending, None, upkeep);
    }
    queue.push_back(pending)?;
    Ok(())
}

/// Answers the first request of the queue, and the messages up to the next one.
fn answer_first(
    queue: &mut VecDeque<PendingAnswer>,
    reply: &mut Reply,
    out: &mut Buffer,
    upkeep: &mut Upkeep,
) -> Result<(), NoMemory>
    requires first { 0 < length queue.old.items }
    requires asked { begins_asked queue.old.items ≡ true }
    ensures queue { OnOk result (queue.new.items ≡ messages_left queue.old.items (reply.old ∷ [])) }
    ensures out { OnOk result (out.new ≡ out.old ++ said queue.old.items (reply.old ∷ [])) }
    ensures silent { said queue.old.items (reply.old ∷ []) ≡ [] → IsOk result }
{
    let Some(pending) = queue.pop_front() else {
        unreachable!()
    };
    out.show(&pending, Some(reply), upkeep)?;
    answer_up_to_ask(queue, out, upkeep)
}

/// Answers the messages of the queue up to its first request.
fn answer_up_to_ask(
    queue: &mut VecDeque<PendingAnswer>,
    out: &mut Buffer,
    upkeep: &mut Upkeep,
) -> Result<(), NoMemory>
    ensures queue { OnOk result (queue.new.items ≡ messages_left queue.old.items []) }
    ensures out { OnOk result (out.new ≡ out.old ++ said queue.old.items []) }
    ensures silent { said queue.old.items [] ≡ [] → IsOk result }
{
    while let Some(pending) = queue.front() {
        if pending.is_ask() {
            break;
        }
        out.show(pending, None, upkeep)?;
        queue.pop_front();
    }
    Ok(())
}
