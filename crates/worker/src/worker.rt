//! A worker that serves its port, by the steps that it takes.

ghost use Rattle.std.specs.Prelude.{◌≡◌, ◌⊎◌, ◌<◌, Some, None, IsSome, [], true, false, MatchOption};
ghost use Rattle.std.specs.Option.{option_and_then};
ghost use Rattle.session_book.specs.Session.{finished_by, HasReadAll};
ghost use Rattle.session_book.specs.Book.{session_of};
ghost use Rattle.worker_port.specs.Ports.{PortTrace, is_open};
ghost use Rattle.worker.specs.EndCauses.{piece_of};
ghost use Rattle.worker.specs.Starts.{IsPortAt, HasSentNothing};
ghost use Rattle.worker.specs.Workers.{end_of, once_flushed, Continues, TakesNone, TakesBack};
ghost use Rattle.worker.specs.Workers.{Closes, Shuts, Admits, Refuses, SameRest, HandlesData};

use crate::executor::{Executor, Posting};
use crate::gate::Gate;
use crate::retries::Retries;
use crate::session_list::SessionList;
use bytes::Bytes;
use exchange::{Answered, GroupSignals, WorkerEnd, WorkerLane};
use proto::{Dialect, Posted, Request};
use session_book::{Book, EndCause, OUTPUT_BUDGET, Received, Settled, Task, Unasked};
use std::alloc::Global;
use std::marker::Model;
use worker_port::{CloseReason, Gone, Port, PortEvent};

/// The requests from which on a posting is large.
const LARGE_REQUESTS: u64 = 32;

/// What asking a session brought.
#[derive(Clone, Copy)]
pub(crate) enum Asked {
    /// Its next request, which is held, and whether the session can be read further.
    Request { reads_on: bool },
    /// None: there is none for now, or it waits; or memory ran out, and the session was shut.
    Nothing,
}

/// When a session that was asked may be asked again.
#[derive(Clone, Copy)]
pub(crate) enum AskAgain {
    /// Now: there may be another request, and it can be put.
    Now,
    /// Once it stands in a queue of those to be asked, as it may do already.
    Later,
}

/// What a worker holds. While it takes a step, these parts needn't agree.
#[derive(Drop)]
pub(crate) struct WorkerState<P> {
    pub(crate) port: P,
    /// The worker's end of its lane.
    pub(crate) batch: WorkerLane,
    pub(crate) book: Book,
    /// A request that has its number and isn't in its slot yet.
    pub(crate) request: Option<Posted>,
    pub(crate) sessions: SessionList,
    pub(crate) unopened: u64,
    pub(crate) strangers: u64,
    /// The port has ended.
    pub(crate) ended: bool,
}

impl<P: Port> WorkerState<P> {
    /// Takes a session out of the book, and writes why it ended.
    fn close(&mut self, session: u64, cause: EndCause)
        ensures port { self.new.port ≡ self.old.port }
        ensures leads { P.leads_to self.old.port self.new.port }
        ensures closes { Closes self.old self.new session cause }
    {
        self.book.close(session);
        self.sessions.close(session, cause);
    }

    pub(crate) fn shut(&mut self, session: u64, cause: EndCause)
        requires { (trace : PortTrace) → P.told self.old.port ≡ Some trace
            → is_open session trace.events ≡ true }
        ensures shuts { Shuts P.told self.old self.new session cause }
        ensures leads { P.leads_to self.old.port self.new.port }
    {
        self.explain(session, cause);
        self.port.shut(session);
        self.close(session, cause);
    }

    /// Tells the port of a session that is closed for memory.
    fn explain(&self, session: u64, cause: EndCause) {
        match cause {
            EndCause::NoMemory => self.port.explain(session, CloseReason::Memory, b""),
            EndCause::Stalled => self.port.explain(session, CloseReason::Stalled, b""),
            EndCause::Drained
            | EndCause::EndOfInput
            | EndCause::Quit
            | EndCause::Fatal
            | EndCause::Gone => {}
        }
    }

    /// Tells the port of a session that was asked, and is to be closed for what it sent.
    fn explain_fault(&self, session: u64) {
        if let Some(fault) = self.book.fault(session) {
            let reason = CloseReason::Sent(fault.kind);
            self.port.explain(session, reason, fault.line.as_slice());
        }
    }

    /// Opens a session in the book, and writes its entry in the report; or shuts it, as there is no
    /// room for it.
    fn admit(&mut self, session: u64)
        requires { (trace : PortTrace) → P.told self.old.port ≡ Some trace
            → is_open session trace.events ≡ true }
        ensures leads { P.leads_to self.old.port self.new.port }
        ensures rest { SameRest self.old self.new }
        ensures admits { Admits P.told self.old self.new session ⊎ Refuses P.told self.old self.new session }
    {
        if self.book.open(session).is_err() {
            self.explain(session, EndCause::NoMemory);
            self.port.shut(session);
            self.unopened = self.unopened.saturating_add(1);
            return;
        }
        self.sessions.open(session);
    }

    /// Feeds a piece of input that came, or holds it until it fits, and then pauses its session.
    /// Input of a session that isn't open is dropped. At a port that tells, a session of which
    /// bytes are held is paused and has no data.
    fn receive(&mut self, session: u64, bytes: Bytes)
        requires open { (trace : PortTrace) → P.told self.old.port ≡ Some trace
            → is_open session trace.events ≡ true }
        requires resumed { (trace : PortTrace) → P.told self.old.port ≡ Some trace
            → piece_of self.old.book session ≡ [] }
        ensures receives { HandlesData P.told self.old session bytes self.new }
        ensures leads { P.leads_to self.old.port self.new.port }
        ensures drops { session_of self.old.book session ≡ None → self.new ≡ self.old }
    {
        match self.book.receive(session, bytes) {
            Received::Fed | Received::Unknown => {}
            Received::Held => self.port.pause(session),
            Received::Refused => self.shut(session, EndCause::NoMemory),
        }
    }

    /// The session's peer has gone. A session that isn't open keeps the cause that it has.
    fn lose(&mut self, session: u64)
        ensures port { self.new.port ≡ self.old.port }
        ensures leads { P.leads_to self.old.port self.new.port }
        ensures loses { IsSome (session_of self.old.book session) → Closes self.old self.new session EndCause.Gone }
        ensures drops { session_of self.old.book session ≡ None → self.new ≡ self.old }
    {
        if self.book.is_open(session) {
            self.close(session, EndCause::Gone);
        }
    }

    /// Sets the worker's gauges, for a `stats`.
    pub(crate) fn set_gauges(&self, storage: &GroupSignals) {
        if let Some(gauges) = storage.gauges(self.batch.worker()) {
            self.book.set_gauges(gauges);
            self.port.set_gauges(gauges);
        }
    }

    /// Leaves for storage what it needs for a request that is put now: a hint of its key, if others
    /// stand before it, or, for a `stats`, the gauges.
    fn prepare(&self, posted: &Posted, storage: &GroupSignals)
        requires { 0 < posted.now.number }
    {
        if matches!(posted.request, Request::Stats) {
            self.set_gauges(storage);
        }
        if !storage.has_hints() || self.batch.outstanding() == 0 {
            return;
        }
        if let Some(key) = posted.request.first_key() {
            storage.leave_hint(self.batch.worker(), posted.number - 1, key);
        }
    }

    /// What the worker says once it has posted. The port may have more events, or not. A posting of
    /// many requests is large; so is one for so many keys, or with answers so large, that the
    /// worker sends one request at a time. There is more to do if streams may have input, or the
    /// window has no room for requests.
    fn posting(&self, may_read_on: bool) -> Posting {
        let has_more = may_read_on || self.book.ready(Task::Ask) > 0;
        Posting {
            worker: self.batch.worker(),
            is_left: has_more
                && (self.batch.outstanding() >= LARGE_REQUESTS || self.book.is_crowded()),
        }
    }
}

/// A worker. Between steps all parts of its state agree with each other, and with the port's trace
/// if the port tells one.
#[derive(Drop)]
pub(crate) struct Worker<P: Port> {
    pub(crate) state: WorkerState<P>,
}

impl<P: Port> Model for Worker<P> {
    ghost use Rattle.worker.specs.declared.worker.WorkerState.{WorkerState};
    ghost use Rattle.worker.specs.Workers.{IsWorkerServing};

    ghost Value = { WorkerState P };

    ghost view = { λ w. w.state };

    ghost invariant = { λ w. IsWorkerServing P.told w.state };
}

impl<P: Port> Worker<P> {
    /// A worker whose end has sent nothing yet, over a port that has told nothing.
    pub(crate) fn new(
        alloc: Global,
        port: P,
        worker_end: WorkerEnd,
        dialect: Dialect,
        output_budget: Option<usize>,
    ) -> Worker<P>
        requires port { IsPortAt P.told dialect port worker_end }
        requires fresh { HasSentNothing worker_end }
        ensures port { result.port ≡ port }
        ensures end { end_of result ≡ worker_end }
        ensures dialect { result.book.dialect ≡ dialect }
    {
        let mut book = Book::new(alloc, worker_end.worker(), dialect);
        book.set_output_budget(output_budget.unwrap_or(OUTPUT_BUDGET));
        Worker {
            state: WorkerState {
                port,
                batch: worker_end.batched(),
                book,
                request: None,
                sessions: SessionList::new(),
                unopened: 0,
                strangers: 0,
                ended: false,
            },
        }
    }

    /// Whether the port may wait for an event: nothing is outstanding or held back, and no session
    /// has anything to do, or none before a client sends something or takes output.
    pub(crate) fn may_wait(&self, retries: &Retries) -> bool {
        self.state.request.is_none()
            && self.state.batch.outstanding() == 0
            && (self.state.book.is_idle()
                || (self.has_retried(retries) && self.state.book.waits_for_clients()))
    }

    /// Whether no output need be offered again before the port tells of room.
    fn has_retried(&self, retries: &Retries) -> bool {
        self.state.book.ready(Task::RetryWrite) == 0 || retries.are_done(self.state.port.rooms())
    }

    /// Takes one event of the port, for which it may wait or not, unless it has ended. None if
    /// there was none, and else how many bytes of input it brought.
    pub(crate) fn take_event(&mut self, may_wait: bool) -> Option<usize>
        ensures { Continues P.told P.leads_to self.old self.new }
    {
        if self.state.ended {
            return None;
        }
        let mut count = 0;
        match self.state.port.next(may_wait, &self.state.batch) {
            PortEvent::Opened(session) => self.state.admit(session),
            PortEvent::Data(session, bytes) => {
                count = bytes.len();
                self.state.receive(session, bytes);
            }
            PortEvent::EndOfInput(session) => {
                let finished = self.state.book.end_input(session);
                self.finish(session, finished);
            }
            PortEvent::Gone(session) => self.state.lose(session),
            PortEvent::Idle => return None,
            PortEvent::Ended => self.state.ended = true,
        }
        Some(count)
    }

    /// Feeds the next held piece that may fit by now, if it does. True if something was done.
    pub(crate) fn feed_next(&mut self) -> bool
        ensures { Continues P.told P.leads_to self.old self.new }
    {
        let Some(session) = self.state.book.next_ready(Task::Feed) else {
            return false;
        };
        match self.state.book.feed_held(session) {
            Ok(true) => {
                self.state.port.resume(session);
                true
            }
            Ok(false) => false,
            Err(_) => {
                self.state.shut(session, EndCause::NoMemory);
                true
            }
        }
    }

    /// Pauses the next session for whose large message there is no room. True if there was one.
    pub(crate) fn pause_next(&mut self) -> bool
        ensures { Continues P.told P.leads_to self.old self.new }
    {
        let Some(session) = self.state.book.next_to_pause() else {
            return false;
        };
        self.state.port.pause(session);
        true
    }

    /// Resumes the next session for whose large message there is room by now. True if there was
    /// one.
    pub(crate) fn resume_next(&mut self) -> bool
        ensures { Continues P.told P.leads_to self.old self.new }
    {
        let has_ended = self.state.ended;
        let Some(session) = self.state.book.next_to_resume(has_ended) else {
            return false;
        };
        self.state.port.resume(session);
        true
    }

    /// Reads up to the session's next request, which is held until it is put.
    fn ask(&mut self, session: u64) -> Asked
        requires { self.old.request ≡ None }
        ensures { Continues P.told P.leads_to self.old self.new }
    {
        match self.state.book.next_ask(session) {
            Ok(Some((request, number))) => {
                self.state.request = Some(Posted {
                    session,
                    number,
                    request,
                });
                Asked::Request {
                    reads_on: self.state.book.reads_on(),
                }
            }
            Ok(None) => {
                self.state.explain_fault(session);
                Asked::Nothing
            }
            // It stands in a queue of the book.
            Err(Unasked::Waits) => Asked::Nothing,
            Err(Unasked::NoMemory) => {
                self.state.shut(session, EndCause::NoMemory);
                Asked::Nothing
            }
        }
    }

    /// Whether no further request can be asked now: one is held, the window is full, or so much is
    /// unfinished that one request at a time goes on.
    pub(crate) fn is_busy(&self) -> bool
        ensures { result ≡ false → self.now.request ≡ None }
    {
        self.state.request.is_some()
            || self.state.book.is_full()
            || (self.state.batch.outstanding() > 0 && self.state.book.is_crowded())
    }

    /// Reads the session's next request and puts it, unless it waits. If there may be another one
    /// that can't be asked now, the session is put into the queue of those to be asked.
    pub(crate) fn ask_and_put<G: Gate>(
        &mut self,
        session: u64,
        gate: &G,
        storage: &GroupSignals,
    ) -> AskAgain
        requires { self.old.request ≡ None }
        ensures goes_on { Continues P.told P.leads_to self.old self.new }
        ensures now { result ≡ AskAgain.Now → self.new.request ≡ None }
    {
        let Asked::Request { reads_on } = self.ask(session) else {
            return AskAgain::Later;
        };
        self.put_held(gate, storage);
        if !reads_on {
            return AskAgain::Later;
        }
        if self.is_busy() {
            self.state.book.ask_later(session);
            return AskAgain::Later;
        }
        AskAgain::Now
    }

    /// Puts the held request into its slot, if the gate lets it and there is room. True if
    /// something was done. The next flush tells storage of it.
    pub(crate) fn put_held<G: Gate>(&mut self, gate: &G, storage: &GroupSignals) -> bool
        ensures goes_on { Continues P.told P.leads_to self.old self.new }
        ensures put { result ≡ true → self.new.request ≡ None }
    {
        let Some(held) = self.state.request.take() else {
            return false;
        };
        if !gate.may_post(self.state.batch.worker(), held.number) {
            self.state.request = Some(held);
            return false;
        }
        self.state.prepare(&held, storage);
        match self.state.batch.put(held) {
            Ok(()) => true,
            Err(held) => {
                self.state.request = Some(held);
                false
            }
        }
    }

    /// Tells storage of all that was put, and has it executed. The port may have more events, or
    /// not.
    pub(crate) fn flush<E: Executor>(&mut self, executor: &E, may_read_on: bool)
        ensures { Continues P.told P.leads_to self.old self.new }
    {
        if self.state.batch.flush() {
            executor.posted(self.state.posting(may_read_on));
        }
    }

    /// Takes the next answer and settles it. True if there was one.
    pub(crate) fn settle_next<G: Gate>(&mut self, gate: &G) -> bool
        ensures { Continues P.told P.leads_to self.old self.new }
    {
        let Some(answered) = take_answer(&mut self.state.batch) else {
            return false;
        };
        let session = answered.session;
        gate.answered(answered.worker, answered.number);
        match self.state.book.settle(answered) {
            Settled::Kept => {}
            Settled::Dropped => {}
            Settled::Starved => self.state.shut(session, EndCause::NoMemory),
            Settled::Stranger => self.state.strangers = self.state.strangers.saturating_add(1),
        }
        true
    }

    /// Offers in one call the output of the next session that is to be taken up for the task, if it
    /// is worth it, and shuts the session if it has finished. It gives how many bytes were
    /// accepted, and None if nothing was done.
    pub(crate) fn give_next(&mut self, task: Task) -> Option<usize>
        ensures { Continues P.told P.leads_to self.old self.new }
    {
        let Some(session) = self.state.book.next_ready(task) else {
            return None;
        };
        let offer = self.state.book.offer(session);
        if offer.out.is_empty() {
            let finished = offer.finished;
            return self.finish(session, finished).then_some(0);
        }
        let history = self.state.batch.told();
        match self.state.port.give(session, offer.out, history) {
            Ok(accepted) => {
                let finished = self.state.book.gave(session, accepted);
                let is_shut = self.finish(session, finished);
                (is_shut | (accepted > 0)).then_some(accepted)
            }
            Err(Gone) => {
                self.state.close(session, EndCause::Gone);
                Some(0)
            }
        }
    }

    /// Shuts a session that has ended itself, or whose input has, once all was answered and given.
    /// True if something was done.
    fn finish(&mut self, session: u64, finished: Option<EndCause>) -> bool
        requires finished { finished ≡ option_and_then finished_by (session_of self.old.book session) }
        requires read { HasReadAll (session_of self.old.book session) finished }
        ensures { Continues P.told P.leads_to self.old self.new }
    {
        let Some(cause) = finished else {
            return false;
        };
        self.state.shut(session, cause);
        true
    }
}

/// The next answer: one that was seen before, or else one that is found by a look. In this contract
/// requests that were put count as sent.
fn take_answer(batch: &mut WorkerLane) -> Option<Answered>
    ensures { MatchOption result (TakesNone (once_flushed batch.old) (once_flushed batch.new))
        (λ a. TakesBack (once_flushed batch.old) (once_flushed batch.new) a) }
{
    match batch.take_seen() {
        Some(answered) => Some(answered),
        None => batch.take(),
    }
}
