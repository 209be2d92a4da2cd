//! The loop of a worker.

ghost use Rattle.std.specs.Prelude.{◌≡◌, ◌<◌, true, None, is_some};
ghost use Rattle.worker.specs.Workers.{end_of, Continues, IsDrained};
ghost use Rattle.worker_port.specs.Ports.{PortTrace};
ghost use Rattle.worker_port.specs.Giving.{IsTraceOf};
ghost use Rattle.worker.specs.Reports.{IsReported, HasSaidBye};
ghost use Rattle.worker.specs.Starts.{IsPortAt, HasSentNothing};

use crate::executor::{Executor, Posting};
use crate::gate::Gate;
use crate::pauses::Pauses;
use crate::retries::{Retries, Ticks};
use crate::session_list::SessionList;
use crate::worker::{AskAgain, Worker, WorkerState};
use exchange::{GroupSignals, Waits, WorkerEnd};
use proto::{Dialect, Gauge, WINDOW};
use session_book::{EndCause, Task};
use std::alloc::Global;
use std::sync::Wait;
use std::time::Clock;
use worker_port::{MAX_PIECE, Port};

/// The most events that are taken in a turn. The worker tells storage of their requests together,
/// so it wakes it once.
const EVENTS_A_TURN: usize = 32;

/// The whole pieces of input after which no more events are taken in a turn, so that requests with
/// large values are executed while these are in the processor's cache.
const PIECES_A_TURN: usize = 4;

/// The events that are taken in a turn though a session can't be asked further, if turns are long,
/// as much output waits: so the others are heard too. In a short turn it is one event.
const EVENTS_WHILE_BUSY: usize = 8;

/// The most requests that a session is asked for in a row, while others wait to be asked and much
/// output waits. Else it is all that a window has, since the pipelines of fewer sessions are then
/// under way, and stay in the processor's cache.
const ASKS_IN_A_ROW: u64 = 8;

/// The bytes of output above which no further session is offered its own in a turn: so turns stay
/// short beside large answers.
const OUTPUT_A_TURN: usize = 1_048_576;

/// The most paused sessions that are resumed in a turn.
const RESUMED_A_TURN: usize = 4;

/// A worker that doesn't wait sets its gauges for the others each time that it has taken so many
/// turns.
const TURNS_PER_GAUGES: u32 = 16;

/// What a worker leaves.
#[derive(Drop)]
pub struct WorkerReport<P> {
    pub port: P,
    pub worker_end: WorkerEnd,
    /// The sessions that were opened, by rising numbers, and why each ended.
    pub sessions: SessionList,
    /// How many sessions were shut at once because memory ran out. The count saturates.
    pub unopened: u64,
    /// Answers that no session waited for. It stays at the greatest number.
    pub strangers: u64,
}

/// Takes an event, if there is one, and gives how many bytes of input it brought. The time for
/// which the port may wait isn't busy, and before it the worker sets its gauges, if there are
/// others.
fn take_event<P: Port, R: Clock>(
    rt: &R,
    worker: &mut Worker<P>,
    pauses: &mut Pauses,
    storage: &GroupSignals,
) -> Option<usize>
    ensures { Continues P.told P.leads_to worker.old worker.new }
{
    let may_wait = worker.may_wait(&pauses.retries);
    if may_wait {
        if pauses.has_others {
            worker.state.set_gauges(storage);
        }
        pauses.waits.begin(rt);
    }
    let came = worker.take_event(may_wait);
    if may_wait {
        pauses.waits.end(rt);
    }
    came
}

/// Takes a few events, as long as the port may know of one. After each it reads the requests that
/// the event brought, so a session's requests are read before the event that its client has gone;
/// and it pauses sessions for whose large messages there is no room, so they bring no further
/// piece. If a session has requests that can't be read now, few events are taken, and storage
/// doesn't wait for them. It gives how many events it took.
fn take_events<P: Port, G: Gate, E: Executor, R: Clock>(
    rt: &R,
    worker: &mut Worker<P>,
    pauses: &mut Pauses,
    gate: &G,
    executor: &E,
    storage: &GroupSignals,
) -> usize
    ensures { Continues P.told P.leads_to worker.old worker.new }
{
    let (mut count, mut pieces) = (0, 0_usize);
    for taken in 1..=EVENTS_A_TURN {
        let Some(came) = take_event(rt, worker, pauses, storage) else {
            break;
        };
        count = taken;
        pieces = pieces.saturating_add(came / MAX_PIECE);
        ask_sessions(worker, gate, storage);
        if !worker.state.book.is_idle() {
            pause_sessions(worker);
            if worker.state.book.ready(Task::Ask) > 0 {
                worker.flush(executor, false);
                if taken >= EVENTS_WHILE_BUSY || worker.state.book.has_little_output() {
                    break;
                }
            }
        }
        if (pieces >= PIECES_A_TURN) | !worker.state.port.may_know_event() {
            break;
        }
    }
    count
}

/// Feeds each held piece that may fit by now. True if something was done.
fn feed_pieces<P: Port>(worker: &mut Worker<P>) -> bool
    ensures { Continues P.told P.leads_to worker.old worker.new }
{
    let mut moved = false;
    for _ in 0..worker.state.book.ready(Task::Feed) {
        moved |= worker.feed_next();
    }
    moved
}

/// Asks the session for requests until it has none left, none can be asked now, or it is the
/// others' turn.
fn ask_session<P: Port, G: Gate>(
    worker: &mut Worker<P>,
    session: u64,
    gate: &G,
    storage: &GroupSignals,
)
    requires { worker.old.request ≡ None }
    ensures { Continues P.told P.leads_to worker.old worker.new }
{
    for asked in 0..WINDOW {
        if asked >= ASKS_IN_A_ROW && !worker.state.book.has_little_output() {
            break;
        }
        match worker.ask_and_put(session, gate, storage) {
            AskAgain::Now => {}
            AskAgain::Later => return,
        }
    }
    worker.state.book.ask_later(session);
}

/// Asks sessions in turn, as long as requests can be asked: `WINDOW` of them at most, so a turn
/// stays short. True if something was done.
fn ask_sessions<P: Port, G: Gate>(worker: &mut Worker<P>, gate: &G, storage: &GroupSignals) -> bool
    ensures { Continues P.told P.leads_to worker.old worker.new }
{
    let mut moved = false;
    for _ in 0..WINDOW {
        if worker.is_busy() {
            break;
        }
        let Some(session) = worker.state.book.next_to_ask() else {
            break;
        };
        ask_session(worker, session, gate, storage);
        moved = true;
        if worker.state.book.is_idle() {
            break;
        }
    }
    moved
}

/// Feeds what fits by now, and asks sessions, unless that was done after each of so many events.
/// True if something was done.
fn feed_and_ask<P: Port, G: Gate>(
    worker: &mut Worker<P>,
    events: usize,
    gate: &G,
    storage: &GroupSignals,
) -> bool
    ensures { Continues P.told P.leads_to worker.old worker.new }
{
    if worker.state.book.is_idle() {
        return false;
    }
    let fed = feed_pieces(worker);
    if events > 0 && !fed {
        return false;
    }
    let asked = ask_sessions(worker, gate, storage);
    asked || fed
}

/// Takes and settles all answers that are there. True if something was done.
fn settle_answers<P: Port, G: Gate>(worker: &mut Worker<P>, gate: &G) -> bool
    ensures { Continues P.told P.leads_to worker.old worker.new }
{
    let mut moved = false;
    for _ in 0..worker.state.batch.outstanding() {
        if !worker.settle_next(gate) {
            break;
        }
        moved = true;
    }
    moved
}

/// Gives the output of sessions that are to be taken up for the task, of so many at most, and shuts
/// those that have finished. After `OUTPUT_A_TURN` bytes the others wait for the next turn. How
/// many were taken up, and whether something was done.
fn give_output<P: Port>(worker: &mut Worker<P>, task: Task, most: usize) -> (usize, bool)
    ensures { Continues P.told P.leads_to worker.old worker.new }
{
    let (mut count, mut bytes, mut moved) = (0, 0_usize, false);
    for taken in 1..=most {
        count = taken;
        if let Some(accepted) = worker.give_next(task) {
            moved = true;
            bytes = bytes.saturating_add(accepted);
        }
        if bytes >= OUTPUT_A_TURN {
            break;
        }
    }
    (count, moved)
}

/// Offers output again that clients didn't take. True if something was done.
fn retry_output<P: Port>(worker: &mut Worker<P>, retries: &mut Retries) -> bool
    ensures { Continues P.told P.leads_to worker.old worker.new }
{
    let waiting = worker.state.book.ready(Task::RetryWrite);
    if waiting == 0 {
        return false;
    }
    let most = retries.most(worker.state.port.rooms(), waiting);
    let (count, moved) = give_output(worker, Task::RetryWrite, most);
    retries.offered(count);
    moved
}

/// Counts a session that is closed as its client has stopped, for `stats`.
fn count_stalled(worker: usize, storage: &GroupSignals) {
    if let Some(gauges) = storage.gauges(worker) {
        let closed = gauges.get(Gauge::ClosedUnread).wrapping_add(1);
        gauges.set(&[(Gauge::ClosedUnread, closed)]);
    }
}

/// Once more has passed while a session waited for memory, shuts sessions that hold some and whose
/// clients have stopped for ten such seconds, until none waits. True if something was done.
fn shut_stalled<P: Port, R: Clock>(
    rt: &R,
    worker: &mut Worker<P>,
    ticks: &mut Ticks,
    storage: &GroupSignals,
) -> bool
    ensures { Continues P.told P.leads_to worker.old worker.new }
{
    if !ticks.has_passed(rt, worker.state.book.waits_for_memory()) {
        return false;
    }
    worker.state.book.count_tick(ticks.last);
    let mut moved = false;
    for _ in 0..WINDOW {
        let Some(session) = worker.state.book.find_stalled() else {
            break;
        };
        count_stalled(worker.state.batch.worker(), storage);
        worker.state.shut(session, EndCause::Stalled);
        moved = true;
    }
    moved
}

/// Pauses the sessions for whose large messages there is no room. True if something was done.
fn pause_sessions<P: Port>(worker: &mut Worker<P>) -> bool
    ensures { Continues P.told P.leads_to worker.old worker.new }
{
    let mut moved = false;
    for _ in 0..worker.state.book.ready(Task::Pause) {
        moved |= worker.pause_next();
    }
    moved
}

/// Resumes sessions for whose large messages there is room by now. True if something was done.
fn resume_sessions<P: Port>(worker: &mut Worker<P>) -> bool
    ensures { Continues P.told P.leads_to worker.old worker.new }
{
    let mut moved = false;
    for _ in 0..worker.state.book.ready(Task::ReadOn).min(RESUMED_A_TURN) {
        moved |= worker.resume_next();
    }
    moved
}

/// Has sessions wait for memory, or go on, and shuts those that hold it and have stopped. True if
/// something was done.
fn share_memory<P: Port, R: Clock>(
    rt: &R,
    worker: &mut Worker<P>,
    ticks: &mut Ticks,
    storage: &GroupSignals,
) -> bool
    ensures { Continues P.told P.leads_to worker.old worker.new }
{
    if worker.state.book.has_memory_for_all() {
        ticks.stop();
        return false;
    }
    let shut = shut_stalled(rt, worker, ticks, storage);
    let paused = pause_sessions(worker);
    let resumed = resume_sessions(worker);
    shut | paused | resumed
}

/// Offers output again that clients didn't take, and has sessions wait for memory, or go on; takes
/// a part of it for a very large answer. True if something was done.
fn serve_waiting<P: Port, R: Clock>(
    rt: &R,
    worker: &mut Worker<P>,
    pauses: &mut Pauses,
    storage: &GroupSignals,
) -> bool
    ensures { Continues P.told P.leads_to worker.old worker.new }
{
    if worker.state.book.is_idle() {
        pauses.ticks.stop();
        return false;
    }
    let given = retry_output(worker, &mut pauses.retries);
    let shared = share_memory(rt, worker, &mut pauses.ticks, storage);
    let prepared = worker.state.book.prepare_answer();
    given | shared | prepared
}

/// One turn. True if something was done. It puts the held request, then what has come and what fits
/// by now. Storage knows of all of it before the answers are looked for, so nothing is kept back
/// while the worker waits.
fn take_turn<P: Port, G: Gate, E: Executor, R: Clock>(
    rt: &R,
    worker: &mut Worker<P>,
    pauses: &mut Pauses,
    gate: &G,
    executor: &E,
    storage: &GroupSignals,
) -> bool
    ensures { Continues P.told P.leads_to worker.old worker.new }
{
    let held = worker.put_held(gate, storage);
    let came = take_events(rt, worker, pauses, gate, executor, storage);
    let asked = feed_and_ask(worker, came, gate, storage);
    worker.flush(executor, came == EVENTS_A_TURN);
    let settled = settle_answers(worker, gate);
    let new = worker.state.book.ready(Task::Give);
    let (_, given) = give_output(worker, Task::Give, new);
    let waited = serve_waiting(rt, worker, pauses, storage);
    held || came > 0 || asked || settled || given || waited
}

/// Whether all is done: the port has ended, nothing is held or outstanding, and no open session has
/// input or output left. One that has some is asked again.
fn has_drained<P: Port>(worker: &mut Worker<P>) -> bool
    ensures goes_on { Continues P.told P.leads_to worker.old worker.new }
    ensures drained { result ≡ true → IsDrained worker.new }
{
    let state = &mut worker.state;
    if !state.ended
        || state.request.is_some()
        || state.batch.outstanding() > 0
        || !state.book.is_idle()
    {
        return false;
    }
    match state.book.find_unemptied() {
        Some(session) => {
            state.book.ask_later(session);
            false
        }
        None => true,
    }
}

/// Serves a port until it has ended and all was answered and given, and then says bye.
///
/// The end has sent nothing yet, and the list of a port that tells it is empty. It may wait: for
/// events, for answers and for a port that accepts no bytes. Whoever executes is told of what it
/// posts. Output that clients don't take has a budget, which is 67,108,864 bytes with None.
pub fn run_worker<P: Port, G: Gate, E: Executor, R: Wait + Clock>(
    rt: &R,
    alloc: Global,
    port: P,
    worker_end: WorkerEnd,
    dialect: Dialect,
    output_budget: Option<usize>,
    gate: &G,
    executor: &E,
    storage: &GroupSignals,
) -> WorkerReport<P>
    requires port { IsPortAt P.told dialect port worker_end }
    requires fresh { HasSentNothing worker_end }
    ensures leads { P.leads_to port result.port }
    ensures tells { is_some (P.told result.port) ≡ is_some (P.told port) }
    ensures bye { HasSaidBye worker_end result.worker_end }
    ensures strangers { result.strangers ≡ 0 }
    ensures reported { (trace : PortTrace) → P.told result.port ≡ Some trace
        → IsReported trace.dialect trace.events result.worker_end result.sessions.items result.unopened }
    ensures whose { (trace : PortTrace) → P.told result.port ≡ Some trace → IsTraceOf trace result.worker_end }
    ensures spelled { (trace : PortTrace) → P.told result.port ≡ Some trace → trace.dialect ≡ dialect }
{
    let parking = storage.worker_parking(worker_end.worker());
    let gauges = storage.gauges(worker_end.worker());
    let mut worker = Worker::new(alloc, port, worker_end, dialect, output_budget);
    let has_others = storage.workers() > 1;
    let mut pauses = Pauses::new(storage.spin(), has_others, Waits::new(rt, gauges));
    let mut turns: u32 = 0;
    for _ in rt.forever() {
        turns = turns.wrapping_add(1);
        if has_others && turns % TURNS_PER_GAUGES == 0 {
            worker.state.set_gauges(storage);
        }
        if take_turn(rt, &mut worker, &mut pauses, gate, executor, storage) {
            pauses.reset(parking);
        } else if has_drained(&mut worker) {
            return leave(worker, executor);
        } else {
            pauses.turn(rt, worker.state.batch.outstanding() > 0, parking);
        }
    }
    unreachable!()
}

/// Says bye, as whoever executes is told, and leaves the report.
fn leave<P: Port, E: Executor>(worker: Worker<P>, executor: &E) -> WorkerReport<P>
    requires { IsDrained worker }
    ensures port { result.port ≡ worker.port }
    ensures bye { HasSaidBye (end_of worker) result.worker_end }
    ensures strangers { result.strangers ≡ 0 }
    ensures reported { (trace : PortTrace) → P.told result.port ≡ Some trace
        → IsReported trace.dialect trace.events result.worker_end result.sessions.items result.unopened }
    ensures whose { (trace : PortTrace) → P.told result.port ≡ Some trace → IsTraceOf trace result.worker_end }
    ensures spelled { (trace : PortTrace) → P.told result.port ≡ Some trace
        → trace.dialect ≡ worker.book.dialect }
{
    let Worker { state } = worker;
    let WorkerState {
        port,
        batch,
        book,
        request,
        sessions,
        unopened,
        strangers,
        ended: _,
    } = state;
    drop(book);
    drop(request);
    // All that was put has been flushed, as it came back.
    let mut worker_end = batch.into_end();
    worker_end.bye();
    executor.posted(Posting {
        worker: worker_end.worker(),
        is_left: false,
    });
    WorkerReport {
        port,
        worker_end,
        sessions,
        unopened,
        strangers,
    }
}
