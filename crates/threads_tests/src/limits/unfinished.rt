//! How many requests a worker has on their way while much is unfinished, and which wait while much
//! output does.

use crate::limits::talk::set_of;
use crate::same::check_same;
use crate::serving::{serve_untold, sizes};
use crate::texts::add_get;
use bytes::Bytes;
use exchange::WorkerLane;
use proto::Geometry;
use std::alloc::Global;
use std::collections::VecDeque;
use std::process::Abort;
use std::sync::Wait;
use std::sync::atomic::{AtomicU64, Ordering};
use std::thread::Threads;
use std::time::Clock;
use worker::{Gate, OpenGate};
use worker_port::{Gone, MAX_PIECE, Port, PortEvent, ToldHistory};

/// These sessions accept nothing until they are let.
const SILENT: [u64; 3] = [2, 3, 4];

/// What a port plays.
#[derive(Drop)]
enum Step {
    Open(u64),
    Send(u64, Bytes),
    Gone(u64),
    /// Goes on once this number of bytes was offered to the silent sessions, to each at once.
    UntilOffered(usize),
    /// Goes on once this number of bytes was accepted, over all sessions.
    UntilGiven(usize),
    /// Keeps how many bytes were offered to the silent sessions so far.
    Look,
    LetAccept,
}

/// Plays its steps, and then ends.
#[derive(Drop)]
struct StepPort {
    steps: VecDeque<Step>,
    accepts: bool,
    /// The most that was offered at once to each of the silent sessions.
    offered: [usize; 3],
    /// How many bytes that was when it looked.
    seen: usize,
    given: usize,
    /// How many bytes were accepted since it was asked for an event, and how many that were at
    /// most.
    in_turn: usize,
    most_in_turn: usize,
    /// How many sessions were shut.
    shut: u64,
    has_ended: bool,
}

impl StepPort {
    fn new(steps: VecDeque<Step>) -> StepPort {
        StepPort {
            steps,
            accepts: false,
            offered: [0; 3],
            seen: 0,
            given: 0,
            in_turn: 0,
            most_in_turn: 0,
            shut: 0,
            has_ended: false,
        }
    }

    fn offered(&self) -> usize {
        let [first, second, third] = self.offered;
        first.saturating_add(second).saturating_add(third)
    }

    fn waits(&self) -> bool {
        match self.steps.front() {
            Some(Step::UntilOffered(length)) => self.offered() < *length,
            Some(Step::UntilGiven(length)) => self.given < *length,
            _ => false,
        }
    }
}

impl Port for StepPort {
    ghost use Rattle.std.specs.Prelude.{None};

    ghost told = { λ _. None };

    ghost leads_to = { λ _ _. Unit {0} };

    fn next(&mut self, _may_wait: bool, _sender: &WorkerLane) -> PortEvent {
        self.in_turn = 0;
        if self.has_ended || self.waits() {
            return PortEvent::Idle;
        }
        match self.steps.pop_front() {
            Some(Step::Open(session)) => PortEvent::Opened(session),
            Some(Step::Send(session, bytes)) => PortEvent::Data(session, bytes),
            Some(Step::Gone(session)) => PortEvent::Gone(session),
            Some(Step::UntilOffered(_) | Step::UntilGiven(_)) => PortEvent::Idle,
            Some(Step::Look) => {
                self.seen = self.offered();
                PortEvent::Idle
            }
            Some(Step::LetAccept) => {
                self.accepts = true;
                PortEvent::Idle
            }
            None => {
                self.has_ended = true;
                PortEvent::Ended
            }
        }
    }

    fn give(&mut self, session: u64, bytes: &[u8], _history: ToldHistory) -> Result<usize, Gone> {
        for (silent, offered) in SILENT.iter().zip(&mut self.offered) {
            if *silent == session {
                *offered = (*offered).max(bytes.len());
                if !self.accepts {
                    return Ok(0);
                }
            }
        }
        self.given = self.given.saturating_add(bytes.len());
        self.in_turn = self.in_turn.saturating_add(bytes.len());
        self.most_in_turn = self.most_in_turn.max(self.in_turn);
        Ok(bytes.len())
    }

    fn pause(&mut self, _session: u64) {}

    fn resume(&mut self, _session: u64) {}

    fn shut(&mut self, _session: u64) {
        self.shut = self.shut.saturating_add(1);
    }

    ghost leads_reflexive = { λ _. tt };

    ghost leads_transitive = { λ _ _ _ _ _. tt };
}

/// Lets each request pass, and keeps how many were on their way at most, that one included: of the
/// requests before the number `second`, without those before `first`, and of those from there on.
#[derive(Drop)]
struct CountingGate {
    first: u64,
    second: u64,
    answered: AtomicU64,
    most_at_first: AtomicU64,
    most_then: AtomicU64,
}

impl CountingGate {
    fn new(first: u64, second: u64) -> CountingGate {
        CountingGate {
            first,
            second,
            answered: AtomicU64::new(0),
            most_at_first: AtomicU64::new(0),
            most_then: AtomicU64::new(0),
        }
    }

    /// Both counts.
    fn most(&self) -> (u64, u64) {
        (
            self.most_at_first.load(Ordering::SeqCst),
            self.most_then.load(Ordering::SeqCst),
        )
    }
}

impl Gate for CountingGate {
    fn may_post(&self, _worker: usize, number: u64) -> bool {
        let on_their_way = number.saturating_sub(self.answered.load(Ordering::SeqCst));
        if number >= self.second {
            self.most_then.fetch_max(on_their_way, Ordering::SeqCst);
        } else if number >= self.first {
            self.most_at_first.fetch_max(on_their_way, Ordering::SeqCst);
        }
        true
    }

    fn answered(&self, _worker: usize, _number: u64) {
        self.answered.fetch_add(1, Ordering::SeqCst);
    }
}

/// Steps that are added one after the other.
#[derive(Drop)]
struct Steps<R: Abort + Copy + Drop> {
    rt: R,
    alloc: Global,
    steps: VecDeque<Step>,
}

impl<R: Abort + Copy + Drop> Steps<R> {
    fn new(rt: &R, alloc: Global) -> Steps<R> {
        Steps {
            rt: *rt,
            alloc,
            steps: VecDeque::new(alloc),
        }
    }

    fn add(&mut self, step: Step) {
        self.steps.push_back(step).expect(&self.rt, "memory");
    }

    fn send(&mut self, session: u64, bytes: &[u8]) {
        for piece in bytes.chunks(MAX_PIECE) {
            let bytes = Bytes::copy_from_slice(self.alloc, piece).expect(&self.rt, "memory");
            self.add(Step::Send(session, bytes));
        }
    }
}

/// `lines` lines that ask for a missing key, `keys` times each.
fn lines_of<R: Abort>(rt: &R, alloc: Global, lines: usize, keys: usize) -> Vec<u8> {
    let mut bytes = Vec::new(alloc);
    for _ in 0..lines {
        add_get(rt, &mut bytes, b" b", keys);
    }
    bytes
}

/// How many keys stand in a line, how many such lines come in a piece, and how many of them are on
/// their way at most. No line is asked while those on their way have more than 255: the hits of 255
/// keys and one more answer fit into 64 MiB.
const KEYS: [(usize, usize, u64); 9] = [
    (1, 100, 64),
    (3, 100, 64),
    (4, 100, 64),
    (8, 100, 32),
    (9, 100, 29),
    (128, 10, 2),
    (255, 10, 2),
    (256, 10, 1),
    (1021, 8, 1),
];

/// Two pieces of lines with `keys` keys each, the second once all of the first was answered.
fn two_pieces<R: Abort + Copy + Drop>(
    rt: &R,
    alloc: Global,
    keys: usize,
    lines: usize,
) -> VecDeque<Step> {
    let bytes = lines_of(rt, alloc, lines, keys);
    assert!(*rt; bytes.len() <= MAX_PIECE);
    let mut steps = Steps::new(rt, alloc);
    steps.add(Step::Open(1));
    steps.send(1, bytes.as_slice());
    steps.add(Step::UntilGiven(lines.saturating_mul(5)));
    steps.send(1, bytes.as_slice());
    steps.steps
}

fn check_keys<R>(rt: &R, alloc: Global, keys: usize, lines: usize, wanted: u64)
where
    R: Abort + Threads + Wait + Clock + Copy + Drop + Send + Sync + 'static,
{
    let gate = CountingGate::new(1, (lines as u64).saturating_add(1));
    let port = StepPort::new(two_pieces(rt, alloc, keys, lines));
    let given = serve_untold(rt, alloc, sizes(rt), port, &gate).port.given;
    check_same(rt, gate.most(), (wanted, wanted), keys);
    check_same(rt, given, lines.saturating_mul(10), keys);
}

#[test]
fn few_keys_and_a_line_are_on_their_way(rt: HostRuntime) {
    for (keys, lines, wanted) in &KEYS {
        check_keys(&rt, rt.alloc(), *keys, *lines, *wanted);
    }
}

/// How the silent sessions end: they accept their output, or their peers go.
#[derive(Clone, Copy)]
enum Ending {
    Accept,
    Go,
}

/// Three sessions that accept nothing ask for one value of `value` bytes by `keys` keys in a line.
/// Before it session 2 asks for a missing key in `misses` lines; the others ask once it was offered
/// its answer, so that the worker knows what a key takes.
#[derive(Clone, Copy)]
struct Unread {
    value: usize,
    keys: usize,
    misses: usize,
    /// What session 2 is offered, what waits while nothing is accepted, and what there is in all.
    first: usize,
    waiting: usize,
    all: usize,
}

/// The three answers fit into 64 MiB, or the third waits until there is room.
const UNREAD: [Unread; 2] = [
    Unread {
        value: 103_543,
        keys: 216,
        misses: 5,
        first: 22_369_638,
        waiting: 67_108_864,
        all: 67_108_864,
    },
    Unread {
        value: 127_100,
        keys: 176,
        misses: 10,
        first: 22_373_175,
        waiting: 44_746_300,
        all: 67_119_425,
    },
];

/// Session 1 writes the value, and the silent sessions ask for it.
fn add_silent<R: Abort + Copy + Drop>(steps: &mut Steps<R>, unread: &Unread) {
    let rt = steps.rt;
    let alloc = steps.alloc;
    steps.add(Step::Open(1));
    steps.send(1, set_of(&rt, alloc, unread.value).as_slice());
    for session in &SILENT {
        let misses = if *session == 2 { unread.misses } else { 0 };
        let mut input = lines_of(&rt, alloc, misses, 1);
        add_get(&rt, &mut input, b" a", unread.keys);
        steps.add(Step::Open(*session));
        steps.send(*session, input.as_slice());
        steps.add(Step::UntilOffered(unread.first));
    }
}

/// How the silent sessions end, and how many bytes they accept.
fn add_ending<R: Abort + Copy + Drop>(
    steps: &mut Steps<R>,
    ending: Ending,
    unread: &Unread,
) -> usize {
    match ending {
        Ending::Accept => {
            steps.add(Step::LetAccept);
            steps.add(Step::UntilGiven(unread.all.saturating_add(100)));
            unread.all
        }
        Ending::Go => {
            for session in &SILENT {
                steps.add(Step::Gone(*session));
            }
            0
        }
    }
}

/// Session 1 sends 20 requests, each once the one before it was answered: what is small goes on.
fn add_single_requests<R: Abort + Copy + Drop>(steps: &mut Steps<R>) {
    let rt = steps.rt;
    let line = lines_of(&rt, steps.alloc, 1, 1);
    for answered in 1..=20usize {
        steps.send(1, line.as_slice());
        steps.add(Step::UntilGiven(answered.saturating_mul(5)));
    }
}

/// Session 1 sends 20 requests in turn while the output of the others waits, and 20 more at once
/// when it doesn't. How many bytes the others accept.
fn add_unread<R: Abort + Copy + Drop>(
    steps: &mut Steps<R>,
    unread: &Unread,
    ending: Ending,
) -> usize {
    let rt = steps.rt;
    add_silent(steps, unread);
    steps.add(Step::UntilOffered(unread.waiting));
    add_single_requests(steps);
    steps.add(Step::Look);
    let accepted = add_ending(steps, ending, unread);
    steps.send(1, lines_of(&rt, steps.alloc, 20, 1).as_slice());
    accepted
}

fn check_unread<R>(rt: &R, alloc: Global, unread: &Unread, ending: Ending)
where
    R: Abort + Threads + Wait + Clock + Copy + Drop + Send + Sync + 'static,
{
    let mut steps = Steps::new(rt, alloc);
    let accepted = add_unread(&mut steps, unread, ending);
    let geometry = Geometry::new(1_048_576, 8).expect(rt, "a geometry");
    let port = StepPort::new(steps.steps);
    let served = serve_untold(rt, alloc, geometry, port, &OpenGate);
    let port = &served.port;
    let wanted = (unread.waiting, accepted.saturating_add(200), 0);
    check_same(rt, (port.seen, port.given, port.shut), wanted, unread.value);
    // (what waited for room may come in the same turn as what was offered before)
    let unasked = unread.all.saturating_sub(unread.waiting);
    let most = unasked.saturating_add(unread.first);
    assert!(*rt; port.most_in_turn < most.saturating_add(1_048_576));
}

/// Once one session's output of more than 1 MiB was given again in a turn, the others' waits for
/// the next one.
#[test]
fn above_64_mib_of_output_large_answers_wait(rt: HostRuntime) {
    for unread in &UNREAD {
        check_unread(&rt, rt.alloc(), unread, Ending::Accept);
        check_unread(&rt, rt.alloc(), unread, Ending::Go);
    }
}
