//! A port whose session stays open until all answers came: at one that ends by itself the walk at
//! the end serves a session that was forgotten.

use crate::same::check_same;
use crate::serving::{serve_untold, sizes};
use crate::texts::{much_output, repeated};
use crate::workers::refusing_gate::RefusingGate;
use bytes::Bytes;
use exchange::WorkerLane;
use std::alloc::Global;
use std::collections::VecDeque;
use std::process::Abort;
use std::sync::Wait;
use std::thread::Threads;
use std::time::Clock;
use worker::{Gate, OpenGate};
use worker_port::{Gone, MAX_PIECE, Port, PortEvent, ToldHistory};

/// How often a port is asked in vain until it gives up.
const PATIENCE: u64 = 3_000_000;

/// Opens session 7, sends its pieces, and may end its input. It ends once the wanted bytes were
/// given, or once the session was shut.
#[derive(Drop)]
struct LivePort {
    is_open: bool,
    is_paused: bool,
    pieces: VecDeque<Bytes>,
    /// The input ends after the pieces, and the port ends only once the session was shut.
    ends_input: bool,
    input_ended: bool,
    wanted: usize,
    given: usize,
    /// The most bytes of each give that are accepted.
    accept: usize,
    /// The number of gives that accept nothing.
    slow_gives: u64,
    was_shut: bool,
    has_ended: bool,
    patience: u64,
    /// It was let wait before it opened its session.
    waits_at_first: bool,
    /// It was let wait although answers were still to be given.
    waits_early: bool,
}

impl LivePort {
    fn is_served(&self) -> bool {
        self.was_shut || (!self.ends_input && self.wanted > 0 && self.given >= self.wanted)
    }

    /// The next piece, or the end of the input after the last one.
    fn next_input(&mut self) -> Option<PortEvent> {
        if self.is_paused {
            return None;
        }
        if let Some(bytes) = self.pieces.pop_front() {
            return Some(PortEvent::Data(7, bytes));
        }
        if self.ends_input && !self.input_ended {
            self.input_ended = true;
            return Some(PortEvent::EndOfInput(7));
        }
        None
    }
}

impl Port for LivePort {
    ghost use Rattle.std.specs.Prelude.{None};

    ghost told = { λ _. None };

    ghost leads_to = { λ _ _. Unit {0} };

    fn next(&mut self, may_wait: bool, _sender: &WorkerLane) -> PortEvent {
        if !self.is_open {
            self.is_open = true;
            self.waits_at_first = may_wait;
            return PortEvent::Opened(7);
        }
        if let Some(event) = self.next_input() {
            return event;
        }
        if self.has_ended {
            return PortEvent::Idle;
        }
        if self.is_served() || self.patience == 0 {
            self.has_ended = true;
            return PortEvent::Ended;
        }
        self.waits_early = self.waits_early || may_wait;
        self.patience -= 1;
        PortEvent::Idle
    }

    fn give(&mut self, _session: u64, bytes: &[u8], _history: ToldHistory) -> Result<usize, Gone> {
        if self.slow_gives > 0 {
            self.slow_gives -= 1;
            return Ok(0);
        }
        let accepted = bytes.len().min(self.accept);
        self.given = self.given.saturating_add(accepted);
        Ok(accepted)
    }

    fn pause(&mut self, _session: u64) {
        self.is_paused = true;
    }

    fn resume(&mut self, _session: u64) {
        self.is_paused = false;
    }

    fn shut(&mut self, _session: u64) {
        self.was_shut = true;
    }

    ghost leads_reflexive = { λ _. tt };

    ghost leads_transitive = { λ _ _ _ _ _. tt };
}

/// What a peer sends and how it takes what it is given.
#[derive(Clone, Copy)]
struct Peer<'a> {
    input: &'a [u8],
    /// The most bytes of one piece.
    piece: usize,
    ends_input: bool,
    /// The number of bytes that answer it.
    wanted: usize,
    /// The worker shuts the session, by itself or after the end of its input.
    is_shut: bool,
    accept: usize,
    slow_gives: u64,
    /// How many requests are executed.
    executed: u64,
}

fn pieces_of<R: Abort>(rt: &R, alloc: Global, peer: &Peer) -> VecDeque<Bytes> {
    let mut pieces = VecDeque::new(alloc);
    for piece in peer.input.chunks(peer.piece.max(1)) {
        let bytes = Bytes::copy_from_slice(alloc, piece).expect(rt, "memory");
        pieces.push_back(bytes).expect(rt, "memory");
    }
    pieces
}

fn port_of<R: Abort>(rt: &R, alloc: Global, peer: &Peer) -> LivePort {
    LivePort {
        is_open: false,
        is_paused: false,
        pieces: pieces_of(rt, alloc, peer),
        ends_input: peer.ends_input,
        input_ended: false,
        wanted: peer.wanted,
        given: 0,
        accept: peer.accept,
        slow_gives: peer.slow_gives,
        was_shut: false,
        has_ended: false,
        patience: PATIENCE,
        waits_at_first: false,
        waits_early: false,
    }
}

fn check_port(rt: &impl Abort, port: &LivePort, peer: &Peer) {
    check_same(rt, port.patience > 0, true, "patience");
    check_same(rt, port.given, peer.wanted, "given");
    check_same(rt, port.was_shut, peer.is_shut, peer.wanted);
    check_same(rt, port.waits_at_first, true, "waits at first");
    check_same(rt, port.waits_early, false, "waits early");
}

/// All came while the port was still open, and the port was let wait only where nothing was left to
/// do.
fn check_served<R, G>(rt: &R, alloc: Global, peer: &Peer, gate: &G)
where
    R: Abort + Threads + Wait + Clock + Copy + Drop + Send + Sync + 'static,
    G: Gate,
{
    let served = serve_untold(rt, alloc, sizes(rt), port_of(rt, alloc, peer), gate);
    check_port(rt, &served.port, peer);
    check_same(rt, served.executed, peer.executed, peer.wanted);
}

/// What a client sends, how many bytes answer it, how many of them it takes at once, and how many
/// requests are executed: an unfinished line is no request, and what follows `quit` isn't read.
type Row<'a> = (&'a [u8], usize, usize, u64);

/// Clients whose input goes on, or ends. Each of these is shut once it was given all its answers,
/// and not before; of the others those are that send `quit`.
fn check_rows<R>(rt: &R, alloc: Global, rows: &[Row], ends_input: bool, slow_gives: u64)
where
    R: Abort + Threads + Wait + Clock + Copy + Drop + Send + Sync + 'static,
{
    for (input, wanted, accept, executed) in rows {
        let peer = Peer {
            input,
            piece: MAX_PIECE,
            ends_input,
            wanted: *wanted,
            is_shut: ends_input || input.ends_with(b"quit\r\n"),
            accept: *accept,
            slow_gives,
            executed: *executed,
        };
        check_served(rt, alloc, &peer, &OpenGate);
    }
}

#[test]
fn an_open_session_is_served(rt: HostRuntime) {
    let alloc: Global = rt.alloc();
    let many = repeated(&rt, alloc, b"get a\r\n", 300);
    let rows: [Row; 6] = [
        (b"get a\r\n", 5, usize::MAX, 1),
        (b"foo\r\n", 7, usize::MAX, 0),
        (many.as_slice(), 1500, usize::MAX, 300),
        (b"get a\r\n", 5, 2, 1),
        (b"quit\r\n", 0, usize::MAX, 0),
        (b"get a\r\nquit\r\n", 5, usize::MAX, 1),
    ];
    check_rows(&rt, alloc, &rows, false, 0);
}

/// An open and a half-closed session with much output.
fn check_much<R>(rt: &R, alloc: Global, ends_input: bool)
where
    R: Abort + Threads + Wait + Clock + Copy + Drop + Send + Sync + 'static,
{
    let input = much_output(rt, alloc);
    let rows: [Row; 1] = [(input.as_slice(), 8_023_008, usize::MAX, 1001)];
    check_rows(rt, alloc, &rows, ends_input, 3000);
}

#[test]
fn an_open_session_with_much_output_is_asked_again(rt: HostRuntime) {
    check_much(&rt, rt.alloc(), false);
}

#[test]
fn a_half_closed_session_with_much_output_is_given_all(rt: HostRuntime) {
    check_much(&rt, rt.alloc(), true);
}

#[test]
fn a_half_closed_session_is_answered_and_shut(rt: HostRuntime) {
    let alloc: Global = rt.alloc();
    let two_windows = repeated(&rt, alloc, b"get a\r\n", 128);
    let rows: [Row; 9] = [
        (b"", 0, usize::MAX, 0),
        (b"get a\r\n", 5, usize::MAX, 1),
        (b"get a\r\n", 5, 1, 1),
        (b"get a\r\nget", 5, usize::MAX, 1),
        (b"get a\r\nset a 0 0 1 noreply\r\nx\r\n", 5, usize::MAX, 2),
        (b"set a 0 0 1 noreply\r\nx\r\n", 0, usize::MAX, 1),
        (b"foo\r\n", 7, 1, 0),
        (b"get a\r\nquit\r\nget a\r\n", 5, usize::MAX, 1),
        (two_windows.as_slice(), 640, usize::MAX, 128),
    ];
    check_rows(&rt, alloc, &rows, true, 0);
}

#[test]
fn a_half_closed_session_with_a_held_piece_is_read_to_its_end(rt: HostRuntime) {
    let alloc: Global = rt.alloc();
    let many = repeated(&rt, alloc, b"get a\r\n", 60_000);
    let rows: [Row; 1] = [(many.as_slice(), 300_000, usize::MAX, 60_000)];
    check_rows(&rt, alloc, &rows, true, 1000);
}

#[test]
fn a_half_closed_session_that_is_read_later_is_shut(rt: HostRuntime) {
    let peer = Peer {
        input: b"get a\r\nget",
        piece: 7,
        ends_input: true,
        wanted: 5,
        is_shut: true,
        accept: usize::MAX,
        slow_gives: 0,
        executed: 1,
    };
    check_served(&rt, rt.alloc(), &peer, &RefusingGate::new());
}
