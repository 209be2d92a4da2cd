//! What no contract says: that a run ends, and what was given by then.

use crate::same::check_same;
use crate::serving::Served;
use crate::texts::{add, add_times, much_output, repeated};
use crate::workers::recording_port::{Manners, RecordingPort};
use crate::workers::refusing_gate::RefusingGate;
use crate::workers::running::{Ending, run};
use crate::workers::scripts::Script;
use std::alloc::Global;
use std::process::Abort;
use std::sync::Wait;
use std::sync::atomic::Ordering;
use std::thread::Threads;
use std::time::Clock;
use worker::OpenGate;
use worker_port::MAX_PIECE;

/// Accepts all.
const PLAIN: Manners = Manners {
    accept: usize::MAX,
    slow_gives: 0,
    gone_at: 0,
};

/// Accepts nothing for long, and all then: the input is read before anything was given.
const SLOW: Manners = Manners {
    accept: usize::MAX,
    slow_gives: 1000,
    gone_at: 0,
};

/// A session's bytes, and what it is given before it is shut.
const ENDINGS: [(&[u8], &[u8]); 5] = [
    (
        b"set a 0 0 1\r\nx\r\nget a\r\nfoo\r\nget b\r\nquit\r\nget a\r\n",
        b"STORED\r\nVALUE a 0 1\r\nx\r\nEND\r\nERROR\r\nEND\r\n",
    ),
    (
        b"set a 0 0 1 noreply\r\nx\r\nset a 0 0 1\r\ny\r\nquit\r\nget a\r\n",
        b"STORED\r\n",
    ),
    (
        b"get a\r\nget b\r\nset a 0 0 2\r\nxyz\r\nget a\r\n",
        b"END\r\nEND\r\nCLIENT_ERROR bad data chunk\r\n",
    ),
    (
        b"get a\r\nset a 00 0 1\r\nget a\r\n",
        b"END\r\nCLIENT_ERROR bad command line format\r\n",
    ),
    (
        b"delete a\r\nset a 0 0 131073\r\nget a\r\n",
        b"NOT_FOUND\r\nSERVER_ERROR object too large for cache\r\n",
    ),
];

/// What session 1 sends, piece by piece, between pieces of session 2.
const PIECES: [(u64, &[u8]); 7] = [
    (1, b"set a 0 0 1\r\n"),
    (2, b"get"),
    (1, b"x\r"),
    (1, b"\nget a"),
    (2, b" b\r"),
    (1, b"\r\n"),
    (2, b"\n"),
];

/// What session 1 is given for its pieces, and session 2 for its own.
const FIRST_OUTPUT: &[u8] = b"STORED\r\nVALUE a 0 1\r\nx\r\nEND\r\n";

const SECOND_OUTPUT: &[u8] = b"END\r\n";

/// Plays the pieces, with session 1 gone before the piece at this place.
fn play_pieces<R>(
    rt: &R,
    alloc: Global,
    gone_before: Option<usize>,
    manners: Manners,
) -> RecordingPort<R>
where
    R: Abort + Threads + Wait + Clock + Copy + Drop + Send + Sync + 'static,
{
    let mut script = Script::new(rt, alloc);
    script.open(1);
    script.open(2);
    for (place, (session, bytes)) in PIECES.iter().enumerate() {
        if gone_before == Some(place) {
            script.gone(1);
        }
        script.send(*session, *bytes);
    }
    if gone_before == Some(PIECES.len()) {
        script.gone(1);
    }
    run(rt, alloc, script.steps, manners, &OpenGate).port
}

/// Session 1 sends the bytes, in pieces of at most `piece` bytes.
fn run_input<R>(
    rt: &R,
    alloc: Global,
    input: &[u8],
    piece: usize,
    manners: Manners,
) -> Served<RecordingPort<R>>
where
    R: Abort + Threads + Wait + Clock + Copy + Drop + Send + Sync + 'static,
{
    let mut script = Script::new(rt, alloc);
    script.open(1);
    for bytes in input.chunks(piece.max(1)) {
        script.send(1, bytes);
    }
    run(rt, alloc, script.steps, manners, &OpenGate)
}

/// Session 1 sends the bytes, in pieces as long as they may be. Its port was paused, and resumed as
/// often, and `executed` requests were executed.
fn run_paused<R>(rt: &R, alloc: Global, input: &[u8], executed: u64) -> RecordingPort<R>
where
    R: Abort + Threads + Wait + Clock + Copy + Drop + Send + Sync + 'static,
{
    let served = run_input(rt, alloc, input, MAX_PIECE, PLAIN);
    check_same(rt, served.executed, executed, "executed");
    check_paused(rt, &served.port);
    served.port
}

fn check_paused<R: Abort + Drop>(rt: &R, port: &RecordingPort<R>) {
    check_same(rt, port.pauses >= 1, true, "pauses");
    check_same(rt, port.resumes, port.pauses, "resumes");
    check_same(rt, port.ending_of(1), Ending::Open, "the ending");
}

/// Session 1 was given these bytes, `length` in all, and nothing else.
fn check_given<R: Abort + Drop>(rt: &R, port: &RecordingPort<R>, wanted: &[u8], length: usize) {
    check_same(rt, wanted.len(), length, "the expected bytes");
    check_same(rt, port.was_given(1, wanted), true, "the output");
}

#[test]
fn a_long_pipeline_is_paused(rt: HostRuntime) {
    let alloc: Global = rt.alloc();
    let input = repeated(&rt, alloc, b"get a\r\n", 60_000);
    let port = run_paused(&rt, alloc, input.as_slice(), 60_000);
    let wanted = repeated(&rt, alloc, b"END\r\n", 60_000);
    check_given(&rt, &port, wanted.as_slice(), 300_000);
}

/// Five times 9,000 requests and a value of 131,072 bytes.
fn long_messages<R: Abort>(rt: &R, alloc: Global) -> Vec<u8> {
    let mut all = Vec::new(alloc);
    for _ in 0..5 {
        add_times(rt, &mut all, b"get a\r\n", 9000);
        add(rt, &mut all, b"set b 0 0 131072\r\n");
        add_times(rt, &mut all, b"v", 131_072);
        add(rt, &mut all, b"\r\n");
    }
    all
}

#[test]
fn long_messages_behind_a_full_input_are_fed(rt: HostRuntime) {
    let alloc: Global = rt.alloc();
    let input = long_messages(&rt, alloc);
    let port = run_paused(&rt, alloc, input.as_slice(), 45_005);
    // 45,000 times `END`, and five times that the object is too large for this store's segments
    check_same(&rt, port.given_length(1), 225_205, "the output");
}

/// What is answered to `much_output`.
fn much_given<R: Abort>(rt: &R, alloc: Global) -> Vec<u8> {
    let value = repeated(rt, alloc, b"v", 8000);
    let mut all = Vec::new(alloc);
    add(rt, &mut all, b"STORED\r\n");
    for _ in 0..1000 {
        add(rt, &mut all, b"VALUE a 0 8000\r\n");
        add(rt, &mut all, value.as_slice());
        add(rt, &mut all, b"\r\nEND\r\n");
    }
    all
}

#[test]
fn a_slow_peer_is_given_all(rt: HostRuntime) {
    let alloc: Global = rt.alloc();
    let input = much_output(&rt, alloc);
    let port = run_input(&rt, alloc, input.as_slice(), 4000, SLOW).port;
    check_same(&rt, port.slow_gives_left(), 0, "slow gives");
    check_same(&rt, port.ending_of(1), Ending::Open, "the ending");
    let wanted = much_given(&rt, alloc);
    check_given(&rt, &port, wanted.as_slice(), 8_023_008);
}

/// Session 1 was given this and shut, and nothing follows.
fn check_ending<R: Abort + Drop>(rt: &R, port: &RecordingPort<R>, input: &[u8], wanted: &[u8]) {
    check_same(rt, port.was_given(1, wanted), true, input);
    check_same(rt, port.ending_of(1), Ending::Shut, input);
    check_same(rt, port.is_shut_last(), true, input);
}

#[test]
fn nothing_follows_quit_or_a_fatal_line(rt: HostRuntime) {
    for (input, wanted) in &ENDINGS {
        let served = run_input(&rt, rt.alloc(), *input, MAX_PIECE, SLOW);
        check_ending(&rt, &served.port, *input, *wanted);
    }
}

/// Session 1 was given `given` bytes of its output, and session 2 all of its own.
fn check_pieces<R: Abort + Drop>(rt: &R, port: &RecordingPort<R>, given: usize, ending: Ending) {
    let is_given = given <= FIRST_OUTPUT.len() && port.was_given(1, &FIRST_OUTPUT[..given]);
    check_same(rt, is_given, true, "the first");
    check_same(rt, port.ending_of(1), ending, "the ending");
    check_same(rt, port.was_given(2, SECOND_OUTPUT), true, "the second");
    check_same(rt, port.ending_of(2), Ending::Open, "the second ending");
}

#[test]
fn sessions_have_answers_of_their_own(rt: HostRuntime) {
    let port = play_pieces(&rt, rt.alloc(), None, PLAIN);
    check_pieces(&rt, &port, FIRST_OUTPUT.len(), Ending::Open);
}

/// Accepts a byte at once, and may be gone at a give.
fn dribble(gone_at: u64) -> Manners {
    Manners {
        accept: 1,
        slow_gives: 0,
        gone_at,
    }
}

#[test]
fn a_peer_goes_before_each_piece(rt: HostRuntime) {
    for place in 0..=PIECES.len() {
        let port = play_pieces(&rt, rt.alloc(), Some(place), dribble(0));
        check_pieces(&rt, &port, port.given_length(1), Ending::Gone);
    }
}

#[test]
fn a_peer_goes_at_each_give(rt: HostRuntime) {
    for given in 0..FIRST_OUTPUT.len() {
        let port = play_pieces(&rt, rt.alloc(), None, dribble(given as u64 + 1));
        check_pieces(&rt, &port, given, Ending::Gone);
    }
}

fn check_held(rt: &impl Abort, gate: &RefusingGate) {
    let counts = (
        gate.told.load(Ordering::SeqCst),
        gate.answered.load(Ordering::SeqCst),
        gate.asked.load(Ordering::SeqCst),
    );
    check_same(rt, counts, (100, 100, 400), "told, answered and asked");
}

#[test]
fn a_held_request_is_posted_once(rt: HostRuntime) {
    let alloc: Global = rt.alloc();
    let gate = RefusingGate::new();
    let mut script = Script::new(&rt, alloc);
    script.open(1);
    script.send(1, repeated(&rt, alloc, b"get a\r\n", 100).as_slice());
    let served = run(&rt, alloc, script.steps, PLAIN, &gate);
    check_same(&rt, (served.sent, served.executed), (100, 100), "requests");
    check_held(&rt, &gate);
    let wanted = repeated(&rt, alloc, b"END\r\n", 100);
    check_given(&rt, &served.port, wanted.as_slice(), 500);
}
