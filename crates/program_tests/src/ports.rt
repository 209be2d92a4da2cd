//! One port, asked by the tests in place of a worker.

use crate::asked_port::{AskedPort, Came};
use crate::clients::{connect_all, hand, handed_out, listener, read_all, send};
use crate::common::check_same;
use net::StreamSender;
use std::alloc::Global;
use std::fs::Files;
use std::net::{Net, Shutdown, TcpStream};
use std::process::Abort;
use std::sync::Wait;
use std::time::{Clock, Duration, Instant};
use std::{slice, thread};
use worker_port::MAX_PIECE;

/// How many times a port is asked for an event that has to come.
const CALLS: usize = 100_000_000;

/// How many times it is asked where none may come. It waits a little from the 8,192nd on, so more
/// would take long.
const FEW_CALLS: usize = 10_000;

/// How often each of some sessions is read that are read in turn.
const TURNS: usize = 20;

/// How many pieces a read has at most.
const PIECES_OF_A_READ: usize = 8;

/// In how many events another client is heard, while one sends all that the port takes.
const EVENTS_UNTIL_HEARD: usize = 64;

/// The next event that isn't Idle, or Idle if none comes.
fn next<R: Wait + Clock + Drop>(port: &mut AskedPort<R>, calls: usize) -> Came {
    for _ in 0..calls {
        let came = port.came(false);
        if came != Came::Idle {
            return came;
        }
    }
    Came::Idle
}

/// The clients' ends of `count` streams that a listener has handed out.
fn clients_with<R>(rt: &R, alloc: Global, hand: StreamSender, count: u64) -> Vec<TcpStream>
where
    R: Wait + Clock + Net<Stream = TcpStream> + Files + Abort,
{
    let mut listener = listener(rt, alloc);
    let clients = connect_all(rt, alloc, listener.port(), count);
    let report = handed_out(rt, &mut listener, hand, count);
    check_same(
        rt,
        (report.accepted, report.closed),
        (count, 0),
        "the report",
    );
    clients
}

/// Checks that the next event is this one, and else names it by `what`.
fn check_next<R: Wait + Clock + Abort + Drop>(
    rt: &R,
    port: &mut AskedPort<R>,
    calls: usize,
    wanted: Came,
    what: &str,
) {
    assert!(*rt; next(port, calls) == wanted, "{what}");
}

/// The next events open the sessions up to this one.
fn check_each_opens<R: Wait + Clock + Abort + Drop>(
    rt: &R,
    port: &mut AskedPort<R>,
    sessions: u64,
) {
    for session in 1..=sessions {
        check_next(rt, port, CALLS, Came::Opened(session), "a session opens");
    }
}

/// Three sessions are opened before the last one's bytes come.
fn check_opened<R: Wait + Clock + Abort + Drop>(
    rt: &R,
    port: &mut AskedPort<R>,
    client: &TcpStream,
) {
    send(rt, client, b"get a\r\n");
    check_each_opens(rt, port, 3);
    check_next(rt, port, CALLS, Came::Data(3, 7), "its request");
}

/// The last of some clients.
fn last<'a, R: Abort>(rt: &R, clients: &'a Vec<TcpStream>) -> &'a TcpStream {
    let Some(last) = clients.last() else {
        panic!(*rt; "no client")
    };
    last
}

fn check_paused<R: Wait + Clock + Abort + Drop>(
    rt: &R,
    port: &mut AskedPort<R>,
    client: &TcpStream,
) {
    check_next(rt, port, CALLS, Came::Opened(1), "the session opens");
    assert!(*rt; port.is_open(1));
    port.pause(1);
    send(rt, client, b"get a\r\n");
    check_next(rt, port, FEW_CALLS, Came::Idle, "while it is paused");
    assert!(*rt; port.is_open(1));
    port.resume(1);
    check_next(rt, port, CALLS, Came::Data(1, 7), "its request");
}

/// How many bytes come to a client until the end.
fn sent_to<R: Abort>(rt: &R, alloc: Global, client: &TcpStream) -> usize {
    read_all(rt, alloc, client).len()
}

/// How long it may take until a stream is closed that its peer has closed, in milliseconds. One of
/// which no event is heard is closed after two seconds.
const CLOSED_MILLIS: u64 = 1000;

/// The stream of a session that was shut is ended at once, and closed once its peer has closed it.
fn check_shut<R>(rt: &R, alloc: Global, port: &mut AskedPort<R>, clients: &mut Vec<TcpStream>)
where
    R: Wait + Clock + Abort + Drop,
{
    check_next(rt, port, CALLS, Came::Opened(1), "the session opens");
    send(rt, last(rt, clients), b"get a\r\n");
    assert!(*rt; port.is_open(1));
    port.shut(1);
    assert!(*rt; !port.is_open(1));
    check_same(rt, sent_to(rt, alloc, last(rt, clients)), 0, "bytes");
    check_next(rt, port, 8, Came::Idle, "while its stream is read");
    clients.clear();
    let took = time_until(rt, port, Came::Ended, "the end");
    assert!(*rt; took < Duration::from_millis(CLOSED_MILLIS));
}

/// The time until the next event, which is this one.
fn time_until<R: Wait + Clock + Abort + Drop>(
    rt: &R,
    port: &mut AskedPort<R>,
    wanted: Came,
    what: &str,
) -> Duration {
    let since = Instant::now(rt).expect(rt, "a clock");
    check_next(rt, port, CALLS, wanted, what);
    since.elapsed(rt).expect(rt, "a clock")
}

/// The time until session 1 is gone, while session 2 goes on asking.
fn time_of_first_end<R>(rt: &R, port: &mut AskedPort<R>, second: &TcpStream) -> Duration
where
    R: Wait + Clock + Abort + Drop,
{
    let since = Instant::now(rt).expect(rt, "a clock");
    for _ in 0..100 {
        send(rt, second, b"get a\r\n");
        let came = next(port, CALLS);
        if came == Came::Gone(1) {
            return since.elapsed(rt).expect(rt, "a clock");
        }
        assert!(*rt; came == Came::Data(2, 7));
        thread::sleep(rt, Duration::from_millis(30));
    }
    panic!(*rt; "session 1 goes on")
}

/// Its second has passed, and not much more.
fn is_about_a_second(time: Duration) -> bool {
    Duration::from_millis(900) < time && time < Duration::from_millis(1600)
}

/// Of two sessions the first one is silent, and the second one from then on.
fn check_silent<R: Wait + Clock + Abort + Drop>(
    rt: &R,
    port: &mut AskedPort<R>,
    second: &TcpStream,
) {
    port.set_idle_limit(1);
    check_each_opens(rt, port, 2);
    assert!(*rt; is_about_a_second(time_of_first_end(rt, port, second)));
    check_next(rt, port, CALLS, Came::Data(2, 7), "a request");
    assert!(*rt; is_about_a_second(time_until(rt, port, Came::Gone(2), "the other one")));
}

/// Sends a whole piece of bytes.
fn send_piece<R: Abort>(rt: &R, alloc: Global, client: &TcpStream) {
    let piece = Vec::from_elem(alloc, b'x', MAX_PIECE).expect(rt, "memory");
    send(rt, client, piece.as_slice());
}

/// `pieces` whole pieces of bytes come of session 1, and then nothing: the session goes on.
fn check_pieces<R>(
    rt: &R,
    alloc: Global,
    port: &mut AskedPort<R>,
    client: &TcpStream,
    pieces: usize,
)
where
    R: Wait + Clock + Abort + Drop,
{
    for _ in 0..pieces {
        send_piece(rt, alloc, client);
    }
    thread::sleep(rt, Duration::from_millis(50));
    for _ in 0..pieces {
        check_next(rt, port, CALLS, Came::Data(1, MAX_PIECE), "a whole piece");
    }
    check_next(rt, port, FEW_CALLS, Came::Idle, "while nothing comes");
    assert!(*rt; port.is_open(1));
}

/// A pipeline of one whole piece, one of two, and a request.
fn check_pipeline<R>(rt: &R, alloc: Global, port: &mut AskedPort<R>, client: &TcpStream)
where
    R: Wait + Clock + Abort + Drop,
{
    check_next(rt, port, CALLS, Came::Opened(1), "the session opens");
    check_pieces(rt, alloc, port, client, 1);
    check_pieces(rt, alloc, port, client, 2);
    send(rt, client, b"get a\r\n");
    check_next(rt, port, CALLS, Came::Data(1, 7), "a request");
}

/// The sessions from number 1 on are read in turn, and all of a read comes in a row, as each client
/// has sent another piece whenever one came.
fn check_in_turn<R>(rt: &R, alloc: Global, port: &mut AskedPort<R>, fast: &[TcpStream])
where
    R: Wait + Clock + Abort + Drop,
{
    for client in fast {
        send_piece(rt, alloc, client);
        send_piece(rt, alloc, client);
    }
    let mut came = next(port, CALLS);
    for _ in 0..TURNS {
        for (session, client) in (1..=fast.len() as u64).zip(fast) {
            came = check_turn(rt, alloc, port, session, client, came);
        }
    }
}

/// A whole piece of the session came, and others of the same read follow. What comes then.
fn check_turn<R>(
    rt: &R,
    alloc: Global,
    port: &mut AskedPort<R>,
    session: u64,
    client: &TcpStream,
    first: Came,
) -> Came
where
    R: Wait + Clock + Abort + Drop,
{
    let whole = Came::Data(session, MAX_PIECE);
    assert!(*rt;
        first == whole,
        "a whole piece of the session whose turn it is"
    );
    let mut came = first;
    for _ in 0..PIECES_OF_A_READ {
        if came != whole {
            break;
        }
        send_piece(rt, alloc, client);
        came = next(port, CALLS);
    }
    came
}

fn check_all_in_turn<R>(rt: &R, alloc: Global, port: &mut AskedPort<R>, clients: &[TcpStream])
where
    R: Wait + Clock + Abort + Drop,
{
    check_each_opens(rt, port, clients.len() as u64);
    check_in_turn(rt, alloc, port, clients);
}

/// Whether a request of this session comes in so few events, while the client of session 1 sends a
/// piece whenever one was read.
fn is_heard<R>(
    rt: &R,
    alloc: Global,
    port: &mut AskedPort<R>,
    fast: &TcpStream,
    session: u64,
) -> bool
where
    R: Wait + Clock + Abort + Drop,
{
    for _ in 0..EVENTS_UNTIL_HEARD {
        match next(port, CALLS) {
            Came::Data(1, _) => send_piece(rt, alloc, fast),
            came => return came == Came::Data(session, 7),
        }
    }
    false
}

/// While the first of two clients sends fast, the second one is heard.
fn check_heard<R>(rt: &R, alloc: Global, port: &mut AskedPort<R>, clients: &[TcpStream])
where
    R: Wait + Clock + Abort + Drop,
{
    check_each_opens(rt, port, 2);
    let [fast, other] = clients else {
        panic!(*rt; "no clients")
    };
    check_in_turn(rt, alloc, port, slice::from_ref(fast));
    send(rt, other, b"get a\r\n");
    assert!(*rt; is_heard(rt, alloc, port, fast, 2));
}

/// A request and the end of input come once the session isn't paused any more.
fn check_end_of_input<R: Wait + Clock + Abort + Drop>(
    rt: &R,
    port: &mut AskedPort<R>,
    client: &TcpStream,
) {
    check_next(rt, port, CALLS, Came::Opened(1), "the session opens");
    assert!(*rt; port.is_open(1));
    port.pause(1);
    send(rt, client, b"get a\r\n");
    client.shutdown(Shutdown::Write).expect(rt, "a closed half");
    check_next(rt, port, FEW_CALLS, Came::Idle, "while it is paused");
    assert!(*rt; port.is_open(1));
    port.resume(1);
    check_next(rt, port, CALLS, Came::Data(1, 7), "its request");
    check_next(rt, port, CALLS, Came::EndOfInput(1), "the end of its input");
    check_next(rt, port, FEW_CALLS, Came::Idle, "while it is open");
    assert!(*rt; port.is_open(1));
}

/// How many bytes a client sends at once, of which more is read at a time than a piece.
const SENT_AT_ONCE: usize = 100_000;

/// After how many pieces of them the session is paused.
const PIECES_BEFORE_PAUSE: usize = 3;

/// So many bytes, of which those of one place in a piece differ.
fn numbered<R: Abort>(rt: &R, alloc: Global, count: usize) -> Vec<u8> {
    let mut bytes = Vec::with_capacity(alloc, count).expect(rt, "memory");
    for number in 0..count {
        bytes.push((number % 251) as u8).expect(rt, "memory");
    }
    bytes
}

/// While the session is paused nothing comes.
fn check_pause<R: Wait + Clock + Abort + Drop>(rt: &R, port: &mut AskedPort<R>) {
    assert!(*rt; port.is_open(1));
    port.pause(1);
    check_next(rt, port, FEW_CALLS, Came::Idle, "while it is paused");
    assert!(*rt; port.is_open(1));
    port.resume(1);
}

/// All that is read at once comes in order, though the session is paused in the middle of it, and
/// then the end of its input.
fn check_ahead<R>(rt: &R, alloc: Global, port: &mut AskedPort<R>, client: &TcpStream)
where
    R: Wait + Clock + Abort + Drop,
{
    check_next(rt, port, CALLS, Came::Opened(1), "the session opens");
    let sent = numbered(rt, alloc, SENT_AT_ONCE);
    send(rt, client, sent.as_slice());
    client.shutdown(Shutdown::Write).expect(rt, "a closed half");
    thread::sleep(rt, Duration::from_millis(50));
    let mut came = Vec::new(alloc);
    for pieces in 0..SENT_AT_ONCE {
        if pieces == PIECES_BEFORE_PAUSE {
            check_pause(rt, port);
        }
        let Some(piece) = port.input(CALLS) else {
            break;
        };
        assert!(*rt; piece.len() <= MAX_PIECE);
        came.extend_from_slice(piece.as_slice())
            .expect(rt, "memory");
    }
    assert!(*rt; came.as_slice() == sent.as_slice());
    check_next(rt, port, FEW_CALLS, Came::Idle, "while it is open");
}

/// Whether nothing but bytes comes of a port's session for `millis` milliseconds.
fn has_only_input<R: Wait + Clock + Abort + Drop>(
    rt: &R,
    port: &mut AskedPort<R>,
    millis: u64,
) -> bool {
    let since = Instant::now(rt).expect(rt, "a clock");
    for _ in 0..CALLS {
        if !matches!(port.came(true), Came::Idle | Came::Data(_, _)) {
            return false;
        }
        if since.elapsed(rt).expect(rt, "a clock") > Duration::from_millis(millis) {
            return true;
        }
    }
    false
}

/// The session of a client that speaks again and again, always sooner than its limit in seconds,
/// goes on.
fn check_goes_on<R: Wait + Clock + Abort + Drop>(
    rt: &R,
    port: &mut AskedPort<R>,
    client: &TcpStream,
    limit: u64,
    pauses: &[u64],
) {
    port.set_idle_limit(limit);
    check_next(rt, port, CALLS, Came::Opened(1), "the session opens");
    for millis in pauses {
        send(rt, client, b"get a\r\n");
        assert!(*rt;
            has_only_input(rt, port, *millis),
            "it speaks every {millis} ms"
        );
    }
}

/// The time of `calls` calls that may wait and find nothing.
fn time_of_calls<R: Wait + Clock + Abort + Drop>(
    rt: &R,
    port: &mut AskedPort<R>,
    calls: usize,
) -> Duration {
    let since = Instant::now(rt).expect(rt, "a clock");
    for _ in 0..calls {
        assert!(*rt; port.came(true) == Came::Idle);
    }
    since.elapsed(rt).expect(rt, "a clock")
}

/// A port that looks for work for a tenth of a second doesn't wait meanwhile, and waits after it.
fn check_spin<R: Wait + Clock + Abort + Drop>(rt: &R, port: &mut AskedPort<R>) {
    port.set_spin(100_000);
    check_next(rt, port, CALLS, Came::Opened(1), "the session opens");
    assert!(*rt; time_of_calls(rt, port, 20) < Duration::from_millis(50));
    thread::sleep(rt, Duration::from_millis(150));
    assert!(*rt; time_of_calls(rt, port, 1) > Duration::from_millis(90));
}

/// What is checked of a port.
#[derive(Clone, Copy)]
enum Check {
    OpensFirst,
    Pauses,
    Shuts,
    EndsTheSilent,
    ReadsWholePieces,
    ReadsInTurn,
    HearsAll,
    EndsInput,
    ReadsAhead,
    /// The limit in seconds, and the pauses in milliseconds.
    LetsSpeak(u64, &'static [u64]),
    Spins,
}

fn check_of<R>(
    rt: &R,
    alloc: Global,
    port: &mut AskedPort<R>,
    clients: &mut Vec<TcpStream>,
    check: Check,
)
where
    R: Wait + Clock + Abort + Drop,
{
    match check {
        Check::OpensFirst => check_opened(rt, port, last(rt, clients)),
        Check::Pauses => check_paused(rt, port, last(rt, clients)),
        Check::Shuts => check_shut(rt, alloc, port, clients),
        Check::EndsTheSilent => check_silent(rt, port, last(rt, clients)),
        Check::ReadsWholePieces => check_pipeline(rt, alloc, port, last(rt, clients)),
        Check::ReadsInTurn => check_all_in_turn(rt, alloc, port, clients.as_slice()),
        Check::HearsAll => check_heard(rt, alloc, port, clients.as_slice()),
        Check::EndsInput => check_end_of_input(rt, port, last(rt, clients)),
        Check::ReadsAhead => check_ahead(rt, alloc, port, last(rt, clients)),
        Check::LetsSpeak(limit, pauses) => {
            check_goes_on(rt, port, last(rt, clients), limit, pauses);
        }
        Check::Spins => check_spin(rt, port),
    }
}

/// Makes a port with `count` clients, and checks this of it.
fn check_port<R>(rt: R, alloc: Global, count: u64, check: Check)
where
    R: Wait + Clock + Net<Stream = TcpStream> + Files + Abort + Copy + Drop,
{
    let (of_listener, of_port) = hand(&rt, alloc, count);
    let mut clients = clients_with(&rt, alloc, of_listener, count);
    let mut port = AskedPort::new(rt, alloc, of_port);
    check_of(&rt, alloc, &mut port, &mut clients, check);
}

#[test]
fn all_streams_are_taken_before_bytes_are_read(rt: HostRuntime) {
    check_port(rt, rt.alloc(), 3, Check::OpensFirst);
}

#[test]
fn a_paused_session_has_no_data(rt: HostRuntime) {
    check_port(rt, rt.alloc(), 1, Check::Pauses);
}

#[test]
fn a_session_that_was_shut_has_ended(rt: HostRuntime) {
    check_port(rt, rt.alloc(), 1, Check::Shuts);
}

#[test]
fn a_silent_session_is_gone_after_its_time(rt: HostRuntime) {
    check_port(rt, rt.alloc(), 2, Check::EndsTheSilent);
}

#[test]
fn a_pipeline_of_whole_pieces_goes_on(rt: HostRuntime) {
    check_port(rt, rt.alloc(), 1, Check::ReadsWholePieces);
}

#[test]
fn clients_that_send_fast_are_read_in_turn(rt: HostRuntime) {
    check_port(rt, rt.alloc(), 3, Check::ReadsInTurn);
}

#[test]
fn a_client_that_sends_fast_keeps_no_other_from_being_heard(rt: HostRuntime) {
    check_port(rt, rt.alloc(), 2, Check::HearsAll);
}

#[test]
fn the_end_of_input_comes_once_and_after_all_input(rt: HostRuntime) {
    check_port(rt, rt.alloc(), 1, Check::EndsInput);
}

#[test]
fn what_is_read_ahead_comes_in_order_and_before_the_end(rt: HostRuntime) {
    check_port(rt, rt.alloc(), 1, Check::ReadsAhead);
}

#[test]
fn a_session_that_speaks_is_never_idle(rt: HostRuntime) {
    let first = Check::LetsSpeak(1, &[450, 950, 700, 950, 550, 900]);
    check_port(rt, rt.alloc(), 1, first);
    let second = Check::LetsSpeak(3, &[950, 700, 950, 450, 900]);
    check_port(rt, rt.alloc(), 1, second);
}

#[test]
fn a_port_that_spins_does_not_wait(rt: HostRuntime) {
    check_port(rt, rt.alloc(), 1, Check::Spins);
}
