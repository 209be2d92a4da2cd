//! Hands that are full, or used up.

use crate::asked_port::{AskedPort, Came};
use crate::clients::{Unheard, connect_all, hand, handed_out, listener, read_all};
use crate::common::check_same;
use net::{Hand, ListenReport, Listener, Notices, StreamSender};
use std::alloc::Global;
use std::fs::Files;
use std::net::{Net, TcpStream};
use std::process::Abort;
use std::sync::Wait;
use std::thread::{self, Threads};
use std::time::{Clock, Duration, Instant};

/// How many times a port is asked until it has to have ended.
const CALLS: usize = 100_000;

/// How many bytes come on the last of some connections. They are kept open until that one has
/// ended.
fn read_last<R: Abort>(rt: &R, alloc: Global, streams: Vec<TcpStream>) -> usize {
    match streams.last() {
        Some(last) => read_all(rt, alloc, last).len(),
        None => panic!(*rt; "no connection"),
    }
}

/// How many streams were accepted, how many of them closed, and how many accepts failed.
fn check_report<R: Abort>(rt: &R, report: ListenReport, wanted: (u64, u64, u64)) {
    let given = (report.accepted, report.closed, report.failed);
    check_same(rt, given, wanted, "the report");
}

#[test]
fn a_full_hand_has_64_streams_and_the_next_is_closed(rt: HostRuntime) {
    let alloc: Global = rt.alloc();
    let (of_listener, of_port) = hand(&rt, alloc, 100);
    let mut listener = listener(&rt, alloc);
    let clients = connect_all(&rt, alloc, listener.port(), 65);
    let report = handed_out(&rt, &mut listener, of_listener, 65);
    check_same(
        &rt,
        read_last(&rt, alloc, clients),
        b"ERROR Too many open connections\r\n".len(),
        "bytes of the last one",
    );
    check_report(&rt, report, (65, 1, 0));
    drop(of_port);
}

/// A listener closes those of 264 streams that find no room in a hand, in about a second.
fn check_closed<R>(rt: &R, alloc: Global, listener: &mut Listener, hand: StreamSender)
where
    R: Wait + Clock + Net<Stream = TcpStream> + Files + Abort,
{
    let clients = connect_all(rt, alloc, listener.port(), 264);
    let since = Instant::now(rt).expect(rt, "a clock");
    let report = handed_out(rt, listener, hand, 264);
    let took = since.elapsed(rt).expect(rt, "a clock");
    check_same(rt, took < Duration::from_millis(1100), true, "the time");
    check_report(rt, report, (264, 200, 0));
    drop(clients);
}

#[test]
fn streams_that_no_hand_takes_are_closed_within_a_second_or_so(rt: HostRuntime) {
    let alloc: Global = rt.alloc();
    let (of_listener, of_port) = hand(&rt, alloc, 1000);
    check_closed(&rt, alloc, &mut listener(&rt, alloc), of_listener);
    drop(of_port);
}

/// How many sessions the port of a hand opens until it has ended, if it does.
fn sessions_of<R: Wait + Clock + Net + Abort + Copy + Drop>(
    rt: R,
    alloc: Global,
    hand: Hand,
) -> Option<u64> {
    let mut port = AskedPort::new(rt, alloc, hand);
    sessions_opened(&mut port)
}

/// A listener takes three of four streams for a hand for one and another one for two, and ends.
fn check_used_up<R>(rt: &R, alloc: Global, small: StreamSender, large: StreamSender)
where
    R: Wait + Clock + Net<Stream = TcpStream> + Files + Abort,
{
    let mut listener = listener(rt, alloc);
    let clients = connect_all(rt, alloc, listener.port(), 4);
    let report = listener.run_heard(rt, &mut [small, large], None, &mut Unheard);
    check_report(rt, report, (4, 1, 0));
    check_same(
        rt,
        read_last(rt, alloc, clients),
        0,
        "bytes of the last one",
    );
}

#[test]
fn a_listener_ends_once_all_hands_are_used_up(rt: HostRuntime) {
    let alloc: Global = rt.alloc();
    let (small, of_small) = hand(&rt, alloc, 1);
    let (large, of_large) = hand(&rt, alloc, 2);
    check_used_up(&rt, alloc, small, large);
    check_same(
        &rt,
        sessions_of(rt, alloc, of_small),
        Some(1),
        "the small one",
    );
    check_same(
        &rt,
        sessions_of(rt, alloc, of_large),
        Some(2),
        "the large one",
    );
}

/// Ends a session whose peer sends no more, as a worker does that owes it nothing.
fn end_session<R: Wait + Clock + Drop>(port: &mut AskedPort<R>, session: u64) {
    if port.is_open(session) {
        port.shut(session);
    }
}

/// How many sessions a port opens until it has ended, if it does.
fn sessions_opened<R: Wait + Clock + Drop>(port: &mut AskedPort<R>) -> Option<u64> {
    let mut opened = 0;
    for _ in 0..CALLS {
        match port.came(true) {
            Came::Opened(number) => opened = number,
            Came::EndOfInput(session) => end_session(port, session),
            Came::Ended => return Some(opened),
            _ => {}
        }
    }
    None
}

/// As many sessions as a port has open at most.
const SESSIONS: u64 = 1024;

/// How many sessions an event opens, and how many it ends. A session that sends no more is shut.
fn opened_and_ended<R: Wait + Clock + Drop>(port: &mut AskedPort<R>, came: Came) -> (u64, u64) {
    match came {
        Came::Opened(_) => (1, 0),
        Came::Gone(_) => (0, 1),
        Came::EndOfInput(session) => {
            end_session(port, session);
            (0, 1)
        }
        _ => (0, 0),
    }
}

/// Waits until `opened` sessions were opened and `ended` sessions ended.
fn await_sessions<R>(rt: &R, port: &mut AskedPort<R>, opened: u64, ended: u64)
where
    R: Wait + Clock + Abort + Drop,
{
    let mut opened_now: u64 = 0;
    let mut ended_now: u64 = 0;
    for _ in 0..CALLS {
        if opened_now >= opened && ended_now >= ended {
            return;
        }
        let came = port.came(true);
        let counts = opened_and_ended(port, came);
        opened_now = opened_now.saturating_add(counts.0);
        ended_now = ended_now.saturating_add(counts.1);
    }
    panic!(*rt; "some sessions are missing")
}

/// So many calls that don't wait poll often enough to bring all that has come, and too seldom to be
/// taken not to end.
const POLLING_CALLS: usize = 4096;

/// How many sessions a port opens of the streams that have come.
fn opened_now<R: Wait + Clock + Drop>(port: &mut AskedPort<R>) -> u64 {
    let mut opened: u64 = 0;
    for _ in 0..POLLING_CALLS {
        if let Came::Opened(_) = port.came(false) {
            opened = opened.saturating_add(1);
        }
    }
    opened
}

/// A worker's port that has all the sessions that it takes, with what gave it them.
#[derive(Drop)]
struct FullWorker<R: Drop> {
    listener: Listener,
    hands: Vec<StreamSender>,
    port: AskedPort<R>,
    clients: Vec<TcpStream>,
}

/// Accepts as many streams as a port takes, and hands them out.
fn hand_out_all<R: Wait + Clock + Abort>(
    rt: &R,
    listener: &mut Listener,
    hands: &mut [StreamSender],
) {
    let report = listener.run_heard(rt, hands, Some(SESSIONS), &mut Unheard);
    check_same(rt, report.closed, 0, "streams that were closed");
}

/// The same in a thread of its own, while the port takes them.
fn fill<R>(
    rt: R,
    mut listener: Listener,
    mut hands: Vec<StreamSender>,
    port: &mut AskedPort<R>,
) -> (Listener, Vec<StreamSender>)
where
    R: Threads + Wait + Clock + Abort + Copy + Drop + Send + 'static,
{
    let listening = thread::spawn(&rt, move || {
        hand_out_all(&rt, &mut listener, hands.as_mut_slice());
        (listener, hands)
    })
    .expect(&rt, "a thread");
    await_sessions(&rt, port, SESSIONS, 0);
    listening.join(&rt)
}

/// The port of a further hand.
fn port_of_hand<R>(rt: R, alloc: Global, hands: &mut Vec<StreamSender>) -> AskedPort<R>
where
    R: Wait + Clock + Net + Abort + Copy + Drop,
{
    let (of_listener, of_port) = hand(&rt, alloc, 2 * SESSIONS);
    hands.push(of_listener).expect(&rt, "memory");
    AskedPort::new(rt, alloc, of_port)
}

fn full_worker<R>(rt: R, alloc: Global) -> FullWorker<R>
where
    R: Threads
        + Wait
        + Clock
        + Net<Stream = TcpStream>
        + Files
        + Abort
        + Copy
        + Drop
        + Send
        + 'static,
{
    let mut hands = Vec::new(alloc);
    let mut port = port_of_hand(rt, alloc, &mut hands);
    let listener = listener(&rt, alloc);
    let clients = connect_all(&rt, alloc, listener.port(), SESSIONS);
    let (listener, hands) = fill(rt, listener, hands, &mut port);
    FullWorker {
        listener,
        hands,
        port,
        clients,
    }
}

/// How many of `count` further streams a worker that was full is given, where an empty one is given
/// the rest.
fn share_of_full<R>(
    rt: &R,
    alloc: Global,
    full: &mut FullWorker<R>,
    empty: &mut AskedPort<R>,
    count: u64,
) -> u64
where
    R: Wait + Clock + Net<Stream = TcpStream> + Files + Abort + Drop,
{
    let clients = connect_all(rt, alloc, full.listener.port(), count);
    let hands = full.hands.as_mut_slice();
    let report = full
        .listener
        .run_heard(rt, hands, Some(count), &mut Unheard);
    check_same(
        rt,
        (report.accepted, report.closed),
        (count, 0),
        "the report",
    );
    let share = opened_now(&mut full.port);
    check_same(rt, share.saturating_add(opened_now(empty)), count, "all");
    drop(clients);
    share
}

/// Beside an empty worker a full one gets streams once it has room.
fn check_room<R>(rt: R, alloc: Global, full: &mut FullWorker<R>)
where
    R: Wait + Clock + Net<Stream = TcpStream> + Files + Abort + Copy + Drop,
{
    let mut empty = port_of_hand(rt, alloc, &mut full.hands);
    check_shares(&rt, alloc, full, &mut empty);
}

/// All streams go to the empty worker, until the full one has room too.
fn check_shares<R>(rt: &R, alloc: Global, full: &mut FullWorker<R>, empty: &mut AskedPort<R>)
where
    R: Wait + Clock + Net<Stream = TcpStream> + Files + Abort + Drop,
{
    check_same(
        rt,
        share_of_full(rt, alloc, full, empty, 20),
        0,
        "while it is full",
    );
    full.clients.clear();
    await_sessions(rt, &mut full.port, 0, SESSIONS);
    check_same(
        rt,
        share_of_full(rt, alloc, full, empty, 20),
        10,
        "once it has room",
    );
}

/// What a listener said.
#[derive(Clone, Copy)]
struct Said {
    full: u64,
    waiting: usize,
    failed: u64,
}

impl Notices for Said {
    fn workers_are_full(&mut self, waiting: usize, _closed: u64) {
        self.full = self.full.saturating_add(1);
        self.waiting = waiting;
    }

    fn accepts_fail(&mut self, _failed: u64) {
        self.failed = self.failed.saturating_add(1);
    }
}

/// Of 70 further streams 6 are closed, which is said once.
fn check_said<R>(rt: &R, alloc: Global, full: &mut FullWorker<R>)
where
    R: Wait + Clock + Net<Stream = TcpStream> + Files + Abort + Drop,
{
    let clients = connect_all(rt, alloc, full.listener.port(), 70);
    let mut said = Said {
        full: 0,
        waiting: 0,
        failed: 0,
    };
    let hands = full.hands.as_mut_slice();
    let report = full.listener.run_heard(rt, hands, Some(70), &mut said);
    check_same(rt, (report.accepted, report.closed), (70, 6), "the report");
    check_same(
        rt,
        (said.full, said.waiting, said.failed),
        (1, 6, 0),
        "what it said",
    );
    drop(clients);
}

/// What is checked of a full worker.
#[derive(Clone, Copy)]
enum Check {
    IsSaid,
    GetsNoMore,
}

fn check_full<R>(rt: R, alloc: Global, check: Check)
where
    R: Threads
        + Wait
        + Clock
        + Net<Stream = TcpStream>
        + Files
        + Abort
        + Copy
        + Drop
        + Send
        + 'static,
{
    let mut full = full_worker(rt, alloc);
    match check {
        Check::IsSaid => check_said(&rt, alloc, &mut full),
        Check::GetsNoMore => check_room(rt, alloc, &mut full),
    }
}

#[test]
fn streams_go_to_the_worker_that_has_room(rt: HostRuntime) {
    check_full(rt, rt.alloc(), Check::GetsNoMore);
}

#[test]
fn that_all_workers_are_full_is_said_once(rt: HostRuntime) {
    check_full(rt, rt.alloc(), Check::IsSaid);
}
