//! Runs that are large in one way: each finds memory, in the plain program and over the exchange.

use crate::limits::talk::{Shape, input_of, output_of, script_of};
use crate::same::check_same;
use crate::serving::{exchange_of_one, serve, sizes};
use proto::{Dialect, Geometry};
use reference::{PlainStore, replay_sequentially};
use script::{ScriptClock, ScriptPort, WorkerScript, read_script};
use std::alloc::Global;
use std::process::Abort;
use std::sync::Wait;
use std::test::Fail;
use std::thread::Threads;
use std::time;
use worker::OpenGate;

/// The size and the number of a store's segments; and the bytes of a value, how many keys stand in
/// a line that asks for it, and how many such lines there are.
type Row = ((u32, u32), (usize, usize, usize));

/// As many keys as a line of 2,048 bytes has room for.
const MANY_KEYS: [Row; 1] = [((65_536, 64), (1, 1021, 3))];

/// Two answers of more than 1 MiB.
const LARGE_ANSWERS: [Row; 1] = [((65_536, 64), (8000, 150, 2))];

/// The longest values, in answers of up to 4 MiB and more.
const LONG_VALUES: [Row; 2] = [
    ((1_048_576, 8), (131_047, 1, 3)),
    ((1_048_576, 8), (131_000, 34, 2)),
];

/// A store of 2 GiB, the largest store, and the most segments of the smallest size.
const LARGE_STORES: [Row; 3] = [
    ((1_048_576, 2048), (1, 1, 1)),
    ((1_048_576, 65_536), (131_047, 1, 1)),
    ((4096, 65_536), (487, 2, 2)),
];

/// The events of worker 0.
fn events_of<R: Abort>(rt: &R, alloc: Global, script: &[u8]) -> WorkerScript {
    let mut scripts = read_script(alloc, script, 1).expect(rt, "a script");
    scripts.pop().expect(rt, "a worker")
}

/// What each of `sessions` sessions of a script is given, over a store of these sizes.
#[derive(Clone, Copy)]
struct Case<'a> {
    geometry: Geometry,
    sessions: u64,
    script: &'a [u8],
    output: &'a [u8],
}

/// The plain program gives each session its output.
fn check_straight<R: Abort>(rt: &R, alloc: Global, case: &Case) {
    let events = events_of(rt, alloc, case.script);
    let store = PlainStore::new(alloc, case.geometry).expect(rt, "memory");
    let clock = ScriptClock::new(1000, 0);
    let given = replay_sequentially(alloc, store, clock, events.as_slice()).expect(rt, "memory");
    check_same(rt, given.len() as u64, case.sessions, "sessions");
    for session in given.as_slice() {
        let is_given = session.output.as_slice() == case.output;
        check_same(rt, is_given, true, session.session);
    }
}

/// The most bytes that a give accepts, and the give at which the peer is gone; 0 is none for
/// either.
type Faults = (usize, u64);

/// A port that plays the script was given what each session of the case should be.
fn check_port<R: Abort>(rt: &R, port: &ScriptPort, case: &Case) {
    for session in 1..=case.sessions {
        let is_given = port.given(session) == case.output;
        check_same(rt, is_given, true, session);
    }
}

/// A worker opens each session and gives it its output, over a port with these faults.
fn check_worker<R: Abort + Threads + Wait + time::Clock + Copy + Drop + Send + Sync + 'static>(
    rt: &R,
    alloc: Global,
    case: &Case,
    (accept, fail_give): Faults,
) {
    let events = events_of(rt, alloc, case.script).into_events();
    let exchange = exchange_of_one(rt, alloc, case.geometry);
    let name = exchange.name();
    let port = ScriptPort::new(alloc, case.geometry, Dialect::Strict, 0, name, events).with_faults(
        accept, fail_give,
    );
    let served = serve(rt, alloc, case.geometry, exchange, port, &OpenGate);
    check_port(rt, &served.port, case);
}

/// Each of `sessions` sessions is given what it asked for: by the plain program; by a worker, in at
/// most as many gives as there are lines; and by a worker whose port accepts little at once.
fn check_run<R: Abort + Threads + Wait + time::Clock + Copy + Drop + Send + Sync + 'static>(
    rt: &R,
    alloc: Global,
    geometry: Geometry,
    sessions: u64,
    shape: Shape,
) {
    let input = input_of(rt, alloc, shape);
    let output = output_of(rt, alloc, shape);
    let script = script_of(rt, alloc, sessions, input.as_slice());
    let case = &Case {
        geometry,
        sessions,
        script: script.as_slice(),
        output: output.as_slice(),
    };
    check_straight(rt, alloc, case);
    let gives = sessions.saturating_mul(shape.lines as u64);
    check_worker(rt, alloc, case, (0, gives.saturating_add(1)));
    check_worker(rt, alloc, case, (65_536, 0));
}

fn check_rows<R: Abort + Threads + Wait + time::Clock + Copy + Drop + Send + Sync + 'static>(
    rt: &R,
    alloc: Global,
    rows: &[Row],
) -> Result<(), Fail> {
    for ((segment_size, segments), (value, keys, lines)) in rows {
        let geometry = Geometry::new(*segment_size, *segments)?;
        let shape = Shape {
            value: *value,
            keys: *keys,
            lines: *lines,
        };
        check_run(rt, alloc, geometry, 1, shape);
    }
    Ok(())
}

#[test]
fn lines_of_1021_keys(rt: HostRuntime) -> Result<(), Fail> {
    check_rows(&rt, rt.alloc(), &MANY_KEYS)
}

#[test]
fn answers_above_1_mib(rt: HostRuntime) -> Result<(), Fail> {
    check_rows(&rt, rt.alloc(), &LARGE_ANSWERS)
}

#[test]
fn the_longest_values(rt: HostRuntime) -> Result<(), Fail> {
    check_rows(&rt, rt.alloc(), &LONG_VALUES)
}

#[test]
fn stores_of_2_gib_and_more(rt: HostRuntime) -> Result<(), Fail> {
    check_rows(&rt, rt.alloc(), &LARGE_STORES)
}

#[test]
fn many_sessions_are_open_at_once(rt: HostRuntime) {
    let shape = Shape {
        value: 1,
        keys: 1,
        lines: 1,
    };
    check_run(&rt, rt.alloc(), sizes(&rt), 1500, shape);
}
