//! Two workers and storage serve two sessions each, where one growth is refused.

ghost use Rattle.std.specs.Prelude.{◌≡◌};
ghost use Rattle.proto.specs.Cache.{empty_cache};
ghost use Rattle.segcache.specs.StoreState.{sizes_in, segmented_cache, last_moment};

use crate::counters::{Counters, SteadyClock};
use crate::quiet_port::QuietPort;
use crate::served::{Outcome, Session, outcome_of};
use exchange::{Exchange, MakeFault};
use group::{Config, GroupFault, GroupReport, run_group};
use proto::{Dialect, Geometry, Storage, Terms};
use segcache::Store;
use std::alloc::Global;
use std::sync::Wait;
use std::thread::Threads;
use std::time;
use worker::OpenGate;

/// The sessions of each worker. One of them takes memory in the store, the other one none.
const SESSIONS: [[Session; 2]; 2] = [
    [
        Session {
            input: b"set a 0 0 1\r\nx\r\nget a\r\nfoo\r\n",
            whole: b"STORED\r\nVALUE a 0 1\r\nx\r\nEND\r\nERROR\r\n",
            refused: b"STORED\r\nSERVER_ERROR out of memory\r\nERROR\r\n",
        },
        Session {
            input: b"get c\r\ndelete d\r\n",
            whole: MISSES,
            refused: MISSES,
        },
    ],
    [
        Session {
            input: b"get e\r\ndelete f\r\n",
            whole: MISSES,
            refused: MISSES,
        },
        Session {
            input: b"set b 0 0 1\r\nx\r\nget b\r\n",
            whole: b"STORED\r\nVALUE b 0 1\r\nx\r\nEND\r\n",
            refused: b"STORED\r\nSERVER_ERROR out of memory\r\n",
        },
    ],
];

/// What a session is given whose requests find nothing.
const MISSES: &[u8] = b"END\r\nNOT_FOUND\r\n";

/// A port for each worker, at the second try if the first was refused.
fn ports(alloc: Global, counters: &Counters) -> Option<Vec<QuietPort<'_>>> {
    let port = |sessions: &[Session; 2]| {
        QuietPort::new(counters, [sessions[0].input, sessions[1].input])
    };
    for _ in 0..2 {
        if let Ok(ports) = vec![in alloc; port(&SESSIONS[0]), port(&SESSIONS[1])] {
            return Some(ports);
        }
    }
    None
}

/// What a run came to. A fault is allowed before anything was taken or executed.
fn judged(
    ran: Result<GroupReport<QuietPort<'_>, SteadyClock<'_>>, GroupFault>,
    counters: &Counters,
) -> Outcome {
    match ran {
        Ok(report) => match report.workers.as_slice() {
            [first, second] => {
                outcome_of(first, &SESSIONS[0]).and(outcome_of(second, &SESSIONS[1]))
            }
            _ => Outcome::Wrong,
        },
        Err(GroupFault::NoMemory | GroupFault::NoThread(_)) if counters.are_zero() =>
            Outcome::Allowed,
        Err(_) => Outcome::Wrong,
    }
}

/// Runs a group over these ports.
fn run_over<'a, R: Threads + Wait + time::Clock + Sync>(
    rt: &R,
    alloc: Global,
    counters: &'a Counters,
    ports: Vec<QuietPort<'a>>,
    geometry: Geometry,
    store: Store,
    storage: Storage,
) -> Outcome
    requires empty { (segmented_cache store ≡ empty_cache 0) × (last_moment store ≡ 0) }
    requires sizes { sizes_in store ≡ geometry }
{
    let config = Config {
        terms: Terms {
            geometry,
            system_clock: false,
            may_refuse: true,
        },
        dialect: Dialect::Strict,
        spin: None,
        output_budget: None,
        storage,
    };
    match Exchange::new(alloc, ports.len(), config.terms) {
        Ok(exchange) => {
            let clock = SteadyClock { counters };
            let ran = run_group(rt, alloc, ports, exchange, config, store, clock, &OpenGate);
            judged(ran, counters)
        }
        Err(MakeFault::NoMemory) => Outcome::Allowed,
        Err(MakeFault::BadCount) => Outcome::Wrong,
    }
}

/// Two workers serve their sessions over a new store of 64 segments.
fn run_counted<R: Threads + Wait + time::Clock + Sync>(
    rt: &R,
    alloc: Global,
    counters: &Counters,
    storage: Storage,
) -> Outcome {
    let Ok(geometry) = Geometry::new(65_536, 64) else {
        return Outcome::Wrong;
    };
    let Some(ports) = ports(alloc, counters) else {
        return Outcome::Wrong;
    };
    match Store::new(alloc, geometry) {
        Ok(store) => run_over(rt, alloc, counters, ports, geometry, store, storage),
        Err(_) => Outcome::Allowed,
    }
}

fn run<R: Threads + Wait + time::Clock + Sync>(rt: &R, alloc: Global, storage: Storage) -> Outcome {
    let counters = Counters::new();
    let outcome = run_counted(rt, alloc, &counters, storage);
    drop(counters);
    outcome
}

/// Whether each of two runs, in which other threads execute requests, comes to what a refusal
/// allows, and one of them, as no more than one of them meets the refusal, to what it comes to
/// without one.
pub fn is_named<R: Threads + Wait + time::Clock + Sync>(rt: &R, alloc: Global) -> bool {
    run(rt, alloc, Storage::Thread).and(run(rt, alloc, Storage::Workers)) != Outcome::Wrong
}
