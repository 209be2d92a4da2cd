//! Ports with their bytes, runs over them, and what a group's workers were given.

ghost use Rattle.std.specs.Prelude.{◌≡◌, [], Some, None, IsSome};

use crate::groups::keeping_port::KeepingPort;
use crate::serving::sizes;
use bytes::Bytes;
use exchange::Exchange;
use group::{Config, GroupReport, GroupWorker, run_group};
use proto::{Clock, Dialect, Storage, Terms};
use segcache::Store;
use std::alloc::Global;
use std::process::Abort;
use std::sync::Wait;
use std::thread::Threads;
use std::time;
use worker::Gate;
use worker_port::Port;

/// Who may execute requests.
pub(crate) const EACH_STORAGE: [Storage; 2] = [Storage::Thread, Storage::Workers];

/// Stores one byte under the key `a` and asks for it.
const INPUT: &[u8] = b"set a 0 0 1\r\nx\r\nget a\r\n";

/// What is answered.
const OUTPUT: &[u8] = b"STORED\r\nVALUE a 0 1\r\nx\r\nEND\r\n";

/// The bytes with this key in place of `a`.
fn with_key<R: Abort>(rt: &R, alloc: Global, bytes: &[u8], key: u8) -> Vec<u8> {
    let mut all = Vec::new(alloc);
    for byte in bytes {
        let byte = if *byte == b'a' { key } else { *byte };
        all.push(byte).expect(rt, "memory");
    }
    all
}

/// A port for each key, whose session 1 sends these bytes with the key in place of `a`.
pub(crate) fn ports_of<R: Abort>(rt: &R, alloc: Global, keys: &[u8]) -> Vec<KeepingPort> {
    let mut ports = Vec::new(alloc);
    for key in keys {
        let bytes = with_key(rt, alloc, INPUT, *key);
        let input = Bytes::copy_from_slice(alloc, bytes.as_slice()).expect(rt, "memory");
        ports
            .push(KeepingPort::new(alloc, input))
            .expect(rt, "memory");
    }
    ports
}

/// Runs a group over a new store of 64 segments.
pub(crate) fn run<P, C, G, R>(
    rt: &R,
    alloc: Global,
    ports: Vec<P>,
    clock: C,
    gate: &G,
    storage: Storage,
) -> GroupReport<P, C>
where
    P: Port + Send,
    C: Clock + Send,
    G: Gate + Sync,
    R: Abort + Threads + Wait + time::Clock + Sync,
    requires untold { (port : P) → P.told port ≡ None }
    requires unasked { IsSome (C.start clock) → C.told clock ≡ Some [] }
{
    let geometry = sizes(rt);
    let store = Store::new(alloc, geometry).expect(rt, "memory");
    let config = Config {
        terms: Terms {
            geometry,
            system_clock: false,
            may_refuse: true,
        },
        dialect: Dialect::Strict,
        spin: None,
        output_budget: None,
        storage,
    };
    let exchange = Exchange::new(alloc, ports.len(), config.terms).expect(rt, "an exchange");
    run_group(rt, alloc, ports, exchange, config, store, clock, gate).expect(rt, "a run")
}

/// Each worker's session 1 was given the whole output for its key, and was open until the port
/// ended.
pub(crate) fn are_complete<R: Abort>(
    rt: &R,
    alloc: Global,
    workers: &[GroupWorker<KeepingPort>],
    keys: &[u8],
) -> bool {
    for (worker, key) in workers.iter().zip(keys.iter()) {
        let wanted = with_key(rt, alloc, OUTPUT, *key);
        if worker.port.was_shut || worker.port.given.as_slice() != wanted.as_slice() {
            return false;
        }
    }
    workers.len() == keys.len()
}
