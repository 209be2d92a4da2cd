//! Runs of whole groups.

use crate::clock::{CountingClock, SteadyClock};
use crate::groups::keeping_port::KeepingPort;
use crate::groups::meeting::{Meeting, MeetingClock};
use crate::groups::running::{EACH_STORAGE, are_complete, ports_of, run};
use crate::groups::second_gate::SecondGate;
use crate::same::check_same;
use bytes::Bytes;
use group::GroupReport;
use proto::Storage;
use std::alloc::Global;
use std::process::Abort;
use std::test::Fail;
use worker::{HoldGate, OpenGate};

#[test]
fn one_worker_drains(rt: HostRuntime) {
    let alloc: Global = rt.alloc();
    for storage in EACH_STORAGE {
        let clock = CountingClock { last: 0 };
        let ports = ports_of(&rt, alloc, b"a");
        let report = run(&rt, alloc, ports, clock, &OpenGate, storage);
        assert!(rt; are_complete(&rt, alloc, report.workers.as_slice(), b"a"));
        check_same(&rt, report.executed, 2, "executed");
        check_same(&rt, report.clock.last, 2, "moments");
    }
}

fn check_waited(rt: &impl Abort, alloc: Global, report: &GroupReport<KeepingPort, SteadyClock>) {
    assert!(*rt; are_complete(rt, alloc, report.workers.as_slice(), b"ab"));
    check_same(rt, report.executed, 4, "executed");
    let two_each: &[u64] = &[2, 2, 0, 0, 0, 0, 0, 0];
    check_same(rt, report.gathered.sent.as_slice(), two_each, "sent");
    check_same(rt, report.gathered.back.as_slice(), two_each, "back");
}

#[test]
fn two_workers_wait_for_each_other(rt: HostRuntime) {
    let alloc: Global = rt.alloc();
    for storage in EACH_STORAGE {
        let gate = HoldGate::new();
        let ports = ports_of(&rt, alloc, b"ab");
        let report = run(&rt, alloc, ports, SteadyClock, &gate, storage);
        check_waited(&rt, alloc, &report);
        assert!(rt; !gate.spent());
    }
}

#[test]
fn all_apart(rt: HostRuntime) {
    let alloc: Global = rt.alloc();
    let keys = b"abcdefgh";
    let meeting = Meeting::new();
    let clock = MeetingClock { meeting: &meeting };
    let ports = ports_of(&rt, alloc, keys);
    let report = run(&rt, alloc, ports, clock, &meeting, Storage::Thread);
    check_same(&rt, meeting.given_up(), 0, "stays given up");
    assert!(rt; are_complete(&rt, alloc, report.workers.as_slice(), keys));
    check_same(&rt, report.executed, 16, "executed");
}

fn check_seen(rt: &impl Abort, report: &GroupReport<KeepingPort, SteadyClock>) {
    let [first, second] = report.workers.as_slice() else {
        panic!(*rt; "two workers")
    };
    let stored: &[u8] = b"STORED\r\n";
    let wanted: &[u8] = b"VALUE a 0 1\r\nx\r\nEND\r\n";
    check_same(rt, first.port.given.as_slice(), stored, "the first");
    check_same(rt, second.port.given.as_slice(), wanted, "the second");
}

#[test]
fn two_workers_see_one_cache(rt: HostRuntime) -> Result<(), Fail> {
    let alloc: Global = rt.alloc();
    for storage in EACH_STORAGE {
        let set = Bytes::from_static(b"set a 0 0 1\r\nx\r\n");
        let get = Bytes::from_static(b"get a\r\n");
        let ports = vec![in alloc; KeepingPort::new(alloc, set), KeepingPort::new(alloc, get)]?;
        let report = run(&rt, alloc, ports, SteadyClock, &SecondGate::new(), storage);
        check_seen(&rt, &report);
    }
    Ok(())
}
