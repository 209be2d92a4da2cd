//! A port with the end of a worker that sends nothing, so that a test can ask it.

ghost use Rattle.std.specs.Prelude.{◌≡◌, [], true};
ghost use Rattle.worker_port.specs.Ports.{is_open};
ghost use Rattle.net.specs.Traces.{trace_of};

use bytes::Bytes;
use exchange::{Exchange, WorkerLane};
use net::{Hand, MioPort, Owner};
use proto::{Dialect, Geometry, Terms};
use std::alloc::Global;
use std::net::Net;
use std::process::Abort;
use std::sync::Wait;
use std::time::Clock;
use worker_port::{Port, PortEvent};

/// What came of a port, without its bytes.
#[derive(Clone, Copy, PartialEq)]
pub(crate) enum Came {
    Opened(u64),
    Data(u64, usize),
    EndOfInput(u64),
    Gone(u64),
    Ended,
    Idle,
}

fn came_by(event: PortEvent) -> Came {
    match event {
        PortEvent::Opened(session) => Came::Opened(session),
        PortEvent::Data(session, bytes) => Came::Data(session, bytes.len()),
        PortEvent::EndOfInput(session) => Came::EndOfInput(session),
        PortEvent::Gone(session) => Came::Gone(session),
        PortEvent::Ended => Came::Ended,
        PortEvent::Idle => Came::Idle,
    }
}

/// A port over sockets, in the strict dialect, and its worker's end.
#[derive(Drop)]
pub(crate) struct AskedPort<R: Drop> {
    port: MioPort<R>,
    end: WorkerLane,
    ghost whose: { ((trace_of port.served).exchange ≡ end.end.exchange) × ((trace_of port.served).worker ≡ end.end.worker)
        × (end.end.sent ≡ []) },
}

/// The end of the only worker of an exchange, which has sent nothing.
fn idle_end<R: Abort>(rt: &R, exchange: Exchange) -> WorkerLane
    requires { exchange.workers ≡ 1 }
    ensures { (result.end.exchange ≡ exchange.id) × (result.end.worker ≡ 0) × (result.end.sent ≡ []) }
{
    let (mut ends, _storage) = exchange.into_ends();
    let end = ends.pop().expect(rt, "an end");
    end.batched()
}

impl<R: Wait + Clock + Net + Abort + Copy + Drop> AskedPort<R> {
    /// The port of a hand.
    pub(crate) fn new(rt: R, alloc: Global, hand: Hand) -> AskedPort<R> {
        let geometry = Geometry::new(65_536, 64).expect(&rt, "a geometry");
        let terms = Terms {
            geometry,
            system_clock: true,
            may_refuse: false,
        };
        let exchange = Exchange::new(alloc, 1, terms).expect(&rt, "an exchange");
        let owner = Owner {
            geometry,
            dialect: Dialect::Strict,
            worker: 0,
        };
        let port = MioPort::new(rt, alloc, hand, owner, exchange.name()).expect(&rt, "a port");
        let end = idle_end(&rt, exchange);
        AskedPort { port, end }
    }
}

impl<R: Wait + Clock + Drop> AskedPort<R> {
    fn next(&mut self, may_wait: bool) -> PortEvent {
        self.port.next(may_wait, &self.end)
    }

    /// What comes next.
    pub(crate) fn came(&mut self, may_wait: bool) -> Came {
        came_by(self.next(may_wait))
    }

    /// The bytes that come next; none if something else does, or nothing in so many calls.
    pub(crate) fn input(&mut self, calls: usize) -> Option<Bytes> {
        for _ in 0..calls {
            match self.next(false) {
                PortEvent::Data(_, bytes) => return Some(bytes),
                PortEvent::Idle => {}
                _ => return None,
            }
        }
        None
    }

    pub(crate) fn is_open(&self, session: u64) -> bool
        ensures { is_open session (trace_of self.now.port.served).events ≡ result }
    {
        self.port.is_open(session)
    }

    pub(crate) fn pause(&mut self, session: u64)
        requires { is_open session (trace_of self.old.port.served).events ≡ true }
    {
        self.port.pause(session);
    }

    pub(crate) fn resume(&mut self, session: u64)
        requires { is_open session (trace_of self.old.port.served).events ≡ true }
    {
        self.port.resume(session);
    }

    pub(crate) fn shut(&mut self, session: u64)
        requires { is_open session (trace_of self.old.port.served).events ≡ true }
    {
        self.port.shut(session);
    }

    pub(crate) fn set_idle_limit(&mut self, seconds: u64) {
        self.port.set_idle_limit(seconds);
    }

    pub(crate) fn set_spin(&mut self, micros: u32) {
        self.port.set_spin(micros);
    }
}
