//! A listener, and clients of it.

use net::{Hand, ListenReport, Listener, Notices, StreamSender};
use std::alloc::Global;
use std::fs::Files;
use std::io::{Read, Write};
use std::net::{Net, TcpStream};
use std::process::Abort;
use std::sync::Wait;
use std::time::Clock;

/// A listener at a free port of this machine.
pub(crate) fn listener<R: Net + Files + Abort>(rt: &R, alloc: Global) -> Listener {
    Listener::bind(rt, alloc, "127.0.0.1:0", 0o700).expect(rt, "a listener")
}

/// Both ends of a hand for so many streams.
pub(crate) fn hand<R: Net + Abort>(rt: &R, alloc: Global, streams: u64) -> (StreamSender, Hand) {
    Hand::pair(rt, alloc, streams).expect(rt, "a hand")
}

/// Accepts `count` streams, and hands them out.
pub(crate) fn handed_out<R: Wait + Clock>(
    rt: &R,
    listener: &mut Listener,
    hand: StreamSender,
    count: u64,
) -> ListenReport {
    listener.run_heard(rt, &mut [hand], Some(count), &mut Unheard)
}

fn connect<R: Net<Stream = TcpStream> + Abort>(rt: &R, alloc: Global, port: u16) -> TcpStream {
    let addr = format!(in alloc; "127.0.0.1:{port}").expect(rt, "memory");
    TcpStream::connect(rt, addr.as_str()).expect(rt, "a connection")
}

/// Opens `count` connections.
pub(crate) fn connect_all<R: Net<Stream = TcpStream> + Abort>(
    rt: &R,
    alloc: Global,
    port: u16,
    count: u64,
) -> Vec<TcpStream> {
    let mut streams = Vec::new(alloc);
    for _ in 0..count {
        streams.push(connect(rt, alloc, port)).expect(rt, "memory");
    }
    streams
}

pub(crate) fn send<R: Abort>(rt: &R, stream: &TcpStream, bytes: &[u8]) {
    let mut writer: &TcpStream = stream;
    writer.write_all(bytes).expect(rt, "bytes sent");
}

/// All that comes until the end.
pub(crate) fn read_all<R: Abort>(rt: &R, alloc: Global, stream: &TcpStream) -> Vec<u8> {
    let mut all = Vec::new(alloc);
    let mut reader: &TcpStream = stream;
    let _ = reader.read_to_end(&mut all).expect(rt, "bytes read");
    all
}

/// Hears nothing of what is amiss.
#[derive(Clone, Copy)]
pub(crate) struct Unheard;

impl Notices for Unheard {
    fn workers_are_full(&mut self, _waiting: usize, _closed: u64) {}

    fn accepts_fail(&mut self, _failed: u64) {}
}
