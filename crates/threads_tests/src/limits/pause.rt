//! What a port plays while its first session is paused.

ghost use Rattle.std.specs.Prelude.{◌≡◌, [], Some, true};
ghost use Rattle.worker_port.specs.Ports.{PortTrace, is_open};
ghost use Rattle.script.specs.States.{trace_told};

use crate::serving::{exchange_of_one, sizes};
use bytes::Bytes;
use exchange::WorkerLane;
use proto::Dialect;
use script::{ScriptEvent, ScriptPort};
use std::alloc::Global;
use std::process::Abort;
use std::test::Fail;
use worker_port::{Port, PortEvent};

fn is_next(rt: &impl Abort, port: &mut ScriptPort, sender: &WorkerLane, wanted: &str) {
    let event = port.next(false, sender);
    let holds = match &event {
        PortEvent::Opened(2) => wanted == "opened",
        PortEvent::Data(2, bytes) => bytes.as_slice() == wanted.as_bytes(),
        PortEvent::Idle => wanted == "idle",
        _ => false,
    };
    drop(event);
    assert!(rt; holds, "{wanted}");
}

/// A port at which session 1 was opened, and nothing else has happened, and its worker's end.
fn with_session_1(
    rt: &impl Abort,
    alloc: Global,
    events: Vec<ScriptEvent>,
) -> (ScriptPort, WorkerLane)
    ensures { (trace : PortTrace) → trace_told result.0 ≡ Some trace → is_open 1 trace.events ≡ true }
{
    let geometry = sizes(rt);
    let exchange = exchange_of_one(rt, alloc, geometry);
    let mut port = ScriptPort::new(alloc, geometry, Dialect::Strict, 0, exchange.name(), events);
    let (mut ends, _storage) = exchange.into_ends();
    let sender = ends.pop().expect(rt, "an end").batched();
    match port.next(false, &sender) {
        PortEvent::Opened(1) => (port, sender),
        _ => panic!(rt; "session 1 isn't opened first"),
    }
}

#[test]
fn other_sessions_play_beside_a_paused_one(rt: HostRuntime) -> Result<(), Fail> {
    let alloc = rt.alloc();
    let events = vec![in alloc;
        ScriptEvent::Open(1),
        ScriptEvent::Send(1, Bytes::from_static(b"first")),
        ScriptEvent::Open(2),
        ScriptEvent::Send(2, Bytes::from_static(b"second")),
    ]?;
    let (mut port, sender) = with_session_1(&rt, alloc, events);
    port.pause(1);
    is_next(&rt, &mut port, &sender, "opened");
    is_next(&rt, &mut port, &sender, "second");
    is_next(&rt, &mut port, &sender, "idle");
    Ok(())
}
