//! Messages are read and answered again after a refusal.

ghost use Rattle.std.specs.Prelude.{◌≡◌, true};
ghost use Rattle.proto.specs.Answers.{is_ask};

use proto::{
    ByteString, Counts, Dialect, Gauges, Message, Next, Reply, Request, StatsText, next_message_in,
    show,
};
use std::alloc::Global;

/// A request of each form that is copied, and what the reply Stored makes of it.
const INPUTS: [&[u8]; 9] = [
    b"set key 7 0 5\r\nvalue\r\n",
    b"cas key 7 0 5 1\r\nvalue\r\n",
    b"append key 7 0 5\r\nvalue\r\n",
    b"get key other third\r\n",
    b"delete key\r\n",
    b"incr key 1\r\n",
    b"touch key 60\r\n",
    b"gats 60 key other\r\n",
    b"stats\r\n",
];

/// The request, if it is read at the first or the second try.
pub fn read_request(alloc: Global, input: &[u8]) -> Option<Request> {
    for _ in 0..2 {
        let next = next_message_in(alloc, Dialect::Lenient(131_072), input);
        if let Ok(Next::Found(Message::Ask(request, _), _)) = next {
            return Some(request);
        }
    }
    None
}

/// Whether the answer is appended at the first or the second try, and a refusal leaves what was
/// there.
pub fn is_shown(message: &Message, reply: &Reply, out: &mut Vec<u8>) -> bool
    requires { is_ask message.now ≡ true }
{
    for _ in 0..2 {
        let before = out.len();
        if show(message, Some(reply), out).is_ok() {
            return true;
        }
        if out.len() != before {
            return false;
        }
    }
    false
}

fn check_input(alloc: Global, input: &[u8]) -> bool {
    let Some(request) = read_request(alloc, input) else {
        return false;
    };
    let message = Message::Ask(request, false);
    let mut out = Vec::new(alloc);
    let is_shown = is_shown(&message, &Reply::Stored, &mut out);
    is_shown && out.as_slice().ends_with(b"STORED\r\n")
}

/// The lines of a `stats` before any request; None if out of memory.
fn stats_lines(alloc: Global) -> Option<ByteString> {
    let gauges = Gauges::new(alloc).ok()?;
    let text = StatsText::of(alloc, &Counts::new()).ok()?;
    let text = text.with_gauges(&gauges).ok()?.with_worker(0, 1, 2).ok()?;
    Some(text.into_lines())
}

/// Whether they are made at the first or the second try.
fn are_told(alloc: Global) -> bool {
    for _ in 0..2 {
        if let Some(lines) = stats_lines(alloc) {
            return lines.as_slice().ends_with(b"STAT worker_busy_us_0 2\r\n");
        }
    }
    false
}

pub fn is_repeatable(alloc: Global) -> bool {
    if !are_told(alloc) {
        return false;
    }
    for input in &INPUTS {
        if !check_input(alloc, input) {
            return false;
        }
    }
    true
}
