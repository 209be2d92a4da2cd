//! Requests and answers as texts.

ghost use Rattle.std.specs.Prelude.{◌≡◌, is_some};
ghost use Rattle.proto.specs.Answers.{is_ask};

use engine::{MAX_MOMENT, StorageEngine, carry_out};
use proto::{Dialect, Message, Next, NoMemory, Reply, next_message_in, show};
use std::alloc::Global;

/// Executes the message, if it is a request; the moment is not before the last one.
fn reply<S: StorageEngine>(store: &mut S, now: u64, message: &mut Message) -> Option<Reply>
    ensures asked { is_some result ≡ is_ask message.old }
    ensures same { message.new ≡ message.old }
{
    match message {
        Message::Ask(request, _) => {
            let now = now.min(MAX_MOMENT).max(store.last_moment());
            if now > MAX_MOMENT {
                return Some(Reply::NoMemory);
            }
            Some(carry_out(store, now, request))
        }
        _ => None,
    }
}

/// Executes the message and adds what is answered, if it is a request.
fn push_answer<E: StorageEngine>(
    store: &mut E,
    now: u64,
    message: &mut Message,
    out: &mut Vec<u8>,
) -> Result<(), NoMemory> {
    let reply = reply(store, now, message);
    if reply.is_none() {
        return Ok(());
    }
    show(message, reply.as_ref(), out)
}

fn push_first_answer<E: StorageEngine>(
    alloc: Global,
    store: &mut E,
    now: u64,
    text: &str,
    out: &mut Vec<u8>,
) -> Result<(), NoMemory> {
    match next_message_in(alloc, Dialect::Lenient(131_072), text.as_bytes())? {
        Next::Found(mut message, _) => push_answer(store, now, &mut message, out),
        Next::More => Ok(()),
    }
}

/// What the store answers to the text of one request at the moment; nothing where that isn't one,
/// or the moment has gone by.
pub fn answer<E: StorageEngine>(
    alloc: Global,
    store: &mut E,
    now: u64,
    text: &str,
) -> Result<Vec<u8>, NoMemory> {
    let mut out = Vec::new(alloc);
    if store.last_moment() > now || now > MAX_MOMENT {
        return Ok(out);
    }
    push_first_answer(alloc, store, now, text, &mut out)?;
    Ok(out)
}
