//! The bytes that answer a message, whether its reply is there already or is still to come. The
//! room of a whole answer is reserved before its first byte is written.

ghost use Rattle.std.specs.Prelude.{◌≡◌, ◌++◌, is_some, option_copied, None, IsOk, IsTrue};
ghost use Rattle.std.specs.Prelude.{OnOk, OnErr};
ghost use Rattle.std.specs.Option.{option_copied_mut};
ghost use Rattle.proto.specs.Answers.{answer, is_ask, is_silent, reply_bytes};
ghost use Rattle.proto.specs.Lines.{line_end};

use crate::hits::show_lines;
use crate::message::{FatalKind, LocalKind, Message, Reply};
use crate::no_memory::NoMemory;
use crate::version::TOLD_VERSION;
use itoa::Buffer;
use std::marker::Model;
use std::snapshot::Snapshot;

/// Appends a line, or changes nothing.
fn show_line(out: &mut Vec<u8>, text: &[u8]) -> Result<(), NoMemory>
    ensures ok { OnOk result (out.new.items ≡ out.old.items ++ text.now ++ line_end) }
    ensures err { OnErr result (out.new.items ≡ out.old.items) }
{
    out.reserve(text.len() + 2)?;
    out.extend_from_slice(text).unwrap();
    out.extend_from_slice(b"\r\n").unwrap();
    Ok(())
}

/// Appends the answer that shows a reply, or changes nothing.
fn show_copied(out: &mut Vec<u8>, reply: &Reply) -> Result<(), NoMemory>
    ensures ok { OnOk result (out.new.items ≡ out.old.items ++ reply_bytes reply.now) }
    ensures err { OnErr result (out.new.items ≡ out.old.items) }
{
    match reply {
        Reply::Stored => show_line(out, b"STORED"),
        Reply::NotStored => show_line(out, b"NOT_STORED"),
        Reply::Exists => show_line(out, b"EXISTS"),
        Reply::NotFound => show_line(out, b"NOT_FOUND"),
        Reply::Values(hits) => show_lines(out, hits.text.as_slice()),
        Reply::Deleted => show_line(out, b"DELETED"),
        Reply::Number(n) => {
            let mut buffer = Buffer::new();
            show_line(out, buffer.format(*n).as_bytes())
        }
        Reply::Touched => show_line(out, b"TOUCHED"),
        Reply::Flushed => show_line(out, b"OK"),
        Reply::TooLarge => show_line(out, b"SERVER_ERROR object too large for cache"),
        Reply::NoMemory => show_line(out, b"SERVER_ERROR out of memory"),
        Reply::NotNumber => {
            show_line(
                out,
                b"CLIENT_ERROR cannot increment or decrement non-numeric value",
            )
        }
        Reply::NoCas => show_line(out, b"SERVER_ERROR out of cas numbers"),
        Reply::Stats(lines) => show_lines(out, lines.as_slice()),
    }
}

/// What of a message its answer depends on.
#[derive(Clone, Copy)]
pub(crate) enum AnswerKind {
    Ask,
    QuietAsk,
    Local(LocalKind),
    Quit,
    Fatal(FatalKind),
}

/// The answer to a message, which is still to be given. Clauses see the message; of its bytes
/// nothing is kept but its kind.
#[derive(Drop)]
pub struct PendingAnswer {
    kind: AnswerKind,
    message: Snapshot<Message>,
}

impl Model for PendingAnswer {
    ghost use Rattle.proto.specs.declared.message.Message.{Message};

    ghost Value = { Message };

    ghost use Rattle.std.specs.Prelude.{◌≡◌};
    ghost use Rattle.proto.specs.AnswerKinds.{kind_of};

    ghost view = { λ a. a.message.value };

    ghost invariant = { λ a. a.kind ≡ kind_of a.message.value };
}

impl PendingAnswer {
    pub fn of(message: &Message) -> Self
        ensures { result ≡ message.now }
    {
        let kind = match message {
            Message::Ask(_, true) => AnswerKind::QuietAsk,
            Message::Ask(_, false) => AnswerKind::Ask,
            Message::Local(kind) => AnswerKind::Local(*kind),
            Message::Quit => AnswerKind::Quit,
            Message::Fatal(kind) => AnswerKind::Fatal(*kind),
        };
        let message = Snapshot::of(message);
        PendingAnswer { kind, message }
    }

    pub fn is_ask(&self) -> bool
        ensures { result ≡ is_ask self.now }
    {
        matches!(self.kind, AnswerKind::Ask | AnswerKind::QuietAsk)
    }

    /// Appends the answer. The buffer of hits may be swapped with that of an empty output
    /// (`Hits::give`). NoMemory if out of memory: then the output is unchanged. A message without
    /// an answer needs no memory.
    pub fn show(&self, reply: Option<&mut Reply>, out: &mut Vec<u8>) -> Result<(), NoMemory>
        requires { is_some reply ≡ is_ask self.now }
        ensures ok { OnOk result (out.new.items ≡ out.old.items ++ answer self.now (option_copied_mut reply.entry)) }
        ensures err { OnErr result (out.new.items ≡ out.old.items) }
        ensures silent { IsTrue (is_silent self.now) → IsOk result }
    {
        match (self.kind, reply) {
            (AnswerKind::Ask, Some(Reply::Values(hits))) => hits.give(out),
            (AnswerKind::Ask, Some(reply)) => show_copied(out, reply),
            _ => self.show_local(out),
        }
    }

    /// Appends the answer if no reply is a part of it, or changes nothing.
    fn show_local(&self, out: &mut Vec<u8>) -> Result<(), NoMemory>
        ensures ok { OnOk result (out.new.items ≡ out.old.items ++ answer self.now None) }
        ensures err { OnErr result (out.new.items ≡ out.old.items) }
        ensures silent { IsTrue (is_silent self.now) → IsOk result }
    {
        match self.kind {
            AnswerKind::Ask
            | AnswerKind::QuietAsk
            | AnswerKind::Local(LocalKind::Silent | LocalKind::TooLarge(true))
            | AnswerKind::Quit
            | AnswerKind::Fatal(FatalKind::Binary) => Ok(()),
            AnswerKind::Local(LocalKind::Unknown) => show_line(out, b"ERROR"),
            AnswerKind::Local(LocalKind::Version) => {
                out.reserve(TOLD_VERSION.len() + 10)?;
                out.extend_from_slice(b"VERSION ").unwrap();
                out.extend_from_slice(TOLD_VERSION.as_bytes()).unwrap();
                out.extend_from_slice(b"\r\n").unwrap();
                Ok(())
            }
            AnswerKind::Local(LocalKind::Verbosity) => show_line(out, b"OK"),
            AnswerKind::Local(LocalKind::End) => show_line(out, b"END"),
            AnswerKind::Local(LocalKind::BadLine) | AnswerKind::Fatal(FatalKind::BadLine) => {
                show_line(out, b"CLIENT_ERROR bad command line format")
            }
            AnswerKind::Fatal(FatalKind::LongLine) => show_line(out, b"CLIENT_ERROR line too long"),
            AnswerKind::Fatal(FatalKind::BadChunk) => show_line(
                out,
                b"CLIENT_ERROR bad data chunk",
            ),
            AnswerKind::Local(LocalKind::TooLarge(false))
            | AnswerKind::Fatal(FatalKind::TooLarge) => {
                show_line(out, b"SERVER_ERROR object too large for cache")
            }
        }
    }
}

/// Appends the answer to the message. NoMemory if out of memory: then the output is unchanged. A
/// message without an answer, as a request with `noreply`, needs no memory.
pub fn show(message: &Message, reply: Option<&Reply>, out: &mut Vec<u8>) -> Result<(), NoMemory>
    requires { is_some reply ≡ is_ask message.now }
    ensures ok { OnOk result (out.new.items ≡ out.old.items ++ answer message.now (option_copied reply.entry)) }
    ensures err { OnErr result (out.new.items ≡ out.old.items) }
    ensures silent { IsTrue (is_silent message.now) → IsOk result }
{
    let pending = PendingAnswer::of(message);
    match (pending.kind, reply) {
        (AnswerKind::Ask, Some(reply)) => show_copied(out, reply),
        _ => pending.show_local(out),
    }
}
