//! Reads a line of a script.

ghost use Rattle.std.specs.Prelude.{◌≡◌, ℕ, IfOk, MatchOption, option_copied, option_to_list, option_map};
ghost use Rattle.script.specs.Lines.{LineSays, SaysNothing};
ghost use Rattle.script.specs.PlainLine.{bytes_in, event_in, line_in, session_in};
ghost use Rattle.proto.specs.Words.{words_of};

use crate::event::{ScriptEvent, ScriptLine};
use bytes::Bytes;
use hex::FromHexError;
use proto::{NoMemory, Words, number};
use std::alloc::Global;

/// The number of a session, which isn't 0.
fn session(word: &[u8]) -> Option<u64>
    ensures { result ≡ session_in word.now }
{
    number(word, u64::MAX).filter(|number| *number > 0)
}

/// The bytes of which the word is the digits.
fn bytes_of(alloc: Global, word: &[u8]) -> Result<Option<Bytes>, NoMemory>
    ensures { IfOk result (λ found. found ≡ bytes_in word.now) }
{
    if word.is_empty() {
        return Ok(None);
    }
    match hex::decode(alloc, word) {
        Ok(bytes) => Ok(Some(Bytes::from_vec(bytes)?)),
        Err(FromHexError::OutOfMemory) => Err(NoMemory),
        Err(_) => Ok(None),
    }
}

/// The event of a session, from the first word of its line and the word after the number, if there
/// is one.
fn event(
    alloc: Global,
    verb: &[u8],
    session: u64,
    hex: Option<&[u8]>,
) -> Result<Option<ScriptEvent>, NoMemory>
    ensures { IfOk result (λ found. found ≡ event_in verb.now session (option_to_list (option_copied hex.entry))) }
{
    match hex {
        None if verb == b"open".as_slice() => Ok(Some(ScriptEvent::Open(session))),
        None if verb == b"gone".as_slice() => Ok(Some(ScriptEvent::Gone(session))),
        Some(hex) if verb == b"send".as_slice() => match bytes_of(alloc, hex)? {
            Some(bytes) => Ok(Some(ScriptEvent::Send(session, bytes))),
            None => Ok(None),
        },
        _ => Ok(None),
    }
}

/// What the words of a line say, if they say something that a script may say.
fn line_of(alloc: Global, mut words: Words) -> Result<Option<ScriptLine>, NoMemory>
    ensures { IfOk result (λ found. found ≡ line_in words.entry) }
{
    let (Some(verb), Some(worker_word), Some(session_word)) = (
        words.next(),
        words.next(),
        words.next(),
    ) else {
        return Ok(None);
    };
    let hex = words.next();
    if !words.is_empty() {
        return Ok(None);
    }
    let (Some(worker), Some(session)) = (number(worker_word, 9_999_999_999), session(session_word))
    else {
        return Ok(None);
    };
    Ok(event(alloc, verb, session, hex)?.map(|event| ScriptLine { worker, event }))
}

/// What the line, which has no line feed, says.
pub fn script_line(alloc: Global, line: &[u8]) -> Result<Option<ScriptLine>, NoMemory>
    ensures { IfOk result (λ found. MatchOption found (SaysNothing line.now) (LineSays line.now)) }
{
    line_of(alloc, Words::new(line))
}
