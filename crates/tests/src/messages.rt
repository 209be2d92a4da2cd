//! Bytes through `next_message_in` and `show`, as a table of inputs and outcomes.

use crate::made::{spell, values};
use crate::message_rows::{
    DROPS, FAULTS, Given, LENIENT_FAULTS, LENIENT_LONG_LINES, LENIENT_NEEDS, LENIENT_REQUESTS,
    LIMITED_DROPS, LONG_LINES, LongLine, NEEDS, REQUESTS, Row, SPELLINGS,
};
use crate::same::check_same;
use proto::{
    ByteString, Dialect, Hits, Keys, Message, Next, NextView, NoMemory, Reply, Request,
    next_message_in, next_view, show,
};
use std::alloc::{AllocError, Global};
use std::process::Abort;
use std::test::Fail;

/// The reply to a request, with this cas number where a hit is to show one.
fn reply_of(alloc: Global, cas: Option<u64>, given: Given) -> Result<Reply, Fail> {
    Ok(match given {
        Given::Nothing => return Err(Fail::from("no request")),
        Given::Stored => Reply::Stored,
        Given::NotStored => Reply::NotStored,
        Given::Exists => Reply::Exists,
        Given::NotFound => Reply::NotFound,
        Given::Hit => values(alloc, Some(b"x"), cas)?,
        Given::Miss => Reply::Values(Hits::new(alloc)),
        Given::Deleted => Reply::Deleted,
        Given::Zero => Reply::Number(0),
        Given::Touched => Reply::Touched,
        Given::Flushed => Reply::Flushed,
        Given::TooLarge => Reply::TooLarge,
        Given::NoMemory => Reply::NoMemory,
        Given::NotNumber => Reply::NotNumber,
        Given::NoCas => Reply::NoCas,
        Given::Told => Reply::Stats(ByteString::from_vec(Vec::from_slice(
            alloc,
            b"STAT uptime 5\r\n",
        )?)),
    })
}

/// Appends the answer to a message, which is a request if it is given a reply.
fn push_answer(
    alloc: Global,
    message: &Message,
    given: Given,
    out: &mut Vec<u8>,
) -> Result<(), Fail> {
    match message {
        Message::Ask(request, _) => {
            let cas = match request {
                Request::Get { with_cas: true, .. } | Request::GetAndTouch { with_cas: true, .. } =>
                    { Some(u64::MAX) }
                _ => None,
            };
            let reply = reply_of(alloc, cas, given)?;
            let shown = show(message, Some(&reply), out);
            drop(reply);
            shown?;
        }
        Message::Local(_) | Message::Fatal(_) | Message::Quit => {
            if !matches!(given, Given::Nothing) {
                return Err(Fail::from("a request"));
            }
            show(message, None, out)?;
        }
    }
    Ok(())
}

/// A message that is given this reply is answered so.
fn check_answer(
    rt: &impl Abort,
    alloc: Global,
    message: &Message,
    (given, wanted): (Given, &[u8]),
    input: &[u8],
) -> Result<(), Fail> {
    let mut out = Vec::new(alloc);
    let pushed = push_answer(alloc, message, given, &mut out);
    check_same(rt, out.as_slice(), wanted, input);
    drop(out);
    pushed
}

/// The input begins with a message of this length, which is answered so.
fn check_message(
    rt: &impl Abort,
    alloc: Global,
    dialect: Dialect,
    input: &[u8],
    length: usize,
    answer: (Given, &[u8]),
) -> Result<(), Fail> {
    let Next::Found(message, n) = next_message_in(alloc, dialect, input)? else {
        return Err(Fail::from("a message"));
    };
    check_same(rt, n, length, input);
    let checked = check_answer(rt, alloc, &message, answer, input);
    drop(message);
    checked
}

/// How long the message is that stands at the beginning of the input.
fn message_length(
    alloc: Global,
    dialect: Dialect,
    input: &[u8],
) -> Result<Option<usize>, NoMemory> {
    match next_message_in(alloc, dialect, input)? {
        Next::Found(_, n) => Ok(Some(n)),
        Next::More => Ok(None),
    }
}

/// The input spells a message, and no shorter beginning of it spells anything.
fn check_spelling(
    rt: &impl Abort,
    alloc: Global,
    dialect: Dialect,
    input: &[u8],
) -> Result<(), Fail> {
    for n in 0..input.len() {
        let length = message_length(alloc, dialect, &input[..n])?;
        check_same(rt, (n, length), (n, None), input);
    }
    let length = message_length(alloc, dialect, input)?;
    check_same(rt, length, Some(input.len()), input);
    Ok(())
}

fn check_rows(rt: &impl Abort, alloc: Global, dialect: Dialect, rows: &[Row]) -> Result<(), Fail> {
    for (input, given, answer) in rows {
        check_spelling(rt, alloc, dialect, input)?;
        check_message(rt, alloc, dialect, input, input.len(), (*given, answer))?;
    }
    Ok(())
}

#[test]
fn messages_are_read_and_answered(rt: HostRuntime) -> Result<(), Fail> {
    let alloc = rt.alloc();
    check_rows(&rt, alloc, Dialect::Strict, &REQUESTS)?;
    check_rows(&rt, alloc, Dialect::Lenient(131_072), &REQUESTS)?;
    check_rows(&rt, alloc, Dialect::Strict, &FAULTS)?;
    check_rows(&rt, alloc, Dialect::Lenient(131_072), &LENIENT_REQUESTS)?;
    check_rows(&rt, alloc, Dialect::Lenient(131_072), &LENIENT_FAULTS)
}

#[test]
fn no_shorter_beginning_spells(rt: HostRuntime) -> Result<(), Fail> {
    for spelling in &SPELLINGS {
        let mut input = Vec::new(rt.alloc());
        let spelled = spell(&mut input, *spelling);
        let checked = check_spelling(&rt, rt.alloc(), Dialect::Strict, input.as_slice());
        drop(input);
        checked?;
        spelled?;
    }
    Ok(())
}

/// As many bytes as the longest line has are a line that is answered so.
fn check_long_lines(
    rt: &impl Abort,
    alloc: Global,
    dialect: Dialect,
    lines: &[LongLine],
    longest: usize,
) -> Result<(), Fail> {
    for (count, behind, answer) in lines {
        let mut input = Vec::new(alloc);
        let spelled = spell(&mut input, ("", b'a', *count, behind));
        let answer = (Given::Nothing, *answer);
        let checked = check_message(rt, alloc, dialect, input.as_slice(), longest, answer);
        drop(input);
        checked?;
        spelled?;
    }
    Ok(())
}

#[test]
fn lines_end_within_their_limits(rt: HostRuntime) -> Result<(), Fail> {
    let alloc = rt.alloc();
    check_long_lines(&rt, alloc, Dialect::Strict, &LONG_LINES, 2048)?;
    check_long_lines(
        &rt,
        alloc,
        Dialect::Lenient(131_072),
        &LENIENT_LONG_LINES,
        32_768,
    )
}

/// How many bytes are needed, where no message was found, and whether a message to be dropped takes
/// out a key, and has `noreply`.
fn wants(view: NextView) -> (Option<usize>, Option<(bool, bool)>) {
    match view {
        NextView::Found(..) => (None, None),
        NextView::More(need) => (Some(need), None),
        NextView::Drop(need, key, noreply) => (Some(need), Some((key.is_some(), noreply))),
    }
}

#[test]
fn a_storage_line_says_what_is_needed_and_dropped(rt: HostRuntime) {
    for (input, need) in &NEEDS {
        check_same(
            &rt,
            wants(next_view(Dialect::Strict, input)).0,
            Some(*need),
            *input,
        );
    }
    for rows in [NEEDS.as_slice(), LENIENT_NEEDS.as_slice()] {
        for (input, need) in rows {
            let view = next_view(Dialect::Lenient(131_072), input);
            check_same(&rt, wants(view).0, Some(*need), *input);
        }
    }
    for (limit, input, wanted) in &LIMITED_DROPS {
        let view = next_view(Dialect::Lenient(*limit), input);
        check_same(&rt, wants(view).1, *wanted, *input);
    }
    for (input, wanted) in &DROPS {
        let view = next_view(Dialect::Lenient(131_072), input);
        check_same(&rt, wants(view).1, *wanted, *input);
        check_same(
            &rt,
            wants(next_view(Dialect::Strict, input)).1,
            None,
            *input,
        );
    }
}

/// Whether a copy of the key is these bytes.
fn copies_as(alloc: Global, key: &ByteString, wanted: &[u8]) -> Result<bool, AllocError> {
    let copy = ByteString::from_slice(alloc, key.as_slice())?.into_vec();
    Ok(copy.as_slice() == wanted)
}

/// The keys are these, also those of an end that is read on.
fn check_keys(rt: &impl Abort, keys: &Keys, wanted: &Keys) {
    let (mut given, mut copy) = (keys.iter(), wanted.iter());
    for place in 0..3u64 {
        check_same(rt, given.next(), copy.next(), place);
    }
    let are_over = given.is_empty() && copy.is_empty() && !wanted.is_empty();
    check_same(rt, (are_over, keys.len()), (true, 2), "the ends");
}

/// A `cas` or a `gets` of these keys, which isn't quiet.
fn check_parts(
    rt: &impl Abort,
    alloc: Global,
    message: &Message,
    wanted: &Keys,
) -> Result<(), Fail> {
    match message {
        Message::Ask(Request::Cas(put, unique), false) => {
            let numbers = (put.flags, put.exptime, *unique);
            check_same(rt, numbers, (7, -5, u64::MAX), "numbers");
            check_same(rt, put.key.as_slice(), b"key".as_slice(), "the key");
            check_same(rt, put.value.as_slice(), b"a\r\n".as_slice(), "the value");
            let is_same = copies_as(alloc, &put.key, b"key")?;
            check_same(rt, is_same, true, "a copy of the key");
        }
        Message::Ask(Request::Get { keys, with_cas }, false) => {
            check_same(rt, *with_cas, true, "gets");
            check_keys(rt, keys, wanted);
        }
        _ => return Err(Fail::from("a cas or a gets that isn't quiet")),
    }
    Ok(())
}

fn check_whole(rt: &impl Abort, alloc: Global, input: &[u8], wanted: &Keys) -> Result<(), Fail> {
    let Next::Found(message, n) = next_message_in(alloc, Dialect::Strict, input)? else {
        return Err(Fail::from("a message"));
    };
    check_same(rt, n, input.len(), input);
    let checked = check_parts(rt, alloc, &message, wanted);
    drop(message);
    checked
}

/// The keys `a` and `noreply`.
fn push_keys(keys: &mut Keys) -> Result<(), NoMemory> {
    keys.push(b"a")?;
    keys.push(b"noreply")
}

const WHOLE: [&[u8]; 2] = [
    b"cas key 7 -5 3 18446744073709551615\r\na\r\n\r\n",
    b"gets a noreply\r\n",
];

#[test]
fn requests_are_read_whole(rt: HostRuntime) -> Result<(), Fail> {
    let mut wanted = Keys::new(rt.alloc());
    push_keys(&mut wanted)?;
    for input in &WHOLE {
        check_whole(&rt, rt.alloc(), input, &wanted)?;
    }
    Ok(())
}
