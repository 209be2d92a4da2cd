//! Where a book stops, and one step before.

use crate::same::check_same;
use bytes::Bytes;
use proto::{Answered, ClockAnswers, Dialect, HitRef, HitWriter, Keys, NoMemory, Reply, Request};
use session_book::{Book, Received, Settled};
use std::alloc::Global;
use std::process::Abort;
use std::test::Fail;

/// Pieces of these lengths go to a session that reads nothing, the last of them as is said.
const PIECES: [(usize, usize, Received); 6] = [
    (0, 262_144, Received::Fed),
    (0, 262_145, Received::Held),
    (262_143, 1, Received::Fed),
    (262_143, 2, Received::Held),
    (262_144, 0, Received::Fed),
    (262_144, 1, Received::Held),
];

/// Sends `length` bytes without a line end.
fn send_piece(alloc: Global, book: &mut Book, length: usize) -> Result<Received, Fail> {
    let piece = vec![in alloc; b'k'; length]?;
    let piece = Bytes::copy_from_slice(alloc, piece.as_slice())?;
    Ok(book.receive(1, piece))
}

/// A row's pieces go to session 1.
fn check_piece(
    rt: &impl Abort,
    alloc: Global,
    book: &mut Book,
    row: &(usize, usize, Received),
) -> Result<(), Fail> {
    let (held, length, wanted) = row;
    book.open(1)?;
    let first = send_piece(alloc, book, *held)?;
    let second = send_piece(alloc, book, *length)?;
    check_same(
        rt,
        (first, second),
        (Received::Fed, *wanted),
        (*held, *length),
    );
    Ok(())
}

/// Checks each row with a book of its own.
fn check_rows<T, F>(alloc: Global, rows: &[T], check: F) -> Result<(), Fail>
where
    F: Fn(&mut Book, &T) -> Result<(), Fail>,
    requires { F.IsAlwaysCallable check }
{
    for row in rows {
        let mut book = Book::new(alloc, 0, Dialect::Strict);
        let checked = check(&mut book, row);
        drop(book);
        checked?;
    }
    Ok(())
}

#[test]
fn unread_bytes_end_at_their_limit(rt: HostRuntime) -> Result<(), Fail> {
    let alloc: Global = rt.alloc();
    check_rows(
        alloc,
        &PIECES,
        |book, row| check_piece(&rt, alloc, book, row),
    )
}

/// A block of 8 MiB comes to session 1, all but its last bytes, in pieces of 131,072 bytes: each of
/// them fits.
fn drop_block(rt: &impl Abort, alloc: Global, book: &mut Book) -> Result<(), Fail> {
    book.open(1)?;
    let line = Bytes::from_static(b"set a 0 0 8388608\r\n");
    check_same(rt, book.receive(1, line), Received::Fed, "the line");
    for place in 0..64 {
        let is_read = book.next_ask(1)?.is_some();
        let taken = send_piece(alloc, book, 131_072)?;
        check_same(rt, (is_read, taken), (false, Received::Fed), place);
    }
    Ok(())
}

/// What comes behind is kept as if the block had never come: of these pieces the first two bytes
/// still belong to it.
const BEHIND: [(usize, Received); 3] = [
    (262_144, Received::Fed),
    (2, Received::Fed),
    (1, Received::Held),
];

fn check_dropped(rt: &impl Abort, alloc: Global, book: &mut Book) -> Result<(), Fail> {
    drop_block(rt, alloc, book)?;
    for (length, wanted) in &BEHIND {
        let taken = send_piece(alloc, book, *length)?;
        check_same(rt, taken, *wanted, *length);
    }
    Ok(())
}

#[test]
fn a_dropped_block_is_no_unread_input(rt: HostRuntime) -> Result<(), Fail> {
    let mut book = Book::new(rt.alloc(), 0, Dialect::Lenient(131_072));
    let checked = check_dropped(&rt, rt.alloc(), &mut book);
    drop(book);
    checked
}

/// Sends a session's `get a`, and tells the number of the request that the book gives then.
fn ask(book: &mut Book, session: u64) -> Result<Option<u64>, Fail> {
    let _ = book.receive(session, Bytes::from_static(b"get a\r\n"));
    match book.next_ask(session)? {
        Some((_, number)) => Ok(Some(number)),
        None => Ok(None),
    }
}

/// Settles a request of session 1 with a value of this length.
fn answer(alloc: Global, book: &mut Book, number: u64, length: usize) -> Result<Settled, Fail> {
    let reply = value_of(alloc, length)?;
    let answered = Answered {
        worker: 0,
        session: 1,
        number,
        request: Request::FlushAll { delay: 0 },
        moment: 1000,
        clock: ClockAnswers::none(),
        reply,
    };
    Ok(book.settle(answered))
}

fn push_hit(hits: &mut HitWriter, value: &[u8]) -> Result<(), NoMemory> {
    let hit = HitRef {
        key: b"a",
        flags: 0,
        value,
        cas: None,
    };
    hits.reserve(hit.room().ok_or(NoMemory)?)?;
    hits.push(hit);
    Ok(())
}

fn value_of(alloc: Global, length: usize) -> Result<Reply, Fail> {
    let value = vec![in alloc; b'v'; length]?;
    let mut hits = HitWriter::for_keys(&mut Keys::new(alloc));
    push_hit(&mut hits, value.as_slice())?;
    Ok(Reply::Values(hits.finish()))
}

/// The length of a value, that of the output which shows it, and whether the session is read while
/// it waits.
const OUTPUTS: [(usize, usize, bool); 3] = [
    (1_048_549, 1_048_575, true),
    (1_048_550, 1_048_576, true),
    (1_048_551, 1_048_577, false),
];

fn check_output(
    rt: &impl Abort,
    alloc: Global,
    book: &mut Book,
    row: &(usize, usize, bool),
) -> Result<(), Fail> {
    let (length, waiting, is_read) = row;
    book.open(1)?;
    let asked = ask(book, 1)?;
    let settled = answer(alloc, book, 1, *length)?;
    let left = book.out(1).len();
    let wanted = (Some(1), Settled::Kept, *waiting);
    check_same(rt, (asked, settled, left), wanted, *length);
    let is_asked = ask(book, 1)?.is_some();
    check_same(rt, is_asked, *is_read, *waiting);
    Ok(())
}

#[test]
fn a_session_is_read_while_1_mib_waits(rt: HostRuntime) -> Result<(), Fail> {
    let alloc: Global = rt.alloc();
    check_rows(
        alloc,
        &OUTPUTS,
        |book, row| check_output(&rt, alloc, book, row),
    )
}

/// The 64 requests of a session are answered with values of 131,000 bytes, and all wait.
fn check_waiting(rt: &impl Abort, alloc: Global, book: &mut Book) -> Result<(), Fail> {
    book.open(1)?;
    for number in 1..=64 {
        let asked = ask(book, 1)?;
        check_same(rt, asked, Some(number), number);
    }
    for number in 1..=64 {
        let settled = answer(alloc, book, number, 131_000)?;
        check_same(rt, settled, Settled::Kept, number);
    }
    check_same(rt, book.out(1).len(), 8_385_600, "the end");
    Ok(())
}

#[test]
fn answers_are_kept_while_8_mb_wait(rt: HostRuntime) -> Result<(), Fail> {
    let mut book = Book::new(rt.alloc(), 0, Dialect::Strict);
    check_waiting(&rt, rt.alloc(), &mut book)
}

/// Over these numbers of sessions, how many requests are unsettled when no further one is given.
const SESSIONS: [u64; 3] = [1, 2, 64];

/// How many of 130 requests are given, where `sessions` sessions send them.
fn count_asked(book: &mut Book, sessions: u64) -> Result<u64, Fail> {
    let mut asked = 0u64;
    for turn in 0..130u64 {
        let session = turn.min(sessions.saturating_sub(1)) + 1;
        let _ = book.open(session);
        asked = asked.saturating_add(u64::from(ask(book, session)?.is_some()));
    }
    Ok(asked)
}

fn check_unsettled(rt: &impl Abort, book: &mut Book, sessions: u64) -> Result<(), Fail> {
    let asked = count_asked(book, sessions)?;
    check_same(rt, asked, 64, sessions);
    Ok(())
}

#[test]
fn requests_of_all_sessions_are_64_at_most(rt: HostRuntime) -> Result<(), Fail> {
    check_rows(
        rt.alloc(),
        &SESSIONS,
        |book, sessions| check_unsettled(&rt, book, *sessions),
    )
}
