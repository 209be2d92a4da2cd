//! Sessions are opened, fed, read and answered after a refusal.

use bytes::Bytes;
use proto::{Answered, ClockAnswers, Dialect, Reply, Request};
use session_book::{Book, EndCause, OpenFault, Received, Settled, Unasked};
use std::alloc::Global;

const INPUT: &[u8] = b"set key 0 0 5\r\nvalue\r\nfoo\r\ndelete key\r\nquit\r\nget key\r\n";

const OUTPUT: &[u8] = b"STORED\r\nERROR\r\nDELETED\r\n";

/// What a session comes to: its whole output, or it was closed because memory ran out.
enum Course {
    Answered,
    Starved,
}

/// Opens the session and feeds it, again if out of memory.
fn begin(book: &mut Book) -> Option<()> {
    match book.open(1) {
        Ok(()) => {}
        Err(OpenFault::NoMemory) => book.open(1).ok()?,
        Err(OpenFault::Known) => return None,
    }
    let received = match book.receive(1, Bytes::from_static(INPUT)) {
        Received::Refused => book.receive(1, Bytes::from_static(INPUT)),
        received => received,
    };
    match received {
        Received::Fed => Some(()),
        _ => None,
    }
}

/// Asks for the next request, again if out of memory.
fn next_ask(book: &mut Book) -> Result<Option<(Request, u64)>, Unasked> {
    match book.next_ask(1) {
        Ok(asked) => Ok(asked),
        Err(_) => book.next_ask(1),
    }
}

/// Settles the next request with this reply. None if there is none, or no memory for it.
fn answer_next(book: &mut Book, reply: Reply) -> Option<Settled> {
    let (request, number) = next_ask(book).ok()??;
    Some(book.settle(Answered {
        worker: 0,
        session: 1,
        number,
        request,
        moment: 1000,
        clock: ClockAnswers::none(),
        reply,
    }))
}

/// Settles both requests, or the first one alone if it isn't kept.
fn answer_both(book: &mut Book) -> Option<Settled> {
    match answer_next(book, Reply::Stored)? {
        Settled::Kept => answer_next(book, Reply::Deleted),
        settled => Some(settled),
    }
}

fn asks_no_more(book: &mut Book) -> bool {
    match next_ask(book) {
        Ok(asked) => asked.is_none(),
        Err(_) => false,
    }
}

/// The whole output is given, and then the session has ended.
fn finish(book: &mut Book) -> Option<Course> {
    if !asks_no_more(book) || book.out(1) != OUTPUT {
        return None;
    }
    match book.gave(1, book.out(1).len()) {
        Some(EndCause::Quit) => Some(Course::Answered),
        _ => None,
    }
}

fn play(book: &mut Book) -> Option<Course> {
    begin(book)?;
    match answer_both(book)? {
        Settled::Kept => finish(book),
        Settled::Starved if book.out(1).is_empty() => Some(Course::Starved),
        _ => None,
    }
}

/// A session is answered, or it is closed because memory ran out and the next one is answered.
pub fn is_repeatable(alloc: Global) -> bool {
    for _ in 0..2 {
        let mut book = Book::new(alloc, 0, Dialect::Strict);
        let course = play(&mut book);
        drop(book);
        match course {
            Some(Course::Answered) => return true,
            Some(Course::Starved) => {}
            None => return false,
        }
    }
    false
}
