//! A book with the requests that it has given, and a store that knows one value.

use crate::made::values;
use bytes::Bytes;
use proto::{Answered, ByteString, ClockAnswers, Dialect, NoMemory, Posted, Reply, Request};
use session_book::{Book, Received, Settled, Unasked};
use std::alloc::Global;
use std::test::Fail;

/// The worker of each book.
pub const WORKER: usize = 3;

/// What stands behind the lines of a `stats`.
const STATS_END: &[u8] = b"END\r\n";

/// What stands beside the value in the answer to a `get` that has some 100,000 bytes, or at least
/// 10,000,000.
const BESIDE_VALUE: [&[u8]; 2] = [
    b"VALUE a 0 100000\r\n\r\nEND\r\n",
    b"VALUE a 0 10000000\r\n\r\nEND\r\n",
];

/// What a request is replied.
#[derive(Clone, Copy)]
pub enum Given {
    /// What a store replies in which `a` has the player's value: Stored to a write, but TooLarge to
    /// a `set` that is.
    Known,
    /// Lines of a `stats` that make an answer of this length.
    Stats(usize),
    /// A hit of `a` that makes an answer of this length, of some 100,000 bytes or at least
    /// 10,000,000.
    Hit(usize),
}

#[derive(Drop)]
pub struct Player {
    alloc: Global,
    pub book: Book,
    asked: Vec<Posted>,
    found: Option<&'static str>,
    /// The number of the last request.
    pub last: u64,
    /// All output that was given.
    pub given: Vec<u8>,
}

impl Player {
    pub fn new(alloc: Global, dialect: Dialect, found: Option<&'static str>) -> Self {
        Player {
            alloc,
            book: Book::new(alloc, WORKER, dialect),
            asked: Vec::new(alloc),
            found,
            last: 0,
            given: Vec::new(alloc),
        }
    }

    /// Feeds a piece, which is to fit.
    pub fn feed(&mut self, session: u64, piece: &[u8]) -> Result<(), Fail> {
        let piece = Bytes::copy_from_slice(self.alloc, piece)?;
        match self.book.receive(session, piece) {
            Received::Fed => Ok(()),
            _ => Err(Fail::new("a piece was not fed")),
        }
    }

    /// Feeds so many letters in one piece.
    pub fn feed_letters(&mut self, session: u64, count: usize) -> Result<(), Fail> {
        let letters = vec![in self.alloc; b'k'; count]?;
        let fed = self.feed(session, letters.as_slice());
        drop(letters);
        fed
    }

    /// The number of the session's next request, which is kept.
    pub fn ask(&mut self, session: u64) -> Result<Option<u64>, Unasked> {
        let Some((request, number)) = self.book.next_ask(session)? else {
            return Ok(None);
        };
        self.last = number;
        let posted = Posted {
            session,
            number,
            request,
        };
        self.asked.push(posted).map_err(NoMemory::from)?;
        Ok(Some(number))
    }

    /// Settles the request at this place among those that weren't settled yet.
    pub fn settle(&mut self, place: usize, given: Given) -> Result<Option<Settled>, NoMemory> {
        if place >= self.asked.len() {
            return Ok(None);
        }
        let reply = reply_to(self.alloc, &self.asked[place].request, self.found, given)?;
        let posted = self.asked.remove(place);
        Ok(Some(
            self.book.settle(Answered {
                worker: WORKER,
                session: posted.session,
                number: posted.number,
                request: posted.request,
                moment: 1000,
                clock: ClockAnswers::none(),
                reply,
            }),
        ))
    }

    /// Gives all output of a session.
    pub fn give(&mut self, session: u64) -> Result<(), Fail> {
        let out = self.book.out(session);
        self.given.extend_from_slice(out)?;
        let n = out.len();
        self.book.gave(session, n);
        Ok(())
    }

    /// Gives the first bytes of a session's output.
    pub fn give_some(&mut self, session: u64, n: usize) -> Result<(), Fail> {
        if n > self.book.out(session).len() {
            return Err(Fail::new("less output waits"));
        }
        self.book.gave(session, n);
        Ok(())
    }
}

fn reply_to(
    alloc: Global,
    request: &Request,
    found: Option<&str>,
    given: Given,
) -> Result<Reply, NoMemory> {
    match (given, request) {
        (Given::Stats(length), _) => {
            let lines = vec![in alloc; b'x'; length.saturating_sub(STATS_END.len())]?;
            Ok(Reply::Stats(ByteString::from_vec(lines)))
        }
        (Given::Hit(length), _) => {
            let beside = BESIDE_VALUE[usize::from(length >= 10_000_000)];
            let value = vec![in alloc; b'x'; length.saturating_sub(beside.len())]?;
            values(alloc, Some(value.as_slice()), None)
        }
        (Given::Known, Request::Get { with_cas, .. } | Request::GetAndTouch { with_cas, .. }) => {
            let cas = if *with_cas { Some(1) } else { None };
            match found {
                Some(text) => values(alloc, Some(text.as_bytes()), cas),
                None => values(alloc, None, cas),
            }
        }
        (Given::Known, Request::SetTooLarge { .. }) => Ok(Reply::TooLarge),
        _ => Ok(Reply::Stored),
    }
}
