//! What requests and their replies count.

ghost use Rattle.std.specs.Prelude.{◌≡◌, ◌-◌};
ghost use Rattle.proto.specs.Stored.{is_no_memory};
ghost use Rattle.proto.specs.StatTexts.{more};
ghost use Rattle.proto.specs.Tallies.{counted, counted_by, tally_in};
ghost use Rattle.proto.specs.Tallies.{no_counts, tallied};

use crate::message::{Reply, Request};

/// How often a key was there, and how often it wasn't.
#[derive(Clone, Copy)]
pub struct Tally {
    pub hits: u64,
    pub misses: u64,
}

/// How often requests had which outcome. After the greatest number a count goes on from 0. A
/// request that was refused memory counts as that alone.
#[derive(Clone, Copy)]
pub struct Counts {
    /// The keys that `get` and `gets` asked for.
    pub gets: Tally,
    /// The storage commands, `cas` among them: a hit is what was stored.
    pub sets: Tally,
    pub cas: Tally,
    /// Each `cas` whose entry had another cas number.
    pub badvals: u64,
    pub deletes: Tally,
    pub incrs: Tally,
    pub decrs: Tally,
    /// The keys that `touch`, `gat` and `gats` asked for.
    pub touches: Tally,
    pub flushes: u64,
    /// Requests that were refused memory.
    pub refused: u64,
}

/// How many keys the reply says to be there, or to have been stored, changed or taken out.
fn hits_in(reply: &Reply) -> u64
    ensures { result ≡ (tally_in reply.now).hits }
{
    match reply {
        Reply::Values(hits) => hits.len() as u64,
        Reply::Stored | Reply::Deleted | Reply::Number(_) | Reply::Touched => 1,
        _ => 0,
    }
}

/// Whether the reply says that the key isn't there, as a number.
fn misses_in(reply: &Reply) -> u64
    ensures { result ≡ (tally_in reply.now).misses }
{
    u64::from(matches!(reply, Reply::NotFound))
}

impl Tally {
    const fn new() -> Tally
        ensures { result ≡ record { hits = 0; misses = 0 } }
    {
        Tally { hits: 0, misses: 0 }
    }

    fn add(&mut self, hits: u64, misses: u64)
        ensures { self.new ≡ tallied self.old hits misses }
    {
        self.hits = self.hits.wrapping_add(hits);
        self.misses = self.misses.wrapping_add(misses);
    }

    /// Counts a key, by the reply.
    fn count(&mut self, reply: &Reply)
        ensures { self.new ≡ tallied self.old (tally_in reply.now).hits (tally_in reply.now).misses }
    {
        self.add(hits_in(reply), misses_in(reply));
    }

    /// Hits and misses together.
    pub fn total(&self) -> u64
        ensures { result ≡ more self.now.hits self.now.misses }
    {
        self.hits.wrapping_add(self.misses)
    }
}

impl Counts {
    pub const fn new() -> Counts
        ensures { result ≡ no_counts }
    {
        Counts {
            gets: Tally::new(),
            sets: Tally::new(),
            cas: Tally::new(),
            badvals: 0,
            deletes: Tally::new(),
            incrs: Tally::new(),
            decrs: Tally::new(),
            touches: Tally::new(),
            flushes: 0,
            refused: 0,
        }
    }

    /// Counts a storage command.
    fn count_put(&mut self, reply: &Reply)
        ensures { self.new ≡ record self.old {
          sets = tallied self.old.sets (tally_in reply.now).hits (1 - (tally_in reply.now).hits);
        } }
    {
        let stored = hits_in(reply);
        self.sets.add(stored, 1u64.saturating_sub(stored));
    }

    /// Counts a request that wasn't refused memory.
    fn count_by(&mut self, request: &Request, reply: &Reply)
        ensures { self.new ≡ counted_by self.old request.now reply.now }
    {
        match request {
            Request::Get { keys, .. } => {
                let hits = hits_in(reply);
                self.gets
                    .add(hits, (keys.len() as u64).saturating_sub(hits));
            }
            Request::GetAndTouch { keys, .. } => {
                let hits = hits_in(reply);
                self.touches
                    .add(hits, (keys.len() as u64).saturating_sub(hits));
            }
            Request::Set(_)
            | Request::Add(_)
            | Request::Replace(_)
            | Request::Append(_)
            | Request::Prepend(_) => self.count_put(reply),
            Request::Cas(..) => {
                self.count_put(reply);
                self.cas.count(reply);
                let conflicts = u64::from(matches!(reply, Reply::Exists));
                self.badvals = self.badvals.wrapping_add(conflicts);
            }
            Request::Delete { .. } => self.deletes.count(reply),
            Request::Incr { .. } => self.incrs.count(reply),
            Request::Decr { .. } => self.decrs.count(reply),
            Request::Touch(_) => self.touches.count(reply),
            Request::FlushAll { .. } => self.flushes = self.flushes.wrapping_add(1),
            Request::SetTooLarge { .. } | Request::Stats => {}
        }
    }

    /// Counts a request with its reply.
    #[inline]
    pub fn count(&mut self, request: &Request, reply: &Reply)
        ensures { self.new ≡ counted self.old request.now reply.now }
    {
        match (request, reply) {
            (Request::Get { keys, .. }, Reply::Values(hits)) => {
                let (asked, shown) = (keys.count as u64, hits.count as u64);
                self.gets.add(shown, asked.saturating_sub(shown));
            }
            (Request::Set(_), Reply::Stored) => self.sets.add(1, 0),
            (_, Reply::NoMemory) => self.refused = self.refused.wrapping_add(1),
            _ => self.count_by(request, reply),
        }
    }
}
