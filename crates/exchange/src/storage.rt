//! The storage thread's end of all lanes, by which the workers are told of several answers at once,
//! or of each.

use crate::messages::{LaneMessage, Taken};
use crate::rule::{Compares, JoinsWorker, LaneSeat, LaneTable, LoadsPosted, SettlesBye, TellsDone};
use crate::steps::{DONE, LANE, POSTED, put_answer, take_message};
use crate::worker::WorkerEnd;
use proto::{Answered, AskedClock, Clock, MAX_WORKERS};
use std::alloc::Global;
use std::marker::Model;
use std::sync::Arc;

/// What storage takes requests from, answers them, and tells the workers of all that it answered.
/// One thread at a time uses it.
#[derive(Drop)]
pub struct StorageLanes {
    lane_table: Arc<LaneTable, Global>,
    seat: LaneSeat,
    workers: usize,
    /// The lane that the last message was taken from.
    last: usize,
    /// How many messages of each lane were settled.
    counts: [u64; MAX_WORKERS],
    open_now: bool,
    /// Whether there are answers that no worker was told of.
    untold: bool,
    /// The lane that all of them are of.
    untold_lane: usize,
    /// The lane that was looked at last, and the posted word that was found there.
    looked_lane: usize,
    named: u64,
}

impl Model for StorageLanes {
    ghost use Rattle.std.specs.Prelude.{◌≡◌, ℕ, ◌+◌, ◌*◌, ◌<◌, ◌≤◌};
    ghost use Rattle.std.specs.Arc.{arc_value};
    ghost use Rattle.exchange.specs.Ends.{StorageLanesView};
    ghost use Rattle.exchange.specs.Seats.{StorageAgrees, HasUntold, IsNamed, IsTableSized, storage_lanes_view};
    ghost use Rattle.exchange.specs.Seats.{storage_at};

    ghost Value = { StorageLanesView };

    ghost view = { λ inside. storage_lanes_view inside.seat.table_id inside.workers inside.last
        (storage_at inside.seat.me) };

    ghost invariant = { λ inside. (inside.seat.table_id ≡ (arc_value inside.lane_table).shared.table_id)
        × IsTableSized inside.seat.table_id inside.workers
        × ((arc_value inside.lane_table).shared.key.workers ≡ inside.workers)
        × StorageAgrees inside.seat.me inside.workers inside.last inside.counts inside.open_now
        × HasUntold (storage_at inside.seat.me) inside.untold inside.untold_lane inside.workers
        × IsNamed (storage_at inside.seat.me) inside.looked_lane inside.named inside.workers };
}

impl StorageLanes {
    ghost use Rattle.std.specs.Prelude.{◌≡◌, ◌≢◌, ◌⊎◌, ℕ, ◌+◌, ◌-◌, ◌*◌, ◌<◌, ◌≤◌, ◌++◌, ◌∷◌, [], length, None, Some};
    ghost use Rattle.std.specs.Prelude.{MatchOption, IsOk};
    ghost use Rattle.std.specs.Option.{IfNone};
    ghost use Rattle.std.specs.Arc.{arc_value};
    ghost use Rattle.proto.specs.declared.terms.Terms.{Terms};
    ghost use Rattle.proto.specs.History.{answers_by, LegalBy, worker_share};
    ghost use Rattle.exchange.specs.declared.rule.LaneView.TheVariants.{Storage};
    ghost use Rattle.exchange.specs.Beginnings.{posted_of};
    ghost use Rattle.exchange.specs.Ends.{IsCount, new_storage_view, LooksAt, FindsNone, FindsOne, LookedOnce};
    ghost use Rattle.exchange.specs.Ends.{SeesNext, with_answer, IsUntold, AreCompared};
    ghost use Rattle.exchange.specs.Lanes.{storage_state_with};
    ghost use Rattle.exchange.specs.Seats.{IsTableSized};

    pub(crate) fn new(
        lane_table: Arc<LaneTable, Global>,
        seat: LaneSeat,
        workers: usize,
    ) -> StorageLanes
        requires table { (seat.table_id ≡ (arc_value lane_table).shared.table_id)
            × IsTableSized seat.table_id workers × ((arc_value lane_table).shared.key.workers ≡ workers)
            × (0 < workers) × (workers ≤ 8) }
        requires fresh { (terms : Terms) × (seat.me ≡ (Storage (storage_state_with terms workers), [])) }
        ensures { (terms : Terms) → seat.me ≡ (Storage (storage_state_with terms workers), [])
            → result ≡ record { end = new_storage_view seat.table_id terms workers; told = [] } }
    {
        StorageLanes {
            lane_table,
            seat,
            workers,
            last: workers - 1,
            counts: [0; MAX_WORKERS],
            open_now: false,
            untold: false,
            untold_lane: 0,
            looked_lane: 0,
            named: 0,
        }
    }

    /// The number of workers that the exchange was made for.
    pub fn workers(&self) -> usize
        ensures value { result ≡ self.now.end.workers }
        ensures range { IsCount result }
    {
        self.workers
    }

    /// Answers the open request. Its worker isn't told of it before the next `flush_answers`, or
    /// the next answer to another worker. It gives the worker that was told of its answers now, if
    /// one was. Waits for nobody and takes no memory.
    pub fn answer_later(&mut self, answered: Answered) -> Option<usize>
        requires open_request { self.old.end.open_request ≡ Some (answered.worker, posted_of answered) }
        requires legal { LegalBy self.old.end.terms (self.old.end.history ++ answered ∷ []) }
        ensures answered { self.new.end ≡ with_answer self.old.end answered }
        ensures told { MatchOption result (self.new.told ≡ self.old.told) (λ worker. IsUntold self.old worker
            × (worker ≢ answered.worker) × (self.new.told ≡ self.old.end.history)) }
    {
        let told = self.flush_others(answered.worker);
        let lane = answered.worker;
        self.open_now = false;
        self.untold = true;
        self.untold_lane = lane;
        let count = self.counts[lane];
        put_answer(&self.lane_table, &mut self.seat, count, answered);
        self.counts[lane] = count + 1;
        told
    }

    /// Tells the workers of all answers, unless all that they weren't told of are this worker's. It
    /// gives the worker that was told, if one was.
    fn flush_others(&mut self, worker: usize) -> Option<usize>
        ensures end { self.new.end ≡ self.old.end }
        ensures told { MatchOption result (self.new.told ≡ self.old.told) (λ other. IsUntold self.old other
            × (other ≢ worker) × (self.new.told ≡ self.old.end.history)) }
        ensures others { (j : ℕ) → j ≢ worker
            → worker_share self.new.end.history j ≡ worker_share self.new.told j }
    {
        if self.untold_lane == worker {
            None
        } else {
            self.flush_answers()
        }
    }

    /// Tells the workers of all answers, in one step. It gives the worker whose answers they are,
    /// if there are any. Waits for nobody and takes no memory.
    pub fn flush_answers(&mut self) -> Option<usize>
        ensures told { self.new ≡ record self.old { told = self.old.end.history } }
        ensures whose { MatchOption result (self.old.told ≡ self.old.end.history) (IsUntold self.old) }
    {
        if !self.untold {
            return None;
        }
        let lane = self.untold_lane;
        let count = self.counts[lane];
        self.lane_table
            .shared
            .store::<TellsDone>(&mut self.seat, LANE * lane + DONE, count);
        self.untold = false;
        Some(lane)
    }

    /// Looks at one lane, and takes its next message out, if there is one.
    fn look(&mut self, lane: usize) -> Option<Taken>
        requires { (self.old.end.open_request ≡ None) × (lane < self.old.end.workers) }
        ensures looks { LooksAt self.old.end lane result self.new.end }
        ensures told { self.new.told ≡ self.old.told }
    {
        self.named = self
            .lane_table
            .shared
            .load::<LoadsPosted>(&mut self.seat, LANE * lane + POSTED);
        self.looked_lane = lane;
        self.take_named()
    }

    /// Takes the next message of the lane that was looked at last, if the look named it.
    fn take_named(&mut self) -> Option<Taken>
        requires { self.old.end.open_request ≡ None }
        ensures next { SeesNext self.old.end result self.new.end }
        ensures told { self.new.told ≡ self.old.told }
    {
        let lane = self.looked_lane;
        let count = self.counts[lane];
        if self.named <= count {
            return None;
        }
        match take_message(&self.lane_table, &mut self.seat, lane, count) {
            LaneMessage::Ask(posted) => {
                self.last = lane;
                self.open_now = true;
                Some(Taken::Asked {
                    worker: lane,
                    posted,
                })
            }
            LaneMessage::Bye => {
                self.lane_table
                    .shared
                    .store::<SettlesBye>(&mut self.seat, LANE * lane + DONE, count + 1);
                self.last = lane;
                self.counts[lane] = count + 1;
                Some(Taken::Bye { worker: lane })
            }
            LaneMessage::Answer(_) => unreachable!(),
        }
    }

    /// The next message of some lane. The lanes are looked at in turn, beginning after the one that
    /// was taken from last. The clock has given one answer for each request that was answered, and
    /// no other: so the answer for the request taken here is given after it was taken. Waits for
    /// nobody and takes no memory.
    pub fn next<C: Clock>(&mut self, _clock: &AskedClock<C>) -> Option<Taken>
        requires shut { self.old.end.open_request ≡ None }
        requires fresh { _clock.now.answers ≡ answers_by [] self.old.end.history }
        ensures next { MatchOption result (FindsNone self.old.end self.new.end) (FindsOne self.old.end self.new.end) }
        ensures every_lane { IfNone result ((w : ℕ) → w < self.old.end.workers
            → LookedOnce self.old.end self.new.end w) }
        ensures told { self.new.told ≡ self.old.told }
    {
        let workers = self.workers;
        let last = self.last;
        for turn in last + 1..last + 1 + workers {
            let lane = if turn < workers { turn } else { turn - workers };
            if let Some(taken) = self.look(lane) {
                return Some(taken);
            }
        }
        None
    }

    /// The next message among those that the last look of `next` named, at the lane of that look.
    /// It doesn't look for further ones. The clock is as for `next`. Waits for nobody and takes no
    /// memory.
    pub fn next_seen<C: Clock>(&mut self, _clock: &AskedClock<C>) -> Option<Taken>
        requires shut { self.old.end.open_request ≡ None }
        requires fresh { _clock.now.answers ≡ answers_by [] self.old.end.history }
        ensures next { SeesNext self.old.end result self.new.end }
        ensures told { self.new.told ≡ self.old.told }
    {
        self.take_named()
    }

    /// The lane that was looked at last, the number of its next message that isn't settled, counted
    /// from 0, and how many messages that look named from there on. They serve to read ahead: no
    /// clause speaks of them.
    pub fn seen(&self) -> (usize, u64, u64) {
        let lane = self.looked_lane;
        let count = self.counts[lane];
        (lane, count, self.named.saturating_sub(count))
    }

    /// Brings a worker's end of this exchange and storage's together, and tells how many requests
    /// the worker sent and how many answers it took back.
    pub(crate) fn join_worker(&mut self, end: WorkerEnd) -> (u64, u64)
        requires { end.exchange ≡ self.old.end.exchange }
        ensures same { self.new ≡ self.old }
        ensures compared { AreCompared self.old.end end }
        ensures counts { (result.0 ≡ length end.sent) × (result.1 ≡ length end.back) }
    {
        let (seat, sent, back) = end.batched().into_seat();
        let lanes = &self.lane_table.shared;
        lanes.join_seat::<JoinsWorker>(&mut self.seat, seat);
        lanes.load::<Compares>(&mut self.seat, 0);
        (sent, back)
    }

    /// The end, if all answers were flushed.
    pub fn into_end(self) -> StorageEnd
        requires { self.told ≡ self.end.history }
        ensures { result ≡ self.end }
    {
        StorageEnd { batch: self }
    }
}

/// What storage takes requests from, and answers them. One thread at a time uses it.
///
/// The storage thread of the server uses the batch. `next`, `answer`, `is_open` and `workers` are
/// the same calls a message at a time: only tests and measurements use them.
#[derive(Drop)]
pub struct StorageEnd {
    batch: StorageLanes,
}

impl Model for StorageEnd {
    ghost use Rattle.std.specs.Prelude.{◌≡◌};
    ghost use Rattle.exchange.specs.Ends.{StorageView};

    ghost Value = { StorageView };

    ghost view = { λ e. e.batch.end };

    ghost invariant = { λ e. e.batch.told ≡ e.batch.end.history };
}

impl StorageEnd {
    ghost use Rattle.std.specs.Prelude.{◌≡◌, ℕ, ◌<◌, ◌++◌, ◌∷◌, [], None, Some, is_some, MatchOption, IsOk};
    ghost use Rattle.std.specs.Option.{IfNone};
    ghost use Rattle.proto.specs.History.{answers_by, LegalBy};
    ghost use Rattle.exchange.specs.Beginnings.{posted_of};
    ghost use Rattle.exchange.specs.Ends.{IsCount, FindsNone, FindsOne, LookedOnce, with_answer};

    /// The same end, for a storage thread that tells the workers of several answers at once.
    pub fn batched(self) -> StorageLanes
        ensures { result ≡ record { end = self; told = self.history } }
    {
        self.batch
    }

    /// The number of workers that the exchange was made for.
    pub fn workers(&self) -> usize
        ensures value { result ≡ self.now.workers }
        ensures range { IsCount result }
    {
        self.batch.workers()
    }

    /// Whether a request was taken that isn't answered yet.
    pub fn is_open(&self) -> bool
        ensures { result ≡ is_some self.now.open_request }
    {
        self.batch.open_now
    }

    /// Answers the open request. Never hands back, waits for nobody and takes no memory.
    pub fn answer(&mut self, answered: Answered) -> Result<(), Answered>
        requires open_request { self.old.open_request ≡ Some (answered.worker, posted_of answered) }
        requires legal { LegalBy self.old.terms (self.old.history ++ answered ∷ []) }
        ensures never_back { IsOk result }
        ensures answered { self.new ≡ with_answer self.old answered }
    {
        self.batch.answer_later(answered);
        self.batch.flush_answers();
        Ok(())
    }

    /// The next message of some lane. The lanes are looked at in turn, beginning after the one that
    /// was taken from last. The clock has given one answer for each request that was answered, and
    /// no other: so the answer for the request taken here is given after it was taken. Waits for
    /// nobody and takes no memory.
    pub fn next<C: Clock>(&mut self, clock: &AskedClock<C>) -> Option<Taken>
        requires shut { self.old.open_request ≡ None }
        requires fresh { clock.now.answers ≡ answers_by [] self.old.history }
        ensures next { MatchOption result (FindsNone self.old self.new) (FindsOne self.old self.new) }
        ensures every_lane { IfNone result ((w : ℕ) → w < self.old.workers → LookedOnce self.old self.new w) }
    {
        self.batch.next(clock)
    }
}
