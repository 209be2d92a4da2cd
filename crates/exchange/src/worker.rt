//! The worker's end of its lane, by which storage is told of several requests at once, or of each.

use crate::messages::LaneMessage;
use crate::rule::{
    Begins, Checks, ComparesTold, LaneSeat, LaneTable, MeetsTold, NotesTold, Posts, PutsRequest,
};
use crate::steps::{LANE, POSTED, put_bye, slot_at, take_answer, take_seen_answer};
use crate::told::ToldHistory;
use proto::{Answered, MAX_POSTS, Posted, WINDOW};
use std::alloc::Global;
use std::marker::Model;
use std::snapshot::Snapshot;
use std::sync::Arc;

/// What a worker puts its requests with, sends all that it put, and takes the answers back. One
/// thread at a time uses it.
#[derive(Drop)]
pub struct WorkerLane {
    lane_table: Arc<LaneTable, Global>,
    seat: LaneSeat,
    worker: usize,
    sent: u64,
    /// How many requests stand in their slots and weren't sent.
    put: u64,
    back: u64,
    /// How many answers were done at the last load of done.
    known: u64,
    said_bye: bool,
}

impl Model for WorkerLane {
    ghost use Rattle.std.specs.Prelude.{◌≡◌, ℕ, ◌+◌, ◌*◌, ◌<◌, ◌≤◌};
    ghost use Rattle.std.specs.Arc.{arc_value};
    ghost use Rattle.exchange.specs.Ends.{WorkerLaneView};
    ghost use Rattle.exchange.specs.Seats.{WorkerAgrees, IsLane, worker_lane_view, worker_at};

    ghost Value = { WorkerLaneView };

    ghost view = { λ inside. worker_lane_view inside.seat.table_id (worker_at inside.seat.me) };

    ghost invariant = { λ inside. (inside.seat.table_id ≡ (arc_value inside.lane_table).shared.table_id)
        × IsLane inside.seat.table_id inside.worker
        × WorkerAgrees inside.seat.me inside.worker inside.sent inside.put inside.back inside.known inside.said_bye };
}

impl WorkerLane {
    ghost use Rattle.std.specs.Prelude.{◌≡◌, ℕ, ◌+◌, ◌*◌, ◌^◌, ◌<◌, ◌≤◌, ◌++◌, ◌∷◌, [], length, true, false};
    ghost use Rattle.std.specs.Prelude.{◌↔◌, MatchResult, IfSome};
    ghost use Rattle.std.specs.Arc.{arc_value};
    ghost use Rattle.proto.specs.declared.terms.Terms.{Terms};
    ghost use Rattle.proto.specs.History.{worker_share, asked_posted};
    ghost use Rattle.exchange.specs.declared.rule.LaneView.TheVariants.{Worker};
    ghost use Rattle.exchange.specs.declared.rule.WorkerState.{WorkerState};
    ghost use Rattle.exchange.specs.Beginnings.{StartsWith, AreOfOne};
    ghost use Rattle.exchange.specs.Lanes.{first_worker_state};
    ghost use Rattle.exchange.specs.Ends.{new_worker_view, CanPut, with_put_sent, TakesAnswer, TakesSeen, IsToNextSent};
    ghost use Rattle.exchange.specs.Seats.{IsLane, worker_view};

    pub(crate) fn new(
        lane_table: Arc<LaneTable, Global>,
        seat: LaneSeat,
        worker: usize,
    ) -> WorkerLane
        requires table { (seat.table_id ≡ (arc_value lane_table).shared.table_id) × IsLane seat.table_id worker }
        requires fresh { (terms : Terms) × (seat.me ≡ (Worker (first_worker_state terms worker), [])) }
        ensures { (terms : Terms) → seat.me ≡ (Worker (first_worker_state terms worker), [])
            → result ≡ record { end = new_worker_view seat.table_id terms worker; put = [] } }
    {
        WorkerLane {
            lane_table,
            seat,
            worker,
            sent: 0,
            put: 0,
            back: 0,
            known: 0,
            said_bye: false,
        }
    }

    /// The seat, and the numbers of requests and of answers.
    pub(crate) fn into_seat(self) -> (LaneSeat, u64, u64)
        ensures seated { (c : WorkerState) × (result.0.me ≡ (Worker c, []))
            × (self.end ≡ worker_view result.0.table_id c) }
        ensures lane { IsLane result.0.table_id self.end.worker }
        ensures counts { (result.1 ≡ length self.end.sent) × (result.2 ≡ length self.end.back) }
    {
        let WorkerLane {
            seat,
            sent,
            back,
            ..
        } = self;
        (seat, sent, back)
    }

    /// The worker's number, from 0 on.
    pub fn worker(&self) -> usize
        ensures value { result ≡ self.now.end.worker }
        ensures range { result < 8 }
    {
        self.worker
    }

    /// How many requests were sent or put, and not taken back.
    pub fn outstanding(&self) -> u64
        ensures value { result + length self.now.end.back ≡ length self.now.end.sent + length self.now.put }
        ensures range { result ≤ WINDOW }
    {
        self.sent + self.put - self.back
    }

    /// Puts a request into its slot, or hands it back unchanged. Storage isn't told of it before
    /// the next `flush`. Waits for nobody and takes no memory.
    pub fn put(&mut self, posted: Posted) -> Result<(), Posted>
        requires { posted.number ≡ length self.old.end.sent + length self.old.put + 1 }
        ensures { MatchResult result
            (λ _. CanPut self.old × (self.new ≡ record self.old { put = self.old.put ++ posted ∷ [] }))
            (λ p. (¬ (CanPut self.old)) × (p ≡ posted) × (self.new ≡ self.old)) }
    {
        let number = self.sent + self.put;
        if number - self.back == WINDOW || self.said_bye || number == MAX_POSTS {
            return Err(posted);
        }
        let posted_word = LANE * self.worker + POSTED;
        let slot = slot_at(self.worker, number);
        let request = LaneMessage::Ask(posted);
        let lanes = &self.lane_table.shared;
        // These load the worker's own word, which no other thread writes. The slot was empty, so
        // what comes out is None.
        lanes.load::<Begins>(&mut self.seat, posted_word);
        drop(lanes.exchange(&mut self.seat, slot, Some(request)));
        lanes.load::<PutsRequest>(&mut self.seat, posted_word);
        self.put += 1;
        Ok(())
    }

    /// Sends all requests that were put, in their order, in one step. It tells whether there were
    /// any. Waits for nobody and takes no memory.
    pub fn flush(&mut self) -> bool
        ensures sent { self.new ≡ with_put_sent self.old }
        ensures none { (result ≡ false) ↔ (self.old.put ≡ []) }
    {
        if self.put == 0 {
            return false;
        }
        let number = self.sent + self.put;
        self.lane_table
            .shared
            .store::<Posts>(&mut self.seat, LANE * self.worker + POSTED, number);
        self.sent = number;
        self.put = 0;
        true
    }

    /// The next answer of this worker, in the order of its requests. Waits for nobody and takes no
    /// memory.
    pub fn take(&mut self) -> Option<Answered>
        ensures taken { TakesAnswer self.old.end result self.new.end }
        ensures put { self.new.put ≡ self.old.put }
        ensures own { IsToNextSent self.old.end result }
        ensures in_order { IfSome result (λ a. a.number ≡ length self.old.end.back + 1) }
        ensures back { StartsWith (worker_share self.new.end.seen self.old.end.worker) self.new.end.back }
    {
        let (done, answer) = take_answer(
            &self.lane_table,
            &mut self.seat,
            self.worker,
            self.sent,
            self.back,
        );
        self.known = if done < self.sent { done } else { self.sent };
        if answer.is_some() {
            self.back += 1;
        }
        answer
    }

    /// The next answer of this worker among those that were done at its last `take`. It doesn't
    /// look for further ones. Waits for nobody and takes no memory.
    pub fn take_seen(&mut self) -> Option<Answered>
        ensures taken { TakesSeen self.old.end result self.new.end }
        ensures put { self.new.put ≡ self.old.put }
        ensures own { IsToNextSent self.old.end result }
        ensures in_order { IfSome result (λ a. a.number ≡ length self.old.end.back + 1) }
    {
        if self.known <= self.back {
            return None;
        }
        let answer = take_seen_answer(&self.lane_table, &mut self.seat, self.worker, self.back);
        self.back += 1;
        Some(answer)
    }

    /// Says that no request comes any more. Waits for nobody and takes no memory.
    pub fn bye(&mut self)
        requires all_back { (self.old.end.said_bye ≡ false)
            × (length self.old.end.back ≡ length self.old.end.sent) }
        requires flushed { self.old.put ≡ [] }
        ensures { self.new ≡ record self.old { end = record self.old.end { said_bye = true } } }
    {
        put_bye(&self.lane_table, &mut self.seat, self.worker, self.sent);
        self.said_bye = true;
    }

    /// The history that the worker was told of last, to be kept. It is a load of a word that is
    /// never stored.
    pub fn told(&mut self) -> ToldHistory
        ensures same { self.new ≡ self.old }
        ensures told { result ≡ record { exchange = self.old.end.exchange; items = self.old.end.seen } }
    {
        ToldHistory::of(
            self.lane_table
                .shared
                .split_seat::<NotesTold>(&mut self.seat),
        )
    }

    /// What any worker was told of, at whatever moment before, has no request of this worker that
    /// it hasn't sent by now. It and what this worker was told of are of one history. Call it
    /// before a later history is told: what the worker sends after the call may stand there. The
    /// history is handed back, so that `compare` can take it and the later one. A law: the server
    /// doesn't call it.
    pub fn check(&mut self, told: ToldHistory) -> ToldHistory
        requires { told.exchange ≡ self.old.end.exchange }
        ensures same { self.new ≡ self.old }
        ensures handed_back { result ≡ told }
        ensures asked { StartsWith self.old.end.sent (asked_posted (worker_share told.items self.old.end.worker)) }
        ensures one { AreOfOne self.old.end.seen told.items }
    {
        let lanes = &self.lane_table.shared;
        let mut kept = told.into_seat();
        let met = lanes.split_seat::<NotesTold>(&mut kept);
        lanes.join_seat::<MeetsTold>(&mut self.seat, met);
        lanes.load::<Checks>(&mut self.seat, LANE * self.worker + POSTED);
        ToldHistory::of(kept)
    }

    /// Two histories that workers were told of, at whatever moments: one begins with the other. A
    /// law: the server doesn't call it.
    pub fn compare(&self, told: ToldHistory, other: ToldHistory) -> ToldHistory
        requires { (told.exchange ≡ self.now.end.exchange) × (other.exchange ≡ self.now.end.exchange) }
        ensures same { result ≡ told }
        ensures one { AreOfOne told.items other.items }
    {
        let lanes = &self.lane_table.shared;
        let mut seat = told.into_seat();
        let met = other.into_seat();
        lanes.join_seat::<MeetsTold>(&mut seat, met);
        lanes.load::<ComparesTold>(&mut seat, LANE * self.worker + POSTED);
        ToldHistory::of(seat)
    }

    /// The end, if all was flushed.
    pub fn into_end(self) -> WorkerEnd
        requires { self.put ≡ [] }
        ensures { result ≡ self.end }
    {
        WorkerEnd { batch: self }
    }
}

/// What a worker posts its requests with, and takes the answers back. One thread at a time uses it.
///
/// A worker of the server uses the batch, and this end only for `bye`. `post` and `take`, and
/// `sent`, `outstanding` and `said_bye`, by which their callers know what they may do, are the same
/// calls a message at a time: only tests and measurements use them.
#[derive(Drop)]
pub struct WorkerEnd {
    batch: WorkerLane,
}

impl Model for WorkerEnd {
    ghost use Rattle.std.specs.Prelude.{◌≡◌, []};
    ghost use Rattle.exchange.specs.Ends.{WorkerView};

    ghost Value = { WorkerView };

    ghost view = { λ e. e.batch.end };

    ghost invariant = { λ e. e.batch.put ≡ [] };
}

impl WorkerEnd {
    ghost use Rattle.std.specs.Prelude.{◌≡◌, ◌+◌, ◌<◌, ◌≤◌, ◌++◌, ◌∷◌, [], length, true, false, MatchResult, IfSome};
    ghost use Rattle.proto.specs.declared.limits.TheConstants.{WINDOW};
    ghost use Rattle.proto.specs.History.{worker_share};
    ghost use Rattle.exchange.specs.Beginnings.{StartsWith};
    ghost use Rattle.exchange.specs.Ends.{max_posts, CanPost, TakesAnswer, IsToNextSent};

    /// The same end, for a worker that tells storage of several requests at once.
    pub fn batched(self) -> WorkerLane
        ensures { result ≡ record { end = self; put = [] } }
    {
        self.batch
    }

    /// The worker's number, from 0 on.
    pub fn worker(&self) -> usize
        ensures value { result ≡ self.now.worker }
        ensures range { result < 8 }
    {
        self.batch.worker()
    }

    pub fn said_bye(&self) -> bool
        ensures { result ≡ self.now.said_bye }
    {
        self.batch.said_bye
    }

    /// How many requests were sent.
    pub fn sent(&self) -> u64
        ensures value { result ≡ length self.now.sent }
        ensures range { result ≤ max_posts }
    {
        self.batch.sent
    }

    /// How many requests were sent and not taken back.
    pub fn outstanding(&self) -> u64
        ensures value { result + length self.now.back ≡ length self.now.sent }
        ensures range { result ≤ WINDOW }
    {
        self.batch.outstanding()
    }

    /// Sends a request, or hands it back unchanged. Waits for nobody and takes no memory.
    pub fn post(&mut self, posted: Posted) -> Result<(), Posted>
        requires { posted.number ≡ length self.old.sent + 1 }
        ensures { MatchResult result
            (λ _. CanPost self.old × (self.new ≡ record self.old { sent = self.old.sent ++ posted ∷ [] }))
            (λ p. (¬ (CanPost self.old)) × (p ≡ posted) × (self.new ≡ self.old)) }
    {
        let answer = self.batch.put(posted);
        self.batch.flush();
        answer
    }

    /// The next answer of this worker, in the order of its requests. Waits for nobody and takes no
    /// memory.
    pub fn take(&mut self) -> Option<Answered>
        ensures taken { TakesAnswer self.old result self.new }
        ensures own { IsToNextSent self.old result }
        ensures in_order { IfSome result (λ a. a.number ≡ length self.old.back + 1) }
        ensures back { StartsWith (worker_share self.new.seen self.old.worker) self.new.back }
    {
        self.batch.take()
    }

    /// Says that no request comes any more. Waits for nobody and takes no memory.
    pub fn bye(&mut self)
        requires { (self.old.said_bye ≡ false) × (length self.old.back ≡ length self.old.sent) }
        ensures { self.new ≡ record self.old { said_bye = true } }
    {
        self.batch.bye();
    }

    /// The requests that were sent, for clauses alone.
    pub fn sent_list(&self) -> SentList
        ensures { result ≡ self.now.sent }
    {
        SentList {
            end: Snapshot::of(self),
        }
    }
}

/// The list of the requests that a worker sent. It has no bytes.
#[derive(Drop)]
pub struct SentList {
    end: Snapshot<WorkerEnd>,
}

impl Model for SentList {
    ghost use Rattle.std.specs.Prelude.{List};
    ghost use Rattle.proto.specs.declared.history.Posted.{Posted};

    ghost Value = { List Posted };

    ghost view = { λ s. s.end.value.sent };
}
