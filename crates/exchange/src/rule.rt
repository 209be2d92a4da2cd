//! The table: what its seats know, its rule, and what each step tells. No value of what a seat
//! knows is made.
ghost use Rattle.exchange.specs.Steps.{tells_begin, request_put, tells_post, seen_taken, bye_posted, done_loaded};
ghost use Rattle.exchange.specs.Steps.{slot_returned, posted_loaded, tells_answer, told_done, seen_opened, settle_bye};
ghost use Rattle.exchange.specs.Steps.{with_one_more, new_worker, comparing, tells_comparison};
ghost use Rattle.exchange.specs.Steps.{unchanged, noting, meeting, tells_check, tells_two};

use crate::messages::{LaneKey, LaneMessage};
use atomic_table::{Join, Play, Seat, Split, Table, TableRule};
use proto::{Answered, Posted, Terms};
use std::alloc::Global;
use std::collections::LinkedList;

/// What a worker knows.
pub struct WorkerState {
    pub worker: u64,
    pub terms: Terms,
    pub sent: LinkedList<Posted>,
    /// The requests that stand in their slots and weren't sent yet.
    pub put: LinkedList<Posted>,
    pub said_bye: bool,
    pub back: LinkedList<Answered>,
    /// The history that it was told of last.
    pub seen: LinkedList<Answered>,
    /// The done words that it loaded.
    pub loads: LinkedList<u64>,
    /// 0, or 1 more than the number of the message whose slot it holds.
    pub slot_held: u64,
}

/// What the storage thread knows.
pub struct StorageState {
    pub terms: Terms,
    /// How many workers it has made.
    pub made: u64,
    /// The requests that it took, each with its worker.
    pub taken: LinkedList<(u64, Posted)>,
    /// The requests that it answered.
    pub history: LinkedList<Answered>,
    /// The first of them: those that the workers can know of by the done words.
    pub told: LinkedList<Answered>,
    /// The workers whose Bye was taken.
    pub byes: LinkedList<u64>,
    /// The lane and the message that it holds.
    pub holding: Option<(u64, LaneMessage)>,
    /// The lanes that it looked at, each with the posted word.
    pub looks: LinkedList<(u64, u64)>,
}

/// What a seat knows.
pub enum LaneView {
    Nobody,
    Worker(WorkerState),
    Storage(StorageState),
    Comparing(StorageState, WorkerState),
    /// A history that a worker was told of.
    Told(LinkedList<Answered>),
    /// Two such histories.
    TwoTold(LinkedList<Answered>, LinkedList<Answered>),
    /// A worker that is compared with such a history.
    Checking(WorkerState, LinkedList<Answered>),
}

/// The rule of the lanes, which each step keeps.
pub struct Lanes;

impl TableRule<Option<LaneMessage>, LaneView, LaneKey> for Lanes {
    ghost use Rattle.exchange.specs.Lanes.{LanesHold, opening_view};

    ghost holds = { LanesHold };

    ghost first = { opening_view };
}

pub type LaneTable = Table<Option<LaneMessage>, LaneView, LaneKey, Lanes, Global>;

pub type LaneSeat = Seat<Option<LaneMessage>, LaneView>;

/// The worker loads its posted word, and takes the slot of its next message, which is empty.
pub struct Begins;

impl Play<Option<LaneMessage>, LaneView> for Begins {
    ghost then = { tells_begin };
}

/// The worker loads its posted word, and gives the slot back with a request in it, which isn't sent
/// yet.
pub struct PutsRequest;

impl Play<Option<LaneMessage>, LaneView> for PutsRequest {
    ghost then = { request_put };
}

/// The worker loads its posted word, and takes the slot of the next answer of the history that it
/// saw.
pub struct TakesSeen;

impl Play<Option<LaneMessage>, LaneView> for TakesSeen {
    ghost then = { seen_taken };
}

/// The worker stores posted: the requests that it put are sent.
pub struct Posts;

impl Play<Option<LaneMessage>, LaneView> for Posts {
    ghost then = { tells_post };
}

/// The worker stores posted, and gives the slot back with its Bye in it, which is sent so.
pub struct PostsBye;

impl Play<Option<LaneMessage>, LaneView> for PostsBye {
    ghost then = { bye_posted };
}

/// The worker loads done: it is told of a history, and takes the slot of its next answer there, if
/// there is one.
pub struct LoadsDone;

impl Play<Option<LaneMessage>, LaneView> for LoadsDone {
    ghost then = { done_loaded };
}

/// The worker loads its posted word, and gives a slot back, empty.
pub struct ReturnsSlot;

impl Play<Option<LaneMessage>, LaneView> for ReturnsSlot {
    ghost then = { slot_returned };
}

/// Storage loads a lane's posted word, which says how many messages there are. It takes none.
pub struct LoadsPosted;

impl Play<Option<LaneMessage>, LaneView> for LoadsPosted {
    ghost then = { posted_loaded };
}

/// Storage loads its done word of a lane, and gives the slot back with an answer in it, which isn't
/// told yet.
pub struct Answers;

impl Play<Option<LaneMessage>, LaneView> for Answers {
    ghost then = { tells_answer };
}

/// Storage loads its done word of a lane, and takes the slot of the next message that a look named.
pub struct OpensSeen;

impl Play<Option<LaneMessage>, LaneView> for OpensSeen {
    ghost then = { seen_opened };
}

/// Storage stores done: the lane's worker can be told of all answers.
pub struct TellsDone;

impl Play<Option<LaneMessage>, LaneView> for TellsDone {
    ghost then = { told_done };
}

/// Storage stores done, and gives the slot of a Bye back, empty.
pub struct SettlesBye;

impl Play<Option<LaneMessage>, LaneView> for SettlesBye {
    ghost then = { settle_bye };
}

/// Storage, with a worker joined to it, loads any word: what the two know agrees, and storage goes
/// on alone.
pub struct Compares;

impl Play<Option<LaneMessage>, LaneView> for Compares {
    ghost then = { tells_comparison };
}

/// Storage splits its seat for the next worker, which has done nothing yet.
pub struct MakesWorker;

impl Split<LaneView> for MakesWorker {
    ghost left = { with_one_more };

    ghost right = { new_worker };
}

/// Storage joins a worker's seat to its own, to be compared with it.
pub struct JoinsWorker;

impl Join<LaneView> for JoinsWorker {
    ghost use Rattle.exchange.specs.declared.rule.LaneView.TheVariants.{Nobody};

    ghost both = { comparing };

    ghost spent = { Nobody };
}

/// A worker splits its seat: the new one knows the history that the worker was told of last. A told
/// history splits its own: the new one knows the same history.
pub struct NotesTold;

impl Split<LaneView> for NotesTold {
    ghost left = { unchanged };

    ghost right = { noting };
}

/// A worker, or a told history, joins a told history's seat to its own, to be compared with it.
pub struct MeetsTold;

impl Join<LaneView> for MeetsTold {
    ghost use Rattle.exchange.specs.declared.rule.LaneView.TheVariants.{Nobody};

    ghost both = { meeting };

    ghost spent = { Nobody };
}

/// The worker, with a told history joined to it, loads any word: the history has no request that it
/// hasn't sent.
pub struct Checks;

impl Play<Option<LaneMessage>, LaneView> for Checks {
    ghost then = { tells_check };
}

/// A told history, with another joined to it, loads any word: one of the two begins with the other.
pub struct ComparesTold;

impl Play<Option<LaneMessage>, LaneView> for ComparesTold {
    ghost then = { tells_two };
}
