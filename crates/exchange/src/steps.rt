//! The steps on the words and slots of a lane.
ghost use Rattle.std.specs.Prelude.{◌≡◌, ℕ, suc, ◌+◌, ◌*◌, ◌^◌, ◌<◌, ◌≤◌, [], ◌∷◌, ◌++◌, length, Some, None, false};
ghost use Rattle.atomic_table.specs.Table.{rest};
ghost use Rattle.proto.specs.declared.history.Answered.{Answered};
ghost use Rattle.exchange.specs.declared.messages.LaneMessage.{LaneMessage};
ghost use Rattle.exchange.specs.declared.messages.LaneMessage.TheVariants.{Ask, Answer};
ghost use Rattle.exchange.specs.declared.rule.LaneView.TheVariants.{Worker, Storage};
ghost use Rattle.exchange.specs.Beginnings.{posted_of};
ghost use mathlib.Core.Option.{some};
ghost use lib.ListN.{get_elem?};
ghost use Rattle.proto.specs.History.{LegalBy, worker_share};
ghost use Rattle.exchange.specs.Ends.{settled_count};
ghost use Rattle.exchange.specs.Lanes.{lane_slot};
ghost use Rattle.exchange.specs.Steps.{put_on, holding_slot, with_seen_slot_taken, with_bye, with_held_answered};
ghost use Rattle.exchange.specs.Steps.{with_message_held, IsNextOfLane};
ghost use Rattle.exchange.specs.Seats.{worker_at, storage_at, IsLane, SameSeat, MayPost, MayTake, HasSeen};
ghost use Rattle.exchange.specs.Seats.{HasSeenMessage, StateTakes, HoldsTaken, HoldsSlot, exchanged_to};

use crate::messages::LaneMessage;
use crate::rule::{
    Answers, Begins, LaneSeat, LaneTable, LoadsDone, OpensSeen, PostsBye, ReturnsSlot, TakesSeen,
};
use proto::{Answered, WINDOW};

/// A lane has two words that its two threads store, posted first and then done. Before each are
/// enough unused words of eight bytes that no two share a line of a processor's cache. No thread
/// stores word 0, which is loaded when a seat is split or joined, as for each `give`: so its line
/// stays in the cache.
pub(crate) const POSTED: usize = 8;

pub(crate) const DONE: usize = 2 * POSTED;

/// The words of a lane.
pub(crate) const LANE: usize = 2 * POSTED;

/// The slot of the message with this number. A lane has as many as requests may be on their way.
pub(crate) fn slot_at(worker: usize, number: u64) -> usize
    requires { worker < 8 }
    ensures { result ≡ lane_slot worker number }
{
    WINDOW as usize * worker + (number % WINDOW) as usize
}

/// A worker takes an answer out of its slot. Its seat holds the slot, so no other thread reads or
/// writes it.
fn take_out_answer(
    lane_table: &LaneTable,
    seat: &mut LaneSeat,
    worker: usize,
    number: u64,
) -> Answered
    requires table { (seat.old.table_id ≡ lane_table.now.shared.table_id) × (worker < 8) }
    requires full { (a : Answered) × HoldsSlot seat.old.me (lane_slot worker number) (Some (Answer a)) }
    ensures table { SameSeat seat.old seat.new }
    ensures taken { HoldsSlot seat.old.me (lane_slot worker number) (Some (Answer result)) }
    ensures empty { seat.new.me ≡ exchanged_to seat.old.me (lane_slot worker number) None }
{
    let slot = slot_at(worker, number);
    match lane_table.shared.exchange(seat, slot, None) {
        Some(LaneMessage::Answer(answered)) => answered,
        _ => unreachable!(),
    }
}

/// Puts the Bye into its slot, and stores posted.
pub(crate) fn put_bye(lane_table: &LaneTable, seat: &mut LaneSeat, worker: usize, number: u64)
    requires table { (seat.old.table_id ≡ lane_table.now.shared.table_id) × IsLane seat.old.table_id worker }
    requires room { MayPost seat.old.me worker number }
    requires none_put { (worker_at seat.old.me).put ≡ [] }
    requires all_back { length (worker_at seat.old.me).back ≡ length (worker_at seat.old.me).sent }
    ensures table { SameSeat seat.old seat.new }
    ensures sent { seat.new.me ≡ (Worker (with_bye (worker_at seat.old.me)), []) }
{
    let lanes = &lane_table.shared;
    lanes.load::<Begins>(seat, LANE * worker + POSTED);
    let slot = slot_at(worker, number);
    drop(lanes.exchange(seat, slot, Some(LaneMessage::Bye)));
    lanes.store::<PostsBye>(seat, LANE * worker + POSTED, number + 1);
}

/// Loads done, and takes the next answer out of its slot, if there is one. The number is the word.
pub(crate) fn take_answer(
    lane_table: &LaneTable,
    seat: &mut LaneSeat,
    worker: usize,
    sent: u64,
    back: u64,
) -> (u64, Option<Answered>)
    requires table { (seat.old.table_id ≡ lane_table.now.shared.table_id) × IsLane seat.old.table_id worker }
    requires idle { MayTake seat.old.me worker sent back }
    ensures table { SameSeat seat.old seat.new }
    ensures seat { seat.new.me ≡ (Worker (worker_at seat.new.me), []) }
    ensures taken { StateTakes (worker_at seat.old.me) result.0 result.1 (worker_at seat.new.me) }
{
    let done = lane_table
        .shared
        .load::<LoadsDone>(seat, LANE * worker + DONE);
    if done <= back || sent <= back {
        return (done, None);
    }
    let answered = take_out_answer(lane_table, seat, worker, back);
    lane_table
        .shared
        .load::<ReturnsSlot>(seat, LANE * worker + POSTED);
    (done, Some(answered))
}

/// Takes the next answer of the history that the worker saw out of its slot. It loads the worker's
/// own word alone, which no other thread writes.
pub(crate) fn take_seen_answer(
    lane_table: &LaneTable,
    seat: &mut LaneSeat,
    worker: usize,
    back: u64,
) -> Answered
    requires table { (seat.old.table_id ≡ lane_table.now.shared.table_id) × IsLane seat.old.table_id worker }
    requires seen { HasSeen seat.old.me worker back }
    ensures table { SameSeat seat.old seat.new }
    ensures next { get_elem? (worker_share (worker_at seat.old.me).seen (worker_at seat.old.me).worker)
        (length (worker_at seat.old.me).back) ≡ some result }
    ensures taken { seat.new.me ≡ (Worker (holding_slot (with_seen_slot_taken (worker_at seat.old.me) result) 0), []) }
{
    lane_table
        .shared
        .load::<TakesSeen>(seat, LANE * worker + POSTED);
    let answered = take_out_answer(lane_table, seat, worker, back);
    lane_table
        .shared
        .load::<ReturnsSlot>(seat, LANE * worker + POSTED);
    answered
}

/// Takes the next message, which a look named, out of its slot. It loads done, which no other
/// thread writes.
pub(crate) fn take_message(
    lane_table: &LaneTable,
    seat: &mut LaneSeat,
    lane: usize,
    count: u64,
) -> LaneMessage
    requires table { (seat.old.table_id ≡ lane_table.now.shared.table_id) × IsLane seat.old.table_id lane
        × (lane < lane_table.now.shared.key.workers) }
    requires seen { HasSeenMessage seat.old.me lane count }
    ensures table { SameSeat seat.old seat.new }
    ensures sent { IsNextOfLane (storage_at seat.old.me) lane result }
    ensures opened { seat.new.me ≡ (
      Storage (with_message_held (storage_at seat.old.me) lane result),
      (lane_slot lane (settled_count (storage_at seat.old.me).history (storage_at seat.old.me).byes lane), None) ∷ [],
    ) }
{
    lane_table
        .shared
        .load::<OpensSeen>(seat, LANE * lane + DONE);
    let slot = slot_at(lane, count);
    lane_table.shared.exchange(seat, slot, None).unwrap()
}

/// Puts an answer into the slot of its request. It loads done, which no other thread writes.
pub(crate) fn put_answer(
    lane_table: &LaneTable,
    seat: &mut LaneSeat,
    count: u64,
    answered: Answered,
)
    requires table { (seat.old.table_id ≡ lane_table.now.shared.table_id) × IsLane seat.old.table_id answered.worker
        × (answered.worker < lane_table.now.shared.key.workers) }
    requires held { HoldsTaken seat.old.me answered.worker count (Ask (posted_of answered)) }
    requires legal { LegalBy (storage_at seat.old.me).terms ((storage_at seat.old.me).history ++ answered ∷ []) }
    ensures table { SameSeat seat.old seat.new }
    ensures answered { seat.new.me ≡ (Storage (with_held_answered (storage_at seat.old.me) answered), []) }
{
    let lane = answered.worker;
    let slot = slot_at(lane, count);
    let answer = LaneMessage::Answer(answered);
    drop(lane_table.shared.exchange(seat, slot, Some(answer)));
    lane_table.shared.load::<Answers>(seat, LANE * lane + DONE);
}
