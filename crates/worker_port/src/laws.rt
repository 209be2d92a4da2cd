//! Laws about histories that were told. The server doesn't call them.

ghost use Rattle.std.specs.Prelude.{◌≡◌, ◌≤◌, ◌++◌, ℕ, List, length, map};
ghost use mathlib.Core.Option.{some};
ghost use lib.ListN.{get_elem?};
ghost use Rattle.proto.specs.declared.message.Request.{Request};
ghost use Rattle.proto.specs.declared.history.Answered.{Answered};
ghost use Rattle.proto.specs.History.{session_share};
ghost use Rattle.exchange.specs.Beginnings.{StartsWith, AreOfOne};
ghost use Rattle.worker_port.specs.Giving.{sent_for};

use exchange::{ToldHistory, WorkerLane};

/// Order in real time. A history was told earlier, and now a session is read: its worker has sent
/// for it only requests of those that the bytes before this read spell (`Port::next`). A later
/// history of the same exchange may have a further request of the session, one that this read or a
/// later one brought. Then it is the earlier history with more entries, and the request stands
/// among these. And the earlier history has of the session only requests that the bytes before this
/// read spell.
///
/// Call it before the later history is told: of a request that the worker has sent by the call it
/// says nothing. The earlier history is handed back, and `WorkerLane::compare` says of it and the
/// later one that they are of one history.
pub fn order_in_real_time(sender: &mut WorkerLane, earlier: ToldHistory) -> ToldHistory
    requires { earlier.exchange ≡ sender.old.end.exchange }
    ensures same { sender.new ≡ sender.old }
    ensures handed_back { result ≡ earlier }
    ensures behind { (session place : ℕ) (spelled : List Request) (later : List Answered) (entry : Answered)
        → StartsWith spelled (sent_for sender.old.end.sent session) → AreOfOne earlier.items later
        → get_elem? (session_share later sender.old.end.worker session) place ≡ some entry → length spelled ≤ place
        → (more : List Answered) × (k : ℕ) × (later ≡ earlier.items ++ more) × (get_elem? more k ≡ some entry) }
    ensures own { (session : ℕ) (spelled : List Request) → StartsWith spelled (sent_for sender.old.end.sent session)
        → StartsWith spelled (map (λ e. e.request) (session_share earlier.items sender.old.end.worker session)) }
{
    sender.check(earlier)
}
