//! What clients may rely on, as a law of told histories. The server doesn't call it.

ghost use Rattle.std.specs.Prelude.{◌≡◌, List};
ghost use Rattle.proto.specs.declared.history.Answered.{Answered};
ghost use Rattle.proto.specs.Sizes.{Sizes};
ghost use Rattle.proto.specs.History.{Legal};
ghost use Rattle.exchange.specs.Beginnings.{AreOfOne};
ghost use Rattle.worker_port.specs.Ports.{PortTrace};
ghost use Rattle.worker_port.specs.Giving.{HasAskedOnly};
ghost use Rattle.group.specs.Precedence.{AnsweredBeforeSent, SeesLeft};

use exchange::{ToldHistory, WorkerLane};
use worker_port::laws::order_in_real_time;

/// Linearizability: a request that was sent after another one was answered comes after it,
/// whichever workers they are of, and sees what it left, or what came after that. The answer was
/// given by the earlier history, which its port keeps. The sender is the worker's end of the other
/// request's port, which is about to read: call it before the later history is told. The earlier
/// one is handed back, and `WorkerLane::compare` says that both are of one history.
pub fn later_requests_see_earlier_ones(sender: &mut WorkerLane, earlier: ToldHistory) -> ToldHistory
    requires { earlier.exchange ≡ sender.old.end.exchange }
    ensures same { sender.new ≡ sender.old }
    ensures handed_back { result ≡ earlier }
    ensures sees { (sizes : Sizes) (sending : PortTrace) (later : List Answered) (one other : Answered)
        → HasAskedOnly sending sender.old.end.exchange sender.old.end.worker sender.old.end.sent
        → AreOfOne earlier.items later → Legal sizes later → AnsweredBeforeSent earlier.items sending later one other
        → SeesLeft sizes later one other }
{
    order_in_real_time(sender, earlier)
}
