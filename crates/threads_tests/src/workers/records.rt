//! What a port's records say of a session.

ghost use Rattle.std.specs.Prelude.{◌≡◌, ℕ, ◌<◌, ◌≤◌, true};
ghost use Rattle.worker_port.specs.declared.events.PortRecord.TheVariants.{Opened, EndOfInput, Ended};
ghost use Rattle.worker_port.specs.Ports.{is_in, is_open};

use worker_port::PortRecord;

/// Whether the session was opened, and is neither gone nor shut.
pub(crate) fn is_open_in(records: &[PortRecord], session: u64) -> bool
    ensures { result ≡ is_open session records.now }
{
    let mut opened = false;
    let mut gone = false;
    let mut shut = false;
    for entry in records {
        match *entry {
            PortRecord::Opened(number) => opened = opened || number == session,
            PortRecord::Gone(number) => gone = gone || number == session,
            PortRecord::Shut(number) => shut = shut || number == session,
            PortRecord::Data(_, _)
            | PortRecord::EndOfInput(_)
            | PortRecord::Accepted(_, _)
            | PortRecord::Ended => {}
        }
    }
    opened && !(gone || shut)
}

/// The greatest number that was opened, or 0.
fn newest_in(records: &[PortRecord]) -> u64
    ensures { (t : ℕ) → is_in (Opened t) records.now ≡ true → t ≤ result }
{
    let mut newest = 0;
    for entry in records {
        if let PortRecord::Opened(number) = *entry {
            newest = number.max(newest);
        }
    }
    newest
}

/// Whether the number is above 0 and each number that was opened.
pub(crate) fn is_new_in(records: &[PortRecord], session: u64) -> bool
    ensures above { result ≡ true → 0 < session }
    ensures newer { result ≡ true → (t : ℕ) → is_in (Opened t) records.now ≡ true → t < session }
{
    newest_in(records) < session
}

/// Whether the session's input has ended.
pub(crate) fn has_input_ended_in(records: &[PortRecord], session: u64) -> bool
    ensures { result ≡ is_in (EndOfInput session) records.now }
{
    let mut input_ended = false;
    for entry in records {
        if let PortRecord::EndOfInput(number) = *entry {
            input_ended = input_ended || number == session;
        }
    }
    input_ended
}

/// Whether the port has ended.
pub(crate) fn has_ended_in(records: &[PortRecord]) -> bool
    ensures { result ≡ is_in Ended records.now }
{
    let mut ended = false;
    for entry in records {
        if let PortRecord::Ended = *entry {
            ended = true;
        }
    }
    ended
}
