//! What the process took so far, as the system tells it.

use net::ProcessorTimes;

/// Microseconds of a tick, in which the system counts processor times.
const TICK_MICROS: u64 = 10_000;

/// More bytes than the line has.
const LINE_ROOM: usize = 1024;

/// How many words stand between the program's name, in parentheses, and the first of the two times.
const WORDS_BEFORE: usize = 11;

/// The two times of a line of `/proc/self/stat`. The name before them may hold anything, also
/// spaces and parentheses.
pub(crate) fn times_of(line: &str) -> Option<ProcessorTimes> {
    let (_, behind) = line.rsplit_once(')')?;
    let mut words = behind.split_whitespace().skip(WORDS_BEFORE);
    let user: u64 = words.next()?.parse().ok()?;
    let system: u64 = words.next()?.parse().ok()?;
    Some(ProcessorTimes {
        user: user.saturating_mul(TICK_MICROS),
        system: system.saturating_mul(TICK_MICROS),
    })
}

/// The processor times of the process, to a hundredth of a second; None if the system doesn't tell
/// them.
pub(crate) fn processor_times() -> Option<ProcessorTimes> {
    let mut room = [0u8; LINE_ROOM];
    let file = os::open_read(b"/proc/self/stat");
    if file < 0 {
        return None;
    }
    let count = libc::read(file, &mut room);
    let _ = libc::close(file);
    let line = room.get(..usize::try_from(count).ok()?)?;
    times_of(str::from_utf8(line).ok()?)
}
