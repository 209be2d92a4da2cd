//! How long an idle thread spins before it parks.

use crate::same::check_same;
use exchange::{IdleTurns, ParkingWord};
use std::sync::Wait;
use std::test::Fail;
use std::time::{Clock, Duration, Instant};

/// The turns in which a thread spins for which no time is set.
const TURNS: u32 = 2;

/// How many idle turns a thread that spins so long has in a row, and whether it parks twice in
/// them, for 100 milliseconds each. One that has spun long enough announces a park in one turn, and
/// parks in the next.
const ROWS: [(Option<u32>, u32, bool); 3] = [
    (None, TURNS + 4, true),
    (Some(0), 4, true),
    (Some(1_000_000), 40, false),
];

fn turn<R: Wait + Clock>(rt: &R, spin: Option<u32>, turns: u32) {
    let parking = ParkingWord::new();
    let mut idle = IdleTurns::new(TURNS, spin);
    for _ in 0..turns {
        idle.turn(rt, &parking);
    }
}

/// One that is to spin for a second doesn't park at all, or these turns would take four seconds and
/// not one.
#[test]
fn a_thread_parks_once_it_has_spun(rt: HostRuntime) -> Result<(), Fail> {
    for (spin, turns, parks) in &ROWS {
        let start = Instant::now(&rt)?;
        turn(&rt, *spin, *turns);
        let time = start.elapsed(&rt)?;
        let is_right = if *parks {
            time >= Duration::from_millis(150)
        } else {
            time < Duration::from_secs(1)
        };
        check_same(&rt, is_right, true, *turns);
    }
    Ok(())
}
