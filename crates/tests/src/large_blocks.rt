//! Leniently a data block that is too large for the cache is dropped as it comes, and its session
//! goes on behind it. A large request is read once there is room for all of it.

use crate::made::spell;
use crate::player::{Given, Player};
use crate::same::check_same;
use proto::Dialect;
use session_book::Tick;
use std::alloc::Global;
use std::process::Abort;
use std::test::Fail;

/// A line and the length of its block, the two bytes after the block with a `get` of a value `x`,
/// how many bytes come at a time, and what is given to all of it.
#[derive(Clone, Copy)]
struct Row {
    line: &'static str,
    length: usize,
    behind: &'static str,
    step: usize,
    output: &'static str,
}

const GET: &str = "\r\nget a\r\n";

const OTHER_END: &str = "geget a\r\n";

const REFUSED: &str = "SERVER_ERROR object too large for cache\r\nVALUE a 0 1\r\nx\r\nEND\r\n";

const HIT: &str = "VALUE a 0 1\r\nx\r\nEND\r\n";

const ROWS: [Row; 9] = [
    Row {
        line: "set a 0 0 131073\r\n",
        length: 131_073,
        behind: GET,
        step: 997,
        output: REFUSED,
    },
    Row {
        line: "set a 0 0 200000\r\n",
        length: 200_000,
        behind: GET,
        step: 9_999,
        output: REFUSED,
    },
    Row {
        line: "set a 0 0 200000 noreply\r\n",
        length: 200_000,
        behind: GET,
        step: 16_384,
        output: HIT,
    },
    // All of it at once.
    Row {
        line: "append a 0 0 200000  \r\n",
        length: 200_000,
        behind: GET,
        step: 262_144,
        output: REFUSED,
    },
    // Once the line is whole, 163,842 bytes are needed, and then one more.
    Row {
        line: "set a 0 0 163822\r\n",
        length: 163_822,
        behind: GET,
        step: 1_021,
        output: REFUSED,
    },
    Row {
        line: "set a 0 0 163823\r\n",
        length: 163_823,
        behind: GET,
        step: 1_021,
        output: REFUSED,
    },
    // The two bytes after a block aren't looked at.
    Row {
        line: "add a 0 0 200000\r\n",
        length: 200_000,
        behind: OTHER_END,
        step: 16_384,
        output: REFUSED,
    },
    Row {
        line: "cas a 0 0 300000 1\r\n",
        length: 300_000,
        behind: GET,
        step: 11,
        output: REFUSED,
    },
    Row {
        line: "prepend a 0 0 8388608\r\n",
        length: 8_388_608,
        behind: GET,
        step: 262_144,
        output: REFUSED,
    },
];

/// Sends the bytes, some at a time, each of which is to fit, and reads what there is to read after
/// each time.
fn send(player: &mut Player, input: &[u8], step: usize) -> Result<(), Fail> {
    player.book.open(7)?;
    for piece in input.chunks(step.max(1)) {
        player.feed(7, piece)?;
        let _ = player.ask(7)?;
    }
    let _ = player.ask(7)?;
    // The `set` that is too large, if it was one, and the `get`.
    for _ in 0..2 {
        let _ = player.settle(0, Given::Known)?;
    }
    Ok(())
}

/// The row's output is there, and the parser was asked five times at most: twice for the line and
/// for the `get`, whose ends may come later, and once for the message.
fn check_row(rt: &impl Abort, alloc: Global, row: &Row, input: &[u8]) -> Result<(), Fail> {
    let mut player = Player::new(alloc, Dialect::Lenient(131_072), Some("x"));
    let sent = send(&mut player, input, row.step);
    let is_given = player.book.out(7) == row.output.as_bytes();
    let looks = player.book.looks();
    drop(player);
    sent?;
    check_same(
        rt,
        (is_given, looks <= 5),
        (true, true),
        (row.line, row.length),
    );
    Ok(())
}

#[test]
fn a_large_block_is_dropped_as_it_comes(rt: HostRuntime) -> Result<(), Fail> {
    for row in &ROWS {
        let mut input = Vec::new(rt.alloc());
        let spelled = spell(&mut input, (row.line, b'z', row.length, row.behind));
        let checked = check_row(&rt, rt.alloc(), row, input.as_slice());
        drop(input);
        checked?;
        spelled?;
    }
    Ok(())
}

/// The line of a request of 1,000,021 bytes: one of them comes at once, and 67 have room.
const LARGE: &[u8] = b"set a 0 0 1000000\r\n";

const AT_ONCE: u64 = 1;

const HAVE_ROOM: u64 = 67;

/// Opens so many sessions, each of which has sent the line of its request. Those without room are
/// paused. How many these are.
fn begin_large(player: &mut Player, count: u64) -> Result<u64, Fail> {
    let mut paused = 0_u64;
    for session in 1..=count {
        player.book.open(session)?;
        player.feed(session, LARGE)?;
        let _ = player.ask(session)?;
        if player.book.next_to_pause().is_some() {
            paused = paused.saturating_add(1);
        }
    }
    Ok(paused)
}

/// How many sessions are resumed now.
fn resumed(player: &mut Player) -> u64 {
    for count in 0..2 * HAVE_ROOM {
        if player.book.next_to_resume(false).is_none() {
            return count;
        }
    }
    2 * HAVE_ROOM
}

/// How many are resumed once this has passed.
fn resumed_after(player: &mut Player, tick: Tick) -> u64 {
    player.book.count_tick(tick);
    resumed(player)
}

/// Nothing comes for so long that all have room who may have it. How many are resumed.
fn let_all_in(player: &mut Player) -> u64 {
    let mut count = 0_u64;
    for _ in 0..HAVE_ROOM {
        count = count.saturating_add(resumed_after(player, Tick::Idle));
    }
    count
}

/// The rest of a session's large request comes. The number of the request.
fn end_large(player: &mut Player, session: u64) -> Result<Option<u64>, Fail> {
    player.feed_letters(session, 1_000_000)?;
    player.feed(session, b"\r\n")?;
    Ok(player.ask(session)?)
}

/// How many are paused, and then resumed: at once, after a tick, once one request has come, and
/// after each of further ticks.
fn resumed_in_turn(player: &mut Player) -> Result<[u64; 9], Fail> {
    let paused = begin_large(player, 20)?;
    let at_once = resumed(player);
    let after_tick = resumed_after(player, Tick::Sixteenth);
    let _ = end_large(player, 1)?;
    Ok([
        paused,
        at_once,
        after_tick,
        resumed(player),
        resumed_after(player, Tick::Sixteenth),
        resumed_after(player, Tick::Sixteenth),
        resumed_after(player, Tick::Sixteenth),
        resumed_after(player, Tick::Sixteenth),
        resumed_after(player, Tick::Idle),
    ])
}

#[test]
fn one_large_request_comes_at_once_and_more_beside_slow_ones(rt: HostRuntime) -> Result<(), Fail> {
    let mut player = Player::new(rt.alloc(), Dialect::Lenient(1_048_512), None);
    let resumed = resumed_in_turn(&mut player);
    drop(player);
    // What has had room for two ticks is slow: one, and then two of them, and at the last tick all.
    let wanted = [19, 0, 0, 1, 0, 1, 0, 2, 4];
    check_same(&rt, resumed?, wanted, "resumed");
    Ok(())
}

/// How many are resumed at all, after one was closed, and when the port has ended.
fn resumed_at_last(player: &mut Player) -> Result<[u64; 4], Fail> {
    begin_large(player, HAVE_ROOM + 2)?;
    let all = let_all_in(player);
    player.book.close(3);
    let behind_closed = resumed(player);
    let is_resumed = player.book.next_to_resume(true) == Some(HAVE_ROOM + 2);
    Ok([all, behind_closed, u64::from(is_resumed), resumed(player)])
}

#[test]
fn large_requests_wait_for_room(rt: HostRuntime) -> Result<(), Fail> {
    let mut player = Player::new(rt.alloc(), Dialect::Lenient(1_048_512), None);
    let resumed = resumed_at_last(&mut player);
    drop(player);
    check_same(&rt, resumed?, [HAVE_ROOM - AT_ONCE, 1, 1, 0], "resumed");
    Ok(())
}

fn pass_seconds(player: &mut Player, count: u64) {
    for _ in 0..count {
        player.book.count_tick(Tick::Second);
    }
}

/// Ten seconds pass, in the last of which the first session sends on. Which have stopped is asked
/// before, after, and when none waits.
fn stopped(player: &mut Player) -> Result<[Option<u64>; 3], Fail> {
    begin_large(player, HAVE_ROOM + 2)?;
    let_all_in(player);
    pass_seconds(player, 9);
    let before = player.book.find_stalled();
    player.feed(1, b"kkk")?;
    pass_seconds(player, 1);
    let after = player.book.find_stalled();
    for _ in 0..2 {
        player.book.next_to_resume(true);
    }
    Ok([before, after, player.book.find_stalled()])
}

#[test]
fn who_sends_nothing_for_ten_seconds_while_others_wait_has_stopped(
    rt: HostRuntime,
) -> Result<(), Fail> {
    let mut player = Player::new(rt.alloc(), Dialect::Lenient(1_048_512), None);
    let stopped = stopped(&mut player);
    drop(player);
    check_same(&rt, stopped?, [None, Some(2), None], "stopped");
    Ok(())
}

/// A session has stopped, and one waits, for which there would be room.
fn stopped_beside_room(player: &mut Player) -> Result<Option<u64>, Fail> {
    begin_large(player, AT_ONCE + 1)?;
    pass_seconds(player, 20);
    Ok(player.book.find_stalled())
}

#[test]
fn who_stops_where_there_is_room_stays(rt: HostRuntime) -> Result<(), Fail> {
    let mut player = Player::new(rt.alloc(), Dialect::Lenient(1_048_512), None);
    let stopped = stopped_beside_room(&mut player);
    drop(player);
    check_same(&rt, stopped?, None, "stopped");
    Ok(())
}

/// Twice as many sessions as have room have begun. After ten seconds those that had room are
/// closed, and the others resumed but for one. Whether one has stopped is asked then, and ten
/// seconds later.
fn stopped_late(player: &mut Player) -> Result<[bool; 2], Fail> {
    begin_large(player, 2 * HAVE_ROOM + 1)?;
    let_all_in(player);
    pass_seconds(player, 10);
    for session in 1..=HAVE_ROOM {
        player.book.close(session);
    }
    let_all_in(player);
    let before = player.book.find_stalled().is_some();
    pass_seconds(player, 10);
    Ok([before, player.book.find_stalled().is_some()])
}

#[test]
fn who_was_paused_has_not_stopped(rt: HostRuntime) -> Result<(), Fail> {
    let mut player = Player::new(rt.alloc(), Dialect::Lenient(1_048_512), None);
    let stopped = stopped_late(&mut player);
    drop(player);
    check_same(&rt, stopped?, [false, true], "stopped");
    Ok(())
}
