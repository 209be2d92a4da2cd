//! The memory of a very large answer is taken in steps, before its `get` is asked. Others are asked
//! between them.

use crate::player::{Given, Player};
use crate::same::check_same;
use proto::{Dialect, HitWriter, Reply, Request};
use session_book::Task;
use std::alloc::Global;
use std::test::Fail;

/// The keys of a `get`, and the bytes of its answer.
const KEYS: u64 = 170;

const ANSWER: usize = 20_000_000;

/// A `get` for many keys comes.
fn feed_get(player: &mut Player) -> Result<(), Fail> {
    player.feed(1, b"get")?;
    for _ in 0..KEYS {
        player.feed(1, b" a")?;
    }
    player.feed(1, b"\r\n")
}

/// A session had a very large answer, and another `get` of it comes. Whether that waits.
fn begin(player: &mut Player) -> Result<bool, Fail> {
    player.book.open(1)?;
    player.book.open(2)?;
    feed_get(player)?;
    player.book.next_to_ask();
    player.ask(1)?;
    let _ = player.settle(0, Given::Hit(ANSWER))?;
    player.give(1)?;
    feed_get(player)?;
    player.book.next_to_ask();
    Ok(player.ask(1).is_err())
}

/// How many steps are taken until no more is, or at most so many.
fn steps(player: &mut Player, most: u64) -> u64 {
    for count in 0..most {
        if !player.book.prepare_answer() {
            return count;
        }
    }
    most
}

/// The bytes of the memory that is lent to the next request of a session; 0 if it has none.
fn lent(player: &mut Player, session: u64) -> Result<usize, Fail> {
    match player.book.next_ask(session)? {
        Some((Request::Get { mut keys, .. }, _)) => {
            let reply = Reply::Values(HitWriter::for_keys(&mut keys).finish());
            Ok(reply.into_buffer().map_or(0, |bytes| bytes.capacity()))
        }
        _ => Ok(0),
    }
}

/// Who is asked before, between and after the steps, and whether the `get` has room for its answer.
fn asked_in_turn(player: &mut Player) -> Result<([Option<u64>; 5], u64, bool), Fail> {
    begin(player)?;
    let before = player.book.next_to_ask();
    let first = steps(player, 3);
    player.feed(2, b"get a\r\n")?;
    let between = player.book.next_to_ask();
    player.ask(2)?;
    let none = player.book.next_to_ask();
    let _ = player.settle(0, Given::Known)?;
    let last = steps(player, 100);
    let after = player.book.next_to_ask();
    let room = lent(player, 1)?;
    let at_last = player.book.next_to_ask();
    let asked = [before, between, none, after, at_last];
    Ok((asked, first.saturating_add(last), room > ANSWER))
}

#[test]
fn a_very_large_answer_is_prepared_before_its_get_is_asked(rt: HostRuntime) -> Result<(), Fail> {
    let mut player = Player::new(rt.alloc(), Dialect::Strict, Some("x"));
    let seen = asked_in_turn(&mut player);
    drop(player);
    let wanted = ([None, Some(2), None, Some(1), None], 10, true);
    check_same(&rt, seen?, wanted, "asked");
    Ok(())
}

/// Whether the `get` waits, and whether something is to be done once its session is closed, before
/// the memory is freed and after.
fn closed_meanwhile(player: &mut Player) -> Result<[bool; 4], Fail> {
    let waits = begin(player)?;
    player.book.next_ready(Task::Give);
    steps(player, 3);
    player.book.close(1);
    player.book.next_to_ask();
    let is_idle = player.book.is_idle();
    let is_freed = player.book.prepare_answer();
    Ok([waits, is_idle, is_freed, player.book.is_idle()])
}

#[test]
fn what_was_prepared_for_a_session_that_is_closed_is_freed(rt: HostRuntime) -> Result<(), Fail> {
    let mut player = Player::new(rt.alloc(), Dialect::Strict, Some("x"));
    let seen = closed_meanwhile(&mut player);
    drop(player);
    check_same(&rt, seen?, [true, false, true, true], "closed");
    Ok(())
}

/// Leniently no answer is very large, whatever a session had before.
#[test]
fn leniently_nothing_is_prepared(rt: HostRuntime) -> Result<(), Fail> {
    let mut player = Player::new(rt.alloc(), Dialect::Lenient(1_048_512), Some("x"));
    let waits = begin(&mut player);
    let taken = steps(&mut player, 3);
    drop(player);
    check_same(&rt, (waits?, taken), (false, 0), "leniently");
    Ok(())
}
