//! However the bytes are cut, and whenever answers come and output is given, what is given is the
//! same.

use crate::player::{Given, Player};
use crate::same::check_same;
use proto::Dialect;
use session_book::EndCause;
use std::alloc::Global;
use std::process::Abort;
use std::test::Fail;

/// A session's bytes, the value that a `get` of it finds under `a`, its output, and how it ends.
#[derive(Clone, Copy)]
struct Row {
    input: &'static str,
    found: Option<&'static str>,
    output: &'static str,
    ends: Option<EndCause>,
}

const ROWS: [Row; 8] = [
    Row {
        input: "set a 0 0 1\r\nx\r\nget a\r\n",
        found: Some("x"),
        output: "STORED\r\nVALUE a 0 1\r\nx\r\nEND\r\n",
        ends: None,
    },
    Row {
        input: "set a 0 0 7\r\nget b\r\n\r\nget a\r\n",
        found: Some("get b\r\n"),
        output: "STORED\r\nVALUE a 0 7\r\nget b\r\n\r\nEND\r\n",
        ends: None,
    },
    Row {
        input: "foo\r\n\r\nget a\r\n",
        found: None,
        output: "ERROR\r\nERROR\r\nEND\r\n",
        ends: None,
    },
    Row {
        input: "get a\r\nfoo\r\n",
        found: None,
        output: "END\r\nERROR\r\n",
        ends: None,
    },
    Row {
        input: "set a 0 0 1 noreply\r\nx\r\nset a 0 0 1\r\ny\r\nquit\r\nget a\r\n",
        found: Some("y"),
        output: "STORED\r\n",
        ends: Some(EndCause::Quit),
    },
    Row {
        input: "set a 0 0 2\r\nxyz\r\nget a\r\n",
        found: None,
        output: "CLIENT_ERROR bad data chunk\r\n",
        ends: Some(EndCause::Fatal),
    },
    Row {
        input: "get\r\nget \r\nquit \r\n get a\r\nGET a\r\n",
        found: None,
        output: "CLIENT_ERROR bad command line format\r\nCLIENT_ERROR bad command line format\r\nCLIENT_ERROR bad command line format\r\nERROR\r\nERROR\r\n",
        ends: None,
    },
    Row {
        input: "gets a\r\nfoo\r\nget a\r\nset a 0 0 131073\r\n",
        found: Some("x"),
        output: "VALUE a 0 1 1\r\nx\r\nEND\r\nERROR\r\nVALUE a 0 1\r\nx\r\nEND\r\nSERVER_ERROR object too large for cache\r\n",
        ends: Some(EndCause::Fatal),
    },
];

/// The same of the lenient dialect.
const LENIENT_ROWS: [Row; 3] = [
    Row {
        input: "set a 0 0 2 \r\nx \r\nget a  \r\nfoo \r\n",
        found: Some("x "),
        output: "STORED\r\nVALUE a 0 2\r\nx \r\nEND\r\nERROR\r\n",
        ends: None,
    },
    Row {
        input: "get \r\n \r\nget  a\r\nquit \r\nget a\r\n",
        found: None,
        output: "CLIENT_ERROR bad command line format\r\nERROR\r\nCLIENT_ERROR bad command line format\r\n",
        ends: Some(EndCause::Quit),
    },
    Row {
        input: "set b 0 0 1 \r\ny\r\nset a 0 0 1 noreply  \r\nx \r\nget a\r\n",
        found: None,
        output: "STORED\r\nCLIENT_ERROR bad data chunk\r\n",
        ends: Some(EndCause::Fatal),
    },
];

/// Feeds, reads, settles or gives, as the number picks, and says what is left to feed.
fn play_turn<'a>(player: &mut Player, rest: &'a [u8], random: u64) -> Result<&'a [u8], Fail> {
    match (random >> 40) % 4 {
        0 => {
            let length = ((random >> 33) % 7) as usize;
            let (piece, rest) = rest.split_at(length.min(rest.len()));
            player.feed(7, piece)?;
            return Ok(rest);
        }
        1 => {
            let _ = player.ask(7)?;
        }
        2 => {
            let _ = player.settle(0, Given::Known)?;
        }
        _ => player.give(7)?,
    }
    Ok(rest)
}

/// Plays the session with this input, in an order that the seed picks, and then reads, settles and
/// gives what is left.
fn play(player: &mut Player, input: &[u8], seed: u64) -> Result<(), Fail> {
    player.book.open(7)?;
    let mut rest = input;
    let mut random = seed;
    for _ in 0..60 {
        random = random
            .wrapping_mul(6_364_136_223_846_793_005)
            .wrapping_add(1_442_695_040_888_963_407);
        rest = play_turn(player, rest, random)?;
    }
    player.feed(7, rest)?;
    for _ in 0..10 {
        let _ = player.ask(7)?;
        let _ = player.settle(0, Given::Known)?;
    }
    player.give(7)
}

fn check_row(
    rt: &impl Abort,
    alloc: Global,
    dialect: Dialect,
    row: &Row,
    seed: u64,
) -> Result<(), Fail> {
    let mut player = Player::new(alloc, dialect, row.found);
    let played = play(&mut player, row.input.as_bytes(), seed);
    let is_given = player.given.as_slice() == row.output.as_bytes();
    let ends = player.book.offer(7).finished;
    drop(player);
    played?;
    check_same(rt, (is_given, ends), (true, row.ends), (row.input, seed));
    Ok(())
}

#[test]
fn cuttings_give_one_output(rt: HostRuntime) -> Result<(), Fail> {
    for seed in 0..50 {
        for row in &ROWS {
            check_row(&rt, rt.alloc(), Dialect::Strict, row, seed)?;
        }
        for row in &LENIENT_ROWS {
            check_row(&rt, rt.alloc(), Dialect::Lenient(131_072), row, seed)?;
        }
    }
    Ok(())
}
