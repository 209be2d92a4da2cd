//! A group of one worker beside the plain program, on random scripts.

ghost use Rattle.std.specs.Prelude.{◌<◌};

use crate::common::{check_same, options};
use crate::replays::replay_with;
use command_line::{Options, geometry_of};
use reference::{SessionOutput, replay_sequentially};
use script::{ScriptClock, WorkerScript, read_script};
use segcache::Store;
use std::alloc::{AllocError, Global};
use std::process::Abort;
use std::sync::Wait;
use std::test::Fail;
use std::thread::Threads;
use std::time;

/// Numbers that look random, by xorshift.
#[derive(Clone, Copy)]
struct Numbers {
    state: u64,
}

impl Numbers {
    fn below(&mut self, bound: u64) -> u64
        requires { 0 < bound }
        ensures { result < bound }
    {
        self.state ^= self.state << 13;
        self.state ^= self.state >> 7;
        self.state ^= self.state << 17;
        self.state % bound
    }

    fn key(&mut self) -> &'static str {
        match self.below(4) {
            0 => "a",
            1 => "bb",
            2 => "ccc",
            _ => "n",
        }
    }
}

/// Adds the bytes in hexadecimal.
fn push_hex(alloc: Global, text: &mut String, bytes: &[u8]) -> Result<(), AllocError> {
    let digits = hex::encode(alloc, bytes)?;
    text.push_str(digits.as_str())
}

fn push_number(alloc: Global, text: &mut String, number: u64) -> Result<(), AllocError> {
    let digits = number.to_string(alloc)?;
    text.push_str(digits.as_str())
}

/// Adds the line of a session that is given these bytes.
fn push_session(
    alloc: Global,
    lines: &mut String,
    session: u64,
    bytes: &[u8],
) -> Result<(), AllocError> {
    lines.push_str("0 ")?;
    push_number(alloc, lines, session)?;
    lines.push_str(" ")?;
    if bytes.is_empty() {
        lines.push_str("-")?;
    } else {
        push_hex(alloc, lines, bytes)?;
    }
    lines.push_str("\n")
}

/// The lines of all sessions.
fn lines_of(alloc: Global, outputs: &[SessionOutput]) -> Result<String, AllocError> {
    let mut lines = String::new(alloc);
    for given in outputs {
        push_session(alloc, &mut lines, given.session, given.output.as_slice())?;
    }
    Ok(lines)
}

/// What the plain program gives where these events come.
fn plain_outputs(
    alloc: Global,
    options: &Options,
    events: &WorkerScript,
) -> Result<Vec<SessionOutput>, Fail> {
    let geometry = geometry_of(
        options.segment_size,
        options.segments,
        options.max_item_size,
    )
    .map_err(|_| "geometry")?;
    let store = Store::new(alloc, geometry)?;
    let clock = ScriptClock::new(options.now, options.tick);
    Ok(replay_sequentially(alloc, store, clock, events.as_slice())?)
}

/// The same as the lines of `replay`.
fn plain_lines(alloc: Global, options: &Options, events: &WorkerScript) -> Result<String, Fail> {
    let outputs = plain_outputs(alloc, options, events)?;
    Ok(lines_of(alloc, outputs.as_slice())?)
}

/// What the plain program gives for the script of a worker.
fn plain_replay(alloc: Global, options: &Options, script: &[u8]) -> Result<String, Fail> {
    let Ok(scripts) = read_script(alloc, script, 1) else {
        return Err("a fault of the script".into());
    };
    let Some(events) = scripts.first() else {
        return Err("no worker".into());
    };
    plain_lines(alloc, options, events)
}

const DIGITS: [&str; 10] = ["0", "1", "2", "3", "4", "5", "6", "7", "8", "9"];

/// The words of a storage command with two bytes of data.
fn write_command(numbers: &mut Numbers, word: &'static str) -> [&'static str; 7] {
    let key = numbers.key();
    let exptime = DIGITS[numbers.below(6) as usize];
    let number = numbers.below(90) as usize + 10;
    [
        word,
        key,
        " 3 ",
        exptime,
        " 2\r\n",
        DIGITS[number / 10],
        DIGITS[number % 10],
    ]
}

/// The words of the next command.
fn command(numbers: &mut Numbers) -> [&'static str; 7] {
    let key = numbers.key();
    let amount = DIGITS[numbers.below(7) as usize];
    match numbers.below(13) {
        0 | 1 => write_command(numbers, "set "),
        2 => write_command(numbers, "add "),
        3 => write_command(numbers, "replace "),
        4 => ["cas ", key, " 0 0 1 ", amount, "\r\nx", "", ""],
        5 => ["delete ", key, "", "", "", "", ""],
        6 => ["incr ", key, " ", amount, "", "", ""],
        7 => ["decr ", key, " ", amount, "", "", ""],
        8 => ["flush_all ", amount, " noreply", "", "", "", ""],
        9 => ["gets ", "a bb ccc n", "", "", "", "", ""],
        10 => ["nonsense ", key, "", "", "", "", ""],
        11 => ["stats", "", "", "", "", "", ""],
        _ => ["get ", key, "", "", "", "", ""],
    }
}

fn push_command(numbers: &mut Numbers, bytes: &mut Vec<u8>) -> Result<(), AllocError> {
    for word in command(numbers) {
        bytes.extend_from_slice(word.as_bytes())?;
    }
    bytes.extend_from_slice(b"\r\n")
}

/// Adds a line that sends these bytes.
fn push_piece(alloc: Global, script: &mut String, bytes: &[u8]) -> Result<(), AllocError> {
    script.push_str("send 0 1 ")?;
    push_hex(alloc, script, bytes)?;
    script.push_str("\n")
}

/// Adds a command, and its bytes and those before it as a piece, unless that is to be cut later.
fn push_next(
    alloc: Global,
    numbers: &mut Numbers,
    script: &mut String,
    bytes: &mut Vec<u8>,
) -> Result<(), AllocError> {
    push_command(numbers, bytes)?;
    let cut = numbers.below(60) as usize;
    if cut < bytes.len() {
        push_piece(alloc, script, bytes.as_slice())?;
        bytes.clear();
    }
    Ok(())
}

/// Adds `commands` commands, cut at random.
fn push_commands(
    alloc: Global,
    script: &mut String,
    seed: u64,
    commands: u64,
) -> Result<(), AllocError> {
    let mut numbers = Numbers { state: seed };
    let mut bytes = Vec::new(alloc);
    for _ in 0..commands {
        push_next(alloc, &mut numbers, script, &mut bytes)?;
    }
    Ok(())
}

/// A script of one session that sends `commands` commands, cut at random.
fn random_script(alloc: Global, seed: u64, commands: u64) -> Result<String, AllocError> {
    let mut script = String::from_str(alloc, "open 0 1\n")?;
    push_commands(alloc, &mut script, seed, commands)?;
    Ok(script)
}

/// The replay prints this of the script.
fn check_printed<H: Abort + Threads + Wait + time::Clock + Sync>(
    rt: &H,
    alloc: Global,
    options: &Options,
    script: &[u8],
    wanted: &[u8],
    seed: u64,
) -> Result<(), Fail> {
    let mut out = Vec::new(alloc);
    replay_with(rt, alloc, options, script, &mut out)?;
    check_same(rt, out.as_slice(), wanted, seed);
    Ok(())
}

/// It prints what the plain program gives.
fn check_script<H: Abort + Threads + Wait + time::Clock + Sync>(
    rt: &H,
    alloc: Global,
    options: &Options,
    script: &[u8],
    seed: u64,
) -> Result<(), Fail> {
    let plain = plain_replay(alloc, options, script)?;
    check_printed(rt, alloc, options, script, plain.as_bytes(), seed)
}

fn check_seed<H: Abort + Threads + Wait + time::Clock + Sync>(
    rt: &H,
    alloc: Global,
    options: &Options,
    seed: u64,
) -> Result<(), Fail> {
    let script = random_script(alloc, seed, 200)?;
    check_script(rt, alloc, options, script.as_bytes(), seed)
}

#[test]
fn random_scripts(rt: HostRuntime) -> Result<(), Fail> {
    let options = options(rt.alloc(), "replay script --tick 1")?;
    for seed in 1..40u64 {
        check_seed(&rt, rt.alloc(), &options, seed)?;
    }
    Ok(())
}
