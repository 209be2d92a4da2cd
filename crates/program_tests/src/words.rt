//! What the words of the program ask for.

use crate::common::{check_same, job_of, options};
use command_line::{Job, Options, WordsFault, options_in_force, unreadable_words};
use proto::Dialect;
use std::alloc::Global;
use std::io::{self, ErrorKind};
use std::process::Abort;
use std::test::Fail;

/// Words after `serve`, and all options that are then in force.
const IN_FORCE: [(&str, &str); 10] = [
    (
        "serve --listen 127.0.0.1:0",
        "--listen 127.0.0.1:0 --workers 2 --segment-size 65536 --segments 64",
    ),
    (
        "serve --spin 0 --counters-in-place --quiet --listen [::1]:11211 --sessions 3",
        "--listen [::1]:11211 --workers 2 --segment-size 65536 --segments 64 --sessions 3 --spin 0 --quiet --update-in-place",
    ),
    (
        "serve --listen 127.0.0.1:0 --lenient",
        "--listen 127.0.0.1:0 --workers 2 --segment-size 65536 --segments 64 --lenient",
    ),
    (
        "serve --listen 127.0.0.1:0 --segments 8 --lenient --workers 2",
        "--listen 127.0.0.1:0 --workers 2 --segment-size 65536 --segments 8 --lenient",
    ),
    (
        "serve --lenient --exact-ttls --evict least-read --listen 127.0.0.1:0",
        "--listen 127.0.0.1:0 --workers 2 --segment-size 65536 --segments 64 --evict least-read --exact-ttls --lenient",
    ),
    (
        "serve --evict oldest --listen 127.0.0.1:0",
        "--listen 127.0.0.1:0 --workers 2 --segment-size 65536 --segments 64",
    ),
    (
        "serve --storage workers --lenient --listen 127.0.0.1:0",
        "--listen 127.0.0.1:0 --workers 2 --segment-size 65536 --segments 64 --storage workers --lenient",
    ),
    (
        "serve --storage thread --listen 127.0.0.1:0",
        "--listen 127.0.0.1:0 --workers 2 --segment-size 65536 --segments 64",
    ),
    (
        "serve --output-memory 25165824 --sessions 1 --workers 6 --connections 9 --listen 127.0.0.1:0",
        "--listen 127.0.0.1:0 --workers 6 --segment-size 65536 --segments 64 --connections 9 --output-memory 25165824 --sessions 1",
    ),
    (
        "serve --idle 4294967295 --spin 1000000 --lenient --workers 8 --segments 65536 --segment-size 4096 --listen 0.0.0.0:1",
        "--listen 0.0.0.0:1 --workers 8 --segment-size 4096 --segments 65536 --idle 4294967295 --spin 1000000 --lenient",
    ),
];

/// What a replay is told: the size of a segment, how many there are, the moment, the tick, how many
/// workers run, how much is accepted at once, and which give fails; and whether its dialect is the
/// lenient one.
type Told = ([u64; 7], bool);

/// The words of a replay, and what it is told.
const REPLAYS: [(&str, Told); 6] = [
    ("replay script", ([65_536, 64, 1000, 0, 1, 0, 0], false)),
    (
        "replay script --tick 18446744073709551615 --now 0 --segments 8 --segment-size 1048576",
        (
            [1_048_576, 8, 0, 18_446_744_073_709_551_615, 1, 0, 0],
            false,
        ),
    ),
    (
        "replay script --workers 8 --accept 65536 --fail-give 1",
        ([65_536, 64, 1000, 0, 8, 65_536, 1], false),
    ),
    (
        "replay script --segments 65536 --segment-size 4096",
        ([4096, 65_536, 1000, 0, 1, 0, 0], false),
    ),
    (
        "replay script --lenient",
        ([65_536, 64, 1000, 0, 1, 0, 0], true),
    ),
    (
        "replay script --segments 8 --lenient --workers 2",
        ([65_536, 8, 1000, 0, 2, 0, 0], true),
    ),
];

fn told(options: &Options) -> Told {
    let numbers = [
        options.segment_size,
        options.segments,
        options.now,
        options.tick,
        options.workers,
        options.accept,
        options.fail_give,
    ];
    (numbers, options.dialect.is_lenient())
}

fn check_replay(rt: &impl Abort, alloc: Global, words: &str, wanted: Told) -> Result<(), Fail> {
    let options = options(alloc, words)?;
    check_same(rt, options.file.as_str(), "script", words);
    check_same(rt, told(&options), wanted, words);
    Ok(())
}

/// The options of a server with these words that are in force.
fn in_force(alloc: Global, words: &str) -> Result<String, Fail> {
    match &job_of(alloc, words)? {
        Job::Serve(options) => Ok(options_in_force(alloc, options)?),
        Job::Replay(_) | Job::Help(_) => Err("no server".into()),
    }
}

/// The options in force are these.
fn check_line(rt: &impl Abort, alloc: Global, words: &str, wanted: &str) -> Result<(), Fail> {
    let line = in_force(alloc, words)?;
    check_same(rt, line.as_str(), wanted, words);
    Ok(())
}

/// As words they ask for the same.
fn check_line_again(rt: &impl Abort, alloc: Global, wanted: &str) -> Result<(), Fail> {
    let words = format!(in alloc; "serve {wanted}")?;
    check_line(rt, alloc, words.as_str(), wanted)
}

/// Words that can't be read, as this kind of error says, come to this.
fn check_unreadable(rt: &impl Abort, alloc: Global, kind: ErrorKind, wanted: &str) {
    let error: io::Error = kind.into();
    let came = match &unreadable_words(alloc, &error) {
        WordsFault::BadWords(_) => "bad words",
        WordsFault::NoMemory => "no memory",
    };
    check_same(rt, came, wanted, "bytes");
}

#[test]
fn words(rt: HostRuntime) -> Result<(), Fail> {
    let alloc = rt.alloc();
    for (words, wanted) in &REPLAYS {
        check_replay(&rt, alloc, words, *wanted)?;
    }
    for (words, wanted) in &IN_FORCE {
        check_line(&rt, alloc, words, wanted)?;
        check_line_again(&rt, alloc, wanted)?;
    }
    check_unreadable(&rt, alloc, ErrorKind::InvalidData, "bad words");
    check_unreadable(&rt, alloc, ErrorKind::OutOfMemory, "no memory");
    Ok(())
}
