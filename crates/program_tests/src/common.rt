//! What the tests share.

use command_line::{Job, Options, parse_words};
use std::alloc::{AllocError, Global};
use std::fmt::Debug;
use std::process::Abort;
use std::test::Fail;

/// Checks that the values are the same, and else names the place at which they aren't.
pub(crate) fn check_same<T: Copy + PartialEq + Debug, P: Copy + Debug>(
    rt: &impl Abort,
    given: T,
    wanted: T,
    place: P,
) {
    assert_eq!(rt; given, wanted, "at {place:?}");
}

/// Adds each of the words.
fn push_words(alloc: Global, all: &mut Vec<String>, words: &str) -> Result<(), AllocError> {
    for word in words.split_whitespace() {
        all.push(String::from_str(alloc, word)?)?;
    }
    Ok(())
}

/// What some words ask for.
pub(crate) fn job_of(alloc: Global, words: &str) -> Result<Job, Fail> {
    let mut all = Vec::new(alloc);
    push_words(alloc, &mut all, words)?;
    Ok(parse_words(alloc, all.as_slice())?)
}

/// The options of a replay with these words.
pub(crate) fn options(alloc: Global, words: &str) -> Result<Options, Fail> {
    match job_of(alloc, words)? {
        Job::Replay(options) => Ok(options),
        Job::Help(_) | Job::Serve(_) => Err("no replay".into()),
    }
}
