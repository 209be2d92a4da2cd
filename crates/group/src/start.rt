//! The start: said once to all threads of a group.
ghost use Rattle.std.specs.Prelude.{◌≡◌, false};

use std::fmt;
use std::snapshot::Snapshot;
use std::sync::{OnceLock, OnceToken, Wait};

/// What a thread leaves: what it was told, and what it did if it was told to begin.
#[derive(Drop)]
pub struct Finished<'a, T> {
    pub told: OnceToken<'a, bool>,
    pub ran: Option<T>,
}

/// Waits until it is told whether to begin.
pub fn wait_for_start<'a, R: Wait>(rt: &R, start: &'a OnceLock<bool>) -> OnceToken<'a, bool>
    ensures { result.of ≡ start.now.id }
{
    for _ in rt.forever() {
        start.wait(rt);
        if let Some(told) = start.witness() {
            return told;
        }
    }
    unreachable!()
}

/// What shows that the threads of a group were told not to begin, for clauses alone: it has no
/// bytes.
#[derive(Drop)]
pub struct CalledOff {
    /// The start that they waited for.
    start: Snapshot<OnceLock<bool>>,
    /// What it said.
    begins: Snapshot<bool>,
}

impl CalledOff {
    /// The start has said not to begin.
    pub fn of<'a>(start: &'a OnceLock<bool>, told: &OnceToken<'a, bool>) -> CalledOff
        requires { (told.now.of ≡ start.now.id) × (told.now.value ≡ false) }
        ensures { (result.start.value.id ≡ start.now.id) × (result.begins.value ≡ false) }
    {
        CalledOff {
            start: Snapshot::of(start),
            begins: Snapshot::of(start.value(told)),
        }
    }
}

impl fmt::Debug for CalledOff {
    fn fmt<W: fmt::Write>(&self, f: &mut fmt::Formatter<W>) -> fmt::Result {
        f.write_str("CalledOff")
    }
}
