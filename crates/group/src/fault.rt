//! Why a group didn't run.
ghost use Rattle.std.specs.Prelude.{◌≡◌};
ghost use Rattle.group.specs.declared.fault.GroupFault.TheVariants.{NoMemory};

use crate::start::CalledOff;
use std::alloc::AllocError;
use thiserror::Error;

/// Why a group didn't run. No event was taken then, and no request was executed.
#[derive(Debug, Drop, Error)]
pub enum GroupFault {
    /// Out of memory, before a thread was started.
    #[error("out of memory")]
    NoMemory,
    /// A thread couldn't be started. Those that were started were told not to begin, and have
    /// ended.
    #[error("cannot start a thread")]
    NoThread(CalledOff),
    /// A lock that was made for the start, or for the note of what the group began with, had a
    /// value. No run comes to it.
    #[error("a new lock had a value")]
    NotNew,
}

impl From<AllocError> for GroupFault {
    ghost from_gives = { λ error fault. fault ≡ NoMemory };

    fn from(_error: AllocError) -> GroupFault {
        GroupFault::NoMemory
    }
}
