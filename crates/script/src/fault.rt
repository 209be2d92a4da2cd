//! What is wrong with a script.

use proto::NoMemory;
use thiserror::Error;

/// What is wrong with a line. The first of these that a line has is reported.
#[derive(Clone, Copy, Debug, Error)]
pub enum LineFault {
    #[error("not a script line")]
    NotAScriptLine,
    #[error("worker out of range")]
    WorkerOutOfRange,
    #[error("session number not above the last")]
    NotAboveLast,
    #[error("session not open")]
    NotOpen,
}

/// Why a script can't be read.
#[derive(Clone, Copy, Debug, Error)]
pub enum ScriptFault {
    #[error("script too large")]
    TooLarge,
    /// Lines are counted from 1.
    #[error("line {line}: {fault}")]
    Line { line: u64, fault: LineFault },
    #[error("out of memory")]
    NoMemory,
}

impl From<NoMemory> for ScriptFault {
    ghost use Rattle.std.specs.Prelude.{◌≡◌};
    ghost use Rattle.script.specs.declared.fault.ScriptFault.TheVariants as fault;

    ghost from_gives = { λ _ e. e ≡ fault.NoMemory };

    fn from(_e: NoMemory) -> ScriptFault {
        ScriptFault::NoMemory
    }
}
