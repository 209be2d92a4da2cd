//! Why a replay failed.

ghost use Rattle.std.specs.Prelude.{◌≡◌};
ghost use Rattle.replaying.specs.declared.fault.Fault.TheVariants.{BadSizes, NoMemory, Group, Exchange};

use command_line::BadSizes;
use exchange::MakeFault;
use group::GroupFault;
use proto::NoMemory;
use script::ScriptFault;
use std::alloc::AllocError;
use thiserror::Error;

/// A fault; its text is the line that the program prints. They are tested in this order.
#[derive(Debug, Drop, Error)]
pub enum Fault {
    /// No cache may have the sizes.
    #[error("fault: {0}")]
    BadSizes(BadSizes),
    /// The path.
    #[error("fault: cannot read {0}")]
    CannotRead(String),
    #[error("fault: {0}")]
    Script(ScriptFault),
    /// The number of workers isn't 1 to 8, or memory is missing.
    #[error("fault: {0}")]
    Exchange(MakeFault),
    /// Out of memory, or a thread can't be started.
    #[error("fault: {0}")]
    Group(GroupFault),
    #[error("fault: cannot write")]
    CannotWrite,
    #[error("fault: out of memory")]
    NoMemory,
}

impl From<BadSizes> for Fault {
    ghost from_gives = { λ error fault. fault ≡ BadSizes error };

    fn from(why: BadSizes) -> Fault {
        Fault::BadSizes(why)
    }
}

impl From<NoMemory> for Fault {
    ghost from_gives = { λ error fault. fault ≡ NoMemory };

    fn from(_error: NoMemory) -> Fault {
        Fault::NoMemory
    }
}

impl From<AllocError> for Fault {
    ghost from_gives = { λ error fault. fault ≡ NoMemory };

    fn from(_error: AllocError) -> Fault {
        Fault::NoMemory
    }
}

impl From<GroupFault> for Fault {
    ghost from_gives = { λ error fault. fault ≡ Group error };

    fn from(fault: GroupFault) -> Fault {
        Fault::Group(fault)
    }
}

impl From<MakeFault> for Fault {
    ghost from_gives = { λ error fault. fault ≡ Exchange error };

    fn from(fault: MakeFault) -> Fault {
        Fault::Exchange(fault)
    }
}
