//! Why serving failed.

ghost use Rattle.std.specs.Prelude.{◌≡◌};
ghost use Rattle.serving.specs.declared.fault.Fault.TheVariants.{BadSizes, NoMemory, Group, Exchange};
ghost use Rattle.serving.specs.Statuses.{fault_status};

use command_line::BadSizes;
use exchange::MakeFault;
use group::GroupFault;
use net::NetFault;
use proto::NoMemory;
use std::alloc::AllocError;
use thiserror::Error;

/// A fault; its text is the line that the program prints. They are tested in this order.
#[derive(Debug, Drop, Error)]
pub enum Fault {
    /// No cache may have the sizes.
    #[error("fault: {0}")]
    BadSizes(BadSizes),
    /// The address, and why.
    #[error("fault: cannot listen on {0}: {1}")]
    CannotListen(String, NetFault),
    #[error("fault: cannot write")]
    CannotWrite,
    /// The thread that accepts connections can't be started.
    #[error("fault: cannot start a thread")]
    NoThread,
    /// The number of workers isn't 1 to 8, or memory is missing.
    #[error("fault: {0}")]
    Exchange(MakeFault),
    /// Out of memory, or a thread can't be started.
    #[error("fault: {0}")]
    Group(GroupFault),
    #[error("fault: out of memory")]
    NoMemory,
}

impl Fault {
    /// The exit status: 2 if the options ask for what can't be, 3 if the address can't be had, else
    /// 1.
    pub fn status(&self) -> u8
        ensures { result ≡ fault_status self.now }
    {
        match self {
            Fault::BadSizes(_) => 2,
            Fault::CannotListen(_, why) => match why {
                NetFault::BadAddress | NetFault::BadPath => 2,
                _ => 3,
            },
            _ => 1,
        }
    }
}

impl From<BadSizes> for Fault {
    ghost from_gives = { λ error fault. fault ≡ BadSizes error };

    fn from(why: BadSizes) -> Fault {
        Fault::BadSizes(why)
    }
}

impl From<NoMemory> for Fault {
    ghost from_gives = { λ error fault. fault ≡ NoMemory };

    fn from(_error: NoMemory) -> Fault {
        Fault::NoMemory
    }
}

impl From<AllocError> for Fault {
    ghost from_gives = { λ error fault. fault ≡ NoMemory };

    fn from(_error: AllocError) -> Fault {
        Fault::NoMemory
    }
}

impl From<GroupFault> for Fault {
    ghost from_gives = { λ error fault. fault ≡ Group error };

    fn from(fault: GroupFault) -> Fault {
        Fault::Group(fault)
    }
}

impl From<MakeFault> for Fault {
    ghost from_gives = { λ error fault. fault ≡ Exchange error };

    fn from(fault: MakeFault) -> Fault {
        Fault::Exchange(fault)
    }
}
