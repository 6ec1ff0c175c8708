ghost use Rattle.std.specs.Prelude.{◌≡◌};
ghost use Rattle.host_files.specs.Faults.{IsFaultOf, reason_for};
ghost use Rattle.host_files.specs.declared.fault.Fault.TheVariants.{NoMemory};

use crate::reason::{OUT_OF_MEMORY, Reason};
use cache_types::NoMemory;
use std::alloc::{AllocError, AllocFailed};
use std::io;
use std::io::ErrorKind;

/// Why a call of the system wasn't done.
#[derive(Clone, Copy, Debug, PartialEq, Eq)]
pub enum Fault {
    /// The system refused, or there is no such file for it.
    Failed(Reason),
    /// Memory ran out, here or in the system.
    NoMemory,
}

impl Fault {
    /// Why the call wasn't done.
    pub fn reason(self) -> Reason
        ensures { result ≡ reason_for self }
    {
        match self {
            Fault::Failed(reason) => reason,
            Fault::NoMemory => Reason::System(OUT_OF_MEMORY),
        }
    }
}

impl From<io::Error> for Fault {
    ghost from_gives = { IsFaultOf };

    fn from(error: io::Error) -> Fault {
        match error.kind() {
            ErrorKind::OutOfMemory => Fault::NoMemory,
            _ => Fault::Failed(Reason::of(&error)),
        }
    }
}

impl From<NoMemory> for Fault {
    ghost from_gives = { λ _ f. f ≡ NoMemory };

    fn from(_error: NoMemory) -> Fault {
        Fault::NoMemory
    }
}

impl From<AllocError> for Fault {
    ghost from_gives = { λ _ f. f ≡ NoMemory };

    fn from(_error: AllocError) -> Fault {
        Fault::NoMemory
    }
}

impl<T: Drop> From<AllocFailed<T>> for Fault {
    ghost from_gives = { λ _ f. f ≡ NoMemory };

    fn from(_refused: AllocFailed<T>) -> Fault {
        Fault::NoMemory
    }
}
