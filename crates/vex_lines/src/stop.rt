//! Why a run stops in the midst of its answers.

ghost use Rattle.std.specs.Prelude.{◌≡◌};
ghost use Rattle.vex_lines.specs.Internal.Stops.{status_of_stop};
ghost use Rattle.vex_lines.specs.declared.stop.Stop.TheVariants.{WriteFault};

use crate::ends::Failed;
use crate::status::Status;

/// Why a run stops before it has answered what it read.
#[derive(Clone, Copy, PartialEq, Eq, Debug)]
pub enum Stop {
    /// A write failed.
    WriteFault,
    /// There was no memory.
    NoMemory,
}

impl Stop {
    /// The status that the run then ends with.
    pub fn status(self) -> Status
        ensures { result ≡ status_of_stop self }
    {
        match self {
            Stop::WriteFault => Status::WriteFault,
            Stop::NoMemory => Status::NoMemory,
        }
    }
}

impl From<Failed> for Stop {
    ghost from_gives = { λ _ stop. stop ≡ WriteFault };

    fn from(_failed: Failed) -> Stop {
        Stop::WriteFault
    }
}
