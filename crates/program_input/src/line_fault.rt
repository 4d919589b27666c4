//! Why arguments give no options.
ghost use Rattle.std.specs.Prelude.{◌≡◌, ◌≢◌};
ghost use Rattle.program_input.specs.declared.line_fault.LineFault.TheVariants.{Help, OutOfMemory};

use std::alloc::{AllocError, AllocFailed};
use std::io;
use std::io::ErrorKind;

/// Why the arguments of a command line give no options.
#[derive(Clone, Copy, Debug, PartialEq, Eq)]
pub enum LineFault {
    /// The program has no such arguments.
    Refused,
    /// The arguments ask for the usage line.
    Help,
    /// An allocation failed before the arguments were read.
    OutOfMemory,
}

impl From<AllocError> for LineFault {
    ghost from_gives = { λ _ fault. fault ≡ OutOfMemory };

    fn from(_error: AllocError) -> LineFault {
        LineFault::OutOfMemory
    }
}

impl<T: Drop> From<AllocFailed<T>> for LineFault {
    ghost from_gives = { λ _ fault. fault ≡ OutOfMemory };

    fn from(_error: AllocFailed<T>) -> LineFault {
        LineFault::OutOfMemory
    }
}

/// The arguments of the program could not be read. If memory did not run out, one of them is not UTF-8: the program has
/// no such arguments.
impl From<io::Error> for LineFault {
    ghost from_gives = { λ _ fault. fault ≢ Help };

    fn from(error: io::Error) -> LineFault {
        match error.kind() {
            ErrorKind::OutOfMemory => LineFault::OutOfMemory,
            _ => LineFault::Refused,
        }
    }
}
