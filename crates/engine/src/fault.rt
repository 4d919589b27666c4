//! Why a run gave no whole picture.
ghost use Rattle.std.specs.Prelude.{◌≡◌};
ghost use Rattle.engine.specs.declared.fault.Fault.TheVariants.{OutOfMemory, WriteFailed};

use draw_list::{ReadFault, ReadKind};
use grid::OutOfMemory;
use picture_file::WriteFault;
use pool::PoolFault;
use std::alloc::AllocError;
use std::fmt;
use thiserror::Error;

/// Why a run gave no whole picture. `Display` writes the line that the program writes for it, without the end of the
/// line.
#[derive(Clone, Copy, Debug, PartialEq, Eq, Error)]
pub enum Fault {
    /// The input denotes no draw list. Nothing was written.
    #[error("trirast: list fault {} {}{}", .0.kind.number(), .0.kind.name(), InDraw(.0.draw))]
    List(ReadFault),
    /// A worker was not started. A run never ends so: the calling thread draws the tiles that no worker draws.
    #[error("trirast: pool fault {} {}", .0.number(), .0.name())]
    Pool(PoolFault),
    /// The reader failed. Nothing was written.
    #[error("trirast: input failed")]
    InputFailed,
    /// The input is longer than 64 MiB. Nothing was written.
    #[error("trirast: input too long")]
    InputTooLong,
    /// The writer failed, after this many bytes of the file.
    #[error("trirast: write failed after {0} bytes")]
    WriteFailed(u64),
    /// An allocation on the calling thread failed. Nothing was written, or the header and whole tile rows of the file.
    #[error("trirast: out of memory")]
    OutOfMemory,
}

/// The draw that a fault of a list is in, written behind the fault's name: nothing, or the number of the draw.
#[derive(Drop)]
struct InDraw(Option<u32>);

impl fmt::Display for InDraw {
    fn fmt<W: fmt::Write>(&self, f: &mut fmt::Formatter<W>) -> fmt::Result {
        match self.0 {
            Some(draw) => write!(f, " in draw {draw}"),
            None => Ok(()),
        }
    }
}

impl From<AllocError> for Fault {
    ghost from_gives = { λ _ fault. fault ≡ OutOfMemory };

    fn from(_error: AllocError) -> Fault {
        Fault::OutOfMemory
    }
}

impl From<OutOfMemory> for Fault {
    ghost from_gives = { λ _ fault. fault ≡ OutOfMemory };

    fn from(_error: OutOfMemory) -> Fault {
        Fault::OutOfMemory
    }
}

impl From<ReadFault> for Fault {
    ghost use Rattle.engine.specs.Faults.{IsOfList};

    ghost from_gives = { IsOfList };

    fn from(fault: ReadFault) -> Fault {
        match fault.kind {
            ReadKind::OutOfMemory => Fault::OutOfMemory,
            _ => Fault::List(fault),
        }
    }
}

impl From<PoolFault> for Fault {
    ghost use Rattle.engine.specs.Faults.{of_pool};

    ghost from_gives = { λ fault whole. whole ≡ of_pool fault };

    fn from(fault: PoolFault) -> Fault {
        match fault {
            PoolFault::OutOfMemory => Fault::OutOfMemory,
            PoolFault::NoWorker => Fault::Pool(fault),
        }
    }
}

impl From<WriteFault> for Fault {
    ghost from_gives = { λ fault whole. whole ≡ WriteFailed fault.written };

    fn from(fault: WriteFault) -> Fault {
        Fault::WriteFailed(fault.written)
    }
}
