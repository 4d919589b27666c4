//! Why a run of the pool gives no answers.
ghost use Rattle.std.specs.Prelude.{◌≡◌};

use grid::OutOfMemory;
use std::alloc::AllocError;

/// Why there are no answers. If several causes hold, the first of these is reported: out of memory before the workers
/// start, a thread that was not started, out of memory in a worker or after it.
#[derive(Clone, Copy, Debug, PartialEq, Eq)]
pub enum PoolFault {
    /// An allocation failed.
    OutOfMemory,
    /// A thread was not started, for whatever cause.
    NoWorker,
}

impl PoolFault {
    /// The fault's number in the program's lines.
    pub fn number(self) -> u32
        ensures memory { self ≡ PoolFault.OutOfMemory → result ≡ 1 }
        ensures thread { self ≡ PoolFault.NoWorker → result ≡ 2 }
    {
        match self {
            PoolFault::OutOfMemory => 1,
            PoolFault::NoWorker => 2,
        }
    }

    /// The fault's name in the program's lines.
    pub fn name(self) -> &'static str {
        match self {
            PoolFault::OutOfMemory => "OutOfMemory",
            PoolFault::NoWorker => "NoWorker",
        }
    }
}

impl From<AllocError> for PoolFault {
    ghost use Rattle.pool.specs.declared.fault.PoolFault.{PoolFault};

    ghost from_gives = { λ _ fault. fault ≡ PoolFault.OutOfMemory };

    fn from(_error: AllocError) -> PoolFault {
        PoolFault::OutOfMemory
    }
}

impl From<OutOfMemory> for PoolFault {
    ghost use Rattle.pool.specs.declared.fault.PoolFault.{PoolFault};

    ghost from_gives = { λ _ fault. fault ≡ PoolFault.OutOfMemory };

    fn from(_error: OutOfMemory) -> PoolFault {
        PoolFault::OutOfMemory
    }
}
