//! What the workers of a run do.
ghost use Rattle.std.specs.Prelude.{ℕ, IfOk};

use grid::OutOfMemory;
use std::alloc::Global;

/// Numbered work, which several threads share. Each worker works with a scratch of its own.
pub trait Job: Sync {
    type Out: Send + Drop;

    type Scratch: Send + Drop;

    /// The answers that are right for a number.
    ghost right: { Self → ℕ → Self.Out → Type 0 };

    /// The scratches that a worker may work with.
    ghost fits: { Self → Self.Scratch → Type 0 };

    /// The numbers that the work may be asked for.
    ghost can_work: { Self → ℕ → Type 0 };

    /// A scratch for one worker. Fails only if an allocation fails.
    fn scratch(&self, alloc: Global) -> Result<Self::Scratch, OutOfMemory>
        ensures { IfOk result (fits self.now) };

    /// The answer for number `k`. Fails only if an allocation fails. The scratch fits after the call, also after an
    /// error.
    fn work(
        &self,
        alloc: Global,
        k: u32,
        scratch: &mut Self::Scratch,
    ) -> Result<Self::Out, OutOfMemory>
        requires number { can_work self.now k }
        requires scratch { fits self.now scratch.old }
        ensures right { IfOk result (right self.now k) }
        ensures scratch { fits self.now scratch.new };
}
