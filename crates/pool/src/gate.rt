//! A hook that is called before each piece of work.
ghost use Rattle.std.specs.Prelude.{ℕ};

/// A hook: each worker calls it before the work on each tile, with the number of its seat and the number of the tile.
/// Tests watch with it in which order workers take tiles.
pub trait Gate: Sync {
    /// What is known once the worker with this number has entered for this tile, and from then on. A job may ask for
    /// it.
    ghost entered: { Self → ℕ → ℕ → Type 0 } = { λ _ _ _. Unit {0} };

    fn enter(&self, worker: u32, tile: u32)
        ensures { entered self.now worker tile };
}

/// The hook that does nothing.
#[derive(Clone, Copy, Debug)]
pub struct Open;

impl Gate for Open {
    fn enter(&self, _worker: u32, _tile: u32) {}
}
