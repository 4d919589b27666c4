//! Whether a state lets all samples of a tile be drawn.
ghost use Rattle.std.specs.Prelude.{◌≡◌, ℕ, ◌/◌, ◌%◌, ◌^◌, ◌<◌, IsTrue};
ghost use Rattle.grid.specs.Samples.{count_of};
ghost use Rattle.block_fills.specs.Parts.{AllowsTile};

use grid::SampleCount;
use raster::{Tile, holds_tile};
use shade::State;

/// Whether the bits of all samples of a pixel are set in the mask.
fn has_all_samples(mask: u16, count: SampleCount) -> bool
    ensures { IsTrue result → (s : ℕ) → s < count_of count → mask / 2 ^ s % 2 ≡ 1 }
{
    let full = count.full_mask();
    mask & full == full
}

/// Whether all pixels of the tile are in the scissor, and all samples of a pixel in the sample mask.
pub(crate) fn allows_tile(state: &State, tile: &Tile) -> bool
    ensures { IsTrue result → AllowsTile state.now tile.now }
{
    holds_tile(&state.scissor, tile) && has_all_samples(state.sample_mask, tile.count)
}
