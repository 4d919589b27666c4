//! Blocks of a tile at whose samples a fragment is drawn.
ghost use Rattle.std.specs.Prelude.{◌≡◌, ◌<◌, IsTrue};
ghost use Rattle.grid.specs.declared.pixels.TileSide.TheVariants.{T64};
ghost use Rattle.raster.specs.Drawing.{LiesIn};
ghost use Rattle.block_fills.specs.declared.change.Change.TheVariants.{Replaces, BlendsOver};
ghost use Rattle.block_fills.specs.Changes.{BlendsAlone, ReplacesAlone};
ghost use Rattle.block_fills.specs.Parts.{AllowsTile};

use crate::change::Change;
use lanes::Fragment;
use raster::Tile;

/// Block (bx, by) of a tile, and the fragment that is drawn there.
#[derive(Drop)]
pub(crate) struct CoveredBlock<'a> {
    /// The fragment.
    pub fragment: &'a Fragment,
    /// The tile.
    pub tile: &'a Tile,
    /// The column of blocks of the screen.
    pub bx: u32,
    /// The row of blocks of the screen.
    pub by: u32,
    /// Whether it is known that the fragment's state lets all samples of the tile be drawn.
    pub whole: bool,
    /// How the fragment changes samples.
    pub change: Change,
    pub ghost side: { tile.now.side ≡ T64 },
    pub ghost block: { LiesIn tile.now bx by 8 },
    pub ghost allows: { IsTrue whole → AllowsTile fragment.now.state tile.now },
    pub ghost replaces: { change ≡ Replaces → ReplacesAlone fragment.now.state tile.now.count },
    pub ghost blends: { change ≡ BlendsOver → BlendsAlone fragment.now.state.merge },
}

impl CoveredBlock<'_> {
    ghost use Rattle.block_fills.specs.Parts.{number_in_tile};

    /// The number of the block among the 64 of its tile, row by row.
    #[inline(always)]
    pub(crate) fn number(&self) -> usize
        ensures value { result ≡ number_in_tile self.now.tile.now self.now.bx self.now.by }
        ensures few { result < 64 }
    {
        ((self.by - self.tile.by) * 8 + (self.bx - self.tile.bx)) as usize
    }
}
