//! A tile size that the caller gives.
ghost use Rattle.std.specs.Prelude.{◌≡◌};
ghost use Rattle.grid.specs.Pixels.{side_of as pixels_of};
ghost use Rattle.checks.specs.Checking.{check, done, IsJudged};
ghost use Rattle.c_abi.specs.declared.status.Status.TheVariants as status;
ghost use Rattle.trirast_c.specs.Library.{IsTileSize};

use c_abi::Status;
use grid::TileSide;

/// Returns the tile size of this many pixels. Fails with `BadTileSize` if there is none.
pub(crate) fn side_of(tile_size: u32) -> Result<TileSide, Status>
    ensures { IsJudged (check (IsTileSize tile_size) status.BadTileSize done) (λ side. pixels_of side ≡
        tile_size) result }
{
    match tile_size {
        8 => Ok(TileSide::T8),
        16 => Ok(TileSide::T16),
        32 => Ok(TileSide::T32),
        64 => Ok(TileSide::T64),
        _ => Err(Status::BadTileSize),
    }
}
