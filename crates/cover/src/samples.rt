//! The box round the samples of a square of pixels.
ghost use Rattle.std.specs.Prelude.{◌≡◌, ◌-◌, ◌<◌, ◌^◌, slice_index};
ghost use Rattle.grid.specs.Samples.{count_of, offsets_x, offsets_y, box_start};
ghost use Rattle.cover.specs.Square.{box_reach};

use grid::{SampleCount, TileSide, sample_at};

/// How far a square's sample positions reach from the first, in 1/256 pixel.
#[inline(always)]
pub(crate) fn reach(side: TileSide, count: SampleCount) -> u32
    ensures { result ≡ box_reach side count }
{
    256 * (side.pixels() - 1) + count.box_width()
}

/// How far sample `s` of a pixel lies to the right of the first position of the box round a block's samples, and how far
/// below it.
#[inline(always)]
pub(crate) fn offset(s: u32, count: SampleCount) -> (u32, u32)
    requires { s < count_of count }
    ensures right { result.0 ≡ slice_index (offsets_x count) s - box_start count }
    ensures below { result.1 ≡ slice_index (offsets_y count) s - box_start count }
    ensures small { (result.0 < 2 ^ 8) × (result.1 < 2 ^ 8) }
{
    let (sample, start) = (sample_at(0, 0, s, count), count.box_start());
    (sample.x() as u32 - start, sample.y() as u32 - start)
}
