//! Places that lie a whole number of pixels from another.
ghost use Rattle.grid.specs.Position.{IsInBand};
ghost use Rattle.polygons.specs.Pixels.{IsFirstPixel};

/// How many pixels it is from `start` to the first place that is not before `to`, less than 0 if that one lies before
/// `start`.
#[inline(always)]
pub(crate) fn first_pixel(start: i32, to: i32) -> i32
    requires start { IsInBand start }
    requires to { IsInBand to }
    ensures { IsFirstPixel start to result }
{
    (to + 255 - start) >> 8
}
