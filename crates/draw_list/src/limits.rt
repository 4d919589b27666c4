ghost use Rattle.std.specs.Prelude.{◌↔◌, ◌≤◌, IsTrue, map};
ghost use Rattle.draw_list.specs.Listing.{draw_listing, AreWithinLimits};

use crate::draw::Draw;

/// The greatest width and height of a picture, in pixels.
pub const MOST_PIXELS: u32 = 4096;

/// The most bytes that are read: 64 MiB. The contract of `list::read` has it as a number.
pub const MOST_BYTES: usize = 67_108_864;

/// The most draws of a draw list.
pub const MOST_DRAWS: usize = 1024;

/// The most vertices of a draw.
pub const MOST_VERTICES: usize = 65_536;

/// The most triangles of all draws together, and so of one.
pub const MOST_TRIANGLES: usize = 65_536;

/// The most indices of a strip, which has two triangles less.
pub const MOST_STRIP_INDICES: usize = 65_538;

/// The most quads, which have two triangles each.
pub const MOST_QUADS: usize = 32_768;

/// The sample mask of all samples of a pixel of a draw list, and so the greatest there.
pub const ALL_SAMPLES: u16 = 15;

/// Whether a number of pixels is within the limits of a picture's width and height.
pub fn is_side(pixels: u32) -> bool
    ensures { IsTrue result ↔ ((1 ≤ pixels) × (pixels ≤ 4096)) }
{
    1 <= pixels && pixels <= MOST_PIXELS
}

/// Whether the number of draws, each of them, and all their triangles are within the limits.
pub(crate) fn are_within_limits(draws: &[Draw]) -> bool
    ensures { IsTrue result ↔ AreWithinLimits (map draw_listing draws.now) }
{
    if draws.len() > MOST_DRAWS {
        return false;
    }
    let mut total = 0;
    for draw in draws {
        if !draw.is_within_limits() {
            return false;
        }
        let triangles = draw.primitives.triangles();
        if triangles > MOST_TRIANGLES - total {
            return false;
        }
        total += triangles;
    }
    true
}
