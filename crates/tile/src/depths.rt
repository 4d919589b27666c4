//! The bytes of the depths of eight pixels in a row of a block.
ghost use Rattle.std.specs.Prelude.{◌≡◌, ℕ, ◌+◌, ◌*◌, ◌/◌, ◌%◌, ◌<◌, ◌≤◌, length, slice_index};
ghost use Rattle.grid.specs.Pixels.{side_of};
ghost use Rattle.raster.specs.Samples.{planes_of};
ghost use Rattle.tile.specs.Picture.{AreDepthsAt};

use draw_list::depth_bytes;
use lanes::BlockSamples;
use raster::Tile;

/// The bytes of eight depths in order, from a pixel of a block on.
#[inline(always)]
fn in_bytes(depths: &[u16; 64], from: usize) -> [u8; 16]
    requires { from ≤ 56 }
    ensures { (i : ℕ) → i < 8 → ((slice_index result (2 * i) ≡ slice_index depths.now (from + i) / 256) ×
        (slice_index result (2 * i + 1) ≡ slice_index depths.now (from + i) % 256)) }
{
    let mut bytes = [0; 16];
    for i in 0..8 {
        let [high, low] = depth_bytes(depths[from + i]);
        bytes[2 * i] = high;
        bytes[2 * i + 1] = low;
    }
    bytes
}

/// The more and the less significant byte of the depth of sample 0 of each of these eight pixels.
#[inline]
pub(crate) fn depths(tile: &Tile, samples: &[BlockSamples], row: u32, column: u32) -> [u8; 16]
    requires samples { length samples.now ≡ planes_of tile.now.side tile.now.count }
    requires row { row < side_of tile.now.side }
    requires column { column < side_of tile.now.side / 8 }
    ensures { AreDepthsAt tile.now samples.now row column result }
{
    let from = 8 * (row % 8) as usize;
    let plane = &samples[tile.place(row / 8, column, 0)];
    in_bytes(&plane.z, from)
}
