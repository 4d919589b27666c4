//! A triangle drawn at the samples of a block, one after another by the definition.
ghost use Rattle.std.specs.Prelude.{◌≡◌, ◌+◌, ◌*◌, ◌<◌, length};
ghost use Rattle.grid.specs.Samples.{part_size};
ghost use Rattle.shade.specs.Canvas.{IsCanvasDrawnAt};
ghost use Rattle.gradients.specs.Group.{position_in};
ghost use Rattle.lanes.specs.Block.{IsOnScreen, CoversMask, AreDrawn};
ghost use Rattle.lanes.specs.BlockMask.{CoversBlock, IsBlockDrawn};

use crate::block::has_some;
use crate::block_mask::BlockMask;
use crate::block_samples::BlockSamples;
use grid::Point;
use shade::Placed;

/// The sample of pixel `k` of a block whose first sample is at `p`.
pub fn sample_position(p: Point, k: u32) -> Point
    requires on_screen { IsOnScreen p }
    requires pixel { k < 64 }
    ensures { result ≡ position_in p k }
{
    let x = p.x() + (256 * (k % 8)) as i32;
    let y = p.y() + (256 * (k / 8)) as i32;
    Point::new(x, y).unwrap()
}

/// Draws the triangle at the samples of two rows of a block that are in the mask, one after another.
fn draw_rows_each(triangle: &Placed, p: Point, mask: u64, group: u64, samples: &mut BlockSamples)
    requires group { group < 4 }
    requires on_screen { IsOnScreen p }
    requires covered { CoversMask triangle.now p mask }
    ensures { AreDrawn (IsCanvasDrawnAt triangle.now) p mask samples.old samples.new (16 * group) 16 }
{
    if !has_some(mask, group) {
        return;
    }
    for i in 0..16u32 {
        let k = 16 * group as u32 + i;
        if (mask >> k) % 2 == 1 {
            let stored = samples.sample(k as usize);
            samples.set(
                k as usize,
                triangle.drawn_on_canvas_at(sample_position(p, k), stored),
            );
        }
    }
}

/// Draws the triangle at samples of a block of one sample index, one after another, by the definition. Bit k of `mask`
/// says whether pixel k is drawn, and the first pixel's sample is at `p`.
fn draw_plane_each(triangle: &Placed, p: Point, mask: u64, samples: &mut BlockSamples)
    requires on_screen { IsOnScreen p }
    requires covered { CoversMask triangle.now p mask }
    ensures { AreDrawn (IsCanvasDrawnAt triangle.now) p mask samples.old samples.new 0 64 }
{
    if mask == 0 {
        return;
    }
    for group in 0..4u64 {
        draw_rows_each(triangle, p, mask, group, samples);
    }
}

/// Draws the triangle at the samples of a block that are in the mask, one after another.
pub(crate) fn draw_each(triangle: &Placed, mask: &BlockMask, samples: &mut [BlockSamples])
    requires samples { length samples.old ≡ part_size mask.now.count }
    requires covered { CoversBlock triangle.now mask.now }
    ensures drawn { IsBlockDrawn triangle.now mask.now samples.old samples.new }
    ensures samples { length samples.new ≡ length samples.old }
{
    for s in 0..mask.count.part_size() {
        let plane = mask.plane[s as usize];
        draw_plane_each(triangle, mask.first(s), plane, &mut samples[s as usize]);
    }
}
