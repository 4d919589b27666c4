//! A block drawn sixteen samples at once, before and after planes of whole values were raised.
ghost use Rattle.std.specs.Prelude.{◌<◌, ℕ, IsTrue, IsBitSet, slice_index};
ghost use Rattle.grid.specs.Triangle.{Covers};
ghost use Rattle.grid.specs.Samples.{part_size};
ghost use Rattle.gradients.specs.Group.{position_in};
ghost use Rattle.lanes.specs.Block.{IsOnScreen};
ghost use Rattle.lanes.specs.BlockMask.{first_of};

use crate::fixtures::{everywhere, point};
use gradients::Corrections;
use grid::{Point, SampleCount, Tri};
use lanes::{BlockMask, BlockSamples, Interpolants, sample_position};
use shade::{Blend, DepthTest, Merge, Placed, Sample};

/// Whether the triangle covers the samples in the mask that belong to one sample index.
fn covers_plane(t: &Tri, p: Point, mask: u64) -> bool
    requires { IsOnScreen p }
    ensures { IsTrue result → (k : ℕ) → k < 64 → IsBitSet mask k → Covers t.now.a t.now.b t.now.c (position_in p k) }
{
    for k in 0..64u32 {
        if (mask >> k) % 2 == 1 && !t.covers(sample_position(p, k)) {
            return false;
        }
    }
    true
}

/// Whether the triangle covers the samples in the mask.
fn covers_mask(t: &Tri, mask: &BlockMask) -> bool
    ensures { IsTrue result → (s : ℕ) → s < part_size mask.now.count → (k : ℕ) → k < 64 →
        IsBitSet (slice_index mask.now.plane s) k →
        Covers t.now.a t.now.b t.now.c (position_in (first_of mask.now s) k) }
{
    for s in 0..mask.count.part_size() {
        if !covers_plane(t, mask.first(s), mask.plane[s as usize]) {
            return false;
        }
    }
    true
}

/// The samples of one sample index that the triangle covers, as bits.
fn plane_of(t: &Tri, p: Point) -> u64
    requires { IsOnScreen p }
{
    let mut plane = 0;
    for k in 0..64u32 {
        if t.covers(sample_position(p, k)) {
            plane |= 1 << k;
        }
    }
    plane
}

/// The samples of block (10, 15) that the triangle covers, with one sample a pixel.
fn mask_of(t: &Tri) -> BlockMask {
    let empty = BlockMask {
        bx: 10,
        by: 15,
        count: SampleCount::One,
        from: 0,
        plane: [0; 4],
    };
    BlockMask {
        bx: 10,
        by: 15,
        count: SampleCount::One,
        from: 0,
        plane: [plane_of(t, empty.first(0)), 0, 0, 0],
    }
}

/// What the block stores before it is drawn.
const STORED: Sample = Sample {
    r: 1,
    g: 2,
    b: 3,
    z: 4000,
};

// The depth grows by a third from pixel to pixel, and is a whole number at each third.
#[test]
fn corrects_nothing_after_the_planes_are_raised(rt: HostRuntime) {
    let merge = Merge {
        test: DepthTest::Always,
        depth_write: true,
        write: [true, true, true],
        blend: Blend::NONE,
    };
    let t = Placed {
        tri: Tri::new(
            point(&rt, (128, 128)),
            point(&rt, (230_528, 128)),
            point(&rt, (128, 153_728)),
        ),
        z: [0, 300, 200],
        rgba: [[7, 8, 9, 255]; 3],
        state: everywhere(merge),
    };
    let mask = mask_of(&t.tri);
    assert!(rt; covers_mask(&t.tri, &mask));
    assert!(rt; t.tri.area2() != 0);
    let mut stored = [BlockSamples::filled(STORED, 255)];
    let samples = &mut stored[..];
    assert!(rt; samples.len() == mask.count.part_size() as usize);
    let (mut before, mut after) = (Corrections::none(), Corrections::none());
    let mut interpolants = Interpolants::new(&t);
    interpolants.draw(&mask, samples, &mut before);
    interpolants.raise();
    interpolants.draw(&mask, samples, &mut after);
    assert!(rt; before.ask_for_search());
    assert!(rt; !after.ask_for_search());
}
