//! The samples of blocks of 8 by 8 pixels.
ghost use Rattle.std.specs.Prelude.{◌≡◌, ◌↔◌, ℕ, ◌+◌, ◌-◌, ◌*◌, ◌/◌, ◌%◌, ◌^◌, ◌<◌, length, slice_index, IsBitSet, IsTrue};
ghost use Rattle.grid.specs.Pixels.{IsInBox};
ghost use Rattle.grid.specs.Samples.{IsPart};
ghost use Rattle.raster.specs.Samples.{planes_of};
ghost use Rattle.raster.specs.Region.{HoldsTile};
ghost use Rattle.raster.specs.Drawing.{LiesIn, AreAllowed, CoversMasks, DrawsMasks, MergesMasks};

use crate::scissor::in_scissor_of_tile;
use crate::tile::Tile;
use gradients::Corrections;
use grid::SampleCount;
use lanes::{BlockMask, BlockSamples, Fragment, Interpolants};
use shade::State;

/// All pixels of a block if bit `s` of a sample mask is set, else none.
#[inline]
fn in_sample_mask(mask: u16, s: u32) -> u64
    requires { s < 4 }
    ensures { (k : ℕ) → k < 64 → (IsBitSet result k ↔ (mask / 2 ^ s % 2 ≡ 1)) }
{
    if (mask >> s) % 2 == 1 { u64::MAX } else { 0 }
}

/// Which samples of block (bx, by) the state lets be drawn, of those in the masks of the part that begins with sample
/// `from`. `scissor` says which pixels are in the scissor.
#[inline]
fn allowed(
    state: &State,
    bx: u32,
    by: u32,
    from: u32,
    count: SampleCount,
    masks: &[u64; 4],
    scissor: u64,
) -> BlockMask
    requires column { bx < 512 }
    requires row { by < 512 }
    requires part { IsPart count from }
    requires scissor { (row column : ℕ) → row < 8 → column < 8 →
        (IsBitSet scissor (8 * row + column) ↔ IsInBox state.now.scissor (8 * bx + column) (8 * by + row)) }
    ensures allowed { AreAllowed state.now masks.now result }
    ensures block { (result.bx ≡ bx) × (result.by ≡ by) × (result.count ≡ count) }
    ensures part { result.from ≡ from }
{
    let mask = state.sample_mask >> from;
    BlockMask {
        bx,
        by,
        count,
        from,
        plane: [
            masks[0] & scissor & in_sample_mask(mask, 0),
            masks[1] & scissor & in_sample_mask(mask, 1),
            masks[2] & scissor & in_sample_mask(mask, 2),
            masks[3] & scissor & in_sample_mask(mask, 3),
        ],
    }
}

/// Which samples of block (bx, by) of the tile the state lets be drawn, of those in the masks of the part that begins with
/// sample `from`. `whole` says that all pixels of the tile are in the scissor.
#[inline(always)]
fn chosen(
    state: &State,
    tile: &Tile,
    count: SampleCount,
    bx: u32,
    by: u32,
    from: u32,
    masks: &[u64; 4],
    whole: bool,
) -> BlockMask
    requires block { LiesIn tile.now bx by 8 }
    requires part { IsPart count from }
    requires whole { IsTrue whole → HoldsTile state.now.scissor tile.now }
    ensures allowed { AreAllowed state.now masks.now result }
    ensures block { (result.bx ≡ bx) × (result.by ≡ by) × (result.count ≡ count) }
    ensures part { result.from ≡ from }
{
    let scissor = in_scissor_of_tile(&state.scissor, whole, tile, bx, by);
    allowed(state, bx, by, from, count, masks, scissor)
}

/// Draws the triangle at the samples of block (bx, by) that are in the masks, each of which it covers, of the part that
/// begins with sample `from`, if its state lets them be drawn. `whole` says that all pixels of the tile are in the
/// scissor. A pixel has `count` samples.
#[inline(always)]
pub fn draw_masks(
    triangle: &Interpolants,
    tile: &Tile,
    count: SampleCount,
    bx: u32,
    by: u32,
    from: u32,
    masks: &[u64; 4],
    whole: bool,
    samples: &mut [BlockSamples],
    corrections: &mut Corrections,
)
    requires samples { length samples.old ≡ planes_of tile.now.side tile.now.count }
    requires count { count ≡ tile.now.count }
    requires block { LiesIn tile.now bx by 8 }
    requires part { IsPart count from }
    requires covered { CoversMasks triangle.now.tri bx by count from masks.now }
    requires whole { IsTrue whole → HoldsTile triangle.now.state.scissor tile.now }
    ensures { DrawsMasks triangle.now tile.now bx by from masks.now samples.old samples.new }
{
    let state = &triangle.placed().state;
    let mask = chosen(state, tile, count, bx, by, from, masks, whole);
    let first = tile.place_by_count(count, by - tile.by, bx - tile.bx, from);
    triangle.draw(
        &mask,
        &mut samples[first..first + count.part_size() as usize],
        corrections,
    );
}

/// Draws the fragment at the samples of block (bx, by) that are in the masks, of the part that begins with sample `from`,
/// if its state lets them be drawn. `whole` says that all pixels of the tile are in the scissor. A pixel has `count`
/// samples.
#[inline(always)]
pub fn draw_fragment(
    fragment: &Fragment,
    tile: &Tile,
    count: SampleCount,
    bx: u32,
    by: u32,
    from: u32,
    masks: &[u64; 4],
    whole: bool,
    samples: &mut [BlockSamples],
)
    requires samples { length samples.old ≡ planes_of tile.now.side tile.now.count }
    requires count { count ≡ tile.now.count }
    requires block { LiesIn tile.now bx by 8 }
    requires part { IsPart count from }
    requires whole { IsTrue whole → HoldsTile fragment.now.state.scissor tile.now }
    ensures { MergesMasks fragment.now tile.now bx by from masks.now samples.old samples.new }
{
    let state = fragment.state();
    let mask = chosen(state, tile, count, bx, by, from, masks, whole);
    let first = tile.place_by_count(count, by - tile.by, bx - tile.bx, from);
    let end = first + count.part_size() as usize;
    fragment.draw(&mask, &mut samples[first..end]);
}
