//! What a later triangle hides in a tile: the triangles before it are seen by nobody, and need not be drawn there.
ghost use Rattle.std.specs.Prelude.{◌≡◌, false, ◌-◌, ◌%◌, ◌^◌, ◌<◌, ◌≤◌, length, IsTrue, IfSome};
ghost use Rattle.grid.specs.Samples.{count_of};
ghost use Rattle.cover.specs.Rasterized.{IsRasterized};
ghost use Rattle.cover.specs.Square.{CoversAll};
ghost use Rattle.raster.specs.Drawing.{square_of};
ghost use Rattle.canvas.specs.Rows.{IsMaskOf};
ghost use Rattle.canvas.specs.Hidden.{ReplacesColours, Hides, FirstKeepDepths, CanBegin};

use cover::Setup;
use grid::{SampleCount, Tri};
use raster::{Tile, covers_tile, holds_tile};
use reach::next_bit;
use shade::{DepthTest, Equation, Merge, Placed, State};

/// Whether all samples of a pixel are in the mask.
fn has_all_samples(mask: u16, count: SampleCount) -> bool
    ensures { IsTrue result → mask % 2 ^ count_of count ≡ 2 ^ count_of count - 1 }
{
    let full = u32::from(count.full_mask());
    u32::from(mask) % (full + 1) == full
}

/// Whether a triangle in this state gives its colour to each sample of a pixel that it covers in its scissor, whatever
/// is stored there.
pub fn replaces_colours(state: &State, count: SampleCount) -> bool
    ensures { IsTrue result → ReplacesColours state.now count }
{
    let merge = state.merge;
    let [red, green, blue] = merge.write;
    let all = red && green && blue && has_all_samples(state.sample_mask, count);
    let replaces = all && merge.blend.colour == Equation::REPLACE;
    match merge.test {
        DepthTest::Always => replaces,
        DepthTest::Never
        | DepthTest::Less
        | DepthTest::Equal
        | DepthTest::LessEqual
        | DepthTest::Greater
        | DepthTest::NotEqual
        | DepthTest::GreaterEqual => false,
    }
}

/// Whether three coordinates lie on both sides of the pixels from `first` to before `end`, or in the outermost two of
/// them.
fn are_round(a: i32, b: i32, c: i32, first: u32, end: u32) -> bool {
    let (low, high) = (a.min(b).min(c), a.max(b).max(c));
    i64::from(low) < 256 * i64::from(first) + 256 && 256 * i64::from(end) - 256 < i64::from(high)
}

/// Whether the box of the triangle's vertices is large enough for the tile. A smaller triangle does not cover it, and
/// this takes less time than to make it ready.
fn is_large_enough(t: &Tri, tile: &Tile) -> bool {
    let side = tile.side.pixels();
    let (x, y) = (8 * tile.bx, 8 * tile.by);
    are_round(t.a.x(), t.b.x(), t.c.x(), x, x + side)
        && are_round(t.a.y(), t.b.y(), t.c.y(), y, y + side)
}

/// Whether the triangle is seen to cover all samples of the tile, and is not culled.
fn is_over(triangle: &Placed, tile: &Tile) -> bool
    ensures drawn { IsTrue result → IsRasterized triangle.now.tri triangle.now.state.cull }
    ensures covers { IsTrue result → CoversAll (square_of triangle.now.tri tile.now) }
{
    if !is_large_enough(&triangle.tri, tile) {
        return false;
    }
    match Setup::new(&triangle.tri, triangle.state.cull) {
        None => false,
        Some(setup) => covers_tile(&setup, tile),
    }
}

/// Whether the triangle is seen to hide the colours that are stored in the tile.
fn hides(triangle: &Placed, tile: &Tile) -> bool
    ensures { IsTrue result → Hides triangle.now tile.now }
{
    if !replaces_colours(&triangle.state, tile.count) {
        return false;
    }
    holds_tile(&triangle.state.scissor, tile) && is_over(triangle, tile)
}

/// Whether a merge writes more than colours: depths or alphas.
#[inline]
pub fn writes_beside_colours(merge: &Merge) -> bool
    ensures { result ≡ false → (merge.now.depth_write ≡ false) × (merge.now.blend.write_alpha ≡ false) }
{
    merge.depth_write || merge.blend.write_alpha
}

/// How many triangles of the chunk, from its first on, are seen to keep the depths and the alphas of the tile.
fn keeping_depths(chunk: &[Placed], mask: u64, tile: &Tile) -> usize
    requires mask { IsMaskOf chunk.now tile.now mask }
    requires few { length chunk.now ≤ 64 }
    ensures within { result ≤ length chunk.now }
    ensures keeping { FirstKeepDepths chunk.now tile.now result }
{
    let mut next = 0;
    while let Some(k) = next_bit(mask, next) {
        if chunk.len() <= k {
            return chunk.len();
        }
        if writes_beside_colours(&chunk[k].state.merge) {
            return k;
        }
        next = k + 1;
    }
    chunk.len()
}

/// The number of the first triangle of the chunk that has to be drawn in the tile, since it hides those before it, or
/// `None` if none is seen to hide any. Of triangles that follow one that writes depths or alphas none
/// is taken.
pub(crate) fn first_shown(chunk: &[Placed], mask: u64, tile: &Tile) -> Option<usize>
    requires mask { IsMaskOf chunk.now tile.now mask }
    requires few { length chunk.now ≤ 64 }
    ensures within { IfSome result (λ k. k < length chunk.now) }
    ensures first { IfSome result (λ k. CanBegin chunk.now tile.now k) }
{
    let keeping = keeping_depths(chunk, mask, tile);
    let mut rest = chunk.len().min(keeping + 1);
    while rest > 0 {
        rest -= 1;
        if (mask >> rest) & 1 == 1 && hides(&chunk[rest], tile) {
            return Some(rest);
        }
    }
    None
}
