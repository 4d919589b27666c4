//! One tile of the picture, drawn from its bin.
ghost use Rattle.std.specs.Prelude.{◌≡◌, ◌+◌, ◌*◌, ◌/◌, ◌%◌, ◌<◌, ◌≤◌, ℕ, length, ◌-◌, min, IfOk};
ghost use Rattle.std.specs.List.{All};
ghost use Rattle.grid.specs.Pixels.{side_of};
ghost use Rattle.tiling.specs.Grid.{tiles_of, rect_of};
ghost use Rattle.bins.specs.Bin.{HasBin, IsBinOf, bin_of};
ghost use Rattle.shade.specs.Canvas.{with_alpha};
ghost use Rattle.raster.specs.Samples.{planes_of, AreAll};
ghost use Rattle.tiling.specs.Pixels.{IsPictureIn};
ghost use Rattle.tile.specs.Picture.{IsTileAt, IsTileBin, AreEnds, IsSameRun};

use crate::pixels::{SampledTile, colour_run};
use crate::store::Store;
use bins::{Bins, Fetched};
use draw_list::DrawList;
use grid::{OutOfMemory, SampleCount, TileSide};
use lanes::BlockSamples;
use raster::{LazyInterpolants, Tile, clear, draw_next};
use std::alloc::Global;
use tiling::{TilePixels, Tiling};

/// Draws the triangles of the tile's bin, one after another, over cleared samples. They are fetched some at a time. Their
/// alpha stays 255, as lists store none. Returns the colours of eight pixels if there are no triangles, since those of
/// all pixels are the same then.
fn draw_bin(
    list: &DrawList,
    numbers: &[u32],
    tile: &Tile,
    samples: &mut [BlockSamples],
) -> Option<[u8; 32]>
    requires samples { length samples.old ≡ planes_of tile.now.side tile.now.count }
    requires count { tile.now.count ≡ list.now.count }
    requires cleared { AreAll samples.old (with_alpha list.now.clear 255) }
    requires numbers { All (λ number. number < length list.now.triangles) numbers.now }
    requires bin { IsTileBin list.now tile.now numbers.now }
    ensures ends { AreEnds list.now tile.now samples.new }
    ensures same { IsSameRun tile.now samples.new result }
{
    let Some(mut fetched) = Fetched::of(list, numbers) else {
        return Some(colour_run(tile, samples, 0, 0));
    };
    let mut interpolants = LazyInterpolants::none(fetched.triangle(0));
    for place in 0..numbers.len() {
        fetched.go_on(list, numbers, place);
        let triangle = fetched.triangle(place).keeping_alpha();
        draw_next(&triangle, tile, samples, &mut interpolants);
    }
    None
}

/// Where tile `k` lies on the screen.
fn tile_of(tiling: &Tiling, k: u32, count: SampleCount) -> Tile
    requires { k < tiles_of tiling.now }
    ensures place { IsTileAt tiling.now k result }
    ensures count { result.count ≡ count }
{
    let columns = tiling.columns();
    let (bx, by) = tiling.block_of(k % columns, k / columns);
    Tile {
        bx,
        by,
        side: tiling.side(),
        count,
    }
}

/// How many columns or rows of a tile are in a picture that is `pixels` wide or high, if the tile begins at this block.
fn shown(pixels: u32, block: u32, side: TileSide) -> u32
    requires pixels { pixels ≤ 4096 }
    requires begins { 8 * block < pixels }
    ensures { result ≡ min (pixels - 8 * block) (side_of side) }
{
    (pixels - 8 * block).min(side.pixels())
}

/// Tile `k` of the picture, drawn from its bin in a store for the tile's samples. Each triangle of the bin is drawn, in
/// draw order, at the samples that it meets. At the end each pixel has the colour of its samples (multisample resolve),
/// or the depth of its sample 0. Only the result is allocated. Fails only if an allocation fails. The store may be used
/// again for another tile, also after an error.
pub fn render(
    alloc: Global,
    list: &DrawList,
    tiling: &Tiling,
    bins: &Bins,
    k: u32,
    store: &mut Store,
) -> Result<TilePixels, OutOfMemory>
    requires width { tiling.now.width ≡ list.now.width }
    requires height { tiling.now.height ≡ list.now.height }
    requires tile { k < tiles_of tiling.now }
    requires has_tile { HasBin bins.now k }
    requires bin { IsBinOf list.now tiling.now k (bin_of bins.now k) }
    requires store { store.old ≡ record { side = tiling.now.side; count = list.now.count } }
    ensures rect { IfOk result (λ tile. tile.rect ≡ rect_of tiling.now k) }
    ensures picture { IfOk result (λ tile. IsPictureIn list.now tile.rect tile.bytes.items) }
    ensures store { store.new ≡ store.old }
{
    let rect = tiling.rect(k);
    let tile = tile_of(tiling, k, list.count());
    let samples = store.samples.as_mut_slice();
    clear(samples, list.clear(), 255);
    let same_run = draw_bin(list, bins.bin(k), &tile, samples);
    let width = shown(tiling.width(), tile.bx, tile.side);
    let height = shown(tiling.height(), tile.by, tile.side);
    let sampled = SampledTile {
        list,
        tile: &tile,
        samples,
        same_run,
    };
    let bytes = sampled.resolve(alloc, width, height)?;
    Ok(TilePixels { rect, bytes })
}
