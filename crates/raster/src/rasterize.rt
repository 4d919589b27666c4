//! The blocks of a tile that a triangle meets, row by row.
ghost use Rattle.std.specs.Prelude.{◌≡◌, length, IfSome, IsTrue, None};
ghost use Rattle.grid.specs.declared.pixels.TileSide.TheVariants.{T8};
ghost use Rattle.grid.specs.Samples.{count_of, IsPart};
ghost use Rattle.cover.specs.Bounds.{HoldsCovered};
ghost use Rattle.cover.specs.Masks.{AreMasksOfPart};
ghost use Rattle.cover.specs.Rasterized.{IsRasterized};
ghost use Rattle.cover.specs.Square.{CoversAll, CoversInPatch, IsClassOf};
ghost use Rattle.raster.specs.Samples.{planes_of};
ghost use Rattle.raster.specs.Region.{HoldsTile};
ghost use Rattle.raster.specs.Drawing.{AreOf, DrawsTile, DrawsPart, IsInSquare, IsInSquarePart, ArePlanesOf, CoversNoneOf, LiesIn, block_of, square_of};

use crate::block::draw_masks;
use crate::lazy::LazyInterpolants;
use crate::region::{Region, patch};
use crate::scissor::holds_tile;
use crate::tile::Tile;
use cover::{Class, Masks, Setup, Square};
use gradients::Corrections;
use grid::{PixelBox, SampleCount, TileSide};
use lanes::BlockSamples;
use shade::Placed;

/// The masks of a block whose samples are all covered.
const ALL: [u64; 4] = [u64::MAX; 4];

/// The masks of a block of whose samples none is covered.
const NONE: [u64; 4] = [0; 4];

/// What the triangle covers of the samples of a block of the tile. `all` says that it covers all samples of the tile.
#[inline(always)]
fn class_of(block: &Square, all: bool) -> Class
    requires { IsTrue all → CoversAll block.now }
    ensures { IsClassOf block.now result }
{
    if all { Class::All } else { block.class() }
}

/// Which samples of a block the triangle covers, of the part that begins with sample `from`. If a patch is given, the 4
/// by 4 pixels from that column and row on hold all samples that are covered, and only these are tested.
#[inline(always)]
fn masks<const N: u32>(block: &Square, from: u32, patch: Option<(u32, u32)>) -> Masks
    requires part { IsPart block.now.count from }
    requires patch { IfSome patch (λ p. CoversInPatch block.now p.0 p.1) }
    ensures { AreMasksOfPart block.now.triangle block.now.bx block.now.by block.now.count from result }
{
    match patch {
        Some((left, top)) => block.masks_of_patch::<N>(from, left, top),
        None => block.masks_of_part::<N>(from),
    }
}

/// Which samples of a block of this class the triangle covers, of the part that begins with sample `from`, or `None` if
/// it covers none of them. If a patch is given, all that it covers of the block are in it. Each `N` has code of its
/// own.
#[inline(always)]
fn planes<const N: u32>(
    block: &Square,
    class: Class,
    from: u32,
    patch: Option<(u32, u32)>,
) -> Option<[u64; 4]>
    requires side { block.now.side ≡ T8 }
    requires part { IsPart block.now.count from }
    requires class { IsClassOf block.now class }
    requires patch { IfSome patch (λ p. CoversInPatch block.now p.0 p.1) }
    ensures some { IfSome result (ArePlanesOf block.now.triangle block.now.bx block.now.by block.now.count from) }
    ensures none { result ≡ None → CoversNoneOf block.now from }
{
    match class {
        Class::Out => None,
        Class::All => Some(ALL),
        Class::Mixed => {
            let planes = masks::<N>(block, from, patch).plane;
            if planes == NONE { None } else { Some(planes) }
        }
    }
}

/// Whether the triangle is seen to cover all samples of the tile.
#[inline]
pub fn covers_tile(setup: &Setup, tile: &Tile) -> bool
    ensures { IsTrue result → CoversAll (square_of setup.now tile.now) }
{
    match setup.classify(tile.bx, tile.by, tile.side, tile.count) {
        Class::All => true,
        Class::Mixed | Class::Out => false,
    }
}

/// A triangle that is drawn at the samples of a tile, and what is known of both.
#[derive(Drop)]
struct TileDraw<'a> {
    /// The triangle.
    triangle: &'a Placed,
    /// Its edges.
    setup: &'a Setup,
    /// The tile.
    tile: &'a Tile,
    /// How many samples a pixel has.
    count: SampleCount,
    /// Whether all samples of the tile are covered.
    all: bool,
    /// Whether all pixels of the tile are in the scissor.
    whole: bool,
    ghost edges: { setup.now ≡ triangle.now.tri },
    ghost rasterized: { IsRasterized triangle.now.tri triangle.now.state.cull },
    ghost samples: { count ≡ tile.now.count },
    ghost allows: { IsTrue whole → HoldsTile triangle.now.state.scissor tile.now },
}

/// Draws the triangle at those samples of block (bx, by) that it covers, of the part that begins with sample `from`. If
/// there are none, there are no masks. The interpolants are set up at the first block of which something is drawn.
#[inline(always)]
fn draw_part(
    draw: &TileDraw<'_>,
    bx: u32,
    by: u32,
    from: u32,
    planes: Option<[u64; 4]>,
    interpolants: &mut LazyInterpolants,
    samples: &mut [BlockSamples],
    corrections: &mut Corrections,
)
    requires samples { length samples.old ≡ planes_of draw.now.tile.now.side draw.now.tile.now.count }
    requires lies { LiesIn draw.now.tile.now bx by 8 }
    requires part { IsPart draw.now.count from }
    requires some { IfSome planes (ArePlanesOf draw.now.triangle.now.tri bx by draw.now.tile.now.count from) }
    requires none { planes ≡ None → CoversNoneOf (block_of draw.now.triangle.now.tri draw.now.tile.now bx by) from }
    requires made { AreOf interpolants.old draw.now.triangle.now }
    ensures drawn { DrawsPart draw.now.triangle.now draw.now.tile.now (IsInSquarePart draw.now.tile.now bx by 8 from)
        samples.old samples.new }
    ensures made { AreOf interpolants.new draw.now.triangle.now }
{
    if let Some(covered) = planes {
        interpolants.make_once(draw.triangle);
        draw_masks(
            &interpolants.interpolants,
            draw.tile,
            draw.count,
            bx,
            by,
            from,
            &covered,
            draw.whole,
            samples,
            corrections,
        );
        interpolants.raise_if_asked(corrections);
    }
}

/// Draws the triangle at the samples of block (bx, by) of the tile, one part of at most four samples of a pixel after
/// another. A pixel has `N` samples, and `bounds` is the box of the triangle's pixels.
#[inline(always)]
fn draw_parts<const N: u32>(
    draw: &TileDraw<'_>,
    bounds: &PixelBox,
    bx: u32,
    by: u32,
    interpolants: &mut LazyInterpolants,
    samples: &mut [BlockSamples],
    corrections: &mut Corrections,
)
    requires samples { length samples.old ≡ planes_of draw.now.tile.now.side draw.now.tile.now.count }
    requires bounds { HoldsCovered draw.now.triangle.now.tri bounds.now }
    requires number { count_of draw.now.count ≡ N }
    requires lies { LiesIn draw.now.tile.now bx by 8 }
    requires covers { IsTrue draw.now.all → CoversAll (square_of draw.now.triangle.now.tri draw.now.tile.now) }
    requires made { AreOf interpolants.old draw.now.triangle.now }
    ensures drawn { DrawsPart draw.now.triangle.now draw.now.tile.now (IsInSquare draw.now.tile.now bx by 8) samples.old
        samples.new }
    ensures made { AreOf interpolants.new draw.now.triangle.now }
{
    let block = draw.setup.square(bx, by, TileSide::T8, draw.count);
    let class = class_of(&block, draw.all);
    // A loop of one turn would try all edges of a block first, whatever its class.
    if N < 8 {
        let covered = planes::<N>(&block, class, 0, None);
        draw_part(draw, bx, by, 0, covered, interpolants, samples, corrections);
    } else {
        let patch = patch(bounds, bx, by);
        for part in 0..draw.count.parts() {
            let covered = planes::<N>(&block, class, 4 * part, patch);
            draw_part(
                draw,
                bx,
                by,
                4 * part,
                covered,
                interpolants,
                samples,
                corrections,
            );
        }
    }
}

/// Draws the triangle at the samples of the tile that it meets, block by block of the region in which its box and its
/// scissor meet the tile. A pixel has `N` samples, which is `count`, so that each number of samples has code of its
/// own.
#[inline(never)]
fn draw_blocks<const N: u32>(
    triangle: &Placed,
    setup: &Setup,
    tile: &Tile,
    count: SampleCount,
    samples: &mut [BlockSamples],
    interpolants: &mut LazyInterpolants,
)
    requires samples { length samples.old ≡ planes_of tile.now.side tile.now.count }
    requires setup { setup.now ≡ triangle.now.tri }
    requires count { count ≡ tile.now.count }
    requires number { count_of count ≡ N }
    requires drawn { IsRasterized triangle.now.tri triangle.now.state.cull }
    requires made { AreOf interpolants.old triangle.now }
    ensures { DrawsTile triangle.now tile.now samples.old samples.new }
{
    let bounds = setup.bounds();
    let region = Region::of(tile, &bounds, &triangle.state.scissor);
    let draw = TileDraw {
        triangle,
        setup,
        tile,
        count,
        // A triangle whose region has not all of the tile's blocks does not cover the tile.
        all: region.has_all_of(tile) && covers_tile(setup, tile),
        whole: holds_tile(&triangle.state.scissor, tile),
    };
    let mut corrections = Corrections::none();
    for by in region.top..region.bottom {
        for bx in region.left..region.right {
            draw_parts::<N>(
                &draw,
                &bounds,
                bx,
                by,
                interpolants,
                samples,
                &mut corrections,
            );
        }
    }
}

/// Draws the triangle at the samples of the tile that it meets.
pub fn draw_triangle(triangle: &Placed, tile: &Tile, samples: &mut [BlockSamples])
    requires { length samples.old ≡ planes_of tile.now.side tile.now.count }
    ensures { DrawsTile triangle.now tile.now samples.old samples.new }
{
    let mut interpolants = LazyInterpolants::none(triangle);
    draw_next(triangle, tile, samples, &mut interpolants);
}

/// Draws one triangle of many at the samples of the tile that it meets, with the memory for interpolants of the one
/// before.
pub fn draw_next(
    triangle: &Placed,
    tile: &Tile,
    samples: &mut [BlockSamples],
    interpolants: &mut LazyInterpolants,
)
    requires { length samples.old ≡ planes_of tile.now.side tile.now.count }
    ensures { DrawsTile triangle.now tile.now samples.old samples.new }
{
    if let Some(setup) = Setup::new(&triangle.tri, triangle.state.cull) {
        interpolants.forget();
        match tile.count {
            SampleCount::One => {
                draw_blocks::<1>(
                    triangle,
                    &setup,
                    tile,
                    SampleCount::One,
                    samples,
                    interpolants,
                );
            }
            SampleCount::Two => {
                draw_blocks::<2>(
                    triangle,
                    &setup,
                    tile,
                    SampleCount::Two,
                    samples,
                    interpolants,
                );
            }
            SampleCount::Four => {
                draw_blocks::<4>(
                    triangle,
                    &setup,
                    tile,
                    SampleCount::Four,
                    samples,
                    interpolants,
                );
            }
            SampleCount::Eight => {
                draw_blocks::<8>(
                    triangle,
                    &setup,
                    tile,
                    SampleCount::Eight,
                    samples,
                    interpolants,
                );
            }
            SampleCount::Sixteen => {
                draw_blocks::<16>(
                    triangle,
                    &setup,
                    tile,
                    SampleCount::Sixteen,
                    samples,
                    interpolants,
                );
            }
        }
    }
}
