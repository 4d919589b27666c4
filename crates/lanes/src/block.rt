//! How the samples of a block are drawn from a source of depth and one of colour.
ghost use Rattle.std.specs.Prelude.{◌≡◌, ℕ, ◌+◌, ◌*◌, ◌<◌, IsBitSet, IsTrue, false, length};
ghost use Rattle.grid.specs.Samples.{part_size};
ghost use Rattle.shade.specs.Presets.{IsKnown};
ghost use Rattle.shade.specs.declared.known.KnownEquation.TheVariants.{Replace};
ghost use Rattle.lanes.specs.declared.sources.DepthSource.TheVariants.{Unused};
ghost use Rattle.lanes.specs.Block.{IsOnScreen, AreDrawn};
ghost use Rattle.lanes.specs.BlockMask.{IsBlockDrawnBy};
ghost use Rattle.lanes.specs.Lanes.{IsMask};
ghost use Rattle.lanes.specs.Mode.{WritesEachColour, WritesColours, WritesNoColour, known_of};
ghost use Rattle.lanes.specs.Sources.{TakesGiven};

use crate::block_mask::BlockMask;
use crate::block_samples::BlockSamples;
use crate::group::draw_group;
use crate::known::{whole, with_known, writing_all, writing_no_colour};
use crate::lane_mask::lanes_of_mask;
use crate::sources::{ColourSource, DepthSource};
use gradients::Corrections;
use grid::Point;
use shade::{KnownEquation, Merge};
use std::simd::prelude::*;

/// Whether some pixel of a group of two rows is in the mask.
#[inline(always)]
pub(crate) fn has_some(mask: u64, group: u64) -> bool
    requires { group < 4 }
    ensures { result ≡ false → (i : ℕ) → i < 16 → ¬ IsBitSet mask (16 * group + i) }
{
    (mask >> (16 * group)) % 65536 != 0
}

/// The lanes of a group in the mask; all of them if the mask is said to be whole.
#[inline(always)]
fn lanes_of(whole: bool, mask: u64, group: u64) -> u16x16
    requires group { group < 4 }
    requires whole { IsTrue whole → (k : ℕ) → k < 64 → IsBitSet mask k }
    ensures { IsMask result (λ i. IsBitSet mask (16 * group + i)) }
{
    if whole {
        u16x16::splat(65535)
    } else {
        lanes_of_mask(mask, group)
    }
}

/// Draws two rows of a block, where the mask is set.
#[inline(always)]
fn draw_rows<const ANY: bool>(
    merge: &Merge,
    depth: &DepthSource<'_>,
    colour: &ColourSource<'_>,
    whole: bool,
    p: Point,
    mask: u64,
    group: u64,
    samples: &mut BlockSamples,
    corrections: &mut Corrections,
)
    requires group { group < 4 }
    requires on_screen { IsOnScreen p }
    requires whole { IsTrue whole → (k : ℕ) → k < 64 → IsBitSet mask k }
    ensures { AreDrawn (TakesGiven merge.now depth.now colour.now) p mask samples.old samples.new (16 * group) 16 }
{
    if !whole && !has_some(mask, group) {
        return;
    }
    let covered = lanes_of(whole, mask, group);
    let (x, y) = (p.x(), p.y() + 512 * group as i32);
    draw_group::<ANY>(
        merge,
        depth,
        colour,
        covered,
        x,
        y,
        samples,
        16 * group as usize,
        corrections,
    );
}

/// Draws a block by two rows at once.
#[inline(always)]
fn draw_block<const ANY: bool>(
    merge: &Merge,
    depth: &DepthSource<'_>,
    colour: &ColourSource<'_>,
    whole: bool,
    p: Point,
    mask: u64,
    samples: &mut BlockSamples,
    corrections: &mut Corrections,
)
    requires on_screen { IsOnScreen p }
    requires whole { IsTrue whole → (k : ℕ) → k < 64 → IsBitSet mask k }
    ensures { AreDrawn (TakesGiven merge.now depth.now colour.now) p mask samples.old samples.new 0 64 }
{
    for group in 0..4u64 {
        draw_rows::<ANY>(
            merge,
            depth,
            colour,
            whole,
            p,
            mask,
            group,
            samples,
            corrections,
        );
    }
}

/// Whether all pixels of a block are in the mask.
#[inline(always)]
fn is_whole(mask: u64) -> bool
    ensures { IsTrue result → (k : ℕ) → k < 64 → IsBitSet mask k }
{
    mask == u64::MAX
}

/// Draws a block where its mask is set: nothing if the mask is empty. A block that is drawn whole needs no masks: the
/// compiler makes code of its own for it. Two calls in place of one would be too large to stand in line, and what is
/// known of the merge would be lost.
#[inline(always)]
fn draw_by_mask<const ANY: bool>(
    merge: &Merge,
    depth: &DepthSource<'_>,
    colour: &ColourSource<'_>,
    p: Point,
    mask: u64,
    samples: &mut BlockSamples,
    corrections: &mut Corrections,
)
    requires { IsOnScreen p }
    ensures { AreDrawn (TakesGiven merge.now depth.now colour.now) p mask samples.old samples.new 0 64 }
{
    let whole = is_whole(mask);
    if whole || mask != 0 {
        draw_block::<ANY>(merge, depth, colour, whole, p, mask, samples, corrections);
    }
}

/// Draws a block's samples, one sample index after another. With `ANY` every blend equation is in line.
#[inline(always)]
fn draw_planes<const ANY: bool>(
    merge: &Merge,
    depth: &DepthSource<'_>,
    colour: &ColourSource<'_>,
    mask: &BlockMask,
    samples: &mut [BlockSamples],
    corrections: &mut Corrections,
)
    requires { length samples.old ≡ part_size mask.now.count }
    ensures drawn { IsBlockDrawnBy (TakesGiven merge.now depth.now colour.now) mask.now samples.old samples.new }
    ensures samples { length samples.new ≡ length samples.old }
{
    for s in 0..mask.count.part_size() {
        let plane = mask.plane[s as usize];
        draw_by_mask::<ANY>(
            merge,
            depth,
            colour,
            mask.first(s),
            plane,
            &mut samples[s as usize],
            corrections,
        );
    }
}

/// Draws a block's samples by a merge that writes all colour channels by an equation of draw lists, and alpha with
/// `ALPHA`. Each source of colour and of depth has code of its own, since what is made here is known in the code that
/// stands in line.
#[inline(always)]
pub(crate) fn draw_planes_listed<const OVER: bool, const ALPHA: bool>(
    merge: &Merge,
    depth: &DepthSource<'_>,
    colour: &ColourSource<'_>,
    mask: &BlockMask,
    samples: &mut [BlockSamples],
    corrections: &mut Corrections,
)
    requires known { IsKnown (known_of OVER) merge.now.blend.colour }
    requires all { WritesColours OVER ALPHA merge.now }
    requires samples { length samples.old ≡ part_size mask.now.count }
    ensures drawn { IsBlockDrawnBy (TakesGiven merge.now depth.now colour.now) mask.now samples.old samples.new }
    ensures samples { length samples.new ≡ length samples.old }
{
    let merge = &whole::<OVER, ALPHA>(merge);
    match colour {
        ColourSource::Flat(rgba) => {
            let colour = &ColourSource::Flat(*rgba);
            match depth {
                DepthSource::Unused => {
                    let depth = &DepthSource::Unused;
                    draw_planes::<false>(merge, depth, colour, mask, samples, corrections);
                }
                DepthSource::Flat(z) => {
                    let depth = &DepthSource::Flat(*z);
                    draw_planes::<false>(merge, depth, colour, mask, samples, corrections);
                }
                DepthSource::Plane(placed, plane) => {
                    let depth = &DepthSource::Plane(placed, plane);
                    draw_planes::<false>(merge, depth, colour, mask, samples, corrections);
                }
            }
        }
        ColourSource::Planes(placed, planes) => {
            let colour = &ColourSource::Planes(placed, planes);
            match depth {
                DepthSource::Unused => {
                    let depth = &DepthSource::Unused;
                    draw_planes::<false>(merge, depth, colour, mask, samples, corrections);
                }
                DepthSource::Flat(z) => {
                    let depth = &DepthSource::Flat(*z);
                    draw_planes::<false>(merge, depth, colour, mask, samples, corrections);
                }
                DepthSource::Plane(placed, plane) => {
                    let depth = &DepthSource::Plane(placed, plane);
                    draw_planes::<false>(merge, depth, colour, mask, samples, corrections);
                }
            }
        }
    }
}

/// Draws a block's samples by a merge that writes all colour channels by any equation, and alpha with `ALPHA`, where depth
/// has no part. Each source of colour has code of its own.
#[inline(never)]
fn draw_blended_alone<const ALPHA: bool>(
    merge: &Merge,
    colour: &ColourSource<'_>,
    mask: &BlockMask,
    samples: &mut [BlockSamples],
    corrections: &mut Corrections,
)
    requires all { WritesEachColour merge.now }
    requires alpha { merge.now.blend.write_alpha ≡ ALPHA }
    requires samples { length samples.old ≡ part_size mask.now.count }
    ensures drawn { IsBlockDrawnBy (TakesGiven merge.now Unused colour.now) mask.now samples.old samples.new }
    ensures samples { length samples.new ≡ length samples.old }
{
    let merge = &writing_all::<ALPHA>(merge);
    let depth = &DepthSource::Unused;
    match colour {
        ColourSource::Flat(rgba) => {
            let colour = &ColourSource::Flat(*rgba);
            draw_planes::<true>(merge, depth, colour, mask, samples, corrections);
        }
        ColourSource::Planes(placed, planes) => {
            let colour = &ColourSource::Planes(placed, planes);
            draw_planes::<true>(merge, depth, colour, mask, samples, corrections);
        }
    }
}

/// Draws a block's samples by a merge that writes all colour channels by any equation. Where depth has no part, each
/// source of colour has code of its own.
#[inline(always)]
pub(crate) fn draw_planes_blended(
    merge: &Merge,
    depth: &DepthSource<'_>,
    colour: &ColourSource<'_>,
    mask: &BlockMask,
    samples: &mut [BlockSamples],
    corrections: &mut Corrections,
)
    requires all { WritesEachColour merge.now }
    requires samples { length samples.old ≡ part_size mask.now.count }
    ensures drawn { IsBlockDrawnBy (TakesGiven merge.now depth.now colour.now) mask.now samples.old samples.new }
    ensures samples { length samples.new ≡ length samples.old }
{
    match depth {
        DepthSource::Unused => {
            if merge.blend.write_alpha {
                draw_blended_alone::<true>(merge, colour, mask, samples, corrections);
            } else {
                draw_blended_alone::<false>(merge, colour, mask, samples, corrections);
            }
        }
        DepthSource::Flat(_) | DepthSource::Plane(_, _) => {
            draw_planes::<true>(merge, depth, colour, mask, samples, corrections);
        }
    }
}

/// Draws a block's samples by a merge that writes nothing but depths. Each source of depth has code of its own.
#[inline(always)]
pub(crate) fn draw_planes_depths(
    merge: &Merge,
    depth: &DepthSource<'_>,
    colour: &ColourSource<'_>,
    mask: &BlockMask,
    samples: &mut [BlockSamples],
    corrections: &mut Corrections,
)
    requires known { IsKnown Replace merge.now.blend.colour }
    requires none { WritesNoColour merge.now }
    requires samples { length samples.old ≡ part_size mask.now.count }
    ensures drawn { IsBlockDrawnBy (TakesGiven merge.now depth.now colour.now) mask.now samples.old samples.new }
    ensures samples { length samples.new ≡ length samples.old }
{
    let merge = &writing_no_colour(merge);
    match depth {
        DepthSource::Unused => {
            let depth = &DepthSource::Unused;
            draw_planes::<false>(merge, depth, colour, mask, samples, corrections);
        }
        DepthSource::Flat(z) => {
            let depth = &DepthSource::Flat(*z);
            draw_planes::<false>(merge, depth, colour, mask, samples, corrections);
        }
        DepthSource::Plane(placed, plane) => {
            let depth = &DepthSource::Plane(placed, plane);
            draw_planes::<false>(merge, depth, colour, mask, samples, corrections);
        }
    }
}

/// Draws a block's samples by any other merge. Each equation of draw lists has code of its own.
#[inline(always)]
pub(crate) fn draw_planes_otherwise(
    known: KnownEquation,
    merge: &Merge,
    depth: &DepthSource<'_>,
    colour: &ColourSource<'_>,
    mask: &BlockMask,
    samples: &mut [BlockSamples],
    corrections: &mut Corrections,
)
    requires known { IsKnown known merge.now.blend.colour }
    requires samples { length samples.old ≡ part_size mask.now.count }
    ensures drawn { IsBlockDrawnBy (TakesGiven merge.now depth.now colour.now) mask.now samples.old samples.new }
    ensures samples { length samples.new ≡ length samples.old }
{
    match known {
        KnownEquation::Replace => {
            let merge = &with_known(KnownEquation::Replace, merge);
            draw_planes::<false>(merge, depth, colour, mask, samples, corrections);
        }
        KnownEquation::Over => {
            let merge = &with_known(KnownEquation::Over, merge);
            draw_planes::<false>(merge, depth, colour, mask, samples, corrections);
        }
        KnownEquation::Other => {
            draw_planes::<true>(merge, depth, colour, mask, samples, corrections);
        }
    }
}
