//! The mode of drawing is found once for a block, before what is drawn is looked at: each mode has code of its own.
ghost use Rattle.std.specs.Prelude.{◌≡◌, length};
ghost use Rattle.grid.specs.Samples.{part_size};
ghost use Rattle.shade.specs.Presets.{IsKnown};
ghost use Rattle.shade.specs.declared.known.KnownEquation.TheVariants.{Replace};
ghost use Rattle.lanes.specs.BlockMask.{CoversBlock, IsBlockDrawn, IsBlockDrawnBy, IsBlockMerged};
ghost use Rattle.lanes.specs.Mode.{IsMergeMode, WritesEachColour, WritesColours, WritesNoColour, known_of};
ghost use Rattle.lanes.specs.Source.{IsReadySource, TakesFrom};

use crate::block::{
    draw_planes_blended, draw_planes_depths, draw_planes_listed, draw_planes_otherwise,
};
use crate::block_mask::BlockMask;
use crate::block_samples::BlockSamples;
use crate::fragment::Fragment;
use crate::interpolants::Interpolants;
use crate::mode::DrawMode;
use crate::one_by_one::draw_each;
use crate::source::Source;
use gradients::Corrections;
use shade::{KnownEquation, Merge};

/// Draws what the source gives by a merge that writes all colour channels by an equation of draw lists, and alpha with `ALPHA`.
#[inline(never)]
fn draw_listed<const OVER: bool, const ALPHA: bool>(
    merge: &Merge,
    source: &Source<'_>,
    mask: &BlockMask,
    samples: &mut [BlockSamples],
    corrections: &mut Corrections,
)
    requires source { IsReadySource source.now }
    requires known { IsKnown (known_of OVER) merge.now.blend.colour }
    requires all { WritesColours OVER ALPHA merge.now }
    requires samples { length samples.old ≡ part_size mask.now.count }
    ensures drawn { IsBlockDrawnBy (TakesFrom merge.now source.now) mask.now samples.old samples.new }
    ensures samples { length samples.new ≡ length samples.old }
{
    let depth = &source.depth(merge);
    let colour = &source.colour();
    draw_planes_listed::<OVER, ALPHA>(merge, depth, colour, mask, samples, corrections);
}

/// Draws what the source gives by a merge that writes all colour channels by any equation.
#[inline(never)]
fn draw_blended(
    merge: &Merge,
    source: &Source<'_>,
    mask: &BlockMask,
    samples: &mut [BlockSamples],
    corrections: &mut Corrections,
)
    requires source { IsReadySource source.now }
    requires all { WritesEachColour merge.now }
    requires samples { length samples.old ≡ part_size mask.now.count }
    ensures drawn { IsBlockDrawnBy (TakesFrom merge.now source.now) mask.now samples.old samples.new }
    ensures samples { length samples.new ≡ length samples.old }
{
    let depth = &source.depth(merge);
    let colour = &source.colour();
    draw_planes_blended(merge, depth, colour, mask, samples, corrections);
}

/// Draws what the source gives by a merge that writes nothing but depths.
#[inline(never)]
fn draw_depths(
    merge: &Merge,
    source: &Source<'_>,
    mask: &BlockMask,
    samples: &mut [BlockSamples],
    corrections: &mut Corrections,
)
    requires source { IsReadySource source.now }
    requires known { IsKnown Replace merge.now.blend.colour }
    requires none { WritesNoColour merge.now }
    requires samples { length samples.old ≡ part_size mask.now.count }
    ensures drawn { IsBlockDrawnBy (TakesFrom merge.now source.now) mask.now samples.old samples.new }
    ensures samples { length samples.new ≡ length samples.old }
{
    let depth = &source.depth(merge);
    let colour = &source.colour();
    draw_planes_depths(merge, depth, colour, mask, samples, corrections);
}

/// Draws what the source gives by any other merge.
#[inline(never)]
fn draw_otherwise(
    known: KnownEquation,
    merge: &Merge,
    source: &Source<'_>,
    mask: &BlockMask,
    samples: &mut [BlockSamples],
    corrections: &mut Corrections,
)
    requires source { IsReadySource source.now }
    requires known { IsKnown known merge.now.blend.colour }
    requires samples { length samples.old ≡ part_size mask.now.count }
    ensures drawn { IsBlockDrawnBy (TakesFrom merge.now source.now) mask.now samples.old samples.new }
    ensures samples { length samples.new ≡ length samples.old }
{
    let depth = &source.depth(merge);
    let colour = &source.colour();
    draw_planes_otherwise(known, merge, depth, colour, mask, samples, corrections);
}

/// Draws what the source gives at the samples of a block that are in the mask, in a mode for the merge.
#[inline(always)]
fn draw_by_mode(
    mode: DrawMode,
    merge: &Merge,
    source: &Source<'_>,
    mask: &BlockMask,
    samples: &mut [BlockSamples],
    corrections: &mut Corrections,
)
    requires source { IsReadySource source.now }
    requires mode { IsMergeMode merge.now mode }
    requires samples { length samples.old ≡ part_size mask.now.count }
    ensures drawn { IsBlockDrawnBy (TakesFrom merge.now source.now) mask.now samples.old samples.new }
    ensures samples { length samples.new ≡ length samples.old }
{
    match mode {
        DrawMode::Replace => {
            draw_listed::<false, false>(merge, source, mask, samples, corrections)
        }
        DrawMode::Over => draw_listed::<true, false>(merge, source, mask, samples, corrections),
        DrawMode::ReplaceWithAlpha => {
            draw_listed::<false, true>(merge, source, mask, samples, corrections)
        }
        DrawMode::OverWithAlpha => {
            draw_listed::<true, true>(merge, source, mask, samples, corrections)
        }
        DrawMode::Blend => draw_blended(merge, source, mask, samples, corrections),
        DrawMode::Depths => draw_depths(merge, source, mask, samples, corrections),
        DrawMode::Otherwise(known) => {
            draw_otherwise(known, merge, source, mask, samples, corrections)
        }
    }
}

impl Interpolants {
    /// Draws the triangle at the samples of a block that are in the mask, each of which it covers. `samples` holds
    /// those of the block, sample index by sample index. Corrections are counted.
    #[inline(always)]
    pub fn draw(
        &self,
        mask: &BlockMask,
        samples: &mut [BlockSamples],
        corrections: &mut Corrections,
    )
        requires samples { length samples.old ≡ part_size mask.now.count }
        requires covered { CoversBlock self.now mask.now }
        ensures drawn { IsBlockDrawn self.now mask.now samples.old samples.new }
        ensures samples { length samples.new ≡ length samples.old }
    {
        let placed = &self.placed;
        match self.mode {
            None => draw_each(placed, mask, samples),
            Some(mode) => {
                let source = &Source::Triangle(placed, &self.depth, &self.colour);
                let merge = &placed.state.merge;
                draw_by_mode(mode, merge, source, mask, samples, corrections);
            }
        }
    }
}

impl Fragment {
    /// Draws the fragment at the samples of a block that are in the mask. `samples` holds those of the block, sample
    /// index by sample index.
    #[inline(always)]
    pub fn draw(&self, mask: &BlockMask, samples: &mut [BlockSamples])
        requires { length samples.old ≡ part_size mask.now.count }
        ensures drawn { IsBlockMerged self.now mask.now samples.old samples.new }
        ensures samples { length samples.new ≡ length samples.old }
    {
        let source = &Source::Fragment(&self.shaded);
        let corrections = &mut Corrections::none();
        draw_by_mode(
            self.mode,
            &self.state.merge,
            source,
            mask,
            samples,
            corrections,
        );
    }
}
