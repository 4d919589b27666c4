//! The bytes of a tile's pixels.
ghost use Rattle.std.specs.Prelude.{◌≡◌, ℕ, ◌+◌, ◌*◌, ◌/◌, ◌%◌, ◌<◌, ◌≤◌, ◌++◌, length, take, IfOk, OnOk};
ghost use Rattle.grid.specs.Pixels.{side_of};
ghost use Rattle.draw_list.specs.PixelPrefix.{IsPixelPrefix};
ghost use Rattle.draw_list.specs.Picture.{IsPicturePart};
ghost use Rattle.raster.specs.Samples.{planes_of};
ghost use Rattle.raster.specs.Colours.{AreColoursAt};
ghost use Rattle.tiling.specs.Pixels.{AddsPixelRun};
ghost use Rattle.tile.specs.Picture.{IsShown, AreEnds, IsSameRun};

use crate::depths::depths;
use draw_list::{DrawList, Output};
use grid::OutOfMemory;
use lanes::BlockSamples;
use raster::{Tile, colours};
use std::alloc::Global;
use std::simd::prelude::*;

/// Appends the first `many` pixels of eight, with `each` bytes per pixel. If this is inlined, the length of a whole run
/// is known, so that it is copied without a call.
#[inline(always)]
fn push_first(run: &[u8], each: u32, many: u32, bytes: &mut Vec<u8>) -> Result<(), OutOfMemory>
    requires each { each ≤ 3 }
    requires whole { each * 8 ≤ length run.now }
    requires many { many ≤ 8 }
    ensures { OnOk result (bytes.new.items ≡ bytes.old.items ++ take (each * many) run.now) }
{
    if many == 8 {
        bytes.extend_from_slice(&run[..each as usize * 8])?;
    } else {
        bytes.extend_from_slice(&run[..(each * many) as usize])?;
    }
    Ok(())
}

/// Red, green and blue of the eight pixels in a row of the tile and a column of its blocks, pixel by pixel: the first
/// 24 bytes.
#[inline(always)]
pub(crate) fn colour_run(tile: &Tile, samples: &[BlockSamples], row: u32, column: u32) -> [u8; 32]
    requires samples { length samples.now ≡ planes_of tile.now.side tile.now.count }
    requires row { row < side_of tile.now.side }
    requires column { column < side_of tile.now.side / 8 }
    ensures { AreColoursAt tile.now samples.now row column result }
{
    let mut rgb = [0; 32];
    colours(tile, samples, row, column).copy_to_slice(&mut rgb);
    rgb
}

/// A tile with its samples.
#[derive(Clone, Copy)]
pub(crate) struct SampledTile<'a> {
    pub(crate) list: &'a DrawList,
    pub(crate) tile: &'a Tile,
    pub(crate) samples: &'a [BlockSamples],
    /// What `colour_run` returns anywhere in the tile, if all samples are known to be the same.
    pub(crate) same_run: Option<[u8; 32]>,
    pub ghost size: { length samples.now ≡ planes_of tile.now.side tile.now.count },
    pub ghost same_count: { tile.now.count ≡ list.now.count },
}

impl SampledTile<'_> {
    /// Appends the bytes of the first `many` pixels of a row of eight: those in a row of the tile, in a column of its
    /// blocks.
    fn push_pixel_run(
        &self,
        row: u32,
        column: u32,
        many: u32,
        bytes: &mut Vec<u8>,
    ) -> Result<(), OutOfMemory>
        requires ends { AreEnds self.now.list.now self.now.tile.now self.now.samples.now }
        requires same { IsSameRun self.now.tile.now self.now.samples.now self.now.same_run }
        requires row { row < side_of self.now.tile.now.side }
        requires column { column < side_of self.now.tile.now.side / 8 }
        requires many { many ≤ 8 }
        requires shown { (i : ℕ) → i < many → IsShown self.now.list.now self.now.tile.now row (8 * column + i) 0 }
        ensures { OnOk result (AddsPixelRun self.now.list.now (8 * self.now.tile.now.bx + 8 * column)
            (8 * self.now.tile.now.by + row) many bytes.old.items bytes.new.items) }
    {
        let (tile, samples) = (self.tile, self.samples);
        match self.list.output() {
            Output::Color => match &self.same_run {
                Some(rgb) => push_first(rgb, 3, many, bytes),
                None => push_first(&colour_run(tile, samples, row, column), 3, many, bytes),
            },
            Output::Depth => push_first(&depths(tile, samples, row, column), 2, many, bytes),
        }
    }

    /// Appends a row of the tile, as far as it is in the picture, to the rows above it.
    fn push_row(&self, width: u32, row: u32, bytes: &mut Vec<u8>) -> Result<(), OutOfMemory>
        requires ends { AreEnds self.now.list.now self.now.tile.now self.now.samples.now }
        requires same { IsSameRun self.now.tile.now self.now.samples.now self.now.same_run }
        requires row { row < side_of self.now.tile.now.side }
        requires width { width ≤ side_of self.now.tile.now.side }
        requires shown { (column : ℕ) → column < width → IsShown self.now.list.now self.now.tile.now row column 0 }
        requires above { IsPixelPrefix self.now.list.now (8 * self.now.tile.now.bx) (8 * self.now.tile.now.by) width
            (row * width) bytes.old.items }
        ensures { OnOk result (IsPixelPrefix self.now.list.now (8 * self.now.tile.now.bx) (8 * self.now.tile.now.by)
            width ((row + 1) * width) bytes.new.items) }
    {
        for column in 0..(width + 7) / 8 {
            let many = (width - 8 * column).min(8);
            self.push_pixel_run(row, column, many, bytes)?;
        }
        Ok(())
    }

    /// The bytes of `width` columns and `height` rows of the tile, from its first pixel on.
    pub(crate) fn resolve(
        &self,
        alloc: Global,
        width: u32,
        height: u32,
    ) -> Result<Vec<u8>, OutOfMemory>
        requires ends { AreEnds self.now.list.now self.now.tile.now self.now.samples.now }
        requires same { IsSameRun self.now.tile.now self.now.samples.now self.now.same_run }
        requires width { width ≤ side_of self.now.tile.now.side }
        requires height { height ≤ side_of self.now.tile.now.side }
        requires in_width { 8 * self.now.tile.now.bx + width ≤ self.now.list.now.width }
        requires in_height { 8 * self.now.tile.now.by + height ≤ self.now.list.now.height }
        ensures { IfOk result (λ bytes. IsPicturePart self.now.list.now (8 * self.now.tile.now.bx) (8 * self.now.tile.now.by)
            width height bytes.items) }
    {
        let size = self.list.output().pixel_bytes() * width * height;
        let mut bytes = Vec::with_capacity(alloc, size as usize)?;
        for row in 0..height {
            self.push_row(width, row, &mut bytes)?;
        }
        Ok(bytes)
    }
}
