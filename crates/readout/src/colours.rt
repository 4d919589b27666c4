//! The colours of pixels, written to the caller's memory.
ghost use Rattle.std.specs.Prelude.{◌≡◌, slice_index_or, [], ◌↔◌, ℕ, ◌+◌, ◌-◌, ◌*◌, ◌/◌, ◌<◌, ◌≤◌, length, take, slice_index, IsOk, OnOk, OnErr, IfErr};
ghost use Rattle.grid.specs.Samples.{count_of};
ghost use Rattle.lanes.specs.Block.{stored_at};
ghost use Rattle.blocks.specs.Layout.{planes_of_tile, pixel_in_block, stored_in_tile};
ghost use Rattle.canvas.specs.Layout.{columns_of, planes_of_row, planes_of_rows, stored};
ghost use Rattle.readout.specs.Pixels.{pixel_bytes, shown_rows, IsLargeEnough};
ghost use Rattle.readout.specs.Entries.{FitEntries, IsEntriesMisfit};
ghost use Rattle.readout.specs.Colours.{IsPixelOf, IsPixelWith, LiesInBlock, LiesInPart, IsSampleColour, AreBytesOfColour, AreWrittenTo, AreResolved, AreColours};

use crate::format::{Format, arranged};
use crate::misfit::Misfit;
use crate::pixel_rows::{PixelRows, entry_rows, pixel_rows};
use crate::place::{merged, place};
use crate::view::View;
use blocks::{Way, block_in_tile, means_of_block, means_of_one, place_by, way_of};
use canvas::Canvas;
use grid::SampleCount;
use lanes::BlockSamples;
use raster::eight_from;
use std::simd::prelude::*;

/// Copies the first bytes of `run` to all of `bytes`. If this is inlined, the lengths of eight whole pixels are known,
/// so that these are stored as they are.
#[inline(always)]
fn copy_first(run: u8x32, bytes: &mut [u8])
    requires whole { length run ≡ 32 }
    requires few { length bytes.old ≤ 32 }
    ensures { bytes.new ≡ take (length bytes.old) run }
{
    let length = bytes.len();
    if length == 32 {
        run.copy_to_slice(bytes);
    } else if length == 24 {
        let low: u8x16 = run.shuffle(run, [0, 1, 2, 3, 4, 5, 6, 7, 8, 9, 10, 11, 12, 13, 14, 15]);
        let high: u8x8 = run.shuffle(run, [16, 17, 18, 19, 20, 21, 22, 23]);
        low.copy_to_slice(&mut bytes[..16]);
        high.copy_to_slice(&mut bytes[16..]);
    } else {
        bytes.copy_from_slice(&run.to_array()[..length]);
    }
}

/// Writes the first `count` of eight pixels in the format, by their channels.
#[inline(always)]
fn write_run(
    format: Format,
    red: u8x8,
    green: u8x8,
    blue: u8x8,
    alphas: u8x8,
    count: u32,
    bytes: &mut [u8],
)
    requires red { length red ≡ 8 }
    requires green { length green ≡ 8 }
    requires blue { length blue ≡ 8 }
    requires alphas { length alphas ≡ 8 }
    requires count { count ≤ 8 }
    requires bytes { length bytes.old ≡ count * pixel_bytes format }
    ensures { (i : ℕ) → i < count →
        AreBytesOfColour format (slice_index red i) (slice_index green i) (slice_index blue i) (slice_index alphas i)
        (λ k. slice_index bytes.new (i * pixel_bytes format + k)) }
{
    // Each format by itself: a run that is chosen from several is put together byte by byte.
    match format {
        Format::Rgb8 => copy_first(arranged(Format::Rgb8, red, green, blue, alphas), bytes),
        Format::Rgba8 => copy_first(arranged(Format::Rgba8, red, green, blue, alphas), bytes),
        Format::Bgra8 => copy_first(arranged(Format::Bgra8, red, green, blue, alphas), bytes),
        Format::Rgba8Straight => copy_first(
            arranged(Format::Rgba8Straight, red, green, blue, alphas),
            bytes,
        ),
        Format::Bgra8Straight => copy_first(
            arranged(Format::Bgra8Straight, red, green, blue, alphas),
            bytes,
        ),
    }
}

/// Writes the first `count` of the eight pixels in a row of a block, whose colours are those of the samples of one
/// plane.
#[inline(always)]
fn resolve_plane(plane: &BlockSamples, row: u32, format: Format, count: u32, bytes: &mut [u8])
    requires row { row < 8 }
    requires count { count ≤ 8 }
    requires bytes { length bytes.old ≡ count * pixel_bytes format }
    ensures { (i : ℕ) → i < count →
        IsSampleColour format (stored_at plane.now (8 * row + i))
        (λ k. slice_index bytes.new (i * pixel_bytes format + k)) }
{
    let at = 8 * row as usize;
    let red = eight_from(&plane.r, at);
    let green = eight_from(&plane.g, at);
    let blue = eight_from(&plane.b, at);
    let alphas = eight_from(&plane.alpha, at);
    write_run(format, red, green, blue, alphas, count, bytes);
}

/// Writes the left `width` pixels of each of the upper `height` rows of a block, by its column `across` and its row
/// `down` among these rows. Their colours are those of the samples of one plane.
#[inline(always)]
fn write_part(
    rows: &PixelRows,
    plane: &BlockSamples,
    across: u32,
    down: u32,
    format: Format,
    width: u32,
    height: u32,
    bytes: &mut [u8],
)
    requires columns { 8 * across + width ≤ rows.now.tile_rows.canvas.width }
    requires rows { 8 * down + height ≤
        shown_rows rows.now.tile_rows.canvas rows.now.tile_rows.first rows.now.tile_rows.end }
    requires width { width ≤ 8 }
    requires height { height ≤ 8 }
    requires unit { rows.now.unit ≡ pixel_bytes format }
    requires size { rows.now.size ≡ length bytes.old }
    ensures { AreWrittenTo rows.now (LiesInPart rows.now.tile_rows.first across down width height)
        (λ i j bytes. IsSampleColour format (stored_at plane.now (pixel_in_block i j)) bytes) bytes.old bytes.new }
{
    let unit = format.pixel_bytes();
    for row in 0..height {
        let pixels = rows.row(8 * down + row);
        let from = pixels.entries.start + 8 * across as usize * unit;
        resolve_plane(
            plane,
            row,
            format,
            width,
            &mut bytes[from..from + width as usize * unit],
        );
    }
}

/// What `resolve_block_by` does, with the format known if this is inlined.
#[inline(always)]
fn write_block(
    rows: &PixelRows,
    plane: &BlockSamples,
    across: u32,
    down: u32,
    format: Format,
    bytes: &mut [u8],
)
    requires column { 8 * across < rows.now.tile_rows.canvas.width }
    requires row { 8 * down < shown_rows rows.now.tile_rows.canvas rows.now.tile_rows.first rows.now.tile_rows.end }
    requires unit { rows.now.unit ≡ pixel_bytes format }
    requires size { rows.now.size ≡ length bytes.old }
    ensures { AreWrittenTo rows.now (LiesInBlock rows.now.tile_rows.first across down)
        (λ i j bytes. IsSampleColour format (stored_at plane.now (pixel_in_block i j)) bytes) bytes.old bytes.new }
{
    let width = (rows.tile_rows.canvas.width - 8 * across).min(8);
    let height = (rows.count() - 8 * down).min(8);
    // A whole block by itself: its rows are unrolled, and each is stored in one piece.
    if width == 8 && height == 8 {
        write_part(rows, plane, across, down, format, 8, 8, bytes);
    } else {
        write_part(rows, plane, across, down, format, width, height, bytes);
    }
}

/// Writes the pixels of the picture in a block of these rows, by its column `across` and its row `down`, whose colours are
/// those of the samples of one plane.
fn resolve_block_by(
    rows: &PixelRows,
    plane: &BlockSamples,
    across: u32,
    down: u32,
    format: Format,
    bytes: &mut [u8],
)
    requires column { 8 * across < rows.now.tile_rows.canvas.width }
    requires row { 8 * down < shown_rows rows.now.tile_rows.canvas rows.now.tile_rows.first rows.now.tile_rows.end }
    requires unit { rows.now.unit ≡ pixel_bytes format }
    requires size { rows.now.size ≡ length bytes.old }
    ensures { AreWrittenTo rows.now (LiesInBlock rows.now.tile_rows.first across down)
        (λ i j bytes. IsSampleColour format (stored_at plane.now (pixel_in_block i j)) bytes) bytes.old bytes.new }
{
    // Each format by itself, so that no row asks for it.
    match format {
        Format::Rgb8 => write_block(rows, plane, across, down, Format::Rgb8, bytes),
        Format::Rgba8 => write_block(rows, plane, across, down, Format::Rgba8, bytes),
        Format::Bgra8 => write_block(rows, plane, across, down, Format::Bgra8, bytes),
        Format::Rgba8Straight => {
            write_block(rows, plane, across, down, Format::Rgba8Straight, bytes)
        }
        Format::Bgra8Straight => {
            write_block(rows, plane, across, down, Format::Bgra8Straight, bytes)
        }
    }
}

/// What `resolve_means` does, with the number of samples of a pixel known when it is compiled.
#[inline(never)]
fn write_means<const COUNT: u32>(
    rows: &PixelRows,
    planes: &[BlockSamples],
    across: u32,
    down: u32,
    format: Format,
    bytes: &mut [u8],
)
    requires count { count_of rows.now.tile_rows.canvas.count ≡ COUNT }
    requires column { 8 * across < rows.now.tile_rows.canvas.width }
    requires row { 8 * down < shown_rows rows.now.tile_rows.canvas rows.now.tile_rows.first rows.now.tile_rows.end }
    requires planes { length planes.now ≡ planes_of_tile rows.now.tile_rows.canvas.count }
    requires unit { rows.now.unit ≡ pixel_bytes format }
    requires size { rows.now.size ≡ length bytes.old }
    ensures { AreWrittenTo rows.now (LiesInBlock rows.now.tile_rows.first across down)
        (λ i j bytes. IsPixelWith rows.now.tile_rows.canvas.count
        (stored_in_tile rows.now.tile_rows.canvas.count planes.now i j) format bytes) bytes.old bytes.new }
{
    let k = block_in_tile(8 * across, 8 * down);
    let mut means = BlockSamples {
        z: [0; 64],
        r: [0; 64],
        g: [0; 64],
        b: [0; 64],
        alpha: [0; 64],
    };
    means_of_block::<COUNT>(rows.tile_rows.canvas.count, planes, k, &mut means);
    resolve_block_by(rows, &means, across, down, format, bytes);
}

/// What `resolve_block` does, by the means of the block's samples. They are made in a function of its own, since its plane
/// of means is made anew in each call.
fn resolve_means(
    rows: &PixelRows,
    planes: &[BlockSamples],
    across: u32,
    down: u32,
    format: Format,
    bytes: &mut [u8],
)
    requires column { 8 * across < rows.now.tile_rows.canvas.width }
    requires row { 8 * down < shown_rows rows.now.tile_rows.canvas rows.now.tile_rows.first rows.now.tile_rows.end }
    requires planes { length planes.now ≡ planes_of_tile rows.now.tile_rows.canvas.count }
    requires unit { rows.now.unit ≡ pixel_bytes format }
    requires size { rows.now.size ≡ length bytes.old }
    ensures { AreWrittenTo rows.now (LiesInBlock rows.now.tile_rows.first across down)
        (λ i j bytes. IsPixelWith rows.now.tile_rows.canvas.count
        (stored_in_tile rows.now.tile_rows.canvas.count planes.now i j) format bytes) bytes.old bytes.new }
{
    match rows.tile_rows.canvas.count {
        SampleCount::One => write_means::<1>(rows, planes, across, down, format, bytes),
        SampleCount::Two => write_means::<2>(rows, planes, across, down, format, bytes),
        SampleCount::Four => write_means::<4>(rows, planes, across, down, format, bytes),
        SampleCount::Eight => write_means::<8>(rows, planes, across, down, format, bytes),
        SampleCount::Sixteen => write_means::<16>(rows, planes, across, down, format, bytes),
    }
}

/// Writes the pixels of the picture in a block of these rows, by its column `across` and its row `down`, from the planes
/// of its tile.
fn resolve_block(
    rows: &PixelRows,
    planes: &[BlockSamples],
    across: u32,
    down: u32,
    format: Format,
    bytes: &mut [u8],
)
    requires column { 8 * across < rows.now.tile_rows.canvas.width }
    requires row { 8 * down < shown_rows rows.now.tile_rows.canvas rows.now.tile_rows.first rows.now.tile_rows.end }
    requires planes { length planes.now ≡ planes_of_tile rows.now.tile_rows.canvas.count }
    requires unit { rows.now.unit ≡ pixel_bytes format }
    requires size { rows.now.size ≡ length bytes.old }
    ensures { AreWrittenTo rows.now (LiesInBlock rows.now.tile_rows.first across down)
        (λ i j bytes. IsPixelWith rows.now.tile_rows.canvas.count
        (stored_in_tile rows.now.tile_rows.canvas.count planes.now i j) format bytes) bytes.old bytes.new }
{
    let count = rows.tile_rows.canvas.count;
    let k = block_in_tile(8 * across, 8 * down);
    let way = way_of(&planes[0], k);
    if way.is_plain() && (way != Way::Own || count == SampleCount::One) {
        let plane = &planes[place_by(count, way, k, 0)];
        resolve_block_by(rows, plane, across, down, format, bytes);
    } else if way == Way::Flat {
        let means = means_of_one(count, planes, k);
        resolve_block_by(rows, &means, across, down, format, bytes);
    } else {
        resolve_means(rows, planes, across, down, format, bytes);
    }
}

/// Writes the pixels of the picture in row `down` of the blocks of these rows, from the planes of all their tiles.
fn resolve_blocks(
    rows: &PixelRows,
    planes: &[BlockSamples],
    down: u32,
    format: Format,
    bytes: &mut [u8],
)
    requires row { 8 * down < shown_rows rows.now.tile_rows.canvas rows.now.tile_rows.first rows.now.tile_rows.end }
    requires planes { length planes.now ≡ planes_of_rows rows.now.tile_rows.canvas rows.now.tile_rows.first
        rows.now.tile_rows.end }
    requires unit { rows.now.unit ≡ pixel_bytes format }
    requires size { rows.now.size ≡ length bytes.old }
    ensures { AreWrittenTo rows.now (λ i j. j / 8 ≡ 8 * rows.now.tile_rows.first + down)
        (λ i j bytes. IsPixelOf rows.now.tile_rows.canvas rows.now.tile_rows.first planes.now format i j bytes)
        bytes.old bytes.new }
{
    let canvas = &rows.tile_rows.canvas;
    let each = canvas.planes_of_tile();
    let tiles = &planes[rows.row(8 * down).planes];
    for across in 0..(canvas.width + 7) / 8 {
        let from = (across / 8) as usize * each;
        resolve_block(rows, &tiles[from..from + each], across, down, format, bytes);
    }
}

/// Writes the colours of the samples `s` of the first `count` of eight pixels of row `j`, from column 8 * `block`
/// on, from the samples of their tile row.
#[inline]
fn colour_eight(
    canvas: &Canvas,
    block: u32,
    j: u32,
    s: u32,
    samples: &[BlockSamples],
    format: Format,
    count: u32,
    bytes: &mut [u8],
)
    requires column { block / 8 < columns_of canvas.now }
    requires sample { s < count_of canvas.now.count }
    requires samples { length samples.now ≡ planes_of_row canvas.now }
    requires count { count ≤ 8 }
    requires bytes { length bytes.old ≡ count * pixel_bytes format }
    ensures { (i : ℕ) → i < count →
        IsSampleColour format (stored canvas.now (j / 64) samples.now (8 * block + i) j s)
        (λ k. slice_index bytes.new (i * pixel_bytes format + k)) }
{
    match merged(canvas, samples, 8 * block, j, s) {
        Some(plane) => resolve_plane(&plane, j % 8, format, count, bytes),
        None => {
            let place = place(canvas, samples, 8 * block, j, s);
            resolve_plane(&samples[place], j % 8, format, count, bytes);
        }
    }
}

/// Writes the colours of the samples `s` of row `j` of pixels, from the samples of its tile row.
fn colour_row(
    canvas: &Canvas,
    j: u32,
    s: u32,
    samples: &[BlockSamples],
    format: Format,
    bytes: &mut [u8],
)
    requires row { j < canvas.now.height }
    requires sample { s < count_of canvas.now.count }
    requires samples { length samples.now ≡ planes_of_row canvas.now }
    requires bytes { length bytes.old ≡ canvas.now.width * pixel_bytes format }
    ensures { (i : ℕ) → i < canvas.now.width →
        IsSampleColour format (stored canvas.now (j / 64) samples.now i j s)
        (λ k. slice_index bytes.new (i * pixel_bytes format + k)) }
{
    let unit = format.pixel_bytes();
    for block in 0..(canvas.width + 7) / 8 {
        let count = (canvas.width - 8 * block).min(8);
        let from = 8 * block as usize * unit;
        colour_eight(
            canvas,
            block,
            j,
            s,
            samples,
            format,
            count,
            &mut bytes[from..from + count as usize * unit],
        );
    }
}

impl View<'_> {
    /// Writes the colour of each pixel of the picture in these tile rows, in the format: the rows of
    /// pixels from top to bottom, each `stride` bytes behind the one above, the pixels of a row from left to right. The
    /// bytes begin with the first pixel of the first row. Bytes of no pixel are unchanged.
    pub fn resolve(&self, bytes: &mut [u8], format: Format, stride: usize) -> Result<(), Misfit>
        ensures fits { IsOk result ↔ IsLargeEnough self.now.rows.canvas self.now.rows.first self.now.rows.end
            (pixel_bytes format) stride (length bytes.old) }
        ensures resolved { OnOk result (AreResolved self.now.rows.canvas self.now.rows.first self.now.rows.end
            self.now.planes.now format stride bytes.old bytes.new) }
        ensures unfit { OnErr result (bytes.new ≡ bytes.old) }
        ensures reason { IfErr result (λ misfit. misfit ≡ Misfit.Pixels) }
    {
        let rows = pixel_rows(&self.rows, format.pixel_bytes(), stride, bytes.len())?;
        for down in 0..(rows.count() + 7) / 8 {
            resolve_blocks(&rows, self.planes, down, format, bytes);
        }
        Ok(())
    }

    /// Writes the colour of sample `s` of each pixel of the picture in these tile rows, in the format,
    /// laid out as by `resolve`. Nothing is resolved. Bytes of no pixel are unchanged.
    pub fn colors(
        &self,
        s: u32,
        bytes: &mut [u8],
        format: Format,
        stride: usize,
    ) -> Result<(), Misfit>
        ensures fits { IsOk result ↔ FitEntries self.now.rows.canvas self.now.rows.first self.now.rows.end s
            (pixel_bytes format) stride (length bytes.old) }
        ensures colours { OnOk result (AreColours self.now.rows.canvas self.now.rows.first self.now.rows.end
            self.now.planes.now s format stride bytes.old bytes.new) }
        ensures unfit { OnErr result (bytes.new ≡ bytes.old) }
        ensures reason { IfErr result (IsEntriesMisfit self.now.rows.canvas self.now.rows.first self.now.rows.end s
            (pixel_bytes format) stride (length bytes.old)) }
    {
        let rows = entry_rows(&self.rows, s, format.pixel_bytes(), stride, bytes.len())?;
        for index in 0..rows.count() {
            let row = rows.row(index);
            let planes = &self.planes[row.planes];
            colour_row(
                &self.rows.canvas,
                row.j,
                s,
                planes,
                format,
                &mut bytes[row.entries],
            );
        }
        Ok(())
    }
}
