//! Rows of pixels in the caller's memory: in a slice of entries, each of which is a byte of a colour, a depth or an id.
ghost use Rattle.std.specs.Prelude.{◌≡◌, ◌↔◌, ◌+◌, ◌*◌, ◌<◌, ◌≤◌, IsOk, IsTrue, IfOk, IfErr};
ghost use Rattle.readout.specs.Pixels.{IsLargeEnough, IsPixelRow, shown_rows};
ghost use Rattle.readout.specs.Entries.{FitEntries, IsEntriesMisfit};

use crate::misfit::Misfit;
use canvas::TileRows;
use std::ops::Range;

/// The rows of pixels of the picture that stand in some tile rows, in a slice that holds them all.
#[derive(Clone, Copy, Debug)]
pub(crate) struct PixelRows {
    /// The tile rows.
    pub tile_rows: TileRows,
    /// How many entries a pixel has.
    pub unit: usize,
    /// By how many entries each row begins behind the one above.
    pub stride: usize,
    /// How many entries the slice has.
    pub size: usize,
    pub ghost fit: { IsLargeEnough tile_rows.canvas tile_rows.first tile_rows.end unit stride size },
}

/// Where the samples and the entries of a row of pixels lie.
#[derive(Debug, Drop)]
pub(crate) struct PixelRow {
    /// The row of the picture.
    pub j: u32,
    /// The indices of the planes of its tile row.
    pub planes: Range<usize>,
    /// The indices of its entries.
    pub entries: Range<usize>,
}

impl PixelRows {
    /// How many rows there are.
    #[inline]
    pub(crate) fn count(&self) -> u32
        ensures { result ≡ shown_rows self.now.tile_rows.canvas self.now.tile_rows.first self.now.tile_rows.end }
    {
        shown_rows(&self.tile_rows)
    }

    /// The row of this index, counted from the top one.
    #[inline]
    pub(crate) fn row(&self, index: u32) -> PixelRow
        requires { index < shown_rows self.now.tile_rows.canvas self.now.tile_rows.first self.now.tile_rows.end }
        ensures { IsPixelRow self.now.tile_rows.canvas self.now.tile_rows.first self.now.tile_rows.end self.now.unit
            self.now.stride self.now.size index result }
    {
        let canvas = &self.tile_rows.canvas;
        let each = canvas.planes_of_row();
        let plane = (index / 64) as usize * each;
        let entry = index as usize * self.stride;
        PixelRow {
            j: 64 * self.tile_rows.first + index,
            planes: plane..plane + each,
            entries: entry..entry + canvas.width as usize * self.unit,
        }
    }
}

/// How many rows of pixels of the picture stand in these tile rows.
#[inline]
pub(crate) fn shown_rows(tile_rows: &TileRows) -> u32
    ensures value { result ≡ shown_rows tile_rows.now.canvas tile_rows.now.first tile_rows.now.end }
    ensures few { result ≤ 4096 }
{
    (64 * tile_rows.end)
        .min(tile_rows.canvas.height)
        .saturating_sub(64 * tile_rows.first)
}

/// Whether a slice of this size holds the rows of pixels, of `unit` entries a pixel, which begin `stride` entries
/// behind each other.
pub(crate) fn is_large_enough(tile_rows: &TileRows, unit: usize, stride: usize, size: usize) -> bool
    requires { unit ≤ 4 }
    ensures { IsTrue result ↔ IsLargeEnough tile_rows.now.canvas tile_rows.now.first tile_rows.now.end unit stride size }
{
    let width = tile_rows.canvas.width as usize * unit;
    let rows = u128::from(shown_rows(tile_rows)) * stride as u128;
    width <= stride && rows + width as u128 <= size as u128 + stride as u128
}

/// The rows of pixels in a slice of `size` entries, `unit` of them a pixel, in which each row begins `stride`
/// entries behind the one above. Returns `Pixels` if the slice does not hold them.
pub(crate) fn pixel_rows(
    tile_rows: &TileRows,
    unit: usize,
    stride: usize,
    size: usize,
) -> Result<PixelRows, Misfit>
    requires { unit ≤ 4 }
    ensures fits { IsOk result ↔ IsLargeEnough tile_rows.now.canvas tile_rows.now.first tile_rows.now.end unit stride size }
    ensures rows { IfOk result (λ found. (found.tile_rows ≡ tile_rows.now) × (found.unit ≡ unit) ×
        (found.stride ≡ stride) × (found.size ≡ size)) }
    ensures reason { IfErr result (λ misfit. misfit ≡ Misfit.Pixels) }
{
    if !is_large_enough(tile_rows, unit, stride, size) {
        return Err(Misfit::Pixels);
    }
    Ok(PixelRows {
        tile_rows: *tile_rows,
        unit,
        stride,
        size,
    })
}

/// Where a buffer of `size` entries of the samples of index `s`, `unit` each, has the rows of these tile rows. Returns
/// `Sample` if a pixel has no such sample, and `Pixels` if the buffer is too small.
pub(crate) fn entry_rows(
    tile_rows: &TileRows,
    s: u32,
    unit: usize,
    stride: usize,
    size: usize,
) -> Result<PixelRows, Misfit>
    requires { unit ≤ 4 }
    ensures fits { IsOk result ↔ FitEntries tile_rows.now.canvas tile_rows.now.first tile_rows.now.end s unit stride size }
    ensures rows { IfOk result (λ found. (found.tile_rows ≡ tile_rows.now) × (found.unit ≡ unit) ×
        (found.stride ≡ stride) × (found.size ≡ size)) }
    ensures reason { IfErr result (IsEntriesMisfit tile_rows.now.canvas tile_rows.now.first tile_rows.now.end s unit stride size) }
{
    if tile_rows.canvas.count.count() <= s {
        return Err(Misfit::Sample);
    }
    pixel_rows(tile_rows, unit, stride, size)
}
