//! A picture in the caller's memory, stored as the colours of samples: of all samples of its pixels, or of those of one
//! index.
ghost use Rattle.std.specs.Prelude.{◌≡◌, ◌≢◌, ◌↔◌, ◌⊎◌, ℕ, ◌+◌, ◌*◌, ◌/◌, ◌%◌, ◌<◌, ◌≤◌, length, slice_index, IsOk, IsTrue, OnOk, OnErr, IfErr};
ghost use Rattle.lanes.specs.Block.{stored_at};
ghost use Rattle.grid.specs.Samples.{count_of};
ghost use Rattle.blocks.specs.Layout.{planes_of_tile, stored_in_tile};
ghost use Rattle.canvas.specs.Layout.{HasPixel, planes_of_row, planes_of_rows};
ghost use Rattle.readout.specs.Pixels.{pixel_bytes, entry_of, IsLargeEnough};
ghost use Rattle.readout.specs.Entries.{FitEntries, IsEntriesMisfit};
ghost use Rattle.readout.specs.Loaded.{coloured, IsIndexIn, AreChanged, AreLoaded, AreStored};

use crate::format::{Format, alpha_of, colour_of};
use crate::misfit::Misfit;
use crate::pixel_rows::{PixelRows, entry_rows, pixel_rows};
use blocks::{Way, block_in_tile, fill_block, place_by, single_block};
use canvas::{Canvas, Piece, TileRows};
use grid::SampleCount;
use lanes::BlockSamples;

/// Some sample indices, one after another: those of which colours are stored.
#[derive(Clone, Copy, Debug)]
struct Indices {
    /// The first of them.
    first: u32,
    /// The index behind the last one.
    end: u32,
    /// Whether alpha is stored too.
    alpha: bool,
}

impl Indices {
    /// Whether these are the indices of all samples of a pixel.
    fn are_all(self, count: SampleCount) -> bool
        ensures { IsTrue result → (s : ℕ) → s < count_of count → IsIndexIn self.first self.end s }
    {
        self.first == 0 && self.end == count.count()
    }
}

/// Stores a colour in place of that of pixel `k` of a block.
#[inline]
pub(crate) fn set_colour(plane: &mut BlockSamples, k: usize, r: u8, g: u8, b: u8)
    requires { k < 64 }
    ensures stored { stored_at plane.new k ≡
        record { r = r; g = g; b = b; alpha = (stored_at plane.old k).alpha; z = (stored_at plane.old k).z } }
    ensures kept { (n : ℕ) → n < 64 → n ≢ k → stored_at plane.new n ≡ stored_at plane.old n }
{
    plane.r[k] = r;
    plane.g[k] = g;
    plane.b[k] = b;
}

/// Stores the colour of these bytes in place of that of pixel `k` of a block, with their alpha or opaque.
#[inline]
fn recolour(plane: &mut BlockSamples, k: usize, format: Format, alpha: bool, pixel: &[u8])
    requires index { k < 64 }
    requires pixel { length pixel.now ≡ pixel_bytes format }
    ensures stored { stored_at plane.new k ≡ coloured format alpha (λ n. slice_index pixel.now n)
        (stored_at plane.old k) }
    ensures kept { (n : ℕ) → n < 64 → n ≢ k → stored_at plane.new n ≡ stored_at plane.old n }
{
    let (r, g, b) = colour_of(format, pixel);
    set_colour(plane, k, r, g, b);
    plane.alpha[k] = if alpha { alpha_of(format, pixel) } else { 255 };
}

/// Stores the colour of these bytes in place of those of some samples of pixel (i, j), in the planes of its tile. If
/// these are all samples and one plane stands for them, it goes on to do so; else each is stored in its own plane.
#[inline(always)]
fn store_samples(
    count: SampleCount,
    i: u32,
    j: u32,
    indices: Indices,
    pixel: &[u8],
    format: Format,
    samples: &mut [BlockSamples],
)
    requires indices { (indices.first ≤ indices.end) × (indices.end ≤ count_of count) }
    requires bytes { length pixel.now ≡ pixel_bytes format }
    requires samples { length samples.old ≡ planes_of_tile count }
    ensures pixel { (s : ℕ) → IsIndexIn indices.first indices.end s →
        stored_in_tile count samples.new i j s ≡
        coloured format indices.alpha (λ k. slice_index pixel.now k) (stored_in_tile count samples.old i j s) }
    ensures others { (column row s : ℕ) → s < count_of count →
        ((column % 64 ≡ i % 64) → (row % 64 ≡ j % 64) → IsIndexIn indices.first indices.end s → ⊥) →
        stored_in_tile count samples.new column row s ≡ stored_in_tile count samples.old column row s }
{
    let block = block_in_tile(i, j);
    let k = (8 * (j % 8) + i % 8) as usize;
    if indices.are_all(count) && single_block(count, block, samples) {
        let place = place_by(count, Way::Single, block, 0);
        recolour(&mut samples[place], k, format, indices.alpha, pixel);
        return;
    }
    fill_block(count, block, samples);
    for s in indices.first..indices.end {
        let place = place_by(count, Way::Own, block, s);
        recolour(&mut samples[place], k, format, indices.alpha, pixel);
    }
}

/// Stores the colours of these bytes in place of those of some samples of row `j` of pixels, in the planes of its
/// tile row.
fn store_row(
    canvas: &Canvas,
    j: u32,
    indices: Indices,
    bytes: &[u8],
    format: Format,
    samples: &mut [BlockSamples],
)
    requires row { j < canvas.now.height }
    requires indices { (indices.first ≤ indices.end) × (indices.end ≤ count_of canvas.now.count) }
    requires bytes { length bytes.now ≡ canvas.now.width * pixel_bytes format }
    requires samples { length samples.old ≡ planes_of_row canvas.now }
    ensures { AreChanged canvas.now (j / 64) (j / 64 + 1) (λ column row s. (column < canvas.now.width) × (row ≡ j) × IsIndexIn indices.first indices.end s)
        (λ column row s sample. coloured format indices.alpha (λ k. slice_index bytes.now (column * pixel_bytes format + k))
        sample) samples.old samples.new }
{
    let each = canvas.planes_of_tile();
    let unit = format.pixel_bytes();
    for i in 0..canvas.width {
        let from = (i / 64) as usize * each;
        let at = i as usize * unit;
        store_samples(
            canvas.count,
            i,
            j,
            indices,
            &bytes[at..at + unit],
            format,
            &mut samples[from..from + each],
        );
    }
}

/// Stores the colours of a picture, whose rows of pixels these are, in place of those of some samples of its
/// pixels.
fn store_rows(
    tile_rows: &TileRows,
    rows: &PixelRows,
    indices: Indices,
    bytes: &[u8],
    format: Format,
    samples: &mut [BlockSamples],
)
    requires rows { (rows.now.tile_rows ≡ tile_rows.now) × (rows.now.unit ≡ pixel_bytes format) ×
        (rows.now.size ≡ length bytes.now) }
    requires indices { (indices.first ≤ indices.end) × (indices.end ≤ count_of tile_rows.now.canvas.count) }
    requires samples { length samples.old ≡ planes_of_rows tile_rows.now.canvas tile_rows.now.first tile_rows.now.end }
    ensures { AreChanged tile_rows.now.canvas tile_rows.now.first tile_rows.now.end (λ i j s. HasPixel tile_rows.now.canvas tile_rows.now.first tile_rows.now.end i j × IsIndexIn indices.first indices.end s)
        (λ i j s sample. coloured format indices.alpha
        (λ k. slice_index bytes.now (entry_of tile_rows.now.first (pixel_bytes format) rows.now.stride i j + k)) sample)
        samples.old samples.new }
{
    for index in 0..rows.count() {
        let row = rows.row(index);
        store_row(
            &tile_rows.canvas,
            row.j,
            indices,
            &bytes[row.entries],
            format,
            &mut samples[row.planes],
        );
    }
}

/// Stores a picture in place of the colours: all samples of each pixel of the picture in these tile rows have the
/// colour of the pixel's bytes, which are laid out as `View::resolve` writes them. Depths are unchanged. With
/// `alpha` they have the alpha of the bytes too, 255 if the format has none; else 255.
pub fn load(
    piece: &mut Piece<'_>,
    bytes: &[u8],
    format: Format,
    stride: usize,
    alpha: bool,
) -> Result<(), Misfit>
    ensures fits { IsOk result ↔ IsLargeEnough piece.old.rows.canvas piece.old.rows.first piece.old.rows.end
        (pixel_bytes format) stride (length bytes.now) }
    ensures loaded { OnOk result (AreLoaded piece.old.rows.canvas piece.old.rows.first piece.old.rows.end bytes.now
        format stride alpha piece.old.planes.now piece.new.planes.now) }
    ensures unfit { OnErr result (piece.new.planes.now ≡ piece.old.planes.now) }
    ensures reason { IfErr result (λ misfit. misfit ≡ Misfit.Pixels) }
    ensures rows { piece.new.rows ≡ piece.old.rows }
    ensures same { piece.new.planes.ghost_name ≡ piece.old.planes.ghost_name }
{
    let rows = pixel_rows(&piece.rows, format.pixel_bytes(), stride, bytes.len())?;
    let all = Indices {
        first: 0,
        end: piece.rows.canvas.count.count(),
        alpha,
    };
    store_rows(&piece.rows, &rows, all, bytes, format, piece.planes);
    Ok(())
}

/// Stores a picture in place of the colours of one sample index: sample `s` of each pixel of the picture in these
/// tile rows has the colour of the pixel's bytes, which are laid out as `View::colors` writes them. Depths and all
/// other samples are unchanged. With `alpha` it has the alpha of the bytes too, as by `load`.
pub fn store(
    piece: &mut Piece<'_>,
    s: u32,
    bytes: &[u8],
    format: Format,
    stride: usize,
    alpha: bool,
) -> Result<(), Misfit>
    ensures fits { IsOk result ↔ FitEntries piece.old.rows.canvas piece.old.rows.first piece.old.rows.end s
        (pixel_bytes format) stride (length bytes.now) }
    ensures stored { OnOk result (AreStored piece.old.rows.canvas piece.old.rows.first piece.old.rows.end s bytes.now
        format stride alpha piece.old.planes.now piece.new.planes.now) }
    ensures unfit { OnErr result (piece.new.planes.now ≡ piece.old.planes.now) }
    ensures reason { IfErr result (IsEntriesMisfit piece.old.rows.canvas piece.old.rows.first piece.old.rows.end s
        (pixel_bytes format) stride (length bytes.now)) }
    ensures rows { piece.new.rows ≡ piece.old.rows }
    ensures same { piece.new.planes.ghost_name ≡ piece.old.planes.ghost_name }
{
    let rows = entry_rows(&piece.rows, s, format.pixel_bytes(), stride, bytes.len())?;
    let one = Indices {
        first: s,
        end: s + 1,
        alpha,
    };
    store_rows(&piece.rows, &rows, one, bytes, format, piece.planes);
    Ok(())
}
