//! The depths and the ids of the samples of one index, written to the caller's memory.
ghost use Rattle.std.specs.Prelude.{◌≡◌, ◌↔◌, ℕ, ◌+◌, ◌*◌, ◌/◌, ◌<◌, ◌≤◌, length, map, slice_index, IsOk, OnOk, OnErr, IfErr};
ghost use Rattle.lanes.specs.Block.{stored_at};
ghost use Rattle.shade.specs.declared.sample.CanvasSample.{CanvasSample};
ghost use Rattle.grid.specs.Samples.{count_of};
ghost use Rattle.canvas.specs.Layout.{columns_of, stored, planes_of_row};
ghost use Rattle.readout.specs.Entries.{FitEntries, IsEntriesMisfit};
ghost use Rattle.blocks.specs.Layout.{id_of};
ghost use Rattle.readout.specs.Colours.{AreEntries, AreDepths, AreIds};

use crate::misfit::Misfit;
use crate::pixel_rows::entry_rows;
use crate::place::{merged, place};
use crate::view::View;
use canvas::Canvas;
use lanes::BlockSamples;

/// What is written of a sample: a number for each pixel.
pub trait Entry: Copy {
    /// The number that an entry is.
    ghost number: { Self → ℕ };

    /// The number that is written of a sample.
    ghost number_of: { CanvasSample → ℕ };

    /// The entry of the sample of pixel `k` of a block.
    fn of(plane: &BlockSamples, k: usize) -> Self
        requires { k < 64 }
        ensures { number result ≡ number_of (stored_at plane.now k) };
}

/// A depth.
impl Entry for u16 {
    ghost number = { λ depth. depth };

    ghost number_of = { λ sample. sample.z };

    #[inline]
    fn of(plane: &BlockSamples, k: usize) -> u16 {
        plane.z[k]
    }
}

/// An id, which is stored in place of a colour.
impl Entry for u32 {
    ghost number = { λ id. id };

    ghost number_of = { id_of };

    #[inline]
    fn of(plane: &BlockSamples, k: usize) -> u32 {
        u32::from(plane.r[k]) + 256 * u32::from(plane.g[k]) + 65536 * u32::from(plane.b[k])
    }
}

/// Writes the entries of the pixels of a block, from pixel `first` on. If this is inlined and their number is known,
/// several are made at once.
#[inline(always)]
pub(crate) fn write_entries<E: Entry>(
    plane: &BlockSamples,
    first: usize,
    many: usize,
    entries: &mut [E],
)
    requires pixels { first + many ≤ 64 }
    requires entries { length entries.old ≡ many }
    ensures { (k : ℕ) → k < many → slice_index (map E.number entries.new) k ≡
        E.number_of (stored_at plane.now (first + k)) }
{
    for k in 0..many {
        entries[k] = E::of(plane, first + k);
    }
}

/// Writes the entries of at most eight pixels in a row of a block, from pixel `first` on.
#[inline(always)]
fn write_run<E: Entry>(plane: &BlockSamples, first: usize, entries: &mut [E])
    requires pixels { first + length entries.old ≤ 64 }
    ensures { (k : ℕ) → k < length entries.old → slice_index (map E.number entries.new) k ≡
        E.number_of (stored_at plane.now (first + k)) }
{
    let many = entries.len();
    if many == 8 {
        write_entries(plane, first, 8, entries);
    } else {
        write_entries(plane, first, many, entries);
    }
}

/// Writes the entries of the samples `s` of at most eight pixels of row `j`, from column 8 * `block` on, from the
/// samples of their tile row.
#[inline]
fn entry_eight<E: Entry>(
    canvas: &Canvas,
    block: u32,
    j: u32,
    s: u32,
    samples: &[BlockSamples],
    entries: &mut [E],
)
    requires column { block / 8 < columns_of canvas.now }
    requires sample { s < count_of canvas.now.count }
    requires samples { length samples.now ≡ planes_of_row canvas.now }
    requires entries { length entries.old ≤ 8 }
    ensures { (i : ℕ) → i < length entries.old → slice_index (map E.number entries.new) i ≡
        E.number_of (stored canvas.now (j / 64) samples.now (8 * block + i) j s) }
{
    let first = (8 * (j % 8)) as usize;
    match merged(canvas, samples, 8 * block, j, s) {
        Some(plane) => write_run(&plane, first, entries),
        None => {
            let place = place(canvas, samples, 8 * block, j, s);
            write_run(&samples[place], first, entries);
        }
    }
}

/// Writes the entries of the samples `s` of row `j` of pixels, from the samples of its tile row, block by block.
fn entry_row<E: Entry>(canvas: &Canvas, j: u32, s: u32, samples: &[BlockSamples], entries: &mut [E])
    requires sample { s < count_of canvas.now.count }
    requires samples { length samples.now ≡ planes_of_row canvas.now }
    requires entries { length entries.old ≡ canvas.now.width }
    ensures { (i : ℕ) → i < canvas.now.width → slice_index (map E.number entries.new) i ≡
        E.number_of (stored canvas.now (j / 64) samples.now i j s) }
{
    for block in 0..(canvas.width + 7) / 8 {
        let many = (canvas.width - 8 * block).min(8) as usize;
        let from = 8 * block as usize;
        entry_eight(
            canvas,
            block,
            j,
            s,
            samples,
            &mut entries[from..from + many],
        );
    }
}

impl View<'_> {
    /// Writes the entry of sample `s` of each pixel of the picture in these tile rows: the rows of pixels from top to
    /// bottom, each `stride` entries behind the one above, the pixels of a row from left to right. The entries begin
    /// with the first pixel of the first row. Entries of no pixel are unchanged.
    pub fn entries<E: Entry>(&self, s: u32, entries: &mut [E], stride: usize) -> Result<(), Misfit>
        ensures fits { IsOk result ↔ FitEntries self.now.rows.canvas self.now.rows.first self.now.rows.end s 1 stride
            (length entries.old) }
        ensures entries { OnOk result (AreEntries E.number_of self.now.rows.canvas self.now.rows.first self.now.rows.end
            self.now.planes.now s stride (map E.number entries.old) (map E.number entries.new)) }
        ensures unfit { OnErr result (entries.new ≡ entries.old) }
        ensures reason { IfErr result (IsEntriesMisfit self.now.rows.canvas self.now.rows.first self.now.rows.end s 1
            stride (length entries.old)) }
    {
        let rows = entry_rows(&self.rows, s, 1, stride, entries.len())?;
        for index in 0..rows.count() {
            let row = rows.row(index);
            let planes = &self.planes[row.planes];
            entry_row(
                &self.rows.canvas,
                row.j,
                s,
                planes,
                &mut entries[row.entries],
            );
        }
        Ok(())
    }

    /// Writes the depth of sample `s` of each pixel of the picture in these tile rows, laid out as by `entries`.
    /// Entries of no pixel are unchanged.
    pub fn depths(&self, s: u32, depths: &mut [u16], stride: usize) -> Result<(), Misfit>
        ensures fits { IsOk result ↔ FitEntries self.now.rows.canvas self.now.rows.first self.now.rows.end s 1 stride
            (length depths.old) }
        ensures depths { OnOk result (AreDepths self.now.rows.canvas self.now.rows.first self.now.rows.end
            self.now.planes.now s stride depths.old depths.new) }
        ensures unfit { OnErr result (depths.new ≡ depths.old) }
        ensures reason { IfErr result (IsEntriesMisfit self.now.rows.canvas self.now.rows.first self.now.rows.end s 1
            stride (length depths.old)) }
    {
        self.entries(s, depths, stride)
    }

    /// Writes the id that is stored in place of the colour of sample `s`, red + 256 * green + 65536 * blue, of each
    /// pixel of the picture in these tile rows, laid out as by `entries`. Entries of no pixel are unchanged.
    pub fn ids(&self, s: u32, ids: &mut [u32], stride: usize) -> Result<(), Misfit>
        ensures fits { IsOk result ↔ FitEntries self.now.rows.canvas self.now.rows.first self.now.rows.end s 1 stride
            (length ids.old) }
        ensures ids { OnOk result (AreIds self.now.rows.canvas self.now.rows.first self.now.rows.end self.now.planes.now
            s stride ids.old ids.new) }
        ensures unfit { OnErr result (ids.new ≡ ids.old) }
        ensures reason { IfErr result (IsEntriesMisfit self.now.rows.canvas self.now.rows.first self.now.rows.end s 1
            stride (length ids.old)) }
    {
        self.entries(s, ids, stride)
    }
}
