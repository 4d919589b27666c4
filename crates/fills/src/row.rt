//! The samples of a tile row.
ghost use Rattle.std.specs.Prelude.{◌≡◌, ℕ, ◌+◌, ◌*◌, ◌/◌, ◌<◌, ◌≤◌, pos, ◌+ℤ◌, length};
ghost use Rattle.grid.specs.Samples.{parts_of};
ghost use Rattle.canvas.specs.Layout.{IsStoredIn, columns_of, rows_of, planes_of_row};
ghost use Rattle.polygons.specs.declared.rule.Rule.TheVariants.{NonZero};
ghost use Rattle.polygons.specs.Cells.{flags_by, AreZeros, AreMasksAlone};
ghost use Rattle.polygons.specs.Runs.{AreRunsOf};
ghost use Rattle.fills.specs.Painting.{IsOriginInBand};
ghost use Rattle.block_fills.specs.Parts.{RowsPaint};
ghost use Rattle.fills.specs.Parts.{seen_fragment, AreMasksOfRow, MeetsHere};

use crate::polygon::Polygon;
use crate::scratch::clear_masks;
use block_fills::{Masks, paint_masks};
use canvas::{Canvas, Origin};
use lanes::{BlockSamples, Fragment};
use polygons::{Counters, Flags, Runs, Strip, cover_parts};

/// The strip of a tile row that begins with block `first`.
fn strip_at(canvas: &Canvas, origin: &Origin, first: u32, row: u32) -> Strip
    requires origin { IsOriginInBand origin.now }
    requires column { first < 512 }
    requires row { row < 64 }
    ensures place { (result.column ≡ origin.now.x +ℤ pos (8 * first)) × (result.row ≡ origin.now.y +ℤ pos (64 * row)) }
    ensures count { result.count ≡ canvas.now.count }
{
    Strip {
        column: origin.x + 8 * first as i32,
        row: origin.y + 64 * row as i32,
        count: canvas.count,
    }
}

/// Sets the flags to the masks of the samples of a tile row that the polygon covers, in `many` columns of blocks from
/// column `first` on. Of each part's flags the further columns are zeros again afterwards.
fn cover_row(
    canvas: &Canvas,
    row: u32,
    first: u32,
    many: usize,
    polygon: &Polygon<'_>,
    origin: &Origin,
    runs: &Runs,
    flags: &mut [Flags],
    counters: &mut [Counters],
)
    requires row { row < rows_of canvas.now }
    requires first { first < 512 }
    requires columns { first + many ≤ 8 * columns_of canvas.now }
    requires origin { IsOriginInBand origin.now }
    requires runs { AreRunsOf runs.now polygon.now.rings }
    requires parts { length flags.old ≡ parts_of canvas.now.count * (flags_by polygon.now.rule * many) }
    requires flags { AreZeros flags.old }
    requires counted { polygon.now.rule ≡ NonZero → length counters.old ≡ parts_of canvas.now.count * many }
    ensures masks { AreMasksOfRow polygon.now origin.now canvas.now row first many (flags_by polygon.now.rule * many)
        flags.new }
    ensures others { AreMasksAlone many (flags_by polygon.now.rule * many) flags.new }
{
    let strip = strip_at(canvas, origin, first, row);
    cover_parts(
        flags,
        counters,
        polygon.rule,
        &polygon.rings,
        runs,
        &strip,
        many,
    );
}

/// Draws the polygon at the samples of a tile row, by the masks of its samples in `many` columns of blocks from column
/// `first` on, which hold all that it meets. For each part of a pixel's samples there is a column of flags for each of
/// these and each flag that a sample has, and by the nonzero rule a column of counters for each of these.
pub(crate) fn paint_row(
    canvas: &Canvas,
    row: u32,
    first: u32,
    many: usize,
    polygon: &Polygon<'_>,
    origin: &Origin,
    fragment: &Fragment,
    runs: &Runs,
    flags: &mut [Flags],
    counters: &mut [Counters],
    samples: &mut [BlockSamples],
)
    requires row { row < rows_of canvas.now }
    requires first { first < 512 }
    requires columns { first + many ≤ 8 * columns_of canvas.now }
    requires origin { IsOriginInBand origin.now }
    requires fragment { fragment.now ≡ seen_fragment polygon.now origin.now }
    requires runs { AreRunsOf runs.now polygon.now.rings }
    requires held { (i j s : ℕ) → IsStoredIn canvas.now row (row + 1) i j s →
        MeetsHere polygon.now origin.now canvas.now.count i j s → (first ≤ i / 8) × (i / 8 < first + many) }
    requires parts { length flags.old ≡ parts_of canvas.now.count * (flags_by polygon.now.rule * many) }
    requires flags { AreZeros flags.old }
    requires counted { polygon.now.rule ≡ NonZero → length counters.old ≡ parts_of canvas.now.count * many }
    requires samples { length samples.old ≡ planes_of_row canvas.now }
    ensures painted { RowsPaint fragment.now canvas.now row (row + 1)
        (MeetsHere polygon.now origin.now canvas.now.count) samples.old samples.new }
    ensures flags { AreZeros flags.new }
{
    cover_row(
        canvas, row, first, many, polygon, origin, runs, flags, counters,
    );
    let each = polygon.rule.flags() * many;
    let masks = Masks {
        flags,
        columns: many,
        each,
        count: canvas.count,
    };
    paint_masks(canvas, row, first, fragment, &masks, samples);
    clear_masks(flags, canvas.count.parts() as usize, many, each);
}
