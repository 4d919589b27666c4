//! The samples of tile rows.
ghost use Rattle.std.specs.Prelude.{◌≡◌, ◌≤◌, [], ◌∷◌, length};
ghost use Rattle.canvas.specs.Layout.{planes_of_rows};
ghost use Rattle.polygons.specs.declared.rule.Rule.TheVariants.{NonZero};
ghost use Rattle.polygons.specs.Cells.{AreZeros};
ghost use Rattle.fills.specs.Painting.{ArePainted, IsOriginInBand, shape_of};
ghost use Rattle.fills.specs.Parts.{flag_columns_of, counter_columns_of};

use crate::polygon::Polygon;
use crate::row::paint_row;
use crate::window::Window;
use canvas::{Origin, TileRows};
use lanes::{BlockSamples, Fragment};
use polygons::{Counters, Flags, Runs};

/// Draws the polygon at each sample of these tile rows, with memory for the boxes of runs of corners, whatever is in it.
pub(crate) fn paint_rows(
    rows: &TileRows,
    polygon: &Polygon<'_>,
    origin: &Origin,
    runs: &mut Runs,
    flags: &mut [Flags],
    counters: &mut [Counters],
    samples: &mut [BlockSamples],
)
    requires origin { IsOriginInBand origin.now }
    requires columns { flag_columns_of polygon.now.rule rows.now.canvas ≤ length flags.old }
    requires flags { AreZeros flags.old }
    requires counted { polygon.now.rule ≡ NonZero → counter_columns_of rows.now.canvas ≤ length counters.old }
    requires samples { length samples.old ≡ planes_of_rows rows.now.canvas rows.now.first rows.now.end }
    ensures painted { ArePainted (shape_of polygon.now ∷ []) origin.now rows.now.canvas rows.now.first rows.now.end
        samples.old samples.new }
    ensures flags { AreZeros flags.new }
{
    let fragment = polygon.fragment(origin);
    let window = Window::of(&polygon.rings.extent(), origin, &rows.canvas);
    if window.right <= window.left {
        return;
    }
    runs.measure(&polygon.rings);
    let many = (window.right - window.left) as usize;
    let parts = rows.canvas.count.parts() as usize;
    let flagged = parts * (polygon.rule.flags() * many);
    let counted = (parts * many).min(counters.len());
    let each = rows.canvas.planes_of_row();
    for row in rows.first.max(window.top)..rows.end.min(window.bottom) {
        let from = (row - rows.first) as usize * each;
        paint_row(
            &rows.canvas,
            row,
            window.left,
            many,
            polygon,
            origin,
            &fragment,
            runs,
            &mut flags[..flagged],
            &mut counters[..counted],
            &mut samples[from..from + each],
        );
    }
}
