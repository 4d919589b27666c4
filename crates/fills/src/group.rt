//! Polygons that are drawn together, tile row by tile row, so that a row's samples stay in the cache of a processor.
ghost use Rattle.std.specs.Prelude.{ℕ, ◌≡◌, ◌↔◌, ◌+◌, ◌/◌, ◌<◌, ◌≤◌, length, IsTrue};
ghost use Rattle.canvas.specs.Layout.{planes_of_row, planes_of_rows};
ghost use Rattle.polygons.specs.Cells.{AreZeros};
ghost use Rattle.fills.specs.declared.batch.Style.{Style as StyleOf};
ghost use Rattle.fills.specs.Batches.{AreFit, HasColours, HasCornersInBand, shape_in, shapes_between};
ghost use Rattle.fills.specs.Painting.{ArePainted};
ghost use Rattle.fills.specs.Parts.{LiesInRows};

use crate::batch::Style;
use crate::rows::paint_rows;
use crate::window::Window;
use canvas::{Canvas, Origin, TileRows};
use lanes::BlockSamples;
use polygons::{Counters, Flags, Polygons, Runs};

/// How many polygons are drawn together at most.
const MOST: usize = 4096;

/// How many corners a polygon has at most that is drawn together with others. The boxes of its runs are found anew in
/// each tile row.
const FEW: usize = 1024;

/// The number behind the run of polygons to which the one of this number belongs, and whether the run lies beside the
/// canvas. No corner is looked at.
pub(crate) fn run_of(
    polygons: &Polygons<'_>,
    number: usize,
    origin: &Origin,
    canvas: &Canvas,
) -> (usize, bool)
    requires { number < length polygons.now.polygon_ends.now }
    ensures after { number < result.0 }
    ensures within { result.0 ≤ length polygons.now.polygon_ends.now }
    ensures beside { IsTrue result.1 → AreFit polygons.now → (style : StyleOf) (k : ℕ) → number ≤ k → k < result.0 →
        LiesInRows (shape_in polygons.now style k) origin.now canvas.now 0 0 }
{
    let (extent, end) = polygons.run_of(number);
    (end, Window::of(&extent, origin, canvas).is_empty())
}

/// Tile rows from `top` to before `bottom`.
#[derive(Clone, Copy, Debug)]
struct Span {
    top: u8,
    bottom: u8,
}

/// No tile rows.
const NONE: Span = Span { top: 0, bottom: 0 };

/// All tile rows.
const ALL: Span = Span { top: 0, bottom: 64 };

impl Span {
    /// Whether a tile row is one of them.
    #[inline]
    fn has(&self, row: u32) -> bool
        ensures { IsTrue result ↔ ((self.now.top ≤ row) × (row < self.now.bottom)) }
    {
        u32::from(self.top) <= row && row < u32::from(self.bottom)
    }

    /// Whether there are none.
    #[inline]
    fn is_empty(&self) -> bool
        ensures { IsTrue result ↔ self.now.bottom ≤ self.now.top }
    {
        self.bottom <= self.top
    }
}

/// Tile rows in which all samples lie that the polygon of this number meets, if the caller's boxes are right. Of a polygon of
/// many corners these are all, if the corners are known to be in the guard band: it is drawn by itself, and its corners are
/// looked at when it is drawn. There are none if a corner is outside of the guard band.
fn rows_of(polygons: &Polygons<'_>, number: usize, origin: &Origin, canvas: &Canvas) -> Span
    requires { number < length polygons.now.polygon_ends.now }
    ensures rows { AreFit polygons.now → (style : StyleOf) →
        LiesInRows (shape_in polygons.now style number) origin.now canvas.now result.top result.bottom }
    ensures seen { result.top < result.bottom → HasCornersInBand polygons.now number }
{
    if polygons.are_seen() {
        if FEW < polygons.corner_count(number) {
            return ALL;
        }
    } else if run_of(polygons, number, origin, canvas).1 {
        return NONE;
    }
    let Some(extent) = polygons.extent(number) else {
        return NONE;
    };
    let window = Window::of(&extent, origin, canvas);
    if window.is_empty() {
        return NONE;
    }
    Span {
        top: window.top as u8,
        bottom: window.bottom as u8,
    }
}

/// Polygons that are drawn together. Each has a number, and they follow one another.
#[derive(Clone, Copy, Debug)]
pub(crate) struct Group {
    /// The first polygon.
    first: usize,
    /// The one behind the last.
    pub end: usize,
    /// Of each polygon the tile rows that it can meet.
    spans: [Span; 4096],
    ghost few: { end ≤ first + 4096 },
}

impl Group {
    ghost use Rattle.fills.specs.Groups.{SaysRowsOf, HasSeen, CanBeDrawn};

    /// No polygons.
    pub(crate) fn none() -> Group {
        Group {
            first: 0,
            end: 0,
            spans: [NONE; MOST],
        }
    }

    /// Takes the polygons from `first` on that are drawn together, on a canvas of this size. A polygon of many corners is
    /// taken by itself. No polygon is taken behind `first` from a run on that lies beside the canvas, unless the caller has
    /// boxes.
    pub(crate) fn take(
        &mut self,
        polygons: &Polygons<'_>,
        origin: &Origin,
        canvas: &Canvas,
        first: usize,
    )
        requires first { first < length polygons.now.polygon_ends.now }
        ensures first { self.new.first ≡ first }
        ensures some { first < self.new.end }
        ensures within { self.new.end ≤ length polygons.now.polygon_ends.now }
        ensures rows { (style : StyleOf) → SaysRowsOf self.new polygons.now style origin.now canvas.now }
        ensures seen { HasSeen self.new polygons.now }
    {
        let mut behind = first;
        self.first = first;
        self.end = first;
        for number in first..polygons.count().min(first + MOST) {
            if polygons.are_seen() && number == behind {
                let (end, is_beside) = run_of(polygons, number, origin, canvas);
                if is_beside && first < number {
                    return;
                }
                behind = end;
            }
            let is_large = FEW < polygons.corner_count(number);
            if is_large && first < number {
                return;
            }
            self.spans[number - first] = rows_of(polygons, number, origin, canvas);
            self.end = number + 1;
            if is_large {
                return;
            }
        }
    }

    /// Draws the polygons at each sample of one tile row.
    fn paint_row(
        &self,
        canvas: &Canvas,
        row: u32,
        polygons: &Polygons<'_>,
        style: &Style<'_>,
        origin: &Origin,
        runs: &mut Runs,
        flags: &mut [Flags],
        counters: &mut [Counters],
        samples: &mut [BlockSamples],
    )
        requires row { row < (canvas.now.height + 63) / 64 }
        requires ready { CanBeDrawn self.now polygons.now style.now origin.now canvas.now flags.old counters.old }
        requires samples { length samples.old ≡ planes_of_row canvas.now }
        ensures painted { AreFit polygons.now → ArePainted (shapes_between polygons.now style.now self.now.first self.now.end)
            origin.now canvas.now row (row + 1) samples.old samples.new }
        ensures flags { AreZeros flags.new }
    {
        let rows = TileRows {
            canvas: *canvas,
            first: row,
            end: row + 1,
        };
        let spans = &self.spans[..self.end - self.first];
        for (at, span) in spans.iter().enumerate() {
            if span.has(row) {
                let polygon = style.polygon(polygons, self.first + at);
                paint_rows(&rows, &polygon, origin, runs, flags, counters, samples);
            }
        }
    }

    /// Draws the polygons at each sample of these tile rows.
    pub(crate) fn paint(
        &self,
        rows: &TileRows,
        polygons: &Polygons<'_>,
        style: &Style<'_>,
        origin: &Origin,
        runs: &mut Runs,
        flags: &mut [Flags],
        counters: &mut [Counters],
        samples: &mut [BlockSamples],
    )
        requires ready { CanBeDrawn self.now polygons.now style.now origin.now rows.now.canvas flags.old counters.old }
        requires samples { length samples.old ≡ planes_of_rows rows.now.canvas rows.now.first rows.now.end }
        ensures painted { AreFit polygons.now → ArePainted (shapes_between polygons.now style.now self.now.first self.now.end)
            origin.now rows.now.canvas rows.now.first rows.now.end samples.old samples.new }
        ensures flags { AreZeros flags.new }
    {
        if self.end == self.first + 1 {
            if !self.spans[0].is_empty() {
                let polygon = style.polygon(polygons, self.first);
                paint_rows(rows, &polygon, origin, runs, flags, counters, samples);
            }
            return;
        }
        let each = rows.canvas.planes_of_row();
        for row in rows.first..rows.end {
            let from = (row - rows.first) as usize * each;
            self.paint_row(
                &rows.canvas,
                row,
                polygons,
                style,
                origin,
                runs,
                flags,
                counters,
                &mut samples[from..from + each],
            );
        }
    }
}
