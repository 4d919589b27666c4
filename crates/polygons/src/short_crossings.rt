//! Where a short edge is crossed by the samples of a pixel, all found at once.
ghost use Rattle.std.specs.Prelude.{◌≡◌, ◌^◌, ◌<◌, ◌≤◌, pos, ◌+ℤ◌, ◌-ℤ◌, ◌*ℤ◌, ◌<ℤ◌, ◌≤ℤ◌, IsTrue, IsFalse, slice_index};
ghost use Rattle.std.specs.Int.{int_min};
ghost use Rattle.grid.specs.Bounds.{IsWithin};
ghost use Rattle.grid.specs.Position.{IsInBand};
ghost use Rattle.polygons.specs.Screen.{IsPixelInBand};
ghost use Rattle.polygons.specs.Short.{IsShortEdge};

use crate::edge::Edge;
use crate::pixels::first_pixel;
use crate::short_lanes::{advanced, ahead_or_behind, lessened, moved, passing, pixels, rests};
use crate::starts::Starts;

/// How high a short edge is that runs downwards.
#[inline(always)]
fn height(edge: &Edge) -> u16
    requires short { IsShortEdge edge.now }
    requires runs_down { edge.now.a.y ≤ℤ edge.now.b.y }
    ensures value { pos result ≡ edge.now.b.y -ℤ edge.now.a.y }
    ensures small { result ≤ 256 }
{
    (edge.b.y() - edge.a.y()) as u16
}

/// How wide a short edge is.
#[inline(always)]
fn width(edge: &Edge) -> u16
    requires { IsShortEdge edge.now }
    ensures right { edge.now.a.x ≤ℤ edge.now.b.x → pos result ≡ edge.now.b.x -ℤ edge.now.a.x }
    ensures left { edge.now.b.x <ℤ edge.now.a.x → pos result ≡ edge.now.a.x -ℤ edge.now.b.x }
    ensures small { result < 256 }
{
    (edge.b.x() - edge.a.x()).abs() as u16
}

/// Whether the edge runs to the right, or straight down.
#[inline(always)]
fn runs_right(edge: &Edge) -> bool
    ensures yes { IsTrue result → edge.now.a.x ≤ℤ edge.now.b.x }
    ensures no { IsFalse result → edge.now.b.x <ℤ edge.now.a.x }
{
    edge.a.x() <= edge.b.x()
}

/// The left end of the edge.
#[inline(always)]
fn left(edge: &Edge) -> i32
    ensures value { result ≡ int_min edge.now.a.x edge.now.b.x }
    ensures in_band { IsInBand result }
{
    edge.a.x().min(edge.b.x())
}

/// How many whole pixels it is from the beginning of a pixel's column to the place 255/256 pixel behind `to`, and how far
/// beyond them.
#[inline(always)]
fn whole_and_rest(pixel: i32, to: i32) -> (i32, u16)
    requires pixel { IsPixelInBand pixel }
    requires to { IsInBand to }
    ensures sum { pos 256 *ℤ result.0 +ℤ pos result.1 ≡ (to +ℤ pos 255) -ℤ pos 256 *ℤ pixel }
    ensures small { result.1 < 256 }
    ensures size { IsWithin (2 ^ 17) result.0 }
{
    let column = first_pixel(256 * pixel, to);
    let rest = to + 255 - 256 * pixel - 256 * column;
    (column, rest as u16)
}

/// Where a short edge is crossed by the samples of a pixel.
#[derive(Clone, Copy, Debug)]
pub(crate) struct ShortCrossings {
    /// A bit for each sample: whether the edge runs through one of its rows.
    pub bits: u64,
    /// The column from which `columns` count.
    pub column: i32,
    /// Of each sample whose bit is set, the row.
    pub rows: [u16; 16],
    /// Of each sample whose bit is set, how far behind `column` the first column is that is crossed in that row.
    pub columns: [u16; 16],
}

impl ShortCrossings {
    ghost use Rattle.polygons.specs.Crossed.{AreCrossed};

    /// No crossings.
    #[inline(always)]
    fn none() -> ShortCrossings
        ensures { result.bits ≡ 0 }
    {
        ShortCrossings {
            bits: 0,
            column: 0,
            rows: [0; 16],
            columns: [0; 16],
        }
    }

    /// The row of a sample.
    #[inline(always)]
    pub(crate) fn row(&self, s: usize) -> usize
        requires { s < 16 }
        ensures { result ≡ slice_index self.now.rows s }
    {
        self.rows[s] as usize
    }

    /// The column of a sample.
    #[inline(always)]
    pub(crate) fn column(&self, s: usize) -> i64
        requires { s < 16 }
        ensures { result ≡ self.now.column +ℤ pos (slice_index self.now.columns s) }
    {
        i64::from(self.column) + i64::from(self.columns[s])
    }

    /// Where a short edge that runs downwards is crossed.
    #[inline(always)]
    pub(crate) fn of(edge: &Edge, starts: &Starts) -> ShortCrossings
        requires short { IsShortEdge edge.now }
        requires runs_down { edge.now.a.y ≤ℤ edge.now.b.y }
        ensures { AreCrossed starts.now.strip edge.now result }
    {
        let depth = edge.a.y() + 255 - 256 * starts.strip.row;
        if depth < 0 {
            return ShortCrossings::none();
        }
        if depth >= 16639 {
            return ShortCrossings::none();
        }
        let height = height(edge);
        let down = moved(&starts.below, depth as u16);
        let bits = passing(down, rests(down), height);
        if bits == 0 {
            return ShortCrossings::none();
        }
        let (column, rest) = whole_and_rest(starts.strip.column, left(edge));
        let right = moved(&starts.right, rest);
        let lengths = ahead_or_behind(rests(down), height, runs_right(edge));
        let columns = advanced(pixels(right), rests(right), height, lengths, width(edge));
        ShortCrossings {
            bits,
            column: column - 1,
            rows: lessened(pixels(down)).to_array(),
            columns: columns.to_array(),
        }
    }
}
