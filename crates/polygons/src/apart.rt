//! Edges that are crossed at no sample of a strip.
ghost use Rattle.std.specs.Prelude.{◌↔◌, ℕ, ◌+◌, ◌*◌, ◌<◌, pos, ◌+ℤ◌, ◌*ℤ◌, ◌≤ℤ◌, IsTrue};
ghost use Rattle.polygons.specs.Apart.{IsAbove, IsBelow, IsRight, IsApart, LiesBeside};
ghost use Rattle.polygons.specs.Screen.{IsPixelInBand};

use crate::divide::divide;
use crate::edge::Edge;
use crate::extent::Extent;
use crate::strip::Strip;

/// Whether both ends are at the upper border of a row of pixels, or above it.
#[inline(always)]
fn is_above(a: i32, b: i32, row: i32) -> bool
    requires { IsPixelInBand row }
    ensures { IsTrue result ↔ ((a ≤ℤ (pos 256 *ℤ row)) × (b ≤ℤ (pos 256 *ℤ row))) }
{
    a.max(b) <= 256 * row
}

/// Whether both ends are at the upper border of the row of pixels 64 below, or below it.
#[inline(always)]
fn is_below(a: i32, b: i32, row: i32) -> bool
    requires { IsPixelInBand row }
    ensures { IsTrue result ↔ (((pos 256 *ℤ row +ℤ pos 16384) ≤ℤ a) × ((pos 256 *ℤ row +ℤ pos 16384) ≤ℤ b)) }
{
    256 * row + 16384 <= a.min(b)
}

/// Whether `x` is at the left border of a column of pixels, or left of it.
#[inline(always)]
fn is_left(x: i32, column: i32) -> bool
    requires { IsPixelInBand column }
    ensures { IsTrue result ↔ (x ≤ℤ (pos 256 *ℤ column)) }
{
    x <= 256 * column
}

/// Whether `x` is right of these columns of blocks, the first of which begins at a column of pixels.
#[inline(always)]
fn is_right(x: i32, column: i32, columns: usize) -> bool
    requires { IsPixelInBand column }
    ensures { IsTrue result ↔ ((k : ℕ) → k < 8 * columns → (pos 256 *ℤ column +ℤ pos (256 * (k + 1))) ≤ℤ x) }
{
    let (pixel, _) = divide(i64::from(x), 256);
    let right = pixel - i64::from(column);
    columns <= right.max(0) as usize / 8
}

/// Whether the edge is above the strip.
#[inline(always)]
fn runs_above(edge: &Edge, strip: &Strip) -> bool
    ensures { IsTrue result ↔ IsAbove edge.now strip.now }
{
    is_above(edge.a.y(), edge.b.y(), strip.row)
}

/// Whether the edge is below the strip.
#[inline(always)]
fn runs_below(edge: &Edge, strip: &Strip) -> bool
    ensures { IsTrue result ↔ IsBelow edge.now strip.now }
{
    is_below(edge.a.y(), edge.b.y(), strip.row)
}

/// Whether the edge is right of the strip's columns of blocks.
#[inline(always)]
fn runs_right(edge: &Edge, strip: &Strip, columns: usize) -> bool
    ensures { IsTrue result ↔ IsRight edge.now strip.now columns }
{
    let (a, b) = (edge.a.x(), edge.b.x());
    is_right(a.min(b), strip.column, columns)
}

/// Whether the edge is above the strip, below it, or right of its columns of blocks.
#[inline(always)]
pub(crate) fn is_apart(edge: &Edge, strip: &Strip, columns: usize) -> bool
    ensures { IsTrue result ↔ IsApart edge.now strip.now columns }
{
    runs_above(edge, strip) || runs_below(edge, strip) || runs_right(edge, strip, columns)
}

/// Whether the box is above the strip, below it, left of it, or right of its columns of blocks.
#[inline(always)]
pub(crate) fn is_beside(extent: &Extent, strip: &Strip, columns: usize) -> bool
    ensures { IsTrue result → LiesBeside extent.now strip.now columns }
{
    if is_above(extent.bottom, extent.bottom, strip.row) {
        return true;
    }
    if is_below(extent.top, extent.top, strip.row) {
        return true;
    }
    if is_left(extent.right, strip.column) {
        return true;
    }
    is_right(extent.left, strip.column, columns)
}
