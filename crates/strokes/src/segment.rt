ghost use Rattle.std.specs.Prelude.{◌≡◌, ◌↔◌, ℤ, ◌≤◌, ◌^◌, ◌≤ℤ◌, pos, ◌-ℤ◌, ◌*ℤ◌, IsTrue};
ghost use Rattle.grid.specs.Bounds.{IsWithin};
ghost use Rattle.grid.specs.Position.{IsInBand};
ghost use Rattle.strokes.specs.Segment as segment;
ghost use Rattle.strokes.specs.Segment.{SegmentCovers, IsInFront, IsBehind, IsNearRight, IsNearLeft, IsInStrip};

use crate::border::{line_bound, offset_bound, owns};
use grid::{Point, side};

/// Whether the segment ab of a stroke covers `p`, without caps. The width is in 1/256 pixel. These are four comparisons
/// of edge functions with thresholds that do not depend on `p`.
pub fn segment_covers(a: Point, b: Point, width: u32, p: Point) -> bool
    requires width { width ≤ 2 ^ 20 }
    ensures { IsTrue result ↔ SegmentCovers a b width p }
{
    is_in_front(a, b, p) && is_in_front(b, a, p) && is_in_strip(a, b, width, p)
}

/// Whether `p` is in front of a, seen towards b.
pub(crate) fn is_in_front(a: Point, b: Point, p: Point) -> bool
    ensures { IsTrue result ↔ IsInFront a b p }
{
    let is_owned = owns(difference(a.x(), b.x()), difference(a.y(), b.y()));
    let back = -dot(a, b, p);
    back <= line_bound(0, is_owned)
}

/// Whether `p` is behind a, seen towards b.
pub(crate) fn is_behind(a: Point, b: Point, p: Point) -> bool
    ensures { IsTrue result ↔ IsBehind a b p }
{
    let is_owned = owns(difference(b.x(), a.x()), difference(b.y(), a.y()));
    dot(a, b, p) <= line_bound(0, is_owned)
}

/// Whether `p` is at most half the width from the line ab.
pub(crate) fn is_in_strip(a: Point, b: Point, width: u32, p: Point) -> bool
    requires width { width ≤ 2 ^ 20 }
    ensures { IsTrue result ↔ IsInStrip a b width p }
{
    is_near_right(a, b, width, p) && is_near_left(a, b, width, p)
}

/// Whether `p` is at most half the width right of the line ab.
fn is_near_right(a: Point, b: Point, width: u32, p: Point) -> bool
    requires width { width ≤ 2 ^ 20 }
    ensures { IsTrue result ↔ IsNearRight a b width p }
{
    let is_owned = owns(difference(a.y(), b.y()), difference(b.x(), a.x()));
    side(a, b, p) <= offset_bound(width, square_length(a, b), is_owned)
}

/// Whether `p` is at most half the width left of the line ab.
fn is_near_left(a: Point, b: Point, width: u32, p: Point) -> bool
    requires width { width ≤ 2 ^ 20 }
    ensures { IsTrue result ↔ IsNearLeft a b width p }
{
    let is_owned = owns(difference(b.y(), a.y()), difference(a.x(), b.x()));
    let to_left = -side(a, b, p);
    to_left <= offset_bound(width, square_length(a, b), is_owned)
}

/// The square of the length of ab.
#[tactic(auto, unfolding(crate::specs::Segment::square_length))]
pub(crate) fn square_length(a: Point, b: Point) -> u64
    ensures value { result ≡ segment.square_length a b }
    ensures size { result ≤ 2 ^ 49 }
{
    dot(a, b, b).unsigned_abs()
}

/// A difference of coordinates of the guard band.
pub(crate) fn difference(to: i32, from: i32) -> i32
    requires to { IsInBand to }
    requires from { IsInBand from }
    ensures { result ≡ to -ℤ from }
{
    to - from
}

/// How far `end` is from `start` times how far `to` is from it.
fn product(start: i32, end: i32, to: i32) -> i64
    requires start { IsInBand start }
    requires end { IsInBand end }
    requires to { IsInBand to }
    ensures value { result ≡ (end -ℤ start) *ℤ (to -ℤ start) }
    ensures size { IsWithin (2 ^ 48) result }
{
    let difference = i64::from(end - start);
    let other_difference = i64::from(to - start);
    difference * other_difference
}

/// How far `p` is from a in the direction of b, times the length of ab, in 1/65536 square pixel.
#[tactic(auto, unfolding(crate::specs::Segment::dot))]
pub(crate) fn dot(a: Point, b: Point, p: Point) -> i64
    ensures value { result ≡ segment.dot a b p }
    ensures size { IsWithin (2 ^ 49) result }
{
    product(a.x(), b.x(), p.x()) + product(a.y(), b.y(), p.y())
}
