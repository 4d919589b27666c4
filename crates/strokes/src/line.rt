//! Sides of straight lines.
ghost use Rattle.std.specs.Prelude.{◌≡◌, ◌↔◌, ℤ, ◌≤◌, ◌^◌, ◌≤ℤ◌, ◌-ℤ◌, ◌*ℤ◌};
ghost use Rattle.grid.specs.Bounds.{IsWithin};
ghost use Rattle.grid.specs.Position.{Position};
ghost use Rattle.strokes.specs.Segment.{IsInFront, IsBehind, IsNearRight, IsNearLeft};
ghost use Rattle.strokes.specs.Cap.{IsNearBehind};

use crate::border::{line_bound, offset_bound, owns};
use crate::segment::{difference, square_length};
use grid::Point;

/// A side of a straight line, with the points of the line that it owns: where an edge function is at most the bound.
#[derive(Clone, Copy, Debug)]
pub(crate) struct Line {
    /// A point where the edge function is 0.
    pub(crate) from: Point,
    /// How much the edge function grows with x.
    pub(crate) x: i32,
    /// How much it grows with y.
    pub(crate) y: i32,
    pub(crate) bound: i64,
    pub(crate) ghost right: { IsWithin (2 ^ 24) x },
    pub(crate) ghost down: { IsWithin (2 ^ 24) y },
    pub(crate) ghost near: { IsWithin (2 ^ 50) bound },
}

/// How far `to` is from `start`, times a number.
fn product(by: i32, start: i32, to: i32) -> i64
    requires by { IsWithin (2 ^ 24) by }
    requires start { IsWithin (2 ^ 24) start }
    requires to { IsWithin (2 ^ 24) to }
    ensures value { result ≡ by *ℤ (to -ℤ start) }
    ensures size { IsWithin (2 ^ 49) result }
{
    let distance = i64::from(to - start);
    i64::from(by) * distance
}

impl Line {
    ghost use Rattle.strokes.specs.Lines.{edge_function, IsOnSide};

    /// How much the bound exceeds the edge function at (x, y).
    pub(crate) fn rest(&self, x: i32, y: i32) -> i64
        requires x { IsWithin (2 ^ 24) x }
        requires y { IsWithin (2 ^ 24) y }
        ensures value { result ≡ self.now.bound -ℤ edge_function self.now (record { x = x; y = y }) }
        ensures size { IsWithin (2 ^ 52) result }
    {
        let across = product(self.x, self.from.x(), x);
        let along = product(self.y, self.from.y(), y);
        self.bound - (across + along)
    }

    /// All points.
    pub(crate) fn everywhere(from: Point) -> Line
        ensures { (p : Position) → IsOnSide result p }
    {
        Line {
            from,
            x: 0,
            y: 0,
            bound: 0,
        }
    }

    /// No point.
    pub(crate) fn nowhere(from: Point) -> Line
        ensures { (p : Position) → ¬ IsOnSide result p }
    {
        Line {
            from,
            x: 0,
            y: 0,
            bound: -1,
        }
    }

    /// What is in front of a, seen towards b.
    pub(crate) fn in_front(a: Point, b: Point) -> Line
        ensures { (p : Position) → IsOnSide result p ↔ IsInFront a b p }
    {
        let x = difference(a.x(), b.x());
        let y = difference(a.y(), b.y());
        let is_owned = owns(x, y);
        let bound = line_bound(0, is_owned);
        Line {
            from: a,
            x,
            y,
            bound,
        }
    }

    /// What is behind a, seen towards b.
    pub(crate) fn behind(a: Point, b: Point) -> Line
        ensures { (p : Position) → IsOnSide result p ↔ IsBehind a b p }
    {
        let x = difference(b.x(), a.x());
        let y = difference(b.y(), a.y());
        let is_owned = owns(x, y);
        let bound = line_bound(0, is_owned);
        Line {
            from: a,
            x,
            y,
            bound,
        }
    }

    /// What is at most half the width right of the line ab.
    pub(crate) fn near_right(a: Point, b: Point, width: u32) -> Line
        requires width { width ≤ 2 ^ 20 }
        ensures { (p : Position) → IsOnSide result p ↔ IsNearRight a b width p }
    {
        let x = difference(a.y(), b.y());
        let y = difference(b.x(), a.x());
        let is_owned = owns(x, y);
        let square = square_length(a, b);
        let bound = offset_bound(width, square, is_owned);
        Line {
            from: a,
            x,
            y,
            bound,
        }
    }

    /// What is at most half the width left of the line ab.
    pub(crate) fn near_left(a: Point, b: Point, width: u32) -> Line
        requires width { width ≤ 2 ^ 20 }
        ensures { (p : Position) → IsOnSide result p ↔ IsNearLeft a b width p }
    {
        let x = difference(b.y(), a.y());
        let y = difference(a.x(), b.x());
        let is_owned = owns(x, y);
        let square = square_length(a, b);
        let bound = offset_bound(width, square, is_owned);
        Line {
            from: a,
            x,
            y,
            bound,
        }
    }

    /// What is at most half the width behind a, seen towards b.
    pub(crate) fn near_behind(a: Point, b: Point, width: u32) -> Line
        requires width { width ≤ 2 ^ 20 }
        ensures { (p : Position) → IsOnSide result p ↔ IsNearBehind a b width p }
    {
        let x = difference(a.x(), b.x());
        let y = difference(a.y(), b.y());
        let is_owned = owns(x, y);
        let square = square_length(a, b);
        let bound = offset_bound(width, square, is_owned);
        Line {
            from: a,
            x,
            y,
            bound,
        }
    }
}
