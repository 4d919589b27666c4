ghost use Rattle.std.specs.Prelude.{◌≡◌, ◌≤◌, ◌^◌, ℕ, slice_index};
ghost use Rattle.std.specs.Int.RustNames.{unsigned_abs};
ghost use Rattle.grid.specs.Edge as edge;
ghost use Rattle.grid.specs.Triangle.{doubled_area, Covers};
ghost use Rattle.shade.specs.Row.{IsDivided};
ghost use Rattle.shade.specs.Value.{weighted_sum, IsValueAt};

use grid::{Point, Tri, side};
use std::marker::Model;

/// The weights of a triangle's vertices at a point that it covers: the absolute value of the edge function of each
/// vertex's opposite edge there. They are found once for all values at the point. Contracts see the triangle and the
/// point, which are kept for them.
#[derive(Debug, Drop)]
pub struct Weights {
    triangle: Tri,
    point: Point,
    first: u64,
    second: u64,
    third: u64,
    area: u64,
}

impl Model for Weights {
    ghost use Rattle.shade.specs.Weights.{TriangleAndPoint, AreWeights};

    ghost Value = { TriangleAndPoint };

    ghost view = { λ w. record { a = w.triangle.a; b = w.triangle.b; c = w.triangle.c; p = w.point } };

    ghost invariant = { λ w. AreWeights w.triangle.a w.triangle.b w.triangle.c w.point w.first w.second w.third w.area };
}

/// The absolute value of the edge function of ab at `p`, in 1/65536 square pixel.
fn weight(a: Point, b: Point, p: Point) -> u64
    ensures value { result ≡ unsigned_abs (edge.side a b p) }
    ensures size { result ≤ 2 ^ 48 }
{
    side(a, b, p).unsigned_abs()
}

impl Weights {
    /// The weights of the vertices of `t` at `p`, which it covers.
    pub fn at(t: &Tri, p: Point) -> Weights
        requires { Covers t.now.a t.now.b t.now.c p }
        ensures { result ≡ record { a = t.now.a; b = t.now.b; c = t.now.c; p = p } }
    {
        Weights {
            triangle: *t,
            point: p,
            first: weight(t.b, t.c, p),
            second: weight(t.c, t.a, p),
            third: weight(t.a, t.b, p),
            area: weight(t.a, t.b, t.c),
        }
    }

    /// The point.
    pub(crate) fn point(&self) -> Point
        ensures covered { Covers self.now.a self.now.b self.now.c result }
        ensures value { result ≡ self.now.p }
    {
        self.point
    }

    /// The weighted sum of `v` at the point divided by the absolute doubled area: quotient and remainder.
    pub(crate) fn divided(&self, v: [u16; 3]) -> (u16, u64)
        ensures divided { IsDivided (weighted_sum self.now.a self.now.b self.now.c self.now.p (slice_index v 0)
            (slice_index v 1) (slice_index v 2)) (unsigned_abs (doubled_area self.now.a self.now.b self.now.c)) result.0
            result.1 }
        ensures at_most { (most : ℕ) → slice_index v 0 ≤ most → slice_index v 1 ≤ most → slice_index v 2 ≤ most →
            result.0 ≤ most }
    {
        let area = self.area;
        // The weights add up to the area, so the mean of equal values is exact and needs no division.
        if v[0] == v[1] && v[1] == v[2] {
            return (v[0], 0);
        }
        let sum = u64::from(v[0]) * self.first
            + u64::from(v[1]) * self.second
            + u64::from(v[2]) * self.third;
        ((sum / area) as u16, sum % area)
    }

    /// The value at the point of what is `v` at the vertices: the mean of `v` by the weights, rounded down (the
    /// rounding is this project's rule). It is at most the greatest of `v`.
    pub fn value(&self, v: [u16; 3]) -> u16
        ensures value { IsValueAt self.now.a self.now.b self.now.c self.now.p (slice_index v 0) (slice_index v 1)
            (slice_index v 2) result }
        ensures at_most { (most : ℕ) → slice_index v 0 ≤ most → slice_index v 1 ≤ most → slice_index v 2 ≤ most →
            result ≤ most }
    {
        let (value, _) = self.divided(v);
        value
    }

    /// The value at the point of what is `v` at the vertices, as `value` gives it.
    pub fn channel(&self, v: [u8; 3]) -> u8
        ensures { IsValueAt self.now.a self.now.b self.now.c self.now.p (slice_index v 0) (slice_index v 1)
            (slice_index v 2) result }
    {
        let [a, b, c] = v;
        self.value([u16::from(a), u16::from(b), u16::from(c)]) as u8
    }
}
