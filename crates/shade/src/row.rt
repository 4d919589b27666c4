ghost use Rattle.std.specs.Prelude.{◌≡◌, ◌≤◌, ℕ, slice_index};
ghost use Rattle.grid.specs.Position.{right_of};
ghost use Rattle.grid.specs.Triangle.{Covers};
ghost use Rattle.shade.specs.Value.{IsValueAt};

use crate::gradient::Gradient;
use crate::step::Step;
use crate::weights::Weights;
use grid::{Point, Tri};
use std::marker::Model;

/// A value at a point that a triangle covers, which can be stepped to the point a pixel to the right by additions.
/// Contracts see the triangle, the point and the vertices' values, which are kept for them.
#[derive(Debug, Drop)]
pub struct Row {
    pub(crate) triangle: Tri,
    pub(crate) point: Point,
    pub(crate) values: [u16; 3],
    pub(crate) value: u16,
    pub(crate) remainder: u64,
    pub(crate) step: Step,
}

impl Model for Row {
    ghost use Rattle.std.specs.Prelude.{slice_index};
    ghost use Rattle.shade.specs.Row.{AttributeAt, IsRowAt};

    ghost Value = { AttributeAt };

    ghost view = { λ r. record {
      a = r.triangle.a;
      b = r.triangle.b;
      c = r.triangle.c;
      p = r.point;
      u = slice_index r.values 0;
      v = slice_index r.values 1;
      w = slice_index r.values 2;
    } };

    ghost invariant = { λ r. IsRowAt r.triangle.a r.triangle.b r.triangle.c r.point (slice_index r.values 0)
        (slice_index r.values 1) (slice_index r.values 2) r.value r.remainder r.step };
}

impl Row {
    /// The value at `p`, which the triangle covers, of what is `v` at its vertices. For several rows of one triangle
    /// use a `Gradient`.
    pub fn start(t: &Tri, p: Point, v: [u16; 3]) -> Row
        requires { Covers t.now.a t.now.b t.now.c p }
        ensures { result ≡ record {
          a = t.now.a;
          b = t.now.b;
          c = t.now.c;
          p = p;
          u = slice_index v 0;
          v = slice_index v 1;
          w = slice_index v 2;
        } }
    {
        Gradient::new(t, v).row(&Weights::at(t, p))
    }

    /// The point.
    #[inline(always)]
    pub fn point(&self) -> Point
        ensures value { result ≡ self.now.p }
        ensures covered { Covers self.now.a self.now.b self.now.c result }
    {
        self.point
    }

    /// The value at the point: the mean of the vertices' values by their weights, rounded down, as `floor_at` gives it.
    /// It is at most the greatest of the vertices' values.
    #[inline(always)]
    pub fn value(&self) -> u16
        ensures value { IsValueAt self.now.a self.now.b self.now.c self.now.p self.now.u self.now.v self.now.w result }
        ensures at_most { (most : ℕ) → self.now.u ≤ most → self.now.v ≤ most → self.now.w ≤ most → result ≤ most }
        ensures covered { Covers self.now.a self.now.b self.now.c self.now.p }
    {
        self.value
    }

    /// The value at the point, as `value` returns it, if the vertices have at most 255.
    #[inline(always)]
    pub fn channel(&self) -> u8
        requires a { self.now.u ≤ 255 }
        requires b { self.now.v ≤ 255 }
        requires c { self.now.w ≤ 255 }
        ensures { IsValueAt self.now.a self.now.b self.now.c self.now.p self.now.u self.now.v self.now.w result }
    {
        self.value() as u8
    }

    /// Goes to the point a pixel to the right, which the triangle has to cover too.
    #[inline(always)]
    pub fn step(&mut self)
        requires { Covers self.old.a self.old.b self.old.c (right_of self.old.p) }
        ensures { self.new ≡ record {
          a = self.old.a;
          b = self.old.b;
          c = self.old.c;
          p = right_of self.old.p;
          u =
              self.old.u;
          v = self.old.v;
          w = self.old.w;
        } }
    {
        let value = i64::from(self.value) + self.step.quotient;
        let remainder = self.remainder + self.step.remainder;
        self.point = self.triangle.right_of(self.point);
        if remainder < self.step.area {
            self.value = value as u16;
            self.remainder = remainder;
        } else {
            self.value = (value + 1) as u16;
            self.remainder = remainder - self.step.area;
        }
    }
}
