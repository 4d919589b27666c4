ghost use Rattle.std.specs.Prelude.{◌≡◌, pos, slice_index};
ghost use Rattle.grid.specs.Triangle.{doubled_area};

use crate::row::Row;
use crate::step::Step;
use crate::weights::Weights;
use grid::Tri;
use std::marker::Model;

/// What the vertices of a triangle have, with its change from pixel to pixel, which is found once for all rows of the
/// triangle.
#[derive(Debug, Drop)]
pub struct Gradient {
    triangle: Tri,
    values: [u16; 3],
    step: Step,
}

impl Model for Gradient {
    ghost use Rattle.std.specs.Prelude.{slice_index};
    ghost use Rattle.shade.specs.Row.{Attribute, IsStep, Are16Bit};

    ghost Value = { Attribute };

    ghost view = { λ g. record {
      a = g.triangle.a;
      b = g.triangle.b;
      c = g.triangle.c;
      u = slice_index g.values 0;
      v = slice_index g.values 1;
      w =
          slice_index g.values 2;
    } };

    ghost invariant = { λ g. IsStep g.triangle.a g.triangle.b g.triangle.c (slice_index g.values 0)
        (slice_index g.values 1) (slice_index g.values 2) g.step ×
        Are16Bit (slice_index g.values 0) (slice_index g.values 1) (slice_index g.values 2) };
}

impl Gradient {
    /// What is `v` at the vertices of `t`, which has an area.
    pub fn new(t: &Tri, v: [u16; 3]) -> Gradient
        requires { ¬ (doubled_area t.now.a t.now.b t.now.c ≡ pos 0) }
        ensures { result ≡ record {
          a = t.now.a;
          b = t.now.b;
          c = t.now.c;
          u = slice_index v 0;
          v = slice_index v 1;
          w =
              slice_index v 2;
        } }
    {
        Gradient {
            triangle: *t,
            values: v,
            step: Step::of(t, v),
        }
    }

    /// The value at the point of these weights, which are of the same triangle.
    #[inline(always)]
    pub fn row(&self, weights: &Weights) -> Row
        requires a { weights.now.a ≡ self.now.a }
        requires b { weights.now.b ≡ self.now.b }
        requires c { weights.now.c ≡ self.now.c }
        ensures { result ≡ record {
          a = self.now.a;
          b = self.now.b;
          c = self.now.c;
          p = weights.now.p;
          u = self.now.u;
          v
              = self.now.v;
          w = self.now.w;
        } }
    {
        let (value, remainder) = weights.divided(self.values);
        Row {
            triangle: self.triangle,
            point: weights.point(),
            values: self.values,
            value,
            remainder,
            step: self.step,
        }
    }
}
