//! The edges of a triangle and of a quad.
ghost use Rattle.std.specs.Prelude.{◌≡◌, ◌≢◌, ◌↔◌, ℕ, ◌^◌, ◌<◌, pos, ◌≤◌, IsTrue};
ghost use Rattle.grid.specs.Samples.{IsPart};
ghost use Rattle.grid.specs.Triangle.{doubled_area};

use crate::edge::Edge;
use crate::masks::Masks;
use grid::{SampleCount, Tri};

/// The edges of a triangle.
#[derive(Drop)]
pub(crate) struct Edges {
    pub(crate) ab: Edge,
    pub(crate) bc: Edge,
    pub(crate) ca: Edge,
}

/// What the three functions are at one position.
#[derive(Clone, Copy, Drop)]
pub(crate) struct Values {
    pub(crate) ab: i64,
    pub(crate) bc: i64,
    pub(crate) ca: i64,
}

impl Edges {
    ghost use Rattle.cover.specs.Block.{IsMaskSide};
    ghost use Rattle.cover.specs.Edges.{AreValuesAt, AreScreenBounded, AreGrown, IsInsideAfter};
    ghost use Rattle.cover.specs.Masks.{AreMasksWhere, to_column, to_row};
    ghost use Rattle.cover.specs.Setup.{AreCoverageEdges};

    /// The edges of a triangle whose area is not zero, each turned so that its edge function is positive inside the
    /// triangle.
    #[inline(always)]
    pub(crate) fn of(t: &Tri) -> Edges
        requires { doubled_area t.now.a t.now.b t.now.c ≢ pos 0 }
        ensures { AreCoverageEdges t.now result }
    {
        if t.area2() > 0 {
            Edges {
                ab: Edge::new(t.a, t.b),
                bc: Edge::new(t.b, t.c),
                ca: Edge::new(t.c, t.a),
            }
        } else {
            Edges {
                ab: Edge::new(t.b, t.a),
                bc: Edge::new(t.c, t.b),
                ca: Edge::new(t.a, t.c),
            }
        }
    }

    /// The three functions at a position of the screen.
    pub(crate) fn on_screen(&self, x: u32, y: u32) -> Values
        requires x { x < 2 ^ 20 }
        requires y { y < 2 ^ 20 }
        ensures { AreValuesAt self.now (record { x = pos x; y = pos y }) result }
    {
        Values {
            ab: self.ab.on_screen(x, y),
            bc: self.bc.on_screen(x, y),
            ca: self.ca.on_screen(x, y),
        }
    }

    /// The three functions `right` to the right of and `down` below a position where they are `at`, in 1/256 pixel.
    #[inline(always)]
    pub(crate) fn further(&self, at: &Values, right: u32, down: u32) -> Values
        requires at { AreScreenBounded at.now }
        requires right { right < 2 ^ 15 }
        requires down { down < 2 ^ 15 }
        ensures { AreGrown self.now at.now right down result }
    {
        Values {
            ab: self.ab.further(at.ab, right, down),
            bc: self.bc.further(at.bc, right, down),
            ca: self.ca.further(at.ca, right, down),
        }
    }

    /// Whether none of the functions is negative within `reach` to the right and down.
    pub(crate) fn pass_everywhere(&self, at: &Values, reach: u32) -> bool
        requires at { AreScreenBounded at.now }
        requires reach { reach < 2 ^ 15 }
        ensures { IsTrue result ↔ ((m n : ℕ) → m ≤ reach → n ≤ reach → IsInsideAfter self.now at.now m n) }
    {
        self.ab.passes_all(at.ab, reach)
            && self.bc.passes_all(at.bc, reach)
            && self.ca.passes_all(at.ca, reach)
    }

    /// Whether one of the functions is negative all over that box.
    pub(crate) fn pass_nowhere(&self, at: &Values, reach: u32) -> bool
        requires at { AreScreenBounded at.now }
        requires reach { reach < 2 ^ 15 }
        ensures { IsTrue result → (m n : ℕ) → m ≤ reach → n ≤ reach → ¬ IsInsideAfter self.now at.now m n }
    {
        self.ab.passes_none(at.ab, reach)
            || self.bc.passes_none(at.bc, reach)
            || self.ca.passes_none(at.ca, reach)
    }

    /// The samples of a square of `SIDE` by `SIDE` pixels, from sample `from` of a pixel on, at which none of the
    /// functions is negative. They are `at` at the first position of the box round the square's samples. Each `N` has
    /// code of its own, which is large, and so is in line only where it is called from one place.
    #[inline(always)]
    pub(crate) fn masks<const N: u32, const SIDE: u32>(
        &self,
        at: &Values,
        from: u32,
        count: SampleCount,
    ) -> Masks
        requires side { IsMaskSide SIDE }
        requires at { AreScreenBounded at.now }
        requires part { IsPart count from }
        ensures { AreMasksWhere SIDE (λ s row column. IsInsideAfter self.now at.now (to_column count s column)
            (to_row count s row)) count from result }
    {
        self.ab
            .masks::<SIDE>(at.ab, from, count)
            .both(self.bc.masks::<SIDE>(at.bc, from, count))
            .both(self.ca.masks::<SIDE>(at.ca, from, count))
    }
}
