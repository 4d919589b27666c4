//! Exact values at sixteen samples. An attribute at a covered point is N / S rounded down, where N grows evenly with x
//! and y and S is the absolute doubled area. It is computed without a division at each point:
//!
//! - Bound. A plane is N / S in fixed point, modulo 2^64, and a little above it. A candidate, the sum of the high
//! halves of the
//!   plane's height at a group's first sample and of its growth from there, is at least N / S and at most three units of its last
//!   bit above it (`IsCandidate`).
//! - Certificate. So its integer part is the value or the number after it (`IsNear`). It is the value if its fraction
//! is at
//!   least three units.
//! - Correction. If it is less, the sign of N - m S says which of the two m is.
//! - Whole values. If values are multiples of a unit that is not too small and the plane is three units higher, the
//! fraction is never
//!   less (`whole_values`).
ghost use Rattle.std.specs.Prelude.{ℕ, ◌≡◌, ◌⊎◌, ◌+◌, ◌<◌, ◌≤◌, ◌^◌, IfSome, IsTrue, List, length, slice_index};
ghost use Rattle.std.specs.Int.RustNames.{unsigned_abs};
ghost use Rattle.grid.specs.Position.{Position};
ghost use Rattle.grid.specs.Triangle.{doubled_area, Covers};
ghost use Rattle.std.specs.Simd.Lanes.{Each1};
ghost use Rattle.gradients.specs.Group.{IsGroupOnScreen};
ghost use Rattle.gradients.specs.Slope.{IsSlope};
ghost use Rattle.gradients.specs.Plane.{IsLevel};

use crate::candidates::{are_sure, candidates, fractions, wholes};
use crate::correction::corrected;
use crate::corrections::Corrections;
use crate::plane::Plane;
use crate::reciprocal::Reciprocal;
use crate::slope::Slope;
use grid::Tri;
use std::simd::prelude::*;

/// One attribute of a triangle, made ready for sixteen samples at once.
#[derive(Clone, Copy, Debug)]
pub(crate) struct AttributePlane {
    /// The attribute in fixed point.
    plane: Plane,
    /// The high halves of its growth from a group's first sample to each of the sixteen.
    lanes: u32x16,
    pub ghost long: { length lanes ≡ 16 },
}

impl AttributePlane {
    ghost use Rattle.gradients.specs.AttributePlane.{IsNarrow, IsAttributePlane, AreLaneCandidates, AreValues};

    /// The plane of a slope that is level. Its candidates have `fraction` fractional bits: 16 for depth and 24 for a
    /// channel. If `search` is set, whole values are searched for.
    #[inline(always)]
    pub(crate) fn new(
        slope: &Slope,
        reciprocal: Reciprocal,
        fraction: u32,
        search: bool,
    ) -> AttributePlane
        requires fraction { (fraction ≡ 16) ⊎ (fraction ≡ 24) }
        requires level { IsLevel (32 + fraction) reciprocal.area slope.now }
        ensures { (a b c : Position) (values : List ℕ) → reciprocal.area ≡ unsigned_abs (doubled_area a b c) → IsNarrow fraction values
            → IsSlope a b c (slice_index values 0) (slice_index values 1) (slice_index values 2) slope.now →
            IsAttributePlane fraction a b c values result }
    {
        let plane = Plane::of_candidates(*slope, reciprocal, fraction, search);
        AttributePlane {
            plane,
            lanes: plane.lanes(),
        }
    }

    /// A plane that nobody reads.
    #[inline(always)]
    pub(crate) fn none() -> AttributePlane {
        AttributePlane {
            plane: Plane::none(),
            lanes: u32x16::splat(0),
        }
    }

    /// The candidates at the group of sixteen samples that starts at (x, y).
    #[inline(always)]
    pub(crate) fn candidates(&self, x: i32, y: i32) -> u32x16
        requires { IsGroupOnScreen (record { x = x; y = y }) }
        ensures length { length result ≡ 16 }
        ensures each { (k : ℕ) (a b c : Position) (values : List ℕ) → IsAttributePlane k a b c values self.now →
            AreLaneCandidates k a b c values (record { x = x; y = y }) result }
    {
        candidates(self.lanes, self.plane.height(x, y))
    }

    /// The candidates at a group of an attribute that is read, and else candidates that are no reason to correct anything.
    #[inline(always)]
    pub(crate) fn candidates_if(&self, read: bool, x: i32, y: i32) -> u32x16
        requires { IsGroupOnScreen (record { x = x; y = y }) }
        ensures length { length result ≡ 16 }
        ensures each { (k : ℕ) (a b c : Position) (values : List ℕ) → IsTrue read →
            IsAttributePlane k a b c values self.now →
            AreLaneCandidates k a b c values (record { x = x; y = y }) result }
    {
        if read {
            self.candidates(x, y)
        } else {
            u32x16::splat(u32::MAX)
        }
    }

    /// The values at the group of sixteen samples that starts at (x, y) of what is `values` at the vertices of `t`,
    /// which the plane was made of.
    #[inline(always)]
    pub(crate) fn values(
        &self,
        t: &Tri,
        values: [u16; 3],
        fraction: u32,
        x: i32,
        y: i32,
        corrections: &mut Corrections,
    ) -> u16x16
        requires screen { IsGroupOnScreen (record { x = x; y = y }) }
        requires fraction { (fraction ≡ 16) ⊎ (fraction ≡ 24) }
        ensures length { length result ≡ 16 }
        ensures each { IsAttributePlane fraction t.now.a t.now.b t.now.c values self.now →
            AreValues t.now.a t.now.b t.now.c values (record { x = x; y = y }) result }
        ensures bytes { fraction ≡ 24 → Each1 (λ n. n ≤ 255) result }
    {
        let candidates = self.candidates(x, y);
        let found = wholes(candidates, fraction);
        if are_sure(fractions(candidates, (1 << fraction) - 1)) {
            found
        } else {
            corrections.add();
            corrected(t, values, x, y, found)
        }
    }
}
