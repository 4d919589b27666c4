ghost use Rattle.std.specs.Prelude.{◌≡◌, ◌<◌, ℕ, IfSome, IsTrue, length, slice_index};
ghost use Rattle.std.specs.Int.RustNames.{unsigned_abs};
ghost use Rattle.grid.specs.Triangle.{doubled_area, Covers};
ghost use Rattle.shade.specs.declared.placed.Placed.{Placed as Triangle};
ghost use Rattle.shade.specs.Placed.{IsInterpolated};
ghost use Rattle.gradients.specs.Group.{position_in, IsGroupOnScreen};
ghost use Rattle.gradients.specs.AttributePlane.{IsDepthPlane};
ghost use Rattle.shade.specs.Row.{Are16Bit};
ghost use Rattle.gradients.specs.Slope.{IsSlope};
ghost use Rattle.gradients.specs.Plane.{IsLevel};

use crate::attribute_plane::AttributePlane;
use crate::corrections::Corrections;
use crate::reciprocal::Reciprocal;
use crate::slope::Slope;
use shade::Placed;
use std::simd::prelude::*;

/// The depth of a triangle, made ready for sixteen samples at once.
#[derive(Clone, Copy, Debug)]
pub struct DepthPlane {
    depth: AttributePlane,
}

impl DepthPlane {
    /// The depth of a triangle with this doubled area, from its slope if it is level. If `search` is set, whole depths
    /// are searched for.
    #[inline(always)]
    pub fn new(slope: &Slope, reciprocal: Reciprocal, search: bool) -> DepthPlane
        requires { IsLevel 48 reciprocal.area slope.now }
        ensures { (t : Triangle) → reciprocal.area ≡ unsigned_abs (doubled_area t.tri.a t.tri.b t.tri.c)
            → IsSlope t.tri.a t.tri.b t.tri.c (slice_index t.z 0) (slice_index t.z 1) (slice_index t.z 2) slope.now →
            Are16Bit (slice_index t.z 0) (slice_index t.z 1) (slice_index t.z 2) → IsDepthPlane t result }
    {
        DepthPlane {
            depth: AttributePlane::new(slope, reciprocal, 16, search),
        }
    }

    /// The plane of a depth that is used, and else a plane that nobody reads.
    #[inline(always)]
    pub fn of_used(used: bool, slope: &Slope, reciprocal: Reciprocal, search: bool) -> DepthPlane
        requires { IsLevel 48 reciprocal.area slope.now }
        ensures { (t : Triangle) → IsTrue used → reciprocal.area ≡ unsigned_abs (doubled_area t.tri.a t.tri.b t.tri.c)
            → IsSlope t.tri.a t.tri.b t.tri.c (slice_index t.z 0) (slice_index t.z 1) (slice_index t.z 2) slope.now →
            Are16Bit (slice_index t.z 0) (slice_index t.z 1) (slice_index t.z 2) → IsDepthPlane t result }
    {
        if used {
            DepthPlane::new(slope, reciprocal, search)
        } else {
            DepthPlane::none()
        }
    }

    /// A plane that nobody reads.
    #[inline(always)]
    pub fn none() -> DepthPlane {
        DepthPlane {
            depth: AttributePlane::none(),
        }
    }

    /// The depths of the triangle at sixteen samples, two rows of eight pixels, the first of which is at (x, y): right
    /// wherever it covers the sample.
    #[inline(always)]
    pub fn values(&self, placed: &Placed, x: i32, y: i32, corrections: &mut Corrections) -> u16x16
        requires { IsGroupOnScreen (record { x = x; y = y }) }
        ensures length { length result ≡ 16 }
        ensures values { (i : ℕ) → IsDepthPlane placed.now self.now → i < 16 → Covers placed.now.tri.a placed.now.tri.b placed.now.tri.c (position_in (record { x = x; y = y }) i)
            → IsInterpolated placed.now (position_in (record { x = x; y = y }) i) placed.now.z (slice_index result i) }
    {
        self.depth
            .values(&placed.tri, placed.z, 16, x, y, corrections)
    }
}
