ghost use Rattle.std.specs.Prelude.{ℕ, pos, ◌≡◌, ◌<◌, ◌*◌, ◌/◌, ◌%◌, ◌+ℤ◌, length, slice_index};

use crate::plane::Plane;
use std::simd::prelude::*;

/// A plane, set up for sixteen samples at once.
#[derive(Clone, Copy, Debug)]
pub(crate) struct LanePlane {
    pub(crate) plane: Plane,
    /// Its growth from a group's first sample to each of the sixteen.
    pub(crate) lanes: u64x16,
}

impl LanePlane {
    ghost use Rattle.deep_planes.specs.Plane.{IsHeightOf, AreIncrementsOf, IsLanePlane};

    /// The lanes of a plane.
    pub(crate) fn of(plane: Plane) -> LanePlane
        ensures { IsLanePlane plane result }
    {
        LanePlane {
            plane,
            lanes: plane.parts(),
        }
    }

    /// The heights at sixteen pixels, eight columns by two rows, the first of which is at (x, y), modulo 2^64.
    #[inline(always)]
    pub(crate) fn heights(&self, x: i32, y: i32) -> u64x16
        requires { AreIncrementsOf self.now.plane self.now.lanes }
        ensures length { length result ≡ 16 }
        ensures each { (i : ℕ) → i < 16 → IsHeightOf self.now.plane (x +ℤ pos (256 * (i % 8)))
            (y +ℤ pos (256 * (i / 8))) (slice_index result i) }
    {
        u64x16::splat(self.plane.height(x, y)) + self.lanes
    }
}
