//! Which of the two numbers near a value is the value.
ghost use Rattle.std.specs.Prelude.{ℕ, ◌≡◌, ◌<◌, ◌≤◌, ◌^◌, length, slice_index};
ghost use Rattle.std.specs.Int.RustNames.{unsigned_abs};
ghost use Rattle.grid.specs.Triangle.{doubled_area};
ghost use Rattle.gradients.specs.AttributePlane.{AreNear, AreValues};
ghost use Rattle.gradients.specs.AttributePlane.{AreNear, AreValues};

use crate::candidates::{lowered, rests};
use crate::plane::Plane;
use crate::slope::Slope;
use grid::Tri;
use std::simd::prelude::*;

/// The absolute doubled area of a triangle.
fn area_of(t: &Tri) -> u64
    ensures value { result ≡ unsigned_abs (doubled_area t.now.a t.now.b t.now.c) }
    ensures size { result ≤ 2 ^ 48 }
{
    t.area2().unsigned_abs()
}

/// The values at the group of sixteen samples that starts at (x, y) of what is `values` at the vertices of `t`, from
/// the values or the numbers after them.
#[cold]
#[inline(never)]
pub(crate) fn corrected(t: &Tri, values: [u16; 3], x: i32, y: i32, found: u16x16) -> u16x16
    ensures length { length result ≡ 16 }
    ensures each { AreNear t.now.a t.now.b t.now.c values (record { x = x; y = y }) found →
        AreValues t.now.a t.now.b t.now.c values (record { x = x; y = y }) result }
    ensures at_most { (i : ℕ) → i < 16 → slice_index result i ≤ slice_index found i }
{
    let area = area_of(t);
    let numerator = Plane::of_numerator(Slope::of(t, values), area);
    lowered(found, rests(numerator.heights(x, y), found, area))
}
