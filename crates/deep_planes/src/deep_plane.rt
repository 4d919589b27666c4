ghost use Rattle.std.specs.Prelude.{ℕ, ◌≡◌, ◌<◌, ◌≤◌, ◌^◌, length, slice_index};
ghost use Rattle.grid.specs.Triangle.{Covers};
ghost use Rattle.gradients.specs.Group.{position_in, IsGroupOnScreen};
ghost use Rattle.deep_planes.specs.Depth.{IsDepthAt};
ghost use Rattle.deep_planes.specs.Group.{AreNearDepths, AreDeepDepths};
ghost use Rattle.deep_planes.specs.LanePlane.{IsPlaneOfTriangle};

use crate::candidates::{are_sure, lowered, rests, wholes};
use crate::depth::depth_at;
use crate::lane_plane::LanePlane;
use crate::plane::Plane;
use crate::slope::Slope;
use grid::{Point, Tri};
use std::marker::Model;
use std::simd::prelude::*;

/// The depths of a triangle with vertex depths of 32 bits, set up for sixteen samples at once. Contracts see the triangle
/// and its vertex depths.
#[derive(Debug, Drop)]
pub struct DeepPlane {
    triangle: Tri,
    z: [u32; 3],
    /// `None` if the depth changes too fast from pixel to pixel for a plane: then it is found one by one.
    plane: Option<LanePlane>,
}

impl Model for DeepPlane {
    ghost use Rattle.std.specs.Prelude.{slice_index};
    ghost use Rattle.shade.specs.Row.{Attribute};
    ghost use Rattle.deep_planes.specs.LanePlane.{IsMadeOf};

    ghost Value = { Attribute };

    ghost view = { λ d. record {
      a = d.triangle.a;
      b = d.triangle.b;
      c = d.triangle.c;
      u = slice_index d.z 0;
      v = slice_index d.z 1;
      w = slice_index d.z 2;
    } };

    ghost invariant = { λ d. IsMadeOf d.triangle.a d.triangle.b d.triangle.c d.z d.plane };
}

/// The sample of one lane of the group that starts at (x, y).
fn lane_point(x: i32, y: i32, lane: usize) -> Point
    requires screen { IsGroupOnScreen (record { x = x; y = y }) }
    requires lane { lane < 16 }
    ensures { result ≡ position_in (record { x = x; y = y }) lane }
{
    let column = (256 * (lane % 8)) as i32;
    let row = (256 * (lane / 8)) as i32;
    Point::new(x + column, y + row).unwrap()
}

/// The depth at a point if the triangle covers it, and else 0.
fn depth_if_covered(t: &Tri, z: [u32; 3], p: Point) -> u32
    ensures depth { Covers t.now.a t.now.b t.now.c p →
        IsDepthAt t.now.a t.now.b t.now.c p (slice_index z 0) (slice_index z 1) (slice_index z 2) result }
    ensures bits { result < 2 ^ 24 }
{
    if t.covers(p) { depth_at(t, p, z) } else { 0 }
}

/// The depths at the group of sixteen samples that starts at (x, y), one by one.
#[cold]
#[inline(never)]
fn one_by_one(t: &Tri, z: [u32; 3], x: i32, y: i32) -> u32x16
    requires { IsGroupOnScreen (record { x = x; y = y }) }
    ensures length { length result ≡ 16 }
    ensures bits { (i : ℕ) → i < 16 → slice_index result i < 2 ^ 24 }
    ensures depths { AreDeepDepths t.now.a t.now.b t.now.c z (record { x = x; y = y }) result }
{
    let mut depths = [0; 16];
    for lane in 0..16 {
        depths[lane] = depth_if_covered(t, z, lane_point(x, y, lane));
    }
    u32x16::from_array(depths)
}

/// The depths at the group of sixteen samples that starts at (x, y), from the depths or the numbers after them.
#[cold]
#[inline(never)]
fn corrected(t: &Tri, z: [u32; 3], x: i32, y: i32, found: u32x16) -> u32x16
    ensures length { length result ≡ 16 }
    ensures at_most { (i : ℕ) → i < 16 → slice_index result i ≤ slice_index found i }
    ensures depths { AreNearDepths t.now.a t.now.b t.now.c z (record { x = x; y = y }) found →
        AreDeepDepths t.now.a t.now.b t.now.c z (record { x = x; y = y }) result }
{
    let slope = Slope::of(t, z);
    let numerators = LanePlane::of(Plane::of_numerator(slope)).heights(x, y);
    lowered(found, rests(numerators, found, slope.area << 8))
}

/// The depths at the group of sixteen samples that starts at (x, y), by the triangle's plane.
#[inline(always)]
fn by_plane(t: &Tri, z: [u32; 3], plane: &LanePlane, x: i32, y: i32) -> u32x16
    requires screen { IsGroupOnScreen (record { x = x; y = y }) }
    requires plane { IsPlaneOfTriangle t.now.a t.now.b t.now.c z plane.now }
    ensures length { length result ≡ 16 }
    ensures bits { (i : ℕ) → i < 16 → slice_index result i < 2 ^ 24 }
    ensures depths { AreDeepDepths t.now.a t.now.b t.now.c z (record { x = x; y = y }) result }
{
    let heights = plane.heights(x, y);
    let found = wholes(heights);
    if are_sure(heights) {
        found
    } else {
        corrected(t, z, x, y, found)
    }
}

impl DeepPlane {
    /// Sets up the depths of a triangle that has the depths `z` at its vertices.
    pub fn new(t: &Tri, z: [u32; 3]) -> DeepPlane
        ensures { result ≡ record {
          a = t.now.a;
          b = t.now.b;
          c = t.now.c;
          u = slice_index z 0;
          v = slice_index z 1;
          w = slice_index z 2;
        } }
    {
        let slope = Slope::of(t, z);
        let plane = if slope.is_level() {
            Some(LanePlane::of(Plane::of_depth(slope)))
        } else {
            None
        };
        DeepPlane {
            triangle: *t,
            z,
            plane,
        }
    }

    /// The depths of 24 bits at sixteen samples, two rows of eight pixels, the first of which is at (x, y): right wherever
    /// the triangle covers the sample.
    #[inline(always)]
    pub fn values(&self, x: i32, y: i32) -> u32x16
        requires { IsGroupOnScreen (record { x = x; y = y }) }
        ensures length { length result ≡ 16 }
        ensures bits { (i : ℕ) → i < 16 → slice_index result i < 2 ^ 24 }
        ensures depths { (i : ℕ) → i < 16 →
            Covers self.now.a self.now.b self.now.c (position_in (record { x = x; y = y }) i) →
            IsDepthAt self.now.a self.now.b self.now.c (position_in (record { x = x; y = y }) i) self.now.u self.now.v
            self.now.w (slice_index result i) }
    {
        match &self.plane {
            Some(plane) => by_plane(&self.triangle, self.z, plane, x, y),
            None => one_by_one(&self.triangle, self.z, x, y),
        }
    }
}
