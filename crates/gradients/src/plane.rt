ghost use Rattle.std.specs.Prelude.{ℕ, ℤ, pos, ◌≡◌, ◌⊎◌, ◌≤◌, ◌<◌, ◌+◌, ◌*◌, ◌-◌, ◌/◌, ◌%◌, ◌^◌, ◌+ℤ◌, ◌*ℤ◌, ◌-ℤ◌, IsTrue, length, slice_index};
ghost use Rattle.gradients.specs.Modulo.{IsModulo};

use crate::reciprocal::{Gradient, Reciprocal};
use crate::slope::Slope;
use std::simd::prelude::*;

/// An attribute in fixed point, modulo 2^64, as a plane over x and y.
#[derive(Clone, Copy, Debug)]
pub(crate) struct Plane {
    start: u64,
    across: i64,
    down: i64,
}

/// How far a plane lies above its attribute: two units of the high half, so that no error takes it under the attribute,
/// and a sixteenth for the gradients' errors.
const ABOVE: u64 = (2 << 32) + (1 << 28);

/// How far a plane lies above its attribute if its gradients have no error: three units, so that a candidate of an integer
/// value is sure.
const ABOVE_EXACT: u64 = 3 << 32;

/// How much higher a plane of whole values is: three units of the high half.
const RAISE: u64 = 3 << 32;

/// A coordinate times a gradient, modulo 2^64.
#[inline(always)]
fn scaled(distance: i32, gradient: i64) -> u64
    ensures { IsModulo (distance *ℤ gradient) result }
{
    i64::from(distance)
        .cast_unsigned()
        .wrapping_mul(gradient.cast_unsigned())
}

/// How far a plane with these gradients lies above its attribute.
#[inline(always)]
fn margin(across: Gradient, down: Gradient) -> u64
    ensures { (result ≡ 2 ^ 33 + 2 ^ 28) ⊎ ((result ≡ 3 * 2 ^ 32) × IsTrue across.is_exact × IsTrue down.is_exact) }
{
    if across.is_exact && down.is_exact {
        ABOVE_EXACT
    } else {
        ABOVE
    }
}

impl Plane {
    ghost use Rattle.gradients.specs.Plane.{IsLevel, IsPlane, IsHigher, IsCandidatePlane, IsNumeratorPlane, IsIncrement, IsHeight, IsHighPart};

    /// The plane of a slope that is not steep, with `bits` fractional bits.
    #[inline(always)]
    pub(crate) fn new(slope: Slope, reciprocal: Reciprocal, bits: u32) -> Plane
        requires low { 48 ≤ bits }
        requires high { bits ≤ 56 }
        requires level { IsLevel bits reciprocal.area slope }
        ensures { IsPlane bits reciprocal.area slope result }
    {
        let across = reciprocal.gradient(slope.across, bits);
        let down = reciprocal.gradient(slope.down, bits);
        let start = (u64::from(slope.first) << bits)
            .wrapping_sub(scaled(slope.x, across.value))
            .wrapping_sub(scaled(slope.y, down.value))
            .wrapping_add(margin(across, down));
        Plane {
            start,
            across: across.value,
            down: down.value,
        }
    }

    /// The plane, three units of the high half higher.
    #[inline(always)]
    fn raised(self) -> Plane
        ensures { IsHigher self result }
    {
        Plane {
            start: self.start.wrapping_add(RAISE),
            across: self.across,
            down: self.down,
        }
    }

    /// The plane of a slope that is not steep, for candidates with `fraction` fractional bits: three units higher if it
    /// is found that the slope's values are whole.
    #[inline(always)]
    pub(crate) fn of_candidates(
        slope: Slope,
        reciprocal: Reciprocal,
        fraction: u32,
        search: bool,
    ) -> Plane
        requires fraction { (fraction ≡ 16) ⊎ (fraction ≡ 24) }
        requires level { IsLevel (32 + fraction) reciprocal.area slope }
        ensures { IsCandidatePlane fraction reciprocal.area slope result }
    {
        let plane = Plane::new(slope, reciprocal, 32 + fraction);
        if slope.is_whole(reciprocal, fraction, search) {
            plane.raised()
        } else {
            plane
        }
    }

    /// A plane that nobody reads.
    #[inline(always)]
    pub(crate) fn none() -> Plane {
        Plane {
            start: 0,
            across: 0,
            down: 0,
        }
    }

    /// The numerator of a slope as a plane.
    pub(crate) fn of_numerator(slope: Slope, area: u64) -> Plane
        ensures { IsNumeratorPlane area slope result }
    {
        let start = u64::from(slope.first)
            .wrapping_mul(area)
            .wrapping_sub(scaled(slope.x, slope.across))
            .wrapping_sub(scaled(slope.y, slope.down));
        Plane {
            start,
            across: slope.across,
            down: slope.down,
        }
    }

    /// The growth over a distance, modulo 2^64.
    #[inline(always)]
    pub(crate) fn part(&self, x: i32, y: i32) -> u64
        ensures { IsIncrement self.now x y result }
    {
        scaled(x, self.across).wrapping_add(scaled(y, self.down))
    }

    /// The height at a point, modulo 2^64.
    #[inline(always)]
    pub(crate) fn height(&self, x: i32, y: i32) -> u64
        ensures { IsHeight self.now x y result }
    {
        self.start.wrapping_add(self.part(x, y))
    }

    /// The growth to each of sixteen pixels, eight columns by two rows, modulo 2^64. It is a sum of lanes that have few
    /// different numbers, so that few of them are formed one by one.
    #[inline(always)]
    fn parts(&self) -> u64x16
        ensures length { length result ≡ 16 }
        ensures each { (i : ℕ) → i < 16 → IsIncrement self.now (pos (256 * (i % 8))) (pos (256 * (i / 8)))
            (slice_index result i) }
    {
        let (one, two, three) = (
            scaled(256, self.across),
            scaled(512, self.across),
            scaled(768, self.across),
        );
        let (four, below) = (scaled(1024, self.across), scaled(256, self.down));
        let columns = u64x16::from_array([
            0, one, two, three, 0, one, two, three, 0, one, two, three, 0, one, two, three,
        ]);
        let fours = u64x16::from_array([
            0, 0, 0, 0, four, four, four, four, 0, 0, 0, 0, four, four, four, four,
        ]);
        let rows = u64x16::from_array([
            0, 0, 0, 0, 0, 0, 0, 0, below, below, below, below, below, below, below, below,
        ]);
        columns + fours + rows
    }

    /// The high halves of the growth to each of sixteen pixels, eight columns by two rows.
    #[inline(always)]
    pub(crate) fn lanes(&self) -> u32x16
        ensures length { length result ≡ 16 }
        ensures each { (i : ℕ) → i < 16 → IsHighPart self.now (pos (256 * (i % 8))) (pos (256 * (i / 8)))
            (slice_index result i) }
    {
        (self.parts() >> 32).cast::<u32>()
    }

    /// The heights at sixteen pixels, eight columns by two rows, the first of which is at (x, y), modulo 2^64.
    #[inline(always)]
    pub(crate) fn heights(&self, x: i32, y: i32) -> u64x16
        ensures length { length result ≡ 16 }
        ensures each { (i : ℕ) → i < 16 → IsHeight self.now (x +ℤ pos (256 * (i % 8))) (y +ℤ pos (256 * (i / 8)))
            (slice_index result i) }
    {
        u64x16::splat(self.height(x, y)) + self.parts()
    }
}
