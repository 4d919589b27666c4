ghost use Rattle.std.specs.Prelude.{ℕ, pos, ◌≡◌, ◌<◌, ◌*◌, ◌/◌, ◌%◌, ◌+ℤ◌, ◌*ℤ◌, length, slice_index};
ghost use Rattle.gradients.specs.Modulo.{IsModulo};

use crate::gradient::gradient;
use crate::slope::Slope;
use std::simd::prelude::*;

/// A depth in fixed point, or its numerator, modulo 2^64, as a plane over x and y.
#[derive(Clone, Copy, Debug)]
pub(crate) struct Plane {
    pub(crate) start: u64,
    pub(crate) across: i64,
    pub(crate) down: i64,
}

/// How far a plane lies above its depth, in units of 2^-32. The errors of the gradients are less, so no error takes it
/// under the depth.
const ABOVE: u64 = 1 << 26;

/// A coordinate times a gradient, modulo 2^64.
#[inline(always)]
fn scaled(distance: i32, gradient: i64) -> u64
    ensures { IsModulo (distance *ℤ gradient) result }
{
    i64::from(distance)
        .cast_unsigned()
        .wrapping_mul(gradient.cast_unsigned())
}

impl Plane {
    ghost use Rattle.deep_planes.specs.Slope.{IsLevelDepth};
    ghost use Rattle.deep_planes.specs.Plane.{IsPlaneOfDepth, IsPlaneOfNumerator, IsIncrementOf, IsHeightOf};

    /// The plane of a depth that is not steep, with 32 fractional bits.
    pub(crate) fn of_depth(slope: Slope) -> Plane
        requires { IsLevelDepth slope }
        ensures { IsPlaneOfDepth slope result }
    {
        let across = gradient(slope.across, slope.area);
        let down = gradient(slope.down, slope.area);
        let start = (u64::from(slope.first) << 32)
            .wrapping_sub(scaled(slope.x, across))
            .wrapping_sub(scaled(slope.y, down))
            .wrapping_add(ABOVE);
        Plane {
            start,
            across,
            down,
        }
    }

    /// The numerator of a slope as a plane.
    pub(crate) fn of_numerator(slope: Slope) -> Plane
        ensures { IsPlaneOfNumerator slope result }
    {
        let start = u64::from(slope.first)
            .wrapping_mul(slope.area)
            .wrapping_sub(scaled(slope.x, slope.across))
            .wrapping_sub(scaled(slope.y, slope.down));
        Plane {
            start,
            across: slope.across,
            down: slope.down,
        }
    }

    /// The growth over a distance, modulo 2^64.
    #[inline(always)]
    fn part(&self, x: i32, y: i32) -> u64
        ensures { IsIncrementOf self.now x y result }
    {
        scaled(x, self.across).wrapping_add(scaled(y, self.down))
    }

    /// The height at a point, modulo 2^64.
    #[inline(always)]
    pub(crate) fn height(&self, x: i32, y: i32) -> u64
        ensures { IsHeightOf self.now x y result }
    {
        self.start.wrapping_add(self.part(x, y))
    }

    /// The growth to each of sixteen pixels, eight columns by two rows, modulo 2^64. It is a sum of lanes that have few
    /// different numbers, so that few of them are formed one by one.
    #[inline(always)]
    pub(crate) fn parts(&self) -> u64x16
        ensures length { length result ≡ 16 }
        ensures each { (i : ℕ) → i < 16 → IsIncrementOf self.now (pos (256 * (i % 8))) (pos (256 * (i / 8)))
            (slice_index result i) }
    {
        let (one, two, three) = (
            scaled(256, self.across),
            scaled(512, self.across),
            scaled(768, self.across),
        );
        let (four, below) = (scaled(1024, self.across), scaled(256, self.down));
        let columns = u64x16::from_array([
            0, one, two, three, 0, one, two, three, 0, one, two, three, 0, one, two, three,
        ]);
        let fours = u64x16::from_array([
            0, 0, 0, 0, four, four, four, four, 0, 0, 0, 0, four, four, four, four,
        ]);
        let rows = u64x16::from_array([
            0, 0, 0, 0, 0, 0, 0, 0, below, below, below, below, below, below, below, below,
        ]);
        columns + fours + rows
    }
}
