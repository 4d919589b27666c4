//! Whole values. If a unit divides the doubled area and the numerator at each sample, a value that is no whole number
//! lies at least the unit by the area below the next one. If that is more than six units of a candidate's last bit, a
//! plane that is three units higher has every value as the integer part of its candidate, and each fraction is at least
//! three units: nothing is corrected.
ghost use Rattle.std.specs.Prelude.{ℕ, ◌≡◌, ◌⊎◌, ◌<◌, ◌≤◌, ◌+◌, ◌*◌, ◌^◌, IfSome, IsTrue};
ghost use Rattle.std.specs.Int.{◌∣◌};
ghost use Rattle.std.specs.Int.RustNames.{unsigned_abs};
ghost use Rattle.grid.specs.Bounds.{IsWithin};
ghost use Rattle.gradients.specs.Slope.{IsBounded};
ghost use Rattle.gradients.specs.Whole.{IsCommonDivisor, IsPast, IsWholeSlope};

use crate::reciprocal::Reciprocal;
use crate::slope::Slope;

/// A common divisor of two numbers that is at least `least`, by Euclid's algorithm, which stops if it comes to less.
fn divisor_of_two(a: u64, b: u64, least: u64) -> Option<u64>
    ensures least { IfSome result (λ g. least ≤ g) }
    ensures first { IfSome result (λ g. g ∣ a) }
    ensures second { IfSome result (λ g. g ∣ b) }
{
    let (mut divisor, mut rest) = (a, b);
    while rest != 0 {
        if rest < least {
            return None;
        }
        let next = divisor % rest;
        divisor = rest;
        rest = next;
    }
    if divisor < least {
        return None;
    }
    Some(divisor)
}

/// A common divisor of an area and of three numbers that is at least `least`, if it is found.
#[cold]
#[inline(never)]
fn common_divisor(area: u64, across: u64, down: u64, corner: u64, least: u64) -> Option<u64>
    requires { 0 < least }
    ensures least { IfSome result (λ g. least ≤ g) }
    ensures divides { IfSome result (λ g. IsCommonDivisor area across down corner g) }
{
    let divisor = divisor_of_two(area, across, least)?;
    let divisor = divisor_of_two(divisor, down, least)?;
    divisor_of_two(divisor, corner, least)
}

/// The least unit that by the area is more than six units of the last of `fraction` fractional bits of a value.
fn least_unit(area: u64, fraction: u32) -> u64
    requires area { area ≤ 2 ^ 48 }
    requires fraction { (fraction ≡ 16) ⊎ (fraction ≡ 24) }
    ensures some { 0 < result }
    ensures few { (g : ℕ) → result ≤ g → 6 * area < g * 2 ^ fraction }
{
    ((6 * area) >> fraction) + 1
}

/// Whether 2^bits divides a number.
#[inline(always)]
fn is_multiple(number: u64, bits: u32) -> bool
    requires { bits < 64 }
    ensures { IsTrue result → (2 ^ bits) ∣ number }
{
    (number >> bits) << bits == number
}

/// A unit that divides the area and three numbers and by the area is more than six units of the last of `fraction`
/// fractional bits: a power of two, or, if `search` is set, another.
#[inline(always)]
fn large_unit(
    reciprocal: Reciprocal,
    across: u64,
    down: u64,
    corner: u64,
    fraction: u32,
    search: bool,
) -> Option<u64>
    requires { (fraction ≡ 16) ⊎ (fraction ≡ 24) }
    ensures few { IfSome result (λ g. 6 * reciprocal.area < g * 2 ^ fraction) }
    ensures divides { IfSome result (λ g. IsCommonDivisor reciprocal.area across down corner g) }
{
    let bits = reciprocal.unit_bits(fraction);
    if is_multiple(across, bits)
        && is_multiple(down, bits)
        && is_multiple(corner, bits)
        && is_multiple(reciprocal.area, bits)
    {
        return Some(1 << bits);
    }
    if !search {
        return None;
    }
    let least = least_unit(reciprocal.area, fraction);
    common_divisor(reciprocal.area, across, down, corner, least)
}

/// The distance of a coordinate from the last multiple of a sixteenth of a pixel, times a growth.
#[inline(always)]
fn past_sixteenth(z: i32, growth: i64) -> i64
    requires { unsigned_abs growth < 2 ^ 41 }
    ensures value { IsPast z growth result }
    ensures size { IsWithin (2 ^ 46) result }
{
    i64::from(z.rem_euclid(16)) * growth
}

impl Slope {
    /// Whether it is found that the area and the numerator at each sample are multiples of a unit that is large enough
    /// for a plane three units higher, for candidates with `fraction` fractional bits. Powers of two are always tried,
    /// and other units if `search` is set.
    #[inline(always)]
    pub(crate) fn is_whole(&self, reciprocal: Reciprocal, fraction: u32, search: bool) -> bool
        requires bounded { IsBounded self.now }
        requires fraction { (fraction ≡ 16) ⊎ (fraction ≡ 24) }
        ensures { IsTrue result → IsWholeSlope fraction reciprocal.area self.now }
    {
        let bits = reciprocal.unit_bits(fraction);
        if bits == 0 {
            return true;
        }
        if !search && !is_multiple(reciprocal.area, bits) {
            return false;
        }
        let corner = past_sixteenth(self.x, self.across) + past_sixteenth(self.y, self.down);
        large_unit(
            reciprocal,
            16 * self.across.unsigned_abs(),
            16 * self.down.unsigned_abs(),
            corner.unsigned_abs(),
            fraction,
            search,
        )
        .is_some()
    }
}
