//! Arithmetic of sixteen lanes.
ghost use Rattle.std.specs.Prelude.{ℕ, ◌+◌, ◌-◌, ◌*◌, ◌/◌, ◌<◌, ◌≤◌, min, max, slice_index, pos, ◌+ℤ◌, ◌-ℤ◌};
ghost use Rattle.gradients.specs.Lanes.{HasLanes};
ghost use Rattle.lanes.specs.Operands.{AreByteLanes, AreTerms, AreNearest};

use std::simd::prelude::*;

/// The lesser of two lanes.
#[inline(always)]
pub(crate) fn least(a: u16x16, b: u16x16) -> u16x16
    ensures { HasLanes result (λ i. min (slice_index a i) (slice_index b i)) }
{
    a.simd_lt(b).select(a, b)
}

/// The greater of two lanes.
#[inline(always)]
pub(crate) fn greatest(a: u16x16, b: u16x16) -> u16x16
    ensures { HasLanes result (λ i. max (slice_index a i) (slice_index b i)) }
{
    a.simd_lt(b).select(b, a)
}

/// The sum of terms, which has to be a term.
#[inline(always)]
fn small_sum(a: u16x16, b: u16x16) -> u16x16
    requires { (i : ℕ) → i < 16 → slice_index a i + slice_index b i ≤ 65025 }
    ensures { HasLanes result (λ i. slice_index a i + slice_index b i) }
{
    a + b
}

/// The sum, but at most 65535.
#[inline(always)]
fn saturated_sum(a: u16x16, b: u16x16) -> u16x16
    ensures { HasLanes result (λ i. min 65535 (slice_index a i + slice_index b i)) }
{
    a + least(u16x16::splat(65535) - a, b)
}

/// The difference, but at least 0.
#[inline(always)]
fn saturated_difference(a: u16x16, b: u16x16) -> u16x16
    ensures { HasLanes result (λ i. slice_index a i - slice_index b i) }
{
    a - least(a, b)
}

/// The product of two bytes.
#[inline(always)]
pub(crate) fn product(a: u16x16, b: u16x16) -> u16x16
    requires { AreByteLanes a × AreByteLanes b }
    ensures value { HasLanes result (λ i. slice_index a i * slice_index b i) }
    ensures term { AreTerms result }
{
    a * b
}

/// What is left of one.
#[inline(always)]
pub(crate) fn inverse(a: u16x16) -> u16x16
    requires { AreByteLanes a }
    ensures { HasLanes result (λ i. 255 - slice_index a i) }
{
    u16x16::splat(255) - a
}

/// The quotient by 255.
#[inline(always)]
fn by_255(n: u16x16) -> u16x16
    ensures { HasLanes result (λ i. slice_index n i / 255) }
{
    n / u16x16::splat(255)
}

/// A term and 127, so that a division rounds to the nearest.
#[inline(always)]
fn with_half(a: u16x16) -> u16x16
    requires { AreTerms a }
    ensures { HasLanes result (λ i. slice_index a i + 127) }
{
    a + u16x16::splat(127)
}

/// The nearest bytes to terms divided by 255.
#[inline(always)]
fn nearest(a: u16x16) -> u16x16
    requires { AreTerms a }
    ensures { AreNearest (λ i. pos (slice_index a i)) result }
{
    by_255(with_half(a))
}

/// The nearest bytes to two terms' sum divided by 255. From 255 * 255 on all sums give 255, so a sum may saturate.
#[inline(always)]
pub(crate) fn nearest_sum(a: u16x16, b: u16x16) -> u16x16
    ensures { AreNearest (λ i. pos (slice_index a i) +ℤ pos (slice_index b i)) result }
{
    nearest(least(saturated_sum(a, b), u16x16::splat(65025)))
}

/// The nearest bytes to two terms' sum divided by 255, where the sum is at most 255 * 255.
#[inline(always)]
pub(crate) fn nearest_small_sum(a: u16x16, b: u16x16) -> u16x16
    requires { (i : ℕ) → i < 16 → slice_index a i + slice_index b i ≤ 65025 }
    ensures { AreNearest (λ i. pos (slice_index a i) +ℤ pos (slice_index b i)) result }
{
    nearest(small_sum(a, b))
}

/// The nearest bytes to two terms' difference divided by 255.
#[inline(always)]
pub(crate) fn nearest_difference(a: u16x16, b: u16x16) -> u16x16
    requires { AreTerms a }
    ensures { AreNearest (λ i. pos (slice_index a i) -ℤ pos (slice_index b i)) result }
{
    by_255(saturated_difference(with_half(a), b))
}

/// The nearest bytes to the sum of a byte and a term divided by 255: the byte as a term is a multiple of 255, so it is
/// added after the division.
#[inline(always)]
pub(crate) fn nearest_with_whole(whole: u16x16, term: u16x16) -> u16x16
    requires { AreByteLanes whole × AreTerms term }
    ensures { AreNearest (λ i. pos (255 * slice_index whole i) +ℤ pos (slice_index term i)) result }
{
    least(whole + by_255(with_half(term)), u16x16::splat(255))
}
