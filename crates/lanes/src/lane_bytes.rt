//! Lanes of bytes, and the same in 16 bits.
ghost use Rattle.std.specs.Prelude.{◌≡◌, ◌≤◌};
ghost use Rattle.std.specs.Simd.Lanes.{Each1};

use std::simd::prelude::*;

/// Bytes in lanes of 16 bits.
#[inline(always)]
pub(crate) fn widen(v: u8x16) -> u16x16
    ensures { result ≡ v }
{
    v.cast::<u16>()
}

/// Lanes of at most 255 as bytes.
#[inline(always)]
pub(crate) fn narrow(v: u16x16) -> u8x16
    requires { Each1 (λ n. n ≤ 255) v }
    ensures { result ≡ v }
{
    v.cast::<u8>()
}

/// The bytes of eight pixels in lanes of 16 bits.
#[inline(always)]
pub(crate) fn widen_row(v: u8x8) -> u16x8
    ensures { result ≡ v }
{
    v.cast::<u16>()
}

/// Lanes of eight pixels, of at most 255, as bytes.
#[inline(always)]
pub(crate) fn narrow_row(v: u16x8) -> u8x8
    requires { Each1 (λ n. n ≤ 255) v }
    ensures { result ≡ v }
{
    v.cast::<u8>()
}
