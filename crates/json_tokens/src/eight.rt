ghost use Rattle.std.specs.Prelude.{◌≡◌, ℕ, List, ◌+◌, ◌≤◌, ◌<◌, length, take, map, not};
ghost use Rattle.std.specs.List.{prefix_len};
ghost use Rattle.std.specs.Int.Digits.{number_from_digits};
ghost use Rattle.std.specs.Simd.Lanes.{chunk};
ghost use Rattle.json_tokens.specs.Eight.{IsEight, BeginsWithDigits, offset, is_other};

use std::simd::prelude::*;

/// Eight bytes less the byte `0` of ASCII.
#[inline(always)]
pub(crate) fn offsets_at(bytes: &[u8], from: usize) -> u8x8
    requires { from + 8 ≤ length bytes.now }
    ensures { result ≡ map offset (chunk from 8 bytes.now) }
{
    u8x8::from_slice(&bytes[from..]) - u8x8::splat(b'0')
}

/// How many digits come before the first byte that is none.
#[inline(always)]
pub(crate) fn digit_count(offsets: u8x8) -> usize
    requires { length offsets ≡ 8 }
    ensures { result ≡ prefix_len (λ d. not (is_other d)) offsets }
{
    let others = offsets.simd_ge(u8x8::splat(10)).to_bitmask();
    if others == 0 {
        8
    } else {
        others.trailing_zeros() as usize
    }
}

/// The number that eight digits write, the first in the lowest byte.
#[inline(always)]
fn eight(word: u64) -> u64
    requires { (ds : List ℕ) × IsEight word ds }
    ensures { (ds : List ℕ) → IsEight word ds → result ≡ number_from_digits 10 ds }
{
    let pairs = word * 10 + word / 256;
    pairs % 256 * 1_000_000
        + pairs / 65_536 % 256 * 10_000
        + pairs / 4_294_967_296 % 256 * 100
        + pairs / 281_474_976_710_656 % 256
}

/// The number that the first `count` bytes write, as digits less the byte `0` of ASCII.
#[inline(always)]
pub(crate) fn number(offsets: u8x8, count: usize) -> u64
    requires { BeginsWithDigits offsets count }
    ensures value { result ≡ number_from_digits 10 (take count offsets) }
    ensures below { result < 100_000_000 }
{
    let word = u64x1::from_le_bytes(offsets)[0];
    eight(word << (64 - 8 * count))
}
