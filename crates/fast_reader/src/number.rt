ghost use Rattle.std.specs.Prelude.{◌≡◌, ◌≤◌, ◌<◌, IfSome, Some};
ghost use Rattle.list_json.specs.Denotes.{IsIntegerWithin, IsDepthNumber, IsIndex, IsSize, IsSampleMaskNumber, IsSampleCount};
ghost use Rattle.fast_reader.specs.Took.{Took, IsNumber};

use draw_list::{ALL_SAMPLES, MOST_PIXELS, MOST_VERTICES};
use grid::SampleCount;
use json_tokens::Cursor;

/// Takes an integer.
#[inline(always)]
fn take_whole(reader: &mut Cursor<'_>) -> Option<i64>
    ensures { IfSome result (λ z. Took 0 IsNumber reader.old z reader.new) }
{
    reader.take_integer()
}

/// Takes an integer from `low` to `high`.
#[inline(always)]
pub(super) fn take_between(reader: &mut Cursor<'_>, low: i64, high: i64) -> Option<i64>
    ensures { IfSome result (λ z. Took 0 (λ d z. IsIntegerWithin low high (Some d) z) reader.old z reader.new) }
{
    let number = take_whole(reader)?;
    if low <= number && number <= high {
        Some(number)
    } else {
        None
    }
}

/// The number, if it is at most `high`.
#[inline(always)]
fn up_to(number: u64, high: u64) -> Option<u64>
    ensures { IfSome result (λ n. (n ≡ number) × (n ≤ high)) }
{
    if number <= high { Some(number) } else { None }
}

/// The number as a coordinate.
#[inline(always)]
pub(super) fn coordinate(number: i64) -> Option<i32>
    ensures { IfSome result (λ z. z ≡ number) }
{
    if i64::from(i32::MIN) <= number && number <= i64::from(i32::MAX) {
        Some(number as i32)
    } else {
        None
    }
}

/// The number as a depth.
#[inline(always)]
pub(super) fn depth(number: u64) -> Option<u16>
    ensures { IfSome result (λ n. (n ≡ number) × (n ≤ 65535)) }
{
    Some(up_to(number, u64::from(u16::MAX))? as u16)
}

/// The number as a colour channel or an alpha.
#[inline(always)]
pub(super) fn channel(number: u64) -> Option<u8>
    ensures { IfSome result (λ n. (n ≡ number) × (n ≤ 255)) }
{
    Some(up_to(number, u64::from(u8::MAX))? as u8)
}

/// The number as the index of one of `count` vertices.
#[inline(always)]
pub(super) fn index(number: u64, count: usize) -> Option<u32>
    ensures { IfSome result (λ k. (k ≡ number) × (k < count)) }
{
    let found = up_to(number, MOST_VERTICES as u64 - 1)? as u32;
    if (found as usize) < count {
        Some(found)
    } else {
        None
    }
}

/// Takes a depth.
pub(super) fn take_depth(reader: &mut Cursor<'_>) -> Option<u16>
    ensures { IfSome result (λ n. Took 0 (λ d n. IsDepthNumber (Some d) n) reader.old n reader.new) }
{
    let number = reader.take_natural()?;
    depth(number)
}

/// Takes the index of one of `count` vertices.
#[inline(always)]
pub(super) fn take_index(reader: &mut Cursor<'_>, count: usize) -> Option<u32>
    ensures { IfSome result (λ k. Took 0 (λ d k. IsIndex count (Some d) k) reader.old k reader.new) }
{
    let number = reader.take_natural()?;
    index(number, count)
}

/// Takes the width or the height of a picture, in pixels.
pub(super) fn take_size(reader: &mut Cursor<'_>) -> Option<u16>
    ensures { IfSome result (λ n. Took 0 (λ d n. IsSize (Some d) n) reader.old n reader.new) }
{
    Some(take_between(reader, 1, i64::from(MOST_PIXELS))? as u16)
}

/// Takes which samples a draw writes, bit s for sample s.
pub(super) fn take_sample_mask(reader: &mut Cursor<'_>) -> Option<u16>
    ensures { IfSome result (λ n. Took 0 (λ d n. IsSampleMaskNumber (Some d) n) reader.old n reader.new) }
{
    Some(take_between(reader, 0, i64::from(ALL_SAMPLES))? as u16)
}

/// Takes the number of samples of a pixel.
pub(super) fn take_sample_count(reader: &mut Cursor<'_>) -> Option<SampleCount>
    ensures { IfSome result (λ n. Took 0 (λ d n. IsSampleCount (Some d) n) reader.old n reader.new) }
{
    match take_whole(reader)? {
        1 => Some(SampleCount::One),
        4 => Some(SampleCount::Four),
        _ => None,
    }
}
