//! Sixteen samples of a block drawn at once: two rows of eight pixels.
ghost use Rattle.std.specs.Prelude.{◌≡◌, ◌⊎◌, ℕ, if◌then◌else◌, ◌+◌, ◌<◌, ◌≤◌, length, slice_index};
ghost use Rattle.std.specs.Simd.Lanes.{Each1};
ghost use Rattle.shade.specs.Merging.{IsWritten};
ghost use Rattle.lanes.specs.Merging.{IsTested, AreByteFragments, ReadsColours, TakeColours, AreMerged, AreColoured};
ghost use Rattle.shade.specs.Canvas.{IsAlphaMerged};
ghost use Rattle.gradients.specs.Group.{position_in, IsGroupOnScreen};
ghost use Rattle.lanes.specs.Block.{stored_at};
ghost use Rattle.lanes.specs.Operands.{AreByteLanes, AreByteColours, AreColourBytes};
ghost use Rattle.lanes.specs.Sources.{GivesDepth, TakesGiven};

use crate::blend::{alpha_lanes, blended_colours, listed_colours};
use crate::block_samples::BlockSamples;
use crate::lane_bytes::{narrow, widen};
use crate::lane_mask::{both, choose, choose_bytes, is_clear};
use crate::merging::passes_lanes;
use crate::operands::{AlphaOperands, ColourLanes, ColourOperands};
use crate::sources::{ColourSource, DepthSource};
use gradients::{Colours, Corrections};
use shade::{KnownEquation, Merge, Placed};
use std::simd::prelude::*;

/// Sixteen bytes as lanes.
#[inline(always)]
fn byte_lanes(d: u8x16) -> u16x16
    ensures bytes { AreByteLanes result }
    ensures value { result ≡ d }
{
    widen(d)
}

/// Sixteen stored bytes from a place on.
#[inline(always)]
fn stored_lanes(stored: &[u8], at: usize) -> u16x16
    requires { at + 16 ≤ length stored.now }
    ensures bytes { AreByteLanes result }
    ensures each { (i : ℕ) → i < 16 → slice_index result i ≡ slice_index stored.now (at + i) }
{
    byte_lanes(u8x16::from_slice(&stored[at..]))
}

/// What the equation of colours reads of fragments and of the sixteen stored samples from a place on.
#[inline(always)]
fn colour_operands(merge: &Merge, c: &Colours, samples: &BlockSamples, at: usize) -> ColourOperands
    requires room { at + 16 ≤ 64 }
    requires bytes { AreByteFragments c.now }
    ensures bytes { AreColourBytes result }
    ensures each { (i : ℕ) → i < 16 → ReadsColours merge.now c.now samples.now (at + i) i result }
{
    ColourOperands {
        source: ColourLanes {
            red: c.r,
            green: c.g,
            blue: c.b,
        },
        source_alpha: c.a,
        stored: ColourLanes {
            red: stored_lanes(&samples.r, at),
            green: stored_lanes(&samples.g, at),
            blue: stored_lanes(&samples.b, at),
        },
        stored_alpha: stored_lanes(&samples.alpha, at),
        constant: merge.blend.constant,
    }
}

/// A channel of stored samples if it is written, where the mask is set.
#[inline(always)]
fn store_channel(written: bool, mask: u16x16, new: u16x16, stored: &mut [u8], at: usize)
    requires room { at + 16 ≤ length stored.old }
    requires bytes { AreByteLanes new }
    ensures set { (i : ℕ) → i < 16 → slice_index mask i ≡ 65535
        → IsWritten written (λ n. n ≡ slice_index new i) (slice_index stored.old (at + i)) (slice_index stored.new (at + i)) }
    ensures clear { (i : ℕ) → i < 16 → slice_index mask i ≡ 0 →
        slice_index stored.new (at + i) ≡ slice_index stored.old (at + i) }
    ensures elsewhere { (k : ℕ) → (k < at) ⊎ (at + 16 ≤ k) → slice_index stored.new k ≡ slice_index stored.old k }
    ensures room { length stored.new ≡ length stored.old }
{
    if written {
        let old = u8x16::from_slice(&stored[at..]);
        choose_bytes(mask, narrow(new), old).copy_to_slice(&mut stored[at..]);
    }
}

/// Red, green and blue of stored samples, those that are written, where the mask is set.
#[inline(always)]
fn store_colours(
    write: [bool; 3],
    mask: u16x16,
    new: &ColourLanes,
    samples: &mut BlockSamples,
    at: usize,
)
    requires room { at + 16 ≤ 64 }
    requires bytes { AreByteColours new.now }
    ensures { TakeColours write mask new.now samples.old samples.new at }
{
    let [red, green, blue] = write;
    store_channel(red, mask, new.red, &mut samples.r, at);
    store_channel(green, mask, new.green, &mut samples.g, at);
    store_channel(blue, mask, new.blue, &mut samples.b, at);
}

/// Colours of fragments blended with the sixteen stored samples from a place on, by any equation, not in line.
#[inline(never)]
fn blended(merge: &Merge, c: &Colours, samples: &BlockSamples, at: usize) -> ColourLanes
    requires room { at + 16 ≤ 64 }
    requires bytes { AreByteFragments c.now }
    ensures bytes { AreByteColours result }
    ensures each { AreMerged merge.now c.now samples.now at result }
{
    blended_colours(&merge.blend.colour, &colour_operands(merge, c, samples, at))
}

/// Colours of fragments blended with the sixteen stored samples from a place on. The equations of draw lists are in
/// line, and with `ANY` every equation is. Where one of the two is known, the compiler leaves out the call for others: it
/// would be too large to put what stands around it in line.
#[inline(always)]
fn merged<const ANY: bool>(
    merge: &Merge,
    c: &Colours,
    samples: &BlockSamples,
    at: usize,
) -> ColourLanes
    requires room { at + 16 ≤ 64 }
    requires bytes { AreByteFragments c.now }
    ensures bytes { AreByteColours result }
    ensures each { AreMerged merge.now c.now samples.now at result }
{
    let known = KnownEquation::of(&merge.blend.colour);
    if known == KnownEquation::Other {
        if ANY {
            let o = colour_operands(merge, c, samples, at);
            return blended_colours(&merge.blend.colour, &o);
        }
        return blended(merge, c, samples, at);
    }
    listed_colours(
        known == KnownEquation::Over,
        &merge.blend.colour,
        &colour_operands(merge, c, samples, at),
    )
}

/// Red, green and blue of stored samples, where the mask is set.
#[inline(always)]
fn draw_colours<const ANY: bool>(
    merge: &Merge,
    mask: u16x16,
    c: &Colours,
    samples: &mut BlockSamples,
    at: usize,
)
    requires room { at + 16 ≤ 64 }
    requires bytes { AreByteFragments c.now }
    ensures { AreColoured merge.now mask c.now samples.old samples.new at }
{
    let new = merged::<ANY>(merge, c, samples, at);
    store_colours(merge.write, mask, &new, samples, at);
}

/// Alpha of stored samples, where the mask is set, if it is written.
#[inline(always)]
fn draw_alpha(merge: &Merge, mask: u16x16, a: u16x16, stored: &mut [u8], at: usize)
    requires room { at + 16 ≤ length stored.old }
    requires bytes { AreByteLanes a }
    ensures set { (i : ℕ) → i < 16 → slice_index mask i ≡ 65535
        → IsAlphaMerged merge.now (slice_index a i) (slice_index stored.old (at + i)) (slice_index stored.new (at + i)) }
    ensures clear { (i : ℕ) → i < 16 → slice_index mask i ≡ 0 →
        slice_index stored.new (at + i) ≡ slice_index stored.old (at + i) }
    ensures elsewhere { (k : ℕ) → (k < at) ⊎ (at + 16 ≤ k) → slice_index stored.new k ≡ slice_index stored.old k }
    ensures room { length stored.new ≡ length stored.old }
{
    if merge.blend.write_alpha {
        let o = AlphaOperands {
            source: a,
            stored: stored_lanes(stored, at),
            constant: merge.blend.constant[3],
        };
        store_channel(true, mask, alpha_lanes(&merge.blend.alpha, &o), stored, at);
    }
}

/// The stored depths, where the mask is set.
#[inline(always)]
fn store_depths(written: bool, mask: u16x16, z: u16x16, old: u16x16, stored: &mut [u16], at: usize)
    requires room { at + 16 ≤ length stored.old }
    requires old { (i : ℕ) → i < 16 → slice_index old i ≡ slice_index stored.old (at + i) }
    ensures set { (i : ℕ) → i < 16 → slice_index mask i ≡ 65535
        → slice_index stored.new (at + i) ≡ (if written then slice_index z i else slice_index stored.old (at + i)) }
    ensures clear { (i : ℕ) → i < 16 → slice_index mask i ≡ 0 →
        slice_index stored.new (at + i) ≡ slice_index stored.old (at + i) }
    ensures elsewhere { (k : ℕ) → (k < at) ⊎ (at + 16 ≤ k) → slice_index stored.new k ≡ slice_index stored.old k }
    ensures room { length stored.new ≡ length stored.old }
{
    if written {
        choose(mask, z, old).copy_to_slice(&mut stored[at..]);
    }
}

/// Tests depths against the sixteen stored ones from `at` on, where the mask is set. Stores those that pass if depth
/// writes are on. Returns the mask of those that pass.
#[inline(always)]
fn test_depths(merge: &Merge, mask: u16x16, z: u16x16, stored: &mut [u16], at: usize) -> u16x16
    requires room { at + 16 ≤ length stored.old }
    ensures set { (i : ℕ) → i < 16 → slice_index mask i ≡ 65535
        → IsTested merge.now (slice_index z i) (slice_index stored.old (at + i)) (slice_index stored.new (at + i))
        (slice_index result i) }
    ensures clear { (i : ℕ) → i < 16 → slice_index mask i ≡ 0 →
        (slice_index result i ≡ 0) × (slice_index stored.new (at + i) ≡ slice_index stored.old (at + i)) }
    ensures elsewhere { (k : ℕ) → (k < at) ⊎ (at + 16 ≤ k) → slice_index stored.new k ≡ slice_index stored.old k }
    ensures room { length stored.new ≡ length stored.old }
{
    let old = u16x16::from_slice(&stored[at..]);
    let passed = both(mask, passes_lanes(merge.test, z, old));
    if is_clear(passed) {
        return passed;
    }
    store_depths(merge.depth_write, passed, z, old, stored, at);
    passed
}

/// Tests the depths of a source, and stores those that pass, as `test_depths` does. The first of the samples is at (x, y).
#[inline(always)]
fn test_depths_of(
    source: &DepthSource<'_>,
    merge: &Merge,
    mask: u16x16,
    x: i32,
    y: i32,
    stored: &mut [u16],
    at: usize,
    corrections: &mut Corrections,
) -> u16x16
    requires room { at + 16 ≤ length stored.old }
    requires on_screen { IsGroupOnScreen (record { x = x; y = y }) }
    ensures set { (i z : ℕ) → GivesDepth merge.now source.now (position_in (record { x = x; y = y }) i) z → i < 16 → slice_index mask i ≡ 65535
        → IsTested merge.now z (slice_index stored.old (at + i)) (slice_index stored.new (at + i))
        (slice_index result i) }
    ensures clear { (i : ℕ) → i < 16 → slice_index mask i ≡ 0 →
        (slice_index result i ≡ 0) × (slice_index stored.new (at + i) ≡ slice_index stored.old (at + i)) }
    ensures elsewhere { (k : ℕ) → (k < at) ⊎ (at + 16 ≤ k) → slice_index stored.new k ≡ slice_index stored.old k }
    ensures room { length stored.new ≡ length stored.old }
{
    match source {
        DepthSource::Unused => mask,
        DepthSource::Flat(z) => test_depths(merge, mask, u16x16::splat(*z), stored, at),
        DepthSource::Plane(placed, plane) => test_depths(
            merge,
            mask,
            plane.values(placed, x, y, corrections),
            stored,
            at,
        ),
    }
}

/// Draws what the sources give at sixteen samples of a block from a place on, where the mask is set. The first of them is
/// at (x, y). With `ANY` every blend equation is in line.
#[inline(always)]
pub(crate) fn draw_group<const ANY: bool>(
    merge: &Merge,
    depth: &DepthSource<'_>,
    colour: &ColourSource<'_>,
    mask: u16x16,
    x: i32,
    y: i32,
    samples: &mut BlockSamples,
    at: usize,
    corrections: &mut Corrections,
)
    requires room { at + 16 ≤ 64 }
    requires on_screen { IsGroupOnScreen (record { x = x; y = y }) }
    ensures set { (i : ℕ) → i < 16 → slice_index mask i ≡ 65535
        → TakesGiven merge.now depth.now colour.now (position_in (record { x = x; y = y }) i) (stored_at samples.old (at + i))
        (stored_at samples.new (at + i)) }
    ensures clear { (i : ℕ) → i < 16 → slice_index mask i ≡ 0 →
        stored_at samples.new (at + i) ≡ stored_at samples.old (at + i) }
    ensures elsewhere { (k : ℕ) → (k < at) ⊎ (at + 16 ≤ k) → stored_at samples.new k ≡ stored_at samples.old k }
{
    let drawn = test_depths_of(depth, merge, mask, x, y, &mut samples.z, at, corrections);
    if is_clear(drawn) {
        return;
    }
    let c = colour.values(merge, x, y, corrections);
    draw_colours::<ANY>(merge, drawn, &c, samples, at);
    draw_alpha(merge, drawn, c.a, &mut samples.alpha, at);
}
