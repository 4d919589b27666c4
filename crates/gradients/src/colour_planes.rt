ghost use Rattle.std.specs.Prelude.{◌≡◌, ◌<◌, ◌≤◌, ◌%◌, ◌^◌, ℕ, IsTrue, length, slice_index};
ghost use Rattle.std.specs.Int.RustNames.{unsigned_abs};
ghost use Rattle.std.specs.Simd.Lanes.{Each1};
ghost use Rattle.grid.specs.Triangle.{doubled_area, Covers};
ghost use Rattle.shade.specs.Placed.{channel, IsInterpolated};
ghost use Rattle.gradients.specs.Group.{position_in, IsGroupOnScreen};
ghost use Rattle.gradients.specs.AttributePlane.{AreByteValues, IsAttributePlane, IsChannelSlope};
ghost use Rattle.shade.specs.Merging.{Writes, ReadsAlpha};
ghost use Rattle.gradients.specs.Slope.{IsBounded};
ghost use Rattle.shade.specs.declared.placed.Placed.{Placed as Triangle};

use crate::attribute_plane::AttributePlane;
use crate::candidates::{are_sure, fractions, least, wholes};
use crate::corrections::Corrections;
use crate::reciprocal::Reciprocal;
use crate::slope::Slope;
use shade::{Merge, Placed};
use std::simd::prelude::*;

/// Colour and alpha of sixteen samples, each at most 255.
#[derive(Clone, Copy, Debug)]
pub struct Colours {
    /// Red.
    pub r: u16x16,
    /// Green.
    pub g: u16x16,
    /// Blue.
    pub b: u16x16,
    /// Alpha.
    pub a: u16x16,
}

/// What the three vertices have as one channel.
#[inline(always)]
fn channel_values(placed: &Placed, number: usize) -> [u16; 3]
    requires { number < 4 }
    ensures value { result ≡ channel placed.now number }
    ensures bytes { AreByteValues result }
{
    let [a, b, c] = placed.channel(number);
    [u16::from(a), u16::from(b), u16::from(c)]
}

/// The slope of one channel of a triangle, if it is asked for.
#[inline(always)]
fn channel_slope(used: bool, placed: &Placed, number: usize) -> Slope
    requires { number < 4 }
    ensures slope { IsTrue used → IsChannelSlope placed.now number result }
    ensures bounded { IsBounded result }
{
    Slope::of_used(used, &placed.tri, channel_values(placed, number))
}

/// How the channels of a triangle grow.
#[derive(Clone, Copy, Debug)]
pub struct ColourSlopes {
    red: Slope,
    green: Slope,
    blue: Slope,
    alpha: Slope,
    /// Whether alpha is asked for.
    has_alpha: bool,
}

impl ColourSlopes {
    ghost use Rattle.gradients.specs.AttributePlane.{AreColourSlopes, AreBounded, AreLevel};

    /// The slopes of a triangle's channels that are asked for: of red, green and blue if they are written, and of alpha
    /// if the draw reads it.
    #[inline(always)]
    pub fn of_used(used: bool, placed: &Placed) -> ColourSlopes
        ensures slopes { IsTrue used → AreColourSlopes placed.now result }
        ensures bounded { AreBounded result }
    {
        let merge = placed.state.merge;
        let has_alpha = used && merge.reads_alpha();
        ColourSlopes {
            red: channel_slope(used && merge.write[0], placed, 0),
            green: channel_slope(used && merge.write[1], placed, 1),
            blue: channel_slope(used && merge.write[2], placed, 2),
            alpha: channel_slope(has_alpha, placed, 3),
            has_alpha,
        }
    }

    /// Whether no channel is too steep for a plane.
    #[inline(always)]
    pub fn are_level(&self, reciprocal: Reciprocal) -> bool
        requires { AreBounded self.now }
        ensures { IsTrue result → AreLevel reciprocal.area self.now }
    {
        self.red.is_level(reciprocal, 56)
            && self.green.is_level(reciprocal, 56)
            && self.blue.is_level(reciprocal, 56)
            && self.alpha.is_level(reciprocal, 56)
    }
}

/// The bits of a channel's fraction.
const FRACTION: u32 = 0xff_ffff;

/// Whether the integer parts of all candidates of the four channels are surely the values.
#[inline(always)]
fn are_all_sure(red: u32x16, green: u32x16, blue: u32x16, alpha: u32x16) -> bool
    ensures red { IsTrue result → (i : ℕ) → i < 16 → 3 ≤ slice_index red i % 2 ^ 24 }
    ensures green { IsTrue result → (i : ℕ) → i < 16 → 3 ≤ slice_index green i % 2 ^ 24 }
    ensures blue { IsTrue result → (i : ℕ) → i < 16 → 3 ≤ slice_index blue i % 2 ^ 24 }
    ensures alpha { IsTrue result → (i : ℕ) → i < 16 → 3 ≤ slice_index alpha i % 2 ^ 24 }
{
    let red_green = least(fractions(red, FRACTION), fractions(green, FRACTION));
    let blue_alpha = least(fractions(blue, FRACTION), fractions(alpha, FRACTION));
    are_sure(least(red_green, blue_alpha))
}

/// Colour and alpha of a triangle, made ready for sixteen samples at once.
#[derive(Clone, Copy, Debug)]
pub struct ColourPlanes {
    red: AttributePlane,
    green: AttributePlane,
    blue: AttributePlane,
    alpha: AttributePlane,
}

impl ColourPlanes {
    ghost use Rattle.gradients.specs.AttributePlane.{AreColourPlanes, AreColourSlopes, AreLevel, AreValues};

    /// The planes of channels that are level, of a triangle with this doubled area. If `search` is set, whole values
    /// are searched for.
    #[inline(always)]
    pub fn new(slopes: &ColourSlopes, reciprocal: Reciprocal, search: bool) -> ColourPlanes
        requires { AreLevel reciprocal.area slopes.now }
        ensures { (t : Triangle) → reciprocal.area ≡ unsigned_abs (doubled_area t.tri.a t.tri.b t.tri.c) →
            AreColourSlopes t slopes.now → AreColourPlanes t result }
    {
        ColourPlanes {
            red: AttributePlane::new(&slopes.red, reciprocal, 24, search),
            green: AttributePlane::new(&slopes.green, reciprocal, 24, search),
            blue: AttributePlane::new(&slopes.blue, reciprocal, 24, search),
            alpha: if slopes.has_alpha {
                AttributePlane::new(&slopes.alpha, reciprocal, 24, search)
            } else {
                AttributePlane::none()
            },
        }
    }

    /// The planes of channels that are used, and else planes that nobody reads.
    #[inline(always)]
    pub fn of_used(
        used: bool,
        slopes: &ColourSlopes,
        reciprocal: Reciprocal,
        search: bool,
    ) -> ColourPlanes
        requires { AreLevel reciprocal.area slopes.now }
        ensures { (t : Triangle) → IsTrue used → reciprocal.area ≡ unsigned_abs (doubled_area t.tri.a t.tri.b t.tri.c) →
            AreColourSlopes t slopes.now → AreColourPlanes t result }
    {
        if used {
            ColourPlanes::new(slopes, reciprocal, search)
        } else {
            ColourPlanes::none()
        }
    }

    /// Planes that nobody reads.
    #[inline(always)]
    pub fn none() -> ColourPlanes {
        ColourPlanes {
            red: AttributePlane::none(),
            green: AttributePlane::none(),
            blue: AttributePlane::none(),
            alpha: AttributePlane::none(),
        }
    }

    /// One channel of the triangle at sixteen samples by itself, from its plane, if it is read.
    fn channel_at(
        plane: &AttributePlane,
        placed: &Placed,
        read: bool,
        number: usize,
        x: i32,
        y: i32,
    ) -> u16x16
        requires screen { IsGroupOnScreen (record { x = x; y = y }) }
        requires number { number < 4 }
        ensures length { length result ≡ 16 }
        ensures bytes { Each1 (λ n. n ≤ 255) result }
        ensures each { IsTrue read → IsAttributePlane 24 placed.now.tri.a placed.now.tri.b placed.now.tri.c (channel placed.now number) plane.now
            → AreValues placed.now.tri.a placed.now.tri.b placed.now.tri.c (channel placed.now number)
            (record { x = x; y = y }) result }
    {
        if read {
            let values = channel_values(placed, number);
            plane.values(&placed.tri, values, 24, x, y, &mut Corrections::none())
        } else {
            u16x16::splat(255)
        }
    }

    /// The colours at sixteen samples, each channel by itself.
    #[cold]
    #[inline(never)]
    fn channels(&self, placed: &Placed, x: i32, y: i32) -> Colours
        requires { IsGroupOnScreen (record { x = x; y = y }) }
        ensures length { (length result.r ≡ 16) × (length result.g ≡ 16) × (length result.b ≡ 16) ×
            (length result.a ≡ 16) }
        ensures bytes { Each1 (λ n. n ≤ 255) result.r × Each1 (λ n. n ≤ 255) result.g × Each1 (λ n. n ≤ 255) result.b ×
            Each1 (λ n. n ≤ 255) result.a }
        ensures red { (i : ℕ) → Writes placed.now.state.merge 0 → AreColourPlanes placed.now self.now → i < 16 → Covers placed.now.tri.a placed.now.tri.b placed.now.tri.c (position_in (record { x = x; y = y }) i)
            → IsInterpolated placed.now (position_in (record { x = x; y = y }) i) (channel placed.now 0)
            (slice_index result.r i) }
        ensures green { (i : ℕ) → Writes placed.now.state.merge 1 → AreColourPlanes placed.now self.now → i < 16 → Covers placed.now.tri.a placed.now.tri.b placed.now.tri.c (position_in (record { x = x; y = y }) i)
            → IsInterpolated placed.now (position_in (record { x = x; y = y }) i) (channel placed.now 1)
            (slice_index result.g i) }
        ensures blue { (i : ℕ) → Writes placed.now.state.merge 2 → AreColourPlanes placed.now self.now → i < 16 → Covers placed.now.tri.a placed.now.tri.b placed.now.tri.c (position_in (record { x = x; y = y }) i)
            → IsInterpolated placed.now (position_in (record { x = x; y = y }) i) (channel placed.now 2)
            (slice_index result.b i) }
        ensures alpha { (i : ℕ) → ReadsAlpha placed.now.state.merge → AreColourPlanes placed.now self.now → i < 16 → Covers placed.now.tri.a placed.now.tri.b placed.now.tri.c (position_in (record { x = x; y = y }) i)
            → IsInterpolated placed.now (position_in (record { x = x; y = y }) i) (channel placed.now 3)
            (slice_index result.a i) }
    {
        let merge = placed.state.merge;
        Colours {
            r: ColourPlanes::channel_at(&self.red, placed, merge.write[0], 0, x, y),
            g: ColourPlanes::channel_at(&self.green, placed, merge.write[1], 1, x, y),
            b: ColourPlanes::channel_at(&self.blue, placed, merge.write[2], 2, x, y),
            a: ColourPlanes::channel_at(&self.alpha, placed, merge.reads_alpha(), 3, x, y),
        }
    }

    /// The colours of the triangle at sixteen samples, two rows of eight pixels, the first of which is at (x, y): right
    /// at each sample that it covers. Only what the merge of its draw reads is computed: red, green and blue if they
    /// are written, and alpha if the draw reads it.
    #[inline(always)]
    pub fn values(
        &self,
        placed: &Placed,
        merge: &Merge,
        x: i32,
        y: i32,
        corrections: &mut Corrections,
    ) -> Colours
        requires { IsGroupOnScreen (record { x = x; y = y }) }
        ensures length { (length result.r ≡ 16) × (length result.g ≡ 16) × (length result.b ≡ 16) ×
            (length result.a ≡ 16) }
        ensures bytes { Each1 (λ n. n ≤ 255) result.r × Each1 (λ n. n ≤ 255) result.g × Each1 (λ n. n ≤ 255) result.b ×
            Each1 (λ n. n ≤ 255) result.a }
        ensures red { (i : ℕ) → placed.now.state.merge ≡ merge.now → Writes merge.now 0 → AreColourPlanes placed.now self.now → i < 16 → Covers placed.now.tri.a placed.now.tri.b placed.now.tri.c (position_in (record { x = x; y = y }) i)
            → IsInterpolated placed.now (position_in (record { x = x; y = y }) i) (channel placed.now 0)
            (slice_index result.r i) }
        ensures green { (i : ℕ) → placed.now.state.merge ≡ merge.now → Writes merge.now 1 → AreColourPlanes placed.now self.now → i < 16 → Covers placed.now.tri.a placed.now.tri.b placed.now.tri.c (position_in (record { x = x; y = y }) i)
            → IsInterpolated placed.now (position_in (record { x = x; y = y }) i) (channel placed.now 1)
            (slice_index result.g i) }
        ensures blue { (i : ℕ) → placed.now.state.merge ≡ merge.now → Writes merge.now 2 → AreColourPlanes placed.now self.now → i < 16 → Covers placed.now.tri.a placed.now.tri.b placed.now.tri.c (position_in (record { x = x; y = y }) i)
            → IsInterpolated placed.now (position_in (record { x = x; y = y }) i) (channel placed.now 2)
            (slice_index result.b i) }
        ensures alpha { (i : ℕ) → placed.now.state.merge ≡ merge.now → ReadsAlpha merge.now → AreColourPlanes placed.now self.now → i < 16 → Covers placed.now.tri.a placed.now.tri.b placed.now.tri.c (position_in (record { x = x; y = y }) i)
            → IsInterpolated placed.now (position_in (record { x = x; y = y }) i) (channel placed.now 3)
            (slice_index result.a i) }
    {
        let red = self.red.candidates_if(merge.write[0], x, y);
        let green = self.green.candidates_if(merge.write[1], x, y);
        let blue = self.blue.candidates_if(merge.write[2], x, y);
        let alpha = self.alpha.candidates_if(merge.reads_alpha(), x, y);
        if !are_all_sure(red, green, blue, alpha) {
            corrections.add();
            return self.channels(placed, x, y);
        }
        Colours {
            r: wholes(red, 24),
            g: wholes(green, 24),
            b: wholes(blue, 24),
            a: wholes(alpha, 24),
        }
    }
}
