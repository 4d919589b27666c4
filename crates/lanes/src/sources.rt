//! How depth and colour are computed at sixteen samples at once: two rows of eight pixels.
ghost use Rattle.std.specs.Prelude.{◌≡◌, ◌≤◌, ◌<◌, ℕ, length, slice_index};
ghost use Rattle.std.specs.Simd.Lanes.{Each1};
ghost use Rattle.shade.specs.declared.sample.Shaded.{Shaded as Fragment};
ghost use Rattle.gradients.specs.Group.{position_in, IsGroupOnScreen};
ghost use Rattle.shade.specs.Merging.{Writes, ReadsAlpha};

use gradients::{ColourPlanes, Colours, Corrections, DepthPlane};
use shade::{Merge, Placed};
use std::simd::prelude::*;

/// How the depth is computed.
#[derive(Clone, Copy, Debug)]
pub(crate) enum DepthSource<'a> {
    /// Each depth passes and none is stored, so there is no need of it.
    Unused,
    /// This depth at all samples.
    Flat(u16),
    /// The plane of the triangle.
    Plane(&'a Placed, &'a DepthPlane),
}

/// How colour and alpha are computed.
#[derive(Clone, Copy, Debug)]
pub(crate) enum ColourSource<'a> {
    /// This colour at all samples, in each channel that is read.
    Flat([u8; 4]),
    /// The planes of the triangle.
    Planes(&'a Placed, &'a ColourPlanes),
}

/// A colour in all lanes.
#[inline(always)]
fn flat_colours(rgba: [u8; 4]) -> Colours
    ensures length { (length result.r ≡ 16) × (length result.g ≡ 16) × (length result.b ≡ 16) × (length result.a ≡ 16) }
    ensures bytes { Each1 (λ n. n ≤ 255) result.r × Each1 (λ n. n ≤ 255) result.g × Each1 (λ n. n ≤ 255) result.b ×
        Each1 (λ n. n ≤ 255) result.a }
    ensures red { (i : ℕ) → i < 16 → slice_index result.r i ≡ slice_index rgba 0 }
    ensures green { (i : ℕ) → i < 16 → slice_index result.g i ≡ slice_index rgba 1 }
    ensures blue { (i : ℕ) → i < 16 → slice_index result.b i ≡ slice_index rgba 2 }
    ensures alpha { (i : ℕ) → i < 16 → slice_index result.a i ≡ slice_index rgba 3 }
{
    let [r, g, b, a] = rgba;
    Colours {
        r: u16x16::splat(u16::from(r)),
        g: u16x16::splat(u16::from(g)),
        b: u16x16::splat(u16::from(b)),
        a: u16x16::splat(u16::from(a)),
    }
}

impl<'a> ColourSource<'a> {
    ghost use Rattle.lanes.specs.Sources.{GivesColour};

    /// The colours at sixteen samples, the first of which is at (x, y), each at most 255: those of the fragment that the
    /// source gives, in what the merge reads.
    #[inline(always)]
    pub(crate) fn values(
        &self,
        merge: &Merge,
        x: i32,
        y: i32,
        corrections: &mut Corrections,
    ) -> Colours
        requires { IsGroupOnScreen (record { x = x; y = y }) }
        ensures length { (length result.r ≡ 16) × (length result.g ≡ 16) × (length result.b ≡ 16) ×
            (length result.a ≡ 16) }
        ensures bytes { Each1 (λ n. n ≤ 255) result.r × Each1 (λ n. n ≤ 255) result.g × Each1 (λ n. n ≤ 255) result.b ×
            Each1 (λ n. n ≤ 255) result.a }
        ensures red { (f : Fragment) (i : ℕ) → Writes merge.now 0 → GivesColour merge.now self.now (position_in (record { x = x; y = y }) i) f → i < 16
            → slice_index result.r i ≡ f.r }
        ensures green { (f : Fragment) (i : ℕ) → Writes merge.now 1 → GivesColour merge.now self.now (position_in (record { x = x; y = y }) i) f → i < 16
            → slice_index result.g i ≡ f.g }
        ensures blue { (f : Fragment) (i : ℕ) → Writes merge.now 2 → GivesColour merge.now self.now (position_in (record { x = x; y = y }) i) f → i < 16
            → slice_index result.b i ≡ f.b }
        ensures alpha { (f : Fragment) (i : ℕ) → ReadsAlpha merge.now → GivesColour merge.now self.now (position_in (record { x = x; y = y }) i) f → i < 16
            → slice_index result.a i ≡ f.a }
    {
        match self {
            ColourSource::Flat(rgba) => flat_colours(*rgba),
            ColourSource::Planes(placed, planes) => {
                planes.values(placed, merge, x, y, corrections)
            }
        }
    }
}
