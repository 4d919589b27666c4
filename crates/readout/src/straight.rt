//! Colours that are multiplied by their alpha, as a canvas that is drawn on from alpha 0 has them, and those of image
//! files, which are not.
ghost use Rattle.std.specs.Prelude.{◌≡◌, ◌<◌, ◌≤◌, ℕ, length, slice_index};
ghost use Rattle.shade.specs.Blend.{IsOver};
ghost use Rattle.readout.specs.Straight.{straight_of, multiplied_by};

use std::simd::prelude::*;

/// A channel that was multiplied by alpha, divided by it.
fn straight(channel: u8, alpha: u8) -> u8
    ensures { result ≡ straight_of channel alpha }
{
    if alpha == 0 {
        return 0;
    }
    let (channel, alpha) = (u32::from(channel), u32::from(alpha));
    ((255 * channel + alpha / 2) / alpha).min(255) as u8
}

/// A channel multiplied by alpha.
fn multiplied(channel: u8, alpha: u8) -> u8
    ensures { result ≡ multiplied_by channel alpha }
{
    ((u32::from(channel) * u32::from(alpha) + 127) / 255) as u8
}

/// Red, green and blue multiplied by alpha.
pub(crate) fn multiplied_colour(r: u8, g: u8, b: u8, alpha: u8) -> (u8, u8, u8)
    ensures { (result.0 ≡ multiplied_by r alpha) × (result.1 ≡ multiplied_by g alpha) ×
        (result.2 ≡ multiplied_by b alpha) }
{
    (
        multiplied(r, alpha),
        multiplied(g, alpha),
        multiplied(b, alpha),
    )
}

/// A channel of eight pixels, divided by their alphas.
pub(crate) fn straight_run(channel: u8x8, alphas: u8x8) -> u8x8
    requires channel { length channel ≡ 8 }
    requires alphas { length alphas ≡ 8 }
    ensures whole { length result ≡ 8 }
    ensures divided { (i : ℕ) → i < 8 →
        slice_index result i ≡ straight_of (slice_index channel i) (slice_index alphas i) }
{
    let alphas = alphas.to_array();
    let mut made = channel.to_array();
    for i in 0..8 {
        made[i] = straight(made[i], alphas[i]);
    }
    u8x8::from_array(made)
}

/// A channel that is multiplied by alpha is that channel over black.
pub fn multiplies_as_over()
    ensures { (c a : ℕ) → IsOver c a 0 (multiplied_by c a) }
{}

/// A channel that is at most alpha comes back unchanged, if it is divided by alpha and then multiplied by it.
pub fn loads_what_was_written()
    ensures { (c a : ℕ) → c ≤ a → a ≤ 255 → multiplied_by (straight_of c a) a ≡ c }
{}
