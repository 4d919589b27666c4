//! How the colours of pixels lie in bytes.
ghost use Rattle.std.specs.Prelude.{◌≡◌, length, slice_index};
ghost use Rattle.readout.specs.Colours.{AreArranged};
ghost use Rattle.readout.specs.Pixels.{pixel_bytes, colour_in, alpha_in};
ghost use Rattle.readout.specs.declared.format.Format.TheVariants.{Rgba8};

use crate::straight::{multiplied_colour, straight_run};
use raster::interleaved;
use std::simd::prelude::*;

/// How the colour of a pixel lies in bytes, in the order of their places in memory. A channel is a byte.
#[derive(Clone, Copy, Debug, PartialEq, Eq)]
pub enum Format {
    /// Red, green and blue.
    Rgb8,
    /// Red, green, blue and alpha.
    Rgba8,
    /// Blue, green, red and alpha.
    Bgra8,
    /// Red, green, blue and alpha, of which the first three are divided by alpha when they are written, and multiplied by
    /// it when they are loaded.
    Rgba8Straight,
    /// Blue, green, red and alpha, of which the first three are divided by alpha when they are written, and multiplied by
    /// it when they are loaded.
    Bgra8Straight,
}

impl Format {
    /// How many bytes a pixel has.
    #[inline]
    pub fn pixel_bytes(self) -> usize
        ensures { result ≡ pixel_bytes self }
    {
        match self {
            Format::Rgb8 => 3,
            Format::Rgba8 | Format::Bgra8 | Format::Rgba8Straight | Format::Bgra8Straight => 4,
        }
    }
}

/// Four channels of eight pixels, pixel by pixel.
#[inline(always)]
fn four_interleaved(first: u8x8, second: u8x8, third: u8x8, fourth: u8x8) -> u8x32
    requires first { length first ≡ 8 }
    requires second { length second ≡ 8 }
    requires third { length third ≡ 8 }
    requires fourth { length fourth ≡ 8 }
    ensures whole { length result ≡ 32 }
    ensures bytes { AreArranged Rgba8 first second third fourth result }
{
    let low: u8x16 = first.shuffle(
        second,
        [0, 8, 1, 9, 2, 10, 3, 11, 4, 12, 5, 13, 6, 14, 7, 15],
    );
    let high: u8x16 = third.shuffle(
        fourth,
        [0, 8, 1, 9, 2, 10, 3, 11, 4, 12, 5, 13, 6, 14, 7, 15],
    );
    low.shuffle(
        high,
        [
            0, 1, 16, 17, 2, 3, 18, 19, 4, 5, 20, 21, 6, 7, 22, 23, 8, 9, 24, 25, 10, 11, 26, 27,
            12, 13, 28, 29, 14, 15, 30, 31,
        ],
    )
}

/// The bytes of eight pixels in the format, one after another. Those of RGB8 are the first 24.
#[inline(always)]
pub(crate) fn arranged(format: Format, red: u8x8, green: u8x8, blue: u8x8, alphas: u8x8) -> u8x32
    requires red { length red ≡ 8 }
    requires green { length green ≡ 8 }
    requires blue { length blue ≡ 8 }
    requires alphas { length alphas ≡ 8 }
    ensures whole { length result ≡ 32 }
    ensures bytes { AreArranged format red green blue alphas result }
{
    match format {
        Format::Rgb8 => interleaved(red, green, blue),
        Format::Rgba8 => four_interleaved(red, green, blue, alphas),
        Format::Bgra8 => four_interleaved(blue, green, red, alphas),
        Format::Rgba8Straight => four_interleaved(
            straight_run(red, alphas),
            straight_run(green, alphas),
            straight_run(blue, alphas),
            alphas,
        ),
        Format::Bgra8Straight => four_interleaved(
            straight_run(blue, alphas),
            straight_run(green, alphas),
            straight_run(red, alphas),
            alphas,
        ),
    }
}

/// Red, green and blue of these bytes, as they are stored.
#[inline]
pub(crate) fn colour_of(format: Format, pixel: &[u8]) -> (u8, u8, u8)
    requires { length pixel.now ≡ pixel_bytes format }
    ensures { result ≡ colour_in format (λ n. slice_index pixel.now n) }
{
    match format {
        Format::Rgb8 | Format::Rgba8 => (pixel[0], pixel[1], pixel[2]),
        Format::Bgra8 => (pixel[2], pixel[1], pixel[0]),
        Format::Rgba8Straight => multiplied_colour(pixel[0], pixel[1], pixel[2], pixel[3]),
        Format::Bgra8Straight => multiplied_colour(pixel[2], pixel[1], pixel[0], pixel[3]),
    }
}

/// Alpha of these bytes.
#[inline]
pub(crate) fn alpha_of(format: Format, pixel: &[u8]) -> u8
    requires { length pixel.now ≡ pixel_bytes format }
    ensures { result ≡ alpha_in format (λ n. slice_index pixel.now n) }
{
    match format {
        Format::Rgb8 => 255,
        Format::Rgba8 | Format::Bgra8 | Format::Rgba8Straight | Format::Bgra8Straight => pixel[3],
    }
}
