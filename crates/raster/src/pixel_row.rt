//! The colours of eight pixels in a row of a block.
ghost use Rattle.std.specs.Prelude.{◌≡◌, ◌⊎◌, ℕ, ◌+◌, ◌*◌, ◌/◌, ◌%◌, ◌^◌, ◌<◌, ◌≤◌, length, slice_index};
ghost use Rattle.grid.specs.Pixels.{side_of};
ghost use Rattle.grid.specs.Samples.{count_of};
ghost use Rattle.grid.specs.declared.sample_count.SampleCount.TheVariants.{One, Four};
ghost use Rattle.raster.specs.Samples.{planes_of};
ghost use Rattle.raster.specs.Colours.{AreColoursAt, AreMeansAt, AreInterleaved};

use crate::tile::Tile;
use grid::SampleCount;
use lanes::{BlockSamples, means_of_four, means_of_sums, sums};
use std::simd::prelude::*;

/// Red, green and blue of eight pixels, pixel by pixel, and behind them eight bytes that nobody reads: a vector has as
/// many lanes as a power of two.
#[inline(always)]
pub fn interleaved(r: u8x8, g: u8x8, b: u8x8) -> u8x32
    requires red { length r ≡ 8 }
    requires green { length g ≡ 8 }
    requires blue { length b ≡ 8 }
    ensures whole { length result ≡ 32 }
    ensures bytes { AreInterleaved r g b result }
{
    let red_green = r.shuffle(g, [0, 1, 2, 3, 4, 5, 6, 7, 8, 9, 10, 11, 12, 13, 14, 15]);
    let blue = b.shuffle(b, [0, 1, 2, 3, 4, 5, 6, 7, 8, 9, 10, 11, 12, 13, 14, 15]);
    red_green.shuffle(
        blue,
        [
            0, 8, 16, 1, 9, 17, 2, 10, 18, 3, 11, 19, 4, 12, 20, 5, 13, 21, 6, 14, 22, 7, 15, 23,
            24, 25, 26, 27, 28, 29, 30, 31,
        ],
    )
}

/// Red, green and blue of eight pixels of a block from pixel `from` on, pixel by pixel: the means of 2^bits planes of
/// samples, by their sums. Half the number of samples is `half`.
fn colours_by_sums(samples: &[BlockSamples], from: usize, half: u16, bits: u16) -> u8x32
    requires from { from + 8 ≤ 64 }
    requires bits { bits ≤ 4 }
    requires samples { length samples.now ≡ 2 ^ bits }
    requires half { half ≡ 2 ^ bits / 2 }
    ensures whole { length result ≡ 32 }
    ensures means { AreMeansAt samples.now from result }
{
    let (red, green, blue) = sums(samples, from);
    interleaved(
        means_of_sums(red, half, bits),
        means_of_sums(green, half, bits),
        means_of_sums(blue, half, bits),
    )
}

/// The logarithm of the number of samples, and half of that number, rounded down.
fn logarithm_and_half(count: SampleCount) -> (u16, u16)
    ensures few { result.0 ≤ 4 }
    ensures logarithm { 2 ^ result.0 ≡ count_of count }
    ensures half { result.1 ≡ count_of count / 2 }
{
    (count.logarithm() as u16, (count.count() / 2) as u16)
}

/// What `colours` returns, by the sums of any number of samples.
#[inline(never)]
fn colours_of_more(tile: &Tile, samples: &[BlockSamples], row: u32, column: u32) -> u8x32
    requires samples { length samples.now ≡ planes_of tile.now.side tile.now.count }
    requires row { row < side_of tile.now.side }
    requires column { column < side_of tile.now.side / 8 }
    ensures whole { length result ≡ 32 }
    ensures colours { AreColoursAt tile.now samples.now row column result }
{
    let place = tile.place(row / 8, column, 0);
    let planes = &samples[place..place + tile.count.count() as usize];
    let (bits, half) = logarithm_and_half(tile.count);
    colours_by_sums(planes, 8 * (row % 8) as usize, half, bits)
}

/// What `colours` returns, for one sample a pixel or four.
#[inline(always)]
fn colours_of_few(tile: &Tile, samples: &[BlockSamples], row: u32, column: u32) -> u8x32
    requires samples { length samples.now ≡ planes_of tile.now.side tile.now.count }
    requires row { row < side_of tile.now.side }
    requires column { column < side_of tile.now.side / 8 }
    requires few { (tile.now.count ≡ One) ⊎ (tile.now.count ≡ Four) }
    ensures whole { length result ≡ 32 }
    ensures colours { AreColoursAt tile.now samples.now row column result }
{
    let from = 8 * (row % 8) as usize;
    if tile.count == SampleCount::One {
        let plane = &samples[tile.place_by_count(SampleCount::One, row / 8, column, 0)];
        interleaved(
            u8x8::from_slice(&plane.r[from..]),
            u8x8::from_slice(&plane.g[from..]),
            u8x8::from_slice(&plane.b[from..]),
        )
    } else {
        let place = tile.place_by_count(SampleCount::Four, row / 8, column, 0);
        let (first, second) = (&samples[place], &samples[place + 1]);
        let (third, fourth) = (&samples[place + 2], &samples[place + 3]);
        let red = means_of_four(&first.r, &second.r, &third.r, &fourth.r, from);
        let green = means_of_four(&first.g, &second.g, &third.g, &fourth.g, from);
        let blue = means_of_four(&first.b, &second.b, &third.b, &fourth.b, from);
        interleaved(red, green, blue)
    }
}

/// Red, green and blue of the eight pixels in a row of the tile and a column of its blocks, pixel by pixel: the first
/// 24 bytes of the result.
#[inline(always)]
pub fn colours(tile: &Tile, samples: &[BlockSamples], row: u32, column: u32) -> u8x32
    requires samples { length samples.now ≡ planes_of tile.now.side tile.now.count }
    requires row { row < side_of tile.now.side }
    requires column { column < side_of tile.now.side / 8 }
    ensures whole { length result ≡ 32 }
    ensures colours { AreColoursAt tile.now samples.now row column result }
{
    match tile.count {
        SampleCount::One => colours_of_few(tile, samples, row, column),
        SampleCount::Four => colours_of_few(tile, samples, row, column),
        _ => colours_of_more(tile, samples, row, column),
    }
}

/// The alpha of eight pixels in a row of a block as the first of 32 bytes.
#[inline(always)]
pub fn first_of_many(alphas: u8x8) -> u8x32
    requires { length alphas ≡ 8 }
    ensures whole { length result ≡ 32 }
    ensures first { (i : ℕ) → i < 8 → slice_index result i ≡ slice_index alphas i }
{
    alphas.shuffle(
        alphas,
        [
            0, 1, 2, 3, 4, 5, 6, 7, 0, 1, 2, 3, 4, 5, 6, 7, 0, 1, 2, 3, 4, 5, 6, 7, 0, 1, 2, 3, 4,
            5, 6, 7,
        ],
    )
}

/// Eight bytes from a place on.
#[inline(always)]
pub fn eight_from(bytes: &[u8], from: usize) -> u8x8
    requires { from + 8 ≤ length bytes.now }
    ensures whole { length result ≡ 8 }
    ensures each { (i : ℕ) → i < 8 → slice_index result i ≡ slice_index bytes.now (from + i) }
{
    u8x8::from_slice(&bytes[from..])
}
