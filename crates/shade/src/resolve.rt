//! The resolve of a pixel's samples.
ghost use Rattle.std.specs.Prelude.{◌≡◌, ℕ, ◌+◌, ◌*◌, ◌≤◌, length, slice_index};
ghost use Rattle.grid.specs.Samples.{count_of};
ghost use Rattle.shade.specs.Mean.{sample_of};
ghost use Rattle.shade.specs.Resolve.{IsResolved, total};

use crate::sample::Sample;
use grid::SampleCount;

/// The most samples of a pixel.
pub const MAX_SAMPLES: usize = 16;

/// A channel of a pixel from the sum of that channel of its samples: their mean, rounded to nearest with halves up (the
/// rounding is this project's rule).
fn mean(sum: u32, count: SampleCount) -> u8
    requires { sum ≤ 255 * count_of count }
    ensures { (channel : ℕ → ℕ) → sum ≡ total (count_of count) channel → IsResolved count channel result }
{
    let samples = count.count();
    ((sum + samples / 2) / samples) as u8
}

/// The sum of a channel over one sample more.
fn with_channel(sum: u32, channel: u8) -> u32
    requires { sum ≤ 4080 }
    ensures sum { result ≡ sum + channel }
    ensures most { result ≤ sum + 255 }
{
    sum + u32::from(channel)
}

/// Red, green and blue of a pixel, each resolved from the pixel's samples, which are the first of these.
pub fn resolved_colour(samples: &[Sample], count: SampleCount) -> [u8; 3]
    requires { count_of count ≤ length samples.now }
    ensures red { IsResolved count (λ s. (sample_of samples.now s).r) (slice_index result 0) }
    ensures green { IsResolved count (λ s. (sample_of samples.now s).g) (slice_index result 1) }
    ensures blue { IsResolved count (λ s. (sample_of samples.now s).b) (slice_index result 2) }
{
    let (mut red, mut green, mut blue) = (0u32, 0u32, 0u32);
    for s in 0..count.count() as usize {
        red = with_channel(red, samples[s].r);
        green = with_channel(green, samples[s].g);
        blue = with_channel(blue, samples[s].b);
    }
    [mean(red, count), mean(green, count), mean(blue, count)]
}
