//! The number of samples of a pixel, where it is known when code is compiled.
ghost use Rattle.std.specs.Prelude.{◌≡◌};
ghost use Rattle.grid.specs.Samples.{count_of};

use grid::SampleCount;

/// The count, whose number of samples is known when it is compiled.
#[inline(always)]
pub fn known<const COUNT: u32>(count: SampleCount) -> SampleCount
    requires { count_of count ≡ COUNT }
    ensures { result ≡ count }
{
    match COUNT {
        1 => SampleCount::One,
        2 => SampleCount::Two,
        4 => SampleCount::Four,
        8 => SampleCount::Eight,
        16 => SampleCount::Sixteen,
        _ => count,
    }
}
