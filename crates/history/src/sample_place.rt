//! Where a sample lies.
ghost use Rattle.std.specs.Prelude.{◌≡◌, ◌<◌};
ghost use Rattle.grid.specs.Samples.{count_of, sample_position};

use grid::{Point, SampleCount, sample_at};

/// A sample of a picture of at most 4096 by 4096 pixels.
#[derive(Clone, Copy, Debug)]
pub struct SamplePlace {
    /// How many samples a pixel has.
    pub count: SampleCount,
    /// The column of the pixel.
    pub px: u32,
    /// The row of the pixel.
    pub py: u32,
    /// The index of the sample.
    pub s: u32,
    pub ghost column: { px < 4096 },
    pub ghost row: { py < 4096 },
    pub ghost sample: { s < count_of count },
}

impl SamplePlace {
    /// The point at which triangles are sampled.
    pub(crate) fn point(self) -> Point
        ensures { result ≡ sample_position self.px self.py self.s self.count }
    {
        sample_at(self.px, self.py, self.s, self.count)
    }
}
