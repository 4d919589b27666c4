ghost use Rattle.std.specs.Prelude.{◌≡◌, ◌+◌, ◌*◌, ◌<◌};
ghost use Rattle.grid.specs.Samples.{part_size, IsPart, sample_position};
ghost use Rattle.lanes.specs.Block.{IsOnScreen};

use grid::{Point, SampleCount, sample_at};

/// Some samples of a block of 8 by 8 pixels, whose first pixel is (8 * bx, 8 * by).
#[derive(Clone, Copy, Debug)]
pub struct BlockMask {
    /// The column of blocks.
    pub bx: u32,
    /// The row of blocks.
    pub by: u32,
    /// How many samples a pixel has.
    pub count: SampleCount,
    /// The sample index of the first word: the samples of a part are in the mask.
    pub from: u32,
    /// A word for each sample index of the part, whose bit 8 * row + column is set for the pixel in that row and column
    /// of the block.
    pub plane: [u64; 4],
    pub ghost column: { bx < 512 },
    pub ghost row: { by < 512 },
    pub ghost part: { IsPart count from },
}

impl BlockMask {
    /// Where sample `from + s` of the block's first pixel lies.
    #[inline(always)]
    pub fn first(&self, s: u32) -> Point
        requires { s < part_size self.now.count }
        ensures value { result ≡ sample_position (8 * self.now.bx) (8 * self.now.by) (self.now.from + s) self.now.count }
        ensures on_screen { IsOnScreen result }
    {
        sample_at(8 * self.bx, 8 * self.by, self.from + s, self.count)
    }
}
