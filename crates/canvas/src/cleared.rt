//! Samples that are all the same.
ghost use Rattle.std.specs.Prelude.{◌≡◌, ◌-◌, ◌*◌, ◌≤◌, length};
ghost use Rattle.shade.specs.Canvas.{with_alpha};
ghost use Rattle.canvas.specs.Layout.{columns_of, planes_of_rows};
ghost use Rattle.canvas.specs.Drawing.{AreCleared};
ghost use Rattle.canvas.specs.Tiles.{AreUniform};

use crate::tile_rows::TileRows;
use blocks::clear_tile;
use lanes::BlockSamples;
use shade::Sample;

impl TileRows {
    /// How many tiles these tile rows have.
    fn tiles(&self) -> usize
        ensures value { result ≡ (self.now.end - self.now.first) * columns_of self.now.canvas }
        ensures few { result ≤ 4096 }
    {
        (self.end - self.first) as usize * self.canvas.column_count() as usize
    }

    /// Makes each sample of these tile rows the given one, with this alpha if alpha is stored.
    pub(crate) fn clear_all(&self, sample: Sample, alpha: u8, samples: &mut [BlockSamples])
        requires { length samples.old ≡ planes_of_rows self.now.canvas self.now.first self.now.end }
        ensures cleared { AreCleared self.now.canvas self.now.first self.now.end (with_alpha sample alpha)
            samples.new }
        ensures uniform { AreUniform self.now.canvas self.now.first self.now.end samples.new }
    {
        let each = self.canvas.planes_of_tile();
        for number in 0..self.tiles() {
            let from = number * each;
            clear_tile(
                self.canvas.count,
                sample,
                alpha,
                &mut samples[from..from + each],
            );
        }
    }
}
